//! The numbers of elements in the flattened machine.
ghost use Rattle.std.specs.Prelude.{◌≡◌, ◌<◌, ◌+◌, [], length, replicate, slice_index_or, IfOk, OnOk};
ghost use Rattle.pssm_model.specs.DraftSettings.{IsInRange};
ghost use Rattle.pssm_heritage.specs.inner.Tables.{AreChain, own_count, look, above, with_number, IsNumbering, IsNumbered};

use crate::elements::{count_of, redefined_by};
use crate::kinds::ElementKind;
use pssm_model::{Draft, ElementRef, Row};
use std::alloc::{AllocError as NoMemory, Global};

// For each machine of a draft and each of its elements of a kind the number in the flattened machine, and by number the
// first form.
#[derive(Drop)]
pub(crate) struct Numbers {
    pub(crate) rows: Vec<Row<usize>>,
    pub(crate) firsts: Vec<ElementRef>,
}

// The number of an element.
pub(crate) fn number_in(rows: &[Row<usize>], e: ElementRef) -> Option<usize>
    ensures { result ≡ look rows.now e }
{
    let row = rows.get(e.machine as usize)?;
    row.as_slice().get(e.element as usize).copied()
}

// The number of what an element redefines in another machine.
pub(crate) fn number_above(
    draft: &Draft,
    kind: ElementKind,
    rows: &[Row<usize>],
    e: ElementRef,
) -> Option<usize>
    ensures { result ≡ above draft.now kind rows.now e }
{
    let f = redefined_by(draft, kind, e)?;
    if f.machine == e.machine {
        None
    } else {
        number_in(rows, f)
    }
}

// Notes one more number for a machine.
fn note(rows: &mut Vec<Row<usize>>, m: u32, number: usize) -> Result<(), NoMemory>
    requires { m < length rows.old.items }
    ensures { OnOk result (rows.new.items ≡ with_number rows.old.items m number) }
{
    let row = &mut rows[m as usize];
    row.push(number)
}

// The number of the next element, which is a new first form where it has none from above.
fn next_number(
    draft: &Draft,
    kind: ElementKind,
    rows: &[Row<usize>],
    firsts: &mut Vec<ElementRef>,
    e: ElementRef,
) -> Result<usize, NoMemory>
    ensures { IfOk result
        (λ n. IsNumbered draft.now kind rows.now firsts.old.items e n firsts.new.items) }
{
    match number_above(draft, kind, rows, e) {
        Some(number) => Ok(number),
        None => {
            let number = firsts.as_slice().len();
            firsts.push(e)?;
            Ok(number)
        }
    }
}

// Gives the next element of a machine its number.
fn add_element(
    draft: &Draft,
    kind: ElementKind,
    machines: &[u32],
    k: usize,
    i: u32,
    numbers: &mut Numbers,
) -> Result<(), NoMemory>
    requires range { IsInRange draft.now }
    requires chain { AreChain draft.now machines.now }
    requires place { k < length machines.now }
    requires there { i < own_count draft.now kind (slice_index_or machines.now k 0) }
    requires so_far { IsNumbering draft.now kind machines.now k i numbers.old.rows.items numbers.old.firsts.items }
    ensures { OnOk result
        (IsNumbering draft.now kind machines.now k (i + 1) numbers.new.rows.items numbers.new.firsts.items) }
{
    let e = ElementRef {
        machine: machines[k],
        element: i,
    };
    let number = next_number(draft, kind, numbers.rows.as_slice(), &mut numbers.firsts, e)?;
    note(&mut numbers.rows, e.machine, number)
}

// Gives the elements of the machine at place k of a chain their numbers.
fn add_machine(
    draft: &Draft,
    kind: ElementKind,
    machines: &[u32],
    k: usize,
    numbers: &mut Numbers,
) -> Result<(), NoMemory>
    requires range { IsInRange draft.now }
    requires chain { AreChain draft.now machines.now }
    requires place { k < length machines.now }
    requires so_far { IsNumbering draft.now kind machines.now k 0 numbers.old.rows.items numbers.old.firsts.items }
    ensures { OnOk result
        (IsNumbering draft.now kind machines.now (k + 1) 0 numbers.new.rows.items numbers.new.firsts.items) }
{
    for i in 0..count_of(draft, kind, machines[k]) {
        add_element(draft, kind, machines, k, i, numbers)?;
    }
    Ok(())
}

// No numbers yet, for so many machines.
fn no_rows(alloc: Global, count: usize) -> Result<Vec<Row<usize>>, NoMemory>
    ensures { IfOk result (λ rows. rows.items ≡ replicate count []) }
{
    let mut rows = Vec::with_capacity(alloc, count)?;
    for _m in 0..count {
        rows.push(Row::from_vec(Vec::new(alloc)))?;
    }
    Ok(rows)
}

// The numbers of the elements of a chain of machines.
pub(crate) fn numbers_of(
    alloc: Global,
    draft: &Draft,
    kind: ElementKind,
    machines: &[u32],
) -> Result<Numbers, NoMemory>
    requires range { IsInRange draft.now }
    requires chain { AreChain draft.now machines.now }
    ensures { IfOk result
        (λ n. IsNumbering draft.now kind machines.now (length machines.now) 0 n.rows.items n.firsts.items) }
{
    let mut numbers = Numbers {
        rows: no_rows(alloc, draft.machines.as_slice().len())?,
        firsts: Vec::new(alloc),
    };
    for k in 0..machines.len() {
        add_machine(draft, kind, machines, k, &mut numbers)?;
    }
    Ok(numbers)
}
