//! What is noted of each machine while totals are found.
ghost use Rattle.std.specs.Prelude.{◌≡◌, ◌<◌, length, map, IfOk, IfSome};
ghost use Rattle.pssm_totals.specs.Totals.{extended};
ghost use Rattle.pssm_totals.specs.inner.Ways.{total_in, IsNextUnknown};

use std::alloc::{AllocError as NoMemory, Global};

// What is noted of a machine: nothing, that a way passed it, or its total.
#[derive(Clone, Copy)]
pub(crate) enum Mark {
    Unknown,
    Passed,
    Total(u32),
}

// The machine that a machine extends.
pub(crate) fn extended_by(extends: &[Option<u32>], m: usize) -> Option<usize>
    requires { m < length extends.now }
    ensures { result ≡ extended extends.now m }
{
    match extends[m] {
        Some(base) => Some(base as usize),
        None => None,
    }
}

// The total in a note, or 0.
pub(crate) fn total_of(mark: Mark) -> u32
    ensures { result ≡ total_in mark }
{
    match mark {
        Mark::Total(total) => total,
        _ => 0,
    }
}

// The next machine, if nothing is noted of it.
pub(crate) fn next_unknown(marks: &[Mark], next: Option<usize>) -> Option<usize>
    requires { IfSome next (λ at. at < length marks.now) }
    ensures { IsNextUnknown marks.now next result }
{
    let at = next?;
    match marks[at] {
        Mark::Unknown => Some(at),
        _ => None,
    }
}

// The totals that are noted.
pub(crate) fn read(alloc: Global, marks: &[Mark]) -> Result<Vec<u32>, NoMemory>
    ensures { IfOk result (λ totals. totals.items ≡ map total_in marks.now) }
{
    let mut totals = Vec::new(alloc);
    for mark in marks {
        totals.push(total_of(*mark))?;
    }
    Ok(totals)
}
