//! `ListKind`: the kinds of elements that a state machine has lists of, and these lists.
ghost use Rattle.std.specs.Prelude.{◌≡◌, ◌<◌, ◌≤◌, ◌+◌, ◌++◌, ◌∷◌, [], Some};
ghost use Rattle.std.specs.Prelude.{None, length, replicate, set, get_or, IfOk, IfSome, OnOk};
ghost use Rattle.pssm_numbering.specs.Kinds.{is_of as of_kind};
ghost use Rattle.pssm_numbering.specs.Lists.{is_listed};
ghost use Rattle.pssm_numbering.specs.Numbering.{machines as machines_in, own_place, beside};
ghost use Rattle.pssm_numbering.specs.inner.Tables.{AreGroups, row_of as row_in};

use crate::file::File;
use crate::kinds::{Kind, is_of};
use crate::machines::Machines;
use pssm_model::Row;
use std::alloc::{AllocError as NoMemory, Global};

/// A kind of elements that a state machine has a list of.
#[derive(Clone, Copy, PartialEq, Eq)]
pub enum ListKind {
    /// A region.
    Region,
    /// A State, a final State, a pseudostate or a connection point.
    Vertex,
    /// A transition.
    Transition,
}

// For each machine its elements of a kind in document order, and for each element its place among those of its machine.
#[derive(Drop)]
pub(crate) struct Groups {
    pub(crate) rows: Vec<Row<u32>>,
    pub(crate) places: Vec<Option<u32>>,
}

// The kind as one of all kinds.
pub(crate) fn kind_of(list: ListKind) -> Kind
    ensures { of_kind result ≡ is_listed list }
{
    match list {
        ListKind::Region => Kind::Region,
        ListKind::Vertex => Kind::Vertex,
        ListKind::Transition => Kind::Transition,
    }
}

// An empty list for each machine.
fn no_rows(alloc: Global, machines: &Machines) -> Result<Vec<Row<u32>>, NoMemory>
    ensures { IfOk result (λ rows. rows.items ≡ replicate (length (machines_in machines.now)) []) }
{
    let mut rows = Vec::new(alloc);
    for _m in 0..machines.list().len() {
        rows.push(Row::from_vec(Vec::new(alloc)))?;
    }
    Ok(rows)
}

// The place of the machine of an element, where the element is of the kind.
fn row_of(machines: &Machines, file: &File, kind: Kind, n: u32) -> Option<u32>
    requires same { machines.now ≡ file.now }
    requires within { n < length file.now.doc }
    ensures row { result ≡ row_in (of_kind kind) file.now n }
    ensures there { IfSome result (λ k. k < length (machines_in file.now)) }
{
    if is_of(kind, file.role(n)) {
        machines.place_above(n)
    } else {
        None
    }
}

// Adds an element to one of the lists.
fn with_own(rows: Vec<Row<u32>>, k: u32, n: u32) -> Result<Vec<Row<u32>>, NoMemory>
    requires { k < length rows.items }
    ensures { IfOk result (λ more. more.items ≡ set rows.items k (get_or rows.items k [] ++ n ∷ [])) }
{
    let mut more = rows;
    more[k as usize].push(n)?;
    Ok(more)
}

// One of the lists.
pub(crate) fn row_at(groups: &Groups, k: u32) -> &[u32]
    requires { k < length groups.now.rows.items }
    ensures { result.now ≡ get_or groups.now.rows.items k [] }
{
    groups.rows[k as usize].as_slice()
}

// How many elements there are in one of the lists.
fn length_of(groups: &Groups, k: u32) -> u32
    requires there { k < length groups.now.rows.items }
    requires short { length (get_or groups.now.rows.items k []) ≤ 4294967295 }
    ensures { result ≡ length (get_or groups.now.rows.items k []) }
{
    row_at(groups, k).len() as u32
}

// Adds the next element to one of the lists.
fn with_listed(groups: Groups, k: u32, n: u32) -> Result<Groups, NoMemory>
    requires there { k < length groups.rows.items }
    requires short { length (get_or groups.rows.items k []) ≤ n }
    ensures rows { IfOk result (λ more.
        more.rows.items ≡ set groups.rows.items k (get_or groups.rows.items k [] ++ n ∷ [])) }
    ensures places { IfOk result (λ more.
        more.places.items ≡ groups.places.items ++ Some (length (get_or groups.rows.items k [])) ∷ []) }
{
    let place = length_of(&groups, k);
    let mut places = groups.places;
    places.push(Some(place))?;
    let rows = with_own(groups.rows, k, n)?;
    Ok(Groups { rows, places })
}

// Notes that the next element is in none of the lists.
fn with_unlisted(groups: Groups) -> Result<Groups, NoMemory>
    ensures rows { IfOk result (λ more. more.rows.items ≡ groups.rows.items) }
    ensures places { IfOk result (λ more. more.places.items ≡ groups.places.items ++ None ∷ []) }
{
    let mut places = groups.places;
    places.push(None)?;
    Ok(Groups {
        rows: groups.rows,
        places,
    })
}

// Adds the next element to the list of its machine, where it is of the kind.
fn with_next(
    groups: Groups,
    machines: &Machines,
    file: &File,
    kind: Kind,
    n: u32,
) -> Result<Groups, NoMemory>
    requires same { machines.now ≡ file.now }
    requires within { n < length file.now.doc }
    requires so_far { AreGroups file.now (of_kind kind) n groups.rows.items groups.places.items }
    ensures { IfOk result (λ more. AreGroups file.now (of_kind kind) (n + 1) more.rows.items more.places.items) }
{
    match row_of(machines, file, kind, n) {
        None => with_unlisted(groups),
        Some(k) => with_listed(groups, k, n),
    }
}

// The elements of a kind by machine.
#[tactic(auto, using(crate::proofs::GroupLaws::groups_start))]
pub(crate) fn groups_of(
    alloc: Global,
    machines: &Machines,
    file: &File,
    kind: ListKind,
) -> Result<Groups, NoMemory>
    requires { machines.now ≡ file.now }
    ensures { IfOk result (λ groups.
        AreGroups file.now (is_listed kind) (length file.now.doc) groups.rows.items groups.places.items) }
{
    let mut groups = Groups {
        rows: no_rows(alloc, machines)?,
        places: Vec::new(alloc),
    };
    for n in 0..file.len() {
        groups = with_next(groups, machines, file, kind_of(kind), n)?;
    }
    Ok(groups)
}

// What is noted of the place of an element.
fn noted_at(groups: &Groups, n: u32) -> Option<u32>
    requires { n < length groups.now.places.items }
    ensures { result ≡ get_or groups.now.places.items n None }
{
    groups.places[n as usize]
}

// The place of an element in the list of its machine; past its end where it is not there.
pub(crate) fn place_beside(groups: &Groups, machines: &Machines, kind: ListKind, n: u32) -> u32
    requires groups { AreGroups machines.now (is_listed kind) (length machines.now.doc)
        groups.now.rows.items groups.now.places.items }
    requires within { n < length machines.now.doc }
    ensures { result ≡ own_place (is_listed kind) machines.now n }
{
    match noted_at(groups, n) {
        Some(place) => place,
        None => end_of(groups, machines, kind, n),
    }
}

// The length of the list of an element's machine; 0 where it has none.
fn end_of(groups: &Groups, machines: &Machines, kind: ListKind, n: u32) -> u32
    requires groups { AreGroups machines.now (is_listed kind) (length machines.now.doc)
        groups.now.rows.items groups.now.places.items }
    requires within { n < length machines.now.doc }
    ensures { result ≡ length (beside (is_listed kind) machines.now n) }
{
    machines.known_sizes();
    match machines.place_above(n) {
        None => 0,
        Some(k) => length_of(groups, k),
    }
}
