//! The ids and places of elements: their owners, and the elements that they redefine.
ghost use Rattle.std.specs.Prelude.{◌≡◌, ◌<◌, length, IfOk, IfSome};
ghost use Rattle.pssm_numbering.specs.Numbering.{is_vertex, machines as machines_in, own_place as place_of};
ghost use Rattle.pssm_numbering.specs.Lists.{is_listed as listed, ref_of as place_past};
ghost use Rattle.pssm_numbering.specs.Meanings.{id_of as id_said};
ghost use Rattle.pssm_parts.specs.Elements as elements;
ghost use Rattle.pssm_drafting.specs.Fitting.{FitsDraft, HasFewOwn};

use pssm_model::{ElementRef, Owner, RegionId, Text, VertexId};
use pssm_numbering::{File, Kind, ListKind, Numbering, is_of, known_roles};
use pssm_roles::Role;
use std::alloc::{AllocError as NoMemory, Global};

// The id of an element.
pub(crate) fn id_of(alloc: Global, file: &File, n: u32) -> Result<Text, NoMemory>
    requires { n < length file.now.doc }
    ensures { IfOk result (λ id. id ≡ id_said file.now n) }
{
    Ok(Text::from_vec(file.id(n).to_vec(alloc)?))
}

// How many machines there are.
pub(crate) fn machine_count(file: &File, numbering: &Numbering) -> u32
    requires { numbering.now ≡ file.now }
    ensures { result ≡ length (machines_in file.now) }
{
    let _ = file.len();
    numbering.machines().len() as u32
}

// The place of a vertex that is not there.
pub(crate) fn no_place(file: &File, numbering: &Numbering) -> ElementRef
    requires { numbering.now ≡ file.now }
    ensures { result ≡ place_past is_vertex file.now (length file.now.doc) }
{
    known_roles(file);
    ElementRef {
        machine: machine_count(file, numbering),
        element: 0,
    }
}

// Whether an element with this role is of the kind.
fn is_listed(kind: ListKind, role: Role) -> bool
    ensures { result ≡ listed kind role }
{
    match kind {
        ListKind::Region => is_of(Kind::Region, role),
        ListKind::Vertex => is_of(Kind::Vertex, role),
        ListKind::Transition => is_of(Kind::Transition, role),
    }
}

// The number of the region or vertex in its machine.
fn number_of(file: &File, numbering: &Numbering, kind: ListKind, n: u32) -> u16
    requires same { numbering.now ≡ file.now }
    requires within { n < length file.now.doc }
    requires few { HasFewOwn (listed kind) file.now }
    ensures { result ≡ place_of (listed kind) file.now n }
{
    known_roles(file);
    numbering.own_place(kind, n) as u16
}

// What owns an element that stands in this one.
fn owner_at(file: &File, numbering: &Numbering, p: u32) -> Owner
    requires same { numbering.now ≡ file.now }
    requires within { p < length file.now.doc }
    requires fits { FitsDraft file.now }
    ensures { result ≡ elements.owner_at file.now p }
{
    if is_listed(ListKind::Region, file.role(p)) {
        return Owner::Region(RegionId(number_of(file, numbering, ListKind::Region, p)));
    }
    if is_listed(ListKind::Vertex, file.role(p)) {
        return Owner::State(VertexId(number_of(file, numbering, ListKind::Vertex, p)));
    }
    Owner::Top
}

/// What owns a region or a vertex: the region or the vertex in which it stands, and the machine for a region of its own
/// (UML 2.5.1, 14.5.8, Region, and 14.5.14, Vertex).
pub fn owner_of(file: &File, numbering: &Numbering, n: u32) -> Owner
    requires same { numbering.now ≡ file.now }
    requires within { n < length file.now.doc }
    requires fits { FitsDraft file.now }
    ensures { result ≡ elements.owner_of file.now n }
{
    match file.parent(n) {
        None => Owner::Top,
        Some(p) => owner_at(file, numbering, p),
    }
}

/// The place of an element that may be absent, where it is of the kind.
pub fn ref_if(
    file: &File,
    numbering: &Numbering,
    kind: ListKind,
    found: Option<u32>,
) -> Option<ElementRef>
    requires same { numbering.now ≡ file.now }
    requires within { IfSome found (λ m. m < length file.now.doc) }
    ensures { result ≡ elements.ref_if (listed kind) file.now found }
{
    match found {
        None => None,
        Some(m) => if is_listed(kind, file.role(m)) {
            Some(numbering.ref_of(kind, m))
        } else {
            None
        },
    }
}
