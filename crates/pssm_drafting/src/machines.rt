//! The machines of a draft, each with the elements of its own.
ghost use Rattle.std.specs.Prelude.{◌≡◌, ◌<◌, length, map, codes, get_or, option_map, IfOk};
ghost use Rattle.std.specs.List.{All};
ghost use Rattle.pssm_numbering.specs.Lists.{is_listed};
ghost use Rattle.pssm_numbering.specs.Numbering.{machines as machines_in, own_with, place_in, is_machine, is_region, is_vertex, is_transition};
ghost use Rattle.pssm_numbering.specs.Meanings.{meant_with as meant_of};
ghost use Rattle.pssm_parts.specs.Elements as elements;
ghost use Rattle.pssm_drafting.specs.Drafts as drafts;
ghost use Rattle.pssm_drafting.specs.Fitting.{FitsDraft};

use crate::elements::{region_at, transition_at, vertex_at};
use crate::places::{id_of, machine_count};
use pssm_model::{DraftParts, PartRegion, PartTransition, PartVertex, Row};
use pssm_numbering::{File, Kind, ListKind, Numbering, meant_with};
use std::alloc::{AllocError as NoMemory, Global};

// The machine at this place.
fn machine_at(numbering: &Numbering, k: u32) -> u32
    requires { k < length (machines_in numbering.now) }
    ensures at { result ≡ get_or (machines_in numbering.now) k 0 }
    ensures within { result < length numbering.now.doc }
{
    numbering.machines()[k as usize]
}

// The elements of a kind of the machine at this place.
fn own_at(numbering: &Numbering, kind: ListKind, k: u32) -> &[u32]
    requires { k < length (machines_in numbering.now) }
    ensures list { result.now ≡ own_with (is_listed kind) numbering.now (get_or (machines_in numbering.now) k 0) }
    ensures within { All (λ n. n < length numbering.now.doc) result.now }
{
    numbering.own(kind, k)
}

/// The regions of the machine at this place (UML 2.5.1, 14.5.8, Region).
pub fn regions_of(
    alloc: Global,
    file: &File,
    numbering: &Numbering,
    k: u32,
) -> Result<Row<PartRegion>, NoMemory>
    requires same { numbering.now ≡ file.now }
    requires there { k < length (machines_in file.now) }
    requires fits { FitsDraft file.now }
    ensures { IfOk result (λ row. row
        ≡ map (elements.region_at file.now) (own_with is_region file.now (get_or (machines_in file.now) k 0))) }
{
    let mut row = Row::from_vec(Vec::new(alloc));
    for n in own_at(numbering, ListKind::Region, k) {
        row.push(region_at(alloc, file, numbering, *n)?)?;
    }
    Ok(row)
}

/// Its vertices (UML 2.5.1, 14.5.14, Vertex).
pub fn vertices_of(
    alloc: Global,
    file: &File,
    numbering: &Numbering,
    k: u32,
) -> Result<Row<PartVertex>, NoMemory>
    requires same { numbering.now ≡ file.now }
    requires there { k < length (machines_in file.now) }
    requires fits { FitsDraft file.now }
    ensures { IfOk result (λ row. row
        ≡ map (elements.vertex_at file.now) (own_with is_vertex file.now (get_or (machines_in file.now) k 0))) }
{
    let mut row = Row::from_vec(Vec::new(alloc));
    for n in own_at(numbering, ListKind::Vertex, k) {
        row.push(vertex_at(alloc, file, numbering, *n)?)?;
    }
    Ok(row)
}

/// Its transitions (UML 2.5.1, 14.5.11, Transition).
pub fn transitions_of(
    alloc: Global,
    file: &File,
    numbering: &Numbering,
    k: u32,
) -> Result<Row<PartTransition>, NoMemory>
    requires same { numbering.now ≡ file.now }
    requires there { k < length (machines_in file.now) }
    requires fits { FitsDraft file.now }
    ensures { IfOk result (λ row. row
        ≡ map (elements.transition_at file.now) (own_with is_transition file.now (get_or (machines_in file.now) k 0))) }
{
    let mut row = Row::from_vec(Vec::new(alloc));
    for n in own_at(numbering, ListKind::Transition, k) {
        row.push(transition_at(alloc, file, numbering, *n)?)?;
    }
    Ok(row)
}

// The place of the machine that a machine extends.
fn extended_by(
    alloc: Global,
    file: &File,
    numbering: &Numbering,
    m: u32,
) -> Result<Option<u32>, NoMemory>
    requires same { numbering.now ≡ file.now }
    requires within { m < length file.now.doc }
    ensures { IfOk result (λ found. found ≡ option_map (place_in (machines_in file.now))
        (meant_of is_machine (codes "extendedStateMachine") file.now m)) }
{
    match meant_with(alloc, file, m, b"extendedStateMachine", Kind::Machine)? {
        None => Ok(None),
        Some(machine) => Ok(Some(numbering.machine_place(machine))),
    }
}

/// The machine at this place, with the elements of its own (UML 2.5.1, 14.5.10, StateMachine).
pub fn parts_at(
    alloc: Global,
    file: &File,
    numbering: &Numbering,
    k: u32,
) -> Result<DraftParts, NoMemory>
    requires same { numbering.now ≡ file.now }
    requires there { k < length (machines_in file.now) }
    requires fits { FitsDraft file.now }
    ensures { IfOk result (λ parts. parts ≡ drafts.parts_at file.now (get_or (machines_in file.now) k 0)) }
{
    let m = machine_at(numbering, k);
    Ok(DraftParts {
        id: id_of(alloc, file, m)?,
        extends: extended_by(alloc, file, numbering, m)?,
        regions: regions_of(alloc, file, numbering, k)?,
        vertices: vertices_of(alloc, file, numbering, k)?,
        transitions: transitions_of(alloc, file, numbering, k)?,
    })
}

/// The machines of a file.
pub fn machines_of(
    alloc: Global,
    file: &File,
    numbering: &Numbering,
) -> Result<Row<DraftParts>, NoMemory>
    requires same { numbering.now ≡ file.now }
    requires fits { FitsDraft file.now }
    ensures { IfOk result (λ row. row ≡ map (drafts.parts_at file.now) (machines_in file.now)) }
{
    let mut row = Row::from_vec(Vec::new(alloc));
    for k in 0..machine_count(file, numbering) {
        row.push(parts_at(alloc, file, numbering, k)?)?;
    }
    Ok(row)
}
