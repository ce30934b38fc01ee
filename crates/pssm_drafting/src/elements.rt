//! The elements of a machine: regions, vertices and transitions.
ghost use Rattle.std.specs.Prelude.{◌≡◌, ◌<◌, length, IfOk};
ghost use Rattle.pssm_parts.specs.Elements as elements;
ghost use Rattle.pssm_drafting.specs.Fitting.{FitsDraft};

use crate::places::{id_of, no_place, owner_of, ref_if};
use crate::waiting::signals_at;
use pssm_model::{End, PartRegion, PartTransition, PartVertex, Row};
use pssm_numbering::{File, ListKind, Numbering, is_any_state, meant, redefined_vertex};
use pssm_parts::{behaviour_named, guard_of, kind_of, label_of, transition_kind};
use std::alloc::{AllocError as NoMemory, Global};

/// A region (UML 2.5.1, 14.5.8, Region).
pub fn region_at(
    alloc: Global,
    file: &File,
    numbering: &Numbering,
    n: u32,
) -> Result<PartRegion, NoMemory>
    requires same { numbering.now ≡ file.now }
    requires within { n < length file.now.doc }
    requires fits { FitsDraft file.now }
    ensures { IfOk result (λ region. region ≡ elements.region_at file.now n) }
{
    let extended = meant(alloc, file, n, b"extendedRegion")?;
    Ok(PartRegion {
        id: id_of(alloc, file, n)?,
        at: file.at(n),
        owner: owner_of(file, numbering, n),
        extends: ref_if(file, numbering, ListKind::Region, extended),
    })
}

/// A State or a final State (UML 2.5.1, 14.5.9, State).
pub fn state_at(
    alloc: Global,
    file: &File,
    numbering: &Numbering,
    n: u32,
) -> Result<PartVertex, NoMemory>
    requires same { numbering.now ≡ file.now }
    requires within { n < length file.now.doc }
    requires fits { FitsDraft file.now }
    ensures { IfOk result (λ vertex. vertex ≡ elements.state_at file.now n) }
{
    let redefined = redefined_vertex(alloc, file, n)?;
    Ok(PartVertex {
        id: id_of(alloc, file, n)?,
        at: file.at(n),
        owner: owner_of(file, numbering, n),
        kind: kind_of(file, n),
        label: label_of(alloc, file, n)?,
        entry: behaviour_named(alloc, file, n, b"entry")?,
        exit: behaviour_named(alloc, file, n, b"exit")?,
        steps: behaviour_named(alloc, file, n, b"doActivity")?,
        defers: signals_at(alloc, file, numbering, n, b"deferrableTrigger")?,
        redefines: ref_if(file, numbering, ListKind::Vertex, redefined),
        leaf: file.is_true(n, b"isLeaf"),
        submachine: None,
        connections: Row::from_vec(Vec::new(alloc)),
    })
}

/// A pseudostate or a connection point (UML 2.5.1, 14.5.6, Pseudostate).
pub fn pseudostate_at(
    alloc: Global,
    file: &File,
    numbering: &Numbering,
    n: u32,
) -> Result<PartVertex, NoMemory>
    requires same { numbering.now ≡ file.now }
    requires within { n < length file.now.doc }
    requires fits { FitsDraft file.now }
    ensures { IfOk result (λ vertex. vertex ≡ elements.pseudostate_at file.now n) }
{
    Ok(PartVertex {
        id: id_of(alloc, file, n)?,
        at: file.at(n),
        owner: owner_of(file, numbering, n),
        kind: kind_of(file, n),
        label: None,
        entry: None,
        exit: None,
        steps: None,
        defers: Row::from_vec(Vec::new(alloc)),
        redefines: None,
        leaf: false,
        submachine: None,
        connections: Row::from_vec(Vec::new(alloc)),
    })
}

/// A vertex (UML 2.5.1, 14.5.14, Vertex).
pub fn vertex_at(
    alloc: Global,
    file: &File,
    numbering: &Numbering,
    n: u32,
) -> Result<PartVertex, NoMemory>
    requires same { numbering.now ≡ file.now }
    requires within { n < length file.now.doc }
    requires fits { FitsDraft file.now }
    ensures { IfOk result (λ vertex. vertex ≡ elements.vertex_at file.now n) }
{
    if is_any_state(file.role(n)) {
        state_at(alloc, file, numbering, n)
    } else {
        pseudostate_at(alloc, file, numbering, n)
    }
}

/// An end of a transition (UML 2.5.1, 14.5.11, source and target).
pub fn end_at(
    alloc: Global,
    file: &File,
    numbering: &Numbering,
    n: u32,
    name: &[u8],
) -> Result<End, NoMemory>
    requires same { numbering.now ≡ file.now }
    requires within { n < length file.now.doc }
    ensures { IfOk result (λ end. end ≡ elements.end_at name.now file.now n) }
{
    match meant(alloc, file, n, name)? {
        Some(vertex) => Ok(End::Vertex(numbering.ref_of(ListKind::Vertex, vertex))),
        None => Ok(End::Vertex(no_place(file, numbering))),
    }
}

/// A transition (UML 2.5.1, 14.5.11, Transition).
pub fn transition_at(
    alloc: Global,
    file: &File,
    numbering: &Numbering,
    n: u32,
) -> Result<PartTransition, NoMemory>
    requires same { numbering.now ≡ file.now }
    requires within { n < length file.now.doc }
    requires fits { FitsDraft file.now }
    ensures { IfOk result (λ transition. transition ≡ elements.transition_at file.now n) }
{
    let redefined = meant(alloc, file, n, b"redefinedTransition")?;
    Ok(PartTransition {
        id: id_of(alloc, file, n)?,
        at: file.at(n),
        source: end_at(alloc, file, numbering, n, b"source")?,
        target: end_at(alloc, file, numbering, n, b"target")?,
        kind: transition_kind(file, n),
        triggers: signals_at(alloc, file, numbering, n, b"trigger")?,
        guard: guard_of(alloc, file, n)?,
        effect: behaviour_named(alloc, file, n, b"effect")?,
        redefines: ref_if(file, numbering, ListKind::Transition, redefined),
        leaf: file.is_true(n, b"isLeaf"),
    })
}
