//! Where the vertices of a machine lie, and what they lie in together.
use crate::tests::drafts::machine_of;
use pssm_model::{Machine, RegionId, VertexId};
use std::alloc::Global;
use std::ops::Range;
use std::test::Fail;

/// The regions in which a vertex lies.
fn regions_of(alloc: Global, machine: &Machine, v: u16) -> Result<Vec<u16>, Fail> {
    let mut found = Vec::new(alloc);
    if v < machine.vertices() {
        for r in 0..machine.regions() {
            if machine.lies_in_region(VertexId(v), RegionId(r)) {
                found.push(r)?;
            }
        }
    }
    Ok(found)
}

/// The States in which a vertex lies.
fn states_of(alloc: Global, machine: &Machine, v: u16) -> Result<Vec<u16>, Fail> {
    let mut found = Vec::new(alloc);
    if v < machine.vertices() {
        for s in 0..machine.vertices() {
            if machine.lies_in_state(VertexId(v), VertexId(s)) {
                found.push(s)?;
            }
        }
    }
    Ok(found)
}

/// Whether a vertex lies in just these regions and States; its depth is the number of the regions.
fn lies_in(
    alloc: Global,
    machine: &Machine,
    v: u16,
    regions: &[u16],
    states: &[u16],
) -> Result<bool, Fail> {
    if v >= machine.vertices() || machine.depth(VertexId(v)) as usize != regions.len() {
        return Ok(false);
    }
    Ok(
        regions_of(alloc, machine, v)?.as_slice() == regions
            && states_of(alloc, machine, v)?.as_slice() == states,
    )
}

/// The number of the innermost region in which two vertices lie.
fn scope_of(machine: &Machine, v: u16, w: u16) -> Option<u16> {
    if v < machine.vertices() && w < machine.vertices() {
        let RegionId(region) = machine.scope(&[VertexId(v), VertexId(w)])?;
        Some(region)
    } else {
        None
    }
}

/// Whether each of these vertices lies in just these regions and States.
fn all_lie_in(
    alloc: Global,
    machine: &Machine,
    list: Range<u16>,
    regions: &[u16],
    states: &[u16],
) -> Result<bool, Fail> {
    for v in list {
        if !lies_in(alloc, machine, v, regions, states)? {
            return Ok(false);
        }
    }
    Ok(true)
}

/// Region 1 of State 1, which lies in region 0, and region 2 of State 4, which lies in region 1.
fn history_machine(alloc: Global) -> Result<Machine, Fail> {
    machine_of(alloc, b"tBE", b"0i0s0s1i1s1h1d1f2i2s2s", b"")
}

/// Whether its vertices lie in what stands on their owner chains.
fn lie_as_owned(alloc: Global, machine: &Machine) -> Result<bool, Fail> {
    Ok(
        all_lie_in(alloc, machine, 0..3, &[0], &[])?
            && all_lie_in(alloc, machine, 3..8, &[0, 1], &[1])?
            && all_lie_in(alloc, machine, 8..11, &[0, 1, 2], &[1, 4])?,
    )
}

#[test]
fn vertices_lie_in_what_stands_on_their_owner_chains(rt: HostRuntime) -> Result<(), Fail> {
    let machine = history_machine(rt.alloc())?;
    let holds = lie_as_owned(rt.alloc(), &machine);
    drop(machine);
    assert!(rt; holds?);
    Ok(())
}

/// Whether the scopes are the innermost common regions.
fn have_scopes(machine: &Machine) -> bool {
    scope_of(machine, 9, 10) == Some(2)
        && scope_of(machine, 9, 4) == Some(1)
        && scope_of(machine, 7, 10) == Some(1)
        && scope_of(machine, 9, 2) == Some(0)
        && scope_of(machine, 1, 4) == Some(0)
        && scope_of(machine, 1, 1) == Some(0)
}

#[test]
fn the_scope_is_the_innermost_common_region(rt: HostRuntime) -> Result<(), Fail> {
    let machine = history_machine(rt.alloc())?;
    let holds = have_scopes(&machine);
    drop(machine);
    assert!(rt; holds);
    Ok(())
}

/// An entry point of State 0 lies where the State lies; State 2 stands in its region 1, and State 3 in another top region.
fn entered_machine(alloc: Global) -> Result<Machine, Fail> {
    machine_of(alloc, b"tAt", b"0sAn1s2s", b"12.")
}

/// Whether its entry point and the State behind it lie so, and it has these scopes.
fn points_lie_outside(alloc: Global, machine: &Machine) -> Result<bool, Fail> {
    Ok(
        lies_in(alloc, machine, 1, &[0], &[])?
            && lies_in(alloc, machine, 2, &[0, 1], &[0])?
            && scope_of(machine, 1, 2) == Some(0)
            && scope_of(machine, 2, 3).is_none()
            && scope_of(machine, 3, 3) == Some(2),
    )
}

#[test]
fn points_lie_where_their_states_lie(rt: HostRuntime) -> Result<(), Fail> {
    let machine = entered_machine(rt.alloc())?;
    let holds = points_lie_outside(rt.alloc(), &machine);
    drop(machine);
    assert!(rt; holds?);
    Ok(())
}
