//! Copies of a machine and its parts, and what is equal.
//!
//! A value of many parts is dropped by a call: a drop at the end of a body is proved for each way out of it.
use crate::tests::drafts::{machine_of, vec_of};
use pssm_model::{Duplicate, Firing, Machine, Route, Row, Same, SignalId, Text, TransId};
use std::alloc::Global;
use std::test::Fail;

/// Whether a machine equals its copy.
fn equals_its_copy(alloc: Global, machine: &Machine) -> Result<bool, Fail> {
    let other = machine.copy(alloc)?;
    let equal = *machine == other && machine.same(&other);
    drop(other);
    Ok(equal)
}

/// Whether a machine equals one with these transitions.
fn equals_one_with(alloc: Global, machine: &Machine, transitions: &[u8]) -> Result<bool, Fail> {
    let other = machine_of(alloc, b"tB", b"0i0s1s", transitions)?;
    let equal = *machine == other;
    drop(other);
    Ok(equal)
}

/// Whether a machine of two regions, three vertices and two transitions is copied and compared as it should be.
fn machine_compares(alloc: Global, machine: &Machine) -> Result<bool, Fail> {
    Ok(
        (machine.regions(), machine.vertices(), machine.transitions()) == (2, 3, 2)
            && equals_its_copy(alloc, machine)?
            && !equals_one_with(alloc, machine, b"01.12.")?,
    )
}

#[test]
fn machines_are_copied_and_compared(rt: HostRuntime) -> Result<(), Fail> {
    let machine = machine_of(rt.alloc(), b"tB", b"0i0s1s", b"01.12!")?;
    let holds = machine_compares(rt.alloc(), &machine);
    drop(machine);
    assert!(rt; holds?);
    Ok(())
}

fn text_of(alloc: Global, bytes: &[u8]) -> Result<Text, Fail> {
    Ok(Text::from_vec(bytes.to_vec(alloc)?))
}

/// Whether a text is copied and compared, and the copy has these bytes.
fn text_compares(alloc: Global, text: &Text, bytes: &[u8]) -> Result<bool, Fail> {
    let same = text.same(&text.copy(alloc)?);
    let differs = *text != text_of(alloc, b"gO")?;
    let copied = text.copy(alloc)?.into_vec();
    Ok(same && differs && copied.as_slice() == bytes)
}

#[test]
fn texts_keep_what_they_are_made_of(rt: HostRuntime) -> Result<(), Fail> {
    let holds = text_compares(rt.alloc(), &text_of(rt.alloc(), b"go")?, b"go")?;
    assert!(rt; holds);
    Ok(())
}

fn row_of(alloc: Global, signal: SignalId) -> Result<Row<SignalId>, Fail> {
    Ok(Row::from_vec(vec_of(alloc, signal)?))
}

/// Whether a row is copied and compared, and the copy has this signal.
fn row_compares(alloc: Global, row: &Row<SignalId>, signal: SignalId) -> Result<bool, Fail> {
    let equal = *row == row.duplicate(alloc)?;
    let differs = *row != row_of(alloc, SignalId(6))?;
    let copied = row.duplicate(alloc)?.into_vec();
    Ok(equal && differs && copied.as_slice() == [signal].as_slice())
}

#[test]
fn rows_keep_what_they_are_made_of(rt: HostRuntime) -> Result<(), Fail> {
    let holds = row_compares(rt.alloc(), &row_of(rt.alloc(), SignalId(7))?, SignalId(7))?;
    assert!(rt; holds);
    Ok(())
}

fn route_of(alloc: Global, start: u16, rest: u16) -> Result<Route, Fail> {
    let starts = Row::from_vec(vec_of(alloc, TransId(start))?);
    Ok(Route {
        starts,
        rest: Row::from_vec(vec_of(alloc, TransId(rest))?),
    })
}

/// Whether a route is copied and compared.
fn route_compares(alloc: Global, route: &Route) -> Result<bool, Fail> {
    let equal = *route == route.copy(alloc)?;
    let differs = *route != route_of(alloc, 1, 3)?;
    Ok(equal && differs)
}

#[test]
fn routes_are_copied_and_compared(rt: HostRuntime) -> Result<(), Fail> {
    let holds = route_compares(rt.alloc(), &route_of(rt.alloc(), 1, 2)?)?;
    assert!(rt; holds);
    Ok(())
}

fn firing_of(alloc: Global, start: u16, rest: u16) -> Result<Firing, Fail> {
    let route = route_of(alloc, start, rest)?;
    Ok(Firing {
        routes: Row::from_vec(vec_of(alloc, route)?),
    })
}

/// Whether a firing is copied and compared.
fn firing_compares(alloc: Global, firing: &Firing) -> Result<bool, Fail> {
    let equal = *firing == firing.copy(alloc)?;
    let differs = *firing != firing_of(alloc, 1, 3)?;
    Ok(equal && differs)
}

#[test]
fn firings_are_copied_and_compared(rt: HostRuntime) -> Result<(), Fail> {
    let holds = firing_compares(rt.alloc(), &firing_of(rt.alloc(), 1, 2)?)?;
    assert!(rt; holds);
    Ok(())
}
