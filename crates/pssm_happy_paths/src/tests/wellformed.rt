//! Rules of models at guards, at a final state that behaves, and of a machine without regions.
ghost use Rattle.pssm_model.specs.Shapes.{HasShape};

use crate::tests::drafts::{draft_of, draft_of_a_state, vertex};
use pssm_model::{
    ActId, DraftMachine, Element, FaultPlace, Machine, Owner, RegionId, TransId, VertexId,
    VertexKind,
};
use pssm_wellformed::{Fault, check};
use std::alloc::Global;
use std::test::Fail;

/// A place and the rule that is broken there.
type Broken = (FaultPlace, u8);

/// How many faults there are, and the last of them.
fn told(faults: &[Fault]) -> (usize, Option<Broken>) {
    match faults.last() {
        Some(fault) => (faults.len(), Some((fault.element, fault.rule))),
        None => (0, None),
    }
}

/// How many rules the machine breaks, and the last of them.
fn faults_in(alloc: Global, machine: &Machine) -> Result<(usize, Option<Broken>), Fail>
    requires { HasShape machine.now }
{
    Ok(told(check(alloc, machine)?.as_slice()))
}

/// How many rules the machine of the draft breaks, and the last of them.
fn faults_of(alloc: Global, draft: &DraftMachine) -> Result<(usize, Option<Broken>), Fail> {
    let machine = Machine::new(alloc, draft).ok().ok_or("no machine")?;
    let faults = faults_in(alloc, &machine);
    drop(machine);
    faults
}

/// Whether the machine breaks this rule alone, or none.
fn breaks(
    alloc: Global,
    regions: &[u8],
    vertices: &[u8],
    transitions: &[u8],
    broken: Option<Broken>,
) -> Result<bool, Fail> {
    let draft = draft_of(alloc, regions, vertices, transitions)?;
    let faults = faults_of(alloc, &draft);
    drop(draft);
    let count = if broken.is_some() { 1 } else { 0 };
    Ok(faults? == (count, broken))
}

fn at_vertex(number: u16, rule: u8) -> Option<Broken> {
    Some((FaultPlace::At(Element::Vertex(VertexId(number))), rule))
}

/// A guard into a join, out of a fork, and out of an initial vertex.
#[test]
fn guards_out_of_place(rt: HostRuntime) -> Result<(), Fail> {
    let alloc = rt.alloc();
    let join = b"0i0s1i1s2i2s0j0s";
    assert!(rt; breaks(alloc, b"tBB", join, b"01.23.45.36?56.67.", at_vertex(6, 7))?);
    let fork = b"0i0s1i1s2i2s0k0s";
    assert!(rt; breaks(alloc, b"tBB", fork, b"07.23.45.76!63?65.", at_vertex(6, 8))?);
    let first = FaultPlace::At(Element::Transition(TransId(0)));
    assert!(rt; breaks(alloc, b"t", b"0i0s0s", b"01?12!", Some((first, 10)))?);
    Ok(())
}

/// A choice, or a junction that is reached late, whose branches are all guarded breaks E18.
#[test]
fn guarded_branches_alone(rt: HostRuntime) -> Result<(), Fail> {
    let alloc = rt.alloc();
    assert!(rt; breaks(alloc, b"t", b"0i0s0c", b"01.12!21?", at_vertex(2, 18))?);
    assert!(rt; breaks(alloc, b"t", b"0i0s0u", b"02.21?", at_vertex(2, 18))?);
    assert!(rt; breaks(alloc, b"t", b"0i0s0u0u", b"02.23?21e31?", at_vertex(3, 18))?);
    Ok(())
}

/// With `else` or a branch without guard, or reached early, it does not.
#[test]
fn guarded_branches_and_others(rt: HostRuntime) -> Result<(), Fail> {
    let alloc = rt.alloc();
    assert!(rt; breaks(alloc, b"t", b"0i0s0u", b"01.12!21?", None)?);
    assert!(rt; breaks(alloc, b"t", b"0i0s0u", b"02.21?21e", None)?);
    assert!(rt; breaks(alloc, b"t", b"0i0s0u0u", b"02.23?21e31.", None)?);
    assert!(rt; breaks(alloc, b"t", b"0i0s0c", b"01.12!21?21e", None)?);
    assert!(rt; breaks(alloc, b"t", b"0i0s0c0s0s", b"01.12!23?24e", None)?);
    Ok(())
}

/// A choice with a guarded branch out of its region.
#[test]
fn a_guarded_way_outside(rt: HostRuntime) -> Result<(), Fail> {
    let alloc = rt.alloc();
    let vertices = b"0i0s0s1i1s1c1s";
    assert!(rt; breaks(alloc, b"tB", vertices, b"01.34.45!52?56e", at_vertex(5, 20))?);
    assert!(rt; breaks(alloc, b"tB", vertices, b"01.34.45!54?56e", None)?);
    Ok(())
}

/// No region at all.
#[test]
fn no_region(rt: HostRuntime) -> Result<(), Fail> {
    assert!(rt; breaks(rt.alloc(), b"", b"", b"", Some((FaultPlace::Top, 1)))?);
    Ok(())
}

/// A final state with an entry behaviour in a region that lacks its initial vertex.
#[test]
fn a_final_state_that_behaves(rt: HostRuntime) -> Result<(), Fail> {
    let mut last = vertex(rt.alloc(), Owner::Region(RegionId(0)), VertexKind::Final);
    last.entry = ActId(1);
    let draft = draft_of_a_state(rt.alloc(), last)?;
    let faults = faults_of(rt.alloc(), &draft);
    drop(draft);
    assert!(rt; faults? == (2, at_vertex(0, 11)));
    Ok(())
}
