//! The arrows that the rules of paths follow.
ghost use Rattle.std.specs.Prelude.{◌≡◌, ◌↔◌, ◌<◌, ℕ, Contains, length, IfOk, IsTrue, MatchOption};
ghost use Rattle.pssm_model.specs.Shapes.{HasShape};
ghost use Rattle.pssm_wellformed.specs.inner.Walks.{Passes, near_end, far_end, AreArrows, IsDefault, number_of_region, AreLeadsOut, AreLeads, IsLateTarget};

use crate::counts::meets_some;
use crate::elements::{has_kind, is_history, is_inner, is_late_origin, is_pseudostate};
use crate::ends::{End, end_of};
use crate::lists::{empty_lists, put, put_behind};
use pssm_model::{Machine, Owner, RegionId, TransId, VertexId, VertexKind};
use std::alloc::{AllocError as NoMemory, Global};

/// A way to walk over transitions: forwards through junctions, forwards as inner paths do,
/// backwards through junctions, and forwards through all pseudostates.
#[derive(Clone, Copy)]
pub enum Walk {
    Junctions,
    Inner,
    Back,
    Through,
}

/// Whether the walk goes on from the vertex.
fn passes(machine: &Machine, walk: Walk, vertex: VertexId) -> bool
    requires { vertex.0 < length machine.now.vertices }
    ensures { IsTrue result ↔ Passes machine.now walk vertex }
{
    match walk {
        Walk::Junctions | Walk::Back => has_kind(machine, vertex, VertexKind::Junction),
        Walk::Inner => is_inner(machine, vertex),
        Walk::Through => is_pseudostate(machine, vertex),
    }
}

/// The end of a transition at which the walk comes to it.
fn near(walk: Walk) -> End
    ensures { result ≡ near_end walk }
{
    match walk {
        Walk::Back => End::Target,
        _ => End::Source,
    }
}

/// The end of a transition to which it leads the walk.
fn far(walk: Walk) -> End
    ensures { result ≡ far_end walk }
{
    match walk {
        Walk::Back => End::Source,
        _ => End::Target,
    }
}

/// The arrows of the walk.
pub fn arrows_of(alloc: Global, machine: &Machine, walk: Walk) -> Result<Vec<Vec<u16>>, NoMemory>
    requires { HasShape machine.now }
    ensures { IfOk result (λ onward. AreArrows machine.now walk onward.items) }
{
    let mut onward = empty_lists(alloc, machine.vertices())?;
    for number in 0..machine.transitions() {
        let tail = end_of(machine, TransId(number), near(walk));
        let head = end_of(machine, TransId(number), far(walk));
        if passes(machine, walk, tail) {
            put(&mut onward, tail.0, head.0)?;
        }
    }
    Ok(onward)
}

/// The region to whose initial vertices the vertex leads by default: its own, where it is a history
/// vertex without transitions.
fn default_region(machine: &Machine, vertex: VertexId) -> Option<RegionId>
    requires { vertex.0 < length machine.now.vertices }
    ensures { MatchOption result ((r : RegionId) → IsDefault machine.now vertex r → ⊥)
        (λ r. IsDefault machine.now vertex r) }
{
    if !is_history(machine, vertex) || meets_some(machine, vertex, End::Source) {
        return None;
    }
    match machine.vertex(vertex).owner {
        Owner::Region(region) => Some(region),
        _ => None,
    }
}

/// The number of the region behind those of the vertices.
fn number_behind(machine: &Machine, region: RegionId) -> u16
    requires shape { HasShape machine.now }
    requires there { region.0 < length machine.now.regions }
    ensures { result ≡ number_of_region machine.now region }
{
    machine.vertices() + region.0
}

/// The arrows out of vertices: through pseudostates, and from each history vertex without
/// transitions to the number of its region.
fn leads_out(alloc: Global, machine: &Machine) -> Result<Vec<Vec<u16>>, NoMemory>
    requires { HasShape machine.now }
    ensures { IfOk result (λ onward. AreLeadsOut machine.now onward.items) }
{
    let mut onward = arrows_of(alloc, machine, Walk::Through)?;
    for number in 0..machine.vertices() {
        match default_region(machine, VertexId(number)) {
            Some(region) => put(&mut onward, number, number_behind(machine, region))?,
            None => {}
        }
    }
    Ok(onward)
}

/// The arrows through pseudostates, and those of history vertices without transitions. Each of
/// these leads to the number of its region, and that to the region's initial vertices, so that
/// there are no more arrows than vertices and transitions.
pub fn leads_of(alloc: Global, machine: &Machine) -> Result<Vec<Vec<u16>>, NoMemory>
    requires { HasShape machine.now }
    ensures { IfOk result (λ onward. AreLeads machine.now onward.items) }
{
    let mut onward = leads_out(alloc, machine)?;
    for number in 0..machine.regions() {
        put_behind(alloc, &mut onward, machine.initials_of(RegionId(number)))?;
    }
    Ok(onward)
}

/// Where the transitions out of initial, history and choice vertices end.
pub fn late_targets(alloc: Global, machine: &Machine) -> Result<Vec<u16>, NoMemory>
    requires { HasShape machine.now }
    ensures { IfOk result (λ list. (b : ℕ) → Contains list.items b ↔ IsLateTarget machine.now b) }
{
    let mut list = Vec::new(alloc);
    for number in 0..machine.transitions() {
        let target = end_of(machine, TransId(number), End::Target);
        if is_late_origin(machine, end_of(machine, TransId(number), End::Source)) {
            list.push(target.0)?;
        }
    }
    Ok(list)
}
