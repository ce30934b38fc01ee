//! The transitions of a leg in the order in which they are taken (UML 2.5.1, 14.2.3.7, junction).
ghost use Rattle.std.specs.Prelude.{◌↔◌, ◌<◌, Contains, IfOk, IfSome, IfNone, IsTrue, AllPairs, length};
ghost use Rattle.pssm_model.specs.declared.ids.VertexId.{VertexId};
ghost use Rattle.pssm_model.specs.declared.ids.TransId.{TransId};
ghost use Rattle.pssm_model.specs.declared.elements.VertexKind.TheVariants as kinds;
ghost use Rattle.pssm_model.specs.Forest.{HasKind};
ghost use Rattle.pssm_model.specs.Legs.{On, Leaves, Enters};
ghost use Rattle.pssm_model.specs.RouteWords.{IsStepRoute};
ghost use Rattle.pssm_model.specs.WellFormed.{KeepsModelRules};
ghost use Rattle.pssm_legs.specs.inner.Chained.{BeginsChain, IsChainOf};

use crate::areas::has_kind;
use pssm_model::{Machine, Route, TransId, VertexId, VertexKind};
use std::alloc::{AllocError as NoMemory, Global};

/// The further transitions of a leg that takes one after another, and the vertex on which it ends.
#[derive(Drop)]
pub struct Chain {
    pub further: Vec<TransId>,
    pub last: VertexId,
}

// The first of the transitions that leaves a vertex, if one does.
fn one_out(machine: &Machine, transitions: &[TransId], v: VertexId) -> Option<TransId>
    requires { (t : TransId) → Contains transitions.now t → t.0 < length machine.now.transitions }
    ensures some { IfSome result (λ t. Contains transitions.now t × Leaves machine.now t v) }
    ensures none { IfNone result ((t : TransId) → Contains transitions.now t → Leaves machine.now t v → ⊥) }
{
    for t in transitions {
        if machine.source(*t) == v {
            return Some(*t);
        }
    }
    None
}

// Whether a transition is among these, which are in ascending number.
fn is_among(transitions: &[TransId], t: TransId) -> bool
    requires { AllPairs (λ t u. t.0 < u.0) transitions.now }
    ensures { IsTrue result ↔ Contains transitions.now t }
{
    let mut from = 0;
    let mut to = transitions.len();
    while from < to {
        let middle = from + (to - from) / 2;
        let here = transitions[middle];
        if here == t {
            return true;
        }
        if here.0 < t.0 {
            from = middle + 1;
        } else {
            to = middle;
        }
    }
    false
}

// The first of some transitions that is among others in ascending number, if one is.
fn one_among(some: &[TransId], transitions: &[TransId]) -> Option<TransId>
    requires { AllPairs (λ t u. t.0 < u.0) transitions.now }
    ensures some { IfSome result (λ t. Contains some.now t × Contains transitions.now t) }
    ensures none { IfNone result ((t : TransId) → Contains some.now t → Contains transitions.now t → ⊥) }
{
    for t in some {
        if is_among(transitions, *t) {
            return Some(*t);
        }
    }
    None
}

// The transition of some in ascending number that leaves a vertex, if one does: the shorter list is gone over.
fn out_among(machine: &Machine, transitions: &[TransId], v: VertexId) -> Option<TransId>
    requires vertex { v.0 < length machine.now.vertices }
    requires there { (t : TransId) → Contains transitions.now t → t.0 < length machine.now.transitions }
    requires ascending { AllPairs (λ t u. t.0 < u.0) transitions.now }
    ensures some { IfSome result (λ t. Contains transitions.now t × Leaves machine.now t v) }
    ensures none { IfNone result ((t : TransId) → Contains transitions.now t → Leaves machine.now t v → ⊥) }
{
    let outgoing = machine.outgoing(v);
    let few = transitions.len() <= outgoing.len();
    if few {
        one_out(machine, transitions, v)
    } else {
        one_among(outgoing, transitions)
    }
}

// The transition by which a route goes on from a junction to which one of it leads.
#[inline(never)]
fn next_of(machine: &Machine, route: &Route, v: VertexId) -> TransId
    requires rules { KeepsModelRules machine.now }
    requires route { IsStepRoute machine.now route.now }
    requires junction { HasKind machine.now v kinds.Junction }
    requires enters { (t : TransId) × On route.now t × Enters machine.now t v }
    ensures further { Contains route.now.rest result }
    ensures leaves { Leaves machine.now result v }
{
    let _shaped = machine.regions();
    match out_among(machine, route.rest.as_slice(), v) {
        Some(next) => next,
        None => unreachable!(),
    }
}

/// The further transitions of the leg that begins with this one and takes one after another.
///
/// `NoMemory`: memory ran out. A leg of one transition takes none.
#[inline(always)]
pub fn chain_of(
    alloc: Global,
    machine: &Machine,
    route: &Route,
    named: TransId,
) -> Result<Chain, NoMemory>
    requires rules { KeepsModelRules machine.now }
    requires route { IsStepRoute machine.now route.now }
    requires begins { BeginsChain machine.now route.now named }
    ensures chain { IfOk result (λ chain. IsChainOf machine.now route.now named chain.further.items chain.last) }
    ensures there { IfOk result (λ chain. chain.last.0 < length machine.now.vertices) }
{
    let _shaped = machine.regions();
    let mut further = Vec::new(alloc);
    let mut last = machine.target(named);
    'chain: while has_kind(machine, last, VertexKind::Junction) {
        let next = next_of(machine, route, last);
        let end = machine.target(next);
        further.push(next)?;
        last = end;
    }
    Ok(Chain { further, last })
}
