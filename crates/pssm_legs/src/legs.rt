//! `Legs`: what is known of the legs of a route.
ghost use Rattle.std.specs.Prelude.{◌≡◌, ◌↔◌, ◌∷◌, ◌<◌, ◌+◌, IfOk, IfSome, IsTrue, length};
ghost use Rattle.pssm_model.specs.declared.elements.VertexKind.TheVariants as kinds;
ghost use Rattle.pssm_model.specs.declared.steps.Route.{Route as DraftRoute};
ghost use Rattle.pssm_model.specs.Forest.{HasKind};
ghost use Rattle.pssm_model.specs.Legs.{On};
ghost use Rattle.pssm_model.specs.RouteWords.{IsStepRoute};
ghost use Rattle.pssm_model.specs.WellFormed.{KeepsModelRules};
ghost use Rattle.pssm_legs.specs.LegsOf.{GoesOn, IsLoneStart, AreLegsOf, IsAt, leg_list};
ghost use Rattle.pssm_legs.specs.inner.Chained.{BeginsChain, BeginsChains, BeginsRoute, IsStarAt, IsMade, AreDone, EndsLeg};

use crate::areas::{Area, area_of_path, has_kind};
use crate::further::Further;
use crate::path::{Chain, chain_of};
use pssm_model::{Machine, Route, TransId, VertexId, VertexKind};
use std::alloc::{AllocError as NoMemory, Global};

/// A leg of a route: a part between two forks, joins, entry or exit points (UML 2.5.1, 14.2.3.8, compound transitions).
#[derive(Drop)]
pub struct Leg {
    /// One of its transitions, the first where they are taken in order.
    pub named: TransId,
    /// Its other transitions.
    pub further: Further,
    /// Whether its transitions are taken in this order; else all enter one join or leave one fork.
    pub in_order: bool,
    /// Where it exits and enters.
    pub area: Area,
    /// The vertex on which it ends; one of them where all its transitions leave one fork.
    pub last: VertexId,
    /// The place of the leg behind which it begins.
    pub before: Option<usize>,
}

/// The legs of a route (UML 2.5.1, 14.2.3.8, compound transitions): that with which it starts, and the further ones,
/// each behind the one on whose end it begins.
#[derive(Drop)]
pub struct Legs {
    pub first: Leg,
    pub more: Vec<Leg>,
}

/// The leg with a place.
#[inline(always)]
pub fn leg_at(legs: &Legs, place: usize) -> &Leg
    requires { place < length (leg_list legs.now) }
    ensures { IsAt legs.now place result.now }
{
    if place == 0 {
        &legs.first
    } else {
        &legs.more.as_slice()[place - 1]
    }
}

// The leg that begins with this transition and takes one after another.
#[inline(always)]
fn chain_leg(
    alloc: Global,
    machine: &Machine,
    route: &Route,
    named: TransId,
    before: Option<usize>,
) -> Result<Leg, NoMemory>
    requires rules { KeepsModelRules machine.now }
    requires route { IsStepRoute machine.now route.now }
    requires begins { BeginsChain machine.now route.now named }
    ensures { IfOk result (IsMade machine.now route.now named before) }
{
    let _shaped = machine.regions();
    let chain = chain_of(alloc, machine, route, named)?;
    let Chain { further, last } = chain;
    let area = area_of_path(machine, named, further.as_slice(), last);
    let further = Further::new(alloc, further, machine.transitions())?;
    Ok(Leg {
        named,
        further,
        in_order: true,
        area,
        last,
        before,
    })
}

// The transitions in a list of their own.
fn copy_of(alloc: Global, transitions: &[TransId]) -> Result<Vec<TransId>, NoMemory>
    ensures { IfOk result (λ copy. copy.items ≡ transitions.now) }
{
    let mut copy = Vec::new(alloc);
    copy.extend_from_slice(transitions)?;
    Ok(copy)
}

// The leg of all transitions into a join, or out of a fork.
#[inline(never)]
fn star_leg(
    alloc: Global,
    machine: &Machine,
    named: TransId,
    more: &[TransId],
    hub: VertexId,
    before: Option<usize>,
) -> Result<Leg, NoMemory>
    requires rules { KeepsModelRules machine.now }
    requires hub { hub.0 < length machine.now.vertices }
    requires star { IsStarAt machine.now (named ∷ more.now) hub }
    ensures { IfOk result (λ leg. (p : DraftRoute) → IsStepRoute machine.now p → On p named → IsMade machine.now p named before leg) }
{
    let _shaped = machine.regions();
    let copy = copy_of(alloc, more)?;
    let further = Further::new(alloc, copy, machine.transitions())?;
    Ok(Leg {
        named,
        further,
        in_order: false,
        area: Area::Within(machine.home(hub)),
        last: machine.target(named),
        before,
    })
}

// The leg that begins with a start: that of all starts where they enter a join.
#[inline(always)]
fn leg_of_start(
    alloc: Global,
    machine: &Machine,
    route: &Route,
    start: TransId,
    more: &[TransId],
) -> Result<Leg, NoMemory>
    requires rules { KeepsModelRules machine.now }
    requires route { IsStepRoute machine.now route.now }
    requires starts { route.now.starts ≡ start ∷ more.now }
    ensures { IfOk result (BeginsRoute machine.now route.now) }
{
    let _shaped = machine.regions();
    let target = machine.target(start);
    let join = has_kind(machine, target, VertexKind::Join);
    if join {
        star_leg(alloc, machine, start, more, target, None)
    } else {
        chain_leg(alloc, machine, route, start, None)
    }
}

// The leg with which a route starts.
#[inline(always)]
fn first_leg(alloc: Global, machine: &Machine, route: &Route) -> Result<Leg, NoMemory>
    requires rules { KeepsModelRules machine.now }
    requires route { IsStepRoute machine.now route.now }
    ensures { IfOk result (BeginsRoute machine.now route.now) }
{
    let _shaped = machine.regions();
    match route.starts.as_slice().split_first() {
        Some((start, more)) => leg_of_start(alloc, machine, route, *start, more),
        None => unreachable!(),
    }
}

// Puts the legs that begin behind one on a join, an entry or an exit point.
#[inline(never)]
fn put_chains(
    alloc: Global,
    machine: &Machine,
    route: &Route,
    legs: &mut Legs,
    place: usize,
    end: VertexId,
) -> Result<(), NoMemory>
    requires rules { KeepsModelRules machine.now }
    requires route { IsStepRoute machine.now route.now }
    requires so_far { AreDone machine.now route.now legs.old place }
    requires end { EndsLeg machine.now route.now legs.old place end }
    requires kind { BeginsChains machine.now end }
    ensures { IfOk result (λ _. AreDone machine.now route.now legs.new (place + 1)) }
{
    let _shaped = machine.regions();
    let outgoing = machine.outgoing(end);
    for t in outgoing {
        let leg = chain_leg(alloc, machine, route, *t, Some(place))?;
        legs.more.push(leg)?;
    }
    Ok(())
}

// Puts the leg that begins behind one on a fork.
#[inline(never)]
fn put_star(
    alloc: Global,
    machine: &Machine,
    route: &Route,
    legs: &mut Legs,
    place: usize,
    end: VertexId,
) -> Result<(), NoMemory>
    requires rules { KeepsModelRules machine.now }
    requires route { IsStepRoute machine.now route.now }
    requires so_far { AreDone machine.now route.now legs.old place }
    requires end { EndsLeg machine.now route.now legs.old place end }
    requires kind { HasKind machine.now end kinds.Fork }
    ensures { IfOk result (λ _. AreDone machine.now route.now legs.new (place + 1)) }
{
    let _shaped = machine.regions();
    match machine.outgoing(end).split_first() {
        Some((named, more)) => {
            let leg = star_leg(alloc, machine, *named, more, end, Some(place))?;
            legs.more.push(leg)?;
            Ok(())
        }
        None => Ok(()),
    }
}

// Whether the vertex is a join, an entry or an exit point.
#[inline(always)]
fn begins_chains(machine: &Machine, v: VertexId) -> bool
    requires { v.0 < length machine.now.vertices }
    ensures { IsTrue result ↔ BeginsChains machine.now v }
{
    matches!(
        machine.vertex(v).kind,
        VertexKind::Join | VertexKind::EntryPoint | VertexKind::ExitPoint
    )
}

// Puts the legs that begin behind the one with a place.
#[inline(always)]
fn put_next(
    alloc: Global,
    machine: &Machine,
    route: &Route,
    legs: &mut Legs,
    place: usize,
) -> Result<(), NoMemory>
    requires rules { KeepsModelRules machine.now }
    requires route { IsStepRoute machine.now route.now }
    requires place { place < length (leg_list legs.old) }
    requires so_far { AreDone machine.now route.now legs.old place }
    ensures { IfOk result (λ _. AreDone machine.now route.now legs.new (place + 1)) }
{
    let _shaped = machine.regions();
    let leg = leg_at(legs, place);
    let end = leg.last;
    let fork = has_kind(machine, end, VertexKind::Fork);
    if fork {
        put_star(alloc, machine, route, legs, place, end)
    } else if begins_chains(machine, end) {
        put_chains(alloc, machine, route, legs, place, end)
    } else {
        Ok(())
    }
}

// Whether a leg goes on over the vertex, or others begin behind it.
#[inline(always)]
fn goes_on(machine: &Machine, v: VertexId) -> bool
    requires { v.0 < length machine.now.vertices }
    ensures { IsTrue result ↔ GoesOn machine.now v }
{
    matches!(
        machine.vertex(v).kind,
        VertexKind::Junction
            | VertexKind::Fork
            | VertexKind::Join
            | VertexKind::EntryPoint
            | VertexKind::ExitPoint
    )
}

/// The transition that is the whole route, where its first start goes no further.
#[inline(always)]
pub fn lone_start(machine: &Machine, route: &Route) -> Option<TransId>
    requires rules { KeepsModelRules machine.now }
    requires route { IsStepRoute machine.now route.now }
    ensures { IfSome result (IsLoneStart machine.now route.now) }
{
    let _shaped = machine.regions();
    match route.starts.as_slice().first() {
        Some(start) => {
            let target = machine.target(*start);
            if goes_on(machine, target) {
                None
            } else {
                Some(*start)
            }
        }
        None => None,
    }
}

/// The legs of a route that is one transition: one leg, which takes no memory.
#[inline(always)]
pub fn lone_legs(alloc: Global, machine: &Machine, route: &Route, start: TransId) -> Legs
    requires rules { KeepsModelRules machine.now }
    requires route { IsStepRoute machine.now route.now }
    requires start { IsLoneStart machine.now route.now start }
    ensures { AreLegsOf machine.now route.now result }
{
    let _shaped = machine.regions();
    let last = machine.target(start);
    let further = Further::none(alloc);
    let more = Vec::new(alloc);
    let area = area_of_path(machine, start, further.as_slice(), last);
    let first = Leg {
        named: start,
        further,
        in_order: true,
        area,
        last,
        before: None,
    };
    Legs { first, more }
}

// The legs of a route, one after another.
#[inline(never)]
fn all_legs(alloc: Global, machine: &Machine, route: &Route) -> Result<Legs, NoMemory>
    requires rules { KeepsModelRules machine.now }
    requires route { IsStepRoute machine.now route.now }
    ensures { IfOk result (AreLegsOf machine.now route.now) }
{
    let _shaped = machine.regions();
    let first = first_leg(alloc, machine, route)?;
    let more = Vec::new(alloc);
    let mut legs = Legs { first, more };
    let mut place = 0;
    'legs: while place <= legs.more.len() {
        put_next(alloc, machine, route, &mut legs, place)?;
        place += 1;
    }
    Ok(legs)
}

/// The legs of a route.
///
/// `NoMemory`: memory ran out. A route of one transition takes none.
#[inline(always)]
pub fn legs_of(alloc: Global, machine: &Machine, route: &Route) -> Result<Legs, NoMemory>
    requires rules { KeepsModelRules machine.now }
    requires route { IsStepRoute machine.now route.now }
    ensures { IfOk result (AreLegsOf machine.now route.now) }
{
    match lone_start(machine, route) {
        Some(start) => Ok(lone_legs(alloc, machine, route, start)),
        None => all_legs(alloc, machine, route),
    }
}
