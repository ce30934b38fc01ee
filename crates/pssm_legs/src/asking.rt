//! What the legs of a route call.
ghost use Rattle.std.specs.Prelude.{◌≡◌, ◌⊎◌, ◌↔◌, ◌<◌, ℕ, IsTrue, Some, length};
ghost use Rattle.pssm_model.specs.declared.steps.Route.{Route};
ghost use Rattle.pssm_model.specs.WellFormed.{KeepsModelRules};
ghost use Rattle.pssm_legs.specs.declared.legs.Leg.{Leg};
ghost use Rattle.pssm_legs.specs.Calls.{IsItemIn, IsCalledBy, IsOpenedFor};
ghost use Rattle.pssm_legs.specs.LegsOf.{StandsLater, IsAt, IsLegIn, AreLegsIn, AreLegsOf, leg_list};
ghost use Rattle.pssm_legs.specs.inner.Told.{IsCoveredBefore, IsExited, EndsInside, IsAimedLater, IsAimedFrom, IsLeftToOpen, IsInOwner, IsBeside};
ghost use Rattle.pssm_legs.specs.inner.Told.{IsHistoryEnd, IsChoiceEnd, IsCalledAsTold, IsCalledLater, HasLeg, HasFurther};

use crate::areas::{Area, covers};
use crate::entering::{ends_inside, has_transition, is_entered};
use crate::legs::{Leg, Legs, leg_at};
use pssm_model::{Item, Machine, Mode, Owner, RegionId, VertexId, VertexKind};

/// Whether the leg with the place stands later than that with the other place.
pub fn is_later(legs: &Legs, leg: &Leg, place: usize, other: usize) -> bool
    requires place { IsAt legs.now place leg.now }
    requires before { (i j : ℕ) (b : Leg) → IsAt legs.now j b → b.before ≡ Some i → i < j }
    ensures { IsTrue result ↔ StandsLater (leg_list legs.now) other place }
{
    let mut before = leg.before;
    'up: while let Some(i) = before {
        if i == other {
            return true;
        }
        let earlier = leg_at(legs, i);
        before = earlier.before;
    }
    false
}

/// Whether a leg behind which that with the place stands exits and enters around the vertex.
pub fn is_covered_before(
    machine: &Machine,
    legs: &Legs,
    leg: &Leg,
    place: usize,
    s: VertexId,
) -> bool
    requires legs { AreLegsIn machine.now legs.now }
    requires place { IsAt legs.now place leg.now }
    requires state { s.0 < length machine.now.vertices }
    ensures { IsTrue result ↔ IsCoveredBefore machine.now legs.now place s }
{
    let mut before = leg.before;
    'up: while let Some(i) = before {
        let earlier = leg_at(legs, i);
        if covers(machine, earlier.area, s) {
            return true;
        }
        before = earlier.before;
    }
    false
}

// Whether the leg exits the State where its route fires.
#[inline(always)]
fn is_exited(machine: &Machine, legs: &Legs, leg: &Leg, place: usize, s: VertexId) -> bool
    requires legs { AreLegsIn machine.now legs.now }
    requires place { IsAt legs.now place leg.now }
    requires leg { IsLegIn machine.now leg.now }
    requires state { s.0 < length machine.now.vertices }
    ensures { IsTrue result ↔ IsExited machine.now legs.now place leg.now s }
{
    covers(machine, leg.area, s) && !is_covered_before(machine, legs, leg, place, s)
}

// Whether the leg with the other place stands later than the place and aims at the region.
fn is_later_inside(
    machine: &Machine,
    legs: &Legs,
    leg: &Leg,
    other: usize,
    place: usize,
    r: RegionId,
) -> bool
    requires legs { AreLegsIn machine.now legs.now }
    requires other { IsAt legs.now other leg.now }
    requires leg { IsLegIn machine.now leg.now }
    requires region { r.0 < length machine.now.regions }
    ensures { IsTrue result ↔ (StandsLater (leg_list legs.now) place other × EndsInside machine.now leg.now r) }
{
    ends_inside(machine, leg, r) && is_later(legs, leg, other, place)
}

// Whether a leg that stands later than the place aims at the region. Such a leg has a higher place.
fn is_aimed_later(machine: &Machine, legs: &Legs, place: usize, r: RegionId) -> bool
    requires legs { AreLegsIn machine.now legs.now }
    requires region { r.0 < length machine.now.regions }
    ensures { IsTrue result ↔ IsAimedLater machine.now legs.now place r }
{
    let more = legs.more.as_slice();
    for k in place..more.len() {
        if is_later_inside(machine, legs, &more[k], k + 1, place, r) {
            return true;
        }
    }
    false
}

// Whether the leg, or one that stands later, aims at the region.
#[inline(never)]
fn is_aimed_from(machine: &Machine, legs: &Legs, leg: &Leg, place: usize, r: RegionId) -> bool
    requires legs { AreLegsIn machine.now legs.now }
    requires leg { IsLegIn machine.now leg.now }
    requires region { r.0 < length machine.now.regions }
    ensures { IsTrue result ↔ IsAimedFrom machine.now legs.now place leg.now r }
{
    ends_inside(machine, leg, r) || is_aimed_later(machine, legs, place, r)
}

// Whether the leg enters the State, and neither it nor a later one aims at the region.
fn is_left_to_open(
    machine: &Machine,
    legs: &Legs,
    leg: &Leg,
    place: usize,
    s: VertexId,
    r: RegionId,
) -> bool
    requires legs { AreLegsIn machine.now legs.now }
    requires leg { IsLegIn machine.now leg.now }
    requires state { s.0 < length machine.now.vertices }
    requires region { r.0 < length machine.now.regions }
    ensures { IsTrue result ↔ IsLeftToOpen machine.now legs.now place leg.now s r }
{
    is_entered(machine, leg, s) && !is_aimed_from(machine, legs, leg, place, r)
}

// Whether the leg exits and enters in the State that owns the region.
#[inline(always)]
fn is_in_owner(machine: &Machine, leg: &Leg, r: RegionId) -> bool
    requires region { r.0 < length machine.now.regions }
    ensures { IsTrue result ↔ IsInOwner machine.now leg.now r }
{
    match leg.area {
        Area::Inside(s) => machine.region_owner(r) == Owner::State(s),
        Area::Nowhere | Area::Within(_) => false,
    }
}

// Whether the leg opens the region beside what it enters.
#[inline(always)]
fn is_beside(machine: &Machine, legs: &Legs, leg: &Leg, place: usize, r: RegionId) -> bool
    requires legs { AreLegsIn machine.now legs.now }
    requires leg { IsLegIn machine.now leg.now }
    requires region { r.0 < length machine.now.regions }
    ensures { IsTrue result ↔ IsBeside machine.now legs.now place leg.now r }
{
    is_in_owner(machine, leg, r) && !is_aimed_from(machine, legs, leg, place, r)
}

// Whether the leg ends on a history vertex of this kind of the region.
#[inline(always)]
fn is_history_end(machine: &Machine, leg: &Leg, kind: VertexKind, r: RegionId) -> bool
    requires leg { IsLegIn machine.now leg.now }
    ensures { IsTrue result ↔ IsHistoryEnd machine.now leg.now kind r }
{
    let last = machine.vertex(leg.last);
    leg.in_order && last.kind == kind && last.owner == Owner::Region(r)
}

// Whether the leg ends on the choice.
#[inline(always)]
fn is_choice_end(machine: &Machine, leg: &Leg, c: VertexId) -> bool
    requires choice { c.0 < length machine.now.vertices }
    ensures { IsTrue result ↔ IsChoiceEnd machine.now leg.now c }
{
    leg.in_order && c == leg.last && machine.vertex(c).kind == VertexKind::Choice
}

/// Whether the leg with the place calls the item, by what is told of it.
#[inline(always)]
pub fn is_called(
    machine: &Machine,
    legs: &Legs,
    leg: &Leg,
    place: usize,
    fires: bool,
    item: Item,
) -> bool
    requires legs { AreLegsIn machine.now legs.now }
    requires place { IsAt legs.now place leg.now }
    requires leg { IsLegIn machine.now leg.now }
    requires item { IsItemIn machine.now item }
    ensures { IsTrue result ↔ IsCalledAsTold machine.now legs.now place leg.now fires item }
{
    match item {
        Item::Exit(s) => fires && is_exited(machine, legs, leg, place, s),
        Item::Effect(t) => has_transition(leg, t),
        Item::Enter(s) => is_entered(machine, leg, s),
        Item::Opened(r, Mode::Plain) => is_beside(machine, legs, leg, place, r),
        Item::Opened(r, Mode::Shallow) => is_history_end(
            machine,
            leg,
            VertexKind::ShallowHistory,
            r,
        ),
        Item::Opened(r, Mode::Deep) => is_history_end(machine, leg, VertexKind::DeepHistory, r),
        Item::Pick(c) => is_choice_end(machine, leg, c),
    }
}

// Whether some leg but the first calls the item, by what is told of it.
#[inline(never)]
fn is_called_further(machine: &Machine, legs: &Legs, fires: bool, item: Item) -> bool
    requires legs { AreLegsIn machine.now legs.now }
    requires item { IsItemIn machine.now item }
    ensures { IsTrue result ↔ HasFurther legs.now (λ i a. IsCalledAsTold machine.now legs.now i a fires item) }
{
    let more = legs.more.as_slice();
    for k in 0..more.len() {
        if is_called(machine, legs, &more[k], k + 1, fires, item) {
            return true;
        }
    }
    false
}

// Whether there are several legs, and one but the first calls the item.
#[inline(always)]
fn is_called_by_more(machine: &Machine, legs: &Legs, fires: bool, item: Item) -> bool
    requires legs { AreLegsIn machine.now legs.now }
    requires item { IsItemIn machine.now item }
    ensures { IsTrue result ↔ HasFurther legs.now (λ i a. IsCalledAsTold machine.now legs.now i a fires item) }
{
    let alone = legs.more.len() == 0;
    if alone {
        false
    } else {
        is_called_further(machine, legs, fires, item)
    }
}

// Whether the leg with the other place stands later than the place and calls the item.
fn is_later_calling(
    machine: &Machine,
    legs: &Legs,
    leg: &Leg,
    other: usize,
    place: usize,
    fires: bool,
    item: Item,
) -> bool
    requires legs { AreLegsIn machine.now legs.now }
    requires other { IsAt legs.now other leg.now }
    requires leg { IsLegIn machine.now leg.now }
    requires item { IsItemIn machine.now item }
    ensures { IsTrue result ↔ (StandsLater (leg_list legs.now) place other
        × IsCalledAsTold machine.now legs.now other leg.now fires item) }
{
    is_called(machine, legs, leg, other, fires, item) && is_later(legs, leg, other, place)
}

/// Whether a leg that stands later than the place calls the item, by what is told of it. Such a leg has a higher place.
#[inline(never)]
pub fn is_called_later(
    machine: &Machine,
    legs: &Legs,
    place: usize,
    fires: bool,
    item: Item,
) -> bool
    requires legs { AreLegsIn machine.now legs.now }
    requires item { IsItemIn machine.now item }
    ensures { IsTrue result ↔ IsCalledLater machine.now legs.now place fires item }
{
    let more = legs.more.as_slice();
    for k in place..more.len() {
        if is_later_calling(machine, legs, &more[k], k + 1, place, fires, item) {
            return true;
        }
    }
    false
}

// Whether some leg but the first enters the State, and neither it nor a later one aims at the region.
fn is_left_further(machine: &Machine, legs: &Legs, s: VertexId, r: RegionId) -> bool
    requires legs { AreLegsIn machine.now legs.now }
    requires state { s.0 < length machine.now.vertices }
    requires region { r.0 < length machine.now.regions }
    ensures { IsTrue result ↔ HasFurther legs.now (λ i a. IsLeftToOpen machine.now legs.now i a s r) }
{
    let more = legs.more.as_slice();
    for k in 0..more.len() {
        if is_left_to_open(machine, legs, &more[k], k + 1, s, r) {
            return true;
        }
    }
    false
}

// Whether some leg calls the item, by what is told of it.
#[inline(always)]
fn is_called_by_some(machine: &Machine, legs: &Legs, fires: bool, item: Item) -> bool
    requires legs { AreLegsIn machine.now legs.now }
    requires item { IsItemIn machine.now item }
    ensures { IsTrue result ↔ HasLeg legs.now (λ i a. IsCalledAsTold machine.now legs.now i a fires item) }
{
    is_called(machine, legs, &legs.first, 0, fires, item)
        || is_called_by_more(machine, legs, fires, item)
}

// Whether some leg enters the State, and neither it nor a later one aims at the region.
fn is_left_by_some(machine: &Machine, legs: &Legs, s: VertexId, r: RegionId) -> bool
    requires legs { AreLegsIn machine.now legs.now }
    requires state { s.0 < length machine.now.vertices }
    requires region { r.0 < length machine.now.regions }
    ensures { IsTrue result ↔ HasLeg legs.now (λ i a. IsLeftToOpen machine.now legs.now i a s r) }
{
    is_left_to_open(machine, legs, &legs.first, 0, s, r) || is_left_further(machine, legs, s, r)
}

/// Whether a leg of a route calls the item, itself or at its end. Exits are called only where the route fires, and here
/// of all that lies where the leg exits, whether it is active or not (UML 2.5.1, 14.2.3.9).
#[inline(always)]
pub fn calls(machine: &Machine, legs: &Legs, fires: bool, item: Item) -> bool
    requires rules { KeepsModelRules machine.now }
    requires legs { AreLegsIn machine.now legs.now }
    requires item { IsItemIn machine.now item }
    ensures { (p : Route) → AreLegsOf machine.now p legs.now → (IsTrue result ↔ IsCalledBy machine.now fires p item) }
{
    let _shaped = machine.regions();
    is_called_by_some(machine, legs, fires, item)
}

/// Whether a leg of a route enters a State, and neither it nor a later one aims at the region, so that the region opens
/// by default once the State, which owns it, is entered (UML 2.5.1, 14.2.3.4, entering a State).
pub fn opens_for(machine: &Machine, legs: &Legs, s: VertexId, r: RegionId) -> bool
    requires rules { KeepsModelRules machine.now }
    requires legs { AreLegsIn machine.now legs.now }
    requires state { s.0 < length machine.now.vertices }
    requires region { r.0 < length machine.now.regions }
    ensures { (p : Route) → AreLegsOf machine.now p legs.now → (IsTrue result ↔ IsOpenedFor machine.now p s r) }
{
    let _shaped = machine.regions();
    is_left_by_some(machine, legs, s, r)
}
