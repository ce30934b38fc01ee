//! Which routes can join others without a conflict.
ghost use Rattle.std.specs.Prelude.{◌≡◌, ◌↔◌, ◌<◌, Option, length, All, IsTrue, IfSome, IfNone};
ghost use Rattle.pssm_model.specs.declared.ids.VertexId.{VertexId};
ghost use Rattle.pssm_model.specs.declared.ids.RegionId.{RegionId};
ghost use Rattle.pssm_model.specs.declared.ids.TransId.{TransId};
ghost use Rattle.pssm_model.specs.declared.elements.Owner.{Owner};
ghost use Rattle.pssm_model.specs.declared.elements.VertexKind.TheVariants as kinds;
ghost use Rattle.pssm_model.specs.Forest.{HasKind, LiesUnder, LiesInRegion};
ghost use Rattle.pssm_model.specs.Legs.{Leaves};
ghost use Rattle.pssm_model.specs.Routes.{Truth};
ghost use Rattle.pssm_model.specs.WellFormed.{KeepsModelRules};
ghost use Rattle.pssm_enabled.specs.Telling.{CanBeAsked, Tells};
ghost use Rattle.pssm_enabled.specs.Ways.{EndsInside};
ghost use Rattle.pssm_enabled.specs.Steps.{KnowsDeadEnds, steps_of};
ghost use Rattle.pssm_routes.specs.inner.Footprints.{IsFootprintIn};
ghost use Rattle.pssm_routes.specs.inner.Starts.{GoesOnBy};
ghost use Rattle.pssm_routes.specs.inner.Rooms.{IsJoiningStep, Touches, IsAnchorAmong, IsNextOut, IsShut, IsRoomFor};
ghost use Rattle.pssm_routes.specs.inner.Rooms.{IsRoomIn};
ghost use Rattle.pssm_routes.specs.inner.Sets.{HasFreeRoute, IsTouched, HoldsSource, IsCeiling};

use crate::areas::{Footprint, anchor_of, are_on_one_chain};
use crate::leading::onward;
use crate::looking::look;
use pssm_enabled::{Search, Step, find_way, follow, is_join};
use pssm_legs::covers;
use pssm_model::{GuardId, Machine, Owner, RegionId, TransId, TransKind, VertexId};

// Whether the State is on one owner chain with the anchor of the footprint, or lies in its area.
fn touches(machine: &Machine, footprint: Footprint, s: VertexId) -> bool
    requires there { s.0 < length machine.now.vertices }
    requires footprint { IsFootprintIn machine.now footprint }
    ensures { IsTrue result ↔ Touches machine.now s footprint }
{
    covers(machine, footprint.area, s) || are_on_one_chain(machine, footprint.source, s)
}

/// Whether the State is the anchor of the footprint.
pub fn starts_at(footprint: Footprint, s: VertexId) -> bool
    ensures { IsTrue result ↔ (footprint.source ≡ s) }
{
    footprint.source == s
}

// Whether an anchor is the State.
fn is_anchor(footprints: &[Footprint], s: VertexId) -> bool
    ensures { IsTrue result ↔ IsAnchorAmong footprints.now s }
{
    for footprint in footprints {
        if starts_at(*footprint, s) {
            return true;
        }
    }
    false
}

/// Whether the transition ends on a join, and one of the footprints has the anchor of the routes with that start: they
/// clash with it. It tells so at less cost than their starts do.
pub fn is_kept_out(machine: &Machine, footprints: &[Footprint], t: TransId) -> bool
    requires rules { KeepsModelRules machine.now }
    requires there { t.0 < length machine.now.transitions }
    requires footprints { All (IsFootprintIn machine.now) footprints.now }
    ensures { IsTrue result → IsShut machine.now footprints.now t }
{
    let _shaped = machine.regions();
    is_join(machine, machine.target(t)) && is_anchor(footprints, anchor_of(machine, t))
}

// Whether an anchor is the State, lies in it or has it inside, or an area covers the State.
fn is_touched(machine: &Machine, footprints: &[Footprint], s: VertexId) -> bool
    requires there { s.0 < length machine.now.vertices }
    requires footprints { All (IsFootprintIn machine.now) footprints.now }
    ensures { IsTrue result ↔ IsTouched machine.now footprints.now s }
{
    if is_anchor(footprints, s) {
        return true;
    }
    for footprint in footprints {
        if touches(machine, *footprint, s) {
            return true;
        }
    }
    false
}

// Whether an anchor lies in the region.
fn holds_source(machine: &Machine, footprints: &[Footprint], region: RegionId) -> bool
    requires there { region.0 < length machine.now.regions }
    requires footprints { All (IsFootprintIn machine.now) footprints.now }
    ensures { IsTrue result ↔ HoldsSource machine.now footprints.now region }
{
    for footprint in footprints {
        if machine.lies_in_region(footprint.source, region) {
            return true;
        }
    }
    false
}

/// The innermost region in which a region is nested, if there is one.
pub fn next_out(machine: &Machine, region: RegionId) -> Option<RegionId>
    requires there { region.0 < length machine.now.regions }
    ensures inside { IfSome result (λ r. r.0 < length machine.now.regions) }
    ensures some { IfSome result (IsNextOut machine.now region) }
    ensures none { IfNone result ((r : RegionId)
        → LiesUnder machine.now (Owner.Region region) (Owner.Region r) → ⊥) }
{
    let _shaped = machine.regions();
    match machine.region_owner(region) {
        Owner::State(owner) => Some(machine.home(owner)),
        _ => None,
    }
}

// The largest region around the State in which no anchor lies; none exactly where there is none.
fn ceiling(machine: &Machine, footprints: &[Footprint], s: VertexId) -> Option<RegionId>
    requires there { s.0 < length machine.now.vertices }
    requires footprints { All (IsFootprintIn machine.now) footprints.now }
    ensures inside { IfSome result (λ r. r.0 < length machine.now.regions) }
    ensures some { IfSome result (IsCeiling machine.now footprints.now s) }
    ensures none { IfNone result ((r : RegionId) → LiesInRegion machine.now s r
        → (HoldsSource machine.now footprints.now r → ⊥) → ⊥) }
{
    let mut found = None;
    let mut region = machine.home(s);
    // More regions than stand above that one.
    let mut left = machine.depth(s);
    while !holds_source(machine, footprints, region) {
        found = Some(region);
        match next_out(machine, region) {
            Some(next) => {
                region = next;
                left -= 1;
            }
            None => return found,
        }
    }
    found
}

/// Where a route may go that clashes with none of the routes that fire.
enum Room {
    Shut,
    Open(Option<RegionId>),
}

// Where a route with this start may go.
fn room_for(machine: &Machine, footprints: &[Footprint], t: TransId) -> Room
    requires rules { KeepsModelRules machine.now }
    requires there { t.0 < length machine.now.transitions }
    requires footprints { All (IsFootprintIn machine.now) footprints.now }
    ensures inside { IsRoomIn machine.now result }
    ensures room { IsRoomFor machine.now footprints.now t result }
{
    let _shaped = machine.regions();
    let anchor = anchor_of(machine, t);
    if is_touched(machine, footprints, anchor) {
        return Room::Shut;
    }
    match machine.transition(t).kind {
        TransKind::External => match ceiling(machine, footprints, anchor) {
            Some(region) => Room::Open(Some(region)),
            None => Room::Shut,
        },
        _ => Room::Open(None),
    }
}

/// Follows the first open transitions from this start on to the end of a route that clashes with none
/// of the footprints; none where these do not tell of one.
pub fn follow_joiner<T: Fn(GuardId) -> bool>(
    machine: &Machine,
    truth: &T,
    footprints: &[Footprint],
    t: TransId,
    steps: &mut [Step; 64],
) -> Option<Step>
    requires rules { KeepsModelRules machine.now }
    requires there { t.0 < length machine.now.transitions }
    requires footprints { All (IsFootprintIn machine.now) footprints.now }
    requires askable { CanBeAsked machine.now (T.pre truth.now) }
    requires source { (v : VertexId) → Leaves machine.now t v → HasKind machine.now v kinds.State }
    ensures there { IfSome result (λ last. last.by.0 < length machine.now.transitions) }
    ensures some { (values : Truth) → Tells machine.now (T.post truth.now) values
        → IfSome result (IsJoiningStep machine.now values footprints.now steps.new t) }
{
    let _shaped = machine.regions();
    match room_for(machine, footprints, t) {
        Room::Shut => None,
        Room::Open(within) => follow(machine, truth, within, onward(machine, t), steps),
    }
}

/// Seeks a way for a route with this start that clashes with none of the footprints; none exactly
/// where there is no such route.
pub fn find_joiner<T: Fn(GuardId) -> bool>(
    machine: &Machine,
    truth: &T,
    footprints: &[Footprint],
    t: TransId,
    search: &mut [Search],
) -> Option<Step>
    requires rules { KeepsModelRules machine.now }
    requires there { t.0 < length machine.now.transitions }
    requires footprints { All (IsFootprintIn machine.now) footprints.now }
    requires askable { CanBeAsked machine.now (T.pre truth.now) }
    requires source { (v : VertexId) → Leaves machine.now t v → HasKind machine.now v kinds.State }
    requires room { (u : TransId) → GoesOnBy machine.now t u → EndsInside machine.now u → 0 < length search.old }
    requires nothing { (values : Truth) (within : Option RegionId)
        → KnowsDeadEnds machine.now values within search.old }
    ensures there { IfSome result (λ last. last.by.0 < length machine.now.transitions) }
    ensures some { (values : Truth) → Tells machine.now (T.post truth.now) values
        → IfSome result (IsJoiningStep machine.now values footprints.now (steps_of search.new) t) }
    ensures none { (values : Truth) → Tells machine.now (T.post truth.now) values
        → IfNone result (HasFreeRoute machine.now values footprints.now t → ⊥) }
{
    let _shaped = machine.regions();
    match room_for(machine, footprints, t) {
        Room::Shut => None,
        Room::Open(within) => find_way(machine, truth, within, onward(machine, t), search),
    }
}

// Whether there is a route with this start that clashes with none of the footprints, by this
// search.
fn finds_joiner<T: Fn(GuardId) -> bool>(
    machine: &Machine,
    truth: &T,
    footprints: &[Footprint],
    t: TransId,
    search: &mut [Search],
) -> bool
    requires rules { KeepsModelRules machine.now }
    requires there { t.0 < length machine.now.transitions }
    requires footprints { All (IsFootprintIn machine.now) footprints.now }
    requires askable { CanBeAsked machine.now (T.pre truth.now) }
    requires source { (v : VertexId) → Leaves machine.now t v → HasKind machine.now v kinds.State }
    requires room { (u : TransId) → GoesOnBy machine.now t u → EndsInside machine.now u → 0 < length search.old }
    requires nothing { (values : Truth) (within : Option RegionId)
        → KnowsDeadEnds machine.now values within search.old }
    ensures { (values : Truth) → Tells machine.now (T.post truth.now) values
        → (IsTrue result ↔ HasFreeRoute machine.now values footprints.now t) }
{
    let _shaped = machine.regions();
    find_joiner(machine, truth, footprints, t, search).is_some()
}

// Whether there is a route with this start that clashes with none of the footprints. The search
// stands in this call alone.
#[inline(never)]
fn has_joiner_by_search<T: Fn(GuardId) -> bool>(
    machine: &Machine,
    truth: &T,
    footprints: &[Footprint],
    t: TransId,
) -> bool
    requires rules { KeepsModelRules machine.now }
    requires there { t.0 < length machine.now.transitions }
    requires footprints { All (IsFootprintIn machine.now) footprints.now }
    requires askable { CanBeAsked machine.now (T.pre truth.now) }
    requires source { (v : VertexId) → Leaves machine.now t v → HasKind machine.now v kinds.State }
    ensures { (values : Truth) → Tells machine.now (T.post truth.now) values
        → (IsTrue result ↔ HasFreeRoute machine.now values footprints.now t) }
{
    finds_joiner(machine, truth, footprints, t, &mut [Search::new()])
}

/// Whether there is a route with this start that clashes with none of the footprints.
pub fn has_joiner<T: Fn(GuardId) -> bool>(
    machine: &Machine,
    truth: &T,
    footprints: &[Footprint],
    t: TransId,
) -> bool
    requires rules { KeepsModelRules machine.now }
    requires there { t.0 < length machine.now.transitions }
    requires footprints { All (IsFootprintIn machine.now) footprints.now }
    requires askable { CanBeAsked machine.now (T.pre truth.now) }
    requires source { (v : VertexId) → Leaves machine.now t v → HasKind machine.now v kinds.State }
    ensures { (values : Truth) → Tells machine.now (T.post truth.now) values
        → (IsTrue result ↔ HasFreeRoute machine.now values footprints.now t) }
{
    let _shaped = machine.regions();
    match room_for(machine, footprints, t) {
        Room::Shut => false,
        Room::Open(within) => match look(machine, truth, within, onward(machine, t)) {
            Some(leads) => leads,
            None => has_joiner_by_search(machine, truth, footprints, t),
        },
    }
}
