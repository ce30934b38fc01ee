//! Whether a way may enter a State, by where its legs end.
ghost use Rattle.std.specs.Prelude.{◌↔◌, ◌<◌, IsTrue, Contains, length};
ghost use Rattle.pssm_model.specs.declared.ids.TransId.{TransId as Transition};
ghost use Rattle.pssm_legs.specs.declared.legs.Leg.{Leg as TakenLeg};
ghost use Rattle.pssm_legs.specs.LegsOf.{IsLegIn};
ghost use Rattle.pssm_plan.specs.Ways.{IsWayIn};
ghost use Rattle.pssm_plan.specs.inner.Near.{IsNear, IsNearAmong, EndsNear, IsNearSome, ComesNear, LeadsOnNear};

use crate::ways::{Way, lies_in};
use pssm_legs::Leg;
use pssm_model::{Machine, Owner, TransId, VertexId};

// Whether a vertex is the State, or one that the State owns, or lies in the State.
#[inline(always)]
fn is_near(machine: &Machine, v: VertexId, s: VertexId) -> bool
    requires vertex { v.0 < length machine.now.vertices }
    requires state { s.0 < length machine.now.vertices }
    ensures { IsTrue result ↔ IsNear machine.now v s }
{
    s == v || machine.vertex(v).owner == Owner::State(s) || lies_in(machine, v, s)
}

// Whether one of the transitions ends near the State.
#[inline(never)]
fn is_near_among(machine: &Machine, transitions: &[TransId], s: VertexId) -> bool
    requires there { (t : Transition) → Contains transitions.now t → t.0 < length machine.now.transitions }
    requires state { s.0 < length machine.now.vertices }
    ensures { IsTrue result ↔ IsNearAmong machine.now transitions.now s }
{
    for t in transitions {
        if is_near(machine, machine.target(*t), s) {
            return true;
        }
    }
    false
}

/// Whether a leg ends near the State; where its transitions are taken in no order, whether one of them does.
#[inline(always)]
pub fn ends_near(machine: &Machine, leg: &Leg, s: VertexId) -> bool
    requires leg { IsLegIn machine.now leg.now }
    requires state { s.0 < length machine.now.vertices }
    ensures { IsTrue result ↔ EndsNear machine.now leg.now s }
{
    if leg.in_order {
        is_near(machine, leg.last, s)
    } else {
        is_near(machine, machine.target(leg.named), s)
            || is_near_among(machine, leg.further.as_slice(), s)
    }
}

// Whether one of the legs ends near the State.
#[inline(never)]
fn some_ends_near(machine: &Machine, legs: &[Leg], s: VertexId) -> bool
    requires legs { (leg : TakenLeg) → Contains legs.now leg → IsLegIn machine.now leg }
    requires state { s.0 < length machine.now.vertices }
    ensures { IsTrue result ↔ IsNearSome machine.now legs.now s }
{
    for leg in legs {
        if ends_near(machine, leg, s) {
            return true;
        }
    }
    false
}

// Whether there are several legs, and one but the first ends near the State.
#[inline(always)]
fn more_end_near(machine: &Machine, way: &Way, s: VertexId) -> bool
    requires way { IsWayIn machine.now way.now }
    requires state { s.0 < length machine.now.vertices }
    ensures { IsTrue result ↔ IsNearSome machine.now way.now.legs.more.items s }
{
    let alone = way.legs.more.len() == 0;
    if alone {
        false
    } else {
        some_ends_near(machine, way.legs.more.as_slice(), s)
    }
}

/// Whether a leg of a way ends near a State: on it, on a vertex that it owns, or in it. Only such a State may the way
/// enter.
#[inline(always)]
pub fn comes_near(machine: &Machine, way: &Way, s: VertexId) -> bool
    requires way { IsWayIn machine.now way.now }
    requires state { s.0 < length machine.now.vertices }
    ensures { IsTrue result ↔ ComesNear machine.now way.now s }
{
    ends_near(machine, &way.legs.first, s) || more_end_near(machine, way, s)
}

/// Whether a leg of a way ends near a State behind which another leg is listed. Only then the entry of
/// the State may come before what another leg calls.
#[inline(never)]
pub fn leads_on_near(machine: &Machine, way: &Way, s: VertexId) -> bool
    requires way { IsWayIn machine.now way.now }
    requires state { s.0 < length machine.now.vertices }
    ensures { IsTrue result ↔ LeadsOnNear machine.now way.now s }
{
    let more = way.legs.more.as_slice();
    if more.len() == 0 {
        return false;
    }
    ends_near(machine, &way.legs.first, s) || some_ends_near(machine, &more[..more.len() - 1], s)
}
