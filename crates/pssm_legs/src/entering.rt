//! What a leg enters, and where it ends.
ghost use Rattle.std.specs.Prelude.{◌≡◌, ◌⊎◌, ◌↔◌, ◌<◌, IsTrue, Some, length};
ghost use Rattle.pssm_model.specs.declared.elements.Owner.TheVariants.{Region, State};
ghost use Rattle.pssm_model.specs.Forest.{owner_of, IsHome, LiesInState};
ghost use Rattle.pssm_model.specs.Legs.{IsEnteredFor, IsEndState};
ghost use Rattle.pssm_legs.specs.LegsOf.{IsLegIn};
ghost use Rattle.pssm_legs.specs.inner.Told.{IsHomeArea, IsPassed, IsEnteredAt, IsEntered, EndsInside, HasTransition, HasTarget};
ghost use Rattle.pssm_legs.specs.inner.Told.{Meets, IsAimIn, EndsWhere, HasFurtherTarget, HasLast};

use crate::areas::{Area, covers};
use crate::legs::Leg;
use pssm_model::{Machine, Owner, RegionId, TransId, VertexId, VertexKind};

/// What is asked of the last vertices of a leg: whether it enters a State for one, or whether one lies in a region.
#[derive(Clone, Copy)]
pub enum Aim {
    Entering(VertexId),
    EndingIn(RegionId),
}

/// Whether the leg has the transition.
#[inline(always)]
pub fn has_transition(leg: &Leg, t: TransId) -> bool
    ensures { IsTrue result ↔ HasTransition leg.now t }
{
    leg.named == t || (leg.further.len() > 0 && leg.further.contains(t))
}

// Whether something is entered for a last vertex: not for a terminate or exit point, nor for a join.
#[inline(always)]
fn is_entered_for(machine: &Machine, v: VertexId) -> bool
    requires { v.0 < length machine.now.vertices }
    ensures { IsTrue result ↔ IsEnteredFor machine.now v }
{
    !matches!(
        machine.vertex(v).kind,
        VertexKind::Terminate | VertexKind::ExitPoint | VertexKind::Join
    )
}

// Whether a State or final state is what stands at the end: the vertex itself, or the State of an entry point.
#[inline(always)]
fn is_end_state(machine: &Machine, v: VertexId, s: VertexId) -> bool
    requires last { v.0 < length machine.now.vertices }
    requires state { s.0 < length machine.now.vertices }
    ensures { IsTrue result ↔ IsEndState machine.now v s }
{
    match machine.vertex(v).kind {
        VertexKind::State | VertexKind::Final => v == s,
        VertexKind::EntryPoint => machine.vertex(v).owner == Owner::State(s),
        _ => false,
    }
}

/// Whether a vertex lies in a State; in one without regions none does.
#[inline(always)]
pub fn lies_in(machine: &Machine, v: VertexId, s: VertexId) -> bool
    requires vertex { v.0 < length machine.now.vertices }
    requires state { s.0 < length machine.now.vertices }
    ensures { IsTrue result ↔ LiesInState machine.now v s }
{
    !machine.regions_of(s).is_empty() && machine.lies_in_state(v, s)
}

// Whether the region owns the vertex.
#[inline(always)]
fn is_owned_by(machine: &Machine, v: VertexId, r: RegionId) -> bool
    requires { v.0 < length machine.now.vertices }
    ensures { IsTrue result ↔ (owner_of machine.now (State v) ≡ Some (Region r)) }
{
    machine.vertex(v).owner == Owner::Region(r)
}

// Whether a State owns the vertex, and the region this State.
#[inline(always)]
fn owns_owner(machine: &Machine, v: VertexId, r: RegionId) -> bool
    requires { v.0 < length machine.now.vertices }
    ensures { IsTrue result → IsHome machine.now v r }
{
    let _shaped = machine.regions();
    match machine.vertex(v).owner {
        Owner::State(s) => is_owned_by(machine, s, r),
        Owner::Top | Owner::Region(_) => false,
    }
}

// Whether the region is the innermost one in which the vertex lies: it owns the vertex, or the State that does.
#[inline(always)]
#[tactic(auto, using(pssm_model::proofs::Nesting::home_of_vertex))]
fn is_home(machine: &Machine, v: VertexId, r: RegionId) -> bool
    requires { v.0 < length machine.now.vertices }
    ensures { IsTrue result → IsHome machine.now v r }
{
    is_owned_by(machine, v, r) || owns_owner(machine, v, r)
}

// Whether the area is the innermost region in which the vertex lies.
#[inline(always)]
fn is_home_area(machine: &Machine, area: Area, v: VertexId) -> bool
    requires vertex { v.0 < length machine.now.vertices }
    ensures { IsTrue result → IsHomeArea machine.now area v }
{
    match area {
        Area::Within(r) => is_home(machine, v, r),
        Area::Nowhere | Area::Inside(_) => false,
    }
}

// Whether the State lies where the leg exits and enters, and the vertex in it.
#[inline(always)]
fn lies_around(machine: &Machine, leg: &Leg, v: VertexId, s: VertexId) -> bool
    requires leg { IsLegIn machine.now leg.now }
    requires last { v.0 < length machine.now.vertices }
    requires state { s.0 < length machine.now.vertices }
    ensures { IsTrue result ↔ IsPassed machine.now leg.now v s }
{
    lies_in(machine, v, s) && covers(machine, leg.area, s)
}

// The same, where it is asked first whether the leg exits and enters in the innermost region in which the vertex lies:
// then no State is passed.
#[inline(always)]
fn is_passed(machine: &Machine, leg: &Leg, v: VertexId, s: VertexId) -> bool
    requires leg { IsLegIn machine.now leg.now }
    requires last { v.0 < length machine.now.vertices }
    requires state { s.0 < length machine.now.vertices }
    ensures { IsTrue result ↔ IsPassed machine.now leg.now v s }
{
    let _shaped = machine.regions();
    if is_home_area(machine, leg.area, v) {
        false
    } else {
        lies_around(machine, leg, v, s)
    }
}

// Whether the State is passed, or stands at the end.
#[inline(always)]
fn is_passed_or_end(machine: &Machine, leg: &Leg, v: VertexId, s: VertexId) -> bool
    requires leg { IsLegIn machine.now leg.now }
    requires last { v.0 < length machine.now.vertices }
    requires state { s.0 < length machine.now.vertices }
    ensures { IsTrue result ↔ (IsPassed machine.now leg.now v s ⊎ IsEndState machine.now v s) }
{
    is_end_state(machine, v, s) || is_passed(machine, leg, v, s)
}

// Whether the leg enters the State for the vertex as a last one.
#[inline(always)]
fn is_entered_at(machine: &Machine, leg: &Leg, v: VertexId, s: VertexId) -> bool
    requires leg { IsLegIn machine.now leg.now }
    requires last { v.0 < length machine.now.vertices }
    requires state { s.0 < length machine.now.vertices }
    ensures { IsTrue result ↔ IsEnteredAt machine.now leg.now v s }
{
    is_entered_for(machine, v) && is_passed_or_end(machine, leg, v, s)
}

// Whether the vertex meets the aim as a last one of the leg.
#[inline(always)]
fn meets(machine: &Machine, leg: &Leg, v: VertexId, aim: Aim) -> bool
    requires leg { IsLegIn machine.now leg.now }
    requires last { v.0 < length machine.now.vertices }
    requires aim { IsAimIn machine.now aim }
    ensures { IsTrue result ↔ Meets machine.now leg.now aim v }
{
    match aim {
        Aim::Entering(s) => is_entered_at(machine, leg, v, s),
        Aim::EndingIn(r) => machine.lies_in_region(v, r),
    }
}

// Whether the target of the leg's first transition meets the aim.
fn first_meets(machine: &Machine, leg: &Leg, aim: Aim) -> bool
    requires leg { IsLegIn machine.now leg.now }
    requires aim { IsAimIn machine.now aim }
    ensures { IsTrue result ↔ EndsWhere machine.now (Meets machine.now leg.now aim) leg.now.named }
{
    meets(machine, leg, machine.target(leg.named), aim)
}

// Whether the target of a further transition of the leg meets the aim.
fn further_meets(machine: &Machine, leg: &Leg, aim: Aim) -> bool
    requires leg { IsLegIn machine.now leg.now }
    requires aim { IsAimIn machine.now aim }
    ensures { IsTrue result ↔ HasFurtherTarget machine.now leg.now (Meets machine.now leg.now aim) }
{
    for t in leg.further.as_slice() {
        if meets(machine, leg, machine.target(*t), aim) {
            return true;
        }
    }
    false
}

// Whether a transition of the leg ends on the vertex. It is asked of those that enter the vertex, where they are fewer.
#[inline(never)]
fn has_target(machine: &Machine, leg: &Leg, v: VertexId) -> bool
    requires vertex { v.0 < length machine.now.vertices }
    ensures { IsTrue result → HasTarget machine.now leg.now v }
{
    let incoming = machine.incoming(v);
    if incoming.len() > leg.further.len() {
        return false;
    }
    for t in incoming {
        if has_transition(leg, *t) {
            return true;
        }
    }
    false
}

// Whether what is aimed at is entered as a last vertex of the leg itself.
#[inline(always)]
#[tactic(auto, using(crate::proofs::EnteredAt::target_meets))]
fn meets_at_once(machine: &Machine, leg: &Leg, aim: Aim) -> bool
    requires leg { IsLegIn machine.now leg.now }
    requires aim { IsAimIn machine.now aim }
    ensures { IsTrue result → (EndsWhere machine.now (Meets machine.now leg.now aim) leg.now.named
        ⊎ HasFurtherTarget machine.now leg.now (Meets machine.now leg.now aim)) }
{
    match aim {
        Aim::Entering(s) => has_target(machine, leg, s) && meets(machine, leg, s, aim),
        Aim::EndingIn(_) => false,
    }
}

// Whether the target of a transition of the leg meets the aim.
#[inline(never)]
fn any_meets(machine: &Machine, leg: &Leg, aim: Aim) -> bool
    requires leg { IsLegIn machine.now leg.now }
    requires aim { IsAimIn machine.now aim }
    ensures { IsTrue result ↔ (EndsWhere machine.now (Meets machine.now leg.now aim) leg.now.named
        ⊎ HasFurtherTarget machine.now leg.now (Meets machine.now leg.now aim)) }
{
    meets_at_once(machine, leg, aim)
        || first_meets(machine, leg, aim)
        || further_meets(machine, leg, aim)
}

// Whether a last vertex of the leg meets the aim.
#[inline(always)]
fn last_meets(machine: &Machine, leg: &Leg, aim: Aim) -> bool
    requires leg { IsLegIn machine.now leg.now }
    requires aim { IsAimIn machine.now aim }
    ensures { IsTrue result ↔ HasLast machine.now leg.now (Meets machine.now leg.now aim) }
{
    if leg.in_order {
        meets(machine, leg, leg.last, aim)
    } else {
        any_meets(machine, leg, aim)
    }
}

/// Whether the leg enters the State.
pub fn is_entered(machine: &Machine, leg: &Leg, s: VertexId) -> bool
    requires leg { IsLegIn machine.now leg.now }
    requires state { s.0 < length machine.now.vertices }
    ensures { IsTrue result ↔ IsEntered machine.now leg.now s }
{
    leg.area != Area::Nowhere && last_meets(machine, leg, Aim::Entering(s))
}

/// Whether the leg ends on the State or an entry point of it, and enters the State. It is asked first where the leg ends.
#[inline(always)]
pub fn enters_at_end(machine: &Machine, leg: &Leg, s: VertexId) -> bool
    requires leg { IsLegIn machine.now leg.now }
    requires state { s.0 < length machine.now.vertices }
    ensures { IsTrue result → IsEntered machine.now leg.now s }
{
    is_end_state(machine, leg.last, s) && is_entered(machine, leg, s)
}

/// Whether a last vertex of the leg lies in the region.
pub fn ends_inside(machine: &Machine, leg: &Leg, r: RegionId) -> bool
    requires leg { IsLegIn machine.now leg.now }
    requires region { r.0 < length machine.now.regions }
    ensures { IsTrue result ↔ EndsInside machine.now leg.now r }
{
    last_meets(machine, leg, Aim::EndingIn(r))
}
