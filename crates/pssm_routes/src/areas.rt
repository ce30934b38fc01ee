//! Where routes exit, and which of them conflict (UML 2.5.1, 14.2.3.9, conflicting transitions).
ghost use Rattle.std.specs.Prelude.{◌≡◌, ◌⊎◌, ◌↔◌, ◌<◌, [], length, All, Contains, IsTrue, IfSome, IfNone};
ghost use Rattle.pssm_model.specs.declared.ids.VertexId.{VertexId};
ghost use Rattle.pssm_model.specs.declared.elements.TransKind.TheVariants.{External};
ghost use Rattle.pssm_model.specs.Forest.{IsScope, IsHome, LiesInState, IsOrLiesIn};
ghost use Rattle.pssm_model.specs.Legs.Scope.{Within};
ghost use Rattle.pssm_model.specs.Routes.{IsStateRoute};
ghost use Rattle.pssm_model.specs.WellFormed.{KeepsModelRules, ShareRegion};
ghost use Rattle.pssm_model_laws.specs.inner.RouteWords.{GoesAs, IsAreaOf};
ghost use Rattle.pssm_legs.specs.Areas.{scope_of, IsAreaIn};
ghost use Rattle.pssm_routes.specs.inner.Footprints.{IsFootprintOf, IsFootprintIn, IsAnchorBy, Clash};
ghost use Rattle.pssm_routes.specs.inner.Spans.{IsMetBy, AreAllNear, IsWiderFor, IsBeside};

use pssm_enabled::is_join;
use pssm_legs::{Area, covers};
use pssm_model::{Machine, Owner, RegionId, Route, TransId, TransKind, VertexId};

/// From where a route starts, its source or the State beside its join in which its sources lie, and
/// where it exits.
#[derive(Clone, Copy, PartialEq, Eq)]
pub struct Footprint {
    pub source: VertexId,
    pub area: Area,
}

/// The innermost State in which the vertex lies, if there is one.
pub fn state_around(machine: &Machine, v: VertexId) -> Option<VertexId>
    requires { v.0 < length machine.now.vertices }
    ensures there { IfSome result (λ s. s.0 < length machine.now.vertices) }
    ensures around { IfSome result (LiesInState machine.now v) }
    ensures innermost { IfSome result (λ s. (q : VertexId)
        → LiesInState machine.now v q → IsOrLiesIn machine.now s q) }
    ensures none { IfNone result ((s : VertexId) → LiesInState machine.now v s → ⊥) }
{
    let _has_shape = machine.regions();
    match machine.region_owner(machine.home(v)) {
        Owner::State(s) => Some(s),
        _ => None,
    }
}

// The innermost State in which the vertex lies, where there is one.
fn outer_state(machine: &Machine, v: VertexId) -> VertexId
    requires there { v.0 < length machine.now.vertices }
    requires inside { (s : VertexId) × LiesInState machine.now v s }
    ensures there { result.0 < length machine.now.vertices }
    ensures around { LiesInState machine.now v result }
    ensures innermost { (q : VertexId) → LiesInState machine.now v q → IsOrLiesIn machine.now result q }
{
    match state_around(machine, v) {
        Some(s) => s,
        None => unreachable!(),
    }
}

// Whether the region is the innermost one in which the vertex lies.
#[tactic(auto, using(crate::proofs::Spans::one_home))]
fn is_home(machine: &Machine, v: VertexId, r: RegionId) -> bool
    requires there { v.0 < length machine.now.vertices }
    ensures { IsTrue result ↔ IsHome machine.now v r }
{
    let _shaped = machine.regions();
    machine.home(v) == r
}

// The State that lies directly in the region, and in which the vertex lies.
#[inline(never)]
fn state_beside(machine: &Machine, v: VertexId, home: RegionId) -> VertexId
    requires there { v.0 < length machine.now.vertices }
    requires beside { (s : VertexId) × IsBeside machine.now home v s }
    ensures there { result.0 < length machine.now.vertices }
    ensures beside { IsBeside machine.now home v result }
{
    let _shaped = machine.regions();
    let mut at = v;
    let mut left = machine.depth(v);
    while left > 0 {
        if is_home(machine, at, home) {
            return at;
        }
        at = outer_state(machine, at);
        left -= 1;
    }
    at
}

/// From where a route with this start starts: the source of that, or the State beside its join in
/// which the source lies.
#[inline(always)]
pub fn anchor_of(machine: &Machine, t: TransId) -> VertexId
    requires rules { KeepsModelRules machine.now }
    requires there { t.0 < length machine.now.transitions }
    ensures anchor { IsAnchorBy machine.now t result }
    ensures there { result.0 < length machine.now.vertices }
{
    let _shaped = machine.regions();
    let source = machine.source(t);
    let v = machine.target(t);
    if is_join(machine, v) {
        return state_beside(machine, source, machine.home(v));
    }
    source
}

// The innermost region in which two vertices lie that share one.
fn shared_region(machine: &Machine, v: VertexId, w: VertexId) -> RegionId
    requires first { v.0 < length machine.now.vertices }
    requires second { w.0 < length machine.now.vertices }
    requires shared { ShareRegion machine.now v w }
    ensures scope { IsScope machine.now (λ x. (x ≡ v) ⊎ (x ≡ w)) result }
    ensures there { result.0 < length machine.now.regions }
{
    let _shaped = machine.regions();
    match machine.scope(&[v, w]) {
        Some(region) => region,
        None => unreachable!(),
    }
}

// The region, where the second vertex lies in it, and else the innermost one in which both lie.
fn wider_region(machine: &Machine, common: RegionId, v: VertexId, w: VertexId) -> RegionId
    requires region { common.0 < length machine.now.regions }
    requires first { v.0 < length machine.now.vertices }
    requires second { w.0 < length machine.now.vertices }
    requires shared { ShareRegion machine.now v w }
    ensures wider { IsWiderFor machine.now common v w result }
    ensures there { result.0 < length machine.now.regions }
{
    if machine.lies_in_region(w, common) {
        return common;
    }
    shared_region(machine, v, w)
}

// The innermost region in which the ends of a start and the sources of others lie.
fn region_of_starts(machine: &Machine, t: TransId, more: &[TransId]) -> RegionId
    requires first { t.0 < length machine.now.transitions }
    requires more { All (λ u. u.0 < length machine.now.transitions) more.now }
    requires near { AreAllNear machine.now t more.now [] }
    ensures scope { IsScope machine.now (IsMetBy machine.now t more.now []) result }
    ensures there { result.0 < length machine.now.regions }
{
    let _shaped = machine.regions();
    let source = machine.source(t);
    let mut common = shared_region(machine, source, machine.target(t));
    for u in more {
        common = wider_region(machine, common, source, machine.source(*u));
    }
    common
}

// The innermost region in which the ends of a start, the sources of others and the targets of
// further transitions lie.
fn region_of_all(machine: &Machine, t: TransId, more: &[TransId], rest: &[TransId]) -> RegionId
    requires first { t.0 < length machine.now.transitions }
    requires more { All (λ u. u.0 < length machine.now.transitions) more.now }
    requires rest { All (λ u. u.0 < length machine.now.transitions) rest.now }
    requires near { AreAllNear machine.now t more.now rest.now }
    ensures scope { IsScope machine.now (IsMetBy machine.now t more.now rest.now) result }
    ensures there { result.0 < length machine.now.regions }
{
    let _shaped = machine.regions();
    let source = machine.source(t);
    let mut common = region_of_starts(machine, t, more);
    for u in rest {
        common = wider_region(machine, common, source, machine.target(*u));
    }
    common
}

// The innermost region in which all vertices of an external route lie that starts with the
// transition.
fn region_of(machine: &Machine, route: &Route, start: TransId) -> RegionId
    requires rules { KeepsModelRules machine.now }
    requires route { IsStateRoute machine.now route.now }
    requires start { Contains route.now.starts start }
    requires external { GoesAs machine.now route.now External }
    ensures area { IsAreaOf machine.now route.now (Within result) }
    ensures there { result.0 < length machine.now.regions }
{
    let _shaped = machine.regions();
    let starts = route.starts.as_slice();
    let rest = route.rest.as_slice();
    if starts.len() < 2 {
        return region_of_all(machine, start, &[], rest);
    }
    region_of_all(machine, start, starts, rest)
}

// Where a route of States exits that starts with the transition.
fn area_of(machine: &Machine, route: &Route, start: TransId) -> Area
    requires rules { KeepsModelRules machine.now }
    requires route { IsStateRoute machine.now route.now }
    requires start { Contains route.now.starts start }
    ensures area { IsAreaOf machine.now route.now (scope_of result) }
    ensures there { IsAreaIn machine.now result }
{
    let _shaped = machine.regions();
    match machine.transition(start).kind {
        TransKind::Internal => Area::Nowhere,
        TransKind::Local => Area::Inside(machine.source(start)),
        TransKind::External => Area::Within(region_of(machine, route, start)),
    }
}

// From where a route of States starts that starts with the transition, and where it exits.
#[inline(always)]
fn footprint_from(machine: &Machine, route: &Route, start: TransId) -> Footprint
    requires rules { KeepsModelRules machine.now }
    requires route { IsStateRoute machine.now route.now }
    requires start { Contains route.now.starts start }
    ensures footprint { IsFootprintOf machine.now route.now result }
    ensures there { IsFootprintIn machine.now result }
{
    let _shaped = machine.regions();
    let source = anchor_of(machine, start);
    let area = area_of(machine, route, start);
    Footprint { source, area }
}

/// From where a route of States starts, and where it exits.
#[inline(always)]
pub fn footprint_of(machine: &Machine, route: &Route) -> Footprint
    requires rules { KeepsModelRules machine.now }
    requires route { IsStateRoute machine.now route.now }
    ensures footprint { IsFootprintOf machine.now route.now result }
    ensures there { IsFootprintIn machine.now result }
{
    let _shaped = machine.regions();
    match route.starts.as_slice().get(0) {
        Some(start) => footprint_from(machine, route, *start),
        None => unreachable!(),
    }
}

/// Whether two vertices are one, or one lies in the other.
pub fn are_on_one_chain(machine: &Machine, v: VertexId, w: VertexId) -> bool
    requires first { v.0 < length machine.now.vertices }
    requires second { w.0 < length machine.now.vertices }
    ensures { IsTrue result ↔ (IsOrLiesIn machine.now v w ⊎ IsOrLiesIn machine.now w v) }
{
    v == w || machine.lies_in_state(v, w) || machine.lies_in_state(w, v)
}

/// Whether one of two routes exits the anchor of the other, or their anchors are one or lie in one
/// another.
pub fn clash(machine: &Machine, a: Footprint, b: Footprint) -> bool
    requires first { IsFootprintIn machine.now a }
    requires second { IsFootprintIn machine.now b }
    ensures { IsTrue result ↔ Clash machine.now a b }
{
    covers(machine, a.area, b.source)
        || covers(machine, b.area, a.source)
        || are_on_one_chain(machine, a.source, b.source)
}
