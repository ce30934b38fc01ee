//! Where the legs of a route exit and enter (UML 2.5.1, 14.2.3.9, least common ancestor).
ghost use Rattle.std.specs.Prelude.{◌≡◌, ◌∷◌, ◌⊎◌, ◌↔◌, ◌<◌, Some, Contains, length, IsTrue};
ghost use Rattle.pssm_model.specs.declared.ids.VertexId.{VertexId};
ghost use Rattle.pssm_model.specs.declared.ids.TransId.{TransId};
ghost use Rattle.pssm_model.specs.declared.elements.Owner.{Owner};
ghost use Rattle.pssm_model.specs.declared.elements.TransKind.TheVariants as trans_kinds;
ghost use Rattle.pssm_model.specs.declared.elements.VertexKind.TheVariants as kinds;
ghost use Rattle.pssm_model.specs.declared.steps.Route.{Route};
ghost use Rattle.pssm_model.specs.Forest.{HasKind, owner_of, IsScope, IsHome, LiesInRegion, LiesInState};
ghost use Rattle.pssm_model.specs.Legs.{Leaves, Enters, Goes, LegScope, LiesInScope, IsPoint};
ghost use Rattle.pssm_model.specs.Paths.{IsJunctionPath};
ghost use Rattle.pssm_model.specs.RouteWords.{IsStepRoute};
ghost use Rattle.pssm_model.specs.WellFormed.{KeepsModelRules, ShareRegion};
ghost use Rattle.pssm_legs.specs.Areas.{scope_of, IsAreaIn};
ghost use Rattle.pssm_legs.specs.inner.Chained.{BeginsChain, IsChainOf, IsMet, IsRegionAt, IsRegionOfPath};

use pssm_model::{Machine, Owner, RegionId, TransId, TransKind, VertexId, VertexKind};

/// Where a leg exits and enters: nowhere, inside a State, or in a region.
#[derive(Clone, Copy, PartialEq, Eq)]
pub enum Area {
    Nowhere,
    Inside(VertexId),
    Within(RegionId),
}

// The innermost region in which two vertices lie that share one.
fn shared_region(machine: &Machine, v: VertexId, w: VertexId) -> RegionId
    requires first { v.0 < length machine.now.vertices }
    requires second { w.0 < length machine.now.vertices }
    requires shared { ShareRegion machine.now v w }
    ensures scope { IsScope machine.now (λ x. (x ≡ v) ⊎ (x ≡ w)) result }
    ensures there { result.0 < length machine.now.regions }
{
    let _shaped = machine.regions();
    match machine.scope(&[v, w]) {
        Some(region) => region,
        None => unreachable!(),
    }
}

// The innermost region in which the source of a transition, its target and those of others lie, which share regions with the source.
#[inline(always)]
fn common_region(
    machine: &Machine,
    first: TransId,
    further: &[TransId],
    source: VertexId,
) -> RegionId
    requires source { Leaves machine.now first source }
    requires path { (t : TransId) → Contains (first ∷ further.now) t → t.0 < length machine.now.transitions }
    requires shared { (t : TransId) (v : VertexId) → Contains (first ∷ further.now) t → Enters machine.now t v → ShareRegion machine.now source v }
    ensures scope { IsScope machine.now (IsMet machine.now first further.now (length further.now)) result }
    ensures there { result.0 < length machine.now.regions }
{
    let _shaped = machine.regions();
    let mut common = shared_region(machine, source, machine.target(first));
    for t in further {
        let target = machine.target(*t);
        if !machine.lies_in_region(target, common) {
            common = shared_region(machine, source, target);
        }
    }
    common
}

// The innermost region in which a region is nested that a State owns.
fn outer_region(machine: &Machine, r: RegionId) -> RegionId
    requires region { r.0 < length machine.now.regions }
    requires nested { owner_of machine.now (Owner.Region r) ≡ Some Owner.Top → ⊥ }
    ensures there { result.0 < length machine.now.regions }
    ensures outer { (s : VertexId) × (owner_of machine.now (Owner.Region r) ≡ Some (Owner.State s)) × IsHome machine.now s result }
{
    let _shaped = machine.regions();
    match machine.region_owner(r) {
        Owner::State(s) => machine.home(s),
        Owner::Top => unreachable!(),
        Owner::Region(_) => unreachable!(),
    }
}

// Whether the State owns the region.
fn is_owned_by(machine: &Machine, r: RegionId, state: VertexId) -> bool
    requires { r.0 < length machine.now.regions }
    ensures { IsTrue result ↔ (owner_of machine.now (Owner.Region r) ≡ Some (Owner.State state)) }
{
    machine.region_owner(r) == Owner::State(state)
}

// The region of the State in which a vertex lies that lies in the State.
fn region_around(machine: &Machine, state: VertexId, v: VertexId) -> RegionId
    requires vertex { v.0 < length machine.now.vertices }
    requires inside { LiesInState machine.now v state }
    ensures owner { owner_of machine.now (Owner.Region result) ≡ Some (Owner.State state) }
    ensures lies { LiesInRegion machine.now v result }
    ensures there { result.0 < length machine.now.regions }
{
    let _shaped = machine.regions();
    let mut region = machine.home(v);
    let mut height = machine.depth(v);
    'up: while !is_owned_by(machine, region, state) {
        region = outer_region(machine, region);
        height -= 1;
    }
    region
}

// The State that owns an entry or exit point.
fn state_of_point(machine: &Machine, point: VertexId) -> VertexId
    requires { IsPoint machine.now point }
    ensures owner { owner_of machine.now (Owner.State point) ≡ Some (Owner.State result) }
    ensures there { result.0 < length machine.now.vertices }
{
    let _shaped = machine.regions();
    match machine.vertex(point).owner {
        Owner::State(s) => s,
        Owner::Top => unreachable!(),
        Owner::Region(_) => unreachable!(),
    }
}

// The region of the State of an entry or exit point in which a vertex lies that lies in the State.
#[inline(never)]
fn region_at(machine: &Machine, point: VertexId, v: VertexId) -> RegionId
    requires point { IsPoint machine.now point }
    requires vertex { v.0 < length machine.now.vertices }
    requires inside { (s : VertexId) → owner_of machine.now (Owner.State point) ≡ Some (Owner.State s) → LiesInState machine.now v s }
    ensures region { IsRegionAt machine.now point v result }
    ensures there { result.0 < length machine.now.regions }
{
    let state = state_of_point(machine, point);
    region_around(machine, state, v)
}

/// Whether the vertex is of the kind.
pub fn has_kind(machine: &Machine, v: VertexId, kind: VertexKind) -> bool
    requires { v.0 < length machine.now.vertices }
    ensures { IsTrue result ↔ HasKind machine.now v kind }
{
    machine.vertex(v).kind == kind
}

// The region in which a leg exits and enters that takes these transitions over junctions: that of the State of the point
// at which it begins or ends, and else the innermost in which all its vertices lie.
#[inline(always)]
fn region_of_path(
    machine: &Machine,
    first: TransId,
    further: &[TransId],
    source: VertexId,
    last: VertexId,
) -> RegionId
    requires rules { KeepsModelRules machine.now }
    requires source { Leaves machine.now first source }
    requires path { IsJunctionPath machine.now (first ∷ further.now) last }
    ensures region { IsRegionOfPath machine.now first further.now source last result }
    ensures there { result.0 < length machine.now.regions }
{
    let _shaped = machine.regions();
    let entry = has_kind(machine, source, VertexKind::EntryPoint);
    let exit = has_kind(machine, last, VertexKind::ExitPoint);
    if entry {
        let target = machine.target(first);
        region_at(machine, source, target)
    } else if exit {
        region_at(machine, last, source)
    } else {
        common_region(machine, first, further, source)
    }
}

// Whether the transition is internal.
fn is_internal(machine: &Machine, t: TransId) -> bool
    requires { t.0 < length machine.now.transitions }
    ensures { IsTrue result ↔ Goes machine.now t trans_kinds.Internal }
{
    machine.transition(t).kind == TransKind::Internal
}

// Whether the transition is local, and the vertex a State.
fn is_local_from(machine: &Machine, t: TransId, source: VertexId) -> bool
    requires transition { t.0 < length machine.now.transitions }
    requires source { source.0 < length machine.now.vertices }
    ensures { IsTrue result ↔ (Goes machine.now t trans_kinds.Local × HasKind machine.now source kinds.State) }
{
    machine.transition(t).kind == TransKind::Local && has_kind(machine, source, VertexKind::State)
}

/// Where a leg exits and enters that takes these transitions over junctions.
#[inline(always)]
pub fn area_of_path(machine: &Machine, first: TransId, further: &[TransId], last: VertexId) -> Area
    requires rules { KeepsModelRules machine.now }
    requires first { first.0 < length machine.now.transitions }
    requires path { IsJunctionPath machine.now (first ∷ further.now) last }
    ensures area { (p : Route) → IsStepRoute machine.now p → BeginsChain machine.now p first
        → IsChainOf machine.now p first further.now last → LegScope machine.now p first (scope_of result) }
    ensures there { IsAreaIn machine.now result }
{
    let _shaped = machine.regions();
    let source = machine.source(first);
    if is_internal(machine, first) {
        Area::Nowhere
    } else if is_local_from(machine, first, source) {
        Area::Inside(source)
    } else {
        Area::Within(region_of_path(machine, first, further, source, last))
    }
}

/// Whether a vertex lies in the area.
pub fn covers(machine: &Machine, area: Area, v: VertexId) -> bool
    requires vertex { v.0 < length machine.now.vertices }
    requires area { IsAreaIn machine.now area }
    ensures { IsTrue result ↔ LiesInScope machine.now v (scope_of area) }
{
    match area {
        Area::Nowhere => false,
        Area::Inside(s) => machine.lies_in_state(v, s),
        Area::Within(r) => machine.lies_in_region(v, r),
    }
}
