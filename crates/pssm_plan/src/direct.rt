//! Ways of one leg that ends on a vertex of the region in which it exits and enters. Most ways are such.
ghost use Rattle.std.specs.Prelude.{◌≡◌, ◌≢◌, ◌↔◌, ◌<◌, length, IsTrue, IfSome, Some};
ghost use Rattle.pssm_model.specs.declared.ids.RegionId.{RegionId as Place};
ghost use Rattle.pssm_model.specs.declared.elements.Owner.TheVariants.{Region, State};
ghost use Rattle.pssm_model.specs.declared.elements.Owner.{Owner as Owning};
ghost use Rattle.pssm_model.specs.declared.steps.Item.{Item as Called};
ghost use Rattle.pssm_model.specs.Forest.{owner_of, LiesInRegion};
ghost use Rattle.pssm_model.specs.WellFormed.{KeepsModelRules};
ghost use Rattle.pssm_legs.specs.Calls.{IsItemIn};
ghost use Rattle.pssm_plan.specs.Ways.{IsWayIn};
ghost use Rattle.pssm_plan.specs.inner.ByWays.{calls_by};
ghost use Rattle.pssm_plan.specs.inner.Direct.{IsDirect, HasNoneInside, MayCallDirectly};

use crate::ways::{Way, way_calls};
use pssm_legs::Area;
use pssm_model::{Item, Machine, Mode, Owner, RegionId, VertexId};

/// Whether a way has one leg that exits and enters in the region, and ends on a vertex that the region owns.
#[inline(always)]
pub fn is_direct(machine: &Machine, way: &Way, r: RegionId) -> bool
    requires way { IsWayIn machine.now way.now }
    ensures { IsTrue result → IsDirect machine.now way.now r }
{
    let leg = &way.legs.first;
    way.legs.more.len() == 0
        && leg.in_order
        && leg.area == Area::Within(r)
        && machine.vertex(leg.last).owner == Owner::Region(r)
}

/// Whether a way that ends so where it exits and enters may call an item.
#[inline(always)]
pub fn may_call_directly(way: &Way, r: RegionId, item: Item) -> bool
    ensures { IsTrue result ↔ MayCallDirectly way.now r item }
{
    let leg = &way.legs.first;
    match item {
        Item::Exit(_) => way.fires,
        Item::Effect(t) => leg.named == t || leg.further.as_slice().contains(&t),
        Item::Enter(s) => s == leg.last,
        Item::Opened(_, Mode::Plain) => false,
        Item::Opened(q, Mode::Shallow) => q == r,
        Item::Opened(q, Mode::Deep) => q == r,
        Item::Pick(c) => c == leg.last,
    }
}

/// The region in which a way exits and enters, where it has one leg that ends on a vertex of this region.
#[inline(always)]
pub fn direct_region(machine: &Machine, way: &Way) -> Option<RegionId>
    requires way { IsWayIn machine.now way.now }
    ensures { IfSome result (λ r. IsDirect machine.now way.now r) }
{
    match machine.vertex(way.legs.first.last).owner {
        Owner::Region(r) if is_direct(machine, way, r) => Some(r),
        Owner::Region(_) | Owner::State(_) | Owner::Top => None,
    }
}

// Whether a vertex has no region.
#[inline(always)]
fn has_no_region(machine: &Machine, s: VertexId) -> bool
    requires vertex { s.0 < length machine.now.vertices }
    ensures { IsTrue result → (q : Place) → owner_of machine.now (Region q) ≡ Some (State s) → ⊥ }
{
    machine.regions_of(s).is_empty()
}

// Whether no State of a region has a region.
fn has_none_inside(machine: &Machine, r: RegionId) -> bool
    requires region { r.0 < length machine.now.regions }
    ensures { IsTrue result → HasNoneInside machine.now r }
{
    let _shaped = machine.regions();
    for s in machine.states_of(r) {
        if !has_no_region(machine, *s) {
            return false;
        }
    }
    true
}

// In a machine with so few vertices they are asked one after another.
const FEW_VERTICES: u16 = 16;

/// The region in which a way exits and enters, where it has one leg that ends on a vertex of this region, and no other
/// region lies in it; in a machine with few vertices it is not looked for.
#[inline(always)]
pub fn quiet_region(machine: &Machine, way: &Way) -> Option<RegionId>
    requires way { IsWayIn machine.now way.now }
    ensures direct { IfSome result (λ r. IsDirect machine.now way.now r) }
    ensures quiet { IfSome result (λ r. HasNoneInside machine.now r) }
{
    if machine.vertices() <= FEW_VERTICES {
        return None;
    }
    let _shaped = machine.regions();
    match direct_region(machine, way) {
        Some(r) if has_none_inside(machine, r) => Some(r),
        Some(_) | None => None,
    }
}

// Whether a way may call an item, by what it ends on where it ends in the region in which it exits and enters.
#[inline(always)]
fn may_call_inside(machine: &Machine, way: &Way, item: Item) -> bool
    requires rules { KeepsModelRules machine.now }
    requires way { IsWayIn machine.now way.now }
    requires item { IsItemIn machine.now item }
    ensures { calls_by machine.now way.now item → IsTrue result }
{
    let _shaped = machine.regions();
    match direct_region(machine, way) {
        Some(r) => may_call_directly(way, r, item),
        None => way_calls(machine, way, item),
    }
}

/// Whether a way may call an item.
#[inline(always)]
pub fn may_call(machine: &Machine, way: &Way, item: Item) -> bool
    requires rules { KeepsModelRules machine.now }
    requires way { IsWayIn machine.now way.now }
    requires item { IsItemIn machine.now item }
    ensures { calls_by machine.now way.now item → IsTrue result }
{
    match item {
        Item::Exit(_) | Item::Effect(_) => way_calls(machine, way, item),
        Item::Enter(_) | Item::Opened(_, _) | Item::Pick(_) => may_call_inside(machine, way, item),
    }
}

// Whether the regions are two that have the same owner.
#[inline(always)]
fn are_siblings(machine: &Machine, q: RegionId, r: RegionId) -> bool
    requires first { q.0 < length machine.now.regions }
    requires second { r.0 < length machine.now.regions }
    ensures apart { IsTrue result → q ≢ r }
    ensures owner { IsTrue result → (o : Owning) × (owner_of machine.now (Region q) ≡ Some o)
        × (owner_of machine.now (Region r) ≡ Some o) }
{
    q != r && machine.region_owner(q) == machine.region_owner(r)
}

/// Whether a vertex may lie in a region: it lies in no other one of the same owner than the one that owns it.
#[inline(always)]
pub fn may_lie_in(machine: &Machine, s: VertexId, r: RegionId) -> bool
    requires vertex { s.0 < length machine.now.vertices }
    requires region { r.0 < length machine.now.regions }
    ensures { LiesInRegion machine.now s r → IsTrue result }
{
    let _shaped = machine.regions();
    match machine.vertex(s).owner {
        Owner::Region(q) => !are_siblings(machine, q, r),
        Owner::State(_) | Owner::Top => true,
    }
}

// In a machine with so few regions it is not asked where a vertex lies.
const FEW_REGIONS: u16 = 4;

/// Whether a way may exit a vertex, by where it lies, where the way ends in the region in which it exits and enters; in
/// a machine with few regions it may.
#[inline(always)]
pub fn may_exit(machine: &Machine, way: &Way, s: VertexId) -> bool
    requires rules { KeepsModelRules machine.now }
    requires way { IsWayIn machine.now way.now }
    requires vertex { s.0 < length machine.now.vertices }
    ensures { calls_by machine.now way.now (Called.Exit s) → IsTrue result }
{
    let count = machine.regions();
    if count <= FEW_REGIONS {
        return true;
    }
    match direct_region(machine, way) {
        Some(r) => may_lie_in(machine, s, r),
        None => true,
    }
}
