//! `Way`: a route by which a step goes, with its legs.
ghost use Rattle.std.specs.Prelude.{◌≡◌, ◌≤◌, ◌<◌, ◌↔◌, ◌⊎◌, ℕ, IsTrue, IfOk, Contains, length, slice_get, Some};
ghost use Rattle.pssm_model.specs.declared.steps.Item.{Item as Called};
ghost use Rattle.pssm_model.specs.Forest.{LiesInState};
ghost use Rattle.pssm_model.specs.RouteWords.{IsStepRoute};
ghost use Rattle.pssm_model.specs.WellFormed.{KeepsModelRules};
ghost use Rattle.pssm_legs.specs.Calls.{IsItemIn};
ghost use Rattle.pssm_plan.specs.declared.ways.Way.{Way as TakenWay};
ghost use Rattle.pssm_plan.specs.Ways.{IsWayIn, AreWaysIn};
ghost use Rattle.pssm_plan.specs.inner.ByWays.{calls_by, opens_by, orders_by};
ghost use Rattle.pssm_plan.specs.inner.Sequence.{IsLong, IsSomeLong, MayOrder, IsNestedPair, IsSequence, IsOrderedBySome};
ghost use Rattle.pssm_plan.specs.inner.Sequence.{IsOpenedBySome, IsNoEnd, kind_number};

use crate::apart::{may_be_led, may_follow};
use crate::direct::{may_call, may_exit};
use crate::near::leads_on_near;
use pssm_legs::{Legs, calls, legs_of, lone_legs, lone_start, opens_for, orders};
use pssm_model::{Item, Machine, RegionId, Route, TransId, VertexId};
use std::alloc::{AllocError as NoMemory, Global};
use std::snapshot::Snapshot;

// Of so many legs but the first at most it is looked where they end, to see whether an entry comes before an item.
const FEW_LEGS: usize = 2;

/// A route by which a step goes: one that fires at its head, or one by which a region has opened or a choice was left.
#[derive(Drop)]
pub struct Way {
    /// Whether the route fires at the head of the step.
    pub fires: bool,
    /// The route itself, which is only for clauses and takes no memory.
    pub route: Snapshot<Route>,
    pub legs: Legs,
}

/// The way of a route.
///
/// `NoMemory`: memory ran out. A route of one transition takes none.
#[inline(always)]
pub fn way_of(alloc: Global, machine: &Machine, route: &Route, fires: bool) -> Result<Way, NoMemory>
    requires rules { KeepsModelRules machine.now }
    requires route { IsStepRoute machine.now route.now }
    ensures way { IfOk result (IsWayIn machine.now) }
    ensures route { IfOk result (λ way. way.route.value ≡ route.now) }
    ensures fires { IfOk result (λ way. way.fires ≡ fires) }
{
    match lone_start(machine, route) {
        Some(start) => Ok(Way {
            fires,
            route: Snapshot::of(route),
            legs: lone_legs(alloc, machine, route, start),
        }),
        None => way_over(alloc, machine, route, fires),
    }
}

// The way of a route over all its legs.
#[inline(never)]
fn way_over(alloc: Global, machine: &Machine, route: &Route, fires: bool) -> Result<Way, NoMemory>
    requires rules { KeepsModelRules machine.now }
    requires route { IsStepRoute machine.now route.now }
    ensures way { IfOk result (IsWayIn machine.now) }
    ensures route { IfOk result (λ way. way.route.value ≡ route.now) }
    ensures fires { IfOk result (λ way. way.fires ≡ fires) }
{
    let legs = legs_of(alloc, machine, route)?;
    Ok(Way {
        fires,
        route: Snapshot::of(route),
        legs,
    })
}

/// Whether a way calls an item; exits of all that lies where it exits, whether that is active or not.
#[inline(always)]
pub fn way_calls(machine: &Machine, way: &Way, item: Item) -> bool
    requires rules { KeepsModelRules machine.now }
    requires way { IsWayIn machine.now way.now }
    requires item { IsItemIn machine.now item }
    ensures { IsTrue result ↔ calls_by machine.now way.now item }
{
    calls(machine, &way.legs, way.fires, item)
}

/// Whether the region of a State opens by default since a way enters the State and does not aim at the region.
pub fn way_opens(machine: &Machine, way: &Way, s: VertexId, r: RegionId) -> bool
    requires rules { KeepsModelRules machine.now }
    requires way { IsWayIn machine.now way.now }
    requires state { s.0 < length machine.now.vertices }
    requires region { r.0 < length machine.now.regions }
    ensures { IsTrue result ↔ opens_by machine.now way.now s r }
{
    opens_for(machine, &way.legs, s, r)
}

/// Whether one of the ways opens a region of a State so.
pub fn some_way_opens(machine: &Machine, ways: &[Way], s: VertexId, r: RegionId) -> bool
    requires rules { KeepsModelRules machine.now }
    requires ways { AreWaysIn machine.now ways.now }
    requires state { s.0 < length machine.now.vertices }
    requires region { r.0 < length machine.now.regions }
    ensures { IsTrue result ↔ IsOpenedBySome machine.now ways.now s r }
{
    for way in ways {
        if way_opens(machine, way, s, r) {
            return true;
        }
    }
    false
}

// Whether an item is an opening or a pick, which a leg may call at its end.
#[inline(always)]
fn is_end(item: Item) -> bool
    ensures { (IsTrue result → ⊥) → IsNoEnd item }
{
    matches!(item, Item::Opened(_, _) | Item::Pick(_))
}

// Whether the entry of a State may come before what is no entry by a way: before what its leg calls at the end, or what
// another leg calls. Where there are many legs it is not asked where they end.
#[inline(always)]
fn entry_may_lead_on(machine: &Machine, way: &Way, s: VertexId, second: Item) -> bool
    requires rules { KeepsModelRules machine.now }
    requires way { IsWayIn machine.now way.now }
    requires state { s.0 < length machine.now.vertices }
    ensures { orders_by machine.now way.now (Called.Enter s) second → IsTrue result }
{
    let _shaped = machine.regions();
    if is_end(second) {
        return true;
    }
    if way.legs.more.len() > FEW_LEGS {
        return true;
    }
    leads_on_near(machine, way, s)
}

// Whether the entry of a State may come before an item by a way: before the entry of what lies in the State, or what is no
// entry.
#[inline(always)]
fn entry_may_lead(machine: &Machine, way: &Way, s: VertexId, second: Item) -> bool
    requires rules { KeepsModelRules machine.now }
    requires way { IsWayIn machine.now way.now }
    requires state { s.0 < length machine.now.vertices }
    requires second { IsItemIn machine.now second }
    ensures { orders_by machine.now way.now (Called.Enter s) second → IsTrue result }
{
    let _shaped = machine.regions();
    match second {
        Item::Enter(q) => lies_in(machine, q, s),
        _ => entry_may_lead_on(machine, way, s, second),
    }
}

/// Whether the first leg of a way is named by a transition.
#[inline(always)]
pub fn is_named(way: &Way, t: TransId) -> bool
    ensures { IsTrue result ↔ (way.now.legs.first.named ≡ t) }
{
    way.legs.first.named == t
}

// Whether a way may call an effect: one that is not long calls that of its one transition.
#[inline(always)]
fn may_call_effect(way: &Way, t: TransId) -> bool
    ensures named { (way.now.legs.first.named ≡ t) → IsTrue result }
    ensures long { IsLong way.now → IsTrue result }
{
    is_named(way, t) || is_long(way)
}

// Whether an effect may come before an item by a way: one of the way, and no other effect from which a fork or join parts
// it.
#[inline(always)]
fn effect_may_lead(machine: &Machine, way: &Way, t: TransId, second: Item) -> bool
    requires rules { KeepsModelRules machine.now }
    requires way { IsWayIn machine.now way.now }
    requires first { t.0 < length machine.now.transitions }
    requires second { IsItemIn machine.now second }
    ensures { orders_by machine.now way.now (Called.Effect t) second → IsTrue result }
{
    may_call_effect(way, t) && may_follow(machine, way, t, second)
}

// Whether the exit of a vertex may come before an item by a way: of one of which the way may call the exit.
#[inline(always)]
fn exit_may_lead(machine: &Machine, way: &Way, s: VertexId, second: Item) -> bool
    requires rules { KeepsModelRules machine.now }
    requires way { IsWayIn machine.now way.now }
    requires vertex { s.0 < length machine.now.vertices }
    ensures { orders_by machine.now way.now (Called.Exit s) second → IsTrue result }
{
    may_exit(machine, way, s)
}

// Whether the first of two items may come before the second by a way.
#[inline(always)]
fn may_lead(machine: &Machine, way: &Way, first: Item, second: Item) -> bool
    requires rules { KeepsModelRules machine.now }
    requires way { IsWayIn machine.now way.now }
    requires first { IsItemIn machine.now first }
    requires second { IsItemIn machine.now second }
    ensures { orders_by machine.now way.now first second → IsTrue result }
{
    match first {
        Item::Enter(s) => entry_may_lead(machine, way, s, second),
        Item::Effect(t) => effect_may_lead(machine, way, t, second),
        Item::Exit(s) => exit_may_lead(machine, way, s, second),
        Item::Opened(_, _) | Item::Pick(_) => true,
    }
}

// Whether the first of two items may come before the second by a way: nothing does before an exit of its first leg.
#[inline(always)]
fn may_come_first(machine: &Machine, way: &Way, first: Item, second: Item) -> bool
    requires rules { KeepsModelRules machine.now }
    requires way { IsWayIn machine.now way.now }
    requires first { IsItemIn machine.now first }
    requires second { IsItemIn machine.now second }
    ensures { orders_by machine.now way.now first second → IsTrue result }
{
    may_be_led(machine, way, second) && may_lead(machine, way, first, second)
}

// Whether the first of two items comes before the second by a way that calls both.
#[inline(always)]
fn way_orders(machine: &Machine, way: &Way, first: Item, second: Item) -> bool
    requires rules { KeepsModelRules machine.now }
    requires way { IsWayIn machine.now way.now }
    requires first { IsItemIn machine.now first }
    requires second { IsItemIn machine.now second }
    ensures { IsTrue result ↔ orders_by machine.now way.now first second }
{
    may_come_first(machine, way, first, second)
        && orders(machine, &way.legs, way.fires, first, second)
}

// Whether the first of two items comes before the second by one of the ways. It is asked of each.
#[inline(never)]
fn each_way_orders(machine: &Machine, ways: &[Way], first: &Item, second: &Item) -> bool
    requires rules { KeepsModelRules machine.now }
    requires ways { AreWaysIn machine.now ways.now }
    requires first { IsItemIn machine.now first.now }
    requires second { IsItemIn machine.now second.now }
    ensures { IsTrue result ↔ IsOrderedBySome machine.now ways.now first.now second.now }
{
    for way in ways {
        if way_orders(machine, way, *first, *second) {
            return true;
        }
    }
    false
}

// Whether the first of two items comes before the second by one of the ways; most often there is one.
#[inline(never)]
fn some_way_orders(machine: &Machine, ways: &[Way], first: &Item, second: &Item) -> bool
    requires rules { KeepsModelRules machine.now }
    requires ways { AreWaysIn machine.now ways.now }
    requires first { IsItemIn machine.now first.now }
    requires second { IsItemIn machine.now second.now }
    ensures { IsTrue result ↔ IsOrderedBySome machine.now ways.now first.now second.now }
{
    if ways.len() == 1 {
        way_orders(machine, &ways[0], *first, *second)
    } else {
        each_way_orders(machine, ways, first, second)
    }
}

/// Whether a way has more than one leg, or its first leg more than one transition.
#[inline(always)]
pub fn is_long(way: &Way) -> bool
    ensures { IsTrue result ↔ IsLong way.now }
{
    way.legs.more.len() > 0 || way.legs.first.further.len() > 0
}

/// Whether one of the ways has more than one leg, or more than one transition in its first leg.
#[inline(always)]
pub fn some_is_long(ways: &[Way]) -> bool
    ensures { IsTrue result ↔ IsSomeLong ways.now }
{
    for way in ways {
        if is_long(way) {
            return true;
        }
    }
    false
}

// Whether a leg that is one transition puts items of these kinds in this order where it calls both.
#[inline(always)]
fn may_order(first: Item, second: Item) -> bool
    ensures { IsTrue result ↔ MayOrder first second }
{
    match (first, second) {
        (Item::Exit(_), Item::Effect(_)) => true,
        (Item::Effect(_), Item::Enter(_)) => true,
        (Item::Effect(_), Item::Opened(_, _)) => true,
        (Item::Effect(_), Item::Pick(_)) => true,
        (Item::Enter(_), Item::Opened(_, _)) => true,
        (Item::Enter(_), Item::Pick(_)) => true,
        _ => false,
    }
}

// Whether one of the ways is long, or their legs may put the items in this order.
#[inline(always)]
fn may_be_ordered(long: bool, first: Item, second: Item) -> bool
    ensures { IsTrue result ↔ (MayOrder first second ⊎ IsTrue long) }
{
    may_order(first, second) || long
}

// Whether the first of two items comes before the second by one of the ways. Their kinds are asked first, which say
// all where no way is long.
#[inline(always)]
fn are_ordered(machine: &Machine, ways: &[Way], long: bool, first: &Item, second: &Item) -> bool
    requires rules { KeepsModelRules machine.now }
    requires ways { AreWaysIn machine.now ways.now }
    requires long { IsSomeLong ways.now → IsTrue long }
    requires first { IsItemIn machine.now first.now }
    requires second { IsItemIn machine.now second.now }
    ensures { IsTrue result ↔ IsOrderedBySome machine.now ways.now first.now second.now }
{
    let _shaped = machine.regions();
    may_be_ordered(long, *first, *second) && some_way_orders(machine, ways, first, second)
}

/// Whether the first of two items comes before the second since one of their States lies in the other: exits from
/// within, entries from without.
#[inline(always)]
pub fn nests(machine: &Machine, first: Item, second: Item) -> bool
    requires first { IsItemIn machine.now first }
    requires second { IsItemIn machine.now second }
    ensures { IsTrue result ↔ IsNestedPair machine.now first second }
{
    match (first, second) {
        (Item::Exit(s), Item::Exit(q)) => lies_in(machine, s, q),
        (Item::Enter(s), Item::Enter(q)) => lies_in(machine, q, s),
        _ => false,
    }
}

/// Whether a vertex lies in a State; in one without regions none does.
pub fn lies_in(machine: &Machine, v: VertexId, s: VertexId) -> bool
    requires vertex { v.0 < length machine.now.vertices }
    requires state { s.0 < length machine.now.vertices }
    ensures { IsTrue result ↔ LiesInState machine.now v s }
{
    !machine.regions_of(s).is_empty() && machine.lies_in_state(v, s)
}

// The number of the kind of an item: exits, effects, entries, openings and picks.
#[inline(always)]
fn kind_of(item: Item) -> u32
    ensures { result ≡ kind_number item }
{
    match item {
        Item::Exit(_) => 0,
        Item::Effect(_) => 1,
        Item::Enter(_) => 2,
        Item::Opened(_, _) => 3,
        Item::Pick(_) => 4,
    }
}

// Whether one of the ways is long, or the kind of the first of two items no later one than that of the second.
#[inline(always)]
fn may_come_before(long: bool, first: Item, second: Item) -> bool
    ensures { IsTrue result ↔ (kind_number first ≤ kind_number second ⊎ IsTrue long) }
{
    kind_of(first) <= kind_of(second) || long
}

// Whether the first of two items comes before the second, as one of their States lies in the other, or by one of the
// ways.
#[inline(always)]
fn are_in_sequence(machine: &Machine, ways: &[Way], long: bool, first: &Item, second: &Item) -> bool
    requires rules { KeepsModelRules machine.now }
    requires ways { AreWaysIn machine.now ways.now }
    requires long { IsSomeLong ways.now → IsTrue long }
    requires first { IsItemIn machine.now first.now }
    requires second { IsItemIn machine.now second.now }
    ensures { IsTrue result ↔ IsSequence machine.now ways.now first.now second.now }
{
    nests(machine, *first, *second) || are_ordered(machine, ways, long, first, second)
}

/// Whether the first of two items that a step calls comes before the second, in a step that goes by these ways, of
/// which one may be long. Their kinds are asked first.
#[inline(always)]
pub fn comes_before(
    machine: &Machine,
    ways: &[Way],
    long: bool,
    first: &Item,
    second: &Item,
) -> bool
    requires rules { KeepsModelRules machine.now }
    requires ways { AreWaysIn machine.now ways.now }
    requires long { IsSomeLong ways.now → IsTrue long }
    requires first { IsItemIn machine.now first.now }
    requires second { IsItemIn machine.now second.now }
    ensures { IsTrue result ↔ IsSequence machine.now ways.now first.now second.now }
{
    let _shaped = machine.regions();
    may_come_before(long, *first, *second) && are_in_sequence(machine, ways, long, first, second)
}

// How many of the ways stand before the first that may call an item.
#[inline(never)]
fn first_calling(machine: &Machine, ways: &[Way], item: Item) -> usize
    requires rules { KeepsModelRules machine.now }
    requires ways { AreWaysIn machine.now ways.now }
    requires item { IsItemIn machine.now item }
    ensures within { result ≤ length ways.now }
    ensures none { (k : ℕ) (way : TakenWay) → k < result → slice_get ways.now k ≡ Some way → calls_by machine.now way item → ⊥ }
{
    for k in 0..ways.len() {
        if may_call(machine, &ways[k], item) {
            return k;
        }
    }
    ways.len()
}

// The number of the ways up to the last that may call an item, of those from a place on; that place where none does.
#[inline(never)]
fn last_calling(machine: &Machine, ways: &[Way], item: Item, from: usize) -> usize
    requires rules { KeepsModelRules machine.now }
    requires ways { AreWaysIn machine.now ways.now }
    requires item { IsItemIn machine.now item }
    requires from { from ≤ length ways.now }
    ensures within { result ≤ length ways.now }
    ensures none { (k : ℕ) (way : TakenWay) → result ≤ k → slice_get ways.now k ≡ Some way → calls_by machine.now way item → ⊥ }
{
    let mut last = from;
    for k in from..ways.len() {
        if may_call(machine, &ways[k], item) {
            last = k + 1;
        }
    }
    last
}

/// Ways among which are all that call an item: most often one.
#[inline(always)]
pub fn ways_of<'a>(machine: &Machine, ways: &'a [Way], item: &Item) -> &'a [Way]
    requires rules { KeepsModelRules machine.now }
    requires ways { AreWaysIn machine.now ways.now }
    requires item { IsItemIn machine.now item.now }
    ensures all { (way : TakenWay) → Contains ways.now way → calls_by machine.now way item.now → Contains result.now way }
    ensures some { (way : TakenWay) → Contains result.now way → Contains ways.now way }
{
    if ways.len() < 2 {
        return ways;
    }
    let first = first_calling(machine, ways, *item);
    let last = last_calling(machine, ways, *item, first);
    if first < last {
        &ways[first..last]
    } else {
        &ways[..0]
    }
}
