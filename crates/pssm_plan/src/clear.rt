//! Whether all that may hold up an item has run, as ways of one transition tell that call it.
ghost use Rattle.std.specs.Prelude.{◌≡◌, ◌<◌, ◌≤◌, length, IsTrue, Contains};
ghost use Rattle.pssm_model.specs.declared.ids.VertexId.{VertexId as Place};
ghost use Rattle.pssm_model.specs.declared.steps.Item.{Item as Called};
ghost use Rattle.pssm_model.specs.WellFormed.{KeepsModelRules};
ghost use Rattle.pssm_legs.specs.Calls.{IsItemIn};
ghost use Rattle.pssm_plan.specs.declared.roster.Call.{Call as Listed};
ghost use Rattle.pssm_plan.specs.Ways.{IsWayIn, AreWaysIn};
ghost use Rattle.pssm_plan.specs.inner.ByWays.{orders_by};
ghost use Rattle.pssm_plan.specs.inner.Near.{EndsNear};
ghost use Rattle.pssm_plan.specs.inner.Direct.{IsDirect};
ghost use Rattle.pssm_plan.specs.inner.Marks.{AreRunBefore};
ghost use Rattle.pssm_plan.specs.inner.Places.{ArePlaced};
ghost use Rattle.pssm_plan.specs.inner.Passes.{ArePassed};
ghost use Rattle.pssm_plan.specs.inner.Sequence.{IsSequence, IsOrderedBySome, IsNestedPair, AreItemsOf};
ghost use Rattle.pssm_plan.specs.inner.Clear.{IsDone, IsLone, IsExitIn, HasNoExitIn};

use crate::calls::place_among;
use crate::direct::{is_direct, may_lie_in};
use crate::near::ends_near;
use crate::places::Row;
use crate::roster::Call;
use crate::waiting::{Around, last_entry, state_around};
use crate::ways::{Way, is_long, is_named};
use pssm_model::{Item, Machine, Owner, RegionId, TransId, VertexId};

// Whether an item is listed and has not run.
#[inline(always)]
fn is_left(calls: &[Call], rows: &[Row], item: Item) -> bool
    requires placed { ArePlaced calls.now rows.now }
    ensures { (IsTrue result → ⊥) → IsDone calls.now item }
{
    match place_among(calls, rows, item) {
        Some(k) => !calls[k].ran,
        None => false,
    }
}

// Whether a way has one leg of one transition.
#[inline(always)]
fn is_lone(way: &Way) -> bool
    ensures { IsTrue result → IsLone way.now }
{
    !is_long(way)
}

// Whether a way ends near a State by a transition whose effect has not run.
#[inline(always)]
fn is_yet_to_lead(machine: &Machine, way: &Way, calls: &[Call], rows: &[Row], s: VertexId) -> bool
    requires way { IsWayIn machine.now way.now }
    requires placed { ArePlaced calls.now rows.now }
    requires state { s.0 < length machine.now.vertices }
    ensures { (IsTrue result → ⊥) → EndsNear machine.now way.now.legs.first s
        → IsDone calls.now (Called.Effect way.now.legs.first.named) }
{
    let first = &way.legs.first;
    ends_near(machine, first, s) && is_left(calls, rows, Item::Effect(first.named))
}

// Whether a way has one transition, and all that comes by it before the entry of a State has run.
#[inline(always)]
fn is_led_by(machine: &Machine, way: &Way, calls: &[Call], rows: &[Row], s: VertexId) -> bool
    requires rules { KeepsModelRules machine.now }
    requires way { IsWayIn machine.now way.now }
    requires placed { ArePlaced calls.now rows.now }
    requires state { s.0 < length machine.now.vertices }
    ensures { IsTrue result → (x : Called) → orders_by machine.now way.now x (Called.Enter s) → IsDone calls.now x }
{
    let _shaped = machine.regions();
    is_lone(way) && !is_yet_to_lead(machine, way, calls, rows, s)
}

// Whether each of the ways has one transition, and all that comes by them before the entry of a State has run.
#[inline(never)]
fn is_led(machine: &Machine, ways: &[Way], calls: &[Call], rows: &[Row], s: VertexId) -> bool
    requires rules { KeepsModelRules machine.now }
    requires ways { AreWaysIn machine.now ways.now }
    requires placed { ArePlaced calls.now rows.now }
    requires state { s.0 < length machine.now.vertices }
    ensures { IsTrue result → (x : Called) → IsOrderedBySome machine.now ways.now x (Called.Enter s) → IsDone calls.now x }
{
    for way in ways {
        if !is_led_by(machine, way, calls, rows, s) {
            return false;
        }
    }
    true
}

// Whether the entries of all States around a vertex have run, where they are listed.
#[inline(always)]
fn are_around(machine: &Machine, calls: &[Call], rows: &[Row], v: VertexId) -> bool
    requires rules { KeepsModelRules machine.now }
    requires placed { ArePlaced calls.now rows.now }
    requires vertex { v.0 < length machine.now.vertices }
    ensures { IsTrue result → ArePassed (IsNestedPair machine.now) calls.now (Called.Enter v) (length calls.now) }
{
    let count = calls.len();
    let left = last_entry(machine, calls, rows, v, count);
    if left > 0 {
        return false;
    }
    true
}

// Whether the entry of the State next around a vertex is listed and has not run: most often that is what holds it up.
#[inline(always)]
fn is_held_up_next(machine: &Machine, calls: &[Call], rows: &[Row], v: VertexId) -> bool
    requires placed { ArePlaced calls.now rows.now }
    requires vertex { v.0 < length machine.now.vertices }
{
    match state_around(machine, v) {
        Some(s) => is_left(calls, rows, Item::Enter(s)),
        None => false,
    }
}

// Whether all that may come before the entry of a State has run.
#[inline(always)]
fn entry_is_clear(
    machine: &Machine,
    ways: &[Way],
    calls: &[Call],
    rows: &[Row],
    s: VertexId,
) -> bool
    requires rules { KeepsModelRules machine.now }
    requires ways { AreWaysIn machine.now ways.now }
    requires placed { ArePlaced calls.now rows.now }
    requires state { s.0 < length machine.now.vertices }
    ensures { IsTrue result → ArePassed (IsSequence machine.now ways.now) calls.now (Called.Enter s) (length calls.now) }
{
    if is_held_up_next(machine, calls, rows, s) {
        return false;
    }
    are_around(machine, calls, rows, s) && is_led(machine, ways, calls, rows, s)
}

// Whether a way, where its transition is the given one, exits and enters in the region in which it ends.
#[inline(always)]
fn is_direct_by(machine: &Machine, way: &Way, t: TransId, r: RegionId) -> bool
    requires way { IsWayIn machine.now way.now }
    ensures { IsTrue result → way.now.legs.first.named ≡ t → IsDirect machine.now way.now r }
{
    !is_named(way, t) || is_direct(machine, way, r)
}

// Whether a way has one transition, and where this is the given one exits and enters in the region in which it ends.
#[inline(always)]
fn is_within_by(machine: &Machine, way: &Way, t: TransId, r: RegionId) -> bool
    requires rules { KeepsModelRules machine.now }
    requires way { IsWayIn machine.now way.now }
    ensures { IsTrue result → (x : Called) → orders_by machine.now way.now x (Called.Effect t) → IsExitIn machine.now r x }
{
    let _shaped = machine.regions();
    is_lone(way) && is_direct_by(machine, way, t, r)
}

// Whether each of the ways has one transition, and only exits in a region come by them before the effect of one.
#[inline(never)]
fn is_within(machine: &Machine, ways: &[Way], t: TransId, r: RegionId) -> bool
    requires rules { KeepsModelRules machine.now }
    requires ways { AreWaysIn machine.now ways.now }
    ensures { IsTrue result → (x : Called) → IsOrderedBySome machine.now ways.now x (Called.Effect t)
        → IsExitIn machine.now r x }
{
    for way in ways {
        if !is_within_by(machine, way, t, r) {
            return false;
        }
    }
    true
}

// Whether a call is of an exit in a region, and has not run.
#[inline(always)]
fn may_exit_in(machine: &Machine, call: &Call, r: RegionId) -> bool
    requires item { IsItemIn machine.now call.now.item }
    requires region { r.0 < length machine.now.regions }
    ensures { IsExitIn machine.now r call.now.item → (IsTrue call.now.ran → ⊥) → IsTrue result }
{
    match call.item {
        Item::Exit(s) => !call.ran && may_lie_in(machine, s, r),
        Item::Effect(_) | Item::Enter(_) | Item::Opened(_, _) | Item::Pick(_) => false,
    }
}

// Whether none of the calls from a place on is of an exit in a region and has not run.
#[inline(never)]
fn has_no_exit_in(machine: &Machine, calls: &[Call], from: usize, r: RegionId) -> bool
    requires items { AreItemsOf machine.now calls.now }
    requires region { r.0 < length machine.now.regions }
    ensures { IsTrue result → HasNoExitIn machine.now calls.now r from (length calls.now) }
{
    for k in from..calls.len() {
        if may_exit_in(machine, &calls[k], r) {
            return false;
        }
    }
    true
}

// Whether all that may come before an effect has run.
#[inline(always)]
fn effect_is_clear(machine: &Machine, ways: &[Way], calls: &[Call], t: TransId, done: usize) -> bool
    requires rules { KeepsModelRules machine.now }
    requires ways { AreWaysIn machine.now ways.now }
    requires items { AreItemsOf machine.now calls.now }
    requires transition { t.0 < length machine.now.transitions }
    requires done { AreRunBefore calls.now done }
    ensures { IsTrue result → ArePassed (IsSequence machine.now ways.now) calls.now (Called.Effect t) (length calls.now) }
{
    let _shaped = machine.regions();
    match machine.vertex(machine.target(t)).owner {
        Owner::Region(r) => {
            is_within(machine, ways, t, r) && has_no_exit_in(machine, calls, done, r)
        }
        Owner::State(_) | Owner::Top => false,
    }
}

/// Whether none of the calls holds it up, as far as ways of one transition tell: asked of
/// entries and effects alone.
#[inline(always)]
pub fn is_clear(
    machine: &Machine,
    ways: &[Way],
    calls: &[Call],
    rows: &[Row],
    call: &Call,
    at: Around,
) -> bool
    requires rules { KeepsModelRules machine.now }
    requires ways { AreWaysIn machine.now ways.now }
    requires placed { ArePlaced calls.now rows.now }
    requires items { AreItemsOf machine.now calls.now }
    requires item { IsItemIn machine.now call.now.item }
    requires done { AreRunBefore calls.now at.done }
    ensures { IsTrue result → ArePassed (IsSequence machine.now ways.now) calls.now call.now.item (length calls.now) }
{
    match call.item {
        Item::Enter(s) => entry_is_clear(machine, ways, calls, rows, s),
        Item::Effect(t) => effect_is_clear(machine, ways, calls, t, at.done),
        Item::Exit(_) | Item::Opened(_, _) | Item::Pick(_) => false,
    }
}
