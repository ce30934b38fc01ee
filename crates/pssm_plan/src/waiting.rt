//! How a listed item looks for the nearest call that it waits for.
ghost use Rattle.std.specs.Prelude.{◌≡◌, ◌↔◌, ◌⊎◌, ◌<◌, ◌≤◌, ◌+◌, ◌^◌, IsTrue, MatchOption, length, drop, slice_index_or};
ghost use Rattle.pssm_model.specs.WellFormed.{KeepsModelRules};
ghost use Rattle.pssm_legs.specs.Calls.{IsItemIn};
ghost use Rattle.pssm_plan.specs.declared.roster.Call.{Call};
ghost use Rattle.pssm_plan.specs.Waiting.{HoldsUp};
ghost use Rattle.pssm_plan.specs.Ways.{AreWaysIn};
ghost use Rattle.pssm_plan.specs.inner.Marks.{HasSeen, IsSettledSo, AreRunBefore};
ghost use Rattle.pssm_plan.specs.inner.Passes.{ArePassed, AreFreeFrom, IsNearestBehind, IsNextAhead, IsOrderedBehindNone};
ghost use Rattle.pssm_plan.specs.inner.Places.{ArePlaced, IsEntryFreeFrom};
ghost use Rattle.pssm_plan.specs.inner.Sequence.{IsSomeLong, IsSequence, IsNestedPair, IsOrderedBySome, AreItemsOf};
ghost use Rattle.pssm_plan.specs.inner.Sequence.{IsNewCall, IsNestedInNone, AreLooseUpTo};
ghost use Rattle.pssm_model.specs.declared.steps.Item.{Item as Waiting};
ghost use Rattle.pssm_model.specs.declared.ids.VertexId.{VertexId as Place};
ghost use Rattle.pssm_model.specs.declared.elements.Owner.TheVariants.{Top};
ghost use Rattle.pssm_model.specs.Forest.{LiesInState};

use crate::apart::some_may_be_led;
use crate::calls::place_among;
use crate::clear::is_clear;
use crate::places::Row;
use crate::roster::Call;
use crate::ways::{Way, comes_before, is_long, nests, some_is_long, ways_of};
use pssm_model::{Item, Machine, Owner, VertexId};

// So few calls are looked at one after another.
const FEW_CALLS: usize = 8;

// So many States are asked for around a vertex; no more lie around each other.
const DEEPEST: usize = 32;

/// Whether an item waits, and how far it has looked.
#[derive(Clone, Copy)]
pub struct Wait {
    pub blocked: bool,
    pub seen: u32,
}

/// Where a call stands that looks at the others, and before which place all have run.
#[derive(Clone, Copy)]
pub struct Around {
    pub place: usize,
    pub done: usize,
}

/// From which places on the calls and the ways of a step are new.
#[derive(Clone, Copy)]
pub struct Since {
    pub calls: usize,
    pub ways: usize,
}

// Whether a call holds up another: it comes before it and has not run.
#[inline(always)]
fn holds_up(machine: &Machine, ways: &[Way], long: bool, on: &Call, call: &Call) -> bool
    requires rules { KeepsModelRules machine.now }
    requires ways { AreWaysIn machine.now ways.now }
    requires long { IsSomeLong ways.now → IsTrue long }
    requires on { IsItemIn machine.now on.now.item }
    requires item { IsItemIn machine.now call.now.item }
    ensures { IsTrue result ↔ HoldsUp (IsSequence machine.now ways.now) on.now call.now.item }
{
    !on.ran && comes_before(machine, ways, long, &on.item, &call.item)
}

// The nearest of the calls before a place, and from another on, that holds up a call. They are asked from behind.
#[inline(always)]
fn nearest_behind(
    machine: &Machine,
    ways: &[Way],
    long: bool,
    calls: &[Call],
    call: &Call,
    from: usize,
    end: usize,
) -> Option<usize>
    requires rules { KeepsModelRules machine.now }
    requires ways { AreWaysIn machine.now ways.now }
    requires long { IsSomeLong ways.now → IsTrue long }
    requires items { AreItemsOf machine.now calls.now }
    requires item { IsItemIn machine.now call.now.item }
    requires end { end ≤ length calls.now }
    ensures { IsNearestBehind (IsSequence machine.now ways.now) calls.now call.now.item from end result }
{
    for k in (from..end).rev() {
        if holds_up(machine, ways, long, &calls[k], call) {
            return Some(k);
        }
    }
    None
}

// Whether a call waits, where those before a place do not hold it up: it looks at that one and those behind it.
#[inline(always)]
fn look_ahead(
    machine: &Machine,
    ways: &[Way],
    long: bool,
    calls: &[Call],
    call: &Call,
    from: usize,
) -> Wait
    requires rules { KeepsModelRules machine.now }
    requires ways { AreWaysIn machine.now ways.now }
    requires long { IsSomeLong ways.now → IsTrue long }
    requires items { AreItemsOf machine.now calls.now }
    requires item { IsItemIn machine.now call.now.item }
    requires few { length calls.now < 2 ^ 32 }
    requires from { from ≤ length calls.now }
    ensures { IsNextAhead (IsSequence machine.now ways.now) calls.now call.now.item from result }
{
    for k in from..calls.len() {
        if holds_up(machine, ways, long, &calls[k], call) {
            return Wait {
                blocked: true,
                seen: k as u32,
            };
        }
    }
    Wait {
        blocked: false,
        seen: calls.len() as u32,
    }
}

// Whether a call waits, once it has looked from a place on down, and then at those behind its own.
#[inline(always)]
fn look_back(
    machine: &Machine,
    ways: &[Way],
    long: bool,
    calls: &[Call],
    call: &Call,
    at: Around,
) -> Wait
    requires rules { KeepsModelRules machine.now }
    requires ways { AreWaysIn machine.now ways.now }
    requires long { IsSomeLong ways.now → IsTrue long }
    requires items { AreItemsOf machine.now calls.now }
    requires item { IsItemIn machine.now call.now.item }
    requires few { length calls.now < 2 ^ 32 }
    requires there { at.place < length calls.now }
    requires done { AreRunBefore calls.now at.done }
    requires back { call.now.seen ≤ at.place }
    requires seen { HasSeen (IsSequence machine.now ways.now) calls.now at.place call.now }
    ensures { IsSettledSo (IsSequence machine.now ways.now) calls.now at.place call.now result }
{
    let end = call.seen as usize + 1;
    match nearest_behind(machine, ways, long, calls, call, at.done, end) {
        Some(k) => Wait {
            blocked: true,
            seen: k as u32,
        },
        None => look_ahead(machine, ways, long, calls, call, at.place + 1),
    }
}

// Whether a call waits, once it has looked further for the nearest call that holds it up.
#[inline(always)]
fn look_further(
    machine: &Machine,
    ways: &[Way],
    long: bool,
    calls: &[Call],
    call: &Call,
    at: Around,
) -> Wait
    requires rules { KeepsModelRules machine.now }
    requires ways { AreWaysIn machine.now ways.now }
    requires long { IsSomeLong ways.now → IsTrue long }
    requires items { AreItemsOf machine.now calls.now }
    requires item { IsItemIn machine.now call.now.item }
    requires few { length calls.now < 2 ^ 32 }
    requires there { at.place < length calls.now }
    requires done { AreRunBefore calls.now at.done }
    requires seen { HasSeen (IsSequence machine.now ways.now) calls.now at.place call.now }
    ensures { IsSettledSo (IsSequence machine.now ways.now) calls.now at.place call.now result }
{
    if call.seen as usize <= at.place {
        look_back(machine, ways, long, calls, call, at)
    } else {
        look_ahead(machine, ways, long, calls, call, call.seen as usize)
    }
}

// Whether a call waits, once it has looked further, by ways of which one may be long.
#[inline(never)]
fn look_long(machine: &Machine, ways: &[Way], calls: &[Call], call: &Call, at: Around) -> Wait
    requires rules { KeepsModelRules machine.now }
    requires ways { AreWaysIn machine.now ways.now }
    requires items { AreItemsOf machine.now calls.now }
    requires item { IsItemIn machine.now call.now.item }
    requires few { length calls.now < 2 ^ 32 }
    requires there { at.place < length calls.now }
    requires done { AreRunBefore calls.now at.done }
    requires seen { HasSeen (IsSequence machine.now ways.now) calls.now at.place call.now }
    ensures { IsSettledSo (IsSequence machine.now ways.now) calls.now at.place call.now result }
{
    look_further(machine, ways, true, calls, call, at)
}

// Whether a call waits, once it has looked further by these ways, of which one may be long.
#[inline(always)]
fn look_as(
    machine: &Machine,
    ways: &[Way],
    long: bool,
    calls: &[Call],
    call: &Call,
    at: Around,
) -> Wait
    requires rules { KeepsModelRules machine.now }
    requires ways { AreWaysIn machine.now ways.now }
    requires long { IsSomeLong ways.now → IsTrue long }
    requires items { AreItemsOf machine.now calls.now }
    requires item { IsItemIn machine.now call.now.item }
    requires few { length calls.now < 2 ^ 32 }
    requires there { at.place < length calls.now }
    requires done { AreRunBefore calls.now at.done }
    requires seen { HasSeen (IsSequence machine.now ways.now) calls.now at.place call.now }
    ensures { IsSettledSo (IsSequence machine.now ways.now) calls.now at.place call.now result }
{
    if long {
        look_long(machine, ways, calls, call, at)
    } else {
        look_further(machine, ways, false, calls, call, at)
    }
}

// Whether a call waits, once it has looked further by these ways.
#[inline(always)]
fn look_by(machine: &Machine, ways: &[Way], calls: &[Call], call: &Call, at: Around) -> Wait
    requires rules { KeepsModelRules machine.now }
    requires ways { AreWaysIn machine.now ways.now }
    requires items { AreItemsOf machine.now calls.now }
    requires item { IsItemIn machine.now call.now.item }
    requires few { length calls.now < 2 ^ 32 }
    requires there { at.place < length calls.now }
    requires done { AreRunBefore calls.now at.done }
    requires seen { HasSeen (IsSequence machine.now ways.now) calls.now at.place call.now }
    ensures { IsSettledSo (IsSequence machine.now ways.now) calls.now at.place call.now result }
{
    look_as(machine, ways, some_is_long(ways), calls, call, at)
}

// Whether ways may order something before an item: nothing before an exit where none of them is long.
#[inline(always)]
fn asks_ways(ways: &[Way], item: Item) -> bool
    ensures { (IsTrue result → ⊥) → IsSomeLong ways.now → ⊥ }
{
    !matches!(item, Item::Exit(_)) || some_is_long(ways)
}

// Whether a call waits, once it has looked further. Of the ways, those that do not call its item say nothing of it.
#[inline(always)]
fn look_near(machine: &Machine, ways: &[Way], calls: &[Call], call: &Call, at: Around) -> Wait
    requires rules { KeepsModelRules machine.now }
    requires ways { AreWaysIn machine.now ways.now }
    requires items { AreItemsOf machine.now calls.now }
    requires item { IsItemIn machine.now call.now.item }
    requires few { length calls.now < 2 ^ 32 }
    requires there { at.place < length calls.now }
    requires done { AreRunBefore calls.now at.done }
    requires seen { HasSeen (IsSequence machine.now ways.now) calls.now at.place call.now }
    ensures { IsSettledSo (IsSequence machine.now ways.now) calls.now at.place call.now result }
{
    let near = ways_of(machine, ways, &call.item);
    look_by(machine, near, calls, call, at)
}

// Whether a call holds up another since one of their States lies in the other: it comes before it so and has not run.
#[inline(always)]
fn holds_up_nested(machine: &Machine, on: &Call, call: &Call) -> bool
    requires on { IsItemIn machine.now on.now.item }
    requires item { IsItemIn machine.now call.now.item }
    ensures { IsTrue result ↔ HoldsUp (IsNestedPair machine.now) on.now call.now.item }
{
    !on.ran && nests(machine, on.item, call.item)
}

// Whether a call waits, once it has looked further behind its own place for a call that holds it up by where their States lie.
#[inline(always)]
fn look_nested(machine: &Machine, calls: &[Call], call: &Call, place: usize) -> Wait
    requires items { AreItemsOf machine.now calls.now }
    requires item { IsItemIn machine.now call.now.item }
    requires few { length calls.now < 2 ^ 32 }
    requires ahead { place < call.now.seen }
    requires seen { HasSeen (IsNestedPair machine.now) calls.now place call.now }
    ensures { IsSettledSo (IsNestedPair machine.now) calls.now place call.now result }
{
    let count = calls.len() as u32;
    for k in call.seen..count {
        if holds_up_nested(machine, &calls[k as usize], call) {
            return Wait {
                blocked: true,
                seen: k,
            };
        }
    }
    Wait {
        blocked: false,
        seen: count,
    }
}

/// Whether a call waits, once it has looked further.
#[inline(always)]
pub fn look_on(machine: &Machine, ways: &[Way], calls: &[Call], call: &Call, at: Around) -> Wait
    requires rules { KeepsModelRules machine.now }
    requires ways { AreWaysIn machine.now ways.now }
    requires items { AreItemsOf machine.now calls.now }
    requires item { IsItemIn machine.now call.now.item }
    requires few { length calls.now < 2 ^ 32 }
    requires there { at.place < length calls.now }
    requires done { AreRunBefore calls.now at.done }
    requires seen { HasSeen (IsSequence machine.now ways.now) calls.now at.place call.now }
    ensures { IsSettledSo (IsSequence machine.now ways.now) calls.now at.place call.now result }
{
    if asks_ways(ways, call.item) {
        look_near(machine, ways, calls, call, at)
    } else {
        look_further(machine, ways, false, calls, call, at)
    }
}

// Whether the first or the last of the ways is long.
#[inline(always)]
fn begin_or_end_long(ways: &[Way]) -> bool {
    !ways.is_empty() && (is_long(&ways[0]) || is_long(&ways[ways.len() - 1]))
}

// Whether a call has more than a few others to look at, and no way is seen at once to be long.
#[inline(always)]
fn looks_at_many(ways: &[Way], calls: &[Call], at: Around) -> bool {
    calls.len().saturating_sub(at.done) > FEW_CALLS && !begin_or_end_long(ways)
}

// Whether a call has more than a few others to look at, none of which holds it up, as far as is asked.
#[inline(always)]
fn is_clear_of_many(
    machine: &Machine,
    ways: &[Way],
    calls: &[Call],
    rows: &[Row],
    call: &Call,
    at: Around,
) -> bool
    requires rules { KeepsModelRules machine.now }
    requires ways { AreWaysIn machine.now ways.now }
    requires placed { ArePlaced calls.now rows.now }
    requires items { AreItemsOf machine.now calls.now }
    requires item { IsItemIn machine.now call.now.item }
    requires done { AreRunBefore calls.now at.done }
    ensures { IsTrue result → ArePassed (IsSequence machine.now ways.now) calls.now call.now.item (length calls.now) }
{
    looks_at_many(ways, calls, at) && is_clear(machine, ways, calls, rows, call, at)
}

/// Whether a call waits, once it has looked further. Where many calls are left to look at, it is asked first whether
/// what may hold it up has run.
#[inline(always)]
pub fn look_over(
    machine: &Machine,
    ways: &[Way],
    calls: &[Call],
    rows: &[Row],
    call: &Call,
    at: Around,
) -> Wait
    requires rules { KeepsModelRules machine.now }
    requires ways { AreWaysIn machine.now ways.now }
    requires placed { ArePlaced calls.now rows.now }
    requires items { AreItemsOf machine.now calls.now }
    requires item { IsItemIn machine.now call.now.item }
    requires few { length calls.now < 2 ^ 32 }
    requires there { at.place < length calls.now }
    requires done { AreRunBefore calls.now at.done }
    requires seen { HasSeen (IsSequence machine.now ways.now) calls.now at.place call.now }
    ensures { IsSettledSo (IsSequence machine.now ways.now) calls.now at.place call.now result }
{
    if is_clear_of_many(machine, ways, calls, rows, call, at) {
        return Wait {
            blocked: false,
            seen: calls.len() as u32,
        };
    }
    look_on(machine, ways, calls, call, at)
}

// Whether this is the machine itself.
#[inline(always)]
fn is_top(owner: Owner) -> bool
    ensures { IsTrue result → owner ≡ Top }
{
    owner == Owner::Top
}

// Whether a vertex lies in no State: a region owns it that no State owns.
#[inline(always)]
fn is_outermost(machine: &Machine, v: VertexId) -> bool
    requires rules { KeepsModelRules machine.now }
    requires vertex { v.0 < length machine.now.vertices }
    ensures { IsTrue result → (s : Place) → LiesInState machine.now v s → ⊥ }
{
    let _shaped = machine.regions();
    match machine.vertex(v).owner {
        Owner::Region(r) => is_top(machine.region_owner(r)),
        Owner::State(_) | Owner::Top => false,
    }
}

/// Whether another item may come before an item by where their States lie: before exits of States with regions, and
/// entries of what lies in States.
#[inline(always)]
pub fn may_wait(machine: &Machine, item: Item) -> bool
    requires rules { KeepsModelRules machine.now }
    requires item { IsItemIn machine.now item }
    ensures { (IsTrue result → ⊥) → IsNestedInNone machine.now item }
{
    match item {
        Item::Exit(s) => !machine.regions_of(s).is_empty(),
        Item::Enter(s) => !is_outermost(machine, s),
        Item::Effect(_) | Item::Opened(_, _) | Item::Pick(_) => false,
    }
}

// How many of the calls before a place are left once those are passed, from behind, that do not hold up a call by where
// their States lie.
fn last_nested(machine: &Machine, calls: &[Call], call: &Call, from: usize, end: usize) -> usize
    requires items { AreItemsOf machine.now calls.now }
    requires item { IsItemIn machine.now call.now.item }
    requires end { end ≤ length calls.now }
    requires done { AreRunBefore calls.now from }
    ensures within { result ≤ end }
    ensures none { AreFreeFrom (IsNestedPair machine.now) calls.now call.now.item result end }
{
    for k in (from..end).rev() {
        if holds_up_nested(machine, &calls[k], call) {
            return k + 1;
        }
    }
    0
}

/// The State in whose region a vertex lies, where that is no top region.
#[inline(always)]
pub fn state_around(machine: &Machine, v: VertexId) -> Option<VertexId>
    requires vertex { v.0 < length machine.now.vertices }
    ensures { MatchOption result ((s : Place) → LiesInState machine.now v s → ⊥)
        (λ q. (q.0 < length machine.now.vertices)
        × ((s : Place) → LiesInState machine.now v s → (s ≡ q) ⊎ LiesInState machine.now q s)) }
{
    let _shaped = machine.regions();
    match machine.region_owner(machine.home(v)) {
        Owner::State(q) => Some(q),
        Owner::Top => None,
        Owner::Region(_) => unreachable!(),
    }
}

// The place behind that of a call, where it has not run and stands before another place; else, and where that is no less,
// the least place.
#[inline(always)]
fn behind_call(call: &Call, place: usize, end: usize, least: usize) -> usize
    requires { least ≤ end }
    ensures within { result ≤ end }
    ensures least { least ≤ result }
    ensures behind { IsTrue call.now.ran ⊎ ((end ≤ place) ⊎ (place < result)) }
{
    if call.ran {
        return least;
    }
    if place >= end {
        return least;
    }
    if place < least {
        return least;
    }
    place + 1
}

// The place behind the entry of a State, where that is called before a place and has not run, and at least another place.
#[inline(always)]
fn behind_entry(calls: &[Call], rows: &[Row], s: VertexId, end: usize, least: usize) -> usize
    requires placed { ArePlaced calls.now rows.now }
    requires least { least ≤ end }
    ensures within { result ≤ end }
    ensures least { least ≤ result }
    ensures none { IsEntryFreeFrom calls.now s result end }
{
    match place_among(calls, rows, Item::Enter(s)) {
        Some(place) => behind_call(&calls[place], place, end, least),
        None => least,
    }
}

// A place from which on, and before another, no call of the entry of a State around a vertex stands that has not run.
// It asks State after State.
#[inline(never)]
fn last_around(machine: &Machine, calls: &[Call], rows: &[Row], v: VertexId, end: usize) -> usize
    requires placed { ArePlaced calls.now rows.now }
    requires vertex { v.0 < length machine.now.vertices }
    ensures within { result ≤ end }
    ensures none { AreFreeFrom (IsNestedPair machine.now) calls.now (Waiting.Enter v) result end }
{
    let mut inner = v;
    let mut last = 0;
    for _ in 0..DEEPEST {
        match state_around(machine, inner) {
            Some(s) => {
                last = behind_entry(calls, rows, s, end, last);
                inner = s;
            }
            None => return last,
        }
    }
    end
}

/// A place from which on, and before another, no call of the entry of a State around a vertex stands that has not run;
/// where it lies in no State, it is the first one.
#[inline(always)]
pub fn last_entry(machine: &Machine, calls: &[Call], rows: &[Row], v: VertexId, end: usize) -> usize
    requires rules { KeepsModelRules machine.now }
    requires placed { ArePlaced calls.now rows.now }
    requires vertex { v.0 < length machine.now.vertices }
    ensures within { result ≤ end }
    ensures none { AreFreeFrom (IsNestedPair machine.now) calls.now (Waiting.Enter v) result end }
{
    if is_outermost(machine, v) {
        0
    } else {
        last_around(machine, calls, rows, v, end)
    }
}

// The same for any call, where all before another place have run: they are asked one after another, if any may come
// before it so.
#[inline(always)]
fn last_other(machine: &Machine, calls: &[Call], call: &Call, from: usize, end: usize) -> usize
    requires rules { KeepsModelRules machine.now }
    requires items { AreItemsOf machine.now calls.now }
    requires item { IsItemIn machine.now call.now.item }
    requires end { end ≤ length calls.now }
    requires done { AreRunBefore calls.now from }
    ensures within { result ≤ end }
    ensures none { AreFreeFrom (IsNestedPair machine.now) calls.now call.now.item result end }
{
    if may_wait(machine, call.item) {
        last_nested(machine, calls, call, from, end)
    } else {
        0
    }
}

// Whether the calls before a place are asked one after another: for an entry they are few beside the States around it.
#[inline(always)]
fn is_walked(machine: &Machine, item: Item, count: usize) -> bool
    requires { IsItemIn machine.now item }
{
    match item {
        Item::Enter(v) => count <= 4 * machine.depth(v) as usize,
        Item::Exit(_) | Item::Effect(_) | Item::Opened(_, _) | Item::Pick(_) => true,
    }
}

// A place from which on, and before another, none of the calls holds up a call by where their States lie. For an entry it
// is asked where the entries of the States around it stand; for another, all calls before the place are asked.
#[inline(always)]
fn last_before(
    machine: &Machine,
    calls: &[Call],
    rows: &[Row],
    call: &Call,
    from: usize,
    end: usize,
) -> usize
    requires rules { KeepsModelRules machine.now }
    requires placed { ArePlaced calls.now rows.now }
    requires items { AreItemsOf machine.now calls.now }
    requires item { IsItemIn machine.now call.now.item }
    requires end { end ≤ length calls.now }
    requires done { AreRunBefore calls.now from }
    ensures within { result ≤ end }
    ensures none { AreFreeFrom (IsNestedPair machine.now) calls.now call.now.item result end }
{
    if end <= from {
        return 0;
    }
    if is_walked(machine, call.item, end - from) {
        return last_other(machine, calls, call, from, end);
    }
    match call.item {
        Item::Enter(v) => last_entry(machine, calls, rows, v, end),
        Item::Exit(_) | Item::Effect(_) | Item::Opened(_, _) | Item::Pick(_) => {
            last_other(machine, calls, call, from, end)
        }
    }
}

// The place to which a call looks next, where none of those from this one on and up to its own holds it up: the one
// before it, or the one behind its own.
#[inline(always)]
fn next_place(left: usize, place: usize) -> usize
    requires left { left ≤ place }
    requires few { place < 2 ^ 32 }
    ensures within { result ≤ place + 1 }
    ensures first { left ≡ 0 → result ≡ place + 1 }
    ensures further { 0 < left → result + 1 ≡ left }
{
    if left == 0 { place + 1 } else { left - 1 }
}

// A new call as it looks at the others, where none of the new ones before it holds it up: before the new ones only such
// does in whose State its own lies.
#[inline(always)]
fn begun(
    machine: &Machine,
    ways: &[Way],
    calls: &[Call],
    rows: &[Row],
    call: &Call,
    since: Since,
    at: Around,
) -> Call
    requires rules { KeepsModelRules machine.now }
    requires placed { ArePlaced calls.now rows.now }
    requires items { AreItemsOf machine.now calls.now }
    requires item { IsItemIn machine.now call.now.item }
    requires few { length calls.now < 2 ^ 32 }
    requires new { IsNewCall machine.now ways.now calls.now call.now since }
    requires there { at.place < length calls.now }
    requires done { AreRunBefore calls.now at.done }
    requires from { since.calls ≤ at.place }
    requires passed { AreFreeFrom (IsSequence machine.now (drop since.ways ways.now)) calls.now call.now.item
        since.calls (at.place + 1) }
    ensures item { result.item ≡ call.now.item }
    ensures ran { result.ran ≡ call.now.ran }
    ensures seen { HasSeen (IsSequence machine.now ways.now) calls.now at.place result }
{
    let left = last_before(machine, calls, rows, call, at.done, since.calls);
    Call {
        blocked: false,
        seen: next_place(left, at.place) as u32,
        ..*call
    }
}

// Whether a new call waits, once it has looked at the new ones before its own place, then at the others. Nothing comes
// before itself.
#[inline(always)]
fn look_newly(
    machine: &Machine,
    ways: &[Way],
    long: bool,
    calls: &[Call],
    rows: &[Row],
    call: &Call,
    since: Since,
    at: Around,
) -> Wait
    requires rules { KeepsModelRules machine.now }
    requires placed { ArePlaced calls.now rows.now }
    requires ways { AreWaysIn machine.now ways.now }
    requires long { IsSomeLong (drop since.ways ways.now) → IsTrue long }
    requires items { AreItemsOf machine.now calls.now }
    requires item { IsItemIn machine.now call.now.item }
    requires few { length calls.now < 2 ^ 32 }
    requires from { since.calls ≤ at.place }
    requires there { at.place < length calls.now }
    requires own { (d : Call) → (slice_index_or calls.now at.place d).item ≡ call.now.item }
    requires done { AreRunBefore calls.now at.done }
    requires new { IsNewCall machine.now ways.now calls.now call.now since }
    ensures { IsSettledSo (IsSequence machine.now ways.now) calls.now at.place call.now result }
{
    let _shaped = machine.regions();
    let near = &ways[since.ways..];
    match nearest_behind(machine, near, long, calls, call, since.calls, at.place) {
        Some(k) => Wait {
            blocked: true,
            seen: k as u32,
        },
        None => {
            let begun = begun(machine, ways, calls, rows, call, since, at);
            look_as(machine, near, long, calls, &begun, at)
        }
    }
}

// Whether new ways, of which one may be long, may order something before an item: none do where there is none, nor
// before an exit where none is long.
#[inline(always)]
fn asks_new(machine: &Machine, ways: &[Way], long: bool, item: Item, since: Since) -> bool
    requires rules { KeepsModelRules machine.now }
    requires ways { AreWaysIn machine.now ways.now }
    requires long { IsSomeLong (drop since.ways ways.now) → IsTrue long }
    ensures { (x : Waiting) → IsOrderedBySome machine.now (drop since.ways ways.now) x item → IsTrue result }
{
    let _shaped = machine.regions();
    since.ways < ways.len() && (long || !matches!(item, Item::Exit(_)))
}

// Whether one of the ways, of which one may be long, may put something before an item; it is asked only where one may be.
#[inline(always)]
fn long_may_lead(machine: &Machine, ways: &[Way], long: bool, item: Item) -> bool
    requires rules { KeepsModelRules machine.now }
    requires ways { AreWaysIn machine.now ways.now }
    requires item { IsItemIn machine.now item }
    ensures { (x : Waiting) → IsOrderedBySome machine.now ways.now x item → IsTrue result }
{
    if long {
        some_may_be_led(machine, ways, item)
    } else {
        true
    }
}

// Whether new ways, of which one may be long, may order something before an item: also not before an exit where each of
// them exits the State by its first leg.
#[inline(always)]
fn asks_led(machine: &Machine, ways: &[Way], long: bool, item: Item, since: Since) -> bool
    requires rules { KeepsModelRules machine.now }
    requires ways { AreWaysIn machine.now ways.now }
    requires long { IsSomeLong (drop since.ways ways.now) → IsTrue long }
    requires item { IsItemIn machine.now item }
    requires within { since.ways ≤ length ways.now }
    ensures { (x : Waiting) → IsOrderedBySome machine.now (drop since.ways ways.now) x item → IsTrue result }
{
    asks_new(machine, ways, long, item, since)
        && long_may_lead(machine, &ways[since.ways..], long, item)
}

// Whether a call that has not seen all may wait for a new one at all.
#[inline(always)]
fn may_wait_new(machine: &Machine, ways: &[Way], long: bool, item: Item, since: Since) -> bool
    requires rules { KeepsModelRules machine.now }
    requires ways { AreWaysIn machine.now ways.now }
    requires long { IsSomeLong (drop since.ways ways.now) → IsTrue long }
    requires item { IsItemIn machine.now item }
    requires within { since.ways ≤ length ways.now }
    ensures nested { (IsTrue result → ⊥) → IsNestedInNone machine.now item }
    ensures ordered { (x : Waiting) → IsOrderedBySome machine.now (drop since.ways ways.now) x item → IsTrue result }
{
    asks_led(machine, ways, long, item, since) || may_wait(machine, item)
}

/// Whether a new call waits, once it has looked further. Only new ways say something of it, of which one may be long.
#[inline(always)]
pub fn look_new(
    machine: &Machine,
    ways: &[Way],
    long: bool,
    calls: &[Call],
    rows: &[Row],
    call: &Call,
    since: Since,
    at: Around,
) -> Wait
    requires rules { KeepsModelRules machine.now }
    requires placed { ArePlaced calls.now rows.now }
    requires ways { AreWaysIn machine.now ways.now }
    requires long { IsSomeLong (drop since.ways ways.now) → IsTrue long }
    requires items { AreItemsOf machine.now calls.now }
    requires item { IsItemIn machine.now call.now.item }
    requires few { length calls.now < 2 ^ 32 }
    requires from { since.calls ≤ at.place }
    requires there { at.place < length calls.now }
    requires own { (d : Call) → (slice_index_or calls.now at.place d).item ≡ call.now.item }
    requires done { AreRunBefore calls.now at.done }
    requires new { IsNewCall machine.now ways.now calls.now call.now since }
    ensures { IsSettledSo (IsSequence machine.now ways.now) calls.now at.place call.now result }
{
    if !may_wait_new(machine, ways, long, call.item, since) {
        return Wait {
            blocked: false,
            seen: calls.len() as u32,
        };
    }
    look_newly(machine, ways, long, calls, rows, call, since, at)
}

/// Whether one of the ways from a place on is long.
#[inline(always)]
pub fn some_new_is_long(ways: &[Way], since: Since) -> bool
    requires { since.ways ≤ length ways.now }
    ensures { IsTrue result ↔ IsSomeLong (drop since.ways ways.now) }
{
    some_is_long(&ways[since.ways..])
}

// Whether an item may come before others by where their States lie: exits of what lies in States may, and entries of
// States with regions.
#[inline(always)]
fn may_hold(machine: &Machine, item: Item) -> bool
    requires rules { KeepsModelRules machine.now }
    requires item { IsItemIn machine.now item }
    ensures { (x : Waiting) → IsNestedPair machine.now item x → IsTrue result }
{
    match item {
        Item::Exit(s) => !is_outermost(machine, s),
        Item::Enter(s) => !machine.regions_of(s).is_empty(),
        Item::Effect(_) | Item::Opened(_, _) | Item::Pick(_) => false,
    }
}

/// The place of the first of the new calls that may come before others by where their States lie, or that behind all.
#[inline(always)]
pub fn first_nesting(machine: &Machine, calls: &[Call], first: usize) -> usize
    requires rules { KeepsModelRules machine.now }
    requires items { AreItemsOf machine.now calls.now }
    requires first { first ≤ length calls.now }
    ensures from { first ≤ result }
    ensures within { result ≤ length calls.now }
    ensures loose { AreLooseUpTo machine.now calls.now first result }
{
    for k in first..calls.len() {
        if may_hold(machine, calls[k].item) {
            return k;
        }
    }
    calls.len()
}

// A call that is not blocked, as one that has seen all up to a place.
#[inline(always)]
fn raised(
    machine: &Machine,
    calls: &[Call],
    call: &Call,
    first: usize,
    nests: usize,
    place: usize,
) -> Call
    requires few { length calls.now < 2 ^ 32 }
    requires within { nests ≤ length calls.now }
    requires place { place < first }
    requires from { first ≤ nests }
    requires loose { AreLooseUpTo machine.now calls.now first nests }
    requires free { IsTrue call.now.blocked → ⊥ }
    requires passed { ArePassed (IsNestedPair machine.now) calls.now call.now.item first }
    ensures item { result.item ≡ call.now.item }
    ensures ran { result.ran ≡ call.now.ran }
    ensures ahead { place < result.seen }
    ensures seen { HasSeen (IsNestedPair machine.now) calls.now place result }
{
    Call {
        seen: nests as u32,
        ..*call
    }
}

/// Whether a call that is not blocked waits for one of the new ones, of which those before a place come before none by
/// where their States lie.
#[inline(always)]
pub fn look_free(
    machine: &Machine,
    ways: &[Way],
    calls: &[Call],
    call: &Call,
    first: usize,
    nests: usize,
    place: usize,
) -> Wait
    requires items { AreItemsOf machine.now calls.now }
    requires item { IsItemIn machine.now call.now.item }
    requires few { length calls.now < 2 ^ 32 }
    requires within { nests ≤ length calls.now }
    requires place { place < first }
    requires from { first ≤ nests }
    requires loose { AreLooseUpTo machine.now calls.now first nests }
    requires free { IsTrue call.now.blocked → ⊥ }
    requires passed { ArePassed (IsSequence machine.now ways.now) calls.now call.now.item first }
    requires apart { IsOrderedBehindNone machine.now ways.now calls.now call.now.item first }
    ensures { IsSettledSo (IsSequence machine.now ways.now) calls.now place call.now result }
{
    look_nested(
        machine,
        calls,
        &raised(machine, calls, call, first, nests, place),
        place,
    )
}
