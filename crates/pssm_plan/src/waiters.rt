//! Each listed item that waits is told for which one, as more is listed and one has run.
ghost use Rattle.std.specs.Prelude.{◌≡◌, ◌≢◌, ◌<◌, ◌≤◌, ◌↔◌, ◌+◌, ◌^◌, ℕ, IsTrue, Contains, AllPairs, length, drop, slice_index_or};
ghost use Rattle.std.specs.Prelude.{false};
ghost use Rattle.pssm_model.specs.WellFormed.{KeepsModelRules};
ghost use Rattle.pssm_legs.specs.Calls.{IsItemIn};
ghost use Rattle.pssm_plan.specs.declared.roster.Call.{Call};
ghost use Rattle.pssm_plan.specs.declared.waiters.Span.{Span as TheSpan};
ghost use Rattle.pssm_plan.specs.Ways.{AreWaysIn};
ghost use Rattle.pssm_plan.specs.inner.Marks.{HasSeen, IsFreshAt, IsAlike, IsSettledAt, AreRunBefore, ArePairwise};
ghost use Rattle.pssm_plan.specs.inner.Sequence.{IsSequence, IsSomeLong, AreItemsOf, AreNewSince};
ghost use Rattle.pssm_plan.specs.inner.Sequence.{AreLooseUpTo, IsNestedInNone};
ghost use Rattle.pssm_plan.specs.inner.Places.{ArePlaced};
ghost use Rattle.pssm_plan.specs.inner.Passes.{AreSureBut, AreAllSure, NewLeft, WaitingLeft, FreeLeft};
ghost use Rattle.pssm_plan.specs.inner.Passes.{ArePassed, AreCaught, IsPut};
ghost use Rattle.pssm_plan.specs.inner.Clear.{LeadsTo, AreClearBefore};

use crate::junctions::leads_to;
use crate::places::Row;
use crate::roster::{Call, Roster};
use crate::waiting::{
    Around, Since, Wait, first_nesting, look_free, look_new, look_on, look_over, may_wait,
    some_new_is_long,
};
use crate::ways::Way;
use pssm_model::Machine;

/// From which place on, and before which, the calls stand that wait for a call.
#[derive(Clone, Copy)]
pub struct Span {
    pub first: u32,
    pub end: u32,
}

/// That of a call for which none waits.
pub const NONE_WAITS: Span = Span {
    first: 4_294_967_295,
    end: 0,
};

// The span, so wide that a place is in it.
#[inline(always)]
fn widened(span: Span, place: u32) -> Span
    requires { place < 4294967295 }
    ensures first { result.first ≤ span.first }
    ensures end { span.end ≤ result.end }
    ensures from { result.first ≤ place }
    ensures to { place < result.end }
{
    Span {
        first: if place < span.first {
            place
        } else {
            span.first
        },
        end: if span.end <= place {
            place + 1
        } else {
            span.end
        },
    }
}

// Says of the call at a place whether it waits, and for which one.
#[inline(always)]
fn put(calls: &mut [Call], spans: &mut [Span], place: usize, wait: Wait)
    requires there { place < length calls.old }
    requires inside { IsTrue wait.blocked → wait.seen < length calls.old }
    requires caught { AreCaught spans.old calls.old }
    ensures put { IsPut calls.old place wait calls.new }
    ensures caught { AreCaught spans.new calls.new }
{
    calls[place] = Call {
        blocked: wait.blocked,
        seen: wait.seen,
        ..calls[place]
    };
    if wait.blocked {
        let on = wait.seen as usize;
        spans[on] = widened(spans[on], place as u32);
    }
}

// Whether the call at a place is not blocked, and another may come before it by where their States lie.
#[inline(always)]
fn may_wait_at(machine: &Machine, calls: &[Call], place: usize) -> bool
    requires rules { KeepsModelRules machine.now }
    requires items { AreItemsOf machine.now calls.now }
    requires there { place < length calls.now }
    ensures free { IsTrue result → (d : Call) → IsTrue (slice_index_or calls.now place d).blocked → ⊥ }
    ensures none { (IsTrue result → ⊥) → (d : Call) → (IsTrue (slice_index_or calls.now place d).blocked → ⊥)
        → IsNestedInNone machine.now (slice_index_or calls.now place d).item }
{
    !calls[place].blocked && may_wait(machine, calls[place].item)
}

// Whether a call is blocked by the one at a place.
#[inline(always)]
fn waits_for(call: Call, place: usize) -> bool
    ensures { IsTrue result ↔ (IsTrue call.blocked × (call.seen ≡ place)) }
{
    call.blocked && call.seen as usize == place
}

// Tells the old call at a place, which may wait for none so far, whether it waits for a new one.
#[inline(always)]
fn settle_free_at(
    machine: &Machine,
    ways: &[Way],
    calls: &mut [Call],
    spans: &mut [Span],
    since: Since,
    ran: usize,
    nests: usize,
    place: usize,
)
    requires rules { KeepsModelRules machine.now }
    requires ways { AreWaysIn machine.now ways.now }
    requires items { AreItemsOf machine.now calls.old }
    requires caught { AreCaught spans.old calls.old }
    requires new { AreNewSince machine.now ways.now calls.old since }
    requires old { place < since.calls }
    requires within { nests ≤ length calls.old }
    requires from { since.calls ≤ nests }
    requires loose { AreLooseUpTo machine.now calls.old since.calls nests }
    requires left { AreSureBut (FreeLeft (IsSequence machine.now ways.now) since.calls ran place)
        (IsSequence machine.now ways.now) calls.old }
    ensures alike { ArePairwise IsAlike calls.old calls.new }
    ensures caught { AreCaught spans.new calls.new }
    ensures left { AreSureBut (FreeLeft (IsSequence machine.now ways.now) since.calls ran (place + 1))
        (IsSequence machine.now ways.now) calls.new }
{
    if may_wait_at(machine, calls, place) {
        let all = &calls[..];
        let wait = look_free(machine, ways, all, &all[place], since.calls, nests, place);
        put(calls, spans, place, wait);
    }
}

// Tells the old calls that wait for none so far whether they wait for new ones.
#[inline(never)]
fn settle_each_free(
    machine: &Machine,
    ways: &[Way],
    calls: &mut [Call],
    spans: &mut [Span],
    since: Since,
    ran: usize,
    nests: usize,
)
    requires rules { KeepsModelRules machine.now }
    requires ways { AreWaysIn machine.now ways.now }
    requires items { AreItemsOf machine.now calls.old }
    requires caught { AreCaught spans.old calls.old }
    requires new { AreNewSince machine.now ways.now calls.old since }
    requires within { nests ≤ length calls.old }
    requires from { since.calls ≤ nests }
    requires loose { AreLooseUpTo machine.now calls.old since.calls nests }
    requires left { AreSureBut (FreeLeft (IsSequence machine.now ways.now) since.calls ran 0)
        (IsSequence machine.now ways.now) calls.old }
    ensures alike { ArePairwise IsAlike calls.old calls.new }
    ensures caught { AreCaught spans.new calls.new }
    ensures left { AreSureBut (WaitingLeft (IsSequence machine.now ways.now) since.calls ran 0 since.calls)
        (IsSequence machine.now ways.now) calls.new }
{
    for place in 0..since.calls {
        settle_free_at(machine, ways, calls, spans, since, ran, nests, place);
    }
}

// The same; where no new one may come before others by where their States lie, none waits for them.
#[inline(always)]
fn settle_free(
    machine: &Machine,
    ways: &[Way],
    calls: &mut [Call],
    spans: &mut [Span],
    since: Since,
    ran: usize,
)
    requires rules { KeepsModelRules machine.now }
    requires ways { AreWaysIn machine.now ways.now }
    requires items { AreItemsOf machine.now calls.old }
    requires caught { AreCaught spans.old calls.old }
    requires new { AreNewSince machine.now ways.now calls.old since }
    requires left { AreSureBut (FreeLeft (IsSequence machine.now ways.now) since.calls ran 0)
        (IsSequence machine.now ways.now) calls.old }
    ensures alike { ArePairwise IsAlike calls.old calls.new }
    ensures caught { AreCaught spans.new calls.new }
    ensures left { AreSureBut (WaitingLeft (IsSequence machine.now ways.now) since.calls ran 0 since.calls)
        (IsSequence machine.now ways.now) calls.new }
{
    if since.calls == 0 {
        return;
    }
    let nests = first_nesting(machine, calls, since.calls);
    if nests < calls.len() {
        settle_each_free(machine, ways, calls, spans, since, ran, nests);
    }
}

// Says of the call at a place whether it waits, and for which one. It looks at the others one after another.
#[inline(never)]
fn look_once_more(
    machine: &Machine,
    ways: &[Way],
    calls: &mut [Call],
    spans: &mut [Span],
    place: usize,
)
    requires rules { KeepsModelRules machine.now }
    requires ways { AreWaysIn machine.now ways.now }
    requires items { AreItemsOf machine.now calls.old }
    requires caught { AreCaught spans.old calls.old }
    requires there { place < length calls.old }
    requires seen { (d : Call)
        → HasSeen (IsSequence machine.now ways.now) calls.old place (slice_index_or calls.old place d) }
    ensures settled { IsSettledAt (IsSequence machine.now ways.now) calls.old place calls.new }
    ensures caught { AreCaught spans.new calls.new }
{
    let all = &calls[..];
    let at = Around { place, done: 0 };
    let wait = look_on(machine, ways, all, &all[place], at);
    put(calls, spans, place, wait);
}

// Says of the call at a place, which waited for one that has run, whether it waits, and for which one. Often all that
// may hold it up is known without a look at the others.
#[inline(never)]
fn look_again(
    machine: &Machine,
    ways: &[Way],
    calls: &mut [Call],
    rows: &[Row],
    spans: &mut [Span],
    place: usize,
    done: usize,
)
    requires rules { KeepsModelRules machine.now }
    requires ways { AreWaysIn machine.now ways.now }
    requires items { AreItemsOf machine.now calls.old }
    requires done { AreRunBefore calls.old done }
    requires placed { ArePlaced calls.old rows.now }
    requires caught { AreCaught spans.old calls.old }
    requires there { place < length calls.old }
    requires seen { (d : Call)
        → HasSeen (IsSequence machine.now ways.now) calls.old place (slice_index_or calls.old place d) }
    ensures settled { IsSettledAt (IsSequence machine.now ways.now) calls.old place calls.new }
    ensures caught { AreCaught spans.new calls.new }
{
    let all = &calls[..];
    let at = Around { place, done };
    let wait = look_over(machine, ways, all, rows, &all[place], at);
    put(calls, spans, place, wait);
}

// Whether a call has run and waits for none, and what comes before the item of another is its own or comes before that.
#[inline(always)]
fn leads_on(machine: &Machine, ways: &[Way], on: &Call, call: &Call) -> bool
    requires rules { KeepsModelRules machine.now }
    requires ways { AreWaysIn machine.now ways.now }
    requires on { IsItemIn machine.now on.now.item }
    requires item { IsItemIn machine.now call.now.item }
    ensures ran { IsTrue result → IsTrue on.now.ran }
    ensures free { IsTrue result → IsTrue on.now.blocked → ⊥ }
    ensures leads { IsTrue result → LeadsTo (IsSequence machine.now ways.now) on.now.item call.now.item }
{
    on.ran && !on.blocked && leads_to(machine, ways, on.item, call.item)
}

// Whether no new call stands at a place.
#[inline(always)]
fn is_old(place: usize, since: Since) -> bool
    ensures { IsTrue result ↔ (place < since.calls) }
{
    place < since.calls
}

// Whether nothing holds up the call at a place, since all that comes before it is the call that has run, or comes before
// that.
#[inline(always)]
fn is_freed(
    machine: &Machine,
    ways: &[Way],
    calls: &[Call],
    since: Since,
    ran: usize,
    place: usize,
) -> bool
    requires rules { KeepsModelRules machine.now }
    requires ways { AreWaysIn machine.now ways.now }
    requires items { AreItemsOf machine.now calls.now }
    requires once { AllPairs (λ a b. a.item ≢ b.item) calls.now }
    requires inside { place < length calls.now }
    requires there { since.calls ≤ length calls.now }
    requires clear { AreClearBefore (IsSequence machine.now ways.now) calls.now since.calls }
    ensures { IsTrue result → (d : Call)
        → ArePassed (IsSequence machine.now ways.now) calls.now (slice_index_or calls.now place d).item (length calls.now) }
{
    is_old(ran, since) && leads_on(machine, ways, &calls[ran], &calls[place])
}

// Says of the call at a place that it waits for none.
#[inline(always)]
fn put_free(calls: &mut [Call], spans: &mut [Span], place: usize)
    requires there { place < length calls.old }
    requires caught { AreCaught spans.old calls.old }
    ensures put { IsPut calls.old place (record { blocked = false; seen = length calls.old }) calls.new }
    ensures caught { AreCaught spans.new calls.new }
{
    let wait = Wait {
        blocked: false,
        seen: calls.len() as u32,
    };
    put(calls, spans, place, wait);
}

// Says of the call at a place, which waited for the one that has run, whether it waits, and for which one. It looks at
// the others only where that which has run does not lead to it alone.
#[inline(always)]
fn look_behind(
    machine: &Machine,
    ways: &[Way],
    calls: &mut [Call],
    rows: &[Row],
    spans: &mut [Span],
    since: Since,
    ran: usize,
    place: usize,
    done: usize,
)
    requires rules { KeepsModelRules machine.now }
    requires ways { AreWaysIn machine.now ways.now }
    requires items { AreItemsOf machine.now calls.old }
    requires done { AreRunBefore calls.old done }
    requires placed { ArePlaced calls.old rows.now }
    requires caught { AreCaught spans.old calls.old }
    requires there { place < length calls.old }
    requires within { since.calls ≤ length calls.old }
    requires seen { (d : Call)
        → HasSeen (IsSequence machine.now ways.now) calls.old place (slice_index_or calls.old place d) }
    requires clear { AreClearBefore (IsSequence machine.now ways.now) calls.old since.calls }
    ensures settled { IsSettledAt (IsSequence machine.now ways.now) calls.old place calls.new }
    ensures caught { AreCaught spans.new calls.new }
{
    if is_freed(machine, ways, calls, since, ran, place) {
        put_free(calls, spans, place);
    } else {
        look_again(machine, ways, calls, rows, spans, place, done);
    }
}

// Tells the old call at a place for which one it waits, if it waited for the one that has run.
#[inline(always)]
fn settle_waiting_at(
    machine: &Machine,
    ways: &[Way],
    calls: &mut [Call],
    rows: &[Row],
    spans: &mut [Span],
    since: Since,
    ran: usize,
    end: usize,
    place: usize,
    done: usize,
)
    requires rules { KeepsModelRules machine.now }
    requires ways { AreWaysIn machine.now ways.now }
    requires items { AreItemsOf machine.now calls.old }
    requires done { AreRunBefore calls.old done }
    requires caught { AreCaught spans.old calls.old }
    requires placed { ArePlaced calls.old rows.now }
    requires old { place < since.calls }
    requires there { since.calls ≤ length calls.old }
    requires left { AreSureBut (WaitingLeft (IsSequence machine.now ways.now) since.calls ran place end)
        (IsSequence machine.now ways.now) calls.old }
    ensures alike { ArePairwise IsAlike calls.old calls.new }
    ensures caught { AreCaught spans.new calls.new }
    ensures left { AreSureBut (WaitingLeft (IsSequence machine.now ways.now) since.calls ran (place + 1) end)
        (IsSequence machine.now ways.now) calls.new }
{
    if waits_for(calls[place], ran) {
        look_behind(machine, ways, calls, rows, spans, since, ran, place, done);
    }
}

// The places between which the old calls stand that wait for the one at a place.
#[inline(always)]
fn span_of(spans: &[Span], place: usize, since: Since) -> Span
    requires few { since.calls < 2 ^ 32 }
    ensures end { result.end ≤ since.calls }
    ensures caught { (k : ℕ) → place < length spans.now → k < since.calls
        → ((d : TheSpan) → ((slice_index_or spans.now place d).first ≤ k)
        × (k < (slice_index_or spans.now place d).end))
        → (result.first ≤ k) × (k < result.end) }
{
    match spans.get(place) {
        Some(span) => Span {
            end: if span.end as usize > since.calls {
                since.calls as u32
            } else {
                span.end
            },
            ..*span
        },
        None => NONE_WAITS,
    }
}

// Tells the old calls that waited for the one that has run for which one they wait now.
#[inline(always)]
fn settle_waiting(
    machine: &Machine,
    ways: &[Way],
    calls: &mut [Call],
    rows: &[Row],
    spans: &mut [Span],
    since: Since,
    ran: usize,
    done: usize,
)
    requires rules { KeepsModelRules machine.now }
    requires ways { AreWaysIn machine.now ways.now }
    requires items { AreItemsOf machine.now calls.old }
    requires done { AreRunBefore calls.old done }
    requires placed { ArePlaced calls.old rows.now }
    requires caught { AreCaught spans.old calls.old }
    requires there { since.calls ≤ length calls.old }
    requires left { AreSureBut (WaitingLeft (IsSequence machine.now ways.now) since.calls ran 0 since.calls)
        (IsSequence machine.now ways.now) calls.old }
    ensures alike { ArePairwise IsAlike calls.old calls.new }
    ensures caught { AreCaught spans.new calls.new }
    ensures left { AreSureBut (NewLeft since.calls) (IsSequence machine.now ways.now) calls.new }
{
    let span = span_of(spans, ran, since);
    let end = span.end as usize;
    for place in span.first as usize..end {
        settle_waiting_at(
            machine, ways, calls, rows, spans, since, ran, end, place, done,
        );
    }
}

// Tells the new call at a place for which one it waits.
#[inline(always)]
fn settle_new_at(
    machine: &Machine,
    ways: &[Way],
    calls: &mut [Call],
    rows: &[Row],
    spans: &mut [Span],
    since: Since,
    long: bool,
    place: usize,
    done: usize,
)
    requires rules { KeepsModelRules machine.now }
    requires ways { AreWaysIn machine.now ways.now }
    requires items { AreItemsOf machine.now calls.old }
    requires done { AreRunBefore calls.old done }
    requires placed { ArePlaced calls.old rows.now }
    requires caught { AreCaught spans.old calls.old }
    requires new { AreNewSince machine.now ways.now calls.old since }
    requires long { IsSomeLong (drop since.ways ways.now) → IsTrue long }
    requires from { since.calls ≤ place }
    requires there { place < length calls.old }
    requires left { AreSureBut (NewLeft place) (IsSequence machine.now ways.now) calls.old }
    ensures alike { ArePairwise IsAlike calls.old calls.new }
    ensures caught { AreCaught spans.new calls.new }
    ensures left { AreSureBut (NewLeft (place + 1)) (IsSequence machine.now ways.now) calls.new }
{
    let all = &calls[..];
    let at = Around { place, done };
    let wait = look_new(machine, ways, long, all, rows, &all[place], since, at);
    put(calls, spans, place, wait);
}

// Tells the new calls, of whose ways one may be long, for which one they wait.
#[inline(always)]
fn settle_each_new(
    machine: &Machine,
    ways: &[Way],
    calls: &mut [Call],
    rows: &[Row],
    spans: &mut [Span],
    since: Since,
    long: bool,
    done: usize,
)
    requires rules { KeepsModelRules machine.now }
    requires ways { AreWaysIn machine.now ways.now }
    requires items { AreItemsOf machine.now calls.old }
    requires done { AreRunBefore calls.old done }
    requires placed { ArePlaced calls.old rows.now }
    requires caught { AreCaught spans.old calls.old }
    requires new { AreNewSince machine.now ways.now calls.old since }
    requires long { IsSomeLong (drop since.ways ways.now) → IsTrue long }
    requires left { AreSureBut (NewLeft since.calls) (IsSequence machine.now ways.now) calls.old }
    ensures alike { ArePairwise IsAlike calls.old calls.new }
    ensures caught { AreCaught spans.new calls.new }
    ensures sure { AreAllSure (IsSequence machine.now ways.now) calls.new }
{
    for place in since.calls..calls.len() {
        settle_new_at(machine, ways, calls, rows, spans, since, long, place, done);
    }
}

// Tells the new calls for which one they wait.
#[inline(always)]
fn settle_new(
    machine: &Machine,
    ways: &[Way],
    calls: &mut [Call],
    rows: &[Row],
    spans: &mut [Span],
    since: Since,
    done: usize,
)
    requires rules { KeepsModelRules machine.now }
    requires ways { AreWaysIn machine.now ways.now }
    requires items { AreItemsOf machine.now calls.old }
    requires done { AreRunBefore calls.old done }
    requires placed { ArePlaced calls.old rows.now }
    requires caught { AreCaught spans.old calls.old }
    requires new { AreNewSince machine.now ways.now calls.old since }
    requires left { AreSureBut (NewLeft since.calls) (IsSequence machine.now ways.now) calls.old }
    ensures alike { ArePairwise IsAlike calls.old calls.new }
    ensures caught { AreCaught spans.new calls.new }
    ensures sure { AreAllSure (IsSequence machine.now ways.now) calls.new }
{
    if since.calls < calls.len() {
        let long = some_new_is_long(ways, since);
        settle_each_new(machine, ways, calls, rows, spans, since, long, done);
    }
}

// Tells each of the calls, none of which has looked at the others yet, for which one it waits.
#[inline(always)]
fn settle_each(machine: &Machine, ways: &[Way], calls: &mut [Call], spans: &mut [Span])
    requires rules { KeepsModelRules machine.now }
    requires ways { AreWaysIn machine.now ways.now }
    requires items { AreItemsOf machine.now calls.old }
    requires caught { AreCaught spans.old calls.old }
    requires fresh { (k : ℕ) (d : Call) → k < length calls.old → IsFreshAt k (slice_index_or calls.old k d) }
    ensures alike { ArePairwise IsAlike calls.old calls.new }
    ensures caught { AreCaught spans.new calls.new }
    ensures sure { AreAllSure (IsSequence machine.now ways.now) calls.new }
{
    for place in 0..calls.len() {
        look_once_more(machine, ways, calls, spans, place);
    }
}

// Tells each of the calls for which one it waits, where one has run and those from a place on are new.
#[inline(always)]
fn settle_all(
    machine: &Machine,
    ways: &[Way],
    calls: &mut [Call],
    rows: &[Row],
    spans: &mut [Span],
    since: Since,
    ran: usize,
    done: usize,
)
    requires rules { KeepsModelRules machine.now }
    requires ways { AreWaysIn machine.now ways.now }
    requires items { AreItemsOf machine.now calls.old }
    requires done { AreRunBefore calls.old done }
    requires placed { ArePlaced calls.old rows.now }
    requires caught { AreCaught spans.old calls.old }
    requires new { AreNewSince machine.now ways.now calls.old since }
    requires left { AreSureBut (FreeLeft (IsSequence machine.now ways.now) since.calls ran 0)
        (IsSequence machine.now ways.now) calls.old }
    ensures alike { ArePairwise IsAlike calls.old calls.new }
    ensures caught { AreCaught spans.new calls.new }
    ensures sure { AreAllSure (IsSequence machine.now ways.now) calls.new }
{
    settle_free(machine, ways, calls, spans, since, ran);
    settle_waiting(machine, ways, calls, rows, spans, since, ran, done);
    settle_new(machine, ways, calls, rows, spans, since, done);
}

impl Roster {
    /// Tells each call for which one it waits, where one has run and the calls from a place on are new.
    #[inline(never)]
    pub fn settle(
        &mut self,
        machine: &Machine,
        ways: &[Way],
        spans: &mut [Span],
        since: Since,
        ran: usize,
        done: usize,
    )
        requires rules { KeepsModelRules machine.now }
        requires ways { AreWaysIn machine.now ways.now }
        requires items { AreItemsOf machine.now self.old.calls.items }
        requires done { AreRunBefore self.old.calls.items done }
        requires caught { AreCaught spans.old self.old.calls.items }
        requires new { AreNewSince machine.now ways.now self.old.calls.items since }
        requires left { AreSureBut (FreeLeft (IsSequence machine.now ways.now) since.calls ran 0)
            (IsSequence machine.now ways.now) self.old.calls.items }
        ensures alike { ArePairwise IsAlike self.old.calls.items self.new.calls.items }
        ensures caught { AreCaught spans.new self.new.calls.items }
        ensures sure { AreAllSure (IsSequence machine.now ways.now) self.new.calls.items }
    {
        let calls = &mut self.calls;
        let rows = calls.rows.as_slice();
        settle_all(
            machine,
            ways,
            calls.list.as_mut_slice(),
            rows,
            spans,
            since,
            ran,
            done,
        );
    }

    // Tells each call, none of which has looked at the others yet, for which one it waits.
    #[inline(always)]
    fn settle_fresh(&mut self, machine: &Machine, ways: &[Way], spans: &mut [Span])
        requires rules { KeepsModelRules machine.now }
        requires ways { AreWaysIn machine.now ways.now }
        requires items { AreItemsOf machine.now self.old.calls.items }
        requires caught { AreCaught spans.old self.old.calls.items }
        requires fresh { (k : ℕ) (d : Call) → k < length self.old.calls.items → IsFreshAt k (slice_index_or self.old.calls.items k d) }
        ensures alike { ArePairwise IsAlike self.old.calls.items self.new.calls.items }
        ensures caught { AreCaught spans.new self.new.calls.items }
        ensures sure { AreAllSure (IsSequence machine.now ways.now) self.new.calls.items }
    {
        let calls = &mut self.calls;
        settle_each(machine, ways, calls.list.as_mut_slice(), spans);
    }

    /// Tells each call for which one it waits; none relies on what it has seen.
    #[inline(never)]
    pub fn settle_anew(&mut self, machine: &Machine, ways: &[Way], spans: &mut [Span])
        requires rules { KeepsModelRules machine.now }
        requires ways { AreWaysIn machine.now ways.now }
        requires items { AreItemsOf machine.now self.old.calls.items }
        requires few { length self.old.calls.items < 2 ^ 32 }
        requires room { length self.old.calls.items ≤ length spans.old }
        ensures alike { ArePairwise IsAlike self.old.calls.items self.new.calls.items }
        ensures caught { AreCaught spans.new self.new.calls.items }
        ensures sure { AreAllSure (IsSequence machine.now ways.now) self.new.calls.items }
    {
        self.forget();
        self.settle_fresh(machine, ways, spans);
    }
}
