//! How far a step has come: what it calls, the routes by which it goes, and what it has restored.
ghost use Rattle.std.specs.Prelude.{◌^◌, ◌≡◌, ◌<◌, ◌≤◌, ◌+◌, [], length, take, Contains};
ghost use Rattle.std.specs.Prelude.{OnOk, OnErr, IfOk, IsTrue};
ghost use Rattle.pssm_model.specs.declared.steps.Route.{Route as TheRoute};
ghost use Rattle.pssm_model.specs.declared.steps.How.TheVariants.{Restore};
ghost use Rattle.pssm_model.specs.RouteWords.{IsStepRoute};
ghost use Rattle.pssm_model.specs.WellFormed.{KeepsModelRules};
ghost use Rattle.pssm_config.specs.Tables.{Fits, configuration_of};
ghost use Rattle.pssm_legs.specs.Calls.{IsItemIn};
ghost use Rattle.pssm_plan.specs.declared.roster.Call.{Call};
ghost use Rattle.pssm_plan.specs.Ways.{AreWaysIn};
ghost use Rattle.pssm_plan.specs.inner.Marks.{IsLonger, IsAlike, AreRunBefore, AreRunUpTo, ArePairwise};
ghost use Rattle.pssm_plan.specs.inner.Passes.{AreCaught, AreAllSure, AreSureBut, AreSureBefore, FreeLeft};
ghost use Rattle.pssm_plan.specs.inner.Sequence.{IsSequence, AreItemsOf, AreNewSince, IsRoster, IsExtended};
ghost use Rattle.pssm_plan.specs.inner.Calling.{IsTopOpening, IsOfWays};
ghost use Rattle.pssm_plan.specs.inner.Going.{IsMadeOf, AreFired, CanRunSo, KeepsOrder, AreCovered};
ghost use Rattle.pssm_plan.specs.inner.Going.{IsFollowedBy, IsFollowedRestoring};
ghost use Rattle.pssm_plan.specs.inner.Going.{IsFollowedPlainly, IsFollowedSo};
ghost use Rattle.pssm_plan.specs.inner.Going.{IsLongerProgress, IsFinished, IsRunSo, IsUnchanged};

use crate::calls::MOST_CALLS;
use crate::meeting::{meets, meets_fired};
use crate::roster::{Call, Roster};
use crate::waiters::{NONE_WAITS, Span};
use crate::waiting::Since;
use crate::ways::{Way, way_of};
use pssm_config::Config;
use pssm_model::{How, Item, Machine, Mode, Route, VertexId};
use std::alloc::{AllocError as NoMemory, Global};

/// A State that an opening has restored, in the mode of that opening.
#[derive(Clone, Copy, PartialEq, Eq)]
pub struct Restored {
    pub mode: Mode,
    pub state: VertexId,
}

/// How far a step has come.
#[derive(Drop)]
pub struct Progress {
    pub roster: Roster,
    pub ways: Vec<Way>,
    pub restored: Vec<Restored>,
    /// For each call, where those stand that wait for it.
    pub spans: Vec<Span>,
}

// Makes the list of spans as long as that of the calls, if these are not too many.
fn make_room(calls: &[Call], spans: &mut Vec<Span>) -> Result<(), NoMemory>
    ensures longer { IsLonger spans.old.items spans.new.items }
    ensures few { OnOk result (length calls.now < 2 ^ 32) }
    ensures room { OnOk result (length calls.now ≤ length spans.new.items) }
{
    if calls.len() > MOST_CALLS {
        return Err(NoMemory);
    }
    for _ in spans.len()..calls.len() {
        spans.push(NONE_WAITS)?;
    }
    Ok(())
}

// The same, where it was so long as so many calls, which are not too many.
#[inline(always)]
fn make_more_room(calls: &[Call], spans: &mut Vec<Span>, listed: usize) -> Result<(), NoMemory>
    requires few { listed < 2 ^ 32 }
    requires room { listed ≤ length spans.old.items }
    ensures longer { IsLonger spans.old.items spans.new.items }
    ensures few { OnOk result (length calls.now < 2 ^ 32) }
    ensures room { OnOk result (length calls.now ≤ length spans.new.items) }
{
    if calls.len() <= listed {
        return Ok(());
    }
    make_room(calls, spans)
}

// Says of each call for which one it waits; `anew` where none may rely on what it has seen.
#[inline(always)]
fn settle_fired(
    roster: &mut Roster,
    spans: &mut [Span],
    machine: &Machine,
    ways: &[Way],
    since: Since,
    anew: bool,
)
    requires rules { KeepsModelRules machine.now }
    requires ways { AreWaysIn machine.now ways.now }
    requires items { AreItemsOf machine.now roster.old.calls.items }
    requires caught { AreCaught spans.old roster.old.calls.items }
    requires left { (IsTrue anew → ⊥) → AreSureBut (FreeLeft (IsSequence machine.now ways.now) since.calls
        (length roster.old.calls.items) 0) (IsSequence machine.now ways.now) roster.old.calls.items }
    requires new { (IsTrue anew → ⊥) → AreNewSince machine.now ways.now roster.old.calls.items since }
    ensures alike { ArePairwise IsAlike roster.old.calls.items roster.new.calls.items }
    ensures sure { AreAllSure (IsSequence machine.now ways.now) roster.new.calls.items }
    ensures caught { AreCaught spans.new roster.new.calls.items }
{
    if anew {
        roster.settle_anew(machine, ways, spans);
    } else {
        let none = roster.calls.len();
        roster.settle(machine, ways, spans, since, none, 0);
    }
}

// Lists what the way at a place calls, where what the ways before it call is listed and settled, and settles it.
fn fire_way(
    roster: &mut Roster,
    spans: &mut Vec<Span>,
    machine: &Machine,
    config: &Config,
    ways: &[Way],
    place: usize,
) -> Result<(), NoMemory>
    requires rules { KeepsModelRules machine.now }
    requires fits { Fits machine.now config.now }
    requires ways { AreWaysIn machine.now ways.now }
    requires there { place < length ways.now }
    requires caught { AreCaught spans.old.items roster.old.calls.items }
    requires made { IsMadeOf machine.now (take place ways.now)
        (IsOfWays machine.now (configuration_of config.now) (take place ways.now)) roster.old.calls.items }
    ensures caught { OnOk result (AreCaught spans.new.items roster.new.calls.items) }
    ensures made { OnOk result (IsMadeOf machine.now (take (place + 1) ways.now)
        (IsOfWays machine.now (configuration_of config.now) (take (place + 1) ways.now))
        roster.new.calls.items) }
{
    let way = &ways[place];
    let anew = meets_fired(machine, config, &roster.calls, way);
    let listed = roster.calls.len();
    roster.list_fired(machine, config, way)?;
    make_room(roster.calls.as_slice(), spans)?;
    let since = Since {
        calls: listed,
        ways: place,
    };
    settle_fired(
        roster,
        spans.as_mut_slice(),
        machine,
        &ways[..place + 1],
        since,
        anew,
    );
    Ok(())
}

// Lists what each of the ways calls that fire, one after another, and settles it.
fn fire_all(
    roster: &mut Roster,
    spans: &mut Vec<Span>,
    machine: &Machine,
    config: &Config,
    ways: &[Way],
) -> Result<(), NoMemory>
    requires rules { KeepsModelRules machine.now }
    requires fits { Fits machine.now config.now }
    requires ways { AreWaysIn machine.now ways.now }
    requires none { roster.old.calls.items ≡ [] }
    ensures caught { OnOk result (AreCaught spans.new.items roster.new.calls.items) }
    ensures made { OnOk result (IsMadeOf machine.now ways.now
        (IsOfWays machine.now (configuration_of config.now) ways.now) roster.new.calls.items) }
{
    for place in 0..ways.len() {
        fire_way(roster, spans, machine, config, ways, place)?;
    }
    Ok(())
}

// Puts the ways of routes that fire into a list that is empty.
#[tactic(auto, using(crate::proofs::Firing::fired_none))]
fn add_ways(
    alloc: Global,
    ways: &mut Vec<Way>,
    machine: &Machine,
    routes: &[Route],
) -> Result<(), NoMemory>
    requires rules { KeepsModelRules machine.now }
    requires routes { (p : TheRoute) → Contains routes.now p → IsStepRoute machine.now p }
    requires none { ways.old.items ≡ [] }
    ensures fired { OnOk result (AreFired machine.now routes.now ways.new.items) }
{
    for route in routes {
        let way = way_of(alloc, machine, route, true)?;
        ways.push(way)?;
    }
    Ok(())
}

// Settles a roster of items of which none has looked at the others yet, if they are not too many.
fn settle_first(
    roster: &mut Roster,
    spans: &mut Vec<Span>,
    machine: &Machine,
    ways: &[Way],
) -> Result<(), NoMemory>
    requires rules { KeepsModelRules machine.now }
    requires ways { AreWaysIn machine.now ways.now }
    requires items { AreItemsOf machine.now roster.old.calls.items }
    ensures caught { OnOk result (AreCaught spans.new.items roster.new.calls.items) }
    ensures alike { OnOk result (ArePairwise IsAlike roster.old.calls.items roster.new.calls.items) }
    ensures sure { OnOk result (AreAllSure (IsSequence machine.now ways.now) roster.new.calls.items) }
{
    make_room(roster.calls.as_slice(), spans)?;
    roster.settle_anew(machine, ways, spans.as_mut_slice());
    Ok(())
}

impl Progress {
    /// Nothing yet.
    pub fn new(alloc: Global) -> Progress
        ensures calls { result.roster.calls.items ≡ [] }
        ensures ways { result.ways.items ≡ [] }
        ensures restored { result.restored.items ≡ [] }
    {
        Progress {
            roster: Roster::new(alloc),
            ways: Vec::new(alloc),
            restored: Vec::new(alloc),
            spans: Vec::new(alloc),
        }
    }

    /// The progress of a start.
    #[tactic(auto, using(crate::proofs::Firing::none_are_ways))]
    pub fn of_start(alloc: Global, machine: &Machine) -> Result<Progress, NoMemory>
        requires rules { KeepsModelRules machine.now }
        ensures caught { IfOk result (λ progress. AreCaught progress.spans.items progress.roster.calls.items) }
        ensures ways { IfOk result (λ progress. progress.ways.items ≡ []) }
        ensures restored { IfOk result (λ progress. progress.restored.items ≡ []) }
        ensures made { IfOk result (λ progress.
            IsMadeOf machine.now [] (IsTopOpening machine.now) progress.roster.calls.items) }
    {
        let mut progress = Progress::new(alloc);
        progress.roster.list_tops(machine)?;
        settle_first(&mut progress.roster, &mut progress.spans, machine, &[])?;
        Ok(progress)
    }

    /// The progress of routes that fire.
    pub fn of_routes(
        alloc: Global,
        machine: &Machine,
        config: &Config,
        routes: &[Route],
    ) -> Result<Progress, NoMemory>
        requires rules { KeepsModelRules machine.now }
        requires fits { Fits machine.now config.now }
        requires routes { (p : TheRoute) → Contains routes.now p → IsStepRoute machine.now p }
        ensures caught { IfOk result (λ progress. AreCaught progress.spans.items progress.roster.calls.items) }
        ensures ways { IfOk result (λ progress.
            AreFired machine.now routes.now progress.ways.items) }
        ensures restored { IfOk result (λ progress. progress.restored.items ≡ []) }
        ensures made { IfOk result (λ progress. IsMadeOf machine.now progress.ways.items
            (IsOfWays machine.now (configuration_of config.now) progress.ways.items)
            progress.roster.calls.items) }
    {
        let mut progress = Progress::new(alloc);
        progress.renew(alloc, machine, config, routes)?;
        Ok(progress)
    }

    /// Becomes the progress of routes that fire.
    pub fn renew(
        &mut self,
        alloc: Global,
        machine: &Machine,
        config: &Config,
        routes: &[Route],
    ) -> Result<(), NoMemory>
        requires rules { KeepsModelRules machine.now }
        requires fits { Fits machine.now config.now }
        requires routes { (p : TheRoute) → Contains routes.now p → IsStepRoute machine.now p }
        ensures caught { OnOk result (AreCaught self.new.spans.items self.new.roster.calls.items) }
        ensures ways { OnOk result (AreFired machine.now routes.now self.new.ways.items) }
        ensures restored { OnOk result (self.new.restored.items ≡ []) }
        ensures made { OnOk result (IsMadeOf machine.now self.new.ways.items
            (IsOfWays machine.now (configuration_of config.now) self.new.ways.items)
            self.new.roster.calls.items) }
    {
        self.roster.calls.clear();
        self.ways.clear();
        self.restored.clear();
        self.spans.clear();
        add_ways(alloc, &mut self.ways, machine, routes)?;
        let ways = self.ways.as_slice();
        fire_all(&mut self.roster, &mut self.spans, machine, config, ways)
    }

    // The places behind its calls and its ways.
    #[inline(always)]
    fn places(&self) -> Since
        ensures calls { result.calls ≡ length self.now.roster.calls.items }
        ensures ways { result.ways ≡ length self.now.ways.items }
    {
        Since {
            calls: self.roster.calls.len(),
            ways: self.ways.len(),
        }
    }

    // Gives up what was listed, gone by and restored beyond these numbers.
    fn undo(&mut self, calls: usize, ways: usize, restored: usize)
        ensures calls { self.new.roster.calls.items ≡ take calls self.old.roster.calls.items }
        ensures ways { self.new.ways.items ≡ take ways self.old.ways.items }
        ensures restored { self.new.restored.items ≡ take restored self.old.restored.items }
        ensures spans { self.new.spans.items ≡ self.old.spans.items }
    {
        self.roster.calls.truncate(calls);
        self.ways.truncate(ways);
        self.restored.truncate(restored);
    }

    // Goes by a late route, and lists what this calls. It is true where the route calls something
    // that was listed already, so that none may rely on what it has seen.
    #[inline(never)]
    fn follow_route(
        &mut self,
        alloc: Global,
        machine: &Machine,
        route: &Route,
    ) -> Result<bool, NoMemory>
        requires rules { KeepsModelRules machine.now }
        requires roster { IsRoster machine.now self.old.roster.calls.items }
        requires route { IsStepRoute machine.now route.now }
        ensures longer { IsLongerProgress self.old self.new }
        ensures followed { OnOk result (IsFollowedBy machine.now self.old route.now self.new) }
        ensures kept { IfOk result (λ anew. (IsTrue anew → ⊥)
            → KeepsOrder machine.now self.old.roster.calls.items self.old.ways.items
            self.new.ways.items) }
    {
        let way = way_of(alloc, machine, route, false)?;
        let anew = meets(machine, &self.roster.calls, &way);
        self.roster.list_late(machine, &way)?;
        self.ways.push(way)?;
        Ok(anew)
    }

    // Restores a State, and lists what this calls.
    fn follow_restore(&mut self, machine: &Machine, mode: Mode, s: VertexId) -> Result<(), NoMemory>
        requires roster { IsRoster machine.now self.old.roster.calls.items }
        requires state { s.0 < length machine.now.vertices }
        ensures longer { IsLongerProgress self.old self.new }
        ensures followed { OnOk result (IsFollowedRestoring machine.now self.old mode s self.new) }
    {
        self.roster.list_restored(machine, mode, s)?;
        self.restored.push(Restored { mode, state: s })?;
        Ok(())
    }

    // Restores a State as the item says, which is an opening, and lists what this calls.
    #[inline(never)]
    fn follow_opening(&mut self, machine: &Machine, item: Item, s: VertexId) -> Result<(), NoMemory>
        requires roster { IsRoster machine.now self.old.roster.calls.items }
        requires way { CanRunSo machine.now item (Restore s) }
        ensures longer { IsLongerProgress self.old self.new }
        ensures followed { OnOk result
            (IsFollowedSo machine.now self.old item (Restore s) self.new) }
    {
        match item {
            Item::Opened(_, mode) => self.follow_restore(machine, mode, s),
            _ => unreachable!(),
        }
    }

    // Lists what an item calls that runs without a way.
    #[inline(always)]
    fn follow_plainly(&mut self, machine: &Machine, item: Item) -> Result<(), NoMemory>
        requires rules { KeepsModelRules machine.now }
        requires roster { IsRoster machine.now self.old.roster.calls.items }
        requires ways { AreWaysIn machine.now self.old.ways.items }
        requires item { IsItemIn machine.now item }
        ensures longer { IsLongerProgress self.old self.new }
        ensures followed { OnOk result (IsFollowedPlainly machine.now self.old item self.new) }
    {
        let ways = self.ways.as_slice();
        let restored = self.restored.as_slice();
        self.roster.list_entered(machine, ways, restored, item)
    }

    // Lists what an item calls that runs in this way. It is true where none may rely on what it
    // has seen.
    #[inline(always)]
    fn follow(
        &mut self,
        alloc: Global,
        machine: &Machine,
        item: Item,
        how: &How,
    ) -> Result<bool, NoMemory>
        requires rules { KeepsModelRules machine.now }
        requires roster { IsRoster machine.now self.old.roster.calls.items }
        requires ways { AreWaysIn machine.now self.old.ways.items }
        requires item { IsItemIn machine.now item }
        requires way { CanRunSo machine.now item how.now }
        ensures longer { IsLongerProgress self.old self.new }
        ensures followed { OnOk result (IsFollowedSo machine.now self.old item how.now self.new) }
        ensures kept { IfOk result (λ anew. (IsTrue anew → ⊥)
            → KeepsOrder machine.now self.old.roster.calls.items self.old.ways.items
            self.new.ways.items) }
    {
        match how {
            How::By(route) => self.follow_route(alloc, machine, route),
            How::Restore(s) => {
                self.follow_opening(machine, item, *s)?;
                Ok(false)
            }
            How::Nothing => {
                self.follow_plainly(machine, item)?;
                Ok(false)
            }
        }
    }

    // Lists what an item calls that runs in this way, if this is not too much. It is true where
    // none may rely on what it has seen.
    #[inline(always)]
    fn follow_few(
        &mut self,
        alloc: Global,
        machine: &Machine,
        item: Item,
        how: &How,
    ) -> Result<bool, NoMemory>
        requires rules { KeepsModelRules machine.now }
        requires roster { IsRoster machine.now self.old.roster.calls.items }
        requires ways { AreWaysIn machine.now self.old.ways.items }
        requires item { IsItemIn machine.now item }
        requires way { CanRunSo machine.now item how.now }
        requires few { length self.old.roster.calls.items < 2 ^ 32 }
        requires room { length self.old.roster.calls.items ≤ length self.old.spans.items }
        ensures longer { IsLongerProgress self.old self.new }
        ensures followed { OnOk result (IsFollowedSo machine.now self.old item how.now self.new) }
        ensures kept { IfOk result (λ anew. (IsTrue anew → ⊥)
            → KeepsOrder machine.now self.old.roster.calls.items self.old.ways.items
            self.new.ways.items) }
        ensures few { OnOk result (length self.new.roster.calls.items < 2 ^ 32) }
        ensures room { OnOk result (length self.new.roster.calls.items ≤ length self.new.spans.items) }
    {
        let listed = self.roster.calls.len();
        let anew = self.follow(alloc, machine, item, how)?;
        make_more_room(self.roster.calls.as_slice(), &mut self.spans, listed)?;
        Ok(anew)
    }

    // Lists what an item calls that runs in this way, all of it or nothing. It is true where none
    // may rely on what it has seen.
    #[inline(always)]
    fn follow_whole(
        &mut self,
        alloc: Global,
        machine: &Machine,
        item: Item,
        how: &How,
    ) -> Result<bool, NoMemory>
        requires rules { KeepsModelRules machine.now }
        requires roster { IsRoster machine.now self.old.roster.calls.items }
        requires ways { AreWaysIn machine.now self.old.ways.items }
        requires item { IsItemIn machine.now item }
        requires way { CanRunSo machine.now item how.now }
        requires few { length self.old.roster.calls.items < 2 ^ 32 }
        requires room { length self.old.roster.calls.items ≤ length self.old.spans.items }
        ensures followed { OnOk result (IsFollowedSo machine.now self.old item how.now self.new) }
        ensures kept { IfOk result (λ anew. (IsTrue anew → ⊥)
            → KeepsOrder machine.now self.old.roster.calls.items self.old.ways.items
            self.new.ways.items) }
        ensures longer { OnOk result (IsLongerProgress self.old self.new) }
        ensures few { OnOk result (length self.new.roster.calls.items < 2 ^ 32) }
        ensures room { OnOk result (length self.new.roster.calls.items ≤ length self.new.spans.items) }
        ensures refused { OnErr result (IsUnchanged self.old self.new) }
    {
        let calls = self.roster.calls.len();
        let ways = self.ways.len();
        let restored = self.restored.len();
        let outcome = self.follow_few(alloc, machine, item, how);
        if outcome.is_err() {
            self.undo(calls, ways, restored);
        }
        outcome
    }

    /// Notes that a listed item runs in this way, and lists what it calls, all of it or nothing.
    /// The item is looked for from the hint on first. All calls before a place have run.
    #[inline(always)]
    pub fn run(
        &mut self,
        alloc: Global,
        machine: &Machine,
        item: Item,
        how: &How,
        hint: usize,
        done: usize,
    ) -> Result<(), NoMemory>
        requires rules { KeepsModelRules machine.now }
        requires roster { IsRoster machine.now self.old.roster.calls.items }
        requires ways { AreWaysIn machine.now self.old.ways.items }
        requires item { IsItemIn machine.now item }
        requires covered { AreCovered machine.now self.old.ways.items self.old.roster.calls.items }
        requires done { AreRunUpTo self.old.roster.calls.items done }
        requires caught { AreCaught self.old.spans.items self.old.roster.calls.items }
        requires sure { AreAllSure (IsSequence machine.now self.old.ways.items) self.old.roster.calls.items }
        requires way { CanRunSo machine.now item how.now }
        ensures ran { OnOk result (IsRunSo machine.now self.old item how.now self.new) }
        ensures done { AreRunUpTo self.new.roster.calls.items done }
        ensures caught { AreCaught self.new.spans.items self.new.roster.calls.items }
        ensures refused { OnErr result (IsUnchanged self.old self.new) }
    {
        let since = self.places();
        let anew = self.follow_whole(alloc, machine, item, how)?;
        let spans = self.spans.as_mut_slice();
        finish(
            &mut self.roster,
            spans,
            machine,
            self.ways.as_slice(),
            item,
            hint,
            since,
            anew,
            done,
        );
        Ok(())
    }
}

// Notes that an item has run, and says of each call once more for which one it waits; `anew` where
// none may rely on what it has seen.
#[inline(always)]
fn finish(
    roster: &mut Roster,
    spans: &mut [Span],
    machine: &Machine,
    ways: &[Way],
    item: Item,
    hint: usize,
    since: Since,
    anew: bool,
    done: usize,
)
    requires rules { KeepsModelRules machine.now }
    requires ways { AreWaysIn machine.now ways.now }
    requires done { AreRunBefore roster.old.calls.items done }
    requires roster { IsRoster machine.now roster.old.calls.items }
    requires caught { AreCaught spans.old roster.old.calls.items }
    requires left { (IsTrue anew → ⊥)
        → AreSureBefore (IsSequence machine.now ways.now) since.calls roster.old.calls.items }
    requires new { (IsTrue anew → ⊥) → AreNewSince machine.now ways.now roster.old.calls.items since }
    ensures finished { IsFinished machine.now ways.now item roster.old.calls.items roster.new.calls.items }
    ensures caught { AreCaught spans.new roster.new.calls.items }
{
    let ran = roster.tell(item, hint);
    if anew {
        roster.settle_anew(machine, ways, spans);
    } else {
        roster.settle(machine, ways, spans, since, ran, done);
    }
}
