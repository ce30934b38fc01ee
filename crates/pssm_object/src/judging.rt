//! The verdict on one more entry, where the object stands so.
ghost use Rattle.std.specs.Prelude.{◌≡◌, ◌<◌, ◌↔◌, length, Some, IsTrue, IfOk, IfSome, MatchResult};
ghost use Rattle.std.specs.Option.{option_copied};
ghost use Rattle.pssm_model.specs.declared.elements.DraftMachine.{DraftMachine};
ghost use Rattle.pssm_semantics.specs.Classes.{IsWellFormedClass};
ghost use Rattle.pssm_semantics.specs.Known.{IsWayOf, IsRouteOf};
ghost use Rattle.pssm_config.specs.Tables.{Fits};
ghost use Rattle.pssm_plan.specs.Plans.{IsPlanOf};
ghost use Rattle.pssm_object.specs.Following.{NamesPlaces};
ghost use Rattle.pssm_object.specs.inner.Situations.{standing_of, IsAtRest};
ghost use Rattle.pssm_object.specs.inner.Working.{HasPlace, Makes};
ghost use Rattle.pssm_object.specs.inner.Judging.{FiresHere, Completes, JudgesRest, JudgesStart, JudgesFiring, JudgesTake, JudgesDone, JudgesItem, JudgesWork, IsWayHere, JudgesWay, JudgesDoing, IsPastEnd, JudgesLiving, Judges};

use crate::firing::fires;
use crate::opening::opens_by;
use crate::routes::goes_on_by;
use crate::situation::Situation;
use crate::working::stated_act;
use pssm_model::{Event, Firing, How, Item, Mode, RegionId, Route, Row, VertexId};
use pssm_plan::Standing;
use pssm_pool::Waiting;
use pssm_semantics::{Args, Class, Entry, Out, Rule};
use std::alloc::{AllocError as NoMemory, Global};

impl Situation {
    /// The first rule that the entry breaks, if it breaks one.
    #[inline(always)]
    pub fn judge(
        &self,
        alloc: Global,
        class: &Class,
        entry: &Entry,
        signal: Option<&Waiting>,
    ) -> Result<Option<Rule>, NoMemory>
        requires class { IsWellFormedClass class.now }
        requires fits { Fits class.now.machine self.now.config }
        requires plan { IfSome self.now.plan (IsPlanOf class.now.machine) }
        requires names { NamesPlaces class.now.machine entry.now }
        ensures { IfOk result (Judges class.now (standing_of self.now) (option_copied signal.entry) entry.now) }
    {
        if self.is_past_end(entry) {
            Ok(Some(Rule::A2))
        } else {
            self.judge_living(alloc, class, entry, signal)
        }
    }

    // Whether the entry comes after the end of the object, where a post alone may come.
    #[inline(always)]
    fn is_past_end(&self, entry: &Entry) -> bool
        ensures { IsTrue result ↔ IsPastEnd (standing_of self.now) entry.now }
    {
        match entry {
            Entry::Post { .. } => false,
            Entry::Start { .. }
            | Entry::Take { .. }
            | Entry::Done { .. }
            | Entry::Exit { .. }
            | Entry::Effect { .. }
            | Entry::Enter { .. }
            | Entry::Opened { .. }
            | Entry::Pick { .. }
            | Entry::DoStep { .. } => self.ended,
        }
    }

    // The first rule that the entry breaks where the object has not ended.
    #[inline(always)]
    fn judge_living(
        &self,
        alloc: Global,
        class: &Class,
        entry: &Entry,
        signal: Option<&Waiting>,
    ) -> Result<Option<Rule>, NoMemory>
        requires class { IsWellFormedClass class.now }
        requires fits { Fits class.now.machine self.now.config }
        requires plan { IfSome self.now.plan (IsPlanOf class.now.machine) }
        requires names { NamesPlaces class.now.machine entry.now }
        ensures { IfOk result (JudgesLiving class.now (standing_of self.now) (option_copied signal.entry) entry.now) }
    {
        match entry {
            Entry::Post { .. } => Ok(None),
            Entry::Start { .. } => Ok(self.judge_start()),
            Entry::Take { firing, .. } => self.judge_take(alloc, class, firing, signal),
            Entry::Done { state, firing, .. } => self.judge_done(alloc, class, *state, firing),
            Entry::Exit { state, outs, .. } => {
                self.judge_work(alloc, class, Item::Exit(*state), outs)
            }
            Entry::Effect {
                transition,
                outs,
                ..
            } => self.judge_work(alloc, class, Item::Effect(*transition), outs),
            Entry::Enter { state, outs, .. } => {
                self.judge_work(alloc, class, Item::Enter(*state), outs)
            }
            Entry::Opened {
                region,
                mode,
                how,
                ..
            } => Ok(self.judge_opened(class, *region, *mode, how)),
            Entry::Pick { choice, route, .. } => Ok(self.judge_pick(class, *choice, route)),
            Entry::DoStep {
                state,
                step,
                outs,
                ..
            } => self.judge_doing(alloc, class, *state, *step, outs),
        }
    }

    // The verdict on a start.
    fn judge_start(&self) -> Option<Rule>
        ensures { JudgesStart self.now.plan result }
    {
        match &self.plan {
            Some(_) => Some(Rule::A3),
            None => None,
        }
    }

    // The verdict on a take; without its signal what it fires is not asked.
    #[inline(always)]
    fn judge_take(
        &self,
        alloc: Global,
        class: &Class,
        firing: &Firing,
        signal: Option<&Waiting>,
    ) -> Result<Option<Rule>, NoMemory>
        requires class { IsWellFormedClass class.now }
        requires fits { Fits class.now.machine self.now.config }
        requires plan { IfSome self.now.plan (IsPlanOf class.now.machine) }
        ensures { IfOk result (JudgesTake class.now (standing_of self.now) (option_copied signal.entry)
            firing.now.routes) }
    {
        if let Err(rule) = self.at_rest() {
            return Ok(Some(rule));
        }
        if self.queue.first().is_some() {
            return Ok(Some(Rule::A5));
        }
        match signal {
            Some(waiting) => self.judge_firing(alloc, class, firing, waiting),
            None => Ok(None),
        }
    }

    // The verdict on what this signal fires, where the object rests and no completion waits.
    #[inline(always)]
    fn judge_firing(
        &self,
        alloc: Global,
        class: &Class,
        firing: &Firing,
        waiting: &Waiting,
    ) -> Result<Option<Rule>, NoMemory>
        requires class { IsWellFormedClass class.now }
        requires fits { Fits class.now.machine self.now.config }
        ensures { IfOk result (JudgesFiring (FiresHere class.now (standing_of self.now) firing.now.routes waiting.now)) }
    {
        let event = Event::Signal(waiting.signal);
        let store = self.store.as_slice();
        if fires(
            alloc,
            class,
            &self.config,
            store,
            &waiting.args,
            event,
            firing,
        )? {
            Ok(None)
        } else {
            Ok(Some(Rule::A7))
        }
    }

    // The verdict on a dispatch of the completion of a State.
    #[inline(never)]
    fn judge_done(
        &self,
        alloc: Global,
        class: &Class,
        state: VertexId,
        firing: &Firing,
    ) -> Result<Option<Rule>, NoMemory>
        requires class { IsWellFormedClass class.now }
        requires fits { Fits class.now.machine self.now.config }
        requires plan { IfSome self.now.plan (IsPlanOf class.now.machine) }
        ensures { IfOk result (JudgesDone class.now (standing_of self.now) state firing.now.routes) }
    {
        if let Err(rule) = self.at_rest() {
            return Ok(Some(rule));
        }
        if self.queue.first() != Some(state) {
            return Ok(Some(Rule::A5));
        }
        self.judge_completion(alloc, class, state, firing)
    }

    // The verdict on what the completion of a State fires, where it is the first of the queue.
    fn judge_completion(
        &self,
        alloc: Global,
        class: &Class,
        state: VertexId,
        firing: &Firing,
    ) -> Result<Option<Rule>, NoMemory>
        requires class { IsWellFormedClass class.now }
        requires fits { Fits class.now.machine self.now.config }
        ensures { IfOk result (JudgesFiring (Completes class.now (standing_of self.now) state firing.now.routes)) }
    {
        if self.completes(alloc, class, state, firing)? {
            Ok(None)
        } else {
            Ok(Some(Rule::A7))
        }
    }

    // Whether this is what the completion of the State fires.
    fn completes(
        &self,
        alloc: Global,
        class: &Class,
        state: VertexId,
        firing: &Firing,
    ) -> Result<bool, NoMemory>
        requires class { IsWellFormedClass class.now }
        requires fits { Fits class.now.machine self.now.config }
        ensures { IfOk result (λ is. IsTrue is ↔ Completes class.now (standing_of self.now) state firing.now.routes) }
    {
        let none = Args::from_vec(Vec::new(alloc));
        let store = self.store.as_slice();
        let event = Event::Completion(state);
        fires(alloc, class, &self.config, store, &none, event, firing)
    }

    // Whether the last step is finished, or the rule that a head entry breaks.
    #[inline(always)]
    fn at_rest(&self) -> Result<(), Rule>
        ensures { (m : DraftMachine) → IfSome self.now.plan (IsPlanOf m)
            → MatchResult result (λ _. IsAtRest m self.now.plan) (λ rule. JudgesRest m self.now.plan rule) }
    {
        match &self.plan {
            None => Err(Rule::A3),
            Some(plan) => {
                if plan.finished() {
                    Ok(())
                } else {
                    Err(Rule::A4)
                }
            }
        }
    }

    // The verdict on an item, but for its way and its outputs.
    #[inline(always)]
    fn judge_item(&self, item: Item) -> Option<Rule>
        ensures { (m : DraftMachine) → IfSome self.now.plan (IsPlanOf m) → JudgesItem m self.now.plan item result }
    {
        match &self.plan {
            None => Some(Rule::A3),
            Some(plan) => match plan.standing(item) {
                Standing::Ready => None,
                Standing::NotCalled | Standing::Ran => Some(Rule::A8),
                Standing::Waits { .. } => Some(Rule::A9),
            },
        }
    }

    // The verdict on an exit, an effect or an entry: its outputs are those of its behaviour.
    #[inline(always)]
    fn judge_work(
        &self,
        alloc: Global,
        class: &Class,
        item: Item,
        outs: &Row<Out>,
    ) -> Result<Option<Rule>, NoMemory>
        requires class { IsWellFormedClass class.now }
        requires plan { IfSome self.now.plan (IsPlanOf class.now.machine) }
        requires place { HasPlace class.now.machine item }
        ensures { IfOk result (JudgesWork class.now (standing_of self.now) item outs.now) }
    {
        if let Some(rule) = self.judge_item(item) {
            return Ok(Some(rule));
        }
        if self.makes(alloc, class, item, outs)? {
            Ok(None)
        } else {
            Ok(Some(Rule::A12))
        }
    }

    // Whether these are the outputs of the item's behaviour.
    #[inline(always)]
    fn makes(
        &self,
        alloc: Global,
        class: &Class,
        item: Item,
        outs: &Row<Out>,
    ) -> Result<bool, NoMemory>
        requires class { IsWellFormedClass class.now }
        requires place { HasPlace class.now.machine item }
        ensures { IfOk result (λ same. IsTrue same ↔ Makes class.now (standing_of self.now) item outs.now) }
    {
        match stated_act(class, item) {
            None => Ok(outs.as_slice().is_empty()),
            Some(act) => self.makes_by(alloc, act, outs),
        }
    }

    // The verdict on an opening with its way.
    #[inline(never)]
    fn judge_opened(&self, class: &Class, region: RegionId, mode: Mode, how: &How) -> Option<Rule>
        requires class { IsWellFormedClass class.now }
        requires fits { Fits class.now.machine self.now.config }
        requires plan { IfSome self.now.plan (IsPlanOf class.now.machine) }
        requires region { region.0 < length class.now.machine.regions }
        requires way { IsWayOf class.now.machine how.now }
        ensures { JudgesWay class.now (standing_of self.now) (Item.Opened region mode) how.now result }
    {
        match self.judge_item(Item::Opened(region, mode)) {
            Some(rule) => Some(rule),
            None => {
                if self.opens(class, region, mode, how) {
                    None
                } else {
                    Some(Rule::A10)
                }
            }
        }
    }

    // Whether the region opens in this mode by the way.
    fn opens(&self, class: &Class, region: RegionId, mode: Mode, how: &How) -> bool
        requires class { IsWellFormedClass class.now }
        requires fits { Fits class.now.machine self.now.config }
        requires region { region.0 < length class.now.machine.regions }
        requires way { IsWayOf class.now.machine how.now }
        ensures { IsTrue result ↔ IsWayHere class.now (standing_of self.now) (Item.Opened region mode) how.now }
    {
        let store = self.store.as_slice();
        opens_by(class, &self.config, store, &self.params, region, mode, how)
    }

    // The verdict on a pick with its route.
    #[inline(never)]
    fn judge_pick(&self, class: &Class, choice: VertexId, route: &Route) -> Option<Rule>
        requires class { IsWellFormedClass class.now }
        requires plan { IfSome self.now.plan (IsPlanOf class.now.machine) }
        requires choice { choice.0 < length class.now.machine.vertices }
        requires route { IsRouteOf class.now.machine route.now }
        ensures { JudgesWay class.now (standing_of self.now) (Item.Pick choice) (How.By route.now) result }
    {
        match self.judge_item(Item::Pick(choice)) {
            Some(rule) => Some(rule),
            None => {
                if goes_on_by(class, self.store.as_slice(), &self.params, choice, route) {
                    None
                } else {
                    Some(Rule::A10)
                }
            }
        }
    }

    // The verdict on a do step with its outputs.
    #[inline(never)]
    fn judge_doing(
        &self,
        alloc: Global,
        class: &Class,
        state: VertexId,
        step: u16,
        outs: &Row<Out>,
    ) -> Result<Option<Rule>, NoMemory>
        requires class { IsWellFormedClass class.now }
        requires fits { Fits class.now.machine self.now.config }
        requires state { state.0 < length class.now.machine.vertices }
        ensures { IfOk result (JudgesDoing class.now (standing_of self.now) state step outs.now) }
    {
        match &self.plan {
            None => Ok(Some(Rule::A3)),
            Some(_) => self.judge_step(alloc, class, state, step, outs),
        }
    }
}
