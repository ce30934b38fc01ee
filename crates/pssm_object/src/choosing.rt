//! What an object may do next, where it stands so.
ghost use Rattle.std.specs.Prelude.{◌≡◌, ◌<◌, ◌↔◌, length, IsTrue, IfOk, IfSome, IfNone, Some, Contains};
ghost use Rattle.std.specs.Option.{option_copied};
ghost use Rattle.pssm_model.specs.declared.elements.DraftMachine.{DraftMachine};
ghost use Rattle.pssm_model.specs.declared.elements.VertexKind.TheVariants as kinds;
ghost use Rattle.pssm_model.specs.Forest.{HasKind};
ghost use Rattle.pssm_semantics.specs.Classes.{IsWellFormedClass};
ghost use Rattle.pssm_config.specs.Tables.{Fits};
ghost use Rattle.pssm_plan.specs.Plans.{IsPlanOf};
ghost use Rattle.pssm_object.specs.Tasks.{ready_tasks};
ghost use Rattle.pssm_object.specs.inner.Situations.{standing_of, IsAtRest, first_waiting};
ghost use Rattle.pssm_object.specs.inner.Working.{HasPlace, Makes};
ghost use Rattle.pssm_object.specs.inner.Judging.{Completes};
ghost use Rattle.pssm_object.specs.inner.Choosing.{IsItemThere, HasWays, IsReadyChoice, HasNoChoice, GoesSomeWay, TakesSignal, ServesCompletion, ChoosesNext, ChoosesInStep, Chooses, DoesTask, IsDeferredHere, AwaitsHere};

use crate::firing::{is_deferred, pick_firing};
use crate::opening::some_way;
use crate::routes::route_from;
use crate::situation::Situation;
use crate::working::stated_act;
use pssm_model::{Event, Firing, Item, Mode, RegionId, Row, VertexId};
use pssm_plan::Plan;
use pssm_pool::Waiting;
use pssm_semantics::{Args, Class, Entry, Out, Task};
use std::alloc::{AllocError as NoMemory, Global};

impl Situation {
    /// Whether the object has started and its step is finished.
    pub fn is_at_rest(&self) -> bool
        ensures { (m : DraftMachine) → IfSome self.now.plan (IsPlanOf m) → (IsTrue result ↔ IsAtRest m self.now.plan) }
    {
        match &self.plan {
            Some(plan) => plan.finished(),
            None => false,
        }
    }

    /// Whether it has not ended, has started and its step is finished, and no completion waits.
    pub fn awaits_signal(&self) -> bool
        ensures { (m : DraftMachine) → IfSome self.now.plan (IsPlanOf m)
            → (IsTrue result ↔ AwaitsHere m (standing_of self.now)) }
    {
        !self.ended && self.is_at_rest() && self.queue.first().is_none()
    }

    /// Whether some active State defers the signal.
    pub fn defers(&self, class: &Class, waiting: &Waiting) -> bool
        requires class { IsWellFormedClass class.now }
        requires fits { Fits class.now.machine self.now.config }
        ensures { IsTrue result ↔ IsDeferredHere class.now (standing_of self.now) waiting.now }
    {
        is_deferred(class, &self.config, waiting, self.store.as_slice())
    }

    /// The start; a ready opening or pick; or where the object rests the dispatch of the first completion that waits, and
    /// where none waits the take of the signal; none where there is none of these, or the object has ended.
    pub fn choose_move(
        &self,
        alloc: Global,
        class: &Class,
        signal: Option<&Waiting>,
        word: u64,
    ) -> Result<Option<Entry>, NoMemory>
        requires class { IsWellFormedClass class.now }
        requires fits { Fits class.now.machine self.now.config }
        requires plan { IfSome self.now.plan (IsPlanOf class.now.machine) }
        ensures { IfOk result (Chooses class.now (standing_of self.now) (option_copied signal.entry) self.now.plan) }
    {
        if self.ended {
            return Ok(None);
        }
        match &self.plan {
            None => Ok(Some(Entry::Start { object: self.own })),
            Some(plan) => self.choose_in_step(alloc, class, plan, signal, word),
        }
    }

    // The same where the object has started, with this plan, and has not ended.
    fn choose_in_step(
        &self,
        alloc: Global,
        class: &Class,
        plan: &Plan,
        signal: Option<&Waiting>,
        word: u64,
    ) -> Result<Option<Entry>, NoMemory>
        requires class { IsWellFormedClass class.now }
        requires fits { Fits class.now.machine self.now.config }
        requires here { self.now.plan ≡ Some plan.now }
        requires plan { IsPlanOf class.now.machine plan.now }
        ensures { IfOk result (ChoosesInStep class.now (standing_of self.now) (option_copied signal.entry) plan.now) }
    {
        if plan.finished() {
            return self.choose_next(alloc, class, signal, word);
        }
        match ready_choice(plan, word) {
            Some(item) => Ok(Some(self.go_some_way(alloc, class, item, word)?)),
            None => Ok(None),
        }
    }

    // The dispatch of the first completion that waits; where none waits the take of the signal, if there is one.
    fn choose_next(
        &self,
        alloc: Global,
        class: &Class,
        signal: Option<&Waiting>,
        word: u64,
    ) -> Result<Option<Entry>, NoMemory>
        requires class { IsWellFormedClass class.now }
        requires fits { Fits class.now.machine self.now.config }
        ensures { IfOk result (ChoosesNext class.now (standing_of self.now) (option_copied signal.entry)
            (first_waiting (standing_of self.now))) }
    {
        match self.queue.first() {
            Some(state) => Ok(Some(self.done_of(alloc, class, state, word)?)),
            None => self.choose_take(alloc, class, signal, word),
        }
    }

    // The dispatch of the completion of this State.
    fn done_of(
        &self,
        alloc: Global,
        class: &Class,
        state: VertexId,
        word: u64,
    ) -> Result<Entry, NoMemory>
        requires class { IsWellFormedClass class.now }
        requires fits { Fits class.now.machine self.now.config }
        ensures { IfOk result (ServesCompletion class.now (standing_of self.now) state) }
    {
        let firing = self.pick_completion(alloc, class, state, word)?;
        Ok(Entry::Done {
            object: self.own,
            state,
            firing,
        })
    }

    // What the completion of the State fires.
    fn pick_completion(
        &self,
        alloc: Global,
        class: &Class,
        state: VertexId,
        word: u64,
    ) -> Result<Firing, NoMemory>
        requires class { IsWellFormedClass class.now }
        requires fits { Fits class.now.machine self.now.config }
        ensures { IfOk result (λ firing. Completes class.now (standing_of self.now) state firing.routes) }
    {
        let none = Args::from_vec(Vec::new(alloc));
        let store = self.store.as_slice();
        let event = Event::Completion(state);
        pick_firing(alloc, class, &self.config, store, &none, event, word)
    }

    // The take of the signal, if there is one.
    fn choose_take(
        &self,
        alloc: Global,
        class: &Class,
        signal: Option<&Waiting>,
        word: u64,
    ) -> Result<Option<Entry>, NoMemory>
        requires class { IsWellFormedClass class.now }
        requires fits { Fits class.now.machine self.now.config }
        ensures { IfOk result (TakesSignal class.now (standing_of self.now) (option_copied signal.entry)) }
    {
        match signal {
            Some(waiting) => Ok(Some(self.take_of(alloc, class, waiting, word)?)),
            None => Ok(None),
        }
    }

    // The take of this signal.
    fn take_of(
        &self,
        alloc: Global,
        class: &Class,
        waiting: &Waiting,
        word: u64,
    ) -> Result<Entry, NoMemory>
        requires class { IsWellFormedClass class.now }
        requires fits { Fits class.now.machine self.now.config }
        ensures { IfOk result (λ entry. TakesSignal class.now (standing_of self.now) (Some waiting.now) (Some entry)) }
    {
        let store = self.store.as_slice();
        let event = Event::Signal(waiting.signal);
        let firing = pick_firing(
            alloc,
            class,
            &self.config,
            store,
            &waiting.args,
            event,
            word,
        )?;
        Ok(Entry::Take {
            object: self.own,
            number: waiting.number,
            firing,
        })
    }

    // An opening or a pick in one of its ways.
    fn go_some_way(
        &self,
        alloc: Global,
        class: &Class,
        item: Item,
        word: u64,
    ) -> Result<Entry, NoMemory>
        requires class { IsWellFormedClass class.now }
        requires fits { Fits class.now.machine self.now.config }
        requires item { HasWays item }
        requires there { IsItemThere class.now.machine item }
        ensures { IfOk result (GoesSomeWay class.now (standing_of self.now) item) }
    {
        match item {
            Item::Opened(region, mode) => self.open(alloc, class, region, mode, word),
            Item::Pick(choice) => self.pick_way(alloc, class, choice, word),
            Item::Exit(_) | Item::Effect(_) | Item::Enter(_) => unreachable!(),
        }
    }

    // The opening of a region in one of its ways.
    fn open(
        &self,
        alloc: Global,
        class: &Class,
        region: RegionId,
        mode: Mode,
        word: u64,
    ) -> Result<Entry, NoMemory>
        requires class { IsWellFormedClass class.now }
        requires fits { Fits class.now.machine self.now.config }
        requires region { region.0 < length class.now.machine.regions }
        ensures { IfOk result (GoesSomeWay class.now (standing_of self.now) (Item.Opened region mode)) }
    {
        let store = self.store.as_slice();
        let how = some_way(
            alloc,
            class,
            &self.config,
            store,
            &self.params,
            region,
            mode,
            word,
        )?;
        Ok(Entry::Opened {
            object: self.own,
            region,
            mode,
            how,
        })
    }

    // The pick of one of the ways from a choice.
    #[tactic(auto, using(crate::proofs::MachineLaws::choice_leads))]
    fn pick_way(
        &self,
        alloc: Global,
        class: &Class,
        choice: VertexId,
        word: u64,
    ) -> Result<Entry, NoMemory>
        requires class { IsWellFormedClass class.now }
        requires choice { HasKind class.now.machine choice kinds.Choice }
        ensures { IfOk result (GoesSomeWay class.now (standing_of self.now) (Item.Pick choice)) }
    {
        let store = self.store.as_slice();
        let route = route_from(alloc, class, store, &self.params, choice, word)?;
        Ok(Entry::Pick {
            object: self.own,
            choice,
            route,
        })
    }

    /// The entry that does a ready task, with the outputs of its behaviour.
    pub fn run_task(&self, alloc: Global, class: &Class, task: Task) -> Result<Entry, NoMemory>
        requires class { IsWellFormedClass class.now }
        requires fits { Fits class.now.machine self.now.config }
        requires plan { IfSome self.now.plan (IsPlanOf class.now.machine) }
        requires ready { Contains (ready_tasks class.now.machine (standing_of self.now)) task }
        ensures { IfOk result (DoesTask class.now (standing_of self.now) task) }
    {
        let object = self.own;
        match task {
            Task::Exit(state) => Ok(Entry::Exit {
                object,
                state,
                outs: self.outputs(alloc, class, Item::Exit(state))?,
            }),
            Task::Effect(transition) => Ok(Entry::Effect {
                object,
                transition,
                outs: self.outputs(alloc, class, Item::Effect(transition))?,
            }),
            Task::Enter(state) => Ok(Entry::Enter {
                object,
                state,
                outs: self.outputs(alloc, class, Item::Enter(state))?,
            }),
            Task::DoStep(state, step) => Ok(Entry::DoStep {
                object,
                state,
                step,
                outs: self.step_outputs(alloc, class, state, step)?,
            }),
        }
    }

    // The outputs of the behaviour of an item.
    fn outputs(&self, alloc: Global, class: &Class, item: Item) -> Result<Row<Out>, NoMemory>
        requires class { IsWellFormedClass class.now }
        requires place { HasPlace class.now.machine item }
        ensures { IfOk result (Makes class.now (standing_of self.now) item) }
    {
        match stated_act(class, item) {
            Some(act) => self.outputs_by(alloc, act),
            None => Ok(Row::from_vec(Vec::new(alloc))),
        }
    }
}

// A ready opening or pick, with its number among the ready items and the place behind it in the plan's list.
#[derive(Clone, Copy)]
struct ReadyChoice {
    item: Item,
    number: u32,
    behind: u32,
}

// A ready opening or pick, if there is one: the first at or after the place that the word picks, or else the first
// of all. Most often there is none, and then one look at the ready items tells it.
fn ready_choice(plan: &Plan, word: u64) -> Option<Item>
    ensures none { (m : DraftMachine) → IsPlanOf m plan.now → IfNone result (HasNoChoice m plan.now) }
    ensures ready { (m : DraftMachine) → IsPlanOf m plan.now → IfSome result (IsReadyChoice m plan.now) }
{
    match first_choice(plan) {
        Some(first) => Some(choice_from(plan, word, first)),
        None => None,
    }
}

// The first ready opening or pick at or after the place that the word picks, or else the one that is handed in, which
// is the first of all.
fn choice_from(plan: &Plan, word: u64, first: ReadyChoice) -> Item
    ensures { (m : DraftMachine) → IsPlanOf m plan.now → IsReadyChoice m plan.now first.item
        → IsReadyChoice m plan.now result }
{
    let count = plan.ready_count();
    if count == 0 {
        return first.item;
    }
    let place = (word % u64::from(count)) as u32;
    if place <= first.number {
        return first.item;
    }
    match choice_behind(plan, first.behind, place - first.number) {
        Some(item) => item,
        None => first.item,
    }
}

// The first ready opening or pick of all.
fn first_choice(plan: &Plan) -> Option<ReadyChoice>
    ensures none { (m : DraftMachine) → IsPlanOf m plan.now → IfNone result (HasNoChoice m plan.now) }
    ensures ready { (m : DraftMachine) → IsPlanOf m plan.now
        → IfSome result (λ choice. IsReadyChoice m plan.now choice.item) }
{
    let mut number: u32 = 0;
    let mut place = 0;
    while let Some(next) = plan.ready_from(place) {
        if has_ways(next.item) {
            return Some(ReadyChoice {
                item: next.item,
                number,
                behind: next.behind,
            });
        }
        number = number.saturating_add(1);
        place = next.behind;
    }
    None
}

// The first opening or pick among the ready items from a place of the plan's list on, where so many of them less one
// are passed by.
fn choice_behind(plan: &Plan, from: u32, steps: u32) -> Option<Item>
    ensures { (m : DraftMachine) → IsPlanOf m plan.now → IfSome result (IsReadyChoice m plan.now) }
{
    let mut left = steps;
    let mut place = from;
    while let Some(next) = plan.ready_from(place) {
        left = left.saturating_sub(1);
        if left == 0 && has_ways(next.item) {
            return Some(next.item);
        }
        place = next.behind;
    }
    None
}

// Whether the item is an opening or a pick.
fn has_ways(item: Item) -> bool
    ensures { IsTrue result ↔ HasWays item }
{
    match item {
        Item::Opened(_, _) | Item::Pick(_) => true,
        Item::Exit(_) | Item::Effect(_) | Item::Enter(_) => false,
    }
}
