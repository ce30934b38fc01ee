//! `Plan`: the items that a step calls, which of them have run, and which are ready.
ghost use Rattle.std.specs.Prelude.{◌≡◌, ◌↔◌, ◌<◌, ◌++◌, ◌∷◌, [], length, slice_get, Some, IsTrue, IfOk, IfSome, IfNone, OnOk, OnErr, Contains};
ghost use Rattle.pssm_model.specs.declared.elements.DraftMachine.{DraftMachine};
ghost use Rattle.pssm_model.specs.WellFormed.{KeepsModelRules};
ghost use Rattle.pssm_model.specs.Course.Head.{Starts, Fires};
ghost use Rattle.pssm_model.specs.Items.{HasRunOut};
ghost use Rattle.pssm_model.specs.Changes.{Agree, nothing_yet};
ghost use Rattle.pssm_model.specs.Routes.{Truth, IsStateRoute};
ghost use Rattle.pssm_model.specs.declared.steps.Route.{Route};
ghost use Rattle.pssm_model.specs.Order.{IsReady, IsWayNow};
ghost use Rattle.pssm_config.specs.Tables.{Fits, configuration_of};
ghost use Rattle.pssm_plan.specs.Agenda.{course_of};
ghost use Rattle.pssm_plan.specs.Plans.{IsPlanOf};
ghost use Rattle.pssm_plan.specs.Standings.{StandsAs, ListsReady, IsItemAt, IsNextReady, ready_before, ready_calls};

use crate::progress::Progress;
use crate::ready::{ReadyItem, count_ready, next_ready, ready_item};
use crate::roster::{call_at, done_from, have_all_run};
use crate::standing::Standing;
use pssm_config::Config;
use pssm_model::{Firing, How, Item, Machine};
use std::alloc::{AllocError as NoMemory, Global};
use std::marker::Model;
use std::mem;
use std::snapshot::Snapshot;

/// How the step began; what is only for clauses takes no memory.
#[derive(Drop)]
enum Beginning {
    Start,
    Firing(Snapshot<Firing>, Snapshot<Config>),
}

/// An item that has run, and its way: it is only for clauses and takes no memory.
#[derive(Drop)]
struct Step {
    item: Snapshot<Item>,
    how: Snapshot<How>,
}

/// The plan of a step (UML 2.5.1, 14.2.3.9, run to completion): the items that it calls, which of them have run, and
/// which wait for others.
///
/// A clause sees the step as far as it has come, the list of its called items, and the routes by which it goes.
/// `IsPlanOf` says that all this is that of a step of a machine.
#[derive(Drop)]
pub struct Plan {
    beginning: Beginning,
    ran: Vec<Step>,
    progress: Progress,
    /// All calls before this place have run.
    done: usize,
    /// A progress that is out of use, whose room the next step takes.
    spare: Progress,
}

impl Model for Plan {
    ghost use Rattle.pssm_plan.specs.Agenda.{Agenda};

    ghost Value = { Agenda };

    ghost use Rattle.pssm_plan.specs.inner.Views.{head_of, tables_of, steps_of, shown};
    ghost use Rattle.pssm_plan.specs.inner.Passes.{AreCaught};
    ghost use Rattle.pssm_plan.specs.inner.Marks.{AreRunUpTo};

    ghost view = { λ p. record { head = head_of p.beginning; at_head = tables_of p.beginning; ran = steps_of p.ran.items; calls = shown p.progress.roster.calls.items; ways = p.progress.ways.items; restored = p.progress.restored.items } };

    ghost invariant = { λ p. AreCaught p.progress.spans.items p.progress.roster.calls.items × AreRunUpTo p.progress.roster.calls.items p.done };
}

impl Plan {
    /// How an item stands: not called, run, ready, or waiting for a called item that comes before it and has not run.
    #[inline(always)]
    pub fn standing(&self, item: Item) -> Standing
        ensures { (m : DraftMachine) → IsPlanOf m self.now → StandsAs m (course_of self.now) item result }
    {
        let calls = &self.progress.roster.calls;
        let Some(call) = calls.call_near(item, self.ran.len()) else {
            return Standing::NotCalled;
        };
        if call.ran {
            return Standing::Ran;
        }
        if !call.blocked {
            return Standing::Ready;
        }
        match call_at(calls.as_slice(), call.seen) {
            Some(on) => Standing::Waits { on: on.item },
            None => Standing::Ready,
        }
    }

    /// Whether every called item has run.
    pub fn finished(&self) -> bool
        ensures { (m : DraftMachine) → IsPlanOf m self.now → (IsTrue result ↔ HasRunOut m (course_of self.now)) }
    {
        have_all_run(self.progress.roster.calls.as_slice())
    }

    /// How many items are ready.
    pub fn ready_count(&self) -> u32
        ensures count { result ≡ length (ready_calls self.now) }
        ensures listed { (m : DraftMachine) → IsPlanOf m self.now → ListsReady m (course_of self.now) (ready_calls self.now) }
    {
        count_ready(self.progress.roster.calls.as_slice())
    }

    /// The ready item with a number, in the order of the plan's list.
    pub fn ready_at(&self, i: u32) -> Item
        requires { i < length (ready_calls self.now) }
        ensures listed { IsItemAt (ready_calls self.now) i result }
        ensures ready { (m : DraftMachine) → IsPlanOf m self.now → IsReady m (course_of self.now) result }
    {
        ready_item(self.progress.roster.calls.as_slice(), i)
    }

    /// The first ready item from a place of the plan's list on, with the place behind it, if there is one. So all ready
    /// items are met in the order of the list, from the place 0 on.
    #[inline(always)]
    pub fn ready_from(&self, place: u32) -> Option<ReadyItem>
        ensures some { IfSome result (IsNextReady self.now.calls place) }
        ensures none { IfNone result (ready_before self.now.calls place ≡ length (ready_calls self.now)) }
        ensures ready { (m : DraftMachine) → IsPlanOf m self.now
            → IfSome result (λ next. IsReady m (course_of self.now) next.item) }
    {
        next_ready(self.progress.roster.calls.as_slice(), place)
    }

    /// The plan of a start, which opens the top regions.
    ///
    /// `NoMemory`: memory ran out.
    pub fn of_start(alloc: Global, machine: &Machine) -> Result<Plan, NoMemory>
        requires rules { KeepsModelRules machine.now }
        ensures head { IfOk result (λ plan. plan.head ≡ Starts) }
        ensures at_head { IfOk result (λ plan. Agree (configuration_of plan.at_head) nothing_yet) }
        ensures none_ran { IfOk result (λ plan. plan.ran ≡ []) }
        ensures plan { IfOk result (IsPlanOf machine.now) }
    {
        let _shaped = machine.regions();
        let progress = Progress::of_start(alloc, machine)?;
        Ok(Plan {
            beginning: Beginning::Start,
            ran: Vec::new(alloc),
            progress,
            done: 0,
            spare: Progress::new(alloc),
        })
    }

    /// The plan of routes that fire in a configuration.
    ///
    /// `NoMemory`: memory ran out; nothing has changed.
    pub fn of_firing(
        alloc: Global,
        machine: &Machine,
        config: &Config,
        firing: &Firing,
    ) -> Result<Plan, NoMemory>
        requires rules { KeepsModelRules machine.now }
        requires fits { Fits machine.now config.now }
        requires routes { (route : Route) → Contains firing.now.routes route → IsStateRoute machine.now route }
        ensures head { IfOk result (λ plan. plan.head ≡ Fires firing.now.routes) }
        ensures at_head { IfOk result (λ plan. plan.at_head ≡ config.now) }
        ensures none_ran { IfOk result (λ plan. plan.ran ≡ []) }
        ensures plan { IfOk result (IsPlanOf machine.now) }
    {
        let _shaped = machine.regions();
        let progress = Progress::of_routes(alloc, machine, config, firing.routes.as_slice())?;
        Ok(Plan {
            beginning: Beginning::Firing(Snapshot::of(firing), Snapshot::of(config)),
            ran: Vec::new(alloc),
            progress,
            done: 0,
            spare: Progress::new(alloc),
        })
    }

    /// Becomes the plan of routes that fire in a configuration. It takes memory for the legs of the routes, and else
    /// only where it has less room than it needs.
    ///
    /// `NoMemory`: memory ran out; the plan is as before.
    pub fn fire(
        &mut self,
        alloc: Global,
        machine: &Machine,
        config: &Config,
        firing: &Firing,
    ) -> Result<(), NoMemory>
        requires rules { KeepsModelRules machine.now }
        requires fits { Fits machine.now config.now }
        requires routes { (route : Route) → Contains firing.now.routes route → IsStateRoute machine.now route }
        ensures head { OnOk result (self.new.head ≡ Fires firing.now.routes) }
        ensures at_head { OnOk result (self.new.at_head ≡ config.now) }
        ensures none_ran { OnOk result (self.new.ran ≡ []) }
        ensures plan { OnOk result (IsPlanOf machine.now self.new) }
        ensures refused { OnErr result (self.new ≡ self.old) }
    {
        let _shaped = machine.regions();
        self.spare
            .renew(alloc, machine, config, firing.routes.as_slice())?;
        mem::swap(&mut self.progress, &mut self.spare);
        self.beginning = Beginning::Firing(Snapshot::of(firing), Snapshot::of(config));
        self.ran.clear();
        self.done = 0;
        Ok(())
    }

    /// Runs a ready item in one of its ways.
    ///
    /// `NoMemory`: memory ran out; the plan is as before.
    pub fn run(
        &mut self,
        alloc: Global,
        machine: &Machine,
        item: Item,
        how: &How,
    ) -> Result<(), NoMemory>
        requires rules { KeepsModelRules machine.now }
        requires plan { IsPlanOf machine.now self.old }
        requires ready { IsReady machine.now (course_of self.old) item }
        requires way { (truth : Truth) × IsWayNow machine.now truth (course_of self.old) item how.now }
        ensures head { self.new.head ≡ self.old.head }
        ensures at_head { self.new.at_head ≡ self.old.at_head }
        ensures ran { OnOk result (self.new.ran ≡ self.old.ran ++ (item, how.now) ∷ []) }
        ensures plan { OnOk result (IsPlanOf machine.now self.new) }
        ensures refused { OnErr result (self.new ≡ self.old) }
    {
        let _shaped = machine.regions();
        let ran = self.ran.len();
        let step = Step {
            item: Snapshot::of(&item),
            how: Snapshot::of(how),
        };
        self.ran.push(step)?;
        let done = self.done;
        let outcome = self.progress.run(alloc, machine, item, how, ran, done);
        if outcome.is_err() {
            self.ran.truncate(ran);
        } else {
            self.done = done_from(self.progress.roster.calls.as_slice(), done);
        }
        outcome
    }
}
