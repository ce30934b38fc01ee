//! Where an object stands once one more entry of it has come that may follow.
ghost use Rattle.std.specs.Prelude.{◌≡◌, length, IfOk, OnOk, OnErr, Some};
ghost use Rattle.std.specs.Option.{option_copied};
ghost use Rattle.pssm_model.specs.WellFormed.{KeepsModelRules};
ghost use Rattle.pssm_model.specs.Changes.{Agree};
ghost use Rattle.pssm_config.specs.Tables.{Fits, configuration_of};
ghost use Rattle.pssm_plan.specs.Steadiness.{changed_by_item};
ghost use Rattle.pssm_semantics.specs.Classes.{IsWellFormedClass};
ghost use Rattle.pssm_object.specs.Following.{made_by};
ghost use Rattle.pssm_object.specs.inner.Queueing.{QueueFits};
ghost use Rattle.pssm_object.specs.inner.Working.{HasPlace, act_for, outcome_for};
ghost use Rattle.pssm_object.specs.inner.Doing.{IsNextHere, step_outcome};
ghost use Rattle.pssm_object.specs.inner.Situations.{standing_of};
ghost use Rattle.pssm_object.specs.inner.Advancing.{Begins, CanRun, HasRunOn, HasFired, CanChange, AreStateRoutes, CanTake, CanFollow, CanRunHere, Settles, RunsHere, WorksHere, StepsHere, Takes, Dispatches, Advances};

use crate::ending::ends_by;
use crate::queue::{due_by, due_of};
use crate::situation::Situation;
use crate::working::{clear_params, renew_params, stated_act};
use pssm_config::Config;
use pssm_model::{Duplicate, Firing, How, Item, Machine, Route, VertexId};
use pssm_plan::Plan;
use pssm_pool::Waiting;
use pssm_semantics::{Act, Class, Entry, change_store};
use std::alloc::{AllocError as NoMemory, Global};

impl Situation {
    /// Goes on by an entry that may follow; with a take its signal is handed in.
    ///
    /// On want of memory nothing has changed.
    #[inline(always)]
    pub fn apply(
        &mut self,
        alloc: Global,
        class: &Class,
        entry: &Entry,
        signal: Option<&Waiting>,
    ) -> Result<(), NoMemory>
        requires class { IsWellFormedClass class.now }
        requires fits { Fits class.now.machine self.old.config }
        requires room { QueueFits class.now.machine self.old.queue }
        requires eight { length self.old.params ≡ 8 }
        requires follows { CanFollow class.now (standing_of self.old) (option_copied signal) entry.now }
        ensures ok { OnOk result (Advances class.now (standing_of self.old) (option_copied signal.entry) entry.now
            (standing_of self.new)) }
        ensures err { OnErr result (standing_of self.new ≡ standing_of self.old) }
    {
        match entry {
            Entry::Post { .. } => Ok(()),
            Entry::Start { .. } => self.start(alloc, &class.machine),
            Entry::Take { firing, .. } => self.take(alloc, &class.machine, firing, signal),
            Entry::Done { state, firing, .. } => {
                self.dispatch(alloc, &class.machine, *state, firing)
            }
            Entry::Exit { state, .. } => self.do_work(alloc, class, Item::Exit(*state)),
            Entry::Effect { transition, .. } => {
                self.do_work(alloc, class, Item::Effect(*transition))
            }
            Entry::Enter { state, .. } => self.do_work(alloc, class, Item::Enter(*state)),
            Entry::Opened {
                region,
                mode,
                how,
                ..
            } => self.run_way(alloc, &class.machine, Item::Opened(*region, *mode), how),
            Entry::Pick { choice, route, .. } => self.pick(alloc, &class.machine, *choice, route),
            Entry::DoStep { state, step, .. } => self.step_on(alloc, class, *state, *step),
        }
    }

    /// Goes on by an entry that may follow, whose behaviour was run elsewhere and left the variables these values.
    ///
    /// On want of memory nothing has changed.
    pub fn apply_made(
        &mut self,
        alloc: Global,
        class: &Class,
        entry: &Entry,
        signal: Option<&Waiting>,
        store: &[i64],
    ) -> Result<(), NoMemory>
        requires class { IsWellFormedClass class.now }
        requires fits { Fits class.now.machine self.old.config }
        requires room { QueueFits class.now.machine self.old.queue }
        requires eight { length self.old.params ≡ 8 }
        requires follows { CanFollow class.now (standing_of self.old) (option_copied signal) entry.now }
        requires made { store.now ≡ (made_by class.now (standing_of self.old) entry.now).store }
        ensures ok { OnOk result (Advances class.now (standing_of self.old) (option_copied signal.entry) entry.now
            (standing_of self.new)) }
        ensures err { OnErr result (standing_of self.new ≡ standing_of self.old) }
    {
        match entry {
            Entry::Exit { state, .. } => self.run_made(alloc, class, Item::Exit(*state), store),
            Entry::Effect { transition, .. } => {
                self.run_made(alloc, class, Item::Effect(*transition), store)
            }
            Entry::Enter { state, .. } => self.run_made(alloc, class, Item::Enter(*state), store),
            Entry::DoStep { state, step, .. } => {
                self.step_on_made(alloc, class, *state, *step, store)
            }
            Entry::Post { .. }
            | Entry::Start { .. }
            | Entry::Take { .. }
            | Entry::Done { .. }
            | Entry::Opened { .. }
            | Entry::Pick { .. } => self.apply(alloc, class, entry, signal),
        }
    }

    // Makes the plan that of the start.
    #[inline(never)]
    fn start(&mut self, alloc: Global, machine: &Machine) -> Result<(), NoMemory>
        requires rules { KeepsModelRules machine.now }
        ensures ok { OnOk result (Begins machine.now (standing_of self.old) (standing_of self.new)) }
        ensures err { OnErr result (standing_of self.new ≡ standing_of self.old) }
    {
        self.plan = Some(Plan::of_start(alloc, machine)?);
        Ok(())
    }

    // Takes the signal, and begins the step of what it fires.
    #[inline(always)]
    fn take(
        &mut self,
        alloc: Global,
        machine: &Machine,
        firing: &Firing,
        signal: Option<&Waiting>,
    ) -> Result<(), NoMemory>
        requires rules { KeepsModelRules machine.now }
        requires fits { Fits machine.now self.old.config }
        requires eight { length self.old.params ≡ 8 }
        requires can { CanTake machine.now firing.now.routes (option_copied signal) }
        ensures ok { OnOk result (Takes machine.now (standing_of self.old) firing.now.routes (option_copied signal.entry)
            (standing_of self.new)) }
        ensures err { OnErr result (standing_of self.new ≡ standing_of self.old) }
    {
        let Some(waiting) = signal else {
            unreachable!();
        };
        fire(&mut self.plan, alloc, machine, &self.config, firing)?;
        renew_params(&mut self.params, alloc, &waiting.args);
        Ok(())
    }

    // Dispatches the completion of the first State of the queue, and begins the step of what it fires.
    #[inline(never)]
    fn dispatch(
        &mut self,
        alloc: Global,
        machine: &Machine,
        state: VertexId,
        firing: &Firing,
    ) -> Result<(), NoMemory>
        requires rules { KeepsModelRules machine.now }
        requires fits { Fits machine.now self.old.config }
        requires room { QueueFits machine.now self.old.queue }
        requires eight { length self.old.params ≡ 8 }
        requires routes { AreStateRoutes machine.now firing.now.routes }
        ensures ok { OnOk result (Dispatches machine.now (standing_of self.old) state firing.now.routes
            (standing_of self.new)) }
        ensures err { OnErr result (standing_of self.new ≡ standing_of self.old) }
    {
        fire(&mut self.plan, alloc, machine, &self.config, firing)?;
        clear_params(&mut self.params, alloc);
        self.queue.remove(state);
        Ok(())
    }

    // Runs a ready exit, effect or entry with its behaviour.
    #[inline(always)]
    fn do_work(&mut self, alloc: Global, class: &Class, item: Item) -> Result<(), NoMemory>
        requires class { IsWellFormedClass class.now }
        requires fits { Fits class.now.machine self.old.config }
        requires room { QueueFits class.now.machine self.old.queue }
        requires can { CanRunHere class.now.machine self.old.plan self.old.config item How.Nothing }
        ensures ok { OnOk result (WorksHere class.now (standing_of self.old) item (standing_of self.new)) }
        ensures err { OnErr result (standing_of self.new ≡ standing_of self.old) }
    {
        match stated_act(class, item) {
            None => self.run(alloc, &class.machine, item, &How::Nothing),
            Some(act) => self.do_act(alloc, class, item, act),
        }
    }

    // Runs a ready exit, effect or entry with this behaviour, which is its own.
    #[inline(never)]
    #[tactic(auto, using(crate::proofs::Behaving::item_leaves))]
    fn do_act(
        &mut self,
        alloc: Global,
        class: &Class,
        item: Item,
        act: &Act,
    ) -> Result<(), NoMemory>
        requires class { IsWellFormedClass class.now }
        requires fits { Fits class.now.machine self.old.config }
        requires room { QueueFits class.now.machine self.old.queue }
        requires can { CanRunHere class.now.machine self.old.plan self.old.config item How.Nothing }
        requires own { Some act.now ≡ act_for class.now item }
        ensures ok { OnOk result (WorksHere class.now (standing_of self.old) item (standing_of self.new)) }
        ensures err { OnErr result (standing_of self.new ≡ standing_of self.old) }
    {
        self.run(alloc, &class.machine, item, &How::Nothing)?;
        change_store(act, self.store.as_mut_slice(), &self.params);
        Ok(())
    }

    // Runs a ready exit, effect or entry, whose behaviour was run and left the variables these values.
    fn run_made(
        &mut self,
        alloc: Global,
        class: &Class,
        item: Item,
        store: &[i64],
    ) -> Result<(), NoMemory>
        requires class { IsWellFormedClass class.now }
        requires fits { Fits class.now.machine self.old.config }
        requires room { QueueFits class.now.machine self.old.queue }
        requires can { CanRunHere class.now.machine self.old.plan self.old.config item How.Nothing }
        requires made { store.now ≡ (outcome_for class.now (standing_of self.old) item).store }
        ensures ok { OnOk result (WorksHere class.now (standing_of self.old) item (standing_of self.new)) }
        ensures err { OnErr result (standing_of self.new ≡ standing_of self.old) }
    {
        let store = store.to_vec(alloc)?;
        self.run(alloc, &class.machine, item, &How::Nothing)?;
        self.store = store;
        Ok(())
    }

    // Runs a ready pick by this route.
    #[inline(never)]
    fn pick(
        &mut self,
        alloc: Global,
        machine: &Machine,
        choice: VertexId,
        route: &Route,
    ) -> Result<(), NoMemory>
        requires rules { KeepsModelRules machine.now }
        requires fits { Fits machine.now self.old.config }
        requires room { QueueFits machine.now self.old.queue }
        requires can { CanRunHere machine.now self.old.plan self.old.config (Item.Pick choice) (How.By route.now) }
        ensures ok { OnOk result (RunsHere machine.now (standing_of self.old) (Item.Pick choice) (How.By route.now)
            self.old.store.items (standing_of self.new)) }
        ensures err { OnErr result (standing_of self.new ≡ standing_of self.old) }
    {
        let how = How::By(route.duplicate(alloc)?);
        self.run_way(alloc, machine, Item::Pick(choice), &how)
    }

    // Runs a ready opening or pick in one of its ways, and changes the configuration as it does.
    #[inline(never)]
    fn run_way(
        &mut self,
        alloc: Global,
        machine: &Machine,
        item: Item,
        how: &How,
    ) -> Result<(), NoMemory>
        requires rules { KeepsModelRules machine.now }
        requires fits { Fits machine.now self.old.config }
        requires room { QueueFits machine.now self.old.queue }
        requires can { CanRunHere machine.now self.old.plan self.old.config item how.now }
        ensures ok { OnOk result (RunsHere machine.now (standing_of self.old) item how.now self.old.store.items
            (standing_of self.new)) }
        ensures err { OnErr result (standing_of self.new ≡ standing_of self.old) }
    {
        self.run(alloc, machine, item, how)
    }

    // Runs a ready item in one of its ways, and changes the configuration as it does.
    #[inline(always)]
    fn run(
        &mut self,
        alloc: Global,
        machine: &Machine,
        item: Item,
        how: &How,
    ) -> Result<(), NoMemory>
        requires rules { KeepsModelRules machine.now }
        requires fits { Fits machine.now self.old.config }
        requires room { QueueFits machine.now self.old.queue }
        requires can { CanRunHere machine.now self.old.plan self.old.config item how.now }
        ensures ok { OnOk result (RunsHere machine.now (standing_of self.old) item how.now self.old.store.items
            (standing_of self.new)) }
        ensures err { OnErr result (standing_of self.new ≡ standing_of self.old) }
    {
        run_item(&mut self.plan, alloc, machine, item, how)?;
        self.settle(machine, item, how);
        Ok(())
    }

    // Changes the configuration as the item does that runs in this way, and brings on the queue and the end.
    #[inline(always)]
    fn settle(&mut self, machine: &Machine, item: Item, how: &How)
        requires rules { KeepsModelRules machine.now }
        requires fits { Fits machine.now self.old.config }
        requires room { QueueFits machine.now self.old.queue }
        requires can { CanChange machine.now (configuration_of self.old.config) item }
        requires place { HasPlace machine.now item }
        ensures settled { Settles machine.now (standing_of self.old) item how.now (standing_of self.new) }
        ensures plan { self.new.plan ≡ self.old.plan }
    {
        let due = due_by(machine, &self.config, item, how);
        change(&mut self.config, machine, item, how);
        self.queue.settle_by(machine, &self.config, item, due);
        self.ended = ends_by(machine, &self.config, item);
    }

    // Does the next do step of an active State with its behaviour, and brings on the queue.
    #[inline(never)]
    fn step_on(
        &mut self,
        alloc: Global,
        class: &Class,
        state: VertexId,
        step: u16,
    ) -> Result<(), NoMemory>
        requires class { IsWellFormedClass class.now }
        requires fits { Fits class.now.machine self.old.config }
        requires room { QueueFits class.now.machine self.old.queue }
        requires next { IsNextHere class.now.machine self.old.config state step }
        ensures ok { OnOk result (StepsHere class.now (standing_of self.old) state step (standing_of self.new)) }
        ensures err { OnErr result (standing_of self.new ≡ standing_of self.old) }
    {
        let due = due_of(&class.machine, &self.config, None, Some(state));
        self.do_step(alloc, class, state, step)?;
        self.queue.settle(&class.machine, &self.config, None, due);
        Ok(())
    }

    // The same where the behaviour was run elsewhere and left the variables these values.
    fn step_on_made(
        &mut self,
        alloc: Global,
        class: &Class,
        state: VertexId,
        step: u16,
        store: &[i64],
    ) -> Result<(), NoMemory>
        requires class { IsWellFormedClass class.now }
        requires fits { Fits class.now.machine self.old.config }
        requires room { QueueFits class.now.machine self.old.queue }
        requires next { IsNextHere class.now.machine self.old.config state step }
        requires made { store.now ≡ (step_outcome class.now (standing_of self.old) state step).store }
        ensures ok { OnOk result (StepsHere class.now (standing_of self.old) state step (standing_of self.new)) }
        ensures err { OnErr result (standing_of self.new ≡ standing_of self.old) }
    {
        let due = due_of(&class.machine, &self.config, None, Some(state));
        self.do_step_made(alloc, class, state, step, store)?;
        self.queue.settle(&class.machine, &self.config, None, due);
        Ok(())
    }
}

// Makes the plan that of the routes that fire in this configuration.
#[inline(always)]
fn fire(
    plan: &mut Option<Plan>,
    alloc: Global,
    machine: &Machine,
    config: &Config,
    firing: &Firing,
) -> Result<(), NoMemory>
    requires rules { KeepsModelRules machine.now }
    requires fits { Fits machine.now config.now }
    requires routes { AreStateRoutes machine.now firing.now.routes }
    ensures ok { OnOk result (HasFired machine.now config.now firing.now.routes plan.new) }
    ensures err { OnErr result (plan.new ≡ plan.old) }
{
    match plan {
        Some(plan) => plan.fire(alloc, machine, config, firing),
        None => fire_first(plan, alloc, machine, config, firing),
    }
}

// The same where there is no plan to take over the room of.
#[inline(never)]
fn fire_first(
    plan: &mut Option<Plan>,
    alloc: Global,
    machine: &Machine,
    config: &Config,
    firing: &Firing,
) -> Result<(), NoMemory>
    requires rules { KeepsModelRules machine.now }
    requires fits { Fits machine.now config.now }
    requires routes { AreStateRoutes machine.now firing.now.routes }
    ensures ok { OnOk result (HasFired machine.now config.now firing.now.routes plan.new) }
    ensures err { OnErr result (plan.new ≡ plan.old) }
{
    *plan = Some(Plan::of_firing(alloc, machine, config, firing)?);
    Ok(())
}

// Runs a ready item of the plan in one of its ways.
#[inline(always)]
fn run_item(
    plan: &mut Option<Plan>,
    alloc: Global,
    machine: &Machine,
    item: Item,
    how: &How,
) -> Result<(), NoMemory>
    requires rules { KeepsModelRules machine.now }
    requires can { CanRun machine.now plan.old item how.now }
    ensures ok { OnOk result (HasRunOn machine.now plan.old item how.now plan.new) }
    ensures err { OnErr result (plan.new ≡ plan.old) }
{
    match plan {
        Some(plan) => plan.run(alloc, machine, item, how),
        None => unreachable!(),
    }
}

// Changes the configuration as the item does that runs in this way.
#[inline(always)]
fn change(config: &mut Config, machine: &Machine, item: Item, how: &How)
    requires fits { Fits machine.now config.old }
    requires can { CanChange machine.now (configuration_of config.old) item }
    ensures fits { Fits machine.now config.new }
    ensures changed { Agree (configuration_of config.new)
        (changed_by_item machine.now (configuration_of config.old) item how.now) }
{
    match item {
        Item::Exit(state) => config.exit(machine, state),
        Item::Enter(state) => config.enter(machine, state),
        Item::Opened(region, _) => match how {
            How::Nothing => config.opened_none(region),
            How::By(_) | How::Restore(_) => config.opened_way(region),
        },
        Item::Effect(_) | Item::Pick(_) => {}
    }
}
