//! The ready tasks of an object.
ghost use Rattle.std.specs.Prelude.{◌≡◌, ◌≤◌, ◌<◌, ◌+◌, ◌↔◌, length, slice_get, Some, IsTrue, IfOk, IfErr, IfSome, if◌then◌else◌, is_some};
ghost use Rattle.pssm_model.specs.declared.elements.DraftMachine.{DraftMachine};
ghost use Rattle.pssm_model.specs.Order.{IsReady};
ghost use Rattle.pssm_config.specs.Tables.{Fits};
ghost use Rattle.pssm_object.specs.Doing.{do_tasks, AreDoersBelow};
ghost use Rattle.pssm_object.specs.Tasks.{task_of as task_by, tasks_of_plan, ready_tasks};
ghost use Rattle.pssm_plan.specs.Agenda.{course_of};
ghost use Rattle.pssm_plan.specs.Plans.{IsPlanOf};
ghost use Rattle.pssm_object.specs.inner.Situations.{standing_of};
ghost use Rattle.pssm_object.specs.inner.Choosing.{HasNothingLeft, IsStill};
ghost use Rattle.pssm_object.specs.inner.Judging.{IsReadyIn, IsWorkReady, IsTaskReady};

use crate::doing::{count_do_tasks, find_do_task, is_next_there, nth_do_task};
use crate::situation::Situation;
use pssm_model::{Item, Machine};
use pssm_plan::{Plan, Standing};
use pssm_semantics::Task;

impl Situation {
    /// How many tasks of the object are ready.
    pub fn count_tasks(&self, machine: &Machine) -> u32
        requires fits { Fits machine.now self.now.config }
        requires doers { AreDoersBelow machine.now self.now.doers }
        requires few { length (ready_tasks machine.now (standing_of self.now)) < 4294967296 }
        ensures { result ≡ length (ready_tasks machine.now (standing_of self.now)) }
    {
        if self.ended {
            0
        } else {
            self.count_all(machine)
        }
    }

    // How many tasks of its step and do steps are ready.
    fn count_all(&self, machine: &Machine) -> u32
        requires fits { Fits machine.now self.now.config }
        requires doers { AreDoersBelow machine.now self.now.doers }
        requires few { length (tasks_of_plan self.now.plan) + length (do_tasks machine.now self.now.config) < 4294967296 }
        ensures { result ≡ length (tasks_of_plan self.now.plan) + length (do_tasks machine.now self.now.config) }
    {
        self.count_in_step() + count_do_tasks(machine, &self.config, self.doers)
    }

    // How many tasks of its step are ready.
    fn count_in_step(&self) -> u32
        ensures { result ≡ length (tasks_of_plan self.now.plan) }
    {
        match &self.plan {
            Some(plan) => count_tasks(plan),
            None => 0,
        }
    }

    /// The ready task with a number.
    pub fn nth_task(&self, machine: &Machine, i: u32) -> Task
        requires fits { Fits machine.now self.now.config }
        requires there { i < length (ready_tasks machine.now (standing_of self.now)) }
        ensures { slice_get (ready_tasks machine.now (standing_of self.now)) i ≡ Some result }
    {
        match self.nth_in_step(i) {
            Ok(task) => task,
            Err(rest) => nth_do_task(machine, &self.config, rest),
        }
    }

    /// The ready task with a number, if there are as many.
    pub fn find_task(&self, machine: &Machine, i: u32) -> Option<Task>
        requires fits { Fits machine.now self.now.config }
        requires doers { AreDoersBelow machine.now self.now.doers }
        ensures { result ≡ slice_get (ready_tasks machine.now (standing_of self.now)) i }
    {
        if self.ended {
            return None;
        }
        match self.nth_in_step(i) {
            Ok(task) => Some(task),
            Err(rest) => find_do_task(machine, &self.config, self.doers, rest),
        }
    }

    // The ready task of its step with a number; where the number is past them, by how much it is past the first place
    // behind them.
    fn nth_in_step(&self, i: u32) -> Result<Task, u32>
        ensures there { IfOk result (λ task. slice_get (tasks_of_plan self.now.plan) i ≡ Some task) }
        ensures past { IfErr result (λ rest. length (tasks_of_plan self.now.plan) + rest ≡ i) }
    {
        match &self.plan {
            Some(plan) => nth_task(plan, i),
            None => Err(i),
        }
    }

    /// Whether a task is ready.
    pub fn is_ready(&self, machine: &Machine, task: Task) -> bool
        requires fits { Fits machine.now self.now.config }
        requires plan { IfSome self.now.plan (IsPlanOf machine.now) }
        ensures { IsTrue result ↔ IsTaskReady machine.now (standing_of self.now) task }
    {
        !self.ended && self.is_work_ready(machine, task)
    }

    // Whether the work of a task is ready.
    fn is_work_ready(&self, machine: &Machine, task: Task) -> bool
        requires fits { Fits machine.now self.now.config }
        requires plan { IfSome self.now.plan (IsPlanOf machine.now) }
        ensures { IsTrue result ↔ IsWorkReady machine.now (standing_of self.now) task }
    {
        match task {
            Task::Exit(state) => self.is_item_ready(Item::Exit(state)),
            Task::Effect(transition) => self.is_item_ready(Item::Effect(transition)),
            Task::Enter(state) => self.is_item_ready(Item::Enter(state)),
            Task::DoStep(state, step) => is_next_there(machine, &self.config, state, step),
        }
    }

    // Whether an item of its step is ready.
    fn is_item_ready(&self, item: Item) -> bool
        ensures { (m : DraftMachine) → IfSome self.now.plan (IsPlanOf m)
            → (IsTrue result ↔ IsReadyIn m self.now.plan item) }
    {
        match &self.plan {
            Some(plan) => is_ready(plan, item),
            None => false,
        }
    }

    /// Whether no entry of the object but a post may come next.
    pub fn is_quiet(&self, machine: &Machine, waiting: bool) -> bool
        requires fits { Fits machine.now self.now.config }
        requires doers { AreDoersBelow machine.now self.now.doers }
        requires plan { IfSome self.now.plan (IsPlanOf machine.now) }
        ensures { IsTrue result ↔ IsStill machine.now (standing_of self.now) waiting }
    {
        self.ended || (!waiting && self.has_nothing_left(machine))
    }

    // Whether its step is finished, no completion waits and no do step is left.
    fn has_nothing_left(&self, machine: &Machine) -> bool
        requires fits { Fits machine.now self.now.config }
        requires doers { AreDoersBelow machine.now self.now.doers }
        requires plan { IfSome self.now.plan (IsPlanOf machine.now) }
        ensures { IsTrue result ↔ HasNothingLeft machine.now (standing_of self.now) }
    {
        self.is_at_rest()
            && self.queue.first().is_none()
            && count_do_tasks(machine, &self.config, self.doers) == 0
    }
}

// The task that an item is, if it is one.
fn task_of(item: Item) -> Option<Task>
    ensures { result ≡ task_by item }
{
    match item {
        Item::Exit(state) => Some(Task::Exit(state)),
        Item::Effect(transition) => Some(Task::Effect(transition)),
        Item::Enter(state) => Some(Task::Enter(state)),
        Item::Opened(_, _) | Item::Pick(_) => None,
    }
}

// Whether an item of the plan is ready.
fn is_ready(plan: &Plan, item: Item) -> bool
    ensures { (m : DraftMachine) → IsPlanOf m plan.now → (IsTrue result ↔ IsReady m (course_of plan.now) item) }
{
    match plan.standing(item) {
        Standing::Ready => true,
        Standing::NotCalled | Standing::Ran => false,
        Standing::Waits { .. } => false,
    }
}

// How many of the ready items are tasks.
fn count_tasks(plan: &Plan) -> u32
    ensures { result ≡ length (tasks_of_plan (Some plan.now)) }
{
    let mut count = 0;
    let mut place = 0;
    while let Some(next) = plan.ready_from(place) {
        if task_of(next.item).is_some() {
            count += 1;
        }
        place = next.behind;
    }
    count
}

// The ready task of the plan with a number; where the number is past them, by how much it is past the first place behind
// them.
fn nth_task(plan: &Plan, i: u32) -> Result<Task, u32>
    ensures there { IfOk result (λ task. slice_get (tasks_of_plan (Some plan.now)) i ≡ Some task) }
    ensures past { IfErr result (λ rest. length (tasks_of_plan (Some plan.now)) + rest ≡ i) }
{
    let mut rest = i;
    let mut place = 0;
    while let Some(next) = plan.ready_from(place) {
        if let Some(task) = task_of(next.item) {
            if rest == 0 {
                return Ok(task);
            }
            rest -= 1;
        }
        place = next.behind;
    }
    Err(rest)
}
