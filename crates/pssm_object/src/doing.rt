//! Do steps: which one is next, what it makes, and the tasks to do them.
ghost use Rattle.std.specs.Prelude.{◌≡◌, ◌↔◌, ◌<◌, ℕ, length, slice_get, Option, Some, IsTrue, IfOk, IfSome, IfNone, OnOk, OnErr};
ghost use Rattle.std.specs.Option.{option_copied};
ghost use Rattle.pssm_model.specs.Configuration.{IsNextDoStep, do_steps_of};
ghost use Rattle.pssm_model.specs.Changes.{Agree, did_step};
ghost use Rattle.pssm_config.specs.Tables.{Fits, configuration_of};
ghost use Rattle.pssm_semantics.specs.Classes.{IsWellFormedClass};
ghost use Rattle.pssm_semantics.specs.Arguments.{ActArgsFit};
ghost use Rattle.pssm_semantics.specs.Values.{no_params};
ghost use Rattle.pssm_object.specs.Doing.{next_do_step, do_task_of, do_tasks, AreDoersBelow};
ghost use Rattle.pssm_object.specs.inner.Situations.{standing_of};
ghost use Rattle.pssm_object.specs.inner.Doing.{step_act as act_of_step, step_outcome, MakesInStep, MakesInStepBy, IsIdleStep, IsNextHere, JudgesDoStep, DoesStep};

use crate::situation::Situation;
use pssm_config::Config;
use pssm_model::{Machine, Row, VertexId};
use pssm_semantics::{Act, Args, Class, Out, Outcome, Rule, Task, change_store, makes, outcome};
use std::alloc::{AllocError as NoMemory, Global};

/// The next do step of a State, if it is active and has one left (UML 2.5.1, 14.2.3.4).
pub fn next_step(machine: &Machine, config: &Config, s: VertexId) -> Option<u16>
    requires fits { Fits machine.now config.now }
    requires vertex { s.0 < length machine.now.vertices }
    ensures listed { result ≡ next_do_step machine.now config.now s }
    ensures next { (k : ℕ) → (result ≡ Some k) ↔ IsNextDoStep machine.now (configuration_of config.now) s k }
{
    let done = config.steps_done(s);
    if config.is_active(s) && usize::from(done) < count_steps(machine, s) {
        Some(done)
    } else {
        None
    }
}

// How many do steps a vertex has.
fn count_steps(machine: &Machine, s: VertexId) -> usize
    requires { s.0 < length machine.now.vertices }
    ensures { result ≡ do_steps_of machine.now s }
{
    machine.vertex(s).steps.as_slice().len()
}

// Whether a do step is the next one of its State.
fn is_next(machine: &Machine, config: &Config, s: VertexId, step: u16) -> bool
    requires fits { Fits machine.now config.now }
    requires vertex { s.0 < length machine.now.vertices }
    ensures { IsTrue result ↔ IsNextHere machine.now config.now s step }
{
    match next_step(machine, config, s) {
        Some(next) => next == step,
        None => false,
    }
}

/// Whether a do step is the next one of a vertex; no step of one that the machine does not have is.
pub fn is_next_there(machine: &Machine, config: &Config, s: VertexId, step: u16) -> bool
    requires { Fits machine.now config.now }
    ensures { IsTrue result ↔ IsNextHere machine.now config.now s step }
{
    s.0 < machine.vertices() && is_next(machine, config, s, step)
}

// The task to do the next do step of a vertex, if it has one.
fn task_of_vertex(machine: &Machine, config: &Config, s: VertexId) -> Option<Task>
    requires fits { Fits machine.now config.now }
    requires vertex { s.0 < length machine.now.vertices }
    ensures { result ≡ do_task_of machine.now config.now s }
{
    match next_step(machine, config, s) {
        Some(step) => Some(Task::DoStep(s, step)),
        None => None,
    }
}

/// A number below which all vertices with do steps are: 0 where there are none.
pub fn doers_of(machine: &Machine) -> u16
    ensures { AreDoersBelow machine.now result }
{
    let mut doers = 0;
    for v in 0..machine.vertices() {
        if count_steps(machine, VertexId(v)) > 0 {
            doers = v + 1;
        }
    }
    doers
}

/// How many do tasks are ready; only vertices below the number are looked at.
pub fn count_do_tasks(machine: &Machine, config: &Config, doers: u16) -> u32
    requires fits { Fits machine.now config.now }
    requires doers { AreDoersBelow machine.now doers }
    ensures { result ≡ length (do_tasks machine.now config.now) }
{
    let mut count = 0;
    for v in 0..doers {
        if task_of_vertex(machine, config, VertexId(v)).is_some() {
            count += 1;
        }
    }
    count
}

/// The ready do task with a number; those of the first States come first.
pub fn nth_do_task(machine: &Machine, config: &Config, i: u32) -> Task
    requires fits { Fits machine.now config.now }
    requires there { i < length (do_tasks machine.now config.now) }
    ensures { slice_get (do_tasks machine.now config.now) i ≡ Some result }
{
    let mut rest = i;
    for v in 0..machine.vertices() {
        if let Some(task) = task_of_vertex(machine, config, VertexId(v)) {
            if rest == 0 {
                return task;
            }
            rest -= 1;
        }
    }
    unreachable!()
}

/// The ready do task with a number, if there are as many; only vertices below the number of doers are looked at.
pub fn find_do_task(machine: &Machine, config: &Config, doers: u16, i: u32) -> Option<Task>
    requires fits { Fits machine.now config.now }
    requires doers { AreDoersBelow machine.now doers }
    ensures { result ≡ slice_get (do_tasks machine.now config.now) i }
{
    let mut rest = i;
    for v in 0..doers {
        if let Some(task) = task_of_vertex(machine, config, VertexId(v)) {
            if rest == 0 {
                return Some(task);
            }
            rest -= 1;
        }
    }
    None
}

// The behaviour of a do step, if there is one.
fn step_act(class: &Class, s: VertexId, step: u16) -> Option<&Act>
    requires { s.0 < length class.now.machine.vertices }
    ensures { option_copied result ≡ act_of_step class.now s step }
{
    match class
        .machine
        .vertex(s)
        .steps
        .as_slice()
        .get(usize::from(step))
    {
        Some(act) => class.program.acts.as_slice().get(usize::from(act.0)),
        None => None,
    }
}

// The behaviour of a do step, if it has one with a statement; what has none makes nothing.
fn stated_step(class: &Class, s: VertexId, step: u16) -> Option<&Act>
    requires class { IsWellFormedClass class.now }
    requires vertex { s.0 < length class.now.machine.vertices }
    ensures some { IfSome result (λ act. Some act.now ≡ act_of_step class.now s step) }
    ensures fits { IfSome result (λ act. ActArgsFit act.now) }
    ensures none { IfNone result (IsIdleStep class.now s step) }
{
    match step_act(class, s, step) {
        Some(act) if !act.stmts.as_slice().is_empty() => Some(act),
        _ => None,
    }
}

// Eight zeros, the parameters of a do step.
fn zeros(alloc: Global) -> Result<Args, NoMemory>
    ensures { IfOk result (λ params. params ≡ no_params) }
{
    Ok(Args::from_vec(vec![in alloc; 0; 8]?))
}

// Counts the next do step of a State as done.
fn count_step(config: &mut Config, class: &Class, s: VertexId, step: u16)
    requires class { IsWellFormedClass class.now }
    requires fits { Fits class.now.machine config.old }
    requires next { IsNextHere class.now.machine config.old s step }
    ensures fits { Fits class.now.machine config.new }
    ensures did { Agree (configuration_of config.new) (did_step (configuration_of config.old) s step) }
{
    config.do_step(s);
}

impl Situation {
    /// The verdict on a do step of a State with its outputs, where the object has started and has not ended.
    pub fn judge_step(
        &self,
        alloc: Global,
        class: &Class,
        s: VertexId,
        step: u16,
        outs: &Row<Out>,
    ) -> Result<Option<Rule>, NoMemory>
        requires class { IsWellFormedClass class.now }
        requires fits { Fits class.now.machine self.now.config }
        requires vertex { s.0 < length class.now.machine.vertices }
        ensures { IfOk result (JudgesDoStep class.now (standing_of self.now) s step outs.now) }
    {
        if !is_next(&class.machine, &self.config, s, step) {
            return Ok(Some(Rule::A11));
        }
        if self.makes_in_step(alloc, class, s, step, outs)? {
            Ok(None)
        } else {
            Ok(Some(Rule::A12))
        }
    }

    // Whether these are the outputs of the do step.
    fn makes_in_step(
        &self,
        alloc: Global,
        class: &Class,
        s: VertexId,
        step: u16,
        outs: &Row<Out>,
    ) -> Result<bool, NoMemory>
        requires class { IsWellFormedClass class.now }
        requires vertex { s.0 < length class.now.machine.vertices }
        ensures { IfOk result (λ same. IsTrue same ↔ MakesInStep class.now (standing_of self.now) s step outs.now) }
    {
        match stated_step(class, s, step) {
            None => Ok(outs.as_slice().is_empty()),
            Some(act) => self.makes_in_step_by(alloc, act, outs),
        }
    }

    // Whether these are the outputs of the behaviour in a do step.
    #[inline(never)]
    fn makes_in_step_by(&self, alloc: Global, act: &Act, outs: &Row<Out>) -> Result<bool, NoMemory>
        requires { ActArgsFit act.now }
        ensures { IfOk result (λ same. IsTrue same ↔ MakesInStepBy act.now (standing_of self.now) outs.now) }
    {
        let params = zeros(alloc)?;
        let store = self.store.as_slice();
        makes(alloc, self.own, act, store, &params, outs.as_slice())
    }

    /// The outputs of a do step.
    pub fn step_outputs(
        &self,
        alloc: Global,
        class: &Class,
        s: VertexId,
        step: u16,
    ) -> Result<Row<Out>, NoMemory>
        requires class { IsWellFormedClass class.now }
        requires vertex { s.0 < length class.now.machine.vertices }
        ensures { IfOk result (MakesInStep class.now (standing_of self.now) s step) }
    {
        match stated_step(class, s, step) {
            Some(act) => self.step_outputs_of(alloc, act),
            None => Ok(Row::from_vec(Vec::new(alloc))),
        }
    }

    // The outputs of the behaviour in a do step.
    fn step_outputs_of(&self, alloc: Global, act: &Act) -> Result<Row<Out>, NoMemory>
        requires { ActArgsFit act.now }
        ensures { IfOk result (MakesInStepBy act.now (standing_of self.now)) }
    {
        let params = zeros(alloc)?;
        let store = self.store.as_slice();
        let Outcome { store: _, outs } = outcome(alloc, self.own, act, store, &params)?;
        Ok(outs)
    }

    /// Does the next do step of a State: it counts as done, and its behaviour changes the variables.
    ///
    /// On want of memory nothing has changed.
    #[tactic(auto, using(crate::proofs::DoingBehaviours::step_leaves))]
    pub fn do_step(
        &mut self,
        alloc: Global,
        class: &Class,
        s: VertexId,
        step: u16,
    ) -> Result<(), NoMemory>
        requires class { IsWellFormedClass class.now }
        requires fits { Fits class.now.machine self.old.config }
        requires next { IsNextHere class.now.machine self.old.config s step }
        ensures ok { OnOk result (DoesStep class.now (standing_of self.old) s step (standing_of self.new)) }
        ensures err { OnErr result (standing_of self.new ≡ standing_of self.old) }
    {
        match stated_step(class, s, step) {
            None => {
                count_step(&mut self.config, class, s, step);
                Ok(())
            }
            Some(act) => {
                let params = zeros(alloc)?;
                count_step(&mut self.config, class, s, step);
                change_store(act, self.store.as_mut_slice(), &params);
                Ok(())
            }
        }
    }

    /// Does the next do step of a State, whose behaviour was run elsewhere and left the variables these values.
    ///
    /// On want of memory nothing has changed.
    pub fn do_step_made(
        &mut self,
        alloc: Global,
        class: &Class,
        s: VertexId,
        step: u16,
        store: &[i64],
    ) -> Result<(), NoMemory>
        requires class { IsWellFormedClass class.now }
        requires fits { Fits class.now.machine self.old.config }
        requires next { IsNextHere class.now.machine self.old.config s step }
        requires made { store.now ≡ (step_outcome class.now (standing_of self.old) s step).store }
        ensures ok { OnOk result (DoesStep class.now (standing_of self.old) s step (standing_of self.new)) }
        ensures err { OnErr result (standing_of self.new ≡ standing_of self.old) }
    {
        let store = store.to_vec(alloc)?;
        count_step(&mut self.config, class, s, step);
        self.store = store;
        Ok(())
    }
}
