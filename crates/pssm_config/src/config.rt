//! `Config`: the configuration of a machine, in tables by number.
ghost use Rattle.std.specs.Prelude.{◌≡◌, ◌≢◌, ◌↔◌, ◌<◌, ℕ, length, All, slice_index, slice_index_or, Contains, Some, false, IsTrue, IfOk, None, replicate};
ghost use Rattle.pssm_model.specs.declared.ids.VertexId.{VertexId};
ghost use Rattle.pssm_model.specs.declared.ids.RegionId.{RegionId};
ghost use Rattle.pssm_model.specs.declared.elements.Owner.{Owner};
ghost use Rattle.pssm_model.specs.declared.elements.DraftMachine.{DraftMachine};
ghost use Rattle.pssm_model.specs.Forest.{owner_of, HasKind, IsStateOrFinal};
ghost use Rattle.pssm_model.specs.Shapes.{HasShape};
ghost use Rattle.pssm_model.specs.Configuration.{IsDirect, IsFinished, IsComplete, IsNextDoStep, do_steps_of};
ghost use Rattle.pssm_model.specs.Changes.{Agree, nothing_yet, entered, exited, opened_none as left_empty, opened_way as not_left_empty, did_step};
ghost use Rattle.pssm_config.specs.Tables.{Fits, CanEnter, configuration_of};
ghost use Rattle.pssm_config.specs.inner.Clearing.{AreCleared};
ghost use Rattle.pssm_config.specs.inner.Finishing.{IsDone};

use pssm_model::{Machine, Owner, RegionId, VertexId, VertexKind};
use std::alloc::{AllocError as NoMemory, Global};
use std::marker::Model;

/// The configuration of a machine: what is active, remembered, done and left empty (UML 2.5.1, 14.2.3.4).
///
/// A clause sees the tables. `configuration_of` reads the configuration off them, and `Fits` says that they are tables of
/// this machine and agree with one another. No call but `new` and `copy` takes memory.
#[derive(Drop)]
pub struct Config {
    /// By vertex: whether it is active.
    active: Vec<bool>,
    /// By vertex: how many of its do steps are done since it was entered.
    steps: Vec<u16>,
    /// By region: its active direct vertex.
    held: Vec<Option<VertexId>>,
    /// By region: whether its active direct vertex is a final state.
    ended: Vec<bool>,
    /// By region: the direct vertex that was exited last.
    remembered: Vec<Option<VertexId>>,
    /// By region: whether it was left empty.
    empty: Vec<bool>,
}

impl Model for Config {
    ghost use Rattle.pssm_config.specs.Tables.{Tables};

    ghost Value = { Tables };

    ghost view = { λ c. record { active = c.active.items; steps = c.steps.items; held = c.held.items; ended = c.ended.items; remembered = c.remembered.items; empty = c.empty.items } };
}

impl Config {
    /// The configuration of a machine before anything has happened.
    ///
    /// `NoMemory`: memory ran out.
    pub fn new(alloc: Global, machine: &Machine) -> Result<Config, NoMemory>
        ensures fits { IfOk result (λ config. Fits machine.now config) }
        ensures nothing { IfOk result (λ config. Agree (configuration_of config) nothing_yet) }
    {
        let vertices = machine.vertices();
        let regions = machine.regions();
        Ok(Config {
            active: unmarked(alloc, vertices)?,
            steps: zeros(alloc, vertices)?,
            held: unnamed(alloc, regions)?,
            ended: unmarked(alloc, regions)?,
            remembered: unnamed(alloc, regions)?,
            empty: unmarked(alloc, regions)?,
        })
    }

    /// A State or final state is entered, in a region that has no active direct vertex.
    pub fn enter(&mut self, machine: &Machine, s: VertexId)
        requires fits { Fits machine.now self.old }
        requires vacant { CanEnter machine.now (configuration_of self.old) s }
        ensures fits { Fits machine.now self.new }
        ensures entered { Agree (configuration_of self.new) (entered machine.now (configuration_of self.old) s) }
    {
        let home = home_of(machine, s);
        self.active[s.0 as usize] = true;
        self.steps[s.0 as usize] = 0;
        self.held[home.0 as usize] = Some(s);
        self.ended[home.0 as usize] = has_kind(machine, s, VertexKind::Final);
        self.empty[home.0 as usize] = false;
        clear_each(&mut self.empty, machine.regions_of(s));
    }

    /// An active State or final state is exited.
    pub fn exit(&mut self, machine: &Machine, s: VertexId)
        requires fits { Fits machine.now self.old }
        requires active { (configuration_of self.old).Active s }
        ensures fits { Fits machine.now self.new }
        ensures exited { Agree (configuration_of self.new) (exited machine.now (configuration_of self.old) s) }
    {
        let left = home_of(machine, s);
        self.active[s.0 as usize] = false;
        self.held[left.0 as usize] = None;
        self.ended[left.0 as usize] = false;
        self.remembered[left.0 as usize] = Some(s);
        self.empty[left.0 as usize] = false;
    }

    /// A region is opened, and left empty.
    pub fn opened_none(&mut self, r: RegionId)
        requires { r.0 < length self.old.empty }
        ensures fits { (m : DraftMachine) → Fits m self.old → Fits m self.new }
        ensures opened { Agree (configuration_of self.new) (left_empty (configuration_of self.old) r) }
    {
        self.empty[r.0 as usize] = true;
    }

    /// A region is opened by some way.
    pub fn opened_way(&mut self, r: RegionId)
        requires { r.0 < length self.old.empty }
        ensures fits { (m : DraftMachine) → Fits m self.old → Fits m self.new }
        ensures opened { Agree (configuration_of self.new) (not_left_empty (configuration_of self.old) r) }
    {
        self.empty[r.0 as usize] = false;
    }

    /// An active State does the next step of its do-activity.
    ///
    /// At most 65,535 can be counted; a State of a proper machine has at most 64, so there is room for a step that is left.
    pub fn do_step(&mut self, s: VertexId)
        requires active { (configuration_of self.old).Active s }
        requires vertex { s.0 < length self.old.steps }
        requires room { slice_index self.old.steps s.0 < 65535 }
        ensures fits { (m : DraftMachine) (k : ℕ) → Fits m self.old → IsNextDoStep m (configuration_of self.old) s k → Fits m self.new }
        ensures stepped { (m : DraftMachine) (k : ℕ) → Fits m self.old → IsNextDoStep m (configuration_of self.old) s k
            → Agree (configuration_of self.new) (did_step (configuration_of self.old) s k) }
    {
        self.steps[s.0 as usize] += 1;
    }

    /// Whether a vertex is active.
    pub fn is_active(&self, s: VertexId) -> bool
        requires { s.0 < length self.now.active }
        ensures { IsTrue result ↔ (configuration_of self.now).Active s }
    {
        self.active[s.0 as usize]
    }

    /// The active direct vertex of a region; none exactly where there is none.
    pub fn active_in(&self, r: RegionId) -> Option<VertexId>
        requires { r.0 < length self.now.held }
        ensures { (m : DraftMachine) (s : VertexId) → Fits m self.now
            → (result ≡ Some s) ↔ (IsDirect m s r × (configuration_of self.now).Active s) }
    {
        self.held[r.0 as usize]
    }

    /// The direct vertex of a region that was exited last; none exactly where there is none.
    pub fn memory(&self, r: RegionId) -> Option<VertexId>
        requires { r.0 < length self.now.remembered }
        ensures { (s : VertexId) → (result ≡ Some s) ↔ (configuration_of self.now).Remembers r s }
    {
        self.remembered[r.0 as usize]
    }

    /// How many do steps a State has done since it was entered: these are the first ones.
    pub fn steps_done(&self, s: VertexId) -> u16
        requires { s.0 < length self.now.steps }
        ensures { (k : ℕ) → (configuration_of self.now).HasDoneStep s k ↔ (k < result) }
    {
        self.steps[s.0 as usize]
    }

    /// Whether a region is finished: a final state of it is active, or it was left empty (UML 2.5.1, 14.2.3.6 and 14.2.3.8).
    pub fn finished(&self, r: RegionId) -> bool
        requires ended { r.0 < length self.now.ended }
        requires empty { r.0 < length self.now.empty }
        ensures { (m : DraftMachine) → Fits m self.now → IsTrue result ↔ IsFinished m (configuration_of self.now) r }
    {
        self.ended[r.0 as usize] || self.empty[r.0 as usize]
    }

    // Whether all of these regions are finished.
    fn are_finished(&self, regions: &[RegionId]) -> bool
        requires ended { All (λ r. r.0 < length self.now.ended) regions.now }
        requires empty { All (λ r. r.0 < length self.now.empty) regions.now }
        ensures { (m : DraftMachine) → Fits m self.now
            → IsTrue result ↔ ((r : RegionId) → Contains regions.now r → IsFinished m (configuration_of self.now) r) }
    {
        for r in regions {
            if !self.finished(*r) {
                return false;
            }
        }
        true
    }

    // Whether a vertex is an active State that has done its do steps.
    fn has_done_all(&self, machine: &Machine, s: VertexId) -> bool
        requires fits { Fits machine.now self.now }
        requires vertex { s.0 < length machine.now.vertices }
        ensures { IsTrue result ↔ IsDone machine.now self.now s }
    {
        has_kind(machine, s, VertexKind::State)
            && self.is_active(s)
            && count_do_steps(machine, s) <= self.steps[s.0 as usize] as usize
    }

    /// Whether a State is complete: it is active, its do steps are done and its regions are finished (UML 2.5.1, 14.2.3.8).
    pub fn complete(&self, machine: &Machine, s: VertexId) -> bool
        requires fits { Fits machine.now self.now }
        requires vertex { s.0 < length machine.now.vertices }
        ensures { IsTrue result ↔ IsComplete machine.now (configuration_of self.now) s }
    {
        self.has_done_all(machine, s) && self.are_finished(machine.regions_of(s))
    }

    /// A second configuration, equal to this one.
    ///
    /// `NoMemory`: memory ran out; nothing has changed.
    pub fn copy(&self, alloc: Global) -> Result<Config, NoMemory>
        ensures { IfOk result (λ other. other ≡ self.now) }
    {
        Ok(Config {
            active: self.active.as_slice().to_vec(alloc)?,
            steps: self.steps.as_slice().to_vec(alloc)?,
            held: self.held.as_slice().to_vec(alloc)?,
            ended: self.ended.as_slice().to_vec(alloc)?,
            remembered: self.remembered.as_slice().to_vec(alloc)?,
            empty: self.empty.as_slice().to_vec(alloc)?,
        })
    }
}

// So many places without a mark.
fn unmarked(alloc: Global, count: u16) -> Result<Vec<bool>, NoMemory>
    ensures { IfOk result (λ marks. marks.items ≡ replicate count false) }
{
    vec![in alloc; false; count as usize]
}

// So many places with no vertex.
fn unnamed(alloc: Global, count: u16) -> Result<Vec<Option<VertexId>>, NoMemory>
    ensures { IfOk result (λ names. names.items ≡ replicate count None) }
{
    vec![in alloc; None; count as usize]
}

// So many times 0.
fn zeros(alloc: Global, count: u16) -> Result<Vec<u16>, NoMemory>
    ensures { IfOk result (λ numbers. numbers.items ≡ replicate count 0) }
{
    vec![in alloc; 0; count as usize]
}

// The region that a State or final state lies in directly.
fn home_of(machine: &Machine, s: VertexId) -> RegionId
    requires shape { HasShape machine.now }
    requires state { IsStateOrFinal machine.now s }
    ensures owner { owner_of machine.now (Owner.State s) ≡ Some (Owner.Region result) }
    ensures within { result.0 < length machine.now.regions }
{
    match machine.vertex(s).owner {
        Owner::Region(r) => r,
        _ => unreachable!(),
    }
}

// Whether a vertex is of the kind.
fn has_kind(machine: &Machine, s: VertexId, kind: VertexKind) -> bool
    requires { s.0 < length machine.now.vertices }
    ensures { IsTrue result ↔ HasKind machine.now s kind }
{
    machine.vertex(s).kind == kind
}

// How many do steps a vertex has.
fn count_do_steps(machine: &Machine, s: VertexId) -> usize
    requires { s.0 < length machine.now.vertices }
    ensures { result ≡ do_steps_of machine.now s }
{
    machine.vertex(s).steps.as_slice().len()
}

// Takes the marks of these regions away.
fn clear_each(marks: &mut Vec<bool>, regions: &[RegionId])
    requires { All (λ r. r.0 < length marks.old.items) regions.now }
    ensures width { length marks.new.items ≡ length marks.old.items }
    ensures cleared { AreCleared marks.old.items regions.now marks.new.items }
{
    for r in regions {
        marks[r.0 as usize] = false;
    }
}
