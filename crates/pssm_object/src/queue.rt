//! The completion queue of an object, and how an entry brings it on.
ghost use Rattle.std.specs.Prelude.{◌≡◌, ◌≢◌, ◌↔◌, ◌<◌, ◌++◌, ◌∷◌, [], false, length, slice_get, slice_index_or, AllPairs, Contains, Option, Some, IsTrue, IfOk, IfSome};
ghost use Rattle.std.specs.VecDeque.{deque_capacity};
ghost use Rattle.pssm_model.specs.declared.ids.VertexId.{VertexId as AVertex};
ghost use Rattle.pssm_model.specs.declared.elements.Owner.{Owner};
ghost use Rattle.pssm_model.specs.declared.steps.How.{How as AWay};
ghost use Rattle.pssm_model.specs.declared.steps.Item.{Item};
ghost use Rattle.pssm_model.specs.Forest.{owner_of};
ghost use Rattle.pssm_model.specs.Shapes.{HasShape};
ghost use Rattle.pssm_model.specs.Routes.{HasNoTrigger};
ghost use Rattle.pssm_config.specs.Tables.{Tables, Fits, configuration_of};
ghost use Rattle.pssm_semantics.specs.Completion.{HasCompletionTransition};
ghost use Rattle.pssm_object.specs.inner.Queueing.{QueueFits, state_of as state_by, completing, leaving, without, Joins, IsDue, ItemIsThere, QueueGoesOn};

use pssm_config::Config;
use pssm_model::{How, Item, Machine, Owner, RegionId, TransId, VertexId, VertexKind};
use std::alloc::{AllocError as NoMemory, Global};
use std::collections::VecDeque;
use std::marker::Model;

/// The States whose completion waits, in the order in which they became complete.
///
/// No call but `new` takes memory.
#[derive(Drop)]
pub struct Queue {
    states: VecDeque<VertexId>,
    /// By vertex: whether its completion waits.
    waits: Vec<bool>,
}

impl Model for Queue {
    ghost use Rattle.std.specs.Prelude.{◌≤◌, length};
    ghost use Rattle.std.specs.VecDeque.{deque_capacity};
    ghost use Rattle.pssm_object.specs.Queue.{CompletionQueue};
    ghost use Rattle.pssm_object.specs.inner.Queueing.{AreMarked};

    ghost Value = { CompletionQueue };

    ghost view = { λ q. record { states = q.states.items; room = length q.waits.items } };

    ghost invariant = { λ q. AreMarked q.states.items q.waits.items × (length q.waits.items ≤ deque_capacity q.states) };
}

impl Queue {
    /// The empty queue, with room for all vertices of the machine.
    ///
    /// `NoMemory`: memory ran out.
    pub fn new(alloc: Global, machine: &Machine) -> Result<Queue, NoMemory>
        ensures empty { IfOk result (λ queue. queue.states ≡ []) }
        ensures room { IfOk result (λ queue. queue.room ≡ length machine.now.vertices) }
    {
        let width = usize::from(machine.vertices());
        let waits = vec![in alloc; false; width]?;
        let states = VecDeque::with_capacity(alloc, width)?;
        Ok(Queue { states, waits })
    }

    /// The State whose completion is the next, if one waits.
    pub fn first(&self) -> Option<VertexId>
        ensures { result ≡ slice_get self.now.states 0 }
    {
        first_of(&self.states)
    }

    /// Whether the completion of the State waits.
    pub fn contains(&self, s: VertexId) -> bool
        ensures { IsTrue result ↔ Contains self.now.states s }
    {
        is_marked(self.waits.as_slice(), s)
    }

    // Puts a State at the end that is not in the queue.
    fn push(&mut self, s: VertexId)
        requires room { length self.old.states < self.old.room }
        requires there { s.0 < self.old.room }
        requires absent { Contains self.old.states s → ⊥ }
        ensures states { self.new.states ≡ self.old.states ++ s ∷ [] }
        ensures room { self.new.room ≡ self.old.room }
    {
        self.states.push_back_reserved(s);
        self.waits[usize::from(s.0)] = true;
    }

    /// Takes the State out, if it is in the queue.
    pub fn remove(&mut self, s: VertexId)
        ensures states { self.new.states ≡ without (Some s) self.old.states }
        ensures room { self.new.room ≡ self.old.room }
    {
        if is_marked(self.waits.as_slice(), s) {
            take_out(&mut self.states, s);
            self.waits[usize::from(s.0)] = false;
        }
    }

    // Takes the State out, if there is one.
    #[inline(always)]
    fn leave(&mut self, leaves: Option<VertexId>)
        ensures states { self.new.states ≡ without leaves self.old.states }
        ensures room { self.new.room ≡ self.old.room }
    {
        if let Some(s) = leaves {
            self.remove(s);
        }
    }

    // Puts the State at the end if its completion comes to wait: it is complete, and not in the queue.
    #[inline(never)]
    fn join(&mut self, machine: &Machine, config: &Config, s: VertexId)
        requires fits { Fits machine.now config.now }
        requires queue { QueueFits machine.now self.old }
        requires vertex { s.0 < length machine.now.vertices }
        ensures states { Joins machine.now (configuration_of config.now) s self.old.states self.new.states }
        ensures room { self.new.room ≡ self.old.room }
    {
        if config.complete(machine, s)
            && has_completion_transition(machine, s)
            && !self.contains(s)
        {
            self.push(s);
        }
    }

    /// Brings the queue on after an entry: the one State is taken out, and the other, which was due to become
    /// complete, is put at the end if it is complete now, a transition without triggers leaves it and it is not in
    /// the queue.
    #[inline(always)]
    pub fn settle(
        &mut self,
        machine: &Machine,
        config: &Config,
        leaves: Option<VertexId>,
        due: Option<VertexId>,
    )
        requires fits { Fits machine.now config.now }
        requires queue { QueueFits machine.now self.old }
        requires within { IfSome due (λ s. s.0 < length machine.now.vertices) }
        ensures goes_on { (was : Tables) (completes : Option AVertex)
            → IsDue machine.now (configuration_of was) leaves completes due
            → QueueGoesOn machine.now (configuration_of was) (configuration_of config.now) leaves completes
            self.old.states self.new.states }
        ensures room { self.new.room ≡ self.old.room }
    {
        self.leave(leaves);
        if let Some(s) = due {
            self.join(machine, config, s);
        }
    }

    /// Brings the queue on after an item has run.
    #[inline(always)]
    pub fn settle_by(
        &mut self,
        machine: &Machine,
        config: &Config,
        item: Item,
        due: Option<VertexId>,
    )
        requires fits { Fits machine.now config.now }
        requires queue { QueueFits machine.now self.old }
        requires within { IfSome due (λ s. s.0 < length machine.now.vertices) }
        ensures goes_on { (was : Tables) (how : AWay)
            → IsDue machine.now (configuration_of was) (leaving item) (completing machine.now item how) due
            → QueueGoesOn machine.now (configuration_of was) (configuration_of config.now)
            (leaving item) (completing machine.now item how) self.old.states self.new.states }
        ensures room { self.new.room ≡ self.old.room }
    {
        self.settle(machine, config, leaving_by(item), due);
    }
}

// The first of these States, if there is one.
fn first_of(states: &VecDeque<VertexId>) -> Option<VertexId>
    ensures { result ≡ slice_get states.now.items 0 }
{
    match states.front() {
        Some(s) => Some(*s),
        None => None,
    }
}

// Whether a State is the first of these.
fn begins_with(states: &VecDeque<VertexId>, s: VertexId) -> bool
    ensures { IsTrue result ↔ (slice_get states.now.items 0 ≡ Some s) }
{
    first_of(states) == Some(s)
}

// Whether a State is marked.
fn is_marked(marks: &[bool], s: VertexId) -> bool
    ensures { result ≡ slice_index_or marks.now s.0 false }
{
    match marks.get(usize::from(s.0)) {
        Some(mark) => *mark,
        None => false,
    }
}

// Takes a State out of these, each of which is there once: most often it is the first.
fn take_out(states: &mut VecDeque<VertexId>, s: VertexId)
    requires { AllPairs (λ v w. v ≢ w) states.old.items }
    ensures items { states.new.items ≡ without (Some s) states.old.items }
    ensures capacity { deque_capacity states.new ≡ deque_capacity states.old }
{
    if begins_with(states, s) {
        states.pop_front();
    } else {
        states.retain(|v: &VertexId| *v != s);
    }
}

// Whether the transition has no triggers.
fn has_no_trigger(machine: &Machine, t: TransId) -> bool
    requires { t.0 < length machine.now.transitions }
    ensures { IsTrue result ↔ HasNoTrigger machine.now t }
{
    machine.transition(t).triggers.as_slice().is_empty()
}

// Whether a transition without triggers leaves the State.
fn has_completion_transition(machine: &Machine, s: VertexId) -> bool
    requires { s.0 < length machine.now.vertices }
    ensures { IsTrue result ↔ HasCompletionTransition machine.now s }
{
    for t in machine.outgoing(s) {
        if has_no_trigger(machine, *t) {
            return true;
        }
    }
    false
}

// The State that is the owner.
fn state_of(owner: Owner) -> Option<VertexId>
    ensures { result ≡ state_by (Some owner) }
{
    match owner {
        Owner::State(s) => Some(s),
        Owner::Top | Owner::Region(_) => None,
    }
}

// The State that owns the region.
fn state_above(machine: &Machine, r: RegionId) -> Option<VertexId>
    requires shape { HasShape machine.now }
    requires region { r.0 < length machine.now.regions }
    ensures is { result ≡ state_by (owner_of machine.now (Owner.Region r)) }
    ensures within { IfSome result (λ s. s.0 < length machine.now.vertices) }
{
    state_of(machine.region_owner(r))
}

// The State that may become complete where the vertex is entered.
#[inline(always)]
fn completing_by_entry(machine: &Machine, s: VertexId) -> Option<VertexId>
    requires shape { HasShape machine.now }
    requires vertex { s.0 < length machine.now.vertices }
    ensures is { (how : AWay) → result ≡ completing machine.now (Item.Enter s) how }
    ensures within { IfSome result (λ v. v.0 < length machine.now.vertices) }
{
    let vertex = machine.vertex(s);
    if vertex.kind != VertexKind::Final {
        return Some(s);
    }
    match vertex.owner {
        Owner::Region(r) => state_above(machine, r),
        Owner::Top | Owner::State(_) => None,
    }
}

// The State that an item may make complete.
#[inline(always)]
fn completing_by(machine: &Machine, item: Item, how: &How) -> Option<VertexId>
    requires shape { HasShape machine.now }
    requires places { ItemIsThere machine.now item }
    ensures is { result ≡ completing machine.now item how.now }
    ensures within { IfSome result (λ v. v.0 < length machine.now.vertices) }
{
    match item {
        Item::Enter(s) => completing_by_entry(machine, s),
        Item::Opened(r, _) => match how {
            How::Nothing => state_above(machine, r),
            How::By(_) | How::Restore(_) => None,
        },
        Item::Exit(_) | Item::Effect(_) | Item::Pick(_) => None,
    }
}

// The State that an item takes out of the queue.
#[inline(always)]
fn leaving_by(item: Item) -> Option<VertexId>
    ensures { result ≡ leaving item }
{
    match item {
        Item::Exit(s) | Item::Enter(s) => Some(s),
        Item::Effect(_) | Item::Opened(_, _) | Item::Pick(_) => None,
    }
}

/// This State, which something may make complete, if it is not complete before that or is taken out by it.
#[inline(always)]
pub fn due_of(
    machine: &Machine,
    config: &Config,
    leaves: Option<VertexId>,
    completes: Option<VertexId>,
) -> Option<VertexId>
    requires fits { Fits machine.now config.now }
    requires within { IfSome completes (λ s. s.0 < length machine.now.vertices) }
    ensures due { IsDue machine.now (configuration_of config.now) leaves completes result }
    ensures within { IfSome result (λ s. s.0 < length machine.now.vertices) }
{
    match completes {
        None => None,
        Some(s) => {
            if leaves == Some(s) || !config.complete(machine, s) {
                Some(s)
            } else {
                None
            }
        }
    }
}

/// The State that an item may make complete, if it is not complete before that or is entered by it.
#[inline(always)]
pub fn due_by(machine: &Machine, config: &Config, item: Item, how: &How) -> Option<VertexId>
    requires fits { Fits machine.now config.now }
    requires places { ItemIsThere machine.now item }
    ensures due { IsDue machine.now (configuration_of config.now) (leaving item) (completing machine.now item how.now)
        result }
    ensures within { IfSome result (λ s. s.0 < length machine.now.vertices) }
{
    due_of(
        machine,
        config,
        leaving_by(item),
        completing_by(machine, item, how),
    )
}
