//! The search for a way over junctions and exit points, so for a path with true guards (UML 2.5.1,
//! 14.2.3.9, enabled transitions). Each of them is gone on from once. How it is sought is this
//! profile's own choice.
ghost use Rattle.std.specs.Prelude.{◌≡◌, ◌<◌, ◌≤◌, ◌+◌, List, Option, length, IsTrue, IfSome, IfNone, IfOk};
ghost use Rattle.pssm_model.specs.declared.ids.RegionId.{RegionId};
ghost use Rattle.pssm_model.specs.declared.ids.TransId.{TransId};
ghost use Rattle.pssm_model.specs.declared.elements.DraftMachine.{DraftMachine};
ghost use Rattle.pssm_model.specs.Routes.{Truth};
ghost use Rattle.pssm_enabled.specs.declared.seeking.Search.{Search};
ghost use Rattle.pssm_enabled.specs.declared.seeking.Step.{Step};
ghost use Rattle.pssm_enabled.specs.Telling.{CanBeAsked, Tells};
ghost use Rattle.pssm_enabled.specs.Ways.{EndsInside, LeadsOut};
ghost use Rattle.pssm_enabled.specs.Steps.{SeesDeadEnds, KnowsDeadEnds, steps_of, IsFound};
ghost use Rattle.pssm_enabled.specs.inner.Seeking.{ComesTo, Tries, ComesOnce, IsUnderWay};

use crate::opening::is_open;
use crate::vertices::{ends_inside, is_passed_over};
use pssm_model::{GuardId, Machine, RegionId, TransId};
use std::alloc::{AllocError as NoMemory, Global};

/// A transition of a way over junctions and exit points, by which a search came to one of them or
/// which leads out, and the place of the step before it, if there is one (this profile's own choice).
#[derive(Clone, Copy, PartialEq, Eq)]
pub struct Step {
    pub by: TransId,
    pub before: Option<u16>,
}

/// What a search has seen: a mark for each junction and exit point, and the steps by which it came
/// to them, in the order in which it did (this profile's own choice). A machine has at most 4,096
/// vertices. More than one way may be sought with one search: what was seen before is not gone on
/// from again, so one that is used again must have seen dead ends alone, or be cleared.
#[derive(Drop)]
pub struct Search {
    pub seen: [bool; 4096],
    pub steps: [Step; 4096],
    pub count: u16,
}

impl Search {
    /// A search that has seen nothing (this profile's own choice).
    pub fn new() -> Search
        ensures count { result.count ≡ 0 }
        ensures nothing { (m : DraftMachine) (truth : Truth) (within : Option RegionId)
            → SeesDeadEnds m truth within result }
    {
        Search {
            seen: [false; 4096],
            steps: [Step {
                by: TransId(0),
                before: None,
            }; 4096],
            count: 0,
        }
    }

    /// Forgets what was seen (this profile's own choice). The marks are cleared in this call alone.
    #[inline(never)]
    pub fn clear(&mut self)
        ensures nothing { (m : DraftMachine) (truth : Truth) (within : Option RegionId)
            → SeesDeadEnds m truth within self.new }
    {
        *self = Search::new();
    }

    // Comes to the target of a step's transition. It answers whether that is no junction or exit
    // point; one that is gets a mark, and the step is kept, unless it was seen before.
    fn comes_out(&mut self, machine: &Machine, step: Step) -> bool
        requires there { step.by.0 < length machine.now.transitions }
        requires once { ComesOnce machine.now self.now }
        ensures comes { ComesTo machine.now self.old step self.new result }
        ensures once { ComesOnce machine.now self.new }
    {
        let _shaped = machine.regions();
        let target = machine.target(step.by);
        if !is_passed_over(machine, target) {
            return true;
        }
        if !self.seen[target.0 as usize] {
            self.seen[target.0 as usize] = true;
            self.steps[self.count as usize] = step;
            self.count += 1;
        }
        false
    }

    // Comes to the target of a step's transition if the transition is open. It answers whether it
    // is and its target is no junction or exit point.
    fn try_step<T: Fn(GuardId) -> bool>(
        &mut self,
        machine: &Machine,
        truth: &T,
        within: Option<RegionId>,
        step: Step,
    ) -> bool
        requires there { step.by.0 < length machine.now.transitions }
        requires region { IfSome within (λ r. r.0 < length machine.now.regions) }
        requires askable { CanBeAsked machine.now (T.pre truth.now) }
        requires once { ComesOnce machine.now self.now }
        ensures tries { (values : Truth) → Tells machine.now (T.post truth.now) values
            → Tries machine.now values within self.old step self.new result }
        ensures once { ComesOnce machine.now self.new }
    {
        is_open(machine, truth, within, step.by) && self.comes_out(machine, step)
    }

    // Goes on from the junction or exit point to which the step with this place came. It answers
    // the last step of a way out, if it comes to the end of one.
    fn go_on<T: Fn(GuardId) -> bool>(
        &mut self,
        machine: &Machine,
        truth: &T,
        within: Option<RegionId>,
        place: u16,
    ) -> Option<Step>
        requires place { place < self.now.count }
        requires region { IfSome within (λ r. r.0 < length machine.now.regions) }
        requires askable { CanBeAsked machine.now (T.pre truth.now) }
        requires once { ComesOnce machine.now self.now }
        ensures there { IfSome result (λ last. last.by.0 < length machine.now.transitions) }
        ensures found { (values : Truth) (start : TransId) (before : Search)
            → Tells machine.now (T.post truth.now) values
            → IsUnderWay machine.now values within start before self.old place
            → IfSome result (IsFound machine.now values within self.new.steps start) }
        ensures none { (values : Truth) (start : TransId) (before : Search)
            → Tells machine.now (T.post truth.now) values
            → IsUnderWay machine.now values within start before self.old place
            → IfNone result
            (IsUnderWay machine.now values within start before self.new (place + 1)) }
        ensures once { ComesOnce machine.now self.new }
    {
        let passed = machine.target(self.steps[place as usize].by);
        for t in machine.outgoing(passed) {
            let step = Step {
                by: *t,
                before: Some(place),
            };
            if self.try_step(machine, truth, within, step) {
                return Some(step);
            }
        }
        None
    }
}

// The step by a transition that ends on no junction or exit point, where it is open.
fn step_alone<T: Fn(GuardId) -> bool>(
    machine: &Machine,
    truth: &T,
    within: Option<RegionId>,
    t: TransId,
) -> Option<Step>
    requires there { t.0 < length machine.now.transitions }
    requires region { IfSome within (λ r. r.0 < length machine.now.regions) }
    requires askable { CanBeAsked machine.now (T.pre truth.now) }
    requires out { EndsInside machine.now t → ⊥ }
    ensures there { IfSome result (λ last. last.by.0 < length machine.now.transitions) }
    ensures found { (values : Truth) (steps : List Step) → Tells machine.now (T.post truth.now) values
        → IfSome result (IsFound machine.now values within steps t) }
    ensures none { (values : Truth) → Tells machine.now (T.post truth.now) values
        → IfNone result (LeadsOut machine.now values within t → ⊥) }
{
    if !is_open(machine, truth, within, t) {
        return None;
    }
    Some(Step {
        by: t,
        before: None,
    })
}

// Seeks a way from the transition over junctions and exit points that the search has not seen. It
// answers the last transition of a way, and the place of the step before it. Where the search had
// seen dead ends alone, it answers none exactly where there is no way.
fn find_way_over<T: Fn(GuardId) -> bool>(
    machine: &Machine,
    truth: &T,
    within: Option<RegionId>,
    start: TransId,
    search: &mut Search,
) -> Option<Step>
    requires there { start.0 < length machine.now.transitions }
    requires region { IfSome within (λ r. r.0 < length machine.now.regions) }
    requires askable { CanBeAsked machine.now (T.pre truth.now) }
    ensures there { IfSome result (λ last. last.by.0 < length machine.now.transitions) }
    ensures found { (values : Truth) → Tells machine.now (T.post truth.now) values
        → IfSome result (IsFound machine.now values within search.new.steps start) }
    ensures none { (values : Truth) → Tells machine.now (T.post truth.now) values
        → SeesDeadEnds machine.now values within search.old
        → IfNone result (LeadsOut machine.now values within start → ⊥) }
    ensures dead { (values : Truth) → Tells machine.now (T.post truth.now) values
        → SeesDeadEnds machine.now values within search.old
        → IfNone result (SeesDeadEnds machine.now values within search.new) }
{
    search.count = 0;
    let first = Step {
        by: start,
        before: None,
    };
    if search.try_step(machine, truth, within, first) {
        return Some(first);
    }
    let mut place = 0;
    while place < search.count {
        if let Some(last) = search.go_on(machine, truth, within, place) {
            return Some(last);
        }
        place += 1;
    }
    None
}

/// Seeks a way from the transition over junctions and exit points that the search has not seen (UML
/// 2.5.1, 14.2.3.9, enabled transitions: a path with true guards). All its transitions end in the
/// region `within`, if one is named (this profile's own choice). It answers the last transition of a
/// way, and the place of the step before it. Where the search had seen dead ends alone, it answers
/// none exactly where there is no way, and what it has then seen are dead ends too. Where the
/// transition ends on no junction or exit point, it takes no search.
pub fn find_way<T: Fn(GuardId) -> bool>(
    machine: &Machine,
    truth: &T,
    within: Option<RegionId>,
    start: TransId,
    search: &mut [Search],
) -> Option<Step>
    requires there { start.0 < length machine.now.transitions }
    requires region { IfSome within (λ r. r.0 < length machine.now.regions) }
    requires askable { CanBeAsked machine.now (T.pre truth.now) }
    requires room { EndsInside machine.now start → 0 < length search.old }
    ensures there { IfSome result (λ last. last.by.0 < length machine.now.transitions) }
    ensures same { length search.new ≡ length search.old }
    ensures found { (values : Truth) → Tells machine.now (T.post truth.now) values
        → IfSome result (IsFound machine.now values within (steps_of search.new) start) }
    ensures none { (values : Truth) → Tells machine.now (T.post truth.now) values
        → KnowsDeadEnds machine.now values within search.old
        → IfNone result (LeadsOut machine.now values within start → ⊥) }
    ensures dead { (values : Truth) → Tells machine.now (T.post truth.now) values
        → KnowsDeadEnds machine.now values within search.old
        → IfNone result (KnowsDeadEnds machine.now values within search.new) }
{
    if ends_inside(machine, start) {
        find_way_over(machine, truth, within, start, &mut search[0])
    } else {
        step_alone(machine, truth, within, start)
    }
}

/// A search that has seen nothing, where one is wanted (this profile's own choice).
///
/// `NoMemory`: memory ran out.
pub fn search_if(alloc: Global, wanted: bool) -> Result<Vec<Search>, NoMemory>
    ensures room { IsTrue wanted → IfOk result (λ search. 0 < length search.items) }
    ensures nothing { (m : DraftMachine) (truth : Truth) (within : Option RegionId)
        → IfOk result (λ search. KnowsDeadEnds m truth within search.items) }
{
    if wanted {
        one_search(alloc)
    } else {
        Ok(Vec::new(alloc))
    }
}

// One search that has seen nothing. Its marks are cleared in this call alone.
#[inline(never)]
fn one_search(alloc: Global) -> Result<Vec<Search>, NoMemory>
    ensures room { IfOk result (λ search. 0 < length search.items) }
    ensures nothing { (m : DraftMachine) (truth : Truth) (within : Option RegionId)
        → IfOk result (λ search. KnowsDeadEnds m truth within search.items) }
{
    let mut search = Vec::new(alloc);
    search.push(Search::new())?;
    Ok(search)
}

/// The steps of the search, if there is one (this profile's own choice).
pub fn steps_of(search: &[Search]) -> &[Step]
    ensures steps { result.now ≡ steps_of search.now }
    ensures few { length result.now ≤ 4096 }
{
    match search {
        [first, ..] => &first.steps,
        [] => &[],
    }
}
