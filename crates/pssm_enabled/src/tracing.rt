//! The route of a way that was found, and of what it goes on with behind the end of the way (UML
//! 2.5.1, 14.2.3.8, compound transitions).
ghost use Rattle.std.specs.Prelude.{◌≡◌, ◌⊎◌, ◌↔◌, ◌≢◌, ◌<◌, ◌≤◌, ◌+◌, List, length, All, Contains, IsTrue, IfOk};
ghost use Rattle.std.specs.Prelude.{OnOk, [], ◌∷◌};
ghost use Rattle.pssm_model.specs.declared.ids.VertexId.{VertexId};
ghost use Rattle.pssm_model.specs.declared.ids.TransId.{TransId};
ghost use Rattle.pssm_model.specs.declared.elements.VertexKind.TheVariants as kinds;
ghost use Rattle.pssm_model.specs.Forest.{HasKind};
ghost use Rattle.pssm_model.specs.Legs.{Leaves, Enters};
ghost use Rattle.pssm_model.specs.Routes.{Truth, IsTrueAt, IsAscending};
ghost use Rattle.pssm_model.specs.WellFormed.{KeepsModelRules};
ghost use Rattle.pssm_enabled.specs.Fitting.{IsThrough};
ghost use Rattle.pssm_enabled.specs.Telling.{CanBeAsked, Tells};
ghost use Rattle.pssm_enabled.specs.inner.Fitting.{IsMarked};
ghost use Rattle.pssm_enabled.specs.Ways.{IsPassedOver};
ghost use Rattle.pssm_enabled.specs.inner.Passing.{KnowsWays, IsFoundOnce};
ghost use Rattle.pssm_enabled.specs.Steps.{IsTrail};
ghost use Rattle.pssm_enabled.specs.inner.Trails.{step_before};
ghost use Rattle.pssm_enabled.specs.Behind.{CanGoOn, GoesOnFrom, LeadsFurther, IsRouteBehind};
ghost use Rattle.pssm_enabled.specs.inner.Behind.{GoesOnAtOnce, IsGoingOn, IsFurtherBy};
ghost use Rattle.pssm_enabled.specs.Starts.{AreStartsWith};

use crate::descending::transitions_down;
use crate::guards::is_true_at;
use crate::marked::is_seen;
use crate::passing::Points;
use crate::seeking::Step;
use crate::vertices::{ends_at, is_join};
use pssm_model::{GuardId, Machine, Route, Row, TransId, VertexId, VertexKind};
use std::alloc::{AllocError as NoMemory, Global};

// The step before this one, if there is one.
fn step_before(steps: &[Step], step: Step) -> Option<Step>
    ensures { result ≡ step_before steps.now step }
{
    match step.before {
        Some(place) => steps.get(place as usize).copied(),
        None => None,
    }
}

// The transitions of the trail that leads to the step, but for the start. A trail takes no step
// twice, so it has at most one transition more than there are steps.
#[tactic(auto, using(crate::proofs::TrailLaws::traced_at_start))]
fn later_transitions(
    alloc: Global,
    steps: &[Step],
    start: TransId,
    last: Step,
) -> Result<Vec<TransId>, NoMemory>
    requires { length steps.now ≤ 4096 }
    ensures { (path : List TransId) → IsTrail steps.now last path
        → IfOk result (λ found. (u : TransId) → Contains found.items u ↔ (Contains path u × (u ≢ start))) }
{
    let mut found = Vec::new(alloc);
    let mut next = Some(last);
    for _ in 0..steps.len() + 1 {
        let Some(step) = next else { break };
        if step.by != start {
            found.push(step.by)?;
        }
        next = step_before(steps, step);
    }
    Ok(found)
}

// Puts the transitions in ascending number, each once.
fn put_in_order(transitions: &mut Vec<TransId>) -> Result<(), NoMemory>
    ensures same { (u : TransId) → OnOk result (Contains transitions.new.items u ↔ Contains transitions.old.items u) }
    ensures ascending { OnOk result (IsAscending transitions.new.items) }
{
    transitions.sort_by_key(|t| t.0)?;
    transitions.dedup();
    Ok(())
}

// Whether the transition is true, and its end marked.
fn leads_on<T: Fn(GuardId) -> bool>(
    machine: &Machine,
    truth: &T,
    good: &[bool; 4096],
    t: TransId,
) -> bool
    requires there { t.0 < length machine.now.transitions }
    requires askable { CanBeAsked machine.now (T.pre truth.now) }
    ensures { (values : Truth) → Tells machine.now (T.post truth.now) values
        → (IsTrue result ↔ (IsTrueAt machine.now values t
        × ((w : VertexId) → Enters machine.now t w → IsMarked good.now w.0))) }
{
    is_true_at(machine, truth, t) && is_seen(machine, good, machine.target(t))
}

// The first transition out of the junction or exit point that is true and leads on.
fn one_onward<T: Fn(GuardId) -> bool>(
    alloc: Global,
    machine: &Machine,
    truth: &T,
    good: &[bool; 4096],
    v: VertexId,
) -> Result<Vec<TransId>, NoMemory>
    requires rules { KeepsModelRules machine.now }
    requires there { v.0 < length machine.now.vertices }
    requires passed { IsPassedOver machine.now v }
    requires askable { CanBeAsked machine.now (T.pre truth.now) }
    ensures there { IfOk result (λ found. All (λ t. t.0 < length machine.now.transitions) found.items) }
    ensures goes { (values : Truth) → Tells machine.now (T.post truth.now) values
        → KnowsWays machine.now values good.now → CanGoOn machine.now values v
        → IfOk result (λ found. GoesOnAtOnce machine.now values v found.items) }
{
    let _shaped = machine.regions();
    for t in machine.outgoing(v) {
        if leads_on(machine, truth, good, *t) {
            return alone(alloc, *t);
        }
    }
    Ok(Vec::new(alloc))
}

// All transitions out of the fork or entry point.
fn all_out(alloc: Global, machine: &Machine, v: VertexId) -> Result<Vec<TransId>, NoMemory>
    requires rules { KeepsModelRules machine.now }
    requires there { v.0 < length machine.now.vertices }
    requires down { HasKind machine.now v kinds.Fork ⊎ HasKind machine.now v kinds.EntryPoint }
    ensures there { IfOk result (λ found. All (λ t. t.0 < length machine.now.transitions) found.items) }
    ensures goes { (values : Truth) → CanGoOn machine.now values v
        → IfOk result (λ found. GoesOnAtOnce machine.now values v found.items) }
{
    copied(alloc, machine.outgoing(v))
}

// The transitions by which a route goes on from the vertex at once.
fn all_onward<T: Fn(GuardId) -> bool>(
    alloc: Global,
    machine: &Machine,
    truth: &T,
    good: &[bool; 4096],
    v: VertexId,
) -> Result<Vec<TransId>, NoMemory>
    requires rules { KeepsModelRules machine.now }
    requires there { v.0 < length machine.now.vertices }
    requires askable { CanBeAsked machine.now (T.pre truth.now) }
    ensures there { IfOk result (λ found. All (λ t. t.0 < length machine.now.transitions) found.items) }
    ensures goes { (values : Truth) → Tells machine.now (T.post truth.now) values
        → KnowsWays machine.now values good.now → CanGoOn machine.now values v
        → IfOk result (λ found. GoesOnAtOnce machine.now values v found.items) }
{
    let _shaped = machine.regions();
    match machine.vertex(v).kind {
        VertexKind::Junction => one_onward(alloc, machine, truth, good, v),
        VertexKind::ExitPoint => one_onward(alloc, machine, truth, good, v),
        VertexKind::Fork => all_out(alloc, machine, v),
        VertexKind::EntryPoint => all_out(alloc, machine, v),
        _ => Ok(Vec::new(alloc)),
    }
}

// Adds the vertices on which the transitions end.
fn add_ends_of(machine: &Machine, come: &mut Points, transitions: &[TransId])
    requires there { All (λ t. t.0 < length machine.now.transitions) transitions.now }
    requires once { IsFoundOnce machine.now come.old }
    ensures { IsFurtherBy machine.now come.old come.new transitions.now }
{
    for t in transitions {
        come.add(machine, machine.target(*t));
    }
}

// Goes on from the vertex with this place.
fn go_on_from<T: Fn(GuardId) -> bool>(
    alloc: Global,
    machine: &Machine,
    truth: &T,
    good: &[bool; 4096],
    found: &mut Vec<TransId>,
    come: &mut Points,
    place: u16,
) -> Result<(), NoMemory>
    requires rules { KeepsModelRules machine.now }
    requires askable { CanBeAsked machine.now (T.pre truth.now) }
    requires place { place < come.old.count }
    requires once { IsFoundOnce machine.now come.old }
    ensures once { OnOk result (IsFoundOnce machine.now come.new) }
    ensures going { (values : Truth) (v : VertexId) → Tells machine.now (T.post truth.now) values
        → KnowsWays machine.now values good.now → IsGoingOn machine.now values v found.old.items come.old place
        → OnOk result (IsGoingOn machine.now values v found.new.items come.new (place + 1)) }
{
    let _shaped = machine.regions();
    let onward = all_onward(alloc, machine, truth, good, come.found[place as usize])?;
    add_ends_of(machine, come, onward.as_slice());
    found.extend_from_slice(onward.as_slice())?;
    Ok(())
}

// The transitions by which a route goes on from the vertex: from one vertex after another, each
// once.
fn go_on_all<T: Fn(GuardId) -> bool>(
    alloc: Global,
    machine: &Machine,
    truth: &T,
    good: &[bool; 4096],
    v: VertexId,
) -> Result<Vec<TransId>, NoMemory>
    requires rules { KeepsModelRules machine.now }
    requires there { v.0 < length machine.now.vertices }
    requires askable { CanBeAsked machine.now (T.pre truth.now) }
    ensures { (values : Truth) → Tells machine.now (T.post truth.now) values
        → KnowsWays machine.now values good.now → CanGoOn machine.now values v
        → IfOk result (λ found. GoesOnFrom machine.now values v found.items) }
{
    let mut come = Points::none();
    come.add(machine, v);
    let mut found = Vec::new(alloc);
    let mut place = 0;
    while place < come.count {
        go_on_from(alloc, machine, truth, good, &mut found, &mut come, place)?;
        place += 1;
    }
    Ok(found)
}

// The transitions by which a route goes on from the vertex. What is marked stands in this call
// alone.
#[inline(never)]
fn transitions_from<T: Fn(GuardId) -> bool>(
    alloc: Global,
    machine: &Machine,
    truth: &T,
    v: VertexId,
) -> Result<Vec<TransId>, NoMemory>
    requires rules { KeepsModelRules machine.now }
    requires there { v.0 < length machine.now.vertices }
    requires askable { CanBeAsked machine.now (T.pre truth.now) }
    ensures { (values : Truth) → Tells machine.now (T.post truth.now) values → CanGoOn machine.now values v
        → IfOk result (λ found. GoesOnFrom machine.now values v found.items) }
{
    let points = Points::of(machine, truth);
    go_on_all(alloc, machine, truth, &points.good, v)
}

// The transitions by which a route goes on behind the transition: none, where it ends there.
fn transitions_behind<T: Fn(GuardId) -> bool>(
    alloc: Global,
    machine: &Machine,
    truth: &T,
    t: TransId,
) -> Result<Vec<TransId>, NoMemory>
    requires rules { KeepsModelRules machine.now }
    requires there { t.0 < length machine.now.transitions }
    requires askable { CanBeAsked machine.now (T.pre truth.now) }
    ensures { (values : Truth) → Tells machine.now (T.post truth.now) values → LeadsFurther machine.now values t
        → IfOk result (λ found. (v : VertexId) → Enters machine.now t v
        → GoesOnFrom machine.now values v found.items) }
{
    let v = machine.target(t);
    if ends_at(machine, v) {
        return Ok(Vec::new(alloc));
    }
    match transitions_down(alloc, machine, v)? {
        Some(found) => Ok(found),
        None => transitions_from(alloc, machine, truth, v),
    }
}

// A second list of the transitions.
//
// `NoMemory`: memory ran out.
fn copied(alloc: Global, transitions: &[TransId]) -> Result<Vec<TransId>, NoMemory>
    ensures { IfOk result (λ copy. copy.items ≡ transitions.now) }
{
    let mut copy = Vec::new(alloc);
    copy.extend_from_slice(transitions)?;
    Ok(copy)
}

// The transition alone.
//
// `NoMemory`: memory ran out.
fn alone(alloc: Global, t: TransId) -> Result<Vec<TransId>, NoMemory>
    ensures { IfOk result (λ list. list.items ≡ t ∷ []) }
{
    Ok(vec![in alloc; t]?)
}

// The starts of a route among which is the transition, in ascending number.
//
// `NoMemory`: memory ran out.
fn starts_with(alloc: Global, machine: &Machine, t: TransId) -> Result<Vec<TransId>, NoMemory>
    requires there { t.0 < length machine.now.transitions }
    ensures { IfOk result (λ starts. AreStartsWith machine.now t starts.items) }
{
    let v = machine.target(t);
    if !is_join(machine, v) {
        return alone(alloc, t);
    }
    copied(alloc, machine.incoming(v))
}

/// The route of the starts with this one that takes the other transitions of the trail and goes on
/// behind it (UML 2.5.1, 14.2.3.8, compound transitions), in ascending number (this profile's own
/// choice). The trail is what the steps tell from the last one back to the start; the starts are this
/// one alone, or all transitions into the join on which it ends.
///
/// `NoMemory`: memory ran out.
pub fn route_of_trail<T: Fn(GuardId) -> bool>(
    alloc: Global,
    machine: &Machine,
    truth: &T,
    steps: &[Step],
    start: TransId,
    last: Step,
) -> Result<Route, NoMemory>
    requires rules { KeepsModelRules machine.now }
    requires start { start.0 < length machine.now.transitions }
    requires last { last.by.0 < length machine.now.transitions }
    requires outside { (v : VertexId) → Leaves machine.now start v → IsThrough machine.now v → ⊥ }
    requires few { length steps.now ≤ 4096 }
    requires askable { CanBeAsked machine.now (T.pre truth.now) }
    ensures { (values : Truth) (path : List TransId) → Tells machine.now (T.post truth.now) values
        → IsTrail steps.now last path → LeadsFurther machine.now values last.by
        → IfOk result (IsRouteBehind machine.now values start last.by path) }
{
    let mut rest = later_transitions(alloc, steps, start, last)?;
    let behind = transitions_behind(alloc, machine, truth, last.by)?;
    rest.extend_from_slice(behind.as_slice())?;
    put_in_order(&mut rest)?;
    let starts = starts_with(alloc, machine, start)?;
    Ok(Route {
        starts: Row::from_vec(starts),
        rest: Row::from_vec(rest),
    })
}
