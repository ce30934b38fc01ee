//! Which transitions are open to a way: those that are true, end where the way may go, and not on
//! an entry point from which none leads on (UML 2.5.1, 14.2.3.8, guards, and 14.2.3.9, enabled
//! transitions).
ghost use Rattle.std.specs.Prelude.{◌↔◌, ◌<◌, length, IsTrue, IfSome};
ghost use Rattle.pssm_model.specs.declared.elements.VertexKind.TheVariants as kinds;
ghost use Rattle.pssm_model.specs.Forest.{HasKind};
ghost use Rattle.pssm_model.specs.Routes.{Truth};
ghost use Rattle.pssm_enabled.specs.Telling.{CanBeAsked, Tells};
ghost use Rattle.pssm_enabled.specs.Ways.{HasWay, CanBePassed, IsAllowed, IsOpen};
ghost use Rattle.pssm_enabled.specs.inner.Passing.{AllEndWays};

use crate::guards::is_true_at;
use crate::passing::{Points, ends_way};
use crate::vertices::is_entry_point;
use pssm_model::{GuardId, Machine, RegionId, TransId, VertexId};

// Whether a way leads on from the vertex. What is marked stands in this call alone.
#[inline(never)]
fn has_way<T: Fn(GuardId) -> bool>(machine: &Machine, truth: &T, v: VertexId) -> bool
    requires there { v.0 < length machine.now.vertices }
    requires askable { CanBeAsked machine.now (T.pre truth.now) }
    ensures { (values : Truth) → Tells machine.now (T.post truth.now) values
        → (IsTrue result ↔ HasWay machine.now values v) }
{
    let points = Points::of(machine, truth);
    points.has(machine, v)
}

// Whether all transitions out of the vertex end where ways do.
fn ends_all_ways(machine: &Machine, v: VertexId) -> bool
    requires { v.0 < length machine.now.vertices }
    ensures { IsTrue result → AllEndWays machine.now v }
{
    for t in machine.outgoing(v) {
        if !ends_way(machine, machine.target(*t)) {
            return false;
        }
    }
    true
}

// The entry point to which the one transition out of an entry point leads, if there is one.
fn next_entry(machine: &Machine, v: VertexId) -> Option<VertexId>
    requires there { v.0 < length machine.now.vertices }
    requires entry { HasKind machine.now v kinds.EntryPoint }
    ensures there { IfSome result (λ w. w.0 < length machine.now.vertices) }
    ensures entry { IfSome result (λ w. HasKind machine.now w kinds.EntryPoint) }
    ensures same { (values : Truth)
        → IfSome result (λ w. HasWay machine.now values v ↔ HasWay machine.now values w) }
{
    let _shaped = machine.regions();
    let [t] = machine.outgoing(v) else {
        return None;
    };
    let w = machine.target(*t);
    if is_entry_point(machine, w) {
        Some(w)
    } else {
        None
    }
}

// The last of the entry points that lead from one to the next. No more than 32 States stand around
// one another.
fn last_entry(machine: &Machine, v: VertexId) -> VertexId
    requires there { v.0 < length machine.now.vertices }
    requires entry { HasKind machine.now v kinds.EntryPoint }
    ensures there { result.0 < length machine.now.vertices }
    ensures entry { HasKind machine.now result kinds.EntryPoint }
    ensures same { (values : Truth) → HasWay machine.now values v ↔ HasWay machine.now values result }
{
    let mut at = v;
    let mut left: u16 = 32;
    while left > 0 {
        let Some(next) = next_entry(machine, at) else {
            return at;
        };
        at = next;
        left -= 1;
    }
    at
}

// Whether a way leads on from the entry point. Marks are made only where ways branch on behind it.
fn passes_entry<T: Fn(GuardId) -> bool>(machine: &Machine, truth: &T, v: VertexId) -> bool
    requires there { v.0 < length machine.now.vertices }
    requires entry { HasKind machine.now v kinds.EntryPoint }
    requires askable { CanBeAsked machine.now (T.pre truth.now) }
    ensures { (values : Truth) → Tells machine.now (T.post truth.now) values
        → (IsTrue result ↔ HasWay machine.now values v) }
{
    let last = last_entry(machine, v);
    if ends_all_ways(machine, last) {
        return true;
    }
    has_way(machine, truth, last)
}

// Whether the transition ends on no entry point from which no way leads on.
fn can_be_passed<T: Fn(GuardId) -> bool>(machine: &Machine, truth: &T, t: TransId) -> bool
    requires there { t.0 < length machine.now.transitions }
    requires askable { CanBeAsked machine.now (T.pre truth.now) }
    ensures { (values : Truth) → Tells machine.now (T.post truth.now) values
        → (IsTrue result ↔ CanBePassed machine.now values t) }
{
    let v = machine.target(t);
    if !is_entry_point(machine, v) {
        return true;
    }
    passes_entry(machine, truth, v)
}

// Whether the vertex lies in the region, if one is named.
fn is_allowed(machine: &Machine, within: Option<RegionId>, v: VertexId) -> bool
    requires vertex { v.0 < length machine.now.vertices }
    requires region { IfSome within (λ r. r.0 < length machine.now.regions) }
    ensures { IsTrue result ↔ IsAllowed machine.now within v }
{
    match within {
        Some(region) => machine.lies_in_region(v, region),
        None => true,
    }
}

/// Whether the transition is true, ends in the region `within`, if one is named, and not on an entry
/// point from which no way leads on (UML 2.5.1, 14.2.3.8, guards, and 14.2.3.9, enabled transitions;
/// the region is this profile's own choice).
pub fn is_open<T: Fn(GuardId) -> bool>(
    machine: &Machine,
    truth: &T,
    within: Option<RegionId>,
    t: TransId,
) -> bool
    requires there { t.0 < length machine.now.transitions }
    requires region { IfSome within (λ r. r.0 < length machine.now.regions) }
    requires askable { CanBeAsked machine.now (T.pre truth.now) }
    ensures { (values : Truth) → Tells machine.now (T.post truth.now) values
        → (IsTrue result ↔ IsOpen machine.now values within t) }
{
    is_allowed(machine, within, machine.target(t))
        && is_true_at(machine, truth, t)
        && can_be_passed(machine, truth, t)
}
