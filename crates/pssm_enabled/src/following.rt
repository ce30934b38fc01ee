//! A way along the first open transitions, where these lead out over a few junctions and exit
//! points (UML 2.5.1, 14.2.3.9, enabled transitions: a path with true guards). It needs no marks.
ghost use Rattle.std.specs.Prelude.{◌<◌, length, IfSome};
ghost use Rattle.pssm_model.specs.Legs.{Leaves};
ghost use Rattle.pssm_model.specs.Routes.{Truth};
ghost use Rattle.pssm_model.specs.WellFormed.{KeepsModelRules};
ghost use Rattle.pssm_enabled.specs.Telling.{CanBeAsked, Tells};
ghost use Rattle.pssm_enabled.specs.Ways.{IsOpen};
ghost use Rattle.pssm_enabled.specs.Steps.{IsFound};

use crate::opening::is_open;
use crate::seeking::Step;
use crate::vertices::{ends_inside, is_entry_point};
use pssm_model::{GuardId, Machine, RegionId, TransId, VertexId};

// The first open transition out of the vertex. None is answered too where one before it ends on an entry point from
// which no way leads on, so that this is found out once at most.
fn first_open<T: Fn(GuardId) -> bool>(
    machine: &Machine,
    truth: &T,
    within: Option<RegionId>,
    v: VertexId,
) -> Option<TransId>
    requires there { v.0 < length machine.now.vertices }
    requires region { IfSome within (λ r. r.0 < length machine.now.regions) }
    requires askable { CanBeAsked machine.now (T.pre truth.now) }
    ensures there { IfSome result (λ t. t.0 < length machine.now.transitions) }
    ensures leaves { IfSome result (λ t. Leaves machine.now t v) }
    ensures open { (values : Truth) → Tells machine.now (T.post truth.now) values
        → IfSome result (IsOpen machine.now values within) }
{
    for t in machine.outgoing(v) {
        if is_open(machine, truth, within, *t) {
            return Some(*t);
        }
        if is_entry_point(machine, machine.target(*t)) {
            return None;
        }
    }
    None
}

/// Follows open transitions from this one on over junctions and exit points (UML 2.5.1, 14.2.3.9,
/// enabled transitions: a path with true guards; which are followed is this profile's own choice).
/// All of them end in the region `within`, if one is named. It answers the last transition of a way
/// out, and the place of the step before it. Where it answers none a way may still lead out: it
/// makes no search, and follows the first open transitions over fewer than 64 vertices alone.
pub fn follow<T: Fn(GuardId) -> bool>(
    machine: &Machine,
    truth: &T,
    within: Option<RegionId>,
    start: TransId,
    steps: &mut [Step; 64],
) -> Option<Step>
    requires rules { KeepsModelRules machine.now }
    requires there { start.0 < length machine.now.transitions }
    requires region { IfSome within (λ r. r.0 < length machine.now.regions) }
    requires askable { CanBeAsked machine.now (T.pre truth.now) }
    ensures there { IfSome result (λ last. last.by.0 < length machine.now.transitions) }
    ensures found { (values : Truth) → Tells machine.now (T.post truth.now) values
        → IfSome result (IsFound machine.now values within steps.new start) }
{
    if !is_open(machine, truth, within, start) {
        return None;
    }
    let mut last = Step {
        by: start,
        before: None,
    };
    let mut place = 0;
    while place < 64 {
        if !ends_inside(machine, last.by) {
            return Some(last);
        }
        steps[place as usize] = last;
        let next = first_open(machine, truth, within, machine.target(last.by))?;
        last = Step {
            by: next,
            before: Some(place),
        };
        place += 1;
    }
    None
}
