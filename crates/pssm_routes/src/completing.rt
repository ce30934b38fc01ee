//! What reacts to the completion of a State: that State alone, where none of its transitions ends on a join (UML 2.5.1,
//! 14.2.3.8, completion transitions).
ghost use Rattle.std.specs.Prelude.{◌<◌, length, Option, None, Some, IsTrue, IfSome};
ghost use Rattle.pssm_model.specs.declared.ids.VertexId.{VertexId};
ghost use Rattle.pssm_model.specs.declared.steps.Event.TheVariants as events;
ghost use Rattle.pssm_model.specs.Routes.{Truth};
ghost use Rattle.pssm_model.specs.WellFormed.{KeepsModelRules};
ghost use Rattle.pssm_config.specs.Tables.{Fits, configuration_of};
ghost use Rattle.pssm_enabled.specs.Telling.{CanBeAsked, Tells};
ghost use Rattle.pssm_routes.specs.inner.Starts.{StartAlone, IsOneReacting};

use crate::reacting::reacts_at_sight;
use pssm_config::Config;
use pssm_enabled::starts_alone;
use pssm_model::{Event, GuardId, Machine, VertexId};

// Whether none of the transitions out of the State ends on a join.
fn start_alone(machine: &Machine, state: VertexId) -> bool
    requires there { state.0 < length machine.now.vertices }
    ensures { IsTrue result → StartAlone machine.now state }
{
    for t in machine.outgoing(state) {
        if !starts_alone(machine, *t) {
            return false;
        }
    }
    true
}

// The State that reacts to its completion, if it does; where it does not, no other does. It is left open where it does and
// one of its transitions ends on a join, into which others lead, and where a look does not tell.
fn reacting_to_completion<T: Fn(GuardId) -> bool>(
    machine: &Machine,
    config: &Config,
    truth: &T,
    state: VertexId,
) -> Option<Option<VertexId>>
    requires rules { KeepsModelRules machine.now }
    requires fits { Fits machine.now config.now }
    requires askable { CanBeAsked machine.now (T.pre truth.now) }
    requires there { state.0 < length machine.now.vertices }
    ensures there { IfSome result (λ found. IfSome found (λ s. s.0 < length machine.now.vertices)) }
    ensures reacting { (values : Truth) → Tells machine.now (T.post truth.now) values
        → IfSome result (IsOneReacting machine.now (configuration_of config.now) values (events.Completion state)) }
{
    if !reacts_at_sight(machine, config, truth, Event::Completion(state), state)? {
        return Some(None);
    }
    if start_alone(machine, state) {
        Some(Some(state))
    } else {
        None
    }
}

/// The one State that reacts to the event, if one does, where that is the completion of a State: it is told without a look
/// at the others. It is left open for signals, for joins, and where a look does not tell. It takes no memory.
pub fn one_reacting<T: Fn(GuardId) -> bool>(
    machine: &Machine,
    config: &Config,
    truth: &T,
    event: Event,
) -> Option<Option<VertexId>>
    requires rules { KeepsModelRules machine.now }
    requires fits { Fits machine.now config.now }
    requires askable { CanBeAsked machine.now (T.pre truth.now) }
    ensures there { IfSome result (λ found. IfSome found (λ s. s.0 < length machine.now.vertices)) }
    ensures reacting { (values : Truth) → Tells machine.now (T.post truth.now) values
        → IfSome result (IsOneReacting machine.now (configuration_of config.now) values event) }
{
    match event {
        Event::Signal(_) => None,
        Event::Completion(state) => {
            if state.0 < machine.vertices() {
                reacting_to_completion(machine, config, truth, state)
            } else {
                None
            }
        }
    }
}
