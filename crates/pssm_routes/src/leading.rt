//! The starts of a route among which is a transition: it alone, or all into one join (UML 2.5.1,
//! 14.2.3.7, join).
ghost use Rattle.std.specs.Prelude.{◌↔◌, ◌<◌, length, All, Contains, IsTrue};
ghost use Rattle.pssm_model.specs.declared.ids.VertexId.{VertexId};
ghost use Rattle.pssm_model.specs.declared.ids.TransId.{TransId};
ghost use Rattle.pssm_model.specs.declared.elements.VertexKind.TheVariants as kinds;
ghost use Rattle.pssm_model.specs.declared.steps.Event.TheVariants as events;
ghost use Rattle.pssm_model.specs.Forest.{HasKind};
ghost use Rattle.pssm_model.specs.Legs.{Leaves};
ghost use Rattle.pssm_model.specs.WellFormed.{KeepsModelRules};
ghost use Rattle.pssm_config.specs.Tables.{Fits, configuration_of};
ghost use Rattle.pssm_routes.specs.inner.Starts.{IsStartedWith, GoesOnBy, StartsAmong};

use pssm_config::Config;
use pssm_enabled::{are_completed_by, is_caused_by, is_join};
use pssm_model::{Event, Machine, TransId, VertexId, VertexKind};

// Whether the completion of the State starts the transition out of an active State, alone or with
// the others into its join.
fn is_completed_with(
    machine: &Machine,
    config: &Config,
    state: VertexId,
    t: TransId,
    source: VertexId,
) -> bool
    requires fits { Fits machine.now config.now }
    requires there { t.0 < length machine.now.transitions }
    requires leaves { Leaves machine.now t source }
    requires kind { HasKind machine.now source kinds.State }
    requires active { (configuration_of config.now).Active source }
    ensures { IsTrue result
        ↔ IsStartedWith machine.now (configuration_of config.now) (events.Completion state) t }
{
    let v = machine.target(t);
    if is_join(machine, v) {
        return are_completed_by(machine, config, state, machine.incoming(v));
    }
    is_caused_by(machine, Event::Completion(state), t, source)
}

// Whether the event starts the transition out of an active State, alone or with the others into its
// join. None into a join has a trigger.
fn is_caused_with(
    machine: &Machine,
    config: &Config,
    event: Event,
    t: TransId,
    source: VertexId,
) -> bool
    requires rules { KeepsModelRules machine.now }
    requires fits { Fits machine.now config.now }
    requires there { t.0 < length machine.now.transitions }
    requires leaves { Leaves machine.now t source }
    requires kind { HasKind machine.now source kinds.State }
    requires active { (configuration_of config.now).Active source }
    ensures { IsTrue result ↔ IsStartedWith machine.now (configuration_of config.now) event t }
{
    match event {
        Event::Signal(signal) => is_caused_by(machine, Event::Signal(signal), t, source),
        Event::Completion(state) => is_completed_with(machine, config, state, t, source),
    }
}

// Whether the vertex is an active State.
fn is_active_state(machine: &Machine, config: &Config, v: VertexId) -> bool
    requires fits { Fits machine.now config.now }
    requires there { v.0 < length machine.now.vertices }
    ensures { IsTrue result ↔ (HasKind machine.now v kinds.State × (configuration_of config.now).Active v) }
{
    machine.vertex(v).kind == VertexKind::State && config.is_active(v)
}

/// Whether the event starts the transition, alone or with the others into the join on which it
/// ends.
pub fn is_started_with(machine: &Machine, config: &Config, event: Event, t: TransId) -> bool
    requires rules { KeepsModelRules machine.now }
    requires fits { Fits machine.now config.now }
    requires there { t.0 < length machine.now.transitions }
    ensures { IsTrue result ↔ IsStartedWith machine.now (configuration_of config.now) event t }
{
    let source = machine.source(t);
    if !is_active_state(machine, config, source) {
        return false;
    }
    is_caused_with(machine, config, event, t, source)
}

// The transition out of the join.
fn out_of_join(machine: &Machine, v: VertexId) -> TransId
    requires rules { KeepsModelRules machine.now }
    requires join { HasKind machine.now v kinds.Join }
    requires there { v.0 < length machine.now.vertices }
    ensures leaves { Leaves machine.now result v }
    ensures there { result.0 < length machine.now.transitions }
{
    match machine.outgoing(v).get(0) {
        Some(t) => *t,
        None => unreachable!(),
    }
}

/// The transition by which a route with this start goes on: itself, or the one out of the join on
/// which it ends.
pub fn onward(machine: &Machine, t: TransId) -> TransId
    requires rules { KeepsModelRules machine.now }
    requires there { t.0 < length machine.now.transitions }
    ensures on { GoesOnBy machine.now t result }
    ensures there { result.0 < length machine.now.transitions }
{
    let _shaped = machine.regions();
    let v = machine.target(t);
    if is_join(machine, v) {
        return out_of_join(machine, v);
    }
    t
}

/// Whether the State is one of these.
pub fn is_among(states: &[VertexId], s: VertexId) -> bool
    ensures { IsTrue result ↔ Contains states.now s }
{
    states.contains(&s)
}

/// Whether the sources of the transitions are among the States.
pub fn leave_among(machine: &Machine, states: &[VertexId], transitions: &[TransId]) -> bool
    requires there { All (λ t. t.0 < length machine.now.transitions) transitions.now }
    ensures { IsTrue result ↔ ((t : TransId) (s : VertexId) → Contains transitions.now t
        → Leaves machine.now t s → Contains states.now s) }
{
    for t in transitions {
        if !leaves_among(machine, states, *t) {
            return false;
        }
    }
    true
}

// Whether the source of the transition is among the States.
fn leaves_among(machine: &Machine, states: &[VertexId], t: TransId) -> bool
    requires there { t.0 < length machine.now.transitions }
    ensures { IsTrue result ↔ ((s : VertexId) → Leaves machine.now t s → Contains states.now s) }
{
    is_among(states, machine.source(t))
}

/// Whether the sources of the starts among which is the transition are among the States, as its own
/// source is.
pub fn start_all_among(machine: &Machine, states: &[VertexId], t: TransId) -> bool
    requires there { t.0 < length machine.now.transitions }
    requires source { (s : VertexId) → Leaves machine.now t s → Contains states.now s }
    ensures { IsTrue result ↔ StartsAmong machine.now states.now t }
{
    let v = machine.target(t);
    if !is_join(machine, v) {
        return true;
    }
    leave_among(machine, states, machine.incoming(v))
}
