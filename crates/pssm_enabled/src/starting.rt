//! Which transitions an event starts (UML 2.5.1, 14.2.3.9, enabled transitions).
ghost use Rattle.std.specs.Prelude.{◌≡◌, ◌↔◌, ◌⊎◌, ◌<◌, [], ◌∷◌, length, All, Contains, IsTrue};
ghost use Rattle.pssm_model.specs.declared.ids.VertexId.{VertexId};
ghost use Rattle.pssm_model.specs.declared.ids.TransId.{TransId};
ghost use Rattle.pssm_model.specs.declared.steps.Event.TheVariants as events;
ghost use Rattle.pssm_model.specs.Configuration.{IsComplete};
ghost use Rattle.pssm_model.specs.Legs.{Leaves};
ghost use Rattle.pssm_model.specs.Routes.{HasNoTrigger};
ghost use Rattle.pssm_config.specs.Tables.{Fits, configuration_of};
ghost use Rattle.pssm_enabled.specs.Starts.{IsCausedBy, IsLeftBy, AreStarted};
ghost use Rattle.pssm_enabled.specs.inner.Started.{IsStarted, IsReady, JoinsIn};

use pssm_config::Config;
use pssm_model::{Event, Machine, TransId, VertexId, VertexKind};

/// Whether the signal triggers the transition out of the State, or it is the completion of this
/// State and the transition has no trigger (UML 2.5.1, 14.2.3.8, triggers and completion
/// transitions).
pub fn is_caused_by(machine: &Machine, event: Event, t: TransId, source: VertexId) -> bool
    requires { t.0 < length machine.now.transitions }
    ensures { IsTrue result ↔ IsCausedBy machine.now event t source }
{
    let triggers = machine.transition(t).triggers.as_slice();
    match event {
        Event::Signal(signal) => triggers.contains(&signal),
        Event::Completion(state) => state == source && triggers.is_empty(),
    }
}

/// Whether the event starts the transition: it leaves an active State and is caused by the event (UML
/// 2.5.1, 14.2.3.9, enabled transitions).
pub(crate) fn is_started(machine: &Machine, config: &Config, event: Event, t: TransId) -> bool
    requires fits { Fits machine.now config.now }
    requires there { t.0 < length machine.now.transitions }
    ensures { IsTrue result ↔ ((s : VertexId) × IsStarted machine.now (configuration_of config.now) event t s) }
{
    let source = machine.source(t);
    machine.vertex(source).kind == VertexKind::State
        && config.is_active(source)
        && is_caused_by(machine, event, t, source)
}

// Whether the transition has no trigger.
fn is_untriggered(machine: &Machine, t: TransId) -> bool
    requires there { t.0 < length machine.now.transitions }
    ensures { IsTrue result ↔ HasNoTrigger machine.now t }
{
    machine.transition(t).triggers.as_slice().is_empty()
}

// Whether the vertex is this State or complete.
fn is_this_or_complete(machine: &Machine, config: &Config, state: VertexId, v: VertexId) -> bool
    requires fits { Fits machine.now config.now }
    requires there { v.0 < length machine.now.vertices }
    ensures { IsTrue result ↔ ((v ≡ state) ⊎ IsComplete machine.now (configuration_of config.now) v) }
{
    v == state || config.complete(machine, v)
}

// Whether the vertex is an active State that is this one or complete.
fn is_ready(machine: &Machine, config: &Config, state: VertexId, v: VertexId) -> bool
    requires fits { Fits machine.now config.now }
    requires there { v.0 < length machine.now.vertices }
    ensures { IsTrue result ↔ IsReady machine.now (configuration_of config.now) state v }
{
    machine.vertex(v).kind == VertexKind::State
        && config.is_active(v)
        && is_this_or_complete(machine, config, state, v)
}

// Whether the transition has no trigger and leaves an active State that is this one or complete.
fn joins_in(machine: &Machine, config: &Config, state: VertexId, t: TransId) -> bool
    requires fits { Fits machine.now config.now }
    requires there { t.0 < length machine.now.transitions }
    ensures { IsTrue result ↔ JoinsIn machine.now (configuration_of config.now) state t }
{
    let source = machine.source(t);
    is_untriggered(machine, t) && is_ready(machine, config, state, source)
}

// Whether each of the transitions does so.
fn join_in(machine: &Machine, config: &Config, state: VertexId, starts: &[TransId]) -> bool
    requires fits { Fits machine.now config.now }
    requires there { All (λ t. t.0 < length machine.now.transitions) starts.now }
    ensures { IsTrue result ↔ ((t : TransId) → Contains starts.now t
        → JoinsIn machine.now (configuration_of config.now) state t) }
{
    for t in starts {
        if !joins_in(machine, config, state, *t) {
            return false;
        }
    }
    true
}

// Whether the transition leaves the vertex.
fn leaves(machine: &Machine, t: TransId, v: VertexId) -> bool
    requires there { t.0 < length machine.now.transitions }
    ensures { IsTrue result ↔ Leaves machine.now t v }
{
    machine.source(t) == v
}

// Whether one of the transitions leaves the State.
fn is_left_by(machine: &Machine, starts: &[TransId], state: VertexId) -> bool
    requires there { All (λ t. t.0 < length machine.now.transitions) starts.now }
    ensures { IsTrue result ↔ IsLeftBy machine.now starts.now state }
{
    for t in starts {
        if leaves(machine, *t, state) {
            return true;
        }
    }
    false
}

/// Whether the completion of this State starts the transitions together: they have no triggers, and
/// leave active States of which this is one and the others are complete (UML 2.5.1, 14.2.3.8,
/// completion transitions, and 14.2.3.9, enabled transitions).
pub fn are_completed_by(
    machine: &Machine,
    config: &Config,
    state: VertexId,
    starts: &[TransId],
) -> bool
    requires fits { Fits machine.now config.now }
    requires there { All (λ t. t.0 < length machine.now.transitions) starts.now }
    ensures { IsTrue result
        ↔ AreStarted machine.now (configuration_of config.now) (events.Completion state) starts.now }
{
    is_left_by(machine, starts, state) && join_in(machine, config, state, starts)
}

// Whether it is the completion of a State that starts the transitions together.
fn are_completed(machine: &Machine, config: &Config, event: Event, starts: &[TransId]) -> bool
    requires fits { Fits machine.now config.now }
    requires there { All (λ t. t.0 < length machine.now.transitions) starts.now }
    requires several { (t : TransId) → starts.now ≡ t ∷ [] → ⊥ }
    ensures { IsTrue result ↔ AreStarted machine.now (configuration_of config.now) event starts.now }
{
    match event {
        Event::Signal(_) => false,
        Event::Completion(state) => are_completed_by(machine, config, state, starts),
    }
}

/// Whether the event starts the transitions together: they leave active States, and the event is a
/// signal that triggers the one of them, or the completion of one of these States where the others
/// are complete (UML 2.5.1, 14.2.3.9, enabled transitions).
pub(crate) fn are_started(
    machine: &Machine,
    config: &Config,
    event: Event,
    starts: &[TransId],
) -> bool
    requires fits { Fits machine.now config.now }
    requires there { All (λ t. t.0 < length machine.now.transitions) starts.now }
    ensures { IsTrue result ↔ AreStarted machine.now (configuration_of config.now) event starts.now }
{
    if starts.len() == 1 {
        return is_started(machine, config, event, starts[0]);
    }
    are_completed(machine, config, event, starts)
}
