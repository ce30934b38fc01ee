//! Whether the routes that a signal enables keep a State from deferring it (UML 2.5.1, 14.2.3.4, deferred events).
ghost use Rattle.std.specs.Prelude.{◌≡◌, ◌↔◌, ◌<◌, false, true, None, Some, length, Option, IsTrue, IfSome};
ghost use Rattle.pssm_model.specs.declared.ids.VertexId.{VertexId};
ghost use Rattle.pssm_model.specs.declared.ids.RegionId.{RegionId};
ghost use Rattle.pssm_model.specs.declared.steps.Event.TheVariants as events;
ghost use Rattle.pssm_model.specs.Forest.{IsOrLiesIn};
ghost use Rattle.pssm_model.specs.Routes.{Truth};
ghost use Rattle.pssm_model.specs.FiringSets.{Overrides};
ghost use Rattle.pssm_model.specs.WellFormed.{KeepsModelRules};
ghost use Rattle.pssm_config.specs.Tables.{Fits, configuration_of};
ghost use Rattle.pssm_enabled.specs.Telling.{CanBeAsked, Tells};
ghost use Rattle.pssm_enabled.specs.Steps.{KnowsDeadEnds};
ghost use Rattle.pssm_routes.specs.inner.Starts.{Reacts, HasSearch};

use crate::reacting::{reacting_in, reacts, some_start_search};
use pssm_config::Config;
use pssm_enabled::Search;
use pssm_model::{Event, GuardId, Machine, RegionId, SignalId, VertexId};

// Whether the vertex is the State or lies in it.
fn is_or_lies_in(machine: &Machine, v: VertexId, state: VertexId) -> bool
    requires vertex { v.0 < length machine.now.vertices }
    requires state { state.0 < length machine.now.vertices }
    ensures { IsTrue result ↔ IsOrLiesIn machine.now v state }
{
    v == state || machine.lies_in_state(v, state)
}

// Whether the vertex is the State or lies in it, and reacts to the event.
fn reacts_within<T: Fn(GuardId) -> bool>(
    machine: &Machine,
    config: &Config,
    truth: &T,
    event: Event,
    state: VertexId,
    source: VertexId,
    search: &mut [Search],
) -> bool
    requires rules { KeepsModelRules machine.now }
    requires fits { Fits machine.now config.now }
    requires askable { CanBeAsked machine.now (T.pre truth.now) }
    requires state { state.0 < length machine.now.vertices }
    requires there { source.0 < length machine.now.vertices }
    requires room { HasSearch machine.now (configuration_of config.now) event search.old }
    ensures same { length search.new ≡ length search.old }
    ensures reacts { (values : Truth) → Tells machine.now (T.post truth.now) values
        → KnowsDeadEnds machine.now values None search.old
        → (IsTrue result ↔ (IsOrLiesIn machine.now source state
        × Reacts machine.now (configuration_of config.now) values event source)) }
    ensures dead { (values : Truth) → Tells machine.now (T.post truth.now) values
        → KnowsDeadEnds machine.now values None search.old
        → result ≡ false → KnowsDeadEnds machine.now values None search.new }
{
    if !is_or_lies_in(machine, source, state) {
        return false;
    }
    reacts(machine, config, truth, event, source, search)
}

// Whether a route that the signal enables starts at the State or in it, by this search.
fn overrides_with<T: Fn(GuardId) -> bool>(
    machine: &Machine,
    config: &Config,
    truth: &T,
    signal: SignalId,
    state: VertexId,
    search: &mut [Search],
) -> bool
    requires rules { KeepsModelRules machine.now }
    requires fits { Fits machine.now config.now }
    requires askable { CanBeAsked machine.now (T.pre truth.now) }
    requires there { state.0 < length machine.now.vertices }
    requires room { HasSearch machine.now (configuration_of config.now) (events.Signal signal) search.old }
    requires nothing { (values : Truth) → KnowsDeadEnds machine.now values None search.old }
    ensures { (values : Truth) → Tells machine.now (T.post truth.now) values
        → (IsTrue result ↔ Overrides machine.now (configuration_of config.now) values signal state) }
{
    let event = Event::Signal(signal);
    for number in 0..machine.vertices() {
        let source = VertexId(number);
        if reacts_within(machine, config, truth, event, state, source, search) {
            return true;
        }
    }
    false
}

// Whether a route that the signal enables starts at the State or in it. The search stands in this
// call alone.
#[inline(never)]
fn overrides_by_search<T: Fn(GuardId) -> bool>(
    machine: &Machine,
    config: &Config,
    truth: &T,
    signal: SignalId,
    state: VertexId,
) -> bool
    requires rules { KeepsModelRules machine.now }
    requires fits { Fits machine.now config.now }
    requires askable { CanBeAsked machine.now (T.pre truth.now) }
    requires there { state.0 < length machine.now.vertices }
    ensures { (values : Truth) → Tells machine.now (T.post truth.now) values
        → (IsTrue result ↔ Overrides machine.now (configuration_of config.now) values signal state) }
{
    overrides_with(machine, config, truth, signal, state, &mut [Search::new()])
}

// Whether a route that the signal enables starts at the State or in it, by a search if one is wanted.
fn overrides_by_reach<T: Fn(GuardId) -> bool>(
    machine: &Machine,
    config: &Config,
    truth: &T,
    signal: SignalId,
    state: VertexId,
) -> bool
    requires rules { KeepsModelRules machine.now }
    requires fits { Fits machine.now config.now }
    requires askable { CanBeAsked machine.now (T.pre truth.now) }
    requires there { state.0 < length machine.now.vertices }
    ensures { (values : Truth) → Tells machine.now (T.post truth.now) values
        → (IsTrue result ↔ Overrides machine.now (configuration_of config.now) values signal state) }
{
    if some_start_search(machine, config, Event::Signal(signal)) {
        return overrides_by_search(machine, config, truth, signal, state);
    }
    overrides_with(machine, config, truth, signal, state, &mut [])
}

// Whether a route that the signal enables starts at the State or in it. It is left open where a look does not tell.
fn overrides_at_sight<T: Fn(GuardId) -> bool>(
    machine: &Machine,
    config: &Config,
    truth: &T,
    signal: SignalId,
    state: VertexId,
) -> Option<bool>
    requires rules { KeepsModelRules machine.now }
    requires fits { Fits machine.now config.now }
    requires askable { CanBeAsked machine.now (T.pre truth.now) }
    requires there { state.0 < length machine.now.vertices }
    ensures { (values : Truth) → Tells machine.now (T.post truth.now) values
        → IfSome result (λ is. IsTrue is ↔ Overrides machine.now (configuration_of config.now) values signal state) }
{
    let event = Event::Signal(signal);
    for number in 0..machine.regions() {
        let found = reacting_in(machine, config, truth, event, RegionId(number))?;
        if is_found_in(machine, found, state) {
            return Some(true);
        }
    }
    Some(false)
}

// Whether a vertex was found, and is the State or lies in it.
fn is_found_in(machine: &Machine, found: Option<VertexId>, state: VertexId) -> bool
    requires found { IfSome found (λ s. s.0 < length machine.now.vertices) }
    requires state { state.0 < length machine.now.vertices }
    ensures { IsTrue result ↔ ((s : VertexId) × (found ≡ Some s) × IsOrLiesIn machine.now s state) }
{
    match found {
        Some(s) => is_or_lies_in(machine, s, state),
        None => false,
    }
}

/// Whether a route that the signal enables starts at the State or in it, and so keeps the State
/// from deferring the signal (UML 2.5.1, 14.2.3.4, deferred events). It takes no memory.
pub fn overrides<T: Fn(GuardId) -> bool>(
    machine: &Machine,
    config: &Config,
    truth: &T,
    signal: SignalId,
    state: VertexId,
) -> bool
    requires rules { KeepsModelRules machine.now }
    requires fits { Fits machine.now config.now }
    requires askable { CanBeAsked machine.now (T.pre truth.now) }
    requires there { state.0 < length machine.now.vertices }
    ensures { (values : Truth) → Tells machine.now (T.post truth.now) values
        → (IsTrue result ↔ Overrides machine.now (configuration_of config.now) values signal state) }
{
    match overrides_at_sight(machine, config, truth, signal, state) {
        Some(is) => is,
        None => overrides_by_reach(machine, config, truth, signal, state),
    }
}
