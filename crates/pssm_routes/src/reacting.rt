//! Whether a State reacts to an event: a route that the event enables starts there.
ghost use Rattle.std.specs.Prelude.{◌≡◌, ◌↔◌, ◌<◌, false, true, None, Some, length, Option, IsTrue, IsFalse, IfSome};
ghost use Rattle.pssm_model.specs.declared.ids.VertexId.{VertexId};
ghost use Rattle.pssm_model.specs.declared.ids.RegionId.{RegionId};
ghost use Rattle.pssm_model.specs.declared.ids.TransId.{TransId};
ghost use Rattle.pssm_model.specs.declared.elements.DraftMachine.{DraftMachine};
ghost use Rattle.pssm_model.specs.Legs.{Leaves};
ghost use Rattle.pssm_model.specs.Routes.{Truth};
ghost use Rattle.pssm_model.specs.WellFormed.{KeepsModelRules};
ghost use Rattle.pssm_config.specs.Tables.{Fits, configuration_of};
ghost use Rattle.pssm_enabled.specs.Telling.{CanBeAsked, Tells};
ghost use Rattle.pssm_enabled.specs.Ways.{EndsInside, LeadsOut};
ghost use Rattle.pssm_enabled.specs.Steps.{KnowsDeadEnds};
ghost use Rattle.pssm_routes.specs.inner.Starts.{IsStartedWith, GoesOnBy, Reacts, HasSearch, StartsWay, IsReactingIn};

use crate::leading::{is_started_with, onward};
use crate::looking::look;
use pssm_config::Config;
use pssm_enabled::{Search, find_way};
use pssm_model::{Event, GuardId, Machine, RegionId, TransId, VertexId, VertexKind};

// Whether the event starts the transition, alone or with the others into its join, and a way leads
// out from there over junctions and exit points that the search has not seen.
fn leads<T: Fn(GuardId) -> bool>(
    machine: &Machine,
    config: &Config,
    truth: &T,
    event: Event,
    t: TransId,
    search: &mut [Search],
) -> bool
    requires rules { KeepsModelRules machine.now }
    requires fits { Fits machine.now config.now }
    requires askable { CanBeAsked machine.now (T.pre truth.now) }
    requires there { t.0 < length machine.now.transitions }
    requires room { HasSearch machine.now (configuration_of config.now) event search.old }
    ensures same { length search.new ≡ length search.old }
    ensures reacts { (values : Truth) → Tells machine.now (T.post truth.now) values → result ≡ true
        → (s : VertexId) → Leaves machine.now t s
        → Reacts machine.now (configuration_of config.now) values event s }
    ensures none { (values : Truth) → Tells machine.now (T.post truth.now) values
        → KnowsDeadEnds machine.now values None search.old
        → result ≡ false
        → (u : TransId) → IsStartedWith machine.now (configuration_of config.now) event t → GoesOnBy machine.now t u
        → LeadsOut machine.now values None u → ⊥ }
    ensures dead { (values : Truth) → Tells machine.now (T.post truth.now) values
        → KnowsDeadEnds machine.now values None search.old
        → result ≡ false → KnowsDeadEnds machine.now values None search.new }
{
    let _shaped = machine.regions();
    if !is_started_with(machine, config, event, t) {
        return false;
    }
    find_way(machine, truth, None, onward(machine, t), search).is_some()
}

/// Whether a route that the event enables starts at the vertex. The search goes on from what it has
/// seen before.
pub fn reacts<T: Fn(GuardId) -> bool>(
    machine: &Machine,
    config: &Config,
    truth: &T,
    event: Event,
    source: VertexId,
    search: &mut [Search],
) -> bool
    requires rules { KeepsModelRules machine.now }
    requires fits { Fits machine.now config.now }
    requires askable { CanBeAsked machine.now (T.pre truth.now) }
    requires there { source.0 < length machine.now.vertices }
    requires room { HasSearch machine.now (configuration_of config.now) event search.old }
    ensures same { length search.new ≡ length search.old }
    ensures reacts { (values : Truth) → Tells machine.now (T.post truth.now) values
        → KnowsDeadEnds machine.now values None search.old
        → (IsTrue result ↔ Reacts machine.now (configuration_of config.now) values event source) }
    ensures dead { (values : Truth) → Tells machine.now (T.post truth.now) values
        → KnowsDeadEnds machine.now values None search.old
        → result ≡ false → KnowsDeadEnds machine.now values None search.new }
{
    for t in machine.outgoing(source) {
        if leads(machine, config, truth, event, *t, search) {
            return true;
        }
    }
    false
}

// Whether a search is wanted for a transition: it ends on a junction, an exit point, or a join,
// from which the route may go on to one.
fn wants_search(machine: &Machine, t: TransId) -> bool
    requires there { t.0 < length machine.now.transitions }
    ensures { IsFalse result → (u : TransId) → GoesOnBy machine.now t u → EndsInside machine.now u → ⊥ }
{
    match machine.vertex(machine.target(t)).kind {
        VertexKind::Junction => true,
        VertexKind::ExitPoint => true,
        VertexKind::Join => true,
        _ => false,
    }
}

// Whether the event starts the transition, alone or with others, and a search is wanted for it.
fn starts_search(machine: &Machine, config: &Config, event: Event, t: TransId) -> bool
    requires rules { KeepsModelRules machine.now }
    requires fits { Fits machine.now config.now }
    requires there { t.0 < length machine.now.transitions }
    ensures { IsFalse result → (u : TransId) → IsStartedWith machine.now (configuration_of config.now) event t
        → GoesOnBy machine.now t u → EndsInside machine.now u → ⊥ }
{
    wants_search(machine, t) && is_started_with(machine, config, event, t)
}

/// Whether the event starts a transition for which a search is wanted.
pub fn some_start_search(machine: &Machine, config: &Config, event: Event) -> bool
    requires rules { KeepsModelRules machine.now }
    requires fits { Fits machine.now config.now }
    ensures { IsFalse result → (t u : TransId) → IsStartedWith machine.now (configuration_of config.now) event t
        → GoesOnBy machine.now t u → EndsInside machine.now u → ⊥ }
{
    for number in 0..machine.transitions() {
        if starts_search(machine, config, event, TransId(number)) {
            return true;
        }
    }
    false
}

// Forgets what the search has seen.
fn forget(search: &mut [Search])
    ensures same { length search.new ≡ length search.old }
    ensures nothing { (m : DraftMachine) (truth : Truth) (within : Option RegionId)
        → KnowsDeadEnds m truth within search.new }
{
    if !search.is_empty() {
        search[0].clear();
    }
}

/// Whether a route that the event enables starts at the vertex. Where one does, what the search has
/// seen is forgotten.
pub fn reacts_afresh<T: Fn(GuardId) -> bool>(
    machine: &Machine,
    config: &Config,
    truth: &T,
    event: Event,
    source: VertexId,
    search: &mut [Search],
) -> bool
    requires rules { KeepsModelRules machine.now }
    requires fits { Fits machine.now config.now }
    requires askable { CanBeAsked machine.now (T.pre truth.now) }
    requires there { source.0 < length machine.now.vertices }
    requires room { HasSearch machine.now (configuration_of config.now) event search.old }
    ensures same { length search.new ≡ length search.old }
    ensures reacts { (values : Truth) → Tells machine.now (T.post truth.now) values
        → KnowsDeadEnds machine.now values None search.old
        → (IsTrue result ↔ Reacts machine.now (configuration_of config.now) values event source) }
    ensures dead { (values : Truth) → Tells machine.now (T.post truth.now) values
        → KnowsDeadEnds machine.now values None search.old
        → KnowsDeadEnds machine.now values None search.new }
{
    if reacts(machine, config, truth, event, source, search) {
        forget(search);
        return true;
    }
    false
}

// Whether the event starts the transition, alone or with the others into its join, and a way leads out from there. It is
// left open where a look does not tell.
fn leads_at_sight<T: Fn(GuardId) -> bool>(
    machine: &Machine,
    config: &Config,
    truth: &T,
    event: Event,
    t: TransId,
) -> Option<bool>
    requires rules { KeepsModelRules machine.now }
    requires fits { Fits machine.now config.now }
    requires askable { CanBeAsked machine.now (T.pre truth.now) }
    requires there { t.0 < length machine.now.transitions }
    ensures { (values : Truth) → Tells machine.now (T.post truth.now) values
        → IfSome result (λ is. IsTrue is ↔ StartsWay machine.now (configuration_of config.now) values event t) }
{
    if !is_started_with(machine, config, event, t) {
        return Some(false);
    }
    look(machine, truth, None, onward(machine, t))
}

/// Whether a route that the event enables starts at the vertex. It is left open where a look does not tell.
pub fn reacts_at_sight<T: Fn(GuardId) -> bool>(
    machine: &Machine,
    config: &Config,
    truth: &T,
    event: Event,
    source: VertexId,
) -> Option<bool>
    requires rules { KeepsModelRules machine.now }
    requires fits { Fits machine.now config.now }
    requires askable { CanBeAsked machine.now (T.pre truth.now) }
    requires there { source.0 < length machine.now.vertices }
    ensures { (values : Truth) → Tells machine.now (T.post truth.now) values
        → IfSome result (λ is. IsTrue is ↔ Reacts machine.now (configuration_of config.now) values event source) }
{
    for t in machine.outgoing(source) {
        if leads_at_sight(machine, config, truth, event, *t)? {
            return Some(true);
        }
    }
    Some(false)
}

/// The State that lies directly in the region and reacts to the event, if one does. It is left open where a look does not
/// tell.
pub fn reacting_in<T: Fn(GuardId) -> bool>(
    machine: &Machine,
    config: &Config,
    truth: &T,
    event: Event,
    region: RegionId,
) -> Option<Option<VertexId>>
    requires rules { KeepsModelRules machine.now }
    requires fits { Fits machine.now config.now }
    requires askable { CanBeAsked machine.now (T.pre truth.now) }
    requires region { region.0 < length machine.now.regions }
    ensures there { IfSome result (λ found. IfSome found (λ s. s.0 < length machine.now.vertices)) }
    ensures reacting { (values : Truth) → Tells machine.now (T.post truth.now) values
        → IfSome result (IsReactingIn machine.now (configuration_of config.now) values event region) }
{
    let Some(s) = config.active_in(region) else {
        return Some(None);
    };
    if reacts_at_sight(machine, config, truth, event, s)? {
        Some(Some(s))
    } else {
        Some(None)
    }
}
