//! Whether routes are what fires: a largest set of enabled ones that do not conflict (UML 2.5.1,
//! 14.2.3.9).
ghost use Rattle.std.specs.Prelude.{◌≢◌, ◌↔◌, ◌<◌, [], length, All, Contains, IsTrue, IfOk, IfSome};
ghost use Rattle.pssm_model.specs.declared.ids.VertexId.{VertexId};
ghost use Rattle.pssm_model.specs.declared.ids.TransId.{TransId};
ghost use Rattle.pssm_model.specs.declared.steps.Route.{Route as DraftRoute};
ghost use Rattle.pssm_model.specs.Legs.{Leaves};
ghost use Rattle.pssm_model.specs.Routes.{Truth, IsSource, IsEnabled, IsStateRoute};
ghost use Rattle.pssm_model.specs.FiringSets.{StartsBefore, IsListed, IsFiring};
ghost use Rattle.pssm_model.specs.WellFormed.{KeepsModelRules};
ghost use Rattle.pssm_config.specs.Tables.{Fits, configuration_of};
ghost use Rattle.pssm_enabled.specs.Telling.{CanBeAsked, Tells};
ghost use Rattle.pssm_routes.specs.inner.Footprints.{AreFootprints, IsFootprintIn, ClashesWithSome};
ghost use Rattle.pssm_routes.specs.inner.Sets.{AreApart, HasJoiner, HasJoinerFrom, AreComplete};

use crate::areas::{Footprint, clash, footprint_of};
use crate::candidates::{candidates, lone_reacting};
use crate::joining::{has_joiner, is_kept_out};
use crate::leading::{is_started_with, leave_among, start_all_among};
use crate::spread::are_spread;
use pssm_config::Config;
use pssm_enabled::check_route;
use pssm_model::{Event, Firing, GuardId, Machine, Route, TransId, VertexId};
use std::alloc::{AllocError as NoMemory, Global};

// Whether the event enables all of the routes.
fn are_enabled<T: Fn(GuardId) -> bool>(
    machine: &Machine,
    config: &Config,
    truth: &T,
    event: Event,
    routes: &[Route],
) -> bool
    requires rules { KeepsModelRules machine.now }
    requires fits { Fits machine.now config.now }
    requires askable { CanBeAsked machine.now (T.pre truth.now) }
    ensures enabled { (values : Truth) → Tells machine.now (T.post truth.now) values
        → (IsTrue result ↔ All (IsEnabled machine.now (configuration_of config.now) values event) routes.now) }
    ensures routes { IsTrue result → All (IsStateRoute machine.now) routes.now }
{
    for route in routes {
        if !check_route(machine, config, truth, event, route) {
            return false;
        }
    }
    true
}

// Whether the first starts of the routes ascend.
fn are_listed(routes: &[Route]) -> bool
    requires { All (λ p. p.starts ≢ []) routes.now }
    ensures { IsTrue result ↔ IsListed routes.now }
{
    for i in 1..routes.len() {
        if !starts_before(&routes[i - 1], &routes[i]) {
            return false;
        }
    }
    true
}

// Whether the first start of the first route has a lower number than that of the second.
fn starts_before(first: &Route, second: &Route) -> bool
    ensures { IsTrue result ↔ StartsBefore first.now second.now }
{
    match (first.starts.as_slice(), second.starts.as_slice()) {
        ([t, ..], [u, ..]) => t.0 < u.0,
        _ => true,
    }
}

// The footprints of the routes, one after another.
fn footprints_of(
    alloc: Global,
    machine: &Machine,
    routes: &[Route],
) -> Result<Vec<Footprint>, NoMemory>
    requires rules { KeepsModelRules machine.now }
    requires routes { All (IsStateRoute machine.now) routes.now }
    ensures footprints { IfOk result (λ footprints. AreFootprints machine.now routes.now footprints.items) }
    ensures there { IfOk result (λ footprints. All (IsFootprintIn machine.now) footprints.items) }
{
    let mut footprints = Vec::new(alloc);
    for route in routes {
        footprints.push(footprint_of(machine, route))?;
    }
    Ok(footprints)
}

// Whether the footprint clashes with one of the others.
fn clashes_with(machine: &Machine, footprint: Footprint, others: &[Footprint]) -> bool
    requires footprint { IsFootprintIn machine.now footprint }
    requires others { All (IsFootprintIn machine.now) others.now }
    ensures { IsTrue result ↔ ClashesWithSome machine.now others.now footprint }
{
    for other in others {
        if clash(machine, *other, footprint) {
            return true;
        }
    }
    false
}

// Whether no two of the footprints clash.
fn are_apart(machine: &Machine, footprints: &[Footprint]) -> bool
    requires { All (IsFootprintIn machine.now) footprints.now }
    ensures { IsTrue result ↔ AreApart machine.now footprints.now }
{
    let mut rest = footprints;
    while let Some((first, more)) = rest.split_first() {
        if clashes_with(machine, *first, more) {
            return false;
        }
        rest = more;
    }
    true
}

// Whether the sources of the route are among the States.
fn starts_among(machine: &Machine, states: &[VertexId], route: &Route) -> bool
    requires route { IsStateRoute machine.now route.now }
    ensures { IsTrue result ↔ ((s : VertexId) → IsSource machine.now route.now s → Contains states.now s) }
{
    leave_among(machine, states, route.starts.as_slice())
}

// Whether the sources of all the routes are among the States.
fn start_among(machine: &Machine, states: &[VertexId], routes: &[Route]) -> bool
    requires routes { All (IsStateRoute machine.now) routes.now }
    ensures { IsTrue result ↔ ((p : DraftRoute) (s : VertexId) → Contains routes.now p
        → IsSource machine.now p s → Contains states.now s) }
{
    for route in routes {
        if !starts_among(machine, states, route) {
            return false;
        }
    }
    true
}

// Whether a route from these States with this start could join those of the footprints.
fn joins_by<T: Fn(GuardId) -> bool>(
    machine: &Machine,
    config: &Config,
    truth: &T,
    event: Event,
    states: &[VertexId],
    footprints: &[Footprint],
    t: TransId,
) -> bool
    requires rules { KeepsModelRules machine.now }
    requires fits { Fits machine.now config.now }
    requires footprints { All (IsFootprintIn machine.now) footprints.now }
    requires askable { CanBeAsked machine.now (T.pre truth.now) }
    requires there { t.0 < length machine.now.transitions }
    requires source { (s : VertexId) → Leaves machine.now t s → Contains states.now s }
    ensures { (values : Truth) → Tells machine.now (T.post truth.now) values
        → (IsTrue result
        ↔ HasJoiner machine.now (configuration_of config.now) values event states.now footprints.now t) }
{
    if is_kept_out(machine, footprints, t) {
        return false;
    }
    if !is_started_with(machine, config, event, t) {
        return false;
    }
    start_all_among(machine, states, t) && has_joiner(machine, truth, footprints, t)
}

// Whether a route from these States that starts at this one of them could join those of the
// footprints.
fn joins_from<T: Fn(GuardId) -> bool>(
    machine: &Machine,
    config: &Config,
    truth: &T,
    event: Event,
    states: &[VertexId],
    footprints: &[Footprint],
    source: VertexId,
) -> bool
    requires rules { KeepsModelRules machine.now }
    requires fits { Fits machine.now config.now }
    requires footprints { All (IsFootprintIn machine.now) footprints.now }
    requires askable { CanBeAsked machine.now (T.pre truth.now) }
    requires there { source.0 < length machine.now.vertices }
    requires among { Contains states.now source }
    ensures { (values : Truth) → Tells machine.now (T.post truth.now) values
        → (IsTrue result ↔ ((t : TransId) × Leaves machine.now t source
        × HasJoiner machine.now (configuration_of config.now) values event states.now footprints.now t)) }
{
    for t in machine.outgoing(source) {
        if joins_by(machine, config, truth, event, states, footprints, *t) {
            return true;
        }
    }
    false
}

// Whether a route that starts at the States could join those of the footprints.
fn joins_from_some<T: Fn(GuardId) -> bool>(
    machine: &Machine,
    config: &Config,
    truth: &T,
    event: Event,
    footprints: &[Footprint],
    states: &[VertexId],
) -> bool
    requires rules { KeepsModelRules machine.now }
    requires fits { Fits machine.now config.now }
    requires footprints { All (IsFootprintIn machine.now) footprints.now }
    requires askable { CanBeAsked machine.now (T.pre truth.now) }
    requires there { All (λ s. s.0 < length machine.now.vertices) states.now }
    ensures { (values : Truth) → Tells machine.now (T.post truth.now) values
        → (IsTrue result
        ↔ HasJoinerFrom machine.now (configuration_of config.now) values event states.now footprints.now) }
{
    for s in states {
        if joins_from(machine, config, truth, event, states, footprints, *s) {
            return true;
        }
    }
    false
}

// Whether no two of the footprints clash, which may be known.
fn are_all_apart(machine: &Machine, footprints: &[Footprint], apart: bool) -> bool
    requires there { All (IsFootprintIn machine.now) footprints.now }
    requires known { IsTrue apart → AreApart machine.now footprints.now }
    ensures { IsTrue result ↔ AreApart machine.now footprints.now }
{
    apart || are_apart(machine, footprints)
}

// Whether the sources of the routes are among the States, no two of their footprints clash, which may be known, and no
// route that starts at the States could join them.
fn are_complete<T: Fn(GuardId) -> bool>(
    machine: &Machine,
    config: &Config,
    truth: &T,
    event: Event,
    routes: &[Route],
    footprints: &[Footprint],
    apart: bool,
    states: &[VertexId],
) -> bool
    requires rules { KeepsModelRules machine.now }
    requires fits { Fits machine.now config.now }
    requires apart { IsTrue apart → AreApart machine.now footprints.now }
    requires routes { All (IsStateRoute machine.now) routes.now }
    requires footprints { All (IsFootprintIn machine.now) footprints.now }
    requires askable { CanBeAsked machine.now (T.pre truth.now) }
    requires there { All (λ s. s.0 < length machine.now.vertices) states.now }
    ensures { (values : Truth) → Tells machine.now (T.post truth.now) values
        → (IsTrue result ↔ AreComplete machine.now (configuration_of config.now) values event states.now
        routes.now footprints.now) }
{
    start_among(machine, states, routes)
        && are_all_apart(machine, footprints, apart)
        && !joins_from_some(machine, config, truth, event, footprints, states)
}

// Whether the one route is what the event fires, where one State reacts alone. It says nothing elsewhere, and takes no
// memory.
fn told_by_lone<T: Fn(GuardId) -> bool>(
    machine: &Machine,
    config: &Config,
    truth: &T,
    event: Event,
    routes: &[Route],
) -> Option<bool>
    requires rules { KeepsModelRules machine.now }
    requires fits { Fits machine.now config.now }
    requires askable { CanBeAsked machine.now (T.pre truth.now) }
    requires routes { All (IsStateRoute machine.now) routes.now }
    ensures { (values : Truth) → Tells machine.now (T.post truth.now) values
        → All (IsEnabled machine.now (configuration_of config.now) values event) routes.now
        → IfSome result (λ is. IsTrue is
        ↔ IsFiring machine.now (configuration_of config.now) values event routes.now) }
{
    match routes {
        [route] => {
            let state = lone_reacting(machine, config, truth, event)?;
            let footprint = footprint_of(machine, route);
            Some(are_complete(
                machine,
                config,
                truth,
                event,
                routes,
                &[footprint],
                false,
                &[state],
            ))
        }
        _ => None,
    }
}

// Whether enabled routes are what the event fires.
fn is_set_of_enabled<T: Fn(GuardId) -> bool>(
    alloc: Global,
    machine: &Machine,
    config: &Config,
    truth: &T,
    event: Event,
    routes: &[Route],
) -> Result<bool, NoMemory>
    requires rules { KeepsModelRules machine.now }
    requires fits { Fits machine.now config.now }
    requires askable { CanBeAsked machine.now (T.pre truth.now) }
    requires routes { All (IsStateRoute machine.now) routes.now }
    ensures { (values : Truth) → Tells machine.now (T.post truth.now) values
        → All (IsEnabled machine.now (configuration_of config.now) values event) routes.now
        → IfOk result (λ is. IsTrue is
        ↔ IsFiring machine.now (configuration_of config.now) values event routes.now) }
{
    if !are_listed(routes) {
        return Ok(false);
    }
    let footprints = footprints_of(alloc, machine, routes)?;
    let apart = are_spread(alloc, machine, footprints.as_slice())?;
    let states = candidates(alloc, machine, config, truth, event)?;
    Ok(are_complete(
        machine,
        config,
        truth,
        event,
        routes,
        footprints.as_slice(),
        apart,
        states.as_slice(),
    ))
}

/// Whether these routes are what the event fires: enabled routes no two of which conflict, none of
/// which conflicts with an enabled one that has priority over it, and to which none can be added;
/// listed in ascending number of their first starts (UML 2.5.1, 14.2.3.9, transition selection; the
/// order is this profile's choice).
///
/// `NoMemory`: memory ran out.
pub fn is_firing_set<T: Fn(GuardId) -> bool>(
    alloc: Global,
    machine: &Machine,
    config: &Config,
    truth: &T,
    event: Event,
    firing: &Firing,
) -> Result<bool, NoMemory>
    requires rules { KeepsModelRules machine.now }
    requires fits { Fits machine.now config.now }
    requires askable { CanBeAsked machine.now (T.pre truth.now) }
    ensures { (values : Truth) → Tells machine.now (T.post truth.now) values
        → IfOk result (λ is. IsTrue is
        ↔ IsFiring machine.now (configuration_of config.now) values event firing.now.routes) }
{
    let routes = firing.routes.as_slice();
    if !are_enabled(machine, config, truth, event, routes) {
        return Ok(false);
    }
    match told_by_lone(machine, config, truth, event, routes) {
        Some(fires) => Ok(fires),
        None => is_set_of_enabled(alloc, machine, config, truth, event, routes),
    }
}
