//! What fires, as a word settles it (UML 2.5.1, 14.2.3.9, transition selection).
ghost use Rattle.std.specs.Prelude.{◌≡◌, ◌↔◌, ◌<◌, ◌≤◌, ◌%◌, length, All, Contains, IsTrue, IfOk, OnOk, IfSome};
ghost use Rattle.std.specs.Prelude.{IfNone};
ghost use Rattle.std.specs.List.Sorted.{IsPermutation};
ghost use Rattle.pssm_model.specs.declared.ids.TransId.{TransId};
ghost use Rattle.pssm_model.specs.declared.ids.VertexId.{VertexId};
ghost use Rattle.pssm_model.specs.declared.elements.VertexKind.TheVariants as kinds;
ghost use Rattle.pssm_model.specs.Forest.{HasKind};
ghost use Rattle.pssm_model.specs.Legs.{Leaves};
ghost use Rattle.pssm_model.specs.Routes.{Truth, IsStateRoute};
ghost use Rattle.pssm_model.specs.FiringSets.{IsFiringSet, IsListed, IsFiring};
ghost use Rattle.pssm_model.specs.WellFormed.{KeepsModelRules};
ghost use Rattle.pssm_config.specs.Tables.{Fits, configuration_of};
ghost use Rattle.pssm_enabled.specs.Telling.{CanBeAsked, Tells};
ghost use Rattle.pssm_routes.specs.inner.Footprints.{IsFootprintIn};
ghost use Rattle.pssm_routes.specs.inner.Starts.{IsStartedWith, StartsAmong, IsOutranked, IsCandidate};
ghost use Rattle.pssm_routes.specs.inner.Sets.{HasFreeRoute, HasJoiner};
ghost use Rattle.pssm_routes.specs.inner.Rooms.{IsJoiningRoute};
ghost use Rattle.pssm_routes.specs.inner.Picks.{first_number, StartApart, IsFreeRoute, IsFreeFrom, IsSpent, IsChosen};
ghost use Rattle.pssm_routes.specs.inner.Picks.{IsAdded, IsGrown};

use crate::areas::{Footprint, footprint_of};
use crate::candidates::candidates;
use crate::joining::{find_joiner, follow_joiner, is_kept_out};
use crate::leading::{is_started_with, onward, start_all_among};
use pssm_config::Config;
use pssm_enabled::{Step, check_route, ends_inside, route_of_trail, search_if, steps_of};
use pssm_model::{Event, Firing, GuardId, Machine, Route, Row, TransId, VertexId};
use std::alloc::{AllocError as NoMemory, Global};

// Whether the event starts the transition, alone or with the others into its join, from States that
// are among these.
fn starts_here(
    machine: &Machine,
    config: &Config,
    event: Event,
    states: &[VertexId],
    t: TransId,
) -> bool
    requires rules { KeepsModelRules machine.now }
    requires fits { Fits machine.now config.now }
    requires there { t.0 < length machine.now.transitions }
    requires source { (s : VertexId) → Leaves machine.now t s → Contains states.now s }
    ensures { IsTrue result ↔ (IsStartedWith machine.now (configuration_of config.now) event t
        × StartsAmong machine.now states.now t) }
{
    is_started_with(machine, config, event, t) && start_all_among(machine, states, t)
}

// The route with this start along the first open transitions, where it clashes with none of the
// footprints; none where these do not tell of one.
fn route_at_sight<T: Fn(GuardId) -> bool>(
    alloc: Global,
    machine: &Machine,
    truth: &T,
    footprints: &[Footprint],
    t: TransId,
) -> Result<Option<Route>, NoMemory>
    requires rules { KeepsModelRules machine.now }
    requires there { t.0 < length machine.now.transitions }
    requires footprints { All (IsFootprintIn machine.now) footprints.now }
    requires askable { CanBeAsked machine.now (T.pre truth.now) }
    requires source { (v : VertexId) → Leaves machine.now t v → HasKind machine.now v kinds.State }
    ensures some { (values : Truth) → Tells machine.now (T.post truth.now) values
        → IfOk result (λ found. IfSome found (IsJoiningRoute machine.now values footprints.now t)) }
{
    let mut steps = [Step {
        by: t,
        before: None,
    }; 64];
    let Some(last) = follow_joiner(machine, truth, footprints, t, &mut steps) else {
        return Ok(None);
    };
    let route = route_of_trail(alloc, machine, truth, &steps, t, last)?;
    Ok(Some(route))
}

// A route with this start that clashes with none of the footprints, if there is one, by a search.
fn route_by_search<T: Fn(GuardId) -> bool>(
    alloc: Global,
    machine: &Machine,
    truth: &T,
    footprints: &[Footprint],
    t: TransId,
) -> Result<Option<Route>, NoMemory>
    requires rules { KeepsModelRules machine.now }
    requires there { t.0 < length machine.now.transitions }
    requires footprints { All (IsFootprintIn machine.now) footprints.now }
    requires askable { CanBeAsked machine.now (T.pre truth.now) }
    requires source { (v : VertexId) → Leaves machine.now t v → HasKind machine.now v kinds.State }
    ensures some { (values : Truth) → Tells machine.now (T.post truth.now) values
        → IfOk result (λ found. IfSome found (IsJoiningRoute machine.now values footprints.now t)) }
    ensures none { (values : Truth) → Tells machine.now (T.post truth.now) values
        → IfOk result (λ found. IfNone found (HasFreeRoute machine.now values footprints.now t → ⊥)) }
{
    let _shaped = machine.regions();
    let mut made = search_if(alloc, ends_inside(machine, onward(machine, t)))?;
    let search = made.as_mut_slice();
    let Some(last) = find_joiner(machine, truth, footprints, t, search) else {
        return Ok(None);
    };
    let route = route_of_trail(alloc, machine, truth, steps_of(search), t, last)?;
    Ok(Some(route))
}

// A route with this start that clashes with none of the footprints, if there is one. Over junctions
// and exit points the first open transitions are followed before a search is made.
fn joining_route<T: Fn(GuardId) -> bool>(
    alloc: Global,
    machine: &Machine,
    truth: &T,
    footprints: &[Footprint],
    t: TransId,
) -> Result<Option<Route>, NoMemory>
    requires rules { KeepsModelRules machine.now }
    requires there { t.0 < length machine.now.transitions }
    requires footprints { All (IsFootprintIn machine.now) footprints.now }
    requires askable { CanBeAsked machine.now (T.pre truth.now) }
    requires source { (v : VertexId) → Leaves machine.now t v → HasKind machine.now v kinds.State }
    ensures some { (values : Truth) → Tells machine.now (T.post truth.now) values
        → IfOk result (λ found. IfSome found (IsJoiningRoute machine.now values footprints.now t)) }
    ensures none { (values : Truth) → Tells machine.now (T.post truth.now) values
        → IfOk result (λ found. IfNone found (HasFreeRoute machine.now values footprints.now t → ⊥)) }
{
    if ends_inside(machine, onward(machine, t)) {
        if let Some(route) = route_at_sight(alloc, machine, truth, footprints, t)? {
            return Ok(Some(route));
        }
    }
    route_by_search(alloc, machine, truth, footprints, t)
}

// A route from these States with this start that the event enables and that clashes with none of
// the footprints, if there is one. What was found is checked, since only the values of the guards
// say that it is enabled.
fn free_route<T: Fn(GuardId) -> bool>(
    alloc: Global,
    machine: &Machine,
    config: &Config,
    truth: &T,
    event: Event,
    states: &[VertexId],
    footprints: &[Footprint],
    t: TransId,
) -> Result<Option<Route>, NoMemory>
    requires rules { KeepsModelRules machine.now }
    requires fits { Fits machine.now config.now }
    requires askable { CanBeAsked machine.now (T.pre truth.now) }
    requires footprints { All (IsFootprintIn machine.now) footprints.now }
    requires there { t.0 < length machine.now.transitions }
    requires source { (s : VertexId) → Leaves machine.now t s → Contains states.now s }
    ensures route { IfOk result (λ found. IfSome found (IsStateRoute machine.now)) }
    ensures some { (values : Truth) → Tells machine.now (T.post truth.now) values
        → IfOk result (λ found. IfSome found
        (IsFreeRoute machine.now (configuration_of config.now) values event states.now footprints.now t)) }
    ensures none { (values : Truth) → Tells machine.now (T.post truth.now) values
        → IfOk result (λ found. IfNone found
        (HasJoiner machine.now (configuration_of config.now) values event states.now footprints.now t → ⊥)) }
{
    let _shaped = machine.regions();
    if is_kept_out(machine, footprints, t) {
        return Ok(None);
    }
    if !starts_here(machine, config, event, states, t) {
        return Ok(None);
    }
    let Some(route) = joining_route(alloc, machine, truth, footprints, t)? else {
        return Ok(None);
    };
    if !check_route(machine, config, truth, event, &route) {
        return Ok(None);
    }
    Ok(Some(route))
}

// A route from these States, and from this one of them, that the event enables and that clashes
// with none of the footprints, if there is one.
fn free_route_from<T: Fn(GuardId) -> bool>(
    alloc: Global,
    machine: &Machine,
    config: &Config,
    truth: &T,
    event: Event,
    states: &[VertexId],
    footprints: &[Footprint],
    source: VertexId,
) -> Result<Option<Route>, NoMemory>
    requires rules { KeepsModelRules machine.now }
    requires fits { Fits machine.now config.now }
    requires askable { CanBeAsked machine.now (T.pre truth.now) }
    requires footprints { All (IsFootprintIn machine.now) footprints.now }
    requires there { source.0 < length machine.now.vertices }
    requires among { Contains states.now source }
    ensures route { IfOk result (λ found. IfSome found (IsStateRoute machine.now)) }
    ensures some { (values : Truth) → Tells machine.now (T.post truth.now) values
        → IfOk result (λ found. IfSome found
        (IsFreeFrom machine.now (configuration_of config.now) values event states.now footprints.now source)) }
    ensures none { (values : Truth) → Tells machine.now (T.post truth.now) values
        → IfOk result (λ found. IfNone found
        (IsSpent machine.now (configuration_of config.now) values event states.now footprints.now source)) }
{
    for t in machine.outgoing(source) {
        if let Some(route) = free_route(
            alloc, machine, config, truth, event, states, footprints, *t,
        )? {
            return Ok(Some(route));
        }
    }
    Ok(None)
}

/// The routes that have been chosen to fire together, and their footprints.
#[derive(Drop)]
struct Chosen {
    routes: Vec<Route>,
    footprints: Vec<Footprint>,
}

impl Chosen {
    // Adds the route and its footprint.
    fn add(&mut self, machine: &Machine, route: Route) -> Result<(), NoMemory>
        requires rules { KeepsModelRules machine.now }
        requires route { IsStateRoute machine.now route }
        ensures { OnOk result (IsAdded machine.now route self.old.routes.items self.old.footprints.items
            self.new.routes.items
            self.new.footprints.items) }
    {
        self.footprints.push(footprint_of(machine, &route))?;
        self.routes.push(route)?;
        Ok(())
    }

    // Adds a route from the States that starts at this one of them, if there is one that clashes
    // with none of those that were chosen.
    fn add_from<T: Fn(GuardId) -> bool>(
        &mut self,
        alloc: Global,
        machine: &Machine,
        config: &Config,
        truth: &T,
        event: Event,
        states: &[VertexId],
        source: VertexId,
    ) -> Result<(), NoMemory>
        requires rules { KeepsModelRules machine.now }
        requires fits { Fits machine.now config.now }
        requires askable { CanBeAsked machine.now (T.pre truth.now) }
        requires footprints { All (IsFootprintIn machine.now) self.old.footprints.items }
        requires there { source.0 < length machine.now.vertices }
        requires among { Contains states.now source }
        ensures footprints { OnOk result (All (IsFootprintIn machine.now) self.new.footprints.items) }
        ensures grown { (values : Truth) → Tells machine.now (T.post truth.now) values
            → ((s : VertexId) → Contains states.now s
            → IsOutranked machine.now (configuration_of config.now) values event s → ⊥)
            → IsChosen machine.now (configuration_of config.now) values event self.old.routes.items
            self.old.footprints.items
            → OnOk result (IsGrown machine.now (configuration_of config.now) values event states.now (λ s. s ≡ source)
            self.old.footprints.items self.new.routes.items self.new.footprints.items) }
    {
        let found = free_route_from(
            alloc,
            machine,
            config,
            truth,
            event,
            states,
            self.footprints.as_slice(),
            source,
        )?;
        match found {
            Some(route) => self.add(machine, route),
            None => Ok(()),
        }
    }

    // Adds what can be added from the States, from each of some of them in turn.
    fn add_from_each<T: Fn(GuardId) -> bool>(
        &mut self,
        alloc: Global,
        machine: &Machine,
        config: &Config,
        truth: &T,
        event: Event,
        states: &[VertexId],
        some: &[VertexId],
    ) -> Result<(), NoMemory>
        requires rules { KeepsModelRules machine.now }
        requires fits { Fits machine.now config.now }
        requires askable { CanBeAsked machine.now (T.pre truth.now) }
        requires footprints { All (IsFootprintIn machine.now) self.old.footprints.items }
        requires there { All (λ s. s.0 < length machine.now.vertices) some.now }
        requires among { (s : VertexId) → Contains some.now s → Contains states.now s }
        ensures footprints { OnOk result (All (IsFootprintIn machine.now) self.new.footprints.items) }
        ensures grown { (values : Truth) → Tells machine.now (T.post truth.now) values
            → ((s : VertexId) → Contains states.now s
            → IsOutranked machine.now (configuration_of config.now) values event s → ⊥)
            → IsChosen machine.now (configuration_of config.now) values event self.old.routes.items
            self.old.footprints.items
            → OnOk result (IsGrown machine.now (configuration_of config.now) values event states.now (Contains some.now)
            self.old.footprints.items self.new.routes.items self.new.footprints.items) }
    {
        for s in some {
            self.add_from(alloc, machine, config, truth, event, states, *s)?;
        }
        Ok(())
    }
}

// The number of the first start of a route.
fn first_start(route: &Route) -> u16
    ensures { result ≡ first_number route.now.starts }
{
    match route.starts.as_slice() {
        [start, ..] => start.0,
        [] => 0,
    }
}

// Puts the routes in ascending number of their first starts.
fn put_in_order(routes: &mut Vec<Route>) -> Result<(), NoMemory>
    ensures moved { OnOk result (IsPermutation routes.old.items routes.new.items) }
    ensures listed { StartApart routes.old.items → OnOk result (IsListed routes.new.items) }
{
    routes.sort_by_key(|route| first_start(route))?;
    Ok(())
}

/// The place in a list of this length at which the word begins.
pub fn place_of(word: u64, count: usize) -> usize
    ensures within { result ≤ count }
    ensures remainder { 0 < count → result ≡ word % count }
{
    if count == 0 {
        return 0;
    }
    (word % count as u64) as usize
}

// Routes that fire together, of those that start at these States: from the place on that the word
// names, and then from the first on.
fn choose<T: Fn(GuardId) -> bool>(
    alloc: Global,
    machine: &Machine,
    config: &Config,
    truth: &T,
    event: Event,
    states: &[VertexId],
    word: u64,
) -> Result<Vec<Route>, NoMemory>
    requires rules { KeepsModelRules machine.now }
    requires fits { Fits machine.now config.now }
    requires askable { CanBeAsked machine.now (T.pre truth.now) }
    requires there { All (λ s. s.0 < length machine.now.vertices) states.now }
    ensures { (values : Truth) → Tells machine.now (T.post truth.now) values
        → ((s : VertexId) → Contains states.now s
        ↔ IsCandidate machine.now (configuration_of config.now) values event s)
        → IfOk result (λ routes. IsFiringSet machine.now (configuration_of config.now) values event routes.items
        × StartApart routes.items) }
{
    let (later, first) = states.split_at(place_of(word, states.len()));
    let mut chosen = Chosen {
        routes: Vec::new(alloc),
        footprints: Vec::new(alloc),
    };
    chosen.add_from_each(alloc, machine, config, truth, event, states, first)?;
    chosen.add_from_each(alloc, machine, config, truth, event, states, later)?;
    let Chosen {
        routes,
        footprints: _,
    } = chosen;
    Ok(routes)
}

// The States that react to the event and in which none does, in ascending number.
fn candidates_in_order<T: Fn(GuardId) -> bool>(
    alloc: Global,
    machine: &Machine,
    config: &Config,
    truth: &T,
    event: Event,
) -> Result<Vec<VertexId>, NoMemory>
    requires rules { KeepsModelRules machine.now }
    requires fits { Fits machine.now config.now }
    requires askable { CanBeAsked machine.now (T.pre truth.now) }
    ensures there { IfOk result (λ found. All (λ s. s.0 < length machine.now.vertices) found.items) }
    ensures states { (values : Truth) → Tells machine.now (T.post truth.now) values
        → IfOk result (λ found. (s : VertexId) → Contains found.items s
        ↔ IsCandidate machine.now (configuration_of config.now) values event s) }
{
    let mut states = candidates(alloc, machine, config, truth, event)?;
    states.sort_by_key(|s| s.0)?;
    Ok(states)
}

/// Routes that the event fires together. From all sets that it may fire the word settles one: of
/// the States that react, those from a place on come first that the word names (UML 2.5.1,
/// 14.2.3.9, transition selection).
///
/// `NoMemory`: memory ran out.
pub fn pick_firing_set<T: Fn(GuardId) -> bool>(
    alloc: Global,
    machine: &Machine,
    config: &Config,
    truth: &T,
    event: Event,
    word: u64,
) -> Result<Firing, NoMemory>
    requires rules { KeepsModelRules machine.now }
    requires fits { Fits machine.now config.now }
    requires askable { CanBeAsked machine.now (T.pre truth.now) }
    ensures { (values : Truth) → Tells machine.now (T.post truth.now) values
        → IfOk result (λ firing. IsFiring machine.now (configuration_of config.now) values event firing.routes) }
{
    let states = candidates_in_order(alloc, machine, config, truth, event)?;
    let mut routes = choose(
        alloc,
        machine,
        config,
        truth,
        event,
        states.as_slice(),
        word,
    )?;
    put_in_order(&mut routes)?;
    Ok(Firing {
        routes: Row::from_vec(routes),
    })
}
