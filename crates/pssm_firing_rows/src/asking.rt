//! The calls that are tried, with the guards that are true.
ghost use Rattle.std.specs.Prelude.{◌<◌, length};
ghost use Rattle.pssm_config.specs.Tables.{Fits};
ghost use Rattle.pssm_model.specs.WellFormed.{KeepsModelRules};

use crate::listing::Listing;
use crate::marks::Marks;
use crate::situation::{Candidate, Situation};
use pssm_config::Config;
use pssm_model::{Event, Firing, GuardId, Machine, Route, Row, SignalId, TransId, VertexId};
use pssm_routes::{check_route, is_firing_set, overrides, pick_firing_set};
use std::alloc::{AllocError as NoMemory, Global};

/// What the calls are asked of: a machine and its configuration, the situation that they were made from, and what the
/// definitions say of that.
#[derive(Drop)]
pub(crate) struct Subject {
    pub(crate) machine: Machine,
    pub(crate) config: Config,
    pub(crate) situation: Situation,
    pub(crate) listing: Listing,
}

impl Subject {
    /// Whether the call says that these routes fire together.
    pub(crate) fn fires(&self, alloc: Global, firing: &Firing) -> Result<bool, NoMemory>
        requires rules { KeepsModelRules self.now.machine }
        requires fits { Fits self.now.machine self.now.config }
    {
        let truth = self.situation.truth;
        is_firing_set(
            alloc,
            &self.machine,
            &self.config,
            &|g: GuardId| truth.has(g.0),
            Event::Signal(SignalId(0)),
            firing,
        )
    }

    /// The routes that the call picks by the word.
    pub(crate) fn picks(&self, alloc: Global, word: u64) -> Result<Firing, NoMemory>
        requires rules { KeepsModelRules self.now.machine }
        requires fits { Fits self.now.machine self.now.config }
    {
        let truth = self.situation.truth;
        pick_firing_set(
            alloc,
            &self.machine,
            &self.config,
            &|g: GuardId| truth.has(g.0),
            Event::Signal(SignalId(0)),
            word,
        )
    }

    /// Whether the call says that the route is one, and enabled.
    pub(crate) fn enables(&self, route: &Route) -> bool
        requires rules { KeepsModelRules self.now.machine }
        requires fits { Fits self.now.machine self.now.config }
    {
        let truth = self.situation.truth;
        check_route(
            &self.machine,
            &self.config,
            &|g: GuardId| truth.has(g.0),
            Event::Signal(SignalId(0)),
            route,
        )
    }

    /// Whether the call says that an enabled route starts at the State or in it.
    pub(crate) fn overrides(&self, state: u16) -> bool
        requires rules { KeepsModelRules self.now.machine }
        requires fits { Fits self.now.machine self.now.config }
    {
        let truth = self.situation.truth;
        state < self.machine.vertices()
            && overrides(
                &self.machine,
                &self.config,
                &|g: GuardId| truth.has(g.0),
                SignalId(0),
                VertexId(state),
            )
    }
}

/// The route of the transitions, each list of them ascending.
pub(crate) fn route_of(alloc: Global, candidate: Candidate) -> Result<Route, NoMemory> {
    let starts = vec![in alloc; TransId(candidate.start)]?;
    let mut rest = Vec::new(alloc);
    for number in 0..64 {
        if candidate.rest.has(number) {
            rest.push(TransId(number))?;
        }
    }
    Ok(Route {
        starts: Row::from_vec(starts),
        rest: Row::from_vec(rest),
    })
}

/// The enabled routes at the places in the set, ascending by their starts, as they are listed.
pub(crate) fn firing_of(alloc: Global, listing: &Listing, set: Marks) -> Result<Firing, NoMemory> {
    let mut routes = Vec::new(alloc);
    for place in 0..listing.routes() {
        if let Some(enabled) = listing.enabled.as_slice().get(place as usize)
            && set.has(place)
        {
            routes.push(route_of(alloc, enabled.route)?)?;
        }
    }
    Ok(Firing {
        routes: Row::from_vec(routes),
    })
}

/// The same routes from the last to the first.
pub(crate) fn turned(alloc: Global, firing: &Firing) -> Result<Firing, NoMemory> {
    let mut routes = Vec::new(alloc);
    for route in firing.routes.as_slice().iter().rev() {
        routes.push(route.copy(alloc)?)?;
    }
    Ok(Firing {
        routes: Row::from_vec(routes),
    })
}

/// The same routes with one more, at the place where it belongs by its start.
pub(crate) fn with_route(
    alloc: Global,
    firing: &Firing,
    added: Candidate,
) -> Result<Firing, NoMemory> {
    let mut routes = Vec::new(alloc);
    let mut waits = true;
    for route in firing.routes.as_slice() {
        if waits && starts_after(route, added.start) {
            routes.push(route_of(alloc, added)?)?;
            waits = false;
        }
        routes.push(route.copy(alloc)?)?;
    }
    if waits {
        routes.push(route_of(alloc, added)?)?;
    }
    Ok(Firing {
        routes: Row::from_vec(routes),
    })
}

// Whether the first start of the route has a higher number.
fn starts_after(route: &Route, start: u16) -> bool {
    match route.starts.as_slice() {
        [first, ..] => first.0 > start,
        [] => false,
    }
}
