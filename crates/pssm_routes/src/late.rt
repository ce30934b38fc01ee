//! Late routes: those on which a step goes on within itself, from an initial, history or choice
//! vertex (UML 2.5.1, 14.2.3.7 and 14.2.3.8).
ghost use Rattle.std.specs.Prelude.{◌≡◌, ◌↔◌, ◌<◌, ◌∷◌, [], length, All, IsTrue, IfOk};
ghost use Rattle.pssm_model.specs.declared.ids.TransId.{TransId};
ghost use Rattle.pssm_model.specs.Legs.{Leaves};
ghost use Rattle.pssm_model.specs.Paths.{HasOut};
ghost use Rattle.pssm_model.specs.Routes.{Truth, IsTrueAt, IsRoute};
ghost use Rattle.pssm_model.specs.FiringSets.{IsLateOrigin, IsLateRoute};
ghost use Rattle.pssm_model.specs.WellFormed.{KeepsModelRules};
ghost use Rattle.pssm_enabled.specs.Telling.{CanBeAsked, Tells};
ghost use Rattle.pssm_enabled.specs.Fitting.{route_with};
ghost use Rattle.pssm_routes.specs.inner.Late.{StartsLate};
ghost use Rattle.pssm_routes.specs.LateStarts.{AreTrueFrom, IsSettledStart};

use crate::pick::place_of;
use pssm_enabled::{
    are_all_true, ends_inside, find_way, is_route_over, is_true_at, route_of_trail, search_if,
    steps_of,
};
use pssm_model::{GuardId, Machine, Route, Row, TransId, VertexId, VertexKind};
use std::alloc::{AllocError as NoMemory, Global};

// Whether a route goes on from the vertex within a step.
fn is_late_origin(machine: &Machine, v: VertexId) -> bool
    requires there { v.0 < length machine.now.vertices }
    ensures { IsTrue result ↔ IsLateOrigin machine.now v }
{
    match machine.vertex(v).kind {
        VertexKind::Initial => true,
        VertexKind::ShallowHistory => true,
        VertexKind::DeepHistory => true,
        VertexKind::Choice => true,
        _ => false,
    }
}

// Whether the transition leaves the vertex, and a route goes on from that within a step.
fn starts_late(machine: &Machine, origin: VertexId, start: TransId) -> bool
    ensures { IsTrue result ↔ (IsLateOrigin machine.now origin × Leaves machine.now start origin) }
{
    let _shaped = machine.regions();
    if start.0 >= machine.transitions() {
        return false;
    }
    machine.source(start) == origin && is_late_origin(machine, origin)
}

// Whether it is one transition, which does so.
fn start_late(machine: &Machine, origin: VertexId, starts: &[TransId]) -> bool
    ensures { IsTrue result ↔ StartsLate machine.now origin starts.now }
{
    if starts.len() == 1 {
        return starts_late(machine, origin, starts[0]);
    }
    false
}

// Whether the starts are one transition out of the vertex, from which a route goes on within a step, and make one route
// with the other transitions.
fn is_route_after(machine: &Machine, origin: VertexId, starts: &[TransId], rest: &[TransId]) -> bool
    requires rules { KeepsModelRules machine.now }
    ensures { IsTrue result ↔ (StartsLate machine.now origin starts.now
        × IsRoute machine.now (route_with starts.now rest.now)) }
{
    start_late(machine, origin, starts) && is_route_over(machine, starts, rest)
}

// Whether the starts and the other transitions make one late route from the vertex, with true
// guards.
fn is_late_from<T: Fn(GuardId) -> bool>(
    machine: &Machine,
    truth: &T,
    origin: VertexId,
    starts: &[TransId],
    rest: &[TransId],
) -> bool
    requires rules { KeepsModelRules machine.now }
    requires askable { CanBeAsked machine.now (T.pre truth.now) }
    ensures { (values : Truth) → Tells machine.now (T.post truth.now) values
        → (IsTrue result ↔ IsLateRoute machine.now values origin (route_with starts.now rest.now)) }
{
    is_route_after(machine, origin, starts, rest) && are_all_true(machine, truth, starts, rest)
}

/// Whether the route is a late one from the vertex, with true guards (UML 2.5.1, 14.2.3.7 and
/// 14.2.3.8). It takes no memory.
pub fn check_late<T: Fn(GuardId) -> bool>(
    machine: &Machine,
    truth: &T,
    origin: VertexId,
    route: &Route,
) -> bool
    requires rules { KeepsModelRules machine.now }
    requires askable { CanBeAsked machine.now (T.pre truth.now) }
    ensures { (values : Truth) → Tells machine.now (T.post truth.now) values
        → (IsTrue result ↔ IsLateRoute machine.now values origin route.now) }
{
    let starts = route.starts.as_slice();
    let rest = route.rest.as_slice();
    is_late_from(machine, truth, origin, starts, rest)
}

// The transitions out of the vertex that are true, in ascending number.
fn true_from<T: Fn(GuardId) -> bool>(
    alloc: Global,
    machine: &Machine,
    truth: &T,
    origin: VertexId,
) -> Result<Vec<TransId>, NoMemory>
    requires there { origin.0 < length machine.now.vertices }
    requires askable { CanBeAsked machine.now (T.pre truth.now) }
    ensures leave { IfOk result (λ found. All (λ t. Leaves machine.now t origin) found.items) }
    ensures true_ones { (values : Truth) → Tells machine.now (T.post truth.now) values
        → IfOk result (λ found. AreTrueFrom machine.now values origin found.items) }
{
    let mut found = Vec::new(alloc);
    for t in machine.outgoing(origin) {
        if is_true_at(machine, truth, *t) {
            found.push(*t)?;
        }
    }
    Ok(found)
}

// A route of no transitions.
fn no_route(alloc: Global) -> Route {
    Route {
        starts: Row::from_vec(Vec::new(alloc)),
        rest: Row::from_vec(Vec::new(alloc)),
    }
}

// A late route from the vertex that starts with the transition, where that is true; one of no
// transitions where the closure shuts every way from it.
fn late_route_by<T: Fn(GuardId) -> bool>(
    alloc: Global,
    machine: &Machine,
    truth: &T,
    origin: VertexId,
    start: TransId,
) -> Result<Route, NoMemory>
    requires rules { KeepsModelRules machine.now }
    requires askable { CanBeAsked machine.now (T.pre truth.now) }
    requires origin { IsLateOrigin machine.now origin }
    requires leaves { Leaves machine.now start origin }
    ensures { (values : Truth) → Tells machine.now (T.post truth.now) values
        → IsTrueAt machine.now values start
        → IfOk result (λ route. IsLateRoute machine.now values origin route × (route.starts ≡ start ∷ [])) }
{
    let _shaped = machine.regions();
    let mut made = search_if(alloc, ends_inside(machine, start))?;
    let search = made.as_mut_slice();
    match find_way(machine, truth, None, start, search) {
        Some(last) => route_of_trail(alloc, machine, truth, steps_of(search), start, last),
        None => Ok(no_route(alloc)),
    }
}

/// A late route from the vertex, with true guards: in a machine that keeps the rules of models there
/// always is one. Of the true transitions out of the vertex the word settles the one that it starts
/// with, by its remainder (UML 2.5.1, 14.2.3.7, initial, history and choice). Only where the closure
/// answers differently from one time to another may a route of no transitions come instead.
///
/// `NoMemory`: memory ran out.
#[tactic(auto, using(crate::proofs::LateRoutes::late_is_there))]
pub fn pick_late<T: Fn(GuardId) -> bool>(
    alloc: Global,
    machine: &Machine,
    truth: &T,
    origin: VertexId,
    word: u64,
) -> Result<Route, NoMemory>
    requires rules { KeepsModelRules machine.now }
    requires askable { CanBeAsked machine.now (T.pre truth.now) }
    requires origin { IsLateOrigin machine.now origin }
    requires out { HasOut machine.now origin }
    ensures late { (values : Truth) → Tells machine.now (T.post truth.now) values
        → IfOk result (IsLateRoute machine.now values origin) }
    ensures settled { (values : Truth) → Tells machine.now (T.post truth.now) values
        → IfOk result (λ route. (t : TransId) × (route.starts ≡ t ∷ [])
        × IsSettledStart machine.now values origin word t) }
{
    let starts = true_from(alloc, machine, truth, origin)?;
    match starts.as_slice().get(place_of(word, starts.len())) {
        Some(start) => late_route_by(alloc, machine, truth, origin, *start),
        None => Ok(no_route(alloc)),
    }
}
