//! Routes by which a step goes on within itself, where the variables and the parameters have these values.
ghost use Rattle.std.specs.Prelude.{◌↔◌, IsTrue, IfOk};
ghost use Rattle.pssm_model.specs.WellFormed.{KeepsModelRules};
ghost use Rattle.pssm_model.specs.FiringSets.{IsLateOrigin};
ghost use Rattle.pssm_model.specs.Paths.{HasOut};
ghost use Rattle.pssm_object.specs.inner.Firing.{IsWayFrom};

use crate::firing::is_true;
use pssm_model::{GuardId, Route, VertexId};
use pssm_routes::{check_late, pick_late};
use pssm_semantics::{Args, Class};
use std::alloc::{AllocError as NoMemory, Global};

/// Whether a step goes on by the route from the vertex: an initial vertex, a history vertex or a choice.
pub fn goes_on_by(
    class: &Class,
    store: &[i64],
    params: &Args,
    origin: VertexId,
    route: &Route,
) -> bool
    requires rules { KeepsModelRules class.now.machine }
    ensures { IsTrue result ↔ IsWayFrom class.now store.now params.now origin route.now }
{
    check_late(
        &class.machine,
        &|guard: GuardId| is_true(class, guard, store, params),
        origin,
        route,
    )
}

/// A route by which a step goes on from the vertex; of several the word settles one.
///
/// `NoMemory`: memory ran out.
pub fn route_from(
    alloc: Global,
    class: &Class,
    store: &[i64],
    params: &Args,
    origin: VertexId,
    word: u64,
) -> Result<Route, NoMemory>
    requires rules { KeepsModelRules class.now.machine }
    requires origin { IsLateOrigin class.now.machine origin }
    requires out { HasOut class.now.machine origin }
    ensures { IfOk result (IsWayFrom class.now store.now params.now origin) }
{
    pick_late(
        alloc,
        &class.machine,
        &|guard: GuardId| is_true(class, guard, store, params),
        origin,
        word,
    )
}
