//! By which way a region opens, where the variables and the parameters have these values.
ghost use Rattle.std.specs.Prelude.{◌≡◌, ◌↔◌, ◌<◌, IsTrue, IfOk, IfSome, IfNone, Some, All, Contains, length};
ghost use Rattle.pssm_model.specs.WellFormed.{KeepsModelRules};
ghost use Rattle.pssm_model.specs.Forest.{HasKind, OwnsOfKind};
ghost use Rattle.pssm_model.specs.declared.ids.VertexId.{VertexId};
ghost use Rattle.pssm_model.specs.declared.elements.VertexKind.TheVariants as kinds;
ghost use Rattle.pssm_model.specs.Paths.{HasOut, IsInitialOf};
ghost use Rattle.pssm_model.specs.Ways.{IsRemembered, IsHistoryOf};
ghost use Rattle.pssm_config.specs.Tables.{Fits, configuration_of};
ghost use Rattle.pssm_semantics.specs.Known.{IsRouteOf, IsWayOf};
ghost use Rattle.pssm_object.specs.inner.Firing.{IsWayFrom, GoesFrom, IsDefaultWay, IsHistoryKind, IsFreshWay, IsHistoryWay, IsOpeningWay};

use crate::routes::{goes_on_by, route_from};
use pssm_config::Config;
use pssm_model::{How, Machine, Mode, Owner, RegionId, Route, VertexId, VertexKind};
use pssm_semantics::{Args, Class};
use std::alloc::{AllocError as NoMemory, Global};

/// Whether the way is one by which the region opens in this mode, where the configuration has what it remembers
/// (UML 2.5.1, 14.2.3.2 and 14.2.3.4; by none this profile's choice).
pub fn opens_by(
    class: &Class,
    config: &Config,
    store: &[i64],
    params: &Args,
    r: RegionId,
    mode: Mode,
    how: &How,
) -> bool
    requires rules { KeepsModelRules class.now.machine }
    requires fits { Fits class.now.machine config.now }
    requires region { r.0 < length class.now.machine.regions }
    requires way { IsWayOf class.now.machine how.now }
    ensures { IsTrue result ↔ IsOpeningWay class.now config.now store.now params.now r mode how.now }
{
    match mode {
        Mode::Plain => opens_by_default(class, store, params, r, how),
        Mode::Shallow => opens_by_history(
            class,
            config,
            store,
            params,
            r,
            VertexKind::ShallowHistory,
            how,
        ),
        Mode::Deep => opens_by_history(
            class,
            config,
            store,
            params,
            r,
            VertexKind::DeepHistory,
            how,
        ),
    }
}

// Whether the way is one by which the region opens by its history vertices of the kind.
fn opens_by_history(
    class: &Class,
    config: &Config,
    store: &[i64],
    params: &Args,
    r: RegionId,
    kind: VertexKind,
    how: &How,
) -> bool
    requires rules { KeepsModelRules class.now.machine }
    requires fits { Fits class.now.machine config.now }
    requires region { r.0 < length class.now.machine.regions }
    requires kind { IsHistoryKind kind }
    requires way { IsWayOf class.now.machine how.now }
    ensures { IsTrue result ↔ IsHistoryWay class.now config.now store.now params.now r kind how.now }
{
    match remembered(&class.machine, config, r) {
        Some(s) => restores(how, s),
        None => opens_afresh(class, store, params, r, kind, how),
    }
}

// Whether the way restores the State.
fn restores(how: &How, s: VertexId) -> bool
    ensures { IsTrue result ↔ (how.now ≡ How.Restore s) }
{
    match how {
        How::Restore(state) => *state == s,
        How::By(_) | How::Nothing => false,
    }
}

// Whether the way is one by which the region opens where it remembers no State.
fn opens_afresh(
    class: &Class,
    store: &[i64],
    params: &Args,
    r: RegionId,
    kind: VertexKind,
    how: &How,
) -> bool
    requires rules { KeepsModelRules class.now.machine }
    requires region { r.0 < length class.now.machine.regions }
    requires kind { IsHistoryKind kind }
    requires way { IsWayOf class.now.machine how.now }
    ensures { IsTrue result ↔ IsFreshWay class.now store.now params.now r kind how.now }
{
    match history_of(&class.machine, r, kind) {
        Some(v) => goes_from(class, store, params, v, how),
        None => opens_by_default(class, store, params, r, how),
    }
}

// Whether the way is a route by which a step goes on from the vertex.
fn goes_from(class: &Class, store: &[i64], params: &Args, origin: VertexId, how: &How) -> bool
    requires { KeepsModelRules class.now.machine }
    ensures { IsTrue result ↔ GoesFrom class.now store.now params.now origin how.now }
{
    match how {
        How::By(route) => goes_on_by(class, store, params, origin, route),
        How::Restore(_) | How::Nothing => false,
    }
}

// Whether the way is one by which the region opens by default.
fn opens_by_default(class: &Class, store: &[i64], params: &Args, r: RegionId, how: &How) -> bool
    requires rules { KeepsModelRules class.now.machine }
    requires region { r.0 < length class.now.machine.regions }
    requires way { IsWayOf class.now.machine how.now }
    ensures { IsTrue result ↔ IsDefaultWay class.now store.now params.now r how.now }
{
    match how {
        How::By(route) => begins_in(class, store, params, r, route),
        How::Nothing => class.machine.initials_of(r).is_empty(),
        How::Restore(_) => false,
    }
}

// Whether a step goes on by the route from an initial vertex of the region.
fn begins_in(class: &Class, store: &[i64], params: &Args, r: RegionId, route: &Route) -> bool
    requires rules { KeepsModelRules class.now.machine }
    requires route { IsRouteOf class.now.machine route.now }
    ensures { IsTrue result ↔ IsDefaultWay class.now store.now params.now r (How.By route.now) }
{
    match route.starts.as_slice() {
        [start] => {
            let origin = class.machine.source(*start);
            is_initial_of(&class.machine, r, origin)
                && goes_on_by(class, store, params, origin, route)
        }
        _ => false,
    }
}

// Whether the vertex is an initial one of the region.
fn is_initial_of(machine: &Machine, r: RegionId, v: VertexId) -> bool
    requires { v.0 < length machine.now.vertices }
    ensures { IsTrue result ↔ IsInitialOf machine.now r v }
{
    let vertex = machine.vertex(v);
    vertex.kind == VertexKind::Initial && vertex.owner == Owner::Region(r)
}

// The State that the region remembers; none where it remembers none, or a final state.
fn remembered(machine: &Machine, config: &Config, r: RegionId) -> Option<VertexId>
    requires fits { Fits machine.now config.now }
    requires region { r.0 < length machine.now.regions }
    ensures { (s : VertexId) → (result ≡ Some s) ↔ IsRemembered machine.now (configuration_of config.now).Remembers r s }
{
    match config.memory(r) {
        Some(s) => only_state(machine, s),
        None => None,
    }
}

// The vertex if it is a State.
fn only_state(machine: &Machine, v: VertexId) -> Option<VertexId>
    requires { v.0 < length machine.now.vertices }
    ensures { (s : VertexId) → (result ≡ Some s) ↔ ((v ≡ s) × HasKind machine.now s kinds.State) }
{
    if machine.vertex(v).kind == VertexKind::State {
        Some(v)
    } else {
        None
    }
}

// The history vertex of the kind that the region owns and that has a transition, if there is one.
fn history_of(machine: &Machine, r: RegionId, kind: VertexKind) -> Option<VertexId>
    requires rules { KeepsModelRules machine.now }
    requires region { r.0 < length machine.now.regions }
    requires kind { IsHistoryKind kind }
    ensures some { IfSome result (IsHistoryOf machine.now r kind) }
    ensures none { IfNone result ((v : VertexId) → IsHistoryOf machine.now r kind v → ⊥) }
{
    match histories_of(machine, r, kind) {
        [] => None,
        [v, ..] => if_left(machine, *v),
    }
}

// The vertex if some transition leaves it.
fn if_left(machine: &Machine, v: VertexId) -> Option<VertexId>
    requires { v.0 < length machine.now.vertices }
    ensures some { IfSome result (λ w. (w ≡ v) × HasOut machine.now v) }
    ensures none { IfNone result (HasOut machine.now v → ⊥) }
{
    match machine.outgoing(v) {
        [] => None,
        [_, ..] => Some(v),
    }
}

// The history vertices of the kind that the region owns.
fn histories_of(machine: &Machine, r: RegionId, kind: VertexKind) -> &[VertexId]
    requires region { r.0 < length machine.now.regions }
    requires kind { IsHistoryKind kind }
    ensures items { (v : VertexId) → Contains result.now v ↔ OwnsOfKind machine.now r kind v }
    ensures there { All (λ v. v.0 < length machine.now.vertices) result.now }
{
    if kind == VertexKind::DeepHistory {
        machine.deep_histories_of(r)
    } else {
        machine.shallow_histories_of(r)
    }
}

/// A way by which the region opens in this mode, where the configuration has what it remembers; of several the word
/// settles one.
///
/// `NoMemory`: memory ran out.
pub fn some_way(
    alloc: Global,
    class: &Class,
    config: &Config,
    store: &[i64],
    params: &Args,
    r: RegionId,
    mode: Mode,
    word: u64,
) -> Result<How, NoMemory>
    requires rules { KeepsModelRules class.now.machine }
    requires fits { Fits class.now.machine config.now }
    requires region { r.0 < length class.now.machine.regions }
    ensures { IfOk result (IsOpeningWay class.now config.now store.now params.now r mode) }
{
    match mode {
        Mode::Plain => default_way(alloc, class, store, params, r, word),
        Mode::Shallow => history_way(
            alloc,
            class,
            config,
            store,
            params,
            r,
            VertexKind::ShallowHistory,
            word,
        ),
        Mode::Deep => history_way(
            alloc,
            class,
            config,
            store,
            params,
            r,
            VertexKind::DeepHistory,
            word,
        ),
    }
}

// A way by which the region opens by its history vertices of the kind.
fn history_way(
    alloc: Global,
    class: &Class,
    config: &Config,
    store: &[i64],
    params: &Args,
    r: RegionId,
    kind: VertexKind,
    word: u64,
) -> Result<How, NoMemory>
    requires rules { KeepsModelRules class.now.machine }
    requires fits { Fits class.now.machine config.now }
    requires region { r.0 < length class.now.machine.regions }
    requires kind { IsHistoryKind kind }
    ensures { IfOk result (IsHistoryWay class.now config.now store.now params.now r kind) }
{
    match remembered(&class.machine, config, r) {
        Some(s) => Ok(How::Restore(s)),
        None => fresh_way(alloc, class, store, params, r, kind, word),
    }
}

// A way by which the region opens where it remembers no State.
fn fresh_way(
    alloc: Global,
    class: &Class,
    store: &[i64],
    params: &Args,
    r: RegionId,
    kind: VertexKind,
    word: u64,
) -> Result<How, NoMemory>
    requires rules { KeepsModelRules class.now.machine }
    requires region { r.0 < length class.now.machine.regions }
    requires kind { IsHistoryKind kind }
    ensures { IfOk result (IsFreshWay class.now store.now params.now r kind) }
{
    match history_of(&class.machine, r, kind) {
        Some(v) => Ok(How::By(route_from(alloc, class, store, params, v, word)?)),
        None => default_way(alloc, class, store, params, r, word),
    }
}

// A way by which the region opens by default.
fn default_way(
    alloc: Global,
    class: &Class,
    store: &[i64],
    params: &Args,
    r: RegionId,
    word: u64,
) -> Result<How, NoMemory>
    requires rules { KeepsModelRules class.now.machine }
    requires region { r.0 < length class.now.machine.regions }
    ensures { IfOk result (IsDefaultWay class.now store.now params.now r) }
{
    match class.machine.initials_of(r) {
        [] => Ok(How::Nothing),
        [v, ..] => Ok(How::By(from_initial(alloc, class, store, params, *v, word)?)),
    }
}

// A route by which a step goes on from the initial vertex.
fn from_initial(
    alloc: Global,
    class: &Class,
    store: &[i64],
    params: &Args,
    v: VertexId,
    word: u64,
) -> Result<Route, NoMemory>
    requires rules { KeepsModelRules class.now.machine }
    requires initial { HasKind class.now.machine v kinds.Initial }
    ensures { IfOk result (IsWayFrom class.now store.now params.now v) }
{
    route_from(alloc, class, store, params, v, word)
}
