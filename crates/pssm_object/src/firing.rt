//! What an event fires where an object stands so, and whether the object defers a signal.
ghost use Rattle.std.specs.Prelude.{◌≡◌, ◌↔◌, ◌<◌, IsTrue, IfOk, length, slice_get};
ghost use Rattle.std.specs.Option.{option_copied};
ghost use Rattle.pssm_model.specs.WellFormed.{KeepsModelRules};
ghost use Rattle.pssm_config.specs.Tables.{Fits, configuration_of};
ghost use Rattle.pssm_semantics.specs.Values.{eight_of};
ghost use Rattle.pssm_semantics.specs.Behaviours.{guards_under};
ghost use Rattle.pssm_semantics.specs.Deferral.{Defers};
ghost use Rattle.pssm_object.specs.inner.Firing.{Fires, OverridesThere, StateDefers, RegionDefers, IsDeferredThere};

use pssm_config::Config;
use pssm_model::{Event, Firing, GuardId, Machine, RegionId, SignalId, VertexId};
use pssm_pool::Waiting;
use pssm_routes::{is_firing_set, overrides, pick_firing_set};
use pssm_semantics::{Args, Class, Cond, truth};
use std::alloc::{AllocError as NoMemory, Global};

/// Whether a guard is true, where the variables and the parameters have these values; a parameter past the last one
/// is 0.
pub fn is_true(class: &Class, guard: GuardId, store: &[i64], params: &Args) -> bool
    ensures given { result ≡ guards_under class.now store.now params.now guard }
    ensures continued { result ≡ guards_under class.now store.now (eight_of params.now) guard }
{
    let _at_most_eight = params.as_slice();
    match guard_at(class, guard) {
        Some(cond) => truth(cond, store, params),
        None => false,
    }
}

// The guard with a number.
fn guard_at(class: &Class, guard: GuardId) -> Option<&Cond>
    ensures { option_copied result ≡ slice_get class.now.program.guards guard.0 }
{
    class.program.guards.as_slice().get(usize::from(guard.0))
}

/// Whether this is what the event fires there, where the parameters are the arguments of its signal, or none of a
/// completion.
///
/// `NoMemory`: memory ran out.
pub fn fires(
    alloc: Global,
    class: &Class,
    config: &Config,
    store: &[i64],
    params: &Args,
    event: Event,
    firing: &Firing,
) -> Result<bool, NoMemory>
    requires rules { KeepsModelRules class.now.machine }
    requires fits { Fits class.now.machine config.now }
    ensures { IfOk result (λ is. IsTrue is
        ↔ Fires class.now config.now store.now (eight_of params.now) event firing.now.routes) }
{
    is_firing_set(
        alloc,
        &class.machine,
        config,
        &|guard: GuardId| is_true(class, guard, store, params),
        event,
        firing,
    )
}

/// What the event fires there: of all that it may fire, what the word settles.
///
/// `NoMemory`: memory ran out.
pub fn pick_firing(
    alloc: Global,
    class: &Class,
    config: &Config,
    store: &[i64],
    params: &Args,
    event: Event,
    word: u64,
) -> Result<Firing, NoMemory>
    requires rules { KeepsModelRules class.now.machine }
    requires fits { Fits class.now.machine config.now }
    ensures { IfOk result (λ firing. Fires class.now config.now store.now (eight_of params.now) event firing.routes) }
{
    pick_firing_set(
        alloc,
        &class.machine,
        config,
        &|guard: GuardId| is_true(class, guard, store, params),
        event,
        word,
    )
}

// Whether a route that the signal enables there starts at the State or in it.
fn is_overridden(
    class: &Class,
    config: &Config,
    signal: &Waiting,
    store: &[i64],
    state: VertexId,
) -> bool
    requires rules { KeepsModelRules class.now.machine }
    requires fits { Fits class.now.machine config.now }
    requires there { state.0 < length class.now.machine.vertices }
    ensures { IsTrue result ↔ OverridesThere class.now config.now store.now signal.now state }
{
    overrides(
        &class.machine,
        config,
        &|guard: GuardId| is_true(class, guard, store, &signal.args),
        signal.signal,
        state,
    )
}

// Whether the State lists the signal as deferred.
fn lists_deferred(machine: &Machine, state: VertexId, signal: SignalId) -> bool
    requires { state.0 < length machine.now.vertices }
    ensures { IsTrue result ↔ Defers machine.now state signal }
{
    machine.vertex(state).defers.as_slice().contains(&signal)
}

// Whether the State, which is active there, defers the signal.
fn state_defers(
    class: &Class,
    config: &Config,
    signal: &Waiting,
    store: &[i64],
    state: VertexId,
) -> bool
    requires rules { KeepsModelRules class.now.machine }
    requires fits { Fits class.now.machine config.now }
    requires there { state.0 < length class.now.machine.vertices }
    requires active { (configuration_of config.now).Active state }
    ensures { IsTrue result ↔ StateDefers class.now config.now store.now signal.now state }
{
    lists_deferred(&class.machine, state, signal.signal)
        && !is_overridden(class, config, signal, store, state)
}

// Whether the active direct vertex of the region defers the signal.
fn region_defers(
    class: &Class,
    config: &Config,
    signal: &Waiting,
    store: &[i64],
    region: RegionId,
) -> bool
    requires rules { KeepsModelRules class.now.machine }
    requires fits { Fits class.now.machine config.now }
    requires there { region.0 < length class.now.machine.regions }
    ensures { IsTrue result ↔ RegionDefers class.now config.now store.now signal.now region }
{
    match config.active_in(region) {
        Some(state) => state_defers(class, config, signal, store, state),
        None => false,
    }
}

/// Whether some State is active there and defers the signal. It takes no memory.
pub fn is_deferred(class: &Class, config: &Config, signal: &Waiting, store: &[i64]) -> bool
    requires rules { KeepsModelRules class.now.machine }
    requires fits { Fits class.now.machine config.now }
    ensures { IsTrue result ↔ IsDeferredThere class.now config.now store.now signal.now }
{
    for number in 0..class.machine.regions() {
        if region_defers(class, config, signal, store, RegionId(number)) {
            return true;
        }
    }
    false
}
