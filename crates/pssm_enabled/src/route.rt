//! Whether a route is one, and enabled (UML 2.5.1, 14.2.3.8, compound transitions).
ghost use Rattle.std.specs.Prelude.{◌≡◌, ◌↔◌, ◌<◌, ◌≤◌, [], ◌∷◌, length, All, Contains, IsTrue};
ghost use Rattle.pssm_model.specs.declared.ids.TransId.{TransId};
ghost use Rattle.pssm_model.specs.Legs.{On};
ghost use Rattle.pssm_model.specs.Routes.{Truth, IsTrueAt, IsRoute, IsStateRoute, IsEnabled};
ghost use Rattle.pssm_model.specs.WellFormed.{KeepsModelRules};
ghost use Rattle.pssm_config.specs.Tables.{Fits, configuration_of};
ghost use Rattle.pssm_enabled.specs.Telling.{CanBeAsked, Tells};
ghost use Rattle.pssm_enabled.specs.Starts.{AreStarted};
ghost use Rattle.pssm_enabled.specs.Fitting.{route_with, AreInOrder, StartsOutside};
ghost use Rattle.pssm_enabled.specs.inner.Fitting.{CanStart, FitsTogether};
ghost use Rattle.pssm_enabled.specs.inner.Fitting.{AreInto};

use crate::few::fit_few;
use crate::guards::is_true_at;
use crate::marked::fit_over;
use crate::starting::are_started;
use crate::vertices::{ends_alone, is_join, starts_alone};
use pssm_config::Config;
use pssm_model::{Event, GuardId, Machine, Route, TransId};

// Whether the transition is one of the machine, and its number at least this.
fn is_further(machine: &Machine, least: u16, t: TransId) -> bool
    ensures { IsTrue result ↔ ((least ≤ t.0) × (t.0 < length machine.now.transitions)) }
{
    t.0 >= least && t.0 < machine.transitions()
}

// Whether all of them are transitions of the machine, in ascending number.
fn are_ascending(machine: &Machine, transitions: &[TransId]) -> bool
    ensures { IsTrue result ↔ AreInOrder machine.now transitions.now }
{
    let _shaped = machine.regions();
    let mut least = 0;
    for t in transitions {
        if !is_further(machine, least, *t) {
            return false;
        }
        least = t.0 + 1;
    }
    true
}

// Whether the starts fit together with no other transitions.
fn end_alone(machine: &Machine, starts: &[TransId]) -> bool
    requires starts { All (λ t. t.0 < length machine.now.transitions) starts.now }
    requires outside { StartsOutside machine.now starts.now }
    ensures { IsTrue result ↔ FitsTogether machine.now (route_with starts.now []) }
{
    for t in starts {
        if !ends_alone(machine, *t) {
            return false;
        }
    }
    true
}

// Whether the starts fit together with the other transitions.
fn fit_together(machine: &Machine, starts: &[TransId], rest: &[TransId]) -> bool
    requires starts { All (λ t. t.0 < length machine.now.transitions) starts.now }
    requires outside { StartsOutside machine.now starts.now }
    requires rest { All (λ t. t.0 < length machine.now.transitions) rest.now }
    ensures { IsTrue result ↔ FitsTogether machine.now (route_with starts.now rest.now) }
{
    if rest.is_empty() {
        return end_alone(machine, starts);
    }
    if starts.len() <= 32 && rest.len() <= 32 {
        return fit_few(machine, starts, rest);
    }
    fit_over(machine, starts, rest)
}

// Whether the two lists are one.
fn are_same(ts: &[TransId], us: &[TransId]) -> bool
    ensures { IsTrue result ↔ (ts.now ≡ us.now) }
{
    ts == us
}

// Whether they are all the transitions into the join on which the first of them ends.
#[inline(never)]
fn are_all_into(machine: &Machine, first: TransId, starts: &[TransId]) -> bool
    requires there { first.0 < length machine.now.transitions }
    requires first { Contains starts.now first }
    requires order { AreInOrder machine.now starts.now }
    ensures { IsTrue result ↔ AreInto machine.now starts.now }
{
    let v = machine.target(first);
    is_join(machine, v) && are_same(starts, machine.incoming(v))
}

// Whether the one start ends on no join, or is the only transition into one.
fn can_start_alone(machine: &Machine, start: TransId, starts: &[TransId]) -> bool
    requires there { start.0 < length machine.now.transitions }
    requires one { starts.now ≡ start ∷ [] }
    requires order { AreInOrder machine.now starts.now }
    ensures { IsTrue result ↔ CanStart machine.now starts.now }
{
    if starts_alone(machine, start) {
        return true;
    }
    are_all_into(machine, start, starts)
}

// Whether a route can have these starts: one that ends on no join, or all into one join.
fn can_start(machine: &Machine, starts: &[TransId]) -> bool
    requires rules { KeepsModelRules machine.now }
    requires order { AreInOrder machine.now starts.now }
    ensures { IsTrue result ↔ CanStart machine.now starts.now }
{
    if starts.is_empty() {
        return false;
    }
    if starts.len() == 1 {
        return can_start_alone(machine, starts[0], starts);
    }
    are_all_into(machine, starts[0], starts)
}

/// Whether the starts, which leave no vertex through which a route goes on, make one route with the
/// other transitions: each of these leaves such a vertex, on which another ends, and the route goes
/// on from each vertex on which one ends (UML 2.5.1, 14.2.3.8, compound transitions). A route that so
/// fits together has no transition to which it does not come, since no pseudostates lead on in a
/// cycle.
#[inline(always)]
pub fn is_route_over(machine: &Machine, starts: &[TransId], rest: &[TransId]) -> bool
    requires rules { KeepsModelRules machine.now }
    requires order { AreInOrder machine.now starts.now }
    requires outside { StartsOutside machine.now starts.now }
    ensures { IsTrue result ↔ IsRoute machine.now (route_with starts.now rest.now) }
{
    let _shaped = machine.regions();
    if !are_ascending(machine, rest) {
        return false;
    }
    can_start(machine, starts) && fit_together(machine, starts, rest)
}

// Whether the transitions are true.
fn are_true<T: Fn(GuardId) -> bool>(machine: &Machine, truth: &T, transitions: &[TransId]) -> bool
    requires there { All (λ t. t.0 < length machine.now.transitions) transitions.now }
    requires askable { CanBeAsked machine.now (T.pre truth.now) }
    ensures { (values : Truth) → Tells machine.now (T.post truth.now) values
        → (IsTrue result ↔ ((t : TransId) → Contains transitions.now t → IsTrueAt machine.now values t)) }
{
    for t in transitions {
        if !is_true_at(machine, truth, *t) {
            return false;
        }
    }
    true
}

/// Whether the starts and the other transitions are true (UML 2.5.1, 14.2.3.8, guards).
pub fn are_all_true<T: Fn(GuardId) -> bool>(
    machine: &Machine,
    truth: &T,
    starts: &[TransId],
    rest: &[TransId],
) -> bool
    requires starts { All (λ t. t.0 < length machine.now.transitions) starts.now }
    requires rest { All (λ t. t.0 < length machine.now.transitions) rest.now }
    requires askable { CanBeAsked machine.now (T.pre truth.now) }
    ensures { (values : Truth) → Tells machine.now (T.post truth.now) values
        → (IsTrue result
        ↔ ((t : TransId) → On (route_with starts.now rest.now) t → IsTrueAt machine.now values t)) }
{
    are_true(machine, truth, starts) && are_true(machine, truth, rest)
}

// Whether the event starts the starts, which make one route with the other transitions.
fn is_started_route(
    machine: &Machine,
    config: &Config,
    event: Event,
    starts: &[TransId],
    rest: &[TransId],
) -> bool
    requires rules { KeepsModelRules machine.now }
    requires fits { Fits machine.now config.now }
    ensures { IsTrue result ↔ (IsRoute machine.now (route_with starts.now rest.now)
        × AreStarted machine.now (configuration_of config.now) event starts.now) }
{
    if !are_ascending(machine, starts) {
        return false;
    }
    are_started(machine, config, event, starts) && is_route_over(machine, starts, rest)
}

// Whether the starts and the other transitions make one route that the event enables.
fn is_enabled_over<T: Fn(GuardId) -> bool>(
    machine: &Machine,
    config: &Config,
    truth: &T,
    event: Event,
    starts: &[TransId],
    rest: &[TransId],
) -> bool
    requires rules { KeepsModelRules machine.now }
    requires fits { Fits machine.now config.now }
    requires askable { CanBeAsked machine.now (T.pre truth.now) }
    ensures enabled { (values : Truth) → Tells machine.now (T.post truth.now) values
        → (IsTrue result ↔ IsEnabled machine.now (configuration_of config.now) values event
        (route_with starts.now rest.now)) }
    ensures route { IsTrue result → IsStateRoute machine.now (route_with starts.now rest.now) }
{
    is_started_route(machine, config, event, starts, rest)
        && are_all_true(machine, truth, starts, rest)
}

/// Whether the route is one that starts at States, and the event enables it (UML 2.5.1, 14.2.3.8,
/// compound transitions, and 14.2.3.9, enabled transitions). It takes no memory.
pub fn check_route<T: Fn(GuardId) -> bool>(
    machine: &Machine,
    config: &Config,
    truth: &T,
    event: Event,
    route: &Route,
) -> bool
    requires rules { KeepsModelRules machine.now }
    requires fits { Fits machine.now config.now }
    requires askable { CanBeAsked machine.now (T.pre truth.now) }
    ensures enabled { (values : Truth) → Tells machine.now (T.post truth.now) values
        → (IsTrue result ↔ IsEnabled machine.now (configuration_of config.now) values event route.now) }
    ensures route { IsTrue result → IsStateRoute machine.now route.now }
{
    let starts = route.starts.as_slice();
    let rest = route.rest.as_slice();
    is_enabled_over(machine, config, truth, event, starts, rest)
}
