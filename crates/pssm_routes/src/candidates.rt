//! The States that react to an event and in which none reacts (UML 2.5.1, 14.2.3.9, firing priorities).
ghost use Rattle.std.specs.Prelude.{◌≡◌, ◌↔◌, ◌<◌, ◌⊎◌, false, true, None, Some, length, slice_index_or, Option, All};
ghost use Rattle.std.specs.Prelude.{Contains, IfOk, IfSome};
ghost use Rattle.pssm_model.specs.declared.ids.VertexId.{VertexId};
ghost use Rattle.pssm_model.specs.declared.ids.RegionId.{RegionId};
ghost use Rattle.pssm_model.specs.Forest.{LiesInState};
ghost use Rattle.pssm_model.specs.Routes.{Truth};
ghost use Rattle.pssm_model.specs.WellFormed.{KeepsModelRules};
ghost use Rattle.pssm_config.specs.Tables.{Fits, configuration_of};
ghost use Rattle.pssm_enabled.specs.Telling.{CanBeAsked, Tells};
ghost use Rattle.pssm_routes.specs.inner.Starts.{Reacts, IsCandidate, ReactsAlone, AreListed};

use crate::areas::state_around;
use crate::completing::one_reacting;
use crate::reacting::{reacting_in, reacts_afresh, some_start_search};
use pssm_config::Config;
use pssm_enabled::search_if;
use pssm_model::{Event, GuardId, Machine, RegionId, VertexId};
use std::alloc::{AllocError as NoMemory, Global};

// The vertex that reacts to the event, where it is the only one and looks at all that are active tell so.
fn lone_among_active<T: Fn(GuardId) -> bool>(
    machine: &Machine,
    config: &Config,
    truth: &T,
    event: Event,
) -> Option<VertexId>
    requires rules { KeepsModelRules machine.now }
    requires fits { Fits machine.now config.now }
    requires askable { CanBeAsked machine.now (T.pre truth.now) }
    ensures there { IfSome result (λ s. s.0 < length machine.now.vertices) }
    ensures alone { (values : Truth) → Tells machine.now (T.post truth.now) values
        → IfSome result (ReactsAlone machine.now (configuration_of config.now) values event) }
{
    let mut alone = None;
    for number in 0..machine.regions() {
        let found = reacting_in(machine, config, truth, event, RegionId(number))?;
        if found.is_some() {
            if alone.is_some() {
                return None;
            }
            alone = found;
        }
    }
    alone
}

/// The vertex that reacts to the event, where it is the only one and looks tell so. It takes no memory.
pub fn lone_reacting<T: Fn(GuardId) -> bool>(
    machine: &Machine,
    config: &Config,
    truth: &T,
    event: Event,
) -> Option<VertexId>
    requires rules { KeepsModelRules machine.now }
    requires fits { Fits machine.now config.now }
    requires askable { CanBeAsked machine.now (T.pre truth.now) }
    ensures there { IfSome result (λ s. s.0 < length machine.now.vertices) }
    ensures alone { (values : Truth) → Tells machine.now (T.post truth.now) values
        → IfSome result (ReactsAlone machine.now (configuration_of config.now) values event) }
{
    match one_reacting(machine, config, truth, event) {
        Some(found) => found,
        None => lone_among_active(machine, config, truth, event),
    }
}

// The States that react to the event, by one search.
fn reacting_by_search<T: Fn(GuardId) -> bool>(
    alloc: Global,
    machine: &Machine,
    config: &Config,
    truth: &T,
    event: Event,
) -> Result<Vec<VertexId>, NoMemory>
    requires rules { KeepsModelRules machine.now }
    requires fits { Fits machine.now config.now }
    requires askable { CanBeAsked machine.now (T.pre truth.now) }
    ensures states { (values : Truth) → Tells machine.now (T.post truth.now) values
        → IfOk result (λ found. (s : VertexId) → Contains found.items s
        ↔ Reacts machine.now (configuration_of config.now) values event s) }
    ensures there { IfOk result (λ found. All (λ s. s.0 < length machine.now.vertices) found.items) }
{
    let mut made = search_if(alloc, some_start_search(machine, config, event))?;
    let search = made.as_mut_slice();
    let mut found = Vec::new(alloc);
    for number in 0..machine.vertices() {
        let source = VertexId(number);
        if reacts_afresh(machine, config, truth, event, source, search) {
            found.push(source)?;
        }
    }
    Ok(found)
}

// The States that react to the event, by looks at all that are active. They are left open where a look does not tell.
fn reacting_among_active<T: Fn(GuardId) -> bool>(
    alloc: Global,
    machine: &Machine,
    config: &Config,
    truth: &T,
    event: Event,
) -> Result<Option<Vec<VertexId>>, NoMemory>
    requires rules { KeepsModelRules machine.now }
    requires fits { Fits machine.now config.now }
    requires askable { CanBeAsked machine.now (T.pre truth.now) }
    ensures states { (values : Truth) → Tells machine.now (T.post truth.now) values
        → IfOk result (λ found. IfSome found (λ states. (s : VertexId) → Contains states.items s
        ↔ Reacts machine.now (configuration_of config.now) values event s)) }
    ensures there { IfOk result (λ found. IfSome found (λ states. All (λ s. s.0 < length machine.now.vertices) states.items)) }
{
    let mut states = Vec::new(alloc);
    for number in 0..machine.regions() {
        let Some(found) = reacting_in(machine, config, truth, event, RegionId(number)) else {
            return Ok(None);
        };
        match found {
            Some(s) => states.push(s)?,
            None => {}
        }
    }
    Ok(Some(states))
}

// A list of what was found.
fn listed(alloc: Global, found: Option<VertexId>) -> Result<Vec<VertexId>, NoMemory>
    ensures { IfOk result (λ states. AreListed found states.items) }
{
    match found {
        Some(s) => Ok(vec![in alloc; s]?),
        None => Ok(Vec::new(alloc)),
    }
}

// The States that react to the event. They are left open where a look does not tell.
fn reacting_at_sight<T: Fn(GuardId) -> bool>(
    alloc: Global,
    machine: &Machine,
    config: &Config,
    truth: &T,
    event: Event,
) -> Result<Option<Vec<VertexId>>, NoMemory>
    requires rules { KeepsModelRules machine.now }
    requires fits { Fits machine.now config.now }
    requires askable { CanBeAsked machine.now (T.pre truth.now) }
    ensures states { (values : Truth) → Tells machine.now (T.post truth.now) values
        → IfOk result (λ found. IfSome found (λ states. (s : VertexId) → Contains states.items s
        ↔ Reacts machine.now (configuration_of config.now) values event s)) }
    ensures there { IfOk result (λ found. IfSome found (λ states. All (λ s. s.0 < length machine.now.vertices) states.items)) }
{
    match one_reacting(machine, config, truth, event) {
        Some(found) => Ok(Some(listed(alloc, found)?)),
        None => reacting_among_active(alloc, machine, config, truth, event),
    }
}

// The States that react to the event.
fn reacting_states<T: Fn(GuardId) -> bool>(
    alloc: Global,
    machine: &Machine,
    config: &Config,
    truth: &T,
    event: Event,
) -> Result<Vec<VertexId>, NoMemory>
    requires rules { KeepsModelRules machine.now }
    requires fits { Fits machine.now config.now }
    requires askable { CanBeAsked machine.now (T.pre truth.now) }
    ensures states { (values : Truth) → Tells machine.now (T.post truth.now) values
        → IfOk result (λ found. (s : VertexId) → Contains found.items s
        ↔ Reacts machine.now (configuration_of config.now) values event s) }
    ensures there { IfOk result (λ found. All (λ s. s.0 < length machine.now.vertices) found.items) }
{
    match reacting_at_sight(alloc, machine, config, truth, event)? {
        Some(states) => Ok(states),
        None => reacting_by_search(alloc, machine, config, truth, event),
    }
}

// Marks the States in which the vertex lies.
fn mark_around(marks: &mut Vec<bool>, machine: &Machine, v: VertexId)
    requires there { v.0 < length machine.now.vertices }
    requires width { length marks.old.items ≡ length machine.now.vertices }
    ensures width { length marks.new.items ≡ length marks.old.items }
    ensures marks { (s : VertexId) → (slice_index_or marks.new.items s.0 false ≡ true)
        ↔ ((slice_index_or marks.old.items s.0 false ≡ true) ⊎ LiesInState machine.now v s) }
{
    let mut at = v;
    let mut left = machine.depth(v);
    while left > 0 {
        let Some(s) = state_around(machine, at) else {
            return;
        };
        marks[s.0 as usize] = true;
        at = s;
        left -= 1;
    }
}

// Marks by vertex: the States in which one of these lies.
fn states_around(
    alloc: Global,
    machine: &Machine,
    inner: &[VertexId],
) -> Result<Vec<bool>, NoMemory>
    requires { All (λ s. s.0 < length machine.now.vertices) inner.now }
    ensures width { IfOk result (λ marks. length marks.items ≡ length machine.now.vertices) }
    ensures marks { IfOk result (λ marks. (s : VertexId)
        → (slice_index_or marks.items s.0 false ≡ true)
        ↔ ((q : VertexId) × Contains inner.now q × LiesInState machine.now q s)) }
{
    let mut marks = vec![in alloc; false; machine.vertices() as usize]?;
    for s in inner {
        mark_around(&mut marks, machine, *s);
    }
    Ok(marks)
}

// Those of the States that are not marked.
fn unmarked(alloc: Global, states: &[VertexId], marks: &[bool]) -> Result<Vec<VertexId>, NoMemory>
    requires { All (λ s. s.0 < length marks.now) states.now }
    ensures { IfOk result (λ found. (s : VertexId) → Contains found.items s
        ↔ (Contains states.now s × (slice_index_or marks.now s.0 false ≡ true → ⊥))) }
{
    let mut found = Vec::new(alloc);
    for s in states {
        if !marks[s.0 as usize] {
            found.push(*s)?;
        }
    }
    Ok(found)
}

/// The States that react to the event and in which none does.
pub fn candidates<T: Fn(GuardId) -> bool>(
    alloc: Global,
    machine: &Machine,
    config: &Config,
    truth: &T,
    event: Event,
) -> Result<Vec<VertexId>, NoMemory>
    requires rules { KeepsModelRules machine.now }
    requires fits { Fits machine.now config.now }
    requires askable { CanBeAsked machine.now (T.pre truth.now) }
    ensures there { IfOk result (λ found. All (λ s. s.0 < length machine.now.vertices) found.items) }
    ensures states { (values : Truth) → Tells machine.now (T.post truth.now) values
        → IfOk result (λ found. (s : VertexId) → Contains found.items s
        ↔ IsCandidate machine.now (configuration_of config.now) values event s) }
{
    let reacting = reacting_states(alloc, machine, config, truth, event)?;
    if reacting.len() < 2 {
        return Ok(reacting);
    }
    let outranked = states_around(alloc, machine, reacting.as_slice())?;
    unmarked(alloc, reacting.as_slice(), outranked.as_slice())
}
