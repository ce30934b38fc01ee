//! All firing sets, by their definition: of all sets of enabled routes, the sound ones that lie in no other.

use crate::marks::{Marks, count_sets};
use crate::situation::{Candidate, Situation};
use pssm_model::VertexKind;
use std::alloc::{AllocError as NoMemory, Global};

/// What may be a route, and whether it is one that is enabled.
#[derive(Clone, Copy)]
pub(crate) struct Tried {
    pub(crate) route: Candidate,
    pub(crate) is_enabled: bool,
}

/// An enabled route, the State that it starts at, and what it exits.
#[derive(Clone, Copy)]
pub(crate) struct Enabled {
    pub(crate) route: Candidate,
    pub(crate) source: u16,
    pub(crate) exits: Marks,
}

/// What the definitions say of a situation.
///
/// `tried` says of what may be a route whether it is one and enabled, and `enabled` has the enabled ones, ascending by
/// their starts. By place in that list `conflicts` says with which others a route conflicts, and `priorities` which
/// have priority over it. `firing` are the sets of places that are firing sets.
#[derive(Drop)]
pub(crate) struct Listing {
    pub(crate) tried: Vec<Tried>,
    pub(crate) enabled: Vec<Enabled>,
    pub(crate) conflicts: Vec<Marks>,
    pub(crate) priorities: Vec<Marks>,
    pub(crate) firing: Vec<Marks>,
}

impl Listing {
    /// What the definitions say of the situation.
    pub(crate) fn of(alloc: Global, situation: &Situation) -> Result<Listing, NoMemory> {
        let tried = try_all(alloc, situation)?;
        let enabled = list_enabled(alloc, situation, tried.as_slice())?;
        let conflicts = conflicts(alloc, situation, enabled.as_slice())?;
        let priorities = priorities(alloc, situation, enabled.as_slice())?;
        let firing = firing_sets(alloc, conflicts.as_slice(), priorities.as_slice())?;
        Ok(Listing {
            tried,
            enabled,
            conflicts,
            priorities,
            firing,
        })
    }

    /// How many routes are enabled, as far as they are not more than 11.
    pub(crate) fn routes(&self) -> u16 {
        few(self.enabled.len())
    }

    /// Whether the places in the set are those of a firing set.
    pub(crate) fn is_firing(&self, set: Marks) -> bool {
        self.firing.as_slice().contains(&set)
    }
}

// How many there are, or 11 where there are more than 10.
fn few(count: usize) -> u16 {
    if count <= 10 { count as u16 } else { 11 }
}

// The transitions that leave junctions, or those that do not.
fn leaving(alloc: Global, situation: &Situation, junctions: bool) -> Result<Vec<u16>, NoMemory> {
    let mut found = Vec::new(alloc);
    for t in 0..situation.sketch.transitions() {
        let source = situation.source(t).unwrap_or(64);
        if situation.sketch.has_kind(source, VertexKind::Junction) == junctions {
            found.push(t)?;
        }
    }
    Ok(found)
}

// Those of the numbers that stand at the places in the set.
fn chosen(numbers: &[u16], places: Marks) -> Marks {
    let mut set = Marks::none();
    for place in 0..few(numbers.len()) {
        if let Some(number) = numbers.get(place as usize)
            && places.has(place)
        {
            set = set.with(*number);
        }
    }
    set
}

// Asks of each transition as the start, with each set of those that leave junctions, and with each one that leaves
// none, whether they are an enabled route.
fn try_all(alloc: Global, situation: &Situation) -> Result<Vec<Tried>, NoMemory> {
    let branches = leaving(alloc, situation, true)?;
    let others = leaving(alloc, situation, false)?;
    let mut found = Vec::new(alloc);
    for start in 0..situation.sketch.transitions() {
        for word in 0..count_sets(few(branches.len())) {
            let rest = chosen(branches.as_slice(), Marks::of_word(word));
            found.push(try_one(situation, Candidate { start, rest }))?;
        }
        for other in others.as_slice() {
            let rest = Marks::none().with(*other);
            found.push(try_one(situation, Candidate { start, rest }))?;
        }
    }
    Ok(found)
}

// Whether this is an enabled route.
fn try_one(situation: &Situation, route: Candidate) -> Tried {
    let is_enabled = situation.is_enabled(route);
    Tried { route, is_enabled }
}

// Those that are enabled routes.
fn list_enabled(
    alloc: Global,
    situation: &Situation,
    tried: &[Tried],
) -> Result<Vec<Enabled>, NoMemory> {
    let mut found = Vec::new(alloc);
    for one in tried {
        if one.is_enabled {
            found.push(Enabled {
                route: one.route,
                source: situation.source(one.route.start).unwrap_or(64),
                exits: situation.exits(one.route),
            })?;
        }
    }
    Ok(found)
}

// Whether two routes conflict: they are different, and both exit some vertex, or one exits the source of the other, or
// the source of one is or lies in that of the other.
fn conflict(situation: &Situation, p: &Enabled, q: &Enabled) -> bool {
    p.route != q.route
        && (p.exits.meets(q.exits)
            || p.exits.has(q.source)
            || q.exits.has(p.source)
            || situation.sketch.is_or_lies_in(p.source, q.source)
            || situation.sketch.is_or_lies_in(q.source, p.source))
}

// By route the places of those with which it conflicts.
fn conflicts(
    alloc: Global,
    situation: &Situation,
    enabled: &[Enabled],
) -> Result<Vec<Marks>, NoMemory> {
    let mut found = Vec::new(alloc);
    for p in enabled {
        let mut others = Marks::none();
        for (place, q) in enabled.iter().enumerate() {
            if conflict(situation, p, q) {
                others = others.with(few(place));
            }
        }
        found.push(others)?;
    }
    Ok(found)
}

// By route the places of those that have priority over it: their source lies in its source.
fn priorities(
    alloc: Global,
    situation: &Situation,
    enabled: &[Enabled],
) -> Result<Vec<Marks>, NoMemory> {
    let mut found = Vec::new(alloc);
    for p in enabled {
        let mut others = Marks::none();
        for (place, q) in enabled.iter().enumerate() {
            if situation.sketch.lies_in_state(q.source, p.source) {
                others = others.with(few(place));
            }
        }
        found.push(others)?;
    }
    Ok(found)
}

// Whether no route of the set conflicts with another of it, or with an enabled one that has priority over it.
fn is_sound(conflicts: &[Marks], priorities: &[Marks], set: Marks) -> bool {
    for (place, (others, above)) in conflicts.iter().zip(priorities.iter()).enumerate() {
        if set.has(few(place)) && (others.meets(set) || others.meets(*above)) {
            return false;
        }
    }
    true
}

// The sound sets.
fn sound_sets(
    alloc: Global,
    conflicts: &[Marks],
    priorities: &[Marks],
) -> Result<Vec<Marks>, NoMemory> {
    let mut found = Vec::new(alloc);
    for word in 0..count_sets(few(conflicts.len())) {
        let set = Marks::of_word(word);
        if is_sound(conflicts, priorities, set) {
            found.push(set)?;
        }
    }
    Ok(found)
}

// Whether the set lies in none of the others.
fn is_largest(set: Marks, others: &[Marks]) -> bool {
    for other in others {
        if *other != set && set.lies_in(*other) {
            return false;
        }
    }
    true
}

// The sound sets that lie in no other.
fn firing_sets(
    alloc: Global,
    conflicts: &[Marks],
    priorities: &[Marks],
) -> Result<Vec<Marks>, NoMemory> {
    let sound = sound_sets(alloc, conflicts, priorities)?;
    let mut found = Vec::new(alloc);
    for set in sound.as_slice() {
        if is_largest(*set, sound.as_slice()) {
            found.push(*set)?;
        }
    }
    Ok(found)
}
