//! Small machines, made from numbers. Many of them break rules of models.

use crate::dice::Dice;
use crate::marks::Marks;
use crate::sketch::{Arrow, Place, Sketch};
use pssm_model::{Guard, GuardId, Owner, RegionId, TransKind, VertexId, VertexKind};
use std::alloc::{AllocError as NoMemory, Global};

/// How many regions a machine has at most, how many transitions leave its junctions at most, and how many guards its
/// transitions have between them.
const REGIONS: u16 = 7;

const BRANCHES: usize = 6;

const GUARDS: u16 = 5;

/// A machine with 1 to 3 top regions and at most 7 regions in all, and what is active in it.
pub(crate) fn make_sketch(alloc: Global, dice: &mut Dice) -> Result<(Sketch, Marks), NoMemory> {
    let mut sketch = Sketch::new(alloc);
    sketch.regions.push(Owner::Top)?;
    for _ in 0..dice.below(3) {
        if dice.once_in(2) {
            sketch.regions.push(Owner::Top)?;
        }
    }
    for r in 0..REGIONS {
        if r < sketch.regions() {
            add_vertices(&mut sketch, dice, r)?;
        }
    }
    let active = make_active(alloc, &sketch, dice)?;
    add_junctions(&mut sketch, dice, active)?;
    add_defaults(&mut sketch)?;
    add_triggered(alloc, &mut sketch, dice, active)?;
    add_branches(alloc, &mut sketch, dice)?;
    Ok((sketch, active))
}

// Adds a vertex to the region.
fn add_vertex(sketch: &mut Sketch, kind: VertexKind, r: u16) -> Result<(), NoMemory> {
    let owner = Owner::Region(RegionId(r));
    sketch.places.push(Place { kind, owner })?;
    Ok(())
}

// Adds an initial vertex, 1 to 3 States, and now and then a final state or a terminate vertex.
fn add_vertices(sketch: &mut Sketch, dice: &mut Dice, r: u16) -> Result<(), NoMemory> {
    add_vertex(sketch, VertexKind::Initial, r)?;
    for _ in 0..1 + dice.below(3) {
        let state = sketch.vertices();
        add_vertex(sketch, VertexKind::State, r)?;
        add_regions(sketch, dice, r, state)?;
    }
    if dice.once_in(4) {
        add_vertex(sketch, VertexKind::Final, r)?;
    } else if dice.once_in(8) {
        add_vertex(sketch, VertexKind::Terminate, r)?;
    }
    Ok(())
}

// Adds one or two regions to the State of a region now and then, where that lies in at most one State.
fn add_regions(sketch: &mut Sketch, dice: &mut Dice, r: u16, state: u16) -> Result<(), NoMemory> {
    let may_have = match sketch.owner_of(Owner::Region(RegionId(r))) {
        Some(Owner::State(s)) => is_in_top_region(sketch, s) && dice.once_in(4),
        _ => dice.once_in(2),
    };
    if may_have {
        add_region(sketch, state)?;
        if !dice.once_in(3) {
            add_region(sketch, state)?;
        }
    }
    Ok(())
}

// Whether the State lies in no other.
fn is_in_top_region(sketch: &Sketch, s: VertexId) -> bool {
    match sketch.owner_of(Owner::State(s)) {
        Some(region) => sketch.owner_of(region) == Some(Owner::Top),
        None => false,
    }
}

// Adds a region to the State, where there is room for it.
fn add_region(sketch: &mut Sketch, state: u16) -> Result<(), NoMemory> {
    if sketch.regions() < REGIONS {
        sketch.regions.push(Owner::State(VertexId(state)))?;
    }
    Ok(())
}

// Whether the place is the machine or a State that is active.
fn is_open(active: Marks, owner: Option<Owner>) -> bool {
    match owner {
        Some(Owner::Top) => true,
        Some(Owner::State(s)) => active.has(s.0),
        _ => false,
    }
}

// The States and final states that the region owns.
fn direct_in(alloc: Global, sketch: &Sketch, r: u16) -> Result<Vec<u16>, NoMemory> {
    let mut found = Vec::new(alloc);
    for v in 0..sketch.vertices() {
        let owner = sketch.owner_of(Owner::State(VertexId(v)));
        if sketch.is_state_or_final(v) && owner == Some(Owner::Region(RegionId(r))) {
            found.push(v)?;
        }
    }
    Ok(found)
}

// What is active: mostly one State or final state in each top region, and in each region of a State that is active.
fn make_active(alloc: Global, sketch: &Sketch, dice: &mut Dice) -> Result<Marks, NoMemory> {
    let mut active = Marks::none();
    for r in 0..sketch.regions() {
        if is_open(active, sketch.owner_of(Owner::Region(RegionId(r)))) && !dice.once_in(12) {
            let direct = direct_in(alloc, sketch, r)?;
            if let Some(v) = dice.one_of(direct.as_slice()) {
                active = active.with(v);
            }
        }
    }
    Ok(active)
}

// The region of a vertex that is active, or now and then any other.
fn region_for(sketch: &Sketch, dice: &mut Dice, active: Marks) -> u16 {
    for _ in 0..24 {
        let v = dice.below(sketch.vertices());
        if let Some(Owner::Region(r)) = sketch.owner_of(Owner::State(VertexId(v)))
            && active.has(v)
        {
            return r.0;
        }
    }
    dice.below(sketch.regions())
}

// Adds up to 3 junctions, mostly to regions in which something is active.
fn add_junctions(sketch: &mut Sketch, dice: &mut Dice, active: Marks) -> Result<(), NoMemory> {
    for _ in 0..dice.below(4) {
        let r = region_for(sketch, dice, active);
        add_vertex(sketch, VertexKind::Junction, r)?;
    }
    Ok(())
}

// The vertices of the kind, ascending.
fn places_of(alloc: Global, sketch: &Sketch, kind: VertexKind) -> Result<Vec<u16>, NoMemory> {
    let mut found = Vec::new(alloc);
    for v in 0..sketch.vertices() {
        if sketch.has_kind(v, kind) {
            found.push(v)?;
        }
    }
    Ok(found)
}

// Adds a transition out of each initial vertex, to the first State of its region, which has the next number.
fn add_defaults(sketch: &mut Sketch) -> Result<(), NoMemory> {
    for source in 0..sketch.vertices() {
        if sketch.has_kind(source, VertexKind::Initial) {
            let arrow = Arrow {
                source,
                target: source.saturating_add(1),
                kind: TransKind::External,
                is_triggered: false,
                guard: Guard::Always,
            };
            sketch.arrows.push(arrow)?;
        }
    }
    Ok(())
}

// Whether a transition of the kind may go from the one vertex to the other.
fn may_go(sketch: &Sketch, kind: TransKind, source: u16, target: u16) -> bool {
    !sketch.has_kind(target, VertexKind::Initial)
        && match kind {
            TransKind::Internal => target == source,
            TransKind::Local => sketch.lies_in_state(target, source),
            TransKind::External => sketch.share_region(source, target),
        }
}

// A vertex to which a transition of the kind may go, if a few tries come to one.
fn target_for(sketch: &Sketch, dice: &mut Dice, kind: TransKind, source: u16) -> Option<u16> {
    if kind == TransKind::Internal {
        return Some(source);
    }
    for _ in 0..24 {
        let target = dice.below(sketch.vertices());
        if may_go(sketch, kind, source, target) {
            return Some(target);
        }
    }
    None
}

// External, or sometimes local or internal.
fn kind_by(dice: &mut Dice) -> TransKind {
    match dice.below(8) {
        0 => TransKind::Internal,
        1 => TransKind::Local,
        2 => TransKind::Local,
        _ => TransKind::External,
    }
}

// No guard, or one of a few.
fn guard_by(dice: &mut Dice) -> Guard {
    if dice.once_in(2) {
        Guard::Always
    } else {
        Guard::When(GuardId(dice.below(GUARDS)))
    }
}

// The States that are active, each so often, and all States once: where transitions begin.
fn sources(alloc: Global, sketch: &Sketch, active: Marks) -> Result<Vec<u16>, NoMemory> {
    let mut found = places_of(alloc, sketch, VertexKind::State)?;
    for v in 0..sketch.vertices() {
        if active.has(v) && sketch.has_kind(v, VertexKind::State) {
            for _ in 0..4 {
                found.push(v)?;
            }
        }
    }
    Ok(found)
}

// Adds 3 to 10 transitions out of States, mostly of active ones; of the transitions into each junction one is among
// them. Where a State has nothing to which a transition of the kind may go, there is one less.
fn add_triggered(
    alloc: Global,
    sketch: &mut Sketch,
    dice: &mut Dice,
    active: Marks,
) -> Result<(), NoMemory> {
    let states = sources(alloc, sketch, active)?;
    let junctions = places_of(alloc, sketch, VertexKind::Junction)?;
    for turn in 0..3 + dice.below(8) {
        match junctions.as_slice().get(turn as usize) {
            Some(junction) => add_to_junction(sketch, dice, states.as_slice(), *junction)?,
            None => add_from_some(sketch, dice, states.as_slice())?,
        }
    }
    Ok(())
}

// Adds a transition from one of the States to the junction, where a few tries come to one that may go there.
fn add_to_junction(
    sketch: &mut Sketch,
    dice: &mut Dice,
    states: &[u16],
    junction: u16,
) -> Result<(), NoMemory> {
    for _ in 0..8 {
        let kind = if dice.once_in(4) {
            TransKind::Local
        } else {
            TransKind::External
        };
        let source = dice.one_of(states).unwrap_or(0);
        if may_go(sketch, kind, source, junction) {
            return add_arrow(sketch, dice, kind, source, junction);
        }
    }
    Ok(())
}

// Adds a transition from one of the States.
fn add_from_some(sketch: &mut Sketch, dice: &mut Dice, states: &[u16]) -> Result<(), NoMemory> {
    let kind = kind_by(dice);
    let source = dice.one_of(states).unwrap_or(0);
    match target_for(sketch, dice, kind, source) {
        Some(target) => add_arrow(sketch, dice, kind, source, target),
        None => Ok(()),
    }
}

// Adds a transition out of a State, which the signal mostly triggers.
fn add_arrow(
    sketch: &mut Sketch,
    dice: &mut Dice,
    kind: TransKind,
    source: u16,
    target: u16,
) -> Result<(), NoMemory> {
    let is_triggered = !dice.once_in(6);
    let guard = guard_by(dice);
    sketch.arrows.push(Arrow {
        source,
        target,
        kind,
        is_triggered,
        guard,
    })?;
    Ok(())
}

// Adds 1 to 4 transitions out of each junction, and at most 6 in all.
fn add_branches(alloc: Global, sketch: &mut Sketch, dice: &mut Dice) -> Result<(), NoMemory> {
    let mut room = BRANCHES;
    for source in places_of(alloc, sketch, VertexKind::Junction)?.as_slice() {
        for turn in 0..1 + dice.below(4) {
            if room > 0 {
                room -= 1;
                add_branch(sketch, dice, *source, turn)?;
            }
        }
    }
    Ok(())
}

// Adds a transition out of the junction, to no junction of a lower number. The second may have `else`.
fn add_branch(
    sketch: &mut Sketch,
    dice: &mut Dice,
    source: u16,
    turn: u16,
) -> Result<(), NoMemory> {
    let guard = if turn == 1 && dice.once_in(2) {
        Guard::Otherwise
    } else {
        guard_by(dice)
    };
    match target_for(sketch, dice, TransKind::External, source) {
        Some(target) if target > source || !sketch.has_kind(target, VertexKind::Junction) => {
            let arrow = Arrow {
                source,
                target,
                kind: TransKind::External,
                is_triggered: false,
                guard,
            };
            sketch.arrows.push(arrow)?;
            Ok(())
        }
        _ => Ok(()),
    }
}
