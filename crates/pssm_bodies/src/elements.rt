//! The second reading of vertices and transitions: each stays what it is, with the numbers of its behaviours.
ghost use Rattle.std.specs.Prelude.{◌≡◌, ◌≤◌, ◌+◌, ◌++◌, ◌∷◌, [], All, length, IfOk, IfErr};
ghost use Rattle.std.specs.List.{flat_map};
ghost use Rattle.pssm_acts.specs.Answers.{Faults};
ghost use Rattle.pssm_bodies.specs.Slots.{vertex_slots, guard_slots, transition_slots};
ghost use Rattle.pssm_bodies.specs.Readings.{KeepsLimits};
ghost use Rattle.pssm_bodies.specs.Programs.{NumbersVertex, NumbersTransition, AllNumbered};
ghost use Rattle.pssm_bodies.specs.inner.Through.{StopsIn, guards_count, HasActs, HasGuard};

use crate::numbered::{act_added, guard_added, steps_added};
use pssm_acts::{ActFault, Growing, Known};
use pssm_model::{ActId, Body, Duplicate, Guard, Row, Transition, Vertex};
use std::alloc::{AllocError as NoMemory, Global};

// The numbers of the behaviours of a vertex.
#[derive(Drop)]
struct VertexActs {
    entry: ActId,
    exit: ActId,
    steps: Vec<ActId>,
}

// The numbers of the guard and the effect of a transition.
#[derive(Clone, Copy)]
struct TransitionActs {
    guard: Guard,
    effect: ActId,
}

// One element more behind others.
fn with_one<T: Drop>(mut items: Vec<T>, item: T) -> Result<Vec<T>, NoMemory>
    ensures { IfOk result (λ all. all.items ≡ items.items ++ item ∷ []) }
{
    items.push(item)?;
    Ok(items)
}

// The program with the behaviours of a vertex, and their numbers.
fn vertex_acts(
    alloc: Global,
    names: &Known<'_>,
    bodies: &[Body],
    program: Growing,
    from: &Vertex,
) -> Result<(VertexActs, Growing), ActFault>
    requires vars { length names.now.vars ≤ 64 }
    requires objects { length names.now.objects ≤ 64 }
    requires signals { length names.now.signals ≤ 256 }
    requires limits { KeepsLimits program }
    requires one { length from.now.steps ≤ 1 }
    ensures numbers { IfOk result (λ r. HasActs names.now bodies.now program from.now r.0 r.1) }
    ensures limits { IfOk result (λ r. KeepsLimits r.1) }
    ensures fault { IfErr result (λ f. Faults (StopsIn names.now bodies.now (vertex_slots from.now) program) f) }
{
    let (entry, entered) = act_added(alloc, names, bodies, program, from.entry)?;
    let (exit, left) = act_added(alloc, names, bodies, entered, from.exit)?;
    let (steps, behind) = steps_added(alloc, names, bodies, left, from.steps.as_slice())?;
    Ok((VertexActs { entry, exit, steps }, behind))
}

// The vertex with the numbers of its behaviours.
fn vertex_with(alloc: Global, from: &Vertex, acts: VertexActs) -> Result<Vertex, NoMemory>
    ensures owner { IfOk result (λ to. to.owner ≡ from.now.owner) }
    ensures kind { IfOk result (λ to. to.kind ≡ from.now.kind) }
    ensures label { IfOk result (λ to. to.label ≡ from.now.label) }
    ensures defers { IfOk result (λ to. to.defers ≡ from.now.defers) }
    ensures entry { IfOk result (λ to. to.entry ≡ acts.entry) }
    ensures exit { IfOk result (λ to. to.exit ≡ acts.exit) }
    ensures steps { IfOk result (λ to. to.steps ≡ acts.steps.items) }
{
    let VertexActs { entry, exit, steps } = acts;
    Ok(Vertex {
        owner: from.owner,
        kind: from.kind,
        label: from.label.copy(alloc)?,
        entry,
        exit,
        steps: Row::from_vec(steps),
        defers: from.defers.duplicate(alloc)?,
    })
}

// The program with the behaviours of a vertex, and the vertex with their numbers.
fn vertex_numbered(
    alloc: Global,
    names: &Known<'_>,
    bodies: &[Body],
    program: Growing,
    from: &Vertex,
) -> Result<(Vertex, Growing), ActFault>
    requires vars { length names.now.vars ≤ 64 }
    requires objects { length names.now.objects ≤ 64 }
    requires signals { length names.now.signals ≤ 256 }
    requires limits { KeepsLimits program }
    requires one { length from.now.steps ≤ 1 }
    ensures numbers { IfOk result (λ r. NumbersVertex names.now bodies.now program from.now r.0 r.1) }
    ensures limits { IfOk result (λ r. KeepsLimits r.1) }
    ensures fault { IfErr result (λ f. Faults (StopsIn names.now bodies.now (vertex_slots from.now) program) f) }
{
    let (acts, behind) = vertex_acts(alloc, names, bodies, program, from)?;
    Ok((vertex_with(alloc, from, acts)?, behind))
}

/// The program with the behaviours of vertices, and the vertices with their numbers.
pub(crate) fn vertices_numbered(
    alloc: Global,
    names: &Known<'_>,
    bodies: &[Body],
    program: Growing,
    from: &[Vertex],
) -> Result<(Vec<Vertex>, Growing), ActFault>
    requires vars { length names.now.vars ≤ 64 }
    requires objects { length names.now.objects ≤ 64 }
    requires signals { length names.now.signals ≤ 256 }
    requires limits { KeepsLimits program }
    requires one { All (λ v. length v.steps ≤ 1) from.now }
    ensures numbers { IfOk result
        (λ r. AllNumbered (NumbersVertex names.now bodies.now) program from.now r.0.items r.1) }
    ensures limits { IfOk result (λ r. KeepsLimits r.1) }
    ensures fault { IfErr result
        (λ f. Faults (StopsIn names.now bodies.now (flat_map vertex_slots from.now) program) f) }
{
    let mut program = program;
    let mut numbered = Vec::new(alloc);
    for vertex in from {
        let (to, next) = vertex_numbered(alloc, names, bodies, program, vertex)?;
        program = next;
        numbered = with_one(numbered, to)?;
    }
    Ok((numbered, program))
}

// The program with guard and effect of a transition, and their numbers.
fn transition_acts(
    alloc: Global,
    names: &Known<'_>,
    bodies: &[Body],
    program: Growing,
    from: &Transition,
) -> Result<(TransitionActs, Growing), ActFault>
    requires vars { length names.now.vars ≤ 64 }
    requires objects { length names.now.objects ≤ 64 }
    requires signals { length names.now.signals ≤ 256 }
    requires limits { KeepsLimits program }
    requires room { length program.guards + length (guard_slots from.now.guard) ≤ 65535 }
    ensures numbers { IfOk result (λ r. HasGuard names.now bodies.now program from.now r.0 r.1) }
    ensures limits { IfOk result (λ r. KeepsLimits r.1) }
    ensures fault { IfErr result (λ f. Faults (StopsIn names.now bodies.now (transition_slots from.now) program) f) }
{
    let (guard, guarded) = guard_added(alloc, names, bodies, program, from.guard)?;
    let (effect, behind) = act_added(alloc, names, bodies, guarded, from.effect)?;
    Ok((TransitionActs { guard, effect }, behind))
}

// The transition with the numbers of its guard and its effect.
fn transition_with(
    alloc: Global,
    from: &Transition,
    acts: TransitionActs,
) -> Result<Transition, NoMemory>
    ensures source { IfOk result (λ to. to.source ≡ from.now.source) }
    ensures target { IfOk result (λ to. to.target ≡ from.now.target) }
    ensures kind { IfOk result (λ to. to.kind ≡ from.now.kind) }
    ensures triggers { IfOk result (λ to. to.triggers ≡ from.now.triggers) }
    ensures guard { IfOk result (λ to. to.guard ≡ acts.guard) }
    ensures effect { IfOk result (λ to. to.effect ≡ acts.effect) }
{
    Ok(Transition {
        source: from.source,
        target: from.target,
        kind: from.kind,
        triggers: from.triggers.duplicate(alloc)?,
        guard: acts.guard,
        effect: acts.effect,
    })
}

// The program with guard and effect of a transition, and the transition with their numbers.
fn transition_numbered(
    alloc: Global,
    names: &Known<'_>,
    bodies: &[Body],
    program: Growing,
    from: &Transition,
) -> Result<(Transition, Growing), ActFault>
    requires vars { length names.now.vars ≤ 64 }
    requires objects { length names.now.objects ≤ 64 }
    requires signals { length names.now.signals ≤ 256 }
    requires limits { KeepsLimits program }
    requires room { length program.guards + length (guard_slots from.now.guard) ≤ 65535 }
    ensures numbers { IfOk result (λ r. NumbersTransition names.now bodies.now program from.now r.0 r.1) }
    ensures limits { IfOk result (λ r. KeepsLimits r.1) }
    ensures fault { IfErr result (λ f. Faults (StopsIn names.now bodies.now (transition_slots from.now) program) f) }
{
    let (acts, behind) = transition_acts(alloc, names, bodies, program, from)?;
    Ok((transition_with(alloc, from, acts)?, behind))
}

/// The program with guards and effects of transitions, and the transitions with their numbers.
pub(crate) fn transitions_numbered(
    alloc: Global,
    names: &Known<'_>,
    bodies: &[Body],
    program: Growing,
    from: &[Transition],
) -> Result<(Vec<Transition>, Growing), ActFault>
    requires vars { length names.now.vars ≤ 64 }
    requires objects { length names.now.objects ≤ 64 }
    requires signals { length names.now.signals ≤ 256 }
    requires limits { KeepsLimits program }
    requires room { length program.guards + guards_count from.now ≤ 65535 }
    ensures numbers { IfOk result
        (λ r. AllNumbered (NumbersTransition names.now bodies.now) program from.now r.0.items r.1) }
    ensures limits { IfOk result (λ r. KeepsLimits r.1) }
    ensures fault { IfErr result
        (λ f. Faults (StopsIn names.now bodies.now (flat_map transition_slots from.now) program) f) }
{
    let mut program = program;
    let mut numbered = Vec::new(alloc);
    for transition in from {
        let (to, next) = transition_numbered(alloc, names, bodies, program, transition)?;
        program = next;
        numbered = with_one(numbered, to)?;
    }
    Ok((numbered, program))
}
