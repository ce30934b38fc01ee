//! Vertices and transitions, as lines begin them and go on with them.
ghost use Rattle.std.specs.Prelude.{◌≡◌, ◌≤◌, ◌==◌, length, IfOk};
ghost use Rattle.pssm_flat.specs.inner.Outlines.{names_region_owner, names_vertex_owner, is_state as is_state_kind, is_always as is_always_guard, is_plain as is_plain_transition, plain_vertex, plain_transition, vertex_takes, vertex_with, deferring as deferring_too, triggered as triggered_too};

use crate::action::ActionLine;
use crate::refusal::{kept, nothing};
use crate::rows::push;
use crate::signals::add_signal;
use pssm_acts::Known;
use pssm_model::{
    ActId, Guard, Owner, Row, Text, TransKind, Transition, Vertex, VertexId, VertexKind,
};
use std::alloc::{AllocError, Global};

/// How many do steps a State may have (this profile's choice).
const STEPS_AT_MOST: usize = 64;

pub(crate) fn may_own_region(owner: Owner) -> bool
    ensures { result ≡ names_region_owner owner }
{
    match owner {
        Owner::Top | Owner::State(_) => true,
        Owner::Region(_) => false,
    }
}

pub(crate) fn may_own_vertex(owner: Owner) -> bool
    ensures { result ≡ names_vertex_owner owner }
{
    match owner {
        Owner::Region(_) | Owner::State(_) => true,
        Owner::Top => false,
    }
}

fn is_state(kind: VertexKind) -> bool
    ensures { result ≡ is_state_kind kind }
{
    match kind {
        VertexKind::State => true,
        _ => false,
    }
}

fn is_always(guard: Guard) -> bool
    ensures { result ≡ is_always_guard guard }
{
    match guard {
        Guard::Always => true,
        Guard::Otherwise | Guard::When(_) => false,
    }
}

/// Whether the number is that of the empty behaviour.
pub(crate) fn is_empty(act: ActId) -> bool
    ensures { result ≡ (act.0 == 0) }
{
    act.0 == 0
}

/// A vertex without behaviours and deferred signals.
pub(crate) fn plain(alloc: Global, owner: Owner, kind: VertexKind, label: Text) -> Vertex
    ensures { result ≡ plain_vertex owner kind label }
{
    Vertex {
        owner,
        kind,
        label,
        entry: ActId(0),
        exit: ActId(0),
        steps: Row::from_vec(Vec::new(alloc)),
        defers: Row::from_vec(Vec::new(alloc)),
    }
}

/// Whether a State may have such a behaviour behind what has been read of it: at entry, at exit, and then do steps, all
/// before its deferred signals (UML 2.5.1, 14.2.3.4, States; the order is this profile's choice).
pub(crate) fn takes_behaviour(word: ActionLine, vertex: &Vertex) -> bool
    ensures { result ≡ vertex_takes word vertex.now }
{
    if !is_state(vertex.kind) || !vertex.defers.as_slice().is_empty() {
        return false;
    }
    let steps = vertex.steps.as_slice();
    match word {
        ActionLine::Entry => steps.is_empty() && is_empty(vertex.exit) && is_empty(vertex.entry),
        ActionLine::Exit => steps.is_empty() && is_empty(vertex.exit),
        ActionLine::Step => steps.len() < STEPS_AT_MOST,
        ActionLine::When | ActionLine::Effect => false,
    }
}

/// The State with such a behaviour.
pub(crate) fn behaving(
    alloc: Global,
    word: ActionLine,
    mut vertex: Vertex,
    act: ActId,
) -> Result<Vertex, AllocError>
    ensures { IfOk result (λ v. v ≡ vertex_with word vertex act) }
{
    match word {
        ActionLine::Entry => vertex.entry = act,
        ActionLine::Exit => vertex.exit = act,
        ActionLine::Step => push(alloc, &mut vertex.steps, act)?,
        ActionLine::When | ActionLine::Effect => {}
    }
    Ok(vertex)
}

/// The vertex with one more deferred signal, where it is a State (UML 2.5.1, 14.2.3.4, deferred events).
#[tactic(auto, unfolding(crate::specs::inner::Outlines::deferring))]
pub(crate) fn deferring(
    alloc: Global,
    names: &Known<'_>,
    mut vertex: Vertex,
    name: &[u8],
) -> Result<Option<Vertex>, AllocError>
    requires { length names.now.signals ≤ 256 }
    ensures { IfOk result (λ r. r ≡ deferring_too names.now.signals vertex name.now) }
{
    if !is_state(vertex.kind) {
        return Ok(nothing(vertex));
    }
    let taken = add_signal(alloc, names, &mut vertex.defers, name);
    kept(taken, vertex)
}

/// A transition without triggers, guard and effect.
pub(crate) fn untriggered(
    alloc: Global,
    source: VertexId,
    target: VertexId,
    kind: TransKind,
) -> Transition
    ensures { result ≡ plain_transition source target kind }
{
    Transition {
        source,
        target,
        kind,
        triggers: Row::from_vec(Vec::new(alloc)),
        guard: Guard::Always,
        effect: ActId(0),
    }
}

/// Whether the transition has neither guard nor effect.
pub(crate) fn is_plain(transition: &Transition) -> bool
    ensures { result ≡ is_plain_transition transition.now }
{
    is_always(transition.guard) && is_empty(transition.effect)
}

/// The transition with one more trigger, where it has neither guard nor effect yet.
#[tactic(auto, unfolding(crate::specs::inner::Outlines::triggered))]
pub(crate) fn triggered(
    alloc: Global,
    names: &Known<'_>,
    mut transition: Transition,
    name: &[u8],
) -> Result<Option<Transition>, AllocError>
    requires { length names.now.signals ≤ 256 }
    ensures { IfOk result (λ r. r ≡ triggered_too names.now.signals transition name.now) }
{
    if !is_plain(&transition) {
        return Ok(nothing(transition));
    }
    let taken = add_signal(alloc, names, &mut transition.triggers, name);
    kept(taken, transition)
}
