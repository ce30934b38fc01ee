//! What is asked of one vertex or transition.
ghost use Rattle.std.specs.Prelude.{◌↔◌, ◌<◌, length, IsTrue};
ghost use Rattle.pssm_model.specs.Forest.{HasKind, IsStateOrFinal};
ghost use Rattle.pssm_model.specs.FiringSets.{IsHistory, IsLateOrigin};
ghost use Rattle.pssm_model.specs.Paths.{IsPseudostate, IsPseudostateKind, IsInner};
ghost use Rattle.pssm_model.specs.WellFormed.{HasGuard, HasElse, HasTrigger, IsBranch, IsUnguardedKind};

use pssm_model::{Guard, Machine, TransId, VertexId, VertexKind};

/// Whether the vertex is of the kind.
pub fn has_kind(machine: &Machine, vertex: VertexId, kind: VertexKind) -> bool
    requires { vertex.0 < length machine.now.vertices }
    ensures { IsTrue result ↔ HasKind machine.now vertex kind }
{
    machine.vertex(vertex).kind == kind
}

/// Whether the vertex is a shallow or a deep history vertex.
pub fn is_history(machine: &Machine, vertex: VertexId) -> bool
    requires { vertex.0 < length machine.now.vertices }
    ensures { IsTrue result ↔ IsHistory machine.now vertex }
{
    has_kind(machine, vertex, VertexKind::ShallowHistory)
        || has_kind(machine, vertex, VertexKind::DeepHistory)
}

/// Whether the vertex is an initial, history or choice vertex.
pub fn is_late_origin(machine: &Machine, vertex: VertexId) -> bool
    requires { vertex.0 < length machine.now.vertices }
    ensures { IsTrue result ↔ IsLateOrigin machine.now vertex }
{
    has_kind(machine, vertex, VertexKind::Initial)
        || is_history(machine, vertex)
        || has_kind(machine, vertex, VertexKind::Choice)
}

/// Whether the kind is one of a pseudostate.
fn is_pseudostate_kind(kind: VertexKind) -> bool
    ensures { IsTrue result ↔ IsPseudostateKind kind }
{
    match kind {
        VertexKind::State | VertexKind::Final => false,
        _ => true,
    }
}

/// Whether the vertex is a pseudostate: neither a State nor final.
pub fn is_pseudostate(machine: &Machine, vertex: VertexId) -> bool
    requires { vertex.0 < length machine.now.vertices }
    ensures { IsTrue result ↔ IsPseudostate machine.now vertex }
{
    is_pseudostate_kind(machine.vertex(vertex).kind)
}

/// Whether the vertex is a State or final.
pub fn is_state_or_final(machine: &Machine, vertex: VertexId) -> bool
    requires { vertex.0 < length machine.now.vertices }
    ensures { IsTrue result ↔ IsStateOrFinal machine.now vertex }
{
    has_kind(machine, vertex, VertexKind::State) || has_kind(machine, vertex, VertexKind::Final)
}

/// Whether the vertex is a junction or choice.
pub fn is_branch(machine: &Machine, vertex: VertexId) -> bool
    requires { vertex.0 < length machine.now.vertices }
    ensures { IsTrue result ↔ IsBranch machine.now vertex }
{
    has_kind(machine, vertex, VertexKind::Junction) || has_kind(machine, vertex, VertexKind::Choice)
}

/// Whether the vertex is of a kind whose transitions have no guard: initial, history or entry point.
pub fn is_unguarded_kind(machine: &Machine, vertex: VertexId) -> bool
    requires { vertex.0 < length machine.now.vertices }
    ensures { IsTrue result ↔ IsUnguardedKind machine.now vertex }
{
    has_kind(machine, vertex, VertexKind::Initial)
        || is_history(machine, vertex)
        || has_kind(machine, vertex, VertexKind::EntryPoint)
}

/// Whether an inner path may pass the vertex: a junction, fork or entry point.
pub fn is_inner(machine: &Machine, vertex: VertexId) -> bool
    requires { vertex.0 < length machine.now.vertices }
    ensures { IsTrue result ↔ IsInner machine.now vertex }
{
    has_kind(machine, vertex, VertexKind::Junction)
        || has_kind(machine, vertex, VertexKind::Fork)
        || has_kind(machine, vertex, VertexKind::EntryPoint)
}

/// Whether the transition has a guard, `else` included.
pub fn has_guard(machine: &Machine, transition: TransId) -> bool
    requires { transition.0 < length machine.now.transitions }
    ensures { IsTrue result ↔ HasGuard machine.now transition }
{
    machine.transition(transition).guard != Guard::Always
}

/// Whether the guard of the transition is `else`.
pub fn has_else(machine: &Machine, transition: TransId) -> bool
    requires { transition.0 < length machine.now.transitions }
    ensures { IsTrue result ↔ HasElse machine.now transition }
{
    machine.transition(transition).guard == Guard::Otherwise
}

/// Whether some signal triggers the transition.
pub fn has_trigger(machine: &Machine, transition: TransId) -> bool
    requires { transition.0 < length machine.now.transitions }
    ensures { IsTrue result ↔ HasTrigger machine.now transition }
{
    !machine
        .transition(transition)
        .triggers
        .as_slice()
        .is_empty()
}
