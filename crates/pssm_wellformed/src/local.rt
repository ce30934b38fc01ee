//! The rule of local transitions, E14.
ghost use Rattle.std.specs.Prelude.{◌↔◌, ◌<◌, length, IsTrue, MatchOption};
ghost use Rattle.pssm_model.specs.WellFormed.{LeavesLocally, IsBadLocal};

use crate::ends::{End, end_of};
use crate::marks::strays;
use crate::paths::Marked;
use crate::transitions::goes;
use pssm_model::{Machine, Owner, TransId, TransKind, VertexId, VertexKind};

/// The State from which the transition may go locally: its source, or the State of the entry point that it leaves.
fn local_state(machine: &Machine, transition: TransId) -> Option<VertexId>
    requires { transition.0 < length machine.now.transitions }
    ensures { MatchOption result ((s : VertexId) → LeavesLocally machine.now transition s → ⊥)
        (λ s. LeavesLocally machine.now transition s) }
{
    let source = end_of(machine, transition, End::Source);
    let found = machine.vertex(source);
    match (found.kind, found.owner) {
        (VertexKind::State, _) => Some(source),
        (VertexKind::EntryPoint, Owner::State(state)) => Some(state),
        _ => None,
    }
}

/// E14: whether it is local, and leaves neither a State nor an entry point, or a junction path that
/// begins with it comes to a vertex outside the State.
pub fn is_bad_local(marked: &Marked, transition: TransId) -> bool
    requires there { transition.0 < length marked.now.transitions }
    ensures { IsTrue result ↔ IsBadLocal marked.now transition }
{
    if !goes(marked.machine, transition, TransKind::Local) {
        return false;
    }
    let target = end_of(marked.machine, transition, End::Target);
    match local_state(marked.machine, transition) {
        Some(state) => strays(
            marked.machine,
            marked.marks.junctions.as_slice(),
            target,
            Owner::State(state),
        ),
        None => true,
    }
}
