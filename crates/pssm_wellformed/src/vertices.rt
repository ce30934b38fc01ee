//! The rules of single vertices and what meets at them: E03 to E06, E09, E11 and E12.
ghost use Rattle.std.specs.Prelude.{◌↔◌, ◌<◌, length, IsTrue};
ghost use Rattle.pssm_model.specs.Shapes.{HasShape};
ghost use Rattle.pssm_model.specs.WellFormed.{IsBadInitial, IsBadHistory, IsBadJoin, IsBadFork, IsOpenEnded, Behaves, IsBadFinal, IsBadTerminate};

use crate::counts::{lacks_one, meets_some, meets_two};
use crate::elements::{has_kind, is_branch, is_history};
use crate::ends::End;
use pssm_model::{Machine, VertexId, VertexKind};

/// E03: whether it is an initial vertex with not exactly one transition out, or with one in.
pub fn is_bad_initial(machine: &Machine, vertex: VertexId) -> bool
    requires { vertex.0 < length machine.now.vertices }
    ensures { IsTrue result ↔ IsBadInitial machine.now vertex }
{
    has_kind(machine, vertex, VertexKind::Initial)
        && (lacks_one(machine, vertex, End::Source) || meets_some(machine, vertex, End::Target))
}

/// E04: whether it is a history vertex with two transitions out.
pub fn is_bad_history(machine: &Machine, vertex: VertexId) -> bool
    requires { vertex.0 < length machine.now.vertices }
    ensures { IsTrue result ↔ IsBadHistory machine.now vertex }
{
    is_history(machine, vertex) && meets_two(machine, vertex, End::Source)
}

/// E05: whether it is a join with fewer than two transitions in, or not exactly one out.
pub fn is_bad_join(machine: &Machine, vertex: VertexId) -> bool
    requires { vertex.0 < length machine.now.vertices }
    ensures { IsTrue result ↔ IsBadJoin machine.now vertex }
{
    has_kind(machine, vertex, VertexKind::Join)
        && (!meets_two(machine, vertex, End::Target) || lacks_one(machine, vertex, End::Source))
}

/// E06: whether it is a fork with not exactly one transition in, or fewer than two out.
pub fn is_bad_fork(machine: &Machine, vertex: VertexId) -> bool
    requires { vertex.0 < length machine.now.vertices }
    ensures { IsTrue result ↔ IsBadFork machine.now vertex }
{
    has_kind(machine, vertex, VertexKind::Fork)
        && (lacks_one(machine, vertex, End::Target) || !meets_two(machine, vertex, End::Source))
}

/// E09: whether it is a junction or choice without a transition in, or without one out.
pub fn is_open_ended(machine: &Machine, vertex: VertexId) -> bool
    requires { vertex.0 < length machine.now.vertices }
    ensures { IsTrue result ↔ IsOpenEnded machine.now vertex }
{
    is_branch(machine, vertex)
        && (!meets_some(machine, vertex, End::Target) || !meets_some(machine, vertex, End::Source))
}

/// Whether the vertex has an entry, exit or do behaviour or a deferred signal.
fn behaves(machine: &Machine, vertex: VertexId) -> bool
    requires { vertex.0 < length machine.now.vertices }
    ensures { IsTrue result ↔ Behaves machine.now vertex }
{
    let found = machine.vertex(vertex);
    found.entry.0 != 0
        || found.exit.0 != 0
        || !found.steps.as_slice().is_empty()
        || !found.defers.as_slice().is_empty()
}

/// E11: whether it is final and has a transition out, a behaviour or a deferred signal. (It owns
/// nothing, by its shape.)
pub fn is_bad_final(machine: &Machine, vertex: VertexId) -> bool
    requires shape { HasShape machine.now }
    requires there { vertex.0 < length machine.now.vertices }
    ensures { IsTrue result ↔ IsBadFinal machine.now vertex }
{
    has_kind(machine, vertex, VertexKind::Final)
        && (meets_some(machine, vertex, End::Source) || behaves(machine, vertex))
}

/// E12: whether it is a terminate vertex with a transition out.
pub fn is_bad_terminate(machine: &Machine, vertex: VertexId) -> bool
    requires { vertex.0 < length machine.now.vertices }
    ensures { IsTrue result ↔ IsBadTerminate machine.now vertex }
{
    has_kind(machine, vertex, VertexKind::Terminate) && meets_some(machine, vertex, End::Source)
}
