//! The two ends of a transition, and the transitions that meet at a vertex.
ghost use Rattle.std.specs.Prelude.{◌↔◌, ◌<◌, All, AllPairs, Contains, length};
ghost use Rattle.pssm_model.specs.declared.ids.TransId.{TransId};
ghost use Rattle.pssm_wellformed.specs.inner.Ends.{HasEnd};

use pssm_model::{Machine, TransId, VertexId};

/// An end of a transition.
#[derive(Clone, Copy)]
pub enum End {
    Source,
    Target,
}

/// The vertex at an end of the transition.
pub fn end_of(machine: &Machine, transition: TransId, end: End) -> VertexId
    requires { transition.0 < length machine.now.transitions }
    ensures is { HasEnd machine.now end transition result }
    ensures there { result.0 < length machine.now.vertices }
{
    match end {
        End::Source => machine.source(transition),
        End::Target => machine.target(transition),
    }
}

/// The transitions that have the vertex at this end, ascending.
pub fn meeting(machine: &Machine, vertex: VertexId, end: End) -> &[TransId]
    requires { vertex.0 < length machine.now.vertices }
    ensures items { (t : TransId) → Contains result.now t ↔ HasEnd machine.now end t vertex }
    ensures there { All (λ t. t.0 < length machine.now.transitions) result.now }
    ensures ascending { AllPairs (λ t u. t.0 < u.0) result.now }
{
    match end {
        End::Source => machine.outgoing(vertex),
        End::Target => machine.incoming(vertex),
    }
}
