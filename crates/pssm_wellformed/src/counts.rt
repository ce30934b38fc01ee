//! How many transitions meet at a vertex.
ghost use Rattle.std.specs.Prelude.{◌≢◌, ◌↔◌, ◌⊎◌, ◌<◌, length, IsTrue};
ghost use Rattle.pssm_wellformed.specs.inner.Ends.{HasEnd};

use crate::ends::{End, meeting};
use pssm_model::{Machine, TransId, VertexId};

/// Whether some transition has the vertex at this end.
pub fn meets_some(machine: &Machine, vertex: VertexId, end: End) -> bool
    requires { vertex.0 < length machine.now.vertices }
    ensures { IsTrue result ↔ ((t : TransId) × HasEnd machine.now end t vertex) }
{
    !meeting(machine, vertex, end).is_empty()
}

/// Whether at least two transitions have the vertex at this end.
pub fn meets_two(machine: &Machine, vertex: VertexId, end: End) -> bool
    requires { vertex.0 < length machine.now.vertices }
    ensures { IsTrue result
        ↔ ((t u : TransId) × (t ≢ u) × HasEnd machine.now end t vertex × HasEnd machine.now end u vertex) }
{
    meeting(machine, vertex, end).len() > 1
}

/// Whether not exactly one transition has the vertex at this end.
pub fn lacks_one(machine: &Machine, vertex: VertexId, end: End) -> bool
    requires { vertex.0 < length machine.now.vertices }
    ensures { IsTrue result
        ↔ ((((t : TransId) × HasEnd machine.now end t vertex) → ⊥)
        ⊎ ((t u : TransId) × (t ≢ u) × HasEnd machine.now end t vertex × HasEnd machine.now end u vertex)) }
{
    !meets_some(machine, vertex, end) || meets_two(machine, vertex, end)
}
