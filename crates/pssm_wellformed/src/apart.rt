//! The rules of joins, forks and entry points, whose transitions lead from or to different regions
//! of a State: E07, E08 and E15.
ghost use Rattle.std.specs.Prelude.{◌≡◌, ◌↔◌, ◌<◌, Some, length, IsTrue};
ghost use Rattle.pssm_model.specs.declared.elements.Owner.TheVariants.{State};
ghost use Rattle.pssm_model.specs.Forest.{HasKind, owner_of};
ghost use Rattle.pssm_model.specs.WellFormed.{LieApart, HasSourcesTogether, HasTargetsTogether, JoinsBadly, ForksBadly, IsBadEntryPoint};
ghost use Rattle.pssm_wellformed.specs.inner.Apart.{AreOtherEnds};

use crate::elements::has_kind;
use crate::ends::End;
use crate::paths::Marked;
use crate::questions::{Question, holds_at};
use pssm_model::{VertexId, VertexKind};

/// Whether the sources of the join lie in different regions of no State beside it.
fn sources_lie_together(marked: &Marked, vertex: VertexId) -> bool
    requires there { vertex.0 < length marked.now.vertices }
    requires join { HasKind marked.now vertex VertexKind.Join }
    ensures { IsTrue result ↔ HasSourcesTogether marked.now vertex }
{
    !marked.marks.sources_apart[vertex.0 as usize]
}

/// Whether the targets of the fork lie in different regions of no State beside it.
fn targets_lie_together(marked: &Marked, vertex: VertexId) -> bool
    requires there { vertex.0 < length marked.now.vertices }
    requires fork { HasKind marked.now vertex VertexKind.Fork }
    ensures { IsTrue result ↔ HasTargetsTogether marked.now vertex }
{
    !marked.marks.targets_apart[vertex.0 as usize]
}

/// Whether the targets of the entry point do not lie in different regions of its State.
fn entries_lie_together(marked: &Marked, vertex: VertexId) -> bool
    requires there { vertex.0 < length marked.now.vertices }
    requires point { HasKind marked.now vertex VertexKind.EntryPoint }
    ensures { IsTrue result
        ↔ ((s : VertexId) → owner_of marked.now (State vertex) ≡ Some (State s)
        → LieApart marked.now s (AreOtherEnds marked.now End.Source End.Target vertex) → ⊥) }
{
    !marked.marks.targets_apart[vertex.0 as usize]
}

/// E07: whether it is a join with a segment in that has a guard or trigger or leaves no State, or
/// whose sources lie in different regions of no State beside it.
pub fn joins_badly(marked: &Marked, vertex: VertexId) -> bool
    requires there { vertex.0 < length marked.now.vertices }
    ensures { IsTrue result ↔ JoinsBadly marked.now vertex }
{
    let machine = marked.machine;
    has_kind(machine, vertex, VertexKind::Join)
        && (holds_at(machine, vertex, End::Target, Question::IsBadSegmentIn)
            || sources_lie_together(marked, vertex))
}

/// E08: whether it is a fork with a segment out that has a guard or ends on no State or final
/// state, or whose targets lie in different regions of no State beside it.
pub fn forks_badly(marked: &Marked, vertex: VertexId) -> bool
    requires there { vertex.0 < length marked.now.vertices }
    ensures { IsTrue result ↔ ForksBadly marked.now vertex }
{
    let machine = marked.machine;
    has_kind(machine, vertex, VertexKind::Fork)
        && (holds_at(machine, vertex, End::Source, Question::IsBadSegmentOut)
            || targets_lie_together(marked, vertex))
}

/// E15: whether it is an entry point whose targets do not lie in different regions of its State.
pub fn is_bad_entry_point(marked: &Marked, vertex: VertexId) -> bool
    requires there { vertex.0 < length marked.now.vertices }
    ensures { IsTrue result ↔ IsBadEntryPoint marked.now vertex }
{
    has_kind(marked.machine, vertex, VertexKind::EntryPoint) && entries_lie_together(marked, vertex)
}
