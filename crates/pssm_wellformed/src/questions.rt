//! What is asked of the transitions that meet at a vertex.
ghost use Rattle.std.specs.Prelude.{◌↔◌, ◌<◌, All, Contains, length, IsTrue};
ghost use Rattle.pssm_model.specs.declared.ids.TransId.{TransId};
ghost use Rattle.pssm_wellformed.specs.inner.Ends.{HasEnd};
ghost use Rattle.pssm_wellformed.specs.inner.Questions.{Holds, IsAbout};

use crate::elements::{has_else, has_guard, has_kind, has_trigger, is_state_or_final};
use crate::ends::{End, end_of, meeting};
use pssm_model::{Machine, TransId, VertexId, VertexKind};

/// A question about a transition.
#[derive(Clone, Copy)]
pub enum Question {
    /// Has it a guard or trigger, or does it leave no State?
    IsBadSegmentIn,
    /// Has it a guard, or does it end on no State or final state?
    IsBadSegmentOut,
    /// Has it `else` or no guard?
    IsFallback,
    /// Does it end in the State?
    EndsInside(VertexId),
}

/// The answer to the question.
fn holds(machine: &Machine, transition: TransId, question: Question) -> bool
    requires there { transition.0 < length machine.now.transitions }
    requires named { IsAbout machine.now question }
    ensures { IsTrue result ↔ Holds machine.now question transition }
{
    let source = end_of(machine, transition, End::Source);
    let target = end_of(machine, transition, End::Target);
    match question {
        Question::IsBadSegmentIn => {
            has_guard(machine, transition)
                || has_trigger(machine, transition)
                || !has_kind(machine, source, VertexKind::State)
        }
        Question::IsBadSegmentOut => has_guard(machine, transition)
            || !is_state_or_final(machine, target),
        Question::IsFallback => has_else(machine, transition) || !has_guard(machine, transition),
        Question::EndsInside(state) => machine.lies_in_state(target, state),
    }
}

/// Whether the answer is yes for one of these transitions.
fn holds_for_some(machine: &Machine, transitions: &[TransId], question: Question) -> bool
    requires there { All (λ t. t.0 < length machine.now.transitions) transitions.now }
    requires named { IsAbout machine.now question }
    ensures { IsTrue result
        ↔ ((t : TransId) × Contains transitions.now t × Holds machine.now question t) }
{
    for transition in transitions {
        if holds(machine, *transition, question) {
            return true;
        }
    }
    false
}

/// Whether the answer is yes for a transition that has the vertex at this end.
pub fn holds_at(machine: &Machine, vertex: VertexId, end: End, question: Question) -> bool
    requires there { vertex.0 < length machine.now.vertices }
    requires named { IsAbout machine.now question }
    ensures { IsTrue result ↔ ((t : TransId) × HasEnd machine.now end t vertex × Holds machine.now question t) }
{
    holds_for_some(machine, meeting(machine, vertex, end), question)
}
