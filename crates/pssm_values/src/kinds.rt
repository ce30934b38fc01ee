//! Kinds of pseudostates and of transitions.
ghost use Rattle.std.specs.Prelude.{◌≡◌};
ghost use Rattle.std.specs.Option.{option_copied};
ghost use Rattle.pssm_values.specs.Kinds.{pseudostate_spelled, pseudostate_said, transition_spelled, transition_said};

use pssm_model::{TransKind, VertexKind};

/// The kind of pseudostate that the word spells; none where it spells none (UML 2.5.1, 14.5.7, PseudostateKind).
pub fn pseudostate_of(word: &[u8]) -> Option<VertexKind>
    ensures { result ≡ pseudostate_spelled word.now }
{
    if word == b"initial".as_slice() {
        Some(VertexKind::Initial)
    } else if word == b"deepHistory".as_slice() {
        Some(VertexKind::DeepHistory)
    } else if word == b"shallowHistory".as_slice() {
        Some(VertexKind::ShallowHistory)
    } else if word == b"join".as_slice() {
        Some(VertexKind::Join)
    } else if word == b"fork".as_slice() {
        Some(VertexKind::Fork)
    } else if word == b"junction".as_slice() {
        Some(VertexKind::Junction)
    } else if word == b"choice".as_slice() {
        Some(VertexKind::Choice)
    } else if word == b"entryPoint".as_slice() {
        Some(VertexKind::EntryPoint)
    } else if word == b"exitPoint".as_slice() {
        Some(VertexKind::ExitPoint)
    } else if word == b"terminate".as_slice() {
        Some(VertexKind::Terminate)
    } else {
        None
    }
}

/// The kind of a pseudostate whose attribute `kind` is this; a missing one is `initial` (UML 2.5.1, 14.5.6,
/// Pseudostate).
pub fn pseudostate_kind(value: Option<&[u8]>) -> Option<VertexKind>
    ensures { result ≡ pseudostate_said (option_copied value.entry) }
{
    match value {
        Some(word) => pseudostate_of(word),
        None => Some(VertexKind::Initial),
    }
}

/// The kind of transition that the word spells; none where it spells none (UML 2.5.1, 14.5.12, TransitionKind).
pub fn transition_of(word: &[u8]) -> Option<TransKind>
    ensures { result ≡ transition_spelled word.now }
{
    if word == b"external".as_slice() {
        Some(TransKind::External)
    } else if word == b"local".as_slice() {
        Some(TransKind::Local)
    } else if word == b"internal".as_slice() {
        Some(TransKind::Internal)
    } else {
        None
    }
}

/// The kind of a transition whose attribute `kind` is this; a missing one is `external` (UML 2.5.1, 14.5.11,
/// Transition).
pub fn transition_kind(value: Option<&[u8]>) -> Option<TransKind>
    ensures { result ≡ transition_said (option_copied value.entry) }
{
    match value {
        Some(word) => transition_of(word),
        None => Some(TransKind::External),
    }
}
