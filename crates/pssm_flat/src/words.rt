//! The words of kinds.
ghost use Rattle.std.specs.Prelude.{◌≡◌};
ghost use Rattle.pssm_flat.specs.Text.{kind_word, transition_word};
ghost use Rattle.pssm_flat.specs.inner.Lines.{kind_among, kind_of as kind_named, transition_of as transition_named};

use pssm_model::{TransKind, VertexKind};

/// The word of a kind of vertex.
pub(crate) fn name_of_kind(kind: VertexKind) -> &'static [u8]
    ensures { result.now ≡ kind_word kind }
{
    match kind {
        VertexKind::State => b"state",
        VertexKind::Final => b"final",
        VertexKind::Initial => b"initial",
        VertexKind::DeepHistory => b"deepHistory",
        VertexKind::ShallowHistory => b"shallowHistory",
        VertexKind::Join => b"join",
        VertexKind::Fork => b"fork",
        VertexKind::Junction => b"junction",
        VertexKind::Choice => b"choice",
        VertexKind::EntryPoint => b"entryPoint",
        VertexKind::ExitPoint => b"exitPoint",
        VertexKind::Terminate => b"terminate",
    }
}

/// The word of a kind of transition.
pub(crate) fn name_of_transition(kind: TransKind) -> &'static [u8]
    ensures { result.now ≡ transition_word kind }
{
    match kind {
        TransKind::External => b"external",
        TransKind::Local => b"local",
        TransKind::Internal => b"internal",
    }
}

// The first of these kinds whose word it is.
fn first_named(kinds: &[VertexKind], word: &[u8]) -> Option<VertexKind>
    ensures { result ≡ kind_among kinds.now word.now }
{
    for kind in kinds {
        if word == name_of_kind(*kind) {
            return Some(*kind);
        }
    }
    None
}

/// The kind of vertex that a word names.
pub(crate) fn kind_of(word: &[u8]) -> Option<VertexKind>
    ensures { result ≡ kind_named word.now }
{
    let kinds = [
        VertexKind::State,
        VertexKind::Final,
        VertexKind::Initial,
        VertexKind::DeepHistory,
        VertexKind::ShallowHistory,
        VertexKind::Join,
        VertexKind::Fork,
        VertexKind::Junction,
        VertexKind::Choice,
        VertexKind::EntryPoint,
        VertexKind::ExitPoint,
        VertexKind::Terminate,
    ];
    first_named(kinds.as_slice(), word)
}

/// The kind of transition that a word names.
pub(crate) fn transition_of(word: &[u8]) -> Option<TransKind>
    ensures { result ≡ transition_named word.now }
{
    if word == b"external".as_slice() {
        Some(TransKind::External)
    } else if word == b"local".as_slice() {
        Some(TransKind::Local)
    } else if word == b"internal".as_slice() {
        Some(TransKind::Internal)
    } else {
        None
    }
}
