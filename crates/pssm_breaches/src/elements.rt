//! Leaves of a draft.
ghost use Rattle.std.specs.Prelude.{◌≡◌};
ghost use Rattle.pssm_breaches.specs.Forms.{is_leaf};

use pssm_heritage::{ElementKind, transition_at, vertex_at};
use pssm_model::{Draft, ElementRef};

// Whether an element is a leaf.
pub(crate) fn is_leaf_at(draft: &Draft, kind: ElementKind, e: ElementRef) -> bool
    ensures { result ≡ is_leaf draft.now kind e }
{
    match kind {
        ElementKind::Region => false,
        ElementKind::Vertex => vertex_at(draft, e).map_or(false, |v| v.leaf),
        ElementKind::Transition => transition_at(draft, e).map_or(false, |t| t.leaf),
    }
}
