//! The first forms of elements.
ghost use Rattle.std.specs.Prelude.{◌≡◌, ◌↔◌, IsTrue, Some};
ghost use Rattle.pssm_heritage.specs.Heritages.{numbering_of};
ghost use Rattle.pssm_breaches.specs.inner.Firsts.{first_in, HaveSameFirst};

use pssm_heritage::{ElementKind, Heritage};
use pssm_model::ElementRef;

// The first form that an element became.
pub(crate) fn first_of(heritage: &Heritage, kind: ElementKind, e: ElementRef) -> Option<ElementRef>
    ensures { result ≡ first_in (numbering_of kind heritage.now) e }
{
    let number = heritage.number_of(kind, e)?;
    heritage.firsts(kind).get(number).copied()
}

// Whether two elements became the same.
pub(crate) fn became_same(
    heritage: &Heritage,
    kind: ElementKind,
    e: ElementRef,
    f: ElementRef,
) -> bool
    ensures { IsTrue result ↔ HaveSameFirst (numbering_of kind heritage.now) e f }
{
    match first_of(heritage, kind, e) {
        Some(first) => first_of(heritage, kind, f) == Some(first),
        None => false,
    }
}

// Whether an element is a first form.
pub(crate) fn is_first(heritage: &Heritage, kind: ElementKind, e: ElementRef) -> bool
    ensures { IsTrue result ↔ (first_in (numbering_of kind heritage.now) e ≡ Some e) }
{
    first_of(heritage, kind, e) == Some(e)
}
