//! What is asked of the last form before an element.
ghost use Rattle.std.specs.Prelude.{◌≡◌, ◌↔◌, IsTrue};
ghost use Rattle.pssm_heritage.specs.Heritages.{numbering_of};
ghost use Rattle.pssm_breaches.specs.Rules.{IsRepeated, RedefinesLeaf};
ghost use Rattle.pssm_breaches.specs.inner.Latest.{latest_in, IsAsked};

use crate::elements::is_leaf_at;
use pssm_heritage::{ElementKind, Heritage};
use pssm_model::{Draft, ElementRef};

// The last form before an element, from a table of them by number.
fn latest_of(
    heritage: &Heritage,
    kind: ElementKind,
    latest: &[ElementRef],
    e: ElementRef,
) -> Option<ElementRef>
    ensures { result ≡ latest_in (numbering_of kind heritage.now) latest.now e }
{
    let number = heritage.number_of(kind, e)?;
    latest.get(number).copied()
}

// Whether an earlier element of its machine became the same.
pub(crate) fn is_repeated(
    _draft: &Draft,
    heritage: &Heritage,
    _m: u32,
    kind: ElementKind,
    latest: &[ElementRef],
    e: ElementRef,
    _f: ElementRef,
) -> bool
    requires { IsAsked _draft.now _m kind heritage.now latest.now e _f }
    ensures { IsTrue result ↔ IsRepeated _draft.now kind e }
{
    match latest_of(heritage, kind, latest, e) {
        Some(last) => last.machine == e.machine,
        None => false,
    }
}

// Whether what an element redefines has become a leaf.
pub(crate) fn redefines_leaf(
    draft: &Draft,
    heritage: &Heritage,
    _m: u32,
    kind: ElementKind,
    latest: &[ElementRef],
    e: ElementRef,
    _f: ElementRef,
) -> bool
    requires asked { IsAsked draft.now _m kind heritage.now latest.now e _f }
    requires once { IsRepeated draft.now kind e → ⊥ }
    ensures { IsTrue result ↔ RedefinesLeaf draft.now kind e }
{
    match latest_of(heritage, kind, latest, e) {
        Some(last) => is_leaf_at(draft, kind, last),
        None => false,
    }
}
