//! What is inherited, and at the corresponding place.
ghost use Rattle.std.specs.Prelude.{◌≡◌, ◌↔◌, IsTrue, Some};
ghost use Rattle.pssm_model.specs.DraftSettings.{IsInRange, ExtendsFar};
ghost use Rattle.pssm_heritage.specs.Elements.{redefined};
ghost use Rattle.pssm_heritage.specs.Heritages.{IsLineage};
ghost use Rattle.pssm_breaches.specs.Latest.{IsWithin};
ghost use Rattle.pssm_breaches.specs.Rules.{AreSameRegions, AreSameVertices, AtSamePlace, IsInherited};
ghost use Rattle.pssm_breaches.specs.inner.Firsts.{OwnersMeet};

use crate::firsts::{became_same, is_first};
use pssm_heritage::{ElementKind, Heritage, region_at, vertex_at};
use pssm_model::{Draft, ElementRef, Owner};

// Whether two owners, each in its machine, became the same.
fn same_owner(heritage: &Heritage, m: u32, a: Owner, n: u32, b: Owner) -> bool
    ensures { IsTrue result ↔ OwnersMeet heritage.now m a n b }
{
    match (a, b) {
        (Owner::Top, Owner::Top) => true,
        (Owner::Region(r), Owner::Region(s)) => became_same(
            heritage,
            ElementKind::Region,
            ElementRef {
                machine: m,
                element: r.0 as u32,
            },
            ElementRef {
                machine: n,
                element: s.0 as u32,
            },
        ),
        (Owner::State(v), Owner::State(w)) => became_same(
            heritage,
            ElementKind::Vertex,
            ElementRef {
                machine: m,
                element: v.0 as u32,
            },
            ElementRef {
                machine: n,
                element: w.0 as u32,
            },
        ),
        _ => false,
    }
}

// Whether two regions have owners that became the same.
fn same_regions(draft: &Draft, heritage: &Heritage, _m: u32, e: ElementRef, f: ElementRef) -> bool
    requires range { IsInRange draft.now }
    requires lineage { IsLineage draft.now _m heritage.now }
    requires within { IsWithin draft.now _m ElementKind.Region e }
    requires above { IsWithin draft.now _m ElementKind.Region f }
    ensures { IsTrue result ↔ AreSameRegions draft.now e f }
{
    match region_at(draft, e) {
        Some(region) => match region_at(draft, f) {
            Some(other) => same_owner(heritage, e.machine, region.owner, f.machine, other.owner),
            None => false,
        },
        None => false,
    }
}

// Whether two vertices are of one kind, and have owners that became the same.
fn same_vertices(draft: &Draft, heritage: &Heritage, _m: u32, e: ElementRef, f: ElementRef) -> bool
    requires range { IsInRange draft.now }
    requires lineage { IsLineage draft.now _m heritage.now }
    requires within { IsWithin draft.now _m ElementKind.Vertex e }
    requires above { IsWithin draft.now _m ElementKind.Vertex f }
    ensures { IsTrue result ↔ AreSameVertices draft.now e f }
{
    match vertex_at(draft, e) {
        Some(vertex) => match vertex_at(draft, f) {
            Some(other) => {
                if vertex.kind == other.kind {
                    same_owner(heritage, e.machine, vertex.owner, f.machine, other.owner)
                } else {
                    false
                }
            }
            None => false,
        },
        None => false,
    }
}

// Whether another element stands at the corresponding place.
fn at_same_place(
    draft: &Draft,
    heritage: &Heritage,
    m: u32,
    kind: ElementKind,
    e: ElementRef,
    f: ElementRef,
) -> bool
    requires range { IsInRange draft.now }
    requires lineage { IsLineage draft.now m heritage.now }
    requires within { IsWithin draft.now m kind e }
    requires above { IsWithin draft.now m kind f }
    ensures { IsTrue result ↔ AtSamePlace draft.now kind e f }
{
    match kind {
        ElementKind::Region => same_regions(draft, heritage, m, e, f),
        ElementKind::Vertex => same_vertices(draft, heritage, m, e, f),
        ElementKind::Transition => true,
    }
}

// Whether the element that one names is in a machine above its own: it became another one.
fn names_above(
    _draft: &Draft,
    heritage: &Heritage,
    _m: u32,
    kind: ElementKind,
    e: ElementRef,
    _f: ElementRef,
) -> bool
    requires lineage { IsLineage _draft.now _m heritage.now }
    requires within { IsWithin _draft.now _m kind e }
    requires named { redefined _draft.now kind e ≡ Some _f }
    ensures { IsTrue result ↔ ExtendsFar _draft.now e.machine _f.machine }
{
    !is_first(heritage, kind, e)
}

// Whether an element inherits the one that it names.
pub(crate) fn is_inherited(
    draft: &Draft,
    heritage: &Heritage,
    m: u32,
    kind: ElementKind,
    e: ElementRef,
    f: ElementRef,
) -> bool
    requires range { IsInRange draft.now }
    requires lineage { IsLineage draft.now m heritage.now }
    requires within { IsWithin draft.now m kind e }
    requires named { redefined draft.now kind e ≡ Some f }
    ensures { IsTrue result ↔ IsInherited draft.now kind e f }
{
    if names_above(draft, heritage, m, kind, e, f) {
        at_same_place(draft, heritage, m, kind, e, f)
    } else {
        false
    }
}
