//! Breaches in the order of a file.
ghost use Rattle.std.specs.Prelude.{◌≡◌, ◌↔◌, IsTrue};
ghost use Rattle.pssm_breaches.specs.Forms.{begins_at};
ghost use Rattle.pssm_breaches.specs.Faults.{kind_number, IsEarlier};
ghost use Rattle.pssm_breaches.specs.inner.Walks.{site, IsFirstOfTwo};

use crate::breach::Breach;
use pssm_heritage::{ElementKind, region_at, transition_at, vertex_at};
use pssm_model::{Draft, ElementRef};

// The byte where an element begins.
fn begin_of(draft: &Draft, kind: ElementKind, e: ElementRef) -> u32
    ensures { result ≡ begins_at draft.now kind e }
{
    match kind {
        ElementKind::Region => region_at(draft, e).map_or(0, |r| r.at),
        ElementKind::Vertex => vertex_at(draft, e).map_or(0, |v| v.at),
        ElementKind::Transition => transition_at(draft, e).map_or(0, |t| t.at),
    }
}

// The place of a kind in the order of the kinds.
fn kind_place(kind: ElementKind) -> u8
    ensures { result ≡ kind_number kind }
{
    match kind {
        ElementKind::Region => 0,
        ElementKind::Vertex => 1,
        ElementKind::Transition => 2,
    }
}

// Whether a breach comes before another one.
fn is_earlier(draft: &Draft, a: Breach, b: Breach) -> bool
    ensures { IsTrue result ↔ IsEarlier (site draft.now a) (site draft.now b) }
{
    let at = begin_of(draft, a.kind, a.element);
    let other = begin_of(draft, b.kind, b.element);
    if at != other {
        return at < other;
    }
    if a.element.machine != b.element.machine {
        return a.element.machine < b.element.machine;
    }
    let place = kind_place(a.kind);
    let other_place = kind_place(b.kind);
    if place != other_place {
        return place < other_place;
    }
    a.element.element < b.element.element
}

// The first of two breaches.
pub(crate) fn first_of_two(
    draft: &Draft,
    found: Option<Breach>,
    other: Option<Breach>,
) -> Option<Breach>
    ensures { IsFirstOfTwo draft.now found other result }
{
    match found {
        None => other,
        Some(b) => match other {
            None => found,
            Some(c) => {
                if is_earlier(draft, c, b) {
                    other
                } else {
                    found
                }
            }
        },
    }
}
