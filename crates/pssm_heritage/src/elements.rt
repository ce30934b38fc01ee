//! Regions, vertices and transitions of a draft, asked alike.
ghost use Rattle.std.specs.Prelude.{◌≡◌, ◌<◌, length, slice_get};
ghost use Rattle.std.specs.Option.{option_copied, option_map_or};
ghost use Rattle.pssm_model.specs.DraftSettings.{IsInRange, region_of, vertex_of, transition_of};
ghost use Rattle.pssm_heritage.specs.Elements.{count_in, redefined};

use crate::kinds::ElementKind;
use pssm_model::{Draft, DraftParts, ElementRef, PartRegion, PartTransition, PartVertex};

/// The region at a place; none outside of the draft.
pub fn region_at(draft: &Draft, e: ElementRef) -> Option<&PartRegion>
    ensures { option_copied result ≡ region_of draft.now e }
{
    let parts = draft.machines.as_slice().get(e.machine as usize)?;
    parts.regions.as_slice().get(e.element as usize)
}

/// The vertex at a place; none outside of the draft.
pub fn vertex_at(draft: &Draft, e: ElementRef) -> Option<&PartVertex>
    ensures { option_copied result ≡ vertex_of draft.now e }
{
    let parts = draft.machines.as_slice().get(e.machine as usize)?;
    parts.vertices.as_slice().get(e.element as usize)
}

/// The transition at a place; none outside of the draft.
pub fn transition_at(draft: &Draft, e: ElementRef) -> Option<&PartTransition>
    ensures { option_copied result ≡ transition_of draft.now e }
{
    let parts = draft.machines.as_slice().get(e.machine as usize)?;
    parts.transitions.as_slice().get(e.element as usize)
}

// How many elements of the kind a machine has.
fn count_in_parts(parts: &DraftParts, kind: ElementKind) -> usize
    ensures { result ≡ count_in kind parts.now }
{
    match kind {
        ElementKind::Region => parts.regions.as_slice().len(),
        ElementKind::Vertex => parts.vertices.as_slice().len(),
        ElementKind::Transition => parts.transitions.as_slice().len(),
    }
}

/// How many elements of the kind the machine with the number has of its own.
pub fn count_of(draft: &Draft, kind: ElementKind, m: u32) -> u32
    requires range { IsInRange draft.now }
    requires there { m < length draft.now.machines }
    ensures { result ≡ option_map_or (count_in kind) (slice_get draft.now.machines m) 0 }
{
    count_in_parts(&draft.machines.as_slice()[m as usize], kind) as u32
}

/// The element that an element redefines; of a region the one that it extends (UML 2.5.1, 14.3.3).
pub fn redefined_by(draft: &Draft, kind: ElementKind, e: ElementRef) -> Option<ElementRef>
    ensures { result ≡ redefined draft.now kind e }
{
    match kind {
        ElementKind::Region => region_at(draft, e)?.extends,
        ElementKind::Vertex => vertex_at(draft, e)?.redefines,
        ElementKind::Transition => transition_at(draft, e)?.redefines,
    }
}
