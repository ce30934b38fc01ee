//! The slots of a flattened machine: what may have a body, in the order of the elements.
ghost use Rattle.std.specs.Prelude.{◌≡◌, IfOk, option_and_then};
ghost use Rattle.std.specs.Option.{option_copied};
ghost use Rattle.pssm_redefine.specs.Forms.{last_given, given_guard, guard_text};
ghost use Rattle.std.specs.List.{flat_map};
ghost use Rattle.pssm_redefine.specs.Merging.{vertex_slots, transition_slots, slots_of};
ghost use Rattle.pssm_redefine.specs.inner.Gathered.{lent_bodies};

use crate::forms::{BodyField, last_body, last_guard, text_of};
use pssm_model::{Body, Draft, ElementRef, Row};
use std::alloc::{AllocError as NoMemory, Global};

// The text of the guard of the last form that gives one.
fn last_guard_text<'a>(draft: &'a Draft, forms: &[ElementRef]) -> Option<&'a Body>
    ensures { option_copied result ≡ option_and_then guard_text (last_given (given_guard draft.now) forms.now) }
{
    text_of(last_guard(draft, forms)?)
}

// The slots of the vertices.
fn of_vertices<'a>(
    alloc: Global,
    draft: &'a Draft,
    vertices: &[Row<ElementRef>],
) -> Result<Vec<Option<&'a Body>>, NoMemory>
    ensures { IfOk result (λ slots. lent_bodies slots.items ≡ flat_map (vertex_slots draft.now) vertices.now) }
{
    let mut slots = Vec::new(alloc);
    for forms in vertices {
        slots.push(last_body(draft, forms.as_slice(), BodyField::Entry))?;
        slots.push(last_body(draft, forms.as_slice(), BodyField::Exit))?;
        slots.push(last_body(draft, forms.as_slice(), BodyField::Steps))?;
    }
    Ok(slots)
}

// The slots of the vertices and the transitions.
pub(crate) fn all_slots<'a>(
    alloc: Global,
    draft: &'a Draft,
    vertices: &[Row<ElementRef>],
    transitions: &[Row<ElementRef>],
) -> Result<Vec<Option<&'a Body>>, NoMemory>
    ensures { IfOk result (λ slots. lent_bodies slots.items ≡ slots_of draft.now vertices.now transitions.now) }
{
    let mut slots = of_vertices(alloc, draft, vertices)?;
    for forms in transitions {
        slots.push(last_guard_text(draft, forms.as_slice()))?;
        slots.push(last_body(draft, forms.as_slice(), BodyField::Effect))?;
    }
    Ok(slots)
}
