//! What the forms of an element give: the last one that gives a thing decides.
ghost use Rattle.std.specs.Prelude.{◌≡◌};
ghost use Rattle.std.specs.Option.{option_copied};
ghost use Rattle.pssm_redefine.specs.Forms.{last_given, given_label, given_kind, given_guard, guard_if_any, guard_text};
ghost use Rattle.pssm_redefine.specs.inner.Gathered.{given_body};

use pssm_heritage::{transition_at, vertex_at};
use pssm_model::{Body, Draft, ElementRef, PartGuard, Text, TransKind};

// A field that has a body; guards are apart.
#[derive(Clone, Copy)]
pub(crate) enum BodyField {
    Entry,
    Exit,
    Steps,
    Effect,
}

// The label that a form gives.
fn label_at(draft: &Draft, form: ElementRef) -> Option<&Text>
    ensures { option_copied result ≡ given_label draft.now form }
{
    vertex_at(draft, form)?.label.as_ref()
}

// The body that a form gives in a field.
fn body_at(draft: &Draft, form: ElementRef, field: BodyField) -> Option<&Body>
    ensures { option_copied result ≡ given_body draft.now field form }
{
    match field {
        BodyField::Entry => vertex_at(draft, form)?.entry.as_ref(),
        BodyField::Exit => vertex_at(draft, form)?.exit.as_ref(),
        BodyField::Steps => vertex_at(draft, form)?.steps.as_ref(),
        BodyField::Effect => transition_at(draft, form)?.effect.as_ref(),
    }
}

// A guard, but for a missing one.
fn if_any(guard: &PartGuard) -> Option<&PartGuard>
    ensures { option_copied result ≡ guard_if_any guard.now }
{
    match guard {
        PartGuard::Missing => None,
        PartGuard::Otherwise => Some(guard),
        PartGuard::Given(_) => Some(guard),
    }
}

// The text of a guard that has one.
pub(crate) fn text_of(guard: &PartGuard) -> Option<&Body>
    ensures { option_copied result ≡ guard_text guard.now }
{
    match guard {
        PartGuard::Missing => None,
        PartGuard::Otherwise => None,
        PartGuard::Given(body) => Some(body),
    }
}

// The guard that a form gives.
fn guard_at(draft: &Draft, form: ElementRef) -> Option<&PartGuard>
    ensures { option_copied result ≡ given_guard draft.now form }
{
    if_any(&transition_at(draft, form)?.guard)
}

// The kind that a form gives.
fn kind_at(draft: &Draft, form: ElementRef) -> Option<TransKind>
    ensures { result ≡ given_kind draft.now form }
{
    transition_at(draft, form)?.kind
}

// The label of the last form that gives one.
pub(crate) fn last_label<'a>(draft: &'a Draft, forms: &[ElementRef]) -> Option<&'a Text>
    ensures { option_copied result ≡ last_given (given_label draft.now) forms.now }
{
    let mut last = None;
    for form in forms {
        last = label_at(draft, *form).or(last);
    }
    last
}

// The body of the last form that gives one in a field.
pub(crate) fn last_body<'a>(
    draft: &'a Draft,
    forms: &[ElementRef],
    field: BodyField,
) -> Option<&'a Body>
    ensures { option_copied result ≡ last_given (given_body draft.now field) forms.now }
{
    let mut last = None;
    for form in forms {
        last = body_at(draft, *form, field).or(last);
    }
    last
}

// The guard of the last form that gives one.
pub(crate) fn last_guard<'a>(draft: &'a Draft, forms: &[ElementRef]) -> Option<&'a PartGuard>
    ensures { option_copied result ≡ last_given (given_guard draft.now) forms.now }
{
    let mut last = None;
    for form in forms {
        last = guard_at(draft, *form).or(last);
    }
    last
}

// The kind of the last form that gives one.
pub(crate) fn last_kind(draft: &Draft, forms: &[ElementRef]) -> Option<TransKind>
    ensures { result ≡ last_given (given_kind draft.now) forms.now }
{
    let mut last = None;
    for form in forms {
        last = kind_at(draft, *form).or(last);
    }
    last
}
