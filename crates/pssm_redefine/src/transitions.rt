//! The transitions of a flattened machine.
ghost use Rattle.std.specs.Prelude.{◌≡◌, ◌≤◌, ◌<◌, IfOk, length, slice_index_or, unwrap_or};
ghost use Rattle.pssm_model.specs.declared.elements.TransKind.TheVariants.{External};
ghost use Rattle.pssm_redefine.specs.Forms.{last_given, given_kind, given_guard};
ghost use Rattle.pssm_redefine.specs.Merging.{first_triggers, guard_numbered, IsMergedTransition, AreMergedTransitions};
ghost use Rattle.pssm_redefine.specs.inner.Merges.{IsTransitionNumbered};

use crate::forms::{last_guard, last_kind};
use crate::parts::Ends;
use crate::vertices::number_at;
use pssm_heritage::transition_at;
use pssm_model::{
    ActId, Draft, Duplicate, ElementRef, Guard, GuardId, PartGuard, Row, SignalId, TransKind,
    Transition,
};
use std::alloc::{AllocError as NoMemory, Global};

// The kind of the last form that gives one; external where none does.
fn kind_of(draft: &Draft, forms: &[ElementRef]) -> TransKind
    ensures { result ≡ unwrap_or (last_given (given_kind draft.now) forms.now) External }
{
    last_kind(draft, forms).unwrap_or(TransKind::External)
}

// The triggers of the first form.
fn triggers_of(
    alloc: Global,
    draft: &Draft,
    forms: &[ElementRef],
) -> Result<Row<SignalId>, NoMemory>
    ensures { IfOk result (λ triggers. triggers ≡ first_triggers draft.now forms.now) }
{
    let Some(first) = forms.first() else {
        return Ok(Row::from_vec(Vec::new(alloc)));
    };
    match transition_at(draft, *first) {
        Some(transition) => transition.triggers.duplicate(alloc),
        None => Ok(Row::from_vec(Vec::new(alloc))),
    }
}

// The guard of the last form that gives one, the text of which has this number.
fn guard_of(draft: &Draft, forms: &[ElementRef], number: u16) -> Guard
    ensures { result ≡ guard_numbered (last_given (given_guard draft.now) forms.now) number }
{
    match last_guard(draft, forms) {
        None => Guard::Always,
        Some(PartGuard::Missing) => Guard::Always,
        Some(PartGuard::Otherwise) => Guard::Otherwise,
        Some(PartGuard::Given(_)) => Guard::When(GuardId(number)),
    }
}

// A transition, put together from its forms; its guard and its effect have these numbers.
fn merged_transition(
    alloc: Global,
    draft: &Draft,
    ends: Ends,
    guard: u16,
    effect: u16,
    forms: &[ElementRef],
) -> Result<Transition, NoMemory>
    ensures { IfOk result (λ transition. IsMergedTransition draft.now ends guard effect forms.now transition) }
{
    Ok(Transition {
        source: ends.source,
        target: ends.target,
        kind: kind_of(draft, forms),
        triggers: triggers_of(alloc, draft, forms)?,
        guard: guard_of(draft, forms, guard),
        effect: ActId(effect),
    })
}

// The transition with a number; the slots of all begin at `base`.
fn transition_numbered(
    alloc: Global,
    draft: &Draft,
    numbers: &[u16],
    base: usize,
    ends: &[Ends],
    forms: &[Row<ElementRef>],
    number: usize,
) -> Result<Transition, NoMemory>
    requires ends { number < length ends.now }
    requires form { number < length forms.now }
    requires few { (number < 65535) × (base ≤ 196605) }
    ensures { IfOk result (λ transition. IsTransitionNumbered draft.now (λ slot. slice_index_or numbers.now slot 0)
        base ends.now forms.now number transition) }
{
    let guard = number_at(numbers, base + 2 * number);
    let effect = number_at(numbers, base + 2 * number + 1);
    let of = forms[number].as_slice();
    let transition = merged_transition(alloc, draft, ends[number], guard, effect, of)?;
    Ok(transition)
}

// All of them; their slots begin at `base`.
pub(crate) fn merged_transitions(
    alloc: Global,
    draft: &Draft,
    numbers: &[u16],
    base: usize,
    ends: &[Ends],
    forms: &[Row<ElementRef>],
) -> Result<Vec<Transition>, NoMemory>
    requires ends { length ends.now ≡ length forms.now }
    requires few { (length forms.now ≤ 65535) × (base ≤ 196605) }
    ensures { IfOk result (λ transitions. AreMergedTransitions draft.now (λ slot. slice_index_or numbers.now slot 0)
        base ends.now forms.now transitions.items) }
{
    let mut transitions = Vec::new(alloc);
    for number in 0..forms.len() {
        let transition = transition_numbered(alloc, draft, numbers, base, ends, forms, number)?;
        transitions.push(transition)?;
    }
    Ok(transitions)
}
