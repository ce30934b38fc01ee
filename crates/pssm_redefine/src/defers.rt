//! The signals that the forms of a State defer, united.
ghost use Rattle.std.specs.Prelude.{◌≡◌, IfOk};
ghost use Rattle.std.specs.List.{flat_map};
ghost use Rattle.pssm_redefine.specs.Forms.{deferred};
ghost use Rattle.pssm_redefine.specs.Merging.{AreUnited};

use pssm_heritage::vertex_at;
use pssm_model::{Draft, ElementRef, SignalId};
use std::alloc::{AllocError as NoMemory, Global};

// The signals that a form defers.
fn defers_at(draft: &Draft, form: ElementRef) -> &[SignalId]
    ensures { result.now ≡ deferred draft.now form }
{
    match vertex_at(draft, form) {
        Some(vertex) => vertex.defers.as_slice(),
        None => &[],
    }
}

// Those of all forms.
fn all_defers(alloc: Global, draft: &Draft, forms: &[ElementRef]) -> Result<Vec<SignalId>, NoMemory>
    ensures { IfOk result (λ all. all.items ≡ flat_map (deferred draft.now) forms.now) }
{
    let mut all = Vec::new(alloc);
    for form in forms {
        all.extend_from_slice(defers_at(draft, *form))?;
    }
    Ok(all)
}

// The signals ascending, each once.
fn united(mut all: Vec<SignalId>) -> Vec<SignalId>
    ensures { AreUnited all.items result.items }
{
    all.sort_unstable();
    all.dedup();
    all
}

// The signals that the forms defer, ascending, each once.
pub(crate) fn united_defers(
    alloc: Global,
    draft: &Draft,
    forms: &[ElementRef],
) -> Result<Vec<SignalId>, NoMemory>
    ensures { IfOk result (λ defers. AreUnited (flat_map (deferred draft.now) forms.now) defers.items) }
{
    Ok(united(all_defers(alloc, draft, forms)?))
}
