//! The flat draft of a class, put together.
ghost use Rattle.std.specs.Prelude.{◌≡◌, ◌≤◌, IfOk, length, slice_index_or};
ghost use Rattle.pssm_model.specs.DraftSettings.{most_elements};
ghost use Rattle.pssm_redefine.specs.Bodies.{places_from};
ghost use Rattle.pssm_redefine.specs.Merging.{slots_of, IsMergedMachine, IsMerged};

use crate::bodies::{bodies_of, numbers_of, order_of};
use crate::parts::Gathered;
use crate::slots::all_slots;
use crate::transitions::merged_transitions;
use crate::variables::variables_of;
use crate::vertices::merged_vertices;
use pssm_model::{Draft, DraftClass, DraftMachine, Duplicate, FlatDraft, Row};
use std::alloc::{AllocError as NoMemory, Global};

// The machine; the numbers are those of the slots.
fn merged_machine(
    alloc: Global,
    draft: &Draft,
    numbers: &[u16],
    gathered: &Gathered,
) -> Result<DraftMachine, NoMemory>
    requires owners { length gathered.now.owners ≡ length gathered.now.vertices }
    requires ends { length gathered.now.ends ≡ length gathered.now.transitions }
    requires few { (length gathered.now.vertices ≤ most_elements)
        × (length gathered.now.transitions ≤ most_elements) }
    ensures { IfOk result (λ machine. IsMergedMachine draft.now (λ slot. slice_index_or numbers.now slot 0)
        gathered.now machine) }
{
    let owners = gathered.owners.as_slice();
    let forms = gathered.vertices.as_slice();
    let vertices = merged_vertices(alloc, draft, numbers, owners, forms)?;
    let base = 3 * forms.len();
    let ends = gathered.ends.as_slice();
    let steps = gathered.transitions.as_slice();
    let transitions = merged_transitions(alloc, draft, numbers, base, ends, steps)?;
    Ok(DraftMachine {
        regions: gathered.regions.duplicate(alloc)?,
        vertices: Row::from_vec(vertices),
        transitions: Row::from_vec(transitions),
    })
}

/// The flat draft of a class, put together from what is gathered of its machine and of those that it extends
/// (UML 2.5.1, 14.3.3).
pub fn merge(
    alloc: Global,
    draft: &Draft,
    class: &DraftClass,
    gathered: &Gathered,
) -> Result<FlatDraft, NoMemory>
    requires owners { length gathered.now.owners ≡ length gathered.now.vertices }
    requires ends { length gathered.now.ends ≡ length gathered.now.transitions }
    requires few { (length gathered.now.vertices ≤ most_elements)
        × (length gathered.now.transitions ≤ most_elements) }
    requires bodies { length (places_from 0 (slots_of draft.now gathered.now.vertices gathered.now.transitions))
        ≤ most_elements }
    ensures { IfOk result (λ flat. IsMerged draft.now class.now gathered.now flat) }
{
    let vertices = gathered.vertices.as_slice();
    let transitions = gathered.transitions.as_slice();
    let slots = all_slots(alloc, draft, vertices, transitions)?;
    let lent = slots.as_slice();
    let order = order_of(alloc, lent)?;
    let places = order.as_slice();
    let numbers = numbers_of(alloc, lent.len(), places)?;
    let vars = variables_of(alloc, draft, gathered.machines.as_slice(), class)?;
    let machine = merged_machine(alloc, draft, &numbers, gathered)?;
    let bodies = bodies_of(alloc, lent, places)?;
    Ok(FlatDraft {
        vars: Row::from_vec(vars),
        machine,
        bodies: Row::from_vec(bodies),
    })
}
