//! A breach of a rule of redefinition, and its fault.
ghost use Rattle.std.specs.Prelude.{◌≡◌, [], unwrap_or, IfOk};
ghost use Rattle.std.specs.Option.{option_copied};
ghost use Rattle.pssm_breaches.specs.Forms.{id_of};
ghost use Rattle.pssm_breaches.specs.Faults.{fault_with};

use pssm_heritage::{ElementKind, RedefFault, RedefRule, region_at, transition_at, vertex_at};
use pssm_model::{Draft, ElementRef, Text};
use std::alloc::{AllocError as NoMemory, Global};

/// An element that breaks a rule of redefinition, and the rule (UML 2.5.1, 14.3.3).
#[derive(Clone, Copy)]
pub struct Breach {
    pub kind: ElementKind,
    pub element: ElementRef,
    pub rule: RedefRule,
}

// The id of an element.
fn id_at(draft: &Draft, kind: ElementKind, e: ElementRef) -> Option<&Text>
    ensures { unwrap_or (option_copied result) [] ≡ id_of draft.now kind e }
{
    match kind {
        ElementKind::Region => Some(&region_at(draft, e)?.id),
        ElementKind::Vertex => Some(&vertex_at(draft, e)?.id),
        ElementKind::Transition => Some(&transition_at(draft, e)?.id),
    }
}

// A copy of the id of an element; an empty one where there is no element.
fn copied_id(
    alloc: Global,
    draft: &Draft,
    kind: ElementKind,
    e: ElementRef,
) -> Result<Text, NoMemory>
    ensures { IfOk result (λ id. id ≡ id_of draft.now kind e) }
{
    match id_at(draft, kind, e) {
        Some(id) => id.copy(alloc),
        None => Ok(Text::from_vec(Vec::new(alloc))),
    }
}

/// The fault of a breach: that of its rule, with the id of the element.
pub fn fault_of(alloc: Global, draft: &Draft, breach: Breach) -> Result<RedefFault, NoMemory>
    ensures { IfOk result (λ fault. fault ≡ fault_with breach.rule (id_of draft.now breach.kind breach.element)) }
{
    let id = copied_id(alloc, draft, breach.kind, breach.element)?;
    Ok(match breach.rule {
        RedefRule::NotInherited => RedefFault::NotInherited { id },
        RedefRule::Twice => RedefFault::Twice { id },
        RedefRule::Leaf => RedefFault::Leaf { id },
        RedefRule::ChangedSource => RedefFault::ChangedSource { id },
        RedefRule::ChangedTriggers => RedefFault::ChangedTriggers { id },
    })
}
