//! What is gathered of a machine and of those that it extends.
ghost use Rattle.std.specs.Prelude.{◌≡◌, ◌<◌, ◌++◌, ◌∷◌, [], length, All, IfOk, OnOk};
ghost use Rattle.std.specs.List.{filter_map};
ghost use Rattle.pssm_model.specs.DraftSettings.{IsInRange};
ghost use Rattle.pssm_heritage.specs.Numbers.{own_elements};
ghost use Rattle.pssm_heritage.specs.Heritages.{numbering_of};
ghost use Rattle.pssm_redefine.specs.Gathering.{with_number, numbered_of, IsGathered};
ghost use Rattle.pssm_redefine.specs.Groups.{AreGroups};

use crate::groups::{Numbered, groups_of};
use crate::numbered::{all_ends, region_owners, vertex_owners};
use crate::parts::Gathered;
use pssm_heritage::{ElementKind, Heritage, count_of};
use pssm_model::{Draft, ElementRef, Row};
use std::alloc::{AllocError as NoMemory, Global};

// Puts an element at the end, where it has a number.
fn add_element(
    heritage: &Heritage,
    kind: ElementKind,
    element: ElementRef,
    all: &mut Vec<Numbered>,
) -> Result<(), NoMemory>
    ensures { OnOk result (all.new.items
        ≡ all.old.items ++ filter_map (with_number (numbering_of kind heritage.now)) (element ∷ [])) }
{
    match heritage.number_of(kind, element) {
        Some(number) => all.push(Numbered { element, number })?,
        None => {}
    }
    Ok(())
}

// Puts the elements of a machine at the end.
fn add_machine(
    draft: &Draft,
    heritage: &Heritage,
    kind: ElementKind,
    machine: u32,
    all: &mut Vec<Numbered>,
) -> Result<(), NoMemory>
    requires range { IsInRange draft.now }
    requires there { machine < length draft.now.machines }
    ensures { OnOk result (all.new.items
        ≡ all.old.items ++ filter_map (with_number (numbering_of kind heritage.now))
        (own_elements draft.now kind machine)) }
{
    for element in 0..count_of(draft, kind, machine) {
        add_element(heritage, kind, ElementRef { machine, element }, all)?;
    }
    Ok(())
}

// The elements of all machines, each with its number.
fn all_numbered(
    alloc: Global,
    draft: &Draft,
    heritage: &Heritage,
    kind: ElementKind,
) -> Result<Vec<Numbered>, NoMemory>
    requires range { IsInRange draft.now }
    requires machines { All (λ m. m < length draft.now.machines) heritage.now.machines }
    ensures { IfOk result (λ all. all.items
        ≡ numbered_of draft.now kind (numbering_of kind heritage.now) heritage.now.machines) }
{
    let mut all = Vec::new(alloc);
    for machine in heritage.machines() {
        add_machine(draft, heritage, kind, *machine, &mut all)?;
    }
    Ok(all)
}

// The forms of each element of a kind.
fn all_forms(
    alloc: Global,
    draft: &Draft,
    heritage: &Heritage,
    kind: ElementKind,
) -> Result<Vec<Row<ElementRef>>, NoMemory>
    requires range { IsInRange draft.now }
    requires machines { All (λ m. m < length draft.now.machines) heritage.now.machines }
    ensures { IfOk result (λ forms. AreGroups (length (numbering_of kind heritage.now).firsts)
        (numbered_of draft.now kind (numbering_of kind heritage.now) heritage.now.machines) forms.items) }
{
    let all = all_numbered(alloc, draft, heritage, kind)?;
    let forms = groups_of(alloc, heritage.firsts(kind).len(), all.as_slice())?;
    Ok(forms)
}

/// What is gathered of the machine of a class and of those that it extends, by the numbers of the flattened machine.
pub fn gather(alloc: Global, draft: &Draft, heritage: &Heritage) -> Result<Gathered, NoMemory>
    requires range { IsInRange draft.now }
    requires machines { All (λ m. m < length draft.now.machines) heritage.now.machines }
    ensures { IfOk result (IsGathered draft.now heritage.now) }
{
    let machines = heritage.machines().to_vec(alloc)?;
    let regions = region_owners(alloc, draft, heritage)?;
    let owners = vertex_owners(alloc, draft, heritage)?;
    let vertices = all_forms(alloc, draft, heritage, ElementKind::Vertex)?;
    let transitions = all_forms(alloc, draft, heritage, ElementKind::Transition)?;
    let ends = all_ends(alloc, draft, heritage, transitions.as_slice())?;
    Ok(Gathered {
        machines: Row::from_vec(machines),
        regions: Row::from_vec(regions),
        owners: Row::from_vec(owners),
        vertices: Row::from_vec(vertices),
        ends: Row::from_vec(ends),
        transitions: Row::from_vec(transitions),
    })
}
