//! The forms of each element, gathered by its number.
ghost use Rattle.std.specs.Prelude.{◌≡◌, ◌<◌, ◌++◌, ◌∷◌, [], length, slice_set, IfOk, OnOk};
ghost use Rattle.pssm_redefine.specs.Groups.{AreGroups, list_at};

use pssm_model::{ElementRef, Row};
use std::alloc::{AllocError as NoMemory, Global};

// An element, and the number of what it became.
#[derive(Clone, Copy)]
pub(crate) struct Numbered {
    pub(crate) element: ElementRef,
    pub(crate) number: usize,
}

// An empty list for each number.
fn empty_groups(alloc: Global, count: usize) -> Result<Vec<Row<ElementRef>>, NoMemory>
    ensures { IfOk result (λ groups. AreGroups count [] groups.items) }
{
    let mut groups = Vec::with_capacity(alloc, count)?;
    for _number in 0..count {
        groups.push(Row::from_vec(Vec::new(alloc)))?;
    }
    Ok(groups)
}

// Puts an element at the end of the list of its number.
fn put(groups: &mut Vec<Row<ElementRef>>, one: Numbered) -> Result<(), NoMemory>
    requires { one.number < length groups.old.items }
    ensures { OnOk result (groups.new.items ≡ slice_set groups.old.items one.number
        (list_at groups.old.items one.number ++ one.element ∷ [])) }
{
    let group = &mut groups[one.number];
    group.push(one.element)
}

// The forms of each number.
pub(crate) fn groups_of(
    alloc: Global,
    count: usize,
    numbered: &[Numbered],
) -> Result<Vec<Row<ElementRef>>, NoMemory>
    ensures { IfOk result (λ groups. AreGroups count numbered.now groups.items) }
{
    let mut groups = empty_groups(alloc, count)?;
    for one in numbered {
        if one.number < count {
            put(&mut groups, *one)?;
        }
    }
    Ok(groups)
}
