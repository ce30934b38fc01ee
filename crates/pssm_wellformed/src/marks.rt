//! From which vertices a walk strays from the places in which they lie: marks by level, for all vertices at once.
ghost use Rattle.std.specs.Prelude.{◌≡◌, ◌↔◌, ◌<◌, ◌^◌, ℕ, List, length, Contains, Vec, slice_index_or, IfOk, OnOk, IsTrue};
ghost use Rattle.std.specs.declared.alloc.Global.{Global};
ghost use Rattle.pssm_model.specs.Shapes.{HasShape};
ghost use Rattle.pssm_wellformed.specs.inner.Reach.{StaysWithin};
ghost use Rattle.pssm_wellformed.specs.inner.Walks.{IsThere, Strays};
ghost use Rattle.pssm_wellformed.specs.inner.Marks.{AreTurned, IsPutToEach, AreMarksOf, AreMarksBelow, AreStrayMarks, HaveRoom, MarkStrays};

use crate::levels::{count_levels, level, lies_in, lowest_levels};
use crate::lists::{empty_lists, list_of, put};
use crate::reach::walk_from;
use crate::walks::{Walk, arrows_of};
use pssm_model::{Machine, Owner, VertexId};
use std::alloc::{AllocError as NoMemory, Global};

/// Puts the item at the end of the list of each of the numbers.
fn put_to_each(lists: &mut Vec<Vec<u16>>, numbers: &[u16], item: u16) -> Result<(), NoMemory>
    requires { (b : ℕ) → Contains numbers.now b → b < length lists.old.items }
    ensures { OnOk result (IsPutToEach item numbers.now lists.old.items lists.new.items) }
{
    for number in numbers {
        put(lists, *number, item)?;
    }
    Ok(())
}

/// The arrows turned round.
fn turned(alloc: Global, onward: &Vec<Vec<u16>>, count: u16) -> Result<Vec<Vec<u16>>, NoMemory>
    requires count { length onward.now.items ≡ count }
    requires within { StaysWithin onward.now.items }
    ensures { IfOk result (λ back. AreTurned onward.now.items back.items) }
{
    let mut back = empty_lists(alloc, count)?;
    for number in 0..count {
        put_to_each(&mut back, list_of(onward, number), number)?;
    }
    Ok(back)
}

/// The vertices whose lowest level is below this one.
fn vertices_below(alloc: Global, lowest: &[u16], level: u16) -> Result<Vec<u16>, NoMemory>
    requires { length lowest.now < 2 ^ 16 }
    ensures { IfOk result
        (λ list. (a : ℕ) → Contains list.items a
        ↔ ((a < length lowest.now) × (slice_index_or lowest.now a 0 < level))) }
{
    let mut list = Vec::new(alloc);
    for number in 0..lowest.len() as u16 {
        if lowest[number as usize] < level {
            list.push(number)?;
        }
    }
    Ok(list)
}

/// Marks for the vertices from which a walk comes to an arrow that leads out of its tail's place of the level.
fn marks_of(
    alloc: Global,
    back: &[Vec<u16>],
    lowest: &[u16],
    level: u16,
) -> Result<Vec<bool>, NoMemory>
    requires narrow { length lowest.now < 2 ^ 16 }
    requires width { length lowest.now ≡ length back.now }
    requires within { StaysWithin back.now }
    ensures { IfOk result (λ marks. AreMarksOf back.now lowest.now level marks.items) }
{
    let tails = vertices_below(alloc, lowest, level)?;
    walk_from(alloc, back, tails.as_slice())
}

/// Those marks for each level below a number.
fn marks_below(
    alloc: Global,
    back: &[Vec<u16>],
    lowest: &[u16],
    count: u16,
) -> Result<Vec<Vec<bool>>, NoMemory>
    requires narrow { length lowest.now < 2 ^ 16 }
    requires width { length lowest.now ≡ length back.now }
    requires within { StaysWithin back.now }
    ensures { IfOk result (λ levels. AreMarksBelow back.now lowest.now count levels.items) }
{
    let mut levels = Vec::new(alloc);
    for level in 0..count {
        levels.push(marks_of(alloc, back, lowest, level)?)?;
    }
    Ok(levels)
}

/// By level a mark for each vertex from which the walk strays from its place of the level.
pub fn stray_marks(alloc: Global, machine: &Machine, walk: Walk) -> Result<Vec<Vec<bool>>, NoMemory>
    requires { HasShape machine.now }
    ensures { IfOk result (λ levels. AreStrayMarks machine.now walk levels.items) }
{
    let onward = arrows_of(alloc, machine, walk)?;
    let lowest = lowest_levels(alloc, machine, &onward)?;
    let back = turned(alloc, &onward, machine.vertices())?;
    let count = count_levels(machine);
    marks_below(alloc, back.as_slice(), lowest.as_slice(), count)
}

/// Whether a walk from the vertex comes to one that lies outside the place.
pub fn strays(machine: &Machine, levels: &[Vec<bool>], start: VertexId, place: Owner) -> bool
    requires shape { HasShape machine.now }
    requires room { HaveRoom machine.now levels.now }
    requires there { start.0 < length machine.now.vertices }
    requires place { IsThere machine.now place }
    ensures { (onward : List (Vec ℕ Global)) → MarkStrays machine.now onward levels.now
        → IsTrue result ↔ Strays machine.now onward start place }
{
    if !lies_in(machine, start, place) {
        return true;
    }
    levels[level(machine, place) as usize][start.0 as usize]
}
