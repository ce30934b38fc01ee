//! Which numbers can be reached over arrows.
ghost use Rattle.std.specs.Prelude.{◌≡◌, ◌↔◌, ◌<◌, ℕ, true, false, length, slice_index_or, Contains, IfOk, OnOk};
ghost use Rattle.pssm_wellformed.specs.inner.Reach.{IsReached, StaysWithin, AreMarked, FindsMore};

use std::alloc::{AllocError as NoMemory, Global};

/// Finds those of the numbers that have no mark yet, and marks them.
fn find_more(marks: &mut Vec<bool>, found: &mut Vec<u16>, further: &[u16]) -> Result<(), NoMemory>
    requires within { (b : ℕ) → Contains further.now b → b < length marks.old.items }
    requires marked { AreMarked marks.old.items found.old.items }
    ensures width { OnOk result (length marks.new.items ≡ length marks.old.items) }
    ensures marked { OnOk result (AreMarked marks.new.items found.new.items) }
    ensures more { OnOk result (FindsMore found.old.items found.new.items further.now) }
{
    for number in further {
        if !marks[*number as usize] {
            marks[*number as usize] = true;
            found.push(*number)?;
        }
    }
    Ok(())
}

/// A mark for each number that can be reached from the first ones. Each number is walked once.
pub fn walk_from(alloc: Global, onward: &[Vec<u16>], first: &[u16]) -> Result<Vec<bool>, NoMemory>
    requires within { StaysWithin onward.now }
    requires there { (b : ℕ) → Contains first.now b → b < length onward.now }
    ensures width { IfOk result (λ marks. length marks.items ≡ length onward.now) }
    ensures marks { IfOk result
        (λ marks. (b : ℕ) → (slice_index_or marks.items b false ≡ true)
        ↔ IsReached onward.now first.now b) }
{
    let mut marks = vec![in alloc; false; onward.len()]?;
    let mut found = Vec::new(alloc);
    find_more(&mut marks, &mut found, first)?;
    let mut place = 0;
    while place < found.len() {
        let number = found[place] as usize;
        find_more(&mut marks, &mut found, onward[number].as_slice())?;
        place += 1;
    }
    Ok(marks)
}
