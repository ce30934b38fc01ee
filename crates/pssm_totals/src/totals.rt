//! The totals of all machines.
ghost use Rattle.std.specs.Prelude.{◌≡◌, ◌<◌, ℕ, length, [], IfOk};
ghost use Rattle.pssm_totals.specs.Totals.{ExtendWithin, AreTotals};
ghost use Rattle.pssm_totals.specs.inner.Ways.{IsSettling, IsDone, KeepsTotals};

use crate::marks::{Mark, read};
use crate::settling::note_totals;
use crate::walking::walk;
use std::alloc::{AllocError as NoMemory, Global};

// Notes the total of a machine, and of those that it extends.
fn visit(
    alloc: Global,
    extends: &[Option<u32>],
    own: &[u32],
    marks: &mut [Mark],
    m: usize,
) -> Result<(), NoMemory>
    requires within { ExtendWithin extends.now }
    requires own { length own.now ≡ length extends.now }
    requires marks { IsSettling extends.now own.now marks.old [] }
    requires there { m < length extends.now }
    ensures settled { IfOk result (λ _. IsSettling extends.now own.now marks.new []) }
    ensures kept { IfOk result (λ _. KeepsTotals marks.old marks.new) }
    ensures done { IfOk result (λ _. IsDone marks.new m) }
{
    let way = walk(alloc, extends, marks, m)?;
    note_totals(extends, own, marks, way);
    Ok(())
}

// Notes the totals of all machines.
fn visit_all(
    alloc: Global,
    extends: &[Option<u32>],
    own: &[u32],
    marks: &mut [Mark],
) -> Result<(), NoMemory>
    requires within { ExtendWithin extends.now }
    requires own { length own.now ≡ length extends.now }
    requires marks { IsSettling extends.now own.now marks.old [] }
    ensures settled { IfOk result (λ _. IsSettling extends.now own.now marks.new []) }
    ensures done { IfOk result (λ _. (m : ℕ) → m < length extends.now → IsDone marks.new m) }
{
    for m in 0..extends.len() {
        visit(alloc, extends, own, marks, m)?;
    }
    Ok(())
}

/// For each machine the sum of the counts of it and of all that it extends, each once, cut off at
/// 65,536.
///
/// `extends` is the machine that each extends, and `own` is the count of each.
pub fn totals_of(alloc: Global, extends: &[Option<u32>], own: &[u32]) -> Result<Vec<u32>, NoMemory>
    requires within { ExtendWithin extends.now }
    requires own { length own.now ≡ length extends.now }
    ensures { IfOk result (λ totals. AreTotals extends.now own.now totals.items) }
{
    let mut marks = vec![in alloc; Mark::Unknown; extends.len()]?;
    visit_all(alloc, extends, own, marks.as_mut_slice())?;
    read(alloc, marks.as_slice())
}
