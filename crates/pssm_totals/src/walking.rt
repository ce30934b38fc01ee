//! The machines that a machine extends, walked one by one to where something is known.
ghost use Rattle.std.specs.Prelude.{◌<◌, length, [], IfOk};
ghost use Rattle.pssm_totals.specs.Totals.{ExtendWithin};
ghost use Rattle.pssm_totals.specs.inner.Ways.{AreMarks, HasWalked};

use crate::marks::{Mark, extended_by, next_unknown};
use std::alloc::{AllocError as NoMemory, Global};

// The machines on a way in its order, and the one that would come next, if there is one.
#[derive(Drop)]
pub(crate) struct Way {
    pub(crate) path: Vec<usize>,
    pub(crate) next: Option<usize>,
}

// Walks from a machine along those that it extends, to the last one, or to one of which something
// is noted.
pub(crate) fn walk(
    alloc: Global,
    extends: &[Option<u32>],
    marks: &mut [Mark],
    m: usize,
) -> Result<Way, NoMemory>
    requires within { ExtendWithin extends.now }
    requires marks { AreMarks extends.now marks.old [] }
    requires there { m < length extends.now }
    ensures { IfOk result (λ w. HasWalked extends.now marks.old marks.new m w.path.items w.next) }
{
    let mut path = Vec::new(alloc);
    let mut next = Some(m);
    'way: while let Some(at) = next_unknown(marks, next) {
        marks[at] = Mark::Passed;
        path.push(at)?;
        next = extended_by(extends, at);
    }
    Ok(Way { path, next })
}
