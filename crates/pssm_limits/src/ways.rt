//! The machines that are reached from one by what each extends.
ghost use Rattle.std.specs.Prelude.{◌≡◌, ◌<◌, ℕ, length, IfOk, IfSome, slice_index_or, false};
ghost use Rattle.pssm_totals.specs.Totals.{ExtendWithin, extended};
ghost use Rattle.pssm_limits.specs.inner.Ways.{AreReached, IsUnmarked};

use std::alloc::{AllocError as NoMemory, Global};

/// The machine that a machine extends; none where there is no such machine.
pub(crate) fn extended_by(extends: &[Option<u32>], m: u32) -> Option<u32>
    ensures { result ≡ extended extends.now m }
{
    match extends.get(m as usize) {
        None => None,
        Some(base) => *base,
    }
}

/// Whether the machine is marked; none is past the end.
pub(crate) fn is_marked(marks: &[bool], m: u32) -> bool
    ensures { result ≡ slice_index_or marks.now m false }
{
    match marks.get(m as usize) {
        None => false,
        Some(marked) => *marked,
    }
}

// The next machine, where it is not marked.
fn unmarked(marks: &[bool], next: Option<u32>) -> Option<u32>
    requires { IfSome next (λ at. at < length marks.now) }
    ensures { IsUnmarked marks.now next result }
{
    let at = next?;
    if marks[at as usize] { None } else { Some(at) }
}

/// Marks of the machines that are reached from one, itself among them.
pub(crate) fn reached(
    alloc: Global,
    extends: &[Option<u32>],
    from: Option<u32>,
) -> Result<Vec<bool>, NoMemory>
    requires within { ExtendWithin extends.now }
    requires there { IfSome from (λ m. m < length extends.now) }
    ensures { IfOk result (λ marks. AreReached extends.now from marks.items) }
{
    let mut marks = vec![in alloc; false; extends.len()]?;
    let mut next = from;
    'way: while let Some(at) = unmarked(marks.as_slice(), next) {
        marks[at as usize] = true;
        next = extends[at as usize];
    }
    Ok(marks)
}
