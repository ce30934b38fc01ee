//! Rows that change in place.
ghost use Rattle.std.specs.Prelude.{◌≡◌, ◌∷◌, [], ◌++◌, IfOk, OnOk};
ghost use Rattle.std.specs.Option.{option_map};
ghost use Rattle.pssm_flat.specs.inner.Outlines.{last_of};

use pssm_model::Row;
use std::alloc::{AllocError, Global};
use std::mem;

/// The items of a row, which has none afterwards.
pub(crate) fn taken_out<T: Drop>(alloc: Global, row: &mut Row<T>) -> Vec<T>
    ensures items { result.items ≡ row.old }
    ensures empty { row.new ≡ [] }
{
    mem::replace(row, Row::from_vec(Vec::new(alloc))).into_vec()
}

/// Puts one more item at the end.
pub(crate) fn push<T: Drop>(alloc: Global, row: &mut Row<T>, item: T) -> Result<(), AllocError>
    ensures { OnOk result (row.new ≡ row.old ++ item ∷ []) }
{
    let mut items = taken_out(alloc, row);
    items.push(item)?;
    *row = Row::from_vec(items);
    Ok(())
}

/// Takes the last item off.
pub(crate) fn pop<T: Drop>(alloc: Global, row: &mut Row<T>) -> Option<T>
    ensures { option_map (λ last. (row.new, last)) result ≡ last_of row.old }
{
    let mut items = taken_out(alloc, row);
    let last = items.pop()?;
    *row = Row::from_vec(items);
    Some(last)
}
