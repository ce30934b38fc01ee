//! Lists of numbers, one for each number below a count.
ghost use Rattle.std.specs.Prelude.{◌≡◌, ◌<◌, ◌+◌, ◌++◌, ◌==◌, ◌∷◌, [], ℕ, if◌then◌else◌, length, map, IfOk, OnOk};
ghost use Rattle.pssm_wellformed.specs.inner.Lists.{list_at};

use pssm_model::VertexId;
use std::alloc::{AllocError as NoMemory, Global};

/// An empty list for each number.
pub fn empty_lists(alloc: Global, count: u16) -> Result<Vec<Vec<u16>>, NoMemory>
    ensures width { IfOk result (λ lists. length lists.items ≡ count) }
    ensures blank { IfOk result (λ lists. (k : ℕ) → list_at lists.items k ≡ []) }
{
    let mut lists = Vec::with_capacity(alloc, count as usize)?;
    for _number in 0..count {
        lists.push(Vec::new(alloc))?;
    }
    Ok(lists)
}

/// Puts an item at the end of the list of a number.
pub fn put(lists: &mut Vec<Vec<u16>>, key: u16, item: u16) -> Result<(), NoMemory>
    requires { key < length lists.old.items }
    ensures width { OnOk result (length lists.new.items ≡ length lists.old.items) }
    ensures puts { OnOk result
        ((k : ℕ) → list_at lists.new.items k ≡ list_at lists.old.items k
        ++ (if k == key then item ∷ [] else [])) }
{
    lists[key as usize].push(item)?;
    Ok(())
}

/// The list of a number.
pub fn list_of(lists: &Vec<Vec<u16>>, key: u16) -> &[u16]
    ensures { result.now ≡ list_at lists.now.items key }
{
    match lists.as_slice().get(key as usize) {
        Some(list) => list.as_slice(),
        None => &[],
    }
}

/// Puts a list of the numbers of these vertices behind the others.
pub fn put_behind(
    alloc: Global,
    lists: &mut Vec<Vec<u16>>,
    vertices: &[VertexId],
) -> Result<(), NoMemory>
    ensures width { OnOk result (length lists.new.items ≡ length lists.old.items + 1) }
    ensures puts { OnOk result
        ((k : ℕ) → list_at lists.new.items k ≡ list_at lists.old.items k
        ++ (if k == length lists.old.items then map (λ v. v.0) vertices.now else [])) }
{
    lists.push(vertices.iter().map(|vertex| vertex.0).collect(alloc)?)?;
    Ok(())
}
