//! Whether the attributes of a tag have different names.
ghost use Rattle.std.specs.Prelude.{◌≡◌, map, IfOk};
ghost use Rattle.pssm_xml.specs.inner.Reading.{all_different};
ghost use Rattle.pssm_xml.specs.inner.Cuts.{given_name, lent, repeats};

use crate::tags::Given;
use std::alloc::{AllocError as NoMemory, Global};

// The names of the attributes.
fn names_of<'a>(alloc: Global, attributes: &[Given<'a>]) -> Result<Vec<&'a [u8]>, NoMemory>
    ensures { IfOk result (λ names. map lent names.items ≡ map given_name attributes.now) }
{
    let mut names = Vec::new(alloc);
    for attribute in attributes {
        names.push(attribute.name)?;
    }
    Ok(names)
}

// Whether two neighbours are equal.
fn has_repeated(names: &[&[u8]]) -> bool
    ensures { result ≡ repeats (map lent names.now) }
{
    let Some((first, others)) = names.split_first() else {
        return false;
    };
    let mut previous = *first;
    for name in others {
        if previous == *name {
            return true;
        }
        previous = *name;
    }
    false
}

// Whether the names of the attributes are different.
pub(crate) fn are_different(alloc: Global, attributes: &[Given<'_>]) -> Result<bool, NoMemory>
    ensures { IfOk result (λ different. different ≡ all_different (map given_name attributes.now)) }
{
    let mut names = names_of(alloc, attributes)?;
    names.sort()?;
    Ok(!has_repeated(&names))
}
