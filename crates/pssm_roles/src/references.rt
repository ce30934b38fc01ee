//! `references_of`: what refers to elements.
ghost use Rattle.std.specs.Prelude.{◌≡◌, ◌<◌, ◌++◌, length, map, IfOk};
ghost use Rattle.pssm_xml.specs.Elements.{value_or_empty};
ghost use Rattle.pssm_values.specs.Ids.{ids_in};
ghost use Rattle.pssm_roles.specs.References.{refers_at, references};
ghost use Rattle.pssm_roles.specs.inner.Seen.{seen, of_child};

use pssm_values::first_id;
use pssm_xml::Elements;
use std::alloc::{AllocError as NoMemory, Global};

/// A reference: the element at which it stands, and the id that it holds.
#[derive(Clone, Copy)]
pub struct Reference<'a> {
    pub at: u32,
    pub id: &'a [u8],
}

// The value of an attribute; empty where the element has none.
pub(crate) fn value_at<'a>(elements: &'a Elements, n: u32, name: &[u8]) -> &'a [u8]
    requires { n < length elements.now }
    ensures { result.now ≡ value_or_empty elements.now n name.now }
{
    match elements.value_of(n, name) {
        None => b"",
        Some(value) => value,
    }
}

// The references with those that a value holds.
fn with_ids<'a>(
    found: Vec<Reference<'a>>,
    at: u32,
    value: &'a [u8],
) -> Result<Vec<Reference<'a>>, NoMemory>
    ensures { IfOk result (λ more. map seen more.items
        ≡ map seen found.entry.items ++ refers_at at (ids_in value.now)) }
{
    let mut more = found;
    let mut rest = value;
    'ids: while let Some((id, others)) = first_id(rest) {
        more.push(Reference { at, id })?;
        rest = others;
    }
    Ok(more)
}

// The references with those of a child, where it has this name.
fn with_child<'a>(
    found: Vec<Reference<'a>>,
    elements: &'a Elements,
    child: u32,
    name: &[u8],
) -> Result<Vec<Reference<'a>>, NoMemory>
    requires { child < length elements.now }
    ensures { IfOk result (λ more. map seen more.items
        ≡ map seen found.entry.items ++ of_child elements.now name.now child) }
{
    if elements.name(child) == name {
        with_ids(found, child, value_at(elements, child, b"xmi:idref"))
    } else {
        Ok(found)
    }
}

/// The references of an element under a name, those of the attribute first, then those of its children in document
/// order (XMI 2.5.1, 7.10, linking).
pub fn references_of<'a>(
    alloc: Global,
    elements: &'a Elements,
    n: u32,
    name: &[u8],
) -> Result<Vec<Reference<'a>>, NoMemory>
    requires { n < length elements.now }
    ensures { IfOk result (λ found. map seen found.items ≡ references elements.now n name.now) }
{
    let mut found = with_ids(Vec::new(alloc), n, value_at(elements, n, name))?;
    let mut child = elements.first_child(n);
    'children: while let Some(m) = child {
        let more = with_child(found, elements, m, name)?;
        found = more;
        child = elements.next_sibling(m);
    }
    Ok(found)
}
