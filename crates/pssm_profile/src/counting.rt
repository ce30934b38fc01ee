//! What is counted at an element.
ghost use Rattle.std.specs.Prelude.{◌≡◌, ◌≢◌, ◌↔◌, ◌<◌, ◌≤◌, ◌+◌, IsTrue, codes, length, option_map, slice_get, bytes_eq, Some, if◌then◌else◌};
ghost use Rattle.pssm_xml.specs.Documents.{Element};
ghost use Rattle.pssm_profile.specs.Counts.{held, children_count as count_of};

use pssm_values::ids_len;
use pssm_xml::Elements;

/// How many ids the attribute of this name holds.
pub fn held_count(elements: &Elements, n: u32, name: &[u8]) -> usize
    requires { n < length elements.now }
    ensures { result ≡ held elements.now n name.now }
{
    match elements.value_of(n, name) {
        Some(value) => ids_len(value),
        None => 0,
    }
}

/// Whether the element has this name.
pub fn is_called(elements: &Elements, n: u32, name: &[u8]) -> bool
    requires { n < length elements.now }
    ensures { option_map (λ (e : Element). bytes_eq e.name name.now) (slice_get elements.now n) ≡ Some result }
{
    elements.name(n) == name
}

// One where it is so, and otherwise none.
fn one_if(so: bool) -> u32
    ensures { result ≡ (if so then 1 else 0) }
{
    if so { 1 } else { 0 }
}

/// How many children of this name the element has.
pub fn children_count(elements: &Elements, p: u32, name: &[u8]) -> u32
    requires { p < length elements.now }
    ensures count { result ≡ count_of elements.now p name.now }
    ensures few { result ≤ 16777216 }
{
    let mut count = 0u32;
    let mut next = elements.first_child(p);
    for turn in 0..elements.len() {
        let Some(child) = next else {
            return count;
        };
        count += one_if(is_called(elements, child, name));
        next = elements.next_sibling(child);
    }
    count
}

/// Whether the State stands for a machine: it has a `submachine` or a `connection` (UML 2.5.1, 14.2.3.4, submachine
/// States).
pub fn has_submachine(elements: &Elements, n: u32) -> bool
    requires { n < length elements.now }
    ensures { IsTrue result ↔ (0 < held elements.now n (codes "submachine")
        + count_of elements.now n (codes "submachine") + count_of elements.now n (codes "connection")) }
{
    held_count(elements, n, b"submachine") > 0
        || children_count(elements, n, b"submachine") > 0
        || children_count(elements, n, b"connection") > 0
}

/// Whether the number of models and packages in the element is not one.
pub fn wraps_others(elements: &Elements, n: u32) -> bool
    requires { n < length elements.now }
    ensures { IsTrue result ↔ (count_of elements.now n (codes "uml:Model")
        + count_of elements.now n (codes "uml:Package") ≢ 1) }
{
    let models = children_count(elements, n, b"uml:Model");
    let packages = children_count(elements, n, b"uml:Package");
    models + packages != 1
}
