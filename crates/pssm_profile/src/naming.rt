//! Ids, addresses and names of an element.
ghost use Rattle.std.specs.Prelude.{◌≡◌, ◌↔◌, ◌<◌, ℕ, List, length, IsTrue, codes};
ghost use Rattle.pssm_xml.specs.Elements.{HasValue};
ghost use Rattle.pssm_profile.specs.Flaws.{LacksId};
ghost use Rattle.pssm_profile.specs.Kinds.{name_of};

use pssm_values::has_long_name;
use pssm_xml::Elements;

/// Whether the element has no `xmi:id` or an empty one, which is none (this profile's choice).
pub fn lacks_id(elements: &Elements, n: u32) -> bool
    requires { n < length elements.now }
    ensures { IsTrue result ↔ LacksId elements.now n }
{
    match elements.value_of(n, b"xmi:id") {
        None => true,
        Some(id) => id.is_empty(),
    }
}

/// Whether the element has an `href`, so that what it stands for is in another file.
pub fn stands_elsewhere(elements: &Elements, n: u32) -> bool
    requires { n < length elements.now }
    ensures { IsTrue result ↔ ((address : List ℕ) × HasValue elements.now n (codes "href") address) }
{
    elements.value_of(n, b"href").is_some()
}

/// Whether the name of the element, as models spell it, has more bytes than a name may have.
pub fn has_own_long_name(elements: &Elements, n: u32) -> bool
    requires { n < length elements.now }
    ensures { IsTrue result ↔ (64 < length (name_of elements.now n)) }
{
    match elements.value_of(n, b"name") {
        Some(name) => has_long_name(name),
        None => false,
    }
}
