//! Whether a value of an element spells none of those that can stand there.
ghost use Rattle.std.specs.Prelude.{◌≡◌, ◌↔◌, ◌<◌, false, length, IsTrue, codes, slice_get, bytes_eq};
ghost use Rattle.std.specs.Option.{option_map_or};
ghost use Rattle.pssm_xml.specs.Elements.{value_or_empty};
ghost use Rattle.pssm_roles.specs.Roles as roles;
ghost use Rattle.pssm_profile.specs.Flaws.{HasBadValue, NoInteger};

use crate::saying::{
    says_no_integer, says_no_pseudostate_kind, says_no_transition_kind, says_no_truth,
};
use pssm_roles::Role;
use pssm_xml::Elements;

// The `xmi:type` of the element; empty where it has none.
fn type_at(elements: &Elements, n: u32) -> &[u8]
    requires { n < length elements.now }
    ensures { result.now ≡ value_or_empty elements.now n (codes "xmi:type") }
{
    match elements.value_of(n, b"xmi:type") {
        None => b"",
        Some(value) => value,
    }
}

/// Whether the element has this `xmi:type`.
#[tactic(auto, using(crate::proofs::ChildLaws::typed_so))]
pub fn is_typed(elements: &Elements, n: u32, kind: &[u8]) -> bool
    requires { n < length elements.now }
    ensures { result ≡ option_map_or (roles.is_typed kind.now) (slice_get elements.now n) false }
{
    type_at(elements, n) == kind
}

// Whether the element is of the type of integers, and spells none.
fn lacks_integer(elements: &Elements, n: u32) -> bool
    requires { n < length elements.now }
    ensures { IsTrue result ↔ NoInteger elements.now n }
{
    is_typed(elements, n, b"uml:LiteralInteger") && says_no_integer(elements, n)
}

/// Whether a value of an element of this role spells none of those that can stand there (this profile's choice).
pub fn has_bad_value(elements: &Elements, n: u32, role: Role) -> bool
    requires { n < length elements.now }
    ensures { IsTrue result ↔ HasBadValue elements.now n role }
{
    match role {
        Role::Pseudostate | Role::ConnectionPoint => says_no_pseudostate_kind(elements, n),
        Role::Transition => {
            says_no_transition_kind(elements, n) || says_no_truth(elements, n, b"isLeaf")
        }
        Role::State | Role::FinalState => says_no_truth(elements, n, b"isLeaf"),
        Role::ActiveClass | Role::ClassMachine => says_no_truth(elements, n, b"isAbstract"),
        Role::Literal => says_no_truth(elements, n, b"value"),
        Role::Default => lacks_integer(elements, n),
        _ => false,
    }
}
