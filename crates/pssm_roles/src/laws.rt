//! What is known of the elements of every file.
ghost use Rattle.std.specs.Prelude.{◌≡◌, ◌<◌, ℕ, List, length};
ghost use Rattle.pssm_xml.specs.Documents.{Element};
ghost use Rattle.pssm_roles.specs.declared.role.Role.{Role};
ghost use Rattle.pssm_roles.specs.Roles.{HasRole};

use pssm_xml::Elements;

/// An element has one role and no other.
pub fn one_role()
    ensures { (doc : List Element) (n : ℕ) (r s : Role) → HasRole doc n r → HasRole doc n s → r ≡ s }
{}

/// An element of a file has a role: the elements in which it stands lead up to the root.
pub fn some_role(elements: &Elements, n: u32)
    requires { n < length elements.now }
    ensures { (r : Role) × HasRole elements.now n r }
{
    let mut above = n;
    'up: while let Some(parent) = elements.parent(above) {
        above = parent;
    }
}
