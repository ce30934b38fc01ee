//! What is known of the kinds of elements.
ghost use Rattle.std.specs.Prelude.{◌≡◌, ℕ, List};
ghost use Rattle.pssm_xml.specs.Documents.{Element};
ghost use Rattle.pssm_roles.specs.Roles.{HasRole};
ghost use Rattle.pssm_roles.specs.declared.role.Role.TheVariants as roles_are;
ghost use Rattle.pssm_profile.specs.Kinds.{Kind, IsOfKind};

use pssm_roles::one_role;

/// An element is of one kind at most.
pub fn one_kind()
    ensures { (doc : List Element) (n : ℕ) (k j : Kind) → IsOfKind doc k n → IsOfKind doc j n → k ≡ j }
{
    one_role();
}

// A parameter is of none.
pub(crate) fn no_parameter()
    ensures { (doc : List Element) (n : ℕ) (k : Kind) → IsOfKind doc k n → HasRole doc n roles_are.Parameter → ⊥ }
{
    one_role();
}
