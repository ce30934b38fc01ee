//! What is known of every file.
ghost use Rattle.std.specs.Prelude.{◌↔◌, ℕ, IsTrue};
ghost use Rattle.pssm_roles.specs.Roles.{AreRolesOf};
ghost use Rattle.pssm_profile.specs.Kinds.{IsVariable};
ghost use Rattle.pssm_numbering.specs.Numbering.{ModelFile};
ghost use Rattle.pssm_numbering.specs.Meanings.{is_variable};

use crate::file::File;
use pssm_roles::one_role;

/// Every element has the role at its place.
pub fn known_roles(file: &File)
    ensures { AreRolesOf file.now.doc file.now.roles }
{
    let _ = file.roles();
}

/// An element is a variable of a draft where it is a variable as the flaws of a file take it.
pub fn one_notion_of_variable()
    ensures { (file : ModelFile) → AreRolesOf file.doc file.roles → (n : ℕ)
        → IsTrue (is_variable file n) ↔ IsVariable file.doc n }
{
    one_role();
}
