//! What is asked of roles.
ghost use Rattle.std.specs.Prelude.{◌↔◌, IsTrue};
ghost use Rattle.pssm_profile.specs.Flaws.{IsState, HasText};

use pssm_roles::Role;

/// Whether it is a State or a final State.
pub fn is_state(role: Role) -> bool
    ensures { IsTrue result ↔ IsState role }
{
    matches!(role, Role::State | Role::FinalState)
}

/// Whether it has languages and bodies.
pub fn has_text(role: Role) -> bool
    ensures { IsTrue result ↔ HasText role }
{
    matches!(role, Role::Behaviour | Role::Expression)
}
