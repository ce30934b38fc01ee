//! `else` as a guard.
ghost use Rattle.std.specs.Prelude.{◌↔◌, IsTrue};
ghost use Rattle.pssm_values.specs.Guards.{SaysElse};

use crate::blanks::{are_blanks, behind_blanks};
use pssm_spelling::strip;

/// Whether the body of a guard is `else`, blanks around it dropped (UML 2.5.1, 14.2.3.7, choice and junction: the
/// predefined guard `else`; the blanks are this profile's choice).
pub fn says_else(body: &[u8]) -> bool
    ensures { IsTrue result ↔ SaysElse body.now }
{
    match strip(behind_blanks(body), b"else") {
        Some(rest) => are_blanks(rest),
        None => false,
    }
}
