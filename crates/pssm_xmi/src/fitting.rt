//! A file without faults has a draft.
ghost use Rattle.pssm_xmi.specs.Faultless.{IsFaultless};
ghost use Rattle.pssm_drafting.specs.Fitting.{FitsDraft};

use pssm_numbering::{File, one_notion_of_variable};
use pssm_roles::one_role;

/// The numbers of a draft fit their types, and its first values are integers, where the file has no fault.
pub(crate) fn fitting(file: &File)
    requires { IsFaultless file.now }
    ensures { FitsDraft file.now }
{
    one_role();
    one_notion_of_variable();
}
