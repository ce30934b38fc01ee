//! The draft of a file.
ghost use Rattle.std.specs.Prelude.{◌≡◌, IfOk};
ghost use Rattle.pssm_drafting.specs.Drafts as drafts;
ghost use Rattle.pssm_drafting.specs.Fitting.{FitsDraft};

use crate::classes::classes_of;
use crate::machines::machines_of;
use crate::objects::objects_of;
use crate::signals::signals_of;
use pssm_model::Draft;
use pssm_numbering::{File, Numbering};
use std::alloc::{AllocError as NoMemory, Global};

/// The draft of a file: its signals, machines, classes and objects.
pub fn draft_of(alloc: Global, file: &File, numbering: &Numbering) -> Result<Draft, NoMemory>
    requires same { numbering.now ≡ file.now }
    requires fits { FitsDraft file.now }
    ensures { IfOk result (λ draft. draft ≡ drafts.draft_of file.now) }
{
    Ok(Draft {
        signals: signals_of(alloc, file, numbering)?,
        machines: machines_of(alloc, file, numbering)?,
        classes: classes_of(alloc, file, numbering)?,
        objects: objects_of(alloc, file, numbering)?,
    })
}
