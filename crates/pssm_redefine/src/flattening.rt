//! The flat draft of a class, or the first fault of its machine.
ghost use Rattle.std.specs.Prelude.{◌≡◌, ◌⊎◌, ◌<◌, length, IfOk, IfErr};
ghost use Rattle.pssm_model.specs.DraftSettings.{IsInRange};
ghost use Rattle.pssm_heritage.specs.Heritages.{IsLineage};
ghost use Rattle.pssm_redefine.specs.Gathering.{IsFlattened};
ghost use Rattle.pssm_redefine.specs.Flattening.{Flattens, IsFaultOfClass};

use crate::gathering::gather;
use crate::machine::merge;
use pssm_breaches::{fault_of, first_breach};
use pssm_heritage::{Heritage, RedefFault};
use pssm_model::{Draft, DraftClass, FlatDraft};
use std::alloc::{AllocError as NoMemory, Global};

/// The flat draft of a class: its machine with all that it inherits, as one machine (UML 2.5.1, 14.3.3). What the
/// class's machine inherits is known already; whether its elements keep the rules of redefinition is not asked.
pub fn flattened(
    alloc: Global,
    draft: &Draft,
    class: &DraftClass,
    heritage: &Heritage,
) -> Result<FlatDraft, NoMemory>
    requires range { IsInRange draft.now }
    requires lineage { IsLineage draft.now class.now.machine heritage.now }
    ensures { IfOk result (λ flat. IsFlattened draft.now class.now flat) }
{
    let gathered = gather(alloc, draft, heritage)?;
    merge(alloc, draft, class, &gathered)
}

/// The flat draft of the class with the number: its machine with all that it inherits, as one machine (UML 2.5.1,
/// 14.3.3).
///
/// Otherwise the first fault: that of a machine that extends itself, and else that of the first element, in the
/// order of the file, that breaks a rule of redefinition (this profile's choice of the order).
pub fn flatten(alloc: Global, draft: &Draft, class: u8) -> Result<FlatDraft, RedefFault>
    requires range { IsInRange draft.now }
    requires there { class < length draft.now.classes }
    ensures flat { IfOk result (Flattens draft.now class) }
    ensures fault { IfErr result (λ fault. (fault ≡ RedefFault.NoMemory) ⊎ IsFaultOfClass draft.now class fault) }
{
    let of = &draft.classes.as_slice()[class as usize];
    let heritage = Heritage::of(alloc, draft, of.machine)?;
    match first_breach(alloc, draft, of.machine, &heritage)? {
        Some(breach) => Err(fault_of(alloc, draft, breach)?),
        None => Ok(flattened(alloc, draft, of, &heritage)?),
    }
}
