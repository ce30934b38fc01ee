//! The model that the words name.
ghost use Rattle.std.specs.Prelude.{◌≡◌, ◌≤◌, [], length, IfOk, IfErr};
ghost use Rattle.pssm_base.specs.Faults.{NoneFell};
ghost use Rattle.pssm_base.specs.History.{Grows};
ghost use Rattle.pssm_base.specs.Reading.{SameContent, given};
ghost use Rattle.pssm_semantics.specs.Names.{HasSpelledNames};
ghost use Rattle.pssm_semantics.specs.Proper.{IsWellFormed};
ghost use Rattle.pssm_load.specs.Loads.{ReadsSetting};
ghost use Rattle.pssm_tool.specs.Due.{File, HasModel};
ghost use Rattle.pssm_tool.specs.inner.Failures.{LacksModel, FailedAt, IsFound, IsRefusedFor, TellsFault};

use crate::answer::Answer;
use crate::failure::Failure;
use pssm_base::{Inputs, WholeFault, read_whole};
use pssm_load::{LoadFault, load};
use pssm_semantics::Setting;
use std::alloc::Global;

// The most bytes that a model may have.
const LIMIT: u64 = 16_777_216;

/// The setting of a model's file, whose machines break no rule of models; or the answer that there is none.
pub fn model<I: Inputs>(
    alloc: Global,
    inputs: &mut I,
    path: &str,
) -> Result<Result<Setting, Answer>, Failure>
    ensures loads { IfOk result (λ found. IfOk found (HasModel
        (given (I.content inputs.old) (I.history inputs.old) (I.history inputs.new)) (File path.now))) }
    ensures well_formed { IfOk result (λ found. IfOk found IsWellFormed) }
    ensures spelled { IfOk result (λ found. IfOk found HasSpelledNames) }
    ensures lacks { IfOk result (λ found. IfErr found (LacksModel
        (given (I.content inputs.old) (I.history inputs.old) (I.history inputs.new)) path.now)) }
    ensures failed { IfErr result (FailedAt (I.faults inputs.old path.now) (I.faults inputs.new path.now)) }
    ensures grows { Grows (I.history inputs.old) (I.history inputs.new) }
    ensures counts { NoneFell (I.faults inputs.old) (I.faults inputs.new) }
    ensures same { SameContent (I.content inputs.old) (I.content inputs.new) }
{
    let bytes = match read_whole(alloc, inputs, path, LIMIT) {
        Ok(bytes) => bytes,
        Err(WholeFault::TooLarge) => return Ok(Err(Answer::TooLarge)),
        Err(WholeFault::ReadFault) => return Err(Failure::ReadFault),
        Err(WholeFault::NoMemory) => return Err(Failure::NoMemory),
    };
    let found = setting_of(alloc, bytes.as_slice());
    drop(bytes);
    found
}

/// The setting that the bytes of a model have; or the answer that they have none.
pub fn setting_of(alloc: Global, bytes: &[u8]) -> Result<Result<Setting, Answer>, Failure>
    requires { length bytes.now ≤ 16777216 }
    ensures loads { IfOk result (λ found. IfOk found (λ setting. ReadsSetting bytes.now setting [])) }
    ensures well_formed { IfOk result (λ found. IfOk found IsWellFormed) }
    ensures spelled { IfOk result (λ found. IfOk found HasSpelledNames) }
    ensures lacks { IfOk result (λ found. IfErr found (IsRefusedFor bytes.now)) }
    ensures failed { IfErr result (λ failure. failure ≡ Failure.NoMemory) }
{
    let loaded = load(alloc, bytes);
    found(loaded)
}

// The setting, or what comes of the fault.
fn found(loaded: Result<Setting, LoadFault>) -> Result<Result<Setting, Answer>, Failure>
    ensures { IsFound loaded result }
{
    match loaded {
        Ok(setting) => Ok(Ok(setting)),
        Err(fault) => refused(fault),
    }
}

// Want of memory is a failure, and any other fault is answered.
fn refused(fault: LoadFault) -> Result<Result<Setting, Answer>, Failure>
    ensures { TellsFault fault result }
{
    match fault {
        LoadFault::NoMemory => Err(Failure::NoMemory),
        other => Ok(Err(Answer::BadModel(other))),
    }
}
