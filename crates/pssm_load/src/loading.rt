//! The setting of the bytes of a model, or what is wrong with them.
ghost use Rattle.std.specs.Prelude.{◌≡◌, ◌≢◌, ◌⊎◌, ◌≤◌, ◌↔◌, [], length, IfOk, IfErr, IsTrue};
ghost use Rattle.pssm_flat.specs.Flat.{IsFlat};
ghost use Rattle.pssm_model.specs.DraftSettings.{IsInRange};
ghost use Rattle.pssm_semantics.specs.Names.{HasSpelledNames};
ghost use Rattle.pssm_semantics.specs.Proper.{IsProper, IsWellFormed};
ghost use Rattle.pssm_xmi.specs.Faults.{ReadsDraft};
ghost use Rattle.pssm_settings.specs.declared.fault.DraftFault.{DraftFault};
ghost use Rattle.pssm_settings.specs.Settings.{IsSettingOf};
ghost use Rattle.pssm_settings.specs.Failures.{IsFirstFailure};
ghost use Rattle.pssm_load.specs.Loads.{of_draft, BeginsFlat, Reads, ReadsSetting, IsLoadFault};

use crate::fault::LoadFault;
use crate::rules::well_formed;
use pssm_flat::{FlatFault, read_flat, read_settings};
use pssm_model::Draft;
use pssm_named::named_draft;
use pssm_profile::XmiFault;
use pssm_semantics::Setting;
use pssm_settings::{DraftFault, proper_setting, setting_of};
use pssm_xmi::read_xmi;
use std::alloc::Global;

// The fault of a flat text; want of memory is one of its own.
fn flat_fault(fault: FlatFault) -> LoadFault
    ensures { (result ≡ LoadFault.NoMemory) ⊎ ((result ≡ LoadFault.Flat fault) × (fault ≢ FlatFault.NoMemory)) }
{
    match fault {
        FlatFault::NoMemory => LoadFault::NoMemory,
        other => LoadFault::Flat(other),
    }
}

// The fault of a model file; want of memory is one of its own.
fn file_fault(fault: XmiFault) -> LoadFault
    ensures { (result ≡ LoadFault.NoMemory) ⊎ ((result ≡ LoadFault.Xmi fault) × (fault ≢ XmiFault.NoMemory)) }
{
    match fault {
        XmiFault::NoMemory => LoadFault::NoMemory,
        other => LoadFault::Xmi(other),
    }
}

// Whether the bytes begin as those of the flat form do.
fn begins_flat(bytes: &[u8]) -> bool
    ensures { IsTrue result ↔ BeginsFlat bytes.now }
{
    bytes.starts_with(b"pssm-flat")
}

// The setting of bytes in the flat form.
fn read_flat_form(alloc: Global, bytes: &[u8]) -> Result<Setting, LoadFault>
    requires few { length bytes.now ≤ 16777216 }
    requires form { BeginsFlat bytes.now }
    ensures reads { IfOk result (Reads bytes.now) }
    ensures proper { IfOk result IsProper }
    ensures spelled { IfOk result HasSpelledNames }
    ensures fault { IfErr result (λ fault. (fault ≡ LoadFault.NoMemory) ⊎ IsLoadFault bytes.now fault) }
{
    read_settings();
    match read_flat(alloc, bytes) {
        Ok(setting) => Ok(setting),
        Err(fault) => Err(flat_fault(fault)),
    }
}

// The fault of a draft.
fn draft_fault(fault: DraftFault) -> LoadFault
    ensures { result ≡ of_draft fault }
{
    match fault {
        DraftFault::Redef(fault) => LoadFault::Redef(fault),
        DraftFault::Act { id, fault } => LoadFault::Act { id, fault },
        DraftFault::Shape { class, shape } => LoadFault::Shape { class, shape },
        DraftFault::NoMemory => LoadFault::NoMemory,
    }
}

// The setting of a draft that was read.
fn settled(alloc: Global, draft: &Draft) -> Result<Setting, LoadFault>
    requires { IsInRange draft.now }
    ensures setting { IfOk result (IsSettingOf draft.now) }
    ensures fault { IfErr result (λ fault. (fault ≡ LoadFault.NoMemory)
        ⊎ ((cause : DraftFault) × (fault ≡ of_draft cause) × IsFirstFailure draft.now cause)) }
{
    match setting_of(alloc, draft) {
        Ok(setting) => Ok(setting),
        Err(fault) => Err(draft_fault(fault)),
    }
}

// The draft of the bytes of a model file.
fn draft_of(alloc: Global, bytes: &[u8]) -> Result<Draft, LoadFault>
    requires few { length bytes.now ≤ 16777216 }
    requires form { BeginsFlat bytes.now → ⊥ }
    ensures reads { IfOk result (ReadsDraft bytes.now) }
    ensures range { IfOk result IsInRange }
    ensures fault { IfErr result (λ fault. (fault ≡ LoadFault.NoMemory) ⊎ IsLoadFault bytes.now fault) }
{
    match read_xmi(alloc, bytes) {
        Ok(draft) => Ok(draft),
        Err(fault) => Err(file_fault(fault)),
    }
}

// The setting of the bytes of a model file.
fn read_model_file(alloc: Global, bytes: &[u8]) -> Result<Setting, LoadFault>
    requires few { length bytes.now ≤ 16777216 }
    requires form { BeginsFlat bytes.now → ⊥ }
    ensures reads { IfOk result (Reads bytes.now) }
    ensures proper { IfOk result IsProper }
    ensures spelled { IfOk result HasSpelledNames }
    ensures fault { IfErr result (λ fault. (fault ≡ LoadFault.NoMemory) ⊎ IsLoadFault bytes.now fault) }
{
    named_draft();
    proper_setting();
    let draft = draft_of(alloc, bytes)?;
    settled(alloc, &draft)
}

// The setting of the bytes, in whichever form they are.
fn read(alloc: Global, bytes: &[u8]) -> Result<Setting, LoadFault>
    requires { length bytes.now ≤ 16777216 }
    ensures reads { IfOk result (Reads bytes.now) }
    ensures proper { IfOk result IsProper }
    ensures spelled { IfOk result HasSpelledNames }
    ensures fault { IfErr result (λ fault. (fault ≡ LoadFault.NoMemory) ⊎ IsLoadFault bytes.now fault) }
{
    if begins_flat(bytes) {
        read_flat_form(alloc, bytes)
    } else {
        read_model_file(alloc, bytes)
    }
}

/// The setting of the bytes of a model, whose machines break no rule of models. Bytes that begin with `pssm-flat` are
/// of the flat form, and all others those of a model file (this profile's choice).
///
/// The first fault comes: of the flat text or of the model file; then, class by class, that of flattening its machine,
/// that of the first of its bodies in the order of the file, and that of its machine's shape; then all rules of models
/// that the machines break (this profile's choice of the order). `NoMemory`: memory ran out; it comes in place of any
/// other answer. Nothing is left of what is refused.
pub fn load(alloc: Global, bytes: &[u8]) -> Result<Setting, LoadFault>
    requires { length bytes.now ≤ 16777216 }
    ensures loads { IfOk result (λ setting. ReadsSetting bytes.now setting []) }
    ensures well_formed { IfOk result IsWellFormed }
    ensures spelled { IfOk result HasSpelledNames }
    // A refusal has its cause.
    ensures fault { IfErr result (λ fault. (fault ≡ LoadFault.NoMemory) ⊎ IsLoadFault bytes.now fault) }
{
    match read(alloc, bytes) {
        Ok(setting) => well_formed(alloc, setting),
        Err(fault) => Err(fault),
    }
}
