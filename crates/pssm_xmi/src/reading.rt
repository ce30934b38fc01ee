//! The draft of a model file, or its fault.
ghost use Rattle.std.specs.Prelude.{◌≡◌, ◌≤◌, ◌⊎◌, length, IfOk, IfErr};
ghost use Rattle.pssm_profile.specs.Faults.{HasNoProfileFault};
ghost use Rattle.pssm_profile.specs.declared.fault.XmiFault.TheVariants as xmi_faults;
ghost use Rattle.pssm_drafting.specs.Drafts.{draft_of as draft_of_file};
ghost use Rattle.pssm_model.specs.DraftSettings.{IsInRange, IsPlainDraft};
ghost use Rattle.pssm_xmi.specs.Faultless.{IsFaultless};
ghost use Rattle.pssm_xmi.specs.Faults.{ReadsDraft, IsXmiFault, IsFileOf, HasNoSecondFault, IsFirstSecondFault};

use crate::fitting::fitting;
use crate::last::checked_last;
use crate::laws::{ordered_document, sound_draft};
use pssm_drafting::draft_of;
use pssm_flaws::checked;
use pssm_model::Draft;
use pssm_numbering::{File, Numbering, known_roles};
use pssm_profile::XmiFault;
use pssm_roles::one_role;
use pssm_xml::elements_of;
use std::alloc::Global;

// The elements of a text with their ids and roles.
fn file_of(alloc: Global, bytes: &[u8]) -> Result<File, XmiFault>
    requires { length bytes.now ≤ 16777216 }
    ensures read { IfOk result (λ file. IsFileOf bytes.now file) }
    ensures fault { IfErr result
        (λ fault. (fault ≡ xmi_faults.NoMemory) ⊎ IsXmiFault bytes.now fault) }
{
    let elements = elements_of(alloc, bytes)?;
    let file = File::of(alloc, elements)?;
    known_roles(&file);
    Ok(file)
}

// A file of a text in which nothing is wrong is faultless.
fn faultless(bytes: &[u8], file: &File)
    requires text { IsFileOf bytes.now file.now }
    requires first { HasNoProfileFault file.now.doc }
    requires second { HasNoSecondFault file.now }
    ensures { IsFaultless file.now }
{
    ordered_document();
    one_role();
}

// The draft of a file in which no element has a flaw.
fn drafted(alloc: Global, bytes: &[u8], file: &File) -> Result<Draft, XmiFault>
    requires text { IsFileOf bytes.now file.now }
    requires first { HasNoProfileFault file.now.doc }
    ensures sound { IfOk result (λ draft. IsFaultless file.now) }
    ensures second { IfOk result (λ draft. HasNoSecondFault file.now) }
    ensures draft { IfOk result (λ draft. draft ≡ draft_of_file file.now) }
    ensures fault { IfErr result
        (λ fault. (fault ≡ xmi_faults.NoMemory) ⊎ IsFirstSecondFault file.now fault) }
{
    let numbering = Numbering::of(alloc, file)?;
    checked_last(alloc, file, &numbering)?;
    faultless(bytes, file);
    fitting(file);
    Ok(draft_of(alloc, file, &numbering)?)
}

// The same of a file of any text: its draft, or its first fault.
fn drafted_or_fault(alloc: Global, bytes: &[u8], file: &File) -> Result<Draft, XmiFault>
    requires { IsFileOf bytes.now file.now }
    ensures read { IfOk result (λ draft. ReadsDraft bytes.now draft) }
    ensures fault { IfErr result
        (λ fault. (fault ≡ xmi_faults.NoMemory) ⊎ IsXmiFault bytes.now fault) }
    ensures sound { IfOk result (λ draft. IsFaultless file.now × (draft ≡ draft_of_file file.now)) }
{
    checked(alloc, file.elements(), file.ids(), file.roles())?;
    drafted(alloc, bytes, file)
}

/// The draft of a model file, or its one fault. The text is read first, then each element by itself, and then
/// references and counts; the first stage at which something is wrong tells its first fault (this profile's choice).
///
/// The faults of the text: `Malformed`, `NotUtf8`, `Doctype` and `TooDeep`. Those of single elements: `DoubleId`,
/// `Missing`, and `Unsupported` but for what follows. Those of references and counts: `UnknownRef`, at the element
/// where a reference stands that means nothing of the right kind; `Unsupported` with `Event`, where it means an event
/// of another type; and with `TooMany`, at a machine that has too many elements or bodies with those that it extends,
/// or a class with too many variables. `NoMemory`: memory ran out; it comes in place of any other answer. Nothing is
/// left of a file that is refused.
pub fn read_xmi(alloc: Global, bytes: &[u8]) -> Result<Draft, XmiFault>
    requires { length bytes.now ≤ 16777216 }
    ensures read { IfOk result (λ draft. ReadsDraft bytes.now draft) }
    ensures fault { IfErr result
        (λ fault. (fault ≡ xmi_faults.NoMemory) ⊎ IsXmiFault bytes.now fault) }
    ensures range { IfOk result IsInRange }
    ensures plain { IfOk result IsPlainDraft }
{
    let file = file_of(alloc, bytes)?;
    sound_draft();
    drafted_or_fault(alloc, bytes, &file)
}
