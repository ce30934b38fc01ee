//! What is found wrong in a model file at last: in its references and its counts.
ghost use Rattle.std.specs.Prelude.{◌≡◌, ◌⊎◌, IfOk, IfErr, MatchOption};
ghost use Rattle.pssm_profile.specs.declared.fault.XmiFault.TheVariants as xmi_faults;
ghost use Rattle.pssm_unmet.specs.Unmet.{byte_of as unmet_byte};
ghost use Rattle.pssm_xmi.specs.inner.First as first;
ghost use Rattle.pssm_xmi.specs.Faults.{of_unmet as fault_of_unmet, HasNoSecondFault, IsFirstSecondFault};

use pssm_limits::first_many;
use pssm_numbering::{File, Numbering};
use pssm_profile::{Unread, XmiFault};
use pssm_unmet::{Unmet, first_unmet};
use std::alloc::{AllocError as NoMemory, Global};

// What is wrong with a reference, as a fault.
fn of_unmet(one: Unmet) -> XmiFault
    ensures { result ≡ fault_of_unmet one }
{
    match one {
        Unmet::Unknown { at } => XmiFault::UnknownRef { at },
        Unmet::Event { at } => XmiFault::Unsupported {
            at,
            kind: Unread::Event,
        },
    }
}

// The byte at which what is wrong with a reference stands.
fn byte_of(one: Unmet) -> u32
    ensures { result ≡ unmet_byte one }
{
    match one {
        Unmet::Unknown { at } => at,
        Unmet::Event { at } => at,
    }
}

// The fault that too many stand at the element that begins at this byte.
fn too_many(at: u32) -> XmiFault
    ensures { result ≡ first.too_many at }
{
    XmiFault::Unsupported {
        at,
        kind: Unread::TooMany,
    }
}

// The fault that comes, of that of a reference and that of a count.
fn earlier(one: Unmet, many: u32) -> XmiFault
    ensures { result ≡ first.earlier one many }
{
    if many < byte_of(one) {
        too_many(many)
    } else {
        of_unmet(one)
    }
}

// The fault that comes, of those that there are.
fn fault_of(unmet: Option<Unmet>, many: Option<u32>) -> Option<XmiFault>
    ensures { result ≡ first.first_of unmet many }
{
    match (unmet, many) {
        (None, None) => None,
        (None, Some(at)) => Some(too_many(at)),
        (Some(one), None) => Some(of_unmet(one)),
        (Some(one), Some(at)) => Some(earlier(one, at)),
    }
}

// The first fault of the references and the counts of a file.
#[tactic(auto, using(crate::proofs::FirstLaws::first_found))]
fn first_last(
    alloc: Global,
    file: &File,
    numbering: &Numbering,
) -> Result<Option<XmiFault>, NoMemory>
    requires { numbering.now ≡ file.now }
    ensures { IfOk result (λ found.
        MatchOption found (HasNoSecondFault file.now) (IsFirstSecondFault file.now)) }
{
    let unmet = first_unmet(alloc, file)?;
    let many = first_many(alloc, file, numbering)?;
    Ok(fault_of(unmet, many))
}

/// Asks the references and the counts of a file for the first fault.
pub(crate) fn checked_last(
    alloc: Global,
    file: &File,
    numbering: &Numbering,
) -> Result<(), XmiFault>
    requires { numbering.now ≡ file.now }
    ensures sound { IfOk result (λ done. HasNoSecondFault file.now) }
    ensures fault { IfErr result
        (λ fault. (fault ≡ xmi_faults.NoMemory) ⊎ IsFirstSecondFault file.now fault) }
{
    match first_last(alloc, file, numbering)? {
        None => Ok(()),
        Some(fault) => Err(fault),
    }
}
