//! Why a model file is not read.
ghost use Rattle.std.specs.Prelude.{◌≡◌, ◌⊎◌, IfOk};
ghost use Rattle.pssm_xml.specs.declared.fault.TextFault.{TextFault};
ghost use Rattle.pssm_profile.specs.declared.fault.XmiFault.TheVariants as xmi_faults;
ghost use Rattle.pssm_profile.specs.Faults.{of_text, fault_at};

use crate::flaw::{Flaw, Owed, Unread};
use pssm_model::Text;
use pssm_xml::TextFault;
use std::alloc::{AllocError as NoMemory, Global};

/// Why a model file is not read. `at` is a byte of it, from 0: of the `<` of an element, but for the faults of the text.
///
/// `Malformed`, `NotUtf8`, `Doctype` and `TooDeep` are those of the text. `DoubleId`: an earlier element has the id.
/// `UnknownRef`: no element of the right kind has the id. `Unsupported`: the element is not read, for this reason.
/// `Missing`: the element lacks what is called so. `NoMemory`: memory ran out; no other variant carries it.
#[derive(Drop)]
pub enum XmiFault {
    Malformed { at: u32 },
    NotUtf8 { at: u32 },
    Doctype { at: u32 },
    DoubleId { at: u32 },
    UnknownRef { at: u32 },
    Unsupported { at: u32, kind: Unread },
    Missing { at: u32, role: Text },
    TooDeep { at: u32 },
    NoMemory,
}

impl From<TextFault> for XmiFault {
    ghost from_gives = { λ fault e. e ≡ of_text fault };

    fn from(fault: TextFault) -> XmiFault {
        match fault {
            TextFault::Malformed { at } => XmiFault::Malformed { at },
            TextFault::NotUtf8 { at } => XmiFault::NotUtf8 { at },
            TextFault::Doctype { at } => XmiFault::Doctype { at },
            TextFault::TooDeep { at } => XmiFault::TooDeep { at },
            TextFault::NoMemory => XmiFault::NoMemory,
        }
    }
}

impl From<NoMemory> for XmiFault {
    ghost from_gives = { λ _ e. e ≡ xmi_faults.NoMemory };

    fn from(_e: NoMemory) -> XmiFault {
        XmiFault::NoMemory
    }
}
