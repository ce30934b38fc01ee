//! Why a text has no elements.
ghost use Rattle.std.specs.Prelude.{◌≡◌};
ghost use Rattle.pssm_xml.specs.declared.fault.TextFault.TheVariants.{NoMemory};

use std::alloc::AllocError;

/// Why no elements could be read from a text. `at` is a byte of it, from 0.
///
/// `NotUtf8`: the byte belongs to no character. `Malformed`: no piece of a document begins there, or one that cannot
/// stand there, or the text ends there too early. `Doctype`: a document type stands before the root. `TooDeep`: the tag
/// begins the 129th element that is open. `NoMemory`: memory ran out; no other variant carries it.
#[derive(Clone, Copy, PartialEq, Eq)]
pub enum TextFault {
    NotUtf8 { at: u32 },
    Malformed { at: u32 },
    Doctype { at: u32 },
    TooDeep { at: u32 },
    NoMemory,
}

impl From<AllocError> for TextFault {
    ghost from_gives = { λ _ e. e ≡ NoMemory };

    fn from(_e: AllocError) -> TextFault {
        TextFault::NoMemory
    }
}
