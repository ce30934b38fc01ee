//! A flaw as a fault.
ghost use Rattle.std.specs.Prelude.{◌≡◌, IfOk};
ghost use Rattle.pssm_profile.specs.Faults.{fault_at, owed_name};

use crate::fault::XmiFault;
use crate::flaw::{Flaw, Owed};
use pssm_model::Text;
use std::alloc::{AllocError as NoMemory, Global};

// The name of what is lacking.
fn name_of(what: Owed) -> &'static [u8]
    ensures { result.now ≡ owed_name what }
{
    match what {
        Owed::Type => b"xmi:type",
        Owed::Source => b"source",
        Owed::Target => b"target",
        Owed::Event => b"event",
        Owed::Signal => b"signal",
        Owed::Id => b"xmi:id",
    }
}

/// The flaw of an element that begins at this byte, as a fault.
pub fn fault_of(alloc: Global, at: u32, flaw: Flaw) -> Result<XmiFault, NoMemory>
    ensures { IfOk result (λ fault. fault ≡ fault_at at flaw) }
{
    match flaw {
        Flaw::DoubleId => Ok(XmiFault::DoubleId { at }),
        Flaw::Unsupported(kind) => Ok(XmiFault::Unsupported { at, kind }),
        Flaw::Missing(what) => Ok(XmiFault::Missing {
            at,
            role: Text::from_vec(name_of(what).to_vec(alloc)?),
        }),
    }
}
