//! Why a text is no behaviour or guard.
ghost use Rattle.std.specs.Prelude.{◌≡◌, Ok, Err, MatchResult};
ghost use Rattle.pssm_acts.specs.declared.act_fault.ActFault.TheVariants.{NoMemory};

use std::alloc::AllocError;

/// Why an action text could not be read: the first fault in reading order, at a byte from 0 (this
/// profile's choice).
///
/// `Syntax`: what stands there cannot stand there, or the text ends too early. `UnknownName`: the
/// name is none of those that may stand there. `WideNumber`: the number is out of the range of 64
/// bits. `Arity`: a send has not as many arguments as its signal, or a mark more than eight.
/// `TooLong`: the text, a behaviour, its nesting or the number of steps is past its limit.
/// `NoMemory`: memory ran out before the text was read.
#[derive(Clone, Copy, PartialEq, Eq)]
pub enum ActFault {
    Syntax { at: u32 },
    UnknownName { at: u32 },
    WideNumber { at: u32 },
    Arity { at: u32 },
    TooLong { at: u32 },
    NoMemory,
}

impl From<AllocError> for ActFault {
    ghost from_gives = { λ _ e. e ≡ NoMemory };

    fn from(_e: AllocError) -> ActFault {
        ActFault::NoMemory
    }
}

// A fault, in place of what was to be made of these parts.
pub(crate) fn refused<P: Drop, T, E>(_parts: P, fault: E) -> Result<T, E>
    ensures { result ≡ Err fault }
{
    Err(fault)
}

// What is kept and what was made; where nothing was made, what is kept goes with the fault.
pub(crate) fn beside<K: Drop, T, E>(kept: K, made: Result<T, E>) -> Result<(K, T), E>
    ensures { MatchResult made (λ value. result ≡ Ok (kept, value)) (λ fault. result ≡ Err fault) }
{
    match made {
        Ok(value) => Ok((kept, value)),
        Err(fault) => refused(kept, fault),
    }
}
