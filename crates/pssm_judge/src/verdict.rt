//! What is said of a journal, and why nothing is.
ghost use Rattle.std.specs.Prelude.{◌≡◌};
ghost use Rattle.pssm_judge.specs.declared.verdict.JudgeFault.TheVariants.{NoMemory as Memory};

use pssm_journal::LineFault;
use pssm_semantics::Rule;
use std::alloc::AllocError;

/// The verdict on a journal that was read up to the entry that decides (the list of rules is this
/// profile's choice).
#[derive(Clone, Copy, PartialEq, Eq, Debug)]
pub enum Verdict {
    /// The whole journal was read. It has so many entries, none breaks a rule, and they are the beginning of a
    /// complete run.
    Accept { entries: u32 },
    /// The entry, counted from 1, is the first that breaks a rule, and this is the first rule that it breaks.
    Refuse { entry: u32, rule: Rule },
}

/// Why there is no verdict (this profile's choice).
#[derive(Clone, Copy, PartialEq, Eq, Debug)]
pub enum JudgeFault {
    /// The bytes are no text of a journal: this is their first fault, and no entry before it breaks a rule or passes
    /// the limits.
    Text(LineFault),
    /// With this entry, counted from 1, and with none before, there are more than 1,000,000 entries or more than
    /// 2,000,000 posts, sends and marks. No earlier entry breaks a rule.
    Limit { entry: u32 },
    /// The path holds more than 16,777,216 bytes.
    TooLarge,
    /// A read failed: the count of the path's faults rose.
    ReadFault,
    /// There was not enough memory.
    NoMemory,
}

impl From<AllocError> for JudgeFault {
    ghost from_gives = { λ _ e. e ≡ Memory };

    fn from(_: AllocError) -> JudgeFault {
        JudgeFault::NoMemory
    }
}
