//! What the bytes of a journal deserve under a setting.
//!
//! [`judge`] reads a journal in pieces and decides its lines in order. Of each line it asks first
//! whether it is one of the journal form, then whether the journal passes its limits with it, then
//! whether its names are the setting's (A1), and then whether its entry breaks a further rule.
//! Lines and names come from `pssm_journal`, and the verdict on an entry from `pssm_system`: this
//! crate knows no spelling, and of the rules only that A1 is that of names.
#![tactic(auto)]

mod judging;
mod laws;
mod limits;
mod lines;
mod place;
mod room;
mod run;
mod verdict;

pub use judging::judge;
pub use laws::some_judgement;
pub use limits::MOST_ENTRIES;
pub use pssm_journal::{LineFault, Rule};
pub use verdict::{JudgeFault, Verdict};
