//! The entries that the lines of a journal write.
//!
//! A line names objects, signals and marks, and an entry has their numbers in a setting. What entry a line writes, and
//! what is to be said of the bytes of a journal under a setting, stand in this crate's `specs/`. A [`Namespace`] is made
//! once of a setting and finds names; [`entry_of_parts`] gives the entry of a line's parts as they lie in a text, and
//! [`put_entry`] writes the line of an entry; [`entry_of`] and [`line_of`] do the same for lines with names of their own.
//! How lines are spelled is known below (`pssm_lines`), and whether an entry may follow is for the crates above.
#![tactic(auto)]

mod brief;
mod entry;
mod entry_lines;
mod judged;
mod known;
mod laws;
mod names;
mod namespace;
mod naming;
mod outputs;
mod places;
mod ranges;
mod writing;

pub use brief::{BriefEntry, EntryAct, Near, entry_of_brief};
pub use entry::{entry_of, entry_of_parts};
pub use judged::one_judgement;
pub use laws::{read_again, run_lines};
pub use namespace::Namespace;
pub use naming::line_of;
pub use pssm_lines::{
    BriefAct, BriefParts, Fed, Front, LineFault, LineParts, LineReader, OutsText, brief_at,
    firing_of, front_of, write_line,
};
pub use pssm_semantics::{Entry, Line, LineOut, Out, Rule};
pub use writing::put_entry;
