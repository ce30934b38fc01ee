//! The lines of a journal's text.
//!
//! A journal is the line `pssm-journal 1` and then one line for each entry, each ended by a line feed (this
//! profile's choice). The one spelling of each line, the grammar of lines, what the parts of a line say, and where a
//! text first goes wrong stand in this crate's `specs/`. [`front_of`] reads the line at the front of the bytes that
//! are still to be read as parts that lie in the text, or tells the exact fault; [`next_out`] walks the outputs of a
//! line; a [`LineReader`] takes the bytes in whatever pieces they come and gives lines with names of their own; and
//! [`write_line`] spells a line. This crate knows nothing of what the names mean: that is for the crates above.
#![tactic(auto)]

mod batch;
mod brief;
mod closing;
mod fault;
mod forms;
mod front;
mod groups;
mod laws;
mod line;
mod outs;
mod parts;
mod pieces;
mod reader;
mod signed;
mod spelled;
mod whole;
mod writing;

pub use brief::brief_at;
pub use fault::LineFault;
pub use front::{Front, front_of};
pub use groups::firing_of;
pub use laws::{one_fault, one_spelling, text_or_fault};
pub use outs::next_out;
pub use parts::{BriefAct, BriefParts, LineParts, OutParts, OutsText};
pub use pssm_semantics::{Line, LineOut};
pub use reader::{Fed, LineReader};
pub use spelled::{Spelled, put_call};
pub use writing::{mode_name, put_place, write_line};
