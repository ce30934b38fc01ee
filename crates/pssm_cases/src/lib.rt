//! What programs share that run cases which stand in files.
//!
//! [`folder_of`] tells the folder of the cases, and [`names_in`] finds its files. [`put_spelled`] and [`put_line`] read
//! the escapes of a text, and a [`Tally`] keeps what became of the cases of a file, which [`report`] writes and
//! [`all_hold`] asks. This crate knows nothing of what a case shows.
#![tactic(auto)]

mod folder;
mod spelled;
mod tally;

pub use folder::{folder_of, names_in};
pub use spelled::{SpellFault, put_line, put_spelled};
pub use tally::{Outcome, Tally, all_hold, report, report_of};
