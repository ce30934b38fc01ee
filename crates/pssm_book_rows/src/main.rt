//! Runs rows of a book alone, on one thread, and says which of them hold: what it answers to claims and commits, task by
//! task, where a file of cases cannot say what is owed.
//!
//! A line says that a row holds, or else what came in its place.
#![tactic(auto)]

mod answers;
mod book_rows;
mod table;

use crate::book_rows::{BookRow, try_on_book};
use pssm_trials::{status_of, told};
use std::io;
use std::process::ExitCode;

// The rows, by name.
const BOOK_ROWS: [(&str, BookRow); 8] = [
    ("second_commit_is_stale", BookRow::Stale),
    ("stale_comes_before_full", BookRow::StaleInFull),
    ("commit_is_full", BookRow::Full),
    ("no_room_is_full", BookRow::NoRoom),
    ("unclaimed_is_gone", BookRow::Unclaimed),
    ("ended_is_gone", BookRow::Ended),
    ("released_is_handed_out_again", BookRow::Released),
    ("busy_counts", BookRow::Busy),
];

fn main(rt: HostRuntime) -> io::Result<ExitCode> {
    let mut all = true;
    for (name, row) in BOOK_ROWS {
        let holds = told(&rt, name, try_on_book(rt.alloc(), row))?;
        all = all && holds;
    }
    Ok(status_of(&[all]))
}
