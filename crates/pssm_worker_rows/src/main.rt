//! Runs workers on threads, and says which rows hold of what they leave before anyone goes on from it, and of what is
//! made of it then.
//!
//! A line says that a row holds, or else what came in its place. The lines are the same whatever the threads do.
#![tactic(auto)]

mod gates;
mod plan;
mod worker_rows;

use crate::worker_rows::{
    alone_is_alike, another_end_begins_anew, book_is_whole, full_is_whole, nobody_works,
};
use pssm_trials::{status_of, told};
use std::io;
use std::process::ExitCode;

fn main(rt: HostRuntime) -> io::Result<ExitCode> {
    let alloc = rt.alloc();
    let holds = [
        told(&rt, "book_is_whole", book_is_whole(&rt, alloc))?,
        told(&rt, "full_book_is_whole", full_is_whole(&rt, alloc))?,
        told(
            &rt,
            "finish_does_what_no_worker_did",
            nobody_works(&rt, alloc),
        )?,
        told(
            &rt,
            "finish_of_another_run_begins_anew",
            another_end_begins_anew(alloc),
        )?,
        told(&rt, "one_worker_is_as_alone", alone_is_alike(&rt, alloc))?,
    ];
    Ok(status_of(&holds))
}
