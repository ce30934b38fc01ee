//! Runs the program with workers on threads that a gate holds, and says whether behaviours stand side by side.
//!
//! A gate holds a worker until another has come as far as the row asks. Each gate gives up after so many turns, so a
//! program in which no two workers meet ends too, with a row that does not hold.
//!
//! A line says that a row holds, or else what came in its place. The lines are the same whatever the threads do.
#![tactic(auto)]

mod gates;
mod meetings;

use crate::meetings::{behaviours_overlap, one_worker_meets_none, two_calls_meet};
use pssm_trials::{status_of, told};
use std::io;
use std::process::ExitCode;

fn main(rt: HostRuntime) -> io::Result<ExitCode> {
    let alloc = rt.alloc();
    let holds = [
        told(&rt, "two_calls_meet", two_calls_meet(&rt, alloc))?,
        told(
            &rt,
            "one_worker_meets_none",
            one_worker_meets_none(&rt, alloc),
        )?,
        told(&rt, "two_objects_overlap", behaviours_overlap(&rt, alloc))?,
    ];
    Ok(status_of(&holds))
}
