//! Workers: threads that share a run, and the end of a run on one thread.
//!
//! [`run_workers`] starts threads that share a [`Book`] under a lock: each claims a task, runs its
//! behaviour outside the lock, and commits what it made. A worker for which there is nothing to do
//! sleeps until another appends an entry after which there may be more to do than that one goes on
//! with, gives a task back or ends; one whose behaviours are short steps back for a moment where it
//! meets another at the lock. What is under the lock is a book at all times, so the journal is that
//! of an admissible run whatever the threads do; everything that says so stands in `pssm_book`. The
//! type of what is under the lock names the setting of the run, for proofs alone: so what was run is
//! known to be the behaviour of its task, and is not compared with it under the lock.
//!
//! [`run_alone`] does what one worker does, without a thread, and [`finish`] goes on from where
//! workers have come until nothing more can happen or the journal is full. How a book decides, this
//! crate does not know.
#![tactic(auto)]

mod alone;
mod copies;
mod ended;
mod finishing;
mod floor;
mod gathered;
mod hall;
mod running;
mod scene;
mod seat;
mod shift;
mod words;
mod working;

pub use alone::run_alone;
pub use ended::Ended;
pub use finishing::finish;
pub use gathered::Gathered;
pub use pssm_book::Book;
pub use running::run_workers;
