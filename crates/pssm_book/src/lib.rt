//! A run that several workers share: what may be done next, which tasks are handed out, and what
//! came of them.
//!
//! A [`Book`] keeps a journal, the stimuli that are still to be posted, how many entries the
//! journal may have, and which tasks are handed out. [`Book::claim`] goes on by one entry that runs
//! no behaviour, or hands out a task. The behaviour is run elsewhere, and [`Book::commit`] takes
//! what it made, where the object still has the values that it was run on. However many workers
//! claim and commit, and in whatever order, the journal is that of an admissible run.
//!
//! The crate knows no thread and no lock: who shares a book puts a lock round it. What may follow,
//! `pssm_system` says.
#![tactic(auto)]

mod answers;
mod behaviours;
mod book;
mod choosing;
mod claiming;
mod claims;
mod committing;
mod comparing;
mod counts;
mod desk;
mod handing;

pub use answers::{Claimed, Committed, Job};
pub use book::Book;
pub use counts::{is_full, out_count, post_count};
pub use pssm_semantics::{Stimulus, Task};
