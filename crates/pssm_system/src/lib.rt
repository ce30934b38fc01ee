//! The journal of an admissible run of a setting, the first rule that a further entry breaks, and an
//! entry that breaks none.
//!
//! This crate knows which objects a setting has, which signals wait for each of them, and in which order
//! the signals of a journal are numbered; which of them an object defers, the object says. A [`Follower`]
//! keeps what a further entry is judged by, and no entry; a [`System`] keeps the entries beside it, and
//! looks at none of them again. The crate knows nothing of the inside of a step.
#![tactic(auto)]

mod choosing;
mod deferring;
mod entries;
mod follower;
mod judging;
mod laws;
mod pooling;
mod situation;
mod stepping;
mod system;
mod tasks;

pub use follower::Follower;
pub use laws::{every_journal_completes, every_journal_keeps};
pub use system::System;
