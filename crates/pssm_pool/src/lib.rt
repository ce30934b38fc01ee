//! The pools of waiting signals of all objects (UML 2.5.1, 14.2.3.9, event pool).
//!
//! For each object the signals that wait for it, in the order in which they came. A signal comes as the last of its
//! pool, and any that waits may be taken. This crate knows nothing of machines, of what is deferred, or of journals.
#![tactic(auto)]

mod alike;
mod front;
mod numbers;
mod pools;

pub use pools::{Pools, Waiting};
pub use pssm_links::SlotId;
