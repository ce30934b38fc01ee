//! Several doubly linked lists in one array of slots.
//!
//! A value stands in a slot, which keeps the numbers of the slots before and after it, and a slot that no
//! list uses waits in a list of its own. So a value comes as the last of its list and leaves from any place
//! in a few steps, and no memory is taken but by `new` and `reserve`. This crate knows nothing of what its
//! values mean.
#![tactic(auto)]

mod chains;
mod links;
mod slot;
mod steps;

pub use chains::Chains;
pub use slot::SlotId;
pub use steps::Steps;
