//! The items that a step calls, and their order (UML 2.5.1, 14.2.3.9).
//!
//! A `Plan` lists what a step calls as far as it has come, and says of each item whether it is ready.
//! This crate knows nothing of behaviours, journals or objects.
#![tactic(auto)]

mod apart;
mod calls;
mod clear;
mod direct;
mod junctions;
mod laws;
mod listing;
mod meeting;
mod near;
mod places;
mod plan;
mod progress;
mod ready;
mod roster;
mod standing;
mod waiters;
mod waiting;
mod ways;

pub use laws::{ready_items, step_length};
pub use plan::Plan;
pub use pssm_model::{How, Item, Mode};
pub use ready::ReadyItem;
pub use standing::Standing;
