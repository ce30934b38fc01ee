//! Generated models: for each number a model and stimuli for it.
//!
//! What the model of a number is stands in this crate's `specs/`, as a text and as a setting.
//! This crate knows nothing of how a run is made.
#![tactic(auto)]

mod laws;
mod writing;

pub use laws::{generated_ends, generated_runs, generated_settings, generated_texts};
pub use writing::generate;
