//! One object of a run: where it stands, the first rule that a further entry of it breaks, and what it may do next.
//!
//! This crate knows an object's configuration, the plan of its last step, the values of its variables, the parameters
//! of its step, its completion queue and whether it has ended. It keeps no entry, and no pool: the signal of a take is
//! handed in with it. It knows nothing of texts.
#![tactic(auto)]

mod choosing;
mod doing;
mod ending;
mod firing;
mod judging;
mod laws;
mod object;
mod opening;
mod queue;
mod routes;
mod situation;
mod stepping;
mod tasks;
mod working;

pub use laws::{active_states, comings, entry_forms, open_steps, other_entries};
pub use object::Object;
