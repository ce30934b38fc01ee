//! What fires: which enabled routes conflict, and which of them fire together (UML 2.5.1, 14.2.3.9).
//!
//! What a route is, and which are enabled, `pssm_enabled` knows. This crate asks for the values of guards and reads
//! configurations. It knows nothing of items, signals' arguments, objects or journals.
#![tactic(auto)]

mod areas;
mod candidates;
mod completing;
mod joining;
mod late;
mod leading;
mod looking;
mod overriding;
mod pick;
mod reacting;
mod set;
mod spread;

pub use late::{check_late, pick_late};
pub use overriding::overrides;
pub use pick::pick_firing_set;
pub use pssm_enabled::check_route;
pub use pssm_model::{Event, Firing, Route};
pub use set::is_firing_set;
