//! Which rule of redefinition an element breaks first, where a machine extends others, and which element is the
//! first that breaks one.
//!
//! What an element has become is what `pssm_heritage` knows. The definitions stand in `specs/`.
#![tactic(auto)]

mod breach;
mod breaches;
mod elements;
mod firsts;
mod keeping;
mod latest;
mod laws;
mod order;
mod places;
mod walk;

pub use breach::{Breach, fault_of};
pub use breaches::broken_by;
pub use laws::{one_breach, one_fault, some_fault};
pub use walk::first_breach;
