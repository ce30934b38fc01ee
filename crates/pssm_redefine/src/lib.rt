//! Machines that extend others, flattened: the machine of a class with all that it inherits, as one machine.
//!
//! What an element of a machine has become is what `pssm_heritage` knows. This crate gathers the forms of each element,
//! and puts them together: which form gives its label, its behaviours, its guard, its target. `flatten` does so where
//! no element breaks a rule of redefinition, and which do is what `pssm_breaches` knows. The definitions stand in
//! `specs/`. This crate reads no text of a behaviour.
#![tactic(auto)]

mod bodies;
mod defers;
mod flattening;
mod forms;
mod gathering;
mod groups;
mod laws;
mod machine;
mod numbered;
mod parts;
mod slots;
mod transitions;
mod variables;
mod vertices;

pub use flattening::flatten;
pub use laws::{flat_or_fault, one_flat, some_flat};
