//! Which references of a model file must mean what, and the first that does not.
//!
//! `first_unmet` is asked of a file in which nothing else is wrong. The definitions stand in
//! `specs/`: what each reference may mean (`References`), and which of several faults comes
//! (`Unmet`). This crate knows nothing of the draft that a file has.
#![tactic(auto)]

mod finding;
mod following;
mod laws;
mod meaning;
mod unmet;

pub use finding::first_unmet;
pub use laws::one_is_first;
pub use unmet::Unmet;
