//! The setting of a model, whichever of the two forms its bytes have: the flat form, or a model file as an editor
//! writes it.
//!
//! `load` tells the forms apart, reads the one or the other, and asks for the rules of models. The definitions stand in
//! `specs/`. This crate knows nothing of paths, journals or runs.
#![tactic(auto)]

mod fault;
mod laws;
mod loading;
mod rules;

pub use fault::{ClassFault, LoadFault};
pub use laws::{flat_reads_back, one_load, some_load};
pub use loading::load;
