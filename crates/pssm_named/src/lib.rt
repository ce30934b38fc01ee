//! The names in the draft of a model file without faults.
//!
//! That names are clean, short and different is asked element by element as a file is checked; this
//! crate says what that gives for the lists of the draft. It has no code but that law.
#![tactic(auto)]

mod laws;

pub use laws::named_draft;
