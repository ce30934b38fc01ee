//! Which machine, with all that it extends, has too many elements or bodies, and which class has too many variables.
//!
//! The definitions stand in `specs/`. This crate knows the limits of the draft of a model file, and nothing of faults.
#![tactic(auto)]

mod bodies;
mod classes;
mod counts;
mod machines;
mod names;
mod past;
mod ways;

pub use past::first_many;
