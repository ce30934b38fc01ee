//! What the texts of a flattened machine say: the program of its class, or the first body with a fault.
//!
//! A text is read twice: in the order of the file for its first fault, and in the order of the flat text for the numbers
//! of behaviours, guards and marks. The definitions stand in `specs/`. This crate knows nothing of model files, nor of
//! machines that extend others.
#![tactic(auto)]

mod body_fault;
mod elements;
mod first;
mod fitting;
mod laws;
mod numbered;
mod reading;
mod slot;
mod slots;
mod texts;

pub use body_fault::BodyFault;
pub use fitting::programs_fit;
pub use laws::{one_outcome, some_outcome};
pub use reading::{Programmed, read_bodies};
