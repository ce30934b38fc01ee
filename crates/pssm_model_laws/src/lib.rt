//! Laws of machines that the crates of runs rest on: of legs, routes, what fires and what a step
//! calls.
//!
//! The definitions of which they speak stand in `pssm_model`; what one crate alone cites stands
//! there. This crate has no code: it stands apart so that a law can change without a new proof of
//! all that stands on the definitions.
#![tactic(auto)]
