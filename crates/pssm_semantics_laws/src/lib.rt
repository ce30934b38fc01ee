//! Laws of journals that the crates of runs rest on: what one more entry does to what the
//! definitions read off a journal.
//!
//! The definitions of which they speak stand in `pssm_semantics`; what one crate alone cites stands
//! there. This crate has no code: it stands apart so that a law can change without a new proof of
//! all that stands on the definitions.
#![tactic(auto)]
