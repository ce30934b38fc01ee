//! The draft of a model file without faults, list by list.
//!
//! The definition of the draft stands in `specs/Drafts.antt`; `specs/Fitting.antt` says what a file keeps to that has
//! one. This crate knows how the lists are filled; what the draft says of each text and attribute `pssm_parts` knows.
#![tactic(auto)]

mod classes;
mod draft;
mod elements;
mod machines;
mod objects;
mod places;
mod signals;
mod waiting;

pub use draft::draft_of;
