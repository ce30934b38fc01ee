//! What the values of attributes and the texts of a model file say: kinds, truth values, integers, names, labels, ids,
//! languages and bodies.
//!
//! Each call is asked of bytes alone, and answers every text. Where an attribute may be missing, the call takes an
//! `Option` and knows what a missing one means. The definitions stand in `specs/`. This crate knows nothing of
//! elements.
#![tactic(auto)]

mod blanks;
mod bodies;
mod guards;
mod ids;
mod integers;
mod kinds;
mod labels;
mod laws;
mod limits;
mod names;
mod truths;

pub use bodies::{BodyChoice, MeantBody};
pub use guards::says_else;
pub use ids::{first_id, ids_len};
pub use integers::integer;
pub use kinds::{pseudostate_kind, transition_kind, transition_of};
pub use labels::label;
pub use laws::labels_by_characters;
pub use limits::{CLASSES_AT_MOST, OBJECTS_AT_MOST, PARAMETERS_AT_MOST, SIGNALS_AT_MOST};
pub use names::{can_name_variable, clean_name, has_long_name};
pub use truths::truth;
