//! What the draft says of each element of a model file without faults.
//!
//! The definitions stand in `specs/`: the texts of behaviours and guards (`Texts`), vertices, transitions and regions
//! (`Elements`), and the first values of variables (`FirstValues`). Each is computed of any file, and says what the file
//! means where it has no fault. This crate knows nothing of faults.
#![tactic(auto)]

mod behaviours;
mod bodies;
mod guards;
mod saying;

pub use behaviours::behaviour_named;
pub use guards::guard_of;
pub use saying::{first_value, kind_of, label_of, transition_kind};
