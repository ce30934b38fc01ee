//! The setting of a draft: the machine of each class flattened, the texts of its behaviours and guards read, and its
//! shape asked for; or why the first class that fails gives none.
//!
//! The definitions stand in `specs/`. This crate knows nothing of files, and does not ask for the rules of models.
#![tactic(auto)]

mod classes;
mod fault;
mod flats;
mod laws;
mod once;
mod proper;
mod whole;

pub use fault::DraftFault;
pub use laws::{one_setting, some_setting};
pub use proper::proper_setting;
pub use whole::setting_of;
