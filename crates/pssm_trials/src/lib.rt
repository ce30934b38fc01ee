//! What programs share whose rows are code.
//!
//! A row answers a [`Failure`] where it does not hold: [`same`], [`same_number`], [`surely`] and [`came`] make one.
//! [`told`] writes what became of a row, and [`status_of`] says by a status whether all hold. [`BOTH`] is a model of two
//! regions that change one variable; [`setting_of`] and [`stimuli_of`] make of a model what a run of it begins with. This
//! crate knows no book and no worker.
#![tactic(auto)]

mod failure;
mod models;
mod telling;

pub use failure::{Failure, came, same, same_number, surely};
pub use models::{BOTH, setting_of, stimuli_of};
pub use telling::{status_of, told};
