//! The flat form of a model: a text of lines, read exactly and written back.
//!
//! The one text of a setting stands in this crate's `specs/`, and what is read is spelled so.
//! This crate knows nothing of files, journals or runs.
#![tactic(auto)]

mod action;
mod behaviours;
mod block;
mod closing;
mod declared;
mod elements;
mod fault;
mod head;
mod laws;
mod line;
mod numbering;
mod outline;
mod parts;
mod pieces;
mod places;
mod reading;
mod refusal;
mod rows;
mod signals;
mod vocabulary;
mod words;
mod writing;

pub use fault::FlatFault;
pub use laws::read_settings;
pub use reading::{one_reading, read_flat};
pub use writing::write_flat;
