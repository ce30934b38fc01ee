//! The draft of a model file: its signals, machines, active classes and objects, numbered as the file has them, with
//! what each element refers to; or the first fault of the file.
//!
//! `read_xmi` puts together what the crates below find: the elements of the text, the first flaw of these, the first
//! reference that means nothing, the first count that passes a limit, and the draft. The definitions stand in `specs/`.
//! This crate knows nothing of how machines are flattened, nor of what the texts of behaviours and guards say.
#![tactic(auto)]

mod fitting;
mod last;
mod laws;
mod reading;

pub use laws::{one_answer, ordered_document, some_answer, sound_draft};
pub use reading::read_xmi;
