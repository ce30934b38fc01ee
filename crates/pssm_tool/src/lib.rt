//! The call that does what the words of the program say.
//!
//! `judge MODEL JOURNAL` says whether a journal of a state machine's run is what UML says, `run MODEL STIMULUS*` runs a
//! state machine and writes the journal, `check MODEL` says what is wrong with a model, `flat MODEL` writes its flat
//! text, and `gen N` runs a generated model and says what its journal comes to. A model is in the flat form, or a model
//! file as an editor writes it. [`pssm`] does all of it, over inputs and a sink that it is handed; its clauses are what
//! the program promises.
#![tactic(auto)]

mod answer;
mod commands;
mod failure;
mod fault_words;
mod file_refusal;
mod generated_run;
mod laws;
mod model;
mod refusal;
mod run;
mod run_words;
mod status;
mod stimuli;
mod text;
mod top;
mod words;

pub use laws::always_due;
pub use status::Status;
pub use top::pssm;
