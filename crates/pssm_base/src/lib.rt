//! The outside of the program.
//!
//! What is read comes through [`Inputs`], and what is written goes through [`Sink`]. Each says in its contract
//! what it holds or has taken, where that is told, which calls it has answered, where these are kept, and how
//! often it has failed. So code over them can promise that a fault is never its own, and that its answer is that
//! of the bytes that it was given.
#![tactic(auto)]

mod calls;
mod fault;
mod files;
mod gate;
mod inputs;
mod mem_inputs;
mod mem_sink;
mod noted;
mod real;
mod sink;
mod sure;
mod whole;

pub use fault::{Failed, NoMemory, WholeFault};
pub use gate::Gate;
pub use inputs::Inputs;
pub use mem_inputs::MemInputs;
pub use mem_sink::MemSink;
pub use real::{FileInputs, StdoutSink};
pub use sink::{Sink, put_all};
pub use sure::{SureInputs, SureSink};
pub use whole::read_whole;
