//! Public calls of the other crates, each once on its happy path, with memory enough: what no clause says is that they
//! answer something else than want of memory. Besides, inputs and sinks that fail, files of the system, and machines
//! that no text spells (owners of a wrong sort, no region, a final state that behaves, numbers past those of a text).
//!
//! What a text can say is shown by the rows of `pssm_rows`. This crate has tests alone, so that the crates that it tries
//! are proved once; those of the crates that read a whole text stand in `pssm_happy_journals`.
#![tactic(auto)]

#[cfg(test)]
mod tests;
