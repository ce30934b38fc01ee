//! Public calls that take the setting of a model's text, each once on its happy path, with memory enough: lines and their
//! entries, the judge, and the program's own call. What no clause says is that they answer something else than want of
//! memory.
//!
//! This crate has tests alone, as `pssm_happy_paths` has for the crates below these.
#![tactic(auto)]

#[cfg(test)]
mod tests;
