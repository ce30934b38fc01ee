//! What a machine inherits from the machines that it extends: of which machines it is made, and which element of the
//! flattened machine each of their elements has become.
//!
//! The definitions stand in `specs/`. Whether redefinitions keep the rules is what `pssm_breaches` asks. This crate knows
//! nothing of how texts, variables and bodies are joined.
#![tactic(auto)]

mod chain;
mod elements;
mod fault;
mod heritage;
mod kinds;
mod laws;
mod numbers;

pub use elements::{count_of, redefined_by, region_at, transition_at, vertex_at};
pub use fault::RedefFault;
pub use heritage::Heritage;
pub use kinds::{ElementKind, RedefRule};
pub use laws::{one_chain, one_form, some_lineage};
