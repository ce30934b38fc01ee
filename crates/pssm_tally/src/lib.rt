//! The names and the numbers of the signals, active classes and objects of a model file, as its elements go by.
//!
//! A `Tally` knows what came before an element. It answers whether the name of the element is doubled, and whether
//! there are too many of its kind. Two more calls say of which kind an element is, and whether its name is too long.
//! What repeats a name and what passes a limit stands in the definitions of flaws; what a tally knows stands in
//! `specs/`.
#![tactic(auto)]

mod counted_kind;
mod laws;
mod names;
mod objects;
mod parameters;
mod roles;
mod tally;

pub use counted_kind::{CountedKind, has_long_name, kind_of};
pub use laws::one_kind;
pub use tally::Tally;
