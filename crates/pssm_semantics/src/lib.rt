//! What happens in a run: the types of behaviours, entries and settings, what a behaviour is worth, and the rules.
//!
//! The definitions that speak of entries stand in this crate's `specs/`: what a journal says of an object, the items
//! of a step and their order, the rules of a run, the verdict on a journal, and when a setting is proper and well
//! formed; the laws about them in its `proofs/`. How a behaviour, a model or a journal is spelled is for the crates
//! above.
#![tactic(auto)]

mod args;
mod changing;
mod copies;
mod entry;
mod equal;
mod line;
mod making;
mod running;
mod setting;
mod shared;
mod stimulus;
mod tree;
mod trees;
mod value;
mod worked;

pub use args::Args;
pub use changing::change_store;
pub use entry::{Entry, ObjectId, Out, Rule};
pub use line::{Line, LineOut};
pub use making::makes;
pub use setting::{Class, Names, ObjectDecl, Outcome, Program, Setting, SignalDecl, VarDecl};
pub use shared::Shared;
pub use stimulus::{Stimulus, Task};
pub use tree::{Act, Cond, Expr, Rel, Stmt};
pub use value::truth;
pub use worked::{Worked, outcome, run};
