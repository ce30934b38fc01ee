//! The texts of behaviours and guards: how they are read, which fault a text has, and how they are
//! written.
//!
//! What a behaviour is and what it is worth stands in `pssm_semantics`, and how a name or a number
//! is spelled in `pssm_spelling`. This crate is also the face of the action language: it gives out
//! the types and calls of `pssm_semantics` that its own calls speak of.
#![tactic(auto)]

mod act_fault;
mod acts_reader;
mod argument_reader;
mod expr_reader;
mod growing;
mod guard_reader;
mod index;
mod known;
mod marks;
mod numbers;
mod phrase_reader;
mod read_blocks;
mod reading;
mod stack;
mod terms;
mod token;
mod tokens;
mod writing;

pub use act_fault::ActFault;
pub use growing::Growing;
pub use index::{Index, Named};
pub use known::Known;
pub use marks::Marks;
pub use pssm_semantics::{
    Act, Args, Class, Cond, Entry, Expr, Line, LineOut, Names, ObjectDecl, ObjectId, Out, Outcome,
    Program, Rel, Rule, Setting, SignalDecl, Stimulus, Stmt, Task, VarDecl, Worked, run, truth,
};
pub use reading::{
    one_reading, read_act, read_act_noting, read_cond, read_cond_known, read_steps,
    read_steps_noting,
};
pub use tokens::longest_token;
pub use writing::{write_act, write_cond};
