//! Which flaw an element of a model file has first, before any reference is followed, and which flaw
//! of a file comes.
//!
//! The flaws and their order stand in `pssm_profile`. Whether the name and the number of an element
//! are flaws is told by who counts (`specs/inner/Told`). `checked` asks every element of a file, and has a
//! tally count.
#![tactic(auto)]

mod counted;
mod first;
mod pass;
mod places;

pub use pass::checked;
