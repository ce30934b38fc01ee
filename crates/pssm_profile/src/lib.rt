//! What is wrong with the elements of a model file, before any reference is followed: which faults each element has by
//! its role, and which fault comes.
//!
//! The definitions stand in `specs/`: what is counted (`Counts`), which elements are variables, signals, classes and
//! objects (`Kinds`), which faults an element has (`Flaws`), and the one that comes (`Faults`). The calls answer
//! questions of one element. Whether a name is doubled and whether there are too many of a kind is counted by
//! `pssm_tally`, and the flaw of a file that comes first is found by `pssm_flaws`.
#![tactic(auto)]

mod asking;
mod counting;
mod fault;
mod flaw;
mod lacking;
mod laws;
mod naming;
mod number;
mod order;
mod reading;
mod referring;
mod roles;
mod saying;
mod several;
mod texts;
mod values;
mod variables;

pub use asking::{
    is_missing, is_other_root, is_unread_elsewhere, is_unread_language, is_unread_several,
    is_unread_submachine, is_unread_type, is_unread_value,
};
pub use counting::is_called;
pub use fault::XmiFault;
pub use flaw::{Flaw, Owed, Unread};
pub use laws::one_flaw_comes;
pub use naming::has_own_long_name;
pub use order::fault_of;
pub use texts::choice_of;
pub use variables::is_variable;
