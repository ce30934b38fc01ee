//! Which elements of a model file make the lists of its draft, and which elements references mean.
//!
//! A `File` is the elements of a text with their ids and roles as one value, and a `Numbering` has its lists and the
//! place of each element in them. The definitions stand in `specs/`: the lists and their places (`Numbering`), the
//! kinds of elements (`Kinds`), the lists of a state machine (`Lists`), and what attributes and references say
//! (`Meanings`). This crate knows nothing of what the draft says of each element.
#![tactic(auto)]

mod file;
mod groups;
mod kinds;
mod laws;
mod listing;
mod machines;
mod meanings;
mod numbering;

pub use file::File;
pub use groups::ListKind;
pub use kinds::{Kind, is_any_state, is_of};
pub use laws::{known_roles, one_notion_of_variable};
pub use listing::{children_of_kind, with_kind};
pub use meanings::{
    behaviour_of, class_of_instance, is_variable, meant, meant_with, redefined_vertex,
    signal_of_trigger,
};
pub use numbering::Numbering;
