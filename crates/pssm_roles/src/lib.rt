//! What the elements of a model file are: which element an id means, what refers to which, and the role of each.
//!
//! A role follows from the name of an element, its `xmi:type` and the role of the element in which it stands. This
//! crate knows nothing of what the values of attributes and texts say.
#![tactic(auto)]

mod asked;
mod guards;
mod ids;
mod laws;
mod references;
mod role;
mod roles;
mod settling;
mod table;

pub use ids::Ids;
pub use laws::{one_role, some_role};
pub use references::{Reference, references_of};
pub use role::Role;
pub use roles::roles_of;
