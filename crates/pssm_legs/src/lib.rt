//! What the legs of a route exit, enter and call, and in which order (UML 2.5.1, 14.2.3.8 and 14.2.3.9).
//!
//! `legs_of` cuts a route at forks, joins, entry and exit points, and goes over it once; the questions about its legs take
//! no memory. A route that is one transition takes none either. This crate knows nothing of configurations, steps or
//! behaviours.
#![tactic(auto)]

mod ahead;
mod areas;
mod asking;
mod callers;
mod entering;
mod further;
mod legs;
mod ordering;
mod path;

pub use areas::{Area, covers};
pub use asking::{calls, opens_for};
pub use further::Further;
pub use legs::{Leg, Legs, legs_of, lone_legs, lone_start};
pub use ordering::orders;
