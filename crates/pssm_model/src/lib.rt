//! State machines as data: places and what owns them, transitions, and the parts of a step.
//!
//! The definitions of UML's state machines that speak of a machine alone stand in this crate's `specs/`:
//! what lies where, routes, legs, firing sets and the rules that a model keeps.
//! This crate knows nothing of variables, signals' arguments, objects or journals.
#![tactic(auto)]

mod boxed;
mod depths;
mod draft_setting;
mod duplicate;
mod elements;
mod forest;
mod ids;
mod index;
mod listing;
mod machine;
mod row;
mod same;
mod shape;
mod steps;
mod text;

pub use boxed::Boxed;
pub use draft_setting::{
    Body, Draft, DraftClass, DraftObject, DraftParts, DraftSignal, DraftVar, ElementRef, End,
    FlatDraft, PartConnection, PartGuard, PartRegion, PartTransition, PartVertex,
};
pub use duplicate::Duplicate;
pub use elements::{
    DraftMachine, Element, FaultPlace, Guard, Owner, Shape, TransKind, Transition, Vertex,
    VertexKind,
};
pub use ids::{ActId, GuardId, MarkId, RegionId, SignalId, TransId, VertexId};
pub use machine::Machine;
pub use row::Row;
pub use same::Same;
pub use steps::{Event, Firing, How, Item, Mode, Route};
pub use text::Text;
