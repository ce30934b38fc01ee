//! What a step of an object is made of: the routes that fire, and the items that run.
ghost use Rattle.std.specs.Prelude.{◌≡◌, IfOk};

use crate::duplicate::Duplicate;
use crate::ids::{RegionId, SignalId, TransId, VertexId};
use crate::row::Row;
use std::alloc::{AllocError as NoMemory, Global};

/// A compound transition (UML 2.5.1, 14.2.3.8): the transitions with which it starts, and the further ones,
/// each in ascending number.
#[derive(PartialEq, Eq, Drop)]
pub struct Route {
    pub starts: Row<TransId>,
    pub rest: Row<TransId>,
}

impl Route {
    /// A second route, equal to this one.
    pub fn copy(&self, alloc: Global) -> Result<Route, NoMemory>
        ensures { IfOk result (λ other. other ≡ self.now) }
    {
        self.duplicate(alloc)
    }
}

/// The routes that fire together at a head entry (UML 2.5.1, 14.2.3.9, transition selection).
#[derive(PartialEq, Eq, Drop)]
pub struct Firing {
    pub routes: Row<Route>,
}

impl Firing {
    /// A second firing, equal to this one.
    pub fn copy(&self, alloc: Global) -> Result<Firing, NoMemory>
        ensures { IfOk result (λ other. other ≡ self.now) }
    {
        self.duplicate(alloc)
    }
}

/// What enables routes: the arrival of a signal, or the completion of a State (UML 2.5.1, 14.2.3.8 and 14.2.3.9).
#[derive(Clone, Copy, PartialEq, Eq)]
pub enum Event {
    Signal(SignalId),
    Completion(VertexId),
}

/// How a region opens: by default, or by shallow or deep history (UML 2.5.1, 14.2.3.2 and 14.2.3.7).
#[derive(Clone, Copy, PartialEq, Eq)]
pub enum Mode {
    Plain,
    Shallow,
    Deep,
}

/// What an opening does: it goes by a route, restores a State, or leaves the region empty.
#[derive(PartialEq, Eq, Drop)]
pub enum How {
    By(Route),
    Restore(VertexId),
    Nothing,
}

/// A thing that a step has to do: the exit of a State, the effect of a transition, the entry of a State,
/// the opening of a region, or the pick of a branch at a choice.
#[derive(Clone, Copy, PartialEq, Eq)]
pub enum Item {
    Exit(VertexId),
    Effect(TransId),
    Enter(VertexId),
    Opened(RegionId, Mode),
    Pick(VertexId),
}
