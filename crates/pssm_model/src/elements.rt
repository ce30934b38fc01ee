//! The parts of a state machine as plain data, and what can be wrong with their shape.
ghost use Rattle.std.specs.Prelude.{◌≡◌};
ghost use Rattle.pssm_model.specs.declared.elements.Shape.TheVariants.{NoMemory};

use crate::ids::{ActId, GuardId, RegionId, SignalId, TransId, VertexId};
use crate::row::Row;
use crate::text::Text;
use std::alloc::AllocError;

/// What owns a region or a vertex: the machine (`Top`), a region, or a State
/// (UML 2.5.1, 14.2.3.2 and 14.2.3.7).
#[derive(Clone, Copy, PartialEq, Eq)]
pub enum Owner {
    Top,
    Region(RegionId),
    State(VertexId),
}

/// The guard of a transition: none, `else`, or one of the class's guards (UML 2.5.1, 14.2.3.8).
#[derive(Clone, Copy, PartialEq, Eq)]
pub enum Guard {
    Always,
    Otherwise,
    When(GuardId),
}

/// The kind of a transition (UML 2.5.1, 14.2.3.8 and 14.5.12).
#[derive(Clone, Copy, PartialEq, Eq)]
pub enum TransKind {
    External,
    Local,
    Internal,
}

/// The kind of a vertex: a State, a final state, or a kind of pseudostate
/// (UML 2.5.1, 14.2.3.4 to 14.2.3.7 and 14.5.7).
#[derive(Clone, Copy, PartialEq, Eq)]
pub enum VertexKind {
    State,
    Final,
    Initial,
    DeepHistory,
    ShallowHistory,
    Join,
    Fork,
    Junction,
    Choice,
    EntryPoint,
    ExitPoint,
    Terminate,
}

/// A vertex, with the behaviours and deferred signals of a State (UML 2.5.1, 14.2.3.4).
///
/// `steps` is the do-activity, one behaviour a step (this profile's choice), and `defers` lists the
/// signals that the State defers (UML 2.5.1, 14.2.3.4, deferred events).
#[derive(PartialEq, Eq, Drop)]
pub struct Vertex {
    pub owner: Owner,
    pub kind: VertexKind,
    pub label: Text,
    pub entry: ActId,
    pub exit: ActId,
    pub steps: Row<ActId>,
    pub defers: Row<SignalId>,
}

/// A transition (UML 2.5.1, 14.2.3.8).
#[derive(PartialEq, Eq, Drop)]
pub struct Transition {
    pub source: VertexId,
    pub target: VertexId,
    pub kind: TransKind,
    pub triggers: Row<SignalId>,
    pub guard: Guard,
    pub effect: ActId,
}

/// What a model says of a machine, before it is known to have the shape of one.
///
/// A region is given by what owns it. Regions, vertices and transitions are numbered by their places.
#[derive(PartialEq, Eq, Drop)]
pub struct DraftMachine {
    pub regions: Row<Owner>,
    pub vertices: Row<Vertex>,
    pub transitions: Row<Transition>,
}

/// A region, vertex or transition of a machine.
#[derive(Clone, Copy, PartialEq, Eq)]
pub enum Element {
    Region(RegionId),
    Vertex(VertexId),
    Transition(TransId),
}

/// Where a machine breaks a rule of models: at the machine as a whole, or at an element.
#[derive(Clone, Copy, PartialEq, Eq)]
pub enum FaultPlace {
    Top,
    At(Element),
}

/// Why a draft is no machine.
///
/// `BadOwner`: an owner is of the wrong kind or out of range, or the owner chain does not end at the machine.
/// `BadEnd`: an end of the transition is no vertex. `TooMany`: the element stands past the limit of its kind.
/// `TooDeep`: more than 32 regions stand on its owner chain.
#[derive(Clone, Copy, PartialEq, Eq)]
pub enum Shape {
    BadOwner(Element),
    BadEnd(Element),
    TooMany(Element),
    TooDeep(Element),
    NoMemory,
}

impl From<AllocError> for Shape {
    ghost from_gives = { λ _ e. e ≡ NoMemory };

    fn from(_e: AllocError) -> Shape {
        Shape::NoMemory
    }
}
