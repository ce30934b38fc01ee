//! Settings as a model file gives them, before machines are flattened and bodies are read.
//!
//! A `Draft` keeps each machine of the file as it stands there: its own elements, what they redefine in the machine
//! that it extends, and the texts of behaviours and guards. A `FlatDraft` is the machine of one class with all that it
//! inherits, its behaviours and guards still as texts.
//!
//! `at` is the byte, from 0, where the element begins whose `id` stands before it. Elements are numbered by their places
//! in the lists, which stand in the order of the file.

use crate::elements::{DraftMachine, Owner, TransKind, VertexKind};
use crate::ids::SignalId;
use crate::row::Row;
use crate::text::Text;

/// An element of a draft: the place of its machine, and its own place in that machine's list of its kind.
#[derive(Clone, Copy, PartialEq, Eq)]
pub struct ElementRef {
    pub machine: u32,
    pub element: u32,
}

/// The text of a behaviour, of all steps of a do-activity, or of a guard (UML 2.5.1, 8.3.3 and 13.2.3, opaque
/// expressions and opaque behaviours).
#[derive(Drop)]
pub struct Body {
    pub id: Text,
    pub at: u32,
    pub text: Text,
}

/// Signals, machines, active classes and objects as a file gives them.
#[derive(Drop)]
pub struct Draft {
    pub signals: Row<DraftSignal>,
    pub machines: Row<DraftParts>,
    pub classes: Row<DraftClass>,
    pub objects: Row<DraftObject>,
}

/// A signal and how many parameters it has (UML 2.5.1, 10.3.3). `parent` is the signal that it specializes
/// (UML 2.5.1, 9.2.3, generalization).
#[derive(Drop)]
pub struct DraftSignal {
    pub name: Text,
    pub count: u8,
    pub parent: Option<SignalId>,
}

/// An active class: the variables of its own, and the place of its machine (UML 2.5.1, 11.4 and 13.2.3, classifier
/// behaviours).
#[derive(Drop)]
pub struct DraftClass {
    pub name: Text,
    pub vars: Row<DraftVar>,
    pub machine: u32,
}

/// A variable and its first value (UML 2.5.1, 9.5.3, default values).
#[derive(Drop)]
pub struct DraftVar {
    pub name: Text,
    pub first: i64,
}

/// An object and the place of its class (UML 2.5.1, 9.8.3, instance specifications).
#[derive(Drop)]
pub struct DraftObject {
    pub name: Text,
    pub class: u8,
}

/// A machine with the elements of its own. `extends` is the machine that it extends (UML 2.5.1, 14.3.3, state machine
/// redefinition). An owner counts among the elements of this machine.
#[derive(Drop)]
pub struct DraftParts {
    pub id: Text,
    pub extends: Option<u32>,
    pub regions: Row<PartRegion>,
    pub vertices: Row<PartVertex>,
    pub transitions: Row<PartTransition>,
}

/// A region; `extends` is the region with which it is merged (UML 2.5.1, 14.3.3).
#[derive(Drop)]
pub struct PartRegion {
    pub id: Text,
    pub at: u32,
    pub owner: Owner,
    pub extends: Option<ElementRef>,
}

/// A State, a final state or a pseudostate (UML 2.5.1, 14.2.3.3 to 14.2.3.7).
///
/// `steps` is the text of the do-activity. `redefines` is the State that this one redefines (UML 2.5.1, 14.3.3), and
/// `leaf` says that it may not be redefined further (UML 2.5.1, 9.2.3, redefinition). `submachine` is the machine that the
/// State runs, and `connections` are its connection point references (UML 2.5.1, 14.2.3.4, submachine States).
#[derive(Drop)]
pub struct PartVertex {
    pub id: Text,
    pub at: u32,
    pub owner: Owner,
    pub kind: VertexKind,
    pub label: Option<Text>,
    pub entry: Option<Body>,
    pub exit: Option<Body>,
    pub steps: Option<Body>,
    pub defers: Row<SignalId>,
    pub redefines: Option<ElementRef>,
    pub leaf: bool,
    pub submachine: Option<u32>,
    pub connections: Row<PartConnection>,
}

/// A connection point reference of a submachine State, with the entry and exit points of the submachine that it stands
/// for (UML 2.5.1, 14.5.1).
#[derive(Drop)]
pub struct PartConnection {
    pub id: Text,
    pub at: u32,
    pub entries: Row<ElementRef>,
    pub exits: Row<ElementRef>,
}

/// An end of a transition: a vertex, or one of the connections of a submachine State (UML 2.5.1, 14.2.3.8).
#[derive(Clone, Copy)]
pub enum End {
    Vertex(ElementRef),
    Connection { state: ElementRef, index: u32 },
}

/// The guard of a transition: none, `else`, or a text (UML 2.5.1, 14.2.3.8).
#[derive(Drop)]
pub enum PartGuard {
    Missing,
    Otherwise,
    Given(Body),
}

/// A transition (UML 2.5.1, 14.2.3.8). `kind` is none where the file gives none. `redefines` is the transition that
/// this one redefines, and `leaf` says that it may not be redefined further (UML 2.5.1, 14.3.3).
#[derive(Drop)]
pub struct PartTransition {
    pub id: Text,
    pub at: u32,
    pub source: End,
    pub target: End,
    pub kind: Option<TransKind>,
    pub triggers: Row<SignalId>,
    pub guard: PartGuard,
    pub effect: Option<Body>,
    pub redefines: Option<ElementRef>,
    pub leaf: bool,
}

/// The machine of one class with all that it inherits (UML 2.5.1, 14.3.3).
///
/// The numbers of behaviours and guards in `machine` are places in `bodies`. Place 0 is the empty behaviour, and the
/// others stand in the order of the file. `steps` of a vertex has at most one number, that of the text of all steps.
#[derive(Drop)]
pub struct FlatDraft {
    pub vars: Row<DraftVar>,
    pub machine: DraftMachine,
    pub bodies: Row<Body>,
}
