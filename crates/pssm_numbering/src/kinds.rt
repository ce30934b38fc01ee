//! `Kind`: the kinds of elements that make lists.
ghost use Rattle.std.specs.Prelude.{◌≡◌};
ghost use Rattle.pssm_numbering.specs.Kinds as kinds;

use pssm_roles::Role;

/// A kind of elements that make a list.
#[derive(Clone, Copy, PartialEq, Eq)]
pub enum Kind {
    /// A signal.
    Signal,
    /// A parameter of a signal.
    Parameter,
    /// The event of a signal.
    SignalEvent,
    /// A state machine.
    Machine,
    /// An active class.
    Class,
    /// An attribute of an active class.
    Attribute,
    /// An instance specification.
    Instance,
    /// A region.
    Region,
    /// A State, a final State, a pseudostate or a connection point.
    Vertex,
    /// A transition.
    Transition,
    /// A trigger.
    Trigger,
    /// A guard.
    Guard,
}

/// Whether an element with this role is of the kind.
pub fn is_of(kind: Kind, role: Role) -> bool
    ensures { result ≡ kinds.is_of kind role }
{
    match kind {
        Kind::Signal => role == Role::Signal,
        Kind::Parameter => role == Role::Parameter,
        Kind::SignalEvent => role == Role::SignalEvent,
        Kind::Machine => matches!(role, Role::Machine | Role::ClassMachine),
        Kind::Class => matches!(role, Role::ActiveClass | Role::ClassMachine),
        Kind::Attribute => role == Role::Attribute,
        Kind::Instance => role == Role::Instance,
        Kind::Region => role == Role::Region,
        Kind::Vertex => is_vertex(role),
        Kind::Transition => role == Role::Transition,
        Kind::Trigger => role == Role::Trigger,
        Kind::Guard => role == Role::Guard,
    }
}

// Whether it is the role of a vertex.
fn is_vertex(role: Role) -> bool
    ensures { result ≡ kinds.is_of Kind.Vertex role }
{
    matches!(
        role,
        Role::State | Role::FinalState | Role::Pseudostate | Role::ConnectionPoint
    )
}

/// Whether it is the role of a State or of a final State.
pub fn is_any_state(role: Role) -> bool
    ensures { result ≡ kinds.is_any_state role }
{
    matches!(role, Role::State | Role::FinalState)
}
