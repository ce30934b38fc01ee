//! `Target`: which references of an element are followed, and what each may mean.
ghost use Rattle.std.specs.Prelude.{◌≡◌, map};
ghost use Rattle.pssm_roles.specs.declared.role.Role.TheVariants as Role;
ghost use Rattle.pssm_unmet.specs.References as references;
ghost use Rattle.pssm_unmet.specs.inner.Found.{named};

use pssm_roles::Role;

/// What a reference may mean.
#[derive(Clone, Copy, PartialEq, Eq)]
pub enum Target {
    /// Any element, also one that is passed over.
    AnyElement,
    /// A signal.
    Signal,
    /// The event of a signal.
    SignalEvent,
    /// A state machine.
    Machine,
    /// A region.
    Region,
    /// A State, a final State, a pseudostate or a connection point.
    Vertex,
    /// A transition.
    Transition,
    /// A rule of the transition whose reference it is.
    Rule,
}

// A reference that is followed: its name, and what it may mean.
#[derive(Clone, Copy)]
pub(crate) struct Followed {
    pub(crate) name: &'static [u8],
    pub(crate) target: Target,
}

// Those of a state machine that is a class (UML 2.5.1, 10.5.1 and 14.5.10).
fn of_class_machine() -> &'static [Followed]
    ensures { map named result.now ≡ references.followed_of Role.ClassMachine }
{
    &[
        Followed {
            name: b"classifierBehavior",
            target: Target::AnyElement,
        },
        Followed {
            name: b"extendedStateMachine",
            target: Target::Machine,
        },
    ]
}

// Those of a State (UML 2.5.1, 14.5.9 and 14.5.14).
fn of_state() -> &'static [Followed]
    ensures { map named result.now ≡ references.followed_of Role.State }
{
    &[
        Followed {
            name: b"redefinedState",
            target: Target::Vertex,
        },
        Followed {
            name: b"redefinedVertex",
            target: Target::Vertex,
        },
    ]
}

// Those of a transition (UML 2.5.1, 14.5.11).
fn of_transition() -> &'static [Followed]
    ensures { map named result.now ≡ references.followed_of Role.Transition }
{
    &[
        Followed {
            name: b"source",
            target: Target::Vertex,
        },
        Followed {
            name: b"target",
            target: Target::Vertex,
        },
        Followed {
            name: b"guard",
            target: Target::Rule,
        },
        Followed {
            name: b"redefinedTransition",
            target: Target::Transition,
        },
    ]
}

// The references that are followed of an element with this role (UML 2.5.1, 10.5.1, 13.4.10,
// 13.4.14, 9.9.9, 14.5.8 to 14.5.11 and 14.5.14).
pub(crate) fn followed_of(role: Role) -> &'static [Followed]
    ensures { map named result.now ≡ references.followed_of role }
{
    match role {
        Role::SignalEvent => &[Followed {
            name: b"signal",
            target: Target::Signal,
        }],
        Role::Trigger => &[Followed {
            name: b"event",
            target: Target::SignalEvent,
        }],
        Role::Instance => &[Followed {
            name: b"classifier",
            target: Target::AnyElement,
        }],
        Role::ActiveClass | Role::OtherClass => &[Followed {
            name: b"classifierBehavior",
            target: Target::AnyElement,
        }],
        Role::Machine => &[Followed {
            name: b"extendedStateMachine",
            target: Target::Machine,
        }],
        Role::Region => &[Followed {
            name: b"extendedRegion",
            target: Target::Region,
        }],
        Role::ClassMachine => of_class_machine(),
        Role::State | Role::FinalState => of_state(),
        Role::Transition => of_transition(),
        _ => &[],
    }
}
