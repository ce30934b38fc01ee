//! `Role`: what an element of a model file is.
ghost use Rattle.std.specs.Prelude.{◌≡◌};
ghost use Rattle.pssm_roles.specs.Roles as roles;

/// What an element of a model file is (which roles are read is this profile's choice).
#[derive(Clone, Copy, PartialEq, Eq)]
pub enum Role {
    /// `xmi:XMI` as the root.
    Wrapper,
    /// Any other root that is no package.
    OtherRoot,
    /// `uml:Model` or `uml:Package`, and the packages inside.
    Package,
    /// A class whose behaviour is a state machine that it owns.
    ActiveClass,
    /// Any other class.
    OtherClass,
    /// A state machine that is a packaged element: class and machine at once.
    ClassMachine,
    /// A state machine that a class owns.
    Machine,
    /// A signal.
    Signal,
    /// An attribute of a signal.
    Parameter,
    /// The event that a signal came.
    SignalEvent,
    /// An instance specification.
    Instance,
    /// An attribute of an active class, a variable or not.
    Attribute,
    /// The default value of such an attribute, whatever its type.
    Default,
    /// A region.
    Region,
    /// A State.
    State,
    /// A final State.
    FinalState,
    /// A pseudostate.
    Pseudostate,
    /// A subvertex of another type or of none.
    OtherVertex,
    /// A connection point of a State.
    ConnectionPoint,
    /// A transition.
    Transition,
    /// A trigger of a transition, or one that a State defers.
    Trigger,
    /// A guard: a `guard` child, or a rule that the guard of its transition names.
    Guard,
    /// A rule that the guard of its transition does not name.
    IdleRule,
    /// The value of a guard as a text.
    Expression,
    /// The value of a guard as a literal.
    Literal,
    /// The value of a guard of another type or of none.
    OtherValue,
    /// An opaque behaviour: of entry, exit, do or effect.
    Behaviour,
    /// Such a behaviour of another type or of none.
    OtherBehaviour,
    /// The language of a behaviour or of an expression.
    Language,
    /// The body of a behaviour or of an expression.
    Body,
    /// A child that refers to an element.
    Reference,
    /// A submachine or a connection of a State.
    Submachine,
    /// What is passed over.
    Passed,
}

impl Role {
    /// Whether it is read: what is asked of elements that are read is asked of it, and it may have no `href` (this
    /// profile's choice).
    pub fn is_read(self) -> bool
        ensures { result ≡ roles.is_read self }
    {
        !matches!(
            self,
            Role::OtherRoot | Role::Wrapper | Role::Submachine | Role::IdleRule | Role::Passed
        )
    }

    /// Whether it needs an `xmi:id` (this profile's choice). An attribute of a class that is no variable is passed
    /// over, which its role does not tell.
    pub fn needs_id(self) -> bool
        ensures { result ≡ roles.needs_id self }
    {
        match self {
            Role::IdleRule => true,
            Role::OtherClass | Role::Reference => false,
            Role::Language | Role::Body | Role::Default => false,
            Role::Expression | Role::Literal | Role::OtherValue => false,
            _ => self.is_read(),
        }
    }
}
