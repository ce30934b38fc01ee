//! The table of roles: what an element is by its name, its type and the role of the element in which it stands.
ghost use Rattle.std.specs.Prelude.{◌≡◌};
ghost use Rattle.pssm_roles.specs.Roles as roles;
ghost use Rattle.pssm_roles.specs.Roles.{row};

use crate::role::Role;

/// What a root of this name is (XMI 2.5.1, 9.4, and this profile's choice).
pub fn root_role(name: &[u8]) -> Role
    ensures { result ≡ roles.root_role name.now }
{
    if name == b"uml:Model".as_slice() {
        Role::Package
    } else if name == b"uml:Package".as_slice() {
        Role::Package
    } else if name == b"xmi:XMI".as_slice() {
        Role::Wrapper
    } else {
        Role::OtherRoot
    }
}

// What stands in `xmi:XMI`.
fn in_wrapper(name: &[u8]) -> Role
    ensures { result ≡ roles.in_wrapper name.now }
{
    if name == b"uml:Model".as_slice() {
        Role::Package
    } else if name == b"uml:Package".as_slice() {
        Role::Package
    } else {
        Role::Passed
    }
}

// What a packaged element is.
fn packaged_role(kind: &[u8]) -> Role
    ensures { result ≡ roles.packaged_role kind.now }
{
    if kind == b"uml:Package".as_slice() {
        Role::Package
    } else if kind == b"uml:Class".as_slice() {
        Role::OtherClass
    } else if kind == b"uml:StateMachine".as_slice() {
        Role::ClassMachine
    } else if kind == b"uml:Signal".as_slice() {
        Role::Signal
    } else if kind == b"uml:SignalEvent".as_slice() {
        Role::SignalEvent
    } else if kind == b"uml:InstanceSpecification".as_slice() {
        Role::Instance
    } else {
        Role::Passed
    }
}

// What stands in an element that has children of this name alone.
fn in_only(wanted: &[u8], name: &[u8], inner: Role) -> Role
    ensures { result ≡ roles.in_only wanted.now name.now inner }
{
    if name == wanted { inner } else { Role::Passed }
}

// What a behaviour is that a class owns.
fn owned_role(kind: &[u8]) -> Role
    ensures { result ≡ roles.owned_role kind.now }
{
    if kind == b"uml:StateMachine".as_slice() {
        Role::Machine
    } else {
        Role::Passed
    }
}

// What stands in a class.
fn in_class(name: &[u8], kind: &[u8], reference: Role) -> Role
    ensures { result ≡ roles.in_class name.now kind.now reference }
{
    if name == b"ownedAttribute".as_slice() {
        Role::Attribute
    } else if name == b"ownedBehavior".as_slice() {
        owned_role(kind)
    } else if name == b"classifierBehavior".as_slice() {
        reference
    } else {
        Role::Passed
    }
}

// What stands in a state machine.
fn in_machine(name: &[u8], reference: Role) -> Role
    ensures { result ≡ roles.in_machine name.now reference }
{
    if name == b"region".as_slice() {
        Role::Region
    } else if name == b"extendedStateMachine".as_slice() {
        reference
    } else {
        Role::Passed
    }
}

// What stands in a state machine that is a class too.
fn in_class_machine(name: &[u8], kind: &[u8], reference: Role) -> Role
    ensures { result ≡ roles.in_class_machine name.now kind.now reference }
{
    if name == b"region".as_slice() {
        Role::Region
    } else if name == b"extendedStateMachine".as_slice() {
        reference
    } else {
        in_class(name, kind, reference)
    }
}

// What a subvertex is.
fn vertex_role(kind: &[u8]) -> Role
    ensures { result ≡ roles.vertex_role kind.now }
{
    if kind == b"uml:State".as_slice() {
        Role::State
    } else if kind == b"uml:FinalState".as_slice() {
        Role::FinalState
    } else if kind == b"uml:Pseudostate".as_slice() {
        Role::Pseudostate
    } else {
        Role::OtherVertex
    }
}

// What stands in a region.
fn in_region(name: &[u8], kind: &[u8], reference: Role) -> Role
    ensures { result ≡ roles.in_region name.now kind.now reference }
{
    if name == b"subvertex".as_slice() {
        vertex_role(kind)
    } else if name == b"transition".as_slice() {
        Role::Transition
    } else if name == b"extendedRegion".as_slice() {
        reference
    } else {
        Role::Passed
    }
}

// What a behaviour is.
fn behaviour_role(kind: &[u8]) -> Role
    ensures { result ≡ roles.behaviour_role kind.now }
{
    if kind == b"uml:OpaqueBehavior".as_slice() {
        Role::Behaviour
    } else {
        Role::OtherBehaviour
    }
}

// What stands in a State.
fn in_state(name: &[u8], kind: &[u8], reference: Role) -> Role
    ensures { result ≡ roles.in_state name.now kind.now reference }
{
    if name == b"region".as_slice() {
        Role::Region
    } else if name == b"connectionPoint".as_slice() {
        Role::ConnectionPoint
    } else if name == b"entry".as_slice() {
        behaviour_role(kind)
    } else if name == b"exit".as_slice() {
        behaviour_role(kind)
    } else if name == b"doActivity".as_slice() {
        behaviour_role(kind)
    } else if name == b"deferrableTrigger".as_slice() {
        Role::Trigger
    } else if name == b"redefinedState".as_slice() {
        reference
    } else if name == b"redefinedVertex".as_slice() {
        reference
    } else if name == b"submachine".as_slice() {
        Role::Submachine
    } else if name == b"connection".as_slice() {
        Role::Submachine
    } else {
        Role::Passed
    }
}

// What stands in a transition.
fn in_transition(name: &[u8], kind: &[u8], reference: Role, guard: Role) -> Role
    ensures { result ≡ roles.in_transition name.now kind.now reference guard }
{
    if name == b"source".as_slice() {
        reference
    } else if name == b"target".as_slice() {
        reference
    } else if name == b"trigger".as_slice() {
        Role::Trigger
    } else if name == b"guard".as_slice() {
        guard
    } else if name == b"ownedRule".as_slice() {
        Role::IdleRule
    } else if name == b"effect".as_slice() {
        behaviour_role(kind)
    } else if name == b"redefinedTransition".as_slice() {
        reference
    } else {
        Role::Passed
    }
}

// What the value of a guard is.
fn value_role(kind: &[u8]) -> Role
    ensures { result ≡ roles.value_role kind.now }
{
    if kind == b"uml:OpaqueExpression".as_slice() {
        Role::Expression
    } else if kind == b"uml:LiteralBoolean".as_slice() {
        Role::Literal
    } else {
        Role::OtherValue
    }
}

// What stands in a behaviour or an expression.
fn in_text(name: &[u8]) -> Role
    ensures { result ≡ roles.in_text name.now }
{
    if name == b"language".as_slice() {
        Role::Language
    } else if name == b"body".as_slice() {
        Role::Body
    } else {
        Role::Passed
    }
}

/// What the table says of an element of this name and this `xmi:type` that stands in an element with the role `above`:
/// `reference` is what it is as a child that refers to elements, and `guard` what it is as a guard. An element without
/// an `xmi:type` has the empty one (UML 2.5.1, 11.4 and 14.2; which roles are read is this profile's choice).
pub fn row_of(above: Role, name: &[u8], kind: &[u8], reference: Role, guard: Role) -> Role
    ensures { result ≡ row above name.now kind.now reference guard }
{
    match above {
        Role::Wrapper => in_wrapper(name),
        Role::Package => in_only(b"packagedElement", name, packaged_role(kind)),
        Role::ActiveClass => in_class(name, kind, reference),
        Role::OtherClass => in_only(b"classifierBehavior", name, reference),
        Role::ClassMachine => in_class_machine(name, kind, reference),
        Role::Machine => in_machine(name, reference),
        Role::Signal => in_only(b"ownedAttribute", name, Role::Parameter),
        Role::SignalEvent => in_only(b"signal", name, reference),
        Role::Instance => in_only(b"classifier", name, reference),
        Role::Attribute => in_only(b"defaultValue", name, Role::Default),
        Role::Region => in_region(name, kind, reference),
        Role::State => in_state(name, kind, reference),
        Role::FinalState => in_state(name, kind, reference),
        Role::Transition => in_transition(name, kind, reference, guard),
        Role::Trigger => in_only(b"event", name, reference),
        Role::Guard => in_only(b"specification", name, value_role(kind)),
        Role::Behaviour => in_text(name),
        Role::Expression => in_text(name),
        Role::OtherRoot => Role::Passed,
        Role::Parameter => Role::Passed,
        Role::Default => Role::Passed,
        Role::Pseudostate => Role::Passed,
        Role::OtherVertex => Role::Passed,
        Role::ConnectionPoint => Role::Passed,
        Role::IdleRule => Role::Passed,
        Role::Literal => Role::Passed,
        Role::OtherValue => Role::Passed,
        Role::OtherBehaviour => Role::Passed,
        Role::Language => Role::Passed,
        Role::Body => Role::Passed,
        Role::Reference => Role::Passed,
        Role::Submachine => Role::Passed,
        Role::Passed => Role::Passed,
    }
}
