//! Kinds of elements, and rules of redefinition.

/// The kinds of elements that may redefine others (UML 2.5.1, 14.3.3): regions, vertices and transitions.
#[derive(Clone, Copy, PartialEq, Eq)]
pub enum ElementKind {
    Region,
    Vertex,
    Transition,
}

/// A rule of redefinition, in the order in which they are asked of an element (UML 2.5.1, 14.3.3; the order is this
/// profile's choice).
///
/// `NotInherited`: the element named is inherited, at the corresponding place and of the same
/// kind. `Twice`: a machine redefines an element once. `Leaf`: it has not become a leaf.
/// `ChangedSource` and `ChangedTriggers`: a transition keeps its source, and its triggers where it
/// lists any.
#[derive(Clone, Copy, PartialEq, Eq)]
pub enum RedefRule {
    NotInherited,
    Twice,
    Leaf,
    ChangedSource,
    ChangedTriggers,
}
