//! Numbers that name the parts of a machine, each counted from 0 in the order of the model.

/// A vertex: a State, a final state or a pseudostate (UML 2.5.1, 14.2.3.3 to 14.2.3.7).
#[derive(Clone, Copy, PartialEq, Eq, PartialOrd, Ord, Hash)]
pub struct VertexId(pub u16);

/// A region (UML 2.5.1, 14.2.3.2).
#[derive(Clone, Copy, PartialEq, Eq, PartialOrd, Ord, Hash)]
pub struct RegionId(pub u16);

/// A transition (UML 2.5.1, 14.2.3.8).
#[derive(Clone, Copy, PartialEq, Eq, PartialOrd, Ord, Hash)]
pub struct TransId(pub u16);

/// A signal of the setting (UML 2.5.1, 10.3.3).
#[derive(Clone, Copy, PartialEq, Eq, PartialOrd, Ord, Hash)]
pub struct SignalId(pub u16);

/// A behaviour of the class. Number 0 is the empty behaviour, which stands where there is none.
#[derive(Clone, Copy, PartialEq, Eq, PartialOrd, Ord, Hash)]
pub struct ActId(pub u16);

/// A guard of the class (UML 2.5.1, 14.2.3.8).
#[derive(Clone, Copy, PartialEq, Eq, PartialOrd, Ord, Hash)]
pub struct GuardId(pub u16);

/// A mark: a name that a behaviour writes into the journal (this profile's choice).
#[derive(Clone, Copy, PartialEq, Eq, PartialOrd, Ord, Hash)]
pub struct MarkId(pub u16);
