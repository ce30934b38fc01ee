//! What can be wrong with an element.

/// Why an element is not read, in the order in which one of several comes (this profile's choice).
#[derive(Clone, Copy, PartialEq, Eq)]
pub enum Unread {
    /// The root is no model and no package, and has not exactly one of these in it.
    Root,
    /// What it stands for is in another file.
    Href,
    /// A State with a submachine or with a connection.
    Submachine,
    /// An event, but not that a signal came.
    Event,
    /// An element of a type that is not read.
    OtherType,
    /// More than one where one can be.
    Several,
    /// A text in another language.
    Language,
    /// A name that an earlier element of the kind has.
    DoubleName,
    /// A name of more than 64 bytes.
    LongName,
    /// A value that spells none of those that can stand there.
    Value,
    /// One more than there can be.
    TooMany,
}

/// What an element lacks, in the order in which one of several comes (this profile's choice).
#[derive(Clone, Copy, PartialEq, Eq)]
pub enum Owed {
    /// `xmi:type`.
    Type,
    /// `source`.
    Source,
    /// `target`.
    Target,
    /// `event`.
    Event,
    /// `signal`.
    Signal,
    /// `xmi:id`.
    Id,
}

/// What is wrong with an element, in the order in which one of several comes (this profile's choice).
#[derive(Clone, Copy, PartialEq, Eq)]
pub enum Flaw {
    /// An earlier element has its id.
    DoubleId,
    /// It is not read.
    Unsupported(Unread),
    /// It lacks what it needs.
    Missing(Owed),
}
