//! Where bodies stand in a machine, and how each is read.

/// How the text of a body is read: as one behaviour, as the do steps of a State, or as a guard.
#[derive(Clone, Copy, PartialEq, Eq)]
pub enum Reading {
    Behaviour,
    Steps,
    Guard,
}

/// A place of a machine that has a body: how it is read, and its number; 0 is that of the empty body.
#[derive(Clone, Copy)]
pub struct Slot {
    pub reading: Reading,
    pub number: u16,
}
