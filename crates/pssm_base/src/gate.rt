//! A place to wait before a turn.

/// Is told of each turn before it begins. A test holds workers back with it, and the program's own does nothing.
pub trait Gate {
    /// Comes before the turn with this number, from 0, of the object with this number.
    fn before(&self, object: u8, turn: u64);
}
