//! What is told of an element by who counts.

/// Whether its name and its number are flaws of the element: told by who counts.
#[derive(Clone, Copy)]
pub struct Counted {
    /// An element before it of the same kind has its name.
    pub doubled: bool,
    /// Its name has more bytes than a name may have.
    pub long: bool,
    /// As many as there can be stand before it.
    pub many: bool,
}
