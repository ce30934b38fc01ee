//! How the program ends.

/// The exit status of the program: 0 accepted, a run that ended where nothing more can happen, a
/// model that is well formed, or its flat text; 1 refused, 2 usage, 3 model refused, 4 a fault in
/// the text of a journal, 5 read fault, 6 write fault, 7 want of memory, 8 limit, 9 too large (this
/// profile's choice).
#[derive(Clone, Copy, PartialEq, Eq)]
pub struct Status {
    pub code: u8,
}
