//! Where the judging of a journal stands.
ghost use Rattle.std.specs.Prelude.{◌≡◌, false, None};

use crate::run::Stop;

/// Where the judging of a journal stands: whether the first line was read, the number of the line that comes next, and
/// at what it has ended.
#[derive(Clone, Copy)]
pub struct Place {
    pub begun: bool,
    pub line: u32,
    pub stop: Option<Stop>,
}

impl Place {
    /// Before the first line.
    pub fn first() -> Place
        ensures { result ≡ record { begun = false; line = 1; stop = None } }
    {
        Place {
            begun: false,
            line: 1,
            stop: None,
        }
    }
}

/// Bytes that are still to be read, and where the judging stands before them.
#[derive(Clone, Copy)]
pub struct Behind<'a> {
    pub rest: &'a [u8],
    pub place: Place,
}
