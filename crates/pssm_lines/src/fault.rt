//! What is wrong with the text of a journal.

/// The first fault of a journal's text. Lines are counted from 1, the first line of the text included, and bytes
/// of a line from 1 (this profile's choice).
#[derive(Clone, Copy, PartialEq, Eq, Debug)]
pub enum LineFault {
    /// What stands before this byte of the line begins a line of the grammar, and with it does not.
    BadLine { line: u32, byte: u32 },
    /// 65,536 bytes of the line begin a line of the grammar, and the next one is no line feed.
    LongLine { line: u32 },
    /// The text ends within this line, or has no bytes.
    NoEnd { line: u32 },
}
