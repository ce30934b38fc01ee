//! What stands at the front of the bytes of a journal that are still to be read.
ghost use Rattle.std.specs.Prelude.{◌≡◌, ◌+◌, ◌<◌, ◌≤◌, ◌∷◌, ◌++◌, take, drop, length, IfOk, IsTrue};
ghost use Rattle.std.specs.List.{prefix_len};
ghost use Rattle.pssm_lines.specs.Faults.{is_no_feed, HasNoFeed, Begins};
ghost use Rattle.pssm_lines.specs.Reading.{IsFront};
ghost use Rattle.pssm_lines.specs.inner.Lines.{HasNoWholeLine};

use crate::closing::{HEADER, begins};
use crate::fault::LineFault;
use crate::line::line_at;
use crate::parts::LineParts;
use pssm_spelling::strip;
use std::alloc::{AllocError as NoMemory, Global};

/// The greatest length of a line without its line feed, in bytes (this profile's choice).
pub const LINE_LEN: usize = 65_536;

/// What stands at the front of the bytes of a journal that are still to be read.
#[derive(Drop)]
pub enum Front<'a> {
    /// The first line of the text, where it is still to come.
    Header {
        rest: &'a [u8],
    },
    /// A line that may stand there.
    Line {
        parts: LineParts<'a>,
        rest: &'a [u8],
    },
    /// A line that is begun and not ended: what comes next decides.
    Open,
    /// A fault, however the bytes go on.
    Fault(LineFault),
}

// How many bytes from the first on are no line feed.
fn line_len(bytes: &[u8]) -> usize
    ensures { result ≡ prefix_len is_no_feed bytes.now }
{
    bytes.iter().take_while(|c| **c != b'\n').count()
}

// How many bytes begin a line, where all of them do not and one more than these does not.
fn lost_at(alloc: Global, begun: bool, bytes: &[u8]) -> Result<usize, NoMemory>
    requires lost { Begins begun bytes.now → ⊥ }
    ensures within { IfOk result (λ n. n < length bytes.now) }
    ensures begins { IfOk result (λ n. Begins begun (take n bytes.now)) }
    ensures stops { IfOk result (λ n. Begins begun (take (n + 1) bytes.now) → ⊥) }
{
    let mut low = 0;
    let mut high = bytes.len();
    while high - low > 1 {
        let middle = low + (high - low) / 2;
        let (front, _) = bytes.split_at(middle);
        if begins(alloc, begun, front)? {
            low = middle;
        } else {
            high = middle;
        }
    }
    Ok(low)
}

// What stands there where no whole line does.
#[cold]
#[inline(never)]
fn unread(alloc: Global, begun: bool, line: u32, bytes: &[u8]) -> Result<Front<'_>, NoMemory>
    requires { HasNoWholeLine begun bytes.now }
    ensures { IfOk result (IsFront begun line bytes.now) }
{
    let len = line_len(bytes).min(LINE_LEN);
    let (front, after) = bytes.split_at(len);
    if !begins(alloc, begun, front)? {
        let byte = lost_at(alloc, begun, front)? as u32 + 1;
        return Ok(Front::Fault(LineFault::BadLine { line, byte }));
    }
    match after {
        [] => Ok(Front::Open),
        [next, ..] => {
            if *next != b'\n' {
                return Ok(Front::Fault(LineFault::LongLine { line }));
            }
            let byte = len as u32 + 1;
            Ok(Front::Fault(LineFault::BadLine { line, byte }))
        }
    }
}

/// What stands at the front of the bytes of a journal that are still to be read.
///
/// `begun` says whether the first line of the text was read, and `number` is the number of the line that begins here.
/// A line is at most 65,536 bytes long without its line feed. It is read off the first 65,537 bytes alone, so a longer
/// one takes no more memory than the longest (no clause says so).
#[inline(always)]
pub fn front_of(
    alloc: Global,
    begun: bool,
    number: u32,
    bytes: &[u8],
) -> Result<Front<'_>, NoMemory>
    ensures { IfOk result (IsFront begun number bytes.now) }
{
    if !begun {
        return match strip(bytes, HEADER) {
            Some(rest) => Ok(Front::Header { rest }),
            None => unread(alloc, begun, number, bytes),
        };
    }
    let (near, _) = bytes.split_at(bytes.len().min(LINE_LEN + 1));
    let Some((parts, after)) = line_at(alloc, near)? else {
        return unread(alloc, begun, number, bytes);
    };
    let (_, rest) = bytes.split_at(near.len() - after.len());
    Ok(Front::Line { parts, rest })
}
