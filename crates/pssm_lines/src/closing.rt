//! Whether bytes begin a line of the grammar: some short text ends it.
ghost use Rattle.std.specs.Prelude.{◌≡◌, ◌<◌, ◌↔◌, [], ◌++◌, slice_index_or, IfOk, IsTrue};
ghost use Rattle.pssm_lines.specs.Faults.{Begins, BeginsLine};
ghost use Rattle.pssm_lines.specs.inner.Lines.{IsWholeLine, IsEndedBy, are_alike, samples};

use crate::line::line_at;
use std::alloc::{AllocError as NoMemory, Global};

/// The first line of each journal, with its line feed (this profile's choice).
pub const HEADER: &[u8] = b"pssm-journal 1\n";

// How many sample lines there are.
const SAMPLES: u8 = 12;

// Lines of which some end makes a whole line of any bytes that begin one.
fn sample_line(number: u8) -> &'static [u8]
    requires { number < 12 }
    ensures { result.now ≡ slice_index_or samples number [] }
{
    match number {
        0 => b"post a.a(1,1)\n",
        1 => b"start a\n",
        2 => b"take a 1 t1+t1,t1 t1+t1,t1\n",
        3 => b"done a v1 t1+t1,t1 t1+t1,t1\n",
        4 => b"exit a v1 >a.a(1,1)\n",
        5 => b"effect a t1 >a.a(1,1)\n",
        6 => b"enter a v1 >a.a(1,1)\n",
        7 => b"open a r1 default by t1+t1,t1\n",
        8 => b"open a r1 shallow state v1\n",
        9 => b"open a r1 deep none\n",
        10 => b"pick a v1 t1+t1,t1\n",
        _ => b"do a v1 1 >a.a(1,1)\n",
    }
}

// Whether the front and the end are a line with its line feed.
fn is_whole(alloc: Global, front: &[u8], end: &[u8]) -> Result<bool, NoMemory>
    ensures { IfOk result (λ b. IsTrue b ↔ IsWholeLine (front.now ++ end.now)) }
{
    let mut text = Vec::from_slice(alloc, front)?;
    text.extend_from_slice(end)?;
    match line_at(alloc, text.as_slice())? {
        Some((_, rest)) => Ok(rest.is_empty()),
        None => Ok(false),
    }
}

// Whether some end of the sample makes a line of the front.
fn is_ended_by(alloc: Global, front: &[u8], sample: &[u8]) -> Result<bool, NoMemory>
    ensures { IfOk result (λ b. IsTrue b ↔ IsEndedBy front.now sample.now) }
{
    for cut in 0..sample.len() + 1 {
        let (_, end) = sample.split_at(cut);
        if is_whole(alloc, front, end)? {
            return Ok(true);
        }
    }
    Ok(false)
}

// Whether the first bytes are the same, where there are any.
fn begin_alike(bytes: &[u8], sample: &[u8]) -> bool
    ensures { result ≡ are_alike bytes.now sample.now }
{
    match (bytes, sample) {
        ([b, ..], [s, ..]) => b == s,
        _ => true,
    }
}

// Whether the bytes begin a line of the grammar, its line feed counted.
fn begins_line(alloc: Global, bytes: &[u8]) -> Result<bool, NoMemory>
    ensures { IfOk result (λ b. IsTrue b ↔ BeginsLine bytes.now) }
{
    for number in 0..SAMPLES {
        let sample = sample_line(number);
        if begin_alike(bytes, sample) && is_ended_by(alloc, bytes, sample)? {
            return Ok(true);
        }
    }
    Ok(false)
}

/// Whether the bytes begin what may stand there: the first line of the text, or any line once that has begun.
pub fn begins(alloc: Global, begun: bool, bytes: &[u8]) -> Result<bool, NoMemory>
    ensures { IfOk result (λ b. IsTrue b ↔ Begins begun bytes.now) }
{
    if begun {
        begins_line(alloc, bytes)
    } else {
        Ok(HEADER.starts_with(bytes))
    }
}
