//! The pieces of a line that repeat: each is read from the front of a text.
ghost use Rattle.std.specs.Prelude.{◌≡◌, List, ℕ, [], ◌∷◌, Option, IfOk};
ghost use Rattle.std.specs.Option.{option_map, option_copied};
ghost use Rattle.pssm_spelling.specs.SpellingReading.{stripped};
ghost use Rattle.pssm_lines.specs.inner.LineReading.{behind_first, each_taken, joined_taken, signed_taken, transition_taken, route_taken, mark_taken, send_taken, out_taken, args_taken};

use crate::signed::signed_at;
use pssm_model::{Route, Row, TransId};
use pssm_semantics::LineOut;
use pssm_spelling::{index_at, name_at};
use std::alloc::{AllocError as NoMemory, Global};

/// A piece that is read as a value.
pub trait Piece: Drop {
    ghost taken: { List ℕ → Option (Self × List ℕ) };

    /// The piece at the front of the bytes, and what follows it.
    fn read(alloc: Global, bytes: &[u8]) -> Result<Option<(Self, &[u8])>, NoMemory>
        ensures { IfOk result (λ o. option_map (λ x. (x.0, x.1.now)) o ≡ taken bytes.now) };
}

/// A piece that is passed over.
pub trait Passed: Drop {
    ghost taken: { List ℕ → Option (Self × List ℕ) };

    /// What follows the piece at the front of the bytes.
    fn pass(bytes: &[u8]) -> Option<&[u8]>
        ensures { option_copied result ≡ option_map (λ x. x.1) (taken bytes.now) };
}

/// What follows the byte, where it stands at the front.
#[inline(always)]
pub fn behind(bytes: &[u8], byte: u8) -> Option<&[u8]>
    ensures { option_copied result ≡ stripped (byte ∷ []) bytes.now }
{
    match bytes.split_first() {
        Some((first, rest)) if *first == byte => Some(rest),
        _ => None,
    }
}

/// More pieces at the end of `first`, each with a byte before it, and what follows them.
///
/// There is no answer where more than `most` of them stand there.
pub fn read_each<T: Piece>(
    alloc: Global,
    bytes: &[u8],
    before: u8,
    most: usize,
    first: Vec<T>,
) -> Result<Option<(Vec<T>, &[u8])>, NoMemory>
    ensures { IfOk result (λ o. option_map (λ x. (x.0.items, x.1.now)) o
        ≡ behind_first first.items (each_taken before T.taken most bytes.now)) }
{
    let mut items = first;
    let mut rest = bytes;
    let mut left = most;
    while let Some(after) = behind(rest, before) {
        if left == 0 {
            return Ok(None);
        }
        let Some((item, more)) = T::read(alloc, after)? else {
            return Ok(None);
        };
        items.push(item)?;
        rest = more;
        left -= 1;
    }
    Ok(Some((items, rest)))
}

/// One piece and more of them, with a byte between two, and what follows them.
pub fn read_joined<T: Piece>(
    alloc: Global,
    bytes: &[u8],
    between: u8,
    most: usize,
) -> Result<Option<(Vec<T>, &[u8])>, NoMemory>
    ensures { IfOk result (λ o. option_map (λ x. (x.0.items, x.1.now)) o ≡ joined_taken between T.taken most bytes.now) }
{
    let Some((item, rest)) = T::read(alloc, bytes)? else {
        return Ok(None);
    };
    let mut first = Vec::new(alloc);
    first.push(item)?;
    read_each(alloc, rest, between, most, first)
}

/// What follows the pieces at the front, each with a byte before it.
///
/// There is no answer where more than `most` of them stand there.
pub fn pass_each<T: Passed>(bytes: &[u8], before: u8, most: usize) -> Option<&[u8]>
    ensures { option_copied result ≡ option_map (λ x. x.1) (each_taken before T.taken most bytes.now) }
{
    let mut rest = bytes;
    let mut left = most;
    while let Some(after) = behind(rest, before) {
        if left == 0 {
            return None;
        }
        let Some(more) = T::pass(after) else {
            return None;
        };
        rest = more;
        left -= 1;
    }
    Some(rest)
}

impl Piece for i64 {
    ghost taken = { signed_taken };

    fn read(_alloc: Global, bytes: &[u8]) -> Result<Option<(i64, &[u8])>, NoMemory> {
        Ok(signed_at(bytes))
    }
}

impl Passed for i64 {
    ghost taken = { signed_taken };

    fn pass(bytes: &[u8]) -> Option<&[u8]> {
        let (_, rest) = signed_at(bytes)?;
        Some(rest)
    }
}

impl Piece for TransId {
    ghost taken = { transition_taken };

    #[tactic(auto, unfolding(crate::specs::inner::LineReading::transition_taken))]
    fn read(_alloc: Global, bytes: &[u8]) -> Result<Option<(TransId, &[u8])>, NoMemory> {
        let Some(digits) = behind(bytes, b't') else {
            return Ok(None);
        };
        match index_at(digits) {
            Some((number, rest)) => Ok(Some((TransId(number), rest))),
            None => Ok(None),
        }
    }
}

impl Piece for Route {
    ghost taken = { route_taken };

    #[tactic(auto, unfolding(crate::specs::inner::LineReading::route_taken))]
    fn read(alloc: Global, bytes: &[u8]) -> Result<Option<(Route, &[u8])>, NoMemory> {
        let Some((starts, rest)) = read_joined(alloc, bytes, b'+', bytes.len())? else {
            return Ok(None);
        };
        let none = Vec::new(alloc);
        match read_each(alloc, rest, b',', rest.len(), none)? {
            Some((others, rest)) => Ok(Some((
                Route {
                    starts: Row::from_vec(starts),
                    rest: Row::from_vec(others),
                },
                rest,
            ))),
            None => Ok(None),
        }
    }
}

/// What follows arguments.
#[tactic(auto, unfolding(crate::specs::inner::LineReading::args_taken))]
pub fn pass_args(bytes: &[u8]) -> Option<&[u8]>
    ensures { option_copied result ≡ option_map (λ x. x.1) (args_taken bytes.now) }
{
    let inside = behind(bytes, b'(')?;
    if let Some(rest) = behind(inside, b')') {
        return Some(rest);
    }
    let others = i64::pass(inside)?;
    let rest = pass_each::<i64>(others, b',', 7)?;
    behind(rest, b')')
}

// What follows a mark, behind its sign.
#[tactic(auto, unfolding(crate::specs::inner::LineReading::mark_taken))]
fn pass_mark(bytes: &[u8]) -> Option<&[u8]>
    ensures { option_copied result ≡ option_map (λ x. x.1) (mark_taken bytes.now) }
{
    let (_, rest) = name_at(bytes)?;
    pass_args(rest)
}

// What follows a signal sent, behind its sign.
#[tactic(auto, unfolding(crate::specs::inner::LineReading::send_taken, crate::specs::inner::LineReading::called_taken))]
fn pass_send(bytes: &[u8]) -> Option<&[u8]>
    ensures { option_copied result ≡ option_map (λ x. x.1) (send_taken bytes.now) }
{
    let (_, rest) = name_at(bytes)?;
    let rest = behind(rest, b'.')?;
    let (_, rest) = name_at(rest)?;
    pass_args(rest)
}

impl Passed for LineOut {
    ghost taken = { out_taken };

    #[tactic(auto, unfolding(crate::specs::inner::LineReading::out_taken))]
    fn pass(bytes: &[u8]) -> Option<&[u8]> {
        if let Some(rest) = behind(bytes, b'!') {
            pass_mark(rest)
        } else {
            let rest = behind(bytes, b'>')?;
            pass_send(rest)
        }
    }
}
