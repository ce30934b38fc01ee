//! The groups of pieces that the forms of a line share.
ghost use Rattle.std.specs.Prelude.{◌≡◌, Some, IfOk, IfSome};
ghost use Rattle.std.specs.Option.{option_map};
ghost use Rattle.pssm_lines.specs.Parts.{firing_of_one};
ghost use Rattle.pssm_lines.specs.inner.LineReading.{args_taken, called_taken, outs_span_taken, place_taken, turn_taken, transition_taken, routes_taken, firing_taken, mode_taken, opened_taken, how_taken};

use crate::parts::OutsText;
use crate::pieces::{Piece, behind, pass_each, read_joined};
use pssm_model::{Firing, How, Mode, Route, Row, TransId, VertexId};
use pssm_semantics::{Args, LineOut};
use pssm_spelling::{index_at, name_at, number_at, strip};
use std::alloc::{AllocError as NoMemory, Global};

/// The arguments at the front of the bytes, and what follows them.
#[inline(always)]
#[tactic(auto, unfolding(crate::specs::inner::LineReading::args_taken))]
pub fn args_at(alloc: Global, bytes: &[u8]) -> Result<Option<(Args, &[u8])>, NoMemory>
    ensures { IfOk result (λ o. option_map (λ x. (x.0, x.1.now)) o ≡ args_taken bytes.now) }
{
    let Some(inside) = behind(bytes, b'(') else {
        return Ok(None);
    };
    if let Some(rest) = behind(inside, b')') {
        return Ok(Some((Args::from_vec(Vec::new(alloc)), rest)));
    }
    let Some((args, rest)) = read_joined(alloc, inside, b',', 7)? else {
        return Ok(None);
    };
    match behind(rest, b')') {
        Some(rest) => Ok(Some((Args::from_vec(args), rest))),
        None => Ok(None),
    }
}

/// The outputs at the front of the bytes, and what follows them.
#[inline(always)]
pub fn outs_at(bytes: &[u8]) -> Option<(OutsText<'_>, &[u8])>
    ensures { option_map (λ x. (x.0.bytes.now, x.1.now)) result ≡ outs_span_taken bytes.now }
{
    match behind(bytes, b' ') {
        Some(_) => some_outs_at(bytes),
        None => Some((OutsText { bytes: b"" }, bytes)),
    }
}

// The same where a space stands at the front.
#[inline(never)]
#[tactic(auto, unfolding(crate::specs::inner::LineReading::outs_span_taken))]
fn some_outs_at(bytes: &[u8]) -> Option<(OutsText<'_>, &[u8])>
    ensures { option_map (λ x. (x.0.bytes.now, x.1.now)) result ≡ outs_span_taken bytes.now }
{
    let rest = pass_each::<LineOut>(bytes, b' ', 64)?;
    let (outs, rest) = bytes.split_at(bytes.len() - rest.len());
    Some((OutsText { bytes: outs }, rest))
}

/// A transition that ends the line: what fires is one route of this start alone.
#[inline(always)]
pub fn lone_start_at(bytes: &[u8]) -> Option<(TransId, &[u8])>
    ensures { IfSome result (λ x. firing_taken bytes.now ≡ Some (firing_of_one x.0, x.1.now)) }
{
    let digits = behind(bytes, b't')?;
    let (number, rest) = index_at(digits)?;
    let _after = behind(rest, b'\n')?;
    Some((TransId(number), rest))
}

/// The firing of one route that has one start alone.
#[inline(always)]
pub fn firing_of(alloc: Global, start: TransId) -> Result<Firing, NoMemory>
    ensures { IfOk result (λ firing. firing ≡ firing_of_one start) }
{
    let starts = Row::from_vec(vec![in alloc; start]?);
    let rest = Row::from_vec(Vec::new(alloc));
    let routes = Row::from_vec(vec![in alloc; Route { starts, rest }]?);
    Ok(Firing { routes })
}

/// What fires, and what follows it.
#[inline(always)]
#[tactic(auto, unfolding(crate::specs::inner::LineReading::firing_taken))]
pub fn firing_at(alloc: Global, bytes: &[u8]) -> Result<Option<(Firing, &[u8])>, NoMemory>
    ensures { IfOk result (λ o. option_map (λ x. (x.0, x.1.now)) o ≡ firing_taken bytes.now) }
{
    if let Some(rest) = behind(bytes, b'-') {
        let routes = Row::from_vec(Vec::new(alloc));
        return Ok(Some((Firing { routes }, rest)));
    }
    match lone_start_at(bytes) {
        Some((start, rest)) => Ok(Some((firing_of(alloc, start)?, rest))),
        None => routes_at(alloc, bytes),
    }
}

// The routes that fire, and what follows them.
#[inline(never)]
fn routes_at(alloc: Global, bytes: &[u8]) -> Result<Option<(Firing, &[u8])>, NoMemory>
    ensures { IfOk result (λ o. option_map (λ x. (x.0, x.1.now)) o ≡ routes_taken bytes.now) }
{
    match read_joined(alloc, bytes, b' ', bytes.len())? {
        Some((routes, rest)) => {
            let routes = Row::from_vec(routes);
            Ok(Some((Firing { routes }, rest)))
        }
        None => Ok(None),
    }
}

// The mode at the front of the bytes, and what follows it.
#[tactic(auto, unfolding(crate::specs::inner::LineReading::mode_taken))]
fn mode_at(bytes: &[u8]) -> Option<(Mode, &[u8])>
    ensures { option_map (λ x. (x.0, x.1.now)) result ≡ mode_taken bytes.now }
{
    if let Some(rest) = strip(bytes, b"default") {
        Some((Mode::Plain, rest))
    } else if let Some(rest) = strip(bytes, b"shallow") {
        Some((Mode::Shallow, rest))
    } else {
        let rest = strip(bytes, b"deep")?;
        Some((Mode::Deep, rest))
    }
}

/// The mode of an opening between two spaces, and what follows them.
#[tactic(auto, unfolding(crate::specs::inner::LineReading::opened_taken))]
pub fn opened_at(bytes: &[u8]) -> Option<(Mode, &[u8])>
    ensures { option_map (λ x. (x.0, x.1.now)) result ≡ opened_taken bytes.now }
{
    let rest = behind(bytes, b' ')?;
    let (mode, rest) = mode_at(rest)?;
    let rest = behind(rest, b' ')?;
    Some((mode, rest))
}

/// The way of an opening, and what follows it.
#[tactic(auto, unfolding(crate::specs::inner::LineReading::how_taken))]
pub fn how_at(alloc: Global, bytes: &[u8]) -> Result<Option<(How, &[u8])>, NoMemory>
    ensures { IfOk result (λ o. option_map (λ x. (x.0, x.1.now)) o ≡ how_taken bytes.now) }
{
    if let Some(rest) = strip(bytes, b"by ") {
        return match Route::read(alloc, rest)? {
            Some((route, rest)) => Ok(Some((How::By(route), rest))),
            None => Ok(None),
        };
    }
    if let Some(rest) = strip(bytes, b"state v") {
        return match index_at(rest) {
            Some((state, rest)) => Ok(Some((How::Restore(VertexId(state)), rest))),
            None => Ok(None),
        };
    }
    match strip(bytes, b"none") {
        Some(rest) => Ok(Some((How::Nothing, rest))),
        None => Ok(None),
    }
}

/// An object, and the number of an element behind a word.
#[inline(always)]
#[tactic(auto, unfolding(crate::specs::inner::LineReading::place_taken))]
pub fn place_at<'a>(bytes: &'a [u8], word: &[u8]) -> Option<(&'a [u8], u16, &'a [u8])>
    ensures { option_map (λ x. ((x.0.now, x.1), x.2.now)) result ≡ place_taken word.now bytes.now }
{
    let (object, rest) = name_at(bytes)?;
    let digits = strip(rest, word)?;
    let (number, rest) = index_at(digits)?;
    Some((object, number, rest))
}

/// An object, and the number of a signal, which is not 0.
#[inline(always)]
#[tactic(auto, unfolding(crate::specs::inner::LineReading::turn_taken))]
pub fn turn_at(bytes: &[u8]) -> Option<(&[u8], u32, &[u8])>
    ensures { option_map (λ x. ((x.0.now, x.1), x.2.now)) result ≡ turn_taken bytes.now }
{
    let (object, rest) = name_at(bytes)?;
    let digits = behind(rest, b' ')?;
    let (number, rest) = number_at(digits)?;
    if number == 0 {
        return None;
    }
    Some((object, number, rest))
}

/// A signal at an object, up to its arguments.
#[inline(always)]
#[tactic(auto, unfolding(crate::specs::inner::LineReading::called_taken))]
pub fn called_at(bytes: &[u8]) -> Option<(&[u8], &[u8], &[u8])>
    ensures { option_map (λ x. ((x.0.now, x.1.now), x.2.now)) result ≡ called_taken bytes.now }
{
    let (object, rest) = name_at(bytes)?;
    let rest = behind(rest, b'.')?;
    let (signal, rest) = name_at(rest)?;
    Some((object, signal, rest))
}
