//! The ten forms of a line, each behind the word with which it begins, its line feed included.
ghost use Rattle.std.specs.Prelude.{◌≡◌, IfOk};
ghost use Rattle.std.specs.Option.{option_map};
ghost use Rattle.pssm_lines.specs.inner.LineReading.{shown, post_taken, start_taken, take_taken, done_taken, exit_taken, effect_taken, enter_taken, open_taken, pick_taken, do_taken};

use crate::groups::{args_at, called_at, firing_at, how_at, opened_at, outs_at, place_at, turn_at};
use crate::parts::LineParts;
use crate::pieces::{Piece, behind};
use pssm_model::{RegionId, Route, TransId, VertexId};
use pssm_spelling::{index_at, name_at};
use std::alloc::{AllocError as NoMemory, Global};

/// A line that is read, and what follows it; nothing where there is none.
pub type ReadLine<'a> = Option<(LineParts<'a>, &'a [u8])>;

/// What follows `post `.
#[inline(always)]
#[tactic(auto, unfolding(crate::specs::inner::LineReading::post_taken))]
pub fn post_at(alloc: Global, bytes: &[u8]) -> Result<ReadLine<'_>, NoMemory>
    ensures { IfOk result (λ o. option_map (λ x. (shown x.0, x.1.now)) o ≡ post_taken bytes.now) }
{
    let Some((object, signal, rest)) = called_at(bytes) else {
        return Ok(None);
    };
    let Some((args, rest)) = args_at(alloc, rest)? else {
        return Ok(None);
    };
    let Some(rest) = behind(rest, b'\n') else {
        return Ok(None);
    };
    let parts = LineParts::Post {
        object,
        signal,
        args,
    };
    Ok(Some((parts, rest)))
}

/// What follows `start `.
#[inline(never)]
#[tactic(auto, unfolding(crate::specs::inner::LineReading::start_taken))]
pub fn start_at(bytes: &[u8]) -> ReadLine<'_>
    ensures { option_map (λ x. (shown x.0, x.1.now)) result ≡ start_taken bytes.now }
{
    let (object, rest) = name_at(bytes)?;
    let rest = behind(rest, b'\n')?;
    Some((LineParts::Start { object }, rest))
}

/// What follows `take `.
#[inline(never)]
#[tactic(auto, unfolding(crate::specs::inner::LineReading::take_taken))]
pub fn take_at(alloc: Global, bytes: &[u8]) -> Result<ReadLine<'_>, NoMemory>
    ensures { IfOk result (λ o. option_map (λ x. (shown x.0, x.1.now)) o ≡ take_taken bytes.now) }
{
    let Some((object, number, rest)) = turn_at(bytes) else {
        return Ok(None);
    };
    let Some(rest) = behind(rest, b' ') else {
        return Ok(None);
    };
    let Some((firing, rest)) = firing_at(alloc, rest)? else {
        return Ok(None);
    };
    let Some(rest) = behind(rest, b'\n') else {
        return Ok(None);
    };
    let parts = LineParts::Take {
        object,
        number,
        firing,
    };
    Ok(Some((parts, rest)))
}

/// What follows `done `.
#[inline(never)]
#[tactic(auto, unfolding(crate::specs::inner::LineReading::done_taken))]
pub fn done_at(alloc: Global, bytes: &[u8]) -> Result<ReadLine<'_>, NoMemory>
    ensures { IfOk result (λ o. option_map (λ x. (shown x.0, x.1.now)) o ≡ done_taken bytes.now) }
{
    let Some((object, state, rest)) = place_at(bytes, b" v") else {
        return Ok(None);
    };
    let Some(rest) = behind(rest, b' ') else {
        return Ok(None);
    };
    let Some((firing, rest)) = firing_at(alloc, rest)? else {
        return Ok(None);
    };
    let Some(rest) = behind(rest, b'\n') else {
        return Ok(None);
    };
    let parts = LineParts::Done {
        object,
        state: VertexId(state),
        firing,
    };
    Ok(Some((parts, rest)))
}

/// What follows `exit `.
#[inline(always)]
#[tactic(auto, unfolding(crate::specs::inner::LineReading::exit_taken))]
pub fn exit_at(bytes: &[u8]) -> Result<ReadLine<'_>, NoMemory>
    ensures { IfOk result (λ o. option_map (λ x. (shown x.0, x.1.now)) o ≡ exit_taken bytes.now) }
{
    let Some((object, state, rest)) = place_at(bytes, b" v") else {
        return Ok(None);
    };
    let Some((outs, rest)) = outs_at(rest) else {
        return Ok(None);
    };
    let Some(rest) = behind(rest, b'\n') else {
        return Ok(None);
    };
    let parts = LineParts::Exit {
        object,
        state: VertexId(state),
        outs,
    };
    Ok(Some((parts, rest)))
}

/// What follows `effect `.
#[inline(always)]
#[tactic(auto, unfolding(crate::specs::inner::LineReading::effect_taken))]
pub fn effect_at(bytes: &[u8]) -> Result<ReadLine<'_>, NoMemory>
    ensures { IfOk result (λ o. option_map (λ x. (shown x.0, x.1.now)) o ≡ effect_taken bytes.now) }
{
    let Some((object, transition, rest)) = place_at(bytes, b" t") else {
        return Ok(None);
    };
    let Some((outs, rest)) = outs_at(rest) else {
        return Ok(None);
    };
    let Some(rest) = behind(rest, b'\n') else {
        return Ok(None);
    };
    let parts = LineParts::Effect {
        object,
        transition: TransId(transition),
        outs,
    };
    Ok(Some((parts, rest)))
}

/// What follows `enter `.
#[inline(always)]
#[tactic(auto, unfolding(crate::specs::inner::LineReading::enter_taken))]
pub fn enter_at(bytes: &[u8]) -> Result<ReadLine<'_>, NoMemory>
    ensures { IfOk result (λ o. option_map (λ x. (shown x.0, x.1.now)) o ≡ enter_taken bytes.now) }
{
    let Some((object, state, rest)) = place_at(bytes, b" v") else {
        return Ok(None);
    };
    let Some((outs, rest)) = outs_at(rest) else {
        return Ok(None);
    };
    let Some(rest) = behind(rest, b'\n') else {
        return Ok(None);
    };
    let parts = LineParts::Enter {
        object,
        state: VertexId(state),
        outs,
    };
    Ok(Some((parts, rest)))
}

/// What follows `open `.
#[inline(never)]
#[tactic(auto, unfolding(crate::specs::inner::LineReading::open_taken))]
pub fn open_at(alloc: Global, bytes: &[u8]) -> Result<ReadLine<'_>, NoMemory>
    ensures { IfOk result (λ o. option_map (λ x. (shown x.0, x.1.now)) o ≡ open_taken bytes.now) }
{
    let Some((object, region, rest)) = place_at(bytes, b" r") else {
        return Ok(None);
    };
    let Some((mode, rest)) = opened_at(rest) else {
        return Ok(None);
    };
    let Some((how, rest)) = how_at(alloc, rest)? else {
        return Ok(None);
    };
    let Some(rest) = behind(rest, b'\n') else {
        return Ok(None);
    };
    let parts = LineParts::Opened {
        object,
        region: RegionId(region),
        mode,
        how,
    };
    Ok(Some((parts, rest)))
}

/// What follows `pick `.
#[inline(never)]
#[tactic(auto, unfolding(crate::specs::inner::LineReading::pick_taken))]
pub fn pick_at(alloc: Global, bytes: &[u8]) -> Result<ReadLine<'_>, NoMemory>
    ensures { IfOk result (λ o. option_map (λ x. (shown x.0, x.1.now)) o ≡ pick_taken bytes.now) }
{
    let Some((object, choice, rest)) = place_at(bytes, b" v") else {
        return Ok(None);
    };
    let Some(rest) = behind(rest, b' ') else {
        return Ok(None);
    };
    let Some((route, rest)) = Route::read(alloc, rest)? else {
        return Ok(None);
    };
    let Some(rest) = behind(rest, b'\n') else {
        return Ok(None);
    };
    let parts = LineParts::Pick {
        object,
        choice: VertexId(choice),
        route,
    };
    Ok(Some((parts, rest)))
}

/// What follows `do `.
#[inline(never)]
#[tactic(auto, unfolding(crate::specs::inner::LineReading::do_taken))]
pub fn do_at(bytes: &[u8]) -> ReadLine<'_>
    ensures { option_map (λ x. (shown x.0, x.1.now)) result ≡ do_taken bytes.now }
{
    let (object, state, rest) = place_at(bytes, b" v")?;
    let rest = behind(rest, b' ')?;
    let (step, rest) = index_at(rest)?;
    let (outs, rest) = outs_at(rest)?;
    let rest = behind(rest, b'\n')?;
    let parts = LineParts::DoStep {
        object,
        state: VertexId(state),
        step,
        outs,
    };
    Some((parts, rest))
}
