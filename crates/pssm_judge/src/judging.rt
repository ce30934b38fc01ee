//! `judge`: what a journal deserves under a setting.
//!
//! The bytes are read in pieces. Of what came there are kept the bytes of the line that is not whole yet, and nothing
//! else; where the judging has ended at a line, what follows is read to its end and not kept.
ghost use Rattle.std.specs.Prelude.{◌≡◌, ◌≤◌, ◌<◌, ◌↔◌, ◌+◌, ◌++◌, ℕ, List, [], ◌∷◌, None, true, take, length, IfOk, IfErr, IsTrue};
ghost use Rattle.pssm_base.specs.Faults.{NoneFell};
ghost use Rattle.pssm_base.specs.History.{Adds, Grows, reading};
ghost use Rattle.pssm_base.specs.Reading.{SameContent, given};
ghost use Rattle.pssm_semantics.specs.declared.setting.Setting.{Setting};
ghost use Rattle.pssm_semantics.specs.Proper.{IsWellFormed};
ghost use Rattle.pssm_judge.specs.Verdicts.{IsVerdictOn, IsVerdictFor, IsFaultFor};
ghost use Rattle.pssm_judge.specs.inner.Answers.{IsFaultOn};
ghost use Rattle.pssm_judge.specs.inner.Judging.{IsJudging, IsPlaced};
ghost use Rattle.pssm_judge.specs.inner.Pieces.{AddsRead, EndsRead, BreaksRead};

use crate::lines::judge_lines;
use crate::place::Place;
use crate::run::Run;
use crate::verdict::{JudgeFault, Verdict};
use pssm_base::Inputs;
use pssm_journal::LineFault;
use pssm_semantics::Setting;
use std::alloc::{AllocError as NoMemory, Global};
use std::mem;

// The most bytes that a journal may have.
const LIMIT: u64 = 16_777_216;

// The most bytes that one call asks for.
const PIECE: usize = 65_536;

// The most bytes of a line without its line feed.
const LINE: usize = 65_536;

/// Judges the journal that stands under `path`, as one of a run of the setting (the list of rules,
/// the limits and the form of a journal are this profile's choice).
///
/// The lines are decided in order, and the first that stops the judging decides: a line that is none of the journal
/// form is [`JudgeFault::Text`], with the byte at which it goes wrong; the entry by which the entries pass 1,000,000, or
/// the posts, sends and marks pass 2,000,000, is [`JudgeFault::Limit`]; and an entry that breaks a rule is
/// [`Verdict::Refuse`]. Where no line stops it all was read, and the answer is [`Verdict::Accept`].
///
/// It answers [`JudgeFault::TooLarge`] where the path holds more than 16,777,216 bytes,
/// [`JudgeFault::ReadFault`] where a read failed, and [`JudgeFault::NoMemory`] where there was not enough memory. The
/// setting is used up, and what a path holds is as before.
///
/// No call asks the path for more than 65,536 bytes, and the lines that these complete are decided before more is read.
pub fn judge<I: Inputs>(
    alloc: Global,
    setting: Setting,
    inputs: &mut I,
    path: &str,
) -> Result<Verdict, JudgeFault>
    requires well_formed { IsWellFormed setting }

    // What the bytes of the path deserve.
    ensures verdict { IfOk result (IsVerdictFor setting
        (given (I.content inputs.old) (I.history inputs.old) (I.history inputs.new)) path.now) }

    // Why there is no verdict.
    ensures fault { IfErr result (IsFaultFor setting
        (given (I.content inputs.old) (I.history inputs.old) (I.history inputs.new))
        (I.faults inputs.old path.now) (I.faults inputs.new path.now) path.now) }

    // What the call leaves.
    ensures grows { Grows (I.history inputs.old) (I.history inputs.new) }
    ensures counts { NoneFell (I.faults inputs.old) (I.faults inputs.new) }
    ensures same { SameContent (I.content inputs.old) (I.content inputs.new) }
{
    let mut run = Run::new(alloc, setting)?;
    let told = judge_path(alloc, &mut run, inputs, path);
    // (a call: a drop at the end of the body would be one for each part of the run)
    drop(run);
    told
}

// What the bytes of the path deserve as a journal of a run that is still to begin.
fn judge_path<I: Inputs>(
    alloc: Global,
    run: &mut Run,
    inputs: &mut I,
    path: &str,
) -> Result<Verdict, JudgeFault>
    requires { run.old.journal ≡ [] }
    ensures verdict { IfOk result (IsVerdictFor run.old.setting
        (given (I.content inputs.old) (I.history inputs.old) (I.history inputs.new)) path.now) }
    ensures fault { IfErr result (IsFaultFor run.old.setting
        (given (I.content inputs.old) (I.history inputs.old) (I.history inputs.new))
        (I.faults inputs.old path.now) (I.faults inputs.new path.now) path.now) }
    ensures grows { Grows (I.history inputs.old) (I.history inputs.new) }
    ensures counts { NoneFell (I.faults inputs.old) (I.faults inputs.new) }
    ensures same { SameContent (I.content inputs.old) (I.content inputs.new) }
{
    let mut piece = vec![in alloc; 0u8; PIECE]?;
    let mut text = Vec::with_capacity(alloc, LINE + PIECE)?;
    let mut spare = Vec::with_capacity(alloc, LINE + PIECE)?;
    judge_pieces(alloc, run, inputs, path, &mut piece, &mut text, &mut spare)
}

// Reads piece after piece to the end of the path, or until there are more bytes than a journal may have.
fn judge_pieces<I: Inputs>(
    alloc: Global,
    run: &mut Run,
    inputs: &mut I,
    path: &str,
    piece: &mut [u8],
    text: &mut Vec<u8>,
    spare: &mut Vec<u8>,
) -> Result<Verdict, JudgeFault>
    requires begins { run.old.journal ≡ [] }
    requires room { 0 < length piece.old }
    requires short { length piece.old ≤ 65536 }
    requires empty { text.old.items ≡ [] }
    ensures verdict { IfOk result (IsVerdictFor run.old.setting
        (given (I.content inputs.old) (I.history inputs.old) (I.history inputs.new)) path.now) }
    ensures fault { IfErr result (IsFaultFor run.old.setting
        (given (I.content inputs.old) (I.history inputs.old) (I.history inputs.new))
        (I.faults inputs.old path.now) (I.faults inputs.new path.now) path.now) }
    ensures grows { Grows (I.history inputs.old) (I.history inputs.new) }
    ensures counts { NoneFell (I.faults inputs.old) (I.faults inputs.new) }
    ensures same { SameContent (I.content inputs.old) (I.content inputs.new) }
{
    let mut place = Place::first();
    let mut from = 0;
    while from <= LIMIT {
        let (room, _) = piece.split_at_mut(room_left(from, piece.len()));
        let count = read_piece(inputs, path, from, room)?;
        if count == 0 {
            return judge_end(alloc, run, place, text.as_slice());
        }
        let (front, _) = room.split_at(count);
        place = judge_piece(alloc, run, place, text, spare, front)?;
        from += count as u64;
    }
    Err(JudgeFault::TooLarge)
}

// How many bytes the next call asks for: no more than a piece, and none past the first that a journal may not have.
fn room_left(from: u64, piece: usize) -> usize
    requires few { from ≤ 16777216 }
    requires room { 0 < piece }
    requires short { piece ≤ 65536 }
    ensures some { 0 < result }
    ensures within { result ≤ piece }
    ensures fits { from + result ≤ 16777217 }
{
    (LIMIT + 1 - from).min(piece as u64) as usize
}

// Reads the next piece of what stands under the path, and answers how many bytes: 0 only at the end.
fn read_piece<I: Inputs>(
    inputs: &mut I,
    path: &str,
    from: u64,
    piece: &mut [u8],
) -> Result<usize, JudgeFault>
    requires { 0 < length piece.old }
    ensures within { IfOk result (λ n. n ≤ length piece.new) }
    ensures more { IfOk result (λ n. AddsRead (I.content inputs.old path.now) from (take n piece.new)) }
    ensures end { IfOk result (λ n. n ≡ 0 → EndsRead (I.content inputs.old path.now) from) }
    ensures kept { IfOk result (λ n.
        Adds (I.history inputs.old) (I.history inputs.new) (reading path.now from (take n piece.new) ∷ [])) }
    ensures grows { Grows (I.history inputs.old) (I.history inputs.new) }
    ensures fault { IfErr result (BreaksRead (I.faults inputs.old path.now) (I.faults inputs.new path.now)) }
    ensures counts { NoneFell (I.faults inputs.old) (I.faults inputs.new) }
    ensures same { SameContent (I.content inputs.old) (I.content inputs.new) }
{
    match inputs.read_at(path, from, piece) {
        Ok(count) => Ok(count),
        Err(_) => Err(JudgeFault::ReadFault),
    }
}

// Takes the lines that a piece makes whole, unless the judging has ended.
fn judge_piece(
    alloc: Global,
    run: &mut Run,
    place: Place,
    text: &mut Vec<u8>,
    spare: &mut Vec<u8>,
    piece: &[u8],
) -> Result<Place, NoMemory>
    requires { (setting : Setting) × (came : List ℕ) × IsPlaced setting came text.old.items place run.old }
    ensures { IfOk result (λ next. (setting : Setting) (came : List ℕ) →
        IsPlaced setting came text.old.items place run.old
        → IsPlaced setting (came ++ piece.now) text.new.items next run.new) }
{
    if let Some(_stop) = place.stop {
        return Ok(place);
    }
    text.extend_from_slice(piece)?;
    let next = take_whole(alloc, run, place, text.as_slice(), spare)?;
    mem::swap(text, spare);
    Ok(next)
}

// Takes the whole lines of the text, and puts what follows them into the spare.
fn take_whole(
    alloc: Global,
    run: &mut Run,
    place: Place,
    text: &[u8],
    spare: &mut Vec<u8>,
) -> Result<Place, NoMemory>
    requires goes_on { place.stop ≡ None }
    requires judging { (setting : Setting) × (came : List ℕ) × IsJudging setting came text.now place.begun place.line run.old }
    ensures { IfOk result (λ next. (setting : Setting) (came : List ℕ) →
        IsJudging setting came text.now place.begun place.line run.old
        → IsPlaced setting came spare.new.items next run.new) }
{
    let (whole, open) = text.split_at(whole_len(text));
    let behind = judge_lines(alloc, run, place, whole)?;
    spare.clear();
    spare.extend_from_slice(behind.rest)?;
    spare.extend_from_slice(open)?;
    Ok(behind.place)
}

// How many bytes stand up to the last line feed, this one included. A text without one that is longer than a line may
// be is looked at whole.
fn whole_len(text: &[u8]) -> usize
    ensures { result ≤ length text.now }
{
    let mut end = text.len();
    while end > 0 && text[end - 1] != b'\n' {
        end -= 1;
    }
    if end == 0 && text.len() > LINE {
        text.len()
    } else {
        end
    }
}

// What the bytes deserve, which end with this text.
fn judge_end(alloc: Global, run: &mut Run, place: Place, text: &[u8]) -> Result<Verdict, JudgeFault>
    requires { (setting : Setting) × (came : List ℕ) × IsPlaced setting came text.now place run.old }
    ensures verdict { IfOk result (λ verdict. (setting : Setting) (came : List ℕ) →
        IsPlaced setting came text.now place run.old → IsVerdictOn setting came verdict) }
    ensures fault { IfErr result (λ fault. (setting : Setting) (came : List ℕ) →
        IsPlaced setting came text.now place run.old → IsFaultOn setting came fault) }
{
    let behind = judge_lines(alloc, run, place, text)?;
    if let Some(stop) = behind.place.stop {
        return stop.answer();
    }
    if is_whole(behind.place.begun, behind.rest) {
        return Ok(Verdict::Accept { entries: run.len() });
    }
    let line = behind.place.line;
    Err(JudgeFault::Text(LineFault::NoEnd { line }))
}

// Whether the first line was read, and nothing follows the lines.
fn is_whole(begun: bool, rest: &[u8]) -> bool
    ensures { IsTrue result ↔ ((begun ≡ true) × (rest.now ≡ [])) }
{
    begun && rest.is_empty()
}
