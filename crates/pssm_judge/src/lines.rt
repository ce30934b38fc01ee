//! The lines of a text, taken one after the other.
ghost use Rattle.std.specs.Prelude.{◌≡◌, ◌≤◌, ◌<◌, ◌↔◌, ℕ, List, None, true, length, IfOk, IsTrue};
ghost use Rattle.pssm_semantics.specs.declared.setting.Setting.{Setting};
ghost use Rattle.pssm_judge.specs.inner.Judging.{IsJudging, IsPlaced, IsTurn, IsShorter, IsLessLeft, IsOver};

use crate::place::{Behind, Place};
use crate::run::{Run, Stop};
use pssm_journal::{Front, brief_at, front_of};
use std::alloc::{AllocError as NoMemory, Global};

/// Takes the lines of the text up to the first that is not whole, or to one at which the judging ends.
pub fn judge_lines<'a>(
    alloc: Global,
    run: &mut Run,
    place: Place,
    text: &'a [u8],
) -> Result<Behind<'a>, NoMemory>
    requires { (setting : Setting) × (bytes : List ℕ) × IsPlaced setting bytes text.now place run.old }
    ensures goes_on { IfOk result (λ behind. (setting : Setting) (bytes : List ℕ) →
        IsPlaced setting bytes text.now place run.old
        → IsPlaced setting bytes behind.rest.now behind.place run.new) }
    ensures over { IfOk result IsOver }
{
    let mut behind = Behind { rest: text, place };
    let mut left = text.len() + 1;
    'lines: while goes_on(behind.place.stop, behind.rest, left) {
        left = behind.rest.len();
        behind = next_turn(
            alloc,
            run,
            behind.place.begun,
            behind.place.line,
            behind.rest,
        )?;
    }
    Ok(behind)
}

// Whether the judging goes on, and fewer bytes are left than so many.
fn goes_on(stop: Option<Stop>, rest: &[u8], left: usize) -> bool
    ensures { IsTrue result ↔ ((stop ≡ None) × (length rest.now < left)) }
{
    match stop {
        None => rest.len() < left,
        Some(_) => false,
    }
}

/// How the judging goes on behind a line: with the bytes behind it; or the line is still open; or the judging ends.
pub enum Turn<'a> {
    On { rest: &'a [u8] },
    Open,
    Stop(Stop),
}

// Takes the line that begins here, the first one of the text included, and the brief lines behind it.
fn next_turn<'a>(
    alloc: Global,
    run: &mut Run,
    begun: bool,
    line: u32,
    rest: &'a [u8],
) -> Result<Behind<'a>, NoMemory>
    requires judging { (setting : Setting) × (bytes : List ℕ) × IsJudging setting bytes rest.now begun line run.old }
    ensures goes_on { IfOk result (λ behind. (setting : Setting) (bytes : List ℕ) →
        IsJudging setting bytes rest.now begun line run.old
        → IsPlaced setting bytes behind.rest.now behind.place run.new) }
    ensures shorter { IfOk result (IsLessLeft rest.now) }
{
    let next = line + 1;
    match any_turn(alloc, run, begun, line, rest)? {
        Turn::On { rest: after } => take_briefs(alloc, run, next, after),
        Turn::Open => Ok(Behind {
            rest,
            place: Place {
                begun,
                line,
                stop: None,
            },
        }),
        Turn::Stop(stop) => Ok(Behind {
            rest,
            place: Place {
                begun,
                line,
                stop: Some(stop),
            },
        }),
    }
}

// Takes the brief lines that begin here, one after the other, up to a line that is none.
#[inline(never)]
fn take_briefs<'a>(
    alloc: Global,
    run: &mut Run,
    line: u32,
    rest: &'a [u8],
) -> Result<Behind<'a>, NoMemory>
    requires judging { (setting : Setting) × (bytes : List ℕ) × IsJudging setting bytes rest.now true line run.old }
    ensures goes_on { IfOk result (λ behind. (setting : Setting) (bytes : List ℕ) →
        IsJudging setting bytes rest.now true line run.old
        → IsPlaced setting bytes behind.rest.now behind.place run.new) }
    ensures within { IfOk result (λ behind. length behind.rest.now ≤ length rest.now) }
{
    let mut left = rest;
    let mut number = line;
    while let Some((parts, after)) = brief_at(left) {
        if let Some(stop) = run.take_brief(alloc, parts)? {
            return Ok(Behind {
                rest: left,
                place: Place {
                    begun: true,
                    line: number,
                    stop: Some(stop),
                },
            });
        }
        left = after;
        number += 1;
    }
    Ok(Behind {
        rest: left,
        place: Place {
            begun: true,
            line: number,
            stop: None,
        },
    })
}

// Takes the line that begins here, whatever it is.
#[inline(never)]
fn any_turn<'a>(
    alloc: Global,
    run: &mut Run,
    begun: bool,
    line: u32,
    rest: &'a [u8],
) -> Result<Turn<'a>, NoMemory>
    ensures goes_on { IfOk result (λ turn. (setting : Setting) (bytes : List ℕ) →
        IsJudging setting bytes rest.now begun line run.old
        → IsTurn setting bytes begun line rest.now run.new turn) }
    ensures shorter { IfOk result (IsShorter begun rest.now) }
{
    match front_of(alloc, begun, line, rest)? {
        Front::Header { rest: after } => Ok(Turn::On { rest: after }),
        Front::Line { parts, rest: after } => match run.take(alloc, parts)? {
            Some(stop) => Ok(Turn::Stop(stop)),
            None => Ok(Turn::On { rest: after }),
        },
        Front::Open => Ok(Turn::Open),
        Front::Fault(fault) => Ok(Turn::Stop(Stop::Text(fault))),
    }
}
