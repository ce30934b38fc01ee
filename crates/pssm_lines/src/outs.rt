//! The outputs of a line, one after the other.
ghost use Rattle.std.specs.Prelude.{◌≡◌, ◌<◌, List, [], length, MatchOption, IfOk, IfSome};
ghost use Rattle.std.specs.List.{AllByRecursion};
ghost use Rattle.std.specs.Option.{option_map};
ghost use Rattle.pssm_semantics.specs.declared.line.LineOut.{LineOut};
ghost use Rattle.pssm_lines.specs.Grammar.{IsSpelledOut};
ghost use Rattle.pssm_lines.specs.Parts.{ShowsOuts, IsNextOut};
ghost use Rattle.pssm_lines.specs.inner.LineReading.{shown_out, mark_taken, send_taken, out_taken};

use crate::groups::{args_at, called_at};
use crate::parts::{OutParts, OutsText};
use crate::pieces::behind;
use pssm_spelling::name_at;
use std::alloc::{AllocError as NoMemory, Global};

// A mark, behind its sign.
#[tactic(auto, unfolding(crate::specs::inner::LineReading::mark_taken))]
fn mark_at(alloc: Global, bytes: &[u8]) -> Result<Option<(OutParts<'_>, &[u8])>, NoMemory>
    ensures { IfOk result (λ o. option_map (λ x. (shown_out x.0, x.1.now)) o ≡ mark_taken bytes.now) }
{
    let Some((mark, rest)) = name_at(bytes) else {
        return Ok(None);
    };
    match args_at(alloc, rest)? {
        Some((args, rest)) => Ok(Some((OutParts::Mark { mark, args }, rest))),
        None => Ok(None),
    }
}

// A signal sent, behind its sign.
#[tactic(auto, unfolding(crate::specs::inner::LineReading::send_taken))]
fn send_at(alloc: Global, bytes: &[u8]) -> Result<Option<(OutParts<'_>, &[u8])>, NoMemory>
    ensures { IfOk result (λ o. option_map (λ x. (shown_out x.0, x.1.now)) o ≡ send_taken bytes.now) }
{
    let Some((object, signal, rest)) = called_at(bytes) else {
        return Ok(None);
    };
    match args_at(alloc, rest)? {
        Some((args, rest)) => Ok(Some((
            OutParts::Send {
                object,
                signal,
                args,
            },
            rest,
        ))),
        None => Ok(None),
    }
}

// An output, and what follows it.
#[tactic(auto, unfolding(crate::specs::inner::LineReading::out_taken))]
fn out_at(alloc: Global, bytes: &[u8]) -> Result<Option<(OutParts<'_>, &[u8])>, NoMemory>
    ensures { IfOk result (λ o. option_map (λ x. (shown_out x.0, x.1.now)) o ≡ out_taken bytes.now) }
{
    if let Some(rest) = behind(bytes, b'!') {
        mark_at(alloc, rest)
    } else if let Some(rest) = behind(bytes, b'>') {
        send_at(alloc, rest)
    } else {
        Ok(None)
    }
}

/// The first of the outputs that a text spells, and the text of the others; `None` where there are no more.
pub fn next_out<'a>(
    alloc: Global,
    outs: OutsText<'a>,
) -> Result<Option<(OutParts<'a>, OutsText<'a>)>, NoMemory>
    ensures next { IfOk result (λ o. (spelled : List LineOut) → AllByRecursion IsSpelledOut spelled →
        ShowsOuts outs.entry spelled → MatchOption o (spelled ≡ []) (λ x. IsNextOut x.0 x.1 spelled)) }
    ensures shorter { IfOk result (λ o. IfSome o (λ x. length x.1.bytes.now < length outs.entry.bytes.now)) }
{
    let Some(rest) = behind(outs.bytes, b' ') else {
        return Ok(None);
    };
    match out_at(alloc, rest)? {
        Some((out, bytes)) => Ok(Some((out, OutsText { bytes }))),
        None => Ok(None),
    }
}
