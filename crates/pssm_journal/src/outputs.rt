//! The outputs that a line writes in a setting.
ghost use Rattle.std.specs.Prelude.{◌≡◌, List, IfOk, option_map};
ghost use Rattle.std.specs.List.{AllByRecursion};
ghost use Rattle.pssm_semantics.specs.declared.line.LineOut.{LineOut};
ghost use Rattle.pssm_semantics.specs.declared.line.LineOut.TheVariants as outs;
ghost use Rattle.pssm_lines.specs.Grammar.{IsSpelledOut};
ghost use Rattle.pssm_lines.specs.Parts.{ShowsOut, ShowsOuts};
ghost use Rattle.pssm_journal.specs.Entries.{out_named, outs_named};

use crate::names::Names;
use pssm_lines::{OutParts, OutsText, next_out};
use pssm_model::Row;
use pssm_semantics::{Args, LineOut, ObjectId, Out};
use std::alloc::{AllocError as NoMemory, Global};

// A mark of an object.
#[tactic(auto, unfolding(crate::specs::Entries::out_named))]
fn mark_out<N: Names>(names: &N, own: ObjectId, mark: &[u8], args: Args) -> Option<Out>
    ensures { result ≡ out_named (N.setting names.now) own (outs.Mark mark.now args) }
{
    let mark = names.mark(own, mark)?;
    Some(Out::Mark { mark, args })
}

// A signal that an object sends.
#[tactic(auto, unfolding(crate::specs::Entries::out_named))]
fn send_out<N: Names>(
    names: &N,
    own: ObjectId,
    object: &[u8],
    signal: &[u8],
    args: Args,
) -> Option<Out>
    ensures { result ≡ out_named (N.setting names.now) own (outs.Send object.now signal.now args) }
{
    let object = names.object(object)?;
    let signal = names.signal(signal)?;
    Some(Out::Send {
        object,
        signal,
        args,
    })
}

// The output of an object that parts show.
fn shown_out<N: Names>(names: &N, own: ObjectId, out: OutParts<'_>) -> Option<Out>
    ensures { (line : LineOut) → ShowsOut out.entry line → result ≡ out_named (N.setting names.now) own line }
{
    match out {
        OutParts::Mark { mark, args } => mark_out(names, own, mark, args),
        OutParts::Send {
            object,
            signal,
            args,
        } => send_out(names, own, object, signal, args),
    }
}

/// The outputs of an object that a text of outputs spells, where all their names are known.
pub fn shown_outs<N: Names>(
    alloc: Global,
    names: &N,
    own: ObjectId,
    outs: OutsText<'_>,
) -> Result<Option<Row<Out>>, NoMemory>
    ensures { IfOk result (λ o. (line : List LineOut) → AllByRecursion IsSpelledOut line → ShowsOuts outs.entry line
        → o ≡ outs_named (N.setting names.now) own line) }
{
    let mut known = Vec::new(alloc);
    let mut rest = outs;
    while let Some((out, others)) = next_out(alloc, rest)? {
        match shown_out(names, own, out) {
            Some(out) => known.push(out)?,
            None => return Ok(None),
        }
        rest = others;
    }
    Ok(Some(Row::from_vec(known)))
}

// The output of an object that a line has.
fn line_out<N: Names>(
    alloc: Global,
    names: &N,
    own: ObjectId,
    out: &LineOut,
) -> Result<Option<Out>, NoMemory>
    ensures { IfOk result (λ o. o ≡ out_named (N.setting names.now) own out.now) }
{
    match out {
        LineOut::Mark { mark, args } => {
            let args = args.copy(alloc)?;
            Ok(mark_out(names, own, mark.as_slice(), args))
        }
        LineOut::Send {
            object,
            signal,
            args,
        } => {
            let args = args.copy(alloc)?;
            Ok(send_out(names, own, object.as_slice(), signal.as_slice(), args))
        }
    }
}

/// The outputs of an object that a line has, where all their names are known.
pub fn line_outs<N: Names>(
    alloc: Global,
    names: &N,
    own: ObjectId,
    outs: &[LineOut],
) -> Result<Option<Row<Out>>, NoMemory>
    ensures { IfOk result (λ o. o ≡ outs_named (N.setting names.now) own outs.now) }
{
    let mut known = Vec::with_capacity(alloc, outs.len())?;
    for out in outs {
        match line_out(alloc, names, own, out)? {
            Some(out) => known.push(out)?,
            None => return Ok(None),
        }
    }
    Ok(Some(Row::from_vec(known)))
}
