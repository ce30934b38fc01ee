//! The line that parts show, with names of its own.
ghost use Rattle.std.specs.Prelude.{◌≡◌, List, IfOk};
ghost use Rattle.std.specs.List.{AllByRecursion};
ghost use Rattle.pssm_semantics.specs.declared.line.Line.{Line};
ghost use Rattle.pssm_semantics.specs.declared.line.LineOut.{LineOut};
ghost use Rattle.pssm_lines.specs.Grammar.{IsLine, IsSpelledOut};
ghost use Rattle.pssm_lines.specs.Parts.{Shows, ShowsOut, ShowsOuts};

use crate::outs::next_out;
use crate::parts::{LineParts, OutParts, OutsText};
use pssm_model::{Row, Text};
use pssm_semantics::{Line, LineOut};
use std::alloc::{AllocError as NoMemory, Global};

// A text of these bytes.
fn text_of(alloc: Global, bytes: &[u8]) -> Result<Text, NoMemory>
    ensures { IfOk result (λ t. t ≡ bytes.now) }
{
    Ok(Text::from_vec(bytes.to_vec(alloc)?))
}

// The output that parts show.
fn whole_out(alloc: Global, out: OutParts<'_>) -> Result<LineOut, NoMemory>
    ensures { IfOk result (ShowsOut out.entry) }
{
    match out {
        OutParts::Mark { mark, args } => Ok(LineOut::Mark {
            mark: text_of(alloc, mark)?,
            args,
        }),
        OutParts::Send {
            object,
            signal,
            args,
        } => {
            let object = text_of(alloc, object)?;
            let signal = text_of(alloc, signal)?;
            Ok(LineOut::Send {
                object,
                signal,
                args,
            })
        }
    }
}

// The outputs that a text spells.
fn whole_outs(alloc: Global, outs: OutsText<'_>) -> Result<Row<LineOut>, NoMemory>
    ensures { IfOk result (λ all. (spelled : List LineOut) → AllByRecursion IsSpelledOut spelled →
        ShowsOuts outs.entry spelled → all ≡ spelled) }
{
    let mut all = Vec::new(alloc);
    let mut text = outs;
    while let Some((out, rest)) = next_out(alloc, text)? {
        all.push(whole_out(alloc, out)?)?;
        text = rest;
    }
    Ok(Row::from_vec(all))
}

/// The line that parts show, with names of its own.
pub fn whole_line(alloc: Global, parts: LineParts<'_>) -> Result<Line, NoMemory>
    ensures { IfOk result (λ l. (shown : Line) → IsLine shown → Shows parts.entry shown → l ≡ shown) }
{
    match parts {
        LineParts::Post {
            object,
            signal,
            args,
        } => {
            let object = text_of(alloc, object)?;
            let signal = text_of(alloc, signal)?;
            Ok(Line::Post {
                object,
                signal,
                args,
            })
        }
        LineParts::Start { object } => Ok(Line::Start {
            object: text_of(alloc, object)?,
        }),
        LineParts::Take {
            object,
            number,
            firing,
        } => Ok(Line::Take {
            object: text_of(alloc, object)?,
            number,
            firing,
        }),
        LineParts::Done {
            object,
            state,
            firing,
        } => Ok(Line::Done {
            object: text_of(alloc, object)?,
            state,
            firing,
        }),
        LineParts::Opened {
            object,
            region,
            mode,
            how,
        } => Ok(Line::Opened {
            object: text_of(alloc, object)?,
            region,
            mode,
            how,
        }),
        LineParts::Pick {
            object,
            choice,
            route,
        } => Ok(Line::Pick {
            object: text_of(alloc, object)?,
            choice,
            route,
        }),
        LineParts::Exit {
            object,
            state,
            outs,
        } => {
            let object = text_of(alloc, object)?;
            Ok(Line::Exit {
                object,
                state,
                outs: whole_outs(alloc, outs)?,
            })
        }
        LineParts::Effect {
            object,
            transition,
            outs,
        } => {
            let object = text_of(alloc, object)?;
            Ok(Line::Effect {
                object,
                transition,
                outs: whole_outs(alloc, outs)?,
            })
        }
        LineParts::Enter {
            object,
            state,
            outs,
        } => {
            let object = text_of(alloc, object)?;
            Ok(Line::Enter {
                object,
                state,
                outs: whole_outs(alloc, outs)?,
            })
        }
        LineParts::DoStep {
            object,
            state,
            step,
            outs,
        } => {
            let object = text_of(alloc, object)?;
            Ok(Line::DoStep {
                object,
                state,
                step,
                outs: whole_outs(alloc, outs)?,
            })
        }
    }
}
