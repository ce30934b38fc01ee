//! The text of a line.
ghost use Rattle.std.specs.Prelude.{◌≡◌, [], ◌∷◌, ◌++◌, IfOk, OnOk, codes};
ghost use Rattle.std.specs.Fmt.{decimal};
ghost use Rattle.pssm_semantics.specs.declared.line.Line.TheVariants as lines;
ghost use Rattle.pssm_lines.specs.inner.Lines.{HasNoOuts};
ghost use Rattle.pssm_lines.specs.LineText.{line_text, mode_text};

use crate::spelled::{Spelled, put_call, put_outs};
use pssm_model::{How, Mode, RegionId, Text};
use pssm_semantics::Line;
use std::alloc::{AllocError as NoMemory, Global};

/// Writes the kind of a line, its object, and a number behind a word.
pub fn put_place(
    alloc: Global,
    text: &mut Vec<u8>,
    kind: &[u8],
    object: &[u8],
    word: &[u8],
    number: u32,
) -> Result<(), NoMemory>
    ensures { OnOk result (text.new.items ≡ text.old.items ++ (kind.now ++ (object.now ++ (word.now ++ decimal number)))) }
{
    text.extend_from_slice(kind)?;
    text.extend_from_slice(object)?;
    text.extend_from_slice(word)?;
    number.put(alloc, text)
}

/// The name of a mode.
pub fn mode_name(mode: Mode) -> &'static [u8]
    ensures { result.now ≡ mode_text mode }
{
    match mode {
        Mode::Plain => b"default",
        Mode::Shallow => b"shallow",
        Mode::Deep => b"deep",
    }
}

// Writes the line of an opening.
fn put_opened(
    alloc: Global,
    text: &mut Vec<u8>,
    object: &Text,
    region: RegionId,
    mode: Mode,
    how: &How,
) -> Result<(), NoMemory>
    ensures { OnOk result (text.new.items ≡
        text.old.items ++ line_text (lines.Opened object.now region mode how.now)) }
{
    put_place(
        alloc,
        text,
        b"open ",
        object.as_slice(),
        b" r",
        u32::from(region.0),
    )?;
    text.push(b' ')?;
    text.extend_from_slice(mode_name(mode))?;
    text.push(b' ')?;
    how.put(alloc, text)
}

// Writes a line without outputs, without its line feed.
fn put_line_without_outs(alloc: Global, text: &mut Vec<u8>, line: &Line) -> Result<(), NoMemory>
    ensures { OnOk result (HasNoOuts line.now → text.new.items ≡ text.old.items ++ line_text line.now) }
{
    match line {
        Line::Post {
            object,
            signal,
            args,
        } => {
            text.extend_from_slice(b"post ")?;
            put_call(alloc, text, object.as_slice(), signal.as_slice(), args)
        }
        Line::Start { object } => {
            text.extend_from_slice(b"start ")?;
            text.extend_from_slice(object.as_slice())
        }
        Line::Take {
            object,
            number,
            firing,
        } => {
            put_place(alloc, text, b"take ", object.as_slice(), b" ", *number)?;
            text.push(b' ')?;
            firing.put(alloc, text)
        }
        Line::Done {
            object,
            state,
            firing,
        } => {
            put_place(
                alloc,
                text,
                b"done ",
                object.as_slice(),
                b" v",
                u32::from(state.0),
            )?;
            text.push(b' ')?;
            firing.put(alloc, text)
        }
        Line::Opened {
            object,
            region,
            mode,
            how,
        } => put_opened(alloc, text, object, *region, *mode, how),
        Line::Pick {
            object,
            choice,
            route,
        } => {
            put_place(
                alloc,
                text,
                b"pick ",
                object.as_slice(),
                b" v",
                u32::from(choice.0),
            )?;
            text.push(b' ')?;
            route.put(alloc, text)
        }
        _ => Ok(()),
    }
}

// Writes a line without its line feed.
fn put_line(alloc: Global, text: &mut Vec<u8>, line: &Line) -> Result<(), NoMemory>
    ensures { OnOk result (text.new.items ≡ text.old.items ++ line_text line.now) }
{
    match line {
        Line::Exit {
            object,
            state,
            outs,
        } => {
            put_place(
                alloc,
                text,
                b"exit ",
                object.as_slice(),
                b" v",
                u32::from(state.0),
            )?;
            put_outs(alloc, text, outs.as_slice())
        }
        Line::Effect {
            object,
            transition,
            outs,
        } => {
            put_place(
                alloc,
                text,
                b"effect ",
                object.as_slice(),
                b" t",
                u32::from(transition.0),
            )?;
            put_outs(alloc, text, outs.as_slice())
        }
        Line::Enter {
            object,
            state,
            outs,
        } => {
            put_place(
                alloc,
                text,
                b"enter ",
                object.as_slice(),
                b" v",
                u32::from(state.0),
            )?;
            put_outs(alloc, text, outs.as_slice())
        }
        Line::DoStep {
            object,
            state,
            step,
            outs,
        } => {
            put_place(
                alloc,
                text,
                b"do ",
                object.as_slice(),
                b" v",
                u32::from(state.0),
            )?;
            text.push(b' ')?;
            u32::from(*step).put(alloc, text)?;
            put_outs(alloc, text, outs.as_slice())
        }
        _ => put_line_without_outs(alloc, text, line),
    }
}

/// The bytes of a line, its line feed included.
pub fn write_line(alloc: Global, line: &Line) -> Result<Vec<u8>, NoMemory>
    ensures { IfOk result (λ bytes. bytes.items ≡ line_text line.now ++ 10 ∷ []) }
{
    let mut text = Vec::new(alloc);
    put_line(alloc, &mut text, line)?;
    text.push(b'\n')?;
    Ok(text)
}
