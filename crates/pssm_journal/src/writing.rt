//! The text of an entry's line, with no line between the two.
ghost use Rattle.std.specs.Prelude.{◌≡◌, ◌++◌, OnOk, map, codes};
ghost use Rattle.std.specs.Fmt.{decimal};
ghost use Rattle.pssm_semantics.specs.declared.line.Line.TheVariants as lines;
ghost use Rattle.pssm_lines.specs.LineText.{line_text, out_text, outs_text};
ghost use Rattle.pssm_journal.specs.Entries.{KeepsNames};
ghost use Rattle.pssm_journal.specs.Naming.{IsWritten};
ghost use Rattle.pssm_semantics.specs.Names.{NamesDiffer};
ghost use Rattle.pssm_journal.specs.inner.EntryLine.{out_line, line_of_entry};
ghost use Rattle.pssm_journal.specs.inner.LineOuts.{HasNoOuts};

use crate::known::object_of;
use crate::names::{mark_name, object_name, signal_name};
use crate::ranges::Ranged;
use pssm_lines::{Spelled, mode_name, put_call};
use pssm_model::{How, Mode, RegionId, VertexId};
use pssm_semantics::{Entry, ObjectId, Out, Setting};
use std::alloc::{AllocError as NoMemory, Global};

// Writes a number in decimal, its digits straight into the text.
#[tactic(auto, using(crate::proofs::Digits::of_digit, crate::proofs::Digits::of_more))]
fn put_number(text: &mut Vec<u8>, number: u32) -> Result<(), NoMemory>
    ensures { OnOk result (text.new.items ≡ text.old.items ++ decimal number) }
{
    if number >= 10 {
        put_number(text, number / 10)?;
    }
    text.push(b'0' + (number % 10) as u8)?;
    Ok(())
}

// Writes the kind of a line, its object, and a number behind a word.
fn put_place(
    text: &mut Vec<u8>,
    kind: &[u8],
    object: &[u8],
    word: &[u8],
    number: u32,
) -> Result<(), NoMemory>
    ensures { OnOk result (text.new.items ≡ text.old.items ++ (kind.now ++ (object.now ++ (word.now ++ decimal number)))) }
{
    text.extend_from_slice(kind)?;
    text.extend_from_slice(object)?;
    text.extend_from_slice(word)?;
    put_number(text, number)
}

// Writes an output of an object.
fn put_out(
    alloc: Global,
    text: &mut Vec<u8>,
    setting: &Setting,
    own: ObjectId,
    out: &Out,
) -> Result<(), NoMemory>
    ensures { OnOk result (text.new.items ≡ text.old.items ++ out_text (out_line setting.now own out.now)) }
{
    match out {
        Out::Mark { mark, args } => {
            text.push(b'!')?;
            text.extend_from_slice(mark_name(setting, own, *mark))?;
            args.put(alloc, text)
        }
        Out::Send {
            object,
            signal,
            args,
        } => {
            text.push(b'>')?;
            let object = object_name(setting, *object);
            put_call(alloc, text, object, signal_name(setting, *signal), args)
        }
    }
}

// Writes the outputs of an object, each with a space before it.
fn put_outs(
    alloc: Global,
    text: &mut Vec<u8>,
    setting: &Setting,
    own: ObjectId,
    outs: &[Out],
) -> Result<(), NoMemory>
    ensures { OnOk result (text.new.items ≡ text.old.items ++ outs_text (map (out_line setting.now own) outs.now)) }
{
    for out in outs {
        text.push(b' ')?;
        put_out(alloc, text, setting, own, out)?;
    }
    Ok(())
}

// Writes the line of an opening.
#[tactic(auto, unfolding(crate::specs::inner::EntryLine::line_of_entry))]
fn put_opened(
    alloc: Global,
    text: &mut Vec<u8>,
    object: &[u8],
    region: RegionId,
    mode: Mode,
    how: &How,
) -> Result<(), NoMemory>
    ensures { OnOk result (text.new.items ≡ text.old.items ++ line_text (lines.Opened object.now region mode how.now)) }
{
    put_place(text, b"open ", object, b" r", u32::from(region.0))?;
    text.push(b' ')?;
    text.extend_from_slice(mode_name(mode))?;
    text.push(b' ')?;
    how.put(alloc, text)
}

// Writes the line of an entry without outputs, without its line feed.
#[tactic(auto, unfolding(crate::specs::inner::EntryLine::line_of_entry))]
fn put_plain(
    alloc: Global,
    text: &mut Vec<u8>,
    setting: &Setting,
    entry: &Entry,
) -> Result<(), NoMemory>
    ensures { OnOk result (HasNoOuts (line_of_entry setting.now entry.now)
        → text.new.items ≡ text.old.items ++ line_text (line_of_entry setting.now entry.now)) }
{
    let object = object_name(setting, object_of(entry));
    match entry {
        Entry::Post { signal, args, .. } => {
            text.extend_from_slice(b"post ")?;
            put_call(alloc, text, object, signal_name(setting, *signal), args)
        }
        Entry::Start { .. } => {
            text.extend_from_slice(b"start ")?;
            text.extend_from_slice(object)
        }
        Entry::Take { number, firing, .. } => {
            put_place(text, b"take ", object, b" ", *number)?;
            text.push(b' ')?;
            firing.put(alloc, text)
        }
        Entry::Done { state, firing, .. } => {
            put_place(text, b"done ", object, b" v", u32::from(state.0))?;
            text.push(b' ')?;
            firing.put(alloc, text)
        }
        Entry::Opened {
            region,
            mode,
            how,
            ..
        } => put_opened(alloc, text, object, *region, *mode, how),
        Entry::Pick { choice, route, .. } => {
            put_place(text, b"pick ", object, b" v", u32::from(choice.0))?;
            text.push(b' ')?;
            route.put(alloc, text)
        }
        _ => Ok(()),
    }
}

// Writes the front of the line of a step of a do-activity, up to its outputs.
fn put_step(text: &mut Vec<u8>, object: &[u8], state: VertexId, step: u16) -> Result<(), NoMemory>
    ensures { OnOk result (text.new.items ≡ text.old.items
        ++ (codes "do " ++ (object.now ++ (codes " v" ++ (decimal state.0 ++ (codes " " ++ decimal step)))))) }
{
    put_place(text, b"do ", object, b" v", u32::from(state.0))?;
    text.push(b' ')?;
    put_number(text, u32::from(step))
}

// Writes the line of an entry, without its line feed.
#[tactic(auto, unfolding(crate::specs::inner::EntryLine::line_of_entry))]
fn put_named(
    alloc: Global,
    text: &mut Vec<u8>,
    setting: &Setting,
    entry: &Entry,
) -> Result<(), NoMemory>
    ensures { OnOk result (text.new.items ≡ text.old.items ++ line_text (line_of_entry setting.now entry.now)) }
{
    let own = object_of(entry);
    let object = object_name(setting, own);
    match entry {
        Entry::Exit { state, outs, .. } => {
            put_place(text, b"exit ", object, b" v", u32::from(state.0))?;
            put_outs(alloc, text, setting, own, outs.as_slice())
        }
        Entry::Effect {
            transition,
            outs,
            ..
        } => {
            let number = u32::from(transition.0);
            put_place(text, b"effect ", object, b" t", number)?;
            put_outs(alloc, text, setting, own, outs.as_slice())
        }
        Entry::Enter { state, outs, .. } => {
            put_place(text, b"enter ", object, b" v", u32::from(state.0))?;
            put_outs(alloc, text, setting, own, outs.as_slice())
        }
        Entry::DoStep {
            state,
            step,
            outs,
            ..
        } => {
            put_step(text, object, *state, *step)?;
            put_outs(alloc, text, setting, own, outs.as_slice())
        }
        _ => put_plain(alloc, text, setting, entry),
    }
}

/// Writes the line of an entry of the setting at the end of a text, its line feed included: the line of
/// [`crate::line_of`], and nothing is taken from the allocator but for the text.
///
/// It takes an entry that keeps the first rule of a run, and a setting in which names differ. Where memory runs out
/// the text may have got a front of the line.
pub fn put_entry(
    alloc: Global,
    text: &mut Vec<u8>,
    setting: &Setting,
    entry: &Entry,
) -> Result<(), NoMemory>
    requires names { KeepsNames setting.now entry.now }
    requires differ { NamesDiffer setting.now }
    ensures { OnOk result (IsWritten setting.now entry.now text.old.items text.new.items) }
{
    entry.look();
    put_named(alloc, text, setting, entry)?;
    text.push(b'\n')?;
    Ok(())
}
