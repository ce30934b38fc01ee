//! The entry that a line writes in a setting, from its parts or from a line with names of its own.
ghost use Rattle.std.specs.Prelude.{◌≡◌, ℕ, List, IfOk, IfSome, IfNone};
ghost use Rattle.pssm_semantics.specs.declared.line.Line.{Line};
ghost use Rattle.pssm_semantics.specs.declared.line.Line.TheVariants as lines;
ghost use Rattle.pssm_lines.specs.Grammar.{IsLine};
ghost use Rattle.pssm_lines.specs.Parts.{Shows};
ghost use Rattle.pssm_journal.specs.Entries.{object_name, entry_at, entry_named, IsEntryOf, KeepsNames, BreaksNames};
ghost use Rattle.pssm_journal.specs.inner.LineOuts.{HasSpelledOuts, HasNoOuts};

use crate::known::keeps_names;
use crate::names::Names;
use crate::namespace::Namespace;
use crate::outputs::{line_outs, shown_outs};
use pssm_lines::LineParts;
use pssm_model::Duplicate;
use pssm_semantics::{Args, Entry, Line, ObjectId, Setting};
use std::alloc::{AllocError as NoMemory, Global};

// ---- from the parts of a line

// The post of a signal to an object.
#[tactic(auto, unfolding(crate::specs::Entries::entry_at))]
fn post_entry<N: Names>(names: &N, own: ObjectId, signal: &[u8], args: Args) -> Option<Entry>
    ensures { (object : List ℕ) → result ≡ entry_at (N.setting names.now) own (lines.Post object signal.now args) }
{
    let signal = names.signal(signal)?;
    Some(Entry::Post {
        object: own,
        signal,
        args,
    })
}

// The entry of an object that the parts of a line without outputs show.
#[tactic(auto, unfolding(crate::specs::Entries::entry_at))]
fn plain_entry<N: Names>(names: &N, own: ObjectId, parts: LineParts<'_>) -> Option<Entry>
    ensures { (line : Line) → HasNoOuts line → Shows parts.entry line
        → result ≡ entry_at (N.setting names.now) own line }
{
    let object = own;
    match parts {
        LineParts::Post { signal, args, .. } => post_entry(names, own, signal, args),
        LineParts::Start { .. } => Some(Entry::Start { object }),
        LineParts::Take { number, firing, .. } => Some(Entry::Take {
            object,
            number,
            firing,
        }),
        LineParts::Done { state, firing, .. } => Some(Entry::Done {
            object,
            state,
            firing,
        }),
        LineParts::Opened {
            region,
            mode,
            how,
            ..
        } => Some(Entry::Opened {
            object,
            region,
            mode,
            how,
        }),
        LineParts::Pick { choice, route, .. } => Some(Entry::Pick {
            object,
            choice,
            route,
        }),
        _ => None,
    }
}

// The entry of an object that the parts of a line show.
#[tactic(auto, unfolding(crate::specs::Entries::entry_at))]
fn shown_entry<N: Names>(
    alloc: Global,
    names: &N,
    own: ObjectId,
    parts: LineParts<'_>,
) -> Result<Option<Entry>, NoMemory>
    ensures { IfOk result (λ e. (line : Line) → HasSpelledOuts line → Shows parts.entry line
        → e ≡ entry_at (N.setting names.now) own line) }
{
    let object = own;
    match parts {
        LineParts::Exit { state, outs, .. } => match shown_outs(alloc, names, own, outs)? {
            Some(outs) => Ok(Some(Entry::Exit {
                object,
                state,
                outs,
            })),
            None => Ok(None),
        },
        LineParts::Effect {
            transition,
            outs,
            ..
        } => match shown_outs(alloc, names, own, outs)? {
            Some(outs) => Ok(Some(Entry::Effect {
                object,
                transition,
                outs,
            })),
            None => Ok(None),
        },
        LineParts::Enter { state, outs, .. } => match shown_outs(alloc, names, own, outs)? {
            Some(outs) => Ok(Some(Entry::Enter {
                object,
                state,
                outs,
            })),
            None => Ok(None),
        },
        LineParts::DoStep {
            state,
            step,
            outs,
            ..
        } => match shown_outs(alloc, names, own, outs)? {
            Some(outs) => Ok(Some(Entry::DoStep {
                object,
                state,
                step,
                outs,
            })),
            None => Ok(None),
        },
        _ => Ok(plain_entry(names, own, parts)),
    }
}

// The name of the object of a line.
fn shown_name<'a>(parts: &LineParts<'a>) -> &'a [u8]
    ensures { (line : Line) → Shows parts.now line → result.now ≡ object_name line }
{
    match parts {
        LineParts::Post { object, .. }
        | LineParts::Start { object }
        | LineParts::Take { object, .. }
        | LineParts::Done { object, .. }
        | LineParts::Exit { object, .. }
        | LineParts::Effect { object, .. }
        | LineParts::Enter { object, .. }
        | LineParts::Opened { object, .. }
        | LineParts::Pick { object, .. }
        | LineParts::DoStep { object, .. } => object,
    }
}

// The entry that the parts of a line show, where its names are known.
#[tactic(auto, unfolding(crate::specs::Entries::entry_named))]
fn entry_shown<N: Names>(
    alloc: Global,
    names: &N,
    parts: LineParts<'_>,
) -> Result<Option<Entry>, NoMemory>
    ensures { IfOk result (λ e. (line : Line) → HasSpelledOuts line → Shows parts.entry line
        → e ≡ entry_named (N.setting names.now) line) }
{
    match names.object(shown_name(&parts)) {
        Some(own) => shown_entry(alloc, names, own, parts),
        None => Ok(None),
    }
}

// ---- from a line with names of its own

// The parts of a line without outputs.
fn plain_parts(alloc: Global, line: &Line) -> Result<LineParts<'_>, NoMemory>
    ensures { IfOk result (λ parts. HasNoOuts line.now → Shows parts line.now) }
{
    Ok(match line {
        Line::Post {
            object,
            signal,
            args,
        } => LineParts::Post {
            object: object.as_slice(),
            signal: signal.as_slice(),
            args: args.copy(alloc)?,
        },
        Line::Take {
            object,
            number,
            firing,
        } => LineParts::Take {
            object: object.as_slice(),
            number: *number,
            firing: firing.duplicate(alloc)?,
        },
        Line::Done {
            object,
            state,
            firing,
        } => LineParts::Done {
            object: object.as_slice(),
            state: *state,
            firing: firing.duplicate(alloc)?,
        },
        Line::Opened {
            object,
            region,
            mode,
            how,
        } => LineParts::Opened {
            object: object.as_slice(),
            region: *region,
            mode: *mode,
            how: how.duplicate(alloc)?,
        },
        Line::Pick {
            object,
            choice,
            route,
        } => LineParts::Pick {
            object: object.as_slice(),
            choice: *choice,
            route: route.duplicate(alloc)?,
        },
        Line::Start { object }
        | Line::Exit { object, .. }
        | Line::Effect { object, .. }
        | Line::Enter { object, .. }
        | Line::DoStep { object, .. } => LineParts::Start {
            object: object.as_slice(),
        },
    })
}

// The entry of an object that a line without outputs writes, where its other names are known.
fn plain_line<N: Names>(
    alloc: Global,
    names: &N,
    own: ObjectId,
    line: &Line,
) -> Result<Option<Entry>, NoMemory>
    ensures { IfOk result (λ e. HasNoOuts line.now → e ≡ entry_at (N.setting names.now) own line.now) }
{
    let parts = plain_parts(alloc, line)?;
    Ok(plain_entry(names, own, parts))
}

// The entry of an object that a line writes, where its other names are known.
#[tactic(auto, unfolding(crate::specs::Entries::entry_at))]
fn line_entry<N: Names>(
    alloc: Global,
    names: &N,
    own: ObjectId,
    line: &Line,
) -> Result<Option<Entry>, NoMemory>
    ensures { IfOk result (λ e. e ≡ entry_at (N.setting names.now) own line.now) }
{
    let object = own;
    match line {
        Line::Exit { state, outs, .. } => match line_outs(alloc, names, own, outs.as_slice())? {
            Some(outs) => Ok(Some(Entry::Exit {
                object,
                state: *state,
                outs,
            })),
            None => Ok(None),
        },
        Line::Effect {
            transition,
            outs,
            ..
        } => match line_outs(alloc, names, own, outs.as_slice())? {
            Some(outs) => Ok(Some(Entry::Effect {
                object,
                transition: *transition,
                outs,
            })),
            None => Ok(None),
        },
        Line::Enter { state, outs, .. } => match line_outs(alloc, names, own, outs.as_slice())? {
            Some(outs) => Ok(Some(Entry::Enter {
                object,
                state: *state,
                outs,
            })),
            None => Ok(None),
        },
        Line::DoStep {
            state,
            step,
            outs,
            ..
        } => match line_outs(alloc, names, own, outs.as_slice())? {
            Some(outs) => Ok(Some(Entry::DoStep {
                object,
                state: *state,
                step: *step,
                outs,
            })),
            None => Ok(None),
        },
        _ => plain_line(alloc, names, own, line),
    }
}

// The name of the object of a line.
fn name_of(line: &Line) -> &[u8]
    ensures { result.now ≡ object_name line.now }
{
    match line {
        Line::Post { object, .. }
        | Line::Start { object }
        | Line::Take { object, .. }
        | Line::Done { object, .. }
        | Line::Exit { object, .. }
        | Line::Effect { object, .. }
        | Line::Enter { object, .. }
        | Line::Opened { object, .. }
        | Line::Pick { object, .. }
        | Line::DoStep { object, .. } => object.as_slice(),
    }
}

// The entry that a line writes, where its names are known.
#[tactic(auto, unfolding(crate::specs::Entries::entry_named))]
fn entry_written<N: Names>(alloc: Global, names: &N, line: &Line) -> Result<Option<Entry>, NoMemory>
    ensures { IfOk result (λ e. e ≡ entry_named (N.setting names.now) line.now) }
{
    match names.object(name_of(line)) {
        Some(own) => line_entry(alloc, names, own, line),
        None => Ok(None),
    }
}

// ---- where it keeps the first rule

// The entry, where it keeps the first rule.
fn kept(setting: &Setting, entry: Entry) -> Option<Entry>
    ensures some { IfSome result (λ e. (e ≡ entry) × KeepsNames setting.now e) }
    ensures none { IfNone result (KeepsNames setting.now entry → ⊥) }
{
    if keeps_names(setting, &entry) {
        Some(entry)
    } else {
        None
    }
}

/// The entry that a line writes in a setting.
///
/// `None` comes exactly where the line breaks the first rule of a run: it names an object, a signal or a mark that
/// the setting does not have, its numbers are none of the machine's, or a signal has not as many arguments.
pub fn entry_of(alloc: Global, setting: &Setting, line: &Line) -> Result<Option<Entry>, NoMemory>
    ensures found { IfOk result (λ o. IfSome o (λ e. IsEntryOf setting.now line.now e × KeepsNames setting.now e)) }
    ensures none { IfOk result (λ o. IfNone o (BreaksNames setting.now line.now)) }
{
    match entry_written(alloc, setting, line)? {
        Some(entry) => Ok(kept(setting, entry)),
        None => Ok(None),
    }
}

/// The entry that a line writes in a setting, from the line's parts and the setting's namespace.
///
/// It is that of [`entry_of`] for the line that the parts show. What the parts hold goes into the entry, and nothing
/// else is taken from the allocator but its outputs. `None` comes exactly where the line breaks the first rule of a run.
pub fn entry_of_parts(
    alloc: Global,
    setting: &Setting,
    namespace: &Namespace,
    parts: LineParts<'_>,
) -> Result<Option<Entry>, NoMemory>
    requires { namespace.now ≡ setting.now }
    ensures keeps { IfOk result (λ o. IfSome o (KeepsNames setting.now)) }
    ensures found { IfOk result (λ o. (line : Line) → IsLine line → Shows parts.entry line → IfSome o (IsEntryOf setting.now line)) }
    ensures none { IfOk result (λ o. (line : Line) → IsLine line → Shows parts.entry line → IfNone o (BreaksNames setting.now line)) }
{
    match entry_shown(alloc, namespace, parts)? {
        Some(entry) => Ok(kept(setting, entry)),
        None => Ok(None),
    }
}
