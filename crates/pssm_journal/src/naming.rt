//! The line that writes an entry of a setting.
ghost use Rattle.std.specs.Prelude.{◌≡◌, ◌+◌, length, IfOk};
ghost use Rattle.pssm_semantics.specs.Pool.{posts_of_entry, outs_of as outs_in};
ghost use Rattle.pssm_lines.specs.Grammar.{IsLine};
ghost use Rattle.pssm_journal.specs.Entries.{IsEntryOf, KeepsNames};
ghost use Rattle.pssm_journal.specs.Judged.{line_output_count};
ghost use Rattle.pssm_journal.specs.Naming.{IsSpelledEntry};
ghost use Rattle.pssm_semantics.specs.Names.{NamesDiffer, HasSpelledNames};
ghost use Rattle.pssm_journal.specs.inner.EntryLine.{line_of_entry};

use crate::entry_lines::{
    do_step_line, done_line, effect_line, enter_line, exit_line, opened_line, pick_line, post_line,
    start_line, take_line,
};
use crate::known::object_of;
use crate::ranges::Ranged;
use pssm_semantics::{Entry, Line, Setting};
use std::alloc::{AllocError as NoMemory, Global};

// The line of an entry, with its names.
fn named_line(alloc: Global, setting: &Setting, entry: &Entry) -> Result<Line, NoMemory>
    ensures { IfOk result (λ line. line ≡ line_of_entry setting.now entry.now) }
{
    let own = object_of(entry);
    match entry {
        Entry::Post { signal, args, .. } => post_line(alloc, setting, own, *signal, args),
        Entry::Start { .. } => start_line(alloc, setting, own),
        Entry::Take { number, firing, .. } => take_line(alloc, setting, own, *number, firing),
        Entry::Done { state, firing, .. } => done_line(alloc, setting, own, *state, firing),
        Entry::Exit { state, outs, .. } => exit_line(alloc, setting, own, *state, outs),
        Entry::Effect {
            transition,
            outs,
            ..
        } => effect_line(alloc, setting, own, *transition, outs),
        Entry::Enter { state, outs, .. } => enter_line(alloc, setting, own, *state, outs),
        Entry::Opened {
            region,
            mode,
            how,
            ..
        } => opened_line(alloc, setting, own, *region, *mode, how),
        Entry::Pick { choice, route, .. } => pick_line(alloc, setting, own, *choice, route),
        Entry::DoStep {
            state,
            step,
            outs,
            ..
        } => do_step_line(alloc, setting, own, *state, *step, outs),
    }
}

/// The line that writes an entry of the setting.
///
/// It takes an entry that keeps the first rule of a run, and a setting in which names differ. The line has no more
/// than its entry: a line of the grammar where the entry's numbers and outputs are within the limits of a line.
#[tactic(auto, using(crate::proofs::NamedLines::line_writes, crate::proofs::NamedLines::line_is_spelled))]
pub fn line_of(alloc: Global, setting: &Setting, entry: &Entry) -> Result<Line, NoMemory>
    requires names { KeepsNames setting.now entry.now }
    requires differ { NamesDiffer setting.now }
    ensures writes { IfOk result (λ line. IsEntryOf setting.now line entry.now) }
    ensures spelled { IfOk result (λ line. HasSpelledNames setting.now → IsSpelledEntry entry.now → IsLine line) }
    ensures outputs { IfOk result (λ line. line_output_count line ≡ length (posts_of_entry entry.now) + length (outs_in entry.now)) }
{
    entry.look();
    named_line(alloc, setting, entry)
}
