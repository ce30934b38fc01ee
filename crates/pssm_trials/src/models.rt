//! The model of most rows, and what a run of a model begins with.
ghost use Rattle.std.specs.Prelude.{◌≤◌, length, IfOk};
ghost use Rattle.std.specs.List.{AllByRecursion};
ghost use Rattle.pssm_semantics.specs.Proper.{IsWellFormed};
ghost use Rattle.pssm_journal.specs.Entries.{KeepsNames};
ghost use Rattle.pssm_semantics.specs.Known.{IsStimulusOf};

use crate::failure::{Failure, came};
use pssm_journal::entry_of;
use pssm_load::load;
use pssm_model::Text;
use pssm_semantics::{Args, Entry, Line, Setting, Stimulus};
use std::alloc::Global;

// How many bytes a model has at most.
const MOST: usize = 1 << 16;

/// An object in two regions: Go leads on in both, and each effect adds one to the same variable. A start has 10 entries, and
/// a Go 8: its post, the take, and the exit, the effect and the entry in each region.
pub const BOTH: &[u8] = b"pssm-flat 1\nsignal Go 0\nclass M\nobject a M\nmachine M\nvar x 0\n\
    region r0 top\nregion r1 v1\nregion r2 v1\n\
    vertex v0 r0 initial\nvertex v1 r0 state S\nvertex v2 r1 initial\nvertex v3 r1 state P\n\
    vertex v4 r1 state P2\nvertex v5 r2 initial\nvertex v6 r2 state R\nvertex v7 r2 state R2\n\
    transition t0 v0 v1 external\ntransition t1 v2 v3 external\ntransition t2 v5 v6 external\n\
    transition t3 v3 v4 external\non Go\neffect x := x + 1;\n\
    transition t4 v6 v7 external\non Go\neffect x := x + 1;\nend\n";

/// The setting of a model's text.
pub fn setting_of(alloc: Global, text: &[u8]) -> Result<Setting, Failure>
    ensures { IfOk result IsWellFormed }
{
    if text.len() > MOST {
        return Err(came(alloc, "the model is long"));
    }
    match load(alloc, text) {
        Ok(setting) => Ok(setting),
        Err(_) => Err(came(alloc, "the model is refused")),
    }
}

/// The stimulus `a.Go()`, where it is asked for, and else none.
pub fn stimuli_of(alloc: Global, setting: &Setting, has_go: bool) -> Result<Vec<Stimulus>, Failure>
    ensures { IfOk result (λ stimuli. AllByRecursion (IsStimulusOf setting.now) stimuli.items) }
{
    if has_go {
        let stimulus = go(alloc, setting)?;
        Ok(vec![in alloc; stimulus]?)
    } else {
        Ok(Vec::new(alloc))
    }
}

// The stimulus `a.Go()`.
fn go(alloc: Global, setting: &Setting) -> Result<Stimulus, Failure>
    ensures { IfOk result (IsStimulusOf setting.now) }
{
    let line = Line::Post {
        object: Text::from_vec(b"a".to_vec(alloc)?),
        signal: Text::from_vec(b"Go".to_vec(alloc)?),
        args: Args::from_vec(Vec::new(alloc)),
    };
    match entry_of(alloc, setting, &line)? {
        Some(entry) => posted(alloc, setting, entry),
        None => Err(came(alloc, "the stimulus is not known")),
    }
}

// The stimulus that an entry of the setting posts.
fn posted(alloc: Global, setting: &Setting, entry: Entry) -> Result<Stimulus, Failure>
    requires { KeepsNames setting.now entry }
    ensures { IfOk result (IsStimulusOf setting.now) }
{
    match entry {
        Entry::Post {
            object,
            signal,
            args,
        } => Ok(Stimulus {
            object,
            signal,
            args,
        }),
        other => {
            drop(other);
            Err(came(alloc, "the entry is no post"))
        }
    }
}
