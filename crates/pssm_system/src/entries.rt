//! Of an entry its object and its signals, and of an object its class.
ghost use Rattle.std.specs.Prelude.{◌≡◌, ◌<◌, [], length, Some, IsTrue, IfOk, IfSome, flat_map};
ghost use Rattle.pssm_semantics.specs.Settings.{class_of as class_in};
ghost use Rattle.pssm_semantics.specs.Journal.{object_of as object_in};
ghost use Rattle.pssm_semantics.specs.Pool.{signals_of_entry, signals_of_out};
ghost use Rattle.pssm_semantics.specs.Proper.{IsProper};

use pssm_model::Duplicate;
use pssm_semantics::{Class, Entry, ObjectId, Out, Setting, Stimulus};
use std::alloc::{AllocError as NoMemory, Global};

/// The class of an object of the setting.
#[inline(always)]
pub fn class_of(setting: &Setting, object: ObjectId) -> &Class
    requires proper { IsProper setting.now }
    requires there { object.0 < length setting.now.objects }
    ensures { class_in setting.now object ≡ Some result.now }
{
    let class = setting.objects.as_slice()[usize::from(object.0)].class;
    &setting.classes.as_slice()[usize::from(class)]
}

/// The object whose entry it is.
#[inline(always)]
pub fn object_of(entry: &Entry) -> ObjectId
    ensures { result ≡ object_in entry.now }
{
    match entry {
        Entry::Post { object, .. }
        | Entry::Start { object }
        | Entry::Take { object, .. }
        | Entry::Done { object, .. }
        | Entry::Exit { object, .. }
        | Entry::Effect { object, .. }
        | Entry::Enter { object, .. }
        | Entry::Opened { object, .. }
        | Entry::Pick { object, .. }
        | Entry::DoStep { object, .. } => *object,
    }
}

/// The signals that an entry posts or sends, in order.
pub fn signals_of(alloc: Global, entry: &Entry) -> Result<Vec<Stimulus>, NoMemory>
    ensures { IfOk result (λ signals. signals.items ≡ signals_of_entry entry.now) }
{
    match entry {
        Entry::Post {
            object,
            signal,
            args,
        } => {
            let stimulus = Stimulus {
                object: *object,
                signal: *signal,
                args: args.duplicate(alloc)?,
            };
            Ok(vec![in alloc; stimulus]?)
        }
        Entry::Exit { outs, .. }
        | Entry::Effect { outs, .. }
        | Entry::Enter { outs, .. }
        | Entry::DoStep { outs, .. } => sends_of(alloc, outs.as_slice()),
        Entry::Start { .. }
        | Entry::Take { .. }
        | Entry::Done { .. }
        | Entry::Opened { .. }
        | Entry::Pick { .. } => Ok(Vec::new(alloc)),
    }
}

/// The output of an entry that has one alone.
#[inline(always)]
pub fn only_out(entry: &Entry) -> Option<&Out>
    ensures { IfSome result (λ out. signals_of_entry entry.now ≡ signals_of_out out.now) }
{
    match entry {
        Entry::Exit { outs, .. }
        | Entry::Effect { outs, .. }
        | Entry::Enter { outs, .. }
        | Entry::DoStep { outs, .. } => only_of(outs.as_slice()),
        Entry::Post { .. }
        | Entry::Start { .. }
        | Entry::Take { .. }
        | Entry::Done { .. }
        | Entry::Opened { .. }
        | Entry::Pick { .. } => None,
    }
}

// The output, where there is one alone.
#[inline(always)]
fn only_of(outs: &[Out]) -> Option<&Out>
    ensures { IfSome result (λ out. flat_map signals_of_out outs.now ≡ signals_of_out out.now) }
{
    match outs {
        [out] => Some(out),
        _ => None,
    }
}

/// Whether the entry has no signals. One with outputs counts as one that may have some.
#[inline(always)]
pub fn sends_nothing(entry: &Entry) -> bool
    ensures { IsTrue result → signals_of_entry entry.now ≡ [] }
{
    match entry {
        Entry::Post { .. } => false,
        Entry::Exit { outs, .. }
        | Entry::Effect { outs, .. }
        | Entry::Enter { outs, .. }
        | Entry::DoStep { outs, .. } => outs.as_slice().is_empty(),
        Entry::Start { .. }
        | Entry::Take { .. }
        | Entry::Done { .. }
        | Entry::Opened { .. }
        | Entry::Pick { .. } => true,
    }
}

// The signals that these outputs send, in order.
fn sends_of(alloc: Global, outs: &[Out]) -> Result<Vec<Stimulus>, NoMemory>
    ensures { IfOk result (λ signals. signals.items ≡ flat_map signals_of_out outs.now) }
{
    let mut signals = Vec::new(alloc);
    for out in outs {
        if let Out::Send {
            object,
            signal,
            args,
        } = out
        {
            signals.push(Stimulus {
                object: *object,
                signal: *signal,
                args: args.duplicate(alloc)?,
            })?;
        }
    }
    Ok(signals)
}
