//! The entry that a brief line writes: it is small, and is asked for its names before it is built.
ghost use Rattle.std.specs.Prelude.{◌≡◌, ◌↔◌, ℕ, List, option_map, IsTrue, IfSome, IfNone};
ghost use Rattle.pssm_semantics.specs.declared.entry.ObjectId.{ObjectId as Object};
ghost use Rattle.pssm_semantics.specs.Known.{NamesKnown};
ghost use Rattle.pssm_semantics.specs.Names.{NamesDiffer};
ghost use Rattle.pssm_lines.specs.Parts.{line_of_act, brief_line};
ghost use Rattle.pssm_journal.specs.Entries.{object_named, signal_named, entry_at, entry_named, IsEntryOf, KeepsNames, BreaksNames};
ghost use Rattle.pssm_journal.specs.Briefs.{entry_of_act, brief_entry};

use crate::known::{has_count, is_transition_of, is_vertex_of};
use crate::names::{Names, class_at};
use crate::namespace::Namespace;
use pssm_lines::{BriefAct, BriefParts};
use pssm_model::{SignalId, TransId, VertexId};
use pssm_semantics::{Class, ObjectId, Setting};

/// What a brief entry tells of its object.
#[derive(Clone, Copy)]
pub enum EntryAct {
    Post { signal: SignalId },
    Take { number: u32, start: TransId },
    Exit { state: VertexId },
    Effect { transition: TransId },
    Enter { state: VertexId },
}

/// A brief entry: one of the most frequent kinds, without arguments and outputs, and of what fires one route of one
/// start.
#[derive(Clone, Copy)]
pub struct BriefEntry {
    pub object: ObjectId,
    pub act: EntryAct,
}

/// The object and the signal whose names a look-up tries first: those of the line before are often meant again.
#[derive(Clone, Copy)]
pub struct Near {
    pub object: ObjectId,
    pub signal: SignalId,
}

// Whether two names are the same.
#[inline(always)]
fn is_named(own: &[u8], name: &[u8]) -> bool
    ensures { IsTrue result ↔ (own.now ≡ name.now) }
{
    own == name
}

// The object of a name.
#[inline(always)]
fn object_near(
    setting: &Setting,
    namespace: &Namespace,
    near: ObjectId,
    name: &[u8],
) -> Option<ObjectId>
    requires same { namespace.now ≡ setting.now }
    requires differ { NamesDiffer setting.now }
    ensures { result ≡ object_named setting.now name.now }
{
    if let Some(declared) = setting.objects.as_slice().get(near.0 as usize) {
        if is_named(declared.name.as_slice(), name) {
            return Some(near);
        }
    }
    namespace.object(name)
}

// The signal of a name.
#[inline(always)]
fn signal_near(
    setting: &Setting,
    namespace: &Namespace,
    near: SignalId,
    name: &[u8],
) -> Option<SignalId>
    requires same { namespace.now ≡ setting.now }
    requires differ { NamesDiffer setting.now }
    ensures { result ≡ signal_named setting.now name.now }
{
    if let Some(declared) = setting.signals.as_slice().get(near.0 as usize) {
        if is_named(declared.name.as_slice(), name) {
            return Some(near);
        }
    }
    namespace.signal(name)
}

// What is told of an object, where the signal is known.
#[inline(always)]
#[tactic(auto, unfolding(crate::specs::Entries::entry_at, crate::specs::Entries::outs_named))]
fn act_named(
    setting: &Setting,
    namespace: &Namespace,
    near: SignalId,
    act: BriefAct<'_>,
) -> Option<EntryAct>
    requires same { namespace.now ≡ setting.now }
    requires differ { NamesDiffer setting.now }
    ensures { (own : Object) (object : List ℕ) → option_map (entry_of_act own) result
        ≡ entry_at setting.now own (line_of_act object act.entry) }
{
    match act {
        BriefAct::Post { signal } => {
            let signal = signal_near(setting, namespace, near, signal)?;
            Some(EntryAct::Post { signal })
        }
        BriefAct::Take { number, start } => Some(EntryAct::Take { number, start }),
        BriefAct::Exit { state } => Some(EntryAct::Exit { state }),
        BriefAct::Effect { transition } => Some(EntryAct::Effect { transition }),
        BriefAct::Enter { state } => Some(EntryAct::Enter { state }),
    }
}

// The entry that a brief line shows, where its names are known.
#[inline(always)]
#[tactic(auto, unfolding(crate::specs::Entries::entry_named))]
fn entry_shown(
    setting: &Setting,
    namespace: &Namespace,
    near: Near,
    parts: BriefParts<'_>,
) -> Option<BriefEntry>
    requires same { namespace.now ≡ setting.now }
    requires differ { NamesDiffer setting.now }
    ensures { option_map brief_entry result ≡ entry_named setting.now (brief_line parts.entry) }
{
    let object = object_near(setting, namespace, near.object, parts.object)?;
    let act = act_named(setting, namespace, near.signal, parts.act)?;
    Some(BriefEntry { object, act })
}

// Whether what is told of an object of the class names what the setting has.
#[inline(always)]
fn is_known(setting: &Setting, class: &Class, act: EntryAct) -> bool
    ensures { (own : Object) → IsTrue result ↔ NamesKnown setting.now class.now (entry_of_act own act) }
{
    let machine = &class.machine;
    match act {
        EntryAct::Post { signal } => has_count(setting, signal, 0),
        EntryAct::Take { start, .. } => is_transition_of(machine, start),
        EntryAct::Exit { state } | EntryAct::Enter { state } => is_vertex_of(machine, state),
        EntryAct::Effect { transition } => is_transition_of(machine, transition),
    }
}

// Whether the entry keeps the first rule.
#[inline(always)]
fn keeps_names(setting: &Setting, entry: BriefEntry) -> bool
    ensures { IsTrue result ↔ KeepsNames setting.now (brief_entry entry) }
{
    match class_at(setting, entry.object) {
        Some(class) => is_known(setting, class, entry.act),
        None => false,
    }
}

/// The entry that a brief line writes in a setting whose names differ, from the setting's namespace. Takes no memory.
///
/// `None` comes exactly where the line breaks the first rule of a run. What is near does not change the answer.
#[inline(always)]
pub fn entry_of_brief(
    setting: &Setting,
    namespace: &Namespace,
    near: Near,
    parts: BriefParts<'_>,
) -> Option<BriefEntry>
    requires same { namespace.now ≡ setting.now }
    requires differ { NamesDiffer setting.now }
    ensures keeps { IfSome result (λ e. KeepsNames setting.now (brief_entry e)) }
    ensures found { IfSome result (λ e. IsEntryOf setting.now (brief_line parts.entry) (brief_entry e)) }
    ensures none { IfNone result (BreaksNames setting.now (brief_line parts.entry)) }
{
    let entry = entry_shown(setting, namespace, near, parts)?;
    if keeps_names(setting, entry) {
        Some(entry)
    } else {
        None
    }
}
