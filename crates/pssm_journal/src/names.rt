//! What the names of a line stand for in a setting, and which name a number has.
ghost use Rattle.std.specs.Prelude.{◌≡◌, ℕ, position, Some, option_map};
ghost use Rattle.std.specs.Option.{option_copied};
ghost use Rattle.std.specs.Str.{bytes_eq};
ghost use Rattle.pssm_semantics.specs.declared.setting.Setting.{Setting};
ghost use Rattle.pssm_semantics.specs.Settings.{class_of};
ghost use Rattle.pssm_journal.specs.Entries.{numbered, object_named, signal_named, mark_named, own_mark_named};
ghost use Rattle.pssm_journal.specs.inner.EntryLine.{name_of_object, name_of_signal, name_of_mark};

use crate::places::Named;
use pssm_model::{MarkId, SignalId};
use pssm_semantics::{Class, ObjectId, Setting};

/// What names stand for in a setting, the first of several that have one name.
pub trait Names {
    ghost setting: { Self → Setting };

    /// The object of a name.
    fn object(&self, name: &[u8]) -> Option<ObjectId>
        ensures { result ≡ object_named (setting self.now) name.now };

    /// The signal of a name.
    fn signal(&self, name: &[u8]) -> Option<SignalId>
        ensures { result ≡ signal_named (setting self.now) name.now };

    /// The mark of a name in the class of an object.
    fn mark(&self, own: ObjectId, name: &[u8]) -> Option<MarkId>
        ensures { result ≡ own_mark_named (setting self.now) own name.now };
}

// The first place at which one of these has the name.
fn place_among<T: Named>(named: &[T], name: &[u8]) -> Option<usize>
    ensures { result ≡ position (λ x. bytes_eq (T.name_of x) name.now) named.now }
{
    named.iter().position(|x| x.name() == name)
}

/// The object at a place, where there may be so many.
pub fn object_id(place: usize) -> Option<ObjectId>
    ensures { result ≡ option_map (λ i. record { 0 = i }) (numbered 256 (Some place)) }
{
    if place < 256 {
        Some(ObjectId(place as u8))
    } else {
        None
    }
}

/// The signal at a place, where there may be so many.
pub fn signal_id(place: usize) -> Option<SignalId>
    ensures { result ≡ option_map (λ i. record { 0 = i }) (numbered 65536 (Some place)) }
{
    if place < 65_536 {
        Some(SignalId(place as u16))
    } else {
        None
    }
}

/// The mark at a place, where there may be so many.
pub fn mark_id(place: usize) -> Option<MarkId>
    ensures { result ≡ option_map (λ i. record { 0 = i }) (numbered 65536 (Some place)) }
{
    if place < 65_536 {
        Some(MarkId(place as u16))
    } else {
        None
    }
}

impl Names for Setting {
    ghost setting = { λ s. s };

    #[tactic(auto, unfolding(crate::specs::Entries::object_named))]
    fn object(&self, name: &[u8]) -> Option<ObjectId> {
        object_id(place_among(self.objects.as_slice(), name)?)
    }

    #[tactic(auto, unfolding(crate::specs::Entries::signal_named))]
    fn signal(&self, name: &[u8]) -> Option<SignalId> {
        signal_id(place_among(self.signals.as_slice(), name)?)
    }

    #[tactic(auto, unfolding(crate::specs::Entries::own_mark_named, crate::specs::Entries::mark_named))]
    fn mark(&self, own: ObjectId, name: &[u8]) -> Option<MarkId> {
        let class = class_at(self, own)?;
        mark_id(place_among(class.program.marks.as_slice(), name)?)
    }
}

/// The class of an object.
pub fn class_at(setting: &Setting, object: ObjectId) -> Option<&Class>
    ensures { option_copied result ≡ class_of setting.now object }
{
    let declared = setting.objects.as_slice().get(object.0 as usize)?;
    setting.classes.as_slice().get(declared.class as usize)
}

/// The name of an object, empty where there is no such object.
pub fn object_name(setting: &Setting, object: ObjectId) -> &[u8]
    ensures { result.now ≡ name_of_object setting.now object }
{
    match setting.objects.as_slice().get(object.0 as usize) {
        Some(declared) => declared.name.as_slice(),
        None => &[],
    }
}

/// The name of a signal, empty where there is no such signal.
pub fn signal_name(setting: &Setting, signal: SignalId) -> &[u8]
    ensures { result.now ≡ name_of_signal setting.now signal }
{
    match setting.signals.as_slice().get(signal.0 as usize) {
        Some(declared) => declared.name.as_slice(),
        None => &[],
    }
}

/// The name of a mark of an object's class, empty where there is no such mark.
pub fn mark_name(setting: &Setting, object: ObjectId, mark: MarkId) -> &[u8]
    ensures { result.now ≡ name_of_mark setting.now object mark }
{
    let Some(class) = class_at(setting, object) else {
        return &[];
    };
    match class.program.marks.as_slice().get(mark.0 as usize) {
        Some(name) => name.as_slice(),
        None => &[],
    }
}
