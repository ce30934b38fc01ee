//! The verdict on one more entry.
ghost use Rattle.std.specs.Prelude.{◌≡◌, IfOk};
ghost use Rattle.std.specs.Option.{option_copied};
ghost use Rattle.pssm_semantics.specs.Proper.{IsWellFormed};
ghost use Rattle.pssm_system.specs.inner.Deferring.{if_numbered as numbered_so};

use crate::entries::{class_of, object_of};
use crate::situation::Situation;
use pssm_pool::Waiting;
use pssm_semantics::{Entry, Rule, Setting};
use std::alloc::AllocError as NoMemory;

impl Situation {
    ghost use Rattle.pssm_system.specs.inner.Keeping.{Stands};
    ghost use Rattle.pssm_system.specs.inner.Judging.{IsKnown, ItsObjectSays, Judges};
    ghost use Rattle.pssm_system.specs.inner.Deferring.{ComesWith};

    /// The first rule that the entry breaks, if it breaks one. What it names is known (A1).
    #[inline(always)]
    pub fn judge(&self, setting: &Setting, entry: &Entry) -> Result<Option<Rule>, NoMemory>
        requires well_formed { IsWellFormed setting.now }
        requires stands { Stands setting.now self.now }
        requires known { IsKnown setting.now entry.now }
        ensures { IfOk result (Judges setting.now self.now entry.now) }
    {
        let signal = self.signal_for(setting, entry);
        let answer = self.ask(setting, entry, signal)?;
        match (entry, signal) {
            (Entry::Take { .. }, None) => Ok(Some(answer.unwrap_or(Rule::A6))),
            _ => Ok(answer),
        }
    }

    // The signal that a take may take: the first that is not deferred, if it has the number that the take names.
    #[inline(always)]
    fn signal_for(&self, setting: &Setting, entry: &Entry) -> Option<&Waiting>
        requires well_formed { IsWellFormed setting.now }
        requires stands { Stands setting.now self.now }
        requires known { IsKnown setting.now entry.now }
        ensures { ComesWith setting.now self.now entry.now (option_copied result) }
    {
        match entry {
            Entry::Take { object, number, .. } => if_numbered(
                self.first_for(setting, *object),
                *number,
            ),
            _ => None,
        }
    }

    // What its object says of the entry, where a take comes with its signal.
    #[inline(always)]
    fn ask(
        &self,
        setting: &Setting,
        entry: &Entry,
        signal: Option<&Waiting>,
    ) -> Result<Option<Rule>, NoMemory>
        requires well_formed { IsWellFormed setting.now }
        requires stands { Stands setting.now self.now }
        requires known { IsKnown setting.now entry.now }
        ensures { IfOk result (ItsObjectSays setting.now self.now (option_copied signal.entry) entry.now) }
    {
        let own = object_of(entry);
        let object = &self.objects[usize::from(own.0)];
        object.allows(class_of(setting, own), entry, signal)
    }
}

// The signal, if it has this number.
#[inline(always)]
fn if_numbered(signal: Option<&Waiting>, number: u32) -> Option<&Waiting>
    ensures { option_copied result ≡ numbered_so number (option_copied signal.entry) }
{
    let first = signal?;
    if first.number == number {
        Some(first)
    } else {
        None
    }
}
