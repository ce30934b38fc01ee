//! `Known`: the names that behaviours may use, as they are sought.
ghost use Rattle.std.specs.Prelude.{◌≡◌, ◌≤◌, ◌<◌, length, position, bytes_eq, IfSome};
ghost use Rattle.pssm_acts.specs.Indexes.{AreIndexesOf};

use crate::index::Index;
use pssm_semantics::Names;
use std::marker::Model;

/// The names that a behaviour may use, lent with an index of each of their lists. A clause sees the names.
#[derive(Drop)]
pub struct Known<'a> {
    names: &'a Names,
    vars: &'a Index,
    objects: &'a Index,
    signals: &'a Index,
}

impl<'a> Model for Known<'a> {
    ghost use Rattle.pssm_semantics.specs.declared.setting.Names.{Names};
    ghost use Rattle.pssm_acts.specs.Indexes.{AreIndexesOf};

    ghost Value = { Names };

    ghost view = { λ k. k.names.now };

    ghost invariant = { λ k. AreIndexesOf k.names.now k.vars.now k.objects.now k.signals.now };
}

impl<'a> Known<'a> {
    /// Names with their indexes.
    pub fn of(
        names: &'a Names,
        vars: &'a Index,
        objects: &'a Index,
        signals: &'a Index,
    ) -> Known<'a>
        requires { AreIndexesOf names.now vars.now objects.now signals.now }
        ensures { result ≡ names.now }
    {
        Known {
            names,
            vars,
            objects,
            signals,
        }
    }

    /// The names.
    pub fn names(&self) -> &Names
        ensures { result.now ≡ self.now }
    {
        self.names
    }

    // The number of a variable.
    pub(crate) fn variable(&self, name: &[u8]) -> Option<u16>
        requires few { length self.now.vars ≤ 65536 }
        ensures { result ≡ position (λ n. bytes_eq n name.now) self.now.vars }
    {
        let place = self.vars.place(self.names.vars.as_slice(), name)?;
        Some(place as u16)
    }

    // The place of an object.
    pub(crate) fn object(&self, name: &[u8]) -> Option<usize>
        ensures gives { result ≡ position (λ n. bytes_eq n name.now) self.now.objects }
        ensures within { IfSome result (λ k. k < length self.now.objects) }
    {
        self.objects.place(self.names.objects.as_slice(), name)
    }

    /// The place of the first signal with the name.
    pub fn signal(&self, name: &[u8]) -> Option<usize>
        ensures gives { result ≡ position (λ d. bytes_eq d.name name.now) self.now.signals }
        ensures within { IfSome result (λ k. k < length self.now.signals) }
    {
        self.signals.place(self.names.signals.as_slice(), name)
    }
}
