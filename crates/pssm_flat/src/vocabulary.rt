//! `Vocabulary`: the names that the behaviours of a block may use.
ghost use Rattle.std.specs.Prelude.{◌≡◌, ◌++◌, ◌∷◌, [], length, map, IfOk, OnOk};
ghost use Rattle.pssm_flat.specs.inner.Outlines.{has_name, itself, with_var_name};

use pssm_acts::{Index, Known};
use pssm_model::{Row, Text};
use pssm_semantics::{Names, SignalDecl};
use std::alloc::{AllocError, Global};
use std::marker::Model;

/// Names with an index of each of their lists. A clause sees the names.
#[derive(Drop)]
pub(crate) struct Vocabulary {
    names: Names,
    vars: Index,
    objects: Index,
    signals: Index,
}

impl Model for Vocabulary {
    ghost use Rattle.pssm_semantics.specs.declared.setting.Names.{Names};
    ghost use Rattle.pssm_acts.specs.Indexes.{AreIndexesOf};

    ghost Value = { Names };

    ghost view = { λ v. v.names };

    ghost invariant = { λ v. AreIndexesOf v.names v.vars v.objects v.signals };
}

impl Vocabulary {
    /// The names where no variable has been read.
    pub fn of(
        alloc: Global,
        objects: Row<Text>,
        signals: Row<SignalDecl>,
    ) -> Result<Vocabulary, AllocError>
        ensures { IfOk result (λ v. v ≡ record { vars = []; objects = objects; signals = signals }) }
    {
        let of_objects = Index::of(alloc, objects.as_slice())?;
        let of_signals = Index::of(alloc, signals.as_slice())?;
        let vars = Row::from_vec(Vec::new(alloc));
        Ok(Vocabulary {
            names: Names {
                vars,
                objects,
                signals,
            },
            vars: Index::none(),
            objects: of_objects,
            signals: of_signals,
        })
    }

    /// The names, as behaviours seek them.
    pub fn known(&self) -> Known<'_>
        ensures { result ≡ self.now }
    {
        Known::of(&self.names, &self.vars, &self.objects, &self.signals)
    }

    /// Whether a variable has the name.
    #[tactic(auto, using(crate::proofs::FoundLaws::place_any))]
    pub fn has_var(&self, name: &[u8]) -> bool
        ensures { result ≡ has_name itself self.now.vars name.now }
    {
        self.vars.place(self.names.vars.as_slice(), name).is_some()
    }

    /// Puts the name of one more variable behind the others.
    pub fn add_var(&mut self, alloc: Global, name: Text) -> Result<(), AllocError>
        ensures { OnOk result (self.new ≡ with_var_name self.old name) }
    {
        self.vars.push(alloc, &mut self.names.vars, name)
    }
}
