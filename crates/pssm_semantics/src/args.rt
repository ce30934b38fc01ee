//! `Args`: the arguments of a signal or a mark, as contracts see them: a list of at most eight numbers.
ghost use Rattle.std.specs.Prelude.{◌≡◌, ◌≤◌, length, IfOk};
ghost use Rattle.std.specs.Cmp.{partial_equiv_from_equiv};
ghost use Rattle.std.specs.Cmp.Lexicographic.{pointwise, lists_equiv};
ghost use Rattle.std.specs.Ordering.{int_eq};
ghost use Rattle.std.proofs.lemmas.Cmp.{int_eq_equiv};

use pssm_model::Duplicate;
use std::alloc::{AllocError as NoMemory, Global};
use std::marker::Model;

/// The arguments of a signal or a mark in order, at most eight.
#[derive(Drop)]
pub struct Args {
    values: Vec<i64>,
}

impl Model for Args {
    ghost use Rattle.std.specs.Prelude.{List, ℤ, ◌≤◌, length};

    ghost Value = { List ℤ };

    ghost view = { λ a. a.values.items };

    ghost invariant = { λ a. length a.values.items ≤ 8 };
}

impl Args {
    /// These arguments, at most eight.
    pub fn from_vec(v: Vec<i64>) -> Args
        requires { length v.items ≤ 8 }
        ensures { result ≡ v.items }
    {
        Args { values: v }
    }

    /// The arguments.
    pub fn as_slice(&self) -> &[i64]
        ensures values { result.now ≡ self.now }
        ensures at_most_eight { length self.now ≤ 8 }
    {
        self.values.as_slice()
    }

    /// The vector of the arguments.
    pub fn into_vec(self) -> Vec<i64>
        ensures values { result.items ≡ self }
        ensures at_most_eight { length self ≤ 8 }
    {
        let Args { values } = self;
        values
    }

    /// A second list of the same arguments.
    pub fn copy(&self, alloc: Global) -> Result<Args, NoMemory>
        ensures { IfOk result (λ other. other ≡ self.now) }
    {
        self.duplicate(alloc)
    }
}

impl Duplicate for Args {
    fn duplicate(&self, alloc: Global) -> Result<Args, NoMemory> {
        Ok(Args {
            values: self.values.as_slice().to_vec(alloc)?,
        })
    }
}

impl PartialEq for Args {
    ghost eq = { pointwise int_eq };

    ghost laws = { partial_equiv_from_equiv (lists_equiv int_eq_equiv) };

    fn eq(&self, other: &Args) -> bool {
        self.values.as_slice() == other.values.as_slice()
    }
}

impl Eq for Args {
    ghost laws = { lists_equiv int_eq_equiv };
}
