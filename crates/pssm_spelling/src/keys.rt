//! Names as keys of a map: as it keeps them, and lent to seek them.
ghost use Rattle.std.specs.Prelude.{◌≡◌, ℕ, List, [], ◌∷◌, IfOk, nat_eq};
ghost use Rattle.std.specs.Cmp.{on_per, on_equiv, partial_equiv_from_equiv};
ghost use Rattle.std.specs.Cmp.Lexicographic.{pointwise, nat_list_eq_equiv, bytes_decides};
ghost use Rattle.std.proofs.Common.{ap};

use indexmap::Equivalent;
use std::alloc::{AllocError as NoMemory, Global};
use std::hash::{Hash, Hasher};
use std::marker::Model;

/// A name that a map keeps. A hasher gets its bytes at once and not one by one.
#[derive(Drop)]
pub struct KeptName {
    bytes: Vec<u8>,
}

impl Model for KeptName {
    ghost Value = { List ℕ };

    ghost view = { λ name. name.bytes.items };
}

impl KeptName {
    /// A copy of a name.
    pub fn of(alloc: Global, name: &[u8]) -> Result<KeptName, NoMemory>
        ensures { IfOk result (λ kept. kept ≡ name.now) }
    {
        Ok(KeptName {
            bytes: name.to_vec(alloc)?,
        })
    }
}

impl PartialEq for KeptName {
    ghost eq = { pointwise nat_eq };

    ghost laws = { partial_equiv_from_equiv nat_list_eq_equiv };

    fn eq(&self, other: &KeptName) -> bool {
        self.bytes.as_slice() == other.bytes.as_slice()
    }
}

impl Eq for KeptName {
    ghost laws = { nat_list_eq_equiv };
}

impl Hash for KeptName {
    ghost hash_input = { λ name. name ∷ [] };

    ghost respects_eq = { λ x y same. ap (λ name. name ∷ []) ((bytes_decides x y).0 same) };

    fn hash<H: Hasher>(&self, state: &mut H) {
        state.write(self.bytes.as_slice());
    }
}

/// A name that is sought.
#[derive(Clone, Copy)]
pub struct LentName<'a> {
    pub bytes: &'a [u8],
}

impl<'a> PartialEq for LentName<'a> {
    ghost eq = { λ x y. pointwise nat_eq x.bytes.now y.bytes.now };

    ghost laws = { on_per (λ x. x.bytes.now) (partial_equiv_from_equiv nat_list_eq_equiv) };

    fn eq(&self, other: &LentName<'a>) -> bool {
        self.bytes == other.bytes
    }
}

impl<'a> Eq for LentName<'a> {
    ghost laws = { on_equiv (λ x. x.bytes.now) nat_list_eq_equiv };
}

impl<'a> Hash for LentName<'a> {
    ghost hash_input = { λ name. name.bytes.now ∷ [] };

    ghost respects_eq = { λ x y same. ap (λ name. name ∷ []) ((bytes_decides x.bytes.now y.bytes.now).0 same) };

    fn hash<H: Hasher>(&self, state: &mut H) {
        state.write(self.bytes);
    }
}

impl<'a> Equivalent<KeptName> for LentName<'a> {
    ghost equivalent = { λ q k. pointwise nat_eq q.bytes.now k };

    ghost respects_hash = { λ q k same. ap (λ name. name ∷ []) ((bytes_decides q.bytes.now k).0 same) };

    ghost respects_eq = { λ q x y. nat_list_eq_equiv.congr q.bytes.now x y };

    fn equivalent(&self, key: &KeptName) -> bool {
        self.bytes == key.bytes.as_slice()
    }
}
