//! `Scene`: the setting of a run, which only proofs see.
ghost use Rattle.std.specs.Prelude.{[]};
ghost use Rattle.pssm_semantics.specs.declared.setting.Setting.{Setting as ASetting};

use std::marker::Brand;

/// The setting of a run, which only proofs see.
///
/// A book behind a lock is known by its type alone. Where a type stands for the setting, what was
/// known of a job by the setting of its book is known still when the book is locked again.
pub trait Scene {
    ghost setting: { ASetting };
}

impl Scene for Brand {
    ghost setting = { record { signals = []; classes = []; objects = [] } };
}
