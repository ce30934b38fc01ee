//! `Totals`: what each machine has together with all that it extends.
ghost use Rattle.std.specs.Prelude.{◌≡◌, ◌≤◌, ◌<◌, length, IfOk, IfSome};
ghost use Rattle.pssm_numbering.specs.Numbering.{machines as machines_in};
ghost use Rattle.pssm_totals.specs.Totals.{AreTotals, ExtendWithin};
ghost use Rattle.pssm_totals.specs.Totals.{counts_of as own_counts, extends_of as all_extended};
ghost use Rattle.pssm_drafting.specs.Drafts.{draft_of, parts_at};
ghost use Rattle.pssm_limits.specs.inner.Counts.{count_by, keeps_limit, are_few, HoldTotals};

use crate::counts::{Counted, counts_of};
use pssm_numbering::{File, Kind, Numbering, meant_with};
use pssm_totals::totals_of;
use std::alloc::{AllocError as NoMemory, Global};

// The totals of all machines, of each kind of elements and of bodies.
#[derive(Drop)]
pub(crate) struct Totals {
    pub(crate) regions: Vec<u32>,
    pub(crate) vertices: Vec<u32>,
    pub(crate) transitions: Vec<u32>,
    pub(crate) bodies: Vec<u32>,
}

// The place of the machine that a machine extends.
#[tactic(auto, using(crate::proofs::ListLaws::machine_there))]
fn extended_place(
    alloc: Global,
    file: &File,
    numbering: &Numbering,
    m: u32,
) -> Result<Option<u32>, NoMemory>
    requires same { numbering.now ≡ file.now }
    requires there { m < length file.now.doc }
    ensures place { IfOk result (λ base. base ≡ (parts_at file.now m).extends) }
    ensures within { IfOk result (λ base. IfSome base (λ k. k < length (machines_in file.now))) }
{
    match meant_with(alloc, file, m, b"extendedStateMachine", Kind::Machine)? {
        None => Ok(None),
        Some(base) => Ok(Some(numbering.machine_place(base))),
    }
}

/// Which machine each machine extends.
pub(crate) fn extends_of(
    alloc: Global,
    file: &File,
    numbering: &Numbering,
) -> Result<Vec<Option<u32>>, NoMemory>
    requires { numbering.now ≡ file.now }
    ensures list { IfOk result (λ extends. extends.items ≡ all_extended (draft_of file.now)) }
    ensures within { IfOk result (λ extends. ExtendWithin extends.items) }
{
    let mut extends = Vec::new(alloc);
    for m in numbering.machines() {
        extends.push(extended_place(alloc, file, numbering, *m)?)?;
    }
    Ok(extends)
}

// What each machine has of this together with all that it extends.
fn totals_by(
    alloc: Global,
    file: &File,
    numbering: &Numbering,
    extends: &[Option<u32>],
    what: Counted,
) -> Result<Vec<u32>, NoMemory>
    requires same { numbering.now ≡ file.now }
    requires extends { extends.now ≡ all_extended (draft_of file.now) }
    requires within { ExtendWithin extends.now }
    ensures { IfOk result (λ totals.
        AreTotals (all_extended (draft_of file.now)) (own_counts (count_by what) (draft_of file.now)) totals.items) }
{
    let own = counts_of(alloc, file, numbering, what)?;
    totals_of(alloc, extends, own.as_slice())
}

impl Totals {
    /// The totals of a file.
    pub(crate) fn of(
        alloc: Global,
        file: &File,
        numbering: &Numbering,
        extends: &[Option<u32>],
    ) -> Result<Self, NoMemory>
        requires same { numbering.now ≡ file.now }
        requires extends { extends.now ≡ all_extended (draft_of file.now) }
        requires within { ExtendWithin extends.now }
        ensures { IfOk result (λ totals. HoldTotals (draft_of file.now) totals) }
    {
        Ok(Totals {
            regions: totals_by(alloc, file, numbering, extends, Counted::Regions)?,
            vertices: totals_by(alloc, file, numbering, extends, Counted::Vertices)?,
            transitions: totals_by(alloc, file, numbering, extends, Counted::Transitions)?,
            bodies: totals_by(alloc, file, numbering, extends, Counted::Bodies)?,
        })
    }

    /// Whether the totals at this place keep the limit.
    pub(crate) fn is_small(&self, k: u32) -> bool
        ensures { result ≡ are_few self.now k }
    {
        is_few(self.regions.as_slice(), k)
            && is_few(self.vertices.as_slice(), k)
            && is_few(self.transitions.as_slice(), k)
            && is_few(self.bodies.as_slice(), k)
    }
}

// Whether the machine at this place keeps the limit.
fn is_few(totals: &[u32], k: u32) -> bool
    ensures { result ≡ keeps_limit totals.now k }
{
    match totals.get(k as usize) {
        None => true,
        Some(total) => *total <= 65_535,
    }
}
