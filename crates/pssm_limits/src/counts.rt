//! `Counted`: what is counted of the machines of a file, and the counts of each.
ghost use Rattle.std.specs.Prelude.{◌≡◌, ◌≤◌, ◌<◌, ◌+◌, ℕ, Some, min, length, map, slice_get, IfOk};
ghost use Rattle.pssm_numbering.specs.Numbering.{machines as machines_in, own_with};
ghost use Rattle.pssm_numbering.specs.Lists.{is_listed};
ghost use Rattle.pssm_limits.specs.inner.Counts.{cut_count, count_by};
ghost use Rattle.pssm_model.specs.DraftSettings.{body_count};
ghost use Rattle.pssm_totals.specs.Totals as totals;
ghost use Rattle.pssm_drafting.specs.Drafts.{draft_of, parts_at};

use crate::bodies::{TOO_MANY, bodies_of_transitions, bodies_of_vertices, cut_sum};
use pssm_numbering::{File, ListKind, Numbering};
use std::alloc::{AllocError as NoMemory, Global};

// What is counted of a machine.
#[derive(Clone, Copy, PartialEq, Eq)]
pub(crate) enum Counted {
    Regions,
    Vertices,
    Transitions,
    Bodies,
}

/// How many machines there are.
#[tactic(auto, using(crate::proofs::ListLaws::few_machines))]
pub(crate) fn machine_count(file: &File, numbering: &Numbering) -> u32
    requires { numbering.now ≡ file.now }
    ensures count { result ≡ length (machines_in file.now) }
    ensures few { result ≤ 16777216 }
{
    let _ = file.len();
    numbering.machines().len() as u32
}

// How many elements of a kind a machine has, cut off.
fn length_of(numbering: &Numbering, kind: ListKind, k: u32) -> u32
    requires { k < length (machines_in numbering.now) }
    ensures { (m : ℕ) → slice_get (machines_in numbering.now) k ≡ Some m
        → result ≡ min 65_536 (length (own_with (is_listed kind) numbering.now m)) }
{
    let count = numbering.own(kind, k).len();
    if count >= 65_536 {
        TOO_MANY
    } else {
        count as u32
    }
}

// How many bodies a machine has, cut off.
#[tactic(auto, using(crate::proofs::CountLaws::bodies_in_parts))]
fn bodies_of(alloc: Global, file: &File, numbering: &Numbering, k: u32) -> Result<u32, NoMemory>
    requires same { numbering.now ≡ file.now }
    requires there { k < length (machines_in file.now) }
    ensures { IfOk result (λ count. (m : ℕ) → slice_get (machines_in file.now) k ≡ Some m
        → count ≡ min 65_536 (body_count (parts_at file.now m))) }
{
    let vertices = bodies_of_vertices(file, numbering.own(ListKind::Vertex, k));
    let transitions = bodies_of_transitions(alloc, file, numbering.own(ListKind::Transition, k))?;
    Ok(cut_sum(vertices, transitions))
}

// How many of this a machine has of its own, cut off.
fn count_of(
    alloc: Global,
    file: &File,
    numbering: &Numbering,
    what: Counted,
    k: u32,
) -> Result<u32, NoMemory>
    requires same { numbering.now ≡ file.now }
    requires there { k < length (machines_in file.now) }
    ensures { IfOk result (λ count. (m : ℕ) → slice_get (machines_in file.now) k ≡ Some m
        → count ≡ cut_count what file.now m) }
{
    match what {
        Counted::Regions => Ok(length_of(numbering, ListKind::Region, k)),
        Counted::Vertices => Ok(length_of(numbering, ListKind::Vertex, k)),
        Counted::Transitions => Ok(length_of(numbering, ListKind::Transition, k)),
        Counted::Bodies => bodies_of(alloc, file, numbering, k),
    }
}

/// How many of this each machine has of its own, cut off at one above the limit.
pub(crate) fn counts_of(
    alloc: Global,
    file: &File,
    numbering: &Numbering,
    what: Counted,
) -> Result<Vec<u32>, NoMemory>
    requires { numbering.now ≡ file.now }
    ensures { IfOk result (λ counts. counts.items ≡ totals.counts_of (count_by what) (draft_of file.now)) }
{
    let mut counts = Vec::new(alloc);
    for k in 0..machine_count(file, numbering) {
        counts.push(count_of(alloc, file, numbering, what, k)?)?;
    }
    Ok(counts)
}
