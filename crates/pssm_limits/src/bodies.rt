//! How many bodies vertices and transitions have.
ghost use Rattle.std.specs.Prelude.{◌≡◌, ◌≤◌, ◌<◌, ◌+◌, min, length, sum_by, IfOk};
ghost use Rattle.std.specs.List.{All};
ghost use Rattle.pssm_model.specs.DraftSettings.{one_if_given, guard_bodies};
ghost use Rattle.pssm_parts.specs.Texts.{behaviour_named as named_behaviour};
ghost use Rattle.pssm_parts.specs.Elements.{vertex_at, transition_at};
ghost use Rattle.pssm_limits.specs.inner.Counts.{vertex_bodies, transition_bodies};

use pssm_model::PartGuard;
use pssm_numbering::{File, is_any_state};
use pssm_parts::guard_of;
use std::alloc::{AllocError as NoMemory, Global};

/// One above the limit, where counts are cut off.
pub(crate) const TOO_MANY: u32 = 65_536;

/// The sum of two counts, cut off at one above the limit.
pub(crate) fn cut_sum(count: u32, more: u32) -> u32
    ensures { result ≡ min 65_536 (count + more) }
{
    if count >= TOO_MANY || more >= TOO_MANY || count + more >= TOO_MANY {
        return TOO_MANY;
    }
    count + more
}

// One where a behaviour stands in the element under this name.
fn one_behaviour(file: &File, n: u32, name: &[u8]) -> u32
    requires { n < length file.now.doc }
    ensures count { result ≡ one_if_given (named_behaviour name.now file.now n) }
    ensures few { result ≤ 1 }
{
    match file.child_named(n, name) {
        None => 0,
        Some(_) => 1,
    }
}

// How many behaviours a vertex has.
fn bodies_of_vertex(file: &File, n: u32) -> u32
    requires { n < length file.now.doc }
    ensures count { result ≡ vertex_bodies (vertex_at file.now n) }
    ensures few { result ≤ 3 }
{
    if !is_any_state(file.role(n)) {
        return 0;
    }
    one_behaviour(file, n, b"entry")
        + one_behaviour(file, n, b"exit")
        + one_behaviour(file, n, b"doActivity")
}

// One where the guard of a transition has a text.
fn one_guard(alloc: Global, file: &File, n: u32) -> Result<u32, NoMemory>
    requires { n < length file.now.doc }
    ensures count { IfOk result (λ count. count ≡ guard_bodies (transition_at file.now n).guard) }
    ensures few { IfOk result (λ count. count ≤ 1) }
{
    match guard_of(alloc, file, n)? {
        PartGuard::Given(_) => Ok(1),
        _ => Ok(0),
    }
}

// How many guards and effects a transition has.
fn bodies_of_transition(alloc: Global, file: &File, n: u32) -> Result<u32, NoMemory>
    requires { n < length file.now.doc }
    ensures count { IfOk result (λ count. count ≡ transition_bodies (transition_at file.now n)) }
    ensures few { IfOk result (λ count. count ≤ 3) }
{
    let guard = one_guard(alloc, file, n)?;
    Ok(guard + one_behaviour(file, n, b"effect"))
}

/// How many behaviours these vertices have, cut off at one above the limit.
pub(crate) fn bodies_of_vertices(file: &File, vertices: &[u32]) -> u32
    requires { All (λ n. n < length file.now.doc) vertices.now }
    ensures { result ≡ min 65_536 (sum_by (λ n. vertex_bodies (vertex_at file.now n)) vertices.now) }
{
    let mut total = 0;
    for n in vertices {
        total = cut_sum(total, bodies_of_vertex(file, *n));
    }
    total
}

/// The same of the guards and effects of these transitions.
pub(crate) fn bodies_of_transitions(
    alloc: Global,
    file: &File,
    transitions: &[u32],
) -> Result<u32, NoMemory>
    requires { All (λ n. n < length file.now.doc) transitions.now }
    ensures { IfOk result (λ total.
        total ≡ min 65_536 (sum_by (λ n. transition_bodies (transition_at file.now n)) transitions.now)) }
{
    let mut total = 0;
    for n in transitions {
        total = cut_sum(total, bodies_of_transition(alloc, file, *n)?);
    }
    Ok(total)
}
