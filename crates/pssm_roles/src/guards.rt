//! Which rule the guard of each element names: the references of all guards are sought once.
ghost use Rattle.std.specs.Prelude.{◌≡◌, ◌<◌, length, map, option_map, IfOk};
ghost use Rattle.pssm_roles.specs.Roles as roles;
ghost use Rattle.pssm_roles.specs.inner.Guards.{only_one, guard_of, AreGuards};
ghost use Rattle.pssm_roles.specs.inner.Seen.{seen};

use crate::asked::has_id;
use crate::references::{Reference, references_of};
use pssm_xml::Elements;
use std::alloc::{AllocError as NoMemory, Global};

// The one reference, where there are no others.
fn only<'a>(found: &[Reference<'a>]) -> Option<Reference<'a>>
    ensures { option_map seen result ≡ only_one (map seen found.now) }
{
    match found {
        [one] => Some(*one),
        _ => None,
    }
}

// The one reference of the guard of an element, where there are no others.
fn guard_at<'a>(
    alloc: Global,
    elements: &'a Elements,
    t: u32,
) -> Result<Option<Reference<'a>>, NoMemory>
    requires { t < length elements.now }
    ensures { IfOk result (λ guard. option_map seen guard ≡ guard_of elements.now t) }
{
    let found = references_of(alloc, elements, t, b"guard")?;
    Ok(only(&found))
}

// That of every element, in document order.
pub(crate) fn guards_of<'a>(
    alloc: Global,
    elements: &'a Elements,
) -> Result<Vec<Option<Reference<'a>>>, NoMemory>
    ensures { IfOk result (λ guards. AreGuards elements.now (length elements.now) guards.items) }
{
    let mut guards = Vec::new(alloc);
    for t in 0..elements.len() {
        let guard = guard_at(alloc, elements, t)?;
        guards.push(guard)?;
    }
    Ok(guards)
}

// Whether the guard of the transition names the rule.
pub(crate) fn is_named_rule(
    elements: &Elements,
    guards: &[Option<Reference>],
    t: u32,
    n: u32,
) -> bool
    requires parent { t < length elements.now }
    requires within { n < length elements.now }
    requires known { AreGuards elements.now (length elements.now) guards.now }
    ensures { result ≡ roles.is_named_rule elements.now t n }
{
    match guards[t as usize] {
        None => false,
        Some(one) => has_id(elements, n, one.id),
    }
}
