//! `checked`: the pass over the elements of a file.
ghost use Rattle.std.specs.Prelude.{◌≡◌, ◌⊎◌, ◌<◌, suc, length, IfOk, IfErr};
ghost use Rattle.pssm_roles.specs.Roles.{AreRolesOf};
ghost use Rattle.pssm_profile.specs.declared.fault.XmiFault.TheVariants as xmi_faults;
ghost use Rattle.pssm_profile.specs.Faults.{IsProfileFault, HasNoProfileFault};
ghost use Rattle.pssm_tally.specs.Tallies.{CountsTo, HasKind};
ghost use Rattle.pssm_flaws.specs.inner.Told.{AreCounted};
ghost use Rattle.pssm_flaws.specs.inner.Steps.{HasNoFlaw, IsFaultAt};

use crate::counted::Counted;
use crate::first::first_flaw_at;
use pssm_profile::{XmiFault, fault_of};
use pssm_roles::{Ids, Role};
use pssm_tally::{CountedKind, Tally, has_long_name, kind_of};
use pssm_xml::Elements;
use std::alloc::{AllocError as NoMemory, Global};

// What the tally tells of the element.
fn counted_at(
    alloc: Global,
    elements: &Elements,
    roles: &[Role],
    n: u32,
    kind: Option<CountedKind>,
    tally: &Tally,
) -> Result<Counted, NoMemory>
    requires within { n < length elements.now }
    requires roles { AreRolesOf elements.now roles.now }
    requires kind { HasKind elements.now n kind }
    requires tally { CountsTo elements.now n tally.now }
    ensures { IfOk result (AreCounted elements.now n) }
{
    let doubled = tally.repeats_name(alloc, elements, n, kind)?;
    Ok(Counted {
        doubled,
        long: has_long_name(elements, n, kind),
        many: tally.passes_limit(elements, roles, n, kind),
    })
}

// Asks one element for its flaws.
fn checked_at(
    alloc: Global,
    elements: &Elements,
    ids: &Ids,
    roles: &[Role],
    n: u32,
    counted: Counted,
) -> Result<(), XmiFault>
    requires same { ids.now ≡ elements.now }
    requires within { n < length elements.now }
    requires roles { AreRolesOf elements.now roles.now }
    requires counted { AreCounted elements.now n counted }
    ensures sound { IfOk result (λ done. HasNoFlaw elements.now n) }
    ensures fault { IfErr result
        (λ fault. (fault ≡ xmi_faults.NoMemory) ⊎ IsFaultAt elements.now n fault) }
{
    match first_flaw_at(elements, ids, roles, n, counted) {
        None => Ok(()),
        Some(flaw) => Err(fault_of(alloc, elements.at(n), flaw)?),
    }
}

// Asks one element for its flaws, and counts it.
fn with_checked(
    alloc: Global,
    elements: &Elements,
    ids: &Ids,
    roles: &[Role],
    n: u32,
    tally: Tally,
) -> Result<Tally, XmiFault>
    requires same { ids.now ≡ elements.now }
    requires within { n < length elements.now }
    requires roles { AreRolesOf elements.now roles.now }
    requires tally { CountsTo elements.now n tally }
    ensures counts { IfOk result (CountsTo elements.now (suc n)) }
    ensures sound { IfOk result (λ done. HasNoFlaw elements.now n) }
    ensures fault { IfErr result
        (λ fault. (fault ≡ xmi_faults.NoMemory) ⊎ IsFaultAt elements.now n fault) }
{
    let kind = kind_of(alloc, elements, ids, roles, n)?;
    let counted = counted_at(alloc, elements, roles, n, kind, &tally)?;
    checked_at(alloc, elements, ids, roles, n, counted)?;
    Ok(tally.with_element(alloc, elements, n, kind)?)
}

/// Asks every element of a file for its flaws, before references are followed (this profile's choice
/// of the flaws and of their order). It ends at the first element that has one. Of an element each
/// flaw is asked once at most.
pub fn checked(
    alloc: Global,
    elements: &Elements,
    ids: &Ids,
    roles: &[Role],
) -> Result<(), XmiFault>
    requires same { ids.now ≡ elements.now }
    requires roles { AreRolesOf elements.now roles.now }
    ensures sound { IfOk result (λ done. HasNoProfileFault elements.now) }
    ensures fault { IfErr result
        (λ fault. (fault ≡ xmi_faults.NoMemory) ⊎ IsProfileFault elements.now fault) }
{
    let mut tally = Tally::new(alloc);
    for n in 0..elements.len() {
        let more = with_checked(alloc, elements, ids, roles, n, tally)?;
        tally = more;
    }
    Ok(())
}
