//! `first_flaw_at`: the flaw of an element that comes before its others.
ghost use Rattle.std.specs.Prelude.{◌≡◌, ◌↔◌, ◌<◌, length, IsTrue, MatchOption};
ghost use Rattle.pssm_roles.specs.Roles.{AreRolesOf, HasRole};
ghost use Rattle.pssm_profile.specs.declared.flaw.Flaw.{Flaw};
ghost use Rattle.pssm_profile.specs.Flaws.{HasFlaw, IsFlawOf, IsUnread};
ghost use Rattle.pssm_profile.specs.Faults.{place_of};
ghost use Rattle.pssm_flaws.specs.inner.Told.{AreCounted};

use crate::counted::Counted;
use crate::places::flaw_with;
use pssm_profile::{
    Flaw, Unread, is_missing, is_other_root, is_unread_elsewhere, is_unread_language,
    is_unread_several, is_unread_submachine, is_unread_type, is_unread_value,
};
use pssm_roles::{Ids, Role, one_role};
use pssm_xml::Elements;

// Whether an element of this role is not read for this reason.
fn is_unread(
    elements: &Elements,
    ids: &Ids,
    roles: &[Role],
    n: u32,
    role: Role,
    counted: Counted,
    why: Unread,
) -> bool
    requires same { ids.now ≡ elements.now }
    requires within { n < length elements.now }
    requires roles { AreRolesOf elements.now roles.now }
    requires role { HasRole elements.now n role }
    requires counted { AreCounted elements.now n counted }
    ensures { IsTrue result ↔ IsUnread elements.now n role why }
{
    match why {
        Unread::Root => is_other_root(elements, n, role),
        Unread::Href => is_unread_elsewhere(elements, ids, roles, n, role),
        Unread::Submachine => is_unread_submachine(elements, ids, roles, n, role),
        Unread::Event => false,
        Unread::OtherType => is_unread_type(elements, ids, roles, n, role),
        Unread::Several => is_unread_several(elements, ids, roles, n, role),
        Unread::Language => is_unread_language(elements, ids, roles, n, role),
        Unread::DoubleName => counted.doubled,
        Unread::LongName => counted.long,
        Unread::Value => is_unread_value(elements, ids, roles, n, role),
        Unread::TooMany => counted.many,
    }
}

// Whether this is a flaw of an element of this role.
fn is_flaw_of(
    elements: &Elements,
    ids: &Ids,
    roles: &[Role],
    n: u32,
    role: Role,
    counted: Counted,
    flaw: Flaw,
) -> bool
    requires same { ids.now ≡ elements.now }
    requires within { n < length elements.now }
    requires roles { AreRolesOf elements.now roles.now }
    requires role { HasRole elements.now n role }
    requires counted { AreCounted elements.now n counted }
    ensures { IsTrue result ↔ IsFlawOf elements.now n role flaw }
{
    match flaw {
        Flaw::DoubleId => ids.repeats(elements, n),
        Flaw::Unsupported(why) => is_unread(elements, ids, roles, n, role, counted, why),
        Flaw::Missing(what) => is_missing(elements, ids, roles, n, role, what),
    }
}

// The role of the element.
fn role_at(elements: &Elements, roles: &[Role], n: u32) -> Role
    requires within { n < length elements.now }
    requires roles { AreRolesOf elements.now roles.now }
    ensures { HasRole elements.now n result }
{
    roles[n as usize]
}

// Whether the element has this flaw.
fn has_flaw(
    elements: &Elements,
    ids: &Ids,
    roles: &[Role],
    n: u32,
    counted: Counted,
    flaw: Flaw,
) -> bool
    requires same { ids.now ≡ elements.now }
    requires within { n < length elements.now }
    requires roles { AreRolesOf elements.now roles.now }
    requires counted { AreCounted elements.now n counted }
    ensures { IsTrue result ↔ HasFlaw elements.now n flaw }
{
    one_role();
    let role = role_at(elements, roles, n);
    is_flaw_of(elements, ids, roles, n, role, counted, flaw)
}

/// The flaw of the element that comes before all others that it has (this profile's choice of the
/// order). Each of the eighteen flaws is asked once at most.
pub fn first_flaw_at(
    elements: &Elements,
    ids: &Ids,
    roles: &[Role],
    n: u32,
    counted: Counted,
) -> Option<Flaw>
    requires same { ids.now ≡ elements.now }
    requires within { n < length elements.now }
    requires roles { AreRolesOf elements.now roles.now }
    requires counted { AreCounted elements.now n counted }
    ensures { MatchOption result
        ((flaw : Flaw) → HasFlaw elements.now n flaw → ⊥)
        (λ flaw. HasFlaw elements.now n flaw
        × ((other : Flaw) → HasFlaw elements.now n other → place_of other < place_of flaw → ⊥)) }
{
    for place in 0..18u8 {
        let flaw = flaw_with(place);
        if has_flaw(elements, ids, roles, n, counted, flaw) {
            return Some(flaw);
        }
    }
    None
}
