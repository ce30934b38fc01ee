//! Which flaws an element has by its role.
ghost use Rattle.std.specs.Prelude.{◌≡◌, ◌↔◌, ◌<◌, length, IsTrue};
ghost use Rattle.pssm_roles.specs.Roles.{AreRolesOf, HasRole};
ghost use Rattle.pssm_profile.specs.Flaws.{IsUnread, IsOfOtherType, IsReadOrIdle, IsFlawOf, StandsElsewhere};
ghost use Rattle.pssm_profile.specs.declared.flaw.Flaw.TheVariants as flaws;
ghost use Rattle.pssm_profile.specs.declared.flaw.Unread.TheVariants as unread;

use crate::counting::{has_submachine, wraps_others};
use crate::flaw::Owed;
use crate::lacking::lacks;
use crate::naming::stands_elsewhere;
use crate::reading::is_read;
use crate::roles::{has_text, is_state};
use crate::several::several_at;
use crate::texts::says_no_text;
use crate::values::has_bad_value;
use pssm_roles::{Ids, Role};
use pssm_xml::Elements;

/// Whether the root is none that is read (XMI 2.5.1, 9.4, and this profile's choice).
pub fn is_other_root(elements: &Elements, n: u32, role: Role) -> bool
    requires { n < length elements.now }
    ensures { IsTrue result ↔ IsUnread elements.now n role unread.Root }
{
    match role {
        Role::OtherRoot => true,
        Role::Wrapper => wraps_others(elements, n),
        _ => false,
    }
}

// Whether it is read, or a rule that no guard names.
fn is_read_or_idle(elements: &Elements, ids: &Ids, roles: &[Role], n: u32, role: Role) -> bool
    requires same { ids.now ≡ elements.now }
    requires within { n < length elements.now }
    requires roles { AreRolesOf elements.now roles.now }
    requires role { HasRole elements.now n role }
    ensures { IsTrue result ↔ IsReadOrIdle elements.now n role }
{
    is_read(elements, ids, roles, n, role) || role == Role::IdleRule
}

// Whether it is a child with an address.
fn is_elsewhere(elements: &Elements, n: u32) -> bool
    requires { n < length elements.now }
    ensures { IsTrue result ↔ StandsElsewhere elements.now n }
{
    match elements.parent(n) {
        None => false,
        Some(_parent) => stands_elsewhere(elements, n),
    }
}

/// Whether it is not read because what it stands for is in another file (this profile's choice).
pub fn is_unread_elsewhere(
    elements: &Elements,
    ids: &Ids,
    roles: &[Role],
    n: u32,
    role: Role,
) -> bool
    requires same { ids.now ≡ elements.now }
    requires within { n < length elements.now }
    requires roles { AreRolesOf elements.now roles.now }
    requires role { HasRole elements.now n role }
    ensures { IsTrue result ↔ IsUnread elements.now n role unread.Href }
{
    is_read_or_idle(elements, ids, roles, n, role) && is_elsewhere(elements, n)
}

// Whether an element of this role is of a type that is not read.
fn is_of_other_type(elements: &Elements, n: u32, role: Role) -> bool
    requires { n < length elements.now }
    ensures { IsTrue result ↔ IsOfOtherType elements.now n role }
{
    match role {
        Role::OtherVertex => elements.value_of(n, b"xmi:type").is_some(),
        Role::OtherBehaviour | Role::OtherValue => true,
        _ => false,
    }
}

/// Whether it is a State that is not read because it has a submachine or a connection (this profile's choice).
pub fn is_unread_submachine(
    elements: &Elements,
    ids: &Ids,
    roles: &[Role],
    n: u32,
    role: Role,
) -> bool
    requires same { ids.now ≡ elements.now }
    requires within { n < length elements.now }
    requires roles { AreRolesOf elements.now roles.now }
    requires role { HasRole elements.now n role }
    ensures { IsTrue result ↔ IsUnread elements.now n role unread.Submachine }
{
    is_read(elements, ids, roles, n, role) && is_state(role) && has_submachine(elements, n)
}

/// Whether it is not read because of its type (this profile's choice).
pub fn is_unread_type(elements: &Elements, ids: &Ids, roles: &[Role], n: u32, role: Role) -> bool
    requires same { ids.now ≡ elements.now }
    requires within { n < length elements.now }
    requires roles { AreRolesOf elements.now roles.now }
    requires role { HasRole elements.now n role }
    ensures { IsTrue result ↔ IsUnread elements.now n role unread.OtherType }
{
    is_read(elements, ids, roles, n, role) && is_of_other_type(elements, n, role)
}

/// Whether it is not read because more than one stands where one can be (this profile's choice).
pub fn is_unread_several(elements: &Elements, ids: &Ids, roles: &[Role], n: u32, role: Role) -> bool
    requires same { ids.now ≡ elements.now }
    requires within { n < length elements.now }
    requires roles { AreRolesOf elements.now roles.now }
    requires role { HasRole elements.now n role }
    ensures { IsTrue result ↔ IsUnread elements.now n role unread.Several }
{
    is_read(elements, ids, roles, n, role) && several_at(elements, n, role)
}

/// Whether it is not read because of its language (this profile's choice).
pub fn is_unread_language(
    elements: &Elements,
    ids: &Ids,
    roles: &[Role],
    n: u32,
    role: Role,
) -> bool
    requires same { ids.now ≡ elements.now }
    requires within { n < length elements.now }
    requires roles { AreRolesOf elements.now roles.now }
    requires role { HasRole elements.now n role }
    ensures { IsTrue result ↔ IsUnread elements.now n role unread.Language }
{
    is_read(elements, ids, roles, n, role) && has_text(role) && says_no_text(elements, n)
}

/// Whether it is not read because of a value (this profile's choice).
pub fn is_unread_value(elements: &Elements, ids: &Ids, roles: &[Role], n: u32, role: Role) -> bool
    requires same { ids.now ≡ elements.now }
    requires within { n < length elements.now }
    requires roles { AreRolesOf elements.now roles.now }
    requires role { HasRole elements.now n role }
    ensures { IsTrue result ↔ IsUnread elements.now n role unread.Value }
{
    is_read(elements, ids, roles, n, role) && has_bad_value(elements, n, role)
}

/// Whether it is a flaw of the element that it lacks this (this profile's choice).
pub fn is_missing(
    elements: &Elements,
    ids: &Ids,
    roles: &[Role],
    n: u32,
    role: Role,
    what: Owed,
) -> bool
    requires same { ids.now ≡ elements.now }
    requires within { n < length elements.now }
    requires roles { AreRolesOf elements.now roles.now }
    requires role { HasRole elements.now n role }
    ensures { IsTrue result ↔ IsFlawOf elements.now n role (flaws.Missing what) }
{
    is_read_or_idle(elements, ids, roles, n, role) && lacks(elements, n, role, what)
}
