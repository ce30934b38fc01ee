//! `CountedKind`: of which kind an element is.
ghost use Rattle.std.specs.Prelude.{◌≡◌, ◌↔◌, ◌<◌, length, IfOk, IsTrue};
ghost use Rattle.pssm_roles.specs.Roles.{AreRolesOf, HasRole};
ghost use Rattle.pssm_roles.specs.declared.role.Role.TheVariants as roles_are;
ghost use Rattle.pssm_profile.specs.Kinds.{Kind, IsOfKind, name_of};
ghost use Rattle.pssm_profile.specs.Flaws.{at_most};
ghost use Rattle.pssm_tally.specs.Tallies.{kind_meant, HasKind};

use crate::objects::is_object;
use crate::roles::role_at;
use pssm_profile::has_own_long_name;
use pssm_roles::{Ids, Role, one_role};
use pssm_values::{CLASSES_AT_MOST, OBJECTS_AT_MOST, SIGNALS_AT_MOST};
use pssm_xml::Elements;
use std::alloc::{AllocError as NoMemory, Global};

/// A kind of elements whose names differ and that are counted: signals, active classes, and the objects of these.
#[derive(Clone, Copy, PartialEq, Eq)]
pub enum CountedKind {
    Signal,
    Class,
    Object,
}

impl CountedKind {
    // How many of the kind a file may have.
    pub(crate) fn limit(self) -> u32
        ensures { result ≡ at_most (kind_meant self) }
    {
        match self {
            CountedKind::Signal => SIGNALS_AT_MOST,
            CountedKind::Class => CLASSES_AT_MOST,
            CountedKind::Object => OBJECTS_AT_MOST,
        }
    }
}

// The kind of an instance specification: it is an object or of no kind.
fn kind_of_instance(
    alloc: Global,
    elements: &Elements,
    ids: &Ids,
    roles: &[Role],
    n: u32,
) -> Result<Option<CountedKind>, NoMemory>
    requires same { ids.now ≡ elements.now }
    requires roles { AreRolesOf elements.now roles.now }
    requires within { n < length elements.now }
    requires instance { HasRole elements.now n roles_are.Instance }
    ensures { IfOk result (HasKind elements.now n) }
{
    one_role();
    if is_object(alloc, elements, ids, roles, n)? {
        Ok(Some(CountedKind::Object))
    } else {
        Ok(None)
    }
}

/// The kind of the element; none where it is not counted. It is asked once for an element, and takes a step for each
/// of the references that an instance has to its classifiers.
pub fn kind_of(
    alloc: Global,
    elements: &Elements,
    ids: &Ids,
    roles: &[Role],
    n: u32,
) -> Result<Option<CountedKind>, NoMemory>
    requires same { ids.now ≡ elements.now }
    requires roles { AreRolesOf elements.now roles.now }
    requires within { n < length elements.now }
    ensures { IfOk result (HasKind elements.now n) }
{
    one_role();
    match role_at(elements, roles, n) {
        Role::Signal => Ok(Some(CountedKind::Signal)),
        Role::ActiveClass | Role::ClassMachine => Ok(Some(CountedKind::Class)),
        Role::Instance => kind_of_instance(alloc, elements, ids, roles, n),
        _ => Ok(None),
    }
}

/// Whether the element is of a kind, and its name, as models spell it, has more bytes than a name may have.
pub fn has_long_name(elements: &Elements, n: u32, kind: Option<CountedKind>) -> bool
    requires within { n < length elements.now }
    requires kind { HasKind elements.now n kind }
    ensures { IsTrue result ↔ ((kind : Kind) × IsOfKind elements.now kind n × (64 < length (name_of elements.now n))) }
{
    match kind {
        Some(_) => has_own_long_name(elements, n),
        None => false,
    }
}
