//! `Tally`: what came before an element.
ghost use Rattle.std.specs.Prelude.{◌≡◌, ◌↔◌, ◌<◌, ◌++◌, ◌∷◌, [], ℕ, suc, List, length, IfOk, IsTrue};
ghost use Rattle.pssm_xml.specs.Documents.{Element};
ghost use Rattle.pssm_roles.specs.Roles.{AreRolesOf};
ghost use Rattle.pssm_profile.specs.Flaws.{RepeatsName, PassesLimit};
ghost use Rattle.pssm_tally.specs.Tallies.{CountsTo, HasKind, names_held};
ghost use Rattle.pssm_tally.specs.inner.Steps.{IsWithName};

use crate::counted_kind::CountedKind;
use crate::laws::{no_parameter, one_kind};
use crate::names::{Names, name_at};
use crate::parameters::passes_parameters;
use pssm_model::Text;
use pssm_roles::Role;
use pssm_xml::Elements;
use std::alloc::{AllocError as NoMemory, Global};

/// The names of the signals, active classes and objects that came before an element, as models spell them, in order.
/// A look at the names of a kind does not compare a name with each of them, and a pass that ends at the first flaw
/// keeps no more than there can be.
#[derive(Drop)]
pub struct Tally {
    signals: Names,
    classes: Names,
    objects: Names,
}

impl Tally {
    /// Nothing came before the first element.
    pub fn new(alloc: Global) -> Tally
        ensures { (doc : List Element) → CountsTo doc 0 result }
    {
        Tally {
            signals: Names::new(alloc),
            classes: Names::new(alloc),
            objects: Names::new(alloc),
        }
    }

    // The names of this kind.
    fn names(&self, kind: CountedKind) -> &Names
        ensures { result.now ≡ names_held self.now kind }
    {
        match kind {
            CountedKind::Signal => &self.signals,
            CountedKind::Class => &self.classes,
            CountedKind::Object => &self.objects,
        }
    }

    /// Whether an element before this one, of its kind, has its name.
    pub fn repeats_name(
        &self,
        alloc: Global,
        elements: &Elements,
        n: u32,
        kind: Option<CountedKind>,
    ) -> Result<bool, NoMemory>
        requires within { n < length elements.now }
        requires kind { HasKind elements.now n kind }
        requires tally { CountsTo elements.now n self.now }
        ensures { IfOk result (λ repeats. IsTrue repeats ↔ RepeatsName elements.now n) }
    {
        one_kind();
        match kind {
            None => Ok(false),
            Some(kind) => {
                let name = name_at(alloc, elements, n)?;
                Ok(self.names(kind).has(name.as_slice()))
            }
        }
    }

    /// Whether with this element there are more of its kind, or more parameters of its signal, than there can be, and
    /// without it there are not. At a parameter it takes a step for each child of the signal before it: a pass that
    /// ends at the first flaw walks along the children of a signal nine times at most.
    pub fn passes_limit(
        &self,
        elements: &Elements,
        roles: &[Role],
        n: u32,
        kind: Option<CountedKind>,
    ) -> bool
        requires roles { AreRolesOf elements.now roles.now }
        requires within { n < length elements.now }
        requires kind { HasKind elements.now n kind }
        requires tally { CountsTo elements.now n self.now }
        ensures { IsTrue result ↔ PassesLimit elements.now n }
    {
        one_kind();
        no_parameter();
        match kind {
            None => passes_parameters(elements, roles, n),
            Some(kind) => self.names(kind).len() == kind.limit() as usize,
        }
    }

    // The tally with one more name of this kind.
    fn with_name(self, alloc: Global, kind: CountedKind, name: Text) -> Result<Tally, NoMemory>
        ensures { IfOk result (IsWithName self kind name) }
    {
        let Tally {
            signals,
            classes,
            objects,
        } = self;
        match kind {
            CountedKind::Signal => Ok(Tally {
                signals: signals.with_name(alloc, name)?,
                classes,
                objects,
            }),
            CountedKind::Class => Ok(Tally {
                signals,
                classes: classes.with_name(alloc, name)?,
                objects,
            }),
            CountedKind::Object => Ok(Tally {
                signals,
                classes,
                objects: objects.with_name(alloc, name)?,
            }),
        }
    }

    /// What came before the next element.
    pub fn with_element(
        self,
        alloc: Global,
        elements: &Elements,
        n: u32,
        kind: Option<CountedKind>,
    ) -> Result<Tally, NoMemory>
        requires within { n < length elements.now }
        requires kind { HasKind elements.now n kind }
        requires tally { CountsTo elements.now n self }
        ensures { IfOk result (CountsTo elements.now (suc n)) }
    {
        one_kind();
        match kind {
            None => Ok(self),
            Some(kind) => {
                let name = name_at(alloc, elements, n)?;
                self.with_name(alloc, kind, name)
            }
        }
    }
}
