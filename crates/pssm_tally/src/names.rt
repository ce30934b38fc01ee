//! Names of elements, as models spell them.
ghost use Rattle.std.specs.Prelude.{◌≡◌, ◌↔◌, ◌<◌, ◌++◌, ◌∷◌, [], length, bytes_eq, IfOk};
ghost use Rattle.std.specs.List.{list_any};
ghost use Rattle.pssm_profile.specs.Kinds.{name_of};

use indexmap::IndexSet;
use pssm_model::Text;
use pssm_spelling::{KeptName, LentName};
use pssm_values::clean_name;
use pssm_xml::Elements;
use std::alloc::{AllocError as NoMemory, Global};
use std::marker::Model;

// The name of the element, as models spell it.
pub(crate) fn name_at(alloc: Global, elements: &Elements, n: u32) -> Result<Text, NoMemory>
    requires { n < length elements.now }
    ensures { IfOk result (λ name. name ≡ name_of elements.now n) }
{
    match elements.value_of(n, b"name") {
        Some(name) => clean_name(alloc, name),
        None => clean_name(alloc, b""),
    }
}

// Among at most so many names one is found sooner by comparing them than by its hash.
const FEW: usize = 4;

/// Names in their order, each found by its hash. A clause sees the list of them.
#[derive(Drop)]
pub struct Names {
    names: Vec<Text>,
    // each name once, in the order in which they are first seen
    distinct: IndexSet<KeptName>,
}

impl Model for Names {
    ghost use Rattle.std.specs.Prelude.{List, ℕ};
    ghost use Rattle.pssm_tally.specs.inner.Distinct.{AreSameNames};

    ghost Value = { List (List ℕ) };

    ghost view = { λ n. n.names.items };

    ghost invariant = { λ n. AreSameNames n.names.items n.distinct.keys };
}

// Whether the name is one of these.
fn is_among(names: &[Text], name: &[u8]) -> bool
    ensures { result ≡ list_any (bytes_eq name.now) names.now }
{
    names.iter().any(|other| name == other.as_slice())
}

impl Names {
    // No names.
    pub(crate) fn new(alloc: Global) -> Names
        ensures { result ≡ [] }
    {
        Names {
            names: Vec::new(alloc),
            distinct: IndexSet::new(alloc),
        }
    }

    // How many there are.
    pub(crate) fn len(&self) -> usize
        ensures { result ≡ length self.now }
    {
        self.names.len()
    }

    // Whether the name is one of them.
    pub(crate) fn has(&self, name: &[u8]) -> bool
        ensures { result ≡ list_any (bytes_eq name.now) self.now }
    {
        if self.names.len() <= FEW {
            is_among(self.names.as_slice(), name)
        } else {
            self.distinct.contains(LentName { bytes: name })
        }
    }

    // These with one more name behind them.
    #[tactic(auto, using(crate::proofs::NameLaws::one_more))]
    pub(crate) fn with_name(self, alloc: Global, name: Text) -> Result<Names, NoMemory>
        ensures { IfOk result (λ more. more ≡ self ++ name ∷ []) }
    {
        let Names {
            mut names,
            mut distinct,
        } = self;
        distinct.insert(KeptName::of(alloc, name.as_slice())?)?;
        names.push(name)?;
        Ok(Names { names, distinct })
    }
}
