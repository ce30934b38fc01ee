//! `Ids`: the elements that ids mean.
ghost use Rattle.std.specs.Prelude.{◌≡◌, ◌↔◌, ◌<◌, ℕ, List, Some, cond, bytes_eq, length};
ghost use Rattle.std.specs.Prelude.{IfOk, IfSome, IsTrue};
ghost use Rattle.pssm_roles.specs.Ids.{meant_by, RepeatsId};
ghost use Rattle.pssm_roles.specs.inner.Numbers.{number_in, number_before, IsLess};

use pssm_xml::Elements;
use std::alloc::{AllocError as NoMemory, Global};
use std::collections::BTreeMap;
use std::marker::Model;
use std::snapshot::Snapshot;

/// For each id of a file the element that it means. A clause sees the elements of the file. Looking up an id takes as
/// many comparisons as the number of ids has binary digits, whoever chose them.
#[derive(Drop)]
pub struct Ids {
    elements: Snapshot<Elements>,
    numbers: BTreeMap<Vec<u8>, u32>,
}

impl Model for Ids {
    ghost use Rattle.std.specs.Prelude.{List};
    ghost use Rattle.pssm_xml.specs.Documents.{Element};
    ghost use Rattle.pssm_roles.specs.inner.Numbers.{HoldsNumbers};

    ghost Value = { List Element };

    ghost view = { λ ids. ids.elements.value };

    ghost invariant = { λ ids. HoldsNumbers ids.elements.value ids.numbers };
}

// The numbers with this one for an id, whatever was kept for it.
fn with_number(
    alloc: Global,
    numbers: BTreeMap<Vec<u8>, u32>,
    id: &[u8],
    n: u32,
) -> Result<BTreeMap<Vec<u8>, u32>, NoMemory>
    ensures { IfOk result (λ more. (other : List ℕ)
        → number_in more other ≡ cond (bytes_eq id.now other) (Some n) (number_in numbers other)) }
{
    let mut more = numbers;
    let key = id.to_vec(alloc)?;
    more.insert(key, n)?;
    Ok(more)
}

// The numbers with that of one more element, where it has an id.
fn with_element(
    alloc: Global,
    numbers: BTreeMap<Vec<u8>, u32>,
    elements: &Elements,
    n: u32,
) -> Result<BTreeMap<Vec<u8>, u32>, NoMemory>
    requires { n < length elements.now }
    ensures { IfOk result (λ more. (id : List ℕ)
        → number_in more id ≡ number_before elements.now n id (number_in numbers id)) }
{
    match elements.value_of(n, b"xmi:id") {
        None => Ok(numbers),
        Some(id) => with_number(alloc, numbers, id, n),
    }
}

impl Ids {
    /// The ids of a file.
    pub fn of(alloc: Global, elements: &Elements) -> Result<Self, NoMemory>
        ensures { IfOk result (λ ids. ids ≡ elements.now) }
    {
        let mut numbers = BTreeMap::new(alloc);
        let mut n = elements.len();
        'down: while n > 0 {
            n -= 1;
            let more = with_element(alloc, numbers, elements, n)?;
            numbers = more;
        }
        Ok(Ids {
            elements: Snapshot::of(elements),
            numbers,
        })
    }

    /// The element that an id means: the first that has it (this profile's choice).
    pub fn find(&self, id: &[u8]) -> Option<u32>
        ensures means { result ≡ meant_by self.now id.now }
        ensures within { IfSome result (λ m. m < length self.now) }
    {
        self.numbers.get(id).copied()
    }

    /// Whether an element before this one has its id. An empty `xmi:id` is none (this profile's choice).
    pub fn repeats(&self, elements: &Elements, n: u32) -> bool
        requires same { elements.now ≡ self.now }
        requires within { n < length elements.now }
        ensures { IsTrue result ↔ RepeatsId elements.now n }
    {
        match elements.value_of(n, b"xmi:id") {
            None => false,
            Some(id) => !id.is_empty() && self.is_before(id, n),
        }
    }

    // Whether the id means an element before this one.
    fn is_before(&self, id: &[u8], n: u32) -> bool
        ensures { IsTrue result ↔ IsLess n (meant_by self.now id.now) }
    {
        match self.find(id) {
            None => false,
            Some(m) => m < n,
        }
    }
}
