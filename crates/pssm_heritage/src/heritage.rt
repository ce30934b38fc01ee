//! `Heritage`: the machines that a machine is made of, and the numbers of their elements.
ghost use Rattle.std.specs.Prelude.{◌≡◌, ◌⊎◌, ◌<◌, length, reverse, IfOk, IfErr};
ghost use Rattle.pssm_model.specs.DraftSettings.{IsInRange, IsOrExtends, ExtendsFar};
ghost use Rattle.pssm_heritage.specs.Faults.{IsCycleFault};
ghost use Rattle.pssm_heritage.specs.Heritages.{IsLineage, numbering_of, number_in as number_noted};
ghost use Rattle.pssm_heritage.specs.inner.Views.{numbering};
ghost use Rattle.pssm_heritage.specs.Chains.{IsChain};

use crate::chain::{Way, first_cyclic, walk};
use crate::fault::RedefFault;
use crate::kinds::ElementKind;
use crate::numbers::{Numbers, number_in, numbers_of};
use pssm_model::{Draft, ElementRef};
use std::alloc::{AllocError as NoMemory, Global};
use std::marker::Model;

/// The machines that a machine is made of, and for each of their elements its number in the flattened machine
/// (UML 2.5.1, 14.3.3). No query takes memory.
#[derive(Drop)]
pub struct Heritage {
    machines: Vec<u32>,
    regions: Numbers,
    vertices: Numbers,
    transitions: Numbers,
}

impl Model for Heritage {
    ghost use Rattle.pssm_heritage.specs.Heritages.{Lineage};
    ghost use Rattle.pssm_heritage.specs.inner.Views.{numbering};

    ghost Value = { Lineage };

    ghost view = { λ h. record {
      machines = h.machines.items;
      regions = numbering h.regions;
      vertices = numbering h.vertices;
      transitions = numbering h.transitions;
    } };
}

// The fault of a way up that came back to a machine.
fn cycle_fault(alloc: Global, draft: &Draft, m: u32, back: u32) -> Result<RedefFault, NoMemory>
    requires range { IsInRange draft.now }
    requires there { back < length draft.now.machines }
    requires reached { IsOrExtends draft.now m back }
    requires cyclic { ExtendsFar draft.now back back }
    requires below { m < length draft.now.machines }
    ensures { IfOk result (IsCycleFault draft.now m) }
{
    let x = first_cyclic(alloc, draft, m, back)?;
    let id = draft.machines.as_slice()[x as usize].id.copy(alloc)?;
    Ok(RedefFault::Cycle { id })
}

// The machines in the other order.
fn reversed(alloc: Global, path: &[u32]) -> Result<Vec<u32>, NoMemory>
    ensures { IfOk result (λ machines. machines.items ≡ reverse path.now) }
{
    path.iter().rev().copied().collect(alloc)
}

// The machines of a chain, and the numbers of their elements.
fn heritage_of(
    alloc: Global,
    draft: &Draft,
    _m: u32,
    machines: Vec<u32>,
) -> Result<Heritage, NoMemory>
    requires range { IsInRange draft.now }
    requires chain { IsChain draft.now _m machines.items }
    ensures { IfOk result (IsLineage draft.now _m) }
{
    let regions = numbers_of(alloc, draft, ElementKind::Region, machines.as_slice())?;
    let vertices = numbers_of(alloc, draft, ElementKind::Vertex, machines.as_slice())?;
    let transitions = numbers_of(alloc, draft, ElementKind::Transition, machines.as_slice())?;
    Ok(Heritage {
        machines,
        regions,
        vertices,
        transitions,
    })
}

impl Heritage {
    /// What is known of the machine with the number `m`, or the fault of the first machine, of it and those that it
    /// extends, that extends itself (UML 2.5.1, 14.3.3). Whether its elements keep the rules of redefinition is not asked.
    pub fn of(alloc: Global, draft: &Draft, m: u32) -> Result<Heritage, RedefFault>
        requires range { IsInRange draft.now }
        requires there { m < length draft.now.machines }
        ensures lineage { IfOk result (IsLineage draft.now m) }
        ensures fault { IfErr result (λ f. (f ≡ RedefFault.NoMemory) ⊎ IsCycleFault draft.now m f) }
    {
        let Way { path, back } = walk(alloc, draft, m)?;
        match back {
            Some(back) => Err(cycle_fault(alloc, draft, m, back)?),
            None => {
                let machines = reversed(alloc, path.as_slice())?;
                Ok(heritage_of(alloc, draft, m, machines)?)
            }
        }
    }

    /// The machines, from the one that extends none down to the one that was asked for (UML 2.5.1, 14.3.3).
    pub fn machines(&self) -> &[u32]
        ensures { result.now ≡ self.now.machines }
    {
        self.machines.as_slice()
    }

    // The numbers of a kind.
    fn numbers(&self, kind: ElementKind) -> &Numbers
        ensures { numbering result.now ≡ numbering_of kind self.now }
    {
        match kind {
            ElementKind::Region => &self.regions,
            ElementKind::Vertex => &self.vertices,
            ElementKind::Transition => &self.transitions,
        }
    }

    /// The number of an element in the flattened machine: that of the first form that it became; none outside of the
    /// machines (UML 2.5.1, 14.3.3).
    pub fn number_of(&self, kind: ElementKind, e: ElementRef) -> Option<usize>
        ensures { result ≡ number_noted (numbering_of kind self.now) e }
    {
        number_in(self.numbers(kind).rows.as_slice(), e)
    }

    /// The first form of each element of the flattened machine, by its number: those of extended machines first, in the
    /// order of the lists (UML 2.5.1, 14.3.3).
    pub fn firsts(&self, kind: ElementKind) -> &[ElementRef]
        ensures { result.now ≡ (numbering_of kind self.now).firsts }
    {
        self.numbers(kind).firsts.as_slice()
    }
}
