//! The machines that a machine extends, walked one by one.
ghost use Rattle.std.specs.Prelude.{◌≡◌, ◌<◌, length, reverse, take, option_and_then, slice_get, IfOk};
ghost use Rattle.pssm_model.specs.DraftSettings.{IsInRange, IsOrExtends, ExtendsFar};
ghost use Rattle.pssm_heritage.specs.Chains.{IsFirstCyclic};
ghost use Rattle.pssm_heritage.specs.inner.Walks.{HasWalked, IsLeast};

use pssm_model::Draft;
use std::alloc::{AllocError as NoMemory, Global};

// The machines on a way up, in its order, and where it came back to one of them.
#[derive(Drop)]
pub(crate) struct Way {
    pub(crate) path: Vec<u32>,
    pub(crate) back: Option<u32>,
}

// The machine that a machine extends.
fn extended(draft: &Draft, m: u32) -> Option<u32>
    requires { m < length draft.now.machines }
    ensures { result ≡ option_and_then (λ p. p.extends) (slice_get draft.now.machines m) }
{
    draft.machines.as_slice()[m as usize].extends
}

// Walks from a machine along those that it extends, until there is none or one comes again.
pub(crate) fn walk(alloc: Global, draft: &Draft, m: u32) -> Result<Way, NoMemory>
    requires range { IsInRange draft.now }
    requires there { m < length draft.now.machines }
    ensures { IfOk result (λ w. HasWalked draft.now m w.path.items w.back) }
{
    let mut seen = vec![in alloc; false; draft.machines.as_slice().len()]?;
    let mut path = Vec::new(alloc);
    let mut at = m;
    while !seen[at as usize] {
        seen[at as usize] = true;
        path.push(at)?;
        match extended(draft, at) {
            Some(base) => at = base,
            None => return Ok(Way { path, back: None }),
        }
    }
    Ok(Way {
        path,
        back: Some(at),
    })
}

// The least of some numbers.
fn least_of(first: u32, others: &[u32]) -> u32
    ensures { IsLeast first others.now result }
{
    let mut least = first;
    for other in others {
        if *other < least {
            least = *other;
        }
    }
    least
}

// The first machine by number that extends itself, where a way up came back to the machine `back`.
pub(crate) fn first_cyclic(alloc: Global, draft: &Draft, m: u32, back: u32) -> Result<u32, NoMemory>
    requires range { IsInRange draft.now }
    requires there { back < length draft.now.machines }
    requires reached { IsOrExtends draft.now m back }
    requires cyclic { ExtendsFar draft.now back back }
    ensures { IfOk result (IsFirstCyclic draft.now m) }
{
    let round = walk(alloc, draft, back)?;
    Ok(least_of(back, round.path.as_slice()))
}
