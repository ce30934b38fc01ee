//! Stimuli, copied and compared.
ghost use Rattle.std.specs.Prelude.{◌≡◌, ◌↔◌, IsTrue, IfOk};

use pssm_model::Same;
use pssm_semantics::Stimulus;
use std::alloc::{AllocError as NoMemory, Global};

/// The stimuli once more.
pub fn copies(alloc: Global, stimuli: &[Stimulus]) -> Result<Vec<Stimulus>, NoMemory>
    ensures { IfOk result (λ made. made.items ≡ stimuli.now) }
{
    let mut made = Vec::with_capacity(alloc, stimuli.len())?;
    for stimulus in stimuli {
        made.push(stimulus.copy(alloc)?)?;
    }
    Ok(made)
}

/// Whether the two lists are one and the same.
pub fn are_same(one: &[Stimulus], other: &[Stimulus]) -> bool
    ensures { IsTrue result ↔ (one.now ≡ other.now) }
{
    if one.len() != other.len() {
        return false;
    }
    for i in 0..one.len() {
        if !one[i].same(&other[i]) {
            return false;
        }
    }
    true
}
