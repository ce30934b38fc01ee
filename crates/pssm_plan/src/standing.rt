//! How an item stands in a step.
use pssm_model::Item;

/// An item is ready, is not called, has run, or waits for another that comes before it and has not run.
#[derive(Clone, Copy, PartialEq, Eq)]
pub enum Standing {
    Ready,
    NotCalled,
    Ran,
    Waits { on: Item },
}
