//! Gates that let workers pass.
use pssm_base::Gate;
use std::sync::atomic::{AtomicU64, Ordering};

/// Lets all pass.
pub struct Open;

impl Gate for Open {
    fn before(&self, _object: u8, _turn: u64) {}
}

/// Lets all pass, and counts them.
#[derive(Drop)]
pub struct Counting(AtomicU64);

impl Counting {
    /// None has come.
    pub fn new() -> Counting {
        Counting(AtomicU64::new(0))
    }

    /// How many have come.
    pub fn count(&self) -> u64 {
        self.0.load(Ordering::SeqCst)
    }
}

impl Gate for Counting {
    fn before(&self, _object: u8, _turn: u64) {
        self.0.fetch_add(1, Ordering::SeqCst);
    }
}
