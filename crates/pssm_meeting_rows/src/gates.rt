//! Gates that hold workers.
use pssm_base::Gate;
use std::sync::atomic::{AtomicU64, Ordering};

/// Holds each until a second one stands inside, or so many turns are spent. Once two have met all pass.
#[derive(Drop)]
pub struct Meeting {
    turns: u64,
    inside: AtomicU64,
    met: AtomicU64,
}

impl Meeting {
    /// None has come.
    pub fn new(turns: u64) -> Meeting {
        Meeting {
            turns,
            inside: AtomicU64::new(0),
            met: AtomicU64::new(0),
        }
    }

    /// Whether two have met.
    pub fn has_met(&self) -> bool {
        self.met.load(Ordering::SeqCst) != 0
    }
}

impl Gate for Meeting {
    fn before(&self, _object: u8, _turn: u64) {
        if self.has_met() {
            return;
        }
        self.inside.fetch_add(1, Ordering::SeqCst);
        for _i in 0..self.turns {
            if 2 <= self.inside.load(Ordering::SeqCst) {
                self.met.store(1, Ordering::SeqCst);
            }
            if self.has_met() {
                break;
            }
        }
        self.inside.fetch_sub(1, Ordering::SeqCst);
    }
}

/// Holds the first that comes for the first object until so many have come for others, or so many turns are spent.
#[derive(Drop)]
pub struct Holding {
    others: u64,
    turns: u64,
    came: AtomicU64,
    is_held: AtomicU64,
    seen: AtomicU64,
}

impl Holding {
    /// None has come.
    pub fn new(others: u64, turns: u64) -> Holding {
        Holding {
            others,
            turns,
            came: AtomicU64::new(0),
            is_held: AtomicU64::new(0),
            seen: AtomicU64::new(0),
        }
    }

    /// How many had come for others when the one that was held passed.
    pub fn seen(&self) -> u64 {
        self.seen.load(Ordering::SeqCst)
    }
}

impl Gate for Holding {
    fn before(&self, object: u8, _turn: u64) {
        if object != 0 {
            self.came.fetch_add(1, Ordering::SeqCst);
            return;
        }
        if self.is_held.swap(1, Ordering::SeqCst) != 0 {
            return;
        }
        for _i in 0..self.turns {
            if self.others <= self.came.load(Ordering::SeqCst) {
                break;
            }
        }
        self.seen
            .store(self.came.load(Ordering::SeqCst), Ordering::SeqCst);
    }
}
