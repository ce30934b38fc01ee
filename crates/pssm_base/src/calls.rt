//! Calls that are made to fail.
ghost use Rattle.std.specs.Prelude.{◌≡◌, ◌↔◌, IsTrue, Contains};
ghost use Rattle.pssm_base.specs.Faults.{raised};

use crate::Failed;
use crate::fault::raise;

// Which calls are to fail, by their numbers from 0, the number of the next call, and how many calls have failed.
#[derive(Drop)]
pub(crate) struct Calls {
    fails: Vec<u64>,
    next: u64,
    faults: u64,
}

impl Calls {
    // No call has come yet.
    pub(crate) fn new(fails: Vec<u64>) -> Calls
        ensures fails { result.fails ≡ fails }
        ensures next { result.next ≡ 0 }
        ensures faults { result.faults ≡ 0 }
    {
        Calls {
            fails,
            next: 0,
            faults: 0,
        }
    }

    // Counts a call, and says whether it is to fail.
    pub(crate) fn begin(&mut self) -> bool
        ensures fails { IsTrue result ↔ Contains self.old.fails.items self.old.next }
        ensures counted { self.new ≡ record self.old { next = raised self.old.next } }
    {
        let fails = self.fails.contains(&self.next);
        self.next = self.next.saturating_add(1);
        fails
    }

    // Counts a failure.
    pub(crate) fn fail(&mut self) -> Failed
        ensures { self.new ≡ record self.old { faults = raised self.old.faults } }
    {
        raise(&mut self.faults)
    }
}
