//! `Seat`: what a worker has of its own.
ghost use Rattle.std.specs.Prelude.{◌≡◌};

use crate::hall::Hall;
use crate::scene::Scene;
use pssm_book::{Claimed, Committed};
use pssm_semantics::{Task, Worked};
use std::alloc::AllocError as NoMemory;
use std::sync::ledger::{Ledger, Share};

/// What a worker has of its own: its share of the book's ledger, and whether memory ran out for it.
///
/// It stays with who started the worker, and the worker borrows it: so a thread that cannot be made
/// takes no share along.
#[derive(Drop)]
pub struct Seat<L: Ledger> {
    share: Share<L>,
    starved: bool,
    ghost one_part: { share.parts ≡ 1 },
}

impl<L: Ledger> Seat<L> {
    ghost use Rattle.std.specs.Prelude.{Some, IfOk};
    ghost use Rattle.pssm_book.specs.Works.{behaviour_in};
    ghost use Rattle.pssm_workers.specs.inner.Jobs.{HandsOutIn};

    /// A seat with this share.
    pub fn new(share: Share<L>) -> Seat<L>
        requires { share.parts ≡ 1 }
    {
        Seat {
            share,
            starved: false,
        }
    }

    /// Claims what may be done next in the book.
    pub fn claim<V: Scene>(&mut self, hall: &mut Hall<L, V>, word: u64) -> Result<Claimed, NoMemory>
        ensures { IfOk result (HandsOutIn V.setting) }
    {
        hall.claim(word, &mut self.share)
    }

    /// Commits what was run for a task: the task's behaviour.
    pub fn commit<V: Scene>(
        &mut self,
        hall: &mut Hall<L, V>,
        task: Task,
        worked: &Worked,
    ) -> Result<Committed, NoMemory>
        requires { behaviour_in V.setting worked.now.own task ≡ Some worked.now.act }
    {
        hall.commit(task, worked, &mut self.share)
    }

    /// Notes whether memory ran out.
    pub fn note(&mut self, starved: bool) {
        self.starved = starved;
    }

    /// The share, and whether memory ran out.
    pub fn into_parts(self) -> (Share<L>, bool)
        ensures { result.0.parts ≡ 1 }
    {
        let Seat { share, starved } = self;
        (share, starved)
    }
}
