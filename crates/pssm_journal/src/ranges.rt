//! Numbers within the ranges of their types. Where a number is read it is known to be in range, and so a look at all
//! numbers of an entry says it of each.
ghost use Rattle.std.specs.Prelude.{FitsSigned};
ghost use Rattle.std.specs.Int.{w64};
ghost use Rattle.std.specs.List.{AllByRecursion};
ghost use Rattle.pssm_lines.specs.Grammar.{IsIndex, AreArgs};
ghost use Rattle.pssm_journal.specs.inner.EntryLine.{RouteFits, FiringFits, HowFits, OutFits, EntryFits};

use pssm_model::{Firing, How, RegionId, Route, TransId, VertexId};
use pssm_semantics::{Args, Entry, Out};

/// A part whose numbers have a range.
pub trait Ranged {
    ghost fits: { Self → Type 0 };

    /// Looks at its numbers.
    fn look(&self)
        ensures { fits self.now };
}

// Looks at the number of an element or of a do step.
fn look_at(_n: u16)
    ensures { IsIndex _n }
{}

// Looks at the numbers of all parts.
fn look_at_all<T: Ranged>(parts: &[T])
    ensures { AllByRecursion T.fits parts.now }
{
    for part in parts {
        part.look();
    }
}

impl Ranged for i64 {
    ghost fits = { λ n. FitsSigned w64 n };

    fn look(&self) {
        let _n = *self;
    }
}

impl Ranged for TransId {
    ghost fits = { λ t. IsIndex t.0 };

    fn look(&self) {
        look_at(self.0);
    }
}

impl Ranged for Route {
    ghost fits = { RouteFits };

    fn look(&self) {
        look_at_all(self.starts.as_slice());
        look_at_all(self.rest.as_slice());
    }
}

impl Ranged for Firing {
    ghost fits = { FiringFits };

    fn look(&self) {
        look_at_all(self.routes.as_slice());
    }
}

impl Ranged for How {
    ghost fits = { HowFits };

    fn look(&self) {
        match self {
            How::By(route) => route.look(),
            How::Restore(state) => look_at(state.0),
            How::Nothing => {}
        }
    }
}

impl Ranged for Args {
    ghost fits = { AreArgs };

    fn look(&self) {
        look_at_all(self.as_slice());
    }
}

impl Ranged for Out {
    ghost fits = { OutFits };

    fn look(&self) {
        match self {
            Out::Mark { args, .. } | Out::Send { args, .. } => args.look(),
        }
    }
}

impl Ranged for Entry {
    ghost fits = { EntryFits };

    fn look(&self) {
        match self {
            Entry::Post { args, .. } => args.look(),
            Entry::Start { .. } => {}
            Entry::Take { number, firing, .. } => {
                let _number = *number;
                firing.look();
            }
            Entry::Done { state, firing, .. } => {
                look_at(state.0);
                firing.look();
            }
            Entry::Exit { state, outs, .. } | Entry::Enter { state, outs, .. } => {
                look_at(state.0);
                look_at_all(outs.as_slice());
            }
            Entry::Effect {
                transition,
                outs,
                ..
            } => {
                look_at(transition.0);
                look_at_all(outs.as_slice());
            }
            Entry::Opened { region, how, .. } => {
                look_at(region.0);
                how.look();
            }
            Entry::Pick { choice, route, .. } => {
                look_at(choice.0);
                route.look();
            }
            Entry::DoStep {
                state,
                step,
                outs,
                ..
            } => {
                look_at(state.0);
                look_at(*step);
                look_at_all(outs.as_slice());
            }
        }
    }
}
