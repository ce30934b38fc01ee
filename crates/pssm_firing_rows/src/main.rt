//! Tries the calls that say which routes fire together against the definitions, over small machines.
//!
//! For each seed it makes a machine that keeps the rules of models, with junctions but no forks, joins, entry or exit
//! points, says which of its vertices are active and which guards are true, and lets the one signal come. A plain
//! program then tries all sets of transitions and of routes by the definitions of routes, conflicts, priorities and
//! firing sets, which stand in the specs of `pssm_model`. It does not use the calls that are tried, nor the machine's
//! own answers.
//!
//! - `is_firing_set` must answer for each set of enabled routes whether it is one of the firing sets; and no where they
//!   are listed in another order, or with a route that is not enabled.
//! - `check_route` must answer for each set of transitions whether it is an enabled route.
//! - `pick_firing_set` must answer by each of 16 words one of the firing sets, in order.
//! - `overrides` must answer for each State whether an enabled route starts at it or in it.
//!
//! It writes how much was asked, and `all agree` or the first questions that were answered otherwise. Its status is 0
//! exactly where all agree.
#![tactic(auto)]

ghost use Rattle.std.specs.Prelude.{IfOk, IfSome};
ghost use Rattle.pssm_config.specs.Tables.{Fits};
ghost use Rattle.pssm_model.specs.WellFormed.{KeepsModelRules};

mod asking;
mod comparing;
mod dice;
mod listing;
mod making;
mod marks;
mod situation;
mod sketch;
mod subject;
mod tally;

use crate::asking::Subject;
use crate::comparing::compare;
use crate::dice::Dice;
use crate::listing::Listing;
use crate::making::make_sketch;
use crate::marks::Marks;
use crate::situation::Situation;
use crate::subject::{config_of, machine_of};
use crate::tally::{Tally, count};
use std::alloc::{AllocError as NoMemory, Global};
use std::io;
use std::process::ExitCode;

/// How many seeds there are, how often machines are made for one until one is fit, and how many routes the signal may
/// enable in it.
const SEEDS: u64 = 320;

const TRIES: u64 = 40;

const ROUTES: u16 = 7;

fn main(rt: HostRuntime) -> io::Result<ExitCode> {
    let mut tally = Tally::new(rt.alloc());
    for seed in 0..SEEDS {
        try_seed(rt.alloc(), seed, &mut tally)?;
    }
    print!(rt; "{}", tally.report(rt.alloc())?)?;
    if tally.agrees() {
        Ok(ExitCode::SUCCESS)
    } else {
        Ok(ExitCode::FAILURE)
    }
}

// Asks all of the first machine of the seed that keeps the rules and in which the signal enables few enough routes.
fn try_seed(alloc: Global, seed: u64, tally: &mut Tally) -> Result<(), NoMemory> {
    for turn in 0..TRIES {
        let mut dice = Dice::new(seed.wrapping_mul(TRIES).wrapping_add(turn));
        if let Some(subject) = make_subject(alloc, &mut dice)?
            && subject.listing.routes() <= ROUTES
        {
            return compare(alloc, &subject, seed, tally);
        }
    }
    count(&mut tally.passed_over, true);
    Ok(())
}

// A machine that keeps the rules, and what is to be known of it; none where what was made breaks one.
fn make_subject(alloc: Global, dice: &mut Dice) -> Result<Option<Subject>, NoMemory>
    ensures rules { IfOk result (λ made. IfSome made (λ subject. KeepsModelRules subject.machine)) }
    ensures fits { IfOk result (λ made. IfSome made (λ subject. Fits subject.machine subject.config)) }
{
    let (sketch, active) = make_sketch(alloc, dice)?;
    let Some(machine) = machine_of(alloc, &sketch)? else {
        return Ok(None);
    };
    let config = config_of(alloc, &machine, active)?;
    let situation = Situation {
        sketch,
        active,
        truth: Marks::of_word(dice.word()),
    };
    let listing = Listing::of(alloc, &situation)?;
    Ok(Some(Subject {
        machine,
        config,
        situation,
        listing,
    }))
}
