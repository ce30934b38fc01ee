//! Asks the calls all that is to be asked of a subject, and compares their answers with what the definitions say.
ghost use Rattle.pssm_config.specs.Tables.{Fits};
ghost use Rattle.pssm_model.specs.WellFormed.{KeepsModelRules};

use crate::asking::{Subject, firing_of, route_of, turned, with_route};
use crate::listing::Listing;
use crate::marks::{Marks, count_sets};
use crate::tally::{Question, Tally, count};
use pssm_model::{Firing, VertexKind};
use std::alloc::{AllocError as NoMemory, Global};

// Each set of enabled routes fires exactly if it is a firing set, and in the wrong order no set of two or more does.
fn compare_sets(
    alloc: Global,
    subject: &Subject,
    seed: u64,
    tally: &mut Tally,
) -> Result<(), NoMemory>
    requires rules { KeepsModelRules subject.now.machine }
    requires fits { Fits subject.now.machine subject.now.config }
{
    for word in 0..count_sets(subject.listing.routes()) {
        let set = Marks::of_word(word);
        let fires = subject.listing.is_firing(set);
        let firing = firing_of(alloc, &subject.listing, set)?;
        let answer = subject.fires(alloc, &firing)?;
        tally.compare(seed, Question::Fires(word), answer == fires)?;
        count(&mut tally.sets, true);
        count(&mut tally.firing_sets, fires);
        if firing.routes.as_slice().len() > 1 {
            let answer = subject.fires(alloc, &turned(alloc, &firing)?)?;
            tally.compare(seed, Question::FiresTurned(word), !answer)?;
            count(&mut tally.turned, true);
        }
    }
    Ok(())
}

// The first firing set, as a list.
fn first_firing(alloc: Global, listing: &Listing) -> Result<Firing, NoMemory> {
    match listing.firing.as_slice() {
        [set, ..] => firing_of(alloc, listing, *set),
        [] => firing_of(alloc, listing, Marks::none()),
    }
}

// What may be a route is enabled exactly if the definitions say so. Where it is not, no firing set fires with it.
fn compare_candidates(
    alloc: Global,
    subject: &Subject,
    seed: u64,
    tally: &mut Tally,
) -> Result<(), NoMemory>
    requires rules { KeepsModelRules subject.now.machine }
    requires fits { Fits subject.now.machine subject.now.config }
{
    let first = first_firing(alloc, &subject.listing)?;
    for (place, tried) in subject.listing.tried.as_slice().iter().enumerate() {
        let answer = subject.enables(&route_of(alloc, tried.route)?);
        tally.compare(
            seed,
            Question::Enables(place as u64),
            answer == tried.is_enabled,
        )?;
        count(&mut tally.candidates, true);
        count(&mut tally.routes, tried.is_enabled);
        if !tried.is_enabled && place % 16 == 0 {
            let answer = subject.fires(alloc, &with_route(alloc, &first, tried.route)?)?;
            tally.compare(seed, Question::FiresWith(place as u64), !answer)?;
            count(&mut tally.strangers, true);
        }
    }
    Ok(())
}

// Whether these are the routes of one of the firing sets, in order.
fn is_listed(alloc: Global, listing: &Listing, firing: &Firing) -> Result<bool, NoMemory> {
    for set in listing.firing.as_slice() {
        if firing_of(alloc, listing, *set)? == *firing {
            return Ok(true);
        }
    }
    Ok(false)
}

// By each of 16 words one of the firing sets is picked.
fn compare_picks(
    alloc: Global,
    subject: &Subject,
    seed: u64,
    tally: &mut Tally,
) -> Result<(), NoMemory>
    requires rules { KeepsModelRules subject.now.machine }
    requires fits { Fits subject.now.machine subject.now.config }
{
    for word in 0..16 {
        let picked = subject.picks(alloc, word)?;
        let is_one = is_listed(alloc, &subject.listing, &picked)?;
        tally.compare(seed, Question::Picks(word), is_one)?;
        count(&mut tally.words, true);
    }
    Ok(())
}

// Whether an enabled route starts at the State or in it.
fn overrides(subject: &Subject, state: u16) -> bool {
    for enabled in subject.listing.enabled.as_slice() {
        if subject
            .situation
            .sketch
            .is_or_lies_in(enabled.source, state)
        {
            return true;
        }
    }
    false
}

// Each State is overridden exactly if an enabled route starts at it or in it.
fn compare_states(subject: &Subject, seed: u64, tally: &mut Tally) -> Result<(), NoMemory>
    requires rules { KeepsModelRules subject.now.machine }
    requires fits { Fits subject.now.machine subject.now.config }
{
    for state in 0..subject.situation.sketch.vertices() {
        if subject.situation.sketch.has_kind(state, VertexKind::State) {
            let overridden = overrides(subject, state);
            let answer = subject.overrides(state);
            tally.compare(
                seed,
                Question::Overrides(state as u64),
                answer == overridden,
            )?;
            count(&mut tally.states, true);
            count(&mut tally.overriding, overridden);
        }
    }
    Ok(())
}

// Whether one of the routes goes over a junction.
fn has_long_route(listing: &Listing) -> bool {
    listing
        .enabled
        .as_slice()
        .iter()
        .any(|enabled| !enabled.route.rest.is_none())
}

// Whether one of the sets has something in it.
fn is_some(sets: &[Marks]) -> bool {
    sets.iter().any(|set| !set.is_none())
}

/// Asks all that is to be asked of the subject.
pub(crate) fn compare(
    alloc: Global,
    subject: &Subject,
    seed: u64,
    tally: &mut Tally,
) -> Result<(), NoMemory>
    requires rules { KeepsModelRules subject.now.machine }
    requires fits { Fits subject.now.machine subject.now.config }
{
    let listing = &subject.listing;
    count(&mut tally.machines, true);
    count(
        &mut tally.with_conflict,
        is_some(listing.conflicts.as_slice()),
    );
    count(
        &mut tally.with_priority,
        is_some(listing.priorities.as_slice()),
    );
    count(&mut tally.with_junction, has_long_route(listing));
    count(&mut tally.with_choice, listing.firing.len() > 1);
    compare_candidates(alloc, subject, seed, tally)?;
    compare_sets(alloc, subject, seed, tally)?;
    compare_picks(alloc, subject, seed, tally)?;
    compare_states(subject, seed, tally)
}
