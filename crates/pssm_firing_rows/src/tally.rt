//! What was asked, what the definitions say of it, and where an answer was another.

use std::alloc::{AllocError as NoMemory, Global};

/// A question to a call of which the answer was not what the definitions say.
#[derive(Clone, Copy)]
pub(crate) enum Question {
    /// Whether a set of enabled routes, by its number, is what fires.
    Fires(u64),
    /// Whether it is, listed from its last route to the first.
    FiresTurned(u64),
    /// Whether a firing set with a route that is not enabled is what fires.
    FiresWith(u64),
    /// Whether what may be a route, by its place, is enabled.
    Enables(u64),
    /// What the word picks.
    Picks(u64),
    /// Whether an enabled route starts at the vertex or in it.
    Overrides(u64),
}

/// A question, and the seed of the machine of which it was asked.
#[derive(Clone, Copy)]
pub(crate) struct Difference {
    pub(crate) seed: u64,
    pub(crate) question: Question,
}

/// How much was asked. The numbers come from the plain lists, and not from the calls that are tried.
#[derive(Drop)]
pub(crate) struct Tally {
    pub(crate) machines: u64,
    pub(crate) passed_over: u64,
    pub(crate) with_conflict: u64,
    pub(crate) with_priority: u64,
    pub(crate) with_junction: u64,
    pub(crate) with_choice: u64,
    pub(crate) candidates: u64,
    pub(crate) routes: u64,
    pub(crate) sets: u64,
    pub(crate) firing_sets: u64,
    pub(crate) turned: u64,
    pub(crate) strangers: u64,
    pub(crate) words: u64,
    pub(crate) states: u64,
    pub(crate) overriding: u64,
    pub(crate) differences: Vec<Difference>,
}

/// Counts one more, where it is to be counted.
pub(crate) fn count(number: &mut u64, counts: bool) {
    if counts {
        *number = number.saturating_add(1);
    }
}

impl Tally {
    /// Nothing was asked yet.
    pub(crate) fn new(alloc: Global) -> Tally {
        Tally {
            machines: 0,
            passed_over: 0,
            with_conflict: 0,
            with_priority: 0,
            with_junction: 0,
            with_choice: 0,
            candidates: 0,
            routes: 0,
            sets: 0,
            firing_sets: 0,
            turned: 0,
            strangers: 0,
            words: 0,
            states: 0,
            overriding: 0,
            differences: Vec::new(alloc),
        }
    }

    /// Keeps a question that was answered in another way.
    pub(crate) fn compare(
        &mut self,
        seed: u64,
        question: Question,
        agrees: bool,
    ) -> Result<(), NoMemory> {
        if !agrees {
            self.differences.push(Difference { seed, question })?;
        }
        Ok(())
    }

    /// The lines that say what was asked.
    pub(crate) fn report(&self, alloc: Global) -> Result<String, NoMemory> {
        let mut text = self.head(alloc)?;
        text.push_str(self.body(alloc)?.as_str())?;
        text.push_str(self.verdict(alloc)?.as_str())?;
        Ok(text)
    }

    fn head(&self, alloc: Global) -> Result<String, NoMemory> {
        format!(in alloc;
            "machines: {}, passed over {}\nwith routes that conflict: {}\nwith a route that has priority: {}\n\
             with a route over a junction: {}\nwith several firing sets: {}\n",
            self.machines,
            self.passed_over,
            self.with_conflict,
            self.with_priority,
            self.with_junction,
            self.with_choice,
        )
    }

    fn body(&self, alloc: Global) -> Result<String, NoMemory> {
        format!(in alloc;
            "lists of transitions: {}, enabled routes {}\nsets of enabled routes: {}, firing sets {}\n\
             lists in the wrong order: {}\nlists with a route that is not enabled: {}\n\
             picks: {}\nStates: {}, overriding {}\n",
            self.candidates,
            self.routes,
            self.sets,
            self.firing_sets,
            self.turned,
            self.strangers,
            self.words,
            self.states,
            self.overriding,
        )
    }

    // That all agree, or the first few questions that were answered in another way.
    fn verdict(&self, alloc: Global) -> Result<String, NoMemory> {
        if self.agrees() {
            return String::from_str(alloc, "all agree\n");
        }
        let mut text = format!(in alloc; "answered otherwise: {}\n", self.differences.len())?;
        for difference in self.differences.as_slice().iter().take(10) {
            text.push_str(line_of(alloc, *difference)?.as_str())?;
        }
        Ok(text)
    }

    /// Whether every answer was what the definitions say.
    pub(crate) fn agrees(&self) -> bool {
        self.differences.is_empty()
    }
}

// The line of a question that was answered in another way.
fn line_of(alloc: Global, difference: Difference) -> Result<String, NoMemory> {
    let (words, number) = match difference.question {
        Question::Fires(set) => ("is_firing_set of the set", set),
        Question::FiresTurned(set) => ("is_firing_set, in the wrong order, of the set", set),
        Question::FiresWith(place) => ("is_firing_set with the list of transitions", place),
        Question::Enables(place) => ("check_route of the list of transitions", place),
        Question::Picks(word) => ("pick_firing_set by the word", word),
        Question::Overrides(state) => ("overrides of the State", state),
    };
    format!(in alloc; "seed {}: {words} {number}\n", difference.seed)
}
