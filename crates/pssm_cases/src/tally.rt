//! What became of cases.
ghost use Rattle.std.specs.Prelude.{◌≡◌, All, IsNone, IsTrue, count_by, is_none};

use std::alloc::{AllocError, Global};

/// What became of one case.
#[derive(Drop)]
pub struct Outcome {
    /// The line of its file where it begins, from 1.
    pub line: usize,
    /// What it shows.
    pub words: String,
    /// Why it does not hold, or nothing where it does.
    pub failure: Option<String>,
}

impl Outcome {
    /// Whether the case holds.
    pub fn holds(&self) -> bool
        ensures { result ≡ is_none self.now.failure }
    {
        self.failure.is_none()
    }
}

/// What became of the cases of a file.
#[derive(Drop)]
pub struct Tally {
    /// The name of the file.
    pub name: String,
    /// One outcome for each case.
    pub outcomes: Vec<Outcome>,
}

impl Tally {
    // How many cases hold.
    fn held(&self) -> usize
        ensures { result ≡ count_by (λ outcome. is_none outcome.failure) self.now.outcomes.items }
    {
        self.outcomes
            .iter()
            .filter(|outcome| outcome.holds())
            .count()
    }

    // Whether there is a case, and each holds.
    fn all_hold(&self) -> bool
        ensures { IsTrue result → All (λ outcome. IsNone outcome.failure) self.now.outcomes.items }
    {
        !self.outcomes.is_empty() && self.outcomes.iter().all(|outcome| outcome.holds())
    }
}

/// Whether there is a file, each file has a case, and each case holds.
pub fn all_hold(tallies: &[Tally]) -> bool
    ensures { IsTrue result → All (λ tally. All (λ outcome. IsNone outcome.failure) tally.outcomes.items) tallies.now }
{
    !tallies.is_empty() && tallies.iter().all(|tally| tally.all_hold())
}

/// The text of the tallies: a line for each file, with how many cases it has and how many hold, and behind it one for each
/// case that does not hold; and a last line with the sums.
pub fn report(alloc: Global, tallies: &[Tally]) -> Result<String, AllocError> {
    report_of(alloc, "files", tallies)
}

/// The same of tallies that are not those of files: `kind` is the word that the last line has for them.
pub fn report_of(alloc: Global, kind: &str, tallies: &[Tally]) -> Result<String, AllocError> {
    let mut text = String::new(alloc);
    let mut cases = 0usize;
    let mut held = 0usize;
    for tally in tallies {
        put_tally(&mut text, tally)?;
        cases = cases.saturating_add(tally.outcomes.len());
        held = held.saturating_add(tally.held());
    }
    let count = tallies.len();
    writeln!(text, "{count} {kind}: {cases} cases, {held} hold")?;
    Ok(text)
}

// Puts the lines of one file.
fn put_tally(text: &mut String, tally: &Tally) -> Result<(), AllocError> {
    let name = tally.name.as_str();
    let cases = tally.outcomes.len();
    let held = tally.held();
    writeln!(text, "{name}: {cases} cases, {held} hold")?;
    for outcome in &tally.outcomes {
        put_failure(text, name, outcome)?;
    }
    Ok(())
}

// Puts the line of a case, where it does not hold.
fn put_failure(text: &mut String, name: &str, outcome: &Outcome) -> Result<(), AllocError> {
    let Some(failure) = &outcome.failure else {
        return Ok(());
    };
    let line = outcome.line;
    let words = outcome.words.as_str();
    writeln!(text, "{name}:{line}: {words}: {failure}")
}
