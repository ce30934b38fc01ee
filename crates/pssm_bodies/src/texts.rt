//! What is counted of one text: its behaviours with statements; its marks are noted.
ghost use Rattle.std.specs.Prelude.{◌≡◌, ◌≤◌, length, IfOk, IfErr, not};
ghost use Rattle.std.specs.List.{count_by};
ghost use Rattle.pssm_acts.specs.Answers.{Faults};
ghost use Rattle.pssm_bodies.specs.declared.slot.Reading.TheVariants as readings;
ghost use Rattle.pssm_bodies.specs.Readings.{is_empty};
ghost use Rattle.pssm_bodies.specs.Faults.{HasTextFault};
ghost use Rattle.pssm_bodies.specs.inner.Counts.{has_statements, SaysCount, CountsOn, FailsOn};

use crate::slot::Reading;
use pssm_acts::{ActFault, Known, Marks, read_act_noting, read_cond_known, read_steps_noting};
use pssm_semantics::Act;
use std::alloc::Global;

/// How many behaviours, the empty one counted, and how many marks a class may have (this profile's choice).
pub(crate) const MOST_NUMBERS: usize = 32768;

/// Whether a behaviour has statements.
pub(crate) fn is_not_empty(act: &Act) -> bool
    ensures { result ≡ has_statements act.now }
{
    !act.stmts.as_slice().is_empty()
}

// How many of the behaviours have statements.
fn count(acts: &[Act]) -> usize
    ensures { result ≡ count_by has_statements acts.now }
{
    let mut count = 0;
    for act in acts {
        if is_not_empty(act) {
            count += 1;
        }
    }
    count
}

// How many behaviours with statements a text says that is read as one behaviour.
fn behaviour_count(
    alloc: Global,
    names: &Known<'_>,
    text: &[u8],
    marks: &mut Marks,
) -> Result<usize, ActFault>
    requires vars { length names.now.vars ≤ 64 }
    requires objects { length names.now.objects ≤ 64 }
    requires signals { length names.now.signals ≤ 256 }
    requires marks { length marks.old ≤ 32768 }
    ensures few { IfOk result (λ n. n ≤ 64) }
    ensures says { IfOk result
        (λ n. SaysCount names.now marks.old text.now readings.Behaviour n marks.new) }
    ensures fault { IfErr result (λ f. Faults (HasTextFault names.now readings.Behaviour text.now) f) }
{
    let act = read_act_noting(alloc, text, names, marks)?;
    if is_not_empty(&act) { Ok(1) } else { Ok(0) }
}

// How many behaviours with statements a text says that is read as steps.
fn steps_count(
    alloc: Global,
    names: &Known<'_>,
    text: &[u8],
    marks: &mut Marks,
) -> Result<usize, ActFault>
    requires vars { length names.now.vars ≤ 64 }
    requires objects { length names.now.objects ≤ 64 }
    requires signals { length names.now.signals ≤ 256 }
    requires marks { length marks.old ≤ 32768 }
    ensures few { IfOk result (λ n. n ≤ 64) }
    ensures says { IfOk result
        (λ n. SaysCount names.now marks.old text.now readings.Steps n marks.new) }
    ensures fault { IfErr result (λ f. Faults (HasTextFault names.now readings.Steps text.now) f) }
{
    let acts = read_steps_noting(alloc, text, names, marks)?;
    Ok(count(acts.as_slice()))
}

// No behaviour, where the text is that of a guard.
fn guard_count(
    alloc: Global,
    names: &Known<'_>,
    text: &[u8],
    marks: &mut Marks,
) -> Result<usize, ActFault>
    requires vars { length names.now.vars ≤ 64 }
    ensures few { IfOk result (λ n. n ≤ 64) }
    ensures says { IfOk result
        (λ n. SaysCount names.now marks.old text.now readings.Guard n marks.new) }
    ensures fault { IfErr result (λ f. Faults (HasTextFault names.now readings.Guard text.now) f) }
{
    let _cond = read_cond_known(alloc, text, names)?;
    Ok(0)
}

// How many behaviours with statements a text says.
fn text_count(
    alloc: Global,
    names: &Known<'_>,
    text: &[u8],
    reading: Reading,
    marks: &mut Marks,
) -> Result<usize, ActFault>
    requires vars { length names.now.vars ≤ 64 }
    requires objects { length names.now.objects ≤ 64 }
    requires signals { length names.now.signals ≤ 256 }
    requires marks { length marks.old ≤ 32768 }
    ensures few { IfOk result (λ n. n ≤ 64) }
    ensures says { IfOk result (λ n. SaysCount names.now marks.old text.now reading n marks.new) }
    ensures fault { IfErr result (λ f. Faults (HasTextFault names.now reading text.now) f) }
{
    match reading {
        Reading::Behaviour => behaviour_count(alloc, names, text, marks),
        Reading::Steps => steps_count(alloc, names, text, marks),
        Reading::Guard => guard_count(alloc, names, text, marks),
    }
}

/// How many behaviours there are behind a text, where there were so many before it.
pub(crate) fn counted_on(
    alloc: Global,
    names: &Known<'_>,
    text: &[u8],
    reading: Reading,
    count: usize,
    marks: &mut Marks,
) -> Result<usize, ActFault>
    requires vars { length names.now.vars ≤ 64 }
    requires objects { length names.now.objects ≤ 64 }
    requires signals { length names.now.signals ≤ 256 }
    requires marks { length marks.old ≤ 32768 }
    requires count { count ≤ 32768 }
    ensures limits { IfOk result (λ more. more ≤ 32768) }
    ensures marks { IfOk result (λ _. length marks.new ≤ 32768) }
    ensures counts { IfOk result
        (λ more. CountsOn names.now text.now reading count marks.old more marks.new) }
    ensures fault { IfErr result
        (λ f. FailsOn names.now text.now reading count marks.old f) }
{
    let said = text_count(alloc, names, text, reading, marks)?;
    let more = count + said;
    if more > MOST_NUMBERS || marks.len() > MOST_NUMBERS {
        return Err(ActFault::TooLong { at: 0 });
    }
    Ok(more)
}
