//! The signals for which the triggers of a transition or a State wait.
ghost use Rattle.std.specs.Prelude.{◌≡◌, ◌<◌, ◌≤◌, length, map, filter, IfOk, IfSome};
ghost use Rattle.std.specs.List.{list_any, All};
ghost use Rattle.pssm_numbering.specs.Numbering.{children_with, is_number, is_trigger, signals as signals_in};
ghost use Rattle.pssm_parts.specs.Elements as elements;
ghost use Rattle.pssm_drafting.specs.Fitting.{FitsDraft};
ghost use Rattle.pssm_drafting.specs.inner.Waiting.{waited_by as by_trigger, all_waited as by_triggers, with_number, waiting_numbers};

use pssm_model::{Row, SignalId};
use pssm_numbering::{File, Kind, Numbering, children_of_kind, signal_of_trigger};
use std::alloc::{AllocError as NoMemory, Global};

// The signal for which a trigger waits, where the trigger is a child of this name.
fn waited_by(
    alloc: Global,
    file: &File,
    n: u32,
    name: &[u8],
    t: u32,
) -> Result<Option<u32>, NoMemory>
    requires { t < length file.now.doc }
    ensures { IfOk result (λ found. found ≡ by_trigger name.now file.now n t) }
{
    if file.is_named(t, n, name) {
        signal_of_trigger(alloc, file, t)
    } else {
        Ok(None)
    }
}

// The triggers of an element.
#[tactic(auto, using(crate::proofs::ListLaws::children_within))]
fn triggers_of(alloc: Global, file: &File, n: u32) -> Result<Vec<u32>, NoMemory>
    requires { n < length file.now.doc }
    ensures list { IfOk result (λ triggers. triggers.items ≡ children_with is_trigger file.now n) }
    ensures within { IfOk result (λ triggers. All (λ t. t < length file.now.doc) triggers.items) }
{
    children_of_kind(alloc, file, n, Kind::Trigger)
}

// The same of each trigger of an element.
fn all_waited(alloc: Global, file: &File, n: u32, name: &[u8]) -> Result<Vec<Option<u32>>, NoMemory>
    requires { n < length file.now.doc }
    ensures { IfOk result (λ waited. waited.items ≡ by_triggers name.now file.now n) }
{
    let triggers = triggers_of(alloc, file, n)?;
    let mut waited = Vec::new(alloc);
    for t in triggers.as_slice() {
        waited.push(waited_by(alloc, file, n, name, *t)?)?;
    }
    Ok(waited)
}

// Whether one of the triggers waits for this signal.
fn is_waited(waited: &[Option<u32>], s: u32) -> bool
    ensures { result ≡ list_any (is_number s) waited.now }
{
    waited.contains(&Some(s))
}

// Adds the signal with this number, where a trigger waits for it.
fn with_signal(row: Row<SignalId>, number: u16, waits: bool) -> Result<Row<SignalId>, NoMemory>
    ensures { IfOk result (λ more. more ≡ with_number row number waits) }
{
    let mut more = row;
    if waits {
        more.push(SignalId(number))?;
    }
    Ok(more)
}

// The numbers of the signals for which one of the triggers waits.
#[tactic(auto, using(crate::proofs::WaitingLaws::more_numbers))]
fn numbers_of(
    alloc: Global,
    numbering: &Numbering,
    waited: &[Option<u32>],
) -> Result<Row<SignalId>, NoMemory>
    requires { length (signals_in numbering.now) ≤ 256 }
    ensures { IfOk result (λ row. row ≡ waiting_numbers numbering.now waited.now) }
{
    let signals = numbering.signals();
    let mut row = Row::from_vec(Vec::new(alloc));
    for i in 0..signals.len() {
        row = with_signal(row, i as u16, is_waited(waited, signals[i]))?;
    }
    Ok(row)
}

/// The signals, ascending and each once, for which the triggers of this name wait (UML 2.5.1, 13.4.14, Trigger, and
/// 13.4.10, SignalEvent).
#[tactic(auto, using(crate::proofs::WaitingLaws::same_signals))]
pub fn signals_at(
    alloc: Global,
    file: &File,
    numbering: &Numbering,
    n: u32,
    name: &[u8],
) -> Result<Row<SignalId>, NoMemory>
    requires same { numbering.now ≡ file.now }
    requires within { n < length file.now.doc }
    requires fits { FitsDraft file.now }
    ensures { IfOk result (λ row. row ≡ elements.signals_at name.now file.now n) }
{
    let waited = all_waited(alloc, file, n, name)?;
    numbers_of(alloc, numbering, waited.as_slice())
}
