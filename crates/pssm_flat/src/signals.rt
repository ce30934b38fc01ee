//! Signals by their names.
ghost use Rattle.std.specs.Prelude.{◌≡◌, ◌≤◌, ◌<◌, length, IfOk, IfSome, position};
ghost use Rattle.std.specs.Str.{bytes_eq};
ghost use Rattle.pssm_flat.specs.inner.Outlines.{kept, number_from, with_signal};
ghost use Rattle.pssm_flat.specs.Flat.{next_number};

use crate::rows::push;
use pssm_acts::Known;
use pssm_model::{Row, SignalId};
use pssm_semantics::SignalDecl;
use std::alloc::{AllocError, Global};

// The place of the first of these signals that has the name.
fn place_of(signals: &[SignalDecl], name: &[u8]) -> Option<usize>
    ensures gives { result ≡ position (λ s. bytes_eq s.name name.now) signals.now }
    ensures within { IfSome result (λ k. k < length signals.now) }
{
    signals.iter().position(|s| s.name.as_slice() == name)
}

// The first signal from a number on that has the name, which is sought among these one by one.
fn later_signal(signals: &[SignalDecl], from: usize, name: &[u8]) -> Option<usize>
    requires { from ≤ length signals.now }
    ensures gives { result ≡ number_from signals.now from name.now }
    ensures known { IfSome result (λ g. g < length signals.now) }
{
    let (_, later) = signals.split_at(from);
    let place = place_of(later, name)?;
    Some(place + from)
}

// The first signal from a number on that has the name. Where one before that number has it, the later ones are compared
// one by one: names of signals differ, so that reading ends there.
#[tactic(auto, using(crate::proofs::FoundLaws::none_later))]
fn signal_from(names: &Known<'_>, from: usize, name: &[u8]) -> Option<usize>
    ensures gives { result ≡ number_from names.now.signals from name.now }
    ensures known { IfSome result (λ g. g < length names.now.signals) }
{
    let signals = names.names().signals.as_slice();
    if from > signals.len() {
        return None;
    }
    match names.signal(name) {
        Some(place) => {
            if place < from {
                later_signal(signals, from, name)
            } else {
                Some(place)
            }
        }
        None => None,
    }
}

// The number behind the last of these.
fn after_last(seen: &[SignalId]) -> usize
    ensures { result ≡ next_number seen.now }
{
    match seen.last() {
        Some(SignalId(number)) => usize::from(*number) + 1,
        None => 0,
    }
}

/// Puts one more signal, by its name, behind the ones before. False where there is none of the name behind them.
#[tactic(auto, unfolding(crate::specs::inner::Outlines::with_signal))]
pub(crate) fn add_signal(
    alloc: Global,
    names: &Known<'_>,
    seen: &mut Row<SignalId>,
    name: &[u8],
) -> Result<bool, AllocError>
    requires { length names.now.signals ≤ 256 }
    ensures { IfOk result (λ taken. kept taken seen.new ≡ with_signal names.now.signals seen.old name.now) }
{
    let Some(number) = signal_from(names, after_last(seen.as_slice()), name) else {
        return Ok(false);
    };
    push(alloc, seen, SignalId(number as u16))?;
    Ok(true)
}
