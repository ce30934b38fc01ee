//! What a transition keeps that redefines another one: its source, and its triggers.
ghost use Rattle.std.specs.Prelude.{◌≡◌, ◌⊎◌, ◌↔◌, IsTrue, Contains, [], option_and_then};
ghost use Rattle.std.specs.Option.{option_copied};
ghost use Rattle.pssm_model.specs.DraftSettings.{IsInRange, transition_of};
ghost use Rattle.pssm_heritage.specs.Heritages.{IsLineage, numbering_of};
ghost use Rattle.pssm_breaches.specs.Latest.{IsWithin};
ghost use Rattle.pssm_breaches.specs.Rules.{AreSameSignals, KeepsSource, KeepsTriggers};
ghost use Rattle.pssm_breaches.specs.inner.Firsts.{first_in, HaveSameFirst};
ghost use Rattle.pssm_breaches.specs.inner.Ends.{EndsMeet, AreAmong};

use crate::firsts::{became_same, first_of};
use pssm_heritage::{ElementKind, Heritage, transition_at};
use pssm_model::{Draft, ElementRef, End, PartTransition, SignalId};

// The first form of a transition.
fn first_transition<'a>(
    draft: &'a Draft,
    heritage: &Heritage,
    e: ElementRef,
) -> Option<&'a PartTransition>
    ensures { option_copied result ≡
        option_and_then (transition_of draft.now) (first_in (numbering_of ElementKind.Transition heritage.now) e) }
{
    transition_at(draft, first_of(heritage, ElementKind::Transition, e)?)
}

// Whether two vertices are one, or became the same.
fn same_vertex(heritage: &Heritage, a: ElementRef, b: ElementRef) -> bool
    ensures { IsTrue result ↔ ((a ≡ b) ⊎ HaveSameFirst (numbering_of ElementKind.Vertex heritage.now) a b) }
{
    if a == b {
        true
    } else {
        became_same(heritage, ElementKind::Vertex, a, b)
    }
}

// Whether two ends are one, or became the same.
fn ends_meet(heritage: &Heritage, a: End, b: End) -> bool
    ensures { IsTrue result ↔ EndsMeet heritage.now a b }
{
    match (a, b) {
        (End::Vertex(a), End::Vertex(b)) => same_vertex(heritage, a, b),
        _ => false,
    }
}

// Whether a list has a signal.
fn has_signal(signals: &[SignalId], signal: SignalId) -> bool
    ensures { IsTrue result ↔ Contains signals.now signal }
{
    signals.contains(&signal)
}

// Whether each signal of the first list is in the second one.
fn are_among(some: &[SignalId], others: &[SignalId]) -> bool
    ensures { IsTrue result ↔ AreAmong some.now others.now }
{
    for signal in some {
        if !has_signal(others, *signal) {
            return false;
        }
    }
    true
}

// Whether two lists have the same signals.
fn same_signals(some: &[SignalId], others: &[SignalId]) -> bool
    ensures { IsTrue result ↔ AreSameSignals some.now others.now }
{
    if are_among(some, others) {
        are_among(others, some)
    } else {
        false
    }
}

// Whether a list has no signals, or the same as another one.
fn none_or_same(some: &[SignalId], others: &[SignalId]) -> bool
    ensures { IsTrue result ↔ ((some.now ≡ []) ⊎ AreSameSignals some.now others.now) }
{
    if some.is_empty() {
        true
    } else {
        same_signals(some, others)
    }
}

// Whether a transition keeps its source.
fn transition_keeps_source(draft: &Draft, heritage: &Heritage, _m: u32, e: ElementRef) -> bool
    requires range { IsInRange draft.now }
    requires lineage { IsLineage draft.now _m heritage.now }
    requires within { IsWithin draft.now _m ElementKind.Transition e }
    ensures { IsTrue result ↔ KeepsSource draft.now _m ElementKind.Transition e }
{
    match transition_at(draft, e) {
        Some(now) => match first_transition(draft, heritage, e) {
            Some(then) => ends_meet(heritage, now.source, then.source),
            None => false,
        },
        None => false,
    }
}

// Whether a transition keeps its triggers.
fn transition_keeps_triggers(draft: &Draft, heritage: &Heritage, _m: u32, e: ElementRef) -> bool
    requires lineage { IsLineage draft.now _m heritage.now }
    requires within { IsWithin draft.now _m ElementKind.Transition e }
    ensures { IsTrue result ↔ KeepsTriggers draft.now ElementKind.Transition e }
{
    match transition_at(draft, e) {
        Some(now) => match first_transition(draft, heritage, e) {
            Some(then) => none_or_same(now.triggers.as_slice(), then.triggers.as_slice()),
            None => false,
        },
        None => false,
    }
}

// Whether an element keeps its source, where it is a transition.
pub(crate) fn keeps_source(
    draft: &Draft,
    heritage: &Heritage,
    m: u32,
    kind: ElementKind,
    e: ElementRef,
) -> bool
    requires range { IsInRange draft.now }
    requires lineage { IsLineage draft.now m heritage.now }
    requires within { IsWithin draft.now m kind e }
    ensures { IsTrue result ↔ KeepsSource draft.now m kind e }
{
    match kind {
        ElementKind::Region => true,
        ElementKind::Vertex => true,
        ElementKind::Transition => transition_keeps_source(draft, heritage, m, e),
    }
}

// Whether an element keeps its triggers, where it is a transition.
pub(crate) fn keeps_triggers(
    draft: &Draft,
    heritage: &Heritage,
    m: u32,
    kind: ElementKind,
    e: ElementRef,
) -> bool
    requires lineage { IsLineage draft.now m heritage.now }
    requires within { IsWithin draft.now m kind e }
    ensures { IsTrue result ↔ KeepsTriggers draft.now kind e }
{
    match kind {
        ElementKind::Region => true,
        ElementKind::Vertex => true,
        ElementKind::Transition => transition_keeps_triggers(draft, heritage, m, e),
    }
}
