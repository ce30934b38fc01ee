//! The further transitions of a leg, and where each of them stands among them.
ghost use Rattle.std.specs.Prelude.{◌≡◌, ◌⊎◌, ◌↔◌, ◌<◌, ◌+◌, ℕ, List, [], Contains, IfOk, IsTrue, length, slice_get, slice_index_or, Some};
ghost use Rattle.pssm_model.specs.declared.ids.TransId.{TransId as Transition};
ghost use Rattle.pssm_legs.specs.LegsOf.{StandsBefore};
ghost use Rattle.pssm_legs.specs.inner.Spans.{nowhere, AreSpans, HasSpans};

use pssm_model::TransId;
use std::alloc::{AllocError as NoMemory, Global};
use std::marker::Model;

/// Where a transition stands in a list: its first place and its last one, counted from 1; twice 0 where it stands nowhere.
#[derive(Clone, Copy)]
pub struct Span {
    pub first: usize,
    pub last: usize,
}

// Of so many transitions at most it is looked through the list where one of them stands.
const FEW: usize = 8;

/// The further transitions of a leg, in the order in which they are taken if they are.
///
/// A clause sees the list. Where there are more than a few, a table tells where each of them stands.
#[derive(Drop)]
pub struct Further {
    items: Vec<TransId>,
    /// By transition where it stands; nothing where there are few.
    spans: Vec<Span>,
}

impl Model for Further {
    ghost use Rattle.pssm_legs.specs.Transitions.{Transitions};
    ghost use Rattle.pssm_legs.specs.inner.Spans.{HasSpans};

    ghost Value = { Transitions };

    ghost view = { λ f. record { items = f.items.items } };

    ghost invariant = { λ f. HasSpans f.items.items f.spans.items };
}

impl Further {
    /// No transitions, which take no memory.
    #[inline(always)]
    pub fn none(alloc: Global) -> Further
        ensures items { result.items ≡ [] }
    {
        Further {
            items: Vec::new(alloc),
            spans: Vec::new(alloc),
        }
    }

    /// These transitions, of a machine that has so many.
    ///
    /// `NoMemory`: memory ran out. A few take none.
    #[inline(always)]
    pub fn new(alloc: Global, items: Vec<TransId>, width: u16) -> Result<Further, NoMemory>
        ensures items { IfOk result (λ further. further.items ≡ items.items) }
    {
        let spans = spans_where_many(alloc, items.as_slice(), usize::from(width))?;
        Ok(Further { items, spans })
    }

    /// The transitions in their order.
    #[inline(always)]
    pub fn as_slice(&self) -> &[TransId]
        ensures value { result.now ≡ self.now.items }
    {
        self.items.as_slice()
    }

    /// How many there are.
    #[inline(always)]
    pub fn len(&self) -> usize
        ensures { result ≡ length self.now.items }
    {
        self.items.len()
    }

    /// Whether a transition is one of them.
    #[inline(always)]
    pub fn contains(&self, t: TransId) -> bool
        ensures { IsTrue result ↔ Contains self.now.items t }
    {
        let table = self.spans.as_slice();
        if table.is_empty() {
            self.items.as_slice().contains(&t)
        } else {
            stands_somewhere(span_of(table, t))
        }
    }

    /// Whether the first of two transitions stands before the second.
    #[inline(always)]
    pub fn puts_before(&self, t: TransId, u: TransId) -> bool
        ensures { IsTrue result ↔ StandsBefore self.now.items t u }
    {
        let table = self.spans.as_slice();
        if table.is_empty() {
            stands_before(self.items.as_slice(), t, u)
        } else {
            begins_before(span_of(table, t), span_of(table, u))
        }
    }
}

// Whether a transition has been seen, or is this one.
fn comes_to(seen: bool, w: TransId, t: TransId) -> bool
    ensures { IsTrue result ↔ (IsTrue seen ⊎ (w ≡ t)) }
{
    seen || w == t
}

// Whether a transition has been seen, and this is another one.
fn is_second(seen: bool, w: TransId, u: TransId) -> bool
    ensures { IsTrue result ↔ (IsTrue seen × (w ≡ u)) }
{
    seen && w == u
}

// Whether the first of two transitions stands in the list before the second.
#[tactic(auto, using(crate::proofs::SeenBefore::none_seen))]
fn stands_before(path: &[TransId], t: TransId, u: TransId) -> bool
    ensures { IsTrue result ↔ StandsBefore path.now t u }
{
    let mut seen = false;
    for w in path {
        if is_second(seen, *w, u) {
            return true;
        }
        seen = comes_to(seen, *w, t);
    }
    false
}

// Whether something stands somewhere.
fn stands_somewhere(span: Span) -> bool
    ensures { IsTrue result ↔ (0 < span.first) }
{
    0 < span.first
}

// Whether one thing stands somewhere, and another thing behind its first place.
fn begins_before(span: Span, other: Span) -> bool
    ensures { IsTrue result ↔ ((0 < span.first) × (span.first < other.last)) }
{
    0 < span.first && span.first < other.last
}

// Where a transition stands, by the table.
#[inline(always)]
fn span_of(spans: &[Span], t: TransId) -> Span
    ensures { result ≡ slice_index_or spans.now t.0 nowhere }
{
    match spans.get(usize::from(t.0)) {
        Some(span) => *span,
        None => Span { first: 0, last: 0 },
    }
}

// The first place of what stands at this place too, if it stood at others before.
fn first_of(span: Span, place: usize) -> usize
    ensures new { span.first ≡ 0 → result ≡ place }
    ensures old { 0 < span.first → result ≡ span.first }
{
    if span.first == 0 { place } else { span.first }
}

// Notes in the table that a transition stands at a place too, counted from 1, behind all others.
fn note(spans: &mut Vec<Span>, t: TransId, place: usize)
    requires { t.0 < length spans.old.items }
    ensures width { length spans.new.items ≡ length spans.old.items }
    ensures noted { (ts : List Transition) (k : ℕ) → AreSpans ts k spans.old.items → slice_get ts k ≡ Some t
        → place ≡ k + 1 → AreSpans ts (k + 1) spans.new.items }
{
    let span = spans[usize::from(t.0)];
    let first = first_of(span, place);
    spans[usize::from(t.0)] = Span { first, last: place };
}

// The table of these transitions; none where the number of one is too high for it.
#[tactic(auto, using(crate::proofs::SpanLaws::none_noted))]
fn spans_of(alloc: Global, items: &[TransId], width: usize) -> Result<Vec<Span>, NoMemory>
    ensures { IfOk result (λ spans. HasSpans items.now spans.items) }
{
    let mut spans = vec![in alloc; Span { first: 0, last: 0 }; width]?;
    for k in 0..items.len() {
        let t = items[k];
        if usize::from(t.0) >= spans.len() {
            return Ok(Vec::new(alloc));
        }
        note(&mut spans, t, k + 1);
    }
    Ok(spans)
}

// The table where there are more than a few.
#[inline(always)]
fn spans_where_many(alloc: Global, items: &[TransId], width: usize) -> Result<Vec<Span>, NoMemory>
    ensures { IfOk result (λ spans. HasSpans items.now spans.items) }
{
    if items.len() <= FEW {
        Ok(Vec::new(alloc))
    } else {
        spans_of(alloc, items, width)
    }
}
