//! The first breach of a machine, by a walk through its elements and those that it inherits.
ghost use Rattle.std.specs.Prelude.{◌≡◌, ◌<◌, ◌+◌, length, slice_index_or, IfOk, MatchOption};
ghost use Rattle.pssm_model.specs.DraftSettings.{IsInRange};
ghost use Rattle.pssm_heritage.specs.Heritages.{IsLineage, numbering_of};
ghost use Rattle.pssm_heritage.specs.inner.Tables.{own_count};
ghost use Rattle.pssm_breaches.specs.Rules.{BreaksNothing};
ghost use Rattle.pssm_breaches.specs.Faults.{IsFirstBreach};
ghost use Rattle.pssm_breaches.specs.Latest.{IsWithin, AreLatestBefore};
ghost use Rattle.pssm_breaches.specs.inner.Walks.{after, breach_of, IsOfKind, IsFirstIfAny, AreSearched};

use crate::breach::Breach;
use crate::breaches::broken_by;
use crate::order::first_of_two;
use pssm_heritage::{ElementKind, Heritage, RedefRule, count_of};
use pssm_model::{Draft, ElementRef};
use std::alloc::{AllocError as NoMemory, Global};

// Where a walk is: by number the last forms so far, and the first breach so far.
#[derive(Drop)]
struct Walk {
    latest: Vec<ElementRef>,
    found: Option<Breach>,
}

// The breach of one element, where it breaks a rule.
fn one_breach(kind: ElementKind, element: ElementRef, broken: Option<RedefRule>) -> Option<Breach>
    ensures { result ≡ breach_of kind element broken }
{
    let rule = broken?;
    Some(Breach {
        kind,
        element,
        rule,
    })
}

// Writes an element into the table of last forms.
fn note(
    _draft: &Draft,
    heritage: &Heritage,
    _m: u32,
    kind: ElementKind,
    e: ElementRef,
    latest: &mut Vec<ElementRef>,
)
    requires lineage { IsLineage _draft.now _m heritage.now }
    requires within { IsWithin _draft.now _m kind e }
    requires table { AreLatestBefore _draft.now kind e (numbering_of kind heritage.now).firsts latest.old.items }
    ensures { AreLatestBefore _draft.now kind (after e) (numbering_of kind heritage.now).firsts latest.new.items }
{
    if let Some(number) = heritage.number_of(kind, e) {
        latest[number] = e;
    }
}

// Looks at the element at place i of the machine at place k of the chain.
fn go_on(
    draft: &Draft,
    heritage: &Heritage,
    m: u32,
    kind: ElementKind,
    k: usize,
    i: u32,
    walk: &mut Walk,
)
    requires range { IsInRange draft.now }
    requires lineage { IsLineage draft.now m heritage.now }
    requires place { k < length heritage.now.machines }
    requires there { i < own_count draft.now kind (slice_index_or heritage.now.machines k 0) }
    requires so_far { AreSearched draft.now m kind heritage.now k i walk.old.latest.items walk.old.found }
    ensures { AreSearched draft.now m kind heritage.now k (i + 1) walk.new.latest.items walk.new.found }
{
    let e = ElementRef {
        machine: heritage.machines()[k],
        element: i,
    };
    let broken = broken_by(draft, heritage, m, kind, walk.latest.as_slice(), e);
    note(draft, heritage, m, kind, e, &mut walk.latest);
    walk.found = first_of_two(draft, walk.found, one_breach(kind, e, broken));
}

// Looks at the elements of the machine at place k of the chain.
fn search_machine(
    draft: &Draft,
    heritage: &Heritage,
    m: u32,
    kind: ElementKind,
    k: usize,
    walk: &mut Walk,
)
    requires range { IsInRange draft.now }
    requires lineage { IsLineage draft.now m heritage.now }
    requires place { k < length heritage.now.machines }
    requires so_far { AreSearched draft.now m kind heritage.now k 0 walk.old.latest.items walk.old.found }
    ensures { AreSearched draft.now m kind heritage.now (k + 1) 0 walk.new.latest.items walk.new.found }
{
    for i in 0..count_of(draft, kind, heritage.machines()[k]) {
        go_on(draft, heritage, m, kind, k, i, walk);
    }
}

// The table of last forms before any element: the first forms.
fn first_table(
    alloc: Global,
    heritage: &Heritage,
    kind: ElementKind,
) -> Result<Vec<ElementRef>, NoMemory>
    ensures { IfOk result (λ latest. latest.items ≡ (numbering_of kind heritage.now).firsts) }
{
    heritage.firsts(kind).iter().copied().collect(alloc)
}

// The first breach of the elements of one kind.
fn first_of_kind(
    alloc: Global,
    draft: &Draft,
    m: u32,
    heritage: &Heritage,
    kind: ElementKind,
) -> Result<Option<Breach>, NoMemory>
    requires range { IsInRange draft.now }
    requires lineage { IsLineage draft.now m heritage.now }
    ensures { IfOk result (IsFirstIfAny draft.now m (IsOfKind draft.now m kind)) }
{
    let mut walk = Walk {
        latest: first_table(alloc, heritage, kind)?,
        found: None,
    };
    for k in 0..heritage.machines().len() {
        search_machine(draft, heritage, m, kind, k, &mut walk);
    }
    Ok(walk.found)
}

/// The first element, of those of the machine `m` and of those that it extends, that breaks a rule of redefinition, and
/// the rule; none where no element breaks one (UML 2.5.1, 14.3.3). `heritage` is that of the machine.
///
/// The first one is that which begins earliest in the file (this profile's choice).
pub fn first_breach(
    alloc: Global,
    draft: &Draft,
    m: u32,
    heritage: &Heritage,
) -> Result<Option<Breach>, NoMemory>
    requires range { IsInRange draft.now }
    requires lineage { IsLineage draft.now m heritage.now }
    ensures { IfOk result (λ found. MatchOption found
        (BreaksNothing draft.now m)
        (λ b. IsFirstBreach draft.now m b.kind b.element b.rule)) }
{
    let region = first_of_kind(alloc, draft, m, heritage, ElementKind::Region)?;
    let vertex = first_of_kind(alloc, draft, m, heritage, ElementKind::Vertex)?;
    let transition = first_of_kind(alloc, draft, m, heritage, ElementKind::Transition)?;
    let found = first_of_two(draft, region, vertex);
    Ok(first_of_two(draft, found, transition))
}
