//! Which rule of redefinition an element breaks first.
ghost use Rattle.std.specs.Prelude.{◌≡◌};
ghost use Rattle.pssm_model.specs.DraftSettings.{IsInRange};
ghost use Rattle.pssm_heritage.specs.Heritages.{IsLineage, numbering_of};
ghost use Rattle.pssm_breaches.specs.Latest.{IsWithin, AreLatestBefore};
ghost use Rattle.pssm_breaches.specs.Rules.{IsInherited};
ghost use Rattle.pssm_breaches.specs.inner.Latest.{IsAsked};
ghost use Rattle.pssm_breaches.specs.Broken.{IsBroken};

use crate::keeping::{keeps_source, keeps_triggers};
use crate::latest::{is_repeated, redefines_leaf};
use crate::places::is_inherited;
use pssm_heritage::{ElementKind, Heritage, RedefRule, redefined_by};
use pssm_model::{Draft, ElementRef};

// The rule that an element breaks first that inherits what it names.
fn broken_below(
    draft: &Draft,
    heritage: &Heritage,
    m: u32,
    kind: ElementKind,
    latest: &[ElementRef],
    e: ElementRef,
    f: ElementRef,
) -> Option<RedefRule>
    requires range { IsInRange draft.now }
    requires asked { IsAsked draft.now m kind heritage.now latest.now e f }
    requires inherited { IsInherited draft.now kind e f }
    ensures { IsBroken draft.now m kind e result }
{
    if is_repeated(draft, heritage, m, kind, latest, e, f) {
        Some(RedefRule::Twice)
    } else if redefines_leaf(draft, heritage, m, kind, latest, e, f) {
        Some(RedefRule::Leaf)
    } else if !keeps_source(draft, heritage, m, kind, e) {
        Some(RedefRule::ChangedSource)
    } else if !keeps_triggers(draft, heritage, m, kind, e) {
        Some(RedefRule::ChangedTriggers)
    } else {
        None
    }
}

/// The rule of redefinition that an element breaks first, where the machine `m` is flattened; none where it breaks none
/// (UML 2.5.1, 14.3.3; the order of the rules is this profile's choice).
///
/// `heritage` is that of the machine, `e` is an element of it or of one that it extends, and `latest` has by number the
/// last form before `e`, and the first form where there is none before.
pub fn broken_by(
    draft: &Draft,
    heritage: &Heritage,
    m: u32,
    kind: ElementKind,
    latest: &[ElementRef],
    e: ElementRef,
) -> Option<RedefRule>
    requires range { IsInRange draft.now }
    requires lineage { IsLineage draft.now m heritage.now }
    requires within { IsWithin draft.now m kind e }
    requires table { AreLatestBefore draft.now kind e (numbering_of kind heritage.now).firsts latest.now }
    ensures { IsBroken draft.now m kind e result }
{
    match redefined_by(draft, kind, e) {
        None => None,
        Some(f) => {
            if is_inherited(draft, heritage, m, kind, e, f) {
                broken_below(draft, heritage, m, kind, latest, e, f)
            } else {
                Some(RedefRule::NotInherited)
            }
        }
    }
}
