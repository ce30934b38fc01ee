//! Whether many footprints are apart, told at once: each has a region to itself. No two of them are compared.
ghost use Rattle.std.specs.Prelude.{◌≡◌, ◌<◌, [], ◌∷◌, ◌++◌, List, length, All, IsTrue, IfOk, IfSome};
ghost use Rattle.pssm_routes.specs.declared.areas.Footprint.{Footprint as Trace};
ghost use Rattle.pssm_routes.specs.inner.Footprints.{IsFootprintIn};
ghost use Rattle.pssm_routes.specs.inner.Sets.{AreApart};
ghost use Rattle.pssm_routes.specs.inner.Spread.{IsSpan, AreSpread, IsMetAround};

use crate::areas::Footprint;
use crate::joining::{next_out, starts_at};
use pssm_legs::Area;
use pssm_model::{Machine, RegionId, VertexId};
use std::alloc::{AllocError as NoMemory, Global};

// A region that holds the anchor of the footprint and all that its area covers, where one is at hand.
fn span_of(machine: &Machine, footprint: Footprint) -> Option<RegionId>
    requires footprint { IsFootprintIn machine.now footprint }
    ensures there { IfSome result (λ r. r.0 < length machine.now.regions) }
    ensures span { IfSome result (IsSpan machine.now footprint) }
{
    match footprint.area {
        Area::Nowhere => Some(machine.home(footprint.source)),
        Area::Inside(s) => {
            if starts_at(footprint, s) {
                Some(machine.home(footprint.source))
            } else {
                None
            }
        }
        Area::Within(r) => {
            if machine.lies_in_region(footprint.source, r) {
                Some(r)
            } else {
                None
            }
        }
    }
}

// Meets the regions around the vertex. It answers whether none of them is claimed.
fn meet_around(machine: &Machine, claimed: &[bool], met: &mut [bool], v: VertexId) -> bool
    requires there { v.0 < length machine.now.vertices }
    requires claimed { length claimed.now ≡ length machine.now.regions }
    requires met { length met.old ≡ length machine.now.regions }
    ensures width { length met.new ≡ length machine.now.regions }
    ensures around { IsTrue result → IsMetAround machine.now v claimed.now met.old met.new }
{
    let _shaped = machine.regions();
    let mut region = machine.home(v);
    let mut left = machine.depth(v);
    while left > 0 {
        if claimed[region.0 as usize] {
            return false;
        }
        met[region.0 as usize] = true;
        let Some(next) = next_out(machine, region) else {
            return true;
        };
        region = next;
        left -= 1;
    }
    false
}

// Claims a span for one footprint more and meets the regions around its anchor. It answers whether the footprint is
// apart from those before.
fn spreads(machine: &Machine, claimed: &mut [bool], met: &mut [bool], footprint: Footprint) -> bool
    requires footprint { IsFootprintIn machine.now footprint }
    requires claimed { length claimed.old ≡ length machine.now.regions }
    requires met { length met.old ≡ length machine.now.regions }
    ensures claimed { length claimed.new ≡ length machine.now.regions }
    ensures met { length met.new ≡ length machine.now.regions }
    ensures spread { IsTrue result → (before : List Trace) → AreSpread machine.now before claimed.old met.old
        → AreSpread machine.now (before ++ footprint ∷ []) claimed.new met.new }
{
    let Some(span) = span_of(machine, footprint) else {
        return false;
    };
    if met[span.0 as usize] {
        return false;
    }
    if !meet_around(machine, claimed, met, footprint.source) {
        return false;
    }
    claimed[span.0 as usize] = true;
    true
}

/// Whether regions tell that many footprints are apart. Of a few they tell nothing: to compare them is less.
///
/// `NoMemory`: memory ran out.
pub fn are_spread(
    alloc: Global,
    machine: &Machine,
    footprints: &[Footprint],
) -> Result<bool, NoMemory>
    requires { All (IsFootprintIn machine.now) footprints.now }
    ensures { IfOk result (λ is. IsTrue is → AreApart machine.now footprints.now) }
{
    if footprints.len() < 6 {
        return Ok(false);
    }
    let mut claimed = vec![in alloc; false; machine.regions() as usize]?;
    let mut met = vec![in alloc; false; machine.regions() as usize]?;
    for footprint in footprints {
        if !spreads(machine, &mut claimed, &mut met, *footprint) {
            return Ok(false);
        }
    }
    Ok(true)
}
