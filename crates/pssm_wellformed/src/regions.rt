//! The rules of regions: E01 and E02.
ghost use Rattle.std.specs.Prelude.{◌↔◌, ◌<◌, length, IsTrue};
ghost use Rattle.pssm_model.specs.WellFormed.{HasNoTopRegion, IsTopWithoutInitial, OwnsTwoOfAKind};

use pssm_model::{Machine, Owner, RegionId};

/// E01: whether the machine has no top region.
pub fn has_no_top_region(machine: &Machine) -> bool
    ensures { IsTrue result ↔ HasNoTopRegion machine.now }
{
    machine.top_regions().is_empty()
}

/// E01: whether the region is a top region without an initial vertex.
pub fn is_top_without_initial(machine: &Machine, region: RegionId) -> bool
    requires { region.0 < length machine.now.regions }
    ensures { IsTrue result ↔ IsTopWithoutInitial machine.now region }
{
    match machine.region_owner(region) {
        Owner::Top => machine.initials_of(region).is_empty(),
        Owner::Region(_) | Owner::State(_) => false,
    }
}

/// E02: whether the region owns two initial, two shallow history or two deep history vertices.
pub fn owns_two_entries(machine: &Machine, region: RegionId) -> bool
    requires { region.0 < length machine.now.regions }
    ensures { IsTrue result ↔ OwnsTwoOfAKind machine.now region }
{
    machine.initials_of(region).len() > 1
        || machine.shallow_histories_of(region).len() > 1
        || machine.deep_histories_of(region).len() > 1
}
