//! When an object ends: by a terminate vertex, or by final states of all its top regions.
ghost use Rattle.std.specs.Prelude.{◌≡◌, ◌<◌, ◌↔◌, length, Some, IsTrue, All, Contains};
ghost use Rattle.pssm_model.specs.declared.ids.RegionId.{RegionId as ARegion};
ghost use Rattle.pssm_model.specs.declared.elements.Owner.{Owner};
ghost use Rattle.pssm_model.specs.Forest.{owner_of, HasKind};
ghost use Rattle.pssm_model.specs.Shapes.{HasShape};
ghost use Rattle.pssm_model.specs.Configuration.{HasActiveFinal, AllTopsAreFinal};
ghost use Rattle.pssm_config.specs.Tables.{Fits, configuration_of};
ghost use Rattle.pssm_object.specs.inner.Working.{HasPlace};
ghost use Rattle.pssm_object.specs.inner.Ending.{Terminates, IsTopFinal, Ends};

use pssm_config::Config;
use pssm_model::{Item, Machine, Owner, RegionId, TransId, VertexId, VertexKind};

/// Whether an item that has just run ends its object, which had not ended before (UML 2.5.1, 14.2.3.6 and 14.2.3.7).
#[inline(always)]
pub fn ends_by(machine: &Machine, config: &Config, item: Item) -> bool
    requires fits { Fits machine.now config.now }
    requires place { HasPlace machine.now item }
    ensures { IsTrue result ↔ Ends machine.now (configuration_of config.now) item }
{
    match item {
        Item::Effect(transition) => terminates(machine, transition),
        Item::Enter(state) => is_top_final(machine, state) && tops_are_final(machine, config),
        Item::Exit(_) | Item::Opened(_, _) | Item::Pick(_) => false,
    }
}

// Whether a vertex is of the kind.
fn has_kind(machine: &Machine, v: VertexId, kind: VertexKind) -> bool
    requires { v.0 < length machine.now.vertices }
    ensures { IsTrue result ↔ HasKind machine.now v kind }
{
    machine.vertex(v).kind == kind
}

// Whether a transition ends on a terminate vertex.
fn terminates(machine: &Machine, transition: TransId) -> bool
    requires { transition.0 < length machine.now.transitions }
    ensures { IsTrue result ↔ Terminates machine.now transition }
{
    has_kind(machine, machine.target(transition), VertexKind::Terminate)
}

// Whether a region is a top one.
fn is_top(machine: &Machine, r: RegionId) -> bool
    requires { r.0 < length machine.now.regions }
    ensures { IsTrue result ↔ (owner_of machine.now (Owner.Region r) ≡ Some Owner.Top) }
{
    match machine.region_owner(r) {
        Owner::Top => true,
        Owner::Region(_) | Owner::State(_) => false,
    }
}

// Whether a vertex is a final state of a top region.
fn is_top_final(machine: &Machine, s: VertexId) -> bool
    requires shape { HasShape machine.now }
    requires vertex { s.0 < length machine.now.vertices }
    ensures { IsTrue result ↔ IsTopFinal machine.now s }
{
    has_kind(machine, s, VertexKind::Final)
        && match machine.vertex(s).owner {
            Owner::Region(r) => is_top(machine, r),
            Owner::Top | Owner::State(_) => false,
        }
}

// Whether a region has an active final state.
fn has_active_final(machine: &Machine, config: &Config, r: RegionId) -> bool
    requires fits { Fits machine.now config.now }
    requires region { r.0 < length machine.now.regions }
    ensures { IsTrue result ↔ HasActiveFinal machine.now (configuration_of config.now) r }
{
    match config.active_in(r) {
        Some(s) => has_kind(machine, s, VertexKind::Final),
        None => false,
    }
}

// Whether each of these regions has an active final state.
fn are_final(machine: &Machine, config: &Config, regions: &[RegionId]) -> bool
    requires fits { Fits machine.now config.now }
    requires inside { All (λ r. r.0 < length machine.now.regions) regions.now }
    ensures { IsTrue result ↔ ((r : ARegion) → Contains regions.now r
        → HasActiveFinal machine.now (configuration_of config.now) r) }
{
    for r in regions {
        if !has_active_final(machine, config, *r) {
            return false;
        }
    }
    true
}

// Whether every top region has an active final state.
#[inline(never)]
fn tops_are_final(machine: &Machine, config: &Config) -> bool
    requires { Fits machine.now config.now }
    ensures { IsTrue result ↔ AllTopsAreFinal machine.now (configuration_of config.now) }
{
    are_final(machine, config, machine.top_regions())
}
