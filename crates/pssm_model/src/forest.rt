//! The tables of a machine: how many regions stand on the owner chain of each of its regions and vertices.
ghost use Rattle.std.specs.Prelude.{◌≡◌, ◌⊎◌, ◌↔◌, ◌<◌, ◌≤◌, length, slice_index, All, Contains, IsTrue, IfOk, IfErr, IfSome, IfNone, Some};
ghost use Rattle.pssm_model.specs.declared.elements.Owner.{Owner};
ghost use Rattle.pssm_model.specs.declared.ids.RegionId.{RegionId};
ghost use Rattle.pssm_model.specs.declared.ids.VertexId.{VertexId};
ghost use Rattle.pssm_model.specs.declared.elements.VertexKind.TheVariants as kinds;
ghost use Rattle.pssm_model.specs.Forest.{owner_of as owner_in, HasKind, IsScope, LiesInRegion, LiesInState, IsHome, IsWithin};
ghost use Rattle.pssm_model.specs.Shapes.{HasShape, IsShapeFault};
ghost use Rattle.pssm_model.specs.inner.Faultless.{IsShallowBy};
ghost use Rattle.pssm_model.specs.inner.Tables.{AreTables, AreWithin, IsMeet, IsOuter, IsRaised};

use crate::depths::{Depths, owner_of};
use crate::duplicate::Duplicate;
use crate::elements::{DraftMachine, Owner, Shape};
use crate::ids::{RegionId, VertexId};
use crate::row::Row;
use crate::shape::{PlaceKind, check_places, check_transitions};
use std::alloc::{AllocError as NoMemory, Global};

/// How many regions stand on the owner chain of each region and of each vertex.
#[derive(Drop)]
pub struct Forest {
    pub regions: Row<u16>,
    pub vertices: Row<u16>,
}

/// The region that owns a State.
fn state_home(draft: &DraftMachine, s: VertexId) -> RegionId
    requires shape { HasShape draft.now }
    requires state { HasKind draft.now s kinds.State }
    ensures inside { result.0 < length draft.now.regions }
    ensures owner { owner_in draft.now (Owner.State s) ≡ Some (Owner.Region result) }
{
    match owner_of(draft, Owner::State(s)) {
        Owner::Region(r) => r,
        _ => unreachable!(),
    }
}

/// The innermost region in which a vertex lies.
pub fn home(draft: &DraftMachine, v: VertexId) -> RegionId
    requires shape { HasShape draft.now }
    requires inside { v.0 < length draft.now.vertices }
    ensures inside { result.0 < length draft.now.regions }
    ensures home { IsHome draft.now v result }
{
    match owner_of(draft, Owner::State(v)) {
        Owner::Region(r) => r,
        Owner::State(s) => state_home(draft, s),
        Owner::Top => unreachable!(),
    }
}

/// The innermost region in which a region is nested.
fn outer(draft: &DraftMachine, r: RegionId) -> RegionId
    requires shape { HasShape draft.now }
    requires inside { r.0 < length draft.now.regions }
    requires nested { owner_in draft.now (Owner.Region r) ≡ Some Owner.Top → ⊥ }
    ensures inside { result.0 < length draft.now.regions }
    ensures outer { IsOuter draft.now r result }
{
    match owner_of(draft, Owner::Region(r)) {
        Owner::State(s) => state_home(draft, s),
        Owner::Top => unreachable!(),
        Owner::Region(_) => unreachable!(),
    }
}

impl Forest {
    /// The tables of a draft that has the shape of a machine, or what is wrong with another.
    pub fn of(alloc: Global, draft: &DraftMachine) -> Result<Forest, Shape>
        ensures tables { IfOk result (λ forest. AreTables draft.now forest.regions forest.vertices) }
        ensures fault { IfErr result (λ fault. (fault ≡ Shape.NoMemory) ⊎ IsShapeFault draft.now fault) }
    {
        let mut depths = Depths::new(alloc, draft)?;
        let regions = check_places(alloc, draft, &mut depths, PlaceKind::Regions)?;
        let vertices = check_places(alloc, draft, &mut depths, PlaceKind::Vertices)?;
        check_transitions(draft)?;
        Ok(Forest {
            regions: Row::from_vec(regions),
            vertices: Row::from_vec(vertices),
        })
    }

    /// How many regions stand on the owner chain of a region.
    fn level(&self, draft: &DraftMachine, r: RegionId) -> u16
        requires tables { AreTables draft.now self.now.regions self.now.vertices }
        requires inside { r.0 < length draft.now.regions }
        ensures depth { IsShallowBy draft.now (Owner.Region r) result }
        ensures listed { result ≡ slice_index self.now.regions r.0 }
    {
        self.regions.as_slice()[r.0 as usize]
    }

    /// How many regions stand on the owner chain of a vertex.
    pub fn depth(&self, draft: &DraftMachine, v: VertexId) -> u16
        requires tables { AreTables draft.now self.now.regions self.now.vertices }
        requires inside { v.0 < length draft.now.vertices }
        ensures { IsShallowBy draft.now (Owner.State v) result }
    {
        self.vertices.as_slice()[v.0 as usize]
    }

    /// The region in which the first is nested, or the first itself, that has at most so many regions above it.
    fn raise(&self, draft: &DraftMachine, from: RegionId, level: u16) -> RegionId
        requires tables { AreTables draft.now self.now.regions self.now.vertices }
        requires inside { from.0 < length draft.now.regions }
        ensures inside { result.0 < length draft.now.regions }
        ensures raised { IsRaised draft.now from level result }
    {
        let mut at = from;
        while self.level(draft, at) > level {
            at = outer(draft, at);
        }
        at
    }

    /// Two regions, the deeper one first.
    fn deeper_first(&self, draft: &DraftMachine, a: RegionId, b: RegionId) -> (RegionId, RegionId)
        requires tables { AreTables draft.now self.now.regions self.now.vertices }
        requires first { a.0 < length draft.now.regions }
        requires second { b.0 < length draft.now.regions }
        ensures both { (result ≡ (a, b)) ⊎ (result ≡ (b, a)) }
        ensures deeper { slice_index self.now.regions result.1.0 ≤ slice_index self.now.regions result.0.0 }
    {
        if self.level(draft, a) < self.level(draft, b) {
            (b, a)
        } else {
            (a, b)
        }
    }

    /// The innermost region in which two regions lie, where there is one.
    fn meet(&self, draft: &DraftMachine, a: RegionId, b: RegionId) -> Option<RegionId>
        requires tables { AreTables draft.now self.now.regions self.now.vertices }
        requires first { a.0 < length draft.now.regions }
        requires second { b.0 < length draft.now.regions }
        ensures inside { IfSome result (λ meet. meet.0 < length draft.now.regions) }
        ensures meet { IfSome result (IsMeet draft.now a b) }
        ensures none { IfNone result ((r : RegionId) → AreWithin draft.now a b r → ⊥) }
    {
        let mut first = a;
        let mut second = b;
        while first != second {
            let (deep, other) = self.deeper_first(draft, first, second);
            if self.level(draft, deep) == 0 {
                return None;
            }
            first = outer(draft, deep);
            second = other;
        }
        Some(first)
    }

    /// Whether a vertex lies in a region.
    pub fn lies_in_region(&self, draft: &DraftMachine, v: VertexId, r: RegionId) -> bool
        requires tables { AreTables draft.now self.now.regions self.now.vertices }
        requires vertex { v.0 < length draft.now.vertices }
        requires region { r.0 < length draft.now.regions }
        ensures { IsTrue result ↔ LiesInRegion draft.now v r }
    {
        self.raise(draft, home(draft, v), self.level(draft, r)) == r
    }

    /// Whether a vertex lies in a State, which is to say in a region of it.
    pub fn lies_in_state(&self, draft: &DraftMachine, v: VertexId, s: VertexId) -> bool
        requires tables { AreTables draft.now self.now.regions self.now.vertices }
        requires vertex { v.0 < length draft.now.vertices }
        requires state { s.0 < length draft.now.vertices }
        ensures { IsTrue result ↔ LiesInState draft.now v s }
    {
        let at = self.raise(draft, home(draft, v), self.depth(draft, s));
        owner_of(draft, Owner::Region(at)) == Owner::State(s)
    }

    /// The innermost region in which all vertices of a list lie, where there is one.
    pub fn scope(&self, draft: &DraftMachine, list: &[VertexId]) -> Option<RegionId>
        requires tables { AreTables draft.now self.now.regions self.now.vertices }
        requires some { 0 < length list.now }
        requires inside { All (λ v. v.0 < length draft.now.vertices) list.now }
        ensures scope { IfSome result (IsScope draft.now (Contains list.now)) }
        ensures none { IfNone result ((r : RegionId) → ((v : VertexId) → Contains list.now v → LiesInRegion draft.now v r) → ⊥) }
    {
        let mut common = home(draft, list[0]);
        for v in list {
            match self.meet(draft, common, home(draft, *v)) {
                Some(meet) => common = meet,
                None => return None,
            }
        }
        Some(common)
    }
}

impl Duplicate for Forest {
    fn duplicate(&self, alloc: Global) -> Result<Forest, NoMemory> {
        Ok(Forest {
            regions: self.regions.duplicate(alloc)?,
            vertices: self.vertices.duplicate(alloc)?,
        })
    }
}
