//! `Machine`: a draft that is known to have the shape of a state machine.
ghost use Rattle.std.specs.Prelude.{◌≡◌, ◌⊎◌, ◌↔◌, ◌<◌, ◌≤◌, length, slice_get, Some, All, AllPairs, Contains, IsTrue, IfOk, IfErr, IfSome, IfNone, OnOk};
ghost use Rattle.pssm_model.specs.declared.ids.RegionId.{RegionId};
ghost use Rattle.pssm_model.specs.declared.ids.VertexId.{VertexId};
ghost use Rattle.pssm_model.specs.declared.elements.Owner.{Owner};
ghost use Rattle.pssm_model.specs.declared.ids.TransId.{TransId};
ghost use Rattle.pssm_model.specs.declared.elements.VertexKind.TheVariants as kinds;
ghost use Rattle.pssm_model.specs.Forest.{owner_of, OwnsOfKind, HasRegionsAbove, IsHome, IsScope, LiesInRegion, LiesInState};
ghost use Rattle.pssm_model.specs.Legs.{Leaves, Enters};
ghost use Rattle.pssm_model.specs.Paths.{IsInitialOf};
ghost use Rattle.pssm_model.specs.WellFormed.{HasElse};
ghost use Rattle.pssm_model.specs.Shapes.{HasShape, IsShapeFault};

use crate::duplicate::Duplicate;
use crate::elements::{DraftMachine, Owner, Shape, Transition, Vertex, VertexKind};
use crate::forest::{Forest, home};
use crate::ids::{RegionId, TransId, VertexId};
use crate::index::Index;
use crate::listing::{Listing, list_of};
use std::alloc::{AllocError as NoMemory, Global};
use std::marker::Model;

/// A state machine (UML 2.5.1, 14.2.3.1). A clause sees the draft that it was made from.
#[derive(Drop)]
pub struct Machine {
    draft: DraftMachine,
    forest: Forest,
    index: Index,
}

impl Model for Machine {
    ghost use Rattle.pssm_model.specs.declared.elements.DraftMachine.{DraftMachine};
    ghost use Rattle.pssm_model.specs.inner.Tables.{AreTables};
    ghost use Rattle.pssm_model.specs.inner.Listed.{IsIndex};

    ghost Value = { DraftMachine };

    ghost view = { λ m. m.draft };

    ghost invariant = { λ m. AreTables m.draft m.forest.regions m.forest.vertices × IsIndex m.draft m.index };
}

impl Machine {
    /// The machine of a draft, or what is wrong with the first element with which something is, in the order regions,
    /// vertices, transitions. A refusal leaves nothing.
    ///
    /// `NoMemory`: memory ran out; it comes in place of any other answer.
    pub fn new(alloc: Global, draft: &DraftMachine) -> Result<Machine, Shape>
        ensures made { IfOk result (λ machine. machine ≡ draft.now) }
        ensures shaped { OnOk result (HasShape draft.now) }
        ensures fault { IfErr result (λ fault. (fault ≡ Shape.NoMemory) ⊎ IsShapeFault draft.now fault) }
        // A draft that has the shape of a machine is refused for want of memory alone.
        ensures only_misshapen { HasShape draft.now → IfErr result (λ fault. fault ≡ Shape.NoMemory) }
    {
        let forest = Forest::of(alloc, draft)?;
        let index = Index::of(alloc, draft)?;
        let draft = draft.duplicate(alloc)?;
        Ok(Machine {
            draft,
            forest,
            index,
        })
    }

    /// How many regions it has, at most 1,024.
    ///
    /// A machine has the shape of one, whatever it was made from.
    pub fn regions(&self) -> u16
        ensures count { result ≡ length self.now.regions }
        ensures shaped { HasShape self.now }
    {
        self.draft.regions.as_slice().len() as u16
    }

    /// How many vertices it has, at most 4,096.
    pub fn vertices(&self) -> u16
        ensures { result ≡ length self.now.vertices }
    {
        self.draft.vertices.as_slice().len() as u16
    }

    /// How many transitions it has, at most 8,192.
    pub fn transitions(&self) -> u16
        ensures { result ≡ length self.now.transitions }
    {
        self.draft.transitions.as_slice().len() as u16
    }

    /// The vertex of a number.
    pub fn vertex(&self, v: VertexId) -> &Vertex
        requires { v.0 < length self.now.vertices }
        ensures { slice_get self.now.vertices v.0 ≡ Some result.now }
    {
        &self.draft.vertices.as_slice()[v.0 as usize]
    }

    /// The transition of a number.
    pub fn transition(&self, t: TransId) -> &Transition
        requires { t.0 < length self.now.transitions }
        ensures { slice_get self.now.transitions t.0 ≡ Some result.now }
    {
        &self.draft.transitions.as_slice()[t.0 as usize]
    }

    /// The source of a transition.
    pub fn source(&self, t: TransId) -> VertexId
        requires { t.0 < length self.now.transitions }
        ensures leaves { Leaves self.now t result }
        ensures there { result.0 < length self.now.vertices }
    {
        self.draft.transitions.as_slice()[t.0 as usize].source
    }

    /// The target of a transition.
    pub fn target(&self, t: TransId) -> VertexId
        requires { t.0 < length self.now.transitions }
        ensures enters { Enters self.now t result }
        ensures there { result.0 < length self.now.vertices }
    {
        self.draft.transitions.as_slice()[t.0 as usize].target
    }

    /// What owns a region.
    pub fn region_owner(&self, r: RegionId) -> Owner
        requires { r.0 < length self.now.regions }
        ensures { slice_get self.now.regions r.0 ≡ Some result }
    {
        self.draft.regions.as_slice()[r.0 as usize]
    }

    /// Whether a vertex lies in a region: the region stands on its owner chain (UML 2.5.1, 14.2.3.2).
    pub fn lies_in_region(&self, v: VertexId, r: RegionId) -> bool
        requires vertex { v.0 < length self.now.vertices }
        requires region { r.0 < length self.now.regions }
        ensures { IsTrue result ↔ LiesInRegion self.now v r }
    {
        self.forest.lies_in_region(&self.draft, v, r)
    }

    /// Whether a vertex lies in a State: it lies in a region of it (UML 2.5.1, 14.2.3.4). Nothing lies in itself, and a
    /// connection point does not lie in its State.
    pub fn lies_in_state(&self, v: VertexId, s: VertexId) -> bool
        requires vertex { v.0 < length self.now.vertices }
        requires state { s.0 < length self.now.vertices }
        ensures { IsTrue result ↔ LiesInState self.now v s }
    {
        self.forest.lies_in_state(&self.draft, v, s)
    }

    /// How many regions stand on the owner chain of a vertex: from 1 to 32.
    pub fn depth(&self, v: VertexId) -> u16
        requires { v.0 < length self.now.vertices }
        ensures depth { HasRegionsAbove self.now (Owner.State v) result }
        ensures at_most { result ≤ 32 }
    {
        self.forest.depth(&self.draft, v)
    }

    /// The innermost region in which all vertices of a list lie, where there is one (UML 2.5.1, 14.2.3.9: the least
    /// common ancestor).
    pub fn scope(&self, list: &[VertexId]) -> Option<RegionId>
        requires some { 0 < length list.now }
        requires inside { All (λ v. v.0 < length self.now.vertices) list.now }
        ensures scope { IfSome result (IsScope self.now (Contains list.now)) }
        // There is none only where no region has them all.
        ensures none { IfNone result ((r : RegionId) → ((v : VertexId) → Contains list.now v → LiesInRegion self.now v r) → ⊥) }
    {
        self.forest.scope(&self.draft, list)
    }

    /// The innermost region in which a vertex lies (UML 2.5.1, 14.2.3.2 and 14.2.3.3).
    pub fn home(&self, v: VertexId) -> RegionId
        requires { v.0 < length self.now.vertices }
        ensures there { result.0 < length self.now.regions }
        ensures home { IsHome self.now v result }
    {
        home(&self.draft, v)
    }

    /// The transitions that leave a vertex, ascending (UML 2.5.1, 14.2.3.3, outgoing transitions).
    pub fn outgoing(&self, v: VertexId) -> &[TransId]
        requires { v.0 < length self.now.vertices }
        ensures items { (t : TransId) → Contains result.now t ↔ Leaves self.now t v }
        ensures there { All (λ t. t.0 < length self.now.transitions) result.now }
        ensures ascending { AllPairs (λ t u. t.0 < u.0) result.now }
    {
        list_of(&self.draft, Listing::Outgoing, &self.index.outgoing, v.0)
    }

    /// The transitions that enter a vertex, ascending (UML 2.5.1, 14.2.3.3, incoming transitions).
    pub fn incoming(&self, v: VertexId) -> &[TransId]
        requires { v.0 < length self.now.vertices }
        ensures items { (t : TransId) → Contains result.now t ↔ Enters self.now t v }
        ensures there { All (λ t. t.0 < length self.now.transitions) result.now }
        ensures ascending { AllPairs (λ t u. t.0 < u.0) result.now }
    {
        list_of(&self.draft, Listing::Incoming, &self.index.incoming, v.0)
    }

    /// The transitions that leave a vertex and have `else`, ascending (UML 2.5.1, 14.2.3.7, junction and choice).
    pub fn elses_of(&self, v: VertexId) -> &[TransId]
        requires { v.0 < length self.now.vertices }
        ensures items { (t : TransId) → Contains result.now t ↔ (Leaves self.now t v × HasElse self.now t) }
        ensures there { All (λ t. t.0 < length self.now.transitions) result.now }
        ensures ascending { AllPairs (λ t u. t.0 < u.0) result.now }
    {
        list_of(&self.draft, Listing::Elses, &self.index.elses, v.0)
    }

    /// The regions of a State, ascending (UML 2.5.1, 14.2.3.4, composite States).
    pub fn regions_of(&self, s: VertexId) -> &[RegionId]
        requires { s.0 < length self.now.vertices }
        ensures items { (r : RegionId) → Contains result.now r ↔ (owner_of self.now (Owner.Region r) ≡ Some (Owner.State s)) }
        ensures there { All (λ r. r.0 < length self.now.regions) result.now }
        ensures ascending { AllPairs (λ r q. r.0 < q.0) result.now }
    {
        list_of(&self.draft, Listing::Regions, &self.index.regions, s.0)
    }

    /// The top regions, ascending (UML 2.5.1, 14.2.3.1 and 14.2.3.2).
    pub fn top_regions(&self) -> &[RegionId]
        ensures items { (r : RegionId) → Contains result.now r ↔ (owner_of self.now (Owner.Region r) ≡ Some Owner.Top) }
        ensures there { All (λ r. r.0 < length self.now.regions) result.now }
        ensures ascending { AllPairs (λ r q. r.0 < q.0) result.now }
    {
        list_of(&self.draft, Listing::TopRegions, &self.index.tops, 0)
    }

    /// The initial vertices that a region owns, ascending (UML 2.5.1, 14.2.3.7, initial).
    pub fn initials_of(&self, r: RegionId) -> &[VertexId]
        requires { r.0 < length self.now.regions }
        ensures items { (v : VertexId) → Contains result.now v ↔ IsInitialOf self.now r v }
        ensures there { All (λ v. v.0 < length self.now.vertices) result.now }
        ensures ascending { AllPairs (λ v w. v.0 < w.0) result.now }
    {
        list_of(
            &self.draft,
            Listing::Vertices(VertexKind::Initial),
            &self.index.initials,
            r.0,
        )
    }

    /// The shallow history vertices that a region owns, ascending (UML 2.5.1, 14.2.3.7, shallowHistory).
    pub fn shallow_histories_of(&self, r: RegionId) -> &[VertexId]
        requires { r.0 < length self.now.regions }
        ensures items { (v : VertexId) → Contains result.now v ↔ OwnsOfKind self.now r kinds.ShallowHistory v }
        ensures there { All (λ v. v.0 < length self.now.vertices) result.now }
        ensures ascending { AllPairs (λ v w. v.0 < w.0) result.now }
    {
        list_of(
            &self.draft,
            Listing::Vertices(VertexKind::ShallowHistory),
            &self.index.shallows,
            r.0,
        )
    }

    /// The deep history vertices that a region owns, ascending (UML 2.5.1, 14.2.3.7, deepHistory).
    pub fn deep_histories_of(&self, r: RegionId) -> &[VertexId]
        requires { r.0 < length self.now.regions }
        ensures items { (v : VertexId) → Contains result.now v ↔ OwnsOfKind self.now r kinds.DeepHistory v }
        ensures there { All (λ v. v.0 < length self.now.vertices) result.now }
        ensures ascending { AllPairs (λ v w. v.0 < w.0) result.now }
    {
        list_of(
            &self.draft,
            Listing::Vertices(VertexKind::DeepHistory),
            &self.index.deeps,
            r.0,
        )
    }

    /// The States that a region owns, ascending (UML 2.5.1, 14.2.3.2 and 14.2.3.4). Those in them are not among them.
    pub fn states_of(&self, r: RegionId) -> &[VertexId]
        requires { r.0 < length self.now.regions }
        ensures items { (v : VertexId) → Contains result.now v ↔ OwnsOfKind self.now r kinds.State v }
        ensures there { All (λ v. v.0 < length self.now.vertices) result.now }
        ensures ascending { AllPairs (λ v w. v.0 < w.0) result.now }
    {
        list_of(
            &self.draft,
            Listing::Vertices(VertexKind::State),
            &self.index.states,
            r.0,
        )
    }

    /// A second machine, equal to this one.
    pub fn copy(&self, alloc: Global) -> Result<Machine, NoMemory>
        ensures { IfOk result (λ other. other ≡ self.now) }
    {
        self.duplicate(alloc)
    }
}

impl Duplicate for Machine {
    fn duplicate(&self, alloc: Global) -> Result<Machine, NoMemory> {
        let draft = self.draft.duplicate(alloc)?;
        let forest = self.forest.duplicate(alloc)?;
        let index = self.index.duplicate(alloc)?;
        Ok(Machine {
            draft,
            forest,
            index,
        })
    }
}

impl PartialEq for Machine {
    ghost use Rattle.pssm_model.specs.contracts.elements.DraftMachinePartialEq.TheImpl.Laws.{laws-law};

    ghost eq = { ⟦<DraftMachine as PartialEq>⟧.eq };

    ghost laws = { laws-law };

    fn eq(&self, other: &Machine) -> bool {
        self.draft == other.draft
    }
}

impl Eq for Machine {
    ghost use Rattle.pssm_model.specs.contracts.elements.DraftMachineEq.TheImpl.Laws.{laws-law};

    ghost laws = { laws-law };
}
