//! The index of a machine: what stands at each vertex and in each region, looked up once.
ghost use Rattle.std.specs.Prelude.{IfOk};
ghost use Rattle.pssm_model.specs.Shapes.{HasShape};
ghost use Rattle.pssm_model.specs.inner.Listed.{IsIndex};

use crate::duplicate::Duplicate;
use crate::elements::{DraftMachine, VertexKind};
use crate::ids::{RegionId, TransId, VertexId};
use crate::listing::{Listing, lists_of};
use crate::row::Row;
use std::alloc::{AllocError as NoMemory, Global};

/// By vertex its outgoing and incoming transitions, the outgoing ones with `else` and its regions, at 0 the top regions, and by region the vertices of
/// four kinds that it owns, each list ascending.
#[derive(Drop)]
pub struct Index {
    pub outgoing: Row<Row<TransId>>,
    pub incoming: Row<Row<TransId>>,
    pub elses: Row<Row<TransId>>,
    pub regions: Row<Row<RegionId>>,
    pub tops: Row<Row<RegionId>>,
    pub initials: Row<Row<VertexId>>,
    pub shallows: Row<Row<VertexId>>,
    pub deeps: Row<Row<VertexId>>,
    pub states: Row<Row<VertexId>>,
}

impl Index {
    /// The index of a draft that has the shape of a machine.
    pub fn of(alloc: Global, draft: &DraftMachine) -> Result<Index, NoMemory>
        requires { HasShape draft.now }
        ensures { IfOk result (IsIndex draft.now) }
    {
        Ok(Index {
            outgoing: lists_of(alloc, draft, Listing::Outgoing)?,
            incoming: lists_of(alloc, draft, Listing::Incoming)?,
            elses: lists_of(alloc, draft, Listing::Elses)?,
            regions: lists_of(alloc, draft, Listing::Regions)?,
            tops: lists_of(alloc, draft, Listing::TopRegions)?,
            initials: lists_of(alloc, draft, Listing::Vertices(VertexKind::Initial))?,
            shallows: lists_of(alloc, draft, Listing::Vertices(VertexKind::ShallowHistory))?,
            deeps: lists_of(alloc, draft, Listing::Vertices(VertexKind::DeepHistory))?,
            states: lists_of(alloc, draft, Listing::Vertices(VertexKind::State))?,
        })
    }
}

impl Duplicate for Index {
    fn duplicate(&self, alloc: Global) -> Result<Index, NoMemory> {
        Ok(Index {
            outgoing: self.outgoing.duplicate(alloc)?,
            incoming: self.incoming.duplicate(alloc)?,
            elses: self.elses.duplicate(alloc)?,
            regions: self.regions.duplicate(alloc)?,
            tops: self.tops.duplicate(alloc)?,
            initials: self.initials.duplicate(alloc)?,
            shallows: self.shallows.duplicate(alloc)?,
            deeps: self.deeps.duplicate(alloc)?,
            states: self.states.duplicate(alloc)?,
        })
    }
}
