//! The internal trait by which each `copy` of this crate is made.
ghost use Rattle.std.specs.Prelude.{◌≡◌, IfOk};

use crate::boxed::Boxed;
use crate::elements::{DraftMachine, Owner, Transition, Vertex};
use crate::ids::{ActId, RegionId, SignalId, TransId, VertexId};
use crate::row::Row;
use crate::steps::{Firing, How, Route};
use std::alloc::{AllocError as NoMemory, Global};

/// A value that can be made once more.
pub trait Duplicate: Drop {
    /// A second value, equal to this one.
    fn duplicate(&self, alloc: Global) -> Result<Self, NoMemory>
        ensures { IfOk result (λ other. other ≡ self.now) };
}

impl<T: Duplicate> Duplicate for Row<T> {
    fn duplicate(&self, alloc: Global) -> Result<Row<T>, NoMemory> {
        let mut items = Vec::with_capacity(alloc, self.as_slice().len())?;
        for item in self.as_slice() {
            items.push(item.duplicate(alloc)?)?;
        }
        Ok(Row::from_vec(items))
    }
}

impl<T: Duplicate> Duplicate for Boxed<T> {
    fn duplicate(&self, alloc: Global) -> Result<Boxed<T>, NoMemory> {
        let value = self.get().duplicate(alloc)?;
        Boxed::new(alloc, value)
    }
}

impl Duplicate for u16 {
    fn duplicate(&self, _alloc: Global) -> Result<u16, NoMemory> {
        Ok(*self)
    }
}

impl Duplicate for Owner {
    fn duplicate(&self, _alloc: Global) -> Result<Owner, NoMemory> {
        Ok(*self)
    }
}

impl Duplicate for TransId {
    fn duplicate(&self, _alloc: Global) -> Result<TransId, NoMemory> {
        Ok(*self)
    }
}

impl Duplicate for RegionId {
    fn duplicate(&self, _alloc: Global) -> Result<RegionId, NoMemory> {
        Ok(*self)
    }
}

impl Duplicate for VertexId {
    fn duplicate(&self, _alloc: Global) -> Result<VertexId, NoMemory> {
        Ok(*self)
    }
}

impl Duplicate for SignalId {
    fn duplicate(&self, _alloc: Global) -> Result<SignalId, NoMemory> {
        Ok(*self)
    }
}

impl Duplicate for ActId {
    fn duplicate(&self, _alloc: Global) -> Result<ActId, NoMemory> {
        Ok(*self)
    }
}

impl Duplicate for Vertex {
    fn duplicate(&self, alloc: Global) -> Result<Vertex, NoMemory> {
        Ok(Vertex {
            owner: self.owner,
            kind: self.kind,
            label: self.label.duplicate(alloc)?,
            entry: self.entry,
            exit: self.exit,
            steps: self.steps.duplicate(alloc)?,
            defers: self.defers.duplicate(alloc)?,
        })
    }
}

impl Duplicate for Transition {
    fn duplicate(&self, alloc: Global) -> Result<Transition, NoMemory> {
        Ok(Transition {
            source: self.source,
            target: self.target,
            kind: self.kind,
            triggers: self.triggers.duplicate(alloc)?,
            guard: self.guard,
            effect: self.effect,
        })
    }
}

impl Duplicate for DraftMachine {
    fn duplicate(&self, alloc: Global) -> Result<DraftMachine, NoMemory> {
        Ok(DraftMachine {
            regions: self.regions.duplicate(alloc)?,
            vertices: self.vertices.duplicate(alloc)?,
            transitions: self.transitions.duplicate(alloc)?,
        })
    }
}

impl Duplicate for Route {
    fn duplicate(&self, alloc: Global) -> Result<Route, NoMemory> {
        Ok(Route {
            starts: self.starts.duplicate(alloc)?,
            rest: self.rest.duplicate(alloc)?,
        })
    }
}

impl Duplicate for Firing {
    fn duplicate(&self, alloc: Global) -> Result<Firing, NoMemory> {
        Ok(Firing {
            routes: self.routes.duplicate(alloc)?,
        })
    }
}

impl Duplicate for How {
    fn duplicate(&self, alloc: Global) -> Result<How, NoMemory> {
        match self {
            How::By(route) => Ok(How::By(route.duplicate(alloc)?)),
            How::Restore(state) => Ok(How::Restore(*state)),
            How::Nothing => Ok(How::Nothing),
        }
    }
}
