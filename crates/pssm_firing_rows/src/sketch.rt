//! A machine as plain lists, and what lies where in it.

use pssm_model::{Guard, Owner, RegionId, TransKind, VertexId, VertexKind};
use std::alloc::Global;

/// A vertex: its kind and what owns it.
#[derive(Clone, Copy)]
pub(crate) struct Place {
    pub(crate) kind: VertexKind,
    pub(crate) owner: Owner,
}

/// A transition. The one signal triggers it, or nothing does.
#[derive(Clone, Copy)]
pub(crate) struct Arrow {
    pub(crate) source: u16,
    pub(crate) target: u16,
    pub(crate) kind: TransKind,
    pub(crate) is_triggered: bool,
    pub(crate) guard: Guard,
}

/// A machine: what owns its regions, its vertices and its transitions, each numbered by its place. What stands behind
/// the first 64 is not seen.
#[derive(Drop)]
pub(crate) struct Sketch {
    pub(crate) regions: Vec<Owner>,
    pub(crate) places: Vec<Place>,
    pub(crate) arrows: Vec<Arrow>,
}

// How many numbers below 64 there are for so many.
fn few(count: usize) -> u16 {
    if count < 64 { count as u16 } else { 64 }
}

impl Sketch {
    /// A machine without anything.
    pub(crate) fn new(alloc: Global) -> Sketch {
        Sketch {
            regions: Vec::new(alloc),
            places: Vec::new(alloc),
            arrows: Vec::new(alloc),
        }
    }

    /// How many regions there are.
    pub(crate) fn regions(&self) -> u16 {
        few(self.regions.len())
    }

    /// How many vertices there are.
    pub(crate) fn vertices(&self) -> u16 {
        few(self.places.len())
    }

    /// How many transitions there are.
    pub(crate) fn transitions(&self) -> u16 {
        few(self.arrows.len())
    }

    /// Whether the vertex is there and of the kind.
    pub(crate) fn has_kind(&self, v: u16, kind: VertexKind) -> bool {
        match self.places.as_slice().get(v as usize) {
            Some(place) => place.kind == kind,
            None => false,
        }
    }

    /// Whether the vertex is a State or a final state.
    pub(crate) fn is_state_or_final(&self, v: u16) -> bool {
        self.has_kind(v, VertexKind::State) || self.has_kind(v, VertexKind::Final)
    }

    /// What owns a place; nothing owns the machine.
    pub(crate) fn owner_of(&self, place: Owner) -> Option<Owner> {
        match place {
            Owner::Top => None,
            Owner::Region(r) => match self.regions.as_slice().get(r.0 as usize) {
                Some(owner) => Some(*owner),
                None => None,
            },
            Owner::State(v) => match self.places.as_slice().get(v.0 as usize) {
                Some(place) => Some(place.owner),
                None => None,
            },
        }
    }

    // Whether the owner chain of the first place passes the second. No chain here has more than 16 owners.
    fn lies_under(&self, place: Owner, other: Owner) -> bool {
        let mut at = place;
        for _ in 0..16 {
            match self.owner_of(at) {
                Some(owner) if owner == other => return true,
                Some(owner) => at = owner,
                None => return false,
            }
        }
        false
    }

    /// Whether the first region is nested in the second.
    pub(crate) fn is_nested(&self, q: u16, r: u16) -> bool {
        self.lies_under(Owner::Region(RegionId(q)), Owner::Region(RegionId(r)))
    }

    /// Whether the region is on the owner chain of the vertex.
    pub(crate) fn lies_in_region(&self, v: u16, r: u16) -> bool {
        self.lies_under(Owner::State(VertexId(v)), Owner::Region(RegionId(r)))
    }

    /// Whether the vertex lies in a region of the State.
    pub(crate) fn lies_in_state(&self, v: u16, s: u16) -> bool {
        for r in 0..self.regions() {
            let owner = self.owner_of(Owner::Region(RegionId(r)));
            if owner == Some(Owner::State(VertexId(s))) && self.lies_in_region(v, r) {
                return true;
            }
        }
        false
    }

    /// Whether the vertex is the State or lies in it.
    pub(crate) fn is_or_lies_in(&self, v: u16, s: u16) -> bool {
        v == s || self.lies_in_state(v, s)
    }

    /// Whether some region has both vertices in it.
    pub(crate) fn share_region(&self, v: u16, w: u16) -> bool {
        for r in 0..self.regions() {
            if self.lies_in_region(v, r) && self.lies_in_region(w, r) {
                return true;
            }
        }
        false
    }

    /// Whether the transition leaves the vertex.
    pub(crate) fn leaves(&self, t: u16, v: u16) -> bool {
        match self.arrows.as_slice().get(t as usize) {
            Some(arrow) => arrow.source == v,
            None => false,
        }
    }

    /// Whether the transition enters the vertex.
    pub(crate) fn enters(&self, t: u16, v: u16) -> bool {
        match self.arrows.as_slice().get(t as usize) {
            Some(arrow) => arrow.target == v,
            None => false,
        }
    }

    /// Whether the transition is of the kind.
    pub(crate) fn goes(&self, t: u16, kind: TransKind) -> bool {
        match self.arrows.as_slice().get(t as usize) {
            Some(arrow) => arrow.kind == kind,
            None => false,
        }
    }
}
