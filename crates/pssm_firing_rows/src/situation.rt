//! Routes by their definition: which transitions are a route, which routes a signal enables, and what they exit.
//!
//! Each question is answered as the definition asks it, by trying whatever may stand in it. Nothing here is quick.

use crate::marks::Marks;
use crate::sketch::Sketch;
use pssm_model::{Guard, TransKind, VertexKind};

/// Transitions that may be a route with one start: that and the others.
#[derive(Clone, Copy, PartialEq, Eq)]
pub(crate) struct Candidate {
    pub(crate) start: u16,
    pub(crate) rest: Marks,
}

impl Candidate {
    /// Whether the transition is one of them.
    pub(crate) fn has(self, t: u16) -> bool {
        t == self.start || self.rest.has(t)
    }
}

/// A machine, which of its vertices are active, and which guards are true.
#[derive(Drop)]
pub(crate) struct Situation {
    pub(crate) sketch: Sketch,
    pub(crate) active: Marks,
    pub(crate) truth: Marks,
}

impl Situation {
    // The source of a transition: the vertex that it leaves.
    pub(crate) fn source(&self, t: u16) -> Option<u16> {
        match self.sketch.arrows.as_slice().get(t as usize) {
            Some(arrow) => Some(arrow.source),
            None => None,
        }
    }

    // The target of a transition: the vertex that it enters.
    fn target(&self, t: u16) -> Option<u16> {
        match self.sketch.arrows.as_slice().get(t as usize) {
            Some(arrow) => Some(arrow.target),
            None => None,
        }
    }

    // Whether a guard by itself is true: there is none, or its value is true.
    fn has_true_value(&self, t: u16) -> bool {
        match self.sketch.arrows.as_slice().get(t as usize) {
            Some(arrow) => match arrow.guard {
                Guard::Always => true,
                Guard::When(g) => self.truth.has(g.0),
                Guard::Otherwise => false,
            },
            None => false,
        }
    }

    // Whether the transition has `else`, and no other one out of the same vertex a true guard.
    fn is_true_else(&self, t: u16) -> bool {
        let (guard, source) = match self.sketch.arrows.as_slice().get(t as usize) {
            Some(arrow) => (arrow.guard, arrow.source),
            None => return false,
        };
        for u in 0..self.sketch.transitions() {
            if u != t && self.sketch.leaves(u, source) && self.has_true_value(u) {
                return false;
            }
        }
        guard == Guard::Otherwise
    }

    // Whether all the guards are true.
    fn has_true_guards(&self, route: Candidate) -> bool {
        for t in 0..self.sketch.transitions() {
            if route.has(t) && !self.has_true_value(t) && !self.is_true_else(t) {
                return false;
            }
        }
        true
    }

    // How many of the transitions leave the vertex.
    fn count_leaving(&self, route: Candidate, v: u16) -> usize {
        let mut count: usize = 0;
        for t in 0..self.sketch.transitions() {
            if route.has(t) && self.sketch.leaves(t, v) {
                count = count.saturating_add(1);
            }
        }
        count
    }

    // Whether none of the transitions but the start leaves the vertex.
    fn ends_at(&self, route: Candidate, v: u16) -> bool {
        for t in 0..self.sketch.transitions() {
            if route.rest.has(t) && self.sketch.leaves(t, v) {
                return false;
            }
        }
        true
    }

    // Whether exactly one of the transitions leaves each junction that one enters, and no other vertex is gone on from.
    fn goes_on(&self, route: Candidate) -> bool {
        for t in 0..self.sketch.transitions() {
            if let Some(v) = self.target(t)
                && route.has(t)
            {
                let right = if self.sketch.has_kind(v, VertexKind::Junction) {
                    self.count_leaving(route, v) == 1
                } else {
                    self.ends_at(route, v)
                };
                if !right {
                    return false;
                }
            }
        }
        true
    }

    // Whether one of the transitions that are reached enters the vertex.
    fn is_come_to(&self, reached: Marks, v: u16) -> bool {
        for u in 0..self.sketch.transitions() {
            if reached.has(u) && self.sketch.enters(u, v) {
                return true;
            }
        }
        false
    }

    // The transitions that are reached, and those of the route that leave a vertex which one of them enters.
    fn reached_next(&self, route: Candidate, reached: Marks) -> Marks {
        let mut next = reached;
        for t in 0..self.sketch.transitions() {
            if let Some(v) = self.source(t)
                && route.rest.has(t)
                && self.is_come_to(reached, v)
            {
                next = next.with(t);
            }
        }
        next
    }

    // Whether the start leads to each of the others.
    fn is_reached(&self, route: Candidate) -> bool {
        let mut reached = Marks::none().with(route.start);
        for _ in 0..self.sketch.transitions() {
            let next = self.reached_next(route, reached);
            if next == reached {
                break;
            }
            reached = next;
        }
        route.rest.lies_in(reached)
    }

    // Whether all of them are transitions of the machine, and the start is not one of the others.
    fn is_in_range(&self, route: Candidate) -> bool {
        for t in self.sketch.transitions()..64 {
            if route.has(t) {
                return false;
            }
        }
        route.start < 64 && !route.rest.has(route.start)
    }

    /// Whether the transitions are a route that starts at a State. No machine here has a join.
    fn is_state_route(&self, route: Candidate) -> bool {
        match self.source(route.start) {
            Some(source) => {
                self.sketch.has_kind(source, VertexKind::State)
                    && self.is_in_range(route)
                    && self.goes_on(route)
                    && self.is_reached(route)
            }
            None => false,
        }
    }

    // Whether the signal triggers the start, and its source is active.
    fn is_caused(&self, route: Candidate) -> bool {
        match self.sketch.arrows.as_slice().get(route.start as usize) {
            Some(arrow) => arrow.is_triggered && self.active.has(arrow.source),
            None => false,
        }
    }

    /// Whether the transitions are a route that starts at a State and that the signal enables.
    pub(crate) fn is_enabled(&self, route: Candidate) -> bool {
        self.is_state_route(route) && self.is_caused(route) && self.has_true_guards(route)
    }

    // Whether one of the transitions leaves or enters the vertex.
    fn touches(&self, route: Candidate, v: u16) -> bool {
        for t in 0..self.sketch.transitions() {
            if route.has(t) && (self.sketch.leaves(t, v) || self.sketch.enters(t, v)) {
                return true;
            }
        }
        false
    }

    // Whether all vertices of the route lie in the region.
    fn lies_in_region(&self, route: Candidate, r: u16) -> bool {
        for v in 0..self.sketch.vertices() {
            if self.touches(route, v) && !self.sketch.lies_in_region(v, r) {
                return false;
            }
        }
        true
    }

    // Whether all vertices of the route lie in the region, and in none that is nested in it.
    fn is_scope(&self, route: Candidate, r: u16) -> bool {
        for q in 0..self.sketch.regions() {
            if self.sketch.is_nested(q, r) && self.lies_in_region(route, q) {
                return false;
            }
        }
        self.lies_in_region(route, r)
    }

    // The innermost region in which all vertices of the route lie.
    fn scope(&self, route: Candidate) -> Option<u16> {
        for r in 0..self.sketch.regions() {
            if self.is_scope(route, r) {
                return Some(r);
            }
        }
        None
    }

    // Whether one of the transitions is internal.
    fn is_internal(&self, route: Candidate) -> bool {
        for t in 0..self.sketch.transitions() {
            if route.has(t) && self.sketch.goes(t, TransKind::Internal) {
                return true;
            }
        }
        false
    }

    // The State that one of the transitions leaves locally.
    fn local_from(&self, route: Candidate) -> Option<u16> {
        for s in 0..self.sketch.vertices() {
            for t in 0..self.sketch.transitions() {
                if route.has(t)
                    && self.sketch.leaves(t, s)
                    && self.sketch.has_kind(s, VertexKind::State)
                    && self.sketch.goes(t, TransKind::Local)
                {
                    return Some(s);
                }
            }
        }
        None
    }

    // The active vertices in the region.
    fn active_in_region(&self, r: u16) -> Marks {
        let mut found = Marks::none();
        for v in 0..self.sketch.vertices() {
            if self.active.has(v) && self.sketch.lies_in_region(v, r) {
                found = found.with(v);
            }
        }
        found
    }

    // The active vertices in the State.
    fn active_in_state(&self, s: u16) -> Marks {
        let mut found = Marks::none();
        for v in 0..self.sketch.vertices() {
            if self.active.has(v) && self.sketch.lies_in_state(v, s) {
                found = found.with(v);
            }
        }
        found
    }

    /// What a route exits: nothing where it is internal; where it leaves a State locally, what is active in that State;
    /// and else what is active in the innermost region in which all its vertices lie.
    pub(crate) fn exits(&self, route: Candidate) -> Marks {
        if self.is_internal(route) {
            return Marks::none();
        }
        if let Some(s) = self.local_from(route) {
            return self.active_in_state(s);
        }
        match self.scope(route) {
            Some(r) => self.active_in_region(r),
            None => Marks::none(),
        }
    }
}
