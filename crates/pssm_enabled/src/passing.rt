//! Which vertices a route can pass: a way with true guards leads on from there (UML 2.5.1, 14.2.3.7,
//! pseudostates).
ghost use Rattle.std.specs.Prelude.{◌≡◌, ◌↔◌, ◌<◌, ◌+◌, length, IsTrue};
ghost use Rattle.pssm_model.specs.declared.ids.VertexId.{VertexId};
ghost use Rattle.pssm_model.specs.declared.elements.DraftMachine.{DraftMachine};
ghost use Rattle.pssm_model.specs.Routes.{Truth};
ghost use Rattle.pssm_enabled.specs.Telling.{CanBeAsked, Tells};
ghost use Rattle.pssm_enabled.specs.inner.Fitting.{IsMarked};
ghost use Rattle.pssm_enabled.specs.Ways.{HasWay};
ghost use Rattle.pssm_enabled.specs.inner.Passing.{EndsWay, EndsOnMarked, LeadsBack, AreAllGood, IsFoundOnce, Grows};
ghost use Rattle.pssm_enabled.specs.inner.Passing.{IsFurther, IsFurtherEnd, IsFurtherBack, HasEnds, HasGoneBack};
ghost use Rattle.pssm_enabled.specs.inner.Passing.{AllLead};

use crate::guards::is_true_at;
use crate::marked::is_seen;
use crate::vertices::{has_no_out, is_entry_point, is_passed_over};
use pssm_model::{GuardId, Machine, TransId, VertexId};

/// A mark for each vertex from which a way leads on, and these vertices in the order in which they
/// were found. A machine has at most 4,096 vertices.
#[derive(Drop)]
pub(crate) struct Points {
    pub(crate) good: [bool; 4096],
    pub(crate) found: [VertexId; 4096],
    pub(crate) count: u16,
}

/// Whether a route that comes to the vertex ends or forks there, or cannot go on from an entry point.
pub(crate) fn ends_way(machine: &Machine, v: VertexId) -> bool
    requires there { v.0 < length machine.now.vertices }
    ensures { IsTrue result ↔ EndsWay machine.now v }
{
    if is_passed_over(machine, v) {
        return false;
    }
    if is_entry_point(machine, v) {
        return has_no_out(machine, v);
    }
    true
}

// Whether the target of the transition is marked.
fn is_good_target(machine: &Machine, good: &[bool; 4096], t: TransId) -> bool
    requires there { t.0 < length machine.now.transitions }
    ensures { IsTrue result ↔ EndsOnMarked machine.now good.now t }
{
    is_seen(machine, good, machine.target(t))
}

// Whether all transitions out of the vertex end on marked vertices.
fn are_all_good(machine: &Machine, good: &[bool; 4096], v: VertexId) -> bool
    requires there { v.0 < length machine.now.vertices }
    ensures { IsTrue result ↔ AreAllGood machine.now good.now v }
{
    for t in machine.outgoing(v) {
        if !is_good_target(machine, good, *t) {
            return false;
        }
    }
    true
}

// Whether a way leads from the source of the transition to its target, which is marked: over it
// alone where it is true, or over all transitions out of an entry point.
fn leads_back<T: Fn(GuardId) -> bool>(
    machine: &Machine,
    truth: &T,
    good: &[bool; 4096],
    t: TransId,
) -> bool
    requires there { t.0 < length machine.now.transitions }
    requires askable { CanBeAsked machine.now (T.pre truth.now) }
    ensures { (values : Truth) → Tells machine.now (T.post truth.now) values
        → (IsTrue result ↔ LeadsBack machine.now values good.now t) }
{
    let v = machine.source(t);
    if is_passed_over(machine, v) {
        return is_true_at(machine, truth, t);
    }
    is_entry_point(machine, v) && are_all_good(machine, good, v)
}

impl Points {
    /// No vertices.
    pub(crate) fn none() -> Points
        ensures count { result.count ≡ 0 }
        ensures nothing { (v : VertexId) → IsMarked result.good v.0 → ⊥ }
        ensures once { (m : DraftMachine) → IsFoundOnce m result }
    {
        Points {
            good: [false; 4096],
            found: [VertexId(0); 4096],
            count: 0,
        }
    }

    /// Adds the vertex, unless it was found before.
    pub(crate) fn add(&mut self, machine: &Machine, v: VertexId)
        requires there { v.0 < length machine.now.vertices }
        requires once { IsFoundOnce machine.now self.now }
        ensures once { IsFoundOnce machine.now self.new }
        ensures further { IsFurther self.old self.new v }
    {
        let _shaped = machine.regions();
        if !self.good[v.0 as usize] {
            self.good[v.0 as usize] = true;
            self.found[self.count as usize] = v;
            self.count += 1;
        }
    }

    // Adds the vertex, where a way ends there.
    fn add_end(&mut self, machine: &Machine, v: VertexId)
        requires there { v.0 < length machine.now.vertices }
        requires once { IsFoundOnce machine.now self.now }
        ensures once { IsFoundOnce machine.now self.new }
        ensures further { IsFurtherEnd machine.now self.old self.new v }
    {
        if ends_way(machine, v) {
            self.add(machine, v);
        }
    }

    // Adds the vertices at which ways end.
    fn add_ends(&mut self, machine: &Machine)
        requires once { IsFoundOnce machine.now self.now }
        requires nothing { (v : VertexId) → IsMarked self.old.good v.0 → ⊥ }
        ensures once { IsFoundOnce machine.now self.new }
        ensures ends { HasEnds machine.now self.new }
        ensures lead { (values : Truth) → AllLead machine.now values self.new }
    {
        for number in 0..machine.vertices() {
            self.add_end(machine, VertexId(number));
        }
    }

    // Adds the source of the transition, where a way leads from there to its target.
    fn add_source<T: Fn(GuardId) -> bool>(&mut self, machine: &Machine, truth: &T, t: TransId)
        requires there { t.0 < length machine.now.transitions }
        requires askable { CanBeAsked machine.now (T.pre truth.now) }
        requires once { IsFoundOnce machine.now self.now }
        ensures once { IsFoundOnce machine.now self.new }
        ensures grows { Grows self.old self.new }
        ensures further { (values : Truth) → Tells machine.now (T.post truth.now) values
            → IsFurtherBack machine.now values self.old self.new t }
    {
        if leads_back(machine, truth, &self.good, t) {
            self.add(machine, machine.source(t));
        }
    }

    // Goes back from the vertex with this place.
    fn add_sources<T: Fn(GuardId) -> bool>(&mut self, machine: &Machine, truth: &T, place: u16)
        requires place { place < self.now.count }
        requires askable { CanBeAsked machine.now (T.pre truth.now) }
        requires once { IsFoundOnce machine.now self.now }
        ensures once { IsFoundOnce machine.now self.new }
        ensures kept { (v : VertexId) → IsMarked self.old.good v.0 → IsMarked self.new.good v.0 }
        ensures gone { (values : Truth) → Tells machine.now (T.post truth.now) values
            → HasGoneBack machine.now values self.old place
            → HasGoneBack machine.now values self.new (place + 1) }
        ensures lead { (values : Truth) → Tells machine.now (T.post truth.now) values
            → AllLead machine.now values self.old → AllLead machine.now values self.new }
    {
        let v = self.found[place as usize];
        for t in machine.incoming(v) {
            self.add_source(machine, truth, *t);
        }
    }

    /// Whether the vertex was found.
    pub(crate) fn has(&self, machine: &Machine, v: VertexId) -> bool
        requires there { v.0 < length machine.now.vertices }
        ensures { IsTrue result ↔ IsMarked self.now.good v.0 }
    {
        let _shaped = machine.regions();
        self.good[v.0 as usize]
    }

    /// The vertices from which ways with true guards lead on: first those at which routes end, then
    /// those from which ways lead to them. It takes time for each transition into a vertex, and no
    /// memory but its own.
    pub(crate) fn of<T: Fn(GuardId) -> bool>(machine: &Machine, truth: &T) -> Points
        requires askable { CanBeAsked machine.now (T.pre truth.now) }
        ensures { (values : Truth) → Tells machine.now (T.post truth.now) values → (v : VertexId)
            → v.0 < length machine.now.vertices
            → (IsMarked result.good v.0 ↔ HasWay machine.now values v) }
    {
        let _shaped = machine.regions();
        let mut points = Points::none();
        points.add_ends(machine);
        let mut place = 0;
        while place < points.count {
            points.add_sources(machine, truth, place);
            place += 1;
        }
        points
    }
}
