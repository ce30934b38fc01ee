//! A look over the junctions and exit points that lie ahead: whether a way leads out, where these are few. It needs no
//! marks.
ghost use Rattle.std.specs.Prelude.{◌≡◌, ◌↔◌, ◌<◌, ◌≤◌, ◌+◌, length, Contains, IsTrue, IsFalse, IfSome};
ghost use Rattle.pssm_model.specs.declared.ids.TransId.{TransId};
ghost use Rattle.pssm_model.specs.Routes.{Truth};
ghost use Rattle.pssm_enabled.specs.Telling.{CanBeAsked, Tells};
ghost use Rattle.pssm_enabled.specs.Ways.{LeadsOut};
ghost use Rattle.pssm_routes.specs.inner.Looking.{come_to, AreThere, HasCome, IsSight, IsLooking, LooksOn};

use pssm_enabled::{ends_inside, is_open, is_passed_over};
use pssm_model::{GuardId, Machine, RegionId, TransId, VertexId};

/// The junctions and exit points to which a look has come, in that order.
#[derive(Drop)]
struct Reached {
    found: [VertexId; 64],
    count: usize,
}

/// What a look tells: that a way leads out, that none has done so yet, or that there are more vertices ahead than it
/// goes over.
enum Sight {
    Out,
    On,
    Lost,
}

impl Reached {
    // No vertices.
    fn none() -> Reached
        ensures { result.count ≡ 0 }
    {
        Reached {
            found: [VertexId(0); 64],
            count: 0,
        }
    }

    // Whether the look has come to the vertex.
    fn has(&self, v: VertexId) -> bool
        requires { self.now.count ≤ 64 }
        ensures { IsTrue result ↔ Contains (come_to self.now) v }
    {
        let (found, _) = self.found.split_at(self.count);
        found.contains(&v)
    }

    // Comes to the vertex. It answers whether there was room for it.
    fn come_to(&mut self, v: VertexId) -> bool
        requires room { self.old.count ≤ 64 }
        ensures come { IsTrue result → HasCome self.old self.new v }
        ensures room { self.new.count ≤ 64 }
        ensures same { IsFalse result → self.new ≡ self.old }
    {
        if self.has(v) {
            return true;
        }
        if self.count == 64 {
            return false;
        }
        self.found[self.count] = v;
        self.count += 1;
        true
    }

    // Looks at the transition: whether it leads out, and else comes to the vertex on which it ends, if it is open.
    fn look_at<T: Fn(GuardId) -> bool>(
        &mut self,
        machine: &Machine,
        truth: &T,
        within: Option<RegionId>,
        t: TransId,
    ) -> Sight
        requires there { t.0 < length machine.now.transitions }
        requires region { IfSome within (λ r. r.0 < length machine.now.regions) }
        requires askable { CanBeAsked machine.now (T.pre truth.now) }
        requires room { AreThere machine.now self.old }
        ensures sight { (values : Truth) → Tells machine.now (T.post truth.now) values
            → IsSight machine.now values within t self.old self.new result }
        ensures room { AreThere machine.now self.new }
    {
        if !is_open(machine, truth, within, t) {
            return Sight::On;
        }
        let v = machine.target(t);
        if !is_passed_over(machine, v) {
            return Sight::Out;
        }
        if self.come_to(v) {
            Sight::On
        } else {
            Sight::Lost
        }
    }

    // Looks on from the vertex with this place.
    fn look_on<T: Fn(GuardId) -> bool>(
        &mut self,
        machine: &Machine,
        truth: &T,
        within: Option<RegionId>,
        place: usize,
    ) -> Sight
        requires place { place < self.old.count }
        requires region { IfSome within (λ r. r.0 < length machine.now.regions) }
        requires askable { CanBeAsked machine.now (T.pre truth.now) }
        requires room { AreThere machine.now self.old }
        ensures sight { (values : Truth) (start : TransId) → Tells machine.now (T.post truth.now) values
            → IsLooking machine.now values within start self.old place
            → LooksOn machine.now values within start self.new (place + 1) result }
        ensures room { AreThere machine.now self.new }
    {
        for t in machine.outgoing(self.found[place]) {
            match self.look_at(machine, truth, within, *t) {
                Sight::On => {}
                Sight::Out => return Sight::Out,
                Sight::Lost => return Sight::Lost,
            }
        }
        Sight::On
    }

    // Looks on from each vertex in turn, until a way leads out or all have been looked on from.
    fn look_out<T: Fn(GuardId) -> bool>(
        &mut self,
        machine: &Machine,
        truth: &T,
        within: Option<RegionId>,
    ) -> Option<bool>
        requires region { IfSome within (λ r. r.0 < length machine.now.regions) }
        requires askable { CanBeAsked machine.now (T.pre truth.now) }
        requires room { AreThere machine.now self.old }
        ensures { (values : Truth) (start : TransId) → Tells machine.now (T.post truth.now) values
            → IsLooking machine.now values within start self.old 0
            → IfSome result (λ is. IsTrue is ↔ LeadsOut machine.now values within start) }
    {
        let mut place = 0;
        while place < self.count {
            match self.look_on(machine, truth, within, place) {
                Sight::On => place += 1,
                Sight::Out => return Some(true),
                Sight::Lost => return None,
            }
        }
        Some(false)
    }
}

// Whether a way leads out from a transition that ends on a junction or exit point. What is reached stands in this call
// alone.
#[inline(never)]
fn look_over<T: Fn(GuardId) -> bool>(
    machine: &Machine,
    truth: &T,
    within: Option<RegionId>,
    start: TransId,
) -> Option<bool>
    requires there { start.0 < length machine.now.transitions }
    requires region { IfSome within (λ r. r.0 < length machine.now.regions) }
    requires askable { CanBeAsked machine.now (T.pre truth.now) }
    ensures { (values : Truth) → Tells machine.now (T.post truth.now) values
        → IfSome result (λ is. IsTrue is ↔ LeadsOut machine.now values within start) }
{
    let mut reached = Reached::none();
    match reached.look_at(machine, truth, within, start) {
        Sight::On => reached.look_out(machine, truth, within),
        Sight::Out => Some(true),
        Sight::Lost => None,
    }
}

/// Whether a way leads out from the transition. It is left open where that goes over more junctions and exit points than
/// a look does.
pub fn look<T: Fn(GuardId) -> bool>(
    machine: &Machine,
    truth: &T,
    within: Option<RegionId>,
    start: TransId,
) -> Option<bool>
    requires there { start.0 < length machine.now.transitions }
    requires region { IfSome within (λ r. r.0 < length machine.now.regions) }
    requires askable { CanBeAsked machine.now (T.pre truth.now) }
    ensures { (values : Truth) → Tells machine.now (T.post truth.now) values
        → IfSome result (λ is. IsTrue is ↔ LeadsOut machine.now values within start) }
{
    if ends_inside(machine, start) {
        return look_over(machine, truth, within, start);
    }
    Some(is_open(machine, truth, within, start))
}
