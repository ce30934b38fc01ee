//! The values of guards (UML 2.5.1, 14.2.3.8, guards).
ghost use Rattle.std.specs.Prelude.{◌≢◌, ◌↔◌, ◌<◌, length, IsTrue};
ghost use Rattle.pssm_model.specs.declared.ids.VertexId.{VertexId};
ghost use Rattle.pssm_model.specs.Legs.{Leaves};
ghost use Rattle.pssm_model.specs.Routes.{Truth, HasTrueValue, IsTrueAt};
ghost use Rattle.pssm_enabled.specs.Telling.{CanBeAsked, Tells};

use pssm_model::{Guard, GuardId, Machine, TransId};

// Whether the guard of the transition is missing, or true by its value; `else` is not.
fn has_true_value<T: Fn(GuardId) -> bool>(machine: &Machine, truth: &T, t: TransId) -> bool
    requires there { t.0 < length machine.now.transitions }
    requires askable { CanBeAsked machine.now (T.pre truth.now) }
    ensures { (values : Truth) → Tells machine.now (T.post truth.now) values
        → (IsTrue result ↔ HasTrueValue machine.now values t) }
{
    match machine.transition(t).guard {
        Guard::Always => true,
        Guard::Otherwise => false,
        Guard::When(guard) => truth(guard),
    }
}

// Whether it is another transition, and has a true guard.
fn is_another_true<T: Fn(GuardId) -> bool>(
    machine: &Machine,
    truth: &T,
    t: TransId,
    u: TransId,
) -> bool
    requires there { u.0 < length machine.now.transitions }
    requires askable { CanBeAsked machine.now (T.pre truth.now) }
    ensures { (values : Truth) → Tells machine.now (T.post truth.now) values
        → (IsTrue result ↔ ((u ≢ t) × HasTrueValue machine.now values u)) }
{
    u != t && has_true_value(machine, truth, u)
}

// Whether another transition out of its source has a true guard.
#[inline(never)]
fn another_is_true<T: Fn(GuardId) -> bool>(machine: &Machine, truth: &T, t: TransId) -> bool
    requires there { t.0 < length machine.now.transitions }
    requires askable { CanBeAsked machine.now (T.pre truth.now) }
    ensures { (values : Truth) → Tells machine.now (T.post truth.now) values
        → (IsTrue result ↔ ((u : TransId) × (v : VertexId) × (u ≢ t) × Leaves machine.now t v × Leaves machine.now u v
        × HasTrueValue machine.now values u)) }
{
    for u in machine.outgoing(machine.source(t)) {
        if is_another_true(machine, truth, t, *u) {
            return true;
        }
    }
    false
}

/// Whether the transition is true: by the value of its guard, or as `else` where no other transition
/// out of its source has a true guard (UML 2.5.1, 14.2.3.8, guards, and 14.2.3.7, junction and
/// choice).
#[inline(always)]
pub fn is_true_at<T: Fn(GuardId) -> bool>(machine: &Machine, truth: &T, t: TransId) -> bool
    requires there { t.0 < length machine.now.transitions }
    requires askable { CanBeAsked machine.now (T.pre truth.now) }
    ensures { (values : Truth) → Tells machine.now (T.post truth.now) values
        → (IsTrue result ↔ IsTrueAt machine.now values t) }
{
    match machine.transition(t).guard {
        Guard::Otherwise => !another_is_true(machine, truth, t),
        _ => has_true_value(machine, truth, t),
    }
}
