//! Which rule is broken where: the twenty-one rules by number.
ghost use Rattle.std.specs.Prelude.{◌↔◌, ◌<◌, length, IsTrue};
ghost use Rattle.pssm_model.specs.WellFormed.{Breaks};
ghost use Rattle.pssm_wellformed.specs.inner.Checked.{IsPlace};

use crate::apart::{forks_badly, is_bad_entry_point, joins_badly};
use crate::cycles::is_on_cycle;
use crate::exits::is_bad_exit_point;
use crate::local::is_bad_local;
use crate::outside::goes_outside;
use crate::paths::{Marked, may_find_no_branch};
use crate::regions::{has_no_top_region, is_top_without_initial, owns_two_entries};
use crate::transitions::{connects_badly, is_bad_else, is_bad_internal, is_triggered_wrongly};
use crate::vertices::{
    is_bad_final, is_bad_fork, is_bad_history, is_bad_initial, is_bad_join, is_bad_terminate,
    is_open_ended,
};
use pssm_model::{Element, FaultPlace, Machine, RegionId, TransId, VertexId};

/// Whether the machine as a whole breaks the rule.
fn top_breaks(machine: &Machine, rule: u8) -> bool
    ensures { IsTrue result ↔ Breaks machine.now FaultPlace.Top rule }
{
    rule == 1 && has_no_top_region(machine)
}

/// Whether the region breaks the rule.
fn region_breaks(machine: &Machine, region: RegionId, rule: u8) -> bool
    requires { region.0 < length machine.now.regions }
    ensures { IsTrue result ↔ Breaks machine.now (FaultPlace.At (Element.Region region)) rule }
{
    match rule {
        1 => is_top_without_initial(machine, region),
        2 => owns_two_entries(machine, region),
        _ => false,
    }
}

/// Whether the vertex breaks the rule.
fn vertex_breaks(marked: &Marked, vertex: VertexId, rule: u8) -> bool
    requires there { vertex.0 < length marked.now.vertices }
    ensures { IsTrue result ↔ Breaks marked.now (FaultPlace.At (Element.Vertex vertex)) rule }
{
    match rule {
        3 => is_bad_initial(marked.machine, vertex),
        4 => is_bad_history(marked.machine, vertex),
        5 => is_bad_join(marked.machine, vertex),
        6 => is_bad_fork(marked.machine, vertex),
        7 => joins_badly(marked, vertex),
        8 => forks_badly(marked, vertex),
        9 => is_open_ended(marked.machine, vertex),
        11 => is_bad_final(marked.machine, vertex),
        12 => is_bad_terminate(marked.machine, vertex),
        15 => is_bad_entry_point(marked, vertex),
        16 => is_bad_exit_point(marked, vertex),
        18 => may_find_no_branch(marked, vertex),
        19 => is_on_cycle(marked, vertex),
        20 => goes_outside(marked, vertex),
        _ => false,
    }
}

/// Whether the transition breaks the rule.
fn transition_breaks(marked: &Marked, transition: TransId, rule: u8) -> bool
    requires there { transition.0 < length marked.now.transitions }
    ensures { IsTrue result ↔ Breaks marked.now (FaultPlace.At (Element.Transition transition)) rule }
{
    match rule {
        10 => is_triggered_wrongly(marked.machine, transition),
        13 => is_bad_internal(marked.machine, transition),
        14 => is_bad_local(marked, transition),
        17 => is_bad_else(marked.machine, transition),
        21 => connects_badly(marked.machine, transition),
        _ => false,
    }
}

/// Whether the place breaks the rule.
pub fn breaks(marked: &Marked, place: FaultPlace, rule: u8) -> bool
    requires there { IsPlace marked.now place }
    ensures { IsTrue result ↔ Breaks marked.now place rule }
{
    match place {
        FaultPlace::Top => top_breaks(marked.machine, rule),
        FaultPlace::At(Element::Region(region)) => region_breaks(marked.machine, region, rule),
        FaultPlace::At(Element::Vertex(vertex)) => vertex_breaks(marked, vertex, rule),
        FaultPlace::At(Element::Transition(transition)) => transition_breaks(
            marked, transition, rule,
        ),
    }
}
