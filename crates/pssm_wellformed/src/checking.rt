//! `check`: every rule of models that a machine breaks, and where.
ghost use Rattle.std.specs.Prelude.{◌≡◌, ◌↔◌, ◌<◌, ◌+◌, [], Contains, AllPairs, length, IfOk, OnOk};
ghost use Rattle.pssm_model.specs.Shapes.{HasShape};
ghost use Rattle.pssm_model.specs.WellFormed.{Breaks, KeepsModelRules};
ghost use Rattle.pssm_wellformed.specs.Faults.{IsEarlierFault};
ghost use Rattle.pssm_wellformed.specs.inner.Checked.{IsPlace, place_number, IsCheckedBelow};

use crate::fault::Fault;
use crate::paths::Marked;
use crate::rules::breaks;
use pssm_model::{Element, FaultPlace, Machine, RegionId, TransId, VertexId};
use std::alloc::{AllocError as NoMemory, Global};

/// The number of the last rule.
const LAST_RULE: u8 = 21;

/// How many places a fault may have: the machine as a whole, and its regions, vertices and transitions.
fn places(machine: &Machine) -> u16
    ensures count { result ≡ 1 + length machine.now.regions + length machine.now.vertices + length machine.now.transitions }
    ensures shaped { HasShape machine.now }
{
    1 + machine.regions() + machine.vertices() + machine.transitions()
}

/// The place of a number, in the order machine, regions, vertices, transitions.
fn place_at(machine: &Machine, number: u16) -> FaultPlace
    requires { number < 1 + length machine.now.regions + length machine.now.vertices + length machine.now.transitions }
    ensures there { IsPlace machine.now result }
    ensures number { place_number machine.now result ≡ number }
{
    if number == 0 {
        return FaultPlace::Top;
    }
    let region = number - 1;
    if region < machine.regions() {
        return FaultPlace::At(Element::Region(RegionId(region)));
    }
    let vertex = region - machine.regions();
    if vertex < machine.vertices() {
        return FaultPlace::At(Element::Vertex(VertexId(vertex)));
    }
    FaultPlace::At(Element::Transition(TransId(vertex - machine.vertices())))
}

/// Lists the faults at one place more.
fn list_faults(marked: &Marked, place: FaultPlace, faults: &mut Vec<Fault>) -> Result<(), NoMemory>
    requires there { IsPlace marked.now place }
    requires before { IsCheckedBelow marked.now (place_number marked.now place) 1 faults.old.items }
    ensures { OnOk result (IsCheckedBelow marked.now (place_number marked.now place + 1) 1 faults.new.items) }
{
    // What is marked has the shape of a machine.
    let _ = &marked.machine;
    for rule in 1..LAST_RULE + 1 {
        if breaks(marked, place, rule) {
            let element = place;
            faults.push(Fault { element, rule })?;
        }
    }
    Ok(())
}

/// Every rule of models that the machine breaks, once for each element that breaks it: sorted by
/// element, first the machine as a whole and then its regions, vertices and transitions, and by
/// rule.
///
/// The list is empty exactly where the machine keeps every rule. Where memory runs out the answer is `NoMemory`.
pub fn check(alloc: Global, machine: &Machine) -> Result<Vec<Fault>, NoMemory>
    ensures exact { IfOk result
        (λ list. (f : Fault) → Contains list.items f ↔ Breaks machine.now f.element f.rule) }
    ensures ascending { IfOk result (λ list. AllPairs IsEarlierFault list.items) }
    ensures keeps_rules { IfOk result (λ list. (list.items ≡ []) ↔ KeepsModelRules machine.now) }
{
    let places = places(machine);
    let marked = Marked::new(alloc, machine)?;
    let mut faults = Vec::new(alloc);
    for number in 0..places {
        let place = place_at(machine, number);
        list_faults(&marked, place, &mut faults)?;
    }
    Ok(faults)
}
