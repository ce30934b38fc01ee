//! The slots of a machine: where bodies stand in it, and in which each number stands.
ghost use Rattle.std.specs.Prelude.{◌≡◌, ◌++◌, ◌∷◌, [], List, map, length, IfOk};
ghost use Rattle.std.specs.List.{flat_map};
ghost use Rattle.pssm_model.specs.declared.ids.ActId.{ActId};
ghost use Rattle.pssm_bodies.specs.declared.slot.Reading.TheVariants.{Steps};
ghost use Rattle.pssm_bodies.specs.declared.slot.Slot.{Slot};
ghost use Rattle.pssm_bodies.specs.Slots.{slot, vertex_slots, guard_slots, transition_slots, machine_slots};
ghost use Rattle.pssm_bodies.specs.inner.Counts.{IsTable};

use crate::slot::{Reading, Slot};
use pssm_model::{ActId, DraftMachine, Guard, Transition, Vertex};
use std::alloc::{AllocError as NoMemory, Global};

// The slots of do-activities behind others.
fn with_steps(mut slots: Vec<Slot>, steps: &[ActId]) -> Result<Vec<Slot>, NoMemory>
    ensures { IfOk result (λ all. all.items ≡ slots.items ++ map (λ (a : ActId). slot Steps a.0) steps.now) }
{
    for step in steps {
        slots.push(Slot {
            reading: Reading::Steps,
            number: step.0,
        })?;
    }
    Ok(slots)
}

// The slots of a vertex behind others.
fn with_vertex(mut slots: Vec<Slot>, vertex: &Vertex) -> Result<Vec<Slot>, NoMemory>
    ensures { IfOk result (λ all. all.items ≡ slots.items ++ vertex_slots vertex.now) }
{
    slots.push(Slot {
        reading: Reading::Behaviour,
        number: vertex.entry.0,
    })?;
    slots.push(Slot {
        reading: Reading::Behaviour,
        number: vertex.exit.0,
    })?;
    with_steps(slots, vertex.steps.as_slice())
}

// The slot of a guard behind others, where it has a text.
fn with_guard(mut slots: Vec<Slot>, guard: Guard) -> Result<Vec<Slot>, NoMemory>
    ensures { IfOk result (λ all. all.items ≡ slots.items ++ guard_slots guard) }
{
    match guard {
        Guard::Always => Ok(slots),
        Guard::Otherwise => Ok(slots),
        Guard::When(id) => {
            slots.push(Slot {
                reading: Reading::Guard,
                number: id.0,
            })?;
            Ok(slots)
        }
    }
}

// The slots of a transition behind others.
fn with_transition(slots: Vec<Slot>, transition: &Transition) -> Result<Vec<Slot>, NoMemory>
    ensures { IfOk result (λ all. all.items ≡ slots.items ++ transition_slots transition.now) }
{
    let mut slots = with_guard(slots, transition.guard)?;
    slots.push(Slot {
        reading: Reading::Behaviour,
        number: transition.effect.0,
    })?;
    Ok(slots)
}

// The slots of vertices.
fn of_vertices(alloc: Global, vertices: &[Vertex]) -> Result<Vec<Slot>, NoMemory>
    ensures { IfOk result (λ all. all.items ≡ flat_map vertex_slots vertices.now) }
{
    let mut slots = Vec::new(alloc);
    for vertex in vertices {
        slots = with_vertex(slots, vertex)?;
    }
    Ok(slots)
}

// The slots of transitions behind others.
fn with_transitions(mut slots: Vec<Slot>, transitions: &[Transition]) -> Result<Vec<Slot>, NoMemory>
    ensures { IfOk result (λ all. all.items ≡ slots.items ++ flat_map transition_slots transitions.now) }
{
    for transition in transitions {
        slots = with_transition(slots, transition)?;
    }
    Ok(slots)
}

// All slots of a machine, in the order of its flat text.
fn slots_of(alloc: Global, machine: &DraftMachine) -> Result<Vec<Slot>, NoMemory>
    ensures { IfOk result (λ all. all.items ≡ machine_slots machine.now) }
{
    let slots = of_vertices(alloc, machine.vertices.as_slice())?;
    with_transitions(slots, machine.transitions.as_slice())
}

// Puts a slot into a table, where none has been put there before.
fn put(table: &mut Vec<Option<Slot>>, slot: Slot)
    ensures kept { length table.new.items ≡ length table.old.items }
    ensures put { (slots : List Slot) → IsTable slots table.old.items → IsTable (slots ++ slot ∷ []) table.new.items }
{
    let number = usize::from(slot.number);
    if number < table.len() && table[number].is_none() {
        table[number] = Some(slot);
    }
}

// The slots by the numbers of their bodies, below a number.
fn table_of(alloc: Global, slots: &[Slot], width: usize) -> Result<Vec<Option<Slot>>, NoMemory>
    ensures width { IfOk result (λ table. length table.items ≡ width) }
    ensures slots { IfOk result (λ table. IsTable slots.now table.items) }
{
    let mut table = vec![in alloc; None; width]?;
    for slot in slots {
        put(&mut table, *slot);
    }
    Ok(table)
}

/// The slots of a machine by the numbers of their bodies, below a number.
pub(crate) fn table(
    alloc: Global,
    machine: &DraftMachine,
    width: usize,
) -> Result<Vec<Option<Slot>>, NoMemory>
    ensures width { IfOk result (λ table. length table.items ≡ width) }
    ensures slots { IfOk result (λ table. IsTable (machine_slots machine.now) table.items) }
{
    let slots = slots_of(alloc, machine)?;
    table_of(alloc, slots.as_slice(), width)
}
