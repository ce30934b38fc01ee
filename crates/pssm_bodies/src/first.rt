//! The first reading, in the order of the file: the first body with a fault.
ghost use Rattle.std.specs.Prelude.{◌≡◌, ◌≤◌, length, IfOk, IfErr};
ghost use Rattle.pssm_bodies.specs.Slots.{HasEachOnce, machine_slots};
ghost use Rattle.pssm_bodies.specs.inner.Counts.{IsTable};
ghost use Rattle.pssm_bodies.specs.Faults.{IsDueFault};
ghost use Rattle.pssm_bodies.specs.inner.Through.{AreRead};

use crate::body_fault::{BodyFault, fault_at};
use crate::slot::Slot;
use crate::slots::table;
use crate::texts::counted_on;
use pssm_acts::{Known, Marks};
use pssm_model::FlatDraft;
use std::alloc::Global;

// Reads the bodies one after another, each as the table says.
fn read_all(
    alloc: Global,
    names: &Known<'_>,
    flat: &FlatDraft,
    table: &[Option<Slot>],
) -> Result<(), BodyFault>
    requires vars { length names.now.vars ≤ 64 }
    requires objects { length names.now.objects ≤ 64 }
    requires signals { length names.now.signals ≤ 256 }
    requires few { length flat.now.bodies ≤ 65536 }
    requires once { HasEachOnce flat.now }
    requires width { length table.now ≡ length flat.now.bodies }
    requires slots { IsTable (machine_slots flat.now.machine) table.now }
    ensures read { IfOk result (λ _. AreRead names.now flat.now) }
    ensures fault { IfErr result (λ f. IsDueFault names.now flat.now f) }
{
    let bodies = flat.bodies.as_slice();
    let mut marks = Marks::new(alloc);
    let mut count = 1usize;
    for number in 1..bodies.len() {
        let Some(slot) = table[number] else {
            unreachable!();
        };
        let text = bodies[number].text.as_slice();
        count = match counted_on(alloc, names, text, slot.reading, count, &mut marks) {
            Ok(more) => more,
            Err(fault) => return Err(fault_at(number as u32, fault)),
        };
    }
    Ok(())
}

/// Reads the bodies in the order of the file.
pub(crate) fn first_reading(
    alloc: Global,
    names: &Known<'_>,
    flat: &FlatDraft,
) -> Result<(), BodyFault>
    requires vars { length names.now.vars ≤ 64 }
    requires objects { length names.now.objects ≤ 64 }
    requires signals { length names.now.signals ≤ 256 }
    requires few { length flat.now.bodies ≤ 65536 }
    requires once { HasEachOnce flat.now }
    ensures read { IfOk result (λ _. AreRead names.now flat.now) }
    ensures fault { IfErr result (λ f. IsDueFault names.now flat.now f) }
{
    let table = table(alloc, &flat.machine, flat.bodies.as_slice().len())?;
    read_all(alloc, names, flat, table.as_slice())
}
