//! The machine and the program of a class, from the texts of its bodies.
ghost use Rattle.std.specs.Prelude.{◌≡◌, ◌≤◌, length, All, IfOk, IfErr};
ghost use Rattle.pssm_acts.specs.Answers.{Faults};
ghost use Rattle.pssm_bodies.specs.declared.body_fault.BodyFault.TheVariants.{NoMemory};
ghost use Rattle.pssm_bodies.specs.Slots.{HasEachOnce};
ghost use Rattle.pssm_bodies.specs.Programs.{IsProgrammed};
ghost use Rattle.pssm_bodies.specs.Faults.{IsDueFault};
ghost use Rattle.pssm_bodies.specs.inner.Through.{AreRead, StopsInside, guards_count};

use crate::body_fault::BodyFault;
use crate::elements::{transitions_numbered, vertices_numbered};
use crate::first::first_reading;
use crate::numbered::first_program;
use pssm_acts::{ActFault, Known};
use pssm_model::{DraftMachine, Duplicate, FlatDraft, Row};
use pssm_semantics::Program;
use std::alloc::Global;

/// A machine whose behaviours and guards have the numbers of its program.
#[derive(Drop)]
pub struct Programmed {
    pub machine: DraftMachine,
    pub program: Program,
}

// Numbers the behaviours and guards of a machine.
fn numbered(alloc: Global, names: &Known<'_>, flat: &FlatDraft) -> Result<Programmed, ActFault>
    requires vars { length names.now.vars ≤ 64 }
    requires objects { length names.now.objects ≤ 64 }
    requires signals { length names.now.signals ≤ 256 }
    requires steps { All (λ v. length v.steps ≤ 1) flat.now.machine.vertices }
    requires guards { guards_count flat.now.machine.transitions ≤ 65535 }
    ensures numbered { IfOk result (λ p. IsProgrammed names.now flat.now p.machine p.program) }
    ensures fault { IfErr result (λ f. Faults (StopsInside names.now flat.now) f) }
{
    let bodies = flat.bodies.as_slice();
    let first = first_program(alloc)?;
    let (vertices, middle) = vertices_numbered(
        alloc,
        names,
        bodies,
        first,
        flat.machine.vertices.as_slice(),
    )?;
    let (transitions, program) = transitions_numbered(
        alloc,
        names,
        bodies,
        middle,
        flat.machine.transitions.as_slice(),
    )?;
    let machine = DraftMachine {
        regions: flat.machine.regions.duplicate(alloc)?,
        vertices: Row::from_vec(vertices),
        transitions: Row::from_vec(transitions),
    };
    Ok(Programmed {
        machine,
        program: program.into_program(),
    })
}

// The second reading; it meets no fault, since the first has met none.
fn second_reading(
    alloc: Global,
    names: &Known<'_>,
    flat: &FlatDraft,
) -> Result<Programmed, BodyFault>
    requires vars { length names.now.vars ≤ 64 }
    requires objects { length names.now.objects ≤ 64 }
    requires signals { length names.now.signals ≤ 256 }
    requires few { length flat.now.bodies ≤ 65536 }
    requires once { HasEachOnce flat.now }
    requires read { AreRead names.now flat.now }
    ensures numbered { IfOk result (λ p. IsProgrammed names.now flat.now p.machine p.program) }
    ensures fault { IfErr result (λ f. f ≡ NoMemory) }
{
    match numbered(alloc, names, flat) {
        Ok(programmed) => Ok(programmed),
        Err(fault) => match fault {
            ActFault::NoMemory => Err(BodyFault::NoMemory),
            _ => unreachable!(),
        },
    }
}

/// The machine and the program of a class, or the first body, in the order of the file, that has a fault.
///
/// Behaviours, guards and marks have their numbers in the order of the flat text. The behaviours with statements and
/// the marks of a class are at most 32,767 and 32,768.
pub fn read_bodies(
    alloc: Global,
    names: &Known<'_>,
    flat: &FlatDraft,
) -> Result<Programmed, BodyFault>
    requires vars { length names.now.vars ≤ 64 }
    requires objects { length names.now.objects ≤ 64 }
    requires signals { length names.now.signals ≤ 256 }
    requires few { length flat.now.bodies ≤ 65536 }
    requires once { HasEachOnce flat.now }
    ensures read { IfOk result (λ p. IsProgrammed names.now flat.now p.machine p.program) }
    ensures fault { IfErr result (λ f. IsDueFault names.now flat.now f) }
{
    first_reading(alloc, names, flat)?;
    second_reading(alloc, names, flat)
}
