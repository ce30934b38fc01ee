//! The end of a block: its machine is to have the shape of one.
ghost use Rattle.std.specs.Prelude.{◌≡◌, ◌≤◌, ◌⊎◌, ◌+◌, ◌++◌, ◌∷◌, [], Some, Ok, length, true, IfOk, IfErr, OnOk};
ghost use Rattle.pssm_acts.specs.declared.act_fault.ActFault.{ActFault};
ghost use Rattle.pssm_model.specs.Shapes.{HasShape};
ghost use Rattle.pssm_flat.specs.inner.Places.{machine_size};
ghost use Rattle.pssm_flat.specs.inner.Outlines.{machine_of, class_of, ends_block, behind_blocks, behind_block, IsMisshapen, IsNoNext, AreShaped, IsShaped};

use crate::block::Block;
use crate::fault::FlatFault;
use crate::head::Head;
use crate::line::Line;
use crate::outline::{Outline, after_blocks, is_next};
use crate::places::shape_fault;
use crate::refusal::refused;
use crate::rows::push;
use pssm_model::{DraftMachine, Machine, Row};
use pssm_semantics::Class;
use std::alloc::Global;

// The machine of a draft, with the number of the line behind its block.
fn machine_from(alloc: Global, draft: &DraftMachine, behind: u32) -> Result<Machine, FlatFault>
    requires { machine_size draft.now ≤ behind }
    ensures made { IfOk result (λ machine. machine ≡ draft.now) }
    ensures shaped { OnOk result (HasShape draft.now) }
    ensures fault { IfErr result (IsMisshapen draft.now behind) }
{
    match Machine::new(alloc, draft) {
        Ok(machine) => Ok(machine),
        Err(shape) => Err(shape_fault(behind, draft, shape)),
    }
}

// The class of a block, with the number of the line behind it.
fn closed(alloc: Global, block: Block, behind: u32) -> Result<Class, FlatFault>
    requires { machine_size (machine_of block) ≤ behind }
    ensures made { IfOk result (λ class. class ≡ class_of block) }
    ensures shaped { OnOk result (HasShape (machine_of block)) }
    ensures fault { IfErr result (IsMisshapen (machine_of block) behind) }
{
    let Block {
        name,
        names,
        vars,
        regions,
        vertices,
        transitions,
        program,
    } = block;
    drop(names);
    let draft = DraftMachine {
        regions,
        vertices,
        transitions,
    };
    match machine_from(alloc, &draft, behind) {
        Ok(machine) => Ok(Class {
            name,
            vars,
            machine,
            program: program.into_program(),
        }),
        Err(fault) => refused((draft, name, vars, program), fault),
    }
}

// Whether the line may stand behind so many blocks.
fn may_end(head: &Head, done: usize, line: &Line) -> bool
    ensures { result ≡ ends_block head.now done line.now }
{
    match line {
        Line::Machine { name } => is_next(head, done, name.as_slice()),
        Line::End => head.classes.as_slice().len() == done,
        _ => false,
    }
}

// What is read with the line behind a block, which may stand there.
fn next_block(
    alloc: Global,
    head: Head,
    mut done: Row<Class>,
    class: Class,
    line: Line,
    number: u32,
) -> Result<Outline, FlatFault>
    requires { ends_block head (length done + 1) line ≡ true }
    ensures read { IfOk result (λ next. behind_blocks head (done ++ class ∷ []) line ≡ Some next) }
    ensures stuck { IfErr result (λ f. f ≡ FlatFault.NoMemory) }
{
    match push(alloc, &mut done, class) {
        Ok(()) => {}
        Err(_) => return refused((head, done, line), FlatFault::NoMemory),
    }
    match after_blocks(alloc, head, done, line)? {
        Some(next) => Ok(next),
        None => Err(FlatFault::BadLine { line: number }),
    }
}

/// What is read with the line behind a block, whose machine is to have its shape.
pub(crate) fn after_block(
    alloc: Global,
    head: Head,
    done: Row<Class>,
    block: Block,
    line: Line,
    number: u32,
) -> Result<Outline, FlatFault>
    requires { machine_size (machine_of block) ≤ number }
    ensures read { IfOk result (λ next. behind_block head done block line ≡ Some next) }
    ensures shaped { IfOk result (λ next. AreShaped done → IsShaped next) }
    ensures stuck { IfErr result (IsNoNext (Outline.Open head done block) (Ok (behind_block head done block line)) number) }
{
    if block.regions.as_slice().is_empty() {
        return refused(
            (head, done, block, line),
            FlatFault::BadLine { line: number },
        );
    }
    if !may_end(&head, done.as_slice().len() + 1, &line) {
        return refused(
            (head, done, block, line),
            FlatFault::BadLine { line: number },
        );
    }
    match closed(alloc, block, number) {
        Ok(class) => next_block(alloc, head, done, class, line, number),
        Err(fault) => refused((head, done, line), fault),
    }
}
