//! What has been read of a text.
ghost use Rattle.std.specs.Prelude.{◌≡◌, ◌≤◌, ◌++◌, ◌∷◌, [], length, map, IfOk, Option, Some, IfErr};
ghost use Rattle.std.specs.Option.{option_map};
ghost use Rattle.pssm_acts.specs.Answers.{Answers};
ghost use Rattle.pssm_flat.specs.inner.Outlines.{empty_block, is_next_class, after_start, after_head, with_head_line, opened as opened_as, ended as ended_as, behind_blocks, names_in, object_of, with_line, lifted, IsSmallHead, IsSmallBlock};

use crate::block::Block;
use crate::head::Head;
use crate::line::Line;
use crate::numbering::first_program;
use crate::refusal::{kept, nothing, refused};
use crate::vocabulary::Vocabulary;
use pssm_acts::ActFault;
use pssm_model::{Duplicate, Row, Text};
use pssm_semantics::{Class, ObjectDecl, Setting};
use std::alloc::{AllocError, Global};

/// What has been read of a text, up to the end of a line.
///
/// `Start`: nothing. `Heading`: the header and lines before the first block. `Open`: blocks of classes to their ends,
/// and some of the next one. `Ended`: the whole text.
#[derive(Drop)]
pub(crate) enum Outline {
    Start,
    Heading(Head),
    Open {
        head: Head,
        done: Row<Class>,
        block: Block,
    },
    Ended(Setting),
}

// The names of objects.
fn names_of_objects(alloc: Global, objects: &[ObjectDecl]) -> Result<Row<Text>, AllocError>
    ensures { IfOk result (λ names. names ≡ map object_of objects.now) }
{
    let mut names = Vec::new(alloc);
    for object in objects {
        names.push(object.name.copy(alloc)?)?;
    }
    Ok(Row::from_vec(names))
}

// The names that behaviours may use where no variable has been read.
fn names_of(alloc: Global, head: &Head) -> Result<Vocabulary, AllocError>
    ensures { IfOk result (λ names. names ≡ names_in head.now) }
{
    let objects = names_of_objects(alloc, head.objects.as_slice())?;
    match head.signals.row().duplicate(alloc) {
        Ok(signals) => Vocabulary::of(alloc, objects, signals),
        Err(fault) => refused(objects, fault),
    }
}

// A block of which the first line has been read.
fn begun(alloc: Global, head: &Head, name: Text) -> Result<Block, AllocError>
    ensures { IfOk result (λ block. block ≡ empty_block head.now name) }
{
    let names = match names_of(alloc, head) {
        Ok(names) => names,
        Err(fault) => return refused(name, fault),
    };
    match first_program(alloc) {
        Ok(program) => Ok(Block {
            name,
            names,
            vars: Row::from_vec(Vec::new(alloc)),
            regions: Row::from_vec(Vec::new(alloc)),
            vertices: Row::from_vec(Vec::new(alloc)),
            transitions: Row::from_vec(Vec::new(alloc)),
            program,
        }),
        Err(fault) => refused((name, names), fault),
    }
}

/// Whether the next class behind so many has the name.
pub(crate) fn is_next(head: &Head, done: usize, name: &[u8]) -> bool
    ensures { result ≡ is_next_class head.now done name.now }
{
    match head.classes.as_slice().get(done) {
        Some(next) => next.as_slice() == name,
        None => false,
    }
}

// The next block begun, where its first line has the name of the next class.
fn opened(
    alloc: Global,
    head: Head,
    done: Row<Class>,
    name: Text,
) -> Result<Option<Outline>, AllocError>
    ensures { IfOk result (λ r. r ≡ opened_as head done name) }
{
    if !is_next(&head, done.as_slice().len(), name.as_slice()) {
        return Ok(nothing((head, done, name)));
    }
    match begun(alloc, &head, name) {
        Ok(block) => Ok(Some(Outline::Open { head, done, block })),
        Err(fault) => refused((head, done), fault),
    }
}

// The whole text, where all blocks have been read.
fn ended(head: Head, done: Row<Class>) -> Option<Outline>
    ensures { result ≡ ended_as head done }
{
    if head.classes.as_slice().len() != done.as_slice().len() {
        return nothing((head, done));
    }
    let Head {
        signals,
        classes,
        objects,
    } = head;
    drop(classes);
    Some(Outline::Ended(Setting {
        signals: signals.into_row(),
        classes: done,
        objects: objects.into_row(),
    }))
}

/// What is read with the line behind the blocks of these classes.
pub(crate) fn after_blocks(
    alloc: Global,
    head: Head,
    done: Row<Class>,
    line: Line,
) -> Result<Option<Outline>, AllocError>
    ensures { IfOk result (λ r. r ≡ behind_blocks head done line) }
{
    match line {
        Line::Machine { name } => opened(alloc, head, done, name),
        Line::End => Ok(ended(head, done)),
        other => Ok(nothing(((head, done), other))),
    }
}

/// What is read with a line behind nothing.
pub(crate) fn after_nothing(alloc: Global, line: Line) -> Option<Outline>
    ensures { result ≡ after_start line }
{
    match line {
        Line::Header => Some(Outline::Heading(Head::new(alloc))),
        other => nothing(other),
    }
}

// The head with one more line.
fn headed(alloc: Global, mut head: Head, line: Line) -> Result<Option<Outline>, AllocError>
    requires { IsSmallHead head }
    ensures { IfOk result (λ r. r ≡ option_map Outline.Heading (with_head_line head line)) }
{
    let taken = head.take(alloc, line);
    Ok(kept(taken, head)?.map(Outline::Heading))
}

/// What is read with a line behind the head.
pub(crate) fn after_the_head(
    alloc: Global,
    head: Head,
    line: Line,
) -> Result<Option<Outline>, AllocError>
    requires { IsSmallHead head }
    ensures { IfOk result (λ r. r ≡ after_head head line) }
{
    match line {
        Line::Machine { name } => opened(alloc, head, Row::from_vec(Vec::new(alloc)), name),
        Line::End => Ok(ended(head, Row::from_vec(Vec::new(alloc)))),
        other => headed(alloc, head, other),
    }
}

/// What is read with one more line of a block.
pub(crate) fn grown(
    alloc: Global,
    head: Head,
    done: Row<Class>,
    mut block: Block,
    line: Line,
) -> Result<Option<Outline>, ActFault>
    requires { IsSmallBlock block }
    ensures { Answers (lifted (Outline.Open head done) (with_line block line)) result }
{
    match block.take(alloc, line) {
        Ok(true) => Ok(Some(Outline::Open { head, done, block })),
        Ok(false) => Ok(nothing((head, done, block))),
        Err(fault) => refused((head, done, block), fault),
    }
}
