//! What is wrong with a model file, as the lines that the program writes.
ghost use Rattle.std.specs.Prelude.{◌≡◌, ◌++◌, IfOk};
ghost use Rattle.pssm_tool.specs.FileRefusals.{xmi_line, xmi_text as xmi_text_of, redefine_line};
ghost use Rattle.pssm_tool.specs.FileRefusals.{redefine_text as redefine_text_of};
ghost use Rattle.pssm_tool.specs.FileRefusals.{act_text as act_text_of, shape_text as shape_text_of};

use crate::fault_words::{act_byte, act_name, shape_name, unread_name};
use pssm_acts::ActFault;
use pssm_heritage::RedefFault;
use pssm_model::{Shape, Text};
use pssm_profile::XmiFault;
use pssm_spelling::put_number;
use std::alloc::{AllocError as NoMemory, Global};

/// The line on a fault of a model file. Want of memory has no line.
pub fn xmi_text(alloc: Global, fault: &XmiFault) -> Result<Text, NoMemory>
    ensures { IfOk result (λ text. text ≡ xmi_text_of fault.now) }
{
    match fault {
        XmiFault::Malformed { at } => xmi_line_of(alloc, *at, b"Malformed"),
        XmiFault::NotUtf8 { at } => xmi_line_of(alloc, *at, b"NotUtf8"),
        XmiFault::Doctype { at } => xmi_line_of(alloc, *at, b"Doctype"),
        XmiFault::DoubleId { at } => xmi_line_of(alloc, *at, b"DoubleId"),
        XmiFault::UnknownRef { at } => xmi_line_of(alloc, *at, b"UnknownRef"),
        XmiFault::Unsupported { at, kind } => {
            xmi_words(alloc, *at, b"Unsupported ", unread_name(*kind).as_bytes())
        }
        XmiFault::Missing { at, role } => xmi_words(alloc, *at, b"Missing ", role.as_slice()),
        XmiFault::TooDeep { at } => xmi_line_of(alloc, *at, b"TooDeep"),
        XmiFault::NoMemory => Err(NoMemory),
    }
}

// The line on a byte of a model file, with what is wrong there in two words.
fn xmi_words(alloc: Global, at: u32, word: &[u8], more: &[u8]) -> Result<Text, NoMemory>
    ensures { IfOk result (λ text. text ≡ xmi_line at (word.now ++ more.now)) }
{
    let mut words = word.to_vec(alloc)?;
    words.extend_from_slice(more)?;
    xmi_line_of(alloc, at, words.as_slice())
}

// The line on a byte of a model file, with what is wrong there.
fn xmi_line_of(alloc: Global, at: u32, word: &[u8]) -> Result<Text, NoMemory>
    ensures { IfOk result (λ text. text ≡ xmi_line at word.now) }
{
    let mut text = b"xmi byte ".to_vec(alloc)?;
    put_number(alloc, &mut text, u64::from(at))?;
    text.push(b' ')?;
    text.extend_from_slice(word)?;
    text.push(b'\n')?;
    Ok(Text::from_vec(text))
}

/// The line on a machine that cannot be flattened over those that it extends. Want of memory has no line.
pub fn redefine_text(alloc: Global, fault: &RedefFault) -> Result<Text, NoMemory>
    ensures { IfOk result (λ text. text ≡ redefine_text_of fault.now) }
{
    match fault {
        RedefFault::Leaf { id } => redefine_line_of(alloc, b"Leaf", id.as_slice()),
        RedefFault::Cycle { id } => redefine_line_of(alloc, b"Cycle", id.as_slice()),
        RedefFault::Twice { id } => redefine_line_of(alloc, b"Twice", id.as_slice()),
        RedefFault::NotInherited { id } => redefine_line_of(alloc, b"NotInherited", id.as_slice()),
        RedefFault::ChangedSource { id } => {
            redefine_line_of(alloc, b"ChangedSource", id.as_slice())
        }
        RedefFault::ChangedTriggers { id } => {
            redefine_line_of(alloc, b"ChangedTriggers", id.as_slice())
        }
        RedefFault::NoMemory => Err(NoMemory),
    }
}

// The line on a rule of redefinition, with the id of the machine or the element that breaks it.
fn redefine_line_of(alloc: Global, word: &[u8], id: &[u8]) -> Result<Text, NoMemory>
    ensures { IfOk result (λ text. text ≡ redefine_line word.now id.now) }
{
    let mut text = b"redefine ".to_vec(alloc)?;
    text.extend_from_slice(word)?;
    text.push(b' ')?;
    text.extend_from_slice(id)?;
    text.push(b'\n')?;
    Ok(Text::from_vec(text))
}

/// The line on the text of the behaviour or guard with the id.
pub fn act_text(alloc: Global, id: &[u8], fault: ActFault) -> Result<Text, NoMemory>
    ensures { IfOk result (λ text. text ≡ act_text_of id.now fault) }
{
    let mut text = b"act ".to_vec(alloc)?;
    text.extend_from_slice(id)?;
    text.push(b' ')?;
    text.extend_from_slice(act_name(fault).as_bytes())?;
    text.extend_from_slice(b" byte ")?;
    put_number(alloc, &mut text, u64::from(act_byte(fault)))?;
    text.push(b'\n')?;
    Ok(Text::from_vec(text))
}

/// The line on the machine of the class with this name, which lacks the shape of one.
pub fn shape_text(alloc: Global, class: &[u8], shape: Shape) -> Result<Text, NoMemory>
    ensures { IfOk result (λ text. text ≡ shape_text_of class.now shape) }
{
    let mut text = b"shape ".to_vec(alloc)?;
    text.extend_from_slice(class)?;
    text.push(b' ')?;
    text.extend_from_slice(shape_name(shape).as_bytes())?;
    text.push(b'\n')?;
    Ok(Text::from_vec(text))
}
