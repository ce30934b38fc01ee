//! What is wrong with a model, as the lines that the program writes.
ghost use Rattle.std.specs.Prelude.{◌≡◌, ◌++◌, IfOk, OnOk, codes, string_bytes};
ghost use Rattle.std.specs.List.{flat_map};
ghost use Rattle.std.specs.Fmt.{decimal};
ghost use Rattle.pssm_tool.specs.Refusals.{element_text, place_text, rule_text, fault_line};
ghost use Rattle.pssm_tool.specs.Refusals.{load_fault_text};

use crate::answer::bytes_of;
use crate::fault_words::{act_byte, act_name, shape_name};
use crate::file_refusal::{act_text, redefine_text, shape_text, xmi_text};
use pssm_flat::FlatFault;
use pssm_load::{ClassFault, LoadFault};
use pssm_model::{Element, FaultPlace, Text};
use pssm_spelling::put_number;
use std::alloc::{AllocError as NoMemory, Global};

/// The lines on a fault. Want of memory has no line.
pub fn fault_text(alloc: Global, fault: &LoadFault) -> Result<Text, NoMemory>
    ensures { IfOk result (λ text. text ≡ load_fault_text fault.now) }
{
    match fault {
        LoadFault::Flat(flat) => flat_fault_text(alloc, *flat),
        LoadFault::Xmi(file) => xmi_text(alloc, file),
        LoadFault::Redef(fault) => redefine_text(alloc, fault),
        LoadFault::Act { id, fault } => act_text(alloc, id.as_slice(), *fault),
        LoadFault::Shape { class, shape } => shape_text(alloc, class.as_slice(), *shape),
        LoadFault::Faults { list } => list_text(alloc, list.as_slice()),
        LoadFault::NoMemory => Err(NoMemory),
    }
}

// The line on a fault of a flat text.
fn flat_fault_text(alloc: Global, fault: FlatFault) -> Result<Text, NoMemory>
    ensures { IfOk result (λ text. text ≡ load_fault_text (LoadFault.Flat fault)) }
{
    match fault {
        FlatFault::BadLine { line } => Ok(bytes_of(bad_line(alloc, line)?)),
        FlatFault::Shape { line, shape } => Ok(bytes_of(shape_line(
            alloc,
            line,
            shape_name(shape),
        )?)),
        FlatFault::Act { line, fault } => Ok(bytes_of(act_line(
            alloc,
            line,
            act_name(fault),
            act_byte(fault),
        )?)),
        FlatFault::NoMemory => Err(NoMemory),
    }
}

// The line on a line that cannot stand where it does.
fn bad_line(alloc: Global, line: u32) -> Result<String, NoMemory>
    ensures { IfOk result (λ text. string_bytes text ≡ codes "flat line " ++ decimal line ++ codes " bad line\n") }
{
    format!(in alloc; "flat line {line} bad line\n")
}

// The line on a machine that has no shape of one.
fn shape_line(alloc: Global, line: u32, shape: &str) -> Result<String, NoMemory>
    ensures { IfOk result (λ text. string_bytes text
        ≡ codes "flat line " ++ decimal line ++ codes " shape " ++ shape.now ++ codes "\n") }
{
    format!(in alloc; "flat line {line} shape {shape}\n")
}

// The line on an action text.
fn act_line(alloc: Global, line: u32, fault: &str, byte: u32) -> Result<String, NoMemory>
    ensures { IfOk result (λ text. string_bytes text ≡ codes "flat line " ++ decimal line ++ codes " act "
        ++ fault.now ++ codes " byte " ++ decimal byte ++ codes "\n") }
{
    format!(in alloc; "flat line {line} act {fault} byte {byte}\n")
}

// A line for each fault.
fn list_text(alloc: Global, faults: &[ClassFault]) -> Result<Text, NoMemory>
    ensures { IfOk result (λ text. text ≡ flat_map fault_line faults.now) }
{
    let mut text = Vec::new(alloc);
    for fault in faults {
        put_fault(alloc, &mut text, fault)?;
    }
    Ok(Text::from_vec(text))
}

// Writes the line on a fault.
fn put_fault(alloc: Global, text: &mut Vec<u8>, fault: &ClassFault) -> Result<(), NoMemory>
    ensures { OnOk result (text.new.items ≡ text.old.items ++ fault_line fault.now) }
{
    put_rule(alloc, text, fault.fault.rule)?;
    text.push(b' ')?;
    text.extend_from_slice(fault.class.as_slice())?;
    text.push(b' ')?;
    put_place(alloc, text, fault.fault.element)?;
    text.extend_from_slice(b"\n")
}

// Writes the name of a rule.
fn put_rule(alloc: Global, text: &mut Vec<u8>, rule: u8) -> Result<(), NoMemory>
    ensures { OnOk result (text.new.items ≡ text.old.items ++ rule_text rule) }
{
    text.extend_from_slice(if rule < 10 {
        b"E0".as_slice()
    } else {
        b"E".as_slice()
    })?;
    put_number(alloc, text, u64::from(rule))
}

// Writes a place of a machine.
fn put_place(alloc: Global, text: &mut Vec<u8>, place: FaultPlace) -> Result<(), NoMemory>
    ensures { OnOk result (text.new.items ≡ text.old.items ++ place_text place) }
{
    match place {
        FaultPlace::Top => text.extend_from_slice(b"top"),
        FaultPlace::At(element) => put_element(alloc, text, element),
    }
}

// Writes an element: a letter and its number.
fn put_element(alloc: Global, text: &mut Vec<u8>, element: Element) -> Result<(), NoMemory>
    ensures { OnOk result (text.new.items ≡ text.old.items ++ element_text element) }
{
    match element {
        Element::Region(region) => {
            text.push(b'r')?;
            put_number(alloc, text, u64::from(region.0))
        }
        Element::Vertex(vertex) => {
            text.push(b'v')?;
            put_number(alloc, text, u64::from(vertex.0))
        }
        Element::Transition(transition) => {
            text.push(b't')?;
            put_number(alloc, text, u64::from(transition.0))
        }
    }
}
