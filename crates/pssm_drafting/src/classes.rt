//! The active classes of a draft, and their variables.
ghost use Rattle.std.specs.Prelude.{◌≡◌, ◌<◌, ◌++◌, ◌∷◌, [], cond, length, map, IfOk, IfSome};
ghost use Rattle.std.specs.List.{All};
ghost use Rattle.std.specs.Option.{option_map_or};
ghost use Rattle.pssm_numbering.specs.Numbering.{children_with, is_attribute, machines as machines_in, classes as classes_in, place_in};
ghost use Rattle.pssm_numbering.specs.Meanings.{is_variable as variable, variables, behaviour_of as machine_of};
ghost use Rattle.pssm_drafting.specs.Drafts as drafts;
ghost use Rattle.pssm_drafting.specs.Fitting.{FitsDraft, HasIntegerFirst, HasIntegerFirsts};

use crate::places::machine_count;
use pssm_model::{DraftClass, DraftVar, Row, Text};
use pssm_numbering::{File, Kind, Numbering, behaviour_of, children_of_kind, is_variable};
use pssm_parts::first_value;
use pssm_values::clean_name;
use std::alloc::{AllocError as NoMemory, Global};

// A variable with its first value.
fn variable_at(alloc: Global, file: &File, n: u32) -> Result<DraftVar, NoMemory>
    requires within { n < length file.now.doc }
    requires integer { HasIntegerFirst file.now n }
    ensures { IfOk result (λ v. v ≡ drafts.variable_at file.now n) }
{
    Ok(DraftVar {
        name: Text::from_vec(file.value_or_empty(n, b"name").to_vec(alloc)?),
        first: first_value(file, n),
    })
}

// Adds the element, where it is a variable.
fn with_variable(list: Vec<u32>, file: &File, n: u32) -> Result<Vec<u32>, NoMemory>
    requires { n < length file.now.doc }
    ensures { IfOk result (λ more. more.items ≡ list.items ++ cond (variable file.now n) (n ∷ []) []) }
{
    let mut more = list;
    if is_variable(file, n) {
        more.push(n)?;
    }
    Ok(more)
}

// The attributes of a class.
#[tactic(auto, using(crate::proofs::ListLaws::children_within))]
fn attributes_of(alloc: Global, file: &File, c: u32) -> Result<Vec<u32>, NoMemory>
    requires { c < length file.now.doc }
    ensures list { IfOk result (λ list. list.items ≡ children_with is_attribute file.now c) }
    ensures within { IfOk result (λ list. All (λ n. n < length file.now.doc) list.items) }
{
    children_of_kind(alloc, file, c, Kind::Attribute)
}

// The elements that are variables of a class.
#[tactic(auto, using(std::proofs::lemmas::List::Elements::filter_more))]
fn variable_places(alloc: Global, file: &File, c: u32) -> Result<Vec<u32>, NoMemory>
    requires { c < length file.now.doc }
    ensures { IfOk result (λ list. list.items ≡ variables file.now c) }
{
    let attributes = attributes_of(alloc, file, c)?;
    let mut list = Vec::new(alloc);
    for n in attributes.as_slice() {
        list = with_variable(list, file, *n)?;
    }
    Ok(list)
}

// The same, and that each is one of the file.
#[tactic(auto, using(crate::proofs::ListLaws::variables_within))]
fn known_variables(alloc: Global, file: &File, c: u32) -> Result<Vec<u32>, NoMemory>
    requires { c < length file.now.doc }
    ensures list { IfOk result (λ list. list.items ≡ variables file.now c) }
    ensures within { IfOk result (λ list. All (λ n. n < length file.now.doc) list.items) }
{
    variable_places(alloc, file, c)
}

/// The variables of a class (this profile's choice).
pub fn variables_of(alloc: Global, file: &File, c: u32) -> Result<Row<DraftVar>, NoMemory>
    requires within { c < length file.now.doc }
    requires integers { HasIntegerFirsts file.now c }
    ensures { IfOk result (λ row. row ≡ map (drafts.variable_at file.now) (variables file.now c)) }
{
    let list = known_variables(alloc, file, c)?;
    let mut row = Row::from_vec(Vec::new(alloc));
    for n in list.as_slice() {
        row.push(variable_at(alloc, file, *n)?)?;
    }
    Ok(row)
}

// The place of the machine of a class; past the end of the machines where it has none.
fn machine_place(alloc: Global, file: &File, numbering: &Numbering, c: u32) -> Result<u32, NoMemory>
    requires same { numbering.now ≡ file.now }
    requires within { c < length file.now.doc }
    ensures { IfOk result (λ k. k
        ≡ option_map_or (place_in (machines_in file.now)) (machine_of file.now c) (length (machines_in file.now))) }
{
    match behaviour_of(alloc, file, c)? {
        None => Ok(machine_count(file, numbering)),
        Some(machine) => Ok(numbering.machine_place(machine)),
    }
}

/// An active class with its variables and its machine (UML 2.5.1, 11.8.3, Class).
pub fn class_at(
    alloc: Global,
    file: &File,
    numbering: &Numbering,
    c: u32,
) -> Result<DraftClass, NoMemory>
    requires same { numbering.now ≡ file.now }
    requires within { c < length file.now.doc }
    requires integers { HasIntegerFirsts file.now c }
    ensures { IfOk result (λ class. class ≡ drafts.class_at file.now c) }
{
    Ok(DraftClass {
        name: clean_name(alloc, file.value_or_empty(c, b"name"))?,
        vars: variables_of(alloc, file, c)?,
        machine: machine_place(alloc, file, numbering, c)?,
    })
}

/// The active classes of a file.
pub fn classes_of(
    alloc: Global,
    file: &File,
    numbering: &Numbering,
) -> Result<Row<DraftClass>, NoMemory>
    requires same { numbering.now ≡ file.now }
    requires fits { FitsDraft file.now }
    ensures { IfOk result (λ row. row ≡ map (drafts.class_at file.now) (classes_in file.now)) }
{
    let mut row = Row::from_vec(Vec::new(alloc));
    for c in numbering.classes() {
        row.push(class_at(alloc, file, numbering, *c)?)?;
    }
    Ok(row)
}
