//! `Classes`: the machine of each class of a file, and the variables of the file.
ghost use Rattle.std.specs.Prelude.{◌≡◌, ◌<◌, ◌≤◌, ◌+◌, length, IfOk, true};
ghost use Rattle.pssm_limits.specs.inner.Variables.{HoldClasses, AreVariables, machine_at, is_in_marked, belongs};
ghost use Rattle.pssm_limits.specs.inner.Variables.{machines_at};
ghost use Rattle.pssm_numbering.specs.Numbering.{role_at, is_class};

use crate::counts::machine_count;
use crate::ways::is_marked;
use pssm_numbering::{File, Kind, Numbering, behaviour_of, is_of, is_variable};
use std::alloc::{AllocError as NoMemory, Global};

// The place of the machine of each class, and all variables.
#[derive(Drop)]
pub(crate) struct Classes {
    pub(crate) machines: Vec<u32>,
    pub(crate) variables: Vec<u32>,
}

/// The place of the machine of a class; past the end of the machines where it has none.
pub(crate) fn machine_of_class(
    alloc: Global,
    file: &File,
    numbering: &Numbering,
    c: u32,
) -> Result<u32, NoMemory>
    requires same { numbering.now ≡ file.now }
    requires within { c < length file.now.doc }
    ensures { IfOk result (λ k. k ≡ machine_at file.now c) }
{
    match behaviour_of(alloc, file, c)? {
        None => Ok(machine_count(file, numbering)),
        Some(m) => Ok(numbering.machine_place(m)),
    }
}

// The places of the machines of all classes.
fn machines_of(alloc: Global, file: &File, numbering: &Numbering) -> Result<Vec<u32>, NoMemory>
    requires { numbering.now ≡ file.now }
    ensures { IfOk result (λ machines. machines.items ≡ machines_at file.now) }
{
    let mut machines = Vec::new(alloc);
    for c in numbering.classes() {
        machines.push(machine_of_class(alloc, file, numbering, *c)?)?;
    }
    Ok(machines)
}

// Adds the next element, where it is a variable.
#[tactic(auto, using(crate::proofs::ClassLaws::variable_taken, crate::proofs::ClassLaws::variable_passed))]
fn with_next(variables: Vec<u32>, file: &File, n: u32) -> Result<Vec<u32>, NoMemory>
    requires within { n < length file.now.doc }
    requires so_far { AreVariables file.now n variables.items }
    ensures { IfOk result (λ more. AreVariables file.now (n + 1) more.items) }
{
    if !is_variable(file, n) {
        return Ok(variables);
    }
    let mut more = variables;
    more.push(n)?;
    Ok(more)
}

// All variables of the file.
#[tactic(auto, using(crate::proofs::ClassLaws::variables_start))]
fn variables_of(alloc: Global, file: &File) -> Result<Vec<u32>, NoMemory>
    ensures { IfOk result (λ variables. AreVariables file.now (length file.now.doc) variables.items) }
{
    let mut variables = Vec::new(alloc);
    for n in 0..file.len() {
        variables = with_next(variables, file, n)?;
    }
    Ok(variables)
}

impl Classes {
    /// The classes of a file.
    pub(crate) fn of(alloc: Global, file: &File, numbering: &Numbering) -> Result<Self, NoMemory>
        requires { numbering.now ≡ file.now }
        ensures { IfOk result (λ classes. HoldClasses file.now classes) }
    {
        Ok(Classes {
            machines: machines_of(alloc, file, numbering)?,
            variables: variables_of(alloc, file)?,
        })
    }

    // The place of the machine of a class, as it is held.
    #[tactic(auto, using(crate::proofs::ClassLaws::held_there))]
    fn machine_held(&self, file: &File, numbering: &Numbering, p: u32) -> u32
        requires same { numbering.now ≡ file.now }
        requires machines { HoldClasses file.now self.now }
        requires within { p < length file.now.doc }
        requires class { is_class (role_at file.now p) ≡ true }
        ensures { result ≡ machine_at file.now p }
    {
        self.machines[numbering.class_place(p) as usize]
    }

    // Whether the element is a class whose machine is marked.
    fn is_in_marked(&self, file: &File, numbering: &Numbering, marks: &[bool], p: u32) -> bool
        requires same { numbering.now ≡ file.now }
        requires machines { HoldClasses file.now self.now }
        requires within { p < length file.now.doc }
        ensures { result ≡ is_in_marked file.now marks.now p }
    {
        is_of(Kind::Class, file.role(p)) && is_marked(marks, self.machine_held(file, numbering, p))
    }

    /// Whether the element stands in this class, or in one whose machine is marked.
    pub(crate) fn belongs(
        &self,
        file: &File,
        numbering: &Numbering,
        marks: &[bool],
        c: u32,
        n: u32,
    ) -> bool
        requires same { numbering.now ≡ file.now }
        requires classes { HoldClasses file.now self.now }
        requires within { n < length file.now.doc }
        ensures { result ≡ belongs file.now marks.now c n }
    {
        match file.parent(n) {
            None => false,
            Some(p) => p == c || self.is_in_marked(file, numbering, marks, p),
        }
    }
}
