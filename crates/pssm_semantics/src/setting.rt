//! Settings: the signals, classes and objects of a model.
ghost use Rattle.std.specs.Prelude.{◌≡◌, IfOk};

use crate::entry::Out;
use crate::tree::{Act, Cond};
use pssm_model::{Duplicate, Machine, Row, Text};
use std::alloc::{AllocError as NoMemory, Global};

/// A signal and how many parameters it has, 0 to 8 (UML 2.5.1, 10.3.3).
#[derive(PartialEq, Eq, Drop)]
pub struct SignalDecl {
    pub name: Text,
    pub count: u8,
}

/// A variable of a class and its first value (UML 2.5.1, 9.5.3, default values).
#[derive(PartialEq, Eq, Drop)]
pub struct VarDecl {
    pub name: Text,
    pub first: i64,
}

/// An object and the number of its class.
#[derive(PartialEq, Eq, Drop)]
pub struct ObjectDecl {
    pub name: Text,
    pub class: u8,
}

/// The names that a behaviour may use.
#[derive(PartialEq, Eq, Drop)]
pub struct Names {
    pub vars: Row<Text>,
    pub objects: Row<Text>,
    pub signals: Row<SignalDecl>,
}

/// The behaviours, guards and marks of a class, by number. Behaviour 0 is the empty one.
#[derive(PartialEq, Eq, Drop)]
pub struct Program {
    pub acts: Row<Act>,
    pub guards: Row<Cond>,
    pub marks: Row<Text>,
}

/// An active class: its variables, its machine and its behaviours (UML 2.5.1, 11.4, active classes).
#[derive(PartialEq, Eq, Drop)]
pub struct Class {
    pub name: Text,
    pub vars: Row<VarDecl>,
    pub machine: Machine,
    pub program: Program,
}

impl Class {
    /// A second value, equal to this one.
    pub fn copy(&self, alloc: Global) -> Result<Class, NoMemory>
        ensures { IfOk result (λ other. other ≡ self.now) }
    {
        self.duplicate(alloc)
    }
}

/// All that a run needs: signals, classes and objects.
#[derive(PartialEq, Eq, Drop)]
pub struct Setting {
    pub signals: Row<SignalDecl>,
    pub classes: Row<Class>,
    pub objects: Row<ObjectDecl>,
}

impl Setting {
    /// A second value, equal to this one.
    pub fn copy(&self, alloc: Global) -> Result<Setting, NoMemory>
        ensures { IfOk result (λ other. other ≡ self.now) }
    {
        self.duplicate(alloc)
    }
}

/// What a behaviour makes: the values of the variables after it, and its outputs in order.
#[derive(PartialEq, Eq, Drop)]
pub struct Outcome {
    pub store: Row<i64>,
    pub outs: Row<Out>,
}
