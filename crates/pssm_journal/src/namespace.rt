//! `Namespace`: what the names of a setting stand for.
ghost use Rattle.std.specs.Prelude.{◌≡◌, map, IfOk};
ghost use Rattle.pssm_journal.specs.inner.Places.{HoldsMarks};

use crate::names::{Names, mark_id, object_id, signal_id};
use crate::places::{place_of, places_of};
use indexmap::IndexMap;
use pssm_model::{MarkId, SignalId};
use pssm_semantics::{Class, ObjectDecl, ObjectId, Setting};
use pssm_spelling::KeptName;
use std::alloc::{AllocError as NoMemory, Global};
use std::marker::Model;
use std::snapshot::Snapshot;

/// What the names of a setting's objects, signals and marks stand for (UML 2.5.1, 7.4.3, namespaces).
///
/// It is made once of a setting, which clauses see. A look-up compares a name with few others: with all of them where
/// there are at most four, and otherwise with those that its hash leads to. It takes no memory.
#[derive(Drop)]
pub struct Namespace {
    setting: Snapshot<Setting>,
    objects: IndexMap<KeptName, usize>,
    signals: IndexMap<KeptName, usize>,
    // the class of each object
    classes: Vec<u8>,
    // the marks of each class
    marks: Vec<IndexMap<KeptName, usize>>,
}

impl Model for Namespace {
    ghost use Rattle.pssm_semantics.specs.contracts.tree.Stmt as stmt;
    ghost use Rattle.pssm_semantics.specs.contracts.tree.Cond as cond;
    ghost use Rattle.pssm_semantics.specs.contracts.tree.Expr as expr;
    ghost use Rattle.std.specs.Coded.{codes};
    ghost use Rattle.std.specs.Prelude.{◌≡◌, map};
    ghost use Rattle.pssm_semantics.specs.declared.setting.Setting.{Setting};
    ghost use Rattle.pssm_journal.specs.inner.Places.{HoldsPlaces, HoldsMarks};

    ghost Value = { Setting };

    ghost coded = { Prim.hlevel (codes, stmt.the_row.coded, cond.the_row.coded, expr.the_row.coded) };

    ghost view = { λ n. n.setting.value };

    ghost invariant = { λ n. HoldsPlaces (λ d. d.name) n.setting.value.objects n.objects
        × HoldsPlaces (λ d. d.name) n.setting.value.signals n.signals
        × (n.classes.items ≡ map (λ d. d.class) n.setting.value.objects)
        × HoldsMarks n.setting.value.classes n.marks.items };
}

impl Namespace {
    /// The namespace of a setting.
    ///
    /// `NoMemory`: memory ran out.
    pub fn new(alloc: Global, setting: &Setting) -> Result<Namespace, NoMemory>
        ensures { IfOk result (λ namespace. namespace ≡ setting.now) }
    {
        let objects = places_of(alloc, setting.objects.as_slice())?;
        let signals = places_of(alloc, setting.signals.as_slice())?;
        let classes = classes_of(alloc, setting.objects.as_slice())?;
        let marks = marks_of(alloc, setting.classes.as_slice())?;
        Ok(Namespace {
            setting: Snapshot::of(setting),
            objects,
            signals,
            classes,
            marks,
        })
    }
}

// The class of each object.
fn classes_of(alloc: Global, objects: &[ObjectDecl]) -> Result<Vec<u8>, NoMemory>
    ensures { IfOk result (λ v. v.items ≡ map (λ d. d.class) objects.now) }
{
    objects.iter().map(|d| d.class).collect(alloc)
}

// The places of the marks of each class.
fn marks_of(alloc: Global, classes: &[Class]) -> Result<Vec<IndexMap<KeptName, usize>>, NoMemory>
    ensures { IfOk result (λ v. HoldsMarks classes.now v.items) }
{
    let mut marks = Vec::with_capacity(alloc, classes.len())?;
    for class in classes {
        marks.push(places_of(alloc, class.program.marks.as_slice())?)?;
    }
    Ok(marks)
}

impl Names for Namespace {
    ghost setting = { λ n. n };

    #[tactic(auto, unfolding(crate::specs::Entries::object_named))]
    fn object(&self, name: &[u8]) -> Option<ObjectId> {
        object_id(place_of(&self.objects, name)?)
    }

    #[tactic(auto, unfolding(crate::specs::Entries::signal_named))]
    fn signal(&self, name: &[u8]) -> Option<SignalId> {
        signal_id(place_of(&self.signals, name)?)
    }

    #[tactic(auto, unfolding(crate::specs::Entries::own_mark_named, crate::specs::Entries::mark_named))]
    fn mark(&self, own: ObjectId, name: &[u8]) -> Option<MarkId> {
        let class = *self.classes.as_slice().get(own.0 as usize)?;
        let marks = self.marks.as_slice().get(class as usize)?;
        mark_id(place_of(marks, name)?)
    }
}
