//! What is marked by vertex, once for all rules, and the rule E18. Each walk passes a vertex once,
//! however many paths lead to it.
ghost use Rattle.std.specs.Prelude.{◌≡◌, ◌↔◌, ◌<◌, true, false, length, slice_index_or, IfOk, IsTrue};
ghost use Rattle.pssm_model.specs.Shapes.{HasShape};
ghost use Rattle.pssm_model.specs.WellFormed.{MayFindNoBranch};
ghost use Rattle.pssm_wellformed.specs.inner.Strays.{IsReachedLate, AreVertexMarks};

use crate::cycles::cyclic_marks;
use crate::elements::has_kind;
use crate::ends::End;
use crate::marks::stray_marks;
use crate::questions::{Question, holds_at};
use crate::reach::walk_from;
use crate::stamps::apart_marks;
use crate::walks::{Walk, arrows_of, late_targets};
use pssm_model::{Machine, VertexId, VertexKind};
use std::alloc::{AllocError as NoMemory, Global};
use std::marker::Model;

/// By level the marks of the walks that may stray, a mark for each vertex that an initial, history
/// or choice vertex reaches through pseudostates, for each on a cycle of them, and for each whose
/// sources or targets lie in different regions of a State around it.
#[derive(Drop)]
pub struct VertexMarks {
    pub junctions: Vec<Vec<bool>>,
    pub inner: Vec<Vec<bool>>,
    pub back: Vec<Vec<bool>>,
    pub late: Vec<bool>,
    pub cyclic: Vec<bool>,
    pub sources_apart: Vec<bool>,
    pub targets_apart: Vec<bool>,
}

/// A mark for each vertex that an initial, history or choice vertex reaches through pseudostates.
fn late_marks(alloc: Global, machine: &Machine) -> Result<Vec<bool>, NoMemory>
    requires { HasShape machine.now }
    ensures width { IfOk result (λ marks. length marks.items ≡ length machine.now.vertices) }
    ensures marks { IfOk result
        (λ marks. (v : VertexId) → (slice_index_or marks.items v.0 false ≡ true)
        ↔ IsReachedLate machine.now v) }
{
    let through = arrows_of(alloc, machine, Walk::Through)?;
    let first = late_targets(alloc, machine)?;
    walk_from(alloc, through.as_slice(), first.as_slice())
}

impl VertexMarks {
    /// The marks of a machine.
    pub fn of(alloc: Global, machine: &Machine) -> Result<VertexMarks, NoMemory>
        requires { HasShape machine.now }
        ensures { IfOk result (λ marks. AreVertexMarks machine.now marks) }
    {
        Ok(VertexMarks {
            junctions: stray_marks(alloc, machine, Walk::Junctions)?,
            inner: stray_marks(alloc, machine, Walk::Inner)?,
            back: stray_marks(alloc, machine, Walk::Back)?,
            late: late_marks(alloc, machine)?,
            cyclic: cyclic_marks(alloc, machine)?,
            sources_apart: apart_marks(alloc, machine, End::Target, End::Source)?,
            targets_apart: apart_marks(alloc, machine, End::Source, End::Target)?,
        })
    }
}

/// A machine with its marks, as the rules of paths ask. A clause sees the machine.
#[derive(Drop)]
pub struct Marked<'a> {
    pub machine: &'a Machine,
    pub marks: VertexMarks,
}

impl<'a> Model for Marked<'a> {
    ghost use Rattle.pssm_model.specs.declared.elements.DraftMachine.{DraftMachine};
    ghost use Rattle.pssm_wellformed.specs.inner.Strays.{AreVertexMarks};

    ghost Value = { DraftMachine };

    ghost view = { λ m. m.machine.now };

    ghost invariant = { λ m. AreVertexMarks m.machine.now m.marks };
}

impl<'a> Marked<'a> {
    /// Marks a machine.
    pub fn new(alloc: Global, machine: &'a Machine) -> Result<Marked<'a>, NoMemory>
        requires { HasShape machine.now }
        ensures { IfOk result (λ marked. marked ≡ machine.now) }
    {
        let marks = VertexMarks::of(alloc, machine)?;
        Ok(Marked { machine, marks })
    }
}

/// Whether an initial, history or choice vertex reaches the vertex through pseudostates.
fn is_reached_late(marked: &Marked, vertex: VertexId) -> bool
    requires there { vertex.0 < length marked.now.vertices }
    ensures { IsTrue result ↔ IsReachedLate marked.now vertex }
{
    marked.marks.late[vertex.0 as usize]
}

/// E18: whether it is a choice, or a junction that an initial, history or choice vertex reaches
/// through pseudostates, and has neither `else` nor a branch without guard.
pub fn may_find_no_branch(marked: &Marked, vertex: VertexId) -> bool
    requires there { vertex.0 < length marked.now.vertices }
    ensures { IsTrue result ↔ MayFindNoBranch marked.now vertex }
{
    !holds_at(marked.machine, vertex, End::Source, Question::IsFallback)
        && (has_kind(marked.machine, vertex, VertexKind::Choice)
            || (has_kind(marked.machine, vertex, VertexKind::Junction)
                && is_reached_late(marked, vertex)))
}
