//! How the texts of behaviours and guards are read.
ghost use Rattle.std.specs.Prelude.{◌≡◌, ◌≤◌, List, ℕ, length, All, IfOk, IfErr, Ok, Err, true, false};
ghost use Rattle.pssm_acts.specs.declared.act_fault.ActFault.TheVariants.{NoMemory};
ghost use Rattle.pssm_acts.specs.ActGrammar.{SpellsAct, SpellsSteps};
ghost use Rattle.pssm_acts.specs.inner.ActReading.{act_reading, acts_reading, steps_reading, text_acts};
ghost use Rattle.pssm_acts.specs.ActText.{act_text, cond_text};
ghost use Rattle.pssm_acts.specs.Answers.{Answers, AnswersWith, Faults, listed};
ghost use Rattle.pssm_acts.specs.Canonical.{IsCanonicalAct, IsCanonicalCond};
ghost use Rattle.pssm_acts.specs.inner.GuardReading.{cond_reading, text_reading};
ghost use Rattle.pssm_semantics.specs.Fits.{ActFits, CondFits};
ghost use Rattle.pssm_acts.specs.Grammar.{Either, SpellsCond};
ghost use Rattle.pssm_acts.specs.Marks.{KeepsMarks};
ghost use Rattle.pssm_acts.specs.OneReading.{HasOneReading};
ghost use Rattle.pssm_acts.specs.Shapes.{GuardShape, StmtsShape, StepsShape};
ghost use Rattle.pssm_acts.specs.TextFaults.{TextFault};
ghost use Rattle.pssm_acts.specs.Vocabularies.{vocabulary};

use crate::act_fault::ActFault;
use crate::acts_reader::{LEVELS, ReadActs, acts_end, acts_next, new_acts};
use crate::guard_reader::{guard_end, guard_next, new_guard};
use crate::index::Index;
use crate::known::Known;
use crate::marks::Marks;
use crate::read_blocks::with_step;
use crate::tokens::Tokens;
use pssm_model::{Row, Text};
use pssm_semantics::{Act, Cond, Names};
use std::alloc::Global;
use std::mem;

// The greatest length of a text, in bytes (this profile's choice).
const TEXT_LEN: usize = 4096;

// The guard that the tokens of a text spell.
fn cond_of(alloc: Global, text: &[u8], names: &Known<'_>) -> Result<Cond, ActFault>
    requires few { length names.now.vars ≤ 65536 }
    requires short { length text.now ≤ 4096 }
    ensures { Answers (text_reading names.now text.now) result }
{
    let mut tokens = Tokens::of(text);
    let mut reader = new_guard(alloc);
    while let Some(piece) = tokens.next() {
        reader = guard_next(alloc, reader, piece, names, LEVELS)?;
    }
    guard_end(alloc, reader, text.len() as u32)
}

// The guard that a text spells.
#[tactic(auto, unfolding(crate::specs::inner::GuardReading::cond_reading))]
fn guard_of(alloc: Global, text: &[u8], names: &Known<'_>) -> Result<Cond, ActFault>
    requires few { length names.now.vars ≤ 65536 }
    ensures { Answers (cond_reading names.now text.now) result }
{
    if text.len() > TEXT_LEN {
        return Err(ActFault::TooLong { at: 0 });
    }
    cond_of(alloc, text, names)
}

/// The guard that a text spells; otherwise the first fault in reading order.
pub fn read_cond_known(alloc: Global, text: &[u8], names: &Known<'_>) -> Result<Cond, ActFault>
    requires few { length names.now.vars ≤ 65536 }
    ensures spelled { IfOk result (λ cond. SpellsCond names.now text.now cond) }
    ensures known { (cond : Cond) → SpellsCond names.now text.now cond → Answers (Ok cond) result }
    ensures fits { IfOk result (λ cond. CondFits (length names.now.vars) cond) }
    ensures fault { IfErr result
        (λ fault. Faults (TextFault (GuardShape Either) names.now text.now) fault) }
    ensures first { (fault : ActFault)
        → TextFault (GuardShape Either) names.now text.now fault
        → Answers (Err fault) result }
    ensures canonical { IsCanonicalCond names.now text.now
        → IfErr result (λ fault. fault ≡ NoMemory) }
    ensures unchanged { IsCanonicalCond names.now text.now
        → IfOk result (λ cond. cond_text names.now cond ≡ text.now) }
{
    guard_of(alloc, text, names)
}

/// The guard that a text spells; otherwise the first fault in reading order.
///
/// As `read_cond_known`, where each name is sought among those of its list.
pub fn read_cond(alloc: Global, text: &[u8], names: &Names) -> Result<Cond, ActFault>
    requires few { length names.now.vars ≤ 65536 }
    ensures spelled { IfOk result (λ cond. SpellsCond names.now text.now cond) }
    ensures known { (cond : Cond) → SpellsCond names.now text.now cond → Answers (Ok cond) result }
    ensures fits { IfOk result (λ cond. CondFits (length names.now.vars) cond) }
    ensures fault { IfErr result
        (λ fault. Faults (TextFault (GuardShape Either) names.now text.now) fault) }
    ensures first { (fault : ActFault)
        → TextFault (GuardShape Either) names.now text.now fault
        → Answers (Err fault) result }
    ensures canonical { IsCanonicalCond names.now text.now
        → IfErr result (λ fault. fault ≡ NoMemory) }
    ensures unchanged { IsCanonicalCond names.now text.now
        → IfOk result (λ cond. cond_text names.now cond ≡ text.now) }
{
    let none = Index::none();
    read_cond_known(alloc, text, &Known::of(names, &none, &none, &none))
}

// The behaviours that the tokens of a text spell: one, or several where they are steps.
fn acts_of(
    alloc: Global,
    text: &[u8],
    names: &Known<'_>,
    marks: &mut Marks,
    stepped: bool,
) -> Result<ReadActs, ActFault>
    requires few { length names.now.vars ≤ 65536 }
    requires objects { length names.now.objects ≤ 256 }
    requires signals { length names.now.signals ≤ 65536 }
    requires marks { length marks.old ≤ 32768 }
    requires short { length text.now ≤ 4096 }
    ensures gives { AnswersWith
        (text_acts names.now stepped marks.old text.now) result marks.new }
    ensures kept { KeepsMarks marks.old marks.new }
{
    let mut tokens = Tokens::of(text);
    let mut reader = new_acts(alloc);
    while let Some(piece) = tokens.next() {
        reader = acts_next(alloc, reader, piece, names, marks, stepped)?;
    }
    acts_end(alloc, reader, text.len() as u32)
}

// The behaviours that a text of at most 4,096 bytes spells.
#[tactic(auto, unfolding(crate::specs::inner::ActReading::acts_reading))]
fn acts_in(
    alloc: Global,
    text: &[u8],
    names: &Known<'_>,
    marks: &mut Marks,
    stepped: bool,
) -> Result<ReadActs, ActFault>
    requires few { length names.now.vars ≤ 65536 }
    requires objects { length names.now.objects ≤ 256 }
    requires signals { length names.now.signals ≤ 65536 }
    requires marks { length marks.old ≤ 32768 }
    ensures gives { AnswersWith
        (acts_reading names.now stepped marks.old text.now) result marks.new }
    ensures kept { KeepsMarks marks.old marks.new }
{
    if text.len() > TEXT_LEN {
        return Err(ActFault::TooLong { at: 0 });
    }
    acts_of(alloc, text, names, marks, stepped)
}

// The behaviour that a text spells.
#[tactic(auto, unfolding(crate::specs::inner::ActReading::act_reading))]
fn act_in(alloc: Global, text: &[u8], names: &Known<'_>, marks: &mut Marks) -> Result<Act, ActFault>
    requires few { length names.now.vars ≤ 65536 }
    requires objects { length names.now.objects ≤ 256 }
    requires signals { length names.now.signals ≤ 65536 }
    requires marks { length marks.old ≤ 32768 }
    ensures gives { AnswersWith
        (act_reading names.now marks.old text.now) result marks.new }
    ensures kept { KeepsMarks marks.old marks.new }
{
    let ReadActs { earlier: _, last } = acts_in(alloc, text, names, marks, false)?;
    Ok(last)
}

// The steps that a text spells.
#[tactic(auto, unfolding(crate::specs::inner::ActReading::steps_reading))]
fn steps_in(
    alloc: Global,
    text: &[u8],
    names: &Known<'_>,
    marks: &mut Marks,
) -> Result<Row<Act>, ActFault>
    requires few { length names.now.vars ≤ 65536 }
    requires objects { length names.now.objects ≤ 256 }
    requires signals { length names.now.signals ≤ 65536 }
    requires marks { length marks.old ≤ 32768 }
    ensures gives { AnswersWith
        (steps_reading names.now marks.old text.now) result marks.new }
    ensures kept { KeepsMarks marks.old marks.new }
{
    let ReadActs { earlier, last } = acts_in(alloc, text, names, marks, true)?;
    Ok(with_step(earlier, last)?)
}

/// The behaviour that a text spells; otherwise the first fault in reading order.
///
/// A mark has the number of its name in `marks`; a name that is new is added behind them. A refusal
/// leaves them as they were.
pub fn read_act_noting(
    alloc: Global,
    text: &[u8],
    names: &Known<'_>,
    marks: &mut Marks,
) -> Result<Act, ActFault>
    requires few { length names.now.vars ≤ 65536 }
    requires objects { length names.now.objects ≤ 256 }
    requires signals { length names.now.signals ≤ 65536 }
    requires marks { length marks.old ≤ 32768 }
    ensures spelled { IfOk result
        (λ act. SpellsAct names.now marks.old text.now act marks.new) }
    ensures known { (act : Act) (noted : List (List ℕ))
        → SpellsAct names.now marks.old text.now act noted
        → AnswersWith (Ok (act, noted)) result marks.new }
    ensures fits { IfOk result (λ act. ActFits (vocabulary names.now marks.new) act) }
    ensures fault { IfErr result
        (λ fault. Faults (TextFault StmtsShape names.now text.now) fault) }
    ensures first { (fault : ActFault)
        → TextFault StmtsShape names.now text.now fault → Answers (Err fault) result }
    ensures refused { IfErr result (λ _. marks.new ≡ marks.old) }
    ensures kept { KeepsMarks marks.old marks.new }
    ensures canonical { IsCanonicalAct names.now text.now
        → IfErr result (λ fault. fault ≡ NoMemory) }
    ensures unchanged { IsCanonicalAct names.now text.now
        → IfOk result (λ act. act_text names.now marks.new act ≡ text.now) }
{
    let known = marks.len();
    match act_in(alloc, text, names, marks) {
        Ok(act) => Ok(act),
        Err(fault) => {
            marks.truncate(known);
            Err(fault)
        }
    }
}

/// The steps that a text spells, separated by `step;`; otherwise the first fault in reading order.
///
/// A mark has the number of its name in `marks`; a name that is new is added behind them. A refusal
/// leaves them as they were.
pub fn read_steps_noting(
    alloc: Global,
    text: &[u8],
    names: &Known<'_>,
    marks: &mut Marks,
) -> Result<Vec<Act>, ActFault>
    requires few { length names.now.vars ≤ 65536 }
    requires objects { length names.now.objects ≤ 256 }
    requires signals { length names.now.signals ≤ 65536 }
    requires marks { length marks.old ≤ 32768 }
    ensures spelled { IfOk result
        (λ steps. SpellsSteps names.now marks.old text.now steps.items marks.new) }
    ensures known { (steps : List Act) (noted : List (List ℕ))
        → SpellsSteps names.now marks.old text.now steps noted
        → AnswersWith (Ok (steps, noted)) (listed result) marks.new }
    ensures fits { IfOk result
        (λ steps. All (ActFits (vocabulary names.now marks.new)) steps.items) }
    ensures fault { IfErr result
        (λ fault. Faults (TextFault StepsShape names.now text.now) fault) }
    ensures first { (fault : ActFault)
        → TextFault StepsShape names.now text.now fault → Answers (Err fault) result }
    ensures refused { IfErr result (λ _. marks.new ≡ marks.old) }
    ensures kept { KeepsMarks marks.old marks.new }
{
    let known = marks.len();
    match steps_in(alloc, text, names, marks) {
        Ok(steps) => Ok(steps.into_vec()),
        Err(fault) => {
            marks.truncate(known);
            Err(fault)
        }
    }
}

/// The behaviour that a text spells; otherwise the first fault in reading order.
///
/// As `read_act_noting`, where each name is sought among those of its list.
pub fn read_act(
    alloc: Global,
    text: &[u8],
    names: &Names,
    marks: &mut Vec<Text>,
) -> Result<Act, ActFault>
    requires few { length names.now.vars ≤ 65536 }
    requires objects { length names.now.objects ≤ 256 }
    requires signals { length names.now.signals ≤ 65536 }
    requires marks { length marks.old.items ≤ 32768 }
    ensures spelled { IfOk result
        (λ act. SpellsAct names.now marks.old.items text.now act marks.new.items) }
    ensures known { (act : Act) (noted : List (List ℕ))
        → SpellsAct names.now marks.old.items text.now act noted
        → AnswersWith (Ok (act, noted)) result marks.new.items }
    ensures fits { IfOk result (λ act. ActFits (vocabulary names.now marks.new.items) act) }
    ensures fault { IfErr result
        (λ fault. Faults (TextFault StmtsShape names.now text.now) fault) }
    ensures first { (fault : ActFault)
        → TextFault StmtsShape names.now text.now fault → Answers (Err fault) result }
    ensures refused { IfErr result (λ _. marks.new.items ≡ marks.old.items) }
    ensures kept { KeepsMarks marks.old.items marks.new.items }
    ensures canonical { IsCanonicalAct names.now text.now
        → IfErr result (λ fault. fault ≡ NoMemory) }
    ensures unchanged { IsCanonicalAct names.now text.now
        → IfOk result (λ act. act_text names.now marks.new.items act ≡ text.now) }
{
    let none = Index::none();
    let known = Known::of(names, &none, &none, &none);
    let mut noted = Marks::listed(mem::replace(marks, Vec::new(alloc)));
    let read = read_act_noting(alloc, text, &known, &mut noted);
    *marks = noted.into_vec();
    read
}

/// The steps that a text spells, separated by `step;`; otherwise the first fault in reading order.
///
/// As `read_steps_noting`, where each name is sought among those of its list.
pub fn read_steps(
    alloc: Global,
    text: &[u8],
    names: &Names,
    marks: &mut Vec<Text>,
) -> Result<Vec<Act>, ActFault>
    requires few { length names.now.vars ≤ 65536 }
    requires objects { length names.now.objects ≤ 256 }
    requires signals { length names.now.signals ≤ 65536 }
    requires marks { length marks.old.items ≤ 32768 }
    ensures spelled { IfOk result
        (λ steps. SpellsSteps names.now marks.old.items text.now steps.items marks.new.items) }
    ensures known { (steps : List Act) (noted : List (List ℕ))
        → SpellsSteps names.now marks.old.items text.now steps noted
        → AnswersWith (Ok (steps, noted)) (listed result) marks.new.items }
    ensures fits { IfOk result
        (λ steps. All (ActFits (vocabulary names.now marks.new.items)) steps.items) }
    ensures fault { IfErr result
        (λ fault. Faults (TextFault StepsShape names.now text.now) fault) }
    ensures first { (fault : ActFault)
        → TextFault StepsShape names.now text.now fault → Answers (Err fault) result }
    ensures refused { IfErr result (λ _. marks.new.items ≡ marks.old.items) }
    ensures kept { KeepsMarks marks.old.items marks.new.items }
{
    let none = Index::none();
    let known = Known::of(names, &none, &none, &none);
    let mut noted = Marks::listed(mem::replace(marks, Vec::new(alloc)));
    let read = read_steps_noting(alloc, text, &known, &mut noted);
    *marks = noted.into_vec();
    read
}

/// Each text spells one guard, one behaviour or one list of steps, with the marks that there are,
/// or it has one fault: always one of them, and never both.
pub fn one_reading()
    ensures guard { (names : Names) (text : List ℕ)
        → HasOneReading (λ (cond : Cond). SpellsCond names text cond)
        (λ fault. TextFault (GuardShape Either) names text fault) }
    ensures behaviour { (names : Names) (marks : List (List ℕ)) (text : List ℕ)
        → HasOneReading
        (λ (read : Act × List (List ℕ)). SpellsAct names marks text read.0 read.1)
        (λ fault. TextFault StmtsShape names text fault) }
    ensures steps { (names : Names) (marks : List (List ℕ)) (text : List ℕ)
        → HasOneReading
        (λ (read : List Act × List (List ℕ)). SpellsSteps names marks text read.0 read.1)
        (λ fault. TextFault StepsShape names text fault) }
{}
