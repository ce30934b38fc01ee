//! `System`: a setting and the journal of an admissible run of it.
ghost use Rattle.std.specs.Prelude.{◌≡◌, ◌<◌, ◌↔◌, ◌++◌, ◌∷◌, [], length, slice_get, IsTrue, IfOk, IfNone, IfSome, OnOk, OnErr, Some};
ghost use Rattle.std.specs.List.{AllByRecursion};

use crate::follower::Follower;
use pssm_semantics::{Args, Entry, ObjectId, Rule, Setting, Task, Worked};
use std::alloc::{AllocError as NoMemory, Global};
use std::marker::Model;

/// A setting and the journal of an admissible run of it (UML 2.5.1, 14.2.3.9, run to completion).
///
/// A clause sees these two, and the ready tasks in the order in which they are listed. Beside them
/// it keeps where each object stands and which signals wait for it. So judging an entry and
/// appending one take the same time however long the journal is and however many other objects
/// there are, but for a take, which asks once for each kind of the deferred signals in front
/// of the one that it takes.
#[derive(Drop)]
pub struct System {
    follower: Follower,
    entries: Vec<Entry>,
}

impl Model for System {
    ghost use Rattle.pssm_semantics.specs.contracts.tree.Stmt as stmt;
    ghost use Rattle.pssm_semantics.specs.contracts.tree.Cond as cond;
    ghost use Rattle.pssm_semantics.specs.contracts.tree.Expr as expr;
    ghost use Rattle.std.specs.Coded.{codes};
    ghost use Rattle.std.specs.Prelude.{◌≡◌};
    ghost use Rattle.pssm_system.specs.History.{History};

    ghost Value = { History };

    ghost coded = { Prim.hlevel (codes, stmt.the_row.coded, cond.the_row.coded, expr.the_row.coded) };

    ghost view = { λ s. s.follower };

    ghost invariant = { λ s. s.entries.items ≡ s.follower.journal };
}

impl System {
    ghost use Rattle.pssm_semantics.specs.Settings.{class_of};
    ghost use Rattle.pssm_semantics.specs.Journal.{IsPost};
    ghost use Rattle.pssm_semantics.specs.Pool.{told_by};
    ghost use Rattle.pssm_semantics.specs.Behaviours.{store_of, params_of};
    ghost use Rattle.pssm_semantics.specs.Proper.{IsWellFormed};
    ghost use Rattle.pssm_semantics.specs.Rules.{Holds};
    ghost use Rattle.pssm_semantics.specs.Admissible.{MayFollow, IsAdmissibleIn, IsQuiet, KeepsJournalLimits};
    ghost use Rattle.pssm_semantics.specs.Laws.{CompletesInTime, KeepsTakes, KeepsRegions};
    ghost use Rattle.pssm_semantics.specs.Verdict.{IsFirstBroken};
    ghost use Rattle.pssm_semantics.specs.declared.entry.Rule.TheVariants.{A1};
    ghost use Rattle.pssm_semantics.specs.declared.setting.Class.{Class};
    ghost use Rattle.pssm_object.specs.Following.{IsMove};
    ghost use Rattle.pssm_semantics.specs.Forms.{IsRunEntry};
    ghost use Rattle.pssm_system.specs.Tasks.{IsReadyOf, AreReady, AreReadyFor, own_tasks, HasNoMove, HasNoMoveOf, IsQuietOf};
    ghost use Rattle.pssm_system.specs.Works.{HasMade};

    /// A system with no entry yet.
    ///
    /// `NoMemory`: memory ran out; the setting is dropped.
    pub fn new(alloc: Global, setting: Setting) -> Result<System, NoMemory>
        requires { IsWellFormed setting }
        ensures setting { IfOk result (λ system. system.setting ≡ setting) }
        ensures start { IfOk result (λ system. system.journal ≡ []) }
    {
        Ok(System {
            follower: Follower::new(alloc, setting)?,
            entries: Vec::new(alloc),
        })
    }

    /// The setting, which is proper and whose machines break no rule of models.
    pub fn setting(&self) -> &Setting
        ensures setting { result.now ≡ self.now.setting }
        ensures well_formed { IsWellFormed self.now.setting }
    {
        self.follower.setting()
    }

    /// The entries of the journal, in order: those of an admissible run.
    ///
    /// There are at most 1,000,000 of them, with at most 2,000,000 posts, sends and marks. The open
    /// steps can be finished by further entries: for each of these objects at most two for each
    /// vertex of its machine, one for each region and one for each transition (UML 2.5.1, 14.2.3.9,
    /// run to completion; the limits and the bound are this profile's choice).
    pub fn entries(&self) -> &[Entry]
        ensures journal { result.now ≡ self.now.journal }
        ensures admissible { IsAdmissibleIn self.now.setting self.now.journal }
        ensures limits { KeepsJournalLimits self.now.journal }
        ensures entries { AllByRecursion IsRunEntry self.now.journal }
        ensures completes { CompletesInTime self.now.setting self.now.journal }
        ensures laws { KeepsTakes self.now.setting self.now.journal
            × KeepsRegions self.now.setting self.now.journal }
    {
        let _told = self.follower.len();
        self.entries.as_slice()
    }

    /// The first rule that the entry breaks after the journal, if it breaks one (the list of rules
    /// is this profile's choice).
    ///
    /// What the entry names is known (A1). `NoMemory`: memory ran out.
    pub fn allows(&self, entry: &Entry) -> Result<Option<Rule>, NoMemory>
        requires names { Holds self.now.setting A1 self.now.journal entry.now }
        ensures keeps { IfOk result (λ rule. IfNone rule (MayFollow self.now.setting self.now.journal entry.now)) }
        ensures breaks { IfOk result (λ rule. IfSome rule
            (λ broken. IsFirstBroken (Holds self.now.setting) self.now.journal entry.now broken)) }
    {
        self.follower.allows(entry)
    }

    /// Appends an entry that breaks no rule after the journal, and keeps it within the limits (the
    /// rules and the limits are this profile's choice).
    ///
    /// `NoMemory`: memory ran out; the system is as before, and the entry is dropped.
    pub fn apply(&mut self, entry: Entry) -> Result<(), NoMemory>
        requires follows { MayFollow self.old.setting self.old.journal entry }
        requires limits { KeepsJournalLimits (self.old.journal ++ entry ∷ []) }
        ensures setting { self.new.setting ≡ self.old.setting }
        ensures ok { OnOk result (self.new.journal ≡ self.old.journal ++ entry ∷ []) }
        ensures err { OnErr result (self.new ≡ self.old) }
    {
        self.entries.reserve(1)?;
        self.follower.apply(&entry)?;
        self.entries.push_reserved(entry);
        Ok(())
    }

    /// Appends an entry that breaks no rule after the journal, and keeps it within the limits, where
    /// the behaviour of the entry was run elsewhere and made the same: it is not run again (UML
    /// 2.5.1, 13.2.3, executions of behaviours; the rules and the limits are this profile's choice).
    ///
    /// `NoMemory`: memory ran out; the system is as before, and the entry is dropped.
    pub fn settle(&mut self, entry: Entry, worked: &Worked) -> Result<(), NoMemory>
        requires follows { MayFollow self.old.setting self.old.journal entry }
        requires limits { KeepsJournalLimits (self.old.journal ++ entry ∷ []) }
        requires works { HasMade self.old.setting self.old.journal entry worked.now }
        ensures setting { self.new.setting ≡ self.old.setting }
        ensures ok { OnOk result (self.new.journal ≡ self.old.journal ++ entry ∷ []) }
        ensures err { OnErr result (self.new ≡ self.old) }
    {
        self.entries.reserve(1)?;
        self.follower.settle(&entry, worked)?;
        self.entries.push_reserved(entry);
        Ok(())
    }

    /// Whether no entry but a post may follow (UML 2.5.1, 14.2.3.9, run to completion).
    pub fn quiet(&self) -> bool
        ensures { IsTrue result ↔ IsQuiet self.now.setting self.now.journal }
    {
        self.follower.quiet()
    }

    /// Whether no entry of the object but a post may follow (UML 2.5.1, 14.2.3.9, run to completion). It takes no
    /// memory.
    pub fn quiet_of(&self, object: ObjectId) -> bool
        requires { object.0 < length self.now.setting.objects }
        ensures { IsTrue result ↔ IsQuietOf self.now.setting self.now.journal object }
    {
        self.follower.quiet_of(object)
    }

    /// An entry other than a post that breaks no rule after the journal, or none where there is
    /// none (UML 2.5.1, 14.2.3.9, run to completion).
    ///
    /// Of the objects, of the ready tasks, openings and picks of an object with their ways, and of several
    /// sets of routes that may fire, the word picks one; which one is not promised. `NoMemory`: memory ran out.
    pub fn choose(&self, word: u64) -> Result<Option<Entry>, NoMemory>
        ensures chosen { IfOk result (λ o. IfSome o
            (λ e. (IsPost e → ⊥) × MayFollow self.now.setting self.now.journal e)) }
        ensures none { IfOk result (λ o. IfNone o (IsQuiet self.now.setting self.now.journal)) }
    {
        self.follower.choose(word)
    }

    /// A start, take, dispatch of a completion, opening or pick that breaks no rule after the
    /// journal, or none where there is none (UML 2.5.1, 14.2.3.9, run to completion).
    ///
    /// Of several the word picks one; which one is not promised. `NoMemory`: memory ran out.
    pub fn choose_move(&self, word: u64) -> Result<Option<Entry>, NoMemory>
        ensures chosen { IfOk result (λ o. IfSome o
            (λ e. IsMove e × MayFollow self.now.setting self.now.journal e)) }
        ensures none { IfOk result (λ o. IfNone o (HasNoMove self.now.setting self.now.journal)) }
    {
        self.follower.choose_move(word)
    }

    /// A start, take, dispatch of a completion, opening or pick of the object that breaks no rule
    /// after the journal, or none where there is none (UML 2.5.1, 14.2.3.9, run to completion).
    ///
    /// Of several the word picks one; which one is not promised. `NoMemory`: memory ran out.
    pub fn choose_move_of(&self, object: ObjectId, word: u64) -> Result<Option<Entry>, NoMemory>
        requires { object.0 < length self.now.setting.objects }
        ensures chosen { IfOk result (λ o. IfSome o
            (λ e. IsMove e × MayFollow self.now.setting self.now.journal e)) }
        ensures none { IfOk result (λ o. IfNone o
            (HasNoMoveOf self.now.setting self.now.journal object)) }
    {
        self.follower.choose_move_of(object, word)
    }

    /// How many tasks of all objects are ready: exits, effects and entries whose turn has come, and the next
    /// do steps of active States; none of an object that has ended (UML 2.5.1, 14.2.3.9 and 14.2.3.4).
    pub fn task_count(&self) -> u32
        ensures count { result ≡ length self.now.tasks }
        ensures listed { AreReady self.now.setting self.now.journal self.now.tasks }
    {
        self.follower.task_count()
    }

    /// The ready task with a number, in the order of the objects, with the object that it is of
    /// (this order is this profile's choice).
    pub fn task_at(&self, i: u32) -> (ObjectId, Task)
        requires { i < length self.now.tasks }
        ensures { slice_get self.now.tasks i ≡ Some result }
    {
        self.follower.task_at(i)
    }

    /// Whether a task of an object is ready: an exit, effect or entry whose turn has come, or the next do step of an
    /// active State; none of an object that has ended, and none that the setting does not have (UML 2.5.1, 14.2.3.9
    /// and 14.2.3.4). It takes no memory.
    pub fn is_ready(&self, object: ObjectId, task: Task) -> bool
        ensures { IsTrue result ↔ IsReadyOf self.now.setting self.now.journal object task }
    {
        self.follower.is_ready(object, task)
    }

    /// How many tasks of an object are ready; none where there is no such object (UML 2.5.1, 14.2.3.9 and 14.2.3.4).
    pub fn task_count_of(&self, object: ObjectId) -> u32
        ensures count { result ≡ length (own_tasks object self.now.tasks) }
        ensures listed { AreReadyFor self.now.setting self.now.journal object (own_tasks object self.now.tasks) }
    {
        self.follower.task_count_of(object)
    }

    /// The ready task of an object with a number: the exits, effects and entries first, and then the
    /// do steps (this order is this profile's choice).
    pub fn task_of(&self, object: ObjectId, i: u32) -> Task
        requires { i < length (own_tasks object self.now.tasks) }
        ensures { slice_get (own_tasks object self.now.tasks) i ≡ Some result }
    {
        self.follower.task_of(object, i)
    }

    /// The ready task of an object with a number, in the same order; none where there are no more than that.
    pub fn find_task_of(&self, object: ObjectId, i: u32) -> Option<Task>
        ensures task { result ≡ slice_get (own_tasks object self.now.tasks) i }
        ensures few { length (own_tasks object self.now.tasks) < 4294967296 }
        ensures listed { AreReadyFor self.now.setting self.now.journal object (own_tasks object self.now.tasks) }
    {
        self.follower.find_task_of(object, i)
    }

    /// The values of the object's variables, as they are now (UML 2.5.1, 9.5.3, properties).
    pub fn store(&self, object: ObjectId) -> &[i64]
        requires { object.0 < length self.now.setting.objects }
        ensures { (class : Class) → class_of self.now.setting object ≡ Some class
            → result.now ≡ store_of class (told_by self.now.journal) self.now.journal object }
    {
        self.follower.store(object)
    }

    /// The parameters of the object's step, eight numbers, as they are now (UML 2.5.1, 13.3.3, the
    /// data of a signal event).
    pub fn params(&self, object: ObjectId) -> &Args
        requires { object.0 < length self.now.setting.objects }
        ensures { result.now ≡ params_of (told_by self.now.journal) self.now.journal object }
    {
        self.follower.params(object)
    }
}
