//! `Follower`: a setting, and what is kept of the journal of an admissible run of it beside its entries.
ghost use Rattle.std.specs.Prelude.{◌≡◌, ◌<◌, ◌↔◌, ◌++◌, ◌∷◌, [], length, slice_get, IsTrue, IfOk, IfNone, IfSome, OnOk, OnErr, Some};
ghost use Rattle.std.specs.List.{AllByRecursion};

use crate::choosing::Wanted;
use crate::situation::Situation;
use pssm_semantics::{Args, Entry, ObjectId, Rule, Setting, Task, Worked};
use std::alloc::{AllocError as NoMemory, Global};
use std::marker::Model;
use std::snapshot::Snapshot;

/// An entry of the journal: it is only for clauses and takes no memory.
#[derive(Drop)]
struct Told {
    entry: Snapshot<Entry>,
}

/// A setting and the journal of an admissible run of it, whose entries are not kept (UML 2.5.1,
/// 14.2.3.9, run to completion).
///
/// A clause sees these two, and the ready tasks in the order in which they are listed. What is kept
/// is where each object stands and which signals wait for it. So judging an entry and going on by
/// one take the same time however long the journal is and however many other objects there are, but
/// for a take, which asks once for each kind of the deferred signals in front of the one that it
/// takes: those with the same arguments are of one kind, and at most 32 kinds are known again. Who
/// wants the entries themselves takes a [`System`].
///
/// [`System`]: crate::System
#[derive(Drop)]
pub struct Follower {
    alloc: Global,
    setting: Setting,
    told: Vec<Told>,
    situation: Situation,
}

impl Model for Follower {
    ghost use Rattle.pssm_semantics.specs.contracts.tree.Stmt as stmt;
    ghost use Rattle.pssm_semantics.specs.contracts.tree.Cond as cond;
    ghost use Rattle.pssm_semantics.specs.contracts.tree.Expr as expr;
    ghost use Rattle.std.specs.Coded.{codes};
    ghost use Rattle.pssm_system.specs.History.{History};

    ghost Value = { History };

    ghost coded = { Prim.hlevel (codes, stmt.the_row.coded, cond.the_row.coded, expr.the_row.coded) };

    ghost use Rattle.pssm_system.specs.inner.Keeping.{KeepsRun, tasks_of};
    ghost use Rattle.pssm_system.specs.inner.Telling.{entries_of};

    ghost view = { λ s. record { setting = s.setting; journal = entries_of s.told.items; tasks = tasks_of s.setting s.situation.objects.items } };

    ghost invariant = { λ s. KeepsRun s.setting (entries_of s.told.items) s.situation };
}

impl Follower {
    ghost use Rattle.pssm_semantics.specs.Settings.{class_of};
    ghost use Rattle.pssm_semantics.specs.Journal.{IsPost};
    ghost use Rattle.pssm_semantics.specs.Pool.{told_by};
    ghost use Rattle.pssm_semantics.specs.Behaviours.{store_of, params_of};
    ghost use Rattle.pssm_semantics.specs.Proper.{IsWellFormed};
    ghost use Rattle.pssm_semantics.specs.Rules.{Holds};
    ghost use Rattle.pssm_semantics.specs.Admissible.{MayFollow, IsAdmissibleIn, IsQuiet, KeepsJournalLimits};
    ghost use Rattle.pssm_semantics.specs.Laws.{CompletesInTime, KeepsTakes, KeepsRegions};
    ghost use Rattle.pssm_semantics.specs.Verdict.{IsFirstBroken};
    ghost use Rattle.pssm_semantics.specs.declared.entry.Rule.TheVariants.{A1};
    ghost use Rattle.pssm_semantics.specs.declared.setting.Class.{Class};
    ghost use Rattle.pssm_object.specs.Following.{IsMove};
    ghost use Rattle.pssm_semantics.specs.Forms.{IsRunEntry};
    ghost use Rattle.pssm_system.specs.Tasks.{IsReadyOf, AreReady, AreReadyFor, own_tasks, HasNoMove, HasNoMoveOf, IsQuietOf};
    ghost use Rattle.pssm_system.specs.Works.{HasMade};

    /// A follower of a journal with no entry yet.
    ///
    /// `NoMemory`: memory ran out; the setting is dropped.
    pub fn new(alloc: Global, setting: Setting) -> Result<Follower, NoMemory>
        requires { IsWellFormed setting }
        ensures setting { IfOk result (λ follower. follower.setting ≡ setting) }
        ensures start { IfOk result (λ follower. follower.journal ≡ []) }
    {
        let situation = Situation::new(alloc, &setting)?;
        Ok(Follower {
            alloc,
            setting,
            told: Vec::new(alloc),
            situation,
        })
    }

    /// The setting, which is proper and whose machines break no rule of models.
    #[inline(always)]
    pub fn setting(&self) -> &Setting
        ensures setting { result.now ≡ self.now.setting }
        ensures well_formed { IsWellFormed self.now.setting }
    {
        &self.setting
    }

    /// How many entries the journal has: they are those of an admissible run.
    ///
    /// There are at most 1,000,000 of them, with at most 2,000,000 posts, sends and marks. The open
    /// steps can be finished by further entries: for each of these objects at most two for each
    /// vertex of its machine, one for each region and one for each transition (UML 2.5.1, 14.2.3.9,
    /// run to completion; the limits and the bound are this profile's choice).
    #[inline(always)]
    pub fn len(&self) -> usize
        ensures count { result ≡ length self.now.journal }
        ensures admissible { IsAdmissibleIn self.now.setting self.now.journal }
        ensures limits { KeepsJournalLimits self.now.journal }
        ensures entries { AllByRecursion IsRunEntry self.now.journal }
        ensures completes { CompletesInTime self.now.setting self.now.journal }
        ensures laws { KeepsTakes self.now.setting self.now.journal
            × KeepsRegions self.now.setting self.now.journal }
    {
        self.told.len()
    }

    /// The first rule that the entry breaks after the journal, if it breaks one (the list of rules
    /// is this profile's choice).
    ///
    /// What the entry names is known (A1). `NoMemory`: memory ran out.
    #[inline(always)]
    pub fn allows(&self, entry: &Entry) -> Result<Option<Rule>, NoMemory>
        requires names { Holds self.now.setting A1 self.now.journal entry.now }
        ensures keeps { IfOk result (λ rule. IfNone rule (MayFollow self.now.setting self.now.journal entry.now)) }
        ensures breaks { IfOk result (λ rule. IfSome rule
            (λ broken. IsFirstBroken (Holds self.now.setting) self.now.journal entry.now broken)) }
    {
        self.situation.judge(&self.setting, entry)
    }

    /// Goes on by an entry that breaks no rule after the journal, and keeps it within the limits
    /// (the rules and the limits are this profile's choice).
    ///
    /// `NoMemory`: memory ran out; the follower is as before.
    #[inline(always)]
    pub fn apply(&mut self, entry: &Entry) -> Result<(), NoMemory>
        requires follows { MayFollow self.old.setting self.old.journal entry.now }
        requires limits { KeepsJournalLimits (self.old.journal ++ entry.now ∷ []) }
        ensures setting { self.new.setting ≡ self.old.setting }
        ensures ok { OnOk result (self.new.journal ≡ self.old.journal ++ entry.now ∷ []) }
        ensures err { OnErr result (self.new ≡ self.old) }
    {
        self.told.reserve(1)?;
        self.situation.apply(self.alloc, &self.setting, entry)?;
        self.told.push_reserved(Told {
            entry: Snapshot::of(entry),
        });
        Ok(())
    }

    /// Goes on by an entry that breaks no rule after the journal, and keeps it within the limits, where
    /// the behaviour of the entry was run elsewhere and made the same: it is not run again (UML
    /// 2.5.1, 13.2.3, executions of behaviours; the rules and the limits are this profile's choice).
    ///
    /// `NoMemory`: memory ran out; the follower is as before.
    pub fn settle(&mut self, entry: &Entry, worked: &Worked) -> Result<(), NoMemory>
        requires follows { MayFollow self.old.setting self.old.journal entry.now }
        requires limits { KeepsJournalLimits (self.old.journal ++ entry.now ∷ []) }
        requires works { HasMade self.old.setting self.old.journal entry.now worked.now }
        ensures setting { self.new.setting ≡ self.old.setting }
        ensures ok { OnOk result (self.new.journal ≡ self.old.journal ++ entry.now ∷ []) }
        ensures err { OnErr result (self.new ≡ self.old) }
    {
        self.told.reserve(1)?;
        let store = worked.outcome().store.as_slice();
        self.situation
            .settle(self.alloc, &self.setting, entry, store)?;
        self.told.push_reserved(Told {
            entry: Snapshot::of(entry),
        });
        Ok(())
    }

    /// Whether no entry but a post may follow (UML 2.5.1, 14.2.3.9, run to completion).
    pub fn quiet(&self) -> bool
        ensures { IsTrue result ↔ IsQuiet self.now.setting self.now.journal }
    {
        self.situation.is_quiet(&self.setting)
    }

    /// Whether no entry of the object but a post may follow (UML 2.5.1, 14.2.3.9, run to completion). It takes no
    /// memory.
    pub fn quiet_of(&self, object: ObjectId) -> bool
        requires { object.0 < length self.now.setting.objects }
        ensures { IsTrue result ↔ IsQuietOf self.now.setting self.now.journal object }
    {
        self.situation.is_quiet_of(&self.setting, object)
    }

    /// An entry other than a post that breaks no rule after the journal, or none where there is
    /// none (UML 2.5.1, 14.2.3.9, run to completion).
    ///
    /// Of the objects, of the ready tasks, openings and picks of an object with their ways, and of several
    /// sets of routes that may fire, the word picks one; which one is not promised. `NoMemory`: memory ran out.
    pub fn choose(&self, word: u64) -> Result<Option<Entry>, NoMemory>
        ensures chosen { IfOk result (λ o. IfSome o
            (λ e. (IsPost e → ⊥) × MayFollow self.now.setting self.now.journal e)) }
        ensures none { IfOk result (λ o. IfNone o (IsQuiet self.now.setting self.now.journal)) }
    {
        self.situation
            .choose(self.alloc, &self.setting, Wanted::AnyEntry, word)
    }

    /// A start, take, dispatch of a completion, opening or pick that breaks no rule after the
    /// journal, or none where there is none (UML 2.5.1, 14.2.3.9, run to completion).
    ///
    /// Of several the word picks one; which one is not promised. `NoMemory`: memory ran out.
    pub fn choose_move(&self, word: u64) -> Result<Option<Entry>, NoMemory>
        ensures chosen { IfOk result (λ o. IfSome o
            (λ e. IsMove e × MayFollow self.now.setting self.now.journal e)) }
        ensures none { IfOk result (λ o. IfNone o (HasNoMove self.now.setting self.now.journal)) }
    {
        self.situation
            .choose(self.alloc, &self.setting, Wanted::Move, word)
    }

    /// The same of one object.
    pub fn choose_move_of(&self, object: ObjectId, word: u64) -> Result<Option<Entry>, NoMemory>
        requires { object.0 < length self.now.setting.objects }
        ensures chosen { IfOk result (λ o. IfSome o
            (λ e. IsMove e × MayFollow self.now.setting self.now.journal e)) }
        ensures none { IfOk result (λ o. IfNone o
            (HasNoMoveOf self.now.setting self.now.journal object)) }
    {
        self.situation
            .choose_of(self.alloc, &self.setting, object, Wanted::Move, word)
    }

    /// How many tasks of all objects are ready: exits, effects and entries whose turn has come, and the next
    /// do steps of active States; none of an object that has ended (UML 2.5.1, 14.2.3.9 and 14.2.3.4).
    pub fn task_count(&self) -> u32
        ensures count { result ≡ length self.now.tasks }
        ensures listed { AreReady self.now.setting self.now.journal self.now.tasks }
    {
        self.situation.task_count(&self.setting)
    }

    /// The ready task with a number, in the order of the objects, with the object that it is of
    /// (this order is this profile's choice).
    pub fn task_at(&self, i: u32) -> (ObjectId, Task)
        requires { i < length self.now.tasks }
        ensures { slice_get self.now.tasks i ≡ Some result }
    {
        self.situation.task_at(&self.setting, i)
    }

    /// Whether a task of an object is ready: an exit, effect or entry whose turn has come, or the next do step of an
    /// active State; none of an object that has ended, and none that the setting does not have (UML 2.5.1, 14.2.3.9
    /// and 14.2.3.4). It takes no memory.
    pub fn is_ready(&self, object: ObjectId, task: Task) -> bool
        ensures { IsTrue result ↔ IsReadyOf self.now.setting self.now.journal object task }
    {
        self.situation.is_ready(&self.setting, object, task)
    }

    /// How many tasks of an object are ready; none where there is no such object (UML 2.5.1, 14.2.3.9 and 14.2.3.4).
    pub fn task_count_of(&self, object: ObjectId) -> u32
        ensures count { result ≡ length (own_tasks object self.now.tasks) }
        ensures listed { AreReadyFor self.now.setting self.now.journal object (own_tasks object self.now.tasks) }
    {
        self.situation.task_count_of(&self.setting, object)
    }

    /// The ready task of an object with a number: the exits, effects and entries first, and then the
    /// do steps (this order is this profile's choice).
    pub fn task_of(&self, object: ObjectId, i: u32) -> Task
        requires { i < length (own_tasks object self.now.tasks) }
        ensures { slice_get (own_tasks object self.now.tasks) i ≡ Some result }
    {
        self.situation.task_of(&self.setting, object, i)
    }

    /// The ready task of an object with a number, in the same order; none where there are no more than that.
    pub fn find_task_of(&self, object: ObjectId, i: u32) -> Option<Task>
        ensures task { result ≡ slice_get (own_tasks object self.now.tasks) i }
        ensures few { length (own_tasks object self.now.tasks) < 4294967296 }
        ensures listed { AreReadyFor self.now.setting self.now.journal object (own_tasks object self.now.tasks) }
    {
        self.situation.find_task_of(&self.setting, object, i)
    }

    /// The values of the object's variables, as they are now (UML 2.5.1, 9.5.3, properties).
    pub fn store(&self, object: ObjectId) -> &[i64]
        requires { object.0 < length self.now.setting.objects }
        ensures { (class : Class) → class_of self.now.setting object ≡ Some class
            → result.now ≡ store_of class (told_by self.now.journal) self.now.journal object }
    {
        self.situation.objects[usize::from(object.0)].store()
    }

    /// The parameters of the object's step, eight numbers, as they are now (UML 2.5.1, 13.3.3, the
    /// data of a signal event).
    pub fn params(&self, object: ObjectId) -> &Args
        requires { object.0 < length self.now.setting.objects }
        ensures { result.now ≡ params_of (told_by self.now.journal) self.now.journal object }
    {
        self.situation.objects[usize::from(object.0)].params()
    }
}
