//! `Object`: where one object of a run stands.
ghost use Rattle.std.specs.Prelude.{◌≡◌, ◌<◌, ◌++◌, ◌∷◌, [], List, length, slice_get, Some, None, IfOk, IfNone, IfSome, OnOk, OnErr, MatchBool, Option, Contains, map};
ghost use Rattle.std.specs.Option.{option_copied};
ghost use Rattle.pssm_semantics.specs.declared.entry.Entry.{Entry as AnEntry};
ghost use Rattle.pssm_semantics.specs.declared.setting.Class.{Class as AClass};
ghost use Rattle.pssm_semantics.specs.Values.{no_params};
ghost use Rattle.pssm_semantics.specs.Journal.{object_of};
ghost use Rattle.pssm_semantics.specs.Classes.{IsWellFormedClass};

use crate::doing::doers_of;
use crate::queue::Queue;
use crate::situation::Situation;
use pssm_config::Config;
use pssm_model::VertexId;
use pssm_pool::Waiting;
use pssm_semantics::{Args, Class, Entry, ObjectId, Rule, Task, VarDecl};
use std::alloc::{AllocError as NoMemory, Global};
use std::marker::Model;

/// One object of a run, of a class that is handed in at each call (UML 2.5.1, 14.2.3.9, run to
/// completion).
///
/// A clause sees where the object stands: which one it is, its configuration, the plan of its last step, the
/// values of its variables, the parameters of its step, its completion queue, whether it has ended and below which
/// number the vertices with do steps are. It keeps no entries: `StandsAfter` says after which journals it stands so, and what a call promises it promises for each of these.
#[derive(Drop)]
pub struct Object {
    alloc: Global,
    situation: Situation,
}

impl Model for Object {
    ghost use Rattle.pssm_object.specs.Standing.{Standing};
    ghost use Rattle.pssm_object.specs.inner.Situations.{standing_of};

    ghost Value = { Standing };

    ghost view = { λ o. standing_of o.situation };
}

impl Object {
    ghost use Rattle.pssm_pool.specs.declared.pools.Waiting.{Waiting as Signal};
    ghost use Rattle.pssm_object.specs.Standing.{StandsAfter, Stands};
    ghost use Rattle.pssm_object.specs.Following.{NamesPlaces, IsCandidate, IsMove, IsQuiet, HasNext, IsHandedIn, CanCome, MayCome, BreaksFirst, HasNoMove, Brings, Defers, TellsEnd, TellsWait, TellsCompletion, TellsReady, made_by};
    ghost use Rattle.pssm_object.specs.Tasks.{ready_tasks, AreReadyTasks, Does};

    /// An object of the class before its start, with the first values of the class's variables (UML
    /// 2.5.1, 9.5.3, default values).
    ///
    /// `NoMemory`: memory ran out.
    pub fn new(alloc: Global, own: ObjectId, class: &Class) -> Result<Object, NoMemory>
        ensures own { IfOk result (λ object. object.own ≡ own) }
        ensures start { IfOk result (StandsAfter class.now []) }
    {
        let config = Config::new(alloc, &class.machine)?;
        let store = first_values(alloc, class.vars.as_slice())?;
        let params = zeros(alloc)?;
        let queue = Queue::new(alloc, &class.machine)?;
        // Only of no top regions all have ended before the start.
        let ended = class.machine.top_regions().is_empty();
        Ok(Object {
            alloc,
            situation: Situation {
                own,
                config,
                plan: None,
                store,
                params,
                queue,
                ended,
                doers: doers_of(&class.machine),
            },
        })
    }

    /// The first rule that a further entry of the object breaks, if it breaks one (the list of
    /// rules is this profile's choice).
    ///
    /// The rules are those that the object itself shows: the names of the entry (A1) and the choice of a signal (A6)
    /// are the caller's. With a take the waiting signal with its number is handed in; without it what the signal
    /// fires is not asked. `NoMemory`: memory ran out.
    #[inline(always)]
    pub fn allows(
        &self,
        class: &Class,
        entry: &Entry,
        signal: Option<&Waiting>,
    ) -> Result<Option<Rule>, NoMemory>
        requires class { IsWellFormedClass class.now }
        requires stands { Stands class.now self.now }
        requires own { object_of entry.now ≡ self.now.own }
        requires places { NamesPlaces class.now.machine entry.now }
        ensures keeps { IfOk result (λ rule. IfNone rule (MayCome class.now self.now (option_copied signal.entry) entry.now)) }
        ensures breaks { IfOk result (λ rule. IfSome rule (BreaksFirst class.now self.now (option_copied signal.entry) entry.now)) }
    {
        self.situation.judge(self.alloc, class, entry, signal)
    }

    /// Goes on by an entry of the object that may come next; with a take its signal is handed in
    /// (UML 2.5.1, 14.2.3.9, run to completion).
    ///
    /// `NoMemory`: memory ran out; nothing has changed.
    #[inline(always)]
    pub fn apply(
        &mut self,
        class: &Class,
        entry: &Entry,
        signal: Option<&Waiting>,
    ) -> Result<(), NoMemory>
        requires class { IsWellFormedClass class.now }
        requires can { CanCome class.now self.old (option_copied signal) entry.now }
        ensures own { self.new.own ≡ self.old.own }
        ensures ok { OnOk result (Brings class.now self.old (option_copied signal.entry) entry.now self.new) }
        ensures err { OnErr result (self.new ≡ self.old) }
    {
        self.situation.apply(self.alloc, class, entry, signal)
    }

    /// Goes on by an entry of the object that may come next, whose behaviour was run elsewhere and left the variables
    /// these values; it is not run again (UML 2.5.1, 13.2.3, executions of behaviours).
    ///
    /// `NoMemory`: memory ran out; nothing has changed.
    pub fn settle(
        &mut self,
        class: &Class,
        entry: &Entry,
        signal: Option<&Waiting>,
        store: &[i64],
    ) -> Result<(), NoMemory>
        requires class { IsWellFormedClass class.now }
        requires can { CanCome class.now self.old (option_copied signal) entry.now }
        requires made { store.now ≡ (made_by class.now self.old entry.now).store }
        ensures own { self.new.own ≡ self.old.own }
        ensures ok { OnOk result (Brings class.now self.old (option_copied signal.entry) entry.now self.new) }
        ensures err { OnErr result (self.new ≡ self.old) }
    {
        self.situation
            .apply_made(self.alloc, class, entry, signal, store)
    }

    /// Which object it is.
    pub fn own(&self) -> ObjectId
        ensures { result ≡ self.now.own }
    {
        self.situation.own
    }

    /// Whether it has ended: the effect of a transition into a terminate vertex has run, or every top region has an active
    /// final state (UML 2.5.1, 14.2.3.6 and 14.2.3.7).
    pub fn ended(&self) -> bool
        ensures now { result ≡ self.now.ended }
        ensures tells { (class : AClass) → TellsEnd class self.now result }
    {
        self.situation.ended
    }

    /// Whether it waits for a signal: it has started and has not ended, its step is finished, and no completion waits
    /// (UML 2.5.1, 14.2.3.9, run to completion). Where it does not, no signal may be taken next.
    #[inline(always)]
    pub fn awaits_signal(&self) -> bool
        ensures { (class : AClass) → TellsWait class self.now result }
    {
        self.situation.awaits_signal()
    }

    /// The State whose completion is the first that waits; none where none waits (UML 2.5.1, 14.2.3.8, completion
    /// events).
    pub fn completion(&self) -> Option<VertexId>
        ensures now { result ≡ slice_get self.now.queue.states 0 }
        ensures tells { (class : AClass) → TellsCompletion class self.now result }
    {
        self.situation.queue.first()
    }

    /// The values of its variables, as they are now (UML 2.5.1, 9.5.3, properties).
    pub fn store(&self) -> &[i64]
        ensures { result.now ≡ self.now.store }
    {
        self.situation.store.as_slice()
    }

    /// The parameters of its step, eight numbers, as they are now (UML 2.5.1, 13.3.3, the data of a
    /// signal event).
    pub fn params(&self) -> &Args
        ensures { result.now ≡ self.now.params }
    {
        &self.situation.params
    }

    /// How many tasks of the object are ready: exits, effects and entries whose turn has come, and the next do steps of
    /// active States; none once the object has ended (UML 2.5.1, 14.2.3.9 and 14.2.3.4).
    pub fn task_count(&self, class: &Class) -> u32
        requires class { IsWellFormedClass class.now }
        requires stands { Stands class.now self.now }
        ensures count { result ≡ length (ready_tasks class.now.machine self.now) }
        ensures listed { AreReadyTasks class.now self.now (ready_tasks class.now.machine self.now) }
    {
        self.situation.count_tasks(&class.machine)
    }

    /// The ready task with a number: the exits, effects and entries in the order of the plan's
    /// list, and then the do steps (this order is this profile's choice).
    pub fn task_at(&self, class: &Class, i: u32) -> Task
        requires stands { Stands class.now self.now }
        requires there { i < length (ready_tasks class.now.machine self.now) }
        ensures { slice_get (ready_tasks class.now.machine self.now) i ≡ Some result }
    {
        self.situation.nth_task(&class.machine, i)
    }

    /// The ready task with a number, in the same order; none where there are no more than that.
    pub fn find_task(&self, class: &Class, i: u32) -> Option<Task>
        requires class { IsWellFormedClass class.now }
        requires stands { Stands class.now self.now }
        ensures task { result ≡ slice_get (ready_tasks class.now.machine self.now) i }
        ensures few { length (ready_tasks class.now.machine self.now) < 4294967296 }
    {
        self.situation.find_task(&class.machine, i)
    }

    /// Whether a task of the object is ready; none is once the object has ended, and none that names no place of the
    /// machine (UML 2.5.1, 14.2.3.9 and 14.2.3.4). It takes no memory.
    pub fn is_ready(&self, class: &Class, task: Task) -> bool
        requires stands { Stands class.now self.now }
        ensures { TellsReady class.now self.now task result }
    {
        self.situation.is_ready(&class.machine, task)
    }

    /// A start, a dispatch of a completion, a take of this signal, an opening or a pick that may
    /// come next; none exactly where there is none (UML 2.5.1, 14.2.3.9, run to completion).
    ///
    /// `signal` is the first signal of the pool that is not deferred, where there is one. Of several openings and picks
    /// and their ways, and of several sets of routes that may fire, the word settles one; which one is not promised.
    /// `NoMemory`: memory ran out.
    pub fn choose_move(
        &self,
        class: &Class,
        signal: Option<&Waiting>,
        word: u64,
    ) -> Result<Option<Entry>, NoMemory>
        requires class { IsWellFormedClass class.now }
        requires stands { Stands class.now self.now }
        ensures moves { IfOk result (λ chosen. IfSome chosen IsMove) }
        ensures own { IfOk result (λ chosen. IfSome chosen (IsCandidate self.now.own (option_copied signal.entry))) }
        ensures places { IfOk result (λ chosen. IfSome chosen (NamesPlaces class.now.machine)) }
        ensures follows { IfOk result (λ chosen. IfSome chosen (MayCome class.now self.now (option_copied signal.entry))) }
        ensures none { IfOk result (λ chosen. IfNone chosen (HasNoMove class.now self.now (option_copied signal.entry))) }
    {
        self.situation.choose_move(self.alloc, class, signal, word)
    }

    /// Whether no entry of the object but a post may come next (UML 2.5.1, 14.2.3.9, run to
    /// completion). `waiting`: whether a signal that is not deferred waits.
    pub fn quiet(&self, class: &Class, waiting: bool) -> bool
        requires class { IsWellFormedClass class.now }
        requires stands { Stands class.now self.now }
        // A signal is handed in where one waits.
        ensures { (J : List AnEntry) (signal : Option Signal) → StandsAfter class.now J self.now
            → IsHandedIn waiting signal
            → MatchBool result (IsQuiet class.now self.now signal J) (HasNext class.now self.now signal J) }
    {
        self.situation.is_quiet(&class.machine, waiting)
    }

    /// Whether the object defers the signal that waits: a State that is active defers it, and no route that the signal
    /// enables starts at this State or in it (UML 2.5.1, 14.2.3.4, deferred events). It takes no memory.
    pub fn defers(&self, class: &Class, waiting: &Waiting) -> bool
        requires class { IsWellFormedClass class.now }
        requires stands { Stands class.now self.now }
        ensures { Defers class.now self.now waiting.now result }
    {
        self.situation.defers(class, waiting)
    }

    /// The entry of a ready task, with the outputs of its behaviour (UML 2.5.1, 13.2.3, behaviours;
    /// the entries are this profile's choice).
    ///
    /// `NoMemory`: memory ran out.
    pub fn run_task(&self, alloc: Global, class: &Class, task: Task) -> Result<Entry, NoMemory>
        requires class { IsWellFormedClass class.now }
        requires stands { Stands class.now self.now }
        requires ready { Contains (ready_tasks class.now.machine self.now) task }
        ensures does { IfOk result (Does self.now.own task) }
        ensures places { IfOk result (NamesPlaces class.now.machine) }
        ensures follows { IfOk result (MayCome class.now self.now None) }
    {
        self.situation.run_task(alloc, class, task)
    }
}

// The first values of these variables.
fn first_values(alloc: Global, vars: &[VarDecl]) -> Result<Vec<i64>, NoMemory>
    ensures { IfOk result (λ store. store.items ≡ map (λ x. x.first) vars.now) }
{
    let mut values = Vec::with_capacity(alloc, vars.len())?;
    for var in vars {
        values.push(var.first)?;
    }
    Ok(values)
}

// Eight zeros.
fn zeros(alloc: Global) -> Result<Args, NoMemory>
    ensures { IfOk result (λ params. params ≡ no_params) }
{
    Ok(Args::from_vec(vec![in alloc; 0; 8]?))
}
