//! `Run`: the run that a journal has told so far.
ghost use Rattle.std.specs.Prelude.{◌≡◌, [], length, IfOk, IfNone, IfSome};
ghost use Rattle.pssm_semantics.specs.declared.entry.Entry.TheVariants as entries;
ghost use Rattle.pssm_semantics.specs.declared.line.Line.{Line};
ghost use Rattle.pssm_semantics.specs.declared.line.Line.TheVariants as lines;
ghost use Rattle.pssm_semantics.specs.Proper.{IsWellFormed};
ghost use Rattle.pssm_semantics.specs.Laws.{CompletesInTime};
ghost use Rattle.pssm_lines.specs.Grammar.{IsLine};
ghost use Rattle.pssm_lines.specs.Parts.{Shows, firing_of_one, brief_line};
ghost use Rattle.pssm_journal.specs.Briefs.{brief_entry};
ghost use Rattle.pssm_semantics.specs.declared.entry.Rule.TheVariants.{A1};
ghost use Rattle.pssm_judge.specs.declared.run.Stop.TheVariants.{Refuse};
ghost use Rattle.pssm_judge.specs.inner.Following.{IsTold, TakesLine, StopsAt};
ghost use Rattle.pssm_judge.specs.inner.Answers.{answer_to};

use crate::limits::{brief_output_count, output_count, passes_limits};
use crate::room::{firing_in, firing_out};
use crate::verdict::{JudgeFault, Verdict};
use pssm_journal::{
    BriefAct, BriefEntry, BriefParts, Entry, EntryAct, LineFault, LineParts, Namespace, Near,
    entry_of_brief, entry_of_parts,
};
use pssm_model::{Firing, Row, SignalId, TransId, VertexId};
use pssm_semantics::{Args, ObjectId, Rule, Setting};
use pssm_system::Follower;
use std::alloc::{AllocError as NoMemory, Global};
use std::marker::Model;
use std::mem;

/// Why the judging ends at a line. Entries are counted from 1.
#[derive(Clone, Copy)]
pub enum Stop {
    /// With the entry the journal passes its limits.
    Limit { entry: u32 },
    /// The entry breaks the rule.
    Refuse { entry: u32, rule: Rule },
    /// The line is none of the form of journals, however it goes on.
    Text(LineFault),
}

impl Stop {
    // The entry names what the setting does not have.
    fn unknown(entry: u32) -> Stop
        ensures { result ≡ Refuse entry A1 }
    {
        let rule = Rule::A1;
        Stop::Refuse { entry, rule }
    }

    /// The answer of the judge.
    pub fn answer(self) -> Result<Verdict, JudgeFault>
        ensures { result ≡ answer_to self }
    {
        match self {
            Stop::Limit { entry } => Err(JudgeFault::Limit { entry }),
            Stop::Refuse { entry, rule } => Ok(Verdict::Refuse { entry, rule }),
            Stop::Text(fault) => Err(JudgeFault::Text(fault)),
        }
    }
}

// Lets go of an entry that holds no memory: there is nothing of it to give back.
#[inline(always)]
fn let_go(told: Entry) {
    mem::forget(told);
}

/// The run that a journal has told so far, the namespace of its setting, what the last brief line named, the firing of
/// the last brief take, whose room the next one takes, and how many posts, sends and marks are in it.
#[derive(Drop)]
pub struct Run {
    follower: Follower,
    namespace: Namespace,
    near: Near,
    spare: Option<Firing>,
    outputs: usize,
}

impl Model for Run {
    ghost use Rattle.pssm_semantics.specs.contracts.tree.Stmt as stmt;
    ghost use Rattle.pssm_semantics.specs.contracts.tree.Cond as cond;
    ghost use Rattle.pssm_semantics.specs.contracts.tree.Expr as expr;
    ghost use Rattle.std.specs.Coded.{codes};
    ghost use Rattle.std.specs.Prelude.{◌≡◌};
    ghost use Rattle.pssm_semantics.specs.Pool.{output_count as count};
    ghost use Rattle.pssm_system.specs.History.{History};

    ghost Value = { History };

    ghost coded = { Prim.hlevel (codes, stmt.the_row.coded, cond.the_row.coded, expr.the_row.coded) };

    ghost view = { λ r. r.follower };

    ghost invariant = { λ r. (r.namespace ≡ r.follower.setting) × (r.outputs ≡ count r.follower.journal) };
}

impl Run {
    /// A run with no entry yet.
    pub fn new(alloc: Global, setting: Setting) -> Result<Run, NoMemory>
        requires { IsWellFormed setting }
        ensures setting { IfOk result (λ run. run.setting ≡ setting) }
        ensures start { IfOk result (λ run. run.journal ≡ []) }
    {
        let namespace = Namespace::new(alloc, &setting)?;
        Ok(Run {
            follower: Follower::new(alloc, setting)?,
            namespace,
            near: Near {
                object: ObjectId(0),
                signal: SignalId(0),
            },
            spare: None,
            outputs: 0,
        })
    }

    /// How many entries the run has. They are the beginning of a complete run.
    pub fn len(&self) -> u32
        ensures count { result ≡ length self.now.journal }
        ensures completes { CompletesInTime self.now.setting self.now.journal }
    {
        self.follower.len() as u32
    }

    /// Takes the entry that a line writes, unless the journal passes its limits by it or it breaks a rule. The line is
    /// the one of the grammar that the parts show.
    pub fn take(&mut self, alloc: Global, parts: LineParts<'_>) -> Result<Option<Stop>, NoMemory>
        requires { (line : Line) × IsLine line × Shows parts line }
        ensures takes { IfOk result (λ stop. (line : Line) → IsLine line → Shows parts.entry line
            → IfNone stop (TakesLine self.old self.new line)) }
        ensures stops { IfOk result (λ stop. (line : Line) → IsLine line → Shows parts.entry line
            → IfSome stop (StopsAt self.old.setting self.old.journal line)) }
    {
        let entries = self.follower.len();
        let entry = entries as u32 + 1;
        let outputs = output_count(&parts);
        if passes_limits(entries, self.outputs, outputs) {
            return Ok(Some(Stop::Limit { entry }));
        }
        let setting = self.follower.setting();
        let Some(told) = entry_of_parts(alloc, setting, &self.namespace, parts)? else {
            return Ok(Some(Stop::unknown(entry)));
        };
        self.add_any(entry, outputs, &told)
    }

    /// The same for a brief line. Each kind has code of its own from here on.
    #[inline(always)]
    pub fn take_brief(
        &mut self,
        alloc: Global,
        parts: BriefParts<'_>,
    ) -> Result<Option<Stop>, NoMemory>
        requires { IsLine (brief_line parts) }
        ensures takes { IfOk result (λ stop. IfNone stop (TakesLine self.old self.new (brief_line parts.entry))) }
        ensures stops { IfOk result (λ stop. IfSome stop
            (StopsAt self.old.setting self.old.journal (brief_line parts.entry))) }
    {
        let object = parts.object;
        match parts.act {
            BriefAct::Post { signal } => self.take_post(alloc, object, signal),
            BriefAct::Take { number, start } => self.take_start(alloc, object, number, start),
            BriefAct::Exit { state } => self.take_exit(alloc, object, state),
            BriefAct::Effect { transition } => self.take_effect(alloc, object, transition),
            BriefAct::Enter { state } => self.take_enter(alloc, object, state),
        }
    }

    // Takes a post without arguments.
    #[inline(never)]
    fn take_post(
        &mut self,
        alloc: Global,
        object: &[u8],
        signal: &[u8],
    ) -> Result<Option<Stop>, NoMemory>
        requires { IsLine (lines.Post object.now signal.now []) }
        ensures takes { IfOk result (λ stop. IfNone stop
            (TakesLine self.old self.new (lines.Post object.now signal.now []))) }
        ensures stops { IfOk result (λ stop. IfSome stop
            (StopsAt self.old.setting self.old.journal (lines.Post object.now signal.now []))) }
    {
        let act = BriefAct::Post { signal };
        self.take_kind(alloc, BriefParts { object, act })
    }

    // Takes a take by one route of one start.
    #[inline(never)]
    fn take_start(
        &mut self,
        alloc: Global,
        object: &[u8],
        number: u32,
        start: TransId,
    ) -> Result<Option<Stop>, NoMemory>
        requires { IsLine (lines.Take object.now number (firing_of_one start)) }
        ensures takes { IfOk result (λ stop. IfNone stop
            (TakesLine self.old self.new (lines.Take object.now number (firing_of_one start)))) }
        ensures stops { IfOk result (λ stop. IfSome stop
            (StopsAt self.old.setting self.old.journal (lines.Take object.now number (firing_of_one start)))) }
    {
        let act = BriefAct::Take { number, start };
        self.take_kind(alloc, BriefParts { object, act })
    }

    // Takes an exit without outputs.
    #[inline(never)]
    fn take_exit(
        &mut self,
        alloc: Global,
        object: &[u8],
        state: VertexId,
    ) -> Result<Option<Stop>, NoMemory>
        requires { IsLine (lines.Exit object.now state []) }
        ensures takes { IfOk result (λ stop. IfNone stop
            (TakesLine self.old self.new (lines.Exit object.now state []))) }
        ensures stops { IfOk result (λ stop. IfSome stop
            (StopsAt self.old.setting self.old.journal (lines.Exit object.now state []))) }
    {
        let act = BriefAct::Exit { state };
        self.take_kind(alloc, BriefParts { object, act })
    }

    // Takes an effect without outputs.
    #[inline(never)]
    fn take_effect(
        &mut self,
        alloc: Global,
        object: &[u8],
        transition: TransId,
    ) -> Result<Option<Stop>, NoMemory>
        requires { IsLine (lines.Effect object.now transition []) }
        ensures takes { IfOk result (λ stop. IfNone stop
            (TakesLine self.old self.new (lines.Effect object.now transition []))) }
        ensures stops { IfOk result (λ stop. IfSome stop
            (StopsAt self.old.setting self.old.journal (lines.Effect object.now transition []))) }
    {
        let act = BriefAct::Effect { transition };
        self.take_kind(alloc, BriefParts { object, act })
    }

    // Takes an entry of a State without outputs.
    #[inline(never)]
    fn take_enter(
        &mut self,
        alloc: Global,
        object: &[u8],
        state: VertexId,
    ) -> Result<Option<Stop>, NoMemory>
        requires { IsLine (lines.Enter object.now state []) }
        ensures takes { IfOk result (λ stop. IfNone stop
            (TakesLine self.old self.new (lines.Enter object.now state []))) }
        ensures stops { IfOk result (λ stop. IfSome stop
            (StopsAt self.old.setting self.old.journal (lines.Enter object.now state []))) }
    {
        let act = BriefAct::Enter { state };
        self.take_kind(alloc, BriefParts { object, act })
    }

    // Takes a brief line of one kind.
    #[inline(always)]
    fn take_kind(&mut self, alloc: Global, parts: BriefParts<'_>) -> Result<Option<Stop>, NoMemory>
        requires { IsLine (brief_line parts) }
        ensures takes { IfOk result (λ stop. IfNone stop (TakesLine self.old self.new (brief_line parts.entry))) }
        ensures stops { IfOk result (λ stop. IfSome stop
            (StopsAt self.old.setting self.old.journal (brief_line parts.entry))) }
    {
        let before = self.follower.len();
        let entry = before as u32 + 1;
        let outputs = brief_output_count(&parts);
        if passes_limits(before, self.outputs, outputs) {
            return Ok(Some(Stop::Limit { entry }));
        }
        let setting = self.follower.setting();
        let Some(told) = entry_of_brief(setting, &self.namespace, self.near, parts) else {
            return Ok(Some(Stop::unknown(entry)));
        };
        self.add_brief(alloc, entry, outputs, told)
    }

    // Adds the entry that a brief line writes, unless it breaks a rule.
    #[inline(always)]
    fn add_brief(
        &mut self,
        alloc: Global,
        entry: u32,
        outputs: usize,
        told: BriefEntry,
    ) -> Result<Option<Stop>, NoMemory>
        requires { (line : Line) × IsTold self.old line entry outputs (brief_entry told) }
        ensures takes { IfOk result (λ stop. (line : Line) → IsTold self.old line entry outputs (brief_entry told)
            → IfNone stop (TakesLine self.old self.new line)) }
        ensures stops { IfOk result (λ stop. (line : Line) → IsTold self.old line entry outputs (brief_entry told)
            → IfSome stop (StopsAt self.old.setting self.old.journal line)) }
    {
        let object = told.object;
        self.near.object = object;
        match told.act {
            EntryAct::Post { signal } => self.add_post(alloc, entry, outputs, object, signal),
            EntryAct::Take { number, start } => {
                self.add_take(alloc, entry, outputs, object, number, start)
            }
            EntryAct::Exit { state } => self.add_exit(alloc, entry, outputs, object, state),
            EntryAct::Effect { transition } => {
                self.add_effect(alloc, entry, outputs, object, transition)
            }
            EntryAct::Enter { state } => self.add_enter(alloc, entry, outputs, object, state),
        }
    }

    // Adds a post without arguments.
    #[inline(always)]
    fn add_post(
        &mut self,
        alloc: Global,
        entry: u32,
        outputs: usize,
        object: ObjectId,
        signal: SignalId,
    ) -> Result<Option<Stop>, NoMemory>
        requires { (line : Line) × IsTold self.old line entry outputs (entries.Post object signal []) }
        ensures takes { IfOk result (λ stop. (line : Line) → IsTold self.old line entry outputs (entries.Post object signal [])
            → IfNone stop (TakesLine self.old self.new line)) }
        ensures stops { IfOk result (λ stop. (line : Line) → IsTold self.old line entry outputs (entries.Post object signal [])
            → IfSome stop (StopsAt self.old.setting self.old.journal line)) }
    {
        self.near.signal = signal;
        let args = Args::from_vec(Vec::new(alloc));
        let told = Entry::Post {
            object,
            signal,
            args,
        };
        let outcome = self.add(entry, outputs, &told);
        let_go(told);
        outcome
    }

    // Adds a take by one route of one start.
    #[inline(always)]
    fn add_take(
        &mut self,
        alloc: Global,
        entry: u32,
        outputs: usize,
        object: ObjectId,
        number: u32,
        start: TransId,
    ) -> Result<Option<Stop>, NoMemory>
        requires { (line : Line) × IsTold self.old line entry outputs (entries.Take object number (firing_of_one start)) }
        ensures takes { IfOk result (λ stop. (line : Line) → IsTold self.old line entry outputs (entries.Take object number (firing_of_one start))
            → IfNone stop (TakesLine self.old self.new line)) }
        ensures stops { IfOk result (λ stop. (line : Line) → IsTold self.old line entry outputs (entries.Take object number (firing_of_one start))
            → IfSome stop (StopsAt self.old.setting self.old.journal line)) }
    {
        let firing = firing_in(alloc, self.spare.take(), start)?;
        let told = Entry::Take {
            object,
            number,
            firing,
        };
        let outcome = self.add(entry, outputs, &told);
        self.spare = firing_out(told);
        outcome
    }

    // Adds an exit without outputs.
    #[inline(always)]
    fn add_exit(
        &mut self,
        alloc: Global,
        entry: u32,
        outputs: usize,
        object: ObjectId,
        state: VertexId,
    ) -> Result<Option<Stop>, NoMemory>
        requires { (line : Line) × IsTold self.old line entry outputs (entries.Exit object state []) }
        ensures takes { IfOk result (λ stop. (line : Line) → IsTold self.old line entry outputs (entries.Exit object state [])
            → IfNone stop (TakesLine self.old self.new line)) }
        ensures stops { IfOk result (λ stop. (line : Line) → IsTold self.old line entry outputs (entries.Exit object state [])
            → IfSome stop (StopsAt self.old.setting self.old.journal line)) }
    {
        let outs = Row::from_vec(Vec::new(alloc));
        let told = Entry::Exit {
            object,
            state,
            outs,
        };
        let outcome = self.add(entry, outputs, &told);
        let_go(told);
        outcome
    }

    // Adds an effect without outputs.
    #[inline(always)]
    fn add_effect(
        &mut self,
        alloc: Global,
        entry: u32,
        outputs: usize,
        object: ObjectId,
        transition: TransId,
    ) -> Result<Option<Stop>, NoMemory>
        requires { (line : Line) × IsTold self.old line entry outputs (entries.Effect object transition []) }
        ensures takes { IfOk result (λ stop. (line : Line) → IsTold self.old line entry outputs (entries.Effect object transition [])
            → IfNone stop (TakesLine self.old self.new line)) }
        ensures stops { IfOk result (λ stop. (line : Line) → IsTold self.old line entry outputs (entries.Effect object transition [])
            → IfSome stop (StopsAt self.old.setting self.old.journal line)) }
    {
        let outs = Row::from_vec(Vec::new(alloc));
        let told = Entry::Effect {
            object,
            transition,
            outs,
        };
        let outcome = self.add(entry, outputs, &told);
        let_go(told);
        outcome
    }

    // Adds an entry of a State without outputs.
    #[inline(always)]
    fn add_enter(
        &mut self,
        alloc: Global,
        entry: u32,
        outputs: usize,
        object: ObjectId,
        state: VertexId,
    ) -> Result<Option<Stop>, NoMemory>
        requires { (line : Line) × IsTold self.old line entry outputs (entries.Enter object state []) }
        ensures takes { IfOk result (λ stop. (line : Line) → IsTold self.old line entry outputs (entries.Enter object state [])
            → IfNone stop (TakesLine self.old self.new line)) }
        ensures stops { IfOk result (λ stop. (line : Line) → IsTold self.old line entry outputs (entries.Enter object state [])
            → IfSome stop (StopsAt self.old.setting self.old.journal line)) }
    {
        let outs = Row::from_vec(Vec::new(alloc));
        let told = Entry::Enter {
            object,
            state,
            outs,
        };
        let outcome = self.add(entry, outputs, &told);
        let_go(told);
        outcome
    }

    // Adds the entry that a line of any kind writes, unless it breaks a rule.
    #[inline(never)]
    fn add_any(
        &mut self,
        entry: u32,
        outputs: usize,
        told: &Entry,
    ) -> Result<Option<Stop>, NoMemory>
        requires { (line : Line) × IsTold self.old line entry outputs told.now }
        ensures takes { IfOk result (λ stop. (line : Line) → IsTold self.old line entry outputs told.now
            → IfNone stop (TakesLine self.old self.new line)) }
        ensures stops { IfOk result (λ stop. (line : Line) → IsTold self.old line entry outputs told.now
            → IfSome stop (StopsAt self.old.setting self.old.journal line)) }
    {
        self.add(entry, outputs, told)
    }

    // Adds the entry that a line writes, unless it breaks a rule.
    #[inline(always)]
    fn add(&mut self, entry: u32, outputs: usize, told: &Entry) -> Result<Option<Stop>, NoMemory>
        requires { (line : Line) × IsTold self.old line entry outputs told.now }
        ensures takes { IfOk result (λ stop. (line : Line) → IsTold self.old line entry outputs told.now
            → IfNone stop (TakesLine self.old self.new line)) }
        ensures stops { IfOk result (λ stop. (line : Line) → IsTold self.old line entry outputs told.now
            → IfSome stop (StopsAt self.old.setting self.old.journal line)) }
    {
        if let Some(rule) = self.follower.allows(told)? {
            return Ok(Some(Stop::Refuse { entry, rule }));
        }
        self.follower.apply(told)?;
        self.outputs += outputs;
        Ok(None)
    }
}
