//! The block of a machine, as far as it has been read.
ghost use Rattle.std.specs.Prelude.{◌≡◌, ◌≤◌, length, IfOk};
ghost use Rattle.std.specs.Option.{option_map};
ghost use Rattle.pssm_acts.specs.Answers.{Answers};
ghost use Rattle.pssm_flat.specs.inner.Outlines.{kept as kept_if, kept_by, takes_region, takes_vertex, takes_transition, last_vertex, with_var, with_region, with_vertex, with_transition, with_defer, with_trigger, with_else, with_behaviour, with_empty_step, with_condition, with_effect, with_action, with_line, IsSmallBlock};

use crate::action::ActionLine;
use crate::elements::{
    behaving, deferring, is_empty, is_plain, may_own_region, may_own_vertex, plain,
    takes_behaviour, triggered, untriggered,
};
use crate::line::Line;
use crate::numbering::{act_added, guard_added, program_out};
use crate::rows::{pop, push};
use crate::vocabulary::Vocabulary;
use pssm_acts::{ActFault, Growing};
use pssm_model::{
    ActId, Duplicate, Guard, Owner, Row, Text, TransKind, Transition, Vertex, VertexId, VertexKind,
};
use pssm_semantics::VarDecl;
use std::alloc::{AllocError, Global};

/// How many variables a class may have (this profile's choice).
const VARS_AT_MOST: usize = 64;

/// What has been read of a class in the order of its lines, and the names that its behaviours may use.
#[derive(Drop)]
pub(crate) struct Block {
    pub name: Text,
    pub names: Vocabulary,
    pub vars: Row<VarDecl>,
    pub regions: Row<Owner>,
    pub vertices: Row<Vertex>,
    pub transitions: Row<Transition>,
    pub program: Growing,
}

impl Block {
    // Puts one more variable, where its line may stand here.
    #[tactic(auto, unfolding(crate::specs::inner::Outlines::with_var))]
    fn add_var(&mut self, alloc: Global, name: Text, first: i64) -> Result<bool, AllocError>
        ensures { IfOk result (λ taken. kept_if taken self.new ≡ with_var self.old name first) }
    {
        if !self.regions.as_slice().is_empty()
            || self.vars.as_slice().len() >= VARS_AT_MOST
            || self.names.has_var(name.as_slice())
        {
            return Ok(false);
        }
        let known = name.duplicate(alloc)?;
        self.names.add_var(alloc, known)?;
        push(alloc, &mut self.vars, VarDecl { name, first })?;
        Ok(true)
    }

    // Whether the line of this region may stand here.
    fn takes_region(&self, number: u16, owner: Owner) -> bool
        ensures { result ≡ takes_region self.now number owner }
    {
        self.vertices.as_slice().is_empty()
            && self.transitions.as_slice().is_empty()
            && usize::from(number) == self.regions.as_slice().len()
            && may_own_region(owner)
    }

    // Puts one more region, where its line may stand here.
    fn add_region(&mut self, alloc: Global, number: u16, owner: Owner) -> Result<bool, AllocError>
        ensures { IfOk result (λ taken. kept_if taken self.new ≡ with_region self.old number owner) }
    {
        if !self.takes_region(number, owner) {
            return Ok(false);
        }
        push(alloc, &mut self.regions, owner)?;
        Ok(true)
    }

    // Whether the line of this vertex may stand here.
    fn takes_vertex(&self, number: u16, owner: Owner) -> bool
        ensures { result ≡ takes_vertex self.now number owner }
    {
        !self.regions.as_slice().is_empty()
            && self.transitions.as_slice().is_empty()
            && usize::from(number) == self.vertices.as_slice().len()
            && may_own_vertex(owner)
    }

    // Puts one more vertex, where its line may stand here.
    fn add_vertex(
        &mut self,
        alloc: Global,
        number: u16,
        owner: Owner,
        kind: VertexKind,
        label: Text,
    ) -> Result<bool, AllocError>
        ensures { IfOk result (λ taken. kept_if taken self.new ≡ with_vertex self.old number owner kind label) }
    {
        if !self.takes_vertex(number, owner) {
            return Ok(false);
        }
        push(alloc, &mut self.vertices, plain(alloc, owner, kind, label))?;
        Ok(true)
    }

    // Takes the last vertex off, where no transition has been read.
    fn pop_vertex(&mut self, alloc: Global) -> Option<Vertex>
        ensures popped { option_map (λ last. (self.new.vertices, last)) result ≡ last_vertex self.old }
        ensures others { self.new ≡ record self.old { vertices = self.new.vertices } }
    {
        if self.transitions.as_slice().is_empty() {
            pop(alloc, &mut self.vertices)
        } else {
            None
        }
    }

    // Gives the last vertex one more behaviour, where its line may stand here.
    #[tactic(auto, unfolding(crate::specs::inner::Outlines::with_behaviour))]
    fn add_behaviour(
        &mut self,
        alloc: Global,
        word: ActionLine,
        text: &[u8],
    ) -> Result<bool, ActFault>
        requires { IsSmallBlock self.old }
        ensures { Answers (with_behaviour self.old word text.now) (kept_by result self.new) }
    {
        let Some(last) = self.pop_vertex(alloc) else {
            return Ok(false);
        };
        if !takes_behaviour(word, &last) {
            return Ok(false);
        }
        let known = self.names.known();
        let program = program_out(alloc, &mut self.program);
        let Some((act, program)) = act_added(alloc, &known, program, text)? else {
            return Ok(false);
        };
        self.program = program;
        let vertex = behaving(alloc, word, last, act)?;
        push(alloc, &mut self.vertices, vertex)?;
        Ok(true)
    }

    // Gives the last vertex one more do step, an empty one, where its line may stand here.
    #[tactic(auto, unfolding(crate::specs::inner::Outlines::with_empty_step))]
    fn add_empty_step(&mut self, alloc: Global) -> Result<bool, AllocError>
        ensures { IfOk result (λ taken. kept_if taken self.new ≡ with_empty_step self.old) }
    {
        let Some(last) = self.pop_vertex(alloc) else {
            return Ok(false);
        };
        if !takes_behaviour(ActionLine::Step, &last) {
            return Ok(false);
        }
        let vertex = behaving(alloc, ActionLine::Step, last, ActId(0))?;
        push(alloc, &mut self.vertices, vertex)?;
        Ok(true)
    }

    // Lets the last vertex defer one more signal, where its line may stand here.
    #[tactic(auto, unfolding(crate::specs::inner::Outlines::with_defer))]
    fn add_defer(&mut self, alloc: Global, signal: &[u8]) -> Result<bool, AllocError>
        requires { length self.old.names.signals ≤ 256 }
        ensures { IfOk result (λ taken. kept_if taken self.new ≡ with_defer self.old signal.now) }
    {
        let Some(last) = self.pop_vertex(alloc) else {
            return Ok(false);
        };
        match deferring(alloc, &self.names.known(), last, signal)? {
            Some(vertex) => {
                push(alloc, &mut self.vertices, vertex)?;
                Ok(true)
            }
            None => Ok(false),
        }
    }

    // Whether the line of the transition with this number may stand here.
    fn takes_transition(&self, number: u16) -> bool
        ensures { result ≡ takes_transition self.now number }
    {
        !self.regions.as_slice().is_empty()
            && usize::from(number) == self.transitions.as_slice().len()
    }

    // Puts one more transition, where its line may stand here.
    fn add_transition(
        &mut self,
        alloc: Global,
        number: u16,
        source: VertexId,
        target: VertexId,
        kind: TransKind,
    ) -> Result<bool, AllocError>
        ensures { IfOk result
            (λ taken. kept_if taken self.new ≡ with_transition self.old number source target kind) }
    {
        if !self.takes_transition(number) {
            return Ok(false);
        }
        push(
            alloc,
            &mut self.transitions,
            untriggered(alloc, source, target, kind),
        )?;
        Ok(true)
    }

    // Gives the last transition one more trigger, where its line may stand here.
    #[tactic(auto, unfolding(crate::specs::inner::Outlines::with_trigger))]
    fn add_trigger(&mut self, alloc: Global, signal: &[u8]) -> Result<bool, AllocError>
        requires { length self.old.names.signals ≤ 256 }
        ensures { IfOk result (λ taken. kept_if taken self.new ≡ with_trigger self.old signal.now) }
    {
        let Some(last) = pop(alloc, &mut self.transitions) else {
            return Ok(false);
        };
        match triggered(alloc, &self.names.known(), last, signal)? {
            Some(transition) => {
                push(alloc, &mut self.transitions, transition)?;
                Ok(true)
            }
            None => Ok(false),
        }
    }

    // Gives the last transition `else` as its guard, where the line may stand here.
    #[tactic(auto, unfolding(crate::specs::inner::Outlines::with_else))]
    fn add_else(&mut self, alloc: Global) -> Result<bool, AllocError>
        ensures { IfOk result (λ taken. kept_if taken self.new ≡ with_else self.old) }
    {
        let Some(mut last) = pop(alloc, &mut self.transitions) else {
            return Ok(false);
        };
        if !is_plain(&last) {
            return Ok(false);
        }
        last.guard = Guard::Otherwise;
        push(alloc, &mut self.transitions, last)?;
        Ok(true)
    }

    // Gives the last transition a guard, where its line may stand here.
    #[tactic(auto, unfolding(crate::specs::inner::Outlines::with_condition))]
    fn add_condition(&mut self, alloc: Global, text: &[u8]) -> Result<bool, ActFault>
        requires { IsSmallBlock self.old }
        ensures { Answers (with_condition self.old text.now) (kept_by result self.new) }
    {
        let Some(mut last) = pop(alloc, &mut self.transitions) else {
            return Ok(false);
        };
        if !is_plain(&last) {
            return Ok(false);
        }
        let known = self.names.known();
        let program = program_out(alloc, &mut self.program);
        let Some((guard, program)) = guard_added(alloc, &known, program, text)? else {
            return Ok(false);
        };
        self.program = program;
        last.guard = Guard::When(guard);
        push(alloc, &mut self.transitions, last)?;
        Ok(true)
    }

    // Gives the last transition an effect, where its line may stand here.
    #[tactic(auto, unfolding(crate::specs::inner::Outlines::with_effect))]
    fn add_effect(&mut self, alloc: Global, text: &[u8]) -> Result<bool, ActFault>
        requires { IsSmallBlock self.old }
        ensures { Answers (with_effect self.old text.now) (kept_by result self.new) }
    {
        let Some(mut last) = pop(alloc, &mut self.transitions) else {
            return Ok(false);
        };
        if !is_empty(last.effect) {
            return Ok(false);
        }
        let known = self.names.known();
        let program = program_out(alloc, &mut self.program);
        let Some((act, program)) = act_added(alloc, &known, program, text)? else {
            return Ok(false);
        };
        self.program = program;
        last.effect = act;
        push(alloc, &mut self.transitions, last)?;
        Ok(true)
    }

    // Takes one more line with an action text. False where it cannot stand here.
    fn add_action(&mut self, alloc: Global, word: ActionLine, text: &[u8]) -> Result<bool, ActFault>
        requires { IsSmallBlock self.old }
        ensures { Answers (with_action self.old word text.now) (kept_by result self.new) }
    {
        match word {
            ActionLine::When => self.add_condition(alloc, text),
            ActionLine::Effect => self.add_effect(alloc, text),
            behaviour => self.add_behaviour(alloc, behaviour, text),
        }
    }

    /// Takes one more line behind the first. False where it cannot stand here.
    ///
    /// A fault is that of the action text of a line that could stand here with another text, or want of memory.
    pub fn take(&mut self, alloc: Global, line: Line) -> Result<bool, ActFault>
        requires { IsSmallBlock self.old }
        ensures { Answers (with_line self.old line) (kept_by result self.new) }
    {
        let taken = match line {
            Line::Var { name, first } => self.add_var(alloc, name, first),
            Line::Region { number, owner } => self.add_region(alloc, number, owner),
            Line::Vertex {
                number,
                owner,
                kind,
                label,
            } => self.add_vertex(alloc, number, owner, kind, label),
            Line::Defer { signal } => self.add_defer(alloc, signal.as_slice()),
            Line::Transition {
                number,
                source,
                target,
                kind,
            } => self.add_transition(alloc, number, source, target, kind),
            Line::On { signal } => self.add_trigger(alloc, signal.as_slice()),
            Line::EmptyStep => self.add_empty_step(alloc),
            Line::Otherwise => self.add_else(alloc),
            Line::Action { word, text } => return self.add_action(alloc, word, text.as_slice()),
            other => {
                drop(other);
                Ok(false)
            }
        };
        Ok(taken?)
    }
}
