//! How values of this crate are made once more.
ghost use Rattle.std.specs.Prelude.{◌≡◌, IfOk, Err};

use crate::entry::{Entry, ObjectId, Out};
use crate::setting::{Class, ObjectDecl, Program, Setting, SignalDecl, VarDecl};
use crate::stimulus::Stimulus;
use crate::tree::{Act, Cond, Expr, Rel, Stmt};
use pssm_model::{Boxed, Duplicate, MarkId, Row, SignalId};
use std::alloc::{AllocError as NoMemory, Global};

impl Duplicate for Out {
    fn duplicate(&self, alloc: Global) -> Result<Out, NoMemory> {
        match self {
            Out::Mark { mark, args } => Ok(Out::Mark {
                mark: *mark,
                args: args.duplicate(alloc)?,
            }),
            Out::Send {
                object,
                signal,
                args,
            } => Ok(Out::Send {
                object: *object,
                signal: *signal,
                args: args.duplicate(alloc)?,
            }),
        }
    }
}

impl Duplicate for Entry {
    fn duplicate(&self, alloc: Global) -> Result<Entry, NoMemory> {
        match self {
            Entry::Post {
                object,
                signal,
                args,
            } => Ok(Entry::Post {
                object: *object,
                signal: *signal,
                args: args.duplicate(alloc)?,
            }),
            Entry::Start { object } => Ok(Entry::Start { object: *object }),
            Entry::Take {
                object,
                number,
                firing,
            } => Ok(Entry::Take {
                object: *object,
                number: *number,
                firing: firing.duplicate(alloc)?,
            }),
            Entry::Done {
                object,
                state,
                firing,
            } => Ok(Entry::Done {
                object: *object,
                state: *state,
                firing: firing.duplicate(alloc)?,
            }),
            Entry::Exit {
                object,
                state,
                outs,
            } => Ok(Entry::Exit {
                object: *object,
                state: *state,
                outs: outs.duplicate(alloc)?,
            }),
            Entry::Effect {
                object,
                transition,
                outs,
            } => Ok(Entry::Effect {
                object: *object,
                transition: *transition,
                outs: outs.duplicate(alloc)?,
            }),
            Entry::Enter {
                object,
                state,
                outs,
            } => Ok(Entry::Enter {
                object: *object,
                state: *state,
                outs: outs.duplicate(alloc)?,
            }),
            Entry::Opened {
                object,
                region,
                mode,
                how,
            } => Ok(Entry::Opened {
                object: *object,
                region: *region,
                mode: *mode,
                how: how.duplicate(alloc)?,
            }),
            Entry::Pick {
                object,
                choice,
                route,
            } => Ok(Entry::Pick {
                object: *object,
                choice: *choice,
                route: route.duplicate(alloc)?,
            }),
            Entry::DoStep {
                object,
                state,
                step,
                outs,
            } => Ok(Entry::DoStep {
                object: *object,
                state: *state,
                step: *step,
                outs: outs.duplicate(alloc)?,
            }),
        }
    }
}

impl Duplicate for Stimulus {
    fn duplicate(&self, alloc: Global) -> Result<Stimulus, NoMemory> {
        Ok(Stimulus {
            object: self.object,
            signal: self.signal,
            args: self.args.duplicate(alloc)?,
        })
    }
}

impl Duplicate for SignalDecl {
    fn duplicate(&self, alloc: Global) -> Result<SignalDecl, NoMemory> {
        Ok(SignalDecl {
            name: self.name.duplicate(alloc)?,
            count: self.count,
        })
    }
}

impl Duplicate for VarDecl {
    fn duplicate(&self, alloc: Global) -> Result<VarDecl, NoMemory> {
        Ok(VarDecl {
            name: self.name.duplicate(alloc)?,
            first: self.first,
        })
    }
}

impl Duplicate for ObjectDecl {
    fn duplicate(&self, alloc: Global) -> Result<ObjectDecl, NoMemory> {
        Ok(ObjectDecl {
            name: self.name.duplicate(alloc)?,
            class: self.class,
        })
    }
}

impl Duplicate for Expr {
    fn duplicate(&self, alloc: Global) -> Result<Expr, NoMemory> {
        Ok(boxed_expr(self, alloc)?.into_inner())
    }
}

impl Duplicate for Cond {
    fn duplicate(&self, alloc: Global) -> Result<Cond, NoMemory> {
        Ok(boxed_cond(self, alloc)?.into_inner())
    }
}

impl Duplicate for Stmt {
    fn duplicate(&self, alloc: Global) -> Result<Stmt, NoMemory> {
        copy_stmt(self, alloc)
    }
}

impl Duplicate for Act {
    fn duplicate(&self, alloc: Global) -> Result<Act, NoMemory> {
        Ok(Act {
            stmts: self.stmts.duplicate(alloc)?,
        })
    }
}

impl Duplicate for Program {
    fn duplicate(&self, alloc: Global) -> Result<Program, NoMemory> {
        Ok(Program {
            acts: self.acts.duplicate(alloc)?,
            guards: self.guards.duplicate(alloc)?,
            marks: self.marks.duplicate(alloc)?,
        })
    }
}

impl Duplicate for Class {
    fn duplicate(&self, alloc: Global) -> Result<Class, NoMemory> {
        Ok(Class {
            name: self.name.duplicate(alloc)?,
            vars: self.vars.duplicate(alloc)?,
            machine: self.machine.duplicate(alloc)?,
            program: self.program.duplicate(alloc)?,
        })
    }
}

impl Duplicate for Setting {
    fn duplicate(&self, alloc: Global) -> Result<Setting, NoMemory> {
        Ok(Setting {
            signals: self.signals.duplicate(alloc)?,
            classes: self.classes.duplicate(alloc)?,
            objects: self.objects.duplicate(alloc)?,
        })
    }
}

/// A copy of an expression on the heap. Expressions nest some 2,000 deep, so a level keeps little on the stack.
fn boxed_expr(expr: &Expr, alloc: Global) -> Result<Boxed<Expr>, NoMemory>
    ensures { IfOk result (λ other. other ≡ expr.now) }
{
    match expr {
        Expr::Num(number) => Boxed::new(alloc, Expr::Num(*number)),
        Expr::Var(variable) => Boxed::new(alloc, Expr::Var(*variable)),
        Expr::Param(parameter) => Boxed::new(alloc, Expr::Param(*parameter)),
        Expr::Sum(left, right) => {
            let left = boxed_expr(left.get(), alloc)?;
            let right = boxed_expr(right.get(), alloc)?;
            Boxed::new(alloc, Expr::Sum(left, right))
        }
        Expr::Diff(left, right) => {
            let left = boxed_expr(left.get(), alloc)?;
            let right = boxed_expr(right.get(), alloc)?;
            Boxed::new(alloc, Expr::Diff(left, right))
        }
        Expr::Prod(left, right) => {
            let left = boxed_expr(left.get(), alloc)?;
            let right = boxed_expr(right.get(), alloc)?;
            Boxed::new(alloc, Expr::Prod(left, right))
        }
    }
}

/// A copy of a guard on the heap. Guards nest some 4,000 deep, so a level keeps little on the stack.
fn boxed_cond(cond: &Cond, alloc: Global) -> Result<Boxed<Cond>, NoMemory>
    ensures { IfOk result (λ other. other ≡ cond.now) }
{
    match cond {
        Cond::True => Boxed::new(alloc, Cond::True),
        Cond::False => Boxed::new(alloc, Cond::False),
        Cond::Compare(rel, left, right) => boxed_comparison(*rel, left, right, alloc),
        Cond::Not(inner) => {
            let inner = boxed_cond(inner.get(), alloc)?;
            Boxed::new(alloc, Cond::Not(inner))
        }
        Cond::And(left, right) => {
            let left = boxed_cond(left.get(), alloc)?;
            let right = boxed_cond(right.get(), alloc)?;
            Boxed::new(alloc, Cond::And(left, right))
        }
        Cond::Or(left, right) => {
            let left = boxed_cond(left.get(), alloc)?;
            let right = boxed_cond(right.get(), alloc)?;
            Boxed::new(alloc, Cond::Or(left, right))
        }
    }
}

fn boxed_comparison(
    rel: Rel,
    left: &Expr,
    right: &Expr,
    alloc: Global,
) -> Result<Boxed<Cond>, NoMemory>
    ensures { IfOk result (λ other. other ≡ Cond.Compare rel left.now right.now) }
{
    let left = left.duplicate(alloc)?;
    let right = right.duplicate(alloc)?;
    Boxed::new(alloc, Cond::Compare(rel, left, right))
}

#[cycle(copies)]
fn copy_stmt(stmt: &Stmt, alloc: Global) -> Result<Stmt, NoMemory>
    ensures { IfOk result (λ other. other ≡ stmt.now) }
{
    match stmt {
        Stmt::Assign { variable, value } => copy_assignment(*variable, value, alloc),
        Stmt::Choose {
            condition,
            body,
            otherwise: Some(rest),
        } => {
            let body = copy_block(body.as_slice(), alloc)?;
            match copy_block(rest.as_slice(), alloc) {
                Ok(rest) => choice(condition, body, Some(rest), alloc),
                Err(fault) => instead(body, fault),
            }
        }
        Stmt::Choose {
            condition,
            body,
            otherwise: None,
        } => choice(condition, copy_block(body.as_slice(), alloc)?, None, alloc),
        Stmt::Send {
            object,
            signal,
            args,
        } => copy_send(*object, *signal, args, alloc),
        Stmt::Mark { mark, args } => copy_mark(*mark, args, alloc),
    }
}

fn copy_assignment(variable: u16, value: &Expr, alloc: Global) -> Result<Stmt, NoMemory>
    ensures { IfOk result (λ other. other ≡ Stmt.Assign variable value.now) }
{
    let value = value.duplicate(alloc)?;
    Ok(Stmt::Assign { variable, value })
}

fn copy_send(
    object: Option<ObjectId>,
    signal: SignalId,
    args: &Row<Expr>,
    alloc: Global,
) -> Result<Stmt, NoMemory>
    ensures { IfOk result (λ other. other ≡ Stmt.Send object signal args.now) }
{
    let args = args.duplicate(alloc)?;
    Ok(Stmt::Send {
        object,
        signal,
        args,
    })
}

fn copy_mark(mark: MarkId, args: &Row<Expr>, alloc: Global) -> Result<Stmt, NoMemory>
    ensures { IfOk result (λ other. other ≡ Stmt.Mark mark args.now) }
{
    let args = args.duplicate(alloc)?;
    Ok(Stmt::Mark { mark, args })
}

/// A choice of two blocks that were copied.
fn choice(
    condition: &Cond,
    body: Row<Stmt>,
    otherwise: Option<Row<Stmt>>,
    alloc: Global,
) -> Result<Stmt, NoMemory>
    ensures { IfOk result (λ other. other ≡ Stmt.Choose condition.now body otherwise) }
{
    match condition.duplicate(alloc) {
        Ok(condition) => Ok(Stmt::Choose {
            condition,
            body,
            otherwise,
        }),
        Err(fault) => instead((body, otherwise), fault),
    }
}

/// A fault, in place of what was to be made of these parts.
fn instead<P: Drop, T, E>(_parts: P, fault: E) -> Result<T, E>
    ensures { result ≡ Err fault }
{
    Err(fault)
}

#[cycle(copies)]
fn copy_block(stmts: &[Stmt], alloc: Global) -> Result<Row<Stmt>, NoMemory>
    ensures { IfOk result (λ other. other ≡ stmts.now) }
{
    let mut items = Vec::with_capacity(alloc, stmts.len())?;
    for stmt in stmts {
        items.push(copy_stmt(stmt, alloc)?)?;
    }
    Ok(Row::from_vec(items))
}
