//! Copies and comparisons, each once. What behaviours and guards are worth is shown by the rows of `pssm_text_rows`.
use pssm_model::{Boxed, Row, SignalId, VertexId};
use pssm_semantics::*;
use std::alloc::{AllocError as NoMemory, Global};
use std::test::Fail;

fn row_of<T: Drop>(alloc: Global, item: T) -> Result<Row<T>, NoMemory> {
    let mut items = Vec::new(alloc);
    items.push(item)?;
    Ok(Row::from_vec(items))
}

#[test]
fn args_keep_their_values(rt: HostRuntime) -> Result<(), Fail> {
    let args = Args::from_vec([5, -7].to_vec(rt.alloc())?);
    assert_eq!(rt; args.into_vec().as_slice(), [5, -7].as_slice());
    Ok(())
}

fn args_equal_their_copy(alloc: Global, args: &Args) -> Result<bool, NoMemory> {
    let other = args.copy(alloc)?;
    Ok(*args == other)
}

#[test]
fn args_are_copied(rt: HostRuntime) -> Result<(), Fail> {
    let args = Args::from_vec([5, -7].to_vec(rt.alloc())?);
    assert!(rt; args_equal_their_copy(rt.alloc(), &args)?);
    Ok(())
}

// A signal sent to object 1.
fn sent(alloc: Global) -> Result<Out, NoMemory> {
    Ok(Out::Send {
        object: ObjectId(1),
        signal: SignalId(2),
        args: Args::from_vec([3].to_vec(alloc)?),
    })
}

fn out_equals_its_copy(alloc: Global, out: &Out) -> Result<bool, NoMemory> {
    let other = out.copy(alloc)?;
    Ok(*out == other)
}

#[test]
fn outputs_are_copied(rt: HostRuntime) -> Result<(), Fail> {
    let out = sent(rt.alloc())?;
    assert!(rt; out_equals_its_copy(rt.alloc(), &out)?);
    Ok(())
}

// A do step that sends.
fn do_step(alloc: Global) -> Result<Entry, NoMemory> {
    Ok(Entry::DoStep {
        object: ObjectId(0),
        state: VertexId(4),
        step: 5,
        outs: row_of(alloc, sent(alloc)?)?,
    })
}

fn entry_equals_its_copy(alloc: Global, entry: &Entry) -> Result<bool, NoMemory> {
    let other = entry.copy(alloc)?;
    Ok(*entry == other)
}

#[test]
fn entries_are_copied(rt: HostRuntime) -> Result<(), Fail> {
    assert!(rt; entry_equals_its_copy(rt.alloc(), &do_step(rt.alloc())?)?);
    Ok(())
}

fn is_start(entry: &Entry) -> bool {
    let start = Entry::Start {
        object: ObjectId(0),
    };
    *entry == start
}

#[test]
fn entries_differ(rt: HostRuntime) -> Result<(), Fail> {
    let entry = do_step(rt.alloc())?;
    assert!(rt; !is_start(&entry));
    Ok(())
}

fn stimulus_equals_its_copy(alloc: Global, stimulus: &Stimulus) -> Result<bool, NoMemory> {
    let other = stimulus.copy(alloc)?;
    Ok(*stimulus == other)
}

#[test]
fn stimuli_are_copied(rt: HostRuntime) -> Result<(), Fail> {
    let stimulus = Stimulus {
        object: ObjectId(1),
        signal: SignalId(2),
        args: Args::from_vec(Vec::new(rt.alloc())),
    };
    assert!(rt; stimulus_equals_its_copy(rt.alloc(), &stimulus)?);
    Ok(())
}

// `if !true { }`.
fn choice(alloc: Global) -> Result<Act, NoMemory> {
    let choice = Stmt::Choose {
        condition: Cond::Not(Boxed::new(alloc, Cond::True)?),
        body: Row::from_vec(Vec::new(alloc)),
        otherwise: None,
    };
    Ok(Act {
        stmts: Shared::new(alloc, row_of(alloc, choice)?)?,
    })
}

fn act_equals_its_copy(alloc: Global, act: &Act) -> Result<bool, NoMemory> {
    let other = act.copy(alloc)?;
    Ok(*act == other)
}

#[test]
fn behaviours_are_copied(rt: HostRuntime) -> Result<(), Fail> {
    let act = choice(rt.alloc())?;
    assert!(rt; act_equals_its_copy(rt.alloc(), &act)?);
    Ok(())
}

fn cond_equals_its_copy(alloc: Global, cond: &Cond) -> Result<bool, NoMemory> {
    let other = cond.copy(alloc)?;
    Ok(*cond == other)
}

// `v < $1`.
fn comparison() -> Cond {
    Cond::Compare(Rel::Lt, Expr::Var(0), Expr::Param(1))
}

#[test]
fn guards_are_copied(rt: HostRuntime) -> Result<(), Fail> {
    assert!(rt; cond_equals_its_copy(rt.alloc(), &comparison())?);
    Ok(())
}

fn setting_equals_its_copy(alloc: Global, setting: &Setting) -> Result<bool, NoMemory> {
    let other = setting.copy(alloc)?;
    Ok(*setting == other)
}

#[test]
fn settings_are_copied(rt: HostRuntime) -> Result<(), Fail> {
    let setting = Setting {
        signals: Row::from_vec(Vec::new(rt.alloc())),
        classes: Row::from_vec(Vec::new(rt.alloc())),
        objects: Row::from_vec(Vec::new(rt.alloc())),
    };
    assert!(rt; setting_equals_its_copy(rt.alloc(), &setting)?);
    Ok(())
}
