//! The line of an entry of each kind, with the names of a setting.
ghost use Rattle.std.specs.Prelude.{◌≡◌, map, IfOk};
ghost use Rattle.pssm_semantics.specs.declared.entry.Entry.TheVariants as entries;
ghost use Rattle.pssm_journal.specs.inner.EntryLine.{name_of_object, out_line, line_of_entry};

use crate::names::{mark_name, object_name, signal_name};
use pssm_model::{
    Duplicate, Firing, How, Mode, RegionId, Route, Row, SignalId, Text, TransId, VertexId,
};
use pssm_semantics::{Args, Line, LineOut, ObjectId, Out, Setting};
use std::alloc::{AllocError as NoMemory, Global};

// A text of these bytes.
fn text_of(alloc: Global, bytes: &[u8]) -> Result<Text, NoMemory>
    ensures { IfOk result (λ t. t ≡ bytes.now) }
{
    Ok(Text::from_vec(bytes.to_vec(alloc)?))
}

// An output of an object, with its names.
fn named_out(
    alloc: Global,
    setting: &Setting,
    own: ObjectId,
    out: &Out,
) -> Result<LineOut, NoMemory>
    ensures { IfOk result (λ x. x ≡ out_line setting.now own out.now) }
{
    match out {
        Out::Mark { mark, args } => Ok(LineOut::Mark {
            mark: text_of(alloc, mark_name(setting, own, *mark))?,
            args: args.copy(alloc)?,
        }),
        Out::Send {
            object,
            signal,
            args,
        } => Ok(LineOut::Send {
            object: text_of(alloc, object_name(setting, *object))?,
            signal: text_of(alloc, signal_name(setting, *signal))?,
            args: args.copy(alloc)?,
        }),
    }
}

// The outputs of an object, with their names.
fn named_outs(
    alloc: Global,
    setting: &Setting,
    own: ObjectId,
    outs: &[Out],
) -> Result<Row<LineOut>, NoMemory>
    ensures { IfOk result (λ xs. xs ≡ map (out_line setting.now own) outs.now) }
{
    let mut named = Vec::with_capacity(alloc, outs.len())?;
    for out in outs {
        named.push(named_out(alloc, setting, own, out)?)?;
    }
    Ok(Row::from_vec(named))
}

// The name of the object of an entry.
fn own_name(alloc: Global, setting: &Setting, own: ObjectId) -> Result<Text, NoMemory>
    ensures { IfOk result (λ name. name ≡ name_of_object setting.now own) }
{
    text_of(alloc, object_name(setting, own))
}

/// The line of a post.
#[tactic(auto, unfolding(crate::specs::inner::EntryLine::line_of_entry))]
pub fn post_line(
    alloc: Global,
    setting: &Setting,
    own: ObjectId,
    signal: SignalId,
    args: &Args,
) -> Result<Line, NoMemory>
    ensures { IfOk result (λ line. line ≡ line_of_entry setting.now (entries.Post own signal args.now)) }
{
    let object = own_name(alloc, setting, own)?;
    let signal = text_of(alloc, signal_name(setting, signal))?;
    Ok(Line::Post {
        object,
        signal,
        args: args.copy(alloc)?,
    })
}

/// The line of a start.
#[tactic(auto, unfolding(crate::specs::inner::EntryLine::line_of_entry))]
pub fn start_line(alloc: Global, setting: &Setting, own: ObjectId) -> Result<Line, NoMemory>
    ensures { IfOk result (λ line. line ≡ line_of_entry setting.now (entries.Start own)) }
{
    Ok(Line::Start {
        object: own_name(alloc, setting, own)?,
    })
}

/// The line of a take.
#[tactic(auto, unfolding(crate::specs::inner::EntryLine::line_of_entry))]
pub fn take_line(
    alloc: Global,
    setting: &Setting,
    own: ObjectId,
    number: u32,
    firing: &Firing,
) -> Result<Line, NoMemory>
    ensures { IfOk result (λ line. line ≡ line_of_entry setting.now (entries.Take own number firing.now)) }
{
    let object = own_name(alloc, setting, own)?;
    Ok(Line::Take {
        object,
        number,
        firing: firing.duplicate(alloc)?,
    })
}

/// The line of a completion.
#[tactic(auto, unfolding(crate::specs::inner::EntryLine::line_of_entry))]
pub fn done_line(
    alloc: Global,
    setting: &Setting,
    own: ObjectId,
    state: VertexId,
    firing: &Firing,
) -> Result<Line, NoMemory>
    ensures { IfOk result (λ line. line ≡ line_of_entry setting.now (entries.Done own state firing.now)) }
{
    let object = own_name(alloc, setting, own)?;
    Ok(Line::Done {
        object,
        state,
        firing: firing.duplicate(alloc)?,
    })
}

/// The line of an exit.
#[tactic(auto, unfolding(crate::specs::inner::EntryLine::line_of_entry))]
pub fn exit_line(
    alloc: Global,
    setting: &Setting,
    own: ObjectId,
    state: VertexId,
    outs: &Row<Out>,
) -> Result<Line, NoMemory>
    ensures { IfOk result (λ line. line ≡ line_of_entry setting.now (entries.Exit own state outs.now)) }
{
    let object = own_name(alloc, setting, own)?;
    Ok(Line::Exit {
        object,
        state,
        outs: named_outs(alloc, setting, own, outs.as_slice())?,
    })
}

/// The line of an effect.
#[tactic(auto, unfolding(crate::specs::inner::EntryLine::line_of_entry))]
pub fn effect_line(
    alloc: Global,
    setting: &Setting,
    own: ObjectId,
    transition: TransId,
    outs: &Row<Out>,
) -> Result<Line, NoMemory>
    ensures { IfOk result (λ line. line ≡ line_of_entry setting.now (entries.Effect own transition outs.now)) }
{
    let object = own_name(alloc, setting, own)?;
    Ok(Line::Effect {
        object,
        transition,
        outs: named_outs(alloc, setting, own, outs.as_slice())?,
    })
}

/// The line of an entry into a State.
#[tactic(auto, unfolding(crate::specs::inner::EntryLine::line_of_entry))]
pub fn enter_line(
    alloc: Global,
    setting: &Setting,
    own: ObjectId,
    state: VertexId,
    outs: &Row<Out>,
) -> Result<Line, NoMemory>
    ensures { IfOk result (λ line. line ≡ line_of_entry setting.now (entries.Enter own state outs.now)) }
{
    let object = own_name(alloc, setting, own)?;
    Ok(Line::Enter {
        object,
        state,
        outs: named_outs(alloc, setting, own, outs.as_slice())?,
    })
}

/// The line of an opening.
#[tactic(auto, unfolding(crate::specs::inner::EntryLine::line_of_entry))]
pub fn opened_line(
    alloc: Global,
    setting: &Setting,
    own: ObjectId,
    region: RegionId,
    mode: Mode,
    how: &How,
) -> Result<Line, NoMemory>
    ensures { IfOk result (λ line. line ≡ line_of_entry setting.now (entries.Opened own region mode how.now)) }
{
    let object = own_name(alloc, setting, own)?;
    Ok(Line::Opened {
        object,
        region,
        mode,
        how: how.duplicate(alloc)?,
    })
}

/// The line of a pick.
#[tactic(auto, unfolding(crate::specs::inner::EntryLine::line_of_entry))]
pub fn pick_line(
    alloc: Global,
    setting: &Setting,
    own: ObjectId,
    choice: VertexId,
    route: &Route,
) -> Result<Line, NoMemory>
    ensures { IfOk result (λ line. line ≡ line_of_entry setting.now (entries.Pick own choice route.now)) }
{
    let object = own_name(alloc, setting, own)?;
    Ok(Line::Pick {
        object,
        choice,
        route: route.duplicate(alloc)?,
    })
}

/// The line of a step of a do-activity.
#[tactic(auto, unfolding(crate::specs::inner::EntryLine::line_of_entry))]
pub fn do_step_line(
    alloc: Global,
    setting: &Setting,
    own: ObjectId,
    state: VertexId,
    step: u16,
    outs: &Row<Out>,
) -> Result<Line, NoMemory>
    ensures { IfOk result (λ line. line ≡ line_of_entry setting.now (entries.DoStep own state step outs.now)) }
{
    let object = own_name(alloc, setting, own)?;
    Ok(Line::DoStep {
        object,
        state,
        step,
        outs: named_outs(alloc, setting, own, outs.as_slice())?,
    })
}
