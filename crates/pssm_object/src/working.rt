//! The behaviours of exits, effects and entries, and what they make.
ghost use Rattle.std.specs.Prelude.{◌≡◌, ◌≤◌, ◌<◌, ◌↔◌, length, Option, Some, IsTrue, IfOk, IfSome, IfNone};
ghost use Rattle.std.specs.Option.{option_copied};
ghost use Rattle.pssm_semantics.specs.Values.{eight_of, no_params};
ghost use Rattle.pssm_semantics.specs.Behaviours.{act_at as behaviour_at};
ghost use Rattle.pssm_semantics.specs.Classes.{IsWellFormedClass};
ghost use Rattle.pssm_object.specs.inner.Situations.{standing_of};
ghost use Rattle.pssm_semantics.specs.Arguments.{ActArgsFit};
ghost use Rattle.pssm_object.specs.inner.Working.{HasPlace, act_for, MakesNothing, MakesBy};

use crate::situation::Situation;
use pssm_model::{ActId, Item, Row};
use pssm_semantics::{Act, Args, Class, Out, Outcome, makes, outcome};
use std::alloc::{AllocError as NoMemory, Global};
use std::mem;

impl Situation {
    /// Whether these are the outputs that the behaviour makes where the object stands.
    pub fn makes_by(&self, alloc: Global, act: &Act, outs: &Row<Out>) -> Result<bool, NoMemory>
        requires { ActArgsFit act.now }
        ensures { IfOk result (λ same. IsTrue same ↔ MakesBy act.now (standing_of self.now) outs.now) }
    {
        let store = self.store.as_slice();
        makes(alloc, self.own, act, store, &self.params, outs.as_slice())
    }

    /// The outputs that the behaviour makes where the object stands.
    pub fn outputs_by(&self, alloc: Global, act: &Act) -> Result<Row<Out>, NoMemory>
        requires { ActArgsFit act.now }
        ensures { IfOk result (MakesBy act.now (standing_of self.now)) }
    {
        let store = self.store.as_slice();
        let Outcome { store: _, outs } = outcome(alloc, self.own, act, store, &self.params)?;
        Ok(outs)
    }
}

/// The behaviour of the item, if it has one with a statement; what has none makes nothing.
#[inline(always)]
pub fn stated_act(class: &Class, item: Item) -> Option<&Act>
    requires class { IsWellFormedClass class.now }
    requires place { HasPlace class.now.machine item }
    ensures some { IfSome result (λ act. Some act.now ≡ act_for class.now item) }
    ensures fits { IfSome result (λ act. ActArgsFit act.now) }
    ensures none { IfNone result (MakesNothing class.now item) }
{
    match behaviour_of(class, item) {
        Some(act) if !act.stmts.as_slice().is_empty() => Some(act),
        _ => None,
    }
}

// The behaviour of an exit, an effect or an entry; an opening and a pick have none.
#[inline(always)]
fn behaviour_of(class: &Class, item: Item) -> Option<&Act>
    requires { HasPlace class.now.machine item }
    ensures { option_copied result ≡ act_for class.now item }
{
    match item {
        Item::Exit(state) => act_at(class, class.machine.vertex(state).exit),
        Item::Effect(transition) => act_at(class, class.machine.transition(transition).effect),
        Item::Enter(state) => act_at(class, class.machine.vertex(state).entry),
        Item::Opened(_, _) | Item::Pick(_) => None,
    }
}

// The behaviour with a number.
#[inline(always)]
fn act_at(class: &Class, number: ActId) -> Option<&Act>
    ensures { option_copied result ≡ behaviour_at class.now number }
{
    class.program.acts.as_slice().get(usize::from(number.0))
}

/// The parameters become those of a signal with these arguments, continued by zeros to eight.
pub fn renew_params(params: &mut Args, alloc: Global, args: &Args)
    requires { length params.old ≡ 8 }
    ensures { params.new ≡ eight_of args.now }
{
    let old = mem::replace(params, Args::from_vec(Vec::new(alloc)));
    let mut values = old.into_vec();
    overwrite(values.as_mut_slice(), args.as_slice());
    *params = Args::from_vec(values);
}

/// The parameters become eight zeros.
pub fn clear_params(params: &mut Args, alloc: Global)
    requires { length params.old ≡ 8 }
    ensures { params.new ≡ no_params }
{
    let old = mem::replace(params, Args::from_vec(Vec::new(alloc)));
    let mut values = old.into_vec();
    values.as_mut_slice().copy_from_slice(&[0; 8]);
    *params = Args::from_vec(values);
}

// The values become these arguments, continued by zeros.
fn overwrite(values: &mut [i64], args: &[i64])
    requires eight { length values.old ≡ 8 }
    requires few { length args.now ≤ 8 }
    ensures { values.new ≡ eight_of args.now }
{
    values.copy_from_slice(&[0; 8]);
    let (front, _) = values.split_at_mut(args.len());
    front.copy_from_slice(args);
}
