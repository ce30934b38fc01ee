//! Guards.
ghost use Rattle.std.specs.Prelude.{◌≡◌, ◌↔◌, ◌<◌, length, codes, IfOk, IsTrue, if◌then◌else◌};
ghost use Rattle.std.specs.Option.{option_map_or};
ghost use Rattle.pssm_values.specs.Guards.{SaysElse};
ghost use Rattle.pssm_numbering.specs.Numbering.{child_with, is_guard};
ghost use Rattle.pssm_numbering.specs.Meanings.{is_true};
ghost use Rattle.pssm_parts.specs.Texts as texts;
ghost use Rattle.pssm_model.specs.declared.draft_setting.PartGuard.TheVariants.{Missing, Given, Otherwise};

use crate::behaviours::{body_with, text_of};
use pssm_model::{PartGuard, Text};
use pssm_numbering::{File, Kind};
use pssm_roles::Role;
use std::alloc::{AllocError as NoMemory, Global};

/// The text of a literal truth value, as guards are written.
pub fn truth_text(alloc: Global, b: bool) -> Result<Text, NoMemory>
    ensures { IfOk result (λ text. text ≡ texts.truth_text b) }
{
    let bytes = if b {
        b"true".as_slice()
    } else {
        b"false".as_slice()
    };
    Ok(Text::from_vec(bytes.to_vec(alloc)?))
}

/// Whether the text is `else`, blanks around it dropped: its only word is (UML 2.5.1, 14.2.3.7, choice and junction: the
/// predefined guard `else`).
pub fn says_else(text: &[u8]) -> bool
    ensures word { result ≡ texts.says_else text.now }
    ensures whole { IsTrue result ↔ SaysElse text.now }
{
    pssm_values::says_else(text)
}

// The guard that has a literal truth value.
fn literal_guard(alloc: Global, file: &File, g: u32, v: u32) -> Result<PartGuard, NoMemory>
    requires guard { g < length file.now.doc }
    requires literal { v < length file.now.doc }
    ensures { IfOk result (λ guard. guard
        ≡ Given (texts.body_with file.now g (texts.truth_text (is_true (codes "value") file.now v)))) }
{
    let text = truth_text(alloc, file.is_true(v, b"value"))?;
    Ok(PartGuard::Given(body_with(alloc, file, g, text)?))
}

// The guard that has this text.
fn text_guard(alloc: Global, file: &File, g: u32, text: Text) -> Result<PartGuard, NoMemory>
    requires { g < length file.now.doc }
    ensures { IfOk result (λ guard. guard
        ≡ (if texts.says_else text then Otherwise else Given (texts.body_with file.now g text))) }
{
    if says_else(text.as_slice()) {
        Ok(PartGuard::Otherwise)
    } else {
        Ok(PartGuard::Given(body_with(alloc, file, g, text)?))
    }
}

// The guard that has this value.
fn guard_with(alloc: Global, file: &File, g: u32, v: u32) -> Result<PartGuard, NoMemory>
    requires guard { g < length file.now.doc }
    requires within { v < length file.now.doc }
    ensures { IfOk result (λ guard. guard ≡ texts.guard_with file.now g v) }
{
    if file.role(v) == Role::Literal {
        return literal_guard(alloc, file, g, v);
    }
    let text = text_of(alloc, file, v)?;
    text_guard(alloc, file, g, text)
}

// The guard that the element is.
fn guard_at(alloc: Global, file: &File, g: u32) -> Result<PartGuard, NoMemory>
    requires { g < length file.now.doc }
    ensures { IfOk result (λ guard. guard ≡ texts.guard_of file.now g) }
{
    match file.child_named(g, b"specification") {
        None => Ok(PartGuard::Missing),
        Some(value) => guard_with(alloc, file, g, value),
    }
}

/// The guard of the transition: without a guard or its value it is missing; it is `else`, or a text (UML 2.5.1,
/// 14.2.3.8, transitions).
pub fn guard_of(alloc: Global, file: &File, t: u32) -> Result<PartGuard, NoMemory>
    requires { t < length file.now.doc }
    ensures { IfOk result (λ guard. guard
        ≡ option_map_or (texts.guard_of file.now) (child_with is_guard file.now t) Missing) }
{
    match file.child_with(t, Kind::Guard) {
        None => Ok(PartGuard::Missing),
        Some(guard) => guard_at(alloc, file, guard),
    }
}
