//! The texts of behaviours and expressions.
ghost use Rattle.std.specs.Prelude.{◌≡◌, ◌<◌, length, IfOk};
ghost use Rattle.pssm_parts.specs.Texts as texts;

use crate::bodies::{body_at, choice_of};
use pssm_model::{Body, Text};
use pssm_numbering::File;
use pssm_values::MeantBody;
use std::alloc::{AllocError as NoMemory, Global};

// The bytes of the body that is meant; none where no body is.
fn meant_bytes(file: &File, n: u32) -> &[u8]
    requires { n < length file.now.doc }
    ensures { result.now ≡ texts.text_of file.now n }
{
    match choice_of(file, n).meant() {
        MeantBody::At(place) => body_at(file, n, place).unwrap_or(b""),
        _ => b"",
    }
}

/// The text of the behaviour or expression: that of the body that is meant (UML 2.5.1, 13.4, OpaqueBehavior, and 8.6,
/// OpaqueExpression); empty where none is.
pub fn text_of(alloc: Global, file: &File, n: u32) -> Result<Text, NoMemory>
    requires { n < length file.now.doc }
    ensures { IfOk result (λ text. text ≡ texts.text_of file.now n) }
{
    Ok(Text::from_vec(meant_bytes(file, n).to_vec(alloc)?))
}

/// A body with this text, which is that of the element.
pub fn body_with(alloc: Global, file: &File, n: u32, text: Text) -> Result<Body, NoMemory>
    requires { n < length file.now.doc }
    ensures { IfOk result (λ body. body ≡ texts.body_with file.now n text) }
{
    Ok(Body {
        id: Text::from_vec(file.id(n).to_vec(alloc)?),
        at: file.at(n),
        text,
    })
}

/// The behaviour that stands in the element under this name, where one does.
pub fn behaviour_named(
    alloc: Global,
    file: &File,
    n: u32,
    name: &[u8],
) -> Result<Option<Body>, NoMemory>
    requires { n < length file.now.doc }
    ensures { IfOk result (λ body. body ≡ texts.behaviour_named name.now file.now n) }
{
    let Some(behaviour) = file.child_named(n, name) else {
        return Ok(None);
    };
    let text = text_of(alloc, file, behaviour)?;
    Ok(Some(body_with(alloc, file, behaviour, text)?))
}
