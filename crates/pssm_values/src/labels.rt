//! Labels of States.
ghost use Rattle.std.specs.Prelude.{◌≡◌, ◌++◌, map, IfOk};
ghost use Rattle.std.specs.Option.{option_copied};
ghost use Rattle.pssm_values.specs.Labels.{label_byte, label_said};

use pssm_model::Text;
use std::alloc::{AllocError as NoMemory, Global};

// The byte, or a space where it is a control character.
fn shown(c: u8) -> u8
    ensures { result ≡ label_byte c }
{
    if c < b' ' || c == 127 { b' ' } else { c }
}

// The bytes, each control character made a space.
fn shown_bytes(alloc: Global, name: &[u8]) -> Result<Vec<u8>, NoMemory>
    ensures { IfOk result (λ text. text.items ≡ map label_byte name.now) }
{
    let mut text = Vec::new(alloc);
    for c in name {
        text.push(shown(*c))?;
    }
    Ok(text)
}

/// The label of a State with this name: each of the characters U+0000 to U+001F and U+007F becomes a space, and all
/// else stays; a missing or empty name gives none (this profile's choice).
pub fn label(alloc: Global, name: Option<&[u8]>) -> Result<Option<Text>, NoMemory>
    ensures { IfOk result (λ label. label ≡ label_said (option_copied name.entry)) }
{
    match name {
        None => Ok(None),
        Some([]) => Ok(None),
        Some(name) => Ok(Some(Text::from_vec(shown_bytes(alloc, name)?))),
    }
}
