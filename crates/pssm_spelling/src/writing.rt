//! Numbers at the end of a text.
ghost use Rattle.std.specs.Prelude.{◌≡◌, ◌++◌, OnOk};
ghost use Rattle.std.specs.Fmt.{decimal, signed_decimal};

use std::alloc::{AllocError as NoMemory, Global};

/// Writes a number in decimal at the end of a text.
pub fn put_number(alloc: Global, text: &mut Vec<u8>, number: u64) -> Result<(), NoMemory>
    ensures { OnOk result (text.new.items ≡ text.old.items ++ decimal number) }
{
    let digits = number.to_string(alloc)?;
    text.extend_from_slice(digits.as_bytes())
}

/// Writes a number in decimal at the end of a text, with a `-` before it where it is below zero.
pub fn put_signed(alloc: Global, text: &mut Vec<u8>, number: i64) -> Result<(), NoMemory>
    ensures { OnOk result (text.new.items ≡ text.old.items ++ signed_decimal number) }
{
    let spelling = number.to_string(alloc)?;
    text.extend_from_slice(spelling.as_bytes())
}
