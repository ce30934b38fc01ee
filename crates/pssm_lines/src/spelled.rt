//! The parts of a line, and how each is written behind a text.
ghost use Rattle.std.specs.Prelude.{◌≡◌, ℕ, List, ◌∷◌, ◌++◌, map, OnOk, codes};
ghost use Rattle.std.specs.List.{flat_map, join_with_byte};
ghost use Rattle.std.specs.Fmt.{decimal, signed_decimal};
ghost use Rattle.pssm_lines.specs.LineText.{args_text, call_text, transition_text, route_text, routes_text, firing_text, out_text, outs_text, how_text};

use pssm_model::{Firing, How, Route, TransId};
use pssm_semantics::{Args, LineOut};
use pssm_spelling::{put_number, put_signed};
use std::alloc::{AllocError as NoMemory, Global};

/// A part of a line that has one spelling.
pub trait Spelled {
    ghost spelling: { Self → List ℕ };

    /// Writes it at the end of a text.
    fn put(&self, alloc: Global, text: &mut Vec<u8>) -> Result<(), NoMemory>
        ensures { OnOk result (text.new.items ≡ text.old.items ++ spelling self.now) };
}

/// Writes each part with a byte before it.
fn put_each<T: Spelled>(
    alloc: Global,
    text: &mut Vec<u8>,
    before: u8,
    parts: &[T],
) -> Result<(), NoMemory>
    ensures { OnOk result (text.new.items ≡ text.old.items ++ flat_map (λ x. before ∷ T.spelling x) parts.now) }
{
    for part in parts {
        text.push(before)?;
        part.put(alloc, text)?;
    }
    Ok(())
}

/// Writes the parts with a byte between two.
fn put_joined<T: Spelled>(
    alloc: Global,
    text: &mut Vec<u8>,
    between: u8,
    parts: &[T],
) -> Result<(), NoMemory>
    ensures { OnOk result (text.new.items ≡ text.old.items ++ join_with_byte between (map T.spelling parts.now)) }
{
    match parts {
        [] => Ok(()),
        [first, others @ ..] => {
            first.put(alloc, text)?;
            put_each(alloc, text, between, others)
        }
    }
}

impl Spelled for u32 {
    ghost spelling = { decimal };

    fn put(&self, alloc: Global, text: &mut Vec<u8>) -> Result<(), NoMemory> {
        put_number(alloc, text, u64::from(*self))
    }
}

impl Spelled for i64 {
    ghost spelling = { signed_decimal };

    fn put(&self, alloc: Global, text: &mut Vec<u8>) -> Result<(), NoMemory> {
        put_signed(alloc, text, *self)
    }
}

impl Spelled for Args {
    ghost spelling = { args_text };

    fn put(&self, alloc: Global, text: &mut Vec<u8>) -> Result<(), NoMemory> {
        text.push(b'(')?;
        put_joined(alloc, text, b',', self.as_slice())?;
        text.push(b')')?;
        Ok(())
    }
}

impl Spelled for TransId {
    ghost spelling = { transition_text };

    fn put(&self, alloc: Global, text: &mut Vec<u8>) -> Result<(), NoMemory> {
        text.push(b't')?;
        u32::from(self.0).put(alloc, text)
    }
}

impl Spelled for Route {
    ghost spelling = { route_text };

    fn put(&self, alloc: Global, text: &mut Vec<u8>) -> Result<(), NoMemory> {
        put_joined(alloc, text, b'+', self.starts.as_slice())?;
        put_each(alloc, text, b',', self.rest.as_slice())
    }
}

impl Spelled for Firing {
    ghost spelling = { firing_text };

    fn put(&self, alloc: Global, text: &mut Vec<u8>) -> Result<(), NoMemory> {
        match self.routes.as_slice() {
            [] => text.extend_from_slice(b"-"),
            routes => put_joined(alloc, text, b' ', routes),
        }
    }
}

impl Spelled for How {
    ghost spelling = { how_text };

    fn put(&self, alloc: Global, text: &mut Vec<u8>) -> Result<(), NoMemory> {
        match self {
            How::By(route) => {
                text.extend_from_slice(b"by ")?;
                route.put(alloc, text)
            }
            How::Restore(state) => {
                text.extend_from_slice(b"state v")?;
                u32::from(state.0).put(alloc, text)
            }
            How::Nothing => text.extend_from_slice(b"none"),
        }
    }
}

/// Writes a signal at an object, with its arguments.
pub fn put_call(
    alloc: Global,
    text: &mut Vec<u8>,
    object: &[u8],
    signal: &[u8],
    args: &Args,
) -> Result<(), NoMemory>
    ensures { OnOk result (text.new.items ≡ text.old.items ++ call_text object.now signal.now args.now) }
{
    text.extend_from_slice(object)?;
    text.push(b'.')?;
    text.extend_from_slice(signal)?;
    args.put(alloc, text)
}

impl Spelled for LineOut {
    ghost spelling = { out_text };

    fn put(&self, alloc: Global, text: &mut Vec<u8>) -> Result<(), NoMemory> {
        match self {
            LineOut::Mark { mark, args } => {
                text.push(b'!')?;
                text.extend_from_slice(mark.as_slice())?;
                args.put(alloc, text)
            }
            LineOut::Send {
                object,
                signal,
                args,
            } => {
                text.push(b'>')?;
                put_call(alloc, text, object.as_slice(), signal.as_slice(), args)
            }
        }
    }
}

/// Writes outputs, each with a space before it.
pub fn put_outs(alloc: Global, text: &mut Vec<u8>, outs: &[LineOut]) -> Result<(), NoMemory>
    ensures { OnOk result (text.new.items ≡ text.old.items ++ outs_text outs.now) }
{
    put_each(alloc, text, b' ', outs)
}
