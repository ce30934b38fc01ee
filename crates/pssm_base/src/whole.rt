//! All that a path holds, in memory.
ghost use Rattle.std.specs.Prelude.{◌≡◌, ◌<◌, ◌≤◌, ◌≢◌, ◌+◌, [], length, IfSome, IfOk, IfErr, OnOk, vec_len, IsErrOf};
ghost use Rattle.pssm_base.specs.Faults.{Rose, NoneFell};
ghost use Rattle.pssm_base.specs.History.{Added, Adds, Grows, ReadsAll, ReadsFront, ReadsPast};
ghost use Rattle.pssm_base.specs.Reading.{SameContent};
ghost use Rattle.pssm_base.specs.inner.Filling.{IsRead, ReadsMore};

use crate::{Inputs, WholeFault};
use std::alloc::Global;

// How many bytes are read at a time, at most.
const PIECE: usize = 8192;

// For how many bytes there is room from the start: most paths hold fewer, and what is read of them is never moved.
const ROOM: usize = 262_144;

/// Reads all that stands under `path`, where that is at most `limit` bytes. It reads at least one byte a turn,
/// and no more than one byte past `limit`.
///
/// It answers [`WholeFault::TooLarge`] where there are more bytes, [`WholeFault::ReadFault`] where a read failed,
/// and [`WholeFault::NoMemory`] where there was no memory for the bytes. Nothing that was read is kept then, and
/// what a path holds is as before.
pub fn read_whole<I: Inputs>(
    alloc: Global,
    inputs: &mut I,
    path: &str,
    limit: u64,
) -> Result<Vec<u8>, WholeFault>
    requires { limit < 4294967296 }

    // The bytes are all that the path holds.
    ensures whole { IfOk result (λ bytes. IfSome (I.content inputs.old path.now)
        (λ held. bytes.items ≡ held)) }
    ensures at_most { IfOk result (λ bytes. vec_len bytes ≤ limit) }

    // The bytes are all that was read of it, once and from its start to its end, where the calls are kept.
    ensures given { IfOk result (λ bytes. Added (I.history inputs.old) (I.history inputs.new)
        (λ calls. ReadsAll path.now calls bytes.items)) }

    // Too large exactly where the path holds more than the limit.
    ensures too_large { IsErrOf result WholeFault.TooLarge → IfSome (I.content inputs.old path.now)
        (λ held. limit < length held) }
    ensures fits { OnOk result (IfSome (I.content inputs.old path.now) (λ held. length held ≤ limit)) }

    // Too large only where as many bytes as the limit and one more were read, where the calls are kept.
    ensures past { IsErrOf result WholeFault.TooLarge → Added (I.history inputs.old) (I.history inputs.new)
        (λ calls. ReadsPast path.now calls limit) }
    ensures grows { Grows (I.history inputs.old) (I.history inputs.new) }

    // A read fault is the path's own, and comes behind what was read of it, where the calls are kept.
    ensures fault { IsErrOf result WholeFault.ReadFault → Added (I.history inputs.old) (I.history inputs.new)
        (λ calls. ReadsFront path.now calls) }
    ensures read_fault { IsErrOf result WholeFault.ReadFault
        → Rose (I.faults inputs.old path.now) (I.faults inputs.new path.now) }
    ensures counts { NoneFell (I.faults inputs.old) (I.faults inputs.new) }
    ensures same { SameContent (I.content inputs.old) (I.content inputs.new) }
{
    let mut bytes = Vec::with_capacity(alloc, ROOM)?;
    let mut piece = vec![in alloc; 0u8; PIECE]?;
    fill(inputs, path, limit, &mut bytes, &mut piece)?;
    Ok(bytes)
}

// Reads piece after piece to the end of the path, or until the bytes are more than the limit.
fn fill<I: Inputs>(
    inputs: &mut I,
    path: &str,
    limit: u64,
    bytes: &mut Vec<u8>,
    piece: &mut [u8],
) -> Result<(), WholeFault>
    requires limit { limit < 4294967296 }
    requires room { 0 < length piece.old }
    requires empty { bytes.old.items ≡ [] }
    ensures whole { OnOk result (IfSome (I.content inputs.old path.now)
        (λ held. bytes.new.items ≡ held)) }
    ensures at_most { OnOk result (vec_len bytes.new ≤ limit) }
    ensures given { OnOk result (Added (I.history inputs.old) (I.history inputs.new)
        (λ calls. ReadsAll path.now calls bytes.new.items)) }
    ensures past { IsErrOf result WholeFault.TooLarge → Added (I.history inputs.old) (I.history inputs.new)
        (λ calls. ReadsPast path.now calls limit) }
    ensures grows { Grows (I.history inputs.old) (I.history inputs.new) }
    ensures fault { IsErrOf result WholeFault.ReadFault → Added (I.history inputs.old) (I.history inputs.new)
        (λ calls. ReadsFront path.now calls) }
    ensures too_large { IsErrOf result WholeFault.TooLarge → IfSome (I.content inputs.old path.now)
        (λ held. limit < length held) }
    ensures fits { OnOk result (IfSome (I.content inputs.old path.now) (λ held. length held ≤ limit)) }
    ensures read_fault { IsErrOf result WholeFault.ReadFault
        → Rose (I.faults inputs.old path.now) (I.faults inputs.new path.now) }
    ensures counts { NoneFell (I.faults inputs.old) (I.faults inputs.new) }
    ensures same { SameContent (I.content inputs.old) (I.content inputs.new) }
{
    while bytes.len() as u64 <= limit {
        let left = limit + 1 - bytes.len() as u64;
        let room = left.min(piece.len() as u64) as usize;
        let (front, _) = piece.split_at_mut(room);
        if read_piece(inputs, path, bytes, front)? == 0 {
            return Ok(());
        }
    }
    Err(WholeFault::TooLarge)
}

// Reads a piece more of what stands under the path, and answers how many bytes: 0 only at the end.
fn read_piece<I: Inputs>(
    inputs: &mut I,
    path: &str,
    bytes: &mut Vec<u8>,
    piece: &mut [u8],
) -> Result<usize, WholeFault>
    requires room { 0 < length piece.old }
    requires so_far { IsRead (I.content inputs.old path.now) bytes.old.items }

    // What was read, and that all was.
    ensures front { OnOk result (IsRead (I.content inputs.old path.now) bytes.new.items) }
    ensures within { IfOk result (λ n. n ≤ length piece.old) }
    ensures len { IfOk result (λ n. vec_len bytes.new ≡ vec_len bytes.old + n) }
    ensures more { IfOk result
        (ReadsMore (I.history inputs.old) (I.history inputs.new) path.now bytes.old.items bytes.new.items) }
    ensures grows { Grows (I.history inputs.old) (I.history inputs.new) }
    ensures end { IfOk result (λ n. n ≡ 0 → IfSome (I.content inputs.old path.now)
        (λ held. bytes.new.items ≡ held)) }

    // A fault, and what the call leaves.
    ensures not_large { IfErr result (λ e. e ≢ WholeFault.TooLarge) }
    ensures read_fault { IsErrOf result WholeFault.ReadFault
        → Rose (I.faults inputs.old path.now) (I.faults inputs.new path.now) }
    ensures fault { IsErrOf result WholeFault.ReadFault → Adds (I.history inputs.old) (I.history inputs.new) [] }
    ensures counts { NoneFell (I.faults inputs.old) (I.faults inputs.new) }
    ensures same { SameContent (I.content inputs.old) (I.content inputs.new) }
{
    let count = inputs.read_at(path, bytes.len() as u64, piece)?;
    let (front, _) = piece.split_at(count);
    bytes.extend_from_slice(front)?;
    Ok(count)
}
