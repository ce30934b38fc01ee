//! What becomes of values where a line cannot stand, or where memory runs out.
//!
//! They are let go here, in one place, and not once for each of their parts in each of those places.
ghost use Rattle.std.specs.Prelude.{◌≡◌, MatchResult, Option, None, Ok, Err};
ghost use Rattle.pssm_flat.specs.inner.Outlines.{kept as kept_if};

use std::alloc::AllocError;

/// Nothing, in place of what was to be made of these parts.
pub(crate) fn nothing<P: Drop, T>(_parts: P) -> Option<T>
    ensures { result ≡ None }
{
    None
}

/// A fault, in place of what was to be made of these parts.
pub(crate) fn refused<P: Drop, T, E>(_parts: P, fault: E) -> Result<T, E>
    ensures { result ≡ Err fault }
{
    Err(fault)
}

/// A value, where it was taken further.
pub(crate) fn kept<T: Drop>(
    taken: Result<bool, AllocError>,
    value: T,
) -> Result<Option<T>, AllocError>
    ensures { MatchResult taken (λ is. result ≡ Ok (kept_if is value)) (λ fault. result ≡ Err fault) }
{
    match taken {
        Ok(true) => Ok(Some(value)),
        Ok(false) => Ok(None),
        Err(fault) => Err(fault),
    }
}
