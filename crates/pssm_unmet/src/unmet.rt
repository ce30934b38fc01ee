//! `Unmet`: what is wrong with a reference.
ghost use Rattle.std.specs.Prelude.{◌≡◌};
ghost use Rattle.pssm_unmet.specs.inner.Found as found;

/// What is wrong with a reference. `at` is the byte at which the element begins where the reference
/// stands: the element that has it, or its child that holds it.
#[derive(Clone, Copy, PartialEq, Eq)]
pub enum Unmet {
    /// No element of the right kind has the id.
    Unknown { at: u32 },
    /// The id is that of an event, but not that a signal came.
    Event { at: u32 },
}

// The place of a fault among all, by bytes, and at one byte an unknown element first.
fn order(one: Unmet) -> u64
    ensures { result ≡ found.order one }
{
    match one {
        Unmet::Unknown { at } => 2 * u64::from(at),
        Unmet::Event { at } => 2 * u64::from(at) + 1,
    }
}

// The earlier of two; the first where they stand at one place.
pub(crate) fn earlier(one: Option<Unmet>, other: Option<Unmet>) -> Option<Unmet>
    ensures { result ≡ found.earlier one other }
{
    match (one, other) {
        (None, _) => other,
        (_, None) => one,
        (Some(a), Some(b)) => if order(b) < order(a) { other } else { one },
    }
}
