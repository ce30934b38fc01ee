//! `SlotId`: the number of a slot.

/// The number of a slot. It names a value from when the value comes until it is taken out.
#[derive(Clone, Copy, PartialEq, Eq)]
pub struct SlotId(pub u32);
