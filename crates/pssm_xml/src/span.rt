//! Spans of one stored list.

// The places from `from` up to `to`, which is not among them.
#[derive(Clone, Copy)]
pub(crate) struct Span {
    pub(crate) from: u32,
    pub(crate) to: u32,
}
