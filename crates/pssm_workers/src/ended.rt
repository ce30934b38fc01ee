//! How a run ends.

/// How a run ends.
#[derive(Clone, Copy, PartialEq, Eq)]
pub enum Ended {
    /// All stimuli are posted, and nothing more can happen.
    Quiet,
    /// The journal has as many entries as it may have, or no room for the posts, sends and marks of
    /// one more.
    Limit,
}
