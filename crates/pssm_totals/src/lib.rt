//! What machines have together with all that they extend: for each machine of a file the sum of a
//! count over it and the machines that it extends, directly or through others, each once, also
//! where machines extend each other in a circle. The sums of all machines are found in one go, in
//! time that grows as the number of machines.
//!
//! The definitions stand in `specs/`. This crate knows machines as numbers, and does not know what
//! is counted.
#![tactic(auto)]

mod laws;
mod marks;
mod settling;
mod totals;
mod walking;

pub use laws::few_by_total;
pub use totals::totals_of;
