//! How names and numbers are spelled in texts: models, journals, behaviours, words of the program, and its answers.
//!
//! [`front`] reads them from the front of a text, [`numbers`] reads a whole word as a number, and [`writing`] puts a
//! number at the end of a text; [`laws`] says what is taken from a front, in words that follow no reader. [`keys`] has
//! names as a map keeps them, and as they are sought in it. What a text says is for the crates above; here is the one
//! place that knows that a name has at most 64 bytes and that a number has no leading zeros.
#![tactic(auto)]

mod front;
mod keys;
mod laws;
mod numbers;
mod words;
mod writing;

pub use front::{
    NAME_LEN, digits_len, index_at, is_decimal, is_plain_number, name_at, name_len, name_starts,
    number_at, strip,
};
pub use keys::{KeptName, LentName};
pub use laws::longest_front;
pub use numbers::{magnitude, spells_natural};
pub use words::number_of;
pub use writing::{put_number, put_signed};
