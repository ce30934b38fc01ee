//! One module a crate that is tried, and settings of texts.
mod journal;
mod judge;
mod settings;
mod tool;
