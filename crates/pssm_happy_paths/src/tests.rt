//! One module a crate that is tried, and drafts, which several of them make.
mod base;
mod config;
mod drafts;
mod lines;
mod model;
mod pool;
mod semantics;
mod spelling;
mod totals;
mod wellformed;
