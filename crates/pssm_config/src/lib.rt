//! Configurations: which States are active, what regions remember, and what is done and finished.
//!
//! This crate keeps one `Configuration` of a machine (`pssm_model`, `specs/Configuration.antt`) in tables by number. Each call
//! that changes it does what one thing that happens does by `specs/Changes.antt` there, and each question is answered exactly. It
//! knows nothing of routes, of the order of a step, or of journals.
#![tactic(auto)]

mod config;

pub use config::Config;
