//! The elements of an XML text: where each begins, what it is called, its attributes, its text, and the element in which
//! it stands.
//!
//! A text is cut into pieces, and the pieces make a tree. What is taken is a part of XML 1.0 that this profile states:
//! no document types, no more than 128 elements that are open, values that are not normalised. The definitions stand in
//! `specs/`. This crate knows nothing of ids, of types or of UML.
#![tactic(auto)]

mod characters;
mod different;
mod document;
mod elements;
mod fault;
mod laws;
mod links;
mod pieces;
mod progress;
mod references;
mod scan;
mod span;
mod store;
mod tags;
mod values;

pub use document::elements_of;
pub use elements::Elements;
pub use fault::TextFault;
pub use laws::{one_tree, some_tree};
