//! What a machine answers that is made of a draft, and what is wrong with a draft that has no machine's shape.
mod copies;
mod places;
mod shapes;
