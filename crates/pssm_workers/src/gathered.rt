//! What workers leave behind.
use pssm_book::Book;
use std::sync::ledger::{Ledger, Share};

/// What workers leave behind: the book, and all their shares of its ledger as one.
#[derive(Drop)]
pub struct Gathered<L: Ledger> {
    pub book: Book<L>,
    pub share: Share<L>,
}
