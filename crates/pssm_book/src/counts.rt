//! How many entries and outputs a journal has, and when it is full.
ghost use Rattle.std.specs.Prelude.{◌≡◌, ◌↔◌, length, IsTrue};
ghost use Rattle.pssm_semantics.specs.Pool.{posts_of_entry, outs_of};
ghost use Rattle.pssm_book.specs.Counts.{IsFullAt};

use pssm_semantics::Entry;

// The most posts, sends and marks of a journal that has room for those of one more entry.
const MOST_OUTPUTS: usize = 1_999_936;

/// Whether a journal with so many entries and outputs is full.
pub fn is_full(entries: usize, outputs: usize, limit: u32) -> bool
    ensures { IsTrue result ↔ IsFullAt limit entries outputs }
{
    entries == limit as usize || outputs > MOST_OUTPUTS
}

/// How many signals an entry posts.
pub fn post_count(entry: &Entry) -> usize
    ensures { result ≡ length (posts_of_entry entry.now) }
{
    match entry {
        Entry::Post { .. } => 1,
        _ => 0,
    }
}

/// How many sends and marks an entry has.
pub fn out_count(entry: &Entry) -> usize
    ensures { result ≡ length (outs_of entry.now) }
{
    match entry {
        Entry::Exit { outs, .. }
        | Entry::Effect { outs, .. }
        | Entry::Enter { outs, .. }
        | Entry::DoStep { outs, .. } => outs.as_slice().len(),
        _ => 0,
    }
}
