//! Numbers among the words.
ghost use Rattle.std.specs.Prelude.{◌≡◌, ◌≢◌, ◌≤◌, ℕ, length, slice_index, IfSome, IfNone, IsTrue, ◌↔◌};
ghost use Rattle.pssm_spelling.specs.Numbers.{IsNumber};

/// The number that the word spells in decimal, without sign or leading zeros, where it is in the range.
pub fn number_of(word: &str, least: u64, greatest: u64) -> Option<u64>
    ensures number { IfSome result (λ n. IsNumber word.now least greatest n) }
    ensures none { IfNone result ((n : ℕ) → IsNumber word.now least greatest n → ⊥) }
{
    if !is_plain(word.as_bytes()) {
        return None;
    }
    match word.parse::<u64>() {
        Ok(n) if least <= n && n <= greatest => Some(n),
        _ => None,
    }
}

// Whether there is neither a sign nor a leading zero.
fn is_plain(word: &[u8]) -> bool
    ensures { IsTrue result ↔ ((slice_index word.now 0 ≢ 43) × (slice_index word.now 0 ≡ 48 → length word.now ≤ 1)) }
{
    match word {
        [b'+', ..] => false,
        [b'0', _, ..] => false,
        _ => true,
    }
}
