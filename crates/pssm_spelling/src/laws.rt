//! A law of fronts: what is taken is the longest that stands there.
ghost use Rattle.std.specs.Prelude.{◌≡◌, ◌↔◌, ◌++◌, ℕ, List, Some};
ghost use Rattle.pssm_spelling.specs.SpellingReading.{stripped, name_taken, number_taken, index_taken};
ghost use Rattle.pssm_spelling.specs.Fronts.{IsNameAt, IsNumberAt};

/// What [`crate::strip`], [`crate::name_at`], [`crate::number_at`] and [`crate::index_at`] take of a text, in words that
/// follow no reader: what is left behind a fixed front; the longest front that is spelled as a name, where it has at
/// most 64 bytes; the longest front of digits, where it is a number in decimal within the limit.
pub fn longest_front()
    ensures fixed { (front bytes rest : List ℕ) → (stripped front bytes ≡ Some rest) ↔ (bytes ≡ front ++ rest) }
    ensures name { (bytes name rest : List ℕ) → (name_taken bytes ≡ Some (name, rest)) ↔ IsNameAt bytes name rest }
    ensures number { (bytes : List ℕ) (n : ℕ) (rest : List ℕ)
        → (number_taken bytes ≡ Some (n, rest)) ↔ IsNumberAt 4294967296 bytes n rest }
    ensures index { (bytes : List ℕ) (n : ℕ) (rest : List ℕ)
        → (index_taken bytes ≡ Some (n, rest)) ↔ IsNumberAt 65536 bytes n rest }
{}
