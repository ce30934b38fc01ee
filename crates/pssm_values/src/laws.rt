//! A law of labels.
ghost use Rattle.std.specs.Prelude.{◌≡◌, ℕ, List, map, encode_utf8_all};
ghost use Rattle.pssm_values.specs.Labels.{label_byte};

/// What [`crate::label`] does to the bytes of a name it does to its characters: in UTF-8 the characters U+0000 to
/// U+001F and U+007F are one byte each, and no other character has such a byte.
#[tactic(auto, using(crate::proofs::LabelLaws::by_characters))]
pub fn labels_by_characters()
    ensures { (characters : List ℕ)
        → map label_byte (encode_utf8_all characters) ≡ encode_utf8_all (map label_byte characters) }
{}
