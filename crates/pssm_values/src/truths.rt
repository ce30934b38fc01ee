//! Truth values.
ghost use Rattle.std.specs.Prelude.{◌≡◌};
ghost use Rattle.std.specs.Option.{option_copied};
ghost use Rattle.pssm_values.specs.Truths.{truth_spelled, truth_said};

/// The truth value that the word spells, `true` or `false`; none where it spells none (this profile's choice: neither
/// `1` nor `0` is one).
pub fn truth_of(word: &[u8]) -> Option<bool>
    ensures { result ≡ truth_spelled word.now }
{
    if word == b"true".as_slice() {
        Some(true)
    } else if word == b"false".as_slice() {
        Some(false)
    } else {
        None
    }
}

/// What an attribute says that holds a truth value; a missing one is `false` (UML 2.5.1, 8.6, LiteralBoolean, and
/// 9.9, isAbstract and isLeaf).
pub fn truth(value: Option<&[u8]>) -> Option<bool>
    ensures { result ≡ truth_said (option_copied value.entry) }
{
    match value {
        Some(word) => truth_of(word),
        None => Some(false),
    }
}
