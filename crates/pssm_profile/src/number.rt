//! `Number`: none, one or several.
ghost use Rattle.std.specs.Prelude.{◌≡◌};
ghost use Rattle.pssm_profile.specs.inner.Numbers.{number_of as number_for, together};

/// How many there are, as far as it is asked: none, one, or more.
#[derive(Clone, Copy, PartialEq, Eq)]
pub enum Number {
    Nothing,
    One,
    Several,
}

// So many, as a number.
pub(crate) fn number_of(count: usize) -> Number
    ensures { result ≡ number_for count }
{
    match count {
        0 => Number::Nothing,
        1 => Number::One,
        _ => Number::Several,
    }
}

impl Number {
    /// How many these and those are together.
    pub fn and(self, other: Number) -> Number
        ensures { result ≡ together self other }
    {
        match self {
            Number::Nothing => other,
            Number::One => match other {
                Number::Nothing => Number::One,
                Number::One => Number::Several,
                Number::Several => Number::Several,
            },
            Number::Several => Number::Several,
        }
    }
}
