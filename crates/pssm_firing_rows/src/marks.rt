//! Sets of numbers below 64.

/// A set of numbers below 64: of vertices, transitions, guards or places in a list.
#[derive(Clone, Copy, PartialEq, Eq)]
pub(crate) struct Marks {
    bits: u64,
}

impl Marks {
    /// The set of the places at which the word has a 1.
    pub(crate) fn of_word(word: u64) -> Marks {
        Marks { bits: word }
    }

    /// The set of nothing.
    pub(crate) fn none() -> Marks {
        Marks { bits: 0 }
    }

    /// Whether the number is in the set.
    pub(crate) fn has(self, number: u16) -> bool {
        number < 64 && (self.bits >> number) & 1 == 1
    }

    /// The set with the number.
    pub(crate) fn with(self, number: u16) -> Marks {
        if number < 64 {
            Marks {
                bits: self.bits | (1 << number),
            }
        } else {
            self
        }
    }

    /// Whether there is nothing in the set.
    pub(crate) fn is_none(self) -> bool {
        self.bits == 0
    }

    /// What is in both sets.
    pub(crate) fn common(self, other: Marks) -> Marks {
        Marks {
            bits: self.bits & other.bits,
        }
    }

    /// Whether something is in both sets.
    pub(crate) fn meets(self, other: Marks) -> bool {
        !self.common(other).is_none()
    }

    /// Whether all that is in the set is in the other.
    pub(crate) fn lies_in(self, other: Marks) -> bool {
        self.common(other) == self
    }
}

/// How many sets there are of numbers below the count; of more than 10 none is counted.
pub(crate) fn count_sets(count: u16) -> u64 {
    if count > 10 {
        return 0;
    }
    1 << count
}
