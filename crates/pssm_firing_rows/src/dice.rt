//! Numbers that look random and are the same at each run.
ghost use Rattle.std.specs.Prelude.{◌≤◌};

/// The state of a generator of numbers (splitmix64).
#[derive(Clone, Copy)]
pub(crate) struct Dice {
    state: u64,
}

impl Dice {
    /// The numbers of a seed.
    pub(crate) fn new(seed: u64) -> Dice {
        Dice { state: seed }
    }

    /// The next number.
    pub(crate) fn word(&mut self) -> u64 {
        self.state = self.state.wrapping_add(0x9e37_79b9_7f4a_7c15);
        let mixed = (self.state ^ (self.state >> 30)).wrapping_mul(0xbf58_476d_1ce4_e5b9);
        let mixed = (mixed ^ (mixed >> 27)).wrapping_mul(0x94d0_49bb_1331_11eb);
        mixed ^ (mixed >> 31)
    }

    /// A number below the count, or 0 where that is 0.
    pub(crate) fn below(&mut self, count: u16) -> u16
        ensures { result ≤ count }
    {
        let word = self.word();
        if count == 0 {
            return 0;
        }
        (word % count as u64) as u16
    }

    /// Whether something that happens once in so many times happens.
    pub(crate) fn once_in(&mut self, count: u16) -> bool {
        self.below(count) == 0
    }

    /// One of these numbers; none where there is none.
    pub(crate) fn one_of(&mut self, numbers: &[u16]) -> Option<u16> {
        let count = if numbers.len() < 64 {
            numbers.len() as u16
        } else {
            64
        };
        let place = self.below(count);
        match numbers.get(place as usize) {
            Some(number) => Some(*number),
            None => None,
        }
    }
}
