//! Numbers that stand for chance, the same at each run of the program.

/// What the first number is made of.
const SEED: u64 = 88_172_645_463_325_252;

/// A sequence of numbers, each from the one before (Knuth's linear congruential generator).
#[derive(Debug, Drop)]
pub struct Chance {
    state: u64,
}

impl Chance {
    /// The sequence, which is always the same one.
    pub fn new() -> Chance {
        Chance { state: SEED }
    }

    /// The next number, below one that is not 0; else 0.
    pub fn below(&mut self, count: u32) -> u32 {
        self.state = self
            .state
            .wrapping_mul(6_364_136_223_846_793_005)
            .wrapping_add(1_442_695_040_888_963_407);
        if count == 0 {
            return 0;
        }
        u32::try_from((self.state >> 33) % u64::from(count)).unwrap_or(0)
    }

    /// The next number below the length of a list; 0 where it has none.
    pub fn below_length(&mut self, length: usize) -> usize {
        let count = u32::try_from(length).unwrap_or(u32::MAX);
        self.below(count) as usize
    }

    /// Whether the next of so many equal chances comes.
    pub fn comes(&mut self, chances: u32) -> bool {
        self.below(chances) == 0
    }
}
