//! Sets of up to 256 values, by number.

/// A set of values: a bit for each.
#[derive(Clone, Copy, Debug, PartialEq, Eq)]
pub struct Values {
    words: (u64, u64, u64, u64),
}

/// The most values of a quantity.
pub const MOST_VALUES: u32 = 256;

/// The word with one bit.
fn bit_of(number: u32) -> u64 {
    1 << (number % 64)
}

impl Values {
    /// No value.
    pub fn none() -> Values {
        Values {
            words: (0, 0, 0, 0),
        }
    }

    /// The values below a number.
    pub fn below(count: u32) -> Values {
        let mut all = Values::none();
        for number in 0..count.min(MOST_VALUES) {
            all = all.with(number);
        }
        all
    }

    /// Those values below a number that have this bit.
    pub fn with_bit(count: u32, bit: u32) -> Values {
        let mut some = Values::none();
        for number in 0..count.min(MOST_VALUES) {
            if bit < 8 && (number >> bit) % 2 == 1 {
                some = some.with(number);
            }
        }
        some
    }

    /// With one value more.
    pub fn with(self, number: u32) -> Values {
        let (a, b, c, d) = self.words;
        let bit = bit_of(number);
        let words = match number / 64 {
            0 => (a | bit, b, c, d),
            1 => (a, b | bit, c, d),
            2 => (a, b, c | bit, d),
            _ => (a, b, c, d | bit),
        };
        Values { words }
    }

    /// Whether a value is among them.
    pub fn has(self, number: u32) -> bool {
        let (a, b, c, d) = self.words;
        let word = match number / 64 {
            0 => a,
            1 => b,
            2 => c,
            _ => d,
        };
        word & bit_of(number) != 0
    }

    /// Those that are in both.
    pub fn and(self, other: Values) -> Values {
        let (a, b, c, d) = self.words;
        let (e, f, g, h) = other.words;
        Values {
            words: (a & e, b & f, c & g, d & h),
        }
    }

    /// Those that are in one of both.
    pub fn or(self, other: Values) -> Values {
        let (a, b, c, d) = self.words;
        let (e, f, g, h) = other.words;
        Values {
            words: (a | e, b | f, c | g, d | h),
        }
    }

    /// Those that are not in the other.
    pub fn without(self, other: Values) -> Values {
        let (a, b, c, d) = self.words;
        let (e, f, g, h) = other.words;
        Values {
            words: (a & !e, b & !f, c & !g, d & !h),
        }
    }

    /// Whether there is none.
    pub fn is_empty(self) -> bool {
        self.words == (0, 0, 0, 0)
    }

    /// How many there are below a number.
    pub fn count(self, most: u32) -> u32 {
        let mut count: u32 = 0;
        for number in 0..most.min(MOST_VALUES) {
            if self.has(number) {
                count = count.saturating_add(1);
            }
        }
        count
    }
}
