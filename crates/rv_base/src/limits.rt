//! The numbers that bound a source.

/// The most bytes that a source has.
pub const SOURCE_LIMIT: usize = 1_048_576;

/// The most that a literal, or the weight of an integer expression, may be: 2^40.
pub const HEAVIEST: u64 = 1_099_511_627_776;

/// As what a literal or a weight above that limit counts: 2^40 + 1.
pub const TOO_HEAVY: u64 = HEAVIEST + 1;
