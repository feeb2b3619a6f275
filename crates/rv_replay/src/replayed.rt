//! How a replay ends.

ghost use Rattle.std.specs.Prelude.{◌≡◌};
ghost use Rattle.rv_replay.specs.declared.replayed.ReplayFault.TheVariants.{Memory as NoMemory};

use rv_base::{Memory, Place};

/// How a replay ends, with the number of the instant that ends it, counted from 0.
#[derive(Debug, Drop)]
pub enum Replayed {
    /// The trace, cut after this instant, falsifies: the observer is false there and true before, and all assertions hold.
    Falsified(u32),
    /// At this instant an assertion is false; the least place of one.
    AssertionFails(u32, Place),
    /// No instant ends it.
    NeverFalse,
}

/// Why a replay has no answer.
#[derive(Debug, Drop)]
pub enum ReplayFault {
    /// At this instant an integer is below -2^63 or above 2^63 - 1; the least place of a flow that has one, or of a memory that
    /// takes one.
    Outgrown(u32, Place),
    /// There was no memory.
    Memory,
}

impl From<Memory> for ReplayFault {
    ghost from_gives = { λ _ e. e ≡ NoMemory };

    fn from(_: Memory) -> Self {
        ReplayFault::Memory
    }
}
