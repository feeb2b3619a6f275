//! Why a program whose names, types and clocks are right is refused.

ghost use Rattle.rv_calls.specs.declared.fault.CauseFault.TheVariants.{Memory as NoMemory};
ghost use Rattle.std.specs.Prelude.{◌≡◌};

use rv_base::{Many, Memory, Place};
use std::alloc::{AllocError, AllocFailed};
use thiserror::Error;

/// What a program may not have too much of.
#[derive(Clone, Copy, Debug, PartialEq, Eq)]
pub enum Quantity {
    /// The main node and the copies of nodes that calls are: at most 4,000.
    Instances,
    /// The expressions in right sides and assertions of all instances: at most 200,000.
    Expanded,
    /// The integer memories of all instances: at most 64.
    Memories,
    /// The integer inputs of the main node: at most 64.
    Inputs,
    /// The labels of one enumeration: at most 256.
    Labels,
    /// The variables of the decision diagrams: at most 4,096.
    Variables,
}

/// The first rule of recursion, size, cycles and weights that a program breaks.
#[derive(Debug, PartialEq, Eq, Drop, Error)]
pub enum CauseFault {
    /// The offset of the first call in the file whose node reaches the node that it stands in.
    #[error("recursive call at {0}")]
    Recursive(u32),
    /// Flows of which each needs the next at the same instant, and the last the first. The first is the least.
    #[error("flows need each other")]
    Cycle(Many<Place>),
    /// The first quantity that is too large, with its number, or 2^40 where that is less.
    #[error("too large")]
    TooLarge(Quantity, u64),
    /// The least offset of an expression whose weight is above 2^40.
    #[error("too wide at {0}")]
    TooWide(u32),
    /// There was no memory.
    #[error("out of memory")]
    Memory,
}

impl From<AllocError> for CauseFault {
    ghost from_gives = { λ _ e. e ≡ NoMemory };

    fn from(_: AllocError) -> Self {
        CauseFault::Memory
    }
}

impl<T: Drop> From<AllocFailed<T>> for CauseFault {
    ghost from_gives = { λ _ e. e ≡ NoMemory };

    fn from(_: AllocFailed<T>) -> Self {
        CauseFault::Memory
    }
}

impl From<Memory> for CauseFault {
    ghost from_gives = { λ _ e. e ≡ NoMemory };

    fn from(_: Memory) -> Self {
        CauseFault::Memory
    }
}
