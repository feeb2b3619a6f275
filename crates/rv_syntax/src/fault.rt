//! Why a text has no tree.

use rv_base::Memory;
use std::alloc::{AllocError, AllocFailed};
use thiserror::Error;

/// The first offending token of a text, by its offset, or want of memory. Where the text ends too early, it is
/// `BadText` at its length.
#[derive(Clone, Copy, Debug, PartialEq, Eq, Error)]
pub enum TextFault {
    /// No program goes on with the token at this offset, or with the end of the text.
    #[error("no program goes on so at byte {0}")]
    BadText(u32),
    /// The nesting at the token at this offset is above 200.
    #[error("nested too deep at byte {0}")]
    TooDeep(u32),
    /// The word or symbol at this offset is left out of the language, or is so in its place.
    #[error("left out of the language at byte {0}")]
    LeftOut(u32),
    /// There was no memory.
    #[error("out of memory")]
    Memory,
}

impl From<AllocError> for TextFault {
    ghost use Rattle.std.specs.Prelude.{◌≡◌};
    ghost use Rattle.rv_syntax.specs.declared.fault.TextFault.TheVariants.{Memory as NoMemory};

    ghost from_gives = { λ _ e. e ≡ NoMemory };

    fn from(_: AllocError) -> TextFault {
        TextFault::Memory
    }
}

impl<T: Drop> From<AllocFailed<T>> for TextFault {
    ghost use Rattle.std.specs.Prelude.{◌≡◌};
    ghost use Rattle.rv_syntax.specs.declared.fault.TextFault.TheVariants.{Memory as NoMemory};

    ghost from_gives = { λ _ e. e ≡ NoMemory };

    fn from(_: AllocFailed<T>) -> TextFault {
        TextFault::Memory
    }
}

impl From<Memory> for TextFault {
    ghost use Rattle.std.specs.Prelude.{◌≡◌};
    ghost use Rattle.rv_syntax.specs.declared.fault.TextFault.TheVariants.{Memory as NoMemory};

    ghost from_gives = { λ _ e. e ≡ NoMemory };

    fn from(_: Memory) -> TextFault {
        TextFault::Memory
    }
}

/// How a token stops a reading: no program goes on with it, or it is nested too deep.
#[derive(Clone, Copy, Debug)]
pub enum Why {
    Offends,
    TooDeep,
}

/// Why a reading stops: want of memory, or a token, by how many tokens are left from it on.
#[derive(Clone, Copy, Debug)]
pub enum Stop {
    Memory,
    Token(Why, usize),
}

impl From<AllocError> for Stop {
    ghost use Rattle.std.specs.Prelude.{◌≡◌};
    ghost use Rattle.rv_syntax.specs.declared.fault.Stop.TheVariants.{Memory as NoMemory};

    ghost from_gives = { λ _ e. e ≡ NoMemory };

    fn from(_: AllocError) -> Stop {
        Stop::Memory
    }
}

impl<T: Drop> From<AllocFailed<T>> for Stop {
    ghost use Rattle.std.specs.Prelude.{◌≡◌};
    ghost use Rattle.rv_syntax.specs.declared.fault.Stop.TheVariants.{Memory as NoMemory};

    ghost from_gives = { λ _ e. e ≡ NoMemory };

    fn from(_: AllocFailed<T>) -> Stop {
        Stop::Memory
    }
}
