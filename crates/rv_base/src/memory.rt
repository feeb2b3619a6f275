//! Want of memory, where nothing else can fail.

ghost use Rattle.rv_base.specs.declared.memory.Memory.TheVariants.{Memory as NoMemory};
ghost use Rattle.std.specs.Prelude.{◌≡◌};

use std::alloc::{AllocError, AllocFailed};
use thiserror::Error;

/// The fault of a call that fails for want of memory alone.
#[derive(Clone, Copy, Debug, PartialEq, Eq, Error)]
pub enum Memory {
    /// There was no memory.
    #[error("out of memory")]
    Memory,
}

impl From<AllocError> for Memory {
    ghost from_gives = { λ _ e. e ≡ NoMemory };

    fn from(_: AllocError) -> Self {
        Memory::Memory
    }
}

impl<T: Drop> From<AllocFailed<T>> for Memory {
    ghost from_gives = { λ _ e. e ≡ NoMemory };

    fn from(_: AllocFailed<T>) -> Self {
        Memory::Memory
    }
}
