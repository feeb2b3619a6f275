//! Where the bytes of files come from.

ghost use Rattle.std.specs.Prelude.{◌≡◌, ◌+◌, ◌≤◌, ℕ, List, Bool, Option, IsTrue, IfOk, OnOk, IsErrOf, vec_len};
ghost use Rattle.rv_base.specs.Causes.{HasCause, raised};
ghost use Rattle.rv_base.specs.Shelf.{Shelf, Loads};
ghost use Rattle.rv_base.specs.declared.files.LoadFault.TheVariants.{Memory};

use crate::Memory;
use std::alloc::{AllocError, AllocFailed, Global};
use thiserror::Error;

/// Why a file was not loaded.
#[derive(Clone, Copy, Debug, PartialEq, Eq, Error)]
pub enum LoadFault {
    /// The files failed, or hold nothing under the name.
    #[error("the file could not be read")]
    Failed,
    /// There was no memory.
    #[error("out of memory")]
    Memory,
}

impl From<AllocError> for LoadFault {
    ghost from_gives = { λ _ e. e ≡ Memory };

    fn from(_: AllocError) -> Self {
        LoadFault::Memory
    }
}

impl<T: Drop> From<AllocFailed<T>> for LoadFault {
    ghost from_gives = { λ _ e. e ≡ Memory };

    fn from(_: AllocFailed<T>) -> Self {
        LoadFault::Memory
    }
}

impl From<Memory> for LoadFault {
    ghost from_gives = { λ _ e. e ≡ Memory };

    fn from(_: Memory) -> Self {
        LoadFault::Memory
    }
}

/// Something that has files, by name.
pub trait Files {
    /// The bytes under each name, where the files tell.
    ghost held: { Self → Option Shelf };

    /// How often a load has failed. It never falls.
    ghost faults: { Self → ℕ };

    /// How many loads there were, those not counted that ended for want of memory.
    ghost loads: { Self → ℕ };

    /// Which names may be asked for.
    ghost serves: { Self → List ℕ → Bool };

    /// The bytes of a file, at most `limit + 1` of them, so that a longer file is told from one of `limit` bytes.
    /// `Failed` where the files fail or nothing is held under the name, and then they count one more fault;
    /// `Memory` where there is no memory, and then they are as before.
    fn load(&mut self, alloc: Global, name: &str, limit: u64) -> Result<Vec<u8>, LoadFault>
        requires { IsTrue (serves self.old name.now) }
        ensures bytes { IfOk result (λ loaded. Loads (held self.old) name.now limit loaded.items) }
        ensures at_most { IfOk result (λ loaded. vec_len loaded ≤ limit + 1) }
        ensures cause { HasCause LoadFault.Failed (faults self.old) (faults self.new) result }
        ensures memory { IsErrOf result LoadFault.Memory → self.new ≡ self.old }
        ensures answered_counts { OnOk result (loads self.new ≡ raised (loads self.old)) }
        ensures failed_counts { IsErrOf result LoadFault.Failed → loads self.new ≡ raised (loads self.old) }
        ensures same_held { held self.new ≡ held self.old }
        ensures same_serves { serves self.new ≡ serves self.old };
}
