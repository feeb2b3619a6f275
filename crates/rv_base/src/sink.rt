//! Where the report goes.

ghost use Rattle.std.specs.Prelude.{◌≡◌, ℕ, List, Option, OnOk, IsErrOf};
ghost use Rattle.std.specs.Io.KnownBytes.{Appends, Keeps};
ghost use Rattle.rv_base.specs.Causes.{HasCause, raised};
ghost use Rattle.rv_base.specs.Shown.{AppendsPrefix};
ghost use Rattle.rv_base.specs.declared.sink.PutFault.TheVariants.{Memory};

use std::alloc::{AllocError, AllocFailed};
use thiserror::Error;

/// Why a piece was not shown whole.
#[derive(Clone, Copy, Debug, PartialEq, Eq, Error)]
pub enum PutFault {
    /// The sink failed. A front of the piece may have been shown.
    #[error("the sink failed")]
    Failed,
    /// There was no memory. Nothing was shown.
    #[error("out of memory")]
    Memory,
}

impl From<AllocError> for PutFault {
    ghost from_gives = { λ _ e. e ≡ Memory };

    fn from(_: AllocError) -> Self {
        PutFault::Memory
    }
}

impl<T: Drop> From<AllocFailed<T>> for PutFault {
    ghost from_gives = { λ _ e. e ≡ Memory };

    fn from(_: AllocFailed<T>) -> Self {
        PutFault::Memory
    }
}

/// Something that shows pieces of bytes, one after another.
pub trait Sink {
    /// The bytes that were shown so far, where the sink tells.
    ghost shown: { Self → Option (List ℕ) };

    /// How often a put has failed. It never falls.
    ghost faults: { Self → ℕ };

    /// How many pieces the sink was given, those not counted whose put ended for want of memory.
    ghost puts: { Self → ℕ };

    /// Shows the piece. `Failed` where the sink fails, after a front of the piece, and then it counts one more
    /// fault; `Memory` where there is no memory, and then nothing is shown or counted.
    fn put(&mut self, piece: &[u8]) -> Result<(), PutFault>
        ensures whole { OnOk result (Appends (shown self.old) (shown self.new) piece.now) }
        ensures failed { IsErrOf result PutFault.Failed → AppendsPrefix (shown self.old) (shown self.new) piece.now }
        ensures memory { IsErrOf result PutFault.Memory → Keeps (shown self.old) (shown self.new) }
        ensures cause { HasCause PutFault.Failed (faults self.old) (faults self.new) result }
        ensures memory_faults { IsErrOf result PutFault.Memory → faults self.new ≡ faults self.old }
        ensures whole_counts { OnOk result (puts self.new ≡ raised (puts self.old)) }
        ensures failed_counts { IsErrOf result PutFault.Failed → puts self.new ≡ raised (puts self.old) }
        ensures memory_counts_not { IsErrOf result PutFault.Memory → puts self.new ≡ puts self.old };
}
