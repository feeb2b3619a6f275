//! Loading a file that must not be longer than a limit.

ghost use Rattle.std.specs.Prelude.{◌≡◌, ◌+◌, ◌<◌, ◌≤◌, ℕ, IsTrue, IfOk, IsErrOf, OnOk, length};
ghost use Rattle.rv_base.specs.Causes.{Rose, raised};
ghost use Rattle.rv_base.specs.Shelf.{HoldsUnder};

use rv_base::{Files, LoadFault};
use std::alloc::Global;
use thiserror::Error;

/// Why a file was not loaded whole.
#[derive(Clone, Copy, Debug, PartialEq, Eq, Error)]
pub enum WholeFault {
    /// It is longer than the limit. The number is how many bytes were read of it.
    #[error("the file is too long, {0} bytes were read")]
    TooLong(u64),
    /// It could not be read.
    #[error("the file could not be read")]
    Failed,
    /// There was no memory.
    #[error("out of memory")]
    Memory,
}

/// All bytes of a file, where there are no more than the limit. `TooLong` exactly where the load gave one byte more
/// than the limit; `Failed` only where the files count one more fault, and they never count fewer. The files count one load,
/// and none where there was no memory.
pub fn load_whole<F: Files>(
    alloc: Global,
    files: &mut F,
    name: &str,
    limit: u64,
) -> Result<Vec<u8>, WholeFault>
    requires { IsTrue (F.serves files.old name.now) }
    ensures whole { IfOk result (λ loaded. HoldsUnder (F.held files.old) name.now (λ bytes. (loaded.items ≡ bytes) × (length bytes ≤ limit))) }
    ensures fits { IfOk result (λ loaded. length loaded.items ≤ limit) }
    ensures too_long { (n : ℕ) → IsErrOf result (WholeFault.TooLong n)
        → (n ≡ limit + 1) × HoldsUnder (F.held files.old) name.now (λ bytes. limit < length bytes) }
    ensures failed { IsErrOf result WholeFault.Failed → Rose (F.faults files.old) (F.faults files.new) }
    ensures later { F.faults files.old ≤ F.faults files.new }
    ensures counted { OnOk result (F.loads files.new ≡ raised (F.loads files.old)) }
    ensures too_long_counted { (n : ℕ) → IsErrOf result (WholeFault.TooLong n) → F.loads files.new ≡ raised (F.loads files.old) }
    ensures failed_counted { IsErrOf result WholeFault.Failed → F.loads files.new ≡ raised (F.loads files.old) }
    ensures memory_not_counted { IsErrOf result WholeFault.Memory → F.loads files.new ≡ F.loads files.old }
    ensures same_held { F.held files.new ≡ F.held files.old }
    ensures same_serves { F.serves files.new ≡ F.serves files.old }
{
    match files.load(alloc, name, limit) {
        Ok(bytes) => {
            let count = bytes.len() as u64;
            if count > limit {
                Err(WholeFault::TooLong(count))
            } else {
                Ok(bytes)
            }
        }
        Err(LoadFault::Failed) => Err(WholeFault::Failed),
        Err(LoadFault::Memory) => Err(WholeFault::Memory),
    }
}
