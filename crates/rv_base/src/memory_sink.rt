//! A sink in memory, of which chosen puts fail.

ghost use Rattle.std.specs.Prelude.{◌≡◌, ◌++◌, ◌/◌, [], Some, OnOk, OnErr, IsErrOf, Contains, length, take};
ghost use Rattle.std.specs.Io.KnownBytes.{Appends, Keeps};
ghost use Rattle.rv_base.specs.Causes.{HasCause, raised};
ghost use Rattle.rv_base.specs.Shown.{AppendsPrefix};

use crate::entries::is_failing;
use crate::{Memory, PutFault, Sink};
use std::alloc::Global;

/// Keeps what it shows in memory. The puts that `fail_calls` chose fail.
#[derive(Drop)]
pub struct MemorySink {
    alloc: Global,
    bytes: Vec<u8>,
    failing: Vec<u32>,
    calls: u64,
    faults: u64,
}

impl MemorySink {
    ghost use Rattle.rv_base.specs.MemorySink.{shown_by, failing_calls, calls_of, faults_of};

    /// Nothing shown, and no put that is to fail.
    pub fn new(alloc: Global) -> MemorySink
        ensures shown { shown_by result ≡ [] }
        ensures failing { failing_calls result ≡ [] }
        ensures calls { calls_of result ≡ 0 }
        ensures faults { faults_of result ≡ 0 }
    {
        MemorySink {
            alloc,
            bytes: Vec::new(alloc),
            failing: Vec::new(alloc),
            calls: 0,
            faults: 0,
        }
    }

    /// Lets the puts with these numbers fail, and no others. The first put has the number 0, and a put that ends
    /// for want of memory takes none.
    pub fn fail_calls(&mut self, calls: &[u32]) -> Result<(), Memory>
        ensures ok { OnOk result (failing_calls self.new ≡ calls.now) }
        ensures err { OnErr result (failing_calls self.new ≡ failing_calls self.old) }
        ensures shown { shown_by self.new ≡ shown_by self.old }
        ensures calls { calls_of self.new ≡ calls_of self.old }
        ensures faults { faults_of self.new ≡ faults_of self.old }
    {
        self.failing = calls.to_vec(self.alloc)?;
        Ok(())
    }

    /// What was shown.
    pub fn bytes(&self) -> &[u8]
        ensures { result.now ≡ shown_by self.now }
    {
        &self.bytes
    }
}

impl Sink for MemorySink {
    ghost use Rattle.rv_base.specs.MemorySink.{shown_by, failing_calls, calls_of, faults_of};

    ghost shown = { λ sink. Some (shown_by sink) };

    ghost faults = { faults_of };

    ghost puts = { calls_of };

    /// Fails exactly where the number of this put is among those that fail. Then it shows the first half of its
    /// piece, rounded down.
    fn put(&mut self, piece: &[u8]) -> Result<(), PutFault>
        ensures whole { OnOk result (Appends (Some (shown_by self.old)) (Some (shown_by self.new)) piece.now) }
        ensures failed { IsErrOf result PutFault.Failed → AppendsPrefix (Some (shown_by self.old)) (Some (shown_by self.new)) piece.now }
        ensures memory { IsErrOf result PutFault.Memory → Keeps (Some (shown_by self.old)) (Some (shown_by self.new)) }
        ensures cause { HasCause PutFault.Failed (faults_of self.old) (faults_of self.new) result }
        ensures memory_faults { IsErrOf result PutFault.Memory → faults_of self.new ≡ faults_of self.old }
        ensures whole_counts { OnOk result (calls_of self.new ≡ raised (calls_of self.old)) }
        ensures failed_counts { IsErrOf result PutFault.Failed → calls_of self.new ≡ raised (calls_of self.old) }
        ensures memory_counts_not { IsErrOf result PutFault.Memory → calls_of self.new ≡ calls_of self.old }

        ensures whole_call { OnOk result (¬ Contains (failing_calls self.old) (calls_of self.old)) }
        ensures failed_call { IsErrOf result PutFault.Failed → Contains (failing_calls self.old) (calls_of self.old) }
        ensures failed_half { IsErrOf result PutFault.Failed → shown_by self.new ≡ shown_by self.old ++ take (length piece.now / 2) piece.now }

        ensures whole_faults { OnOk result (faults_of self.new ≡ faults_of self.old) }
        ensures failed_faults { IsErrOf result PutFault.Failed → faults_of self.new ≡ raised (faults_of self.old) }
        ensures same_failing { failing_calls self.new ≡ failing_calls self.old }
    {
        let fails = is_failing(&self.failing, self.calls);
        let shown = if fails {
            &piece[..piece.len() / 2]
        } else {
            piece
        };
        self.bytes.extend_from_slice(shown)?;
        self.calls = self.calls.saturating_add(1);
        if fails {
            self.faults = self.faults.saturating_add(1);
            return Err(PutFault::Failed);
        }
        Ok(())
    }
}
