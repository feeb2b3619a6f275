//! Files in memory, of which chosen loads fail.

ghost use Rattle.std.specs.Prelude.{◌≡◌, ◌+◌, ◌≤◌, ◌⊎◌, true, Some, [], OnOk, OnErr, IfOk, IsErrOf, IsSome, IsNone, Contains, vec_len};
ghost use Rattle.std.specs.FinMap.{empty, insert, get};
ghost use Rattle.rv_base.specs.Causes.{HasCause, raised};
ghost use Rattle.rv_base.specs.Shelf.{Loads};

use crate::entries::{Entry, add_entry, copy_front, find_bytes, is_failing};
use crate::{Files, LoadFault, Memory};
use std::alloc::Global;

/// Named bytes in memory. It serves every name, and the loads that `fail_calls` chose fail.
#[derive(Drop)]
pub struct MemoryFiles {
    alloc: Global,
    entries: Vec<Entry>,
    failing: Vec<u32>,
    calls: u64,
    faults: u64,
}

impl MemoryFiles {
    ghost use Rattle.rv_base.specs.MemoryFiles.{held_by, failing_calls, calls_of, faults_of};

    /// No file, and no load that is to fail.
    pub fn new(alloc: Global) -> MemoryFiles
        ensures held { held_by result ≡ empty }
        ensures failing { failing_calls result ≡ [] }
        ensures calls { calls_of result ≡ 0 }
        ensures faults { faults_of result ≡ 0 }
    {
        MemoryFiles {
            alloc,
            entries: Vec::new(alloc),
            failing: Vec::new(alloc),
            calls: 0,
            faults: 0,
        }
    }

    /// Holds these bytes under the name, in place of earlier ones.
    pub fn add(&mut self, name: &str, bytes: &[u8]) -> Result<(), Memory>
        ensures ok { OnOk result (held_by self.new ≡ insert (held_by self.old) name.now bytes.now) }
        ensures err { OnErr result (held_by self.new ≡ held_by self.old) }
        ensures failing { failing_calls self.new ≡ failing_calls self.old }
        ensures calls { calls_of self.new ≡ calls_of self.old }
        ensures faults { faults_of self.new ≡ faults_of self.old }
    {
        add_entry(self.alloc, &mut self.entries, name, bytes)
    }

    /// Lets the loads with these numbers fail, and no others. The first load has the number 0, and a load that
    /// ends for want of memory takes none.
    pub fn fail_calls(&mut self, calls: &[u32]) -> Result<(), Memory>
        ensures ok { OnOk result (failing_calls self.new ≡ calls.now) }
        ensures err { OnErr result (failing_calls self.new ≡ failing_calls self.old) }
        ensures held { held_by self.new ≡ held_by self.old }
        ensures calls { calls_of self.new ≡ calls_of self.old }
        ensures faults { faults_of self.new ≡ faults_of self.old }
    {
        self.failing = calls.to_vec(self.alloc)?;
        Ok(())
    }
}

impl Files for MemoryFiles {
    ghost use Rattle.rv_base.specs.MemoryFiles.{held_by, failing_calls, calls_of, faults_of};

    ghost held = { λ files. Some (held_by files) };

    ghost faults = { faults_of };

    ghost loads = { calls_of };

    ghost serves = { λ _ _. true };

    /// Fails exactly where the number of this load is among those that fail or nothing is held under the name.
    fn load(&mut self, alloc: Global, name: &str, limit: u64) -> Result<Vec<u8>, LoadFault>
        ensures bytes { IfOk result (λ loaded. Loads (Some (held_by self.old)) name.now limit loaded.items) }
        ensures at_most { IfOk result (λ loaded. vec_len loaded ≤ limit + 1) }
        ensures cause { HasCause LoadFault.Failed (faults_of self.old) (faults_of self.new) result }
        ensures memory { IsErrOf result LoadFault.Memory → self.new ≡ self.old }
        ensures answered_counts { OnOk result (calls_of self.new ≡ raised (calls_of self.old)) }
        ensures failed_counts { IsErrOf result LoadFault.Failed → calls_of self.new ≡ raised (calls_of self.old) }
        ensures same_held { held_by self.new ≡ held_by self.old }

        ensures answered { OnOk result (¬ Contains (failing_calls self.old) (calls_of self.old) × IsSome (get (held_by self.old) name.now)) }
        ensures failed { IsErrOf result LoadFault.Failed → Contains (failing_calls self.old) (calls_of self.old) ⊎ IsNone (get (held_by self.old) name.now) }

        ensures answered_faults { OnOk result (faults_of self.new ≡ faults_of self.old) }
        ensures failed_faults { IsErrOf result LoadFault.Failed → faults_of self.new ≡ raised (faults_of self.old) }
        ensures same_failing { failing_calls self.new ≡ failing_calls self.old }
    {
        let found = if is_failing(&self.failing, self.calls) {
            None
        } else {
            find_bytes(&self.entries, name)
        };
        let result = match found {
            Some(bytes) => Ok(copy_front(alloc, bytes, limit)?),
            None => Err(LoadFault::Failed),
        };
        self.calls = self.calls.saturating_add(1);
        if result.is_err() {
            self.faults = self.faults.saturating_add(1);
        }
        result
    }
}
