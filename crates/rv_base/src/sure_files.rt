//! Files in memory that never fail.

ghost use Rattle.std.specs.Prelude.{◌≡◌, ℕ, List, Some, IsTrue, OnOk, OnErr};
ghost use Rattle.std.specs.FinMap.{empty, insert, contains_key};

use crate::entries::{Entry, add_entry, copy_front, find_bytes};
use crate::{Files, LoadFault, Memory};
use std::alloc::Global;

/// Named bytes in memory. It serves exactly the names that it holds, and its loads fail for want of memory alone,
/// so its count of faults is constantly 0.
#[derive(Drop)]
pub struct SureFiles {
    alloc: Global,
    entries: Vec<Entry>,
    loads: u64,
}

impl SureFiles {
    ghost use Rattle.rv_base.specs.SureFiles.{held_by, loads_of};

    /// No file.
    pub fn new(alloc: Global) -> SureFiles
        ensures held { held_by result ≡ empty }
        ensures loads { loads_of result ≡ 0 }
    {
        SureFiles {
            alloc,
            entries: Vec::new(alloc),
            loads: 0,
        }
    }

    /// Holds these bytes under the name, in place of earlier ones. From then on the name is served.
    pub fn add(&mut self, name: &str, bytes: &[u8]) -> Result<(), Memory>
        ensures ok { OnOk result (held_by self.new ≡ insert (held_by self.old) name.now bytes.now) }
        ensures serves { OnOk result (IsTrue (contains_key (held_by self.new) name.now)) }
        ensures serves_more { (other : List ℕ) → IsTrue (contains_key (held_by self.old) other) → IsTrue (contains_key (held_by self.new) other) }
        ensures err { OnErr result (held_by self.new ≡ held_by self.old) }
        ensures loads { loads_of self.new ≡ loads_of self.old }
    {
        add_entry(self.alloc, &mut self.entries, name, bytes)
    }
}

impl Files for SureFiles {
    ghost use Rattle.rv_base.specs.SureFiles.{held_by, loads_of};

    ghost held = { λ files. Some (held_by files) };

    ghost faults = { λ _. 0 };

    ghost loads = { loads_of };

    ghost serves = { λ files name. contains_key (held_by files) name };

    fn load(&mut self, alloc: Global, name: &str, limit: u64) -> Result<Vec<u8>, LoadFault> {
        let bytes = match find_bytes(&self.entries, name) {
            Some(bytes) => copy_front(alloc, bytes, limit)?,
            None => unreachable!(),
        };
        self.loads = self.loads.saturating_add(1);
        Ok(bytes)
    }
}
