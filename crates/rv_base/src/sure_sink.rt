//! A sink in memory that never fails.

ghost use Rattle.std.specs.Prelude.{◌≡◌, [], Some};

use crate::{PutFault, Sink};
use std::alloc::Global;

/// Keeps what it shows in memory. Its puts fail for want of memory alone, so its count of faults is constantly 0.
#[derive(Drop)]
pub struct SureSink {
    bytes: Vec<u8>,
    puts: u64,
}

impl SureSink {
    ghost use Rattle.rv_base.specs.SureSink.{shown_by, puts_of};

    /// Nothing shown.
    pub fn new(alloc: Global) -> SureSink
        ensures shown { shown_by result ≡ [] }
        ensures puts { puts_of result ≡ 0 }
    {
        SureSink {
            bytes: Vec::new(alloc),
            puts: 0,
        }
    }

    /// What was shown.
    pub fn bytes(&self) -> &[u8]
        ensures { result.now ≡ shown_by self.now }
    {
        &self.bytes
    }
}

impl Sink for SureSink {
    ghost use Rattle.rv_base.specs.SureSink.{shown_by, puts_of};

    ghost shown = { λ sink. Some (shown_by sink) };

    ghost faults = { λ _. 0 };

    ghost puts = { puts_of };

    fn put(&mut self, piece: &[u8]) -> Result<(), PutFault> {
        self.bytes.extend_from_slice(piece)?;
        self.puts = self.puts.saturating_add(1);
        Ok(())
    }
}
