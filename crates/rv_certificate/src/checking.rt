//! The verdict on a certificate.

ghost use Rattle.std.specs.Prelude.{◌≡◌, ◌<◌, ◌^◌, IfOk, IsErrOf};
ghost use Rattle.rv_proofs.specs.Counts.{HasFree};
ghost use Rattle.rv_proofs.specs.Ranges.{IsInRange};
ghost use Rattle.rv_proofs.specs.Verdicts.{IsVerdict};
ghost use Rattle.rv_reading.specs.Read.{system_read, diagrams_of, IsRead};

use rv_diagram::StoreFault;
use rv_proofs::{Certificate, Verdict};
use rv_reading::Reading;
use std::alloc::Global;

/// The verdict on a certificate with the counts and ranges of a document, in which a location without a loop has empty `first` and
/// `around`: Accepted exactly where it is accepted, and otherwise the first reason, in the order of places, with the least valuation or
/// control state that fails. The reading is left as it was.
pub fn accept(
    alloc: Global,
    r: &mut Reading,
    certificate: &Certificate,
) -> Result<Verdict, StoreFault>
    requires read { IsRead r.old }
    requires range { IsInRange (system_read r.old) certificate.now }
    requires free { HasFree certificate.now }
    ensures exact { IfOk result (IsVerdict (system_read r.old) certificate.now) }
    ensures same { r.new ≡ r.old }
    ensures roomy { IsErrOf result StoreFault.Nodes → (diagrams_of r.old).limit < 2 ^ (2 ^ (diagrams_of r.old).variables) }
{
    r.accept(alloc, certificate)
}
