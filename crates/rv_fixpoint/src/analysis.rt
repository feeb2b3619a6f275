//! The analysis.

ghost use Rattle.std.specs.Prelude.{◌≡◌, ◌<◌, ◌≤◌, ◌^◌, ℕ, false, All, Ok, Some, IfOk, IsErrOf, slice_get};
ghost use Rattle.std.specs.Int.RustNames.{unsigned_abs};
ghost use Rattle.rv_diagram.specs.declared.frozen.Frozen.{Frozen};
ghost use Rattle.rv_proofs.specs.Accepted.{IsAccepted};
ghost use Rattle.rv_proofs.specs.Ranges.{IsControlSet};
ghost use Rattle.rv_proofs.specs.RowClaims.{HasGoodRows};
ghost use Rattle.rv_proofs.specs.declared.certificate.Certificate.{Certificate};
ghost use Rattle.rv_walk.specs.Plain.{ArePlain};
ghost use Rattle.rv_reading.specs.Read.{flat_of, system_read, diagrams_of, IsRead};
ghost use Rattle.rv_fixpoint.specs.Ends.{IsProved};
ghost use Rattle.rv_proofs.specs.declared.report.LeftReport.{LeftReport as LeftModel};
ghost use Rattle.rv_proofs.specs.Left.{IsLeftReport};

use crate::end::{End, Options};
use rv_diagram::StoreFault;
use rv_proofs::Layers;
use rv_reading::{Analysis, Reading};
use std::alloc::Global;

/// The analysis of the reading of a flat system: its least closed row claim, with bounds among its thresholds, upward from the initial control
/// states and the closest thresholds, and where that is not good, control partitions with polyhedra. Proved has an accepted certificate, without
/// loops where these are not to be accelerated, and comes wherever some closed row claim is good; it may have more locations than the options
/// say. Left has a left partition without loops, and why nothing more was split: with Locations the partition has as many locations as the
/// options say, and with Stuck each left location has one control state. The layers are those of the box pass. There may be from 1 to 4,096
/// locations, as many as a document may have. The reading is left as it was. Nodes comes where the diagrams outgrow their limit, Memory where
/// memory runs out.
pub fn analyse(
    alloc: Global,
    r: &mut Reading,
    seed: &Layers,
    o: &Options,
) -> Result<End, StoreFault>
    requires read { IsRead r.old }
    requires thresholds { All (λ t. unsigned_abs t ≤ 2 ^ 41) (flat_of r.old).thresholds }
    requires seed { (t : ℕ) (set : Frozen) → slice_get seed.now.sets t ≡ Some set → IsControlSet (system_read r.old) set }
    requires locations { 1 ≤ o.now.locations }
    requires few { o.now.locations ≤ 4096 }
    ensures proved { (c : Certificate) → result ≡ Ok (End.Proved c) → IsAccepted (system_read r.old) c }
    ensures plain { (c : Certificate) → result ≡ Ok (End.Proved c) → o.now.accelerate ≡ false → ArePlain c }
    ensures plain_left { (l : LeftModel) → result ≡ Ok (End.Left l) → ArePlain l.partition }
    ensures left { (l : LeftModel) → result ≡ Ok (End.Left l) → IsLeftReport (system_read r.old) o.now.locations l }
    ensures claims { HasGoodRows (system_read r.old) (flat_of r.old).thresholds → IfOk result IsProved }
    ensures same { r.new ≡ r.old }
    ensures roomy { IsErrOf result StoreFault.Nodes → (diagrams_of r.old).limit < 2 ^ (2 ^ (diagrams_of r.old).variables) }
{
    match r.analyse(alloc, o.locations, o.accelerate)? {
        Analysis::Proved(certificate) => Ok(End::Proved(certificate)),
        Analysis::Left(report) => Ok(End::Left(report)),
    }
}
