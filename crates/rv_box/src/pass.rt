//! The box pass.

ghost use Rattle.std.specs.Prelude.{◌≡◌, ◌↔◌, ◌<◌, ◌≤◌, ◌^◌, All, Ok, IfOk, IsErrOf};
ghost use Rattle.std.specs.Int.RustNames.{unsigned_abs};
ghost use Rattle.rv_proofs.specs.Accepted.{IsAccepted};
ghost use Rattle.rv_proofs.specs.Runs.{IsSafeSystem};
ghost use Rattle.rv_proofs.specs.Boxes.{BoxClaim, HasGoodBox};
ghost use Rattle.rv_proofs.specs.Reached.{HasNoIntegers, IsLeastClosed, AreLayers};
ghost use Rattle.rv_proofs.specs.declared.certificate.Certificate.{Certificate};
ghost use Rattle.rv_proofs.specs.declared.report.Layers.{Layers};
ghost use Rattle.rv_walk.specs.Ends.{IsGoodCertificate, AreBadLayers, IsGoodEnd};
ghost use Rattle.rv_walk.specs.Plain.{ArePlain};
ghost use Rattle.rv_open.specs.Columns.{HasNoColumns, AreLeastBadLayers};
ghost use Rattle.rv_reading.specs.Read.{flat_of, system_read, diagrams_of, IsRead};

use rv_diagram::StoreFault;
use rv_open::constant_tests;
use rv_proofs::{certificates_are_safe, control_claims};
use rv_reading::Reading;
use rv_walk::BoxEnd;
use std::alloc::Global;

/// The box pass over the reading of a flat system: the least closed box claim, with bounds of its integer memories among its thresholds.
/// Good has an accepted certificate without loops, and comes exactly where some closed claim is good. Bad has the layers of the least
/// closed claim, which is not good. Where the flat system has no integer memories and inputs, Good comes exactly where the observer is true along
/// each run; where it compares no constants either, the claim has the control states that are reached, layer by layer. The reading is left
/// as it was.
pub fn box_pass(alloc: Global, r: &mut Reading) -> Result<BoxEnd, StoreFault>
    requires read { IsRead r.old }
    requires thresholds { All (λ t. unsigned_abs t ≤ 2 ^ 41) (flat_of r.old).thresholds }
    ensures good { (c : Certificate) → result ≡ Ok (BoxEnd.Good c) → IsAccepted (system_read r.old) c }
    ensures plain { (c : Certificate) → result ≡ Ok (BoxEnd.Good c) → ArePlain c }
    ensures exactly { IfOk result (λ e. IsGoodEnd e ↔ HasGoodBox (system_read r.old) (flat_of r.old).thresholds) }
    ensures bad { (l : Layers) → result ≡ Ok (BoxEnd.Bad l) → (c : BoxClaim)
        × IsLeastClosed (system_read r.old) (flat_of r.old).thresholds c × AreLayers (system_read r.old) c l.sets }
    ensures control_good { (c : Certificate) → HasNoIntegers (system_read r.old) → result ≡ Ok (BoxEnd.Good c)
        → IsGoodCertificate (system_read r.old) c }
    ensures control_bad { (l : Layers) → HasNoIntegers (system_read r.old) → result ≡ Ok (BoxEnd.Bad l) → AreBadLayers (system_read r.old) l }
    ensures least_bad { (l : Layers) → result ≡ Ok (BoxEnd.Bad l) → AreLeastBadLayers (system_read r.old) (flat_of r.old).thresholds l }
    ensures decides { HasNoColumns (system_read r.old) → IfOk result (λ e. IsGoodEnd e ↔ IsSafeSystem (system_read r.old)) }
    ensures same { r.new ≡ r.old }
    ensures roomy { IsErrOf result StoreFault.Nodes → (diagrams_of r.old).limit < 2 ^ (2 ^ (diagrams_of r.old).variables) }
{
    control_claims();
    constant_tests();
    certificates_are_safe();
    if r.has_no_integers() {
        return r.walk(alloc);
    }
    r.box_pass(alloc)
}
