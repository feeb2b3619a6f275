//! Laws of systems without columns, each the contract of a function that does nothing.

ghost use Rattle.std.specs.Prelude.{◌↔◌, ℤ, List, []};
ghost use Rattle.rv_diagram.specs.Nodes.{Valuation};
ghost use Rattle.rv_proofs.specs.Systems.{System, Agrees};
ghost use Rattle.rv_proofs.specs.Boxes.{BoxClaim, IsOpen};
ghost use Rattle.rv_proofs.specs.Reached.{HasNoIntegers};
ghost use Rattle.rv_proofs.specs.Runs.{IsSafeSystem};
ghost use Rattle.rv_proofs.specs.declared.report.Layers.{Layers};
ghost use Rattle.rv_walk.specs.Ends.{AreBadLayers};
ghost use Rattle.rv_open.specs.Columns.{HasNoColumns, AreLeastBadLayers};

/// In a system without columns a valuation is open, whatever the claim, exactly where some point agrees with it, which is the empty one. Where the
/// least closed claim is not good, the system is not safe. And the bad layers of a walk over a system without integers are those of the
/// least closed claim, which is not good.
pub fn constant_tests()
    ensures opens { (s : System) (c : BoxClaim) (v : Valuation) → HasNoColumns s → IsOpen s c v ↔ Agrees s v [] }
    ensures unsafe_system { (s : System) (thresholds : List ℤ) (l : Layers) → HasNoColumns s → AreLeastBadLayers s thresholds l → ¬ IsSafeSystem s }
    ensures walked { (s : System) (thresholds : List ℤ) (l : Layers) → HasNoIntegers s → AreBadLayers s l → AreLeastBadLayers s thresholds l }
{}
