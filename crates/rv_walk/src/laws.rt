//! Laws of layers, each the contract of a function that does nothing.

ghost use Rattle.std.specs.Prelude.{◌≡◌, ℕ, List, ℤ, Some, false, slice_get, IsTrue};
ghost use Rattle.rv_diagram.specs.Nodes.{Valuation};
ghost use Rattle.rv_diagram.specs.declared.frozen.Frozen.{Frozen};
ghost use Rattle.rv_proofs.specs.Systems.{System};
ghost use Rattle.rv_proofs.specs.Scopes.{IsIn};
ghost use Rattle.rv_proofs.specs.Boxes.{BoxClaim};
ghost use Rattle.rv_proofs.specs.Runs.{IsSafeSystem};
ghost use Rattle.rv_proofs.specs.Reached.{HasNoIntegers, AreLayers};
ghost use Rattle.rv_walk.specs.Falsified.{IsFalsifyingRun, GoesThrough};

/// Where the observer is false at an allowed valuation of a layer, there is a run through the layers that ends there, one
/// instant in each: the assertions hold along it, and the observer is false at its last instant. So the system is not safe.
pub fn layers_falsify()
    ensures run { (s : System) (c : BoxClaim) (sets : List Frozen) (t : ℕ) (set : Frozen) (v : Valuation) → HasNoIntegers s → AreLayers s c sets
        → slice_get sets t ≡ Some set → IsIn set v → IsTrue (s.allowed v) → s.observer v ≡ false
        → (vs : ℕ → Valuation) × (points : ℕ → List ℤ) × IsFalsifyingRun s t vs points × GoesThrough sets t vs × (vs t ≡ v) }
    ensures unsafe_system { (s : System) (t : ℕ) (vs : ℕ → Valuation) (points : ℕ → List ℤ) → IsFalsifyingRun s t vs points → IsSafeSystem s → ⊥ }
{}
