//! Which probes a program that is read from a text has.

ghost use Rattle.std.specs.Prelude.{◌≡◌, ◌⊎◌, ◌↔◌, ◌≤◌, ℕ, ℤ, pos, List, length};
ghost use Rattle.std.specs.List.{Contains};
ghost use Rattle.rv_tree.specs.Places.{Identifier};
ghost use Rattle.rv_tree.specs.Tree.{ProgramTree};
ghost use Rattle.rv_syntax.specs.ProgramText.{IsTextOf};
ghost use Rattle.rv_flat.specs.declared.flat.Flat.{Flat as FlatModel};
ghost use Rattle.rv_flat.specs.FlatOf.{IsFlatOf};
ghost use Rattle.rv_probe.specs.Probes.{IsProbeNumber};

use rv_source::numbers_are_small;

/// The numbers of the probes of a program that is read from a text are 0 and, where there are at most 256 thresholds, each of these: none
/// of them is outside the range of traces.
pub fn probed_texts()
    ensures { (bytes : List ℕ) (program : ProgramTree) (main : Identifier) (f : FlatModel) (c : ℤ) → IsTextOf bytes program → IsFlatOf program main f
        → IsProbeNumber f c ↔ ((c ≡ pos 0) ⊎ ((length f.thresholds ≤ 256) × Contains f.thresholds c)) }
{
    numbers_are_small();
}
