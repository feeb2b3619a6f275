//! The law of made programs, the contract of a function that does nothing.

ghost use Rattle.std.specs.Prelude.{ℕ, codes};
ghost use Rattle.rv_meaning.specs.Runs.{IsSafe};
ghost use Rattle.rv_meaning.specs.Integers.{IsControl};
ghost use Rattle.rv_make.specs.Chains.{Offsets, chain_program};

/// The program of each made source is safe and has no integer flows, whatever the number of its calls and wherever its parts stand.
pub fn made_programs_are_safe()
    ensures safe { (o : Offsets) (n : ℕ) → IsSafe (chain_program o n) (codes "main") }
    ensures control { (o : Offsets) (n : ℕ) → IsControl (chain_program o n) (codes "main") }
{}
