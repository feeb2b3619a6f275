//! What holds of each made program.

ghost use Rattle.std.specs.Prelude.{ℕ, ◌<◌, ◌≤◌, ◌^◌, codes};
ghost use Rattle.rv_types.specs.declared.typed.Typed.{Typed as TypedModel};
ghost use Rattle.rv_types.specs.Settled.{IsSettled};
ghost use Rattle.rv_make.specs.Chains.{Offsets, chain_program};
ghost use Rattle.rv_causality.specs.Causes.{IsAccepted};

/// The program that is made for a number of calls, whatever the offsets of its parts. It keeps every rule of names, types and clocks,
/// for any number of calls that 64 bits hold, none too: the digits of such a number tell it from the others, so all flows have
/// different names. With up to 2,000 calls it is accepted: no node calls itself, each quantity is within its limit, no flow needs
/// itself at one instant, and no expression is too wide.
pub fn made_programs_are_accepted()
    ensures settled { (o : Offsets) (n : ℕ) → n < 2 ^ 64 → (t : TypedModel) × IsSettled (chain_program o n) (codes "main") t }
    ensures accepted { (o : Offsets) (n : ℕ) → n ≤ 2000 → IsAccepted (chain_program o n) (codes "main") }
{}
