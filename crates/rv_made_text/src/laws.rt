//! Laws, each the contract of a function that does nothing.

ghost use Rattle.std.specs.Prelude.{ℕ};
ghost use Rattle.rv_make.specs.Made.{made_text};
ghost use Rattle.rv_make.specs.Chains.{Offsets, chain_program};
ghost use Rattle.rv_syntax.specs.ProgramText.{IsTextOf};

/// The source that is made for a number is the text of the chain of that many calls: the grammar derives its tokens with that tree,
/// its parts at the offsets of their tokens and with the sites of their order, and its nesting is within the limit.
pub fn made_trees()
    ensures { (n : ℕ) → (o : Offsets) × IsTextOf (made_text n) (chain_program o n) }
{}
