//! What follows from the rules alone.

ghost use Rattle.std.specs.Prelude.{◌≡◌, ◌↔◌, ◌⊎◌, suc, length, IsTrue};
ghost use Rattle.rv_tree.specs.SourceTrees.{IsSourceTree};
ghost use Rattle.rv_tree.specs.Places.{Identifier};
ghost use Rattle.rv_tree.specs.Tree.{NodeTree, ProgramTree};
ghost use Rattle.rv_types.specs.declared.fault.NameFault.{NameFault};
ghost use Rattle.rv_types.specs.declared.typed.Clock.{Clock};
ghost use Rattle.rv_types.specs.declared.typed.Typed.{Typed};
ghost use Rattle.rv_types.specs.Clocks.{IsGrounded, ends, flow_clocks};
ghost use Rattle.rv_types.specs.Settled.{IsSettled, IsFirstFault};
ghost use Rattle.rv_types.specs.WellFormed.{AreSited, AreWell};

/// A program is settled in one way at most.
pub fn one_settlement()
    ensures { (p : ProgramTree) (main : Identifier) (t u : Typed) → IsSettled p main t → IsSettled p main u → t ≡ u }
{}

/// One fault at most is the first.
pub fn one_fault()
    ensures { (p : ProgramTree) (main : Identifier) (f g : NameFault) → IsFirstFault p main f → IsFirstFault p main g → f ≡ g }
{}

/// A program is settled or has a first fault, and never both.
pub fn settled_or_refused()
    ensures either { (p : ProgramTree) (main : Identifier) → ((t : Typed) × IsSettled p main t) ⊎ ((f : NameFault) × IsFirstFault p main f) }
    ensures never_both { (p : ProgramTree) (main : Identifier) (t : Typed) (f : NameFault) → IsSettled p main t → IsFirstFault p main f → ⊥ }
{}

/// The chain of clocks from a flow ends at the base clock exactly where it does within as many steps as there are
/// flows, and one more.
pub fn chains_end()
    ensures { (n : NodeTree) (c : Clock) → IsTrue (ends n (suc (length (flow_clocks n))) c) ↔ IsGrounded n c }
{}

/// The nodes of a program that keeps every rule are well formed and well typed, and its constants have values of their
/// types.
pub fn well_formed_programs()
    ensures { (p : ProgramTree) (main : Identifier) (t : Typed) → IsSourceTree p → IsSettled p main t → AreWell p }
{}

/// The calls of each node have sites of their own, beyond those of its flows.
pub fn sited_programs()
    ensures { (p : ProgramTree) → IsSourceTree p → AreSited p }
{}
