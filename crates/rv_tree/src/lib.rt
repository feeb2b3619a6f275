//! The syntax tree of a Lustre program, and what is told of it alone: its flows, places, sites and memories.
//!
//! It promises that the memories of a node stand in rising order, each once (`memories_in_order`). What is so of the tree of
//! every source is `IsSourceTree` (specs/SourceTrees.antt): the crates above take a tree by it and know no bytes. It stands
//! on `rv_base` alone. Begin with tree.rt, then specs/Tree.antt for what a contract sees of a tree.
#![tactic(auto)]

ghost use Rattle.std.specs.Prelude.{◌≡◌, ◌<◌, ℕ, length, slice_index_or};
ghost use Rattle.std.specs.List.{Contains};
ghost use Rattle.rv_tree.specs.Delays.{Delay, node_delays, memory_sites};
ghost use Rattle.rv_tree.specs.Places.{memory_site};
ghost use Rattle.rv_tree.specs.Tree.{NodeTree};

mod decls;
mod tree;

pub use decls::Decls;
pub use rv_base::{HEAVIEST, SOURCE_LIMIT, TOO_HEAVY};
pub use tree::{
    Assertion, ConstDecl, Decl, Equation, Expr, ExprForm, Name, Node, Op, Program, TypeBody,
    TypeDecl, TypeName,
};

/// The memories of a node stand at the sites that its `pre` and `current` read, each once and in rising order.
pub fn memories_in_order()
    ensures rising { (n : NodeTree) (j k : ℕ) → j < k → k < length (memory_sites n)
        → slice_index_or (memory_sites n) j 0 < slice_index_or (memory_sites n) k 0 }
    ensures all { (n : NodeTree) (d : Delay) → Contains (node_delays n) d → Contains (memory_sites n) (memory_site n d.site d.operand) }
    ensures only { (n : NodeTree) (s : ℕ) → Contains (memory_sites n) s → (d : Delay) × Contains (node_delays n) d × (memory_site n d.site d.operand ≡ s) }
{}
