//! A source that is accepted.

ghost use Rattle.rv_tree.specs.Tree.{program_tree};
ghost use Rattle.rv_instances.specs.Fitting.{Fits};

use crate::answer::Order;
use rv_tree::Program;
use rv_types::Typed;

/// An accepted source: its tree, what is known of its names, types and clocks, and an order of evaluation. The three
/// are of one program.
#[derive(Debug, Drop)]
pub struct Source {
    pub program: Program,
    pub typed: Typed,
    pub order: Order,
    pub ghost fits: { ∥ Fits (program_tree program) typed order ∥₁ },
}
