//! In which order the flows of a program are evaluated.

use rv_base::{Many, Path, Place};

/// A copy of a node: the call sites from the main node to it, and the number of its node in the file.
#[derive(Debug, Drop)]
pub struct Instance {
    pub path: Path,
    pub node: u32,
}

/// The instances of a program, and a sequence of all their flows.
#[derive(Debug, Drop)]
pub struct Order {
    /// Ordered by path: a proper prefix first, then by the first number that differs.
    pub instances: Many<Instance>,
    /// Every flow stands after each flow that it needs at the same instant.
    pub sequence: Many<Place>,
    /// The number of expressions in right sides and assertions of all instances.
    pub expanded: u64,
}
