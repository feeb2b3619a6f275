//! What an integer expression is read over.

use rv_base::Many;
use rv_terms::Term;

/// The integers of a flat system as terms over its columns, by number. What is no integer has the constant 0.
#[derive(Debug, Drop)]
pub struct Wholes {
    /// How many columns each form has: one for each integer memory, then one for each integer input.
    pub columns: usize,
    /// For each memory its column.
    pub kept: Many<Term>,
    /// For each input its column.
    pub given: Many<Term>,
    /// For each flow that has been read, in their order, what it has where it is there, and the constant 0 elsewhere.
    pub flows: Many<Term>,
}
