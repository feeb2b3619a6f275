//! What is the same throughout a search.

use rv_base::Many;

/// What refutes premises and proves rows from them.
#[derive(Clone, Copy, Debug)]
pub enum By {
    /// The box of the premises, over so many columns.
    Boxes(usize),
    /// Pairs of premises, and where none does, any multipliers that the simplex finds.
    Rows,
}

/// What proves rows, and what a condition may read.
#[derive(Debug, Drop)]
pub struct Frame {
    /// What proves rows.
    pub by: By,
    /// How many variables.
    pub variables: u32,
    /// For each variable whether it is no next copy.
    pub read: Many<bool>,
}
