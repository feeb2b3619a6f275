//! Row claims as values.

use rv_base::Many;
use rv_diagram::Frozen;
use rv_rows::Row;

/// A set of control states, and rows over one or two integer memories that are common to them.
#[derive(Debug, Drop)]
pub struct Claim {
    /// The control states.
    pub reached: Frozen,
    /// The rows, at most one for each left side.
    pub rows: Many<Row>,
}
