//! What is the same throughout a search.

use rv_base::Many;
use rv_rows::Row;

/// The left sides of candidates, and the thresholds.
#[derive(Debug, Drop)]
pub struct Frame {
    /// All left sides, as rows with the bound 0.
    pub sides: Many<Row>,
    /// The thresholds.
    pub thresholds: Many<i128>,
}
