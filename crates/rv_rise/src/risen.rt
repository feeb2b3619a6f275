//! Claims under way.

use rv_base::Many;
use rv_diagram::Frozen;

/// A set of control states, and limits of the left sides of a frame that are common to them.
#[derive(Debug, Drop)]
pub struct Risen {
    /// The control states.
    pub reached: Frozen,
    /// For each left side the number that it is at most, or none.
    pub limits: Many<Option<i128>>,
}
