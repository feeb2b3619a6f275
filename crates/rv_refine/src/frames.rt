//! What is the same throughout a search, and the parts as they are known.

use rv_base::Many;
use rv_diagram::{Frozen, Ref};
use rv_pairs::Labelled;
use rv_rows::Row;

/// What is the same throughout.
#[derive(Debug, Drop)]
pub struct Frame {
    /// The left sides.
    pub sides: Many<Row>,
    /// The thresholds.
    pub thresholds: Many<i128>,
    /// How many columns forms have.
    pub columns: usize,
    /// The rows of the tests, each where its answer is given.
    pub labels: Many<Labelled>,
    /// Where the valuation is allowed and its tests are not shut at once by themselves.
    pub allowed: Ref,
    /// The control states of each part; those of part 0 are the initial ones.
    pub sets: Many<Frozen>,
    /// For each part where the next control state is in it.
    pub into: Many<Ref>,
    /// Whether limits are raised by any number of turns of a part at once.
    pub turns: bool,
    /// Whether the same was looked at before.
    pub idle: bool,
}

/// The parts as they are known.
#[derive(Debug, Drop)]
pub struct Known {
    /// For each part whether a step leads into it.
    pub reached: Many<bool>,
    /// For each part whether it is to be visited.
    pub dirty: Many<bool>,
    /// For each part the limits of all left sides.
    pub limits: Many<Many<Option<i128>>>,
    /// How many visits of parts there were.
    pub visits: usize,
}
