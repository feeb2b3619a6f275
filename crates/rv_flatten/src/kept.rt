//! The memories and the comparisons of all instances, as they are found.

use rv_base::Place;
use rv_tree::{Expr, Op};
use rv_types::{Clock, Kind};

/// A memory: its place, the type of what it holds, the number of its instance, and the operand of one of the `pre` and
/// `current` that read it, with its clock.
#[derive(Drop)]
pub struct Kept<'a> {
    pub place: Place,
    pub kind: Kind,
    pub clock: Clock,
    pub instance: u32,
    pub operand: &'a Expr,
}

/// A comparison of integers: its place and its operator.
#[derive(Drop)]
pub struct Comparison {
    pub place: Place,
    pub operator: Op,
}
