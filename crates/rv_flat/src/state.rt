//! The state of a flat system between two instants.

use rv_base::{Many, Value};

/// What a flat system brings to an instant: for each tick, the main one first, whether its clock has been there, and for each
/// memory what it holds, both in the order of the system.
#[derive(Debug, Drop)]
pub struct State {
    pub ticked: Many<bool>,
    pub kept: Many<Value>,
}
