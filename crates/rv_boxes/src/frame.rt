//! What is the same throughout a pass.

ghost use Rattle.std.specs.Prelude.{◌≡◌, ◌≤◌, ◌^◌, All, length, IfOk};
ghost use Rattle.std.specs.Int.RustNames.{unsigned_abs};
ghost use Rattle.rv_proofs.specs.Systems.{System};
ghost use Rattle.rv_boxes.specs.Opening.{IsFrameOf};

use crate::shut::negated;
use rv_base::{Many, Memory};
use rv_cases::Questions;
use std::alloc::Global;

/// How many columns and order tests there are, and the thresholds.
#[derive(Debug, Drop)]
pub struct Frame {
    /// How many columns.
    pub columns: usize,
    /// How many order tests.
    pub tests: usize,
    /// The thresholds.
    pub thresholds: Many<i128>,
    /// The thresholds, each with the other sign.
    pub opposites: Many<i128>,
}

/// What is the same throughout a pass over a system with so many columns.
pub fn frame_of(
    alloc: Global,
    questions: &Questions,
    thresholds: &[i128],
    columns: usize,
) -> Result<Frame, Memory>
    requires { All (λ t. unsigned_abs t ≤ 2 ^ 41) thresholds.now }
    ensures thresholds { IfOk result (λ f. f.thresholds ≡ thresholds.now) }
    ensures frame { (s : System) → s.columns ≡ columns → s.tests ≡ length questions.now.rows → IfOk result (IsFrameOf s) }
{
    let list = Vec::from_slice(alloc, thresholds)?;
    let thresholds = Many::from_vec(list);
    let opposites = negated(alloc, &thresholds)?;
    Ok(Frame {
        columns,
        tests: questions.rows.len(),
        thresholds,
        opposites,
    })
}
