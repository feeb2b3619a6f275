//! The bounds that are tried: the thresholds of a flat system, the bounds of its tests once constants are summed, and around them, and small numbers.

ghost use Rattle.std.specs.Prelude.{◌≡◌, ◌≤◌, ◌^◌, true, All, IfOk, OnOk};
ghost use Rattle.std.specs.Int.RustNames.{unsigned_abs};
ghost use Rattle.rv_refine.specs.Sides.{AreSmall};

use rv_base::{Many, Memory};
use rv_cases::Questions;
use rv_rows::Row;
use std::alloc::Global;

/// The most thresholds.
const MOST: usize = 1024;

/// The greatest magnitude of a threshold, 2^41.
const GREATEST: i128 = 2_199_023_255_552;

/// Where thresholds are to be dense each whole number of a magnitude below this is tried.
const DENSE: usize = 33;

/// Whether the magnitude of a number is at most 2^41.
fn is_small(number: i128) -> bool
    ensures { result ≡ true → unsigned_abs number ≤ 2 ^ 41 }
{
    number <= GREATEST && number >= -GREATEST
}

/// Whether the number is among them.
fn is_among(thresholds: &Many<i128>, number: i128) -> bool {
    for place in 0..thresholds.len() {
        if *thresholds.at(place) == number {
            return true;
        }
    }
    false
}

/// Adds a threshold, where it is new and small and there is room.
fn add(thresholds: &mut Many<i128>, number: i128) -> Result<(), Memory>
    requires { AreSmall thresholds.old }
    ensures { OnOk result (AreSmall thresholds.new) }
{
    if thresholds.len() >= MOST || is_among(thresholds, number) {
        return Ok(());
    }
    if is_small(number) {
        thresholds.push(number)?;
    }
    Ok(())
}

/// Adds a number, its opposite, and those beside them.
fn add_around(thresholds: &mut Many<i128>, number: i128) -> Result<(), Memory>
    requires { AreSmall thresholds.old }
    ensures { OnOk result (AreSmall thresholds.new) }
{
    if !is_small(number) {
        return Ok(());
    }
    for shift in 0..3 {
        let beside = number + (shift as i128 - 1);
        add(thresholds, beside)?;
        add(thresholds, -beside)?;
    }
    Ok(())
}

/// Adds the bounds of rows, and around them.
fn add_bounds(thresholds: &mut Many<i128>, rows: &Many<Row>) -> Result<(), Memory>
    requires { AreSmall thresholds.old }
    ensures { OnOk result (AreSmall thresholds.new) }
{
    for place in 0..rows.len() {
        add_around(thresholds, rows.at(place).bound)?;
    }
    Ok(())
}

/// Adds the whole numbers of small magnitude.
fn add_dense(thresholds: &mut Many<i128>) -> Result<(), Memory>
    requires { AreSmall thresholds.old }
    ensures { OnOk result (AreSmall thresholds.new) }
{
    for magnitude in 0..DENSE {
        let number = magnitude as i128;
        add(thresholds, number)?;
        add(thresholds, -number)?;
    }
    Ok(())
}

/// The bounds that are tried: those that are given, and those of the tests' rows, and beside them; where it is asked each number of small magnitude, too.
/// The only error is want of memory.
pub fn thresholds_of(
    alloc: Global,
    given: &[i128],
    questions: &Questions,
    dense: bool,
) -> Result<Many<i128>, Memory>
    requires { AreSmall given.now }
    ensures { IfOk result AreSmall }
{
    let list = Vec::from_slice(alloc, given)?;
    let mut thresholds = Many::from_vec(list);
    for test in 0..questions.rows.len() {
        add_bounds(&mut thresholds, questions.rows.at(test))?;
    }
    if dense {
        add_dense(&mut thresholds)?;
    }
    Ok(thresholds)
}
