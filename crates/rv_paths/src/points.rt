//! A whole point of the rows of a path, cut into the start values and the inputs of each instant.

ghost use Rattle.std.specs.Prelude.{◌≡◌, ◌<◌, ◌^◌, All, length, IfOk, IfSome};
ghost use Rattle.rv_poly.specs.Whole.{IsInReplay};
ghost use Rattle.rv_paths.specs.Joining.{AreJoined};

use crate::tree::{Plan, Turn};
use crate::unroll::all_joined;
use rv_base::{Many, Memory};
use rv_poly::Poly;
use rv_proofs::rows_have_room;
use rv_rows::{Row, number_at};
use rv_seek::seek_refutation;
use std::alloc::Global;

/// A whole point of the rows, where one is found.
fn point_of_rows(alloc: Global, rows: Many<Row>) -> Result<Option<Many<i128>>, Memory>
    requires rows { AreJoined rows }
    requires few { length rows < 2 ^ 32 }
    ensures { IfOk result (λ o. IfSome o (All IsInReplay)) }
{
    rows_have_room();
    if seek_refutation(alloc, &rows)?.is_some() {
        return Ok(None);
    }
    let poly = Poly { rows };
    poly.whole_point(alloc)
}

/// A number for each column of a path, as far as its rows have columns, where the rows of all its instants have a point that is found.
pub fn point_of(
    alloc: Global,
    plan: &Plan,
    turns: &Many<Turn>,
) -> Result<Option<Many<i128>>, Memory>
    ensures { IfOk result (λ o. IfSome o (All IsInReplay)) }
{
    match all_joined(alloc, plan, turns)? {
        Some(joined) => point_of_rows(alloc, joined.rows),
        None => Ok(None),
    }
}

/// So many numbers of a point from a column on, 0 beyond its end.
pub fn part_of(
    alloc: Global,
    point: &Many<i128>,
    from: usize,
    count: usize,
) -> Result<Many<i128>, Memory>
    requires { All IsInReplay point.now }
    ensures size { IfOk result (λ numbers. length numbers ≡ count) }
    ensures replay { IfOk result (All IsInReplay) }
{
    let mut numbers = Many::new(alloc);
    for column in 0..count {
        let number = number_at(point, from.saturating_add(column));
        numbers.push(number)?;
    }
    Ok(numbers)
}

/// The numbers of the inputs, for each of so many instants.
pub fn inputs_of(
    alloc: Global,
    point: &Many<i128>,
    memories: usize,
    inputs: usize,
    instants: usize,
) -> Result<Many<Many<i128>>, Memory>
    requires { All IsInReplay point.now }
    ensures instants { IfOk result (λ all. length all ≡ instants) }
    ensures sizes { IfOk result (λ all. All (λ numbers. length numbers ≡ inputs) all) }
    ensures replay { IfOk result (λ all. All (All IsInReplay) all) }
{
    let mut all = Many::new(alloc);
    for instant in 0..instants {
        let from = memories.saturating_add(inputs.saturating_mul(instant));
        let numbers = part_of(alloc, point, from, inputs)?;
        all.push(numbers)?;
    }
    Ok(all)
}
