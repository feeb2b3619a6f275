//! The rows that limits make of left sides.

ghost use Rattle.std.specs.Prelude.{◌≡◌, [], ◌∷◌, ◌++◌, length, IfOk, OnOk};
ghost use Rattle.rv_seek.specs.Least.{bounded};
ghost use Rattle.rv_rise.specs.Sides.{rows_with};

use rv_base::{Many, Memory};
use rv_rows::Row;
use std::alloc::Global;

/// The row with a left side and a bound.
fn row_with(alloc: Global, side: &Row, bound: i128) -> Result<Row, Memory>
    ensures { IfOk result (λ r. r ≡ bounded side.now.coefficients bound) }
{
    let numbers = Vec::from_slice(alloc, side.coefficients.as_slice())?;
    Ok(Row {
        coefficients: Many::from_vec(numbers),
        bound,
    })
}

/// Adds the row of a left side, where it has a limit.
fn note_row(
    alloc: Global,
    rows: &mut Many<Row>,
    side: &Row,
    limit: Option<i128>,
) -> Result<(), Memory>
    ensures { OnOk result (rows.new ≡ rows.old ++ rows_with (side.now ∷ []) (limit ∷ [])) }
{
    match limit {
        Some(bound) => {
            let row = row_with(alloc, side, bound)?;
            rows.push(row)?;
            Ok(())
        }
        None => Ok(()),
    }
}

/// The rows of those left sides that have a limit, in order.
pub fn rows_of(
    alloc: Global,
    sides: &Many<Row>,
    limits: &Many<Option<i128>>,
) -> Result<Many<Row>, Memory>
    requires { length limits.now ≡ length sides.now }
    ensures { IfOk result (λ rows. rows ≡ rows_with sides.now limits.now) }
{
    let mut rows = Many::new(alloc);
    for place in 0..sides.len() {
        let side = sides.at(place);
        let limit = *limits.at(place);
        note_row(alloc, &mut rows, side, limit)?;
    }
    Ok(rows)
}
