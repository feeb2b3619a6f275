//! Copies of rows, and lists of rows one after the other.

ghost use Rattle.std.specs.Prelude.{◌≡◌, ◌++◌, IfOk};

use rv_base::{Many, Memory};
use rv_rows::Row;
use std::alloc::Global;

/// The same row.
fn copy_row(alloc: Global, row: &Row) -> Result<Row, Memory>
    ensures { IfOk result (λ r. r ≡ row.now) }
{
    let numbers = Vec::from_slice(alloc, row.coefficients.as_slice())?;
    Ok(Row {
        coefficients: Many::from_vec(numbers),
        bound: row.bound,
    })
}

/// The same rows.
pub fn copy_rows(alloc: Global, rows: &Many<Row>) -> Result<Many<Row>, Memory>
    ensures { IfOk result (λ copies. copies ≡ rows.now) }
{
    let mut copies = Many::new(alloc);
    for place in 0..rows.len() {
        let copy = copy_row(alloc, rows.at(place))?;
        copies.push(copy)?;
    }
    Ok(copies)
}

/// The rows of both lists, those of the first before those of the second.
fn appended(first: Many<Row>, second: Many<Row>) -> Result<Many<Row>, Memory>
    ensures { IfOk result (λ rows. rows ≡ first ++ second) }
{
    let mut rows = first;
    for row in second.into_vec() {
        rows.push(row)?;
    }
    Ok(rows)
}

/// The given rows, and then those of the tests that are present.
pub fn premises_of(alloc: Global, given: &Many<Row>, tests: &Many<Row>) -> Result<Many<Row>, Memory>
    ensures { IfOk result (λ premises. premises ≡ given.now ++ tests.now) }
{
    let first = copy_rows(alloc, given)?;
    let second = copy_rows(alloc, tests)?;
    appended(first, second)
}
