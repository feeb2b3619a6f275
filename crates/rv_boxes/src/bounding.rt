//! Limits as rows, and lists of rows one after the other.

ghost use Rattle.std.specs.Prelude.{◌≡◌, ◌≢◌, ◌++◌, ◌<◌, pos, length, IfOk, OnOk};
ghost use Rattle.rv_proofs.specs.Boxes.{IsUnitAt};
ghost use Rattle.rv_boxes.specs.Bounding.{AreLimitRows, AreBothRows, IsNoted};

use rv_base::{Many, Memory};
use rv_rows::Row;
use std::alloc::Global;

/// The coefficient at a column of the row of one memory.
fn coefficient_of(column: usize, memory: usize, sign: i128) -> i128
    ensures here { column ≡ memory → result ≡ sign }
    ensures other { column ≢ memory → result ≡ pos 0 }
{
    if column == memory { sign } else { 0 }
}

/// The row of one memory's limit.
fn limit_row(
    alloc: Global,
    memories: usize,
    memory: usize,
    sign: i128,
    bound: i128,
) -> Result<Row, Memory>
    requires { memory < memories }
    ensures unit { IfOk result (λ r. IsUnitAt r memory sign) }
    ensures bound { IfOk result (λ r. r.bound ≡ bound) }
    ensures width { IfOk result (λ r. length r.coefficients ≡ memories) }
{
    let mut coefficients = Many::new(alloc);
    for column in 0..memories {
        coefficients.push(coefficient_of(column, memory, sign))?;
    }
    Ok(Row {
        coefficients,
        bound,
    })
}

/// Adds the row of one memory's limit, where there is one.
fn note_limit(
    alloc: Global,
    rows: &mut Many<Row>,
    memories: usize,
    memory: usize,
    sign: i128,
    limit: Option<i128>,
) -> Result<(), Memory>
    requires { memory < memories }
    ensures { OnOk result (IsNoted memories memory sign limit rows.old rows.new) }
{
    match limit {
        Some(bound) => {
            let row = limit_row(alloc, memories, memory, sign, bound)?;
            rows.push(row)?;
            Ok(())
        }
        None => Ok(()),
    }
}

/// A row for each limit of the memories, or of their opposites.
fn limit_rows(alloc: Global, limits: &Many<Option<i128>>, sign: i128) -> Result<Many<Row>, Memory>
    ensures { IfOk result (AreLimitRows limits.now (length limits.now) sign (length limits.now)) }
{
    let memories = limits.len();
    let mut rows = Many::new(alloc);
    for memory in 0..memories {
        let limit = *limits.at(memory);
        note_limit(alloc, &mut rows, memories, memory, sign, limit)?;
    }
    Ok(rows)
}

/// The rows of both lists, those of the first before those of the second.
pub fn appended(first: Many<Row>, second: Many<Row>) -> Result<Many<Row>, Memory>
    ensures { IfOk result (λ rows. rows ≡ first ++ second) }
{
    let mut rows = first;
    for row in second.into_vec() {
        rows.push(row)?;
    }
    Ok(rows)
}

/// A row for each bound of the memories: the upper bounds, then the lower ones.
pub fn bound_rows(
    alloc: Global,
    upper: &Many<Option<i128>>,
    lower: &Many<Option<i128>>,
) -> Result<Many<Row>, Memory>
    requires { length lower.now ≡ length upper.now }
    ensures { IfOk result (AreBothRows upper.now lower.now (length upper.now)) }
{
    let first = limit_rows(alloc, upper, 1)?;
    let second = limit_rows(alloc, lower, -1)?;
    appended(first, second)
}

/// The same row.
pub fn copy_row(alloc: Global, row: &Row) -> Result<Row, Memory>
    ensures { IfOk result (λ r. r ≡ row.now) }
{
    let numbers = Vec::from_slice(alloc, row.coefficients.as_slice())?;
    Ok(Row {
        coefficients: Many::from_vec(numbers),
        bound: row.bound,
    })
}

/// The same rows.
pub fn copy_rows(alloc: Global, rows: &Many<Row>) -> Result<Many<Row>, Memory>
    ensures { IfOk result (λ copies. copies ≡ rows.now) }
{
    let mut copies = Many::new(alloc);
    for place in 0..rows.len() {
        let copy = copy_row(alloc, rows.at(place))?;
        copies.push(copy)?;
    }
    Ok(copies)
}
