//! Premises of which each says that a column is at most 100 or at least 0, or bounds a sum of two columns.

ghost use Rattle.std.specs.Prelude.{◌<◌, ◌≤◌, ◌^◌, All, length, IfOk};
ghost use Rattle.std.specs.Int.RustNames.{unsigned_abs};
ghost use Rattle.rv_rows.specs.Rows.{RowWithin};
ghost use Rattle.rv_rows.specs.Forms.{FormWithin};

use rv_base::{Many, Memory};
use rv_rows::{Form, Row};
use std::alloc::Global;

/// The number after a number (Knuth's linear congruential generator).
pub fn drawn(seed: u64) -> u64 {
    seed.wrapping_mul(6364136223846793005)
        .wrapping_add(1442695040888963407)
}

/// A number from -2 to 2.
fn small(seed: u64) -> i128
    ensures { unsigned_abs result ≤ 2 ^ 60 }
{
    match (seed >> 40) % 5 {
        0 => -2,
        1 => -1,
        2 => 0,
        3 => 1,
        _ => 2,
    }
}

/// The number of a column: the one drawn for it, if it is the first or the second of the row.
fn at_column(column: usize, first: usize, second: usize, seed: u64) -> i128
    ensures { unsigned_abs result ≤ 2 ^ 60 }
{
    if column == first {
        small(seed)
    } else if column == second {
        small(drawn(seed))
    } else {
        0
    }
}

/// The number of a column in a row whose one number is at a place.
fn at_place(column: usize, place: usize, number: i128) -> i128
    requires { unsigned_abs number ≤ 2 ^ 60 }
    ensures { unsigned_abs result ≤ 2 ^ 60 }
{
    if column == place { number } else { 0 }
}

fn column_of(seed: u64, width: usize) -> usize {
    match (seed >> 33).checked_rem(width as u64) {
        Some(column) => column as usize,
        None => 0,
    }
}

/// A row over two drawn columns with this bound.
pub fn sum_row(alloc: Global, seed: u64, width: usize, bound: i128) -> Result<Row, Memory>
    requires { unsigned_abs bound ≤ 2 ^ 60 }
    ensures { IfOk result (RowWithin (2 ^ 60)) }
{
    let first = column_of(drawn(seed), width);
    let second = column_of(drawn(drawn(seed)), width);
    let mut coefficients = Many::new(alloc);
    for column in 0..width {
        coefficients.push(at_column(column, first, second, seed))?;
    }
    Ok(Row {
        coefficients,
        bound,
    })
}

fn unit_row(
    alloc: Global,
    place: usize,
    width: usize,
    number: i128,
    bound: i128,
) -> Result<Row, Memory>
    requires number { unsigned_abs number ≤ 2 ^ 60 }
    requires bound { unsigned_abs bound ≤ 2 ^ 60 }
    ensures { IfOk result (RowWithin (2 ^ 60)) }
{
    let mut coefficients = Many::new(alloc);
    for column in 0..width {
        coefficients.push(at_place(column, place, number))?;
    }
    Ok(Row {
        coefficients,
        bound,
    })
}

/// The premise with a number. The bounds of sums are from -`lowered` on.
fn premise(
    alloc: Global,
    seed: u64,
    number: usize,
    width: usize,
    lowered: u8,
) -> Result<Row, Memory>
    ensures { IfOk result (RowWithin (2 ^ 60)) }
{
    if number < width {
        return Ok(unit_row(alloc, number, width, 1, 100)?);
    }
    if number - width < width {
        return Ok(unit_row(alloc, number - width, width, -1, 0)?);
    }
    let own = drawn(seed.wrapping_mul(8192).wrapping_add(number as u64));
    let bound = i128::from((own >> 50) % 200) - i128::from(lowered);
    let row = sum_row(alloc, own, width, bound)?;
    Ok(row)
}

/// So many premises over so many columns.
pub fn premises(
    alloc: Global,
    seed: u64,
    count: usize,
    width: usize,
    lowered: u8,
) -> Result<Many<Row>, Memory>
    requires { count ≤ 4000 }
    ensures small { IfOk result (All (RowWithin (2 ^ 60))) }
    ensures few { IfOk result (λ p. length p < 2 ^ 32) }
{
    let mut rows = Many::new(alloc);
    for number in 0..count {
        rows.push(premise(alloc, seed, number, width, lowered)?)?;
    }
    Ok(rows)
}

/// The left side of a row over two drawn columns.
pub fn form(alloc: Global, seed: u64, width: usize) -> Result<Form, Memory>
    ensures { IfOk result (FormWithin (2 ^ 78)) }
{
    let row = sum_row(alloc, seed, width, 0)?;
    Ok(Form {
        coefficients: row.coefficients,
        constant: 0,
    })
}
