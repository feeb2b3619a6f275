//! What two rows show together of a left side.

ghost use Rattle.std.specs.Prelude.{◌≡◌, ◌≢◌, ◌≤◌, ◌^◌, ◌+ℤ◌, true, [], MatchBool, pos};
ghost use Rattle.std.specs.Int.RustNames.{unsigned_abs};
ghost use Rattle.rv_diagram.specs.Nodes.{Valuation, value_of};
ghost use Rattle.rv_rows.specs.Rows.{coefficient, RowWithin};
ghost use Rattle.rv_rows.specs.Forms.{number};
ghost use Rattle.rv_pairs.specs.Labels.{IsLabel};
ghost use Rattle.rv_pairs.specs.Shown.{IsSumOf};

use crate::labels::Labelled;
use rv_base::Many;
use rv_diagram::Store;
use rv_rows::{Row, number_at};
use std::alloc::Global;

/// Whether the coefficients of the rows in a column sum to another number than the given one.
fn differs(numbers: &Many<i128>, one: &Row, other: &Row, column: usize) -> bool
    requires one { RowWithin (2 ^ 60) one.now }
    requires other { RowWithin (2 ^ 60) other.now }
    ensures { MatchBool result
        (number column numbers.now ≢ coefficient column one.now +ℤ coefficient column other.now)
        (number column numbers.now ≡ coefficient column one.now +ℤ coefficient column other.now) }
{
    let sum = number_at(&one.coefficients, column) + number_at(&other.coefficients, column);
    number_at(numbers, column) != sum
}

/// The greatest of three widths.
fn widest(first: usize, second: usize, third: usize) -> usize
    ensures first { first ≤ result }
    ensures second { second ≤ result }
    ensures third { third ≤ result }
{
    let wider = if first < second { second } else { first };
    if wider < third { third } else { wider }
}

/// Whether the left sides of the rows sum to other numbers than the given ones, in some column. Past the end all are 0.
pub fn misses(numbers: &Many<i128>, one: &Row, other: &Row) -> bool
    requires one { RowWithin (2 ^ 60) one.now }
    requires other { RowWithin (2 ^ 60) other.now }
    ensures { MatchBool result (¬ IsSumOf numbers.now one.now other.now) (IsSumOf numbers.now one.now other.now) }
{
    let width = widest(
        numbers.len(),
        one.coefficients.len(),
        other.coefficients.len(),
    );
    for column in 0..width {
        if differs(numbers, one, other, column) {
            return true;
        }
    }
    false
}

/// The row `0 <= 0`, which counts everywhere.
pub fn nothing(alloc: Global, store: &Store) -> Labelled
    ensures label { IsLabel store.now.nodes result }
    ensures row { result.row ≡ record { coefficients = []; bound = pos 0 } }
    ensures counts { (v : Valuation) → value_of store.now.nodes result.under v ≡ true }
{
    Labelled {
        row: Row {
            coefficients: Many::new(alloc),
            bound: 0,
        },
        under: store.constant(true),
    }
}

/// The sum of two bounds.
pub fn sum_of(one: i128, other: i128) -> i128
    requires one { unsigned_abs one ≤ 2 ^ 60 }
    requires other { unsigned_abs other ≤ 2 ^ 60 }
    ensures is { result ≡ one +ℤ other }
    ensures small { unsigned_abs result ≤ 2 ^ 61 }
{
    one + other
}
