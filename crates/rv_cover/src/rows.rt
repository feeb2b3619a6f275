//! Rows that are chosen from others, and whether rows can be premises.

ghost use Rattle.std.specs.Prelude.{◌≡◌, ◌≢◌, ◌⊎◌, ◌∷◌, ◌++◌, [], ◌+◌, ◌<◌, ◌≤◌, ◌^◌, ℕ, pos, negsuc, IsTrue, All, length, IfOk, OnOk, IfSome, IfNone};
ghost use Rattle.std.specs.Prelude.{MatchBool};
ghost use Rattle.std.specs.Int.RustNames.{unsigned_abs};
ghost use Rattle.rv_proofs.specs.Systems.{System};
ghost use Rattle.rv_proofs.specs.Ranges.{AreKept};
ghost use Rattle.rv_rows.specs.Rows.{coefficient};
ghost use Rattle.rv_proofs.specs.Boxes.{HasUnit, HasOneColumn};
ghost use Rattle.rv_boxes.specs.Ends.{IsOnlyColumn};
ghost use Rattle.rv_boxes.specs.Boxed.{ArePremises};
ghost use Rattle.rv_cover.specs.Premises.{IsPremise};

use crate::copies::copy_row;
use crate::marks::is_set;
use rv_base::{Many, Memory};
use rv_boxes::Premises;
use rv_rows::{Row, number_at};
use std::alloc::Global;

/// The greatest coefficient of a premise, 2^41.
const LARGEST: i128 = 2_199_023_255_552;

/// The least coefficient of a premise.
const SMALLEST: i128 = -2_199_023_255_552;

/// The greatest bound of a premise, 2^60.
const HIGHEST: i128 = 1_152_921_504_606_846_976;

/// The least bound of a premise.
const LOWEST: i128 = -1_152_921_504_606_846_976;

/// Adds the row, where that is asked.
fn add_if(alloc: Global, list: &mut Many<Row>, row: &Row, asked: bool) -> Result<(), Memory>
    ensures { OnOk result ((list.new ≡ list.old) ⊎ (list.new ≡ list.old ++ row.now ∷ [])) }
{
    if !asked {
        return Ok(());
    }
    let copy = copy_row(alloc, row)?;
    list.push(copy)?;
    Ok(())
}

/// The rows whose flags are there and set, in the same order. The only error is want of memory.
pub fn chosen(alloc: Global, rows: &Many<Row>, flags: &Many<bool>) -> Result<Many<Row>, Memory>
    ensures few { IfOk result (λ list. length list ≤ length rows.now) }
    ensures kept { IfOk result (λ list. (s : System) → AreKept s rows.now → AreKept s list) }
{
    let mut list = Many::new(alloc);
    for place in 0..rows.len() {
        let asked = is_set(flags, place);
        add_if(alloc, &mut list, rows.at(place), asked)?;
    }
    Ok(list)
}

/// The same row where that is asked, and else `0 <= 2^60`, which shows nothing.
fn row_if(alloc: Global, row: &Row, asked: bool) -> Result<Row, Memory> {
    if asked {
        return copy_row(alloc, row);
    }
    Ok(Row {
        coefficients: Many::new(alloc),
        bound: HIGHEST,
    })
}

/// The rows whose flags are set, each in its place, and elsewhere rows that show nothing.
pub fn only_marked(alloc: Global, rows: &Many<Row>, flags: &Many<bool>) -> Result<Many<Row>, Memory>
    ensures { IfOk result (λ list. length list ≡ length rows.now) }
{
    let mut list = Many::new(alloc);
    for place in 0..rows.len() {
        let row = row_if(alloc, rows.at(place), is_set(flags, place))?;
        list.push(row)?;
    }
    Ok(list)
}

/// Whether the number has a magnitude of at most 2^41.
fn is_small(number: i128) -> bool
    ensures { IsTrue result → unsigned_abs number ≤ 2 ^ 41 }
{
    if number > LARGEST {
        return false;
    }
    if number < SMALLEST {
        return false;
    }
    true
}

/// Whether the number has a magnitude of at most 2^60.
fn is_bound(number: i128) -> bool
    ensures { IsTrue result → unsigned_abs number ≤ 2 ^ 60 }
{
    if number > HIGHEST {
        return false;
    }
    if number < LOWEST {
        return false;
    }
    true
}

/// Whether no number has a magnitude above 2^41.
pub fn are_small(numbers: &Many<i128>) -> bool
    ensures { IsTrue result → All (λ c. unsigned_abs c ≤ 2 ^ 41) numbers.now }
{
    for place in 0..numbers.len() {
        if !is_small(*numbers.at(place)) {
            return false;
        }
    }
    true
}

/// Whether the number is 1 or -1.
fn is_unit(number: i128) -> bool
    ensures { IsTrue result → (number ≡ pos 1) ⊎ (number ≡ negsuc 0) }
{
    if number == 1 {
        return true;
    }
    number == -1
}

/// Whether all coefficients of the row from this column on are 0.
fn is_zero_from(row: &Row, first: usize) -> bool
    ensures { MatchBool result ((n : ℕ) → first ≤ n → coefficient n row.now ≡ pos 0)
        ((n : ℕ) × (first ≤ n) × (coefficient n row.now ≢ pos 0)) }
{
    for column in first..row.coefficients.len() {
        if number_at(&row.coefficients, column) != 0 {
            return false;
        }
    }
    true
}

/// The column of the coefficient that is other than 0, where there is exactly one.
fn only_column(row: &Row) -> Option<usize>
    ensures some { IfSome result (IsOnlyColumn row.now) }
    ensures none { IfNone result (¬ HasOneColumn row.now) }
{
    for column in 0..row.coefficients.len() {
        if number_at(&row.coefficients, column) != 0 {
            if is_zero_from(row, column + 1) {
                return Some(column);
            }
            return None;
        }
    }
    None
}

/// Whether the row has 1 or -1 where exactly one of its coefficients is other than 0.
fn has_unit(row: &Row) -> bool
    ensures { IsTrue result → HasUnit row.now }
{
    match only_column(row) {
        Some(column) => is_unit(number_at(&row.coefficients, column)),
        None => true,
    }
}

/// Whether the row can be a premise over so many columns.
fn is_premise(row: &Row, columns: usize) -> bool
    ensures { IsTrue result → IsPremise columns row.now }
{
    row.coefficients.len() <= columns
        && is_bound(row.bound)
        && are_small(&row.coefficients)
        && has_unit(row)
}

/// Whether the rows can be premises over so many columns.
pub fn are_premises(premises: &Premises, columns: usize) -> bool
    requires { length premises.now < 2 ^ 32 }
    ensures { IsTrue result → ArePremises columns premises.now }
{
    for place in 0..premises.len() {
        if !is_premise(premises.at(place), columns) {
            return false;
        }
    }
    true
}
