//! Rows moved by the constants of updates, of any size.

ghost use Rattle.std.specs.Prelude.{◌≡◌, ◌<◌, ◌≤◌, ◌^◌, ℕ, ℤ, pos, ◌+ℤ◌, List, length, map, All, MatchOption, MatchBool, IfOk, IfSome, IfNone, OnOk};
ghost use Rattle.rv_rows.specs.Rows.{dot};
ghost use Rattle.rv_rows.specs.Forms.{number};
ghost use Rattle.rv_rows.specs.Tight.{Fits};
ghost use Rattle.rv_poly.specs.Points.{HasPoint};
ghost use Rattle.rv_poly.specs.Images.{IsImage, AreMoves, IsNarrow, StaysWithin};
ghost use Rattle.rv_poly.specs.Moves.{whole_of, IsNormal, IsOwnPlus, IsMoved, CanMove, IsMovedAdded, AreMoved};

use crate::image::cut;
use crate::wide::{Wide, parted, plus_wide, within};
use rv_base::{Many, Memory};
use rv_rows::{Form, Row, number_at};
use std::alloc::Global;

/// Whether all numbers but that of one column are 0.
fn is_alone(numbers: &Many<i128>, column: usize) -> bool
    ensures { MatchBool result ((j : ℕ) → (j ≡ column → ⊥) → number j numbers.now ≡ pos 0)
        (¬ ((j : ℕ) → (j ≡ column → ⊥) → number j numbers.now ≡ pos 0)) }
{
    for place in 0..numbers.len() {
        if place != column && *numbers.at(place) != 0 {
            return false;
        }
    }
    true
}

/// Whether the form is a column plus a constant.
fn is_move(form: &Form, column: usize) -> bool
    ensures { MatchBool result (IsOwnPlus column form.now) (¬ IsOwnPlus column form.now) }
{
    if number_at(&form.coefficients, column) != 1 {
        return false;
    }
    is_alone(&form.coefficients, column)
}

/// Whether each update is its own column plus a constant.
pub fn are_moves(updates: &Many<Form>) -> bool
    ensures { MatchBool result (AreMoves updates.now) (¬ AreMoves updates.now) }
{
    for column in 0..updates.len() {
        let form = updates.at(column);
        if !is_move(form, column) {
            return false;
        }
    }
    true
}

/// Whether the row has no coefficient from a column on.
pub fn is_narrow(row: &Row, width: usize) -> bool
    ensures { MatchBool result (IsNarrow width row.now) (¬ IsNarrow width row.now) }
{
    for column in 0..row.coefficients.len() {
        if column >= width && *row.coefficients.at(column) != 0 {
            return false;
        }
    }
    true
}

/// The bound of the row, and each coefficient times the constant of its update.
fn wide_bound(row: &Row, updates: &Many<Form>) -> Wide
    requires { Fits row.now }
    ensures value { whole_of result ≡ row.now.bound +ℤ dot row.now.coefficients (map (λ f. f.constant) updates.now) }
    ensures normal { IsNormal result }
{
    let mut sum = parted(row.bound);
    for column in 0..updates.len() {
        let by = number_at(&row.coefficients, column);
        let form = updates.at(column);
        sum = plus_wide(sum, by, form.constant);
    }
    sum
}

/// The moved bound of the row, where it is within the limit of a kept row.
pub fn near_bound(row: &Row, updates: &Many<Form>) -> Option<i128>
    requires { Fits row.now }
    ensures { MatchOption result (¬ StaysWithin updates.now row.now)
        (λ z. (z ≡ row.now.bound +ℤ dot row.now.coefficients (map (λ f. f.constant) updates.now)) × StaysWithin updates.now row.now) }
{
    let sum = wide_bound(row, updates);
    within(sum)
}

/// The moved bound of the row, where the row can be moved.
fn moved_bound(row: &Row, updates: &Many<Form>) -> Option<i128>
    requires { Fits row.now }
    ensures { MatchOption result (¬ CanMove updates.now row.now)
        (λ z. (z ≡ row.now.bound +ℤ dot row.now.coefficients (map (λ f. f.constant) updates.now)) × CanMove updates.now row.now) }
{
    let width = updates.len();
    if is_narrow(row, width) {
        return near_bound(row, updates);
    }
    None
}

/// The row moved by the constants of the updates: `a*x <= b` becomes `a*x <= b + a*c`, over one column for each update. None comes exactly
/// where the row has a coefficient at a further column, or its bound leaves the limit of a kept row, whatever the size of the constants. The
/// only error is want of memory.
pub fn moved_row(alloc: Global, row: &Row, updates: &Many<Form>) -> Result<Option<Row>, Memory>
    requires { Fits row.now }
    ensures missing { IfOk result (λ o. IfNone o (¬ CanMove updates.now row.now)) }
    ensures can { IfOk result (λ o. IfSome o (λ r. CanMove updates.now row.now)) }
    ensures moved { IfOk result (λ o. IfSome o (IsMoved updates.now row.now)) }
    ensures fits { IfOk result (λ o. IfSome o Fits) }
{
    let width = updates.len();
    match moved_bound(row, updates) {
        Some(bound) => {
            let narrowed = cut(alloc, row, width)?;
            let Row { coefficients, .. } = narrowed;
            Ok(Some(Row {
                coefficients,
                bound,
            }))
        }
        None => Ok(None),
    }
}

/// Adds the row, moved, where it can be.
fn add_moved(
    alloc: Global,
    row: &Row,
    updates: &Many<Form>,
    rows: &mut Many<Row>,
) -> Result<(), Memory>
    requires { Fits row.now }
    ensures { OnOk result (IsMovedAdded updates.now row.now rows.old rows.new) }
{
    match moved_row(alloc, row, updates)? {
        Some(row) => {
            rows.push(row)?;
            Ok(())
        }
        None => Ok(()),
    }
}

/// The rows moved by the constants of the updates, each as `moved_row` does, and left out where that has none. Where the updates are moves, so
/// each its own column plus a constant, the answer contains the updated point of each point of the rows, and where besides no row has a
/// coefficient at a further column and all moved bounds are within the limit, it has no other points over so many columns. The constants may
/// be of any size. The only error is want of memory.
pub fn moved(alloc: Global, rows: &Many<Row>, updates: &Many<Form>) -> Result<Many<Row>, Memory>
    requires { All Fits rows.now }
    ensures rows { IfOk result (AreMoved updates.now rows.now (length rows.now)) }
    ensures contains { IfOk result (λ new. AreMoves updates.now → (point : List ℤ) → IsImage rows.now updates.now point → HasPoint new point) }
    ensures exact { IfOk result (λ new. AreMoves updates.now → All (IsNarrow (length updates.now)) rows.now → All (StaysWithin updates.now) rows.now
        → (point : List ℤ) → length point ≡ length updates.now → HasPoint new point → IsImage rows.now updates.now point) }
{
    let mut new = Many::new(alloc);
    for row in rows.as_slice() {
        add_moved(alloc, row, updates, &mut new)?;
    }
    Ok(new)
}
