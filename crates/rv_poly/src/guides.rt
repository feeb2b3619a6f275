// Sums of rows, by which the numbers of a point can be chosen one column after the other: a row whose last coefficient is at a column
// bounds the number there by those at the earlier columns, and the sums of such rows with different signs, which have no coefficient
// there, say what the earlier numbers have to meet for it (Fourier and Motzkin). An equality is substituted in the others. What is chosen
// so is tested against the rows themselves, so these functions promise nothing but widths and limits.
ghost use Rattle.std.specs.Prelude.{◌≡◌, ◌<◌, ◌≤◌, length, All, IfOk, IfSome, OnOk};
ghost use Rattle.rv_poly.specs.Guides.{IsGuide, IsGuided};

use crate::eliminate::combine;
use crate::meet::copied;
use crate::sides::is_last;
use rv_base::{Many, Memory};
use rv_rows::{Row, number_at};
use std::alloc::Global;

/// With how many rows a guide takes no more.
const MOST_ROWS: usize = 2048;

/// How many sums are made for one guide.
const MOST_SUMS: u64 = 16384;

/// The greatest coefficient of a kept row.
const MOST_COEFFICIENT: i128 = 1 << 30;

/// Rows, and how many sums of them may still be made.
#[derive(Drop)]
pub struct Guide {
    /// The rows.
    pub rows: Many<Row>,
    /// How many sums may be made.
    pub tries: u64,
}

/// The places of two rows.
#[derive(Clone, Copy)]
struct Pair {
    first: usize,
    second: usize,
}

/// The row's last coefficient that is not 0, where it is at the column, and else 0.
fn leading(row: &Row, column: usize) -> i128 {
    if column >= row.coefficients.len() {
        return 0;
    }
    if is_last(&row.coefficients, column) {
        return number_at(&row.coefficients, column);
    }
    0
}

/// Whether all numbers are 0.
fn is_zero(numbers: &Many<i128>) -> bool {
    for number in numbers.as_slice() {
        if *number != 0 {
            return false;
        }
    }
    true
}

/// Whether the row follows at once from one of the rows.
fn is_known(rows: &Many<Row>, row: &Row) -> bool {
    for known in rows.as_slice() {
        if known.bound <= row.bound && known.coefficients == row.coefficients {
            return true;
        }
    }
    false
}

/// Adds the row, tightened, where there is room, it is within the limits, and it does not follow at once.
fn add_tightened(guide: &mut Guide, row: Row, width: usize) -> Result<(), Memory>
    requires { length row.coefficients ≡ width }
    ensures { OnOk result (IsGuided width guide.old.rows guide.new.rows) }
{
    if guide.rows.len() >= MOST_ROWS {
        return Ok(());
    }
    let mut tight = row;
    tight.tighten();
    if !tight.fits() {
        return Ok(());
    }
    if is_zero(&tight.coefficients) {
        return Ok(());
    }
    if is_known(&guide.rows, &tight) {
        return Ok(());
    }
    guide.rows.push(tight)?;
    Ok(())
}

/// Adds the sum of multiples of two rows that has no coefficient at the column.
fn add_sum(
    alloc: Global,
    guide: &mut Guide,
    first: usize,
    second: usize,
    column: usize,
    width: usize,
) -> Result<(), Memory>
    requires guide { IsGuide width guide.old.rows }
    requires first { first < length guide.old.rows }
    requires second { second < length guide.old.rows }
    ensures { OnOk result (IsGuided width guide.old.rows guide.new.rows) }
{
    if guide.tries == 0 {
        return Ok(());
    }
    guide.tries -= 1;
    let one = guide.rows.at(first);
    let other = guide.rows.at(second);
    let sum = combine(alloc, one, other, column)?;
    add_tightened(guide, sum, width)?;
    Ok(())
}

/// Does so where the last coefficient of the second is negative and at the column.
fn add_with_negative(
    alloc: Global,
    guide: &mut Guide,
    first: usize,
    second: usize,
    column: usize,
    width: usize,
) -> Result<(), Memory>
    requires guide { IsGuide width guide.old.rows }
    requires first { first < length guide.old.rows }
    requires second { second < length guide.old.rows }
    ensures { OnOk result (IsGuided width guide.old.rows guide.new.rows) }
{
    if leading(guide.rows.at(second), column) >= 0 {
        return Ok(());
    }
    add_sum(alloc, guide, first, second, column, width)?;
    Ok(())
}

/// Does so with each of the first rows.
fn add_with_negatives(
    alloc: Global,
    guide: &mut Guide,
    first: usize,
    count: usize,
    column: usize,
    width: usize,
) -> Result<(), Memory>
    requires guide { IsGuide width guide.old.rows }
    requires first { first < length guide.old.rows }
    requires count { count ≤ length guide.old.rows }
    ensures { OnOk result (IsGuided width guide.old.rows guide.new.rows) }
{
    for second in 0..count {
        add_with_negative(alloc, guide, first, second, column, width)?;
    }
    Ok(())
}

/// Does so where the row's own last coefficient is positive and at the column.
fn add_row_sums(
    alloc: Global,
    guide: &mut Guide,
    first: usize,
    count: usize,
    column: usize,
    width: usize,
) -> Result<(), Memory>
    requires guide { IsGuide width guide.old.rows }
    requires first { first < length guide.old.rows }
    requires count { count ≤ length guide.old.rows }
    ensures { OnOk result (IsGuided width guide.old.rows guide.new.rows) }
{
    if leading(guide.rows.at(first), column) <= 0 {
        return Ok(());
    }
    add_with_negatives(alloc, guide, first, count, column, width)?;
    Ok(())
}

/// Does so for each of the first rows.
fn add_all_sums(
    alloc: Global,
    guide: &mut Guide,
    count: usize,
    column: usize,
    width: usize,
) -> Result<(), Memory>
    requires guide { IsGuide width guide.old.rows }
    requires count { count ≤ length guide.old.rows }
    ensures { OnOk result (IsGuided width guide.old.rows guide.new.rows) }
{
    for first in 0..count {
        add_row_sums(alloc, guide, first, count, column, width)?;
    }
    Ok(())
}

/// Adds the row's sum with one of the two rows of an equality, where its last coefficient is at the column.
fn add_replaced(
    alloc: Global,
    guide: &mut Guide,
    equal: Pair,
    row: usize,
    column: usize,
    width: usize,
) -> Result<(), Memory>
    requires guide { IsGuide width guide.old.rows }
    requires first { equal.first < length guide.old.rows }
    requires second { equal.second < length guide.old.rows }
    requires row { row < length guide.old.rows }
    ensures { OnOk result (IsGuided width guide.old.rows guide.new.rows) }
{
    let by = leading(guide.rows.at(row), column);
    if by > 0 {
        add_sum(alloc, guide, row, equal.second, column, width)?;
        return Ok(());
    }
    if by < 0 {
        add_sum(alloc, guide, equal.first, row, column, width)?;
        return Ok(());
    }
    Ok(())
}

/// Does so for each of the first rows.
fn add_all_replaced(
    alloc: Global,
    guide: &mut Guide,
    equal: Pair,
    count: usize,
    column: usize,
    width: usize,
) -> Result<(), Memory>
    requires guide { IsGuide width guide.old.rows }
    requires first { equal.first < length guide.old.rows }
    requires second { equal.second < length guide.old.rows }
    requires count { count ≤ length guide.old.rows }
    ensures { OnOk result (IsGuided width guide.old.rows guide.new.rows) }
{
    for row in 0..count {
        add_replaced(alloc, guide, equal, row, column, width)?;
    }
    Ok(())
}

/// Whether the numbers sum to 0.
fn cancel(first: i128, second: i128) -> bool {
    match first.checked_add(second) {
        Some(sum) => sum == 0,
        None => false,
    }
}

/// Whether the rows are an equality: each number of one is the opposite of the other's.
fn are_opposite(first: &Row, second: &Row) -> bool {
    if !cancel(first.bound, second.bound) {
        return false;
    }
    for column in 0..first.coefficients.len() {
        let number = *first.coefficients.at(column);
        if !cancel(number, number_at(&second.coefficients, column)) {
            return false;
        }
    }
    true
}

/// The place of a row that is the opposite of the given one.
fn opposite_of(rows: &Many<Row>, first: usize) -> Option<usize>
    requires { first < length rows.now }
    ensures { IfSome result (λ second. second < length rows.now) }
{
    for second in 0..rows.len() {
        if are_opposite(rows.at(first), rows.at(second)) {
            return Some(second);
        }
    }
    None
}

/// The same where the row's last coefficient is at the column, positive, and at most the given one.
fn equality_at(rows: &Many<Row>, first: usize, column: usize, most: i128) -> Option<usize>
    requires { first < length rows.now }
    ensures { IfSome result (λ second. second < length rows.now) }
{
    let by = leading(rows.at(first), column);
    if by <= 0 {
        return None;
    }
    if by > most {
        return None;
    }
    opposite_of(rows, first)
}

/// The first equality of the kind.
fn equality(rows: &Many<Row>, column: usize, most: i128) -> Option<Pair>
    ensures first { IfSome result (λ p. p.first < length rows.now) }
    ensures second { IfSome result (λ p. p.second < length rows.now) }
{
    for first in 0..rows.len() {
        match equality_at(rows, first, column, most) {
            Some(second) => return Some(Pair { first, second }),
            None => {}
        }
    }
    None
}

/// The equality to substitute by: one whose last coefficient is 1, or else the first.
fn best_equality(rows: &Many<Row>, column: usize) -> Option<Pair>
    ensures first { IfSome result (λ p. p.first < length rows.now) }
    ensures second { IfSome result (λ p. p.second < length rows.now) }
{
    match equality(rows, column, 1) {
        Some(pair) => Some(pair),
        None => equality(rows, column, MOST_COEFFICIENT),
    }
}

/// Adds sums of the rows whose last coefficient is at the column.
fn add_column(alloc: Global, guide: &mut Guide, column: usize, width: usize) -> Result<(), Memory>
    requires { IsGuide width guide.old.rows }
    ensures { OnOk result (IsGuided width guide.old.rows guide.new.rows) }
{
    let count = guide.rows.len();
    match best_equality(&guide.rows, column) {
        Some(equal) => {
            add_all_replaced(alloc, guide, equal, count, column, width)?;
            Ok(())
        }
        None => {
            add_all_sums(alloc, guide, count, column, width)?;
            Ok(())
        }
    }
}

/// Does so for each column, the last first.
fn add_columns(alloc: Global, guide: &mut Guide, width: usize) -> Result<(), Memory>
    requires { IsGuide width guide.old.rows }
    ensures { OnOk result (IsGuided width guide.old.rows guide.new.rows) }
{
    for past in 0..width {
        add_column(alloc, guide, width - 1 - past, width)?;
    }
    Ok(())
}

/// Adds the rows of a list, tightened.
fn add_given(alloc: Global, guide: &mut Guide, rows: &Many<Row>, width: usize) -> Result<(), Memory>
    requires { All (λ r. length r.coefficients ≡ width) rows.now }
    ensures { OnOk result (IsGuided width guide.old.rows guide.new.rows) }
{
    for row in rows.as_slice() {
        let copy = copied(alloc, row)?;
        add_tightened(guide, copy, width)?;
    }
    Ok(())
}

/// The rows and sums of them.
pub fn guide_of(alloc: Global, rows: &Many<Row>, width: usize) -> Result<Guide, Memory>
    requires { All (λ r. length r.coefficients ≡ width) rows.now }
    ensures { IfOk result (λ g. IsGuide width g.rows) }
{
    let mut guide = Guide {
        rows: Many::new(alloc),
        tries: MOST_SUMS,
    };
    add_given(alloc, &mut guide, rows, width)?;
    add_columns(alloc, &mut guide, width)?;
    Ok(guide)
}
