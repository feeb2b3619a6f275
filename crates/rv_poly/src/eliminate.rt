// The elimination of a column by Fourier and Motzkin.
ghost use Rattle.std.specs.Prelude.{◌≡◌, ◌↔◌, ℕ, ◌<◌, ◌≤◌, ◌+◌, ◌*◌, ◌^◌, ℤ, pos, ◌+ℤ◌, ◌*ℤ◌, List, [], ◌∷◌, length, All, IfOk, OnOk};
ghost use Rattle.std.specs.Int.RustNames.{unsigned_abs};
ghost use Rattle.rv_rows.specs.Rows.{coefficient};
ghost use Rattle.rv_rows.specs.Forms.{number};
ghost use Rattle.rv_rows.specs.Tight.{Fits};
ghost use Rattle.rv_poly.specs.Points.{HasPoint, HasRational};
ghost use Rattle.rv_poly.specs.Polys.{IsPoly, rows_width};
ghost use Rattle.rv_poly.specs.Projection.{IsCombined, IsProjected};
ghost use Rattle.rv_poly.specs.Elimination.{AreKept, IsFreeTaken, AreFreeTaken, IsPairTaken, ArePairsTaken};
ghost use Rattle.rv_poly.specs.Elimination.{IsRowPaired, AreRowsPaired, IsRowWithin, positives, negatives, zeros};

use crate::meet::copied;
use crate::poly::Poly;
use rv_base::{Many, Memory};
use rv_rows::{Row, number_at};
use std::alloc::Global;

/// How many rows a list may have.
const MOST_ROWS: usize = 1024;

/// The rows of a projection, as many as are kept, and how many are not.
#[derive(Debug, Drop, PartialEq, Eq)]
pub struct Eliminated {
    /// Rows that each point of the projection meets.
    pub rows: Many<Row>,
    /// How many rows of the projection are not among them.
    pub dropped: u64,
}

/// `by * first + with * second`.
fn two_products(by: i128, first: i128, with: i128, second: i128) -> i128
    requires first { unsigned_abs by * unsigned_abs first ≤ 2 ^ 90 }
    requires second { unsigned_abs with * unsigned_abs second ≤ 2 ^ 90 }
    ensures { result ≡ (by *ℤ first) +ℤ (with *ℤ second) }
{
    by * first + with * second
}

/// The numbers of two lists, the ones times `by` and the others times `with`, added column by column.
fn two_multiples(
    alloc: Global,
    by: i128,
    first: &Many<i128>,
    with: i128,
    second: &Many<i128>,
) -> Result<Many<i128>, Memory>
    requires by { unsigned_abs by ≤ 2 ^ 30 }
    requires first { All (λ c. unsigned_abs c ≤ 2 ^ 30) first.now }
    requires with { unsigned_abs with ≤ 2 ^ 30 }
    requires second { All (λ c. unsigned_abs c ≤ 2 ^ 30) second.now }
    requires widths { length second.now ≡ length first.now }
    ensures width { IfOk result (λ c. length c ≡ length first.now) }
    ensures sums { IfOk result (λ c. (j : ℕ) → number j c ≡ (by *ℤ number j first.now) +ℤ (with *ℤ number j second.now)) }
{
    let mut sums = Many::new(alloc);
    for column in 0..first.len() {
        let sum = two_products(by, *first.at(column), with, *second.at(column));
        sums.push(sum)?;
    }
    Ok(sums)
}

/// The sum of positive multiples of two rows, whose coefficients at the column have different signs, that is free of the column.
pub fn combine(alloc: Global, positive: &Row, negative: &Row, column: usize) -> Result<Row, Memory>
    requires positive { Fits positive.now }
    requires negative { Fits negative.now }
    requires widths { length negative.now.coefficients ≡ length positive.now.coefficients }
    ensures { IfOk result (IsCombined column positive.now negative.now) }
{
    let by = 0 - number_at(&negative.coefficients, column);
    let with = number_at(&positive.coefficients, column);
    let coefficients = two_multiples(
        alloc,
        by,
        &positive.coefficients,
        with,
        &negative.coefficients,
    )?;
    Ok(Row {
        coefficients,
        bound: two_products(by, positive.bound, with, negative.bound),
    })
}

/// Keeps the row where it is within the limits and there is room, and else counts it.
fn keep(step: &mut Eliminated, row: Row) -> Result<(), Memory>
    requires { step.old.dropped + 1 < 2 ^ 64 }
    ensures { OnOk result (AreKept (row ∷ []) step.old step.new) }
{
    if step.rows.len() >= MOST_ROWS {
        step.dropped += 1;
        return Ok(());
    }
    if !row.fits() {
        step.dropped += 1;
        return Ok(());
    }
    step.rows.push(row)?;
    Ok(())
}

/// Hands in a row that is free of the column.
fn add_free(alloc: Global, row: &Row, column: usize, step: &mut Eliminated) -> Result<(), Memory>
    requires { step.old.dropped + 1 < 2 ^ 64 }
    ensures { OnOk result (IsFreeTaken column row.now step.old step.new) }
{
    if number_at(&row.coefficients, column) != 0 {
        return Ok(());
    }
    let copy = copied(alloc, row)?;
    keep(step, copy)?;
    Ok(())
}

/// Hands in the rows that are free of the column.
fn add_free_rows(
    alloc: Global,
    rows: &Many<Row>,
    column: usize,
    step: &mut Eliminated,
) -> Result<(), Memory>
    requires few { length rows.now < 2 ^ 32 }
    requires fresh { step.old.dropped ≡ 0 }
    ensures { OnOk result (AreFreeTaken column rows.now (length rows.now) step.old step.new) }
{
    for row in rows.as_slice() {
        add_free(alloc, row, column, step)?;
    }
    Ok(())
}

/// Hands in the combination with a row whose coefficient at the column is negative.
fn add_pair(
    alloc: Global,
    positive: &Row,
    other: &Row,
    column: usize,
    step: &mut Eliminated,
) -> Result<(), Memory>
    requires positive { Fits positive.now }
    requires other { Fits other.now }
    requires widths { length other.now.coefficients ≡ length positive.now.coefficients }
    requires room { step.old.dropped + 1 < 2 ^ 64 }
    ensures { OnOk result (IsPairTaken column positive.now other.now step.old step.new) }
{
    if number_at(&other.coefficients, column) >= 0 {
        return Ok(());
    }
    let row = combine(alloc, positive, other, column)?;
    keep(step, row)?;
    Ok(())
}

/// Hands in the combinations of a row with each whose coefficient at the column is negative.
fn add_pairs(
    alloc: Global,
    positive: &Row,
    rows: &Many<Row>,
    column: usize,
    step: &mut Eliminated,
) -> Result<(), Memory>
    requires positive { Fits positive.now }
    requires rows { All Fits rows.now }
    requires widths { All (λ r. length r.coefficients ≡ length positive.now.coefficients) rows.now }
    requires room { step.old.dropped + length rows.now < 2 ^ 64 }
    ensures { OnOk result (ArePairsTaken column positive.now rows.now (length rows.now) step.old step.new) }
{
    for other in rows.as_slice() {
        add_pair(alloc, positive, other, column, step)?;
    }
    Ok(())
}

/// Does so where the row's own coefficient at the column is positive.
fn add_pairs_of(
    alloc: Global,
    row: &Row,
    rows: &Many<Row>,
    column: usize,
    step: &mut Eliminated,
) -> Result<(), Memory>
    requires row { Fits row.now }
    requires rows { All Fits rows.now }
    requires widths { All (λ r. length r.coefficients ≡ length row.now.coefficients) rows.now }
    requires room { step.old.dropped + length rows.now < 2 ^ 64 }
    ensures { OnOk result (IsRowPaired column row.now rows.now step.old step.new) }
{
    if number_at(&row.coefficients, column) <= 0 {
        return Ok(());
    }
    add_pairs(alloc, row, rows, column, step)?;
    Ok(())
}

/// Does so for each row.
fn add_all_pairs(
    alloc: Global,
    rows: &Many<Row>,
    column: usize,
    step: &mut Eliminated,
) -> Result<(), Memory>
    requires poly { IsPoly rows.now }
    requires room { step.old.dropped ≤ length rows.now }
    ensures { OnOk result (AreRowsPaired column rows.now (length rows.now) step.old step.new) }
{
    for row in rows.as_slice() {
        add_pairs_of(alloc, row, rows, column, step)?;
    }
    Ok(())
}

impl Poly {
    /// The rows without column `k`, by Fourier and Motzkin: those that are free of it, and the sum of positive multiples of each two rows whose
    /// coefficients there have different signs, so that it has none. The width stays. Each point meets the new rows, whatever its number at
    /// the column is. Where none was dropped they are exactly the rational projection. A row is dropped where it is not within the limits of a
    /// kept row, or beyond 1,024; so none is where there are no more of them, and the products of the greatest numbers are within the limits.
    /// The only error is want of memory.
    pub fn eliminate(&self, alloc: Global, k: u32) -> Result<Eliminated, Memory>
        requires { IsPoly self.now.rows }
        ensures poly { IfOk result (λ e. IsPoly e.rows) }
        ensures few { IfOk result (λ e. length e.rows ≤ 1024) }
        ensures width { IfOk result (λ e. All (λ r. length r.coefficients ≡ rows_width self.now.rows) e.rows) }
        ensures free { IfOk result (λ e. All (λ r. coefficient k r ≡ pos 0) e.rows) }
        ensures points { IfOk result (λ e. (point : List ℤ) → HasPoint self.now.rows point → HasPoint e.rows point) }
        ensures exact { IfOk result (λ e. e.dropped ≡ 0 → (d : ℕ) (xs : List ℤ) → k < length xs → HasRational e.rows d xs ↔ IsProjected self.now.rows k d xs) }
        ensures sizes { IfOk result (λ e. (m c : ℕ) → All (IsRowWithin m c) self.now.rows
            → positives k self.now.rows * negatives k self.now.rows + zeros k self.now.rows ≤ 1024 → 2 * m * m ≤ 2 ^ 30 → 2 * m * c ≤ 2 ^ 60
            → e.dropped ≡ 0) }
    {
        let column = k as usize;
        let mut step = Eliminated {
            rows: Many::new(alloc),
            dropped: 0,
        };
        add_free_rows(alloc, &self.rows, column, &mut step)?;
        add_all_pairs(alloc, &self.rows, column, &mut step)?;
        Ok(step)
    }
}
