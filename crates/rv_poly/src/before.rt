//! The points before updates.

ghost use Rattle.std.specs.Prelude.{◌≡◌, ℕ, ◌<◌, ◌≤◌, ◌^◌, ℤ, pos, ◌-ℤ◌, List, ◌++◌, length, All, MatchBool, IfOk, IfSome, IfNone, OnOk};
ghost use Rattle.std.specs.Int.RustNames.{unsigned_abs};
ghost use Rattle.rv_rows.specs.Rows.{coefficient};
ghost use Rattle.rv_rows.specs.Forms.{forms_width};
ghost use Rattle.rv_rows.specs.Tight.{Fits};
ghost use Rattle.rv_poly.specs.Points.{HasPoint};
ghost use Rattle.rv_poly.specs.Polys.{IsPoly};
ghost use Rattle.rv_poly.specs.Images.{AreUpdates, AreMoves, IsNarrow};
ghost use Rattle.rv_poly.specs.Carried.{IsCarriedAdded, AreCarried};
ghost use Rattle.rv_poly.specs.Befores.{IsBack, IsEarlier, StaysBefore, CanGoBack, IsLevel, IsWithoutColumns, IsBefore, IsBackMove};

use crate::image::{are_updates, cut};
use crate::meet::{both_rows, copied};
use crate::moving::{are_moves, is_narrow, near_bound};
use crate::poly::Poly;
use rv_base::{Many, Memory};
use rv_rows::{Form, Row, number_at};
use std::alloc::Global;

/// The last column that can be eliminated.
const LAST_COLUMN: usize = 4294967295;

/// The number with the other sign.
fn opposite(number: i128) -> i128
    requires { unsigned_abs number ≤ 2 ^ 60 }
    ensures { result ≡ pos 0 -ℤ number }
{
    0 - number
}

/// What a point before moves has to meet, so that the row holds after them: `a*x <= b` becomes `a*x <= b - a*c`. None comes exactly where that
/// bound leaves the limit of a kept row, whatever the size of the constants.
fn moved_back(alloc: Global, row: &Row, updates: &Many<Form>) -> Result<Option<Row>, Memory>
    requires fits { Fits row.now }
    requires width { length row.now.coefficients ≡ length updates.now }
    requires moves { AreMoves updates.now }
    ensures missing { IfOk result (λ o. IfNone o (¬ StaysBefore updates.now row.now)) }
    ensures earlier { IfOk result (λ o. IfSome o (IsEarlier updates.now row.now)) }
    ensures fits { IfOk result (λ o. IfSome o Fits) }
{
    let copy = copied(alloc, row)?;
    let Row {
        coefficients,
        bound,
    } = copy;
    let turned = Row {
        coefficients,
        bound: opposite(bound),
    };
    match near_bound(&turned, updates) {
        Some(sum) => {
            let Row { coefficients, .. } = turned;
            Ok(Some(Row {
                coefficients,
                bound: opposite(sum),
            }))
        }
        None => Ok(None),
    }
}

/// What a point before updates has to meet, so that the row holds after them: each column is replaced by its update. It is left out where it
/// is not within the limits of a kept row.
fn put_back(alloc: Global, row: &Row, updates: &Many<Form>) -> Result<Option<Row>, Memory>
    requires fits { Fits row.now }
    requires width { length row.now.coefficients ≡ length updates.now }
    requires updates { AreUpdates updates.now }
    ensures back { IfOk result (λ o. IfSome o (IsBack updates.now row.now)) }
    ensures fits { IfOk result (λ o. IfSome o Fits) }
{
    let mut before = row.substitute(alloc, updates)?;
    before.tighten();
    if before.fits() {
        return Ok(Some(before));
    }
    Ok(None)
}

/// What a point before updates has to meet, so that the row holds after them. It is never left out where the updates are moves and it is
/// within the limits of a kept row.
fn row_before(alloc: Global, row: &Row, updates: &Many<Form>) -> Result<Option<Row>, Memory>
    requires fits { Fits row.now }
    requires width { length row.now.coefficients ≡ length updates.now }
    requires updates { All (λ f. length f.coefficients ≡ forms_width updates.now) updates.now }
    ensures missing { IfOk result (λ o. IfNone o (¬ CanGoBack updates.now row.now)) }
    ensures earlier { IfOk result (λ o. IfSome o (IsEarlier updates.now row.now)) }
    ensures fits { IfOk result (λ o. IfSome o Fits) }
{
    if are_moves(updates) {
        let moved = moved_back(alloc, row, updates)?;
        return Ok(moved);
    }
    if are_updates(updates) {
        let put = put_back(alloc, row, updates)?;
        return Ok(put);
    }
    Ok(None)
}

/// Adds what a point before updates has to meet for the row, where that is not left out.
fn add_before(
    alloc: Global,
    row: &Row,
    updates: &Many<Form>,
    rows: &mut Many<Row>,
) -> Result<(), Memory>
    requires fits { Fits row.now }
    requires width { length row.now.coefficients ≡ length updates.now }
    requires updates { All (λ f. length f.coefficients ≡ forms_width updates.now) updates.now }
    ensures { OnOk result (IsCarriedAdded (CanGoBack updates.now) (IsEarlier updates.now) row.now rows.old rows.new) }
{
    match row_before(alloc, row, updates)? {
        Some(row) => {
            rows.push(row)?;
            Ok(())
        }
        None => Ok(()),
    }
}

/// What a point before updates has to meet, so that the rows hold after them.
fn rows_before(alloc: Global, rows: &Many<Row>, updates: &Many<Form>) -> Result<Many<Row>, Memory>
    requires fits { All Fits rows.now }
    requires width { All (λ r. length r.coefficients ≡ length updates.now) rows.now }
    requires updates { All (λ f. length f.coefficients ≡ forms_width updates.now) updates.now }
    ensures { IfOk result (AreCarried (CanGoBack updates.now) (IsEarlier updates.now) rows.now (length rows.now)) }
{
    let mut new = Many::new(alloc);
    for row in rows.as_slice() {
        add_before(alloc, row, updates, &mut new)?;
    }
    Ok(new)
}

/// Adds the row, cut or filled with zeros to so many columns, unless it has a coefficient at a further one.
fn add_level(alloc: Global, row: &Row, width: usize, rows: &mut Many<Row>) -> Result<(), Memory>
    requires { Fits row.now }
    ensures { OnOk result (IsCarriedAdded (IsNarrow width) (IsLevel width) row.now rows.old rows.new) }
{
    if !is_narrow(row, width) {
        return Ok(());
    }
    let level = cut(alloc, row, width)?;
    rows.push(level)?;
    Ok(())
}

/// The rows that have no coefficient beyond so many columns, each cut or filled with zeros to these.
fn level_rows(alloc: Global, rows: &Many<Row>, width: usize) -> Result<Many<Row>, Memory>
    requires { All Fits rows.now }
    ensures { IfOk result (AreCarried (IsNarrow width) (IsLevel width) rows.now (length rows.now)) }
{
    let mut new = Many::new(alloc);
    for row in rows.as_slice() {
        add_level(alloc, row, width, &mut new)?;
    }
    Ok(new)
}

/// How many columns the widest row has, and no less than so many.
fn widest(rows: &Many<Row>, least: usize) -> usize
    ensures { least ≤ result }
{
    let mut width = least;
    for row in rows.as_slice() {
        width = width.max(row.coefficients.len());
    }
    width
}

/// Whether no row has a coefficient at the column.
fn are_free(rows: &Many<Row>, column: usize) -> bool
    ensures { MatchBool result (All (λ r. coefficient column r ≡ pos 0) rows.now) (¬ (All (λ r. coefficient column r ≡ pos 0) rows.now)) }
{
    for row in rows.as_slice() {
        if number_at(&row.coefficients, column) != 0 {
            return false;
        }
    }
    true
}

/// The rows without a column, which stay as they are where none has a coefficient there.
fn drop_column(alloc: Global, poly: &mut Poly, column: usize) -> Result<(), Memory>
    requires poly { IsPoly poly.old.rows }
    requires few { length poly.old.rows ≤ 1024 }
    ensures { OnOk result (IsWithoutColumns column poly.old.rows poly.new.rows) }
{
    if are_free(&poly.rows, column) {
        return Ok(());
    }
    if column > LAST_COLUMN {
        return Ok(());
    }
    let step = poly.eliminate(alloc, column as u32)?;
    poly.rows = step.rows;
    Ok(())
}

/// The rows without the columns from one on, which stay as they are where none has a coefficient there.
fn drop_columns(alloc: Global, poly: &mut Poly, from: usize, to: usize) -> Result<(), Memory>
    requires poly { IsPoly poly.old.rows }
    requires few { length poly.old.rows ≤ 1024 }
    ensures { OnOk result (IsWithoutColumns from poly.old.rows poly.new.rows) }
{
    for column in from..to {
        drop_column(alloc, poly, column)?;
    }
    Ok(())
}

/// Rows over so many columns that a point meets where it meets the given ones together with numbers at the further columns, whatever they are:
/// these are eliminated. Where no row has a coefficient at a further column, they are the rows.
fn without_inputs(alloc: Global, rows: &Many<Row>, width: usize) -> Result<Many<Row>, Memory>
    requires fits { All Fits rows.now }
    requires few { length rows.now ≤ 1024 }
    ensures poly { IfOk result IsPoly }
    ensures few { IfOk result (λ new. length new ≤ 1024) }
    ensures width { IfOk result (λ new. All (λ r. length r.coefficients ≡ width) new) }
    ensures contains { IfOk result (λ new. (point inputs : List ℤ) → length point ≡ width → HasPoint rows.now (point ++ inputs) → HasPoint new point) }
    ensures exact { IfOk result (λ new. All (IsNarrow width) rows.now → (point : List ℤ) → HasPoint new point → HasPoint rows.now point) }
{
    let wide = widest(rows, width);
    let level = level_rows(alloc, rows, wide)?;
    let mut poly = Poly { rows: level };
    drop_columns(alloc, &mut poly, width, wide)?;
    let new = level_rows(alloc, &poly.rows, width)?;
    Ok(new)
}

impl Poly {
    /// Rows that the points before updates meet: those that, together with some whole inputs, meet the rows, and whose updated point is one of
    /// the polyhedron's. There is one update for each column; the rows and the updates may be wider, and the further columns are inputs, which
    /// are eliminated. Where each update is its own column plus a constant, the rows have no input, and the rows, and those of the polyhedron
    /// moved by the negatives of the constants, are within the limits of kept rows and at most 1,024, the answer has no other points, whatever
    /// the size of the constants. Of other updates beyond those of a source (128 updates, numbers of magnitude 2^41) the answer has the points
    /// of the rows alone. The only error is want of memory.
    pub fn before(
        &self,
        alloc: Global,
        rows: &Many<Row>,
        updates: &Many<Form>,
    ) -> Result<Poly, Memory>
        requires poly { IsPoly self.now.rows }
        requires width { All (λ r. length r.coefficients ≡ length updates.now) self.now.rows }
        requires updates { All (λ f. length f.coefficients ≡ forms_width updates.now) updates.now }
        ensures poly { IfOk result (λ p. IsPoly p.rows) }
        ensures few { IfOk result (λ p. length p.rows ≤ 1024) }
        ensures width { IfOk result (λ p. All (λ r. length r.coefficients ≡ length updates.now) p.rows) }
        ensures contains { IfOk result (λ p. (inputs : ℕ) (point : List ℤ) → IsBefore self.now.rows rows.now updates.now inputs point
            → HasPoint p.rows point) }
        ensures exact { IfOk result (λ p. IsBackMove self.now.rows rows.now updates.now → (inputs : ℕ) (point : List ℤ)
            → length point ≡ length updates.now → HasPoint p.rows point → IsBefore self.now.rows rows.now updates.now inputs point) }
    {
        let earlier = rows_before(alloc, &self.rows, updates)?;
        let both = both_rows(alloc, &earlier, rows)?;
        let width = updates.len();
        let rows = without_inputs(alloc, &both, width)?;
        Ok(Poly { rows })
    }
}
