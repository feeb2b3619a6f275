//! Polyhedra whose rows have few coefficients: boxes, whose rows bound single columns as those of the box pass do, and rows over two
//! columns, as those of row claims.

ghost use Rattle.std.specs.Prelude.{◌≡◌, ◌≢◌, ℕ, ◌<◌, ◌≤◌, ℤ, pos, List, length, All, IfOk, OnOk, MatchBool, slice_index_or};
ghost use Rattle.std.specs.List.{Contains};
ghost use Rattle.rv_rows.specs.declared.linear.Row.{Row};
ghost use Rattle.rv_poly.specs.Points.{HasPoint};
ghost use Rattle.rv_poly.specs.Polys.{IsPoly};
ghost use Rattle.rv_state.specs.Narrow.{present, support, IsNotedRow, IsNarrowed, SpansNarrow};

use crate::domain::Domain;
use crate::polys::{is_included, joined};
use rv_base::{Many, Memory};
use rv_poly::Poly;
use rv_rows::{Form, Row};
use std::alloc::Global;

/// Whether two numbers are different.
fn differ(a: i128, b: i128) -> bool
    ensures { MatchBool result (a ≢ b) (a ≡ b) }
{
    a != b
}

/// 1 where the number at a place is not 0, else 0.
fn present_at(numbers: &[i128], place: usize) -> usize
    requires { place < length numbers.now }
    ensures { result ≡ present (slice_index_or numbers.now place (pos 0)) }
{
    if differ(numbers[place], 0) { 1 } else { 0 }
}

/// How many of the numbers are not 0.
fn support_of(numbers: &[i128]) -> usize
    ensures { result ≡ support numbers.now }
{
    let mut count = 0;
    for place in 0..numbers.len() {
        count += present_at(numbers, place);
    }
    count
}

/// The same row.
fn copy_row(alloc: Global, row: &Row) -> Result<Row, Memory>
    ensures { IfOk result (λ r. r ≡ row.now) }
{
    let numbers = Vec::from_slice(alloc, row.coefficients.as_slice())?;
    Ok(Row {
        coefficients: Many::from_vec(numbers),
        bound: row.bound,
    })
}

/// Adds a row, unless it has more coefficients that are not 0.
fn note(alloc: Global, rows: &mut Many<Row>, row: &Row, most: usize) -> Result<(), Memory>
    ensures { OnOk result (IsNotedRow most row.now rows.old rows.new) }
{
    if support_of(row.coefficients.as_slice()) > most {
        return Ok(());
    }
    let copy = copy_row(alloc, row)?;
    rows.push(copy)?;
    Ok(())
}

/// The rows with at most so many coefficients that are not 0. The others are left out, so no point is lost.
fn narrowed(alloc: Global, poly: &Poly, most: usize) -> Result<Poly, Memory>
    ensures { IfOk result (λ p. IsNarrowed most poly.now.rows p.rows) }
{
    let mut rows = Many::new(alloc);
    for place in 0..poly.rows.len() {
        note(alloc, &mut rows, poly.rows.at(place), most)?;
    }
    Ok(Poly { rows })
}

/// A box: a polyhedron each of whose rows bounds a single column.
#[derive(Debug, Drop)]
pub struct Bounds {
    poly: Poly,
}

impl Bounds {
    /// The box of a polyhedron: exactly those of its rows that bound a single column. It has each of its points. The only error is want of
    /// memory.
    pub fn of(alloc: Global, poly: &Poly) -> Result<Bounds, Memory>
        requires { IsPoly poly.now.rows }
        ensures spans { (width : ℕ) → All (λ r. length r.coefficients ≡ width) poly.now.rows → IfOk result (λ b. SpansNarrow 1 b.poly.rows width) }
        ensures contains { IfOk result (λ b. (point : List ℤ) → HasPoint poly.now.rows point → HasPoint b.poly.rows point) }
        ensures kept { IfOk result (λ b. (r : Row) → Contains poly.now.rows r → support r.coefficients ≤ 1 → Contains b.poly.rows r) }
        ensures only { IfOk result (λ b. (r : Row) → Contains b.poly.rows r → Contains poly.now.rows r) }
    {
        let poly = narrowed(alloc, poly, 1)?;
        Ok(Bounds { poly })
    }
}

impl Domain for Bounds {
    ghost has = { λ b point. HasPoint b.poly.rows point };

    ghost spans = { λ b width. SpansNarrow 1 b.poly.rows width };

    fn included(&self, alloc: Global, other: &Bounds) -> Result<bool, Memory> {
        let yes = is_included(alloc, &self.poly, &other.poly)?;
        Ok(yes)
    }

    fn join(&self, alloc: Global, other: &Bounds) -> Result<Bounds, Memory> {
        let found = joined(alloc, &self.poly, &other.poly)?;
        let poly = narrowed(alloc, &found, 1)?;
        Ok(Bounds { poly })
    }

    fn meet(&self, alloc: Global, rows: &Many<Row>) -> Result<Bounds, Memory> {
        let found = self.poly.meet(alloc, rows)?;
        let poly = narrowed(alloc, &found, 1)?;
        Ok(Bounds { poly })
    }

    fn after(
        &self,
        alloc: Global,
        rows: &Many<Row>,
        updates: &Many<Form>,
    ) -> Result<Bounds, Memory> {
        let found = self.poly.after(alloc, rows, updates)?;
        let poly = narrowed(alloc, &found, 1)?;
        Ok(Bounds { poly })
    }
}

/// Rows over two columns: a polyhedron none of whose rows has more than two coefficients.
#[derive(Debug, Drop)]
pub struct Pairs {
    poly: Poly,
}

impl Pairs {
    /// Exactly those rows of a polyhedron that have at most two coefficients. They have each of its points. The only error is want of memory.
    pub fn of(alloc: Global, poly: &Poly) -> Result<Pairs, Memory>
        requires { IsPoly poly.now.rows }
        ensures spans { (width : ℕ) → All (λ r. length r.coefficients ≡ width) poly.now.rows → IfOk result (λ b. SpansNarrow 2 b.poly.rows width) }
        ensures contains { IfOk result (λ b. (point : List ℤ) → HasPoint poly.now.rows point → HasPoint b.poly.rows point) }
        ensures kept { IfOk result (λ b. (r : Row) → Contains poly.now.rows r → support r.coefficients ≤ 2 → Contains b.poly.rows r) }
        ensures only { IfOk result (λ b. (r : Row) → Contains b.poly.rows r → Contains poly.now.rows r) }
    {
        let poly = narrowed(alloc, poly, 2)?;
        Ok(Pairs { poly })
    }
}

impl Domain for Pairs {
    ghost has = { λ b point. HasPoint b.poly.rows point };

    ghost spans = { λ b width. SpansNarrow 2 b.poly.rows width };

    fn included(&self, alloc: Global, other: &Pairs) -> Result<bool, Memory> {
        let yes = is_included(alloc, &self.poly, &other.poly)?;
        Ok(yes)
    }

    fn join(&self, alloc: Global, other: &Pairs) -> Result<Pairs, Memory> {
        let found = joined(alloc, &self.poly, &other.poly)?;
        let poly = narrowed(alloc, &found, 2)?;
        Ok(Pairs { poly })
    }

    fn meet(&self, alloc: Global, rows: &Many<Row>) -> Result<Pairs, Memory> {
        let found = self.poly.meet(alloc, rows)?;
        let poly = narrowed(alloc, &found, 2)?;
        Ok(Pairs { poly })
    }

    fn after(
        &self,
        alloc: Global,
        rows: &Many<Row>,
        updates: &Many<Form>,
    ) -> Result<Pairs, Memory> {
        let found = self.poly.after(alloc, rows, updates)?;
        let poly = narrowed(alloc, &found, 2)?;
        Ok(Pairs { poly })
    }
}
