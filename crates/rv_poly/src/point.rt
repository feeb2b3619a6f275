// Whole points of polyhedra whose numbers a trace may have.
ghost use Rattle.std.specs.Prelude.{◌≡◌, ℤ, List, length, All, IfOk, IfSome, None};
ghost use Rattle.rv_rows.specs.Tight.{Fits};
ghost use Rattle.rv_poly.specs.Points.{HasPoint};
ghost use Rattle.rv_poly.specs.Polys.{IsPoly, rows_width};
ghost use Rattle.rv_poly.specs.Whole.{IsInReplay, IsSingle, IsCandidate};
ghost use Rattle.rv_poly.specs.Guides.{IsGuide, IsWholePoint};

use crate::guides::guide_of;
use crate::join::width_of;
use crate::poly::Poly;
use crate::sides::meets_all;
use crate::spans::{nearest, span_of};
use crate::trails::fill;
use rv_base::{Many, Memory};
use rv_rows::Row;
use std::alloc::Global;

/// Where the second search for a point begins: below 0, so that it meets each rest of a small divisor on its way up.
const BELOW: i128 = -64;

/// One number for each column, one after the other: each is the nearest to the wanted one that the rows allow, so far as they have no
/// coefficient at a later column.
fn candidate(
    alloc: Global,
    rows: &Many<Row>,
    width: usize,
    wanted: i128,
) -> Result<Many<i128>, Memory>
    requires fits { All Fits rows.now }
    requires widths { All (λ r. length r.coefficients ≡ width) rows.now }
    requires wanted { IsInReplay wanted }
    ensures { IfOk result (IsCandidate rows.now width) }
{
    let mut point = Many::new(alloc);
    for column in 0..width {
        let span = span_of(rows, column, &point);
        let number = nearest(span, wanted);
        point.push(number)?;
    }
    Ok(point)
}

/// A point whose numbers are chosen by the guide, near the wanted one, where one is found that meets the rows.
fn tried(
    alloc: Global,
    guide: &Many<Row>,
    rows: &Many<Row>,
    width: usize,
    wanted: i128,
) -> Result<Option<Many<i128>>, Memory>
    requires guide { IsGuide width guide.now }
    requires rows { All Fits rows.now }
    requires wanted { IsInReplay wanted }
    ensures { IfOk result (λ o. IfSome o (λ p. IsWholePoint rows.now width p)) }
{
    let mut point = Many::new(alloc);
    fill(guide, width, wanted, &mut point)?;
    if point.len() != width {
        return Ok(None);
    }
    if meets_all(rows, &point) {
        return Ok(Some(point));
    }
    Ok(None)
}

/// A point whose numbers are chosen by sums of the rows.
fn guided(alloc: Global, rows: &Many<Row>, width: usize) -> Result<Option<Many<i128>>, Memory>
    requires rows { All Fits rows.now }
    requires widths { All (λ r. length r.coefficients ≡ width) rows.now }
    ensures { IfOk result (λ o. IfSome o (λ p. IsWholePoint rows.now width p)) }
{
    let guide = guide_of(alloc, rows, width)?;
    match tried(alloc, &guide.rows, rows, width, 0)? {
        Some(point) => Ok(Some(point)),
        None => {
            let found = tried(alloc, &guide.rows, rows, width, BELOW)?;
            Ok(found)
        }
    }
}

impl Poly {
    /// A whole point of the polyhedron, with a number for each column of its rows that a trace may have: from -2^63 to 2^63 - 1. Where each
    /// row has at most one coefficient other than 0, None is answered exactly where there is no such point; elsewhere it promises nothing.
    /// The only error is want of memory.
    pub fn whole_point(&self, alloc: Global) -> Result<Option<Many<i128>>, Memory>
        requires { IsPoly self.now.rows }
        ensures point { IfOk result (λ o. IfSome o (λ p. HasPoint self.now.rows p)) }
        ensures replay { IfOk result (λ o. IfSome o (λ p. All IsInReplay p)) }
        ensures width { IfOk result (λ o. IfSome o (λ p. length p ≡ rows_width self.now.rows)) }
        ensures none { IfOk result (λ o. All (λ r. IsSingle r.coefficients) self.now.rows → o ≡ None → (point : List ℤ) → All IsInReplay point
            → ¬ (HasPoint self.now.rows point)) }
    {
        let width = width_of(&self.rows);
        let point = candidate(alloc, &self.rows, width, 0)?;
        if meets_all(&self.rows, &point) {
            return Ok(Some(point));
        }
        let found = guided(alloc, &self.rows, width)?;
        Ok(found)
    }
}
