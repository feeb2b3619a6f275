// The order and the join of polyhedra over the same columns.
ghost use Rattle.std.specs.Prelude.{◌≡◌, ◌⊎◌, ℕ, ◌+◌, ◌<◌, ◌≤◌, ℤ, List, ◌++◌, length, All, IsTrue, IfOk, slice_index_or};
ghost use Rattle.rv_rows.specs.declared.linear.Row.{Row};
ghost use Rattle.rv_rows.specs.Multipliers.{ShowsAtOnce};
ghost use Rattle.rv_poly.specs.Points.{HasPoint, Covers};
ghost use Rattle.rv_poly.specs.Polys.{IsPoly, HaveOneWidth};

use rv_base::{Many, Memory};
use rv_poly::{Poly, included};
use std::alloc::Global;

/// Whether each point of the first is one of the second, which is found wherever none, one or two rows show each row at once.
pub fn is_included(alloc: Global, a: &Poly, b: &Poly) -> Result<bool, Memory>
    requires a { IsPoly a.now.rows }
    requires b { IsPoly b.now.rows }
    ensures sound { IfOk result (λ yes. IsTrue yes → (point : List ℤ) → HasPoint a.now.rows point → HasPoint b.now.rows point) }
    ensures found { IfOk result (λ yes. All (ShowsAtOnce a.now.rows) b.now.rows → IsTrue yes) }
{
    match included(alloc, a, b)? {
        Some(_) => Ok(true),
        None => Ok(false),
    }
}

/// A polyhedron with all points of both, over as many columns. One without rows has every point, and so has then the join.
pub fn joined(alloc: Global, a: &Poly, b: &Poly) -> Result<Poly, Memory>
    requires a { IsPoly a.now.rows }
    requires b { IsPoly b.now.rows }
    requires widths { HaveOneWidth (a.now.rows ++ b.now.rows) }
    ensures poly { IfOk result (λ p. IsPoly p.rows) }
    ensures few { IfOk result (λ p. length p.rows ≤ 1024) }
    ensures width { (w : ℕ) → All (λ r. length r.coefficients ≡ w) a.now.rows → All (λ r. length r.coefficients ≡ w) b.now.rows
        → IfOk result (λ p. All (λ r. length r.coefficients ≡ w) p.rows) }
    ensures contains { IfOk result (λ p. (point : List ℤ) → HasPoint a.now.rows point ⊎ HasPoint b.now.rows point → HasPoint p.rows point) }
    ensures first { IfOk result (λ p. length a.now.rows + length b.now.rows ≤ 1024 → (i : ℕ) (d : Row) → i < length a.now.rows
        → ShowsAtOnce b.now.rows (slice_index_or a.now.rows i d) → Covers p.rows (slice_index_or a.now.rows i d)) }
    ensures second { IfOk result (λ p. length a.now.rows + length b.now.rows ≤ 1024 → (i : ℕ) (d : Row) → i < length b.now.rows
        → ShowsAtOnce a.now.rows (slice_index_or b.now.rows i d) → Covers p.rows (slice_index_or b.now.rows i d)) }
{
    if a.rows.is_empty() {
        return Ok(Poly {
            rows: Many::new(alloc),
        });
    }
    let found = a.join(alloc, b)?;
    Ok(found)
}
