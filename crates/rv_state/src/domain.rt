//! What an abstract domain is.

ghost use Rattle.std.specs.Prelude.{◌≡◌, ◌⊎◌, ℕ, ℤ, List, length, All, IsTrue, IfOk};
ghost use Rattle.rv_rows.specs.Forms.{forms_width, values};
ghost use Rattle.rv_poly.specs.Points.{HasPoint};
ghost use Rattle.rv_poly.specs.Polys.{IsPoly};

use crate::polys::{is_included, joined};
use rv_base::{Many, Memory};
use rv_poly::Poly;
use rv_rows::{Form, Row};
use std::alloc::Global;

/// An abstract domain (Cousot and Cousot 1977): values that stand for sets of whole points, with an order, a join, the meet with rows and the
/// image under updates. Each answer contains the points that it must, so a fixed point of them contains all that can be reached.
pub trait Domain: Drop {
    /// The points of a value.
    ghost has: { Self → List ℤ → Type 0 };
    /// It is a value over so many columns.
    ghost spans: { Self → ℕ → Type 0 };

    /// Whether each point is one of the other; false promises nothing. Both span the same columns. The only error is want of memory.
    fn included(&self, alloc: Global, other: &Self) -> Result<bool, Memory>
        requires { (width : ℕ) × spans self.now width × spans other.now width }
        ensures { IfOk result (λ yes. IsTrue yes → (point : List ℤ) → has self.now point → has other.now point) };

    /// A value with all points of both, which span the same columns. The only error is want of memory.
    fn join(&self, alloc: Global, other: &Self) -> Result<Self, Memory>
        requires { (width : ℕ) × spans self.now width × spans other.now width }
        ensures spans { (width : ℕ) → spans self.now width → spans other.now width → IfOk result (λ d. spans d width) }
        ensures contains { IfOk result (λ d. (point : List ℤ) → has self.now point ⊎ has other.now point → has d point) };

    /// A value with the points that meet the rows, too, which have a coefficient for each column. The only error is want of memory.
    fn meet(&self, alloc: Global, rows: &Many<Row>) -> Result<Self, Memory>
        requires { (width : ℕ) × spans self.now width × All (λ r. length r.coefficients ≡ width) rows.now }
        ensures spans { (width : ℕ) → spans self.now width → All (λ r. length r.coefficients ≡ width) rows.now → IfOk result (λ d. spans d width) }
        ensures contains { IfOk result (λ d. (point : List ℤ) → has self.now point → HasPoint rows.now point → has d point) };

    /// A value with the updated points: those that the updates, one for each column, give at each point that meets the rows, too. The rows
    /// and the updates may be wider, and the further columns are inputs. The only error is want of memory.
    fn after(&self, alloc: Global, rows: &Many<Row>, updates: &Many<Form>) -> Result<Self, Memory>
        requires own { spans self.now (length updates.now) }
        requires updates { All (λ f. length f.coefficients ≡ forms_width updates.now) updates.now }
        ensures spans { IfOk result (λ d. spans d (length updates.now)) }
        ensures contains { IfOk result (λ d. (point : List ℤ) → has self.now point → HasPoint rows.now point → has d (values updates.now point)) };
}

impl Domain for Poly {
    ghost has = { λ p point. HasPoint p.rows point };

    ghost spans = { λ p width. IsPoly p.rows × All (λ r. length r.coefficients ≡ width) p.rows };

    fn included(&self, alloc: Global, other: &Poly) -> Result<bool, Memory> {
        let yes = is_included(alloc, self, other)?;
        Ok(yes)
    }

    fn join(&self, alloc: Global, other: &Poly) -> Result<Poly, Memory> {
        let found = joined(alloc, self, other)?;
        Ok(found)
    }

    fn meet(&self, alloc: Global, rows: &Many<Row>) -> Result<Poly, Memory> {
        let found = self.meet(alloc, rows)?;
        Ok(found)
    }

    fn after(&self, alloc: Global, rows: &Many<Row>, updates: &Many<Form>) -> Result<Poly, Memory> {
        let found = self.after(alloc, rows, updates)?;
        Ok(found)
    }
}
