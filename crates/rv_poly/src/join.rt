// The join of two polyhedra.
ghost use Rattle.std.specs.Prelude.{◌≡◌, ◌⊎◌, ℕ, ◌<◌, ◌≤◌, ◌+◌, ◌^◌, ℤ, List, ◌++◌, length, All, IfOk, slice_index_or};
ghost use Rattle.std.specs.Int.RustNames.{unsigned_abs};
ghost use Rattle.rv_rows.specs.declared.linear.Row.{Row as RowModel};
ghost use Rattle.rv_rows.specs.Multipliers.{ShowsAtOnce};
ghost use Rattle.rv_rows.specs.Tight.{Fits};
ghost use Rattle.rv_seek.specs.Least.{bounded};
ghost use Rattle.rv_poly.specs.Points.{HasPoint, Covers};
ghost use Rattle.rv_poly.specs.Polys.{IsPoly, HaveOneWidth, rows_width};
ghost use Rattle.rv_poly.specs.Closing.{HasSide, IsUnitSide, AreClosing, HasEither, BothShow};

use crate::bounds::{Bounding, Either};
use crate::close::add_sides;
use crate::poly::Poly;
use crate::units::add_units;
use rv_base::{Many, Memory};
use rv_rows::Row;
use rv_seek::Search;
use std::alloc::Global;

/// The width of the first row, 0 where there is none.
pub fn width_of(rows: &Many<Row>) -> usize
    ensures { result ≡ rows_width rows.now }
{
    match rows.get(0) {
        Some(row) => row.coefficients.len(),
        None => 0,
    }
}

fn width_of_both(first: &Many<Row>, second: &Many<Row>) -> usize
    ensures { result ≡ rows_width (first.now ++ second.now) }
{
    if first.is_empty() {
        return width_of(second);
    }
    width_of(first)
}

/// Rows that each point of the set meets: those with the left sides of the rows of two lists, and those with 1 or -1 at one or two columns.
fn joined_rows<B: Bounding>(
    alloc: Global,
    set: &B,
    first: &Many<Row>,
    second: &Many<Row>,
    width: usize,
) -> Result<Poly, Memory>
    requires ready { B.ready set.now }
    requires takes { (side : List ℤ) → length side ≡ width → B.takes set.now side }
    requires fits { All Fits first.now }
    requires other { All Fits second.now }
    requires widths { All (λ r. length r.coefficients ≡ width) first.now }
    requires other_widths { All (λ r. length r.coefficients ≡ width) second.now }
    ensures { IfOk result (λ p. AreClosing (B.has set.now) (B.shows set.now) width (first.now ++ second.now) p.rows) }
{
    let mut rows = Many::new(alloc);
    add_sides(alloc, set, first, width, &mut rows)?;
    add_sides(alloc, set, second, width, &mut rows)?;
    add_units(alloc, set, width, &mut rows)?;
    Ok(Poly { rows })
}

/// The join of two lists, the first of which is also given ready for searches.
fn join_with(
    alloc: Global,
    first: &Search,
    own: &Many<Row>,
    other: &Many<Row>,
) -> Result<Poly, Memory>
    requires same { first.now ≡ own.now }
    requires own { All Fits own.now }
    requires other { IsPoly other.now }
    requires widths { HaveOneWidth (own.now ++ other.now) }
    ensures { IfOk result (λ p. AreClosing (HasEither own.now other.now) (BothShow own.now other.now) (rows_width (own.now ++ other.now))
        (own.now ++ other.now) p.rows) }
{
    let second = Search::new(alloc, other)?;
    let set = Either {
        first,
        second: &second,
    };
    joined_rows(alloc, &set, own, other, width_of_both(own, other))
}

impl Poly {
    /// A polyhedron with all points of both. Its rows have the left sides of the rows of either, and those with 1 or -1 at one or two columns,
    /// each with the greater of the bounds that are found for the two, as long as there are at most 1,024 rows. Where the two have at most
    /// 1,024 rows together, its points meet each row of one that the other shows at once. The only error is want of memory.
    pub fn join(&self, alloc: Global, other: &Poly) -> Result<Poly, Memory>
        requires poly { IsPoly self.now.rows }
        requires other { IsPoly other.now.rows }
        requires widths { HaveOneWidth (self.now.rows ++ other.now.rows) }
        ensures poly { IfOk result (λ p. IsPoly p.rows) }
        ensures few { IfOk result (λ p. length p.rows ≤ 1024) }
        ensures width { IfOk result (λ p. All (λ r. length r.coefficients ≡ rows_width (self.now.rows ++ other.now.rows)) p.rows) }
        ensures contains { IfOk result (λ p. (point : List ℤ) → HasPoint self.now.rows point ⊎ HasPoint other.now.rows point → HasPoint p.rows point) }
        ensures first { IfOk result (λ p. length self.now.rows + length other.now.rows ≤ 1024 → (i : ℕ) (d : RowModel) → i < length self.now.rows
            → ShowsAtOnce other.now.rows (slice_index_or self.now.rows i d) → Covers p.rows (slice_index_or self.now.rows i d)) }
        ensures second { IfOk result (λ p. length self.now.rows + length other.now.rows ≤ 1024 → (i : ℕ) (d : RowModel) → i < length other.now.rows
            → ShowsAtOnce self.now.rows (slice_index_or other.now.rows i d) → Covers p.rows (slice_index_or other.now.rows i d)) }
        ensures sides { IfOk result (λ p. length self.now.rows + length other.now.rows ≤ 1024 → (i : ℕ) (d : RowModel) (x : ℤ)
            → i < length (self.now.rows ++ other.now.rows) → unsigned_abs x ≤ 2 ^ 60
            → ShowsAtOnce self.now.rows (bounded (slice_index_or (self.now.rows ++ other.now.rows) i d).coefficients x)
            → ShowsAtOnce other.now.rows (bounded (slice_index_or (self.now.rows ++ other.now.rows) i d).coefficients x)
            → HasSide p.rows (slice_index_or (self.now.rows ++ other.now.rows) i d).coefficients x) }
        ensures units { IfOk result (λ p. length p.rows < 1024 → (side : List ℤ) (x : ℤ)
            → IsUnitSide (rows_width (self.now.rows ++ other.now.rows)) side → unsigned_abs x ≤ 2 ^ 60 → ShowsAtOnce self.now.rows (bounded side x)
            → ShowsAtOnce other.now.rows (bounded side x) → HasSide p.rows side x) }
    {
        let first = Search::new(alloc, &self.rows)?;
        let found = join_with(alloc, &first, &self.rows, &other.rows)?;
        Ok(found)
    }
}
