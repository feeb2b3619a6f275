// The image of a polyhedron under updates.
ghost use Rattle.std.specs.Prelude.{◌≡◌, ◌<◌, ◌≤◌, ◌+◌, ◌^◌, ℤ, pos, ◌-ℤ◌};
ghost use Rattle.std.specs.Prelude.{◌≤ℤ◌, List, ◌++◌, length, All, MatchBool, IfOk, IfSome, IsSomeAnd};
ghost use Rattle.std.specs.Int.RustNames.{unsigned_abs};
ghost use Rattle.rv_rows.specs.Rows.{Holds};
ghost use Rattle.rv_rows.specs.Forms.{FormWithin, forms_width, number, values};
ghost use Rattle.rv_rows.specs.Tight.{Fits};
ghost use Rattle.rv_seek.specs.Least.{bounded};
ghost use Rattle.rv_poly.specs.Points.{HasPoint};
ghost use Rattle.rv_poly.specs.Polys.{IsPoly};
ghost use Rattle.rv_poly.specs.Closing.{AreClosing};
ghost use Rattle.rv_poly.specs.Images.{IsImage, ShowsAfter, AreUpdates, AreMoves, IsNarrow, StaysWithin, IsCut, AreCut};

use crate::bounds::{Bounding, form_bound};
use crate::close::{add_sides, copy};
use crate::meet::both_rows;
use crate::moving::{are_moves, moved};
use crate::poly::Poly;
use crate::units::add_units;
use rv_base::{Many, Memory};
use rv_rows::{Form, Row, number_at};
use rv_seek::Search;
use std::alloc::Global;

/// The greatest magnitude of a number of an update.
const MOST_NUMBER: u128 = 1 << 41;

/// How many updates there may be.
const MOST_UPDATES: usize = 128;

/// The points that updates give at the whole points of rows, inputs included.
#[derive(Clone, Copy)]
pub struct Image<'a> {
    /// The rows, made ready for searches.
    pub rows: &'a Search<'a>,
    /// The form that gives each column of a new point.
    pub updates: &'a Many<Form>,
}

/// The row's left side minus its bound.
fn form_of(row: Row) -> Form
    requires { unsigned_abs row.bound ≤ 2 ^ 78 }
    ensures coefficients { result.coefficients ≡ row.coefficients }
    ensures constant { result.constant ≡ pos 0 -ℤ row.bound }
{
    let Row {
        coefficients,
        bound,
    } = row;
    Form {
        coefficients,
        constant: 0 - bound,
    }
}

/// A bound of the left side after the updates.
fn bound_after(
    alloc: Global,
    rows: &Search,
    updates: &Many<Form>,
    side: &Many<i128>,
) -> Result<Option<i128>, Memory>
    requires updates { AreUpdates updates.now }
    requires width { length side.now ≡ length updates.now }
    requires side { All (λ c. unsigned_abs c ≤ 2 ^ 30) side.now }
    ensures fits { IfOk result (λ o. IfSome o (λ k. unsigned_abs k ≤ 2 ^ 60)) }
    ensures sound { IfOk result (λ o. IfSome o (λ k. (point : List ℤ) → IsImage rows.now updates.now point → Holds (bounded side.now k) point)) }
    ensures shown { IfOk result (λ o. (x : ℤ) → unsigned_abs x ≤ 2 ^ 60 → ShowsAfter rows.now updates.now (bounded side.now x) → IsSomeAnd o (λ k. k ≤ℤ x)) }
{
    let row = Row {
        coefficients: copy(alloc, side)?,
        bound: 0,
    };
    let before = row.substitute(alloc, updates)?;
    let form = form_of(before);
    let found = form_bound(alloc, rows, &form)?;
    Ok(found)
}

impl Bounding for Image<'_> {
    ghost has = { λ i point. IsImage i.rows.now i.updates.now point };

    ghost shows = { λ i r. ShowsAfter i.rows.now i.updates.now r };

    ghost ready = { λ i. AreUpdates i.updates.now };

    ghost takes = { λ i side. length side ≡ length i.updates.now };

    fn bound_of(&self, alloc: Global, side: &Many<i128>) -> Result<Option<i128>, Memory> {
        let found = bound_after(alloc, self.rows, self.updates, side)?;
        Ok(found)
    }
}

/// Whether no number has a magnitude above that of an update's numbers.
fn are_small(numbers: &Many<i128>) -> bool
    ensures { MatchBool result (All (λ c. unsigned_abs c ≤ 2 ^ 41) numbers.now) (¬ (All (λ c. unsigned_abs c ≤ 2 ^ 41) numbers.now)) }
{
    for number in numbers.as_slice() {
        if number.unsigned_abs() > MOST_NUMBER {
            return false;
        }
    }
    true
}

/// Whether no number of the form, its constant included, has a magnitude above that.
fn is_small(form: &Form) -> bool
    ensures { MatchBool result (FormWithin (2 ^ 41) form.now) (¬ (FormWithin (2 ^ 41) form.now)) }
{
    if !are_small(&form.coefficients) {
        return false;
    }
    form.constant.unsigned_abs() <= MOST_NUMBER
}

/// Whether no form has a number with a magnitude above that.
fn are_all_small(forms: &Many<Form>) -> bool
    ensures { MatchBool result (All (FormWithin (2 ^ 41)) forms.now) (¬ (All (FormWithin (2 ^ 41)) forms.now)) }
{
    for form in forms.as_slice() {
        if !is_small(form) {
            return false;
        }
    }
    true
}

/// Whether all numbers of the forms, and how many forms there are, are within the limits of updates.
pub fn are_updates(updates: &Many<Form>) -> bool
    requires { All (λ f. length f.coefficients ≡ forms_width updates.now) updates.now }
    ensures { MatchBool result (AreUpdates updates.now) (¬ (AreUpdates updates.now)) }
{
    if !are_all_small(updates) {
        return false;
    }
    updates.len() <= MOST_UPDATES
}

/// The row, cut or filled with zeros to so many columns.
pub fn cut(alloc: Global, row: &Row, width: usize) -> Result<Row, Memory>
    requires { Fits row.now }
    ensures cut { IfOk result (IsCut width row.now) }
    ensures fits { IfOk result Fits }
{
    let mut coefficients = Many::new(alloc);
    for column in 0..width {
        let number = number_at(&row.coefficients, column);
        coefficients.push(number)?;
    }
    Ok(Row {
        coefficients,
        bound: row.bound,
    })
}

/// The rows, each cut or filled with zeros to so many columns.
fn cut_rows(alloc: Global, rows: &Many<Row>, width: usize) -> Result<Many<Row>, Memory>
    requires { All Fits rows.now }
    ensures { IfOk result (AreCut width rows.now (length rows.now)) }
{
    let mut new = Many::new(alloc);
    for row in rows.as_slice() {
        let one = cut(alloc, row, width)?;
        new.push(one)?;
    }
    Ok(new)
}

/// Rows that each point of the set meets: those with the left sides of a list, and those with 1 or -1 at one or two columns.
fn closing_rows<B: Bounding>(
    alloc: Global,
    set: &B,
    sides: &Many<Row>,
    width: usize,
) -> Result<Poly, Memory>
    requires ready { B.ready set.now }
    requires takes { (side : List ℤ) → length side ≡ width → B.takes set.now side }
    requires fits { All Fits sides.now }
    requires widths { All (λ r. length r.coefficients ≡ width) sides.now }
    ensures { IfOk result (λ p. AreClosing (B.has set.now) (B.shows set.now) width sides.now p.rows) }
{
    let mut rows = Many::new(alloc);
    add_sides(alloc, set, sides, width, &mut rows)?;
    add_units(alloc, set, width, &mut rows)?;
    Ok(Poly { rows })
}

/// Such rows that each updated point of the premises meets.
fn image_rows(
    alloc: Global,
    premises: &Many<Row>,
    updates: &Many<Form>,
    sides: &Many<Row>,
) -> Result<Poly, Memory>
    requires premises { All Fits premises.now }
    requires few { length premises.now ≤ 1024 }
    requires updates { AreUpdates updates.now }
    requires sides { All Fits sides.now }
    requires widths { All (λ r. length r.coefficients ≡ length updates.now) sides.now }
    ensures { IfOk result (λ p. AreClosing (IsImage premises.now updates.now) (ShowsAfter premises.now updates.now) (length updates.now)
        sides.now p.rows) }
{
    let search = Search::new(alloc, premises)?;
    let set = Image {
        rows: &search,
        updates,
    };
    closing_rows(alloc, &set, sides, updates.len())
}

/// Rows that each updated point of the premises meets.
fn updated_rows(alloc: Global, premises: &Many<Row>, updates: &Many<Form>) -> Result<Poly, Memory>
    requires fits { All Fits premises.now }
    requires few { length premises.now ≤ 1024 }
    requires updates { AreUpdates updates.now }
    ensures poly { IfOk result (λ p. IsPoly p.rows) }
    ensures few { IfOk result (λ p. length p.rows ≤ 1024) }
    ensures width { IfOk result (λ p. All (λ r. length r.coefficients ≡ length updates.now) p.rows) }
    ensures contains { IfOk result (λ p. (point : List ℤ) → IsImage premises.now updates.now point → HasPoint p.rows point) }
    ensures exact { IfOk result (λ p. AreMoves updates.now → All (IsNarrow (length updates.now)) premises.now
        → All (StaysWithin updates.now) premises.now → (point : List ℤ) → length point ≡ length updates.now → HasPoint p.rows point
        → IsImage premises.now updates.now point) }
{
    let sides = cut_rows(alloc, premises, updates.len())?;
    let found = image_rows(alloc, premises, updates, &sides)?;
    Ok(found)
}

/// Rows that each updated point of the premises meets, of updates of any size: the premises, moved, where the updates are moves, and else none.
fn far_rows(alloc: Global, premises: &Many<Row>, updates: &Many<Form>) -> Result<Poly, Memory>
    requires fits { All Fits premises.now }
    requires few { length premises.now ≤ 1024 }
    ensures poly { IfOk result (λ p. IsPoly p.rows) }
    ensures few { IfOk result (λ p. length p.rows ≤ 1024) }
    ensures width { IfOk result (λ p. All (λ r. length r.coefficients ≡ length updates.now) p.rows) }
    ensures contains { IfOk result (λ p. (point : List ℤ) → IsImage premises.now updates.now point → HasPoint p.rows point) }
    ensures exact { IfOk result (λ p. AreMoves updates.now → All (IsNarrow (length updates.now)) premises.now
        → All (StaysWithin updates.now) premises.now → (point : List ℤ) → length point ≡ length updates.now → HasPoint p.rows point
        → IsImage premises.now updates.now point) }
{
    if !are_moves(updates) {
        return Ok(Poly {
            rows: Many::new(alloc),
        });
    }
    let rows = moved(alloc, premises, updates)?;
    Ok(Poly { rows })
}

/// Rows that each updated point of the premises meets.
fn image_of(alloc: Global, premises: &Many<Row>, updates: &Many<Form>) -> Result<Poly, Memory>
    requires fits { All Fits premises.now }
    requires few { length premises.now ≤ 1024 }
    requires updates { All (λ f. length f.coefficients ≡ forms_width updates.now) updates.now }
    ensures poly { IfOk result (λ p. IsPoly p.rows) }
    ensures few { IfOk result (λ p. length p.rows ≤ 1024) }
    ensures width { IfOk result (λ p. All (λ r. length r.coefficients ≡ length updates.now) p.rows) }
    ensures contains { IfOk result (λ p. (point : List ℤ) → IsImage premises.now updates.now point → HasPoint p.rows point) }
    ensures exact { IfOk result (λ p. AreMoves updates.now → All (IsNarrow (length updates.now)) premises.now
        → All (StaysWithin updates.now) premises.now → (point : List ℤ) → length point ≡ length updates.now → HasPoint p.rows point
        → IsImage premises.now updates.now point) }
{
    if are_updates(updates) {
        return updated_rows(alloc, premises, updates);
    }
    far_rows(alloc, premises, updates)
}

impl Poly {
    /// Rows that the updated points meet: those that the updates give at each point of the polyhedron that meets the rows, too. There is one
    /// update for each column; the rows and the updates may be wider, and the further columns are inputs, which a point may have any of. Where
    /// each update is its own column plus a constant, the rows have no input, and the rows of both lists, as they are and moved by the constants,
    /// are within the limits of kept rows and at most 1,024, the answer has no other points, whatever the size of the constants. Of other updates
    /// beyond those of a source (128 updates, numbers of magnitude 2^41) the answer has no rows, so every point. The only error is want of
    /// memory.
    pub fn after(
        &self,
        alloc: Global,
        rows: &Many<Row>,
        updates: &Many<Form>,
    ) -> Result<Poly, Memory>
        requires poly { IsPoly self.now.rows }
        requires width { All (λ r. length r.coefficients ≡ length updates.now) self.now.rows }
        requires updates { All (λ f. length f.coefficients ≡ forms_width updates.now) updates.now }
        ensures poly { IfOk result (λ p. IsPoly p.rows) }
        ensures few { IfOk result (λ p. length p.rows ≤ 1024) }
        ensures width { IfOk result (λ p. All (λ r. length r.coefficients ≡ length updates.now) p.rows) }
        ensures contains { IfOk result (λ p. (point : List ℤ) → HasPoint self.now.rows point → HasPoint rows.now point
            → HasPoint p.rows (values updates.now point)) }
        ensures exact { IfOk result (λ p. AreMoves updates.now → All (IsNarrow (length updates.now)) rows.now
            → All Fits rows.now → All (StaysWithin updates.now) (self.now.rows ++ rows.now) → length self.now.rows + length rows.now ≤ 1024
            → (point : List ℤ) → length point ≡ length updates.now → HasPoint p.rows point → IsImage (self.now.rows ++ rows.now) updates.now point) }
    {
        let premises = both_rows(alloc, &self.rows, rows)?;
        let found = image_of(alloc, &premises, updates)?;
        Ok(found)
    }
}
