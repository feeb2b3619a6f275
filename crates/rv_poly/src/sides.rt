// The left sides of rows at a point whose numbers are in the range of a trace.
ghost use Rattle.std.specs.Prelude.{◌≡◌, ◌≤◌, ◌<◌, ◌^◌, ℤ, pos, ◌+ℤ◌, ◌*ℤ◌, length, All, IsTrue, IfSome, IsSome, SomeIff, FitsSigned};
ghost use Rattle.std.specs.Int.{w128};
ghost use Rattle.std.specs.Int.RustNames.{unsigned_abs};
ghost use Rattle.rv_rows.specs.Rows.{dot, Holds};
ghost use Rattle.rv_rows.specs.Forms.{number};
ghost use Rattle.rv_rows.specs.Tight.{Fits};
ghost use Rattle.rv_poly.specs.Points.{HasPoint};
ghost use Rattle.rv_poly.specs.Whole.{IsInReplay, IsSingle};

use rv_base::Many;
use rv_rows::{Row, number_at};

/// `sum + by * number`, where it is a number of the type.
fn add_product(sum: i128, by: i128, number: i128) -> Option<i128>
    requires by { unsigned_abs by ≤ 2 ^ 30 }
    requires number { unsigned_abs number ≤ 2 ^ 63 }
    ensures { SomeIff result (FitsSigned w128 (sum +ℤ (by *ℤ number))) (sum +ℤ (by *ℤ number)) }
{
    let product = by * number;
    sum.checked_add(product)
}

/// The sum of the coefficients, each times its number of the point. What one of the two lacks counts as 0. Only where several coefficients
/// are not 0 it may be too great for the type.
pub fn left_side(coefficients: &Many<i128>, point: &Many<i128>) -> Option<i128>
    requires coefficients { All (λ c. unsigned_abs c ≤ 2 ^ 30) coefficients.now }
    requires point { All IsInReplay point.now }
    ensures exact { IfSome result (λ s. s ≡ dot coefficients.now point.now) }
    ensures found { IsSingle coefficients.now → IsSome result }
{
    let mut sum: i128 = 0;
    for place in 0..coefficients.len() {
        let by = *coefficients.at(place);
        let number = number_at(point, place);
        match add_product(sum, by, number) {
            Some(more) => sum = more,
            None => return None,
        }
    }
    Some(sum)
}

/// Whether the coefficients of all later columns are 0.
pub fn is_last(coefficients: &Many<i128>, column: usize) -> bool
    requires { column < length coefficients.now }
    ensures { IsSingle coefficients.now → (number column coefficients.now ≡ pos 0 → ⊥) → IsTrue result }
{
    let width = coefficients.len();
    for later in column + 1..width {
        if *coefficients.at(later) != 0 {
            return false;
        }
    }
    true
}

/// Whether the row is seen to hold at the point.
fn meets(row: &Row, point: &Many<i128>) -> bool
    requires fits { Fits row.now }
    requires point { All IsInReplay point.now }
    ensures holds { IsTrue result → Holds row.now point.now }
    ensures found { IsSingle row.now.coefficients → Holds row.now point.now → IsTrue result }
{
    match left_side(&row.coefficients, point) {
        Some(sum) => sum <= row.bound,
        None => false,
    }
}

/// Whether all rows are seen to hold at the point.
pub fn meets_all(rows: &Many<Row>, point: &Many<i128>) -> bool
    requires fits { All Fits rows.now }
    requires point { All IsInReplay point.now }
    ensures holds { IsTrue result → HasPoint rows.now point.now }
    ensures found { All (λ r. IsSingle r.coefficients) rows.now → HasPoint rows.now point.now → IsTrue result }
{
    for row in rows.as_slice() {
        if !meets(row, point) {
            return false;
        }
    }
    true
}
