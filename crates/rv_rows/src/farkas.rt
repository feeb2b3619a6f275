ghost use Rattle.std.specs.Prelude.{◌≡◌, ◌<◌, ◌≤◌, ◌^◌, List, ℤ, pos, ◌+◌, ◌≤ℤ◌, All, length, MatchBool, IsTrue};
ghost use Rattle.std.specs.Int.RustNames.{unsigned_abs};
ghost use Rattle.rv_rows.specs.Rows.{coefficient, row_at, Holds, RowWithin};
ghost use Rattle.rv_rows.specs.Multipliers.{weighted, Proves, Refutes, IsInRange, WeightsWithin, Sides, Cancels, SumsBelow};

use crate::linear::Row;
use crate::sums::{number_at, plus_product};
use rv_base::Many;

/// A premise, and what its row is multiplied with.
#[derive(Clone, Copy, Debug, PartialEq, Eq)]
pub struct Weight {
    /// The number of the premise in its list, counted from 0.
    pub premise: u32,
    /// The factor of its row.
    pub by: i128,
}

/// What shows that premises imply a row (Farkas' lemma): the sum of the premises, each times its weight, is the
/// divisor times the row.
#[derive(Clone, Debug, Drop, PartialEq, Eq)]
pub struct Multipliers {
    /// The factor of the row that is proved.
    pub divisor: i128,
    /// The premises that are used, each with its factor.
    pub weights: Many<Weight>,
}

/// The weighted sum of the premises' coefficients of one column.
fn weighted_coefficient(premises: &Many<Row>, weights: &Many<Weight>, column: usize) -> i128
    requires range { IsInRange premises.now weights.now }
    requires premises { All (RowWithin (2 ^ 60)) premises.now }
    requires weights { WeightsWithin (2 ^ 41) 256 weights.now }
    ensures { result ≡ weighted (coefficient column) premises.now weights.now }
{
    let mut sum: i128 = 0;
    for weight in weights.as_slice() {
        let row = premises.at(weight.premise as usize);
        sum = plus_product(sum, weight.by, number_at(&row.coefficients, column));
    }
    sum
}

/// The weighted sum of the premises' bounds.
fn weighted_bound(premises: &Many<Row>, weights: &Many<Weight>) -> i128
    requires range { IsInRange premises.now weights.now }
    requires premises { All (RowWithin (2 ^ 60)) premises.now }
    requires weights { WeightsWithin (2 ^ 41) 256 weights.now }
    ensures { result ≡ weighted (λ r. r.bound) premises.now weights.now }
{
    let mut sum: i128 = 0;
    for pair in weights.as_slice() {
        let row = premises.at(pair.premise as usize);
        sum = plus_product(sum, pair.by, row.bound);
    }
    sum
}

/// Whether no weight is negative.
fn none_negative(weights: &Many<Weight>) -> bool
    ensures { MatchBool result (All (λ w. pos 0 ≤ℤ w.by) weights.now) (¬ (All (λ w. pos 0 ≤ℤ w.by) weights.now)) }
{
    for weight in weights.as_slice() {
        if weight.by < 0 {
            return false;
        }
    }
    true
}

/// A width that no row which is used exceeds.
fn width_of(premises: &Many<Row>, weights: &Many<Weight>, least: usize) -> usize
    requires { IsInRange premises.now weights.now }
    ensures least { least ≤ result }
    ensures used { All (λ w. length (row_at premises.now w.premise).coefficients ≤ result) weights.now }
{
    let mut width = least;
    for weight in weights.as_slice() {
        let here = premises.at(weight.premise as usize).coefficients.len();
        if width < here {
            width = here;
        }
    }
    width
}

/// Whether the weighted left sides sum to the divisor times the wanted left side.
fn same_sides(premises: &Many<Row>, wanted: &Row, multipliers: &Multipliers) -> bool
    requires range { IsInRange premises.now multipliers.now.weights }
    requires premises { All (RowWithin (2 ^ 60)) premises.now }
    requires weights { WeightsWithin (2 ^ 41) 256 multipliers.now.weights }
    requires divisor { unsigned_abs multipliers.now.divisor ≤ 2 ^ 30 }
    requires wanted { RowWithin (2 ^ 78) wanted.now }
    ensures { MatchBool result (Sides premises.now wanted.now multipliers.now) (¬ (Sides premises.now wanted.now multipliers.now)) }
{
    let width = width_of(premises, &multipliers.weights, wanted.coefficients.len());
    for column in 0..width {
        let sum = weighted_coefficient(premises, &multipliers.weights, column);
        if sum
            != plus_product(
                0,
                multipliers.divisor,
                number_at(&wanted.coefficients, column),
            )
        {
            return false;
        }
    }
    true
}

/// Whether the multipliers prove the wanted row, by the definition alone.
fn is_proof(premises: &Many<Row>, wanted: &Row, multipliers: &Multipliers) -> bool
    requires range { IsInRange premises.now multipliers.now.weights }
    requires premises { All (RowWithin (2 ^ 60)) premises.now }
    requires weights { WeightsWithin (2 ^ 41) 256 multipliers.now.weights }
    requires divisor { unsigned_abs multipliers.now.divisor ≤ 2 ^ 30 }
    requires wanted { RowWithin (2 ^ 78) wanted.now }
    ensures { MatchBool result (Proves premises.now wanted.now multipliers.now) (¬ (Proves premises.now wanted.now multipliers.now)) }
{
    if multipliers.divisor < 1 {
        return false;
    }
    if !none_negative(&multipliers.weights) {
        return false;
    }
    if !same_sides(premises, wanted, multipliers) {
        return false;
    }
    let most = plus_product(0, multipliers.divisor, wanted.bound + 1);
    weighted_bound(premises, &multipliers.weights) < most
}

/// Whether the multipliers prove the wanted row from the premises: the easy direction of Farkas' lemma, with
/// rounding for whole numbers. It is true exactly where no weight is negative, the divisor is at least 1, the
/// weighted left sides sum to the divisor times the wanted one, and the weighted bounds sum to less than the
/// divisor times one more than the wanted bound. The rows may differ in width. A row that is proved holds at
/// every whole point of the premises.
pub fn proves(premises: &Many<Row>, wanted: &Row, multipliers: &Multipliers) -> bool
    requires range { IsInRange premises.now multipliers.now.weights }
    requires premises { All (RowWithin (2 ^ 60)) premises.now }
    requires weights { WeightsWithin (2 ^ 41) 256 multipliers.now.weights }
    requires divisor { unsigned_abs multipliers.now.divisor ≤ 2 ^ 30 }
    requires wanted { RowWithin (2 ^ 78) wanted.now }
    ensures exact { MatchBool result (Proves premises.now wanted.now multipliers.now) (¬ (Proves premises.now wanted.now multipliers.now)) }
    ensures sound { IsTrue result → (point : List ℤ) → All (λ r. Holds r point) premises.now → Holds wanted.now point }
    ensures sums { SumsBelow (2 ^ 110) premises.now multipliers.now.weights }
{
    is_proof(premises, wanted, multipliers)
}

/// Whether the weighted left sides sum to zero.
fn sides_cancel(premises: &Many<Row>, weights: &Many<Weight>) -> bool
    requires range { IsInRange premises.now weights.now }
    requires premises { All (RowWithin (2 ^ 60)) premises.now }
    requires weights { WeightsWithin (2 ^ 41) 256 weights.now }
    ensures { MatchBool result (Cancels premises.now weights.now) (¬ (Cancels premises.now weights.now)) }
{
    let width = width_of(premises, weights, 0);
    for column in 0..width {
        if weighted_coefficient(premises, weights, column) != 0 {
            return false;
        }
    }
    true
}

/// Whether the multipliers refute the premises, by the definition alone.
fn is_refutation(premises: &Many<Row>, multipliers: &Multipliers) -> bool
    requires range { IsInRange premises.now multipliers.now.weights }
    requires premises { All (RowWithin (2 ^ 60)) premises.now }
    requires weights { WeightsWithin (2 ^ 41) 256 multipliers.now.weights }
    requires divisor { multipliers.now.divisor ≡ pos 1 }
    ensures { MatchBool result (Refutes premises.now multipliers.now) (¬ (Refutes premises.now multipliers.now)) }
{
    if !none_negative(&multipliers.weights) {
        return false;
    }
    if !sides_cancel(premises, &multipliers.weights) {
        return false;
    }
    weighted_bound(premises, &multipliers.weights) < 0
}

/// Whether the multipliers, whose divisor is 1, refute the premises. It is true exactly where no weight is
/// negative, the weighted left sides sum to zero, and the weighted bounds sum to less than 0. Then no whole point
/// meets all premises.
pub fn refutes(premises: &Many<Row>, multipliers: &Multipliers) -> bool
    requires range { IsInRange premises.now multipliers.now.weights }
    requires premises { All (RowWithin (2 ^ 60)) premises.now }
    requires weights { WeightsWithin (2 ^ 41) 256 multipliers.now.weights }
    requires divisor { multipliers.now.divisor ≡ pos 1 }
    ensures exact { MatchBool result (Refutes premises.now multipliers.now) (¬ (Refutes premises.now multipliers.now)) }
    ensures sound { IsTrue result → (point : List ℤ) → ¬ (All (λ r. Holds r point) premises.now) }
    ensures sums { SumsBelow (2 ^ 110) premises.now multipliers.now.weights }
{
    is_refutation(premises, multipliers)
}
