ghost use Rattle.std.specs.Prelude.{◌≡◌, ◌≢◌, ℕ, ◌+◌, ◌*◌, ◌<◌, ◌≤◌, ◌^◌, ℤ, pos, ◌+ℤ◌, ◌*ℤ◌, length, All, IfOk, IfSome, IfNone};
ghost use Rattle.std.specs.Prelude.{MatchBool, MatchOption};
ghost use Rattle.std.specs.Int.RustNames.{unsigned_abs};
ghost use Rattle.rv_rows.specs.Rows.{row_at, RowWithin};
ghost use Rattle.rv_rows.specs.Forms.{number};
ghost use Rattle.rv_boxes.specs.Ends.{AreEnds, end_at};
ghost use Rattle.rv_boxes.specs.Weighing.{Rises, IsInserted};
ghost use Rattle.rv_boxes.specs.Boxed.{ArePremises, IsUncrossed, IsTowards, IsLoose, IsSummed, IsGreatest, IsUnbounded};

use crate::ends::End;
use crate::premises::Premises;
use crate::weights::with_weight;
use rv_base::{Many, Memory};
use rv_rows::{Weight, number_at};
use std::alloc::Global;

/// The greatest value of a sum over a box, and the weights on the premises that prove it.
#[derive(Debug, Drop)]
pub struct Peak {
    /// The value.
    pub bound: i128,
    /// The weights, in the order of their premises.
    pub weights: Many<Weight>,
}

/// The end of a column towards which a multiple of it grows.
fn end_towards(end: End, number: i128) -> Option<u32>
    requires { number ≢ pos 0 }
    ensures { MatchOption result (IsLoose end number) (IsTowards end number) }
{
    if number > 0 { end.high } else { end.low }
}

/// `sum + by * number`.
fn plus_product(sum: i128, by: i128, number: i128) -> i128
    requires { unsigned_abs sum + unsigned_abs by * unsigned_abs number < 2 ^ 127 }
    ensures { result ≡ (sum +ℤ (by *ℤ number)) }
{
    sum + by * number
}

/// Whether the number is 0.
fn is_zero(number: i128) -> bool
    ensures { MatchBool result (number ≡ pos 0) (number ≢ pos 0) }
{
    number == 0
}

/// The magnitude of a coefficient.
fn magnitude(number: i128) -> i128
    requires { unsigned_abs number ≤ 2 ^ 41 }
    ensures { result ≡ pos (unsigned_abs number) }
{
    if number < 0 { -number } else { number }
}

/// The sum with one more weight.
fn with_end(
    alloc: Global,
    premises: &Premises,
    sum: &Peak,
    premise: u32,
    by: i128,
) -> Result<Peak, Memory>
    requires there { premise < length premises.now }
    requires within { All (RowWithin (2 ^ 60)) premises.now }
    requires room { unsigned_abs sum.now.bound ≤ 256 * 2 ^ 101 }
    requires by { unsigned_abs by ≤ 2 ^ 41 }
    requires rises { Rises sum.now.weights }
    ensures bound { IfOk result (λ g. g.bound ≡ sum.now.bound +ℤ (by *ℤ (row_at premises.now premise).bound)) }
    ensures weights { IfOk result (λ g. IsInserted sum.now.weights (record { premise = premise; by = by }) g.weights) }
{
    let weights = with_weight(alloc, &sum.weights, Weight { premise, by })?;
    let bound = plus_product(sum.bound, by, premises.at(premise as usize).bound);
    Ok(Peak { bound, weights })
}

/// The sum with the weight of one more column, or none where the column has no end.
fn with_column(
    alloc: Global,
    premises: &Premises,
    ends: &Many<End>,
    numbers: &Many<i128>,
    column: usize,
    sum: Peak,
) -> Result<Option<Peak>, Memory>
    requires premises { (width : ℕ) × ArePremises width premises.now }
    requires ends { AreEnds premises.now (length ends.now) ends.now }
    requires column { column < length ends.now }
    requires few { column < 256 }
    requires inside { column < length numbers.now }
    requires sizes { All (λ c. unsigned_abs c ≤ 2 ^ 41) numbers.now }
    requires sum { IsSummed premises.now ends.now numbers.now column sum }
    ensures some { IfOk result (λ o. IfSome o (IsSummed premises.now ends.now numbers.now (column + 1))) }
    ensures none { IfOk result (λ o. IfNone o (IsLoose (end_at ends.now column) (number column numbers.now))) }
{
    let number = number_at(numbers, column);
    if is_zero(number) {
        return Ok(Some(sum));
    }
    match end_towards(*ends.at(column), number) {
        Some(premise) => {
            let by = magnitude(number);
            let next = with_end(alloc, premises, &sum, premise, by)?;
            Ok(Some(next))
        }
        None => Ok(None),
    }
}

/// The greatest value over the box of the premises of the sum of the columns times the numbers, with the weights
/// that prove it, or none where it has no greatest value. The box has a point.
pub fn greatest(
    alloc: Global,
    premises: &Premises,
    ends: &Many<End>,
    numbers: &Many<i128>,
) -> Result<Option<Peak>, Memory>
    requires premises { ArePremises (length ends.now) premises.now }
    requires ends { AreEnds premises.now (length ends.now) ends.now }
    requires some { IsUncrossed premises.now ends.now (length ends.now) }
    requires width { length numbers.now ≤ length ends.now }
    requires few { length numbers.now < 256 }
    requires sizes { All (λ c. unsigned_abs c ≤ 2 ^ 41) numbers.now }
    ensures some { IfOk result (λ o. IfSome o (IsGreatest (length ends.now) premises.now numbers.now)) }
    ensures none { IfOk result (λ o. IfNone o (IsUnbounded (length ends.now) premises.now numbers.now)) }
{
    let mut sum = Peak {
        bound: 0,
        weights: Many::new(alloc),
    };
    for column in 0..numbers.len() {
        match with_column(alloc, premises, ends, numbers, column, sum)? {
            Some(next) => sum = next,
            None => return Ok(None),
        }
    }
    Ok(Some(sum))
}
