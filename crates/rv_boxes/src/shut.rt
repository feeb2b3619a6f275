ghost use Rattle.std.specs.Prelude.{◌≡◌, ◌≢◌, ℕ, ◌<◌, ◌≤◌, ◌^◌, ℤ, pos, negsuc, ◌+ℤ◌, ◌*ℤ◌, ◌*◌, ◌<ℤ◌, ◌≤ℤ◌, List, [], length, All, IfOk, IfSome};
ghost use Rattle.std.specs.Prelude.{IfNone, IsSome, MatchBool, Option};
ghost use Rattle.std.specs.Int.RustNames.{unsigned_abs};
ghost use Rattle.rv_rows.specs.Rows.{row_at, RowWithin, Holds};
ghost use Rattle.rv_rows.specs.Forms.{number};
ghost use Rattle.rv_rows.specs.declared.farkas.Weight.{Weight};
ghost use Rattle.rv_boxes.specs.Ends.{AreEnds, end_at};
ghost use Rattle.rv_boxes.specs.Weighing.{IsInserted};
ghost use Rattle.rv_boxes.specs.Boxed.{IsBoxed, ArePremises, IsCrossed, IsUncrossed, IsGreatest, IsOpenBox, IsRefutation};

use crate::ends::{End, only_column};
use crate::peaks::{Peak, greatest};
use crate::premises::Premises;
use crate::weights::with_weight;
use rv_base::{Many, Memory};
use rv_rows::{Multipliers, Weight};
use std::alloc::Global;

/// Whether the ends of a column exclude each other.
fn is_crossed(premises: &Premises, end: End) -> bool
    requires within { All (RowWithin (2 ^ 60)) premises.now }
    requires low { (p : ℕ) → end.low ≡ Option.Some p → p < length premises.now }
    requires high { (p : ℕ) → end.high ≡ Option.Some p → p < length premises.now }
    ensures { MatchBool result (IsCrossed premises.now end) (¬ IsCrossed premises.now end) }
{
    match (end.low, end.high) {
        (Some(low), Some(high)) => are_crossed(premises, low, high),
        _ => false,
    }
}

/// Whether two bounds sum to less than 0.
fn are_crossed(premises: &Premises, low: u32, high: u32) -> bool
    requires within { All (RowWithin (2 ^ 60)) premises.now }
    requires low { low < length premises.now }
    requires high { high < length premises.now }
    ensures { MatchBool result (((row_at premises.now low).bound +ℤ (row_at premises.now high).bound) <ℤ pos 0)
        (¬ (((row_at premises.now low).bound +ℤ (row_at premises.now high).bound) <ℤ pos 0)) }
{
    bound_at(premises, low) + bound_at(premises, high) < 0
}

/// The bound of a premise.
fn bound_at(premises: &Premises, premise: u32) -> i128
    requires within { All (RowWithin (2 ^ 60)) premises.now }
    requires there { premise < length premises.now }
    ensures value { result ≡ (row_at premises.now premise).bound }
    ensures size { unsigned_abs result ≤ 2 ^ 60 }
{
    premises.at(premise as usize).bound
}

/// Whether a sum is less than 0.
fn is_negative(a: i128, b: i128) -> bool
    requires first { unsigned_abs a ≤ 2 ^ 60 }
    requires second { unsigned_abs b ≤ 256 * 2 ^ 101 }
    ensures { MatchBool result ((a +ℤ b) <ℤ pos 0) (pos 0 ≤ℤ (a +ℤ b)) }
{
    a + b < 0
}

/// The first column whose ends exclude each other.
fn crossed_column(premises: &Premises, ends: &Many<End>) -> Option<usize>
    requires within { All (RowWithin (2 ^ 60)) premises.now }
    requires ends { AreEnds premises.now (length ends.now) ends.now }
    ensures some { IfSome result (λ k. (k < length ends.now) × IsCrossed premises.now (end_at ends.now k)) }
    ensures none { IfNone result (IsUncrossed premises.now ends.now (length ends.now)) }
{
    for column in 0..ends.len() {
        if is_crossed(premises, *ends.at(column)) {
            return Some(column);
        }
    }
    None
}

/// The weight 1 on two premises.
fn by_two(alloc: Global, first: u32, second: u32) -> Result<Multipliers, Memory>
    requires { first ≢ second }
    ensures divisor { IfOk result (λ m. m.divisor ≡ pos 1) }
    ensures weights { IfOk result (λ m. (mid : List Weight) × IsInserted [] (record { premise = first; by = pos 1 }) mid
        × IsInserted mid (record { premise = second; by = pos 1 }) m.weights) }
{
    let one = with_weight(
        alloc,
        &Many::new(alloc),
        Weight {
            premise: first,
            by: 1,
        },
    )?;
    let weights = with_weight(
        alloc,
        &one,
        Weight {
            premise: second,
            by: 1,
        },
    )?;
    Ok(Multipliers {
        divisor: 1,
        weights,
    })
}

/// The number with the other sign.
fn opposite(number: i128) -> i128
    requires { unsigned_abs number ≤ 2 ^ 41 }
    ensures { result ≡ negsuc 0 *ℤ number }
{
    -number
}

/// The numbers, each with the other sign.
pub fn negated(alloc: Global, numbers: &Many<i128>) -> Result<Many<i128>, Memory>
    requires { All (λ c. unsigned_abs c ≤ 2 ^ 41) numbers.now }
    ensures width { IfOk result (λ ns. length ns ≡ length numbers.now) }
    ensures each { IfOk result (λ ns. (k : ℕ) → number k ns ≡ negsuc 0 *ℤ number k numbers.now) }
    ensures sizes { IfOk result (All (λ c. unsigned_abs c ≤ 2 ^ 41)) }
{
    let mut list = Many::new(alloc);
    for column in 0..numbers.len() {
        let turned = opposite(*numbers.at(column));
        list.push(turned)?;
    }
    Ok(list)
}

/// What refutes the premises where the least value of one over the box is above its bound. The peak is the greatest
/// value of its left side with the other sign.
fn above(
    alloc: Global,
    premises: &Premises,
    ends: &Many<End>,
    numbers: &Many<i128>,
    premise: u32,
    peak: &Peak,
) -> Result<Option<Multipliers>, Memory>
    requires premises { ArePremises (length ends.now) premises.now }
    requires there { premise < length premises.now }
    requires few { length numbers.now < 256 }
    requires numbers { (k : ℕ) → number k numbers.now ≡ negsuc 0 *ℤ number k (row_at premises.now premise).coefficients }
    requires peak { IsGreatest (length ends.now) premises.now numbers.now peak.now }
    ensures some { IfOk result (λ o. IfSome o (λ m. IsRefutation premises.now m × ((point : List ℤ) → IsBoxed (length ends.now) premises.now point
        → ¬ Holds (row_at premises.now premise) point))) }
    ensures none { IfOk result (λ o. IfNone o ((point : List ℤ) × IsBoxed (length ends.now) premises.now point × Holds (row_at premises.now premise) point)) }
{
    if !is_negative(bound_at(premises, premise), peak.bound) {
        return Ok(None);
    }
    let weights = with_weight(alloc, &peak.weights, Weight { premise, by: 1 })?;
    Ok(Some(Multipliers {
        divisor: 1,
        weights,
    }))
}

/// What refutes the premises where the least value of this one over the box is above its bound. One with one coefficient holds in all of the
/// box, and is not looked at.
fn shut_by(
    alloc: Global,
    premises: &Premises,
    ends: &Many<End>,
    premise: u32,
) -> Result<Option<Multipliers>, Memory>
    requires premises { ArePremises (length ends.now) premises.now }
    requires ends { AreEnds premises.now (length ends.now) ends.now }
    requires uncrossed { IsUncrossed premises.now ends.now (length ends.now) }
    requires there { premise < length premises.now }
    requires few { length ends.now < 256 }
    ensures some { IfOk result (λ o. IfSome o (λ m. IsRefutation premises.now m × ((point : List ℤ) → IsBoxed (length ends.now) premises.now point
        → ¬ Holds (row_at premises.now premise) point))) }
    ensures none { IfOk result (λ o. IfNone o ((point : List ℤ) × IsBoxed (length ends.now) premises.now point × Holds (row_at premises.now premise) point)) }
{
    if let Some(_) = only_column(premises.at(premise as usize)) {
        return Ok(None);
    }
    let numbers = negated(alloc, &premises.at(premise as usize).coefficients)?;
    match greatest(alloc, premises, ends, &numbers)? {
        Some(peak) => above(alloc, premises, ends, &numbers, premise, &peak),
        None => Ok(None),
    }
}

/// What refutes the premises where their box is empty, or where the least value of one of them over the box is above
/// its bound. None exactly where the box has a point and each premise holds at some point of it.
pub fn shut_of(
    alloc: Global,
    premises: &Premises,
    ends: &Many<End>,
) -> Result<Option<Multipliers>, Memory>
    requires premises { ArePremises (length ends.now) premises.now }
    requires ends { AreEnds premises.now (length ends.now) ends.now }
    requires few { length ends.now < 256 }
    ensures refuted { IfOk result (λ o. IfSome o (IsRefutation premises.now)) }
    ensures shut { IfOk result (λ o. IfSome o (λ m. ¬ IsOpenBox (length ends.now) premises.now)) }
    ensures opened { IfOk result (λ o. IfNone o (IsOpenBox (length ends.now) premises.now)) }
{
    if let Some(column) = crossed_column(premises, ends) {
        return by_column(alloc, premises, ends, column);
    }
    for premise in 0..premises.len() {
        if let Some(found) = shut_by(alloc, premises, ends, premise as u32)? {
            return Ok(Some(found));
        }
    }
    Ok(None)
}

/// What refutes the premises by the ends of a column.
fn by_column(
    alloc: Global,
    premises: &Premises,
    ends: &Many<End>,
    column: usize,
) -> Result<Option<Multipliers>, Memory>
    requires premises { ArePremises (length ends.now) premises.now }
    requires ends { AreEnds premises.now (length ends.now) ends.now }
    requires inside { column < length ends.now }
    requires crossed { IsCrossed premises.now (end_at ends.now column) }
    ensures refuted { IfOk result (λ o. IfSome o (IsRefutation premises.now)) }
    ensures shut { IfOk result (λ o. IfSome o (λ m. ¬ IsOpenBox (length ends.now) premises.now)) }
    ensures some { IfOk result (λ o. IsSome o) }
{
    let end = *ends.at(column);
    match end.low {
        Some(low) => match end.high {
            Some(high) => {
                let found = by_two(alloc, low, high)?;
                Ok(Some(found))
            }
            None => Ok(None),
        },
        None => Ok(None),
    }
}
