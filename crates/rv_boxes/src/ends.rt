ghost use Rattle.std.specs.Prelude.{◌≡◌, ◌≢◌, ◌⊎◌, ◌+◌, ◌≤ℤ◌, ℕ, ◌<◌, ◌≤◌, ◌^◌, pos, negsuc, length, IfOk, IfSome, IfNone, MatchBool, Option};
ghost use Rattle.rv_rows.specs.Rows.{coefficient, row_at};
ghost use Rattle.rv_boxes.specs.Ends.{IsOnlyColumn, IsEndWith, AreEndsAmong, AreEnds, end_at, no_end};
ghost use Rattle.rv_proofs.specs.Boxes.{HasOneColumn};

use crate::premises::Premises;
use rv_base::{Many, Memory};
use rv_rows::{Row, number_at};
use std::alloc::Global;

/// The ends of a column: the numbers of the premises that bound it alone most closely.
#[derive(Clone, Copy, Debug)]
pub struct End {
    /// The premise `-x <= b`.
    pub low: Option<u32>,
    /// The premise `x <= b`.
    pub high: Option<u32>,
}

/// Whether all coefficients of the row from this column on are 0.
fn is_zero_from(row: &Row, first: usize) -> bool
    ensures { MatchBool result ((n : ℕ) → first ≤ n → coefficient n row.now ≡ pos 0)
        ((n : ℕ) × (first ≤ n) × (coefficient n row.now ≢ pos 0)) }
{
    for column in first..row.coefficients.len() {
        if number_at(&row.coefficients, column) != 0 {
            return false;
        }
    }
    true
}

/// The column of the coefficient that is other than 0, where there is exactly one.
pub fn only_column(row: &Row) -> Option<usize>
    ensures some { IfSome result (IsOnlyColumn row.now) }
    ensures none { IfNone result (¬ HasOneColumn row.now) }
{
    for column in 0..row.coefficients.len() {
        if number_at(&row.coefficients, column) != 0 {
            if is_zero_from(row, column + 1) {
                return Some(column);
            }
            return None;
        }
    }
    None
}

/// The closer of the best premise so far and the given one.
fn closer(premises: &Premises, best: Option<u32>, premise: u32) -> u32
    requires there { premise < length premises.now }
    requires best { (p : ℕ) → best ≡ Option.Some p → p < length premises.now }
    ensures kept { (best ≡ Option.Some result) ⊎ (result ≡ premise) }
    ensures here { (row_at premises.now result).bound ≤ℤ (row_at premises.now premise).bound }
    ensures before { IfSome best (λ p. (row_at premises.now result).bound ≤ℤ (row_at premises.now p).bound) }
{
    match best {
        Some(old) => {
            if premises.at(old as usize).bound <= premises.at(premise as usize).bound {
                old
            } else {
                premise
            }
        }
        None => premise,
    }
}

/// The ends of a column with one premise more, which has the number at the column and 0 at all others.
fn end_with(premises: &Premises, end: End, number: i128, premise: u32) -> End
    requires there { premise < length premises.now }
    requires low { (p : ℕ) → end.low ≡ Option.Some p → p < length premises.now }
    requires high { (p : ℕ) → end.high ≡ Option.Some p → p < length premises.now }
    ensures high { IsEndWith premises.now end.high number (pos 1) premise result.high }
    ensures low { IsEndWith premises.now end.low number (negsuc 0) premise result.low }
{
    if number == 1 {
        let high = closer(premises, end.high, premise);
        return End {
            low: end.low,
            high: Some(high),
        };
    }
    if number == -1 {
        let low = closer(premises, end.low, premise);
        return End {
            low: Some(low),
            high: end.high,
        };
    }
    end
}

/// Takes one premise more into the ends of its column, where it has exactly one.
fn take_premise(premises: &Premises, premise: u32, ends: &mut Many<End>)
    requires there { premise < length premises.now }
    requires ends { AreEndsAmong premises.now premise (length ends.old) ends.old }
    ensures { AreEndsAmong premises.now (premise + 1) (length ends.old) ends.new }
{
    let row = premises.at(premise as usize);
    let Some(column) = only_column(row) else {
        return;
    };
    if column < ends.len() {
        let number = number_at(&row.coefficients, column);
        let end = *ends.at(column);
        let next = end_with(premises, end, number, premise);
        ends.set(column, next);
    }
}

/// As many columns without ends.
fn no_ends(alloc: Global, columns: usize) -> Result<Many<End>, Memory>
    ensures size { IfOk result (λ ends. length ends ≡ columns) }
    ensures none { IfOk result (λ ends. (k : ℕ) → end_at ends k ≡ no_end) }
{
    let mut ends = Many::new(alloc);
    for column in 0..columns {
        ends.push(End {
            low: None,
            high: None,
        })?;
    }
    Ok(ends)
}

/// The ends of each column of the box of the premises: what the premises with one coefficient say.
pub fn narrow(alloc: Global, premises: &Premises, columns: usize) -> Result<Many<End>, Memory>
    requires few { length premises.now < 2 ^ 32 }
    ensures { IfOk result (AreEnds premises.now columns) }
{
    let mut ends = no_ends(alloc, columns)?;
    for premise in 0..premises.len() {
        take_premise(premises, premise as u32, &mut ends);
    }
    Ok(ends)
}
