// The least bound that a pair of places shows.
ghost use Rattle.std.specs.Prelude.{◌≡◌, ◌≢◌, ◌⊎◌, ℕ, ◌<◌, ◌≤◌, ◌^◌, ◌+◌, ℤ, pos, true, ◌+ℤ◌, ◌≤ℤ◌, List, All, length, IfSome, IfOk, IsSomeAnd, MatchBool};
ghost use Rattle.std.specs.Int.RustNames.{unsigned_abs};
ghost use Rattle.rv_rows.specs.Rows.{coefficient, row_at, RowWithin};
ghost use Rattle.rv_rows.specs.Forms.{number};
ghost use Rattle.rv_seek.specs.Least.{PairSums, HasPlace, IsLeast, IsLeastAt, IsAside, IsPassed, IsAlone, IsLeastAmong};
ghost use Rattle.rv_seek.specs.Sides.{IsPrepared};

use crate::places::{bound_of, coefficient_of};
use crate::sides::{Sides, other_of, write_rest};
use rv_base::{Many, Memory};
use rv_rows::{Row, number_at};
use std::alloc::Global;

/// Two places whose left sides sum to the wanted one, and the sum of their bounds.
#[derive(Clone, Copy, Debug)]
pub struct Best {
    /// The lesser place. A place past the end of the list stands for no premise.
    pub first: usize,
    /// The greater place.
    pub second: usize,
    /// The sum of the bounds at both.
    pub bound: i128,
}

fn lesser(best: Option<Best>, other: Best) -> Best
    ensures kept { (IsSomeAnd best (λ b. result ≡ b)) ⊎ (result ≡ other) }
    ensures other { result.bound ≤ℤ other.bound }
    ensures best { IfSome best (λ b. result.bound ≤ℤ b.bound) }
{
    match best {
        Some(old) => { if old.bound < other.bound { old } else { other } }
        None => other,
    }
}

fn sum_of_bounds(premises: &Many<Row>, first: usize, second: usize) -> i128
    requires { All (RowWithin (2 ^ 60)) premises.now }
    ensures { result ≡ (row_at premises.now first).bound +ℤ (row_at premises.now second).bound }
{
    bound_of(premises, first) + bound_of(premises, second)
}

/// The pair of two places, in their order.
fn pair_of(premises: &Many<Row>, place: usize, other: usize) -> Best
    requires premises { All (RowWithin (2 ^ 60)) premises.now }
    requires apart { other ≢ place }
    ensures part { HasPlace place result }
    ensures bound { result.bound ≡ (row_at premises.now place).bound +ℤ (row_at premises.now other).bound }
    ensures sums { (cs : List ℤ) → ((k : ℕ) → number k cs ≡ coefficient k (row_at premises.now place) +ℤ coefficient k (row_at premises.now other))
        → PairSums premises.now cs result }
{
    let bound = sum_of_bounds(premises, place, other);
    if place < other {
        Best {
            first: place,
            second: other,
            bound,
        }
    } else {
        Best {
            first: other,
            second: place,
            bound,
        }
    }
}

/// The lesser of the best pair so far and the best one of which the place is a part. What the place lacks is written
/// to `rest`.
fn with_place(
    premises: &Many<Row>,
    wanted: &Many<i128>,
    sides: &Sides,
    rest: &mut Vec<i128>,
    best: Option<Best>,
    place: usize,
    width: usize,
) -> Result<Option<Best>, Memory>
    requires prepared { IsPrepared premises.now width sides.now }
    requires wanted { All (λ c. unsigned_abs c ≤ 2 ^ 78) wanted.now }
    requires past { (k : ℕ) → width ≤ k → number k wanted.now ≡ pos 0 }
    requires best { IfSome best (PairSums premises.now wanted.now) }
    ensures shown { IfOk result (λ o. IfSome o (PairSums premises.now wanted.now)) }
    ensures no_more { IfOk result (λ o. IfSome best (λ b. IsSomeAnd o (λ c. c.bound ≤ℤ b.bound))) }
    ensures here { IfOk result (λ o. IsLeastAt premises.now wanted.now (length premises.now + 2) o place) }
    ensures part { IfOk result (λ o. IfSome o (λ b. (IsSomeAnd best (λ a. b ≡ a)) ⊎ HasPlace place b)) }
{
    write_rest(rest, premises, wanted, place, width)?;
    match other_of(sides, rest, place) {
        Some(other) => {
            let pair = pair_of(premises, place, other);
            Ok(Some(lesser(best, pair)))
        }
        None => Ok(best),
    }
}

/// A column in which the wanted side is not 0; none where it is 0 within the width.
fn pivot_of(wanted: &Many<i128>, width: usize) -> Option<usize>
    ensures { IfSome result (λ k. number k wanted.now ≢ pos 0) }
{
    for column in 0..width {
        if number_at(wanted, column) != 0 {
            return Some(column);
        }
    }
    None
}

/// Whether the left side at a place has 0 in the column, where there is one.
fn is_aside(premises: &Many<Row>, place: usize, pivot: Option<usize>) -> bool
    ensures { result ≡ true → IsAside premises.now pivot place }
{
    match pivot {
        Some(column) => coefficient_of(premises, place, column) == 0,
        None => false,
    }
}

/// The lesser of the best pair so far and the best one of which the place is a part. A place whose left side has 0 in the column is passed
/// over: of two places with the wanted sum one has not.
fn with_side(
    premises: &Many<Row>,
    wanted: &Many<i128>,
    sides: &Sides,
    rest: &mut Vec<i128>,
    best: Option<Best>,
    place: usize,
    width: usize,
    pivot: Option<usize>,
) -> Result<Option<Best>, Memory>
    requires prepared { IsPrepared premises.now width sides.now }
    requires wanted { All (λ c. unsigned_abs c ≤ 2 ^ 78) wanted.now }
    requires past { (k : ℕ) → width ≤ k → number k wanted.now ≡ pos 0 }
    requires best { IfSome best (PairSums premises.now wanted.now) }
    ensures shown { IfOk result (λ o. IfSome o (PairSums premises.now wanted.now)) }
    ensures no_more { IfOk result (λ o. IfSome best (λ b. IsSomeAnd o (λ c. c.bound ≤ℤ b.bound))) }
    ensures here { IfOk result (λ o. IsPassed premises.now wanted.now (length premises.now + 2) pivot o place) }
{
    if is_aside(premises, place, pivot) {
        return Ok(best);
    }
    with_place(premises, wanted, sides, rest, best, place, width)
}

/// Whether the wanted side is 0 past the width.
fn ends_within(wanted: &Many<i128>, width: usize) -> bool
    ensures { MatchBool result ((k : ℕ) → width ≤ k → number k wanted.now ≡ pos 0) ((k : ℕ) × (width ≤ k) × (number k wanted.now ≢ pos 0)) }
{
    for column in width..wanted.len() {
        let number = number_at(wanted, column);
        if number != 0 {
            return false;
        }
    }
    true
}

/// The least pair for a wanted side that is 0 past the width. One look-up for each left side of the table that is not 0 in a column in which
/// the wanted one is not.
fn least_within(
    alloc: Global,
    premises: &Many<Row>,
    sides: &Sides,
    width: usize,
    wanted: &Many<i128>,
) -> Result<Option<Best>, Memory>
    requires prepared { IsPrepared premises.now width sides.now }
    requires wanted { All (λ c. unsigned_abs c ≤ 2 ^ 78) wanted.now }
    requires past { (k : ℕ) → width ≤ k → number k wanted.now ≡ pos 0 }
    ensures { IfOk result (λ o. IsLeast premises.now wanted.now (length premises.now + 2) o) }
{
    let pivot = pivot_of(wanted, width);
    let mut rest = Vec::new(alloc);
    let mut least: Option<Best> = None;
    for closest in sides.values() {
        least = with_side(
            premises,
            wanted,
            sides,
            &mut rest,
            least,
            closest.first,
            width,
            pivot,
        )?;
    }
    Ok(least)
}

/// The single premise for a wanted side that is 0 past the width, as a pair with the place past the end.
fn alone_within(
    alloc: Global,
    premises: &Many<Row>,
    sides: &Sides,
    width: usize,
    wanted: &Many<i128>,
) -> Result<Option<Best>, Memory>
    requires prepared { IsPrepared premises.now width sides.now }
    requires wanted { All (λ c. unsigned_abs c ≤ 2 ^ 78) wanted.now }
    requires past { (k : ℕ) → width ≤ k → number k wanted.now ≡ pos 0 }
    ensures { IfOk result (IsAlone premises.now wanted.now) }
{
    let mut rest = Vec::new(alloc);
    let alone = with_place(
        premises,
        wanted,
        sides,
        &mut rest,
        None,
        premises.len(),
        width,
    )?;
    Ok(alone)
}

/// The single premise with the wanted left side and the least bound, as a pair with the place past the end. One look-up.
pub fn alone_in(
    alloc: Global,
    premises: &Many<Row>,
    sides: &Sides,
    width: usize,
    wanted: &Many<i128>,
) -> Result<Option<Best>, Memory>
    requires prepared { IsPrepared premises.now width sides.now }
    requires wanted { All (λ c. unsigned_abs c ≤ 2 ^ 78) wanted.now }
    ensures { IfOk result (IsAlone premises.now wanted.now) }
{
    if ends_within(wanted, width) {
        alone_within(alloc, premises, sides, width, wanted)
    } else {
        Ok(None)
    }
}

/// The pair with the least sum of bounds among those whose left sides sum to the wanted one.
pub fn least_in(
    alloc: Global,
    premises: &Many<Row>,
    sides: &Sides,
    width: usize,
    wanted: &Many<i128>,
) -> Result<Option<Best>, Memory>
    requires prepared { IsPrepared premises.now width sides.now }
    requires wanted { All (λ c. unsigned_abs c ≤ 2 ^ 78) wanted.now }
    ensures { IfOk result (λ o. IsLeast premises.now wanted.now (length premises.now + 2) o) }
{
    if ends_within(wanted, width) {
        least_within(alloc, premises, sides, width, wanted)
    } else {
        Ok(None)
    }
}

/// The least pair of which a place below `first` is a part, for a wanted side that is 0 past the width.
fn least_among_within(
    alloc: Global,
    premises: &Many<Row>,
    sides: &Sides,
    width: usize,
    wanted: &Many<i128>,
    first: usize,
) -> Result<Option<Best>, Memory>
    requires prepared { IsPrepared premises.now width sides.now }
    requires wanted { All (λ c. unsigned_abs c ≤ 2 ^ 78) wanted.now }
    requires past { (k : ℕ) → width ≤ k → number k wanted.now ≡ pos 0 }
    ensures { IfOk result (IsLeastAmong premises.now wanted.now (length premises.now + 2) first) }
{
    let mut rest = Vec::new(alloc);
    let mut least: Option<Best> = None;
    for place in 0..first {
        least = with_place(premises, wanted, sides, &mut rest, least, place, width)?;
    }
    Ok(least)
}

/// The least pair of which a place below `first` is a part. One look-up for each such place.
pub fn least_among_in(
    alloc: Global,
    premises: &Many<Row>,
    sides: &Sides,
    width: usize,
    wanted: &Many<i128>,
    first: usize,
) -> Result<Option<Best>, Memory>
    requires prepared { IsPrepared premises.now width sides.now }
    requires wanted { All (λ c. unsigned_abs c ≤ 2 ^ 78) wanted.now }
    ensures { IfOk result (IsLeastAmong premises.now wanted.now (length premises.now + 2) first) }
{
    if ends_within(wanted, width) {
        least_among_within(alloc, premises, sides, width, wanted, first)
    } else {
        Ok(None)
    }
}
