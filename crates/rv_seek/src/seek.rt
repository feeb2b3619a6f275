ghost use Rattle.std.specs.Prelude.{◌≡◌, ◌⊎◌, ◌<◌, ◌≤◌, ◌^◌, [], List, ℤ, negsuc, pos, ◌+ℤ◌, ◌*ℤ◌, ◌≤ℤ◌, All, length};
ghost use Rattle.std.specs.Prelude.{IfSome, IfNone, IsSome, IfOk, IsSomeAnd, Some};
ghost use Rattle.std.specs.Int.RustNames.{unsigned_abs};
ghost use Rattle.rv_rows.specs.Rows.{RowWithin, Holds};
ghost use Rattle.rv_rows.specs.Multipliers.{weighted, Proves, Refutes, ShowsAtOnce, AreShutAtOnce};
ghost use Rattle.rv_rows.specs.Forms.{FormWithin, value};
ghost use Rattle.rv_seek.specs.Least.{PairSums, IsNoLooser, at_most, bounded};
ghost use Rattle.rv_seek.specs.Pairs.{PairShows, HasRanges};

use crate::least::Best;
use crate::pairs::pair_multipliers;
use crate::prepared::Premises;
use crate::ranges::{has_ranges, reduced, reduced_refutation};
use crate::simplex::{Found, Goal, simplex};
use rv_base::{Many, Memory};
use rv_rows::{Form, Multipliers, Row, proves, refutes};
use std::alloc::Global;

const MOST_WANTED: u128 = 1 << 78;

/// What was found, if it is a proof in range.
fn checked(premises: &Many<Row>, wanted: &Row, found: Multipliers) -> Option<Multipliers>
    requires premises { All (RowWithin (2 ^ 60)) premises.now }
    requires wanted { RowWithin (2 ^ 78) wanted.now }
    requires few { length premises.now < 2 ^ 32 }
    ensures proof { IfSome result (λ m. Proves premises.now wanted.now m) }
    ensures ranges { IfSome result (λ m. HasRanges (length premises.now) m) }
    ensures same { IfSome result (λ m. m ≡ found) }
{
    if !has_ranges(&found, premises.len()) {
        return None;
    }
    if !proves(premises, wanted, &found) {
        return None;
    }
    Some(found)
}

/// What was found, if it is a refutation in range.
fn checked_refutation(premises: &Many<Row>, found: Multipliers) -> Option<Multipliers>
    requires premises { All (RowWithin (2 ^ 60)) premises.now }
    requires few { length premises.now < 2 ^ 32 }
    ensures proof { IfSome result (λ m. Refutes premises.now m) }
    ensures ranges { IfSome result (λ m. HasRanges (length premises.now) m) }
{
    if found.divisor != 1 {
        return None;
    }
    if !has_ranges(&found, premises.len()) {
        return None;
    }
    if !refutes(premises, &found) {
        return None;
    }
    Some(found)
}

/// Two places that show `0 <= -1` at once.
fn shut_pair(alloc: Global, premises: &Many<Row>) -> Result<Option<Best>, Memory>
    requires premises { All (RowWithin (2 ^ 60)) premises.now }
    requires few { length premises.now < 2 ^ 32 }
    ensures found { IfOk result (λ o. IfSome o (λ b. (b.first < b.second) × PairShows premises.now (bounded [] (negsuc 0)) b.first b.second)) }
    ensures missing { IfOk result (λ o. IfNone o (¬ (AreShutAtOnce premises.now))) }
{
    let prepared = Premises::new(alloc, premises)?;
    prepared.shut(alloc)
}

/// What the simplex finds for a row.
fn by_simplex(
    alloc: Global,
    premises: &Many<Row>,
    wanted: &Row,
) -> Result<Option<Multipliers>, Memory>
    requires premises { All (RowWithin (2 ^ 60)) premises.now }
    requires wanted { RowWithin (2 ^ 78) wanted.now }
    requires few { length premises.now < 2 ^ 32 }
    ensures proof { IfOk result (λ o. IfSome o (λ m. Proves premises.now wanted.now m)) }
    ensures ranges { IfOk result (λ o. IfSome o (λ m. HasRanges (length premises.now) m)) }
{
    let found = match simplex(
        alloc,
        premises,
        &wanted.coefficients,
        Goal::Below(wanted.bound + 1),
    )? {
        Some(found) => found,
        None => return Ok(None),
    };
    match reduced(alloc, found.weights, found.divisor)? {
        Some(multipliers) => Ok(checked(premises, wanted, multipliers)),
        None => Ok(None),
    }
}

/// What the simplex finds against the premises.
fn refuted_by_simplex(alloc: Global, premises: &Many<Row>) -> Result<Option<Multipliers>, Memory>
    requires premises { All (RowWithin (2 ^ 60)) premises.now }
    requires few { length premises.now < 2 ^ 32 }
    ensures proof { IfOk result (λ o. IfSome o (λ m. Refutes premises.now m)) }
    ensures ranges { IfOk result (λ o. IfSome o (λ m. HasRanges (length premises.now) m)) }
{
    let found = match simplex(alloc, premises, &Many::new(alloc), Goal::Below(0))? {
        Some(found) => found,
        None => return Ok(None),
    };
    match reduced_refutation(alloc, found.weights)? {
        Some(multipliers) => Ok(checked_refutation(premises, multipliers)),
        None => Ok(None),
    }
}

/// Multipliers that prove the row, of premises that were made ready.
pub fn row_by(
    alloc: Global,
    premises: &Many<Row>,
    pairs: &Premises,
    wanted: &Row,
) -> Result<Option<Multipliers>, Memory>
    requires same { pairs.now ≡ premises.now }
    requires premises { All (RowWithin (2 ^ 60)) premises.now }
    requires wanted { RowWithin (2 ^ 78) wanted.now }
    requires few { length premises.now < 2 ^ 32 }
    ensures proof { IfOk result (λ o. IfSome o (λ m. Proves premises.now wanted.now m)) }
    ensures ranges { IfOk result (λ o. IfSome o (λ m. HasRanges (length premises.now) m)) }
    ensures at_once { IfOk result (λ o. ShowsAtOnce premises.now wanted.now → IsSome o) }
{
    match pairs.shown(alloc, wanted)? {
        Some(best) => {
            let multipliers = pair_multipliers(alloc, premises, best.first, best.second)?;
            Ok(Some(multipliers))
        }
        None => {
            let found = by_simplex(alloc, premises, wanted)?;
            Ok(found)
        }
    }
}

/// Multipliers that prove the row from the premises, so that it holds at every whole point of them. They are found
/// wherever none, one or two premises show the row at once; elsewhere None promises nothing. The only error is
/// want of memory.
pub fn seek_row(
    alloc: Global,
    premises: &Many<Row>,
    wanted: &Row,
) -> Result<Option<Multipliers>, Memory>
    requires premises { All (RowWithin (2 ^ 60)) premises.now }
    requires wanted { RowWithin (2 ^ 78) wanted.now }
    requires few { length premises.now < 2 ^ 32 }
    ensures proof { IfOk result (λ o. IfSome o (λ m. Proves premises.now wanted.now m)) }
    ensures ranges { IfOk result (λ o. IfSome o (λ m. HasRanges (length premises.now) m)) }
    ensures at_once { IfOk result (λ o. ShowsAtOnce premises.now wanted.now → IsSome o) }
{
    let pairs = Premises::new(alloc, premises)?;
    row_by(alloc, premises, &pairs, wanted)
}

/// Multipliers that refute the premises, so that no whole point meets them all; their divisor is 1. They are found
/// wherever none, one or two premises are shut at once; elsewhere None promises nothing. The only error is want of
/// memory.
pub fn seek_refutation(alloc: Global, premises: &Many<Row>) -> Result<Option<Multipliers>, Memory>
    requires premises { All (RowWithin (2 ^ 60)) premises.now }
    requires few { length premises.now < 2 ^ 32 }
    ensures proof { IfOk result (λ o. IfSome o (λ m. Refutes premises.now m)) }
    ensures ranges { IfOk result (λ o. IfSome o (λ m. HasRanges (length premises.now) m)) }
    ensures at_once { IfOk result (λ o. AreShutAtOnce premises.now → IsSome o) }
{
    match shut_pair(alloc, premises)? {
        Some(best) => {
            let multipliers = pair_multipliers(alloc, premises, best.first, best.second)?;
            Ok(Some(multipliers))
        }
        None => {
            let found = refuted_by_simplex(alloc, premises)?;
            Ok(found)
        }
    }
}

/// A bound of a form, and the multipliers that prove it.
#[derive(Debug, Drop)]
pub struct Bounded {
    /// What the form is at most, its constant included.
    pub bound: i128,
    /// They prove the row that says so.
    pub by: Multipliers,
}

/// The bound that a pair shows.
fn bounded_by(
    alloc: Global,
    premises: &Many<Row>,
    form: &Form,
    best: Best,
) -> Result<Bounded, Memory>
    requires premises { All (RowWithin (2 ^ 60)) premises.now }
    requires few { length premises.now < 2 ^ 32 }
    requires form { FormWithin (2 ^ 78) form.now }
    requires best { PairSums premises.now form.now.coefficients best }
    ensures proof { IfOk result (λ b. Proves premises.now (at_most form.now b.bound) b.by) }
    ensures ranges { IfOk result (λ b. HasRanges (length premises.now) b.by) }
    ensures bound { IfOk result (λ b. b.bound ≡ best.bound +ℤ form.now.constant) }
    ensures tight { IfOk result (λ b. IsNoLooser premises.now form.now b.bound b.by) }
{
    let by = pair_multipliers(alloc, premises, best.first, best.second)?;
    Ok(Bounded {
        bound: best.bound + form.constant,
        by,
    })
}

/// The least bound that a pair shows, of premises that were made ready.
pub fn bounded_by_pair(
    alloc: Global,
    premises: &Many<Row>,
    pairs: &Premises,
    form: &Form,
) -> Result<Option<Bounded>, Memory>
    requires same { pairs.now ≡ premises.now }
    requires premises { All (RowWithin (2 ^ 60)) premises.now }
    requires form { FormWithin (2 ^ 78) form.now }
    requires few { length premises.now < 2 ^ 32 }
    ensures proof { IfOk result (λ o. IfSome o (λ b. Proves premises.now (at_most form.now b.bound) b.by)) }
    ensures ranges { IfOk result (λ o. IfSome o (λ b. HasRanges (length premises.now) b.by)) }
    ensures tight { IfOk result (λ o. IfSome o (λ b. IsNoLooser premises.now form.now b.bound b.by)) }
    ensures at_once { IfOk result (λ o. (bound : ℤ) → ShowsAtOnce premises.now (at_most form.now bound) → IsSomeAnd o (λ b. b.bound ≤ℤ bound)) }
{
    let least = pairs.least(alloc, &form.coefficients)?;
    match least {
        Some(best) => {
            let bounded = bounded_by(alloc, premises, form, best)?;
            Ok(Some(bounded))
        }
        None => Ok(None),
    }
}

/// The weighted sum of the bounds, where it fits.
fn sum_of(premises: &Many<Row>, multipliers: &Multipliers) -> Option<i128>
    ensures { IfSome result (λ z. z ≡ weighted (λ r. r.bound) premises.now multipliers.now.weights) }
{
    let mut sum: i128 = 0;
    for weight in multipliers.weights.as_slice() {
        let row = premises.get(weight.premise as usize)?;
        let product = weight.by.checked_mul(row.bound)?;
        sum = sum.checked_add(product)?;
    }
    Some(sum)
}

/// The weighted sum of the bounds, divided by the divisor and rounded down, where it fits.
fn floor_of(premises: &Many<Row>, multipliers: &Multipliers) -> Option<i128>
    ensures { IfSome result (λ z. pos 1 ≤ℤ multipliers.now.divisor
        → (multipliers.now.divisor *ℤ z) ≤ℤ weighted (λ r. r.bound) premises.now multipliers.now.weights) }
{
    let sum = sum_of(premises, multipliers)?;
    sum.checked_div_euclid(multipliers.divisor)
}

fn copy(alloc: Global, numbers: &Many<i128>) -> Result<Many<i128>, Memory>
    ensures { IfOk result (λ c. c ≡ numbers.now) }
{
    Ok(Many::from_vec(numbers.as_slice().to_vec(alloc)?))
}

/// What was found, if it proves that the form without its constant is at most `most`, which is no more than the weighted sum
/// of the bounds over the divisor.
fn checked_bound(
    alloc: Global,
    premises: &Many<Row>,
    form: &Form,
    found: Multipliers,
    most: i128,
) -> Result<Option<Bounded>, Memory>
    requires premises { All (RowWithin (2 ^ 60)) premises.now }
    requires few { length premises.now < 2 ^ 32 }
    requires form { FormWithin (2 ^ 78) form.now }
    requires floor { pos 1 ≤ℤ found.divisor → (found.divisor *ℤ most) ≤ℤ weighted (λ r. r.bound) premises.now found.weights }
    ensures proof { IfOk result (λ o. IfSome o (λ b. Proves premises.now (at_most form.now b.bound) b.by)) }
    ensures ranges { IfOk result (λ o. IfSome o (λ b. HasRanges (length premises.now) b.by)) }
    ensures tight { IfOk result (λ o. IfSome o (λ b. IsNoLooser premises.now form.now b.bound b.by)) }
{
    if most.unsigned_abs() > MOST_WANTED {
        return Ok(None);
    }
    let wanted = Row {
        coefficients: copy(alloc, &form.coefficients)?,
        bound: most,
    };
    match checked(premises, &wanted, found) {
        Some(by) => {
            Ok(Some(Bounded {
                bound: most + form.constant,
                by,
            }))
        }
        None => Ok(None),
    }
}

/// The bound that weights prove.
pub fn bounded_from(
    alloc: Global,
    premises: &Many<Row>,
    form: &Form,
    found: Found,
) -> Result<Option<Bounded>, Memory>
    requires premises { All (RowWithin (2 ^ 60)) premises.now }
    requires few { length premises.now < 2 ^ 32 }
    requires form { FormWithin (2 ^ 78) form.now }
    ensures proof { IfOk result (λ o. IfSome o (λ b. Proves premises.now (at_most form.now b.bound) b.by)) }
    ensures ranges { IfOk result (λ o. IfSome o (λ b. HasRanges (length premises.now) b.by)) }
    ensures tight { IfOk result (λ o. IfSome o (λ b. IsNoLooser premises.now form.now b.bound b.by)) }
{
    let multipliers = match reduced(alloc, found.weights, found.divisor)? {
        Some(multipliers) => multipliers,
        None => return Ok(None),
    };
    match floor_of(premises, &multipliers) {
        Some(most) => checked_bound(alloc, premises, form, multipliers, most),
        None => Ok(None),
    }
}

/// The bound that the simplex finds.
pub fn bounded_by_simplex(
    alloc: Global,
    premises: &Many<Row>,
    form: &Form,
) -> Result<Option<Bounded>, Memory>
    requires premises { All (RowWithin (2 ^ 60)) premises.now }
    requires few { length premises.now < 2 ^ 32 }
    requires form { FormWithin (2 ^ 78) form.now }
    ensures proof { IfOk result (λ o. IfSome o (λ b. Proves premises.now (at_most form.now b.bound) b.by)) }
    ensures ranges { IfOk result (λ o. IfSome o (λ b. HasRanges (length premises.now) b.by)) }
    ensures tight { IfOk result (λ o. IfSome o (λ b. IsNoLooser premises.now form.now b.bound b.by)) }
{
    match simplex(alloc, premises, &form.coefficients, Goal::Least)? {
        Some(found) => bounded_from(alloc, premises, form, found),
        None => Ok(None),
    }
}

/// The one with the lesser bound.
pub fn lesser_bound(pair: Option<Bounded>, other: Option<Bounded>) -> Option<Bounded>
    ensures one { (result ≡ pair) ⊎ (result ≡ other) }
    ensures least { IfSome pair (λ p. IsSomeAnd result (λ b. b.bound ≤ℤ p.bound)) }
{
    match pair {
        Some(pair) => lesser_of(pair, other),
        None => other,
    }
}

fn lesser_of(pair: Bounded, other: Option<Bounded>) -> Option<Bounded>
    ensures one { (result ≡ Some pair) ⊎ (result ≡ other) }
    ensures least { IsSomeAnd result (λ b. b.bound ≤ℤ pair.bound) }
{
    match other {
        Some(other) => {
            if other.bound < pair.bound {
                Some(other)
            } else {
                Some(pair)
            }
        }
        None => Some(pair),
    }
}

/// A bound of the form at the whole points of the premises, and the multipliers that prove it. It is found where
/// the form's left side is the sum of the left sides of none, one or two different premises, and is then at most
/// the least such sum of their bounds plus the form's constant; elsewhere None promises nothing. It is the least bound that
/// its multipliers prove: the weighted sum of the premises' bounds over the divisor, rounded down, plus the form's constant.
/// The only error is want of memory.
pub fn seek_bound(
    alloc: Global,
    premises: &Many<Row>,
    form: &Form,
) -> Result<Option<Bounded>, Memory>
    requires premises { All (RowWithin (2 ^ 60)) premises.now }
    requires form { FormWithin (2 ^ 78) form.now }
    requires few { length premises.now < 2 ^ 32 }
    ensures proof { IfOk result (λ o. IfSome o (λ b. Proves premises.now (at_most form.now b.bound) b.by)) }
    ensures ranges { IfOk result (λ o. IfSome o (λ b. HasRanges (length premises.now) b.by)) }
    ensures tight { IfOk result (λ o. IfSome o (λ b. IsNoLooser premises.now form.now b.bound b.by)) }
    ensures at_once { IfOk result (λ o. (bound : ℤ) → ShowsAtOnce premises.now (at_most form.now bound) → IsSomeAnd o (λ b. b.bound ≤ℤ bound)) }
    ensures holds { IfOk result (λ o. IfSome o (λ b. (point : List ℤ) → All (λ r. Holds r point) premises.now → value form.now point ≤ℤ b.bound)) }
{
    let pairs = Premises::new(alloc, premises)?;
    let pair = bounded_by_pair(alloc, premises, &pairs, form)?;
    let other = bounded_by_simplex(alloc, premises, form)?;
    Ok(lesser_bound(pair, other))
}
