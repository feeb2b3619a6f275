//! Whether multipliers have the ranges of a document.

ghost use Rattle.std.specs.Prelude.{◌↔◌, All, IsTrue};
ghost use Rattle.rv_seek.specs.Pairs.{WeightInRange, IsRising, HasRanges};
ghost use Rattle.rv_proofs.specs.Ranges.{IsRecord};

use rv_base::Many;
use rv_rows::{Multipliers, Weight};

/// The greatest divisor.
const MOST_DIVISOR: i128 = 1 << 30;

/// The greatest weight.
const MOST_WEIGHT: i128 = 1 << 41;

/// How many weights there may be.
const MOST_WEIGHTS: usize = 256;

/// Whether the weight is from 1 to 2^41, and stands on a premise that is there.
fn is_weight(weight: &Weight, premises: usize) -> bool
    ensures { IsTrue result ↔ WeightInRange premises weight.now }
{
    weight.by >= 1 && weight.by <= MOST_WEIGHT && (weight.premise as usize) < premises
}

/// Whether each of the weights is.
fn are_weights(weights: &Many<Weight>, premises: usize) -> bool
    ensures { IsTrue result ↔ All (WeightInRange premises) weights.now }
{
    for weight in weights.as_slice() {
        if !is_weight(weight, premises) {
            return false;
        }
    }
    true
}

/// Whether each weight stands on a later premise than the one before it.
fn are_rising(weights: &Many<Weight>) -> bool
    ensures { IsTrue result ↔ IsRising weights.now }
{
    let mut next: u64 = 0;
    for weight in weights.as_slice() {
        let premise = u64::from(weight.premise);
        if premise < next {
            return false;
        }
        next = premise + 1;
    }
    true
}

/// Whether the divisor, the weights and their premises have the ranges of a document.
fn has_ranges(by: &Multipliers, premises: usize) -> bool
    ensures { IsTrue result ↔ HasRanges premises by.now }
{
    by.divisor >= 1
        && by.divisor <= MOST_DIVISOR
        && by.weights.len() <= MOST_WEIGHTS
        && are_weights(&by.weights, premises)
        && are_rising(&by.weights)
}

/// Whether the multipliers have the ranges of a document, over so many premises.
pub fn is_record(by: &Multipliers, premises: usize) -> bool
    ensures { IsTrue result ↔ IsRecord premises by.now }
{
    has_ranges(by, premises)
}

/// Whether each of the multipliers does.
pub fn are_records(list: &Many<Multipliers>, premises: usize) -> bool
    ensures { IsTrue result ↔ All (IsRecord premises) list.now }
{
    for by in list.as_slice() {
        if !is_record(by, premises) {
            return false;
        }
    }
    true
}
