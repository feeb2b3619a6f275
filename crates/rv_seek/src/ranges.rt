// The ranges of multipliers as a document writes them.
ghost use Rattle.std.specs.Prelude.{◌<◌, ◌^◌, All, MatchBool};
ghost use Rattle.rv_seek.specs.Pairs.{WeightInRange, IsRising, HasRanges};

use rv_base::{Many, Memory};
use rv_rows::{Multipliers, Row, Weight, number_at};
use std::alloc::Global;

const MOST_DIVISOR: i128 = 1 << 30;

const MOST_WEIGHT: i128 = 1 << 41;

const MOST_WEIGHTS: usize = 256;

fn weight_in_range(weight: &Weight, premises: usize) -> bool
    requires { premises < 2 ^ 32 }
    ensures { MatchBool result (WeightInRange premises weight.now) (¬ (WeightInRange premises weight.now)) }
{
    if weight.by < 1 {
        return false;
    }
    if weight.by > MOST_WEIGHT {
        return false;
    }
    (weight.premise as usize) < premises
}

fn weights_in_range(weights: &Many<Weight>, premises: usize) -> bool
    requires { premises < 2 ^ 32 }
    ensures { MatchBool result (All (WeightInRange premises) weights.now) (¬ (All (WeightInRange premises) weights.now)) }
{
    for weight in weights.as_slice() {
        if !weight_in_range(weight, premises) {
            return false;
        }
    }
    true
}

/// Whether each weight stands on a later premise than the one before it.
fn is_rising(weights: &Many<Weight>) -> bool
    ensures { MatchBool result (IsRising weights.now) (¬ (IsRising weights.now)) }
{
    let mut next: u64 = 0;
    for weight in weights.as_slice() {
        let premise = u64::from(weight.premise);
        if premise < next {
            return false;
        }
        next = premise + 1;
    }
    true
}

/// Whether the multipliers have the ranges.
pub fn has_ranges(multipliers: &Multipliers, premises: usize) -> bool
    requires { premises < 2 ^ 32 }
    ensures { MatchBool result (HasRanges premises multipliers.now) (¬ (HasRanges premises multipliers.now)) }
{
    if multipliers.divisor < 1 {
        return false;
    }
    if multipliers.divisor > MOST_DIVISOR {
        return false;
    }
    if multipliers.weights.len() > MOST_WEIGHTS {
        return false;
    }
    if !weights_in_range(&multipliers.weights, premises) {
        return false;
    }
    is_rising(&multipliers.weights)
}

/// The weights that are not 0, where none is negative.
fn weights_of(
    alloc: Global,
    numbers: &Many<i128>,
    premises: usize,
) -> Result<Option<Many<Weight>>, Memory> {
    let mut weights = Many::new(alloc);
    for place in 0..premises {
        let by = number_at(numbers, place);
        if by < 0 {
            return Ok(None);
        }
        if by != 0 {
            match u32::try_from(place) {
                Ok(premise) => weights.push(Weight { premise, by })?,
                Err(_) => return Ok(None),
            }
        }
    }
    Ok(Some(weights))
}

/// The multipliers with these weights and this divisor, all divided by their greatest common divisor.
pub fn reduced(
    alloc: Global,
    weights: Many<i128>,
    divisor: i128,
) -> Result<Option<Multipliers>, Memory> {
    let premises = weights.len();
    let mut coefficients = weights;
    coefficients.push(divisor)?;
    let mut row = Row {
        coefficients,
        bound: 0,
    };
    row.tighten();
    let divisor = number_at(&row.coefficients, premises);
    match weights_of(alloc, &row.coefficients, premises)? {
        Some(weights) => Ok(Some(Multipliers { divisor, weights })),
        None => Ok(None),
    }
}

/// The multipliers of a refutation with these weights, divided by their greatest common divisor.
pub fn reduced_refutation(
    alloc: Global,
    weights: Many<i128>,
) -> Result<Option<Multipliers>, Memory> {
    match reduced(alloc, weights, 0)? {
        Some(multipliers) => {
            let Multipliers { weights, .. } = multipliers;
            Ok(Some(Multipliers {
                divisor: 1,
                weights,
            }))
        }
        None => Ok(None),
    }
}
