//! The multipliers of a pair of premises in a certificate, where each test has a number.

ghost use Rattle.std.specs.Prelude.{◌≡◌, ◌<◌, ◌+◌, ◌^◌, ◌++◌, IfOk, OnOk};
ghost use Rattle.rv_seek.specs.Pairs.{unit_at};
ghost use Rattle.rv_claimed.specs.Placing.{IsPlaced, IsPlacedPair};

use rv_base::{Many, Memory};
use rv_rows::{Multipliers, Weight};
use rv_seek::Best;
use std::alloc::Global;

/// The number that a place has in a certificate, whose premises are the given rows and then one for each of `many` tests: here they are
/// the given rows and then those of the tests that are present.
fn place_of(given: usize, tests: &Many<u32>, many: usize, place: usize) -> usize
    requires few { given + many < 2 ^ 32 }
    ensures { IsPlaced given many tests.now place result }
{
    if place < given {
        return place;
    }
    match tests.get(place - given) {
        Some(test) => given + *test as usize,
        None => given + many,
    }
}

/// Adds the weight 1 on a premise; a place past the end stands for none.
fn push_unit(weights: &mut Many<Weight>, premises: usize, place: usize) -> Result<(), Memory>
    requires { premises < 2 ^ 32 }
    ensures { OnOk result (weights.new ≡ weights.old ++ unit_at premises place) }
{
    if place < premises {
        weights.push(Weight {
            premise: place as u32,
            by: 1,
        })?;
    }
    Ok(())
}

/// The weight 1 on each of two premises; a place past the end stands for none.
fn units(
    alloc: Global,
    premises: usize,
    first: usize,
    second: usize,
) -> Result<Many<Weight>, Memory>
    requires { premises < 2 ^ 32 }
    ensures { IfOk result (λ w. w ≡ unit_at premises first ++ unit_at premises second) }
{
    let mut weights = Many::new(alloc);
    push_unit(&mut weights, premises, first)?;
    push_unit(&mut weights, premises, second)?;
    Ok(weights)
}

/// The multipliers of a pair, by the numbers that its places have in a certificate.
pub fn multipliers_of(
    alloc: Global,
    given: usize,
    tests: &Many<u32>,
    many: usize,
    pair: Best,
) -> Result<Multipliers, Memory>
    requires few { given + many < 2 ^ 32 }
    ensures { IfOk result (IsPlacedPair given many tests.now pair.first pair.second) }
{
    let first = place_of(given, tests, many, pair.first);
    let second = place_of(given, tests, many, pair.second);
    let weights = units(alloc, given + many, first, second)?;
    Ok(Multipliers {
        divisor: 1,
        weights,
    })
}
