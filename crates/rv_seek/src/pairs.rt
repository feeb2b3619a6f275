// The multipliers of a pair of places.
ghost use Rattle.std.specs.Prelude.{◌≡◌, ◌<◌, ◌^◌, ◌++◌, [], pos, negsuc, length, IfOk, OnOk};
ghost use Rattle.rv_rows.specs.declared.linear.Row.{Row};
ghost use Rattle.rv_rows.specs.Multipliers.{Proves, Refutes};
ghost use Rattle.rv_seek.specs.Least.{bounded};
ghost use Rattle.rv_seek.specs.Pairs.{PairShows, HasRanges, unit_at};

use rv_base::{Many, Memory};
use rv_rows::{Multipliers, Row, Weight};
use std::alloc::Global;

/// Adds the weight 1 on a premise; a place past the end stands for none.
fn push_unit(weights: &mut Many<Weight>, premises: usize, place: usize) -> Result<(), Memory>
    requires { premises < 2 ^ 32 }
    ensures { OnOk result (weights.new ≡ weights.old ++ unit_at premises place) }
{
    if place < premises {
        weights.push(Weight {
            premise: place as u32,
            by: 1,
        })?;
    }
    Ok(())
}

fn unit_weights(
    alloc: Global,
    premises: usize,
    first: usize,
    second: usize,
) -> Result<Many<Weight>, Memory>
    requires { premises < 2 ^ 32 }
    ensures { IfOk result (λ w. w ≡ unit_at premises first ++ unit_at premises second) }
{
    let mut weights = Many::new(alloc);
    push_unit(&mut weights, premises, first)?;
    push_unit(&mut weights, premises, second)?;
    Ok(weights)
}

/// The weight 1 on each of the two places that is a premise, and the divisor 1. They prove each row that the two
/// places show, and refute premises of which the two places show `0 <= -1`. The only error is want of memory.
pub fn pair_multipliers(
    alloc: Global,
    premises: &Many<Row>,
    first: usize,
    second: usize,
) -> Result<Multipliers, Memory>
    requires few { length premises.now < 2 ^ 32 }
    requires order { first < second }
    ensures divisor { IfOk result (λ m. m.divisor ≡ pos 1) }
    ensures weights { IfOk result (λ m. m.weights ≡ unit_at (length premises.now) first ++ unit_at (length premises.now) second) }
    ensures proof { IfOk result (λ m. (r : Row) → PairShows premises.now r first second → Proves premises.now r m) }
    ensures refutation { IfOk result (λ m. PairShows premises.now (bounded [] (negsuc 0)) first second → Refutes premises.now m) }
    ensures ranges { IfOk result (λ m. HasRanges (length premises.now) m) }
{
    let weights = unit_weights(alloc, premises.len(), first, second)?;
    Ok(Multipliers {
        divisor: 1,
        weights,
    })
}
