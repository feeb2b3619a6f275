//! Multipliers with one weight or two.

ghost use Rattle.std.specs.Prelude.{◌≡◌, ◌<◌, ◌≤◌, ◌^◌, ℕ, List, ℤ, pos, ◌+ℤ◌, ◌*ℤ◌, [], ◌∷◌, IfOk};
ghost use Rattle.rv_seek.specs.Pairs.{HasRanges, WeightInRange};
ghost use Rattle.rv_accel.specs.Shown.{IsPairOf};

use rv_base::{Many, Memory};
use rv_rows::{Multipliers, Weight};
use std::alloc::Global;

/// The multipliers with these two weights, whose premises rise.
fn in_order(alloc: Global, first: Weight, second: Weight) -> Result<Multipliers, Memory>
    ensures sums { IfOk result (IsPairOf first second) }
    ensures ranges { (n : ℕ) → first.premise < second.premise → WeightInRange n first → WeightInRange n second → IfOk result (HasRanges n) }
{
    let mut weights = Many::new(alloc);
    weights.push(first)?;
    weights.push(second)?;
    Ok(Multipliers {
        divisor: 1,
        weights,
    })
}

/// The multipliers with two weights, on different premises.
pub fn two_weights(alloc: Global, first: Weight, second: Weight) -> Result<Multipliers, Memory>
    ensures sums { IfOk result (IsPairOf first second) }
    ensures ranges { (n : ℕ) → (first.premise ≡ second.premise → ⊥) → WeightInRange n first → WeightInRange n second → IfOk result (HasRanges n) }
{
    if first.premise < second.premise {
        return in_order(alloc, first, second);
    }
    in_order(alloc, second, first)
}

/// The multipliers with the weight 1 on one premise.
pub fn one_weight(alloc: Global, premise: u32) -> Result<Multipliers, Memory>
    ensures { IfOk result (λ m. (m.divisor ≡ pos 1) × (m.weights ≡ record { premise = premise; by = pos 1 } ∷ [])) }
{
    let mut weights = Many::new(alloc);
    weights.push(Weight { premise, by: 1 })?;
    Ok(Multipliers {
        divisor: 1,
        weights,
    })
}

/// The multipliers without a weight.
pub fn no_weights(alloc: Global) -> Result<Multipliers, Memory>
    ensures { IfOk result (λ m. (m.divisor ≡ pos 1) × (m.weights ≡ [])) }
{
    Ok(Multipliers {
        divisor: 1,
        weights: Many::new(alloc),
    })
}
