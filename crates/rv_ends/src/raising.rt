//! How far a limit rises by a bound that depends on the valuation.

ghost use Rattle.std.specs.Prelude.{◌≡◌, ◌*◌, ◌<◌, ◌≤◌, ◌+ℤ◌, ◌^◌, true, IfOk, IsErrOf, MatchBool};
ghost use Rattle.std.specs.Int.RustNames.{unsigned_abs};
ghost use Rattle.rv_diagram.specs.Nodes.{Valuation, IsRef, value_of};
ghost use Rattle.rv_diagram.specs.Growing.{Extends};
ghost use Rattle.rv_ends.specs.Sides.{IsSide};
ghost use Rattle.rv_ends.specs.Risen.{IsRisen, EndsWithin, PartWithin};

use crate::sides::Side;
use crate::thresholds::least_above;
use rv_base::Many;
use rv_diagram::{Ref, Store, StoreFault};
use rv_terms::Part;

/// Whether the references have a common valuation, with what was built of it.
fn meets(store: &mut Store, one: Ref, other: Ref) -> Result<bool, StoreFault>
    requires one { IsRef store.old.nodes one }
    requires other { IsRef store.old.nodes other }
    ensures extends { Extends store.old store.new }
    ensures roomy { IsErrOf result StoreFault.Nodes → store.old.limit < 2 ^ (2 ^ store.old.variables) }
    ensures exact { IfOk result (λ yes. MatchBool yes
        ((v : Valuation) × (value_of store.old.nodes one v ≡ true) × (value_of store.old.nodes other v ≡ true))
        ((v : Valuation) → value_of store.old.nodes one v ≡ true → value_of store.old.nodes other v ≡ true → ⊥)) }
{
    let both = store.and(one, other)?;
    let _count = store.mark();
    Ok(!store.is_false(both))
}

/// The sum of two numbers, which fits where neither is large.
fn shifted(number: i128, by: i128) -> i128
    ensures { unsigned_abs number ≤ 128 * 2 ^ 101 → unsigned_abs by ≤ 2 ^ 50 → result ≡ number +ℤ by }
{
    number.wrapping_add(by)
}

/// The limit, risen by the constant of one part of a term and the number, where that part holds and the reference is true.
fn risen_part(
    store: &mut Store,
    inside: Ref,
    part: &Part,
    number: i128,
    thresholds: &Many<i128>,
    limit: Option<i128>,
) -> Result<Option<i128>, StoreFault>
    requires inside { IsRef store.old.nodes inside }
    requires under { IsRef store.old.nodes part.now.under }
    requires small { (v : Valuation) → value_of store.old.nodes part.now.under v ≡ true → unsigned_abs part.now.form.constant ≤ 128 * 2 ^ 101 }
    requires number { unsigned_abs number ≤ 2 ^ 50 }
    ensures extends { Extends store.old store.new }
    ensures roomy { IsErrOf result StoreFault.Nodes → store.old.limit < 2 ^ (2 ^ store.old.variables) }
    ensures risen { IfOk result (IsRisen thresholds.now (PartWithin store.old.nodes inside part.now number) limit) }
{
    let Some(bound) = limit else {
        return Ok(None);
    };
    let value = shifted(part.form.constant, number);
    if value <= bound {
        return Ok(limit);
    }
    if meets(store, inside, part.under)? {
        return Ok(least_above(thresholds, value));
    }
    Ok(limit)
}

/// The limit, risen by the end of a side and a number where the reference is true: it stays where their sum is at most it there, rises to the
/// least threshold that is not below that sum there, and goes where there is none. Where the side has no bound its end still counts, so ask first
/// that it has one where the reference is true. Nodes comes where the store has no room for what is built, never where its limit holds every
/// function of its variables, and Memory where there is none; what was built is left, after a fault too.
pub fn risen_to(
    store: &mut Store,
    inside: Ref,
    side: &Side,
    number: i128,
    thresholds: &Many<i128>,
    limit: Option<i128>,
) -> Result<Option<i128>, StoreFault>
    requires inside { IsRef store.old.nodes inside }
    requires side { IsSide store.old.nodes (128 * 2 ^ 101) side.now }
    requires number { unsigned_abs number ≤ 2 ^ 50 }
    ensures extends { Extends store.old store.new }
    ensures roomy { IsErrOf result StoreFault.Nodes → store.old.limit < 2 ^ (2 ^ store.old.variables) }
    ensures risen { IfOk result (IsRisen thresholds.now (EndsWithin store.old.nodes inside side.now.end.parts number) limit) }
{
    let mut held = limit;
    for place in 0..side.end.parts.len() {
        let part = side.end.parts.at(place);
        held = risen_part(store, inside, part, number, thresholds, held)?;
    }
    Ok(held)
}
