//! Greatest values over the narrowed boxes of all valuations.

ghost use Rattle.std.specs.Prelude.{◌≡◌, ℕ, ◌+◌, ◌*◌, ◌<◌, ◌≤◌, ◌^◌, pos, length, All, Some, IfOk, IsErrOf};
ghost use Rattle.std.specs.Int.RustNames.{unsigned_abs};
ghost use Rattle.rv_diagram.specs.Nodes.{Valuation};
ghost use Rattle.rv_diagram.specs.Growing.{Extends};
ghost use Rattle.rv_ends.specs.Intervals.{HasPoint, IsPeak};
ghost use Rattle.rv_ends.specs.Sides.{side_at, interval_of, box_at, IsSide, AreEnds};
ghost use Rattle.rv_ends.specs.Tops.{bound_times, bounds_sum, top_of, end_toward};

use crate::ends::Ends;
use crate::sides::{Side, number_term};
use crate::thresholds::is_below;
use rv_base::{Many, Memory};
use rv_diagram::{Store, StoreFault};
use rv_terms::{scale, sum};
use std::alloc::Global;

/// The bound 0 at every valuation: the greatest value of a sum of no columns.
fn nothing(alloc: Global, store: &Store) -> Result<Side, Memory>
    ensures side { IfOk result (IsSide store.now.nodes 0) }
    ensures zero { IfOk result (λ g. (v : Valuation) → side_at store.now.nodes g v ≡ Some (pos 0)) }
{
    let end = number_term(alloc, 0)?;
    let there = store.constant(true);
    Ok(Side { there, end })
}

/// The magnitude of a number.
fn magnitude(number: i128) -> i128
    requires { unsigned_abs number ≤ 2 ^ 41 }
    ensures { result ≡ pos (unsigned_abs number) }
{
    if number < 0 { -number } else { number }
}

/// The end of a column towards which its multiple by a number grows.
fn toward(ends: &Ends, number: i128) -> &Side
    ensures { result.now ≡ end_toward number ends.now }
{
    if is_below(number, 0) {
        &ends.low
    } else {
        &ends.high
    }
}

/// The sum of a side's bounds and a multiple of another's, with what was built of it.
fn plus_times(
    alloc: Global,
    store: &mut Store,
    so_far: &Side,
    by: i128,
    side: &Side,
) -> Result<Side, StoreFault>
    requires by { unsigned_abs by ≤ 2 ^ 41 }
    requires so_far { (n : ℕ) × (n < 128) × IsSide store.old.nodes (n * 2 ^ 101) so_far.now }
    requires side { IsSide store.old.nodes (2 ^ 60) side.now }
    ensures extends { Extends store.old store.new }
    ensures roomy { IsErrOf result StoreFault.Nodes → store.old.limit < 2 ^ (2 ^ store.old.variables) }
    ensures side { (n : ℕ) → IsSide store.old.nodes (n * 2 ^ 101) so_far.now → IfOk result (IsSide store.new.nodes ((n + 1) * 2 ^ 101)) }
    ensures exact { IfOk result (λ g. (v : Valuation) → side_at store.new.nodes g v
        ≡ bounds_sum (side_at store.old.nodes so_far.now v) (bound_times by (side_at store.old.nodes side.now v))) }
{
    let part = scale(alloc, store, by, &side.end)?;
    let end = sum(alloc, store, &so_far.end, &part)?;
    let there = store.and(so_far.there, side.there)?;
    Ok(Side { there, end })
}

/// The greatest value with one more column, times a number.
fn with_column(
    alloc: Global,
    store: &mut Store,
    so_far: Side,
    ends: &Ends,
    number: i128,
) -> Result<Side, StoreFault>
    requires number { unsigned_abs number ≤ 2 ^ 41 }
    requires so_far { (n : ℕ) × (n < 128) × IsSide store.old.nodes (n * 2 ^ 101) so_far }
    requires high { IsSide store.old.nodes (2 ^ 60) ends.now.high }
    requires low { IsSide store.old.nodes (2 ^ 60) ends.now.low }
    ensures extends { Extends store.old store.new }
    ensures roomy { IsErrOf result StoreFault.Nodes → store.old.limit < 2 ^ (2 ^ store.old.variables) }
    ensures side { (n : ℕ) → IsSide store.old.nodes (n * 2 ^ 101) so_far → IfOk result (IsSide store.new.nodes ((n + 1) * 2 ^ 101)) }
    ensures exact { IfOk result (λ g. (v : Valuation) → side_at store.new.nodes g v
        ≡ bounds_sum (side_at store.old.nodes so_far v) (top_of number (interval_of store.old.nodes v ends.now))) }
{
    if number == 0 {
        return Ok(so_far);
    }
    let by = magnitude(number);
    let side = toward(ends, number);
    plus_times(alloc, store, &so_far, by, side)
}

/// The greatest value of the sum of the columns times the numbers over the box of each valuation, where that is not empty: a bound where there is
/// a greatest value, and none where there is none. Nodes comes where the store has no room for what is built, never where its limit holds every
/// function of its variables, and Memory where there is none; what was built is left, after a fault too.
pub fn greatest(
    alloc: Global,
    store: &mut Store,
    ends: &Many<Ends>,
    numbers: &Many<i128>,
) -> Result<Side, StoreFault>
    requires ends { AreEnds store.old.nodes (length ends.now) ends.now }
    requires few { length ends.now ≤ 128 }
    requires width { length numbers.now ≤ length ends.now }
    requires sizes { All (λ c. unsigned_abs c ≤ 2 ^ 41) numbers.now }
    ensures extends { Extends store.old store.new }
    ensures roomy { IsErrOf result StoreFault.Nodes → store.old.limit < 2 ^ (2 ^ store.old.variables) }
    ensures side { IfOk result (IsSide store.new.nodes (128 * 2 ^ 101)) }
    ensures peak { IfOk result (λ g. (v : Valuation) → HasPoint (box_at store.old.nodes ends.now v)
        → IsPeak (box_at store.old.nodes ends.now v) numbers.now (side_at store.new.nodes g v)) }
{
    let mut top = nothing(alloc, store)?;
    for column in 0..numbers.len() {
        top = with_column(alloc, store, top, ends.at(column), *numbers.at(column))?;
    }
    Ok(top)
}
