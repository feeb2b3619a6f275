//! Locations of a certificate without loops.

ghost use Rattle.std.specs.Prelude.{◌≡◌, ◌<◌, ◌^◌, ℕ, Some, IfOk, length, slice_get};
ghost use Rattle.rv_proofs.specs.Samples.{by_one};
ghost use Rattle.rv_boxes.specs.Certifying.{IsLocationOf};

use crate::copies::copy_rows;
use rv_base::{Many, Memory};
use rv_diagram::Frozen;
use rv_proofs::{Entry, Location};
use rv_rows::{Multipliers, Row, Weight};
use std::alloc::Global;

/// The weight 1 on one premise.
fn one_of(alloc: Global, premise: u32) -> Result<Multipliers, Memory>
    ensures { IfOk result (λ m. m ≡ by_one premise) }
{
    let mut weights = Many::new(alloc);
    weights.push(Weight { premise, by: 1 })?;
    Ok(Multipliers {
        divisor: 1,
        weights,
    })
}

/// For each row the weight 1 on the row with the same number.
fn ones_of(alloc: Global, many: usize) -> Result<Many<Multipliers>, Memory>
    requires { many < 2 ^ 32 }
    ensures size { IfOk result (λ ms. length ms ≡ many) }
    ensures each { IfOk result (λ ms. (n : ℕ) → n < many → slice_get ms n ≡ Some (by_one n)) }
{
    let mut list = Many::new(alloc);
    for place in 0..many {
        let one = one_of(alloc, place as u32)?;
        list.push(one)?;
    }
    Ok(list)
}

/// The location with these control states, rows and entries, which is entered by its rows and has no loop. The only error is want of memory.
pub fn location(
    alloc: Global,
    control: Frozen,
    rows: Many<Row>,
    entries: Many<Entry>,
) -> Result<Location, Memory>
    requires { length rows < 2 ^ 32 }
    ensures { IfOk result (IsLocationOf control rows entries) }
{
    let state = copy_rows(alloc, &rows)?;
    let by_entry = ones_of(alloc, rows.len())?;
    Ok(Location {
        control,
        entry: rows,
        first: Many::new(alloc),
        around: Many::new(alloc),
        state,
        by_entry,
        by_first: Many::new(alloc),
        entries,
    })
}
