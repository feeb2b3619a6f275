//! Which clocks have been there.

ghost use Rattle.std.specs.Prelude.{◌≡◌, ◌+◌, ◌++◌, ℕ, false, length, map, slice_index_or, IfOk, OnOk};
ghost use Rattle.rv_flat.specs.Filling.{ticks_from};
ghost use Rattle.rv_flat.specs.FlatInstants.{tick_clocks};
ghost use Rattle.rv_flat.specs.Lists.{tick_places};

use crate::evaluate::is_flow_on;
use rv_base::{Many, Memory, Value};
use rv_flat::{Bit, Flat, State};
use std::alloc::Global;

/// For the main tick and each other one among the variables: that its clock has not been there.
pub fn no_ticks(alloc: Global, variables: &[Bit]) -> Result<Many<bool>, Memory>
    ensures length { IfOk result (λ ticked. length ticked ≡ 1 + length (tick_places variables.now)) }
    ensures none { IfOk result (λ ticked. (k : ℕ) → slice_index_or ticked k false ≡ false) }
{
    let mut ticked = Many::new(alloc);
    ticked.push(false)?;
    for variable in variables {
        if let Bit::Tick(_) = variable {
            ticked.push(false)?;
        }
    }
    Ok(ticked)
}

/// Whether the clock of the tick with a number had been there.
#[tactic(auto, using(crate::proofs::Reading::read_nothing))]
fn had_ticked(now: &State, number: usize) -> bool
    ensures { result ≡ slice_index_or now.now.ticked number false }
{
    match now.ticked.get(number) {
        Some(tick) => *tick,
        None => false,
    }
}

/// Adds, for each tick with the number of the flow of its clock, whether that clock has been there after an instant.
fn push_ticks(
    flows: &[u32],
    now: &State,
    row: &Many<Option<Value>>,
    ticked: &mut Many<bool>,
) -> Result<(), Memory>
    ensures { OnOk result (ticked.new ≡ ticked.old ++ ticks_from row.now now.now.ticked (length ticked.old) (map (λ k. Some k) flows.now)) }
{
    for flow in flows {
        let tick = had_ticked(now, ticked.len()) || is_flow_on(row, *flow as usize);
        ticked.push(tick)?;
    }
    Ok(())
}

/// For the main tick and each other one, whether its clock has been there after an instant. One flow is looked at for each.
pub fn ticked_after(
    alloc: Global,
    flat: &Flat,
    now: &State,
    row: &Many<Option<Value>>,
) -> Result<Many<bool>, Memory>
    ensures { IfOk result (λ ticked. ticked ≡ ticks_from row.now now.now.ticked 0 (tick_clocks flat.now)) }
{
    let mut ticked = Many::new(alloc);
    ticked.push(true)?;
    push_ticks(flat.tick_flows.as_slice(), now, row, &mut ticked)?;
    Ok(ticked)
}
