//! The start of a flat system, and its steps.

ghost use Rattle.std.specs.Prelude.{◌≡◌, IfOk, IfErr};
ghost use Rattle.std.specs.Option.{option_copied};
ghost use Rattle.rv_flat.specs.Steps.{AreValues, memory_kinds, input_kinds, IsState, IsFlatStart};
ghost use Rattle.rv_step.specs.Stepping.{IsStepped, IsStepFault};

use crate::evaluate::is_flow_on;
use crate::filling::{broken_place, kept_after, none_shown, row_of};
use crate::least::copy_of;
use crate::ranges::grown_place;
use crate::stepped::{StepFault, Stepped};
use crate::ticking::{no_ticks, ticked_after};
use rv_base::{Many, Memory, Place, Value};
use rv_flat::{Flat, State};
use std::alloc::Global;

/// The state in which no clock has ticked and each memory holds its start value: one for each memory, of its type, and as an
/// integer within -2^63 to 2^63 - 1. `Memory` comes where memory runs out.
pub fn start(alloc: Global, flat: &Flat, starts: &Many<Value>) -> Result<State, Memory>
    requires { AreValues flat.now (memory_kinds flat.now) starts.now }
    ensures start { IfOk result (IsFlatStart flat.now starts.now) }
    ensures state { IfOk result (IsState flat.now) }
{
    let ticked = no_ticks(alloc, flat.variables.as_slice())?;
    let kept = Many::from_vec(Vec::from_slice(alloc, starts.as_slice())?);
    Ok(State { ticked, kept })
}

/// The place that is to be told, where there is one.
fn told(place: Option<&Place>) -> Result<Option<Place>, Memory>
    ensures { IfOk result (λ p. p ≡ option_copied place.entry) }
{
    match place {
        Some(place) => Ok(Some(copy_of(place)?)),
        None => Ok(None),
    }
}

/// One instant from a state, with one value for each input of the main node, of its type and within the range. The state in
/// the answer is one again: each memory holds a value of its type within the range. `Outgrown` comes where an integer flow, or
/// what an integer memory takes, leaves the range, with the least place. Time grows with the flat system: what a memory takes
/// is evaluated once.
pub fn step(
    alloc: Global,
    flat: &Flat,
    now: &State,
    input: &Many<Value>,
) -> Result<Stepped, StepFault>
    requires state { IsState flat.now now.now }
    requires inputs { AreValues flat.now (input_kinds flat.now) input.now }
    ensures stepped { IfOk result (IsStepped flat.now now.now input.now) }
    ensures next_state { IfOk result (λ stepped. IsState flat.now stepped.next) }
    ensures fault { IfErr result (IsStepFault flat.now now.now input.now) }
{
    let mut shown = none_shown(alloc, flat)?;
    let values = row_of(alloc, flat, now, input, &mut shown)?;
    let kept = kept_after(alloc, flat, now, input, &values, &mut shown)?;
    if let Some(place) = grown_place(flat, &values, &kept) {
        return Err(StepFault::Outgrown(copy_of(place)?));
    }
    let ticked = ticked_after(alloc, flat, now, &values)?;
    let broken = told(broken_place(flat, now, input, &values, &mut shown))?;
    Ok(Stepped {
        next: State { ticked, kept },
        observer: is_flow_on(&values, flat.observer as usize),
        broken,
        values,
    })
}
