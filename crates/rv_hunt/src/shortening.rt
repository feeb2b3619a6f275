//! Traces made shorter: instants that a trace can do without are taken out.

ghost use Rattle.std.specs.Prelude.{◌≡◌, IfOk};
ghost use Rattle.rv_flat.specs.Steps.{AreValues};
ghost use Rattle.rv_flat.specs.Steps.{memory_kinds as kinds_of_memories, input_kinds as kinds_of_inputs};

use crate::runs::{Turn, taken};
use crate::typed::are_values;
use rv_base::{Many, Memory, Trace, Value};
use rv_flat::Flat;
use rv_step::start;
use rv_types::Kind;
use std::alloc::Global;

/// How often a trace is gone over, from its half down to single instants.
const ROUNDS: u32 = 16;

/// How many times the length of a trace can be halved.
const HALVES: u32 = 32;

/// The number of the instant at which the observer is false where the instants from one number to before another are left out; none where
/// it is at none, an assertion fails, a value leaves the range, or no instants are left to run.
fn without(
    alloc: Global,
    flat: &Flat,
    inputs: &[Kind],
    trace: &Trace,
    from: usize,
    to: usize,
    left: &mut u32,
) -> Result<Option<usize>, Memory>
    requires inputs { inputs.now ≡ kinds_of_inputs flat.now }
    requires starts { AreValues flat.now (kinds_of_memories flat.now) trace.now.starts }
{
    let mut now = start(alloc, flat, &trace.starts)?;
    for number in 0..trace.instants.len() {
        if number < from || to <= number {
            if *left == 0 {
                return Ok(None);
            }
            *left -= 1;
            let given = trace.instants.at(number);
            let Some(turn) = taken(alloc, flat, inputs, &now, given)? else {
                return Ok(None);
            };
            let Turn { next, observer } = turn;
            if !observer {
                return Ok(Some(number));
            }
            now = next;
        }
    }
    Ok(None)
}

/// The instants up to one, but for those from one number to before another.
fn left_out(
    alloc: Global,
    instants: &Many<Many<Value>>,
    from: usize,
    to: usize,
    last: usize,
) -> Result<Many<Many<Value>>, Memory> {
    let mut kept = Many::new(alloc);
    for (number, inputs) in instants.as_slice().iter().enumerate() {
        if number <= last && (number < from || to <= number) {
            kept.push(inputs.clone()?)?;
        }
    }
    Ok(kept)
}

/// A trace without the runs of so many instants that it can do without, from its start on.
fn thinned(
    alloc: Global,
    flat: &Flat,
    inputs: &[Kind],
    trace: Trace,
    size: usize,
    left: &mut u32,
) -> Result<Trace, Memory>
    requires inputs { inputs.now ≡ kinds_of_inputs flat.now }
    requires starts { AreValues flat.now (kinds_of_memories flat.now) trace.starts }
    ensures starts { IfOk result (λ t. t.starts ≡ trace.starts) }
{
    let mut trace = trace;
    let mut from = 0_usize;
    for _try in 0..trace.instants.len() {
        let to = from.saturating_add(size);
        match without(alloc, flat, inputs, &trace, from, to, left)? {
            Some(last) => trace.instants = left_out(alloc, &trace.instants, from, to, last)?,
            None => from = to,
        }
        if trace.instants.len() <= from {
            break;
        }
    }
    Ok(trace)
}

/// A trace gone over once: without what it can do without, its half first, then quarters, down to single instants.
fn gone_over(
    alloc: Global,
    flat: &Flat,
    inputs: &[Kind],
    trace: Trace,
    left: &mut u32,
) -> Result<Trace, Memory>
    requires inputs { inputs.now ≡ kinds_of_inputs flat.now }
    requires starts { AreValues flat.now (kinds_of_memories flat.now) trace.starts }
    ensures starts { IfOk result (λ t. t.starts ≡ trace.starts) }
{
    let mut trace = trace;
    let mut size = trace.instants.len() / 2;
    for _half in 0..HALVES {
        if size == 0 {
            break;
        }
        trace = thinned(alloc, flat, inputs, trace, size, left)?;
        size /= 2;
    }
    Ok(trace)
}

/// A trace without instants that it can do without, where so many instants are run at most; it still ends where the observer is false.
pub fn shortened(
    alloc: Global,
    flat: &Flat,
    memories: &[Kind],
    inputs: &[Kind],
    trace: Trace,
    steps: u32,
) -> Result<Trace, Memory>
    requires memories { memories.now ≡ kinds_of_memories flat.now }
    requires inputs { inputs.now ≡ kinds_of_inputs flat.now }
{
    let mut trace = trace;
    if !are_values(flat, memories, trace.starts.as_slice()) {
        return Ok(trace);
    }
    let mut left = steps;
    for _round in 0..ROUNDS {
        let length = trace.instants.len();
        trace = gone_over(alloc, flat, inputs, trace, &mut left)?;
        if length <= trace.instants.len() || left == 0 {
            break;
        }
    }
    Ok(trace)
}
