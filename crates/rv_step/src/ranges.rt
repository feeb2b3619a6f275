//! Integers outside the range, and the least place of one.

ghost use Rattle.std.specs.Prelude.{◌≡◌, length, map};
ghost use Rattle.std.specs.Option.{option_copied};
ghost use Rattle.rv_flat.specs.Earliest.{IsPicked};
ghost use Rattle.rv_step.specs.Ranges as ranges;
ghost use Rattle.rv_flat.specs.Steps.{IsLeastOf};

use crate::least::sooner;
use rv_base::{Many, Place, Value};
use rv_flat::{Flat, FlatFlow, FlatMemory};

/// Whether a value is an integer below -2^63 or above 2^63 - 1.
fn is_grown(value: &Value) -> bool
    ensures { result ≡ ranges.is_grown value.now }
{
    match value {
        Value::Whole(number) => *number < -9_223_372_036_854_775_808
            || 9_223_372_036_854_775_808 <= *number,
        _ => false,
    }
}

/// Whether what the flow with a number has is one.
#[tactic(auto, using(crate::proofs::Reading::read_nothing))]
fn is_grown_flow(row: &Many<Option<Value>>, number: usize) -> bool
    ensures { result ≡ ranges.is_grown_flow row.now number }
{
    match row.get(number) {
        Some(Some(value)) => is_grown(value),
        Some(None) | None => false,
    }
}

/// Whether what the memory with a number takes is one.
#[tactic(auto, using(crate::proofs::Reading::read_nothing))]
fn is_grown_memory(kept: &Many<Value>, number: usize) -> bool
    ensures { result ≡ ranges.is_grown_memory kept.now number }
{
    match kept.get(number) {
        Some(value) => is_grown(value),
        None => false,
    }
}

/// The least place of a flow that has an integer outside the range.
fn grown_flow<'a>(flows: &'a [FlatFlow], row: &Many<Option<Value>>) -> Option<&'a Place>
    ensures { IsLeastOf (IsPicked (ranges.is_grown_flow row.now) (map (λ g. g.place.sites) flows.now) (length flows.now)) (option_copied result) }
{
    let mut least = None;
    for (number, flow) in flows.iter().enumerate() {
        if is_grown_flow(row, number) {
            least = Some(sooner(least, &flow.place));
        }
    }
    least
}

/// The least place of a memory that takes an integer outside the range.
fn grown_memory<'a>(memories: &'a [FlatMemory], kept: &Many<Value>) -> Option<&'a Place>
    ensures { IsLeastOf (IsPicked (ranges.is_grown_memory kept.now) (map (λ m. m.place.sites) memories.now) (length memories.now)) (option_copied result) }
{
    let mut least = None;
    for (number, memory) in memories.iter().enumerate() {
        if is_grown_memory(kept, number) {
            least = Some(sooner(least, &memory.place));
        }
    }
    least
}

/// The least place at which an integer leaves the range, of the flows and of what the memories take.
pub fn grown_place<'a>(
    flat: &'a Flat,
    row: &Many<Option<Value>>,
    kept: &Many<Value>,
) -> Option<&'a Place>
    ensures { IsLeastOf (ranges.IsGrownAt flat.now row.now kept.now) (option_copied result) }
{
    let first = grown_flow(flat.flows.as_slice(), row);
    match grown_memory(flat.memories.as_slice(), kept) {
        Some(place) => Some(sooner(first, place)),
        None => first,
    }
}
