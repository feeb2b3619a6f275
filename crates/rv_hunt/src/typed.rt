//! Whether values are of given types and within the range of traces.

ghost use Rattle.std.specs.Prelude.{◌≡◌, map, IfOk, IsTrue, slice_index_or};
ghost use Rattle.rv_agreement.specs.Checks.{constant_fits};
ghost use Rattle.rv_flat.specs.Steps.{AreValues, IsInRange, IsState, label_counts};
ghost use Rattle.rv_flat.specs.Steps.{memory_kinds as kinds_of_memories, input_kinds as kinds_of_inputs};

use rv_base::{Many, Memory, Value};
use rv_flat::{Flat, State};
use rv_types::Kind;
use std::alloc::Global;

/// The types of the memories, in order.
pub fn memory_kinds(alloc: Global, flat: &Flat) -> Result<Many<Kind>, Memory>
    ensures { IfOk result (λ kinds. kinds ≡ kinds_of_memories flat.now) }
{
    let mut kinds = Many::new(alloc);
    for memory in flat.memories.as_slice() {
        kinds.push(memory.kind)?;
    }
    Ok(kinds)
}

/// The types of the inputs, in order.
pub fn input_kinds(alloc: Global, flat: &Flat) -> Result<Many<Kind>, Memory>
    ensures { IfOk result (λ kinds. kinds ≡ kinds_of_inputs flat.now) }
{
    let mut kinds = Many::new(alloc);
    for input in flat.inputs.as_slice() {
        kinds.push(input.kind)?;
    }
    Ok(kinds)
}

/// How many labels a declaration has.
pub fn label_count(flat: &Flat, declaration: u32) -> usize
    ensures { result ≡ slice_index_or (label_counts flat.now) declaration 0 }
{
    match flat.labels.get(declaration as usize) {
        Some(labels) => labels.len(),
        None => 0,
    }
}

/// Whether a type has a label with this number.
fn is_label(flat: &Flat, kind: Kind, number: u32) -> bool
    ensures fits { IsTrue result → IsTrue (constant_fits (label_counts flat.now) kind (Value.Label number)) }
{
    match kind {
        Kind::Labels(declaration) => (number as usize) < label_count(flat, declaration),
        _ => false,
    }
}

/// Whether a number is one that a trace may have, from -2^63 to 2^63 - 1.
fn is_within(number: i128) -> bool
    ensures within { IsTrue result → IsInRange (Value.Whole number) }
{
    -9_223_372_036_854_775_808 <= number && number < 9_223_372_036_854_775_808
}

/// Whether a value is of a type and one that a trace may have.
fn is_value(flat: &Flat, kind: Kind, value: Value) -> bool
    ensures fits { IsTrue result → IsTrue (constant_fits (label_counts flat.now) kind value) }
    ensures within { IsTrue result → IsInRange value }
{
    match value {
        Value::Flag(_) => kind == Kind::Bool,
        Value::Label(number) => is_label(flat, kind, number),
        Value::Whole(number) => kind == Kind::Int && is_within(number),
    }
}

/// Whether there is one value of each type, each one that a trace may have.
pub fn are_values(flat: &Flat, kinds: &[Kind], values: &[Value]) -> bool
    ensures values { IsTrue result → AreValues flat.now kinds.now values.now }
{
    if values.len() != kinds.len() {
        return false;
    }
    for (place, kind) in kinds.iter().enumerate() {
        if !is_value(flat, *kind, values[place]) {
            return false;
        }
    }
    true
}

/// Whether a state is one of the flat system, as another one is.
pub fn is_state(flat: &Flat, memories: &[Kind], other: &State, state: &State) -> bool
    requires memories { memories.now ≡ kinds_of_memories flat.now }
    requires other { IsState flat.now other.now }
    ensures state { IsTrue result → IsState flat.now state.now }
{
    state.ticked.len() == other.ticked.len() && are_values(flat, memories, state.kept.as_slice())
}
