//! The trace that a probe is, from the types of the memories and inputs of a flat system.

ghost use Rattle.std.specs.Prelude.{◌≡◌, map, length, IfOk};
ghost use Rattle.rv_flat.specs.Steps.{input_kinds, memory_kinds};
ghost use Rattle.rv_probe.specs.Probes.{probe_of, probe_value};
ghost use Rattle.rv_probe.specs.Probes.{has_value as type_has_value, have_values as types_have_values};
ghost use Rattle.rv_probe.specs.Probes.{memories_have_values as memory_types_have_values, inputs_have_values as input_types_have_values};

use rv_base::{Many, Memory, Text, Trace, Value};
use rv_flat::Flat;
use rv_types::Kind;
use std::alloc::Global;

/// How many instants a probe has.
const INSTANTS: u32 = 16;

/// Whether a type has a value: an enumeration has where it has a label.
fn has_value(labels: &Many<Many<Text>>, kind: Kind) -> bool
    ensures { result ≡ type_has_value (map (λ ls. length ls) labels.now) kind }
{
    match kind {
        Kind::Bool => true,
        Kind::Int => true,
        Kind::Labels(number) => match labels.get(number as usize) {
            Some(names) => names.len() > 0,
            None => false,
        },
    }
}

/// Whether the type of each memory has a value.
fn memories_have_values(flat: &Flat) -> bool
    ensures { result ≡ memory_types_have_values flat.now }
{
    let labels = &flat.labels;
    let memories = flat.memories.as_slice();
    memories.iter().all(|memory| has_value(labels, memory.kind))
}

/// Whether the type of each input has a value.
fn inputs_have_values(flat: &Flat) -> bool
    ensures { result ≡ input_types_have_values flat.now }
{
    let labels = &flat.labels;
    let inputs = flat.inputs.as_slice();
    inputs.iter().all(|input| has_value(labels, input.kind))
}

/// Whether the type of each memory and input has a value. A flat system with one that has none has no trace.
pub fn have_values(flat: &Flat) -> bool
    ensures { result ≡ types_have_values flat.now }
{
    memories_have_values(flat) && inputs_have_values(flat)
}

/// The value that a probe has of a type.
fn value_of(kind: Kind, truth: bool, number: i128) -> Value
    ensures { result ≡ probe_value truth number kind }
{
    match kind {
        Kind::Bool => Value::Flag(truth),
        Kind::Int => Value::Whole(number),
        Kind::Labels(_) => Value::Label(0),
    }
}

/// What a probe has at the memories.
fn start_values(
    alloc: Global,
    flat: &Flat,
    truth: bool,
    number: i128,
) -> Result<Many<Value>, Memory>
    ensures { IfOk result (λ values. values ≡ map (probe_value truth number) (memory_kinds flat.now)) }
{
    let mut values = Many::new(alloc);
    for memory in flat.memories.as_slice() {
        values.push(value_of(memory.kind, truth, number))?;
    }
    Ok(values)
}

/// What it has at the inputs, at each instant.
fn input_values(
    alloc: Global,
    flat: &Flat,
    truth: bool,
    number: i128,
) -> Result<Many<Value>, Memory>
    ensures { IfOk result (λ values. values ≡ map (probe_value truth number) (input_kinds flat.now)) }
{
    let mut values = Many::new(alloc);
    for input in flat.inputs.as_slice() {
        values.push(value_of(input.kind, truth, number))?;
    }
    Ok(values)
}

/// The probe of a truth value and a number: 16 instants in which each Boolean start value and input is the truth value, each
/// integer one the number, and each other one the first label of its type.
pub fn probe_trace(alloc: Global, flat: &Flat, truth: bool, number: i128) -> Result<Trace, Memory>
    ensures { IfOk result (λ t. t ≡ probe_of flat.now truth number) }
{
    let starts = start_values(alloc, flat, truth, number)?;
    let mut instants = Many::new(alloc);
    for _instant in 0..INSTANTS {
        instants.push(input_values(alloc, flat, truth, number)?)?;
    }
    Ok(Trace { starts, instants })
}
