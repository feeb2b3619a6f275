//! Writing traces.

ghost use Rattle.std.specs.Prelude.{◌≡◌, ◌++◌, ◌∷◌, [], map, length, codes, string_bytes, IfOk, OnOk};
ghost use Rattle.csv.specs.Records.{fields_of, partial_of};
ghost use Rattle.std.specs.List.{AllByRecursion};
ghost use Rattle.rv_invfile.specs.Csv.{records_of};
ghost use Rattle.rv_invfile.specs.Rules.{IsDocument};
ghost use Rattle.rv_invfile.specs.Told.{IsTold};
ghost use Rattle.rv_invfile.specs.Texts as texts;
ghost use Rattle.rv_invfile.specs.Traces as spec;
ghost use Rattle.rv_invfile.specs.Traces.{Fits, HaveKinds};
ghost use Rattle.rv_invfile.specs.Writes.{Adds, lines};

use crate::traces::dotted;
use crate::writing::{finish, new_writer, put, put_count, put_row};
use csv::{ByteRecord, Writer};
use rv_base::{Many, Memory, Text, Trace, Value};
use rv_flat::{Flat, FlatInput};
use rv_types::Kind;
use std::alloc::{AllocError, Global};
use std::io::Write;

/// The text of a value of this type.
fn text_of(
    alloc: Global,
    labels: &Many<Many<Text>>,
    kind: Kind,
    value: Value,
) -> Result<String, Memory>
    ensures { IfOk result (λ s. string_bytes s ≡ texts.value_text labels.now kind value) }
{
    match value {
        Value::Flag(flag) => {
            let word = if flag { "true" } else { "false" };
            Ok(String::from_str(alloc, word)?)
        }
        Value::Whole(number) => Ok(format!(in alloc; "{number}")?),
        Value::Label(label) => match kind {
            Kind::Labels(number) => label_text(alloc, labels, number, label),
            Kind::Bool | Kind::Int => Ok(String::new(alloc)),
        },
    }
}

/// The text of a label.
fn label_text(
    alloc: Global,
    labels: &Many<Many<Text>>,
    number: u32,
    label: u32,
) -> Result<String, Memory>
    ensures { IfOk result (λ s. string_bytes s ≡ texts.label_at labels.now number label) }
{
    match labels.get(number as usize) {
        Some(names) => match names.get(label as usize) {
            Some(name) => Ok(String::from_str(alloc, name.as_str())?),
            None => Ok(String::new(alloc)),
        },
        None => Ok(String::new(alloc)),
    }
}

/// Writes one record for each memory.
fn write_starts(
    alloc: Global,
    writer: &mut Writer<Vec<u8>>,
    flat: &Flat,
    values: &Many<Value>,
) -> Result<(), Memory>
    requires { length values.now ≡ length flat.now.memories }
    ensures { OnOk result (Adds (⟦<Vec<u8> as Write>⟧.contents) writer.old writer.new (spec.start_records flat.now.labels flat.now.memories values.now)) }
{
    for index in 0..flat.memories.len() {
        let memory = flat.memories.at(index);
        let place = dotted(alloc, &memory.place.sites)?;
        let text = text_of(alloc, &flat.labels, memory.kind, *values.at(index))?;
        put(writer, &[b"start", place.as_bytes(), text.as_bytes()])?;
    }
    Ok(())
}

/// Writes the record with the names of the inputs.
fn write_inputs(
    alloc: Global,
    writer: &mut Writer<Vec<u8>>,
    inputs: &[FlatInput],
) -> Result<(), Memory>
    ensures { OnOk result (Adds (⟦<Vec<u8> as Write>⟧.contents) writer.old writer.new ((codes "inputs" ∷ map (λ i. i.name) inputs.now) ∷ [])) }
{
    let mut row = ByteRecord::new(alloc);
    row.push_field(b"inputs")?;
    add_names(&mut row, inputs)?;
    put_row(writer, &row)
}

/// Adds the names of the inputs.
fn add_names(row: &mut ByteRecord, inputs: &[FlatInput]) -> Result<(), AllocError>
    requires { partial_of row.old ≡ [] }
    ensures { OnOk result (fields_of row.new ≡ fields_of row.old ++ map (λ i. i.name) inputs.now) }
{
    for input in inputs {
        row.push_field(input.name.as_str().as_bytes())?;
    }
    Ok(())
}

/// Writes the record of one instant.
fn write_instant(
    alloc: Global,
    writer: &mut Writer<Vec<u8>>,
    flat: &Flat,
    values: &Many<Value>,
) -> Result<(), Memory>
    requires { length values.now ≡ length flat.now.inputs }
    ensures { OnOk result (Adds (⟦<Vec<u8> as Write>⟧.contents) writer.old writer.new (spec.instant_record flat.now values.now ∷ [])) }
{
    let mut row = ByteRecord::new(alloc);
    row.push_field(b"instant")?;
    add_values(alloc, &mut row, flat, values)?;
    put_row(writer, &row)
}

/// Adds the texts of the values, one for each input.
fn add_values(
    alloc: Global,
    row: &mut ByteRecord,
    flat: &Flat,
    values: &Many<Value>,
) -> Result<(), Memory>
    requires partial { partial_of row.old ≡ [] }
    requires many { length values.now ≡ length flat.now.inputs }
    ensures { OnOk result (fields_of row.new ≡ fields_of row.old ++ spec.value_texts flat.now.labels (spec.input_kinds flat.now) values.now) }
{
    for index in 0..flat.inputs.len() {
        let input = flat.inputs.at(index);
        let text = text_of(alloc, &flat.labels, input.kind, *values.at(index))?;
        row.push_field(text.as_bytes())?;
    }
    Ok(())
}

/// Writes one record for each instant.
fn write_instants(
    alloc: Global,
    writer: &mut Writer<Vec<u8>>,
    flat: &Flat,
    instants: &[Many<Value>],
) -> Result<(), Memory>
    requires { AllByRecursion (HaveKinds flat.now.labels (spec.input_kinds flat.now)) instants.now }
    ensures { OnOk result (Adds (⟦<Vec<u8> as Write>⟧.contents) writer.old writer.new (map (spec.instant_record flat.now) instants.now)) }
{
    for values in instants {
        write_instant(alloc, writer, flat, values)?;
    }
    Ok(())
}

/// Writes what stands before the inputs.
fn write_front(
    alloc: Global,
    writer: &mut Writer<Vec<u8>>,
    flat: &Flat,
    values: &Many<Value>,
) -> Result<(), Memory>
    requires { length values.now ≡ length flat.now.memories }
    ensures { OnOk result (Adds (⟦<Vec<u8> as Write>⟧.contents) writer.old writer.new (spec.front_records flat.now values.now)) }
{
    put(writer, &[b"reaver", b"trace", b"1"])?;
    put(writer, &[b"main", flat.main.as_str().as_bytes()])?;
    put_count(alloc, writer, b"starts", flat.memories.len() as u64)?;
    write_starts(alloc, writer, flat, values)
}

/// Writes what stands from the inputs on.
fn write_back(
    alloc: Global,
    writer: &mut Writer<Vec<u8>>,
    flat: &Flat,
    instants: &[Many<Value>],
) -> Result<(), Memory>
    requires { AllByRecursion (HaveKinds flat.now.labels (spec.input_kinds flat.now)) instants.now }
    ensures { OnOk result (Adds (⟦<Vec<u8> as Write>⟧.contents) writer.old writer.new (spec.back_records flat.now instants.now)) }
{
    write_inputs(alloc, writer, flat.inputs.as_slice())?;
    put_count(alloc, writer, b"instants", instants.len() as u64)?;
    write_instants(alloc, writer, flat, instants)?;
    put(writer, &[b"end"])
}

/// Writes the records of the trace.
fn write_records(
    alloc: Global,
    writer: &mut Writer<Vec<u8>>,
    flat: &Flat,
    trace: &Trace,
) -> Result<(), Memory>
    requires { Fits flat.now trace.now }
    ensures { OnOk result (Adds (⟦<Vec<u8> as Write>⟧.contents) writer.old writer.new (spec.trace_records flat.now trace.now)) }
{
    write_front(alloc, writer, flat, &trace.starts)?;
    write_back(alloc, writer, flat, trace.instants.as_slice())
}

/// The document of a trace that has the counts and ranges of this flat system: the bytes of its records, each a line of fields
/// with commas between them. `flat` is the answer of `flatten` for some source. Fails for want of memory alone.
pub fn write_trace(alloc: Global, flat: &Flat, trace: &Trace) -> Result<Vec<u8>, Memory>
    requires told { IsTold flat.now }
    requires fits { Fits flat.now trace.now }
    // The bytes are the lines of the trace's records.
    ensures text { IfOk result (λ v. v.items ≡ lines (spec.trace_records flat.now trace.now)) }
    // Read as records, they are these again.
    ensures records { IfOk result (λ v. records_of v.items ≡ spec.trace_records flat.now trace.now) }
    // They are the document of the trace.
    ensures document { IfOk result (λ v. IsDocument (spec.trace_rule flat.now) (records_of v.items) trace.now) }
{
    let mut writer = new_writer(alloc);
    write_records(alloc, &mut writer, flat, trace)?;
    finish(writer)
}
