//! Reading traces.

ghost use Rattle.std.specs.Prelude.{◌≡◌, ◌<◌, ◌≤◌, ◌-◌, ◌+◌, length, IfOk, IfErr, string_bytes};
ghost use Rattle.rv_invfile.specs.Readers.{Reads, Gives, in_file, run, closing, whole};
ghost use Rattle.rv_invfile.specs.Csv.{records_of};
ghost use Rattle.rv_invfile.specs.Rules.{IsDocument};
ghost use Rattle.rv_invfile.specs.Tells.{Finds, Explains, Refuses};
ghost use Rattle.rv_invfile.specs.Faults.{IsFirstFault};
ghost use Rattle.rv_invfile.specs.declared.fault.FileFault.{FileFault as FaultModel};
ghost use Rattle.rv_base.specs.declared.value.Trace.{Trace as TraceModel};
ghost use Rattle.rv_invfile.specs.Parts.{each, times};
ghost use Rattle.rv_invfile.specs.Told.{IsTold};
ghost use Rattle.rv_invfile.specs.Writes.{lines};
ghost use Rattle.rv_invfile.specs.Ahead.{here, ReadsFields};
ghost use Rattle.std.specs.Str.{bytes_eq};
ghost use Rattle.rv_invfile.specs.Traces as spec;
ghost use Rattle.rv_invfile.specs.Traces.{Fits};
ghost use Rattle.rv_invfile.specs.Texts as texts;

use crate::fault::{Fault, FileFault};
use crate::records::Records;
use crate::singles::{read_count, read_exactly, read_inputs, read_name};
use crate::values::value_of;
use rv_base::{Many, Sites, Text, Trace, Value};
use rv_flat::{Flat, FlatMemory};
use std::alloc::{AllocError, Global};

/// The start value of a memory.
pub fn read_start(
    alloc: Global,
    records: &mut Records<'_>,
    labels: &Many<Many<Text>>,
    memory: &FlatMemory,
) -> Result<Value, FileFault>
    requires { texts.all_few labels.now }
    ensures { Reads (λ v. v) (run (spec.start labels.now memory.now) records.old) result records.new }
{
    records.expect(b"start", 3)?;
    let place = dotted(alloc, &memory.place.sites)?;
    if !is_text(records.field(1), &place) {
        return Err(FileFault::WrongProgram(records.number()));
    }
    let Some(value) = value_of(labels, memory.kind, records.field(2)) else {
        return Err(FileFault::BadNumber(records.number(), 2));
    };
    records.advance()?;
    Ok(value)
}

/// Whether a field is this text.
fn is_text(field: &[u8], text: &String) -> bool
    ensures { result ≡ bytes_eq field.now (string_bytes text.now) }
{
    field == text.as_bytes()
}

/// The sites of a place, joined by points.
pub fn dotted(alloc: Global, sites: &Sites) -> Result<String, AllocError>
    ensures { IfOk result (λ text. string_bytes text ≡ texts.dotted sites.now) }
{
    let mut text = String::new(alloc);
    let Some(last) = sites.last() else {
        return Ok(text);
    };
    for site in sites.front() {
        write!(text, "{site}.")?;
    }
    write!(text, "{last}")?;
    Ok(text)
}

/// One start value for each memory, in order.
fn read_starts(
    alloc: Global,
    records: &mut Records<'_>,
    labels: &Many<Many<Text>>,
    memories: &[FlatMemory],
) -> Result<Many<Value>, FileFault>
    requires { texts.all_few labels.now }
    ensures { Reads (λ v. v) (run (each (spec.start labels.now) memories.now) records.old) result records.new }
{
    let mut values = Many::new(alloc);
    for memory in memories {
        values.push(read_start(alloc, records, labels, memory)?)?;
    }
    Ok(values)
}

/// One value for each input.
fn read_instant(
    alloc: Global,
    records: &mut Records<'_>,
    flat: &Flat,
) -> Result<Many<Value>, FileFault>
    requires { IsTold flat.now }
    ensures { Reads (λ v. v) (run (spec.instant flat.now) records.old) result records.new }
{
    records.expect(b"instant", flat.inputs.len() + 1)?;
    let values = read_values(alloc, records, flat)?;
    records.advance()?;
    Ok(values)
}

/// The values of the record that stands here, or the first field that is none.
fn read_values(alloc: Global, records: &Records<'_>, flat: &Flat) -> Result<Many<Value>, FileFault>
    requires told { IsTold flat.now }
    requires many { length (here records.now) ≡ length flat.now.inputs + 1 }
    ensures { ReadsFields records.now (spec.given flat.now) (spec.read_values flat.now.labels (spec.input_kinds flat.now) (spec.tail_of (here records.now)))
        result }
{
    let mut values = Many::new(alloc);
    for index in 0..flat.inputs.len() {
        let kind = flat.inputs.at(index).kind;
        let Some(value) = value_of(&flat.labels, kind, records.field(index + 1)) else {
            return Err(FileFault::BadNumber(records.number(), index as u32 + 1));
        };
        values.push(value)?;
    }
    Ok(values)
}

/// One record for each instant.
fn read_instants(
    alloc: Global,
    records: &mut Records<'_>,
    flat: &Flat,
    count: u64,
) -> Result<Many<Many<Value>>, FileFault>
    requires { IsTold flat.now }
    ensures { Reads (λ v. v) (run (times count (spec.instant flat.now)) records.old) result records.new }
{
    let mut instants = Many::new(alloc);
    for done in 0..count {
        instants.push(read_instant(alloc, records, flat)?)?;
    }
    Ok(instants)
}

/// What stands from the inputs on.
fn read_end(
    alloc: Global,
    records: &mut Records<'_>,
    flat: &Flat,
    starts: Many<Value>,
) -> Result<Trace, FileFault>
    requires { IsTold flat.now }
    ensures { Reads (λ t. t) (run (spec.trace_end flat.now starts) records.old) result records.new }
{
    read_inputs(records, b"inputs", flat.inputs.as_slice())?;
    let count = read_count(records, b"instants", 0, 4_294_967_295)?;
    let instants = read_instants(alloc, records, flat, count)?;
    read_exactly(records, &[b"end"])?;
    Ok(Trace { starts, instants })
}

/// The whole of a trace.
fn read_all(alloc: Global, records: &mut Records<'_>, flat: &Flat) -> Result<Trace, FileFault>
    requires { IsTold flat.now }
    ensures { Reads (λ t. t) (run (spec.trace_rule flat.now) records.old) result records.new }
{
    read_exactly(records, &[b"reaver", b"trace", b"1"])?;
    read_name(records, b"main", flat.main.as_str().as_bytes())?;
    let count = flat.memories.len() as u64;
    read_count(records, b"starts", count, count)?;
    let starts = read_starts(alloc, records, &flat.labels, flat.memories.as_slice())?;
    read_end(alloc, records, flat, starts)
}

/// Nothing may follow: else the record that stands here is at fault, for a byte outside 32 to 126 or as one that is not awaited.
pub fn expect_nothing(records: &Records<'_>) -> Result<(), Fault>
    ensures { in_file result ≡ closing tt records.now }
{
    if !records.has_record() {
        Ok(())
    } else if records.is_plain() {
        Err(Fault::WrongKind(records.number()))
    } else {
        Err(Fault::NotRecords(records.number()))
    }
}

/// What the records of the bytes are.
fn read_whole(alloc: Global, flat: &Flat, bytes: &[u8]) -> Result<Trace, FileFault>
    requires told { IsTold flat.now }
    requires short { length bytes.now ≤ 67108864 }
    ensures { Gives (whole (spec.trace_rule flat.now) (records_of bytes.now)) result }
{
    let mut records = Records::new(alloc, bytes)?;
    let trace = read_all(alloc, &mut records, flat)?;
    expect_nothing(&records)?;
    Ok(trace)
}

/// Reads the records of the bytes as a trace of this flat system: for each memory a start value, and for each instant a value
/// of each input. `flat` is the answer of `flatten` for some source. `Ok` exactly where the records are the document of a trace.
/// Otherwise the fault of the first record that is not awaited after those before it: `NotRecords` for a byte outside 32 to
/// 126, else `WrongKind` for another kind of record, else `WrongProgram` for a name or place that is not that of the flat
/// system, else `BadNumber` with the first field that is no number in its range and no value of its type; `Ends` where more
/// records are awaited. `Memory` comes where memory runs out.
pub fn read_trace(alloc: Global, flat: &Flat, bytes: &[u8]) -> Result<Trace, FileFault>
    requires told { IsTold flat.now }
    requires short { length bytes.now ≤ 67108864 }
    // What is read is written so, and fits.
    ensures found { IfOk result (λ t. Fits flat.now t × (records_of bytes.now ≡ spec.trace_records flat.now t)) }
    // What is read is a document with this value.
    ensures document { IfOk result (λ t. IsDocument (spec.trace_rule flat.now) (records_of bytes.now) t) }
    // What is written so for a trace that fits is read as it, unless memory runs out.
    ensures written { (t : TraceModel) → Fits flat.now t → records_of bytes.now ≡ spec.trace_records flat.now t → Finds t result }
    // The lines of a trace that fits are read as it, unless memory runs out.
    ensures back { (t : TraceModel) → Fits flat.now t → bytes.now ≡ lines (spec.trace_records flat.now t) → Finds t result }
    // A document is read, unless memory runs out.
    ensures only { (t : TraceModel) → IsDocument (spec.trace_rule flat.now) (records_of bytes.now) t → Finds t result }
    // A fault is the first one.
    ensures refused { IfErr result (λ e. Explains (spec.trace_rule flat.now) (records_of bytes.now) e) }
    // The first fault is told, unless memory runs out.
    ensures only_refused { (f : FaultModel) → IsFirstFault (spec.trace_rule flat.now) (records_of bytes.now) f → Refuses f result }
{
    read_whole(alloc, flat, bytes)
}
