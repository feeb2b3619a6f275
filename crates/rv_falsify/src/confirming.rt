//! Whether a trace falsifies a program: by its replay, which is asked of each trace that is answered for a program with integers.

ghost use Rattle.std.specs.Prelude.{◌≡◌, ◌<◌, ℕ, [], Ok, Some, None, length, IsTrue, IfOk, slice_index_or};
ghost use Rattle.rv_base.specs.declared.value.Trace.{Trace as TraceModel};
ghost use Rattle.rv_tree.specs.Tree.{program_tree};
ghost use Rattle.rv_types.specs.Instances.{name_at};
ghost use Rattle.rv_agreement.specs.Checks.{constant_fits};
ghost use Rattle.rv_flat.specs.FlatOf.{IsFlatOf};
ghost use Rattle.rv_flat.specs.Steps.{AreValues, IsInRange, label_counts};
ghost use Rattle.rv_replay.specs.Traces.{IsFlatTrace, IsTrace};
ghost use Rattle.rv_replay.specs.Replays.{IsFalsifiedAt};
ghost use Rattle.rv_falsify.specs.Falsifying.{IsFalsifying};

use crate::decoding::{input_kinds, memory_kinds};
use rv_base::{Many, Memory, Trace, Value};
use rv_flat::Flat;
use rv_flatten::fitting_sources;
use rv_instances::Source;
use rv_probe::falsified_at;
use rv_replay::flat_traces;
use rv_types::{Kind, well_formed_programs};
use std::alloc::Global;

/// How many labels a declaration has.
fn label_count(flat: &Flat, declaration: u32) -> usize
    ensures { result ≡ slice_index_or (label_counts flat.now) declaration 0 }
{
    match flat.labels.get(declaration as usize) {
        Some(labels) => labels.len(),
        None => 0,
    }
}

/// Whether a type has a label with this number.
fn is_label(flat: &Flat, kind: Kind, number: u32) -> bool
    ensures fits { IsTrue result → IsTrue (constant_fits (label_counts flat.now) kind (Value.Label number)) }
    ensures only { IsTrue (constant_fits (label_counts flat.now) kind (Value.Label number)) → IsTrue result }
{
    match kind {
        Kind::Labels(declaration) => (number as usize) < label_count(flat, declaration),
        _ => false,
    }
}

/// Whether a number is one that a trace may have, from -2^63 to 2^63 - 1.
fn is_within(number: i128) -> bool
    ensures within { IsTrue result → IsInRange (Value.Whole number) }
    ensures only { IsInRange (Value.Whole number) → IsTrue result }
{
    -9_223_372_036_854_775_808 <= number && number < 9_223_372_036_854_775_808
}

/// Whether a value is of a type and one that a trace may have.
fn is_value(flat: &Flat, kind: Kind, value: Value) -> bool
    ensures fits { IsTrue result → IsTrue (constant_fits (label_counts flat.now) kind value) }
    ensures within { IsTrue result → IsInRange value }
    ensures only { IsTrue (constant_fits (label_counts flat.now) kind value) → IsInRange value → IsTrue result }
{
    match value {
        Value::Flag(_) => kind == Kind::Bool,
        Value::Label(number) => is_label(flat, kind, number),
        Value::Whole(number) => kind == Kind::Int && is_within(number),
    }
}

/// Whether there is one value of each type, each one that a trace may have.
fn are_values(flat: &Flat, kinds: &[Kind], values: &[Value]) -> bool
    ensures values { IsTrue result → AreValues flat.now kinds.now values.now }
    ensures only { AreValues flat.now kinds.now values.now → IsTrue result }
{
    if values.len() != kinds.len() {
        return false;
    }
    for (place, kind) in kinds.iter().enumerate() {
        if !is_value(flat, *kind, values[place]) {
            return false;
        }
    }
    true
}

/// Whether that is so at each instant.
fn are_instants(flat: &Flat, kinds: &[Kind], instants: &Many<Many<Value>>) -> bool
    ensures instants { IsTrue result → (k : ℕ) → k < length instants.now → AreValues flat.now kinds.now (slice_index_or instants.now k []) }
    ensures only { ((k : ℕ) → k < length instants.now → AreValues flat.now kinds.now (slice_index_or instants.now k [])) → IsTrue result }
{
    for place in 0..instants.len() {
        if !are_values(flat, kinds, instants.at(place).as_slice()) {
            return false;
        }
    }
    true
}

/// Whether these are the values of a trace of a flat system: one for each memory, and at each instant one for each input.
fn is_flat_trace(alloc: Global, flat: &Flat, trace: &Trace) -> Result<bool, Memory>
    ensures trace { IfOk result (λ is. IsTrue is → IsFlatTrace flat.now trace.now) }
    ensures only { IfOk result (λ is. IsFlatTrace flat.now trace.now → IsTrue is) }
{
    let memories = memory_kinds(alloc, flat)?;
    let inputs = input_kinds(alloc, flat)?;
    let starts = are_values(flat, memories.as_slice(), trace.starts.as_slice());
    let instants = are_instants(flat, inputs.as_slice(), &trace.instants);
    Ok(starts && instants && trace.instants.len() < 4_294_967_296)
}

/// A trace of the program, cut after the instant at which it falsifies it; none where it does not.
fn cut(
    alloc: Global,
    source: &Source,
    flat: &Flat,
    mut trace: Trace,
) -> Result<Option<Trace>, Memory>
    requires flat { IsFlatOf (program_tree source.now.program) (name_at (program_tree source.now.program) source.now.typed.main) flat.now }
    requires trace { IsTrace (program_tree source.now.program) (name_at (program_tree source.now.program) source.now.typed.main) trace }
    ensures falsifies { (t : TraceModel) → result ≡ Ok (Some t)
        → IsFalsifying (program_tree source.now.program) (name_at (program_tree source.now.program) source.now.typed.main) t }
    ensures missing { result ≡ Ok None → (k : ℕ)
        → IsFalsifiedAt (program_tree source.now.program) (name_at (program_tree source.now.program) source.now.typed.main) trace k → ⊥ }
{
    match falsified_at(alloc, source, flat, &trace)? {
        Some(last) => {
            trace.instants.truncate(last as usize + 1);
            Ok(Some(trace))
        }
        None => Ok(None),
    }
}

/// A trace, cut after the instant at which it falsifies the program. None where its values are not those of a trace of the program, or where its
/// replay does not end at an instant with a false observer: an assertion fails first, a value leaves the range first, or the observer is
/// true throughout. So None of a trace means that it falsifies after none of its instants, cut there, with all values in the range up to it.
/// The only error is want of memory.
pub fn confirmed(
    alloc: Global,
    source: &Source,
    flat: &Flat,
    trace: Trace,
) -> Result<Option<Trace>, Memory>
    requires flat { IsFlatOf (program_tree source.now.program) (name_at (program_tree source.now.program) source.now.typed.main) flat.now }
    ensures falsifies { (t : TraceModel) → result ≡ Ok (Some t)
        → IsFalsifying (program_tree source.now.program) (name_at (program_tree source.now.program) source.now.typed.main) t }
    ensures missing { result ≡ Ok None → IsTrace (program_tree source.now.program) (name_at (program_tree source.now.program) source.now.typed.main) trace
        → (k : ℕ) → IsFalsifiedAt (program_tree source.now.program) (name_at (program_tree source.now.program) source.now.typed.main) trace k → ⊥ }
{
    fitting_sources();
    well_formed_programs();
    flat_traces();
    let is = is_flat_trace(alloc, flat, &trace)?;
    if is {
        return cut(alloc, source, flat, trace);
    }
    Ok(None)
}
