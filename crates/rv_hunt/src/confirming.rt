//! Whether a trace that was found by chance falsifies a program: by its replay.

ghost use Rattle.std.specs.Prelude.{◌≡◌, ◌+◌, ◌<◌, ℕ, [], Ok, Some, length, IsTrue, IfOk, slice_index_or};
ghost use Rattle.rv_base.specs.declared.value.Trace.{Trace as TraceModel};
ghost use Rattle.rv_tree.specs.Tree.{program_tree};
ghost use Rattle.rv_types.specs.Instances.{name_at};
ghost use Rattle.rv_flat.specs.FlatOf.{IsFlatOf};
ghost use Rattle.rv_flat.specs.Steps.{AreValues};
ghost use Rattle.rv_replay.specs.Traces.{IsFlatTrace, IsTrace};
ghost use Rattle.rv_replay.specs.Replays.{IsFalsifiedAt};

use crate::typed::{are_values, input_kinds, memory_kinds};
use rv_base::{Many, Memory, Trace, Value};
use rv_flat::Flat;
use rv_flatten::fitting_sources;
use rv_instances::Source;
use rv_probe::falsified_at;
use rv_replay::flat_traces;
use rv_types::{Kind, well_formed_programs};
use std::alloc::Global;

/// Whether at each instant there is one value of each type, each one that a trace may have.
fn are_instants(flat: &Flat, kinds: &[Kind], instants: &Many<Many<Value>>) -> bool
    ensures instants { IsTrue result → (k : ℕ) → k < length instants.now → AreValues flat.now kinds.now (slice_index_or instants.now k []) }
{
    for place in 0..instants.len() {
        if !are_values(flat, kinds, instants.at(place).as_slice()) {
            return false;
        }
    }
    true
}

/// Whether these are the values of a trace of a flat system: one for each memory, and at each instant one for each input.
fn is_flat_trace(alloc: Global, flat: &Flat, trace: &Trace) -> Result<bool, Memory>
    ensures trace { IfOk result (λ is. IsTrue is → IsFlatTrace flat.now trace.now) }
{
    let memories = memory_kinds(alloc, flat)?;
    let inputs = input_kinds(alloc, flat)?;
    let starts = are_values(flat, memories.as_slice(), trace.starts.as_slice());
    let instants = are_instants(flat, inputs.as_slice(), &trace.instants);
    Ok(starts && instants && trace.instants.len() < 4_294_967_296)
}

/// A trace of the program, cut after the instant at which it falsifies it; none where it does not.
fn cut(
    alloc: Global,
    source: &Source,
    flat: &Flat,
    mut trace: Trace,
) -> Result<Option<Trace>, Memory>
    requires flat { IsFlatOf (program_tree source.now.program) (name_at (program_tree source.now.program) source.now.typed.main) flat.now }
    requires trace { IsTrace (program_tree source.now.program) (name_at (program_tree source.now.program) source.now.typed.main) trace }
    ensures falsifies { (t : TraceModel) → result ≡ Ok (Some t)
        → IsTrace (program_tree source.now.program) (name_at (program_tree source.now.program) source.now.typed.main) t
        × ((last : ℕ) × (length t.instants ≡ last + 1)
        × IsFalsifiedAt (program_tree source.now.program) (name_at (program_tree source.now.program) source.now.typed.main) t last) }
{
    match falsified_at(alloc, source, flat, &trace)? {
        Some(last) => {
            trace.instants.truncate(last as usize + 1);
            Ok(Some(trace))
        }
        None => Ok(None),
    }
}

/// A trace, cut after the instant at which it falsifies the program by its replay; none where it does not, or where its values are not those
/// of a trace of the program. The only error is want of memory.
pub fn confirmed(
    alloc: Global,
    source: &Source,
    flat: &Flat,
    trace: Trace,
) -> Result<Option<Trace>, Memory>
    requires flat { IsFlatOf (program_tree source.now.program) (name_at (program_tree source.now.program) source.now.typed.main) flat.now }
    ensures falsifies { (t : TraceModel) → result ≡ Ok (Some t)
        → IsTrace (program_tree source.now.program) (name_at (program_tree source.now.program) source.now.typed.main) t
        × ((last : ℕ) × (length t.instants ≡ last + 1)
        × IsFalsifiedAt (program_tree source.now.program) (name_at (program_tree source.now.program) source.now.typed.main) t last) }
{
    fitting_sources();
    well_formed_programs();
    flat_traces();
    let is = is_flat_trace(alloc, flat, &trace)?;
    if is {
        return cut(alloc, source, flat, trace);
    }
    Ok(None)
}
