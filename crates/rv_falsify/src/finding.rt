//! A trace that falsifies: found back through the layers, or by a candidate that its replay confirms.

ghost use Rattle.std.specs.Prelude.{◌≡◌, ◌↔◌, ◌<◌, ◌^◌, ℕ, ℤ, List, Ok, None, Some, length, slice_get, IfOk, IsErrOf};
ghost use Rattle.rv_base.specs.declared.value.Trace.{Trace as TraceModel};
ghost use Rattle.rv_tree.specs.Tree.{ProgramTree, program_tree};
ghost use Rattle.rv_tree.specs.Places.{Identifier};
ghost use Rattle.rv_types.specs.Instances.{name_at};
ghost use Rattle.rv_flat.specs.FlatOf.{IsFlatOf};
ghost use Rattle.rv_diagram.specs.declared.frozen.Frozen.{Frozen as FrozenModel};
ghost use Rattle.rv_proofs.specs.Ranges.{IsControlSet};
ghost use Rattle.rv_open.specs.Columns.{HasNoColumns, AreLeastBadLayers};
ghost use Rattle.rv_reading.specs.Read.{flat_of, system_read, diagrams_of, IsRead};
ghost use Rattle.rv_falsify.specs.Falsifying.{IsFalsifying, IsNeverFalsified, IsShortest};

use crate::confirming::confirmed;
use crate::decoding::trace_of;
use rv_base::{Many, Memory, Trace, Value};
use rv_control::{runs_are_abstract, spelled_runs};
use rv_diagram::StoreFault;
use rv_flat::{Flat, flat_states, runs_are_one};
use rv_flatten::fitting_sources;
use rv_instances::Source;
use rv_meaning::{run_is_instants, states_of_run, typed_instants};
use rv_paths::Candidate;
use rv_proofs::Layers;
use rv_reading::Reading;
use rv_types::well_formed_programs;
use std::alloc::Global;

/// A trace that falsifies the program of a source without integer memories and inputs: from the first layer with a false observer back through
/// the layers, one valuation picked in each, the least of those whose comparisons of constants hold. `reading` is that of the source's flat
/// system, and the sets of the layers are ordered and use state variables only. Where the layers are those of the box pass, none is found
/// exactly where no run falsifies, and none that falsifies has fewer instants. The reading is left as it was. `Nodes` comes where the diagrams
/// outgrow their limit, `Memory` where memory runs out.
fn find_back(
    alloc: Global,
    reading: &mut Reading,
    source: &Source,
    layers: &Layers,
) -> Result<Option<Trace>, StoreFault>
    requires read { IsRead reading.old }
    requires flat { IsFlatOf (program_tree source.now.program) (name_at (program_tree source.now.program) source.now.typed.main) (flat_of reading.old) }
    requires columns { HasNoColumns (system_read reading.old) }
    requires sets { (t : ℕ) (set : FrozenModel) → slice_get layers.now.sets t ≡ Some set → IsControlSet (system_read reading.old) set }
    ensures falsifies { (t : TraceModel) → result ≡ Ok (Some t)
        → IsFalsifying (program_tree source.now.program) (name_at (program_tree source.now.program) source.now.typed.main) t }
    ensures shortest { (t : TraceModel) (thresholds : List ℤ) → AreLeastBadLayers (system_read reading.old) thresholds layers.now → result ≡ Ok (Some t)
        → IsShortest (program_tree source.now.program) (name_at (program_tree source.now.program) source.now.typed.main) t }
    ensures exactly { (thresholds : List ℤ) → AreLeastBadLayers (system_read reading.old) thresholds layers.now
        → IfOk result (λ found. (found ≡ None)
        ↔ IsNeverFalsified (program_tree source.now.program) (name_at (program_tree source.now.program) source.now.typed.main)) }
    ensures found { (thresholds : List ℤ) → AreLeastBadLayers (system_read reading.old) thresholds layers.now
        → IfOk result (λ found. found ≡ None → ⊥) }
    ensures same { reading.new ≡ reading.old }
    ensures roomy { IsErrOf result StoreFault.Nodes → (diagrams_of reading.old).limit < 2 ^ (2 ^ (diagrams_of reading.old).variables) }
{
    fitting_sources();
    well_formed_programs();
    typed_instants();
    run_is_instants();
    states_of_run();
    flat_states();
    runs_are_one();
    spelled_runs();
    runs_are_abstract();
    let path = reading.falsifying_path(alloc, layers)?;
    match path {
        Some(words) => {
            let trace = trace_of(alloc, reading.flat(), &words)?;
            Ok(Some(trace))
        }
        None => Ok(None),
    }
}

/// A number of a list; 0 past its end.
fn number_at(numbers: &Many<i128>, place: usize) -> i128 {
    match numbers.get(place) {
        Some(number) => *number,
        None => 0,
    }
}

/// The value, where it is an integer the number that is next.
fn numbered(value: Value, numbers: &Many<i128>, next: &mut usize) -> Value {
    match value {
        Value::Whole(_) => {
            let number = number_at(numbers, *next);
            *next = next.saturating_add(1);
            Value::Whole(number)
        }
        other => other,
    }
}

/// The values, with each integer replaced by the next of the numbers; 0 past the last one.
fn filled(
    alloc: Global,
    values: &Many<Value>,
    numbers: &Many<i128>,
) -> Result<Many<Value>, Memory> {
    let mut list = Many::new(alloc);
    let mut next = 0;
    for value in values.as_slice() {
        list.push(numbered(*value, numbers, &mut next))?;
    }
    Ok(list)
}

/// The inputs of an instant, with their integers from its numbers, where it has some.
fn filled_instant(
    alloc: Global,
    values: &Many<Value>,
    numbers: Option<&Many<i128>>,
) -> Result<Many<Value>, Memory> {
    match numbers {
        Some(own) => filled(alloc, values, own),
        None => filled(alloc, values, &Many::new(alloc)),
    }
}

/// The inputs of each instant, with their integers from the numbers of the instant.
fn filled_instants(
    alloc: Global,
    instants: &Many<Many<Value>>,
    numbers: &Many<Many<i128>>,
) -> Result<Many<Many<Value>>, Memory> {
    let mut list = Many::new(alloc);
    for place in 0..instants.len() {
        list.push(filled_instant(alloc, instants.at(place), numbers.get(place))?)?;
    }
    Ok(list)
}

/// The trace of a candidate.
fn trace_with(alloc: Global, flat: &Flat, candidate: &Candidate) -> Result<Trace, Memory>
    requires program { (program : ProgramTree) × (main : Identifier) × IsFlatOf program main flat.now }
    requires some { 0 < length candidate.now.words }
{
    let spelled = trace_of(alloc, flat, &candidate.words)?;
    let starts = filled(alloc, &spelled.starts, &candidate.starts)?;
    let instants = filled_instants(alloc, &spelled.instants, &candidate.inputs)?;
    Ok(Trace { starts, instants })
}

/// A trace that falsifies the program of a source with integers, by a candidate that its replay confirms.
fn find_candidate(
    alloc: Global,
    reading: &mut Reading,
    source: &Source,
    layers: &Layers,
) -> Result<Option<Trace>, StoreFault>
    requires read { IsRead reading.old }
    requires flat { IsFlatOf (program_tree source.now.program) (name_at (program_tree source.now.program) source.now.typed.main) (flat_of reading.old) }
    requires sets { (t : ℕ) (set : FrozenModel) → slice_get layers.now.sets t ≡ Some set → IsControlSet (system_read reading.old) set }
    ensures falsifies { (t : TraceModel) → result ≡ Ok (Some t)
        → IsFalsifying (program_tree source.now.program) (name_at (program_tree source.now.program) source.now.typed.main) t }
    ensures same { reading.new ≡ reading.old }
    ensures roomy { IsErrOf result StoreFault.Nodes → (diagrams_of reading.old).limit < 2 ^ (2 ^ (diagrams_of reading.old).variables) }
{
    match reading.candidate(alloc, layers)? {
        Some(candidate) => {
            let flat = reading.flat();
            let trace = trace_with(alloc, flat, &candidate)?;
            let found = confirmed(alloc, source, flat, trace)?;
            Ok(found)
        }
        None => Ok(None),
    }
}

/// A trace that falsifies the program of a source. Of one without integer memories and inputs it is found back from the first layer with a false
/// observer through the layers, one valuation picked in each, the least: where the layers are those of the box pass, which found no good claim,
/// some is found, and none that falsifies has fewer instants. Of one with integers a path of cases is sought that leads to a false observer, with a
/// whole point of the rows of its instants, and answered only where its replay says Falsified; none promises nothing. `reading` is that of
/// the source's flat system, and the sets of the layers are ordered and use state variables only. The reading is left as it was. `Nodes`
/// comes where the diagrams outgrow their limit, `Memory` where memory runs out.
pub fn find(
    alloc: Global,
    reading: &mut Reading,
    source: &Source,
    layers: &Layers,
) -> Result<Option<Trace>, StoreFault>
    requires read { IsRead reading.old }
    requires flat { IsFlatOf (program_tree source.now.program) (name_at (program_tree source.now.program) source.now.typed.main) (flat_of reading.old) }
    requires sets { (t : ℕ) (set : FrozenModel) → slice_get layers.now.sets t ≡ Some set → IsControlSet (system_read reading.old) set }
    ensures falsifies { (t : TraceModel) → result ≡ Ok (Some t)
        → IsFalsifying (program_tree source.now.program) (name_at (program_tree source.now.program) source.now.typed.main) t }
    ensures shortest { (t : TraceModel) (thresholds : List ℤ) → HasNoColumns (system_read reading.old)
        → AreLeastBadLayers (system_read reading.old) thresholds layers.now → result ≡ Ok (Some t)
        → IsShortest (program_tree source.now.program) (name_at (program_tree source.now.program) source.now.typed.main) t }
    ensures exactly { (thresholds : List ℤ) → HasNoColumns (system_read reading.old)
        → AreLeastBadLayers (system_read reading.old) thresholds layers.now
        → IfOk result (λ found. (found ≡ None)
        ↔ IsNeverFalsified (program_tree source.now.program) (name_at (program_tree source.now.program) source.now.typed.main)) }
    ensures found { (thresholds : List ℤ) → HasNoColumns (system_read reading.old)
        → AreLeastBadLayers (system_read reading.old) thresholds layers.now → IfOk result (λ found. found ≡ None → ⊥) }
    ensures same { reading.new ≡ reading.old }
    ensures roomy { IsErrOf result StoreFault.Nodes → (diagrams_of reading.old).limit < 2 ^ (2 ^ (diagrams_of reading.old).variables) }
{
    if reading.has_no_columns() {
        return find_back(alloc, reading, source, layers);
    }
    find_candidate(alloc, reading, source, layers)
}
