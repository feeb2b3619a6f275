//! The probes of a source, one after the other, and the first that falsifies.

ghost use Rattle.std.specs.Prelude.{◌≡◌, ◌↔◌, ℕ, ℤ, ◌+◌, Bool, true, Ok, None, Some, length, IfOk, IsTrue};
ghost use Rattle.std.specs.List.{Contains};
ghost use Rattle.rv_base.specs.declared.value.Trace.{Trace as TraceModel};
ghost use Rattle.rv_tree.specs.Tree.{program_tree};
ghost use Rattle.rv_types.specs.Instances.{name_at};
ghost use Rattle.rv_flat.specs.FlatOf.{IsFlatOf};
ghost use Rattle.rv_flat.specs.Steps.{IsWithin};
ghost use Rattle.rv_replay.specs.Replays.{IsFalsifiedAt};
ghost use Rattle.rv_replay.specs.Traces.{IsTrace};
ghost use Rattle.rv_probe.specs.Probes.{FalsifiesAt, HasFalsifyingProbe, IsCutProbe, NeverFalsifies, cut, probe_of};
ghost use Rattle.rv_probe.specs.Probes.{have_values as types_have_values};

use crate::traces::{have_values, probe_trace};
use rv_base::{Memory, Trace};
use rv_flat::{Flat, flat_states};
use rv_flatten::fitting_sources;
use rv_instances::Source;
use rv_replay::{ReplayFault, Replayed, flat_traces, replay_flat};
use rv_types::well_formed_programs;
use std::alloc::Global;

/// The number of the instant at which a trace of a program falsifies it, by its replay: no assertion was false and no value left the range
/// up to there. None where it falsifies nowhere. The only error is want of memory.
pub fn falsified_at(
    alloc: Global,
    source: &Source,
    flat: &Flat,
    trace: &Trace,
) -> Result<Option<u32>, Memory>
    requires flat { IsFlatOf (program_tree source.now.program) (name_at (program_tree source.now.program) source.now.typed.main) flat.now }
    requires trace { IsTrace (program_tree source.now.program) (name_at (program_tree source.now.program) source.now.typed.main) trace.now }
    ensures found { (k : ℕ) → result ≡ Ok (Some k)
        → IsFalsifiedAt (program_tree source.now.program) (name_at (program_tree source.now.program) source.now.typed.main) trace.now k }
    ensures never { (k : ℕ) → result ≡ Ok None
        → IsFalsifiedAt (program_tree source.now.program) (name_at (program_tree source.now.program) source.now.typed.main) trace.now k → ⊥ }
{
    match replay_flat(alloc, source, flat, trace) {
        Ok(Replayed::Falsified(last)) => Ok(Some(last)),
        Ok(Replayed::NeverFalse) => Ok(None),
        Ok(Replayed::AssertionFails(_, _)) => Ok(None),
        Err(ReplayFault::Outgrown(_, _)) => Ok(None),
        Err(ReplayFault::Memory) => Err(Memory::Memory),
    }
}

/// The probe of a truth value and a number, cut after the instant at which it falsifies; none where it does not.
fn try_probe(
    alloc: Global,
    source: &Source,
    flat: &Flat,
    truth: bool,
    number: i128,
) -> Result<Option<Trace>, Memory>
    requires flat { IsFlatOf (program_tree source.now.program) (name_at (program_tree source.now.program) source.now.typed.main) flat.now }
    requires values { types_have_values flat.now ≡ true }
    requires number { IsWithin number }
    ensures found { (t : TraceModel) → result ≡ Ok (Some t)
        → IsCutProbe (program_tree source.now.program) (name_at (program_tree source.now.program) source.now.typed.main) flat.now truth number t }
    ensures never { result ≡ Ok None
        → NeverFalsifies (program_tree source.now.program) (name_at (program_tree source.now.program) source.now.typed.main) flat.now truth number }
{
    fitting_sources();
    well_formed_programs();
    flat_traces();
    let mut trace = probe_trace(alloc, flat, truth, number)?;
    match falsified_at(alloc, source, flat, &trace)? {
        Some(last) => {
            trace.instants.truncate(last as usize + 1);
            Ok(Some(trace))
        }
        None => Ok(None),
    }
}

/// The first of the two probes of a number that falsifies, that of false before that of true.
fn try_number(
    alloc: Global,
    source: &Source,
    flat: &Flat,
    number: i128,
) -> Result<Option<Trace>, Memory>
    requires flat { IsFlatOf (program_tree source.now.program) (name_at (program_tree source.now.program) source.now.typed.main) flat.now }
    requires values { types_have_values flat.now ≡ true }
    requires number { IsWithin number }
    ensures found { (t : TraceModel) → result ≡ Ok (Some t)
        → (b : Bool) × IsCutProbe (program_tree source.now.program) (name_at (program_tree source.now.program) source.now.typed.main) flat.now b number t }
    ensures never { (b : Bool) → result ≡ Ok None
        → NeverFalsifies (program_tree source.now.program) (name_at (program_tree source.now.program) source.now.typed.main) flat.now b number }
{
    match try_probe(alloc, source, flat, false, number)? {
        Some(trace) => Ok(Some(trace)),
        None => try_probe(alloc, source, flat, true, number),
    }
}

/// Whether a number is within the range of traces.
fn is_within(number: i128) -> bool
    ensures { IsTrue result ↔ IsWithin number }
{
    -9_223_372_036_854_775_808 <= number && number < 9_223_372_036_854_775_808
}

/// The first of the two probes of a threshold that falsifies. No probe has a number outside the range of traces.
fn try_threshold(
    alloc: Global,
    source: &Source,
    flat: &Flat,
    number: i128,
) -> Result<Option<Trace>, Memory>
    requires flat { IsFlatOf (program_tree source.now.program) (name_at (program_tree source.now.program) source.now.typed.main) flat.now }
    requires values { types_have_values flat.now ≡ true }
    ensures found { (t : TraceModel) → result ≡ Ok (Some t)
        → (b : Bool) × IsWithin number
        × IsCutProbe (program_tree source.now.program) (name_at (program_tree source.now.program) source.now.typed.main) flat.now b number t }
    ensures never { (b : Bool) → result ≡ Ok None → IsWithin number
        → NeverFalsifies (program_tree source.now.program) (name_at (program_tree source.now.program) source.now.typed.main) flat.now b number }
{
    if is_within(number) {
        try_number(alloc, source, flat, number)
    } else {
        Ok(None)
    }
}

/// The first probe of a threshold that falsifies, in their order.
fn try_thresholds(alloc: Global, source: &Source, flat: &Flat) -> Result<Option<Trace>, Memory>
    requires flat { IsFlatOf (program_tree source.now.program) (name_at (program_tree source.now.program) source.now.typed.main) flat.now }
    requires values { types_have_values flat.now ≡ true }
    ensures found { (t : TraceModel) → result ≡ Ok (Some t)
        → (b : Bool) × (c : ℤ) × Contains flat.now.thresholds c × IsWithin c
        × IsCutProbe (program_tree source.now.program) (name_at (program_tree source.now.program) source.now.typed.main) flat.now b c t }
    ensures never { (b : Bool) (c : ℤ) → result ≡ Ok None → Contains flat.now.thresholds c → IsWithin c
        → NeverFalsifies (program_tree source.now.program) (name_at (program_tree source.now.program) source.now.typed.main) flat.now b c }
{
    for number in flat.thresholds.as_slice() {
        match try_threshold(alloc, source, flat, *number)? {
            Some(trace) => return Ok(Some(trace)),
            None => {}
        }
    }
    Ok(None)
}

/// The first probe of a source that falsifies, cut after the instant at which its replay says so, and none where no probe does. A
/// probe is a trace of 16 instants in which each Boolean start value and input is one truth value, each integer one is one number,
/// and each other one is the first label of its type. The numbers are 0 and then, where there are at most 256, the thresholds in
/// rising order, but for one outside -2^63 to 2^63 - 1, which no trace has; each is tried with false and then with true. `flat` is the
/// flat system of the source. `Memory` comes where memory runs out. Time grows with the probes times the flat system.
pub fn probe(alloc: Global, source: &Source, flat: &Flat) -> Result<Option<Trace>, Memory>
    requires flat { IsFlatOf (program_tree source.now.program) (name_at (program_tree source.now.program) source.now.typed.main) flat.now }
    ensures found { (t : TraceModel) → result ≡ Ok (Some t)
        → (b : Bool) × (c : ℤ) × (k : ℕ)
        × FalsifiesAt (program_tree source.now.program) (name_at (program_tree source.now.program) source.now.typed.main) flat.now b c k
        × (t ≡ cut k (probe_of flat.now b c)) }
    ensures falsifies { (t : TraceModel) → result ≡ Ok (Some t)
        → IsTrace (program_tree source.now.program) (name_at (program_tree source.now.program) source.now.typed.main) t
        × ((last : ℕ) × (length t.instants ≡ last + 1)
        × IsFalsifiedAt (program_tree source.now.program) (name_at (program_tree source.now.program) source.now.typed.main) t last) }
    ensures exactly { IfOk result (λ found. (found ≡ None)
        ↔ (HasFalsifyingProbe (program_tree source.now.program) (name_at (program_tree source.now.program) source.now.typed.main) flat.now → ⊥)) }
{
    fitting_sources();
    well_formed_programs();
    flat_states();
    if !have_values(flat) {
        return Ok(None);
    }
    match try_number(alloc, source, flat, 0)? {
        Some(trace) => Ok(Some(trace)),
        None if flat.thresholds.len() > 256 => Ok(None),
        None => try_thresholds(alloc, source, flat),
    }
}
