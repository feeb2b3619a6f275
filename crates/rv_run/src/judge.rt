//! How sources are judged: by probes, and by the least closed box claims of their flat systems, which for those without integers are the
//! control states that are reached; those with integers by row claims and rows of parts, too, and by hunts and a search for traces.

ghost use Rattle.std.specs.Prelude.{◌≡◌, ◌<◌, ◌≤◌, ◌^◌, ℕ, Ok, false, length, IsTrue, IfOk, IsErrOf, ◌↔◌, Some, slice_get};
ghost use Rattle.std.specs.Int.RustNames.{unsigned_abs};
ghost use Rattle.std.specs.List.{All};
ghost use Rattle.rv_tree.specs.Tree.{program_tree};
ghost use Rattle.rv_tree.specs.Words.{HasPlainNames};
ghost use Rattle.rv_types.specs.Instances.{name_at};
ghost use Rattle.rv_types.specs.Variables.{is_integer};
ghost use Rattle.rv_flat.specs.FlatOf.{IsFlatOf};
ghost use Rattle.rv_control.specs.Control.{control_of};
ghost use Rattle.rv_meaning.specs.Integers.{IsControl};
ghost use Rattle.rv_diagram.specs.declared.frozen.Frozen.{Frozen};
ghost use Rattle.rv_proofs.specs.Accepted.{IsAccepted};
ghost use Rattle.rv_proofs.specs.Left.{IsLeftPartition, IsLeftReport};
ghost use Rattle.rv_proofs.specs.Ranges.{IsControlSet};
ghost use Rattle.rv_proofs.specs.Boxes.{HasGoodBox};
ghost use Rattle.rv_walk.specs.Plain.{ArePlain};
ghost use Rattle.rv_source.specs.Numbers.{HasSmallNumbers};
ghost use Rattle.rv_reading.specs.Read.{flat_of, system_read, diagrams_of, IsRead};
ghost use Rattle.rv_open.specs.Columns.{HasNoColumns, AreLeastBadLayers};
ghost use Rattle.rv_falsify.specs.Falsifying.{IsFalsifying};
ghost use Rattle.rv_probe.specs.Probes.{HasFalsifyingProbe};
ghost use Rattle.rv_replay.specs.Traces.{IsTrace};
ghost use Rattle.rv_base.specs.declared.value.Trace.{Trace as TraceModel};
ghost use Rattle.rv_run.specs.Programs.{HasGood, HasManyVariables, IsUndecided, LacksProbe};
ghost use Rattle.rv_run.specs.Judged.{IsControlSystem, IsKnown};
ghost use Rattle.rv_run.specs.Verdicts.{IsPlainVerdict, IsProbe, IsTraced, IsVerdictOf};

use crate::verdict::Verdict;
use rv_base::{Memory, Trace};
use rv_box::box_pass;
use rv_control::{control_is_a_system, runs_are_abstract};
use rv_diagram::StoreFault;
use rv_falsify::find;
use rv_fixpoint::{End, Options, analyse};
use rv_flat::{Bit, Flat};
use rv_flatten::{fitting_sources, flatten};
use rv_hunt::{FEW_STEPS, MANY_STEPS, hunt};
use rv_instances::Source;
use rv_invariant::{write_certificate, write_left};
use rv_invfile::{fitting_traces, told_systems, write_trace};
use rv_probe::probe;
use rv_proofs::{Certificate, Layers, LeftReport, certificates_are_safe, claims_are_safe};
use rv_reading::Reading;
use rv_replay::flat_traces;
use rv_types::{Kind, well_formed_programs};
use rv_walk::BoxEnd;
use std::alloc::Global;

/// The most order tests of a source whose analysis comes before all hunts. The search for a trace by cases is quick up to there.
const FEW_TESTS: usize = 8;

/// The verdict on a source. A probe that falsifies it is asked for first, before any diagram is made. A source without integers has a
/// certificate and its document where it is safe, and else a shortest trace that falsifies it with its document, or the probe where its
/// diagrams would have more nodes than they may. One with integers has the probe where there is one, else a certificate wherever some
/// closed box claim or row claim is good, and else a certificate, a trace or what is left with its document, as they are found: a left partition,
/// which may have so many locations. The certificate has no loops where these are not to be accelerated. Nodes comes only where no probe
/// falsifies, and the source has many diagram variables for the number of nodes that the diagrams may have. Names are letters, digits and
/// `_`, and literals and constants at most 2^40 + 1, as in the tree of each text.
pub fn judge(
    alloc: Global,
    source: &Source,
    nodes: u32,
    locations: u32,
    accelerate: bool,
) -> Result<Verdict, StoreFault>
    requires limit { nodes ≤ 33554432 }
    requires least { 1 ≤ locations }
    requires most { locations ≤ 4096 }
    requires plain { HasPlainNames (program_tree source.now.program) }
    requires small { HasSmallNumbers (program_tree source.now.program) }
    ensures judged { IfOk result (λ v. IsVerdictOf nodes locations v (program_tree source.now.program)
        (name_at (program_tree source.now.program) source.now.typed.main)) }
    ensures wide { IsErrOf result StoreFault.Nodes → HasManyVariables nodes (program_tree source.now.program)
        (name_at (program_tree source.now.program) source.now.typed.main) }
    ensures unprobed { IsErrOf result StoreFault.Nodes → LacksProbe (program_tree source.now.program)
        (name_at (program_tree source.now.program) source.now.typed.main) }
    ensures no_loops { accelerate ≡ false → IfOk result IsPlainVerdict }
{
    fitting_sources();
    well_formed_programs();
    runs_are_abstract();
    let flat = flatten(alloc, source)?;
    match probe(alloc, source, &flat)? {
        Some(trace) => probed(alloc, source, &flat, trace, nodes, locations, accelerate),
        None => decided(alloc, source, &flat, nodes, locations, accelerate),
    }
}

/// The verdict on a source that a probe falsifies.
fn probed(
    alloc: Global,
    source: &Source,
    flat: &Flat,
    trace: Trace,
    nodes: u32,
    locations: u32,
    accelerate: bool,
) -> Result<Verdict, StoreFault>
    requires limit { nodes ≤ 33554432 }
    requires least { 1 ≤ locations }
    requires most { locations ≤ 4096 }
    requires plain { HasPlainNames (program_tree source.now.program) }
    requires known { IsKnown (program_tree source.now.program) (name_at (program_tree source.now.program) source.now.typed.main) flat.now }
    requires thresholds { All (λ t. unsigned_abs t ≤ 2 ^ 41) flat.now.thresholds }
    requires falsifying { IsFalsifying (program_tree source.now.program) (name_at (program_tree source.now.program) source.now.typed.main) trace }
    requires probe { IsProbe trace (program_tree source.now.program) (name_at (program_tree source.now.program) source.now.typed.main) }
    ensures judged { IfOk result (λ v. IsVerdictOf nodes locations v (program_tree source.now.program)
        (name_at (program_tree source.now.program) source.now.typed.main)) }
    ensures decided { IsErrOf result StoreFault.Nodes → ⊥ }
    ensures no_loops { accelerate ≡ false → IfOk result IsPlainVerdict }
{
    control_is_a_system();
    claims_are_safe();
    if is_control(flat) {
        return unless_shorter(alloc, source, flat, trace, nodes, locations, accelerate);
    }
    with_trace(alloc, source, flat, trace)
}

/// The verdict on a source without integers that a probe falsifies: a shortest trace, where the diagrams have nodes enough.
fn unless_shorter(
    alloc: Global,
    source: &Source,
    flat: &Flat,
    trace: Trace,
    nodes: u32,
    locations: u32,
    accelerate: bool,
) -> Result<Verdict, StoreFault>
    requires limit { nodes ≤ 33554432 }
    requires least { 1 ≤ locations }
    requires most { locations ≤ 4096 }
    requires plain { HasPlainNames (program_tree source.now.program) }
    requires known { IsKnown (program_tree source.now.program) (name_at (program_tree source.now.program) source.now.typed.main) flat.now }
    requires thresholds { All (λ t. unsigned_abs t ≤ 2 ^ 41) flat.now.thresholds }
    requires control { IsControlSystem flat.now }
    requires falsifying { IsFalsifying (program_tree source.now.program) (name_at (program_tree source.now.program) source.now.typed.main) trace }
    requires probe { IsProbe trace (program_tree source.now.program) (name_at (program_tree source.now.program) source.now.typed.main) }
    requires lacks { HasGood (control_of flat.now) flat.now.thresholds → ⊥ }
    ensures judged { IfOk result (λ v. IsVerdictOf nodes locations v (program_tree source.now.program)
        (name_at (program_tree source.now.program) source.now.typed.main)) }
    ensures decided { IsErrOf result StoreFault.Nodes → ⊥ }
    ensures no_loops { accelerate ≡ false → IfOk result IsPlainVerdict }
{
    match decided(alloc, source, flat, nodes, locations, accelerate) {
        Ok(verdict) => Ok(verdict),
        Err(StoreFault::Nodes) => with_trace(alloc, source, flat, trace),
        Err(StoreFault::Memory) => Err(StoreFault::Memory),
    }
}

/// The verdict with a trace that falsifies a source, and its document.
fn with_trace(
    alloc: Global,
    source: &Source,
    flat: &Flat,
    trace: Trace,
) -> Result<Verdict, StoreFault>
    requires plain { HasPlainNames (program_tree source.now.program) }
    requires known { IsKnown (program_tree source.now.program) (name_at (program_tree source.now.program) source.now.typed.main) flat.now }
    requires trace { IsTrace (program_tree source.now.program) (name_at (program_tree source.now.program) source.now.typed.main) trace }
    ensures traced { IfOk result (IsTraced trace (program_tree source.now.program) (name_at (program_tree source.now.program) source.now.typed.main)) }
    ensures memory { IsErrOf result StoreFault.Nodes → ⊥ }
    ensures no_loops { IfOk result IsPlainVerdict }
{
    fitting_sources();
    told_systems();
    flat_traces();
    fitting_traces();
    let _count = flat.memories.len();
    let document = write_trace(alloc, flat, &trace)?;
    Ok(Verdict::Violated(trace, document))
}

/// The verdict on a source by the box pass over its flat system, where the diagrams have room. Where a probe falsifies it, it has no integers.
fn in_room(
    alloc: Global,
    source: &Source,
    flat: &Flat,
    nodes: u32,
    locations: u32,
    accelerate: bool,
) -> Result<Verdict, StoreFault>
    requires limit { nodes ≤ 33554432 }
    requires least { 1 ≤ locations }
    requires most { locations ≤ 4096 }
    requires plain { HasPlainNames (program_tree source.now.program) }
    requires known { IsKnown (program_tree source.now.program) (name_at (program_tree source.now.program) source.now.typed.main) flat.now }
    requires thresholds { All (λ t. unsigned_abs t ≤ 2 ^ 41) flat.now.thresholds }
    requires unprobed { HasFalsifyingProbe (program_tree source.now.program) (name_at (program_tree source.now.program) source.now.typed.main) flat.now
        → IsControlSystem flat.now }
    ensures judged { IfOk result (λ v. IsVerdictOf nodes locations v (program_tree source.now.program)
        (name_at (program_tree source.now.program) source.now.typed.main)) }
    ensures wide { IsErrOf result StoreFault.Nodes → nodes < 2 ^ (2 ^ length flat.now.variables) }
    ensures no_loops { accelerate ≡ false → IfOk result IsPlainVerdict }
{
    let mut reading = Reading::new(alloc, flat, nodes)?;
    match box_pass(alloc, &mut reading)? {
        BoxEnd::Good(certificate) => safe(alloc, source, flat, certificate),
        BoxEnd::Bad(layers) => not_good(
            alloc,
            source,
            &mut reading,
            &layers,
            locations,
            accelerate,
        ),
    }
}

/// The verdict on a source by the box pass over its flat system, and where the diagrams have no room by a hunt. Where a probe falsifies it, it
/// has no integers.
fn decided(
    alloc: Global,
    source: &Source,
    flat: &Flat,
    nodes: u32,
    locations: u32,
    accelerate: bool,
) -> Result<Verdict, StoreFault>
    requires limit { nodes ≤ 33554432 }
    requires least { 1 ≤ locations }
    requires most { locations ≤ 4096 }
    requires plain { HasPlainNames (program_tree source.now.program) }
    requires known { IsKnown (program_tree source.now.program) (name_at (program_tree source.now.program) source.now.typed.main) flat.now }
    requires thresholds { All (λ t. unsigned_abs t ≤ 2 ^ 41) flat.now.thresholds }
    requires unprobed { HasFalsifyingProbe (program_tree source.now.program) (name_at (program_tree source.now.program) source.now.typed.main) flat.now
        → IsControlSystem flat.now }
    ensures judged { IfOk result (λ v. IsVerdictOf nodes locations v (program_tree source.now.program)
        (name_at (program_tree source.now.program) source.now.typed.main)) }
    ensures wide { IsErrOf result StoreFault.Nodes → nodes < 2 ^ (2 ^ length flat.now.variables) }
    ensures no_loops { accelerate ≡ false → IfOk result IsPlainVerdict }
{
    match in_room(alloc, source, flat, nodes, locations, accelerate) {
        Ok(verdict) => Ok(verdict),
        Err(StoreFault::Memory) => Err(StoreFault::Memory),
        Err(StoreFault::Nodes) => outgrown(alloc, source, flat),
    }
}

/// The verdict on a source whose diagrams outgrow their limit: a trace, where it has integers and a short hunt finds one, and else Nodes.
fn outgrown(alloc: Global, source: &Source, flat: &Flat) -> Result<Verdict, StoreFault>
    requires plain { HasPlainNames (program_tree source.now.program) }
    requires known { IsKnown (program_tree source.now.program) (name_at (program_tree source.now.program) source.now.typed.main) flat.now }
    requires unprobed { HasFalsifyingProbe (program_tree source.now.program) (name_at (program_tree source.now.program) source.now.typed.main) flat.now
        → IsControlSystem flat.now }
    ensures judged { (nodes limit : ℕ) → IfOk result (λ v. IsVerdictOf nodes limit v (program_tree source.now.program)
        (name_at (program_tree source.now.program) source.now.typed.main)) }
    ensures no_loops { IfOk result IsPlainVerdict }
{
    if is_control(flat) {
        return Err(StoreFault::Nodes);
    }
    match chased(alloc, source, flat, FEW_STEPS)? {
        Some(trace) => hunted(alloc, source, flat, trace),
        None => Err(StoreFault::Nodes),
    }
}

/// The verdict on a source with an accepted certificate.
fn safe(
    alloc: Global,
    source: &Source,
    flat: &Flat,
    certificate: Certificate,
) -> Result<Verdict, StoreFault>
    requires plain { HasPlainNames (program_tree source.now.program) }
    requires known { IsKnown (program_tree source.now.program) (name_at (program_tree source.now.program) source.now.typed.main) flat.now }
    requires accepted { IsAccepted (control_of flat.now) certificate }
    ensures judged { (nodes limit : ℕ) → IfOk result (λ v. IsVerdictOf nodes limit v (program_tree source.now.program)
        (name_at (program_tree source.now.program) source.now.typed.main)) }
    ensures memory { IsErrOf result StoreFault.Nodes → ⊥ }
    ensures no_loops { ArePlain certificate → IfOk result IsPlainVerdict }
{
    fitting_sources();
    certificates_are_safe();
    told_systems();
    let _count = flat.memories.len();
    let document = write_certificate(alloc, flat, &certificate)?;
    Ok(Verdict::Safe(certificate, document))
}

/// The verdict on a source of which no closed box claim is good. One with integers may have a good row claim.
fn not_good(
    alloc: Global,
    source: &Source,
    reading: &mut Reading,
    layers: &Layers,
    locations: u32,
    accelerate: bool,
) -> Result<Verdict, StoreFault>
    requires least { 1 ≤ locations }
    requires most { locations ≤ 4096 }
    requires plain { HasPlainNames (program_tree source.now.program) }
    requires read { IsRead reading.old }
    requires known { IsKnown (program_tree source.now.program) (name_at (program_tree source.now.program) source.now.typed.main) (flat_of reading.old) }
    requires lacks { HasGoodBox (system_read reading.old) (flat_of reading.old).thresholds → ⊥ }
    requires thresholds { All (λ t. unsigned_abs t ≤ 2 ^ 41) (flat_of reading.old).thresholds }
    requires unprobed { HasFalsifyingProbe (program_tree source.now.program) (name_at (program_tree source.now.program) source.now.typed.main)
        (flat_of reading.old) → IsControlSystem (flat_of reading.old) }
    requires bad { AreLeastBadLayers (system_read reading.old) (flat_of reading.old).thresholds layers.now }
    requires sets { (t : ℕ) (set : Frozen) → slice_get layers.now.sets t ≡ Some set → IsControlSet (system_read reading.old) set }
    ensures judged { (nodes : ℕ) → IfOk result (λ v. IsVerdictOf nodes locations v (program_tree source.now.program)
        (name_at (program_tree source.now.program) source.now.typed.main)) }
    ensures wide { IsErrOf result StoreFault.Nodes → (diagrams_of reading.old).limit < 2 ^ (2 ^ (diagrams_of reading.old).variables) }
    ensures no_loops { accelerate ≡ false → IfOk result IsPlainVerdict }
{
    let flat = reading.flat();
    if is_control(flat) {
        return violated(alloc, source, reading, layers);
    }
    match early(alloc, source, flat)? {
        Some(trace) => hunted(alloc, source, flat, trace),
        None => analysed(alloc, source, reading, layers, locations, accelerate),
    }
}

/// Whether a flat system has so many order tests that a hunt comes before the analysis.
fn is_wide(flat: &Flat) -> bool {
    let mut tests: usize = 0;
    for bit in flat.variables.as_slice() {
        if let Bit::Test(_, _) = bit {
            tests = tests.saturating_add(1);
        }
    }
    tests > FEW_TESTS
}

/// A trace that falsifies a source, by a hunt of so many instants, or none, which promises nothing.
fn chased(alloc: Global, source: &Source, flat: &Flat, steps: u32) -> Result<Option<Trace>, Memory>
    requires flat { IsFlatOf (program_tree source.now.program) (name_at (program_tree source.now.program) source.now.typed.main) flat.now }
    ensures falsifies { (t : TraceModel) → result ≡ Ok (Some t)
        → IsFalsifying (program_tree source.now.program) (name_at (program_tree source.now.program) source.now.typed.main) t }
{
    hunt(alloc, source, flat, steps)
}

/// The same by a short hunt, where the source has many comparisons.
fn early(alloc: Global, source: &Source, flat: &Flat) -> Result<Option<Trace>, Memory>
    requires flat { IsFlatOf (program_tree source.now.program) (name_at (program_tree source.now.program) source.now.typed.main) flat.now }
    ensures falsifies { (t : TraceModel) → result ≡ Ok (Some t)
        → IsFalsifying (program_tree source.now.program) (name_at (program_tree source.now.program) source.now.typed.main) t }
{
    if is_wide(flat) {
        return chased(alloc, source, flat, FEW_STEPS);
    }
    Ok(None)
}

/// The verdict on a source with integers that a hunt falsifies, and no probe.
fn hunted(alloc: Global, source: &Source, flat: &Flat, trace: Trace) -> Result<Verdict, StoreFault>
    requires plain { HasPlainNames (program_tree source.now.program) }
    requires known { IsKnown (program_tree source.now.program) (name_at (program_tree source.now.program) source.now.typed.main) flat.now }
    requires integers { IsControlSystem flat.now → ⊥ }
    requires unprobed { HasFalsifyingProbe (program_tree source.now.program) (name_at (program_tree source.now.program) source.now.typed.main)
        flat.now → ⊥ }
    requires falsifying { IsFalsifying (program_tree source.now.program) (name_at (program_tree source.now.program) source.now.typed.main) trace }
    ensures judged { (nodes limit : ℕ) → IfOk result (λ v. IsVerdictOf nodes limit v (program_tree source.now.program)
        (name_at (program_tree source.now.program) source.now.typed.main)) }
    ensures memory { IsErrOf result StoreFault.Nodes → ⊥ }
    ensures no_loops { IfOk result IsPlainVerdict }
{
    control_is_a_system();
    claims_are_safe();
    with_trace(alloc, source, flat, trace)
}

/// The verdict on a source with integers, of which no closed box claim is good, and which no probe falsifies.
fn analysed(
    alloc: Global,
    source: &Source,
    reading: &mut Reading,
    layers: &Layers,
    locations: u32,
    accelerate: bool,
) -> Result<Verdict, StoreFault>
    requires least { 1 ≤ locations }
    requires most { locations ≤ 4096 }
    requires plain { HasPlainNames (program_tree source.now.program) }
    requires read { IsRead reading.old }
    requires known { IsKnown (program_tree source.now.program) (name_at (program_tree source.now.program) source.now.typed.main) (flat_of reading.old) }
    requires integers { IsControlSystem (flat_of reading.old) → ⊥ }
    requires lacks { HasGoodBox (system_read reading.old) (flat_of reading.old).thresholds → ⊥ }
    requires thresholds { All (λ t. unsigned_abs t ≤ 2 ^ 41) (flat_of reading.old).thresholds }
    requires unprobed { HasFalsifyingProbe (program_tree source.now.program) (name_at (program_tree source.now.program) source.now.typed.main)
        (flat_of reading.old) → ⊥ }
    requires sets { (t : ℕ) (set : Frozen) → slice_get layers.now.sets t ≡ Some set → IsControlSet (system_read reading.old) set }
    ensures judged { (nodes : ℕ) → IfOk result (λ v. IsVerdictOf nodes locations v (program_tree source.now.program)
        (name_at (program_tree source.now.program) source.now.typed.main)) }
    ensures wide { IsErrOf result StoreFault.Nodes → (diagrams_of reading.old).limit < 2 ^ (2 ^ (diagrams_of reading.old).variables) }
    ensures no_loops { accelerate ≡ false → IfOk result IsPlainVerdict }
{
    let options = Options {
        locations,
        accelerate,
    };
    let end = analyse(alloc, reading, layers, &options)?;
    let system = reading.flat();
    match end {
        End::Proved(certificate) => safe(alloc, source, system, certificate),
        End::Left(left) => searched(alloc, source, reading, layers, left),
    }
}

/// The verdict on a source with integers that the analysis leaves: a trace, where the search for one finds it, and else what is left.
fn searched(
    alloc: Global,
    source: &Source,
    reading: &mut Reading,
    layers: &Layers,
    left: LeftReport,
) -> Result<Verdict, StoreFault>
    requires plain { HasPlainNames (program_tree source.now.program) }
    requires read { IsRead reading.old }
    requires known { IsKnown (program_tree source.now.program) (name_at (program_tree source.now.program) source.now.typed.main) (flat_of reading.old) }
    requires integers { IsControlSystem (flat_of reading.old) → ⊥ }
    requires lacks { HasGood (system_read reading.old) (flat_of reading.old).thresholds → ⊥ }
    requires unprobed { HasFalsifyingProbe (program_tree source.now.program) (name_at (program_tree source.now.program) source.now.typed.main)
        (flat_of reading.old) → ⊥ }
    requires left { IsLeftPartition (system_read reading.old) left.partition left.left }
    requires sets { (t : ℕ) (set : Frozen) → slice_get layers.now.sets t ≡ Some set → IsControlSet (system_read reading.old) set }
    ensures judged { (nodes limit : ℕ) → IsLeftReport (system_read reading.old) limit left
        → IfOk result (λ v. IsVerdictOf nodes limit v (program_tree source.now.program) (name_at (program_tree source.now.program) source.now.typed.main)) }
    ensures wide { IsErrOf result StoreFault.Nodes → (diagrams_of reading.old).limit < 2 ^ (2 ^ (diagrams_of reading.old).variables) }
    ensures no_loops { IfOk result IsPlainVerdict }
{
    let found = find(alloc, reading, source, layers)?;
    let flat = reading.flat();
    match found {
        Some(trace) => with_trace(alloc, source, flat, trace),
        None => late(alloc, source, flat, left),
    }
}

/// The verdict on a source that is undecided by all else: a trace, where a long hunt finds one, and else what is left.
fn late(
    alloc: Global,
    source: &Source,
    flat: &Flat,
    left: LeftReport,
) -> Result<Verdict, StoreFault>
    requires plain { HasPlainNames (program_tree source.now.program) }
    requires known { IsKnown (program_tree source.now.program) (name_at (program_tree source.now.program) source.now.typed.main) flat.now }
    requires integers { IsControlSystem flat.now → ⊥ }
    requires unprobed { HasFalsifyingProbe (program_tree source.now.program) (name_at (program_tree source.now.program) source.now.typed.main)
        flat.now → ⊥ }
    requires undecided { IsUndecided (program_tree source.now.program) (name_at (program_tree source.now.program) source.now.typed.main) }
    requires left { IsLeftPartition (control_of flat.now) left.partition left.left }
    ensures judged { (nodes limit : ℕ) → IsLeftReport (control_of flat.now) limit left
        → IfOk result (λ v. IsVerdictOf nodes limit v (program_tree source.now.program) (name_at (program_tree source.now.program) source.now.typed.main)) }
    ensures memory { IsErrOf result StoreFault.Nodes → ⊥ }
    ensures no_loops { IfOk result IsPlainVerdict }
{
    match chased(alloc, source, flat, MANY_STEPS)? {
        Some(trace) => hunted(alloc, source, flat, trace),
        None => undecided(alloc, source, flat, left),
    }
}

/// The verdict with what is left of a source that is undecided, and its document.
fn undecided(
    alloc: Global,
    source: &Source,
    flat: &Flat,
    left: LeftReport,
) -> Result<Verdict, StoreFault>
    requires plain { HasPlainNames (program_tree source.now.program) }
    requires known { IsKnown (program_tree source.now.program) (name_at (program_tree source.now.program) source.now.typed.main) flat.now }
    requires undecided { IsUndecided (program_tree source.now.program) (name_at (program_tree source.now.program) source.now.typed.main) }
    requires left { IsLeftPartition (control_of flat.now) left.partition left.left }
    ensures judged { (nodes limit : ℕ) → IsLeftReport (control_of flat.now) limit left
        → IfOk result (λ v. IsVerdictOf nodes limit v (program_tree source.now.program) (name_at (program_tree source.now.program) source.now.typed.main)) }
    ensures memory { IsErrOf result StoreFault.Nodes → ⊥ }
    ensures no_loops { IfOk result IsPlainVerdict }
{
    fitting_sources();
    told_systems();
    let _count = flat.memories.len();
    let document = write_left(alloc, flat, &left)?;
    Ok(Verdict::Undecided(left, document))
}

/// The verdict on a source without integers of which no closed box claim is good.
fn violated(
    alloc: Global,
    source: &Source,
    reading: &mut Reading,
    layers: &Layers,
) -> Result<Verdict, StoreFault>
    requires plain { HasPlainNames (program_tree source.now.program) }
    requires read { IsRead reading.old }
    requires known { IsKnown (program_tree source.now.program) (name_at (program_tree source.now.program) source.now.typed.main) (flat_of reading.old) }
    requires program_control { IsControl (program_tree source.now.program) (name_at (program_tree source.now.program) source.now.typed.main) }
    requires columns { HasNoColumns (system_read reading.old) }
    requires bad { AreLeastBadLayers (system_read reading.old) (flat_of reading.old).thresholds layers.now }
    ensures judged { (nodes limit : ℕ) → IfOk result (λ v. IsVerdictOf nodes limit v (program_tree source.now.program)
        (name_at (program_tree source.now.program) source.now.typed.main)) }
    ensures wide { IsErrOf result StoreFault.Nodes → (diagrams_of reading.old).limit < 2 ^ (2 ^ (diagrams_of reading.old).variables) }
    ensures no_loops { IfOk result IsPlainVerdict }
{
    control_is_a_system();
    claims_are_safe();
    let found = find(alloc, reading, source, layers)?;
    let Some(trace) = found else {
        unreachable!();
    };
    let flat = reading.flat();
    with_trace(alloc, source, flat, trace)
}

/// Whether no flow, memory or input of a flat system is an integer. Constants may be compared.
fn is_control(flat: &Flat) -> bool
    ensures { IsTrue result ↔ IsControlSystem flat.now }
{
    has_no_integer(flat)
}

/// Whether no flow, memory or input is an integer.
fn has_no_integer(flat: &Flat) -> bool
    ensures { IsTrue result ↔ (All (λ g. is_integer g.kind ≡ false) flat.now.flows
        × All (λ m. is_integer m.kind ≡ false) flat.now.memories
        × All (λ i. is_integer i.kind ≡ false) flat.now.inputs) }
{
    flat.flows
        .as_slice()
        .iter()
        .all(|flow| flow.kind != Kind::Int)
        && flat
            .memories
            .as_slice()
            .iter()
            .all(|memory| memory.kind != Kind::Int)
        && flat
            .inputs
            .as_slice()
            .iter()
            .all(|input| input.kind != Kind::Int)
}
