//! How large a program is.

ghost use Rattle.std.specs.Prelude.{◌≡◌, ◌<◌, [], length, map, IfOk, IfErr};
ghost use Rattle.rv_tree.specs.Bounded.{IsBounded};
ghost use Rattle.rv_tree.specs.Tree.{program_tree};
ghost use Rattle.rv_types.specs.Kinds.{flow_kinds};
ghost use Rattle.rv_types.specs.Names.{name_faults};
ghost use Rattle.rv_types.specs.Instances.{node_of, name_at};
ghost use Rattle.rv_instances.specs.Counts.{instance_count, expanded, integer_memories, integer_inputs};
ghost use Rattle.rv_sizes.specs.Sizes.{measures, AreWithin};
ghost use Rattle.rv_types.specs.Variables.{over_instances, variable_count};
ghost use Rattle.rv_sizes.specs.Capped.{capped};
ghost use Rattle.rv_calls.specs.Callings.{callings_of};
ghost use Rattle.rv_sizes.specs.Totals.{AreCapped, total_at};
ghost use Rattle.rv_types.specs.WellFormed.{AreSited, AreWell};
ghost use Rattle.rv_calls.specs.Nodes.{AreOrderedNodes};
ghost use Rattle.rv_sizes.specs.Sized.{IsSizeFault, IsSmall, IsSized};

use crate::declared_sizes::{integer_inputs_of, labels_above};
use crate::memories::memories_of;
use crate::memory_sizes::integer_memories_of;
use crate::sizes::sizes_of;
use crate::ticks::tick_total_of;
use crate::totals::totals;
use crate::variables::variables_of;
use rv_base::{Many, Memory};
use rv_calls::{CauseFault, Nodes, Quantity};
use rv_instances::all_equal;
use rv_tree::{HEAVIEST, Program};
use rv_types::{Typed, program_tables};
use std::alloc::Global;

/// The most instances of a program.
const MOST_INSTANCES: u64 = 4_000;

/// The most expressions of all instances.
const MOST_EXPRESSIONS: u64 = 200_000;

/// The most integer memories of all instances.
const MOST_MEMORIES: u64 = 64;

/// The most integer inputs of the main node.
const MOST_INPUTS: u64 = 64;

/// The most labels of an enumeration.
const MOST_LABELS: u64 = 256;

/// The most variables of the decision diagrams.
const MOST_VARIABLES: u64 = 4_096;

/// Checks the sizes of a program in their order, and answers how many expressions there are, or the first that is too
/// large (`TooLarge`). Sums are taken over nodes, so a program that doubles at each level costs no more than its text. `Memory` comes
/// only for want of memory.
#[tactic(auto, using(crate::proofs::Sized::judged))]
pub fn check_sizes(alloc: Global, p: &Program, t: &Typed, nodes: &Nodes) -> Result<u64, CauseFault>
    requires bounded { IsBounded (program_tree p.now) }
    requires named { name_faults (program_tree p.now) ≡ [] }
    requires kinds { t.now.kinds ≡ map (flow_kinds (program_tree p.now)) (program_tree p.now).nodes }
    requires sited { AreSited (program_tree p.now) }
    requires well { AreWell (program_tree p.now) }
    requires nodes { AreOrderedNodes (program_tree p.now) nodes.now }
    requires main { t.now.main < length (program_tree p.now).nodes }
    ensures small { IfOk result (IsSized (program_tree p.now) (name_at (program_tree p.now) t.now.main)) }
    ensures within { IfOk result (λ count. AreWithin (measures (program_tree p.now) (name_at (program_tree p.now) t.now.main))) }
    ensures large { IfErr result (IsSizeFault (program_tree p.now) (name_at (program_tree p.now) t.now.main)) }
{
    let expanded = match check_expanded(alloc, p, t.main, nodes) {
        Ok(expanded) => expanded,
        Err(fault) => return Err(fault),
    };
    let memories = memory_total(alloc, p, t.main, nodes)?;
    if memories > MOST_MEMORIES {
        return Err(CauseFault::TooLarge(Quantity::Memories, memories));
    }
    let inputs = main_inputs(p, t);
    if inputs > MOST_INPUTS {
        return Err(CauseFault::TooLarge(Quantity::Inputs, inputs));
    }
    let labels = labels_above(p.types.as_slice()).min(HEAVIEST);
    if labels > MOST_LABELS {
        return Err(CauseFault::TooLarge(Quantity::Labels, labels));
    }
    let variables = variable_total(alloc, p, t, nodes)?;
    if variables > MOST_VARIABLES {
        return Err(CauseFault::TooLarge(Quantity::Variables, variables));
    }
    Ok(expanded)
}

/// The number of variables of the decision diagrams, or 2^40 where that is less.
fn variable_total(alloc: Global, p: &Program, t: &Typed, nodes: &Nodes) -> Result<u64, Memory>
    requires bounded { IsBounded (program_tree p.now) }
    requires named { name_faults (program_tree p.now) ≡ [] }
    requires kinds { t.now.kinds ≡ map (flow_kinds (program_tree p.now)) (program_tree p.now).nodes }
    requires sited { AreSited (program_tree p.now) }
    requires well { AreWell (program_tree p.now) }
    requires nodes { AreOrderedNodes (program_tree p.now) nodes.now }
    requires main { t.now.main < length (program_tree p.now).nodes }
    ensures { IfOk result (λ count. count ≡ capped (variable_count (program_tree p.now) (name_at (program_tree p.now) t.now.main))) }
{
    let ticks = tick_total_of(alloc, p, t.main, nodes)?;
    variables_of(alloc, p, t, nodes, ticks)
}

/// Checks that there are not too many instances and expressions, and answers how many expressions there are.
#[tactic(auto, using(crate::proofs::Sized::instances_above, crate::proofs::Sized::expanded_above, crate::proofs::Sized::is_small))]
fn check_expanded(alloc: Global, p: &Program, main: u32, nodes: &Nodes) -> Result<u64, CauseFault>
    requires named { name_faults (program_tree p.now) ≡ [] }
    requires nodes { AreOrderedNodes (program_tree p.now) nodes.now }
    requires main { main < length (program_tree p.now).nodes }
    ensures small { IfOk result (IsSmall (program_tree p.now) (name_at (program_tree p.now) main)) }
    ensures large { IfErr result (IsSizeFault (program_tree p.now) (name_at (program_tree p.now) main)) }
{
    let instances = instance_total(alloc, p, main, nodes)?;
    if instances > MOST_INSTANCES {
        return Err(CauseFault::TooLarge(Quantity::Instances, instances));
    }
    let expanded = expanded_total(alloc, p, main, nodes)?;
    if expanded > MOST_EXPRESSIONS {
        return Err(CauseFault::TooLarge(Quantity::Expanded, expanded));
    }
    Ok(expanded)
}

/// The number of integer inputs of the main node, or 2^40 where that is less.
fn main_inputs(p: &Program, t: &Typed) -> u64
    requires named { name_faults (program_tree p.now) ≡ [] }
    requires kinds { t.now.kinds ≡ map (flow_kinds (program_tree p.now)) (program_tree p.now).nodes }
    requires main { t.now.main < length (program_tree p.now).nodes }
    ensures { result ≡ capped (integer_inputs (program_tree p.now) (node_of (program_tree p.now) (name_at (program_tree p.now) t.now.main))) }
{
    let main = t.main as usize;
    integer_inputs_of(p.nodes.at(main), t.kinds.at(main).as_slice()).min(HEAVIEST)
}

/// The number of integer memories of all instances below the main node, or 2^40 where that is less.
fn memory_total(alloc: Global, p: &Program, main: u32, nodes: &Nodes) -> Result<u64, Memory>
    requires bounded { IsBounded (program_tree p.now) }
    requires named { name_faults (program_tree p.now) ≡ [] }
    requires nodes { AreOrderedNodes (program_tree p.now) nodes.now }
    requires main { main < length (program_tree p.now).nodes }
    ensures { IfOk result (λ count. count ≡ capped (over_instances (program_tree p.now) (name_at (program_tree p.now) main)
        (integer_memories (program_tree p.now)))) }
{
    let tables = program_tables(alloc, p)?;
    let kinds = memories_of(alloc, p, &tables)?;
    let own = integer_memories_of(alloc, &kinds)?;
    total_of(alloc, p, main, nodes, &own)
}

/// The number of instances below the main node, or 2^40 where that is less.
fn instance_total(alloc: Global, p: &Program, main: u32, nodes: &Nodes) -> Result<u64, Memory>
    requires named { name_faults (program_tree p.now) ≡ [] }
    requires nodes { AreOrderedNodes (program_tree p.now) nodes.now }
    requires main { main < length (program_tree p.now).nodes }
    ensures { IfOk result (λ count. count ≡ capped (instance_count (program_tree p.now) (name_at (program_tree p.now) main))) }
{
    let own = all_equal(alloc, p.nodes.len(), 1)?;
    total_of(alloc, p, main, nodes, &own)
}

/// The number of expressions of all instances below the main node, or 2^40 where that is less.
fn expanded_total(alloc: Global, p: &Program, main: u32, nodes: &Nodes) -> Result<u64, Memory>
    requires named { name_faults (program_tree p.now) ≡ [] }
    requires nodes { AreOrderedNodes (program_tree p.now) nodes.now }
    requires main { main < length (program_tree p.now).nodes }
    ensures { IfOk result (λ count. count ≡ capped (expanded (program_tree p.now) (name_at (program_tree p.now) main))) }
{
    let own = sizes_of(alloc, p)?;
    total_of(alloc, p, main, nodes, &own)
}

/// The sum over a node and all that it calls.
pub fn total_of(
    alloc: Global,
    p: &Program,
    main: u32,
    nodes: &Nodes,
    own: &Many<u64>,
) -> Result<u64, Memory>
    requires named { name_faults (program_tree p.now) ≡ [] }
    requires nodes { AreOrderedNodes (program_tree p.now) nodes.now }
    requires main { main < length (program_tree p.now).nodes }
    requires size { length own.now ≡ length (program_tree p.now).nodes }
    requires own { AreCapped own.now }
    ensures { IfOk result (λ sum. sum ≡ capped (total_at own.now (callings_of (program_tree p.now)) (length (program_tree p.now).nodes) main)) }
{
    let sums = totals(alloc, own, &nodes.calls, &nodes.order)?;
    Ok(*sums.at(main as usize))
}
