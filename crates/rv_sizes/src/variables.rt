//! The variables of decision diagrams.

ghost use Rattle.std.specs.Prelude.{◌≡◌, ◌<◌, ◌≤◌, ◌+◌, ◌*◌, [], length, map, IfOk};
ghost use Rattle.rv_tree.specs.Bounded.{IsBounded};
ghost use Rattle.rv_tree.specs.Tree.{program_tree};
ghost use Rattle.rv_types.specs.Kinds.{flow_kinds};
ghost use Rattle.rv_types.specs.Names.{name_faults};
ghost use Rattle.rv_types.specs.Readings.{AreTables};
ghost use Rattle.rv_types.specs.Instances.{node_of};
ghost use Rattle.rv_types.specs.WellFormed.{AreWell};
ghost use Rattle.rv_types.specs.Variables.{over_instances, memory_bits, order_tests, input_bits, ticks as tick_places, variable_count};
ghost use Rattle.rv_sizes.specs.Capped.{capped};
ghost use Rattle.rv_types.specs.Instances.{name_at};
ghost use Rattle.rv_calls.specs.Nodes.{AreOrderedNodes};
ghost use Rattle.rv_base.specs.Limits.{heaviest};

use crate::bits::{bits_of_kinds, memory_bits_of};
use crate::measure::total_of;
use crate::memories::memories_of;
use crate::order_tests::order_tests_of;
use crate::totals::capped_sum;
use rv_base::Memory;
use rv_calls::Nodes;
use rv_tree::{HEAVIEST, Program};
use rv_types::{ProgramTables, Typed, program_tables};
use std::alloc::Global;

/// The variables of the diagrams of a program with so many ticks, or 2^40 where that is less. State bits are the main
/// tick, the other ticks and those of the control memories, and each has a next copy.
#[tactic(auto, using(crate::proofs::Varied::variables_counted))]
pub fn variables_of(
    alloc: Global,
    p: &Program,
    t: &Typed,
    nodes: &Nodes,
    ticks: u64,
) -> Result<u64, Memory>
    requires bounded { IsBounded (program_tree p.now) }
    requires named { name_faults (program_tree p.now) ≡ [] }
    requires kinds { t.now.kinds ≡ map (flow_kinds (program_tree p.now)) (program_tree p.now).nodes }
    requires well { AreWell (program_tree p.now) }
    requires nodes { AreOrderedNodes (program_tree p.now) nodes.now }
    requires main { t.now.main < length (program_tree p.now).nodes }
    requires ticks { ticks ≡ capped (length (tick_places (program_tree p.now) (name_at (program_tree p.now) t.now.main))) }
    ensures { IfOk result (λ count. count ≡ capped (variable_count (program_tree p.now) (name_at (program_tree p.now) t.now.main))) }
{
    let tables = program_tables(alloc, p)?;
    let bits = memory_bit_total(alloc, p, &tables, t.main, nodes)?;
    let tests = order_test_total(alloc, p, &tables, t.main, nodes)?;
    let inputs = main_input_bits(p, t);
    Ok(sum_of_variables(ticks, bits, inputs, tests))
}

/// Variables of so many ticks, bits of memories and of inputs, and order tests.
fn sum_of_variables(ticks: u64, bits: u64, inputs: u64, tests: u64) -> u64
    requires ticks { ticks ≤ heaviest }
    requires bits { bits ≤ heaviest }
    requires inputs { inputs ≤ heaviest }
    requires tests { tests ≤ heaviest }
    ensures { result ≡ capped (2 * (1 + (ticks + bits)) + (inputs + tests)) }
{
    (2 * (1 + (ticks + bits)) + (inputs + tests)).min(HEAVIEST)
}

/// The bits of the control memories of all instances below the main node, or 2^40 where that is less.
fn memory_bit_total(
    alloc: Global,
    p: &Program,
    tables: &ProgramTables,
    main: u32,
    nodes: &Nodes,
) -> Result<u64, Memory>
    requires bounded { IsBounded (program_tree p.now) }
    requires tables { AreTables (program_tree p.now) tables.now }
    requires named { name_faults (program_tree p.now) ≡ [] }
    requires nodes { AreOrderedNodes (program_tree p.now) nodes.now }
    requires main { main < length (program_tree p.now).nodes }
    ensures { IfOk result (λ count. count ≡ capped (over_instances (program_tree p.now) (name_at (program_tree p.now) main)
        (memory_bits (program_tree p.now)))) }
{
    let kinds = memories_of(alloc, p, tables)?;
    let own = memory_bits_of(alloc, p.types.as_slice(), &kinds)?;
    total_of(alloc, p, main, nodes, &own)
}

/// The order tests of all instances below the main node, or 2^40 where that is less.
fn order_test_total(
    alloc: Global,
    p: &Program,
    tables: &ProgramTables,
    main: u32,
    nodes: &Nodes,
) -> Result<u64, Memory>
    requires bounded { IsBounded (program_tree p.now) }
    requires tables { AreTables (program_tree p.now) tables.now }
    requires named { name_faults (program_tree p.now) ≡ [] }
    requires well { AreWell (program_tree p.now) }
    requires nodes { AreOrderedNodes (program_tree p.now) nodes.now }
    requires main { main < length (program_tree p.now).nodes }
    ensures { IfOk result (λ count. count ≡ capped (over_instances (program_tree p.now) (name_at (program_tree p.now) main)
        (order_tests (program_tree p.now)))) }
{
    let own = order_tests_of(alloc, p, tables)?;
    total_of(alloc, p, main, nodes, &own)
}

/// The bits of the control inputs of the main node, or 2^40 where that is less.
fn main_input_bits(p: &Program, t: &Typed) -> u64
    requires bounded { IsBounded (program_tree p.now) }
    requires named { name_faults (program_tree p.now) ≡ [] }
    requires kinds { t.now.kinds ≡ map (flow_kinds (program_tree p.now)) (program_tree p.now).nodes }
    requires main { t.now.main < length (program_tree p.now).nodes }
    ensures { result ≡ capped (input_bits (program_tree p.now) (node_of (program_tree p.now) (name_at (program_tree p.now) t.now.main))) }
{
    let main = t.main as usize;
    let count = p.nodes.at(main).inputs.len();
    let kinds = t.kinds.at(main).as_slice();
    bits_of_kinds(p.types.as_slice(), &kinds[..count])
}
