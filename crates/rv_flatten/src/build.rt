//! From an accepted source to its flat system.

ghost use Rattle.std.specs.Prelude.{◌≡◌, ◌≤◌, [], length, map, IfOk};
ghost use Rattle.rv_tree.specs.Places.{names};
ghost use Rattle.rv_tree.specs.Tree.{program_tree};
ghost use Rattle.rv_types.specs.Instances.{name_at, node_of};
ghost use Rattle.rv_types.specs.Kinds.{decl_kinds};
ghost use Rattle.rv_types.specs.Lists.{AreColumns, AreVariables, sites_of};
ghost use Rattle.rv_types.specs.Names.{labels_of as declared_labels, texts};
ghost use Rattle.rv_types.specs.Readings.{AreTables};
ghost use Rattle.rv_types.specs.Scopes.{constant_values, observer_faults};
ghost use Rattle.rv_types.specs.Settled.{node_number};
ghost use Rattle.rv_instances.specs.AllInstances.{AreCounted};
ghost use Rattle.rv_instances.specs.Fitting.{AreFew, Fits};
ghost use Rattle.rv_instances.specs.Counts.{expanded};
ghost use Rattle.rv_instances.specs.Expanded.{IsKnown, program_of, main_of};
ghost use Rattle.rv_flatten.specs.Building.{AreAsserted, AreMade, AreRemembered, IsFoundOf, IsGiven, main_given, numbers_of, program_given};
ghost use Rattle.rv_flatten.specs.NodeReaders.{AreOwnTables};
ghost use Rattle.rv_flat.specs.FlatOf.{IsFlatOf};
ghost use Rattle.rv_flat.specs.Lists.{column_of, tick_places, variable_of};
ghost use Rattle.rv_flat.specs.Thresholds.{AreThresholds};

use crate::assertions::flat_assertions;
use crate::expressions::number_at;
use crate::flows::flat_flows;
use crate::found::{Found, found_in};
use crate::given::Given;
use crate::laws::fitting_sources;
use crate::naming::{inputs_of, labels_of};
use crate::node_reader::own_tables;
use crate::remembered::flat_memories;
use crate::thresholds::thresholds_of;
use crate::variables::{columns_of, variables_of};
use rv_agreement::{checked_is_well, one_meaning, translated_expressions, translated_systems};
use rv_base::{Many, Memory, Place, Text};
use rv_flat::{Bit, Column, Flat, FlatExpr, FlatFlow, FlatInput, FlatMemory};
use rv_instances::{Expanded, Order, Source, flows_in, givers_of, instance_numbers, layout_of};
use rv_meaning::defined_flows;
use rv_tree::Program;
use rv_types::{NodeTables, ProgramTables, Typed, named_values, program_tables};
use std::alloc::Global;

/// The inputs of the main node, the diagram variables and the columns.
#[derive(Drop)]
struct Declared {
    inputs: Many<FlatInput>,
    variables: Many<Bit>,
    columns: Many<Column>,
}

/// The memories, the flows and the assertions.
#[derive(Drop)]
struct Parts {
    memories: Many<FlatMemory>,
    flows: Many<FlatFlow>,
    assertions: Many<FlatExpr>,
}

/// The name of the main node, the labels of the enumerations, the thresholds and the numbers of the ticks' flows.
#[derive(Drop)]
struct Told {
    name: Text,
    labels: Many<Many<Text>>,
    thresholds: Many<i128>,
    tick_flows: Many<u32>,
}

/// The flat system of an accepted source. `Memory` comes where memory runs out. Time grows with the number of expressions of
/// all instances and with the length of the places in the answer, up to look-ups.
pub fn flatten(alloc: Global, source: &Source) -> Result<Flat, Memory>
    ensures flat { IfOk result (IsFlatOf (program_tree source.now.program) (name_at (program_tree source.now.program) source.now.typed.main)) }
    ensures expanded { IfOk result (λ f. f.expanded ≡ expanded (program_tree source.now.program)
        (name_at (program_tree source.now.program) source.now.typed.main)) }
{
    fitting_sources();
    flat_of(alloc, &source.program, &source.typed, &source.order)
}

/// The flat system of a program, with what is known of its names, types and clocks and with an order of evaluation.
fn flat_of(alloc: Global, program: &Program, typed: &Typed, order: &Order) -> Result<Flat, Memory>
    requires { Fits (program_tree program.now) typed.now order.now }
    ensures flat { IfOk result (IsFlatOf (program_tree program.now) (name_at (program_tree program.now) typed.now.main)) }
    ensures expanded { IfOk result (λ f. f.expanded ≡ expanded (program_tree program.now) (name_at (program_tree program.now) typed.now.main)) }
{
    let expanded = Expanded::new(alloc, program, typed.main, &order.instances)?;
    flat_expanded(alloc, &expanded, typed, order)
}

/// The flat system of a program whose instances are known.
fn flat_expanded(
    alloc: Global,
    expanded: &Expanded,
    typed: &Typed,
    order: &Order,
) -> Result<Flat, Memory>
    requires known { IsKnown expanded.now }
    requires fits { Fits (program_of expanded.now) typed.now order.now }
    requires main { expanded.now.main ≡ typed.now.main }
    ensures flat { IfOk result (IsFlatOf (program_of expanded.now) (main_of expanded.now)) }
    ensures expanded { IfOk result (λ f. f.expanded ≡ order.now.expanded) }
{
    let tables = program_tables(alloc, expanded.program)?;
    let owns = own_tables(alloc, expanded, &tables)?;
    flat_read(alloc, expanded, typed, order, &tables, &owns)
}

/// The flat system of a program whose tables are known.
fn flat_read(
    alloc: Global,
    expanded: &Expanded,
    typed: &Typed,
    order: &Order,
    tables: &ProgramTables,
    owns: &Many<NodeTables>,
) -> Result<Flat, Memory>
    requires known { IsKnown expanded.now }
    requires fits { Fits (program_of expanded.now) typed.now order.now }
    requires main { expanded.now.main ≡ typed.now.main }
    requires tables { AreTables (program_of expanded.now) tables.now }
    requires owns { AreOwnTables (program_of expanded.now) tables.now owns.now }
    ensures flat { IfOk result (IsFlatOf (program_of expanded.now) (main_of expanded.now)) }
    ensures expanded { IfOk result (λ f. f.expanded ≡ order.now.expanded) }
{
    let values = named_values(expanded.program, tables, typed.constants.as_slice());
    let flows = flows_in(alloc, expanded)?;
    let layout = layout_of(alloc, expanded)?;
    let givers = givers_of(alloc, expanded, &layout)?;
    let given = Given {
        expanded,
        layout: &layout,
        givers: &givers,
        flows: &flows,
        tables,
        owns,
        values: &values,
        kinds: &typed.kinds,
        sequence: order.sequence.as_slice(),
    };
    flat_given(alloc, typed, order, &given)
}

/// The flat system by what is known of a program.
fn flat_given(alloc: Global, typed: &Typed, order: &Order, given: &Given) -> Result<Flat, Memory>
    requires given { IsGiven given.now }
    requires tables { AreTables (program_given given.now) given.now.tables.now }
    requires fits { Fits (program_given given.now) typed.now order.now }
    requires main { given.now.expanded.now.main ≡ typed.now.main }
    ensures flat { IfOk result (IsFlatOf (program_given given.now) (main_given given.now)) }
    ensures expanded { IfOk result (λ f. f.expanded ≡ order.now.expanded) }
{
    let found = found_in(
        alloc,
        given.expanded,
        given.layout,
        given.tables,
        given.sequence,
    )?;
    flat_by(alloc, typed, order.expanded, given, &found)
}

/// The flat system by what is known and found.
fn flat_by(
    alloc: Global,
    typed: &Typed,
    expanded: u64,
    given: &Given,
    found: &Found,
) -> Result<Flat, Memory>
    requires given { IsGiven given.now }
    requires found { IsFoundOf given.now found.now }
    requires counted { AreCounted (program_given given.now) (main_given given.now) }
    requires limits { AreFew (program_given given.now) (main_given given.now) }
    requires observer { observer_faults (program_given given.now) (main_given given.now) ≡ [] }
    requires main { typed.now.main ≡ node_number (program_given given.now) (main_given given.now) }
    requires constants { typed.now.constants ≡ constant_values (program_given given.now) }
    requires few { expanded ≤ 200000 }
    ensures flat { IfOk result (IsFlatOf (program_given given.now) (main_given given.now)) }
    ensures expanded { IfOk result (λ f. f.expanded ≡ expanded) }
{
    defined_flows();
    instance_numbers();
    one_meaning();
    translated_expressions();
    translated_systems();
    checked_is_well();
    let main = given.expanded.node(0);
    let observer = number_at(&found.numbering.flows, main.inputs.len());
    let declared = declared_of(alloc, typed, given, found)?;
    let parts = parts_of(alloc, given, found)?;
    let told = told_of(alloc, typed, given, found)?;
    Ok(Flat {
        variables: declared.variables,
        columns: declared.columns,
        memories: parts.memories,
        inputs: declared.inputs,
        flows: parts.flows,
        assertions: parts.assertions,
        observer,
        main: told.name,
        labels: told.labels,
        thresholds: told.thresholds,
        expanded,
        tick_flows: told.tick_flows,
    })
}

/// The inputs of the main node, the diagram variables and the columns.
fn declared_of(
    alloc: Global,
    typed: &Typed,
    given: &Given,
    found: &Found,
) -> Result<Declared, Memory>
    requires given { IsGiven given.now }
    requires found { IsFoundOf given.now found.now }
    requires main { typed.now.main ≡ node_number (program_given given.now) (main_given given.now) }
    ensures names { IfOk result (λ d. map (λ i. i.name) d.inputs ≡ names (node_of (program_given given.now) (main_given given.now)).inputs) }
    ensures kinds { IfOk result (λ d. map (λ i. i.kind) d.inputs
        ≡ decl_kinds (program_given given.now) (node_of (program_given given.now) (main_given given.now)).inputs) }
    ensures ticks { IfOk result (λ d. tick_places d.variables ≡ sites_of found.now.ticks) }
    ensures variables { IfOk result (λ d. AreVariables (program_given given.now) (main_given given.now) (map variable_of d.variables)) }
    ensures columns { IfOk result (λ d. AreColumns (program_given given.now) (main_given given.now) (map column_of d.columns)) }
{
    let program = given.expanded.program;
    let main = given.expanded.node(0);
    let kinds = given.kinds.at(typed.main as usize).as_slice();
    let inputs = inputs_of(alloc, main.inputs.as_slice(), kinds)?;
    let variables = variables_of(
        alloc,
        program.types.as_slice(),
        found.ticks.as_slice(),
        found.kept.as_slice(),
        &kinds[..main.inputs.len()],
        found.comparisons.as_slice(),
    )?;
    let columns = columns_of(alloc, found.kept.as_slice(), &kinds[..main.inputs.len()])?;
    Ok(Declared {
        inputs,
        variables,
        columns,
    })
}

/// The memories, the flows and the assertions.
fn parts_of(alloc: Global, given: &Given, found: &Found) -> Result<Parts, Memory>
    requires given { IsGiven given.now }
    requires found { IsFoundOf given.now found.now }
    ensures memories { IfOk result (λ x. AreRemembered given.now.expanded.now (sites_of given.now.sequence.now) found.now x.memories) }
    ensures flows { IfOk result (λ x. AreMade (program_given given.now) (main_given given.now) (numbers_of given.now found.now)
        (sites_of given.now.sequence.now) x.flows) }
    ensures assertions { IfOk result (λ x. AreAsserted given.now.expanded.now (numbers_of given.now found.now)
        (length given.now.expanded.now.instances.now) x.assertions) }
{
    let memories = flat_memories(alloc, given, found)?;
    let flows = flat_flows(alloc, given, found)?;
    let assertions = flat_assertions(alloc, given, found)?;
    Ok(Parts {
        memories,
        flows,
        assertions,
    })
}

/// The name of the main node, the labels of the enumerations, the thresholds and the numbers of the ticks' flows.
fn told_of(alloc: Global, typed: &Typed, given: &Given, found: &Found) -> Result<Told, Memory>
    requires given { IsGiven given.now }
    requires constants { typed.now.constants ≡ constant_values (program_given given.now) }
    ensures name { IfOk result (λ x. x.name ≡ main_given given.now) }
    ensures labels { IfOk result (λ x. x.labels ≡ map (λ d. texts (declared_labels d)) (program_given given.now).types) }
    ensures thresholds { IfOk result (λ x. AreThresholds (program_given given.now) x.thresholds) }
    ensures tick_flows { IfOk result (λ x. x.tick_flows ≡ found.now.tick_flows) }
{
    let program = given.expanded.program;
    let main = given.expanded.node(0);
    let labels = labels_of(alloc, program.types.as_slice())?;
    let thresholds = thresholds_of(alloc, program, typed.constants.as_slice())?;
    let name = main.name.text.clone()?;
    let tick_flows = same_numbers(alloc, &found.tick_flows)?;
    Ok(Told {
        name,
        labels,
        thresholds,
        tick_flows,
    })
}

/// The same numbers again.
fn same_numbers(alloc: Global, numbers: &Many<u32>) -> Result<Many<u32>, Memory>
    ensures { IfOk result (λ made. made ≡ numbers.now) }
{
    let copy = Vec::from_slice(alloc, numbers.as_slice())?;
    Ok(Many::from_vec(copy))
}
