//! The comparisons of integers of all instances, in the order of their places.

ghost use Rattle.std.specs.Prelude.{◌≡◌, ◌++◌, [], map, flat_map, length, slice_index_or, IfOk, OnOk};
ghost use Rattle.std.specs.Cmp.Lexicographic.{slice_cmp};
ghost use Rattle.std.specs.Ordering.{nat_cmp};
ghost use Rattle.rv_tree.specs.Places.{is_same};
ghost use Rattle.rv_tree.specs.Sites.{is_comparison};
ghost use Rattle.rv_tree.specs.Tree.{ProgramTree, tree_of, node_tree};
ghost use Rattle.rv_types.specs.Known.{flow_names};
ghost use Rattle.rv_types.specs.Lists.{AreComparisons};
ghost use Rattle.rv_types.specs.Names.{repeated};
ghost use Rattle.rv_types.specs.Readings.{AreTables, view_of};
ghost use Rattle.rv_types.specs.Tables.{scope_of};
ghost use Rattle.rv_types.specs.Variables.{is_integer};
ghost use Rattle.rv_instances.specs.Expanded.{IsKnown, program_of, main_of};
ghost use Rattle.rv_instances.specs.Timed.{operator_listed};
ghost use Rattle.rv_flatten.specs.Compared.{is_told_test, own_test, tests_in, told_tests_in, compared_at, compared_in};
ghost use Rattle.rv_flatten.specs.Kept.{found_comparison};
ghost use Rattle.rv_flatten.specs.NodeReaders.{scope_read, lists_to, AreSortedBy};

use crate::kept::Comparison;
use crate::memories::place_of;
use crate::node_reader::NodeReader;
use rv_base::{Many, Memory, Path};
use rv_instances::{ClockedOperator, Expanded, Instance, Timed, timed_of};
use rv_tree::{Expr, Op};
use rv_types::{Kind, NodeClocks, NodeTables, ProgramTables, head_kind};
use std::alloc::Global;
use std::cmp::Ordering;

/// A comparison of integers in a node: its site and its operator.
#[derive(Clone, Copy)]
pub struct Tested {
    pub site: u32,
    pub operator: Op,
}

/// The comparisons of integers of all instances, in the order of their places: a proper prefix first, then by the first
/// number that differs. `Memory` comes where memory runs out. Time grows with the expressions of all nodes, with the
/// comparisons of all instances and with the length of the places, up to look-ups and one sort.
pub fn comparisons_of(
    alloc: Global,
    expanded: &Expanded,
    tables: &ProgramTables,
) -> Result<Many<Comparison>, Memory>
    requires known { IsKnown expanded.now }
    requires tables { AreTables (program_of expanded.now) tables.now }
    ensures { IfOk result (λ cs. AreComparisons (program_of expanded.now) (main_of expanded.now) (map found_comparison cs)) }
{
    let tested = tests_of_nodes(alloc, expanded, tables)?;
    let found = found_in_all(alloc, expanded.instances.as_slice(), tested.as_slice())?;
    Ok(sorted(found))
}

/// What was found, in the order of places, and of each place once.
fn sorted(found: Many<Comparison>) -> Many<Comparison>
    ensures { AreSortedBy (λ c. c.place.sites) found result }
{
    let mut found = found.into_vec();
    found.sort_unstable_by(|one, other| compare(one, other));
    found.dedup_by(|later, one| is_one(later, one));
    Many::from_vec(found)
}

/// Whether the place of a comparison stands before that of another.
fn compare(one: &Comparison, other: &Comparison) -> Ordering
    ensures { result ≡ slice_cmp nat_cmp one.now.place.sites other.now.place.sites }
{
    one.place.sites.compare(&other.place.sites)
}

/// Whether two comparisons have one place.
fn is_one(one: &Comparison, other: &Comparison) -> bool
    ensures { result ≡ is_same one.now.place.sites other.now.place.sites }
{
    one.place.sites == other.place.sites
}

/// The comparisons of all instances, instance by instance.
fn found_in_all(
    alloc: Global,
    instances: &[Instance],
    tested: &[Many<Tested>],
) -> Result<Many<Comparison>, Memory>
    ensures { IfOk result (λ found. map found_comparison found ≡ lists_to (compared_in tested.now instances.now) (length instances.now)) }
{
    let mut found = Many::new(alloc);
    for instance in instances {
        let own = tests_at(tested, instance.node);
        push_found(&instance.path, own, &mut found)?;
    }
    Ok(found)
}

/// The comparisons of the node with a number.
fn tests_at(tested: &[Many<Tested>], node: u32) -> &[Tested]
    ensures { result.now ≡ slice_index_or tested.now node [] }
{
    match tested.get(node as usize) {
        None => &[],
        Some(own) => own.as_slice(),
    }
}

/// Adds those of an instance.
fn push_found(path: &Path, tested: &[Tested], found: &mut Many<Comparison>) -> Result<(), Memory>
    ensures { OnOk result (map found_comparison found.new ≡ map found_comparison found.old ++ map (compared_at path.now) tested.now) }
{
    for one in tested {
        found.push(Comparison {
            place: place_of(path, one.site)?,
            operator: one.operator,
        })?;
    }
    Ok(())
}

/// The comparisons of integers of each node.
fn tests_of_nodes(
    alloc: Global,
    expanded: &Expanded,
    tables: &ProgramTables,
) -> Result<Many<Many<Tested>>, Memory>
    requires known { IsKnown expanded.now }
    requires tables { AreTables (program_of expanded.now) tables.now }
    ensures { IfOk result (λ tested. tested ≡ map (tests_in (program_of expanded.now)) (program_of expanded.now).nodes) }
{
    let mut tested = Many::new(alloc);
    for clocks in expanded.clocks.as_slice() {
        let own = tests_of_node(alloc, tables, clocks)?;
        tested.push(own)?;
    }
    Ok(tested)
}

/// Those of a node, whose flows have different names, by what the heads of left operands tell of their types.
fn tests_of_node(
    alloc: Global,
    tables: &ProgramTables,
    clocks: &NodeClocks,
) -> Result<Many<Tested>, Memory>
    ensures { (p : ProgramTree) → AreTables p tables.now → repeated [] (flow_names (node_tree clocks.now.node.now)) ≡ []
        → IfOk result (λ tested. tested ≡ told_tests_in p (node_tree clocks.now.node.now)) }
{
    let reader = NodeReader::new(alloc, tables, clocks)?;
    let Timed { operators, .. } = timed_of(alloc, clocks)?;
    tests_among(alloc, &reader, operators.as_slice())
}

/// Those among the operators of a node.
fn tests_among(
    alloc: Global,
    reader: &NodeReader,
    operators: &[ClockedOperator],
) -> Result<Many<Tested>, Memory>
    ensures { IfOk result (λ tested. tested ≡ flat_map (own_test (is_told_test (scope_read reader.now))) (map operator_listed operators.now)) }
{
    let mut found = Many::new(alloc);
    for one in operators {
        push_test(reader, one, &mut found)?;
    }
    Ok(found)
}

/// Adds an operator, where it has a site and is a comparison of integers.
fn push_test(
    reader: &NodeReader,
    one: &ClockedOperator,
    found: &mut Many<Tested>,
) -> Result<(), Memory>
    ensures { OnOk result (found.new ≡ found.old ++ own_test (is_told_test (scope_read reader.now)) (operator_listed one.now)) }
{
    let operator = one.operator;
    if let Some(site) = one.site {
        if is_test(reader.tables, &reader.own, operator, one.left) {
            found.push(Tested { site, operator })?;
        }
    }
    Ok(())
}

/// Whether an operator with this left operand, which has a type, compares integers, by the tables of its node. It looks at
/// the head of the operand alone.
pub fn is_test(tables: &ProgramTables, own: &NodeTables, operator: Op, left: &Expr) -> bool
    ensures { result ≡ is_told_test (scope_of (view_of tables.now own.now)) operator (tree_of left.now) }
{
    compares(operator) && is_int(head_kind(tables, own, left))
}

fn is_int(kind: Kind) -> bool
    ensures { result ≡ is_integer kind }
{
    match kind {
        Kind::Int => true,
        Kind::Bool | Kind::Labels(_) => false,
    }
}

fn compares(operator: Op) -> bool
    ensures { result ≡ is_comparison operator }
{
    match operator {
        Op::Equal | Op::Differs | Op::Less | Op::AtMost | Op::Greater | Op::AtLeast => true,
        _ => false,
    }
}
