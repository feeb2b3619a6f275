//! How many order tests the comparisons of integers in a node are.

ghost use Rattle.std.specs.Prelude.{◌≡◌, ◌≤◌, ◌<◌, ◌^◌, [], length, map, IfOk};
ghost use Rattle.rv_tree.specs.Bounded.{IsBounded};
ghost use Rattle.rv_tree.specs.Places.{flows};
ghost use Rattle.rv_tree.specs.Tree.{ProgramTree, node_tree, program_tree};
ghost use Rattle.rv_types.specs.Names.{name_faults, repeated, decl_names, decls};
ghost use Rattle.rv_types.specs.Readings.{AreTables, view_of};
ghost use Rattle.rv_types.specs.Tables.{scope_of};
ghost use Rattle.rv_types.specs.Variables.{total, tests_of, order_tests};
ghost use Rattle.rv_types.specs.WellFormed.{AreWell, IsWellFormed, IsWellTyped};
ghost use Rattle.rv_instances.specs.Timed.{operator_listed};
ghost use Rattle.rv_sizes.specs.Capped.{capped};
ghost use Rattle.rv_sizes.specs.Tests.{tests_told};

use crate::totals::capped_sum;
use rv_base::{Many, Memory};
use rv_instances::{ClockedOperator, Timed, timed_of};
use rv_tree::{Node, Op, Program};
use rv_types::{Kind, NodeTables, ProgramTables, head_kind, node_clocks, node_tables};
use std::alloc::Global;

/// For each node the number of its order tests, or 2^40 where that is less. Time grows with the expressions, up to look-ups.
pub fn order_tests_of(
    alloc: Global,
    p: &Program,
    tables: &ProgramTables,
) -> Result<Many<u64>, Memory>
    requires bounded { IsBounded (program_tree p.now) }
    requires tables { AreTables (program_tree p.now) tables.now }
    requires named { name_faults (program_tree p.now) ≡ [] }
    requires well { AreWell (program_tree p.now) }
    ensures { IfOk result (λ own. own ≡ map (λ n. capped (order_tests (program_tree p.now) n)) (map node_tree p.now.nodes)) }
{
    let mut own = Many::new(alloc);
    for node in p.nodes.as_slice() {
        let count = order_tests_of_node(alloc, tables, node)?;
        own.push(count)?;
    }
    Ok(own)
}

/// The number of order tests of a node that keeps the rules.
fn order_tests_of_node(alloc: Global, tables: &ProgramTables, node: &Node) -> Result<u64, Memory>
    requires different { repeated [] (decl_names (decls (node_tree node.now))) ≡ [] }
    requires few { length (flows (node_tree node.now)) < 2 ^ 32 }
    ensures { (p : ProgramTree) → AreTables p tables.now → IsWellFormed p (node_tree node.now)
        → IsWellTyped p (node_tree node.now) → IfOk result (λ count. count ≡ capped (order_tests p (node_tree node.now))) }
{
    let own = node_tables(alloc, tables, node)?;
    let clocks = node_clocks(alloc, node)?;
    let Timed { operators, .. } = timed_of(alloc, &clocks)?;
    Ok(tests_among(tables, &own, operators.as_slice()))
}

/// Those of some operators.
fn tests_among(tables: &ProgramTables, node: &NodeTables, operators: &[ClockedOperator]) -> u64
    ensures { result ≡ capped (total (tests_told (scope_of (view_of tables.now node.now))) (map operator_listed operators.now)) }
{
    let mut sum = 0;
    for operator in operators {
        sum = capped_sum(sum, own_tests(tables, node, operator));
    }
    sum
}

/// Those of an operator, by its left operand.
fn own_tests(tables: &ProgramTables, node: &NodeTables, operator: &ClockedOperator) -> u64
    ensures value { result ≡ tests_told (scope_of (view_of tables.now node.now)) (operator_listed operator.now) }
    ensures small { result ≤ 2 }
{
    let count = tests_of_op(operator.operator);
    if count == 0 {
        return 0;
    }
    match head_kind(tables, node, operator.left) {
        Kind::Int => count,
        Kind::Bool | Kind::Labels(_) => 0,
    }
}

/// One test tells `<=` and `>`, another `<` and `>=`, and both together `=` and `<>`.
fn tests_of_op(op: Op) -> u64
    ensures value { result ≡ tests_of op }
    ensures small { result ≤ 2 }
{
    match op {
        Op::Equal | Op::Differs => 2,
        Op::Less | Op::AtMost | Op::Greater | Op::AtLeast => 1,
        _ => 0,
    }
}
