//! The calls of the nodes of a program.

ghost use Rattle.std.specs.Prelude.{◌≡◌, ◌++◌, ◌∷◌, ◌≤◌, [], map, length, unwrap_or, IfOk, OnOk};
ghost use Rattle.rv_base.specs.Limits.{source_limit};
ghost use Rattle.rv_tree.specs.Places.{index_of};
ghost use Rattle.rv_tree.specs.Tree.{tree_of, trees, node_tree, equation_tree, assertion_tree, program_tree};
ghost use Rattle.rv_types.specs.Names.{name_faults};
ghost use Rattle.rv_types.specs.Instances.{calls, calls_in, calls_in_all, calls_in_equations, calls_in_assertions};
ghost use Rattle.rv_calls.specs.Callings.{callings, callings_of, callees, call_graph};
ghost use Rattle.rv_instances.specs.AllInstances.{names_of};

use crate::names::Names;
use rv_base::{Many, Memory, Text};
use rv_tree::{Assertion, Equation, Expr, ExprForm, Node, Program};
use std::alloc::Global;

/// A call of a node.
#[derive(Clone, Copy, Debug, PartialEq, Eq)]
pub struct Calling {
    /// Its offset in the source.
    pub at: u32,
    /// Its site in the node that it stands in.
    pub site: u32,
    /// The number of the node that is called; that of all nodes where no node has the name.
    pub callee: u32,
}

/// The names of the nodes, by their numbers.
pub fn names_of_nodes(alloc: Global, p: &Program) -> Result<Names, Memory>
    requires { name_faults (program_tree p.now) ≡ [] }
    ensures { IfOk result (λ names. names ≡ names_of (program_tree p.now)) }
{
    let mut names = Names::new(alloc);
    for node in p.nodes.as_slice() {
        let _ = names.add(&node.name.text)?;
    }
    Ok(names)
}

/// The calls of each node. A name that no node has counts as a node after all others.
pub fn calls_of(alloc: Global, p: &Program, names: &Names) -> Result<Many<Many<Calling>>, Memory>
    requires names { names.now ≡ names_of (program_tree p.now) }
    requires few { length names.now ≤ source_limit }
    ensures { IfOk result (λ table. table ≡ callings_of (program_tree p.now)) }
{
    let mut table = Many::new(alloc);
    for node in p.nodes.as_slice() {
        table.push(node_calls(alloc, node, names)?)?;
    }
    Ok(table)
}

/// The calls of a node, in its equations and then in its assertions.
pub fn node_calls(alloc: Global, node: &Node, names: &Names) -> Result<Many<Calling>, Memory>
    requires { length names.now ≤ source_limit }
    ensures { IfOk result (λ found. found ≡ callings names.now (calls (node_tree node.now))) }
{
    let mut found = Many::new(alloc);
    gather_equations(node.equations.as_slice(), names, &mut found)?;
    gather_assertions(node.assertions.as_slice(), names, &mut found)?;
    Ok(found)
}

/// Adds the calls of the right sides.
fn gather_equations(
    equations: &[Equation],
    names: &Names,
    found: &mut Many<Calling>,
) -> Result<(), Memory>
    requires { length names.now ≤ source_limit }
    ensures { OnOk result (found.new ≡ found.old ++ callings names.now (calls_in_equations (map equation_tree equations.now))) }
{
    for equation in equations {
        gather(&equation.right, names, found)?;
    }
    Ok(())
}

/// Adds the calls of the assertions.
fn gather_assertions(
    assertions: &[Assertion],
    names: &Names,
    found: &mut Many<Calling>,
) -> Result<(), Memory>
    requires { length names.now ≤ source_limit }
    ensures { OnOk result (found.new ≡ found.old ++ callings names.now (calls_in_assertions (map assertion_tree assertions.now))) }
{
    for assertion in assertions {
        gather(&assertion.body, names, found)?;
    }
    Ok(())
}

/// Adds the calls of an expression. It calls itself for each operand, so as deep as the tree is: 20,301 levels at most.
#[cycle(gather)]
fn gather(e: &Expr, names: &Names, found: &mut Many<Calling>) -> Result<(), Memory>
    requires { length names.now ≤ source_limit }
    ensures { OnOk result (found.new ≡ found.old ++ callings names.now (calls_in (tree_of e.now))) }
{
    match &e.form {
        ExprForm::True | ExprForm::False | ExprForm::Number(_) | ExprForm::Named(_) => Ok(()),
        ExprForm::Not(operand)
        | ExprForm::Minus(operand)
        | ExprForm::Pre(operand)
        | ExprForm::Current(operand)
        | ExprForm::When(operand, _) => gather(operand, names, found),
        ExprForm::Binary(_, left, right) => {
            gather(left, names, found)?;
            gather(right, names, found)
        }
        ExprForm::If(condition, first, second) => {
            gather(condition, names, found)?;
            gather(first, names, found)?;
            gather(second, names, found)
        }
        ExprForm::AtMostOne(operands) => gather_all(operands.as_slice(), names, found),
        ExprForm::Call(callee, arguments) => {
            add_call(e.at, e.site, callee, names, found)?;
            gather_all(arguments.as_slice(), names, found)
        }
    }
}

/// Adds the calls of the expressions.
#[cycle(gather)]
fn gather_all(expressions: &[Expr], names: &Names, found: &mut Many<Calling>) -> Result<(), Memory>
    requires { length names.now ≤ source_limit }
    ensures { OnOk result (found.new ≡ found.old ++ callings names.now (calls_in_all (trees (map tree_of expressions.now)))) }
{
    for e in expressions {
        gather(e, names, found)?;
    }
    Ok(())
}

/// Adds a call.
fn add_call(
    at: u32,
    site: Option<u32>,
    callee: &Text,
    names: &Names,
    found: &mut Many<Calling>,
) -> Result<(), Memory>
    requires { length names.now ≤ source_limit }
    ensures { OnOk result (found.new ≡ found.old ++ record { at = at; site = unwrap_or site 0; callee = index_of names.now callee.now } ∷ []) }
{
    let callee = names.place(callee) as u32;
    found.push(Calling {
        at,
        site: site.unwrap_or(0),
        callee,
    })?;
    Ok(())
}

/// Which node calls which.
pub fn graph_of(alloc: Global, table: &Many<Many<Calling>>) -> Result<Many<Many<u32>>, Memory>
    ensures { IfOk result (λ graph. graph ≡ call_graph table.now) }
{
    let mut graph = Many::new(alloc);
    for calls in table.as_slice() {
        graph.push(targets_of(alloc, calls.as_slice())?)?;
    }
    Ok(graph)
}

/// The nodes that are called.
fn targets_of(alloc: Global, calls: &[Calling]) -> Result<Many<u32>, Memory>
    ensures { IfOk result (λ targets. targets ≡ callees calls.now) }
{
    let mut targets = Many::new(alloc);
    for call in calls {
        targets.push(call.callee)?;
    }
    Ok(targets)
}
