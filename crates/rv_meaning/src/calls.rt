//! The calls of nodes, by their sites.

ghost use Rattle.std.specs.Prelude.{◌≡◌, ◌≤◌, ◌++◌, ◌∷◌, [], ℕ, map, length, nat_eq, unwrap_or, IfOk, OnOk};
ghost use Rattle.std.specs.HashMap.{get};
ghost use Rattle.rv_tree.specs.Bounded.{most};
ghost use Rattle.rv_tree.specs.Tree.{tree_of, trees, node_tree, equation_tree, assertion_tree};
ghost use Rattle.rv_types.specs.Instances.{calls, calls_in, calls_in_all, calls_in_equations, calls_in_assertions};
ghost use Rattle.rv_meaning.specs.Callings.{callings, first_callee, AreCallees, callee_in};
ghost use Rattle.rv_meaning.specs.Leading.{led_by};
ghost use Rattle.rv_meaning.specs.Numbers.{number_in};

use crate::numbers::{Numbers, node_numbers};
use rv_base::{Many, Memory, Text};
use rv_tree::{Assertion, Equation, Expr, ExprForm, Node};
use std::alloc::Global;
use std::collections::HashMap;

/// A call: its site in its node, and the number of the node that is called.
#[derive(Clone, Copy, Debug, PartialEq, Eq)]
pub struct Calling {
    pub site: u32,
    pub callee: u32,
}

/// For each node the numbers of the nodes that it calls, by the sites of the calls.
pub fn callees_of(alloc: Global, nodes: &[Node]) -> Result<Many<HashMap<u32, u32>>, Memory>
    requires { length nodes.now ≤ most }
    ensures { IfOk result (AreCallees (map node_tree nodes.now)) }
{
    let names = node_numbers(alloc, nodes)?;
    let mut tables = Many::new(alloc);
    for node in nodes {
        let calls = calls_of(alloc, node, &names)?;
        tables.push(by_site(alloc, calls.as_slice())?)?;
    }
    Ok(tables)
}

/// The number of the node to which call sites lead from the node with a number, none where they lead nowhere.
pub fn node_at(callees: &[HashMap<u32, u32>], from: u32, path: &[u32]) -> Option<u32>
    ensures { result ≡ led_by (callee_in callees.now) from path.now }
{
    let mut number = from;
    for site in path {
        match callee_number(callees, number, *site) {
            None => return None,
            Some(callee) => number = callee,
        }
    }
    Some(number)
}

/// The number of the node that a call at a site of the node with a number calls.
fn callee_number(callees: &[HashMap<u32, u32>], number: u32, site: u32) -> Option<u32>
    ensures { result ≡ callee_in callees.now number site }
{
    match callees.get(number as usize) {
        None => None,
        Some(table) => table.get(&site).copied(),
    }
}

/// The callees of calls by the sites of these. They are entered from the last on, so that of calls at one site the
/// first counts.
fn by_site(alloc: Global, calls: &[Calling]) -> Result<HashMap<u32, u32>, Memory>
    ensures { IfOk result (λ table. (s : ℕ) → get nat_eq table s ≡ first_callee calls.now s) }
{
    let mut table = HashMap::new(alloc);
    let mut left = calls.len();
    while left > 0 {
        left -= 1;
        table.insert(calls[left].site, calls[left].callee)?;
    }
    Ok(table)
}

/// The calls of a node, in its equations and then in its assertions.
fn calls_of(alloc: Global, node: &Node, names: &Numbers) -> Result<Many<Calling>, Memory>
    ensures { IfOk result (λ found. found ≡ callings names.now (calls (node_tree node.now))) }
{
    let mut found = Many::new(alloc);
    gather_equations(node.equations.as_slice(), names, &mut found)?;
    gather_assertions(node.assertions.as_slice(), names, &mut found)?;
    Ok(found)
}

/// Adds the calls of the right sides.
fn gather_equations(
    equations: &[Equation],
    names: &Numbers,
    found: &mut Many<Calling>,
) -> Result<(), Memory>
    ensures { OnOk result (found.new ≡ found.old ++ callings names.now (calls_in_equations (map equation_tree equations.now))) }
{
    for equation in equations {
        gather(&equation.right, names, found)?;
    }
    Ok(())
}

/// Adds the calls of the assertions.
fn gather_assertions(
    assertions: &[Assertion],
    names: &Numbers,
    found: &mut Many<Calling>,
) -> Result<(), Memory>
    ensures { OnOk result (found.new ≡ found.old ++ callings names.now (calls_in_assertions (map assertion_tree assertions.now))) }
{
    for assertion in assertions {
        gather(&assertion.body, names, found)?;
    }
    Ok(())
}

/// Adds the calls of an expression. It calls itself for each operand, so as deep as the tree is: 20,301 levels at most.
#[cycle(gather)]
fn gather(e: &Expr, names: &Numbers, found: &mut Many<Calling>) -> Result<(), Memory>
    ensures { OnOk result (found.new ≡ found.old ++ callings names.now (calls_in (tree_of e.now))) }
{
    match &e.form {
        ExprForm::True | ExprForm::False | ExprForm::Number(_) | ExprForm::Named(_) => Ok(()),
        ExprForm::Not(operand)
        | ExprForm::Minus(operand)
        | ExprForm::Pre(operand)
        | ExprForm::Current(operand)
        | ExprForm::When(operand, _) => gather(operand, names, found),
        ExprForm::Binary(_, left, right) => {
            gather(left, names, found)?;
            gather(right, names, found)
        }
        ExprForm::If(condition, first, second) => {
            gather(condition, names, found)?;
            gather(first, names, found)?;
            gather(second, names, found)
        }
        ExprForm::AtMostOne(operands) => gather_all(operands.as_slice(), names, found),
        ExprForm::Call(callee, arguments) => {
            add_call(e.site, callee, names, found)?;
            gather_all(arguments.as_slice(), names, found)
        }
    }
}

/// Adds the calls of the expressions.
#[cycle(gather)]
fn gather_all(
    expressions: &[Expr],
    names: &Numbers,
    found: &mut Many<Calling>,
) -> Result<(), Memory>
    ensures { OnOk result (found.new ≡ found.old ++ callings names.now (calls_in_all (trees (map tree_of expressions.now)))) }
{
    for e in expressions {
        gather(e, names, found)?;
    }
    Ok(())
}

/// Adds a call.
#[inline(never)]
fn add_call(
    site: Option<u32>,
    callee: &Text,
    names: &Numbers,
    found: &mut Many<Calling>,
) -> Result<(), Memory>
    ensures { OnOk result (found.new ≡ found.old ++ record { site = unwrap_or site 0; callee = number_in names.now callee.now } ∷ []) }
{
    found.push(Calling {
        site: site.unwrap_or(0),
        callee: names.number(callee),
    })?;
    Ok(())
}
