//! What stands at a place of a program, found by going through its declarations. That takes no memory.

ghost use Rattle.std.specs.Prelude.{◌≡◌, map};
ghost use Rattle.std.specs.Option.{option_copied, option_map};
ghost use Rattle.rv_tree.specs.Tree.{tree_of, trees, node_tree, equation_tree, assertion_tree};
ghost use Rattle.rv_tree.specs.Places.{index_of};
ghost use Rattle.rv_meaning.specs.Leading.{callee_within, callee_within_all, callee_in_equations as found_in_equations};
ghost use Rattle.rv_meaning.specs.Leading.{callee_in_assertions as found_in_assertions, callee_in_node, operand_within, operand_within_all};
ghost use Rattle.rv_meaning.specs.Leading.{operand_in_equations as operand_of_equations, operand_in_assertions as operand_of_assertions, operand_in_node};
ghost use Rattle.rv_meaning.specs.Leading.{node_texts, callee_at, led_by};

use rv_base::Text;
use rv_tree::{Assertion, Equation, Expr, ExprForm, Node};

/// The number of the node to which call sites lead from the node with a number, none where they lead nowhere.
pub fn node_at(nodes: &[Node], from: usize, path: &[u32]) -> Option<usize>
    ensures { result ≡ led_by (callee_at (map node_tree nodes.now)) from path.now }
{
    let mut number = from;
    for site in path {
        match callee_number(nodes, number, *site) {
            None => return None,
            Some(callee) => number = callee,
        }
    }
    Some(number)
}

/// The number of the node that a call at a site of the node with a number calls.
fn callee_number(nodes: &[Node], number: usize, site: u32) -> Option<usize>
    ensures { result ≡ callee_at (map node_tree nodes.now) number site }
{
    match nodes.get(number) {
        None => None,
        Some(node) => match callee_at_site(node, site) {
            None => None,
            Some(name) => Some(number_of(nodes, name)),
        },
    }
}

/// The number of the first node of a name, the number of all nodes where none has it.
pub fn number_of(nodes: &[Node], name: &Text) -> usize
    ensures { result ≡ index_of (node_texts (map node_tree nodes.now)) name.now }
{
    for (number, node) in nodes.iter().enumerate() {
        if node.name.text == *name {
            return number;
        }
    }
    nodes.len()
}

/// The name of the node that the call at a site of a node calls.
fn callee_at_site<'a>(node: &'a Node, site: u32) -> Option<&'a Text>
    ensures { option_copied result ≡ callee_in_node (node_tree node.now) site }
{
    match callee_in_equations(node.equations.as_slice(), site) {
        Some(name) => Some(name),
        None => callee_in_assertions(node.assertions.as_slice(), site),
    }
}

/// The same in right sides.
fn callee_in_equations<'a>(equations: &'a [Equation], site: u32) -> Option<&'a Text>
    ensures { option_copied result ≡ found_in_equations (map equation_tree equations.now) site }
{
    for equation in equations {
        if let Some(name) = callee_in(&equation.right, site) {
            return Some(name);
        }
    }
    None
}

/// The same in assertions.
fn callee_in_assertions<'a>(assertions: &'a [Assertion], site: u32) -> Option<&'a Text>
    ensures { option_copied result ≡ found_in_assertions (map assertion_tree assertions.now) site }
{
    for assertion in assertions {
        if let Some(name) = callee_in(&assertion.body, site) {
            return Some(name);
        }
    }
    None
}

/// The same in an expression. It calls itself for each operand, so as deep as the tree is: 20,301 levels at most.
#[cycle(callee)]
fn callee_in<'a>(e: &'a Expr, site: u32) -> Option<&'a Text>
    ensures { option_copied result ≡ callee_within (tree_of e.now) site }
{
    match &e.form {
        ExprForm::True | ExprForm::False | ExprForm::Number(_) | ExprForm::Named(_) => None,
        ExprForm::Not(operand)
        | ExprForm::Minus(operand)
        | ExprForm::Pre(operand)
        | ExprForm::Current(operand)
        | ExprForm::When(operand, _) => callee_in(operand, site),
        ExprForm::Binary(_, left, right) => match callee_in(left, site) {
            Some(name) => Some(name),
            None => callee_in(right, site),
        },
        ExprForm::If(condition, first, second) => match callee_in(condition, site) {
            Some(name) => Some(name),
            None => match callee_in(first, site) {
                Some(name) => Some(name),
                None => callee_in(second, site),
            },
        },
        ExprForm::AtMostOne(operands) => callee_in_all(operands.as_slice(), site),
        ExprForm::Call(callee, arguments) => {
            if e.site.unwrap_or(0) == site {
                Some(callee)
            } else {
                callee_in_all(arguments.as_slice(), site)
            }
        }
    }
}

/// The same in expressions.
#[cycle(callee)]
fn callee_in_all<'a>(expressions: &'a [Expr], site: u32) -> Option<&'a Text>
    ensures { option_copied result ≡ callee_within_all (trees (map tree_of expressions.now)) site }
{
    for e in expressions {
        if let Some(name) = callee_in(e, site) {
            return Some(name);
        }
    }
    None
}

/// The operand of the `pre` or `current` at a site of a node.
pub fn operand_at_site<'a>(node: &'a Node, site: u32) -> Option<&'a Expr>
    ensures { option_map tree_of (option_copied result) ≡ operand_in_node (node_tree node.now) site }
{
    match operand_in_equations(node.equations.as_slice(), site) {
        Some(operand) => Some(operand),
        None => operand_in_assertions(node.assertions.as_slice(), site),
    }
}

/// The same in right sides.
fn operand_in_equations<'a>(equations: &'a [Equation], site: u32) -> Option<&'a Expr>
    ensures { option_map tree_of (option_copied result) ≡ operand_of_equations (map equation_tree equations.now) site }
{
    for equation in equations {
        if let Some(operand) = operand_in(&equation.right, site) {
            return Some(operand);
        }
    }
    None
}

/// The same in assertions.
fn operand_in_assertions<'a>(assertions: &'a [Assertion], site: u32) -> Option<&'a Expr>
    ensures { option_map tree_of (option_copied result) ≡ operand_of_assertions (map assertion_tree assertions.now) site }
{
    for assertion in assertions {
        if let Some(operand) = operand_in(&assertion.body, site) {
            return Some(operand);
        }
    }
    None
}

/// The same in an expression. It calls itself for each operand, so as deep as the tree is: 20,301 levels at most.
#[cycle(operand)]
fn operand_in<'a>(e: &'a Expr, site: u32) -> Option<&'a Expr>
    ensures { option_map tree_of (option_copied result) ≡ operand_within (tree_of e.now) site }
{
    match &e.form {
        ExprForm::True | ExprForm::False | ExprForm::Number(_) | ExprForm::Named(_) => None,
        ExprForm::Not(operand) | ExprForm::Minus(operand) | ExprForm::When(operand, _) => {
            operand_in(operand, site)
        }
        ExprForm::Pre(operand) | ExprForm::Current(operand) => {
            if e.site.unwrap_or(0) == site {
                Some(operand)
            } else {
                operand_in(operand, site)
            }
        }
        ExprForm::Binary(_, left, right) => match operand_in(left, site) {
            Some(operand) => Some(operand),
            None => operand_in(right, site),
        },
        ExprForm::If(condition, first, second) => match operand_in(condition, site) {
            Some(operand) => Some(operand),
            None => match operand_in(first, site) {
                Some(operand) => Some(operand),
                None => operand_in(second, site),
            },
        },
        ExprForm::AtMostOne(operands) => operand_in_all(operands.as_slice(), site),
        ExprForm::Call(_, arguments) => operand_in_all(arguments.as_slice(), site),
    }
}

/// The same in expressions.
#[cycle(operand)]
fn operand_in_all<'a>(expressions: &'a [Expr], site: u32) -> Option<&'a Expr>
    ensures { option_map tree_of (option_copied result) ≡ operand_within_all (trees (map tree_of expressions.now)) site }
{
    for e in expressions {
        if let Some(operand) = operand_in(e, site) {
            return Some(operand);
        }
    }
    None
}
