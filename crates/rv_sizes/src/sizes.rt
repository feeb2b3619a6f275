//! How many expressions there are in a node.

ghost use Rattle.std.specs.Prelude.{◌≡◌, map, IfOk};
ghost use Rattle.rv_tree.specs.Tree.{tree_of, trees, node_tree, equation_tree, assertion_tree};
ghost use Rattle.rv_instances.specs.Counts.{size, size_of_all, node_size};
ghost use Rattle.rv_types.specs.Variables.{total};
ghost use Rattle.rv_sizes.specs.Capped.{capped, capped_sizes};

use crate::totals::capped_sum;
use rv_base::{Many, Memory};
use rv_tree::{Assertion, Equation, Expr, ExprForm, Node, Program};
use std::alloc::Global;

/// For each node the number of its expressions, or 2^40 where that is less.
pub fn sizes_of(alloc: Global, p: &Program) -> Result<Many<u64>, Memory>
    ensures { IfOk result (λ sizes. sizes ≡ capped_sizes (map node_tree p.now.nodes)) }
{
    let mut sizes = Many::new(alloc);
    for node in p.nodes.as_slice() {
        sizes.push(size_of_node(node))?;
    }
    Ok(sizes)
}

/// The number of expressions in the right sides and assertions of a node.
fn size_of_node(node: &Node) -> u64
    ensures { result ≡ capped (node_size (node_tree node.now)) }
{
    capped_sum(
        size_of_equations(node.equations.as_slice()),
        size_of_assertions(node.assertions.as_slice()),
    )
}

/// The number of expressions in right sides.
fn size_of_equations(equations: &[Equation]) -> u64
    ensures { result ≡ capped (total (λ q. size q.right) (map equation_tree equations.now)) }
{
    let mut sum = 0;
    for equation in equations {
        sum = capped_sum(sum, size_of(&equation.right));
    }
    sum
}

/// The number of expressions in assertions.
fn size_of_assertions(assertions: &[Assertion]) -> u64
    ensures { result ≡ capped (total (λ a. size a.body) (map assertion_tree assertions.now)) }
{
    let mut sum = 0;
    for assertion in assertions {
        sum = capped_sum(sum, size_of(&assertion.body));
    }
    sum
}

/// The number of expressions that an expression is made of. It calls itself for each operand, so as deep as the tree
/// is: 20,301 levels at most.
#[cycle(size)]
fn size_of(e: &Expr) -> u64
    ensures { result ≡ capped (size (tree_of e.now)) }
{
    match &e.form {
        ExprForm::True | ExprForm::False | ExprForm::Number(_) | ExprForm::Named(_) => 1,
        ExprForm::Not(operand)
        | ExprForm::Minus(operand)
        | ExprForm::Pre(operand)
        | ExprForm::Current(operand)
        | ExprForm::When(operand, _) => capped_sum(1, size_of(operand)),
        ExprForm::Binary(_, left, right) => {
            capped_sum(1, capped_sum(size_of(left), size_of(right)))
        }
        ExprForm::If(condition, first, second) => {
            let branches = capped_sum(size_of(first), size_of(second));
            capped_sum(1, capped_sum(size_of(condition), branches))
        }
        ExprForm::AtMostOne(operands) => capped_sum(1, size_of_list(operands.as_slice())),
        ExprForm::Call(_, arguments) => capped_sum(1, size_of_list(arguments.as_slice())),
    }
}

/// The number of expressions that some are made of.
#[cycle(size)]
fn size_of_list(expressions: &[Expr]) -> u64
    ensures { result ≡ capped (size_of_all (trees (map tree_of expressions.now))) }
{
    let mut sum = 0;
    for e in expressions {
        sum = capped_sum(sum, size_of(e));
    }
    sum
}
