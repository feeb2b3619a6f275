//! The thresholds of a program: the numbers beside its literals and its integer constants.

ghost use Rattle.std.specs.Prelude.{◌≡◌, ◌++◌, ◌+◌, ◌^◌, ◌≤◌, ◌+ℤ◌, ◌-ℤ◌, neg_ℤ, nat_abs, pos, flat_map, map, IfOk, OnOk};
ghost use Rattle.std.specs.List.{All};
ghost use Rattle.std.specs.List.Sorted.{IsSorted};
ghost use Rattle.std.specs.Ordering.{int_cmp};
ghost use Rattle.rv_tree.specs.Tree.{tree_of, trees, equation_tree, assertion_tree, node_tree, constant_tree, program_tree};
ghost use Rattle.rv_types.specs.Scopes.{constant_values};
ghost use Rattle.rv_flatten.specs.Literals.{literals, literals_of_all, equation_literals, assertion_literals, node_literals, constant_literals};
ghost use Rattle.rv_flatten.specs.Literals.{program_literals, program_numbers, IsSmall, IsSmallValue, around, around_literal, around_value, is_last, with_new};
ghost use Rattle.rv_flatten.specs.Literals.{IsDistinctOf};
ghost use Rattle.rv_flat.specs.Thresholds.{AreThresholds};

use rv_base::{Many, Memory, Value};
use rv_tree::{Assertion, ConstDecl, Equation, Expr, ExprForm, Node, Program};
use std::alloc::{AllocError, Global};

/// The thresholds of a program, of its integer literals and of the values of its constants: each such number, the one before
/// it and the one after it, and the negatives of these, in rising order, each once.
pub fn thresholds_of(alloc: Global, p: &Program, constants: &[Value]) -> Result<Many<i128>, Memory>
    requires { constants.now ≡ constant_values (program_tree p.now) }
    ensures { IfOk result (AreThresholds (program_tree p.now)) }
{
    let mut numbers = numbers_of(alloc, p, constants)?.into_vec();
    numbers.sort()?;
    each_once(alloc, &numbers)
}

/// What stands beside each literal of the program and each integer among the values of its constants.
fn numbers_of(alloc: Global, p: &Program, constants: &[Value]) -> Result<Many<i128>, Memory>
    requires { constants.now ≡ constant_values (program_tree p.now) }
    ensures { IfOk result (λ numbers. numbers ≡ program_numbers (program_tree p.now)) }
{
    let literals = literals_of(alloc, p)?;
    let mut spread = Many::new(alloc);
    spread_literals(literals.as_slice(), &mut spread)?;
    spread_values(constants, &mut spread)?;
    Ok(spread)
}

/// The literals of all constants and nodes.
fn literals_of(alloc: Global, p: &Program) -> Result<Many<u64>, Memory>
    ensures { IfOk result (λ literals. literals ≡ program_literals (program_tree p.now)) }
{
    let mut literals = Many::new(alloc);
    add_constants(p.constants.as_slice(), &mut literals)?;
    add_nodes(p.nodes.as_slice(), &mut literals)?;
    Ok(literals)
}

/// Adds the literals of an expression. It calls itself for each operand, so as deep as the tree is.
#[cycle(literals)]
fn add_literals(e: &Expr, found: &mut Many<u64>) -> Result<(), AllocError>
    ensures { OnOk result (found.new ≡ found.old ++ literals (tree_of e.now)) }
{
    match &e.form {
        ExprForm::True | ExprForm::False | ExprForm::Named(_) => Ok(()),
        ExprForm::Number(n) => found.push(*n),
        ExprForm::Not(a) | ExprForm::Minus(a) | ExprForm::When(a, _) => add_literals(a, found),
        ExprForm::Pre(a) | ExprForm::Current(a) => add_literals(a, found),
        ExprForm::Binary(_, a, b) => {
            add_literals(a, found)?;
            add_literals(b, found)
        }
        ExprForm::If(a, b, c) => {
            add_literals(a, found)?;
            add_literals(b, found)?;
            add_literals(c, found)
        }
        ExprForm::AtMostOne(es) | ExprForm::Call(_, es) => add_all_literals(es.as_slice(), found),
    }
}

/// Adds those of some expressions.
#[cycle(literals)]
fn add_all_literals(es: &[Expr], found: &mut Many<u64>) -> Result<(), AllocError>
    ensures { OnOk result (found.new ≡ found.old ++ literals_of_all (trees (map tree_of es.now))) }
{
    'each: for e in es {
        add_literals(e, found)?;
    }
    Ok(())
}

/// Adds those of equations.
fn add_equations(equations: &[Equation], found: &mut Many<u64>) -> Result<(), AllocError>
    ensures { OnOk result (found.new ≡ found.old ++ equation_literals (map equation_tree equations.now)) }
{
    'each: for equation in equations {
        add_literals(&equation.right, found)?;
    }
    Ok(())
}

/// Adds those of assertions.
fn add_assertions(assertions: &[Assertion], found: &mut Many<u64>) -> Result<(), AllocError>
    ensures { OnOk result (found.new ≡ found.old ++ assertion_literals (map assertion_tree assertions.now)) }
{
    'each: for assertion in assertions {
        add_literals(&assertion.body, found)?;
    }
    Ok(())
}

/// Adds those of constants.
fn add_constants(constants: &[ConstDecl], found: &mut Many<u64>) -> Result<(), AllocError>
    ensures { OnOk result (found.new ≡ found.old ++ constant_literals (map constant_tree constants.now)) }
{
    'each: for constant in constants {
        add_literals(&constant.body, found)?;
    }
    Ok(())
}

/// Adds those of a node.
fn add_node(node: &Node, found: &mut Many<u64>) -> Result<(), AllocError>
    ensures { OnOk result (found.new ≡ found.old ++ node_literals (node_tree node.now)) }
{
    add_equations(node.equations.as_slice(), found)?;
    add_assertions(node.assertions.as_slice(), found)
}

/// Adds those of some nodes.
fn add_nodes(nodes: &[Node], found: &mut Many<u64>) -> Result<(), AllocError>
    ensures { OnOk result (found.new ≡ found.old ++ flat_map node_literals (map node_tree nodes.now)) }
{
    'each: for node in nodes {
        add_node(node, found)?;
    }
    Ok(())
}

/// Adds what stands beside some literals.
fn spread_literals(literals: &[u64], spread: &mut Many<i128>) -> Result<(), AllocError>
    ensures { OnOk result (spread.new ≡ spread.old ++ flat_map around_literal literals.now) }
{
    'each: for literal in literals {
        add_around(i128::from(*literal), spread)?;
    }
    Ok(())
}

/// Adds what stands beside the integers among some values.
fn spread_values(values: &[Value], spread: &mut Many<i128>) -> Result<(), AllocError>
    requires { All IsSmallValue values.now }
    ensures { OnOk result (spread.new ≡ spread.old ++ flat_map around_value values.now) }
{
    'each: for value in values {
        spread_value(*value, spread)?;
    }
    Ok(())
}

/// Adds what stands beside a value, where it is an integer.
fn spread_value(value: Value, spread: &mut Many<i128>) -> Result<(), AllocError>
    requires { IsSmallValue value }
    ensures { OnOk result (spread.new ≡ spread.old ++ around_value value) }
{
    match value {
        Value::Whole(number) => add_around(number, spread),
        _ => Ok(()),
    }
}

/// Adds a number, the one before it and the one after it, and the negatives of these.
fn add_around(number: i128, spread: &mut Many<i128>) -> Result<(), AllocError>
    requires { IsSmall number }
    ensures { OnOk result (spread.new ≡ spread.old ++ around number) }
{
    let before = one_less(number);
    let after = one_more(number);
    spread.push(before)?;
    spread.push(number)?;
    spread.push(after)?;
    spread.push(negative(before))?;
    spread.push(negative(number))?;
    spread.push(negative(after))
}

fn one_less(number: i128) -> i128
    requires { IsSmall number }
    ensures { result ≡ number -ℤ pos 1 }
{
    number - 1
}

fn one_more(number: i128) -> i128
    requires { IsSmall number }
    ensures { result ≡ number +ℤ pos 1 }
{
    number + 1
}

fn negative(number: i128) -> i128
    requires { nat_abs number ≤ 2 ^ 64 + 1 }
    ensures { result ≡ neg_ℤ number }
{
    -number
}

/// Each number of a sorted list once.
fn each_once(alloc: Global, sorted: &[i128]) -> Result<Many<i128>, Memory>
    requires { IsSorted int_cmp sorted.now }
    ensures { IfOk result (IsDistinctOf sorted.now) }
{
    let mut distinct = Many::new(alloc);
    'each: for number in sorted {
        add_new(*number, &mut distinct)?;
    }
    Ok(distinct)
}

/// Adds a number, unless it is the last.
fn add_new(number: i128, distinct: &mut Many<i128>) -> Result<(), AllocError>
    ensures { OnOk result (distinct.new ≡ with_new distinct.old number) }
{
    if ends_with(distinct.as_slice(), number) {
        return Ok(());
    }
    distinct.push(number)
}

/// Whether a number is the last of some.
fn ends_with(numbers: &[i128], number: i128) -> bool
    ensures { result ≡ is_last numbers.now number }
{
    match numbers.last() {
        Some(last) => *last == number,
        None => false,
    }
}
