//! Sentences on types and clocks that do not go together.

use crate::expression::{put_expression, sign_of};
use crate::kinds::{clock_of, clock_of_name, put_clock, put_type};
use crate::names::Names;
use crate::refused::Refused;
use crate::sites::{expressions, push_operands};
use rv_base::Memory;
use rv_tree::{Equation, Expr, ExprForm, Node, Op};
use std::alloc::Global;

/// The expression of a node whose offset this is.
fn found_in<'a>(alloc: Global, node: &'a Node, at: u32) -> Result<Option<&'a Expr>, Memory> {
    for e in expressions(alloc, node)? {
        if e.at == at {
            return Ok(Some(e));
        }
    }
    Ok(None)
}

/// The equation of a node whose right side has this offset.
fn equation_at<'a>(node: &'a Node, at: u32) -> Option<&'a Equation> {
    node.equations
        .as_slice()
        .iter()
        .find(|equation| equation.right.at == at)
}

/// Adds the text of an expression, between two marks.
fn put_marked(text: &mut String, e: &Expr) -> Result<(), Memory> {
    text.push('`')?;
    put_expression(text, e)?;
    text.push('`')?;
    Ok(())
}

/// Adds what stands before an operand.
fn put_between(text: &mut String, is_first: bool) -> Result<(), Memory> {
    if is_first {
        text.push_str(": ")?;
    } else {
        text.push_str(", ")?;
    }
    Ok(())
}

/// Adds each operand with its type.
fn put_operand_types<'a>(
    alloc: Global,
    text: &mut String,
    names: &Names<'a>,
    node: Option<&'a Node>,
    e: &'a Expr,
) -> Result<(), Memory> {
    let mut operands = Vec::new(alloc);
    push_operands(&mut operands, e)?;
    let mut is_first = true;
    for operand in operands.as_slice().iter().rev() {
        put_between(text, is_first)?;
        put_marked(text, operand)?;
        text.push_str(" is of type ")?;
        put_type(text, names, node, operand)?;
        is_first = false;
    }
    Ok(())
}

/// Adds what joins the operands of an expression.
fn put_joint(text: &mut String, e: &Expr) -> Result<(), Memory> {
    match &e.form {
        ExprForm::Binary(op, _, _) => text.push_str(sign_of(*op))?,
        ExprForm::Not(_) => text.push_str("not")?,
        ExprForm::Minus(_) => text.push('-')?,
        ExprForm::If(_, _, _) => text.push_str("if")?,
        ExprForm::AtMostOne(_) => text.push('#')?,
        ExprForm::When(_, _) => text.push_str("when")?,
        ExprForm::Current(_) => text.push_str("current")?,
        ExprForm::Call(callee, _) => text.push_str(callee.as_str())?,
        _ => put_expression(text, e)?,
    }
    Ok(())
}

/// Adds what the node of a call takes.
fn put_taken(text: &mut String, names: &Names, e: &Expr) -> Result<(), Memory> {
    let ExprForm::Call(callee, _) = &e.form else {
        return Ok(());
    };
    let Some(sites) = names.number(callee).and_then(|number| names.node(number)) else {
        return Ok(());
    };
    text.push_str("; it takes ")?;
    let mut between = "";
    for input in sites.node.inputs.as_slice() {
        text.push_str(between)?;
        text.push_str(input.name.text.as_str())?;
        text.push_str(": ")?;
        text.push_str(crate::kinds::type_name(&input.kind))?;
        between = ", ";
    }
    Ok(())
}

/// Adds both sides of an equation with their types.
fn put_sides<'a>(
    text: &mut String,
    names: &Names<'a>,
    node: &'a Node,
    equation: &'a Equation,
) -> Result<(), Memory> {
    text.push_str("the two sides of this equation differ in type: ")?;
    for left in equation.lefts.as_slice() {
        text.push('`')?;
        text.push_str(left.text.as_str())?;
        text.push_str("` is of type ")?;
        match type_of_name(node, left.text.as_str()) {
            Some(kind) => text.push_str(kind)?,
            None => text.push_str("(none)")?,
        }
        text.push_str(", ")?;
    }
    text.push_str("the right side of type ")?;
    put_type(text, names, Some(node), &equation.right)
}

/// The type of a flow.
fn type_of_name<'a>(node: &'a Node, name: &str) -> Option<&'a str> {
    let site = crate::sites::site_of(node, name)?;
    let (decl, _) = crate::sites::flow_at(node, site)?;
    Some(crate::kinds::type_name(&decl.kind))
}

/// Whether the right side of an equation is of another type than its one left side.
fn is_other<'a>(names: &Names<'a>, node: &'a Node, equation: &'a Equation) -> bool {
    match equation.lefts.as_slice() {
        [left] => {
            let kind = type_of_name(node, left.text.as_str());
            kind != crate::kinds::type_of(names, Some(node), &equation.right)
        }
        _ => true,
    }
}

/// Adds which types do not go together at this offset.
pub fn put_type_clash<'a>(
    refused: &Refused,
    text: &mut String,
    names: &Names<'a>,
    at: u32,
) -> Result<(), Memory> {
    for sites in names.nodes.as_slice() {
        let node = sites.node;
        if let Some(equation) = equation_at(node, at) {
            if is_other(names, node, equation) {
                return put_sides(text, names, node, equation);
            }
        }
        if let Some(e) = found_in(refused.alloc, node, at)? {
            text.push_str("the types here do not go together with `")?;
            put_joint(text, e)?;
            text.push('`')?;
            put_operand_types(refused.alloc, text, names, Some(node), e)?;
            return put_taken(text, names, e);
        }
    }
    text.push_str("this is not of the type that it is to have")?;
    Ok(())
}

/// Adds what is not linear at this offset.
pub fn put_not_linear(
    refused: &Refused,
    text: &mut String,
    names: &Names,
    at: u32,
) -> Result<(), Memory> {
    for sites in names.nodes.as_slice() {
        if let Some(e) = found_in(refused.alloc, sites.node, at)? {
            if let ExprForm::Binary(Op::Times, _, _) = &e.form {
                text.push_str("one factor of a product is to be a constant, and neither is in ")?;
            } else {
                text.push_str("a division is refused: ")?;
            }
            return put_marked(text, e);
        }
    }
    text.push_str("one factor of a product is to be a constant, and a division is refused")?;
    Ok(())
}

/// Adds each operand with its clock.
fn put_operand_clocks(
    alloc: Global,
    text: &mut String,
    node: &Node,
    e: &Expr,
) -> Result<(), Memory> {
    let mut operands = Vec::new(alloc);
    push_operands(&mut operands, e)?;
    let mut is_first = true;
    for operand in operands.as_slice().iter().rev() {
        put_between(text, is_first)?;
        put_marked(text, operand)?;
        text.push_str(" is on ")?;
        put_clock(text, clock_of(alloc, node, operand)?)?;
        is_first = false;
    }
    if let ExprForm::When(_, clock) = &e.form {
        text.push_str(", `")?;
        text.push_str(clock.text.as_str())?;
        text.push_str("` on ")?;
        put_clock(text, clock_of_name(node, clock.text.as_str()))?;
    }
    Ok(())
}

/// Adds both sides of an equation with their clocks.
fn put_paced_sides(
    alloc: Global,
    text: &mut String,
    node: &Node,
    equation: &Equation,
) -> Result<(), Memory> {
    text.push_str("the two sides of this equation differ in clock: ")?;
    for left in equation.lefts.as_slice() {
        text.push('`')?;
        text.push_str(left.text.as_str())?;
        text.push_str("` is on ")?;
        put_clock(text, clock_of_name(node, left.text.as_str()))?;
        text.push_str(", ")?;
    }
    text.push_str("the right side on ")?;
    put_clock(text, clock_of(alloc, node, &equation.right)?)
}

/// Adds which clocks do not go together at this offset.
pub fn put_clock_clash(
    refused: &Refused,
    text: &mut String,
    names: &Names,
    at: u32,
) -> Result<(), Memory> {
    for sites in names.nodes.as_slice() {
        let node = sites.node;
        if let Some(equation) = equation_at(node, at) {
            if differ(refused.alloc, node, equation)? {
                return put_paced_sides(refused.alloc, text, node, equation);
            }
        }
        if let Some(e) = found_in(refused.alloc, node, at)? {
            text.push_str("the clocks here do not go together with `")?;
            put_joint(text, e)?;
            text.push('`')?;
            return put_operand_clocks(refused.alloc, text, node, e);
        }
    }
    text.push_str("from this clock the chain of clocks does not come to the base clock")?;
    Ok(())
}

/// Whether the right side of an equation is on another clock than a left side.
fn differ(alloc: Global, node: &Node, equation: &Equation) -> Result<bool, Memory> {
    let clock = clock_of(alloc, node, &equation.right)?;
    for left in equation.lefts.as_slice() {
        if clock_of_name(node, left.text.as_str()) != clock && clock != crate::kinds::When::Free {
            return Ok(true);
        }
    }
    Ok(false)
}
