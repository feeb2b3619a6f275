//! Types and clocks of expressions, in words of the source.

use crate::names::Names;
use crate::sites::{flow_at, site_of};
use rv_base::Memory;
use rv_tree::{Expr, ExprForm, Name, Node, Op, Program, TypeBody, TypeName};
use std::alloc::Global;

/// How many steps the search for a type takes at most: constants of a refused source may refer to each other in a circle.
const STEPS: u32 = 1_000_000;

/// When an expression is present, as far as its text tells.
#[derive(Clone, Copy, Debug, PartialEq, Eq)]
pub enum When<'a> {
    /// On any clock.
    Free,
    /// On the base clock of its node.
    Base,
    /// Where this flow is present and true.
    On(&'a str),
}

/// The name of a type as it is written.
pub fn type_name(kind: &TypeName) -> &str {
    match kind {
        TypeName::Bool => "bool",
        TypeName::Int => "int",
        TypeName::Named(name) => name.text.as_str(),
    }
}

/// The enumeration that has this label.
fn enumeration_of<'a>(program: &'a Program, label: &str) -> Option<&'a str> {
    for declared in program.types.as_slice() {
        if let TypeBody::Labels(labels) = &declared.body {
            for own in labels.as_slice() {
                if own.text.as_str() == label {
                    return Some(declared.name.text.as_str());
                }
            }
        }
    }
    None
}

/// What the constant of this name stands for.
pub fn constant_of<'a>(program: &'a Program, name: &str) -> Option<&'a Expr> {
    for constant in program.constants.as_slice() {
        if constant.name.text.as_str() == name {
            return Some(&constant.body);
        }
    }
    None
}

/// What the search for the type of an expression comes to by one step: the type, or another expression that has it.
enum Found<'a> {
    Type(&'a str),
    As(&'a Expr),
    Nothing,
}

/// The type of what this name stands for in a node, or among the constants and labels where there is no node.
fn named<'a>(program: &'a Program, node: Option<&'a Node>, name: &str) -> Found<'a> {
    if let Some(node) = node {
        if let Some(site) = site_of(node, name) {
            return match flow_at(node, site) {
                Some((decl, _)) => Found::Type(type_name(&decl.kind)),
                None => Found::Nothing,
            };
        }
    }
    for constant in program.constants.as_slice() {
        if constant.name.text.as_str() == name {
            return match &constant.kind {
                Some(kind) => Found::Type(type_name(kind)),
                None => Found::As(&constant.body),
            };
        }
    }
    match enumeration_of(program, name) {
        Some(name) => Found::Type(name),
        None => Found::Nothing,
    }
}

/// The type of the only output of a node.
fn output_type<'a>(names: &Names<'a>, callee: &str) -> Found<'a> {
    for node in names.program.nodes.as_slice() {
        if node.name.text.as_str() == callee {
            return match node.outputs.as_slice() {
                [only] => Found::Type(type_name(&only.kind)),
                _ => Found::Nothing,
            };
        }
    }
    Found::Nothing
}

/// One step of the search for the type of an expression.
fn seek<'a>(names: &Names<'a>, node: Option<&'a Node>, e: &'a Expr) -> Found<'a> {
    match &e.form {
        ExprForm::True | ExprForm::False | ExprForm::Not(_) | ExprForm::AtMostOne(_) => {
            Found::Type("bool")
        }
        ExprForm::Number(_) | ExprForm::Minus(_) => Found::Type("int"),
        ExprForm::Named(name) => named(names.program, node, name.as_str()),
        ExprForm::Pre(operand) | ExprForm::Current(operand) | ExprForm::When(operand, _) => {
            Found::As(operand.get())
        }
        ExprForm::Binary(op, left, _) => match op {
            Op::Arrow => Found::As(left.get()),
            Op::Plus | Op::Minus | Op::Times | Op::Slash | Op::Div | Op::Mod => Found::Type("int"),
            _ => Found::Type("bool"),
        },
        ExprForm::If(_, first, _) => Found::As(first.get()),
        ExprForm::Call(callee, _) => output_type(names, callee.as_str()),
    }
}

/// The type of an expression of a node, or of a constant where there is no node, as the source names it.
pub fn type_of<'a>(names: &Names<'a>, node: Option<&'a Node>, e: &'a Expr) -> Option<&'a str> {
    let mut e = e;
    let mut node = node;
    for _ in 0..STEPS {
        match seek(names, node, e) {
            Found::Type(name) => return Some(name),
            Found::As(other) => {
                if let ExprForm::Named(_) = &e.form {
                    node = None;
                }
                e = other;
            }
            Found::Nothing => return None,
        }
    }
    None
}

/// The clock of a flow, by its declaration.
pub fn declared_clock(clock: &Option<Name>) -> When<'_> {
    match clock {
        Some(name) => When::On(name.text.as_str()),
        None => When::Base,
    }
}

/// The clock of the flow of this name; a constant or label is free.
pub fn clock_of_name<'a>(node: &'a Node, name: &str) -> When<'a> {
    let Some(site) = site_of(node, name) else {
        return When::Free;
    };
    match flow_at(node, site) {
        Some((decl, _)) => declared_clock(&decl.clock),
        None => When::Free,
    }
}

/// The clock on which `current` shows an operand of this clock: that of the flow of the clock.
fn shown_clock<'a>(node: &'a Node, clock: When<'a>) -> When<'a> {
    match clock {
        When::On(name) => clock_of_name(node, name),
        other => other,
    }
}

/// The clock of an operand of `current`, where it is told at once.
fn told_clock<'a>(node: &'a Node, e: &'a Expr) -> When<'a> {
    match &e.form {
        ExprForm::Named(name) => clock_of_name(node, name.as_str()),
        ExprForm::When(_, clock) => When::On(clock.text.as_str()),
        _ => When::Free,
    }
}

/// The clock of an expression of a node: that of the first part that is on one.
pub fn clock_of<'a>(alloc: Global, node: &'a Node, e: &'a Expr) -> Result<When<'a>, Memory> {
    let mut stack = Vec::new(alloc);
    stack.push(e)?;
    for _ in 0..u64::MAX {
        let Some(e) = stack.pop() else {
            break;
        };
        let clock = match &e.form {
            ExprForm::Current(operand) => shown_clock(node, told_clock(node, operand.get())),
            _ => told_clock(node, e),
        };
        if clock != When::Free {
            return Ok(clock);
        }
        crate::sites::push_operands(&mut stack, e)?;
    }
    Ok(When::Free)
}

/// Adds a clock in words.
pub fn put_clock(text: &mut String, clock: When) -> Result<(), Memory> {
    match clock {
        When::Free => text.push_str("any clock")?,
        When::Base => text.push_str("the base clock")?,
        When::On(name) => {
            text.push_str("the clock `")?;
            text.push_str(name)?;
            text.push('`')?;
        }
    }
    Ok(())
}

/// Adds the type of an expression in words.
pub fn put_type<'a>(
    text: &mut String,
    names: &Names<'a>,
    node: Option<&'a Node>,
    e: &'a Expr,
) -> Result<(), Memory> {
    match type_of(names, node, e) {
        Some(name) => text.push_str(name)?,
        None => text.push_str("(none)")?,
    }
    Ok(())
}
