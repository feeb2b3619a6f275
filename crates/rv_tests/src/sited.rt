//! Trees as texts, with the offset of each node and its site where it has one, and how many parts a program has.

use crate::rows::{fault_text, read};
use rv_base::Memory;
use rv_syntax::{Expr, ExprForm, Name, Node, Program};
use std::alloc::{AllocError, Global};

/// The names of the first node, each with its offset, and the right sides of its equations, in which each part has its
/// offset and, behind `#`, its site. Where there is no tree, the fault.
pub fn sited(alloc: Global, text: &String) -> Result<String, Memory> {
    match read(alloc, text) {
        Ok(program) => match program.nodes.get(0) {
            Some(node) => Ok(node_text(alloc, node)?),
            None => Ok(String::from_str(alloc, "no node")?),
        },
        Err(fault) => fault_text(alloc, fault),
    }
}

fn node_text(alloc: Global, node: &Node) -> Result<String, AllocError> {
    let mut text = String::new(alloc);
    add_name(alloc, &node.name, &mut text)?;
    for declared in node.inputs.as_slice() {
        add_name(alloc, &declared.name, &mut text)?;
    }
    for declared in node.outputs.as_slice() {
        add_name(alloc, &declared.name, &mut text)?;
    }
    for equation in node.equations.as_slice() {
        text.push_str("; ")?;
        for left in equation.lefts.as_slice() {
            add_name(alloc, left, &mut text)?;
        }
        write_sited(alloc, &mut text, &equation.right)?;
    }
    Ok(text)
}

/// Adds a name with its offset, and a space.
fn add_name(alloc: Global, name: &Name, text: &mut String) -> Result<(), AllocError> {
    let (at, word) = (name.at, name.text.as_str());
    text.push_str(format!(in alloc; "{at}:{word} ")?.as_str())
}

/// Adds an expression with all its brackets, each operator before its operands.
#[cycle(sited)]
fn write_sited(alloc: Global, text: &mut String, expr: &Expr) -> Result<(), AllocError> {
    let at = expr.at;
    text.push_str(format!(in alloc; "{at}")?.as_str())?;
    if let Some(site) = expr.site {
        text.push_str(format!(in alloc; "#{site}")?.as_str())?;
    }
    text.push_str(":")?;
    match &expr.form {
        ExprForm::True => text.push_str("true"),
        ExprForm::Named(name) => text.push_str(name.as_str()),
        ExprForm::Not(operand) => write_prefix(alloc, text, "not ", operand),
        ExprForm::Pre(operand) => write_prefix(alloc, text, "pre ", operand),
        ExprForm::Current(operand) => write_prefix(alloc, text, "current ", operand),
        ExprForm::Binary(op, left, right) => {
            text.push_str(format!(in alloc; "{op:?}(")?.as_str())?;
            write_sited(alloc, text, left)?;
            text.push_str(", ")?;
            write_sited(alloc, text, right)?;
            text.push_str(")")
        }
        _ => text.push_str("other"),
    }
}

#[cycle(sited)]
fn write_prefix(
    alloc: Global,
    text: &mut String,
    prefix: &str,
    operand: &Expr,
) -> Result<(), AllocError> {
    text.push_str(prefix)?;
    write_sited(alloc, text, operand)
}

/// How many types, constants and nodes a program has, and how many parts each node; or the fault.
pub fn counted(alloc: Global, text: &String) -> Result<String, Memory> {
    match read(alloc, text) {
        Ok(program) => Ok(counts_text(alloc, &program)?),
        Err(fault) => fault_text(alloc, fault),
    }
}

fn counts_text(alloc: Global, program: &Program) -> Result<String, AllocError> {
    let (types, constants, nodes) = (
        program.types.len(),
        program.constants.len(),
        program.nodes.len(),
    );
    let mut text = format!(in alloc; "types {types}, constants {constants}, nodes {nodes}")?;
    for node in program.nodes.as_slice() {
        let (name, inputs, outputs) = (
            node.name.text.as_str(),
            node.inputs.len(),
            node.outputs.len(),
        );
        let (locals, equations, assertions) = (
            node.locals.len(),
            node.equations.len(),
            node.assertions.len(),
        );
        let more = format!(in alloc;
            "; {name}: inputs {inputs}, outputs {outputs}, locals {locals}, equations {equations}, assertions {assertions}"
        )?;
        text.push_str(more.as_str())?;
    }
    Ok(text)
}
