//! Trees as texts, with all their brackets.

use rv_syntax::{Expr, ExprForm};
use std::alloc::{AllocError, Global};

/// Writes an expression with all its brackets, each operator before its operands.
#[cycle(shape)]
pub fn write_shape(alloc: Global, text: &mut String, expr: &Expr) -> Result<(), AllocError> {
    match &expr.form {
        ExprForm::True => text.push_str("true"),
        ExprForm::False => text.push_str("false"),
        ExprForm::Number(number) => text.push_str(format!(in alloc; "{number}")?.as_str()),
        ExprForm::Named(name) => text.push_str(name.as_str()),
        ExprForm::Not(operand) => write_prefix(alloc, text, "not ", operand),
        ExprForm::Minus(operand) => write_prefix(alloc, text, "minus ", operand),
        ExprForm::Pre(operand) => write_prefix(alloc, text, "pre ", operand),
        ExprForm::Current(operand) => write_prefix(alloc, text, "current ", operand),
        ExprForm::When(operand, clock) => {
            text.push_str("When(")?;
            write_shape(alloc, text, operand)?;
            text.push_str(", ")?;
            text.push_str(clock.text.as_str())?;
            text.push_str(")")
        }
        ExprForm::Binary(op, left, right) => {
            text.push_str(format!(in alloc; "{op:?}(")?.as_str())?;
            write_shape(alloc, text, left)?;
            text.push_str(", ")?;
            write_shape(alloc, text, right)?;
            text.push_str(")")
        }
        ExprForm::If(test, yes, no) => {
            text.push_str("If(")?;
            write_shape(alloc, text, test)?;
            text.push_str(", ")?;
            write_shape(alloc, text, yes)?;
            text.push_str(", ")?;
            write_shape(alloc, text, no)?;
            text.push_str(")")
        }
        ExprForm::AtMostOne(parts) => {
            text.push_str("#")?;
            write_shapes(alloc, text, parts.as_slice())
        }
        ExprForm::Call(name, arguments) => {
            text.push_str(name.as_str())?;
            write_shapes(alloc, text, arguments.as_slice())
        }
    }
}

#[cycle(shape)]
fn write_prefix(
    alloc: Global,
    text: &mut String,
    prefix: &str,
    operand: &Expr,
) -> Result<(), AllocError> {
    text.push_str(prefix)?;
    write_shape(alloc, text, operand)
}

#[cycle(shape)]
fn write_shapes(alloc: Global, text: &mut String, parts: &[Expr]) -> Result<(), AllocError> {
    text.push_str("(")?;
    let mut is_first = true;
    'each: for part in parts {
        if !is_first {
            text.push_str(", ")?;
        }
        write_shape(alloc, text, part)?;
        is_first = false;
    }
    text.push_str(")")
}
