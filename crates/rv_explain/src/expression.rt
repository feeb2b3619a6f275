//! The text of an expression, from its tree: with no more brackets than it needs.

use rv_base::Memory;
use rv_tree::{Expr, ExprForm, Op};

/// How deep an expression is shown; what lies deeper is left out.
const DEEP: u32 = 220;

/// How tight an operand has to bind: an `if`, and what stands behind a prefix.
const LOOSE: u8 = 0;

const PREFIX: u8 = 9;

/// Adds the text of an expression. What is nested too deep is shown as two points.
pub fn put_expression(text: &mut String, e: &Expr) -> Result<(), Memory> {
    put(text, e, LOOSE, DEEP)
}

/// The text of an operator between two operands.
pub fn sign_of(op: Op) -> &'static str {
    match op {
        Op::Arrow => "->",
        Op::Implies => "=>",
        Op::Or => "or",
        Op::Xor => "xor",
        Op::And => "and",
        Op::Equal => "=",
        Op::Differs => "<>",
        Op::Less => "<",
        Op::AtMost => "<=",
        Op::Greater => ">",
        Op::AtLeast => ">=",
        Op::Plus => "+",
        Op::Minus => "-",
        Op::Times => "*",
        Op::Slash => "/",
        Op::Div => "div",
        Op::Mod => "mod",
    }
}

/// Adds an operator between two operands.
fn put_sign(text: &mut String, op: Op) -> Result<(), Memory> {
    text.push(' ')?;
    text.push_str(sign_of(op))?;
    text.push(' ')?;
    Ok(())
}

/// How tight an operator binds, and how tight its two operands have to.
fn levels_of(op: Op) -> (u8, u8, u8) {
    match op {
        Op::Arrow => (1, 2, 1),
        Op::Implies => (2, 3, 2),
        Op::Or | Op::Xor => (3, 3, 4),
        Op::And => (4, 4, 5),
        Op::Equal | Op::Differs | Op::Less | Op::AtMost | Op::Greater | Op::AtLeast => (5, 6, 6),
        Op::Plus | Op::Minus => (6, 6, 7),
        Op::Times | Op::Slash | Op::Div | Op::Mod => (7, 7, 8),
    }
}

/// How tight an expression binds.
fn level_of(e: &Expr) -> u8 {
    match &e.form {
        ExprForm::If(_, _, _) => 0,
        ExprForm::Binary(op, _, _) => levels_of(*op).0,
        ExprForm::When(_, _) => 8,
        ExprForm::Not(_) | ExprForm::Minus(_) | ExprForm::Pre(_) | ExprForm::Current(_) => 9,
        _ => 10,
    }
}

/// Adds the text of an operand that has to bind so tight, in brackets where it does not.
#[cycle(put)]
fn put(text: &mut String, e: &Expr, level: u8, depth: u32) -> Result<(), Memory> {
    if depth == 0 {
        text.push_str("..")?;
        return Ok(());
    }
    let brackets = level_of(e) < level;
    if brackets {
        text.push('(')?;
    }
    put_form(text, &e.form, depth - 1)?;
    if brackets {
        text.push(')')?;
    }
    Ok(())
}

/// Adds the text of what an expression is made of.
#[cycle(put)]
fn put_form(text: &mut String, form: &ExprForm, depth: u32) -> Result<(), Memory> {
    match form {
        ExprForm::True => text.push_str("true")?,
        ExprForm::False => text.push_str("false")?,
        ExprForm::Number(number) => write!(text, "{number}")?,
        ExprForm::Named(name) => text.push_str(name.as_str())?,
        ExprForm::Not(operand) => put_prefix(text, "not ", operand, depth)?,
        ExprForm::Minus(operand) => put_prefix(text, minus_before(operand), operand, depth)?,
        ExprForm::Pre(operand) => put_prefix(text, "pre ", operand, depth)?,
        ExprForm::Current(operand) => put_prefix(text, "current ", operand, depth)?,
        ExprForm::When(operand, clock) => {
            put(text, operand, 8, depth)?;
            text.push_str(" when ")?;
            text.push_str(clock.text.as_str())?;
        }
        ExprForm::Binary(op, left, right) => {
            let (_, one, other) = levels_of(*op);
            put(text, left, one, depth)?;
            put_sign(text, *op)?;
            put(text, right, other, depth)?;
        }
        ExprForm::If(condition, first, second) => {
            text.push_str("if ")?;
            put(text, condition, 1, depth)?;
            text.push_str(" then ")?;
            put(text, first, LOOSE, depth)?;
            text.push_str(" else ")?;
            put(text, second, LOOSE, depth)?;
        }
        ExprForm::AtMostOne(operands) => {
            text.push('#')?;
            put_all(text, operands.as_slice(), depth)?;
        }
        ExprForm::Call(callee, operands) => {
            text.push_str(callee.as_str())?;
            put_all(text, operands.as_slice(), depth)?;
        }
    }
    Ok(())
}

/// The sign of a minus before an operand. Two of them in a row would begin a comment.
fn minus_before(operand: &Expr) -> &'static str {
    match &operand.form {
        ExprForm::Minus(_) => "- ",
        _ => "-",
    }
}

/// Adds the text of an operand behind a prefix.
#[cycle(put)]
fn put_prefix(text: &mut String, prefix: &str, operand: &Expr, depth: u32) -> Result<(), Memory> {
    text.push_str(prefix)?;
    put(text, operand, PREFIX, depth)
}

/// Adds the texts of operands in brackets, with commas between them.
#[cycle(put)]
fn put_all(text: &mut String, operands: &[Expr], depth: u32) -> Result<(), Memory> {
    text.push('(')?;
    let mut is_first = true;
    for operand in operands {
        if !is_first {
            text.push_str(", ")?;
        }
        put(text, operand, LOOSE, depth)?;
        is_first = false;
    }
    text.push(')')?;
    Ok(())
}
