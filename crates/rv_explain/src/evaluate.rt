//! The value of a flat expression at an instant.

use rv_base::{Many, Value};
use rv_flat::{Flat, FlatExpr, FlatForm, State};
use rv_tree::Op;

/// An instant: the flat system, the state before and after, what the main node is given, and what each flow has.
#[derive(Clone, Copy)]
pub struct Moment<'a> {
    /// The flat system.
    pub flat: &'a Flat,
    /// The state before the instant.
    pub before: &'a State,
    /// The state after it.
    pub after: &'a State,
    /// The inputs.
    pub inputs: &'a Many<Value>,
    /// What each flow has, none where it is absent.
    pub values: &'a Many<Option<Value>>,
}

impl Moment<'_> {
    /// What the flow with this number has.
    pub fn flow(&self, number: u32) -> Option<Value> {
        *self.values.get(number as usize)?
    }
}

/// The truth of a value.
fn truth(value: Value) -> Option<bool> {
    match value {
        Value::Flag(flag) => Some(flag),
        _ => None,
    }
}

/// The value of an expression where it is present; none where it reads a flow that is absent, or an integer leaves the range of
/// 128 bits.
#[cycle(value_of)]
pub fn value_of(moment: &Moment, e: &FlatExpr) -> Option<Value> {
    match &e.form {
        FlatForm::Constant(value) => Some(*value),
        FlatForm::Flow(number) => moment.flow(*number),
        FlatForm::Memory(number) => moment.before.kept.get(*number as usize).copied(),
        FlatForm::Ticked(number) => {
            let ticked = moment.before.ticked.get(*number as usize)?;
            Some(Value::Flag(*ticked))
        }
        FlatForm::Input(number) => moment.inputs.get(*number as usize).copied(),
        FlatForm::Not(operand) => Some(Value::Flag(!truth(value_of(moment, operand)?)?)),
        FlatForm::Binary(op, left, right) => {
            let left = value_of(moment, left)?;
            let right = value_of(moment, right)?;
            operated(*op, left, right)
        }
        FlatForm::Scale(by, operand) => match value_of(moment, operand)? {
            Value::Whole(number) => Some(Value::Whole(number.checked_mul(*by)?)),
            _ => None,
        },
        FlatForm::If(condition, first, second) => {
            if truth(value_of(moment, condition)?)? {
                value_of(moment, first)
            } else {
                value_of(moment, second)
            }
        }
        FlatForm::AtMostOne(operands) => {
            let count = count_true(moment, operands.as_slice())?;
            Some(Value::Flag(count <= 1))
        }
        FlatForm::When(_, operand) => value_of(moment, operand),
        FlatForm::Current(number) => shown(moment, *number),
    }
}

/// How many of the expressions are true.
#[cycle(value_of)]
fn count_true(moment: &Moment, operands: &[FlatExpr]) -> Option<u32> {
    let mut count: u32 = 0;
    for operand in operands {
        if truth(value_of(moment, operand)?)? {
            count = count.saturating_add(1);
        }
    }
    Some(count)
}

/// What a `current` of a memory shows: what the memory holds after the instant, since it takes its operand where that is there and keeps what
/// it has where not.
pub fn shown(moment: &Moment, number: u32) -> Option<Value> {
    moment.after.kept.get(number as usize).copied()
}

/// What an operator gives.
fn operated(op: Op, left: Value, right: Value) -> Option<Value> {
    match (left, right) {
        (Value::Flag(left), Value::Flag(right)) => Some(Value::Flag(joined(op, left, right)?)),
        (Value::Whole(left), Value::Whole(right)) => counted(op, left, right),
        (Value::Label(left), Value::Label(right)) => match op {
            Op::Equal => Some(Value::Flag(left == right)),
            Op::Differs => Some(Value::Flag(left != right)),
            _ => None,
        },
        _ => None,
    }
}

/// What an operator gives of truth values.
pub fn joined(op: Op, left: bool, right: bool) -> Option<bool> {
    match op {
        Op::Implies => Some(!left || right),
        Op::Or => Some(left || right),
        Op::And => Some(left && right),
        Op::Xor | Op::Differs => Some(left != right),
        Op::Equal => Some(left == right),
        _ => None,
    }
}

/// What an operator gives of integers.
fn counted(op: Op, left: i128, right: i128) -> Option<Value> {
    match op {
        Op::Equal => Some(Value::Flag(left == right)),
        Op::Differs => Some(Value::Flag(left != right)),
        Op::Less => Some(Value::Flag(left < right)),
        Op::AtMost => Some(Value::Flag(left <= right)),
        Op::Greater => Some(Value::Flag(left > right)),
        Op::AtLeast => Some(Value::Flag(left >= right)),
        Op::Plus => Some(Value::Whole(left.checked_add(right)?)),
        Op::Minus => Some(Value::Whole(left.checked_sub(right)?)),
        _ => None,
    }
}
