//! The value of a flat expression, exactly.

ghost use Rattle.std.specs.Prelude.{◌≡◌, ◌*ℤ◌, ◌<◌, false, true, slice_index_or, None, Some};
ghost use Rattle.rv_base.specs.declared.value.Value.TheVariants.{Flag, Whole};
ghost use Rattle.rv_meaning.specs.Meaning as meaning;
ghost use Rattle.rv_flat.specs.FlatInstants.{held, is_on, is_on_at, nth};
ghost use Rattle.rv_flat.specs.Inlined.{IsTable, table_of};
ghost use Rattle.rv_step.specs.Surroundings.{AreReady, AreShownIn, IsReady, current_in, tree_in, trees_in, trues_in, value_in};
ghost use Rattle.rv_flat.specs.Tame.{IsHeld};

use rv_base::{Many, Value};
use rv_flat::{FlatExpr, FlatForm, FlatMemory, State};
use rv_tree::Op;

/// What an expression is evaluated over: the memories of its system, the state before the instant, the inputs, and what the
/// flows before it have.
#[derive(Clone, Copy)]
pub struct Surroundings<'a> {
    pub memories: &'a Many<FlatMemory>,
    pub state: &'a State,
    pub inputs: &'a Many<Value>,
    pub row: &'a Many<Option<Value>>,
}

/// The value of an expression. What a `current` shows is evaluated once, and kept from then on by the number of its memory.
pub fn value_of(e: &FlatExpr, around: &Surroundings, shown: &mut Many<Option<Value>>) -> Value
    requires table { IsTable around.now.memories.now }
    requires ready { IsReady around.now (tree_in around.now e.now) }
    requires shown { AreShownIn around.now shown.old }
    ensures value { result ≡ value_in around.now (tree_in around.now e.now) }
    ensures shown { AreShownIn around.now shown.new }
{
    let mut value = Value::Flag(false);
    evaluate(e, around, shown, &mut value);
    value
}

/// What the memory with a number takes where its clock is there, and what it holds elsewhere. What it takes is evaluated once,
/// and kept from then on.
pub fn current_of(number: usize, around: &Surroundings, shown: &mut Many<Option<Value>>) -> Value
    requires table { IsTable around.now.memories.now }
    requires ready { IsReady around.now (table_of around.now.memories.now number).body }
    requires shown { AreShownIn around.now shown.old }
    ensures value { result ≡ current_in around.now number }
    ensures shown { AreShownIn around.now shown.new }
{
    let mut value = Value::Flag(false);
    show(number, around, shown, &mut value);
    value
}

/// Writes the value of an expression. It calls itself for each operand and for what each `current` shows, so as deep as the tree
/// of the source is: 20,301 levels at most. So one value is written over and over, and little else stands in its frame.
#[cycle(evaluate)]
fn evaluate(e: &FlatExpr, around: &Surroundings, shown: &mut Many<Option<Value>>, value: &mut Value)
    requires table { IsTable around.now.memories.now }
    requires ready { IsReady around.now (tree_in around.now e.now) }
    requires shown { AreShownIn around.now shown.old }
    ensures value { value.new ≡ value_in around.now (tree_in around.now e.now) }
    ensures shown { AreShownIn around.now shown.new }
{
    match &e.form {
        FlatForm::Constant(constant) => *value = *constant,
        FlatForm::Flow(number) => read_flow(around.row, *number, value),
        FlatForm::Memory(number) => read_value(&around.state.kept, *number as usize, value),
        FlatForm::Ticked(number) => read_tick(&around.state.ticked, *number, value),
        FlatForm::Input(number) => read_value(around.inputs, *number as usize, value),
        FlatForm::Not(operand) => {
            evaluate(operand, around, shown, value);
            *value = Value::Flag(!truth(value));
        }
        FlatForm::Binary(op, left, right) => {
            evaluate(left, around, shown, value);
            let left = *value;
            evaluate(right, around, shown, value);
            operate(*op, &left, value);
        }
        FlatForm::Scale(by, operand) => {
            evaluate(operand, around, shown, value);
            scale(*by, value);
        }
        FlatForm::If(condition, first, second) => {
            evaluate(condition, around, shown, value);
            let chosen = if truth(value) { first } else { second };
            evaluate(chosen, around, shown, value);
        }
        FlatForm::AtMostOne(operands) => {
            let count = count_true(operands.as_slice(), around, shown, value);
            *value = Value::Flag(count <= 1);
        }
        FlatForm::When(_, operand) => evaluate(operand, around, shown, value),
        FlatForm::Current(number) => show(*number as usize, around, shown, value),
    }
}

/// Writes what the memory with a number takes where its clock is there, and what it holds elsewhere.
#[cycle(evaluate)]
#[inline(never)]
fn show(number: usize, around: &Surroundings, shown: &mut Many<Option<Value>>, value: &mut Value)
    requires table { IsTable around.now.memories.now }
    requires ready { IsReady around.now (table_of around.now.memories.now number).body }
    requires shown { AreShownIn around.now shown.old }
    ensures value { value.new ≡ current_in around.now number }
    ensures shown { AreShownIn around.now shown.new }
{
    match around.memories.get(number) {
        Some(memory) => {
            if !is_there(around.row, memory.clock) {
                read_value(&around.state.kept, number, value);
            } else if !is_known(shown, number, value) {
                evaluate(&memory.body, around, shown, value);
                shown.set(number, Some(*value));
            }
        }
        None => *value = Value::Flag(false),
    }
}

/// Whether what the memory with a number takes has been evaluated; if so, it is written.
#[tactic(auto, using(crate::proofs::Reading::read_nothing))]
fn is_known(shown: &Many<Option<Value>>, number: usize, value: &mut Value) -> bool
    ensures known { result ≡ true → slice_index_or shown.now number None ≡ Some value.new }
    ensures unknown { result ≡ false → value.new ≡ value.old }
{
    match shown.get(number) {
        Some(Some(known)) => {
            *value = *known;
            true
        }
        Some(None) | None => false,
    }
}

/// How many of the expressions are true. It writes over the value.
#[cycle(evaluate)]
fn count_true(
    expressions: &[FlatExpr],
    around: &Surroundings,
    shown: &mut Many<Option<Value>>,
    value: &mut Value,
) -> usize
    requires table { IsTable around.now.memories.now }
    requires ready { AreReady around.now (trees_in around.now expressions.now) }
    requires shown { AreShownIn around.now shown.old }
    ensures count { result ≡ trues_in around.now (trees_in around.now expressions.now) }
    ensures shown { AreShownIn around.now shown.new }
{
    let mut count = 0;
    for e in expressions {
        evaluate(e, around, shown, value);
        if truth(value) {
            count += 1;
        }
    }
    count
}

/// Whether the flow of a clock is there and true; the main node's base clock always is.
pub fn is_there(row: &Many<Option<Value>>, clock: Option<u32>) -> bool
    ensures { result ≡ is_on_at row.now clock }
{
    match clock {
        Some(number) => is_flow_on(row, number as usize),
        None => true,
    }
}

/// Whether the flow with a number is there and true.
#[tactic(auto, using(crate::proofs::Reading::read_nothing))]
pub fn is_flow_on(row: &Many<Option<Value>>, number: usize) -> bool
    ensures { result ≡ is_on (nth row.now number) }
{
    match row.get(number) {
        Some(Some(value)) => truth(value),
        Some(None) | None => false,
    }
}

/// Writes what the flow with a number has, of no meaning where it is absent.
#[tactic(auto, using(crate::proofs::Reading::read_nothing))]
#[inline(never)]
fn read_flow(row: &Many<Option<Value>>, number: u32, value: &mut Value)
    ensures { value.new ≡ held (nth row.now number) }
{
    *value = match row.get(number as usize) {
        Some(Some(held)) => *held,
        Some(None) | None => Value::Flag(false),
    };
}

/// Writes the value with a number.
#[tactic(auto, using(crate::proofs::Reading::read_nothing))]
#[inline(never)]
fn read_value(values: &Many<Value>, number: usize, value: &mut Value)
    ensures { value.new ≡ slice_index_or values.now number (Flag false) }
{
    *value = match values.get(number) {
        Some(kept) => *kept,
        None => Value::Flag(false),
    };
}

/// Writes whether the clock of the tick with a number has been there.
#[tactic(auto, using(crate::proofs::Reading::read_nothing))]
#[inline(never)]
fn read_tick(ticked: &Many<bool>, number: u32, value: &mut Value)
    ensures { value.new ≡ Flag (slice_index_or ticked.now number false) }
{
    *value = match ticked.get(number as usize) {
        Some(tick) => Value::Flag(*tick),
        None => Value::Flag(false),
    };
}

/// The truth of a Boolean value.
pub fn truth(value: &Value) -> bool
    ensures { result ≡ meaning.is_true value.now }
{
    match value {
        Value::Flag(flag) => *flag,
        _ => false,
    }
}

/// The number of an integer value.
fn number(value: &Value) -> i128
    ensures { result ≡ meaning.number value.now }
{
    match value {
        Value::Whole(number) => *number,
        _ => 0,
    }
}

/// Whether two values are of one type, and equal.
fn is_same(a: &Value, b: &Value) -> bool
    ensures { result ≡ meaning.is_equal a.now b.now }
{
    match a {
        Value::Flag(a) => match b {
            Value::Flag(b) => *a == *b,
            _ => false,
        },
        Value::Label(a) => match b {
            Value::Label(b) => *a == *b,
            _ => false,
        },
        Value::Whole(a) => match b {
            Value::Whole(b) => *a == *b,
            _ => false,
        },
    }
}

/// Writes the number times an integer over it.
#[inline(never)]
fn scale(by: i128, value: &mut Value)
    requires { IsHeld (Whole (by *ℤ meaning.number value.old)) }
    ensures { value.new ≡ Whole (by *ℤ meaning.number value.old) }
{
    *value = Value::Whole(by * number(value));
}

/// What a Boolean operator gives.
fn test(op: Op, a: &Value, b: &Value) -> bool
    ensures { result ≡ meaning.is_true (meaning.operate op false a.now b.now) }
{
    match op {
        Op::Implies => !truth(a) || truth(b),
        Op::Or => truth(a) || truth(b),
        Op::Xor => truth(a) != truth(b),
        Op::And => truth(a) && truth(b),
        Op::Equal => is_same(a, b),
        Op::Differs => !is_same(a, b),
        Op::Less => number(a) < number(b),
        Op::AtMost => number(a) <= number(b),
        Op::Greater => number(b) < number(a),
        Op::AtLeast => number(b) <= number(a),
        Op::Arrow => truth(b),
        _ => false,
    }
}

/// Writes what an operator gives over its right operand.
#[inline(never)]
fn operate(op: Op, a: &Value, b: &mut Value)
    requires { IsHeld (meaning.operate op false a.now b.old) }
    ensures { b.new ≡ meaning.operate op false a.now b.old }
{
    *b = match op {
        Op::Plus => Value::Whole(number(a) + number(b)),
        Op::Minus => Value::Whole(number(a) - number(b)),
        Op::Times => Value::Whole(number(a) * number(b)),
        Op::Slash | Op::Div | Op::Mod => Value::Whole(0),
        Op::Arrow => *b,
        _ => Value::Flag(test(op, a, b)),
    };
}
