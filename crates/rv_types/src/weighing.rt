//! Values of constants and their weights. An integer of a weight above 2^40 counts as 2^40 + 1, so every sum and
//! product here is of small numbers.

ghost use Rattle.std.specs.Prelude.{◌≡◌, ◌+◌, ◌*◌, ◌^◌, ◌≤◌, ℕ, max, min, nat_abs, cond, ◌+ℤ◌, ◌-ℤ◌, ◌*ℤ◌, neg_ℤ, pos};
ghost use Rattle.rv_types.specs.Constants.{flag_in, whole_in, counted, counted_part, same_value, flag_under, value_under, weight_under};
ghost use Rattle.rv_base.specs.Limits.{too_heavy};

use rv_base::Value;
use rv_tree::{HEAVIEST, Op, TOO_HEAVY};

/// The value of an expression, and its weight, which counts to 2^40 + 1.
#[derive(Clone, Copy, Debug)]
pub struct Weighed {
    pub value: Value,
    pub weight: u64,
}

/// The truth of a Boolean value.
pub fn flag(value: Value) -> bool
    ensures { result ≡ flag_in value }
{
    match value {
        Value::Flag(b) => b,
        _ => false,
    }
}

/// The number of an integer value.
pub fn whole(value: Value) -> i128
    ensures { result ≡ whole_in value }
{
    match value {
        Value::Whole(z) => z,
        _ => 0,
    }
}

fn is_same(v: Value, w: Value) -> bool
    ensures { result ≡ same_value v w }
{
    match v {
        Value::Flag(b) => match w {
            Value::Flag(c) => b == c,
            _ => false,
        },
        Value::Label(i) => match w {
            Value::Label(j) => i == j,
            _ => false,
        },
        Value::Whole(y) => match w {
            Value::Whole(z) => y <= z && z <= y,
            _ => false,
        },
    }
}

/// The truth of an operator that gives a Boolean.
fn flag_of(op: Op, v: Value, w: Value) -> bool
    ensures { result ≡ flag_under op v w }
{
    match op {
        Op::Implies => !flag(v) || flag(w),
        Op::Or => flag(v) || flag(w),
        Op::Xor => flag(v) != flag(w),
        Op::And => flag(v) && flag(w),
        Op::Equal => is_same(v, w),
        Op::Differs => !is_same(v, w),
        Op::Less => whole(v) < whole(w),
        Op::AtMost => whole(v) <= whole(w),
        Op::Greater => whole(w) < whole(v),
        Op::AtLeast => whole(w) <= whole(v),
        _ => false,
    }
}

/// The least of a weight and 2^40 + 1.
fn saturated(weight: u128) -> u64
    ensures { result ≡ min weight too_heavy }
{
    if weight <= HEAVIEST as u128 {
        weight as u64
    } else {
        TOO_HEAVY
    }
}

/// The value that an integer expression of a weight counts as.
fn counted_whole(weight: u64, z: i128) -> Value
    ensures value { (m : ℕ) → weight ≡ min m too_heavy → result ≡ counted m z }
    ensures bound { nat_abs z ≤ weight → weight ≤ too_heavy → nat_abs (whole_in result) ≤ weight }
{
    if weight <= HEAVIEST {
        Value::Whole(z)
    } else {
        Value::Whole(TOO_HEAVY as i128)
    }
}

fn sum(a: i128, b: i128) -> i128
    requires a { nat_abs a ≤ too_heavy }
    requires b { nat_abs b ≤ too_heavy }
    ensures { result ≡ a +ℤ b }
{
    a + b
}

fn difference(a: i128, b: i128) -> i128
    requires a { nat_abs a ≤ too_heavy }
    requires b { nat_abs b ≤ too_heavy }
    ensures { result ≡ a -ℤ b }
{
    a - b
}

fn product(a: i128, b: i128) -> i128
    requires a { nat_abs a ≤ too_heavy }
    requires b { nat_abs b ≤ too_heavy }
    ensures { result ≡ a *ℤ b }
{
    a * b
}

fn negation(a: i128) -> i128
    requires { nat_abs a ≤ too_heavy }
    ensures { result ≡ neg_ℤ a }
{
    -a
}

/// How far an integer is from 0.
fn size_of_whole(a: i128) -> u64
    requires { nat_abs a ≤ too_heavy }
    ensures { result ≡ nat_abs a }
{
    a.unsigned_abs() as u64
}

fn weight_of_product(size: u64, weight: u64) -> u64
    requires a { size ≤ too_heavy }
    requires b { weight ≤ too_heavy }
    ensures { (w : ℕ) → weight ≡ min w too_heavy → result ≡ min (size * w) too_heavy }
{
    saturated(size as u128 * weight as u128)
}

/// The weight of an operator between constants.
fn weight_of(op: Op, size: u64, a: u64, b: u64) -> u64
    requires size { size ≤ too_heavy }
    requires a { a ≤ too_heavy }
    requires b { b ≤ too_heavy }
    ensures { (v w : ℕ) → a ≡ min v too_heavy → b ≡ min w too_heavy → result ≡ min (weight_under op size v w) too_heavy }
{
    match op {
        Op::Plus | Op::Minus => saturated(a as u128 + b as u128),
        Op::Times => weight_of_product(size, b),
        _ => 0,
    }
}

/// The value of an operator between constants, the whole being of a weight.
fn value_of(weight: u64, op: Op, v: Value, w: Value) -> Value
    requires v { nat_abs (whole_in v) ≤ too_heavy }
    requires w { nat_abs (whole_in w) ≤ too_heavy }
    ensures { (m : ℕ) → weight ≡ min m too_heavy → result ≡ value_under m op v w }
{
    match op {
        Op::Plus => counted_whole(weight, sum(whole(v), whole(w))),
        Op::Minus => counted_whole(weight, difference(whole(v), whole(w))),
        Op::Times => counted_whole(weight, product(whole(v), whole(w))),
        Op::Arrow | Op::Slash | Op::Div | Op::Mod => Value::Flag(false),
        _ => Value::Flag(flag_of(op, v, w)),
    }
}

/// An operator between two constants.
#[inline(never)]
pub fn of_operator(op: Op, a: &Weighed, b: &Weighed) -> Weighed
    requires a { nat_abs (whole_in a.now.value) ≤ a.now.weight }
    requires b { nat_abs (whole_in b.now.value) ≤ b.now.weight }
    requires a_small { a.now.weight ≤ too_heavy }
    requires b_small { b.now.weight ≤ too_heavy }
    ensures weight { (v w : ℕ) → a.now.weight ≡ min v too_heavy → b.now.weight ≡ min w too_heavy
        → result.weight ≡ min (weight_under op (nat_abs (whole_in a.now.value)) v w) too_heavy }
    ensures value { (v w : ℕ) → a.now.weight ≡ min v too_heavy → b.now.weight ≡ min w too_heavy
        → result.value ≡ value_under (weight_under op (nat_abs (whole_in a.now.value)) v w) op a.now.value b.now.value }
    ensures bound { nat_abs (whole_in result.value) ≤ result.weight }
{
    let weight = weight_of(op, size_of_whole(whole(a.value)), a.weight, b.weight);
    let value = value_of(weight, op, a.value, b.value);
    Weighed { value, weight }
}

/// Unary `-`.
#[inline(never)]
pub fn of_minus(a: &Weighed) -> Weighed
    requires a { nat_abs (whole_in a.now.value) ≤ a.now.weight }
    requires a_small { a.now.weight ≤ too_heavy }
    ensures weight { result.weight ≡ a.now.weight }
    ensures value { (m : ℕ) → a.now.weight ≡ min m too_heavy → result.value ≡ counted m (neg_ℤ (whole_in a.now.value)) }
    ensures bound { nat_abs (whole_in result.value) ≤ result.weight }
{
    Weighed {
        value: counted_whole(a.weight, negation(whole(a.value))),
        weight: a.weight,
    }
}

fn counted_choice(weight: u64, value: Value) -> Value
    ensures value { (m : ℕ) → weight ≡ min m too_heavy → result ≡ counted_part m value }
    ensures bound { nat_abs (whole_in value) ≤ weight → weight ≤ too_heavy → nat_abs (whole_in result) ≤ weight }
{
    match value {
        Value::Whole(z) => counted_whole(weight, z),
        _ => value,
    }
}

/// `if`, of the larger weight of both parts.
#[inline(never)]
pub fn of_if(condition: bool, b: &Weighed, c: &Weighed) -> Weighed
    requires b { nat_abs (whole_in b.now.value) ≤ b.now.weight }
    requires c { nat_abs (whole_in c.now.value) ≤ c.now.weight }
    requires b_small { b.now.weight ≤ too_heavy }
    requires c_small { c.now.weight ≤ too_heavy }
    ensures weight { (v w : ℕ) → b.now.weight ≡ min v too_heavy → c.now.weight ≡ min w too_heavy → result.weight ≡ min (max v w) too_heavy }
    ensures value { (v w : ℕ) → b.now.weight ≡ min v too_heavy → c.now.weight ≡ min w too_heavy
        → result.value ≡ counted_part (max v w) (cond condition b.now.value c.now.value) }
    ensures bound { nat_abs (whole_in result.value) ≤ result.weight }
{
    let weight = b.weight.max(c.weight);
    let value = if condition { b.value } else { c.value };
    Weighed {
        value: counted_choice(weight, value),
        weight,
    }
}

/// A literal.
#[inline(never)]
pub fn of_number(n: u64) -> Weighed
    ensures value { result.value ≡ counted n (pos n) }
    ensures weight { result.weight ≡ min n too_heavy }
    ensures bound { nat_abs (whole_in result.value) ≤ result.weight }
{
    let weight = saturated(n as u128);
    Weighed {
        value: counted_whole(weight, n as i128),
        weight,
    }
}

/// A constant or label, whose value is known.
#[inline(never)]
pub fn of_known(value: Value) -> Weighed
    requires { nat_abs (whole_in value) ≤ too_heavy }
    ensures value { result.value ≡ value }
    ensures weight { result.weight ≡ min (nat_abs (whole_in value)) too_heavy }
    ensures bound { nat_abs (whole_in result.value) ≤ result.weight }
{
    Weighed {
        value,
        weight: size_of_whole(whole(value)),
    }
}

/// A Boolean, which has no weight.
#[inline(never)]
pub fn of_flag(flag: bool) -> Weighed
    ensures value { result.value ≡ Value.Flag flag }
    ensures weight { result.weight ≡ 0 }
    ensures bound { nat_abs (whole_in result.value) ≤ result.weight }
{
    Weighed {
        value: Value::Flag(flag),
        weight: 0,
    }
}
