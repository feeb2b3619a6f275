//! The value of a constant expression, and its weight, in one walk.

ghost use Rattle.std.specs.Prelude.{◌≡◌, ◌≤◌, ◌&&◌, ◌||◌, min, max, cond, ℕ, nat_abs, map};
ghost use Rattle.rv_tree.specs.Tree.{tree_of, trees, Named, Not, Minus};
ghost use Rattle.rv_types.specs.Constants.{flag_in, whole_in, weight_of, form_weight, value_of, form_value, value_under, weight_under, counted_part};
ghost use Rattle.rv_types.specs.Constants.{flags_of_all, at_most_one};
ghost use Rattle.rv_types.specs.Tables.{entry_in};
ghost use Rattle.rv_base.specs.Limits.{too_heavy};
ghost use Rattle.rv_types.specs.ValueTables.{value_of_label, value_or, known_in, AreSmall};

use crate::space::Space;
use crate::view::{Label, entry};
use crate::weighing::{Weighed, flag, of_flag, of_if, of_known, of_minus, of_number, of_operator};
use rv_base::{Text, Value};
use rv_tree::{Expr, ExprForm, Op};

/// The tables of the values of constants so far, and of labels.
#[derive(Drop)]
pub struct Known<'a> {
    pub constants: &'a Space,
    pub values: &'a [Value],
    pub labels: &'a Space,
    pub places: &'a [Label],
}

fn label_value(labels: &Space, places: &[Label], name: &Text) -> Value
    ensures { result ≡ value_of_label (entry_in labels.now places.now name.now) }
{
    match entry(labels, places, name) {
        None => Value::Flag(false),
        Some(label) => Value::Label(label.number),
    }
}

fn constant_value(constants: &Space, values: &[Value], name: &Text, label: Value) -> Value
    ensures { result ≡ value_or (entry_in constants.now values.now name.now) label }
{
    match entry(constants, values, name) {
        None => label,
        Some(value) => *value,
    }
}

/// The value of a constant or label.
#[inline(never)]
pub fn value_named(known: &Known, name: &Text) -> Value
    ensures { result ≡ known_in known.now.constants.now known.now.values.now known.now.labels.now known.now.places.now name.now }
{
    let label = label_value(known.labels, known.places, name);
    constant_value(known.constants, known.values, name, label)
}

#[inline(never)]
fn of_name(known: &Known, name: &Text) -> Weighed
    requires { AreSmall (known_in known.now.constants.now known.now.values.now known.now.labels.now known.now.places.now) }
    ensures value { result.value ≡ form_value (known_in known.now.constants.now known.now.values.now known.now.labels.now known.now.places.now)
        (Named name.now) }
    ensures weight { result.weight ≡ min (form_weight (known_in known.now.constants.now known.now.values.now known.now.labels.now known.now.places.now)
        (Named name.now)) too_heavy }
    ensures bound { nat_abs (whole_in result.value) ≤ result.weight }
{
    of_known(value_named(known, name))
}

/// Whether a constant expression is true.
#[cycle(evaluate)]
#[inline(never)]
fn is_true(known: &Known, e: &Expr) -> bool
    requires { AreSmall (known_in known.now.constants.now known.now.values.now known.now.labels.now known.now.places.now) }
    ensures { result ≡ flag_in (value_of (known_in known.now.constants.now known.now.values.now known.now.labels.now known.now.places.now) (tree_of e.now)) }
{
    flag(evaluate(known, e).value)
}

#[cycle(evaluate)]
#[inline(never)]
fn evaluate_not(known: &Known, a: &Expr) -> Weighed
    requires { AreSmall (known_in known.now.constants.now known.now.values.now known.now.labels.now known.now.places.now) }
    ensures value { result.value ≡ form_value (known_in known.now.constants.now known.now.values.now known.now.labels.now known.now.places.now)
        (Not (tree_of a.now)) }
    ensures weight { result.weight ≡ min (form_weight (known_in known.now.constants.now known.now.values.now known.now.labels.now known.now.places.now)
        (Not (tree_of a.now))) too_heavy }
    ensures bound { nat_abs (whole_in result.value) ≤ result.weight }
{
    of_flag(!is_true(known, a))
}

#[cycle(evaluate)]
#[inline(never)]
fn evaluate_minus(known: &Known, a: &Expr) -> Weighed
    requires { AreSmall (known_in known.now.constants.now known.now.values.now known.now.labels.now known.now.places.now) }
    ensures value { result.value ≡ form_value (known_in known.now.constants.now known.now.values.now known.now.labels.now known.now.places.now)
        (Minus (tree_of a.now)) }
    ensures weight { result.weight ≡ min (form_weight (known_in known.now.constants.now known.now.values.now known.now.labels.now known.now.places.now)
        (Minus (tree_of a.now))) too_heavy }
    ensures bound { nat_abs (whole_in result.value) ≤ result.weight }
{
    let a = evaluate(known, a);
    of_minus(&a)
}

/// An operator, of its left operand as it weighs and its right one.
#[cycle(evaluate)]
#[inline(never)]
fn with_right(known: &Known, op: Op, left: &Weighed, right: &Expr) -> Weighed
    requires small { AreSmall (known_in known.now.constants.now known.now.values.now known.now.labels.now known.now.places.now) }
    requires left { nat_abs (whole_in left.now.value) ≤ left.now.weight }
    requires left_small { left.now.weight ≤ too_heavy }
    ensures value { (v : ℕ) → left.now.weight ≡ min v too_heavy → result.value ≡ value_under
        (weight_under op (nat_abs (whole_in left.now.value)) v (weight_of
        (known_in known.now.constants.now known.now.values.now known.now.labels.now known.now.places.now) (tree_of right.now))) op left.now.value
        (value_of (known_in known.now.constants.now known.now.values.now known.now.labels.now known.now.places.now) (tree_of right.now)) }
    ensures weight { (v : ℕ) → left.now.weight ≡ min v too_heavy → result.weight ≡ min
        (weight_under op (nat_abs (whole_in left.now.value)) v (weight_of
        (known_in known.now.constants.now known.now.values.now known.now.labels.now known.now.places.now) (tree_of right.now))) too_heavy }
    ensures bound { nat_abs (whole_in result.value) ≤ result.weight }
{
    let right = evaluate(known, right);
    of_operator(op, left, &right)
}

/// An `if`, of its condition, its first part as it weighs and its second one.
#[cycle(evaluate)]
#[inline(never)]
fn with_else(known: &Known, condition: bool, yes: &Weighed, no: &Expr) -> Weighed
    requires small { AreSmall (known_in known.now.constants.now known.now.values.now known.now.labels.now known.now.places.now) }
    requires yes { nat_abs (whole_in yes.now.value) ≤ yes.now.weight }
    requires yes_small { yes.now.weight ≤ too_heavy }
    ensures value { (v : ℕ) → yes.now.weight ≡ min v too_heavy → result.value ≡ counted_part
        (max v (weight_of (known_in known.now.constants.now known.now.values.now known.now.labels.now known.now.places.now) (tree_of no.now)))
        (cond condition yes.now.value (value_of (known_in known.now.constants.now known.now.values.now known.now.labels.now known.now.places.now)
        (tree_of no.now))) }
    ensures weight { (v : ℕ) → yes.now.weight ≡ min v too_heavy → result.weight ≡ min
        (max v (weight_of (known_in known.now.constants.now known.now.values.now known.now.labels.now known.now.places.now) (tree_of no.now))) too_heavy }
    ensures bound { nat_abs (whole_in result.value) ≤ result.weight }
{
    let no = evaluate(known, no);
    of_if(condition, yes, &no)
}

/// The value of a constant expression, and its weight.
///
/// A text nested 200 deep may give a tree of 20,101 levels, almost all of them left operands. So little else stands in
/// the frame of this function.
#[cycle(evaluate)]
pub fn evaluate(known: &Known, e: &Expr) -> Weighed
    requires { AreSmall (known_in known.now.constants.now known.now.values.now known.now.labels.now known.now.places.now) }
    ensures value { result.value ≡ value_of (known_in known.now.constants.now known.now.values.now known.now.labels.now known.now.places.now) (tree_of e.now) }
    ensures weight { result.weight ≡ min (weight_of (known_in known.now.constants.now known.now.values.now known.now.labels.now known.now.places.now)
        (tree_of e.now)) too_heavy }
    ensures bound { nat_abs (whole_in result.value) ≤ result.weight }
{
    match &e.form {
        ExprForm::Binary(op, a, b) => {
            let left = evaluate(known, a);
            with_right(known, *op, &left, b)
        }
        ExprForm::If(a, b, c) => {
            let condition = is_true(known, a);
            let yes = evaluate(known, b);
            with_else(known, condition, &yes, c)
        }
        ExprForm::True => of_flag(true),
        ExprForm::Number(n) => of_number(*n),
        ExprForm::Named(x) => of_name(known, x),
        ExprForm::Not(a) => evaluate_not(known, a),
        ExprForm::Minus(a) => evaluate_minus(known, a),
        ExprForm::AtMostOne(es) => of_flag(is_at_most_one(known, es.as_slice())),
        ExprForm::False
        | ExprForm::Pre(_)
        | ExprForm::Current(_)
        | ExprForm::When(_, _)
        | ExprForm::Call(_, _) => of_flag(false),
    }
}

/// How many flags were true so far.
#[derive(Clone, Copy, Debug)]
pub struct Seen {
    /// Whether one was.
    pub some: bool,
    /// Whether more than one was.
    pub several: bool,
}

/// The same with one flag more.
pub fn seen_after(seen: Seen, flag: bool) -> Seen
    ensures some { result.some ≡ (seen.some || flag) }
    ensures several { result.several ≡ (seen.several || (seen.some && flag)) }
{
    Seen {
        some: seen.some || flag,
        several: seen.several || (seen.some && flag),
    }
}

/// Whether at most one of some constant expressions is true.
#[cycle(evaluate)]
fn is_at_most_one(known: &Known, es: &[Expr]) -> bool
    requires { AreSmall (known_in known.now.constants.now known.now.values.now known.now.labels.now known.now.places.now) }
    ensures { result ≡ at_most_one (flags_of_all (known_in known.now.constants.now known.now.values.now known.now.labels.now known.now.places.now)
        (trees (map tree_of es.now))) }
{
    let mut seen = Seen {
        some: false,
        several: false,
    };
    for e in es {
        let one = evaluate(known, e);
        seen = seen_after(seen, flag(one.value));
    }
    !seen.several
}
