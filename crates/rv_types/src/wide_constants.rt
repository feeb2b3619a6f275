//! The least offset of what is too wide in constants.

ghost use Rattle.std.specs.Prelude.{◌≡◌, ℕ, min, max, pos, cond, not, map, reverse, nat_abs, false};
ghost use Rattle.rv_tree.specs.Tree.{Tree, tree_of, trees, Named, Not, Minus, Binary, If, AtMostOne, program_tree};
ghost use Rattle.rv_types.specs.Constants.{flag_in, whole_in, counted, counted_part, value_under, weight_under, value_of, weight_of, form_value, form_weight};
ghost use Rattle.rv_types.specs.Constants.{flags_of_all, at_most_one};
ghost use Rattle.rv_types.specs.ConstantParts.{IsBound};
ghost use Rattle.rv_types.specs.Readings.{AreTables};
ghost use Rattle.rv_types.specs.Scopes.{constant_values};
ghost use Rattle.rv_base.specs.Limits.{too_heavy};
ghost use Rattle.rv_types.specs.ValueTables.{value_by};
ghost use Rattle.rv_types.specs.WideConstants.{lesser, wide_at, first_wide, wide_below, first_wide_of_all, first_wide_constant};

use crate::reading::ProgramTables;
use crate::reading_values::{
    NamedValues, constant_flag, constant_named, constant_number, values_before,
};
use crate::values::{Seen, seen_after};
use crate::weighing::{Weighed, flag, of_if, of_minus, of_operator};
use rv_base::{Text, Value};
use rv_tree::{Expr, ExprForm, HEAVIEST, Op, Program};

/// What is known of an expression of a constant.
#[derive(Clone, Copy)]
struct CountedPart {
    /// Its value and its weight.
    weighed: Weighed,
    /// The least offset of what is too wide in it.
    first: Option<u32>,
    ghost bound: { IsBound weighed },
}

/// What is known of some expressions.
#[derive(Clone, Copy)]
struct CountedParts {
    /// How many of them are true.
    seen: Seen,
    /// The least offset of what is too wide in them.
    first: Option<u32>,
}

/// The lesser of two offsets.
pub fn lesser_of(a: Option<u32>, b: Option<u32>) -> Option<u32>
    ensures { result ≡ lesser a b }
{
    match a {
        None => b,
        Some(one) => match b {
            None => Some(one),
            Some(other) => Some(one.min(other)),
        },
    }
}

/// An expression at an offset, of its value and weight and the least offset below it.
#[inline(never)]
fn part_of(at: u32, weighed: Weighed, below: Option<u32>) -> CountedPart
    requires { IsBound weighed }
    ensures weighed { result.weighed ≡ weighed }
    ensures first { (m : ℕ) → weighed.weight ≡ min m too_heavy → result.first ≡ lesser (wide_at at m) below }
{
    let own = if weighed.weight > HEAVIEST {
        Some(at)
    } else {
        None
    };
    CountedPart {
        weighed,
        first: lesser_of(own, below),
    }
}

/// A Boolean, which has no weight.
#[inline(never)]
fn flagged(flag: bool, below: Option<u32>) -> CountedPart
    ensures value { result.weighed.value ≡ Value.Flag flag }
    ensures weight { result.weighed.weight ≡ 0 }
    ensures first { result.first ≡ below }
{
    CountedPart {
        weighed: constant_flag(flag),
        first: below,
    }
}

/// A literal.
#[inline(never)]
fn of_number(at: u32, n: u64) -> CountedPart
    ensures value { result.weighed.value ≡ counted n (pos n) }
    ensures weight { result.weighed.weight ≡ min n too_heavy }
    ensures first { result.first ≡ lesser (wide_at at n) None }
{
    part_of(at, constant_number(n), None)
}

/// The name of a constant or label.
#[inline(never)]
fn of_name(known: &NamedValues, at: u32, name: &Text) -> CountedPart
    ensures value { result.weighed.value ≡ form_value (value_by known.now) (Named name.now) }
    ensures weight { result.weighed.weight ≡ min (form_weight (value_by known.now) (Named name.now)) too_heavy }
    ensures first { result.first ≡ lesser (wide_at at (form_weight (value_by known.now) (Named name.now))) (wide_below (value_by known.now) (Named name.now)) }
{
    part_of(at, constant_named(known, name), None)
}

/// An operator between two operands.
#[inline(never)]
fn of_both(at: u32, op: Op, a: &CountedPart, b: &CountedPart) -> CountedPart
    ensures value { (v w : ℕ) → a.now.weighed.weight ≡ min v too_heavy → b.now.weighed.weight ≡ min w too_heavy
        → result.weighed.value ≡ value_under (weight_under op (nat_abs (whole_in a.now.weighed.value)) v w) op a.now.weighed.value b.now.weighed.value }
    ensures weight { (v w : ℕ) → a.now.weighed.weight ≡ min v too_heavy → b.now.weighed.weight ≡ min w too_heavy
        → result.weighed.weight ≡ min (weight_under op (nat_abs (whole_in a.now.weighed.value)) v w) too_heavy }
    ensures first { (v w : ℕ) → a.now.weighed.weight ≡ min v too_heavy → b.now.weighed.weight ≡ min w too_heavy
        → result.first ≡ lesser (wide_at at (weight_under op (nat_abs (whole_in a.now.weighed.value)) v w)) (lesser a.now.first b.now.first) }
{
    let weighed = of_operator(op, &a.weighed, &b.weighed);
    part_of(at, weighed, lesser_of(a.first, b.first))
}

/// An `if`, of its condition and its two parts.
#[inline(never)]
fn of_three(at: u32, condition: &CountedPart, a: &CountedPart, b: &CountedPart) -> CountedPart
    ensures value { (v w : ℕ) → a.now.weighed.weight ≡ min v too_heavy → b.now.weighed.weight ≡ min w too_heavy
        → result.weighed.value ≡ counted_part (max v w) (cond (flag_in condition.now.weighed.value) a.now.weighed.value b.now.weighed.value) }
    ensures weight { (v w : ℕ) → a.now.weighed.weight ≡ min v too_heavy → b.now.weighed.weight ≡ min w too_heavy
        → result.weighed.weight ≡ min (max v w) too_heavy }
    ensures first { (v w : ℕ) → a.now.weighed.weight ≡ min v too_heavy → b.now.weighed.weight ≡ min w too_heavy
        → result.first ≡ lesser (wide_at at (max v w)) (lesser condition.now.first (lesser a.now.first b.now.first)) }
{
    let weighed = of_if(flag(condition.weighed.value), &a.weighed, &b.weighed);
    let parts = lesser_of(a.first, b.first);
    part_of(at, weighed, lesser_of(condition.first, parts))
}

/// An operator, of its left operand and the expression of its right one.
#[cycle(count)]
#[inline(never)]
fn with_right(known: &NamedValues, at: u32, op: Op, left: &CountedPart, right: &Expr) -> CountedPart
    ensures value { (x : Tree) → left.now.weighed.value ≡ value_of (value_by known.now) x
        → left.now.weighed.weight ≡ min (weight_of (value_by known.now) x) too_heavy
        → result.weighed.value ≡ form_value (value_by known.now) (Binary op x (tree_of right.now)) }
    ensures weight { (x : Tree) → left.now.weighed.value ≡ value_of (value_by known.now) x
        → left.now.weighed.weight ≡ min (weight_of (value_by known.now) x) too_heavy
        → result.weighed.weight ≡ min (form_weight (value_by known.now) (Binary op x (tree_of right.now))) too_heavy }
    ensures first { (x : Tree) → left.now.weighed.value ≡ value_of (value_by known.now) x
        → left.now.weighed.weight ≡ min (weight_of (value_by known.now) x) too_heavy → left.now.first ≡ first_wide (value_by known.now) x
        → result.first ≡ lesser (wide_at at (form_weight (value_by known.now) (Binary op x (tree_of right.now))))
        (wide_below (value_by known.now) (Binary op x (tree_of right.now))) }
{
    let right = count(known, right);
    of_both(at, op, left, &right)
}

/// `not`.
#[cycle(count)]
#[inline(never)]
fn count_not(known: &NamedValues, operand: &Expr) -> CountedPart
    ensures value { result.weighed.value ≡ form_value (value_by known.now) (Not (tree_of operand.now)) }
    ensures weight { result.weighed.weight ≡ 0 }
    ensures first { result.first ≡ wide_below (value_by known.now) (Not (tree_of operand.now)) }
{
    let a = count(known, operand);
    flagged(!flag(a.weighed.value), a.first)
}

/// Unary `-`.
#[cycle(count)]
#[inline(never)]
fn count_minus(known: &NamedValues, at: u32, operand: &Expr) -> CountedPart
    ensures value { result.weighed.value ≡ form_value (value_by known.now) (Minus (tree_of operand.now)) }
    ensures weight { result.weighed.weight ≡ min (form_weight (value_by known.now) (Minus (tree_of operand.now))) too_heavy }
    ensures first { result.first ≡ lesser (wide_at at (form_weight (value_by known.now) (Minus (tree_of operand.now))))
        (wide_below (value_by known.now) (Minus (tree_of operand.now))) }
{
    let a = count(known, operand);
    part_of(at, of_minus(&a.weighed), a.first)
}

/// `if`.
#[cycle(count)]
#[inline(never)]
fn count_if(known: &NamedValues, at: u32, condition: &Expr, yes: &Expr, no: &Expr) -> CountedPart
    ensures value { result.weighed.value ≡ form_value (value_by known.now) (If (tree_of condition.now) (tree_of yes.now) (tree_of no.now)) }
    ensures weight { result.weighed.weight ≡ min (form_weight (value_by known.now) (If (tree_of condition.now) (tree_of yes.now) (tree_of no.now))) too_heavy }
    ensures first { result.first ≡ lesser (wide_at at (form_weight (value_by known.now) (If (tree_of condition.now) (tree_of yes.now) (tree_of no.now))))
        (wide_below (value_by known.now) (If (tree_of condition.now) (tree_of yes.now) (tree_of no.now))) }
{
    let condition = count(known, condition);
    let yes = count(known, yes);
    let no = count(known, no);
    of_three(at, &condition, &yes, &no)
}

/// `pre`, `current` or `when`, which stand in no constant.
#[cycle(count)]
#[inline(never)]
fn count_below(known: &NamedValues, operand: &Expr) -> CountedPart
    ensures value { result.weighed.value ≡ Value.Flag false }
    ensures weight { result.weighed.weight ≡ 0 }
    ensures first { result.first ≡ first_wide (value_by known.now) (tree_of operand.now) }
{
    let a = count(known, operand);
    flagged(false, a.first)
}

/// Some expressions.
#[cycle(count)]
fn count_all(known: &NamedValues, es: &[Expr]) -> CountedParts
    ensures seen { not result.seen.several ≡ at_most_one (flags_of_all (value_by known.now) (trees (map tree_of es.now))) }
    ensures first { result.first ≡ first_wide_of_all (value_by known.now) (trees (map tree_of es.now)) }
{
    let mut seen = Seen {
        some: false,
        several: false,
    };
    let mut first = None;
    for e in es {
        let part = count(known, e);
        seen = seen_after(seen, flag(part.weighed.value));
        first = lesser_of(first, part.first);
    }
    CountedParts { seen, first }
}

/// `#`.
#[cycle(count)]
#[inline(never)]
fn count_at_most_one(known: &NamedValues, es: &[Expr]) -> CountedPart
    ensures value { result.weighed.value ≡ form_value (value_by known.now) (AtMostOne (trees (map tree_of es.now))) }
    ensures weight { result.weighed.weight ≡ 0 }
    ensures first { result.first ≡ wide_below (value_by known.now) (AtMostOne (trees (map tree_of es.now))) }
{
    let operands = count_all(known, es);
    flagged(!operands.seen.several, operands.first)
}

/// A call, which stands in no constant.
#[cycle(count)]
#[inline(never)]
fn count_call(known: &NamedValues, es: &[Expr]) -> CountedPart
    ensures value { result.weighed.value ≡ Value.Flag false }
    ensures weight { result.weighed.weight ≡ 0 }
    ensures first { result.first ≡ first_wide_of_all (value_by known.now) (trees (map tree_of es.now)) }
{
    let arguments = count_all(known, es);
    flagged(false, arguments.first)
}

/// The value and the weight of an expression of a constant, and the least offset of what is too wide in it.
///
/// A text nested 200 deep may give a tree of 20,101 levels, almost all of them left operands. So little else stands in
/// the frame of this function.
#[cycle(count)]
fn count(known: &NamedValues, e: &Expr) -> CountedPart
    ensures value { result.weighed.value ≡ value_of (value_by known.now) (tree_of e.now) }
    ensures weight { result.weighed.weight ≡ min (weight_of (value_by known.now) (tree_of e.now)) too_heavy }
    ensures first { result.first ≡ first_wide (value_by known.now) (tree_of e.now) }
{
    match &e.form {
        ExprForm::Binary(op, a, b) => {
            let left = count(known, a);
            with_right(known, e.at, *op, &left, b)
        }
        ExprForm::If(i, a, b) => count_if(known, e.at, i, a, b),
        ExprForm::True => flagged(true, None),
        ExprForm::False => flagged(false, None),
        ExprForm::Number(n) => of_number(e.at, *n),
        ExprForm::Named(name) => of_name(known, e.at, name),
        ExprForm::Not(a) => count_not(known, a),
        ExprForm::Minus(a) => count_minus(known, e.at, a),
        ExprForm::Pre(a) | ExprForm::Current(a) | ExprForm::When(a, _) => count_below(known, a),
        ExprForm::AtMostOne(es) => count_at_most_one(known, es.as_slice()),
        ExprForm::Call(_, es) => count_call(known, es.as_slice()),
    }
}

/// The least offset of an expression whose weight is above 2^40 in the constants of a program, of its tables and the
/// values of its constants in order. None where there is none.
pub fn wide_constant(p: &Program, tables: &ProgramTables, values: &[Value]) -> Option<u32>
    requires tables { AreTables (program_tree p.now) tables.now }
    requires values { values.now ≡ constant_values (program_tree p.now) }
    ensures { result ≡ first_wide_constant (program_tree p.now) (reverse (program_tree p.now).constants) }
{
    let mut first = None;
    let constants = p.constants.as_slice();
    for number in 0..constants.len() {
        let known = values_before(p, tables, &values[..number], number);
        let constant = &constants[number];
        let body = count(&known, &constant.body);
        first = lesser_of(first, body.first);
    }
    first
}
