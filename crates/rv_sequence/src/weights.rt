//! The weight of an expression of an instance, and the least offset of what is too wide in it.

ghost use Rattle.std.specs.Prelude.{◌≡◌, ◌≤◌, ◌+◌, ℕ, min, max, pos, cond, map, unwrap_or, slice_index_or, IfSome};
ghost use Rattle.rv_base.specs.declared.value.Value.{Value as AnyValue};
ghost use Rattle.rv_tree.specs.Places.{Identifier};
ghost use Rattle.rv_tree.specs.Tree.{Tree, tree_of, trees, Named, Not, Minus, Pre, Current, When, Binary, If, AtMostOne, Call};
ghost use Rattle.std.proofs.Props.{props};
ghost use Rattle.rv_types.specs.Constants.{counted};
ghost use Rattle.rv_types.specs.ConstantParts.{IsBound, IsKnownBound, constant_part, constant_form, no_trues, trues_over};
ghost use Rattle.rv_types.specs.Types.{Scope};
ghost use Rattle.rv_base.specs.Limits.{too_heavy};
ghost use Rattle.rv_types.specs.WideConstants.{lesser, wide_at};
ghost use Rattle.rv_instances.specs.Layouts.{here_of};
ghost use Rattle.rv_sequence.specs.Weighing.{weighing, weight_in, form_weight_in, first_in, first_below, first_in_all, product_of, weight_of_operator};

use rv_base::{Text, Value};
use rv_instances::Layout;
use rv_tree::{Expr, ExprForm, HEAVIEST, Op, TOO_HEAVY};
use rv_types::{
    NamedValues, NodeClocks, Trues, Weighed, constant_binary, constant_flag, constant_if,
    constant_minus, constant_named, constant_not, constant_number, constant_size, lesser_of,
};

/// What the weights of the expressions of an instance depend on.
#[derive(Drop)]
pub struct Weigher<'a> {
    /// Its node, with the names of its flows.
    pub clocks: &'a NodeClocks<'a>,
    /// What constants and labels stand for.
    pub values: &'a NamedValues<'a>,
    /// The weights of the flows of all instances, by their numbers.
    pub weights: &'a [u64],
    /// How these are numbered.
    pub layout: &'a Layout,
    /// The number of the instance.
    pub instance: u32,
}

/// What is known of an expression.
#[derive(Clone, Copy)]
pub struct Part {
    /// Its weight. Any weight above 2^40 counts as 2^40 + 1.
    pub weight: u64,
    /// Its value, where it is a constant expression.
    pub constant: Option<Weighed>,
    /// The least offset of what is too wide in it.
    pub first: Option<u32>,
    ghost small: { weight ≤ too_heavy },
    ghost bound: { IfSome constant IsBound } by { Prim.hlevel props },
}

/// What is known of the operands of a `#` or of the arguments of a call.
#[derive(Clone, Copy)]
pub struct Operands {
    /// How many of them are true, where they are constant.
    pub trues: Trues,
    /// The least offset of what is too wide in them.
    pub first: Option<u32>,
}

/// The least of a weight and 2^40 + 1.
fn saturated(weight: u128) -> u64
    ensures { result ≡ min weight too_heavy }
{
    if weight <= HEAVIEST as u128 {
        weight as u64
    } else {
        TOO_HEAVY
    }
}

/// What is known of an expression at an offset, of its weight, its value and the least offset below it.
#[inline(never)]
fn made(at: u32, weight: u64, constant: Option<Weighed>, below: Option<u32>) -> Part
    requires small { weight ≤ too_heavy }
    requires bound { IsKnownBound constant }
    ensures weight { result.weight ≡ weight }
    ensures constant { result.constant ≡ constant }
    ensures first { (m : ℕ) → weight ≡ min m too_heavy → result.first ≡ lesser (wide_at at m) below }
{
    let own = if weight > HEAVIEST { Some(at) } else { None };
    Part {
        weight,
        constant,
        first: lesser_of(own, below),
    }
}

/// The number of the first flow of an instance.
fn first_number(layout: &Layout, instance: u32) -> u32
    ensures { result ≡ (here_of layout.now instance).offset }
{
    match layout.laid.as_slice().get(instance as usize) {
        None => 0,
        Some(laid) => laid.first,
    }
}

/// The weight of the flow with a number.
pub fn weight_at(weights: &[u64], number: usize) -> u64
    ensures { result ≡ min (slice_index_or weights.now number 0) too_heavy }
{
    match weights.get(number) {
        None => 0,
        Some(weight) => saturated(*weight as u128),
    }
}

/// The weight of a flow of the instance, by its site.
fn own_weight(w: &Weigher, site: u32) -> u64
    ensures { result ≡ min (slice_index_or w.now.weights.now ((here_of w.now.layout.now w.now.instance).offset + site) 0) too_heavy }
{
    let first = first_number(w.layout, w.instance);
    weight_at(w.weights, first as usize + site as usize)
}

/// The number of the first output of what a call gives, by the site of the call.
pub fn output_number(layout: &Layout, instance: u32, site: u32) -> u32
    ensures { result ≡ (here_of layout.now instance).output site }
{
    let callee = layout.callees.callee(instance, site).unwrap_or(0);
    match layout.laid.as_slice().get(callee as usize) {
        None => 0,
        Some(laid) => laid.output,
    }
}

/// The weight of the first output of what a call gives, by the site of the call.
fn output_weight(w: &Weigher, site: u32) -> u64
    ensures { result ≡ min ((weighing w.now).output site) too_heavy }
{
    let number = output_number(w.layout, w.instance, site);
    weight_at(w.weights, number as usize)
}

/// What is known of an expression of weight 1 at most, which is not too wide itself.
#[inline(never)]
fn light(weight: u64, constant: Option<Weighed>, below: Option<u32>) -> Part
    requires small { weight ≤ 1 }
    requires bound { IsKnownBound constant }
    ensures weight { result.weight ≡ weight }
    ensures constant { result.constant ≡ constant }
    ensures first { result.first ≡ below }
{
    Part {
        weight,
        constant,
        first: below,
    }
}

/// A literal.
#[inline(never)]
fn of_number(at: u32, n: u64) -> Part
    ensures weight { result.weight ≡ min n too_heavy }
    ensures constant { result.constant ≡ Some (record { value = counted n (pos n); weight = min n too_heavy }) }
    ensures first { result.first ≡ lesser (wide_at at n) None }
{
    let constant = constant_number(n);
    made(at, constant.weight, Some(constant), None)
}

/// `true` or `false`.
#[inline(never)]
fn of_flag(flag: bool) -> Part
    ensures weight { result.weight ≡ 0 }
    ensures constant { result.constant ≡ Some (record { value = Value.Flag flag; weight = 0 }) }
    ensures first { result.first ≡ None }
{
    light(0, Some(constant_flag(flag)), None)
}

/// The name of a flow, constant or label.
#[inline(never)]
fn of_name(w: &Weigher, at: u32, name: &Text) -> Part
    ensures weight { result.weight ≡ min (form_weight_in (weighing w.now) None (Named name.now)) too_heavy }
    ensures constant { result.constant ≡ constant_form (weighing w.now).scope (weighing w.now).known (Named name.now) }
    ensures first { result.first ≡ lesser (wide_at at (form_weight_in (weighing w.now) None (Named name.now))) None }
{
    match w.clocks.site(name) {
        Some(site) => made(at, own_weight(w, site), None, None),
        None => {
            let constant = constant_named(w.values, name);
            made(at, constant.weight, Some(constant), None)
        }
    }
}

/// The weight of a product: the absolute value of the constant operand times the weight of the other. Of two constants
/// the left one counts as the constant operand; where none is, as nowhere in a program whose types are right, there is
/// no weight.
fn product_weight(a: &Part, b: &Part) -> u64
    ensures small { result ≤ too_heavy }
    ensures weight { (v w : ℕ) → a.now.weight ≡ min v too_heavy → b.now.weight ≡ min w too_heavy
        → result ≡ min (product_of a.now.constant b.now.constant v w) too_heavy }
{
    match &a.constant {
        Some(constant) => saturated(constant_size(constant) as u128 * b.weight as u128),
        None => match &b.constant {
            Some(constant) => saturated(constant_size(constant) as u128 * a.weight as u128),
            None => 0,
        },
    }
}

/// The weight of an operator between two operands. What gives a Boolean has none.
fn operator_weight(op: Op, a: &Part, b: &Part) -> u64
    ensures small { result ≤ too_heavy }
    ensures weight { (v w : ℕ) → a.now.weight ≡ min v too_heavy → b.now.weight ≡ min w too_heavy
        → result ≡ min (weight_of_operator op a.now.constant b.now.constant v w) too_heavy }
{
    match op {
        Op::Plus | Op::Minus => saturated(a.weight as u128 + b.weight as u128),
        Op::Times => product_weight(a, b),
        Op::Arrow => a.weight.max(b.weight),
        _ => 0,
    }
}

/// An operator between two operands.
#[inline(never)]
fn of_operator(at: u32, op: Op, a: &Part, b: &Part) -> Part
    ensures weight { (v w : ℕ) → a.now.weight ≡ min v too_heavy → b.now.weight ≡ min w too_heavy
        → result.weight ≡ min (weight_of_operator op a.now.constant b.now.constant v w) too_heavy }
    ensures constant { (s : Scope) (known : Identifier → AnyValue) (x y : Tree) → a.now.constant ≡ constant_part s known x
        → b.now.constant ≡ constant_part s known y → result.constant ≡ constant_form s known (Binary op x y) }
    ensures first { (v w : ℕ) → a.now.weight ≡ min v too_heavy → b.now.weight ≡ min w too_heavy
        → result.first ≡ lesser (wide_at at (weight_of_operator op a.now.constant b.now.constant v w)) (lesser a.now.first b.now.first) }
{
    made(
        at,
        operator_weight(op, a, b),
        constant_binary(op, &a.constant, &b.constant),
        lesser_of(a.first, b.first),
    )
}

/// An `if`, of its condition and its two parts.
#[inline(never)]
fn of_if(at: u32, condition: &Part, a: &Part, b: &Part) -> Part
    ensures weight { (v w : ℕ) → a.now.weight ≡ min v too_heavy → b.now.weight ≡ min w too_heavy → result.weight ≡ min (max v w) too_heavy }
    ensures constant { (s : Scope) (known : Identifier → AnyValue) (i x y : Tree) → condition.now.constant ≡ constant_part s known i
        → a.now.constant ≡ constant_part s known x → b.now.constant ≡ constant_part s known y → result.constant ≡ constant_form s known (If i x y) }
    ensures first { (v w : ℕ) → a.now.weight ≡ min v too_heavy → b.now.weight ≡ min w too_heavy
        → result.first ≡ lesser (wide_at at (max v w)) (lesser condition.now.first (lesser a.now.first b.now.first)) }
{
    made(
        at,
        a.weight.max(b.weight),
        constant_if(&condition.constant, &a.constant, &b.constant),
        lesser_of(condition.first, lesser_of(a.first, b.first)),
    )
}

/// An operator, of its left operand and the expression of its right one.
#[cycle(weigh)]
#[inline(never)]
fn with_right(w: &Weigher, whole: bool, at: u32, op: Op, left: &Part, right: &Expr) -> Part
    ensures weight { (x : Tree) → left.now.weight ≡ min (weight_in (weighing w.now) x) too_heavy
        → left.now.constant ≡ constant_part (weighing w.now).scope (weighing w.now).known x
        → result.weight ≡ min (form_weight_in (weighing w.now) None (Binary op x (tree_of right.now))) too_heavy }
    ensures constant { (x : Tree) → left.now.constant ≡ constant_part (weighing w.now).scope (weighing w.now).known x
        → result.constant ≡ constant_form (weighing w.now).scope (weighing w.now).known (Binary op x (tree_of right.now)) }
    ensures first { (x : Tree) → left.now.weight ≡ min (weight_in (weighing w.now) x) too_heavy
        → left.now.constant ≡ constant_part (weighing w.now).scope (weighing w.now).known x → left.now.first ≡ first_in (weighing w.now) whole x
        → result.first ≡ lesser (wide_at at (form_weight_in (weighing w.now) None (Binary op x (tree_of right.now))))
        (first_below (weighing w.now) whole (Binary op x (tree_of right.now))) }
{
    let right = weigh(w, whole, right);
    of_operator(at, op, left, &right)
}

/// `not`, which gives a Boolean.
#[cycle(weigh)]
#[inline(never)]
fn weigh_not(w: &Weigher, whole: bool, operand: &Expr) -> Part
    ensures weight { result.weight ≡ 0 }
    ensures constant { result.constant ≡ constant_form (weighing w.now).scope (weighing w.now).known (Not (tree_of operand.now)) }
    ensures first { result.first ≡ first_below (weighing w.now) whole (Not (tree_of operand.now)) }
{
    let a = weigh(w, whole, operand);
    light(0, constant_not(&a.constant), a.first)
}

/// Unary `-`.
#[cycle(weigh)]
#[inline(never)]
fn weigh_minus(w: &Weigher, whole: bool, at: u32, operand: &Expr) -> Part
    ensures weight { result.weight ≡ min (form_weight_in (weighing w.now) None (Minus (tree_of operand.now))) too_heavy }
    ensures constant { result.constant ≡ constant_form (weighing w.now).scope (weighing w.now).known (Minus (tree_of operand.now)) }
    ensures first { result.first ≡ lesser (wide_at at (form_weight_in (weighing w.now) None (Minus (tree_of operand.now))))
        (first_below (weighing w.now) whole (Minus (tree_of operand.now))) }
{
    let a = weigh(w, whole, operand);
    made(at, a.weight, constant_minus(&a.constant), a.first)
}

/// `pre`.
#[cycle(weigh)]
#[inline(never)]
fn weigh_pre(w: &Weigher, whole: bool, operand: &Expr) -> Part
    ensures weight { result.weight ≡ 1 }
    ensures constant { result.constant ≡ constant_form (weighing w.now).scope (weighing w.now).known (Pre (tree_of operand.now)) }
    ensures first { result.first ≡ first_below (weighing w.now) whole (Pre (tree_of operand.now)) }
{
    let first = if whole {
        weigh(w, whole, operand).first
    } else {
        None
    };
    light(1, None, first)
}

/// `current`.
#[cycle(weigh)]
#[inline(never)]
fn weigh_current(w: &Weigher, whole: bool, at: u32, operand: &Expr) -> Part
    ensures weight { result.weight ≡ min (form_weight_in (weighing w.now) None (Current (tree_of operand.now))) too_heavy }
    ensures constant { result.constant ≡ constant_form (weighing w.now).scope (weighing w.now).known (Current (tree_of operand.now)) }
    ensures first { result.first ≡ lesser (wide_at at (form_weight_in (weighing w.now) None (Current (tree_of operand.now))))
        (first_below (weighing w.now) whole (Current (tree_of operand.now))) }
{
    let a = weigh(w, whole, operand);
    made(at, a.weight.max(1), None, a.first)
}

/// `when`.
#[cycle(weigh)]
#[inline(never)]
fn weigh_when(w: &Weigher, whole: bool, at: u32, operand: &Expr) -> Part
    ensures weight { result.weight ≡ min (weight_in (weighing w.now) (tree_of operand.now)) too_heavy }
    ensures constant { result.constant ≡ None }
    ensures first { result.first ≡ lesser (wide_at at (weight_in (weighing w.now) (tree_of operand.now)))
        (first_in (weighing w.now) whole (tree_of operand.now)) }
{
    let a = weigh(w, whole, operand);
    made(at, a.weight, None, a.first)
}

/// `if`.
#[cycle(weigh)]
#[inline(never)]
fn weigh_if(w: &Weigher, whole: bool, at: u32, condition: &Expr, yes: &Expr, no: &Expr) -> Part
    ensures weight { result.weight ≡ min (form_weight_in (weighing w.now) None (If (tree_of condition.now) (tree_of yes.now) (tree_of no.now))) too_heavy }
    ensures constant { result.constant ≡ constant_form (weighing w.now).scope (weighing w.now).known
        (If (tree_of condition.now) (tree_of yes.now) (tree_of no.now)) }
    ensures first { result.first ≡ lesser (wide_at at (form_weight_in (weighing w.now) None (If (tree_of condition.now) (tree_of yes.now) (tree_of no.now))))
        (first_below (weighing w.now) whole (If (tree_of condition.now) (tree_of yes.now) (tree_of no.now))) }
{
    let condition = weigh(w, whole, condition);
    let yes = weigh(w, whole, yes);
    let no = weigh(w, whole, no);
    of_if(at, &condition, &yes, &no)
}

/// What is known of some operands or arguments.
#[cycle(weigh)]
pub fn weigh_all(w: &Weigher, whole: bool, es: &[Expr]) -> Operands
    ensures trues { result.trues ≡ trues_over (weighing w.now).scope (weighing w.now).known no_trues (trees (map tree_of es.now)) }
    ensures first { result.first ≡ first_in_all (weighing w.now) whole (trees (map tree_of es.now)) }
{
    let mut trues = Trues::none();
    let mut first = None;
    for e in es {
        let part = weigh(w, whole, e);
        trues = trues.after(&part.constant);
        first = lesser_of(first, part.first);
    }
    Operands { trues, first }
}

/// `#`, which gives a Boolean.
#[cycle(weigh)]
#[inline(never)]
fn weigh_at_most_one(w: &Weigher, whole: bool, es: &[Expr]) -> Part
    ensures weight { result.weight ≡ 0 }
    ensures constant { result.constant ≡ constant_form (weighing w.now).scope (weighing w.now).known (AtMostOne (trees (map tree_of es.now))) }
    ensures first { result.first ≡ first_below (weighing w.now) whole (AtMostOne (trees (map tree_of es.now))) }
{
    let operands = weigh_all(w, whole, es);
    light(0, operands.trues.at_most_one(), operands.first)
}

/// A call.
#[cycle(weigh)]
#[inline(never)]
fn weigh_call(w: &Weigher, whole: bool, at: u32, site: Option<u32>, es: &[Expr]) -> Part
    ensures weight { result.weight ≡ min ((weighing w.now).output (unwrap_or site 0)) too_heavy }
    ensures constant { result.constant ≡ None }
    ensures first { result.first ≡ lesser (wide_at at ((weighing w.now).output (unwrap_or site 0)))
        (cond whole (first_in_all (weighing w.now) whole (trees (map tree_of es.now))) None) }
{
    let weight = output_weight(w, site.unwrap_or(0));
    let first = if whole {
        weigh_all(w, whole, es).first
    } else {
        None
    };
    made(at, weight, None, first)
}

/// The weight of an expression, its value where it is constant, and the least offset of what is too wide in it. The
/// arguments of calls and the operands of `pre` are looked at only where the whole expression is.
///
/// A text nested 200 deep may give a tree of 20,101 levels, almost all of them left operands. So little else stands in
/// the frame of this function.
#[cycle(weigh)]
pub fn weigh(w: &Weigher, whole: bool, e: &Expr) -> Part
    ensures weight { result.weight ≡ min (weight_in (weighing w.now) (tree_of e.now)) too_heavy }
    ensures constant { result.constant ≡ constant_part (weighing w.now).scope (weighing w.now).known (tree_of e.now) }
    ensures first { result.first ≡ first_in (weighing w.now) whole (tree_of e.now) }
{
    match &e.form {
        ExprForm::Binary(op, a, b) => {
            let left = weigh(w, whole, a);
            with_right(w, whole, e.at, *op, &left, b)
        }
        ExprForm::If(i, a, b) => weigh_if(w, whole, e.at, i, a, b),
        ExprForm::True => of_flag(true),
        ExprForm::False => of_flag(false),
        ExprForm::Number(n) => of_number(e.at, *n),
        ExprForm::Named(name) => of_name(w, e.at, name),
        ExprForm::Not(a) => weigh_not(w, whole, a),
        ExprForm::Minus(a) => weigh_minus(w, whole, e.at, a),
        ExprForm::Pre(a) => weigh_pre(w, whole, a),
        ExprForm::Current(a) => weigh_current(w, whole, e.at, a),
        ExprForm::When(a, _) => weigh_when(w, whole, e.at, a),
        ExprForm::AtMostOne(es) => weigh_at_most_one(w, whole, es.as_slice()),
        ExprForm::Call(_, es) => weigh_call(w, whole, e.at, e.site, es.as_slice()),
    }
}
