//! Expressions of instances as flat ones.

ghost use Rattle.std.specs.Prelude.{◌≡◌, false, ◌++◌, ◌∷◌, [], negsuc, pos, map, min, slice_index_or, Some, IfOk, IsSome, OnOk};
ghost use Rattle.std.specs.List.{Contains};
ghost use Rattle.rv_tree.specs.Tree as tree;
ghost use Rattle.rv_tree.specs.Tree.{Tree, tree_of, trees};
ghost use Rattle.rv_base.specs.Limits.{too_heavy};
ghost use Rattle.rv_tree.specs.Places.{memory_site};
ghost use Rattle.rv_types.specs.Constants.{counted, whole_in};
ghost use Rattle.rv_types.specs.ConstantParts.{IsKnownBound, constant_form};
ghost use Rattle.rv_types.specs.Instances.{Instance};
ghost use Rattle.rv_types.specs.Lists.{AreTicks};
ghost use Rattle.rv_types.specs.Scopes.{node_scope};
ghost use Rattle.rv_types.specs.Types.{kind_of};
ghost use Rattle.rv_types.specs.ValueTables.{value_by};
ghost use Rattle.rv_types.specs.Variables.{node_parts};
ghost use Rattle.rv_instances.specs.Expanded.{main_of, program_of};
ghost use Rattle.rv_instances.specs.NumberedNeeds.{IsReader, node_read};
ghost use Rattle.rv_flat.specs.RawTree as raw;
ghost use Rattle.rv_flat.specs.RawTree.{raw_tree, raw_trees};
ghost use Rattle.rv_flatten.specs.Frames.{IsFrame};
ghost use Rattle.rv_flatten.specs.Readings as readings;
ghost use Rattle.rv_agreement.specs.Programs.{spot};
ghost use Rattle.rv_agreement.specs.Translation.{Numbers};
ghost use Rattle.rv_flatten.specs.Readings.{presence, unplaced};
ghost use Rattle.rv_flatten.specs.Tables as tables;
ghost use Rattle.rv_flatten.specs.Tables.{constant_read, form_read, is_chained, kept_read, named_read, operator_place_read, path_read, place_read};
ghost use Rattle.rv_flatten.specs.Tables.{product_read, scope_read, tick_read, tree_read};

use crate::comparisons::is_test;
use crate::frame::Frame;
use rv_base::{Box, Many, Memory, Place, Sites, Text, Value};
use rv_flat::{FlatExpr, FlatForm};
use rv_instances::instance_numbers;
use rv_tree::{Expr, ExprForm, Op};
use rv_types::{
    Trues, Weighed, constant_binary, constant_flag, constant_if, constant_minus, constant_named,
    constant_not, constant_number,
};
use std::alloc::Global;

/// An expression of an instance as a flat one. Time grows with the number of its parts, up to look-ups; of what stands under
/// a `->` the first operand that has a clock tells the clock.
pub fn flat_of(alloc: Global, frame: &Frame, e: &Expr) -> Result<FlatExpr, Memory>
    requires { IsReader frame.now.reader }
    ensures { (numbers : Numbers) (i : Instance) → IsFrame numbers i frame.now
        → AreTicks (program_of frame.now.expanded.now) (main_of frame.now.expanded.now) numbers.ticks → Contains (node_parts i.node) (tree_of e.now)
        → IsSome (kind_of (node_scope (program_of frame.now.expanded.now) i.node) (tree_of e.now))
        → IfOk result (λ f. raw_tree f ≡ readings.raw_of (program_of frame.now.expanded.now) numbers i (tree_of e.now)) }
{
    instance_numbers();
    let mut constant = None;
    let made = flat_part(alloc, frame, e, &mut constant)?;
    Ok(made.into_inner())
}

/// The same, and the value of the expression where it is constant. It calls itself for each operand, so as deep as the
/// tree is: 20,301 levels at most, all but 200 of them left operands and operands of `when`. So little else stands in
/// its frame: it hands on boxes, the value is written over and over, and all other forms are another function's.
#[cycle(flat_part)]
fn flat_part(
    alloc: Global,
    frame: &Frame,
    e: &Expr,
    constant: &mut Option<Weighed>,
) -> Result<Box<FlatExpr>, Memory>
    requires { IsReader frame.now.reader }
    ensures flat { IfOk result (λ f. raw_tree f ≡ tree_read frame.now (tree_of e.now)) }
    ensures constant { OnOk result (constant.new ≡ constant_read frame.now (tree_of e.now)) }
    ensures bound { OnOk result (IsKnownBound constant.new) }
{
    match &e.form {
        ExprForm::Binary(op, left, right) => {
            let left = flat_part(alloc, frame, left, constant)?;
            flat_right(alloc, frame, e, *op, left, right, constant)
        }
        ExprForm::When(operand, clock) => {
            let operand = flat_part(alloc, frame, operand, constant)?;
            flat_when(alloc, frame, &clock.text, operand, constant)
        }
        _ => flat_other(alloc, frame, e, constant),
    }
}

/// An expression that is no operator between two operands and no `when`.
#[cycle(flat_part)]
#[inline(never)]
fn flat_other(
    alloc: Global,
    frame: &Frame,
    e: &Expr,
    constant: &mut Option<Weighed>,
) -> Result<Box<FlatExpr>, Memory>
    requires reader { IsReader frame.now.reader }
    requires other { is_chained (tree_of e.now) ≡ false }
    ensures flat { IfOk result (λ f. raw_tree f ≡ tree_read frame.now (tree_of e.now)) }
    ensures constant { OnOk result (constant.new ≡ constant_read frame.now (tree_of e.now)) }
    ensures bound { OnOk result (IsKnownBound constant.new) }
{
    match &e.form {
        ExprForm::True => flat_flag(alloc, true, constant),
        ExprForm::False => flat_flag(alloc, false, constant),
        ExprForm::Number(number) => flat_number(alloc, *number, constant),
        ExprForm::Named(name) => flat_name(alloc, frame, name, constant),
        ExprForm::Not(operand) => flat_not(alloc, frame, operand, constant),
        ExprForm::Minus(operand) => flat_minus(alloc, frame, operand, constant),
        ExprForm::Pre(operand) => flat_pre(alloc, frame, e.site, operand, constant),
        ExprForm::Current(operand) => flat_current(alloc, frame, e.site, operand, constant),
        ExprForm::If(condition, first, second) => {
            flat_if(alloc, frame, condition, first, second, constant)
        }
        ExprForm::AtMostOne(operands) => {
            flat_at_most_one(alloc, frame, operands.as_slice(), constant)
        }
        ExprForm::Call(_, _) => flat_call(alloc, frame, e.site, constant),
        ExprForm::Binary(_, _, _) => unreachable!(),
        ExprForm::When(_, _) => unreachable!(),
    }
}

/// `when`, of its operand and the name of its clock.
#[inline(never)]
fn flat_when(
    alloc: Global,
    frame: &Frame,
    clock: &Text,
    operand: Box<FlatExpr>,
    constant: &mut Option<Weighed>,
) -> Result<Box<FlatExpr>, Memory>
    requires { IsReader frame.now.reader }
    ensures flat { IfOk result (λ f. raw_tree f ≡ unplaced (raw.When (tables.flow_named frame.now clock.now) (raw_tree operand))) }
    ensures constant { OnOk result (constant.new ≡ None) }
    ensures bound { OnOk result (IsKnownBound constant.new) }
{
    *constant = None;
    made_when(alloc, flow_named(frame, clock), operand)
}

/// An operator, of its left operand, what is known of that, and the expression of its right operand.
#[cycle(flat_part)]
#[inline(never)]
fn flat_right(
    alloc: Global,
    frame: &Frame,
    e: &Expr,
    op: Op,
    left: Box<FlatExpr>,
    right: &Expr,
    constant: &mut Option<Weighed>,
) -> Result<Box<FlatExpr>, Memory>
    requires reader { IsReader frame.now.reader }
    requires bound { IsKnownBound constant.old }
    ensures flat { (x : Tree) → tree_of e.now ≡ tree.Node e.now.at e.now.site (tree.Binary op x (tree_of right.now)) → raw_tree left ≡ tree_read frame.now x
        → constant.old ≡ constant_read frame.now x → IfOk result (λ f. raw_tree f ≡ form_read frame.now e.now.site (tree.Binary op x (tree_of right.now))) }
    ensures constant { (x : Tree) → constant.old ≡ constant_read frame.now x
        → OnOk result (constant.new ≡ constant_form (scope_read frame.now) (value_by frame.now.values.now) (tree.Binary op x (tree_of right.now))) }
    ensures bound { OnOk result (IsKnownBound constant.new) }
{
    let first = *constant;
    let right = flat_part(alloc, frame, right, constant)?;
    let second = *constant;
    *constant = constant_binary(op, &first, &second);
    match op {
        Op::Arrow => made_arrow(alloc, frame, e, left, right),
        Op::Times => made_product(alloc, &first, left, &second, right),
        _ => made_binary(alloc, place_of(alloc, frame, e)?, op, left, right),
    }
}

/// `true` or `false`.
#[inline(never)]
fn flat_flag(
    alloc: Global,
    flag: bool,
    constant: &mut Option<Weighed>,
) -> Result<Box<FlatExpr>, Memory>
    ensures flat { IfOk result (λ f. raw_tree f ≡ unplaced (raw.Constant (Value.Flag flag))) }
    ensures constant { OnOk result (constant.new ≡ Some (record { value = Value.Flag flag; weight = 0 })) }
    ensures bound { OnOk result (IsKnownBound constant.new) }
{
    *constant = Some(constant_flag(flag));
    made_constant(alloc, Value::Flag(flag))
}

/// A literal.
#[inline(never)]
fn flat_number(
    alloc: Global,
    number: u64,
    constant: &mut Option<Weighed>,
) -> Result<Box<FlatExpr>, Memory>
    ensures flat { IfOk result (λ f. raw_tree f ≡ unplaced (raw.Constant (Value.Whole (pos number)))) }
    ensures constant { OnOk result (constant.new ≡ Some (record { value = counted number (pos number); weight = min number too_heavy })) }
    ensures bound { OnOk result (IsKnownBound constant.new) }
{
    *constant = Some(constant_number(number));
    made_constant(alloc, Value::Whole(number as i128))
}

/// The name of a flow, constant or label.
#[inline(never)]
fn flat_name(
    alloc: Global,
    frame: &Frame,
    name: &Text,
    constant: &mut Option<Weighed>,
) -> Result<Box<FlatExpr>, Memory>
    requires { IsReader frame.now.reader }
    ensures flat { IfOk result (λ f. raw_tree f ≡ unplaced (named_read frame.now name.now)) }
    ensures constant { OnOk result (constant.new ≡ constant_form (scope_read frame.now) (value_by frame.now.values.now) (tree.Named name.now)) }
    ensures bound { OnOk result (IsKnownBound constant.new) }
{
    match frame.reader.flow(name) {
        Some(number) => {
            *constant = None;
            let flow = number_at(&frame.numbering.flows, number as usize);
            made_flow(alloc, flow)
        }
        None => {
            let known = constant_named(frame.values, name);
            *constant = Some(known);
            made_constant(alloc, known.value)
        }
    }
}

/// `not`.
#[cycle(flat_part)]
#[inline(never)]
fn flat_not(
    alloc: Global,
    frame: &Frame,
    operand: &Expr,
    constant: &mut Option<Weighed>,
) -> Result<Box<FlatExpr>, Memory>
    requires { IsReader frame.now.reader }
    ensures flat { IfOk result (λ f. raw_tree f ≡ unplaced (raw.Not (tree_read frame.now (tree_of operand.now)))) }
    ensures constant { OnOk result (constant.new ≡ constant_form (scope_read frame.now) (value_by frame.now.values.now) (tree.Not (tree_of operand.now))) }
    ensures bound { OnOk result (IsKnownBound constant.new) }
{
    let made = flat_part(alloc, frame, operand, constant)?;
    let known = *constant;
    *constant = constant_not(&known);
    made_not(alloc, made)
}

/// Unary `-`.
#[cycle(flat_part)]
#[inline(never)]
fn flat_minus(
    alloc: Global,
    frame: &Frame,
    operand: &Expr,
    constant: &mut Option<Weighed>,
) -> Result<Box<FlatExpr>, Memory>
    requires { IsReader frame.now.reader }
    ensures flat { IfOk result (λ f. raw_tree f ≡ unplaced (raw.Scale (negsuc 0) (tree_read frame.now (tree_of operand.now)))) }
    ensures constant { OnOk result (constant.new ≡ constant_form (scope_read frame.now) (value_by frame.now.values.now) (tree.Minus (tree_of operand.now))) }
    ensures bound { OnOk result (IsKnownBound constant.new) }
{
    let made = flat_part(alloc, frame, operand, constant)?;
    let known = *constant;
    *constant = constant_minus(&known);
    made_scale(alloc, -1, made)
}

/// `pre`.
#[inline(never)]
fn flat_pre(
    alloc: Global,
    frame: &Frame,
    site: Option<u32>,
    operand: &Expr,
    constant: &mut Option<Weighed>,
) -> Result<Box<FlatExpr>, Memory>
    ensures flat { IfOk result (λ f. raw_tree f ≡ unplaced (raw.Memory (kept_read frame.now site (tree_of operand.now)))) }
    ensures constant { OnOk result (constant.new ≡ None) }
    ensures bound { OnOk result (IsKnownBound constant.new) }
{
    *constant = None;
    let kept = kept_number(frame, site, operand);
    made_memory(alloc, kept)
}

/// `current`. What it shows stands in its memory, and is not looked at here.
#[inline(never)]
fn flat_current(
    alloc: Global,
    frame: &Frame,
    site: Option<u32>,
    operand: &Expr,
    constant: &mut Option<Weighed>,
) -> Result<Box<FlatExpr>, Memory>
    ensures flat { IfOk result (λ f. raw_tree f ≡ form_read frame.now site (tree.Current (tree_of operand.now))) }
    ensures constant { OnOk result (constant.new ≡ None) }
    ensures bound { OnOk result (IsKnownBound constant.new) }
{
    *constant = None;
    made_current(alloc, kept_number(frame, site, operand))
}

/// `if`.
#[cycle(flat_part)]
#[inline(never)]
fn flat_if(
    alloc: Global,
    frame: &Frame,
    condition: &Expr,
    first: &Expr,
    second: &Expr,
    constant: &mut Option<Weighed>,
) -> Result<Box<FlatExpr>, Memory>
    requires { IsReader frame.now.reader }
    ensures flat { IfOk result (λ f. raw_tree f ≡ unplaced (raw.If (tree_read frame.now (tree_of condition.now)) (tree_read frame.now (tree_of first.now))
        (tree_read frame.now (tree_of second.now)))) }
    ensures constant { OnOk result (constant.new ≡ constant_form (scope_read frame.now) (value_by frame.now.values.now)
        (tree.If (tree_of condition.now) (tree_of first.now) (tree_of second.now))) }
    ensures bound { OnOk result (IsKnownBound constant.new) }
{
    let condition = flat_part(alloc, frame, condition, constant)?;
    let of_condition = *constant;
    let first = flat_part(alloc, frame, first, constant)?;
    let of_first = *constant;
    let second = flat_part(alloc, frame, second, constant)?;
    let of_second = *constant;
    *constant = constant_if(&of_condition, &of_first, &of_second);
    made_if(alloc, condition, first, second)
}

/// `#`.
#[cycle(flat_part)]
#[inline(never)]
fn flat_at_most_one(
    alloc: Global,
    frame: &Frame,
    operands: &[Expr],
    constant: &mut Option<Weighed>,
) -> Result<Box<FlatExpr>, Memory>
    requires { IsReader frame.now.reader }
    ensures flat { IfOk result (λ f. raw_tree f ≡ unplaced (raw.AtMostOne (tables.trees_read frame.now (trees (map tree_of operands.now))))) }
    ensures constant { OnOk result (constant.new ≡ constant_form (scope_read frame.now) (value_by frame.now.values.now)
        (tree.AtMostOne (trees (map tree_of operands.now)))) }
    ensures bound { OnOk result (IsKnownBound constant.new) }
{
    let mut trues = Trues::none();
    let all = flat_all(alloc, frame, operands, constant, &mut trues)?;
    *constant = trues.at_most_one();
    made_at_most_one(alloc, all)
}

/// The operands of a `#`, and what is known of them.
#[cycle(flat_part)]
#[inline(never)]
fn flat_all(
    alloc: Global,
    frame: &Frame,
    operands: &[Expr],
    constant: &mut Option<Weighed>,
    trues: &mut Trues,
) -> Result<Many<FlatExpr>, Memory>
    requires { IsReader frame.now.reader }
    ensures flat { IfOk result (λ all. map raw_tree all ≡ map (λ e. tree_read frame.now (tree_of e)) operands.now) }
    ensures trues { OnOk result (trues.new ≡ tables.trues_read frame.now trues.old (trees (map tree_of operands.now))) }
{
    let mut all = Many::new(alloc);
    for operand in operands {
        let made = flat_part(alloc, frame, operand, constant)?;
        all.push(made.into_inner())?;
        *trues = trues.after(constant);
    }
    Ok(all)
}

/// A call, which is its first output.
#[inline(never)]
fn flat_call(
    alloc: Global,
    frame: &Frame,
    site: Option<u32>,
    constant: &mut Option<Weighed>,
) -> Result<Box<FlatExpr>, Memory>
    requires { IsReader frame.now.reader }
    ensures flat { IfOk result (λ f. raw_tree f ≡ unplaced (raw.Flow (tables.output_read frame.now site))) }
    ensures constant { OnOk result (constant.new ≡ None) }
    ensures bound { OnOk result (IsKnownBound constant.new) }
{
    *constant = None;
    let output = frame.reader.output(site.unwrap_or(0));
    let flow = number_at(&frame.numbering.flows, output as usize);
    made_flow(alloc, flow)
}

/// The number of the flow of a `when`.
#[inline(never)]
fn flow_named(frame: &Frame, name: &Text) -> u32
    requires { IsReader frame.now.reader }
    ensures { result ≡ tables.flow_named frame.now name.now }
{
    number_at(
        &frame.numbering.flows,
        frame.reader.flow(name).unwrap_or(0) as usize,
    )
}

/// `E -> F`: a choice by whether its clock has ticked.
#[inline(never)]
fn made_arrow(
    alloc: Global,
    frame: &Frame,
    e: &Expr,
    left: Box<FlatExpr>,
    right: Box<FlatExpr>,
) -> Result<Box<FlatExpr>, Memory>
    requires { IsReader frame.now.reader }
    ensures { IfOk result (λ f. raw_tree f ≡ unplaced (raw.If (unplaced (raw.Ticked (tick_read frame.now (tables.told_clock_read frame.now (tree_of e.now)))))
        (raw_tree right) (raw_tree left))) }
{
    let clock = frame.reader.told_clock_of(e);
    let ticked = made_ticked(alloc, tick_number(frame, clock))?;
    made_if(alloc, ticked, right, left)
}

/// A product, of its operands and of what is known of them: the left one counts as its value if it is constant, else
/// the right one. One of them is, wherever types are right.
#[inline(never)]
fn made_product(
    alloc: Global,
    first: &Option<Weighed>,
    left: Box<FlatExpr>,
    second: &Option<Weighed>,
    right: Box<FlatExpr>,
) -> Result<Box<FlatExpr>, Memory>
    ensures { IfOk result (λ f. raw_tree f ≡ unplaced (product_read first.now second.now (raw_tree left) (raw_tree right))) }
{
    match first {
        Some(known) => made_scale(alloc, whole(&known.value), right),
        None => match second {
            Some(known) => made_scale(alloc, whole(&known.value), left),
            None => made_scale(alloc, 0, left),
        },
    }
}

/// The number of an integer value.
fn whole(value: &Value) -> i128
    ensures { result ≡ whole_in value.now }
{
    match value {
        Value::Whole(number) => *number,
        _ => 0,
    }
}

/// The number with a number, 0 where there is none.
#[tactic(auto, using(crate::proofs::Reading::read_nothing))]
pub fn number_at(numbers: &Many<u32>, number: usize) -> u32
    ensures { result ≡ slice_index_or numbers.now number 0 }
{
    match numbers.get(number) {
        Some(held) => *held,
        None => 0,
    }
}

/// The number of the flow of a clock in the order of evaluation, by its number in the layout.
pub fn clock_number(frame: &Frame, clock: Option<u32>) -> Option<u32>
    ensures { result ≡ tables.clock_read frame.now clock }
{
    match clock {
        Some(number) => Some(number_at(&frame.numbering.flows, number as usize)),
        None => None,
    }
}

/// The number of the tick of a clock, by the number of its flow in the layout.
fn tick_number(frame: &Frame, clock: Option<u32>) -> u32
    ensures { result ≡ tick_read frame.now clock }
{
    match clock {
        Some(number) => number_at(&frame.numbering.ticks, number as usize),
        None => 0,
    }
}

/// The number of the memory of a `pre` or `current`.
#[inline(never)]
fn kept_number(frame: &Frame, site: Option<u32>, operand: &Expr) -> u32
    ensures { result ≡ kept_read frame.now site (tree_of operand.now) }
{
    let own = site_of_memory(frame, site, operand);
    frame
        .numbering
        .memories
        .callee(frame.reader.instance, own)
        .unwrap_or(0)
}

/// The site of that memory.
fn site_of_memory(frame: &Frame, site: Option<u32>, operand: &Expr) -> u32
    ensures { result ≡ memory_site (node_read frame.now.reader) site (tree_of operand.now) }
{
    match &operand.form {
        ExprForm::Named(name) => match frame.reader.clocks.site(name) {
            Some(flow) => flow,
            None => site.unwrap_or(0),
        },
        _ => site.unwrap_or(0),
    }
}

/// The place of an expression of the instance: a comparison of integers has that of its site, all others the empty one.
#[inline(never)]
fn place_of(alloc: Global, frame: &Frame, e: &Expr) -> Result<Place, Memory>
    ensures { IfOk result (λ p. p.sites ≡ place_read frame.now (tree_of e.now)) }
{
    match &e.form {
        ExprForm::Binary(op, left, _) => place_of_operator(alloc, frame, e.site, *op, left),
        _ => Ok(nowhere()),
    }
}

/// The place of an operator with this site and left operand.
fn place_of_operator(
    alloc: Global,
    frame: &Frame,
    site: Option<u32>,
    op: Op,
    left: &Expr,
) -> Result<Place, Memory>
    ensures { IfOk result (λ p. p.sites ≡ operator_place_read frame.now site op (tree_of left.now)) }
{
    if is_test(frame.tables, frame.own, op, left) {
        spot_of(alloc, frame, site)
    } else {
        Ok(nowhere())
    }
}

/// The empty place.
fn nowhere() -> Place
    ensures { result.sites ≡ [] }
{
    Place {
        sites: Sites::empty(),
    }
}

/// The place of a site of the instance, the empty one where there is no site.
pub fn spot_of(alloc: Global, frame: &Frame, site: Option<u32>) -> Result<Place, Memory>
    ensures { IfOk result (λ p. p.sites ≡ spot (path_read frame.now) site) }
{
    match site {
        Some(own) => place_at(alloc, frame, own),
        None => Ok(nowhere()),
    }
}

/// The place of a site of the instance. It shares the path of the instance.
#[tactic(auto, using(crate::proofs::Reading::read_nothing))]
fn place_at(alloc: Global, frame: &Frame, site: u32) -> Result<Place, Memory>
    ensures { IfOk result (λ p. p.sites ≡ path_read frame.now ++ site ∷ []) }
{
    match frame.expanded.instances.get(frame.reader.instance as usize) {
        Some(instance) => {
            let sites = Sites::within(&instance.path, site)?;
            Ok(Place { sites })
        }
        None => {
            let sites = Sites::from_slice(alloc, &[site])?;
            Ok(Place { sites })
        }
    }
}

/// A flat expression in memory of its own. The functions below are asked to stay calls, so that `flat_part`, which calls
/// itself, has none of their values on the stack.
fn made(alloc: Global, at: Place, form: FlatForm) -> Result<Box<FlatExpr>, Memory>
    ensures { IfOk result (λ f. f ≡ record { at = at; form = form }) }
{
    let made = Box::new(alloc, FlatExpr { at, form })?;
    Ok(made)
}

/// One without a place.
fn made_unplaced(alloc: Global, form: FlatForm) -> Result<Box<FlatExpr>, Memory>
    ensures { IfOk result (λ f. f ≡ record { at = record { sites = [] }; form = form }) }
{
    made(alloc, nowhere(), form)
}

/// A constant.
#[inline(never)]
pub fn made_constant(alloc: Global, value: Value) -> Result<Box<FlatExpr>, Memory>
    ensures { IfOk result (λ f. raw_tree f ≡ unplaced (raw.Constant value)) }
{
    made_unplaced(alloc, FlatForm::Constant(value))
}

/// A flow, by its number.
#[inline(never)]
pub fn made_flow(alloc: Global, number: u32) -> Result<Box<FlatExpr>, Memory>
    ensures { IfOk result (λ f. raw_tree f ≡ unplaced (raw.Flow number)) }
{
    made_unplaced(alloc, FlatForm::Flow(number))
}

/// Whether a clock is there, by the number of its flow.
#[inline(never)]
pub fn made_presence(alloc: Global, clock: Option<u32>) -> Result<Box<FlatExpr>, Memory>
    ensures { IfOk result (λ f. raw_tree f ≡ unplaced (presence clock)) }
{
    match clock {
        Some(number) => made_flow(alloc, number),
        None => made_constant(alloc, Value::Flag(true)),
    }
}

#[inline(never)]
fn made_memory(alloc: Global, number: u32) -> Result<Box<FlatExpr>, Memory>
    ensures { IfOk result (λ f. raw_tree f ≡ unplaced (raw.Memory number)) }
{
    made_unplaced(alloc, FlatForm::Memory(number))
}

#[inline(never)]
fn made_ticked(alloc: Global, number: u32) -> Result<Box<FlatExpr>, Memory>
    ensures { IfOk result (λ f. raw_tree f ≡ unplaced (raw.Ticked number)) }
{
    made_unplaced(alloc, FlatForm::Ticked(number))
}

#[inline(never)]
fn made_not(alloc: Global, operand: Box<FlatExpr>) -> Result<Box<FlatExpr>, Memory>
    ensures { IfOk result (λ f. raw_tree f ≡ unplaced (raw.Not (raw_tree operand))) }
{
    made_unplaced(alloc, FlatForm::Not(operand))
}

#[inline(never)]
fn made_binary(
    alloc: Global,
    at: Place,
    op: Op,
    left: Box<FlatExpr>,
    right: Box<FlatExpr>,
) -> Result<Box<FlatExpr>, Memory>
    ensures { IfOk result (λ f. raw_tree f ≡ raw.Node at.sites (raw.Binary op (raw_tree left) (raw_tree right))) }
{
    made(alloc, at, FlatForm::Binary(op, left, right))
}

#[inline(never)]
fn made_scale(alloc: Global, by: i128, operand: Box<FlatExpr>) -> Result<Box<FlatExpr>, Memory>
    ensures { IfOk result (λ f. raw_tree f ≡ unplaced (raw.Scale by (raw_tree operand))) }
{
    made_unplaced(alloc, FlatForm::Scale(by, operand))
}

/// A choice.
#[inline(never)]
fn made_if(
    alloc: Global,
    condition: Box<FlatExpr>,
    first: Box<FlatExpr>,
    second: Box<FlatExpr>,
) -> Result<Box<FlatExpr>, Memory>
    ensures { IfOk result (λ f. raw_tree f ≡ unplaced (raw.If (raw_tree condition) (raw_tree first) (raw_tree second))) }
{
    made_unplaced(alloc, FlatForm::If(condition, first, second))
}

#[inline(never)]
fn made_at_most_one(alloc: Global, operands: Many<FlatExpr>) -> Result<Box<FlatExpr>, Memory>
    ensures { IfOk result (λ f. raw_tree f ≡ unplaced (raw.AtMostOne (raw_trees (map raw_tree operands)))) }
{
    made_unplaced(alloc, FlatForm::AtMostOne(operands))
}

#[inline(never)]
fn made_when(alloc: Global, number: u32, operand: Box<FlatExpr>) -> Result<Box<FlatExpr>, Memory>
    ensures { IfOk result (λ f. raw_tree f ≡ unplaced (raw.When number (raw_tree operand))) }
{
    made_unplaced(alloc, FlatForm::When(number, operand))
}

#[inline(never)]
fn made_current(alloc: Global, number: u32) -> Result<Box<FlatExpr>, Memory>
    ensures { IfOk result (λ f. raw_tree f ≡ unplaced (raw.Current number)) }
{
    made_unplaced(alloc, FlatForm::Current(number))
}
