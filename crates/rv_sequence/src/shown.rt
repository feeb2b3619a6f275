//! What a `current` needs at the same instant, with the clock that what it shows tells.

ghost use Rattle.std.specs.Prelude.{◌≡◌, ◌++◌, ◌∷◌, [], map, unwrap_or, IfOk, OnOk};
ghost use Rattle.rv_tree.specs.Places.{site_of};
ghost use Rattle.rv_tree.specs.Tree.{tree_of, trees};
ghost use Rattle.rv_types.specs.Clocks.{name_pace, current_pace, seen, grounded};
ghost use Rattle.rv_types.specs.Instances.{clock_of as clock_of_name, taken};
ghost use Rattle.rv_types.specs.ToldPaces as told;
ghost use Rattle.rv_types.specs.declared.fault.Pace.TheVariants.{At};
ghost use Rattle.rv_types.specs.declared.typed.Clock.TheVariants.{Base, On};
ghost use Rattle.rv_instances.specs.Layouts.{IsWithin};
ghost use Rattle.rv_instances.specs.NumberedNeeds.{IsReader, clock_number, flow_number, listed, node_read, numbers_of};
ghost use Rattle.rv_sequence.specs.Needed.{told_needed, told_needed_by_all};

use crate::needs::{add_flow, add_output};
use crate::paces::clock_of;
use rv_base::{Many, Memory, Text};
use rv_instances::Reader;
use rv_tree::{Expr, ExprForm, Op};
use rv_types::{Pace, called_pace, told_choice_pace, told_joined_pace, told_operator_pace};

/// Adds the numbers of the flows that an expression needs beside the flow of its own clock, and answers the pace that it
/// tells. Each part is looked at once, but for what stands in a `pre` or in the arguments of a call, of which the first
/// operand that has a clock tells the pace. It calls itself for each operand, so as deep as the tree is: 20,301 levels at
/// most, all but 200 of them left operands and operands of `when`. So little else stands in the frame of this function.
#[cycle(shown)]
fn add_shown(reader: &Reader, e: &Expr, found: &mut Many<u32>) -> Result<Pace, Memory>
    requires { IsReader reader.now }
    ensures pace { IfOk result (λ p. p ≡ told.told_pace (node_read reader.now) (tree_of e.now)) }
    ensures found { OnOk result (found.new ≡ found.old ++ told_needed (node_read reader.now) (numbers_of reader.now) (tree_of e.now)) }
{
    match &e.form {
        ExprForm::Binary(op, left, right) => {
            let left = add_shown(reader, left, found)?;
            add_right(reader, *op, left, right, found)
        }
        ExprForm::When(operand, clock) => {
            add_shown(reader, operand, found)?;
            add_when(reader, &clock.text, found)
        }
        ExprForm::True | ExprForm::False | ExprForm::Number(_) => Ok(Pace::Free),
        ExprForm::Named(name) => add_name(reader, name, found),
        ExprForm::Not(operand) | ExprForm::Minus(operand) => add_shown(reader, operand, found),
        ExprForm::Pre(operand) => Ok(called_pace(reader.clocks.told_pace(operand))),
        ExprForm::Current(operand) => add_current(reader, operand, found),
        ExprForm::If(condition, first, second) => {
            let condition = add_shown(reader, condition, found)?;
            let first = add_shown(reader, first, found)?;
            add_else(reader, condition, first, second, found)
        }
        ExprForm::AtMostOne(operands) => add_all(reader, operands.as_slice(), found),
        ExprForm::Call(_, arguments) => add_call(reader, e.site, arguments.as_slice(), found),
    }
}

/// The same of the right operand of an operator, whose left one has this pace, and of the operator.
#[cycle(shown)]
#[inline(never)]
fn add_right(
    reader: &Reader,
    op: Op,
    left: Pace,
    right: &Expr,
    found: &mut Many<u32>,
) -> Result<Pace, Memory>
    requires { IsReader reader.now }
    ensures pace { IfOk result (λ p. p ≡ told.operator_told op (told.first_pace left (told.told_pace (node_read reader.now) (tree_of right.now)))) }
    ensures found { OnOk result (found.new ≡ found.old ++ told_needed (node_read reader.now) (numbers_of reader.now) (tree_of right.now)) }
{
    let right = add_shown(reader, right, found)?;
    Ok(told_operator_pace(op, left, right))
}

/// Adds the flow of the clock of the operand of a `when` this flow, and answers the pace of the `when`.
#[inline(never)]
fn add_when(reader: &Reader, clock: &Text, found: &mut Many<u32>) -> Result<Pace, Memory>
    requires { IsReader reader.now }
    ensures pace { IfOk result (λ p. p ≡ At (On (site_of (node_read reader.now) clock.now))) }
    ensures found { OnOk result (found.new ≡ found.old ++ listed (clock_number (numbers_of reader.now) (clock_of_name (node_read reader.now) clock.now))) }
{
    add_flow(reader.clock_of_flow(clock), found)?;
    Ok(reader.clocks.told_when_pace(clock))
}

/// Adds the flow of a name, if it has one.
#[inline(never)]
fn add_name(reader: &Reader, name: &Text, found: &mut Many<u32>) -> Result<Pace, Memory>
    requires { IsReader reader.now }
    ensures pace { IfOk result (λ p. p ≡ name_pace (node_read reader.now) name.now) }
    ensures found { OnOk result (found.new ≡ found.old ++ listed (flow_number (node_read reader.now) (numbers_of reader.now) name.now)) }
{
    add_flow(reader.flow(name), found)?;
    Ok(reader.clocks.name_pace(name))
}

/// Adds what a `current` of this operand needs: what the operand needs, and the flow of its clock.
#[cycle(shown)]
#[inline(never)]
pub fn add_current(reader: &Reader, operand: &Expr, found: &mut Many<u32>) -> Result<Pace, Memory>
    requires { IsReader reader.now }
    ensures pace { IfOk result (λ p. p ≡ current_pace (node_read reader.now) (seen (told.told_pace (node_read reader.now) (tree_of operand.now)))) }
    ensures found { OnOk result (found.new ≡ found.old ++ (told_needed (node_read reader.now) (numbers_of reader.now) (tree_of operand.now)
        ++ listed (clock_number (numbers_of reader.now) (told.told_clock (node_read reader.now) (tree_of operand.now))))) }
{
    let operand = add_shown(reader, operand, found)?;
    add_clock(reader, operand, found)?;
    Ok(reader.clocks.current_pace(operand))
}

/// Adds the flow of the clock of a pace: what is free takes the base clock.
#[inline(never)]
fn add_clock(reader: &Reader, pace: Pace, found: &mut Many<u32>) -> Result<(), Memory>
    requires reader { IsReader reader.now }
    requires within { IsWithin (numbers_of reader.now).offset (taken Base pace) }
    ensures { OnOk result (found.new ≡ found.old ++ listed (clock_number (numbers_of reader.now) (taken Base pace))) }
{
    add_flow(reader.clock(clock_of(pace)), found)
}

/// The same of an `if`, whose condition and first part have these paces, from its second one.
#[cycle(shown)]
#[inline(never)]
fn add_else(
    reader: &Reader,
    condition: Pace,
    first: Pace,
    second: &Expr,
    found: &mut Many<u32>,
) -> Result<Pace, Memory>
    requires { IsReader reader.now }
    ensures pace { IfOk result (λ p. p ≡ told.first_pace (told.first_pace condition first) (told.told_pace (node_read reader.now) (tree_of second.now))) }
    ensures found { OnOk result (found.new ≡ found.old ++ told_needed (node_read reader.now) (numbers_of reader.now) (tree_of second.now)) }
{
    let second = add_shown(reader, second, found)?;
    Ok(told_choice_pace(condition, first, second))
}

/// Adds what some expressions need, and answers their pace together.
#[cycle(shown)]
#[inline(never)]
fn add_all(reader: &Reader, expressions: &[Expr], found: &mut Many<u32>) -> Result<Pace, Memory>
    requires { IsReader reader.now }
    ensures pace { IfOk result (λ p. p ≡ told.told_pace_of_all (node_read reader.now) (trees (map tree_of expressions.now))) }
    ensures found { OnOk result (found.new ≡ found.old ++ told_needed_by_all (node_read reader.now) (numbers_of reader.now)
        (trees (map tree_of expressions.now))) }
{
    let mut together = Pace::Free;
    for e in expressions {
        let one = add_shown(reader, e, found)?;
        together = told_joined_pace(together, one);
    }
    Ok(together)
}

/// Adds the first output of the call with a site, and answers the pace of the call.
#[inline(never)]
fn add_call(
    reader: &Reader,
    site: Option<u32>,
    arguments: &[Expr],
    found: &mut Many<u32>,
) -> Result<Pace, Memory>
    requires { IsReader reader.now }
    ensures pace { IfOk result (λ p. p ≡ grounded (told.told_pace_of_all (node_read reader.now) (trees (map tree_of arguments.now)))) }
    ensures found { OnOk result (found.new ≡ found.old ++ (numbers_of reader.now).output (unwrap_or site 0) ∷ []) }
{
    add_output(reader, site, found)?;
    Ok(called_pace(reader.clocks.told_pace_of_arguments(arguments)))
}
