//! The pace of an expression whose clocks are right, by the first operand that has a clock.

ghost use Rattle.std.specs.Prelude.{◌≡◌, map};
ghost use Rattle.rv_tree.specs.Places.{site_of};
ghost use Rattle.rv_tree.specs.Tree.{tree_of, trees, node_tree};
ghost use Rattle.rv_types.specs.ToldPaces as told;
ghost use Rattle.rv_types.specs.declared.fault.Pace.TheVariants.{At};
ghost use Rattle.rv_types.specs.declared.typed.Clock.TheVariants.{On};

use crate::fault::Pace;
use crate::pacing::{as_seen, of_current, on_ground, pace_of_name};
use crate::timing::Timing;
use crate::typed::Clock;
use rv_base::Text;
use rv_tree::{Expr, ExprForm, Op};

/// The pace that an expression tells. It looks no further than to the first operand that has a clock: before that are literals,
/// constants and labels alone. It calls itself for operands, so as deep as the tree is: 20,301 levels at most.
#[cycle(told)]
pub fn told_by(timing: &Timing, e: &Expr) -> Pace
    ensures { result ≡ told.told_pace (node_tree timing.now.node.now) (tree_of e.now) }
{
    match &e.form {
        ExprForm::Binary(op, left, right) => {
            let left = told_by(timing, left);
            operator_told(*op, told_after(timing, left, right))
        }
        ExprForm::When(_, clock) => told_by_when(timing, &clock.text),
        ExprForm::True | ExprForm::False | ExprForm::Number(_) => Pace::Free,
        ExprForm::Named(name) => pace_of_name(timing, name),
        ExprForm::Not(operand) | ExprForm::Minus(operand) => told_by(timing, operand),
        ExprForm::Pre(operand) => on_ground(told_by(timing, operand)),
        ExprForm::Current(operand) => of_current(timing, as_seen(told_by(timing, operand))),
        ExprForm::If(condition, first, second) => {
            let condition = told_by(timing, condition);
            let first = told_after(timing, condition, first);
            told_after(timing, first, second)
        }
        ExprForm::AtMostOne(operands) => told_by_all(timing, operands.as_slice()),
        ExprForm::Call(_, arguments) => on_ground(told_by_all(timing, arguments.as_slice())),
    }
}

/// What is told so far, or what one more operand tells where that is nothing.
#[cycle(told)]
fn told_after(timing: &Timing, so_far: Pace, one: &Expr) -> Pace
    ensures { result ≡ told.first_pace so_far (told.told_pace (node_tree timing.now.node.now) (tree_of one.now)) }
{
    if is_free(so_far) {
        told_by(timing, one)
    } else {
        so_far
    }
}

/// What operands or arguments tell together.
#[cycle(told)]
#[inline(never)]
pub fn told_by_all(timing: &Timing, es: &[Expr]) -> Pace
    ensures { result ≡ told.told_pace_of_all (node_tree timing.now.node.now) (trees (map tree_of es.now)) }
{
    for e in es {
        let pace = told_by(timing, e);
        if !is_free(pace) {
            return pace;
        }
    }
    Pace::Free
}

/// What `when` a flow tells.
#[inline(never)]
pub fn told_by_when(timing: &Timing, clock: &Text) -> Pace
    ensures { result ≡ At (On (site_of (node_tree timing.now.node.now) clock.now)) }
{
    Pace::At(Clock::On(timing.site(clock)))
}

/// Whether a pace is free.
pub fn is_free(pace: Pace) -> bool
    ensures { result ≡ told.is_free pace }
{
    matches!(pace, Pace::Free)
}

/// What an operator tells, of whose operands this is told.
pub fn operator_told(op: Op, pace: Pace) -> Pace
    ensures { result ≡ told.operator_told op pace }
{
    match op {
        Op::Arrow => on_ground(pace),
        _ => pace,
    }
}
