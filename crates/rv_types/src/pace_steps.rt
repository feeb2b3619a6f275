//! The pace of an expression from those of its parts, for a walk that reads each expression once.

ghost use Rattle.std.specs.Prelude.{◌≡◌};
ghost use Rattle.rv_tree.specs.Places.{site_of};
ghost use Rattle.rv_tree.specs.Tree.{node_tree};
ghost use Rattle.rv_types.specs.Clocks as clocking;
ghost use Rattle.rv_types.specs.Clocks.{seen, grounded, meet};
ghost use Rattle.rv_types.specs.ToldPaces as told;
ghost use Rattle.rv_types.specs.declared.fault.Pace.{Pace as PaceModel};
ghost use Rattle.rv_types.specs.declared.fault.Pace.TheVariants.{At};
ghost use Rattle.rv_types.specs.declared.typed.Clock.TheVariants.{On};

use crate::fault::Pace;
use crate::pacing::{as_seen, met, of_binary, of_current, of_when, on_ground, pace_of_name};
use crate::reading_clocks::NodeClocks;
use crate::told_paces::{is_free, operator_told, told_by_when};
use rv_base::Text;
use rv_tree::Op;

/// The pace of `not` or `-`, from that of the operand.
pub fn kept_pace(operand: Pace) -> Pace
    ensures { result ≡ seen operand }
{
    as_seen(operand)
}

/// The pace of `pre`, from that of the operand.
pub fn delayed_pace(operand: Pace) -> Pace
    ensures { result ≡ grounded (seen operand) }
{
    on_ground(as_seen(operand))
}

/// The pace of an operator between two operands, from theirs.
pub fn operator_pace(op: Op, left: Pace, right: Pace) -> Pace
    ensures { result ≡ clocking.binary_pace op (seen left) (seen right) }
{
    of_binary(op, as_seen(left), as_seen(right))
}

/// The pace of `if`, from those of its parts.
pub fn choice_pace(condition: Pace, first: Pace, second: Pace) -> Pace
    ensures { result ≡ meet (seen condition) (meet (seen first) (seen second)) }
{
    met(as_seen(condition), met(as_seen(first), as_seen(second)))
}

/// The pace of operands or arguments so far and one more; before the first it is `Free`.
#[tactic(auto, using(crate::proofs::Meeting::meet_assoc))]
pub fn joined_pace(so_far: Pace, one: Pace) -> Pace
    ensures pace { result ≡ meet so_far (seen one) }
    ensures rest { (rest : PaceModel) → meet result rest ≡ meet so_far (meet (seen one) rest) }
{
    met(so_far, as_seen(one))
}

/// The pace of a call, from that of its arguments together.
pub fn called_pace(arguments: Pace) -> Pace
    ensures { result ≡ grounded arguments }
{
    on_ground(arguments)
}

/// What an operator between two operands tells, from what they tell.
pub fn told_operator_pace(op: Op, left: Pace, right: Pace) -> Pace
    ensures { result ≡ told.operator_told op (told.first_pace left right) }
{
    operator_told(op, first_of(left, right))
}

/// What `if` tells, from what its parts tell.
pub fn told_choice_pace(condition: Pace, first: Pace, second: Pace) -> Pace
    ensures { result ≡ told.first_pace (told.first_pace condition first) second }
{
    first_of(first_of(condition, first), second)
}

/// What operands or arguments tell so far and one more; before the first it is `Free`.
#[tactic(auto, using(crate::proofs::ToldPaces::first_assoc))]
pub fn told_joined_pace(so_far: Pace, one: Pace) -> Pace
    ensures pace { result ≡ told.first_pace so_far one }
    ensures rest { (rest : PaceModel) → told.first_pace result rest ≡ told.first_pace so_far (told.first_pace one rest) }
{
    first_of(so_far, one)
}

/// The first of two paces that is not free.
fn first_of(first: Pace, second: Pace) -> Pace
    ensures { result ≡ told.first_pace first second }
{
    if is_free(first) { second } else { first }
}

impl<'a> NodeClocks<'a> {
    /// The pace of a name.
    pub fn name_pace(&self, name: &Text) -> Pace
        ensures { result ≡ clocking.name_pace (node_tree self.now.node.now) name.now }
    {
        pace_of_name(&self.timing(), name)
    }

    /// The pace of `when` a flow, from that of the operand.
    pub fn when_pace(&self, operand: Pace, clock: &Text) -> Pace
        ensures { result ≡ clocking.when_pace (node_tree self.now.node.now) (seen operand) (site_of (node_tree self.now.node.now) clock.now) }
    {
        of_when(&self.timing(), as_seen(operand), clock)
    }

    /// The pace of `current`, from that of the operand.
    pub fn current_pace(&self, operand: Pace) -> Pace
        ensures { result ≡ clocking.current_pace (node_tree self.now.node.now) (seen operand) }
    {
        of_current(&self.timing(), as_seen(operand))
    }

    /// What `when` a flow tells.
    pub fn told_when_pace(&self, clock: &Text) -> Pace
        ensures { result ≡ At (On (site_of (node_tree self.now.node.now) clock.now)) }
    {
        told_by_when(&self.timing(), clock)
    }
}
