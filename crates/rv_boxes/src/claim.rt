//! Box claims: what a pass begins with, and how a claim takes in control states.

ghost use Rattle.std.specs.Prelude.{◌≡◌, ◌<◌, ◌≤◌, ◌^◌, All, IfOk, IsErrOf};
ghost use Rattle.std.specs.Int.RustNames.{unsigned_abs};
ghost use Rattle.rv_diagram.specs.Nodes.{IsOrderedOver};
ghost use Rattle.rv_proofs.specs.Systems.{System};
ghost use Rattle.rv_proofs.specs.Ranges.{IsControlSet};
ghost use Rattle.rv_cases.specs.declared.asking.Questions.{Questions as QuestionsModel};
ghost use Rattle.rv_boxes.specs.Claiming.{claim_of};
ghost use Rattle.rv_boxes.specs.Orders.{IsBelowClosed};
ghost use Rattle.rv_boxes.specs.Rounds.{IsGiven, IsKeptClaim, HasTaken, AreFirst};

use crate::frame::Frame;
use crate::thresholds::least_above;
use rv_base::{Many, Memory};
use rv_diagram::{Frozen, Store, StoreFault};
use rv_proofs::Case;
use rv_rows::Row;
use rv_symbolic::Relation;
use rv_walk::{Extended, extend};
use std::alloc::Global;

/// No threshold is below it.
const LOWEST: i128 = -2_199_023_255_552;

/// A set of control states, and bounds of the integer memories that are common to them.
#[derive(Debug, Drop)]
pub struct Claim {
    /// The control states.
    pub reached: Frozen,
    /// For each memory the number that it is at most, or none.
    pub upper: Many<Option<i128>>,
    /// For each memory the number that its opposite is at most, or none.
    pub lower: Many<Option<i128>>,
}

/// The control states of a claim that are not initial, the rows of its bounds, and their cases.
#[derive(Debug, Drop)]
pub struct Others {
    /// The control states.
    pub control: Frozen,
    /// The rows of the bounds.
    pub given: Many<Row>,
    /// The cases.
    pub cases: Many<Case>,
}

/// Takes a set into the claim. Whether some of it is new.
pub fn take_set(store: &mut Store, claim: &mut Claim, set: &Frozen) -> Result<bool, StoreFault>
    requires reached { IsOrderedOver store.old.variables claim.old.reached }
    requires set { IsOrderedOver store.old.variables set.now }
    ensures same { store.new ≡ store.old }
    ensures roomy { IsErrOf result StoreFault.Nodes → store.old.limit < 2 ^ (2 ^ store.old.variables) }
    ensures taken { (s : System) → store.old.variables ≡ s.variables → IsControlSet s claim.old.reached → IsControlSet s set.now
        → IfOk result (λ fresh. HasTaken s set.now fresh claim.old claim.new) }
{
    match extend(store, &claim.reached, set)? {
        Some(extended) => {
            let Extended { fresh: _, all } = extended;
            claim.reached = all;
            Ok(true)
        }
        None => Ok(false),
    }
}

/// For each memory the least threshold, or none where there are none.
fn first_limits(
    alloc: Global,
    thresholds: &Many<i128>,
    memories: usize,
) -> Result<Many<Option<i128>>, Memory>
    requires { All (λ t. unsigned_abs t ≤ 2 ^ 41) thresholds.now }
    ensures { IfOk result (AreFirst thresholds.now memories) }
{
    let least = least_above(thresholds, LOWEST);
    let mut limits = Many::new(alloc);
    for memory in 0..memories {
        limits.push(least)?;
    }
    Ok(limits)
}

/// The claim that the pass begins with: the initial control states, and as bounds the closest thresholds, which exclude each other
/// where there are two.
pub fn first_claim(
    alloc: Global,
    store: &Store,
    relation: &Relation,
    frame: &Frame,
    memories: usize,
) -> Result<Claim, Memory>
    requires { (s : System) × (q : QuestionsModel) × IsGiven s store.now relation.now q frame.now }
    ensures first { (s : System) (q : QuestionsModel) → IsGiven s store.now relation.now q frame.now → memories ≡ s.memories
        → IfOk result (λ c. IsKeptClaim s frame.now c × IsBelowClosed s frame.now.thresholds (claim_of c)) }
{
    let reached = relation.initial(store)?;
    let upper = first_limits(alloc, &frame.thresholds, memories)?;
    let lower = first_limits(alloc, &frame.opposites, memories)?;
    Ok(Claim {
        reached,
        upper,
        lower,
    })
}
