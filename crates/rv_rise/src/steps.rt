//! What follows from a claim.

ghost use Rattle.std.specs.Prelude.{◌≡◌, ◌<◌, ◌^◌, false, IfOk, IsErrOf};
ghost use Rattle.rv_diagram.specs.Nodes.{IsRef};
ghost use Rattle.rv_diagram.specs.Growing.{Extends};
ghost use Rattle.rv_proofs.specs.Systems.{System};
ghost use Rattle.rv_rise.specs.Rounds.{IsGivenIn, AreAsked, IsKeptRisen, IsFirstHeld, AreSteps, IsPartOf};

use crate::asking::Asked;
use crate::frame::Frame;
use crate::limits::{Loosened, risen_limits};
use crate::risen::Risen;
use crate::rows::rows_of;
use rv_cases::Questions;
use rv_diagram::{Frozen, Ref, Store, StoreFault};
use rv_ends::main_tick;
use rv_leaving::leaving;
use rv_pairs::{open_within, with_claim};
use rv_symbolic::Relation;
use std::alloc::Global;

/// What follows from a claim.
#[derive(Debug, Drop)]
pub struct Steps {
    /// Next control states, among them each one outside of the claim.
    pub next: Frozen,
    /// The limits, risen.
    pub risen: Loosened,
}

/// A part of the valuations that a claim takes.
#[derive(Debug, Drop)]
pub struct Part {
    /// True at the valuations of the part.
    pub here: Ref,
    /// True wherever that is, and one of few references.
    pub sure: Ref,
}

/// Of the valuations at which the reference is true all, or those with the main tick alone, with what was built of them.
fn part_of(store: &mut Store, taken: Ref, first: bool) -> Result<Part, StoreFault>
    requires { IsRef store.old.nodes taken }
    ensures extends { Extends store.old store.new }
    ensures roomy { IsErrOf result StoreFault.Nodes → store.old.limit < 2 ^ (2 ^ store.old.variables) }
    ensures part { IfOk result (IsPartOf store.old store.new taken first) }
{
    if first {
        let everywhere = store.constant(true);
        return Ok(Part {
            here: taken,
            sure: everywhere,
        });
    }
    let sure = main_tick(store)?;
    let here = store.and(taken, sure)?;
    Ok(Part { here, sure })
}

/// What follows from a claim, with what was built of it. In a round that is not the first one the valuations with the main tick alone are asked.
fn steps_in(
    alloc: Global,
    store: &mut Store,
    relation: &Relation,
    questions: &Questions,
    frame: &Frame,
    asked: &Asked,
    first: bool,
    claim: &Risen,
) -> Result<Steps, StoreFault>
    requires { (s : System) × IsGivenIn s store.old relation.now questions.now frame.now × AreAsked s store.old asked.now × IsKeptRisen s frame.now claim.now
        × (first ≡ false → IsFirstHeld s frame.now claim.now) }
    ensures extends { Extends store.old store.new }
    ensures roomy { IsErrOf result StoreFault.Nodes → store.old.limit < 2 ^ (2 ^ store.old.variables) }
    ensures steps { (s : System) → IsGivenIn s store.old relation.now questions.now frame.now → AreAsked s store.old asked.now
        → IsKeptRisen s frame.now claim.now → (first ≡ false → IsFirstHeld s frame.now claim.now) → IfOk result (AreSteps s frame.now claim.now) }
{
    let given = rows_of(alloc, &frame.sides, &claim.limits)?;
    let labels = with_claim(alloc, store, &asked.labels, &given)?;
    let taken = open_within(alloc, store, asked.allowed, &labels, &claim.reached)?;
    let part = part_of(store, taken, first)?;
    let limits = &claim.limits;
    let risen = risen_limits(
        alloc, store, part.sure, part.here, questions, &labels, frame, limits,
    )?;
    let next = leaving(alloc, store, relation, &claim.reached, part.here)?;
    Ok(Steps { next, risen })
}

/// What follows from a claim. The store is left as it was.
pub fn steps_of(
    alloc: Global,
    store: &mut Store,
    relation: &Relation,
    questions: &Questions,
    frame: &Frame,
    asked: &Asked,
    first: bool,
    claim: &Risen,
) -> Result<Steps, StoreFault>
    requires { (s : System) × IsGivenIn s store.old relation.now questions.now frame.now × AreAsked s store.old asked.now × IsKeptRisen s frame.now claim.now
        × (first ≡ false → IsFirstHeld s frame.now claim.now) }
    ensures steps { (s : System) → IsGivenIn s store.old relation.now questions.now frame.now → AreAsked s store.old asked.now
        → IsKeptRisen s frame.now claim.now → (first ≡ false → IsFirstHeld s frame.now claim.now) → IfOk result (AreSteps s frame.now claim.now) }
    ensures same { store.new ≡ store.old }
    ensures roomy { IsErrOf result StoreFault.Nodes → store.old.limit < 2 ^ (2 ^ store.old.variables) }
{
    let mark = store.mark();
    let answer = steps_in(
        alloc, store, relation, questions, frame, asked, first, claim,
    );
    store.release(mark);
    answer
}
