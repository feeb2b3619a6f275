//! Rounds over all valuations that a claim takes, until none loosens the claim.

ghost use Rattle.std.specs.Prelude.{◌≡◌, ◌<◌, ◌≤◌, ◌^◌, ◌||◌, false, All, IfOk, IsErrOf};
ghost use Rattle.std.specs.Int.RustNames.{unsigned_abs};
ghost use Rattle.rv_diagram.specs.Nodes.{IsOrderedOver};
ghost use Rattle.rv_diagram.specs.Growing.{Extends};
ghost use Rattle.rv_proofs.specs.Systems.{System, IsSystem};
ghost use Rattle.rv_proofs.specs.Ranges.{IsControlSet};
ghost use Rattle.rv_cases.specs.declared.asking.Questions.{Questions as QuestionsModel};
ghost use Rattle.rv_claims.specs.Order.{IsBelowClosed};
ghost use Rattle.rv_rise.specs.declared.frame.Frame.{Frame as FrameModel};
ghost use Rattle.rv_rise.specs.Limits.{AreFirst};
ghost use Rattle.rv_rise.specs.Rounds.{IsGivenIn, IsFrameOf, AreAsked, IsKeptRisen, IsFirstHeld, HasTaken, HasGrown, AreSteps, IsLeastRisen, claim_in};

use crate::asking::{Asked, asked_of};
use crate::frame::Frame;
use crate::limits::{Loosened, either};
use crate::risen::Risen;
use crate::steps::{Steps, steps_of};
use rv_base::{Many, Memory};
use rv_cases::Questions;
use rv_diagram::{Frozen, Store, StoreFault};
use rv_ends::least_above;
use rv_symbolic::Relation;
use rv_walk::{Extended, extend};
use std::alloc::Global;

/// No threshold is below it.
const LOWEST: i128 = -2_199_023_255_552;

/// Takes a set into the claim. Whether some of it is new.
fn take_set(store: &mut Store, claim: &mut Risen, set: &Frozen) -> Result<bool, StoreFault>
    requires reached { IsOrderedOver store.old.variables claim.old.reached }
    requires set { IsOrderedOver store.old.variables set.now }
    ensures same { store.new ≡ store.old }
    ensures roomy { IsErrOf result StoreFault.Nodes → store.old.limit < 2 ^ (2 ^ store.old.variables) }
    ensures taken { (s : System) → store.old.variables ≡ s.variables → IsControlSet s claim.old.reached → IsControlSet s set.now
        → IfOk result (λ fresh. HasTaken s set.now fresh claim.old claim.new) }
{
    match extend(store, &claim.reached, set)? {
        Some(extended) => {
            let Extended { fresh: _, all } = extended;
            claim.reached = all;
            Ok(true)
        }
        None => Ok(false),
    }
}

/// Puts risen limits into the claim. Whether something has changed, in the set or the limits.
fn take_limits(claim: &mut Risen, risen: Loosened, fresh: bool) -> bool
    ensures reached { claim.new.reached ≡ claim.old.reached }
    ensures limits { claim.new.limits ≡ risen.limits }
    ensures changed { result ≡ (fresh || risen.changed) }
{
    let Loosened { limits, changed } = risen;
    claim.limits = limits;
    either(fresh, changed)
}

/// Puts what follows from a claim into it. Whether it has grown.
fn take_steps(store: &mut Store, claim: &mut Risen, steps: Steps) -> Result<bool, StoreFault>
    requires { (s : System) × (f : FrameModel) × IsSystem s × IsFrameOf s f × (store.old.variables ≡ s.variables) × IsKeptRisen s f claim.old
        × AreSteps s f claim.old steps }
    ensures taken { (s : System) (f : FrameModel) → IsSystem s → IsFrameOf s f → store.old.variables ≡ s.variables → IsKeptRisen s f claim.old
        → AreSteps s f claim.old steps → IfOk result (λ changed. HasGrown s f changed claim.old claim.new) }
    ensures same { store.new ≡ store.old }
    ensures roomy { IsErrOf result StoreFault.Nodes → store.old.limit < 2 ^ (2 ^ store.old.variables) }
{
    let Steps { next, risen } = steps;
    let fresh = take_set(store, claim, &next)?;
    Ok(take_limits(claim, risen, fresh))
}

/// A round over a claim: it takes in what follows from it. Whether it has grown; where it has not it is closed.
fn one_round(
    alloc: Global,
    store: &mut Store,
    relation: &Relation,
    questions: &Questions,
    frame: &Frame,
    asked: &Asked,
    first: bool,
    claim: &mut Risen,
) -> Result<bool, StoreFault>
    requires { (s : System) × IsGivenIn s store.old relation.now questions.now frame.now × AreAsked s store.old asked.now × IsKeptRisen s frame.now claim.old
        × (first ≡ false → IsFirstHeld s frame.now claim.old) }
    ensures grown { (s : System) → IsGivenIn s store.old relation.now questions.now frame.now → AreAsked s store.old asked.now
        → IsKeptRisen s frame.now claim.old → (first ≡ false → IsFirstHeld s frame.now claim.old)
        → IfOk result (λ changed. HasGrown s frame.now changed claim.old claim.new) }
    ensures same { store.new ≡ store.old }
    ensures roomy { IsErrOf result StoreFault.Nodes → store.old.limit < 2 ^ (2 ^ store.old.variables) }
{
    let steps = steps_of(
        alloc, store, relation, questions, frame, asked, first, claim,
    )?;
    take_steps(store, claim, steps)
}

/// For each of so many left sides the least threshold, or none where there are none.
fn first_limits(
    alloc: Global,
    thresholds: &Many<i128>,
    many: usize,
) -> Result<Many<Option<i128>>, Memory>
    requires { All (λ t. unsigned_abs t ≤ 2 ^ 41) thresholds.now }
    ensures { IfOk result (AreFirst thresholds.now many) }
{
    let least = least_above(thresholds, LOWEST);
    let mut limits = Many::new(alloc);
    for place in 0..many {
        limits.push(least)?;
    }
    Ok(limits)
}

/// The claim that the search begins with: the initial control states, and at each left side the least threshold.
fn first_claim(
    alloc: Global,
    store: &Store,
    relation: &Relation,
    frame: &Frame,
) -> Result<Risen, Memory>
    requires { (s : System) × (q : QuestionsModel) × IsGivenIn s store.now relation.now q frame.now }
    ensures first { (s : System) (q : QuestionsModel) → IsGivenIn s store.now relation.now q frame.now
        → IfOk result (λ c. IsKeptRisen s frame.now c × IsBelowClosed s frame.now.thresholds (claim_in frame.now c)) }
{
    let reached = relation.initial(store)?;
    let limits = first_limits(alloc, &frame.thresholds, frame.sides.len())?;
    Ok(Risen { reached, limits })
}

/// The least closed claim, by rounds from one that is below it and from which initial valuations lead nowhere else. They are not asked: no row of a
/// claim counts there, so what the first round found of them stays.
fn all_rounds(
    alloc: Global,
    store: &mut Store,
    relation: &Relation,
    questions: &Questions,
    frame: &Frame,
    asked: &Asked,
    begun: Risen,
) -> Result<Risen, StoreFault>
    requires { (s : System) × IsGivenIn s store.old relation.now questions.now frame.now × AreAsked s store.old asked.now × IsKeptRisen s frame.now begun
        × IsFirstHeld s frame.now begun × IsBelowClosed s frame.now.thresholds (claim_in frame.now begun) }
    ensures least { (s : System) → IsGivenIn s store.old relation.now questions.now frame.now → AreAsked s store.old asked.now
        → IsKeptRisen s frame.now begun → IsFirstHeld s frame.now begun → IsBelowClosed s frame.now.thresholds (claim_in frame.now begun)
        → IfOk result (IsLeastRisen s frame.now) }
    ensures same { store.new ≡ store.old }
    ensures roomy { IsErrOf result StoreFault.Nodes → store.old.limit < 2 ^ (2 ^ store.old.variables) }
{
    let mut claim = begun;
    let mut more = true;
    while more {
        let grown = one_round(
            alloc, store, relation, questions, frame, asked, false, &mut claim,
        )?;
        more = grown;
    }
    Ok(claim)
}

/// The least closed claim, with what was built of it.
fn closed_in(
    alloc: Global,
    store: &mut Store,
    relation: &Relation,
    questions: &Questions,
    frame: &Frame,
) -> Result<Risen, StoreFault>
    requires { (s : System) × IsGivenIn s store.old relation.now questions.now frame.now }
    ensures extends { Extends store.old store.new }
    ensures roomy { IsErrOf result StoreFault.Nodes → store.old.limit < 2 ^ (2 ^ store.old.variables) }
    ensures least { (s : System) → IsGivenIn s store.old relation.now questions.now frame.now → IfOk result (IsLeastRisen s frame.now) }
{
    let mut claim = first_claim(alloc, store, relation, frame)?;
    let asked = asked_of(alloc, store, relation, questions)?;
    one_round(
        alloc, store, relation, questions, frame, &asked, true, &mut claim,
    )?;
    all_rounds(alloc, store, relation, questions, frame, &asked, claim)
}

/// The least closed claim: the first one, and then rounds, until nothing changes. The store is left as it was.
pub fn closed_claim(
    alloc: Global,
    store: &mut Store,
    relation: &Relation,
    questions: &Questions,
    frame: &Frame,
) -> Result<Risen, StoreFault>
    requires { (s : System) × IsGivenIn s store.old relation.now questions.now frame.now }
    ensures least { (s : System) → IsGivenIn s store.old relation.now questions.now frame.now → IfOk result (IsLeastRisen s frame.now) }
    ensures same { store.new ≡ store.old }
    ensures roomy { IsErrOf result StoreFault.Nodes → store.old.limit < 2 ^ (2 ^ store.old.variables) }
{
    let mark = store.mark();
    let answer = closed_in(alloc, store, relation, questions, frame);
    store.release(mark);
    answer
}
