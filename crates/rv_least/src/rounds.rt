//! Rounds over all valuations that a claim takes, until none loosens the claim.

ghost use Rattle.std.specs.Prelude.{◌≡◌, ◌<◌, ◌^◌, ◌||◌, IfOk, IsErrOf};
ghost use Rattle.rv_diagram.specs.Growing.{Extends};
ghost use Rattle.rv_proofs.specs.Systems.{System, IsSystem};
ghost use Rattle.rv_cases.specs.Questions.{AreQuestions};
ghost use Rattle.rv_boxes.specs.declared.frame.Frame.{Frame as FrameModel};
ghost use Rattle.rv_boxes.specs.Claiming.{claim_of};
ghost use Rattle.rv_boxes.specs.Opening.{IsFrameOf};
ghost use Rattle.rv_boxes.specs.Orders.{IsBelowClosed};
ghost use Rattle.rv_boxes.specs.Rounds.{IsGiven, IsKeptClaim};
ghost use Rattle.rv_least.specs.Rounds.{AreAsked, AreSteps, IsRound, IsLeastOf};

use crate::next::next_of;
use crate::opened::opened;
use crate::rising::{Risen, risen_limits};
use crate::turned::{Sign, all_turned};
use rv_base::Many;
use rv_boxes::{Claim, Frame, either, first_claim, take_set};
use rv_cases::Questions;
use rv_diagram::{Store, StoreFault};
use rv_ends::{Ends, test_ends};
use rv_rows::Form;
use rv_symbolic::{NextStates, Relation};
use std::alloc::Global;

/// What is asked once for all rounds.
#[derive(Debug, Drop)]
pub struct Asked {
    /// The ends that the order tests alone give the columns.
    pub tests: Many<Ends>,
    /// For each memory and each answer to its question what it becomes there.
    pub updates: Many<Many<Form>>,
    /// The same of the memories' opposites.
    pub opposites: Many<Many<Form>>,
}

/// What follows from a claim.
#[derive(Debug, Drop)]
pub struct Steps {
    /// The next control states.
    pub next: NextStates,
    /// The limits of the memories, risen.
    pub upper: Risen,
    /// The limits of their opposites, risen.
    pub lower: Risen,
}

/// What a round has found.
#[derive(Debug, Drop)]
pub struct Round {
    /// Whether the claim has grown.
    pub changed: bool,
    /// Whether the observer was true at each valuation that the claim took before.
    pub good: bool,
}

/// The least closed claim.
#[derive(Debug, Drop)]
pub struct Closed {
    /// The claim.
    pub claim: Claim,
    /// Whether the observer is true at each valuation that it takes.
    pub good: bool,
}

/// What is asked once for all rounds, with what was built of it.
fn asked_of(
    alloc: Global,
    store: &mut Store,
    questions: &Questions,
    columns: usize,
) -> Result<Asked, StoreFault>
    requires { (s : System) × IsSystem s × AreQuestions s store.old questions.now × (s.columns ≡ columns) }
    ensures extends { Extends store.old store.new }
    ensures roomy { IsErrOf result StoreFault.Nodes → store.old.limit < 2 ^ (2 ^ store.old.variables) }
    ensures asked { (s : System) → IsSystem s → AreQuestions s store.old questions.now → s.columns ≡ columns
        → IfOk result (AreAsked s store.new questions.now) }
{
    let tests = test_ends(alloc, store, questions, columns)?;
    let updates = all_turned(alloc, store, questions, Sign::Plus)?;
    let opposites = all_turned(alloc, store, questions, Sign::Minus)?;
    Ok(Asked {
        tests,
        updates,
        opposites,
    })
}

/// What follows from a claim, with what was built of it.
fn steps_in(
    alloc: Global,
    store: &mut Store,
    relation: &Relation,
    questions: &Questions,
    frame: &Frame,
    asked: &Asked,
    claim: &Claim,
) -> Result<Steps, StoreFault>
    requires { (s : System) × IsGiven s store.old relation.now questions.now frame.now × AreAsked s store.old questions.now asked.now
        × IsKeptClaim s frame.now claim.now }
    ensures extends { Extends store.old store.new }
    ensures roomy { IsErrOf result StoreFault.Nodes → store.old.limit < 2 ^ (2 ^ store.old.variables) }
    ensures steps { (s : System) → IsGiven s store.old relation.now questions.now frame.now → AreAsked s store.old questions.now asked.now
        → IsKeptClaim s frame.now claim.now → IfOk result (AreSteps s frame.now claim.now) }
{
    let opening = opened(alloc, store, relation, questions, &asked.tests, claim)?;
    let thresholds = &frame.thresholds;
    let forms = &asked.updates;
    let limits = &claim.upper;
    let upper = risen_limits(alloc, store, &opening, questions, forms, thresholds, limits)?;
    let thresholds = &frame.opposites;
    let forms = &asked.opposites;
    let limits = &claim.lower;
    let lower = risen_limits(alloc, store, &opening, questions, forms, thresholds, limits)?;
    let next = next_of(alloc, store, relation, opening.taken, claim)?;
    Ok(Steps { next, upper, lower })
}

/// What follows from a claim. The store is left as it was.
fn steps_of(
    alloc: Global,
    store: &mut Store,
    relation: &Relation,
    questions: &Questions,
    frame: &Frame,
    asked: &Asked,
    claim: &Claim,
) -> Result<Steps, StoreFault>
    requires { (s : System) × IsGiven s store.old relation.now questions.now frame.now × AreAsked s store.old questions.now asked.now
        × IsKeptClaim s frame.now claim.now }
    ensures steps { (s : System) → IsGiven s store.old relation.now questions.now frame.now → AreAsked s store.old questions.now asked.now
        → IsKeptClaim s frame.now claim.now → IfOk result (AreSteps s frame.now claim.now) }
    ensures same { store.new ≡ store.old }
    ensures roomy { IsErrOf result StoreFault.Nodes → store.old.limit < 2 ^ (2 ^ store.old.variables) }
{
    let mark = store.mark();
    let answer = steps_in(alloc, store, relation, questions, frame, asked, claim);
    store.release(mark);
    answer
}

/// Puts risen limits into the claim. Whether something has changed, in the set or the limits.
fn take_limits(claim: &mut Claim, upper: Risen, lower: Risen, fresh: bool) -> bool
    ensures reached { claim.new.reached ≡ claim.old.reached }
    ensures upper { claim.new.upper ≡ upper.limits }
    ensures lower { claim.new.lower ≡ lower.limits }
    ensures changed { result ≡ (fresh || (upper.changed || lower.changed)) }
{
    let Risen { limits, changed } = upper;
    claim.upper = limits;
    let above = changed;
    let Risen { limits, changed } = lower;
    claim.lower = limits;
    either(fresh, either(above, changed))
}

/// Puts what follows from a claim into it.
fn take_steps(store: &mut Store, claim: &mut Claim, steps: Steps) -> Result<Round, StoreFault>
    requires { (s : System) × (f : FrameModel) × IsSystem s × IsFrameOf s f × (store.old.variables ≡ s.variables) × IsKeptClaim s f claim.old
        × AreSteps s f claim.old steps }
    ensures taken { (s : System) (f : FrameModel) → IsSystem s → IsFrameOf s f → store.old.variables ≡ s.variables → IsKeptClaim s f claim.old
        → AreSteps s f claim.old steps → IfOk result (IsRound s f claim.old claim.new) }
    ensures same { store.new ≡ store.old }
    ensures roomy { IsErrOf result StoreFault.Nodes → store.old.limit < 2 ^ (2 ^ store.old.variables) }
{
    let Steps { next, upper, lower } = steps;
    let NextStates { set, good } = next;
    let fresh = take_set(store, claim, &set)?;
    let changed = take_limits(claim, upper, lower, fresh);
    Ok(Round { changed, good })
}

/// A round over a claim: it takes in what follows from it. Where nothing has changed the claim is closed.
fn one_round(
    alloc: Global,
    store: &mut Store,
    relation: &Relation,
    questions: &Questions,
    frame: &Frame,
    asked: &Asked,
    claim: &mut Claim,
) -> Result<Round, StoreFault>
    requires { (s : System) × IsGiven s store.old relation.now questions.now frame.now × AreAsked s store.old questions.now asked.now
        × IsKeptClaim s frame.now claim.old }
    ensures round { (s : System) → IsGiven s store.old relation.now questions.now frame.now → AreAsked s store.old questions.now asked.now
        → IsKeptClaim s frame.now claim.old → IfOk result (IsRound s frame.now claim.old claim.new) }
    ensures same { store.new ≡ store.old }
    ensures roomy { IsErrOf result StoreFault.Nodes → store.old.limit < 2 ^ (2 ^ store.old.variables) }
{
    let steps = steps_of(alloc, store, relation, questions, frame, asked, claim)?;
    take_steps(store, claim, steps)
}

/// The least closed claim, by rounds from one that is below it.
fn all_rounds(
    alloc: Global,
    store: &mut Store,
    relation: &Relation,
    questions: &Questions,
    frame: &Frame,
    asked: &Asked,
    first: Claim,
) -> Result<Closed, StoreFault>
    requires { (s : System) × IsGiven s store.old relation.now questions.now frame.now × AreAsked s store.old questions.now asked.now
        × IsKeptClaim s frame.now first × IsBelowClosed s frame.now.thresholds (claim_of first) }
    ensures least { (s : System) → IsGiven s store.old relation.now questions.now frame.now → AreAsked s store.old questions.now asked.now
        → IsKeptClaim s frame.now first → IsBelowClosed s frame.now.thresholds (claim_of first) → IfOk result (IsLeastOf s frame.now) }
    ensures same { store.new ≡ store.old }
    ensures roomy { IsErrOf result StoreFault.Nodes → store.old.limit < 2 ^ (2 ^ store.old.variables) }
{
    let mut claim = first;
    let mut more = true;
    let mut good = true;
    while more {
        let round = one_round(alloc, store, relation, questions, frame, asked, &mut claim)?;
        more = round.changed;
        good = round.good;
    }
    Ok(Closed { claim, good })
}

/// The least closed claim, with what was built of it.
fn closed_in(
    alloc: Global,
    store: &mut Store,
    relation: &Relation,
    questions: &Questions,
    frame: &Frame,
) -> Result<Closed, StoreFault>
    requires { (s : System) × IsGiven s store.old relation.now questions.now frame.now }
    ensures extends { Extends store.old store.new }
    ensures roomy { IsErrOf result StoreFault.Nodes → store.old.limit < 2 ^ (2 ^ store.old.variables) }
    ensures least { (s : System) → IsGiven s store.old relation.now questions.now frame.now → IfOk result (IsLeastOf s frame.now) }
{
    let memories = questions.forms.len();
    let first = first_claim(alloc, store, relation, frame, memories)?;
    let asked = asked_of(alloc, store, questions, frame.columns)?;
    all_rounds(alloc, store, relation, questions, frame, &asked, first)
}

/// The least closed claim: the initial control states with the closest limits, and then rounds, until nothing changes. The store is left as it
/// was.
pub fn closed_claim(
    alloc: Global,
    store: &mut Store,
    relation: &Relation,
    questions: &Questions,
    frame: &Frame,
) -> Result<Closed, StoreFault>
    requires { (s : System) × IsGiven s store.old relation.now questions.now frame.now }
    ensures least { (s : System) → IsGiven s store.old relation.now questions.now frame.now → IfOk result (IsLeastOf s frame.now) }
    ensures same { store.new ≡ store.old }
    ensures roomy { IsErrOf result StoreFault.Nodes → store.old.limit < 2 ^ (2 ^ store.old.variables) }
{
    let mark = store.mark();
    let answer = closed_in(alloc, store, relation, questions, frame);
    store.release(mark);
    answer
}
