//! What a claim takes, in a store.

ghost use Rattle.std.specs.Prelude.{◌≡◌, ◌<◌, ◌^◌, [], IfOk, IsErrOf};
ghost use Rattle.rv_diagram.specs.Growing.{Extends};
ghost use Rattle.rv_proofs.specs.Systems.{System};
ghost use Rattle.rv_ends.specs.Sides.{AreEndsOf};
ghost use Rattle.rv_boxes.specs.declared.frame.Frame.{Frame as FrameModel};
ghost use Rattle.rv_boxes.specs.Claiming.{claim_of};
ghost use Rattle.rv_boxes.specs.Rounds.{IsGiven, IsKeptClaim};
ghost use Rattle.rv_least.specs.Opened.{IsOpenedAt};

use rv_base::Many;
use rv_boxes::Claim;
use rv_cases::Questions;
use rv_diagram::{Store, StoreFault};
use rv_ends::{Ends, test_ends};
use rv_symbolic::Relation;
use rv_taken::{Opening, open_claim};
use std::alloc::Global;

/// What a claim takes, with what was built of it. `tests` are the ends that the order tests alone give the columns.
pub fn opened(
    alloc: Global,
    store: &mut Store,
    relation: &Relation,
    questions: &Questions,
    tests: &Many<Ends>,
    claim: &Claim,
) -> Result<Opening, StoreFault>
    requires { (s : System) × (f : FrameModel) × IsGiven s store.old relation.now questions.now f × AreEndsOf s store.old.nodes [] [] tests.now
        × IsKeptClaim s f claim.now }
    ensures extends { Extends store.old store.new }
    ensures roomy { IsErrOf result StoreFault.Nodes → store.old.limit < 2 ^ (2 ^ store.old.variables) }
    ensures opened { (s : System) (f : FrameModel) → IsGiven s store.old relation.now questions.now f → AreEndsOf s store.old.nodes [] [] tests.now
        → IsKeptClaim s f claim.now → IfOk result (IsOpenedAt s store.new (claim_of claim.now)) }
{
    let allowed = relation.parts().allowed;
    let Claim {
        reached,
        upper,
        lower,
    } = claim;
    open_claim(
        alloc, store, allowed, questions, tests, reached, upper, lower,
    )
}

/// The same, with the ends that the order tests alone give the columns.
pub fn opened_anew(
    alloc: Global,
    store: &mut Store,
    relation: &Relation,
    questions: &Questions,
    columns: usize,
    claim: &Claim,
) -> Result<Opening, StoreFault>
    requires { (s : System) × (f : FrameModel) × IsGiven s store.old relation.now questions.now f × (f.columns ≡ columns) × IsKeptClaim s f claim.now }
    ensures extends { Extends store.old store.new }
    ensures roomy { IsErrOf result StoreFault.Nodes → store.old.limit < 2 ^ (2 ^ store.old.variables) }
    ensures opened { (s : System) (f : FrameModel) → IsGiven s store.old relation.now questions.now f → f.columns ≡ columns
        → IsKeptClaim s f claim.now → IfOk result (IsOpenedAt s store.new (claim_of claim.now)) }
{
    let tests = test_ends(alloc, store, questions, columns)?;
    opened(alloc, store, relation, questions, &tests, claim)
}
