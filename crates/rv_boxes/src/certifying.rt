//! The certificate of the least closed claim, over the cases of its control states.

ghost use Rattle.std.specs.Prelude.{◌≡◌, ◌<◌, ◌^◌, IfOk, IfSome, IfNone, IsErrOf};
ghost use Rattle.rv_proofs.specs.Systems.{System};
ghost use Rattle.rv_proofs.specs.Cases.{IsInitialSet};
ghost use Rattle.rv_boxes.specs.declared.frame.Frame.{Frame as FrameModel};
ghost use Rattle.rv_boxes.specs.Claiming.{claim_of};
ghost use Rattle.rv_boxes.specs.Rounds.{IsGiven, IsStart, IsKeptClaim, IsLeastClaim, AreOthers};
ghost use Rattle.rv_boxes.specs.Certifying.{IsBad};
ghost use Rattle.rv_boxes.specs.Passing.{IsProof};

use crate::bounding::bound_rows;
use crate::claim::{Claim, Others};
use crate::frame::Frame;
use crate::locations::certify;
use rv_base::Many;
use rv_cases::{Questions, cases};
use rv_diagram::{Frozen, Store, StoreFault};
use rv_proofs::{Case, Certificate};
use rv_symbolic::Relation;
use rv_walk::without;
use std::alloc::Global;

/// The initial control states, and their cases.
#[derive(Debug, Drop)]
pub struct Start {
    /// The control states.
    pub first: Frozen,
    /// Their cases.
    pub from_first: Many<Case>,
}

/// The initial control states, and their cases.
pub fn start_of(
    alloc: Global,
    store: &mut Store,
    relation: &Relation,
    questions: &Questions,
) -> Result<Start, StoreFault>
    requires { (s : System) × (f : FrameModel) × IsGiven s store.old relation.now questions.now f }
    ensures start { (s : System) (f : FrameModel) → IsGiven s store.old relation.now questions.now f → IfOk result (λ x. IsStart s x.first x.from_first) }
    ensures same { store.new ≡ store.old }
    ensures roomy { IsErrOf result StoreFault.Nodes → store.old.limit < 2 ^ (2 ^ store.old.variables) }
{
    let first = relation.initial(store)?;
    let allowed = relation.parts().allowed;
    let from_first = cases(alloc, store, allowed, questions, &first)?;
    Ok(Start { first, from_first })
}

/// The control states of a claim that are not initial, the rows of its bounds, and their cases.
fn rest_of(
    alloc: Global,
    store: &mut Store,
    relation: &Relation,
    questions: &Questions,
    first: &Frozen,
    claim: &Claim,
) -> Result<Others, StoreFault>
    requires { (s : System) × (f : FrameModel) × IsGiven s store.old relation.now questions.now f × IsInitialSet s first.now
        × IsKeptClaim s f claim.now }
    ensures others { (s : System) (f : FrameModel) → IsGiven s store.old relation.now questions.now f → IsInitialSet s first.now
        → IsKeptClaim s f claim.now → IfOk result (AreOthers s first.now claim.now) }
    ensures same { store.new ≡ store.old }
    ensures roomy { IsErrOf result StoreFault.Nodes → store.old.limit < 2 ^ (2 ^ store.old.variables) }
{
    let control = without(store, &claim.reached, first)?;
    let given = bound_rows(alloc, &claim.upper, &claim.lower)?;
    let allowed = relation.parts().allowed;
    let cases = cases(alloc, store, allowed, questions, &control)?;
    Ok(Others {
        control,
        given,
        cases,
    })
}

/// The certificate of the least closed claim, over the cases of its control states, or none, which comes only where the claim takes a valuation
/// at which the observer is false: one location for the initial control states, one for the others, with the bounds as rows. The certificate is
/// accepted and has no loop. The store is left as it was, after a fault too. Nodes comes where the store has no room for what is built on the
/// way, never where its limit holds every function of its variables, and Memory where there is none.
pub fn certificate_of(
    alloc: Global,
    store: &mut Store,
    relation: &Relation,
    questions: &Questions,
    frame: &Frame,
    claim: &Claim,
) -> Result<Option<Certificate>, StoreFault>
    requires { (s : System) × IsGiven s store.old relation.now questions.now frame.now × IsLeastClaim s frame.now claim.now }
    ensures some { (s : System) → IsGiven s store.old relation.now questions.now frame.now → IsLeastClaim s frame.now claim.now
        → IfOk result (λ o. IfSome o (λ x. IsProof s x)) }
    ensures none { (s : System) → IsGiven s store.old relation.now questions.now frame.now → IsLeastClaim s frame.now claim.now
        → IfOk result (λ o. IfNone o (IsBad s (claim_of claim.now))) }
    ensures same { store.new ≡ store.old }
    ensures roomy { IsErrOf result StoreFault.Nodes → store.old.limit < 2 ^ (2 ^ store.old.variables) }
{
    let start = start_of(alloc, store, relation, questions)?;
    let others = rest_of(alloc, store, relation, questions, &start.first, claim)?;
    let Start { first, from_first } = start;
    let certificate = certify(alloc, frame, first, from_first, others)?;
    Ok(certificate)
}
