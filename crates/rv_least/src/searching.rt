//! A certificate with few entries, where a search finds one that is accepted.

ghost use Rattle.std.specs.Prelude.{◌≡◌, ◌<◌, ◌^◌, IfOk, IfSome, IsErrOf};
ghost use Rattle.rv_diagram.specs.Growing.{Extends};
ghost use Rattle.rv_proofs.specs.Systems.{System};
ghost use Rattle.rv_cover.specs.Seeking.{IsDocument};
ghost use Rattle.rv_boxes.specs.declared.frame.Frame.{Frame as FrameModel};
ghost use Rattle.rv_boxes.specs.Rounds.{IsGiven, IsKeptClaim};
ghost use Rattle.rv_boxes.specs.Passing.{IsProof};

use crate::opened::opened_anew;
use rv_accept::accept;
use rv_boxes::{Claim, Frame, bound_rows};
use rv_cases::Questions;
use rv_cover::{By, sought};
use rv_diagram::{Store, StoreFault};
use rv_proofs::{Certificate, Verdict};
use rv_symbolic::Relation;
use rv_walk::without;
use std::alloc::Global;

/// What the search finds for the claim, with the counts and ranges of a document and no loop, and what was built of it.
fn found_in(
    alloc: Global,
    store: &mut Store,
    relation: &Relation,
    questions: &Questions,
    frame: &Frame,
    claim: &Claim,
) -> Result<Option<Certificate>, StoreFault>
    requires { (s : System) × IsGiven s store.old relation.now questions.now frame.now × IsKeptClaim s frame.now claim.now }
    ensures extends { Extends store.old store.new }
    ensures roomy { IsErrOf result StoreFault.Nodes → store.old.limit < 2 ^ (2 ^ store.old.variables) }
    ensures found { (s : System) → IsGiven s store.old relation.now questions.now frame.now → IsKeptClaim s frame.now claim.now
        → IfOk result (λ o. IfSome o (IsDocument s)) }
{
    let first = relation.initial(store)?;
    let rest = without(store, &claim.reached, &first)?;
    let given = bound_rows(alloc, &claim.upper, &claim.lower)?;
    let opening = opened_anew(alloc, store, relation, questions, frame.columns, claim)?;
    sought(
        alloc,
        store,
        relation.parts(),
        questions,
        By::Boxes(frame.columns),
        &first,
        &rest,
        opening.taken,
        &claim.reached,
        &given,
    )
}

/// What the search finds for the claim. The store is left as it was.
fn found(
    alloc: Global,
    store: &mut Store,
    relation: &Relation,
    questions: &Questions,
    frame: &Frame,
    claim: &Claim,
) -> Result<Option<Certificate>, StoreFault>
    requires { (s : System) × IsGiven s store.old relation.now questions.now frame.now × IsKeptClaim s frame.now claim.now }
    ensures found { (s : System) → IsGiven s store.old relation.now questions.now frame.now → IsKeptClaim s frame.now claim.now
        → IfOk result (λ o. IfSome o (IsDocument s)) }
    ensures same { store.new ≡ store.old }
    ensures roomy { IsErrOf result StoreFault.Nodes → store.old.limit < 2 ^ (2 ^ store.old.variables) }
{
    let mark = store.mark();
    let answer = found_in(alloc, store, relation, questions, frame, claim);
    store.release(mark);
    answer
}

/// What the search finds, or none where the store has no room for the search.
fn found_or_none(
    alloc: Global,
    store: &mut Store,
    relation: &Relation,
    questions: &Questions,
    frame: &Frame,
    claim: &Claim,
) -> Result<Option<Certificate>, StoreFault>
    requires { (s : System) × IsGiven s store.old relation.now questions.now frame.now × IsKeptClaim s frame.now claim.now }
    ensures found { (s : System) → IsGiven s store.old relation.now questions.now frame.now → IsKeptClaim s frame.now claim.now
        → IfOk result (λ o. IfSome o (IsDocument s)) }
    ensures same { store.new ≡ store.old }
    ensures roomy { IsErrOf result StoreFault.Nodes → store.old.limit < 2 ^ (2 ^ store.old.variables) }
{
    match found(alloc, store, relation, questions, frame, claim) {
        Ok(certificate) => Ok(certificate),
        Err(StoreFault::Nodes) => Ok(None),
        Err(StoreFault::Memory) => Err(StoreFault::Memory),
    }
}

/// The certificate, where it is accepted.
fn judged(
    alloc: Global,
    store: &mut Store,
    relation: &Relation,
    questions: &Questions,
    certificate: Certificate,
) -> Result<Option<Certificate>, StoreFault>
    requires { (s : System) × (f : FrameModel) × IsGiven s store.old relation.now questions.now f × IsDocument s certificate }
    ensures proof { (s : System) (f : FrameModel) → IsGiven s store.old relation.now questions.now f → IsDocument s certificate
        → IfOk result (λ o. IfSome o (λ c. IsProof s c)) }
    ensures same { store.new ≡ store.old }
    ensures roomy { IsErrOf result StoreFault.Nodes → store.old.limit < 2 ^ (2 ^ store.old.variables) }
{
    match accept(alloc, store, relation.parts(), questions, &certificate)? {
        Verdict::Accepted => Ok(Some(certificate)),
        Verdict::Rejected(_) => Ok(None),
    }
}

/// A certificate with few entries, where the search finds one that is accepted. The store is left as it was. No room for the search is no fault.
pub fn few_entries(
    alloc: Global,
    store: &mut Store,
    relation: &Relation,
    questions: &Questions,
    frame: &Frame,
    claim: &Claim,
) -> Result<Option<Certificate>, StoreFault>
    requires { (s : System) × IsGiven s store.old relation.now questions.now frame.now × IsKeptClaim s frame.now claim.now }
    ensures proof { (s : System) → IsGiven s store.old relation.now questions.now frame.now → IsKeptClaim s frame.now claim.now
        → IfOk result (λ o. IfSome o (λ c. IsProof s c)) }
    ensures same { store.new ≡ store.old }
    ensures roomy { IsErrOf result StoreFault.Nodes → store.old.limit < 2 ^ (2 ^ store.old.variables) }
{
    match found_or_none(alloc, store, relation, questions, frame, claim)? {
        Some(certificate) => judged(alloc, store, relation, questions, certificate),
        None => Ok(None),
    }
}
