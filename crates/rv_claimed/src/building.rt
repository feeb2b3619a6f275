//! The certificate of a closed row claim.

ghost use Rattle.std.specs.Prelude.{◌≡◌, ◌<◌, ◌≤◌, ◌+◌, ◌^◌, ℤ, List, length, All, false, IfOk, IfSome, IfNone, MatchOption, IsErrOf};
ghost use Rattle.std.specs.Int.RustNames.{unsigned_abs};
ghost use Rattle.rv_diagram.specs.Nodes.{Valuation};
ghost use Rattle.rv_proofs.specs.Systems.{System};
ghost use Rattle.rv_proofs.specs.Cases.{IsInitialSet};
ghost use Rattle.rv_proofs.specs.Accepted.{IsAccepted};
ghost use Rattle.rv_proofs.specs.RowClaims.{IsRowTaken, IsRowClosed, IsRowGood};
ghost use Rattle.rv_walk.specs.Plain.{ArePlain};
ghost use Rattle.rv_claims.specs.Claiming.{claim_of, IsKeptClaim};
ghost use Rattle.rv_claimed.specs.Certifying.{IsBad, IsGiven};
ghost use Rattle.rv_claimed.specs.Building.{IsStart, AreOthers, IsProof};

use crate::locations::{MOST, Part, assembled};
use crate::searching::{Found, few_entries};
use rv_cases::{Questions, cases};
use rv_claims::Claim;
use rv_diagram::{Frozen, Store, StoreFault};
use rv_proofs::Certificate;
use rv_symbolic::Relation;
use rv_walk::without;
use std::alloc::Global;

/// The initial control states, and their cases.
fn start_of(
    alloc: Global,
    store: &mut Store,
    relation: &Relation,
    questions: &Questions,
) -> Result<Part, StoreFault>
    requires { (s : System) × IsGiven s store.old relation.now questions.now }
    ensures start { (s : System) → IsGiven s store.old relation.now questions.now → IfOk result (IsStart s) }
    ensures same { store.new ≡ store.old }
    ensures roomy { IsErrOf result StoreFault.Nodes → store.old.limit < 2 ^ (2 ^ store.old.variables) }
{
    let control = relation.initial(store)?;
    let allowed = relation.parts().allowed;
    let cases = cases(alloc, store, allowed, questions, &control)?;
    Ok(Part { control, cases })
}

/// The control states of a claim that are not initial, and their cases.
fn others_of(
    alloc: Global,
    store: &mut Store,
    relation: &Relation,
    questions: &Questions,
    first: &Frozen,
    claim: &Claim,
) -> Result<Part, StoreFault>
    requires { (s : System) × (thresholds : List ℤ) × IsGiven s store.old relation.now questions.now × IsInitialSet s first.now
        × IsKeptClaim s thresholds claim.now }
    ensures others { (s : System) (thresholds : List ℤ) → IsGiven s store.old relation.now questions.now → IsInitialSet s first.now
        → IsKeptClaim s thresholds claim.now → IfOk result (AreOthers s first.now claim.now) }
    ensures same { store.new ≡ store.old }
    ensures roomy { IsErrOf result StoreFault.Nodes → store.old.limit < 2 ^ (2 ^ store.old.variables) }
{
    let control = without(store, &claim.reached, first)?;
    let allowed = relation.parts().allowed;
    let cases = cases(alloc, store, allowed, questions, &control)?;
    Ok(Part { control, cases })
}

/// The certificate of a good closed row claim over its cases, and none of a bad one. There are so many tests.
fn over_cases(
    alloc: Global,
    store: &mut Store,
    relation: &Relation,
    questions: &Questions,
    claim: &Claim,
    many: usize,
) -> Result<Option<Certificate>, StoreFault>
    requires given { (s : System) × (thresholds : List ℤ) × IsGiven s store.old relation.now questions.now × IsKeptClaim s thresholds claim.now
        × IsRowClosed s (claim_of claim.now) }
    requires many { many ≡ length questions.now.rows }
    requires few { length claim.now.rows + many < 2 ^ 32 }
    ensures proof { (s : System) (thresholds : List ℤ) → IsGiven s store.old relation.now questions.now → IsKeptClaim s thresholds claim.now
        → IsRowClosed s (claim_of claim.now)
        → IfOk result (λ o. MatchOption o (IsBad s (claim_of claim.now)) (IsProof s (claim_of claim.now))) }
    ensures same { store.new ≡ store.old }
    ensures roomy { IsErrOf result StoreFault.Nodes → store.old.limit < 2 ^ (2 ^ store.old.variables) }
{
    let start = start_of(alloc, store, relation, questions)?;
    let others = others_of(alloc, store, relation, questions, &start.control, claim)?;
    Ok(assembled(alloc, claim, many, start, others)?)
}

/// The certificate of a good closed row claim, and none of a bad one: the one with few entries that a search finds, and else that over its cases.
fn proved(
    alloc: Global,
    store: &mut Store,
    relation: &Relation,
    questions: &Questions,
    claim: &Claim,
) -> Result<Option<Certificate>, StoreFault>
    requires { (s : System) × (thresholds : List ℤ) × IsGiven s store.old relation.now questions.now × IsKeptClaim s thresholds claim.now
        × IsRowClosed s (claim_of claim.now) }
    ensures proof { (s : System) (thresholds : List ℤ) → IsGiven s store.old relation.now questions.now → IsKeptClaim s thresholds claim.now
        → IsRowClosed s (claim_of claim.now)
        → IfOk result (λ o. MatchOption o (IsBad s (claim_of claim.now)) (IsProof s (claim_of claim.now))) }
    ensures same { store.new ≡ store.old }
    ensures roomy { IsErrOf result StoreFault.Nodes → store.old.limit < 2 ^ (2 ^ store.old.variables) }
{
    let many = questions.rows.len();
    if claim.rows.len() + many > MOST {
        return Err(StoreFault::Memory);
    }
    match few_entries(alloc, store, relation, questions, claim)? {
        Found::Bad => Ok(None),
        Found::Shown(certificate) => Ok(Some(certificate)),
        Found::Unknown => over_cases(alloc, store, relation, questions, claim, many),
    }
}

/// The certificate of a closed row claim, where the claim is good: none where the observer is false at a valuation that the claim takes.
/// `relation` and `questions` are those of the system in the store. The certificate is accepted and has no loop, and two locations: one for
/// the initial control states, without rows, and one for the others of the claim, with rows of the claim. The store is left as it was,
/// after a fault too. Nodes comes where the store has no room for what is built on the way, never where its limit holds every function of
/// its variables, and Memory where there is none, or where a document has no numbers for so many premises or entries.
pub fn certify(
    alloc: Global,
    store: &mut Store,
    relation: &Relation,
    questions: &Questions,
    claim: &Claim,
) -> Result<Option<Certificate>, StoreFault>
    requires { (s : System) × (thresholds : List ℤ) × IsGiven s store.old relation.now questions.now × IsKeptClaim s thresholds claim.now
        × IsRowClosed s (claim_of claim.now) × All (λ t. unsigned_abs t ≤ 2 ^ 41) thresholds }
    ensures accepted { (s : System) (thresholds : List ℤ) → IsGiven s store.old relation.now questions.now → IsKeptClaim s thresholds claim.now
        → IsRowClosed s (claim_of claim.now) → All (λ t. unsigned_abs t ≤ 2 ^ 41) thresholds
        → IfOk result (λ o. IfSome o (IsAccepted s)) }
    ensures plain { (s : System) (thresholds : List ℤ) → IsGiven s store.old relation.now questions.now → IsKeptClaim s thresholds claim.now
        → IsRowClosed s (claim_of claim.now) → All (λ t. unsigned_abs t ≤ 2 ^ 41) thresholds
        → IfOk result (λ o. IfSome o ArePlain) }
    ensures good { (s : System) (thresholds : List ℤ) → IsGiven s store.old relation.now questions.now → IsKeptClaim s thresholds claim.now
        → IsRowClosed s (claim_of claim.now) → All (λ t. unsigned_abs t ≤ 2 ^ 41) thresholds
        → IfOk result (λ o. IfSome o (λ x. IsRowGood s (claim_of claim.now))) }
    ensures bad { (s : System) (thresholds : List ℤ) → IsGiven s store.old relation.now questions.now → IsKeptClaim s thresholds claim.now
        → IsRowClosed s (claim_of claim.now) → All (λ t. unsigned_abs t ≤ 2 ^ 41) thresholds
        → IfOk result (λ o. IfNone o ((v : Valuation) × IsRowTaken s (claim_of claim.now) v × (s.observer v ≡ false))) }
    ensures same { store.new ≡ store.old }
    ensures roomy { IsErrOf result StoreFault.Nodes → store.old.limit < 2 ^ (2 ^ store.old.variables) }
{
    proved(alloc, store, relation, questions, claim)
}
