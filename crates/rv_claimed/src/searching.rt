//! A certificate with few entries of a good claim, where a search finds one that is accepted.

ghost use Rattle.std.specs.Prelude.{◌≡◌, ◌<◌, ◌^◌, ℤ, List, true, false, IfOk, MatchOption, IsErrOf, MatchBool};
ghost use Rattle.rv_diagram.specs.Nodes.{Valuation, IsRef, value_of};
ghost use Rattle.rv_diagram.specs.Growing.{Extends};
ghost use Rattle.rv_proofs.specs.Systems.{System};
ghost use Rattle.rv_proofs.specs.RowClaims.{RowClaim, IsRowGood};
ghost use Rattle.rv_cover.specs.Seeking.{IsDocument};
ghost use Rattle.rv_pairs.specs.Taking.{IsTakenAt};
ghost use Rattle.rv_claims.specs.Claiming.{claim_of};
ghost use Rattle.rv_claimed.specs.Certifying.{IsBad, IsGiven};
ghost use Rattle.rv_claimed.specs.Building.{IsProof};
ghost use Rattle.rv_claimed.specs.Searching.{IsSearchedFor, IsOpened, IsGoodDocument, IsFound};

use rv_accept::accept;
use rv_cases::Questions;
use rv_claims::Claim;
use rv_cover::{By, sought};
use rv_diagram::{Ref, Store, StoreFault};
use rv_pairs::{open_rows, premises};
use rv_proofs::{Certificate, Verdict};
use rv_symbolic::Relation;
use rv_walk::without;
use std::alloc::Global;

/// What is found of a claim.
#[derive(Debug, Drop)]
pub enum Found {
    /// The observer is false at a valuation that the claim takes.
    Bad,
    /// The claim is good, and this is a certificate of it.
    Shown(Certificate),
    /// Nothing.
    Unknown,
}

/// Where the claim takes a valuation, with what was built of it.
fn taken_by(
    alloc: Global,
    store: &mut Store,
    relation: &Relation,
    questions: &Questions,
    claim: &Claim,
) -> Result<Ref, StoreFault>
    requires { (s : System) × (thresholds : List ℤ) × IsSearchedFor s thresholds store.old relation.now questions.now claim.now }
    ensures extends { Extends store.old store.new }
    ensures roomy { IsErrOf result StoreFault.Nodes → store.old.limit < 2 ^ (2 ^ store.old.variables) }
    ensures taken { (s : System) (thresholds : List ℤ) → IsSearchedFor s thresholds store.old relation.now questions.now claim.now
        → 0 < s.states → IfOk result (IsTakenAt s store.new.nodes (claim_of claim.now)) }
{
    let labels = premises(alloc, store, questions, &claim.rows)?;
    let allowed = relation.parts().allowed;
    open_rows(alloc, store, allowed, &labels, &claim.reached)
}

/// Whether the first reference is true only where the second is, with what was built of it.
fn is_within(store: &mut Store, part: Ref, whole: Ref) -> Result<bool, StoreFault>
    requires part { IsRef store.old.nodes part }
    requires whole { IsRef store.old.nodes whole }
    ensures extends { Extends store.old store.new }
    ensures roomy { IsErrOf result StoreFault.Nodes → store.old.limit < 2 ^ (2 ^ store.old.variables) }
    ensures exact { IfOk result (λ yes. MatchBool yes
        ((v : Valuation) → value_of store.old.nodes part v ≡ true → value_of store.old.nodes whole v ≡ true)
        ((v : Valuation) × (value_of store.old.nodes part v ≡ true) × (value_of store.old.nodes whole v ≡ false))) }
{
    let none = store.constant(false);
    let rest = store.ite(whole, none, part)?;
    let outside = store.pick(rest)?;
    if let Some(_) = outside {
        return Ok(false);
    }
    Ok(true)
}

/// Where a good claim takes a valuation, with what was built of it, or none of a bad one.
fn opened(
    alloc: Global,
    store: &mut Store,
    relation: &Relation,
    questions: &Questions,
    claim: &Claim,
) -> Result<Option<Ref>, StoreFault>
    requires { (s : System) × (thresholds : List ℤ) × IsSearchedFor s thresholds store.old relation.now questions.now claim.now
        × (0 < s.states) }
    ensures extends { Extends store.old store.new }
    ensures roomy { IsErrOf result StoreFault.Nodes → store.old.limit < 2 ^ (2 ^ store.old.variables) }
    ensures opened { (s : System) (thresholds : List ℤ) → IsSearchedFor s thresholds store.old relation.now questions.now claim.now
        → 0 < s.states
        → IfOk result (λ o. MatchOption o (IsBad s (claim_of claim.now)) (IsOpened s store.new.nodes (claim_of claim.now))) }
{
    let taken = taken_by(alloc, store, relation, questions, claim)?;
    let good = is_within(store, taken, relation.parts().observer)?;
    if good { Ok(Some(taken)) } else { Ok(None) }
}

/// What the search finds for a good claim, which takes `taken`.
fn searched(
    alloc: Global,
    store: &mut Store,
    relation: &Relation,
    questions: &Questions,
    claim: &Claim,
    taken: Ref,
) -> Result<Found, StoreFault>
    requires { (s : System) × (thresholds : List ℤ) × IsSearchedFor s thresholds store.old relation.now questions.now claim.now
        × IsOpened s store.old.nodes (claim_of claim.now) taken }
    ensures found { (s : System) (thresholds : List ℤ) → IsSearchedFor s thresholds store.old relation.now questions.now claim.now
        → IsOpened s store.old.nodes (claim_of claim.now) taken
        → IfOk result (IsFound s (claim_of claim.now) (IsGoodDocument s (claim_of claim.now))) }
    ensures same { store.new ≡ store.old }
    ensures roomy { IsErrOf result StoreFault.Nodes → store.old.limit < 2 ^ (2 ^ store.old.variables) }
{
    let first = relation.initial(store)?;
    let rest = without(store, &claim.reached, &first)?;
    match sought(
        alloc,
        store,
        relation.parts(),
        questions,
        By::Rows,
        &first,
        &rest,
        taken,
        &claim.reached,
        &claim.rows,
    )? {
        Some(certificate) => Ok(Found::Shown(certificate)),
        None => Ok(Found::Unknown),
    }
}

/// What is found of the claim, with what was built of it: nothing where there is no state bit.
fn found_in(
    alloc: Global,
    store: &mut Store,
    relation: &Relation,
    questions: &Questions,
    claim: &Claim,
) -> Result<Found, StoreFault>
    requires { (s : System) × (thresholds : List ℤ) × IsSearchedFor s thresholds store.old relation.now questions.now claim.now }
    ensures extends { Extends store.old store.new }
    ensures roomy { IsErrOf result StoreFault.Nodes → store.old.limit < 2 ^ (2 ^ store.old.variables) }
    ensures found { (s : System) (thresholds : List ℤ) → IsSearchedFor s thresholds store.old relation.now questions.now claim.now
        → IfOk result (IsFound s (claim_of claim.now) (IsGoodDocument s (claim_of claim.now))) }
{
    let bits = relation.parts().next.len();
    if bits == 0 {
        return Ok(Found::Unknown);
    }
    match opened(alloc, store, relation, questions, claim)? {
        Some(taken) => searched(alloc, store, relation, questions, claim, taken),
        None => Ok(Found::Bad),
    }
}

/// What is found of the claim. The store is left as it was.
fn found_apart(
    alloc: Global,
    store: &mut Store,
    relation: &Relation,
    questions: &Questions,
    claim: &Claim,
) -> Result<Found, StoreFault>
    requires { (s : System) × (thresholds : List ℤ) × IsSearchedFor s thresholds store.old relation.now questions.now claim.now }
    ensures found { (s : System) (thresholds : List ℤ) → IsSearchedFor s thresholds store.old relation.now questions.now claim.now
        → IfOk result (IsFound s (claim_of claim.now) (IsGoodDocument s (claim_of claim.now))) }
    ensures same { store.new ≡ store.old }
    ensures roomy { IsErrOf result StoreFault.Nodes → store.old.limit < 2 ^ (2 ^ store.old.variables) }
{
    let mark = store.mark();
    let answer = found_in(alloc, store, relation, questions, claim);
    store.release(mark);
    answer
}

/// What is found of the claim, which is nothing where the store has no room for the search.
fn found_or_none(
    alloc: Global,
    store: &mut Store,
    relation: &Relation,
    questions: &Questions,
    claim: &Claim,
) -> Result<Found, StoreFault>
    requires { (s : System) × (thresholds : List ℤ) × IsSearchedFor s thresholds store.old relation.now questions.now claim.now }
    ensures found { (s : System) (thresholds : List ℤ) → IsSearchedFor s thresholds store.old relation.now questions.now claim.now
        → IfOk result (IsFound s (claim_of claim.now) (IsGoodDocument s (claim_of claim.now))) }
    ensures same { store.new ≡ store.old }
    ensures roomy { IsErrOf result StoreFault.Nodes → store.old.limit < 2 ^ (2 ^ store.old.variables) }
{
    match found_apart(alloc, store, relation, questions, claim) {
        Ok(found) => Ok(found),
        Err(StoreFault::Nodes) => Ok(Found::Unknown),
        Err(StoreFault::Memory) => Err(StoreFault::Memory),
    }
}

/// The certificate of a good claim, where it is accepted.
fn accepted(
    alloc: Global,
    store: &mut Store,
    relation: &Relation,
    questions: &Questions,
    certificate: Certificate,
) -> Result<Found, StoreFault>
    requires { (s : System) × IsGiven s store.old relation.now questions.now × IsDocument s certificate }
    ensures proof { (s : System) (c : RowClaim) → IsGiven s store.old relation.now questions.now → IsDocument s certificate → IsRowGood s c
        → IfOk result (IsFound s c (IsProof s c)) }
    ensures same { store.new ≡ store.old }
    ensures roomy { IsErrOf result StoreFault.Nodes → store.old.limit < 2 ^ (2 ^ store.old.variables) }
{
    match accept(alloc, store, relation.parts(), questions, &certificate)? {
        Verdict::Accepted => Ok(Found::Shown(certificate)),
        Verdict::Rejected(_) => Ok(Found::Unknown),
    }
}

/// Whether the claim is bad, or else a certificate with few entries of it, where the search finds one that is accepted. The store is left as
/// it was. No room for the search is no fault.
pub fn few_entries(
    alloc: Global,
    store: &mut Store,
    relation: &Relation,
    questions: &Questions,
    claim: &Claim,
) -> Result<Found, StoreFault>
    requires { (s : System) × (thresholds : List ℤ) × IsSearchedFor s thresholds store.old relation.now questions.now claim.now }
    ensures proof { (s : System) (thresholds : List ℤ) → IsSearchedFor s thresholds store.old relation.now questions.now claim.now
        → IfOk result (IsFound s (claim_of claim.now) (IsProof s (claim_of claim.now))) }
    ensures same { store.new ≡ store.old }
    ensures roomy { IsErrOf result StoreFault.Nodes → store.old.limit < 2 ^ (2 ^ store.old.variables) }
{
    match found_or_none(alloc, store, relation, questions, claim)? {
        Found::Shown(certificate) => accepted(alloc, store, relation, questions, certificate),
        Found::Bad => Ok(Found::Bad),
        Found::Unknown => Ok(Found::Unknown),
    }
}
