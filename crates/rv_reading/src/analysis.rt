//! What is proved of a system that no box claim decides.

ghost use Rattle.std.specs.Prelude.{◌≡◌, ◌<◌, ◌≤◌, ◌^◌, ℤ, List, false, IfOk, IfSome, IsSome, IsErrOf};
ghost use Rattle.rv_proofs.specs.Systems.{System};
ghost use Rattle.rv_proofs.specs.Accepted.{IsAccepted};
ghost use Rattle.rv_proofs.specs.RowClaims.{HasGoodRows, IsLeastRowClosed};
ghost use Rattle.rv_claims.specs.Claiming.{claim_of, IsKeptClaim};
ghost use Rattle.rv_reading.specs.Analysing.{IsGiven, IsCertified, IsAnalysisOf, IsProved};

use crate::ending::{Analysis, ended};
use rv_base::Memory;
use rv_cases::Questions;
use rv_claimed::certify;
use rv_claims::Claim;
use rv_diagram::{Store, StoreFault};
use rv_left::left_report;
use rv_loops::with_turns;
use rv_proofs::{Certificate, tighter_row_claims};
use rv_refine::refined;
use rv_rise::least_closed;
use rv_symbolic::Relation;
use std::alloc::Global;

/// The number, or the greatest one where it is more.
pub fn at_most(number: usize, greatest: u32) -> u32
    ensures { result ≤ greatest }
{
    if number < greatest as usize {
        number as u32
    } else {
        greatest
    }
}

/// A certificate without loops by rows: that of the least closed row claim where it is good, and else one over parts of its control states, or
/// none. The search over parts may look through turns of loops where these are asked for.
fn plain_by_rows(
    alloc: Global,
    store: &mut Store,
    relation: &Relation,
    questions: &Questions,
    claim: &Claim,
    thresholds: &[i128],
    accelerate: bool,
) -> Result<Option<Certificate>, StoreFault>
    requires { (s : System) × IsGiven s store.old relation.now questions.now thresholds.now × IsKeptClaim s thresholds.now claim.now
        × IsLeastRowClosed s thresholds.now (claim_of claim.now) }
    ensures certified { (s : System) → IsGiven s store.old relation.now questions.now thresholds.now → IsKeptClaim s thresholds.now claim.now
        → IsLeastRowClosed s thresholds.now (claim_of claim.now) → IfOk result (λ o. IfSome o (IsCertified s false)) }
    ensures claims { (s : System) → IsGiven s store.old relation.now questions.now thresholds.now → IsKeptClaim s thresholds.now claim.now
        → IsLeastRowClosed s thresholds.now (claim_of claim.now) → HasGoodRows s thresholds.now → IfOk result IsSome }
    ensures same { store.new ≡ store.old }
    ensures roomy { IsErrOf result StoreFault.Nodes → store.old.limit < 2 ^ (2 ^ store.old.variables) }
{
    tighter_row_claims();
    match certify(alloc, store, relation, questions, claim)? {
        Some(certificate) => Ok(Some(certificate)),
        None => {
            let reached = &claim.reached;
            let found = refined(
                alloc, store, relation, questions, reached, thresholds, accelerate,
            )?;
            Ok(found)
        }
    }
}

/// The certificate, its steps of a location to itself taken as turns of loops where these are asked for.
fn accelerated(
    alloc: Global,
    store: &mut Store,
    relation: &Relation,
    questions: &Questions,
    certificate: Certificate,
    accelerate: bool,
) -> Result<Certificate, Memory>
    requires given { (s : System) × (thresholds : List ℤ) × IsGiven s store.old relation.now questions.now thresholds × IsAccepted s certificate }
    ensures certified { (s : System) (thresholds : List ℤ) → IsGiven s store.old relation.now questions.now thresholds
        → IsCertified s false certificate → IfOk result (IsCertified s accelerate) }
    ensures same { store.new ≡ store.old }
{
    if accelerate {
        return with_turns(alloc, store, relation, questions, certificate);
    }
    Ok(certificate)
}

/// A certificate by rows, with turns of loops where these are asked for: that of the least closed row claim where it is good, and else one over
/// parts of its control states, or none.
fn by_rows(
    alloc: Global,
    store: &mut Store,
    relation: &Relation,
    questions: &Questions,
    claim: &Claim,
    thresholds: &[i128],
    accelerate: bool,
) -> Result<Option<Certificate>, StoreFault>
    requires { (s : System) × IsGiven s store.old relation.now questions.now thresholds.now × IsKeptClaim s thresholds.now claim.now
        × IsLeastRowClosed s thresholds.now (claim_of claim.now) }
    ensures certified { (s : System) → IsGiven s store.old relation.now questions.now thresholds.now → IsKeptClaim s thresholds.now claim.now
        → IsLeastRowClosed s thresholds.now (claim_of claim.now) → IfOk result (λ o. IfSome o (IsCertified s accelerate)) }
    ensures claims { (s : System) → IsGiven s store.old relation.now questions.now thresholds.now → IsKeptClaim s thresholds.now claim.now
        → IsLeastRowClosed s thresholds.now (claim_of claim.now) → HasGoodRows s thresholds.now → IfOk result IsSome }
    ensures same { store.new ≡ store.old }
    ensures roomy { IsErrOf result StoreFault.Nodes → store.old.limit < 2 ^ (2 ^ store.old.variables) }
{
    let found = plain_by_rows(
        alloc, store, relation, questions, claim, thresholds, accelerate,
    )?;
    match found {
        Some(plain) => {
            let certificate = accelerated(alloc, store, relation, questions, plain, accelerate)?;
            Ok(Some(certificate))
        }
        None => Ok(None),
    }
}

/// What is proved of a system with these thresholds: an accepted certificate, wherever some closed row claim is good and where rows over parts of
/// the control states are found besides; else a left partition without rows, of at most so many locations. The certificate has turns of loops
/// only where these are asked for, and the left partition none. The first `ticks` state bits are those of ticks, by which parts are told apart
/// first.
pub fn analysed(
    alloc: Global,
    store: &mut Store,
    relation: &Relation,
    questions: &Questions,
    thresholds: &[i128],
    ticks: u32,
    locations: u32,
    accelerate: bool,
) -> Result<Analysis, StoreFault>
    requires given { (s : System) × IsGiven s store.old relation.now questions.now thresholds.now }
    requires least { 1 ≤ locations }
    requires most { locations ≤ 4096 }
    ensures end { (s : System) → IsGiven s store.old relation.now questions.now thresholds.now → IfOk result (IsAnalysisOf s locations accelerate) }
    ensures claims { (s : System) → IsGiven s store.old relation.now questions.now thresholds.now → HasGoodRows s thresholds.now
        → IfOk result IsProved }
    ensures same { store.new ≡ store.old }
    ensures roomy { IsErrOf result StoreFault.Nodes → store.old.limit < 2 ^ (2 ^ store.old.variables) }
{
    let claim = least_closed(alloc, store, relation, questions, thresholds)?;
    let found = by_rows(
        alloc, store, relation, questions, &claim, thresholds, accelerate,
    )?;
    if let Some(certificate) = found {
        return Ok(Analysis::Proved(certificate));
    }
    let report = left_report(alloc, store, relation, ticks, locations)?;
    Ok(ended(report))
}
