//! The certificate of a closed claim: a location for the initial control states, and one for the others, with the bounds as rows.

ghost use Rattle.std.specs.Prelude.{◌≡◌, ◌<◌, ◌^◌, ℕ, List, [], ◌∷◌, length, IfOk, IfSome, IfNone, Some, slice_get};
ghost use Rattle.rv_diagram.specs.declared.frozen.Frozen.{Frozen as FrozenModel};
ghost use Rattle.rv_proofs.specs.Systems.{System};
ghost use Rattle.rv_proofs.specs.Samples.{by_one};
ghost use Rattle.rv_proofs.specs.Boxes.{BoxClaim, IsGood};
ghost use Rattle.rv_proofs.specs.Cases.{AreCases};
ghost use Rattle.rv_proofs.specs.declared.report.Case.{Case as CaseModel};
ghost use Rattle.rv_boxes.specs.declared.claim.Claim.{Claim as ClaimModel};
ghost use Rattle.rv_boxes.specs.Claiming.{claim_of};
ghost use Rattle.rv_boxes.specs.Rounds.{IsSetting};
ghost use Rattle.rv_boxes.specs.Certifying.{IsJudgeable, IsBad, IsLocationOf, IsPart, IsCertifiable};
ghost use Rattle.rv_boxes.specs.Passing.{IsProof};

use crate::bounding::copy_rows;
use crate::claim::Others;
use crate::entries::entries;
use crate::frame::Frame;
use rv_base::{Many, Memory};
use rv_diagram::Frozen;
use rv_proofs::{Case, Certificate, Entry, Location};
use rv_rows::{Multipliers, Row, Weight};
use std::alloc::Global;

/// As many cases as a document can count.
const MOST: usize = 4_294_967_295;

/// The weight 1 on one premise.
fn one_of(alloc: Global, premise: u32) -> Result<Multipliers, Memory>
    ensures { IfOk result (λ m. m ≡ by_one premise) }
{
    let mut weights = Many::new(alloc);
    weights.push(Weight { premise, by: 1 })?;
    Ok(Multipliers {
        divisor: 1,
        weights,
    })
}

/// For each row the weight 1 on the row with the same number.
fn ones_of(alloc: Global, many: usize) -> Result<Many<Multipliers>, Memory>
    requires { many < 2 ^ 32 }
    ensures size { IfOk result (λ ms. length ms ≡ many) }
    ensures each { IfOk result (λ ms. (n : ℕ) → n < many → slice_get ms n ≡ Some (by_one n)) }
{
    let mut list = Many::new(alloc);
    for place in 0..many {
        let one = one_of(alloc, place as u32)?;
        list.push(one)?;
    }
    Ok(list)
}

/// The location with these control states, rows and entries.
fn location(
    alloc: Global,
    control: Frozen,
    rows: Many<Row>,
    entries: Many<Entry>,
) -> Result<Location, Memory>
    requires { length rows < 2 ^ 32 }
    ensures { IfOk result (IsLocationOf control rows entries) }
{
    let state = copy_rows(alloc, &rows)?;
    let by_entry = ones_of(alloc, rows.len())?;
    Ok(Location {
        control,
        entry: rows,
        first: Many::new(alloc),
        around: Many::new(alloc),
        state,
        by_entry,
        by_first: Many::new(alloc),
        entries,
    })
}

/// The location of control states with their cases, or none where a case is open and the observer is false there. More cases than a
/// document can count are want of memory.
fn part(
    alloc: Global,
    frame: &Frame,
    control: Frozen,
    rows: Many<Row>,
    wanted: &Many<Row>,
    cases: Many<Case>,
) -> Result<Option<Location>, Memory>
    requires { (s : System) × (c : BoxClaim) × IsJudgeable s frame.now c wanted.now × IsSetting s c control rows × AreCases s control cases }
    ensures some { (s : System) (c : BoxClaim) → IsJudgeable s frame.now c wanted.now → IsSetting s c control rows → AreCases s control cases
        → IfOk result (λ o. IfSome o (IsPart s c control rows wanted.now)) }
    ensures none { (s : System) (c : BoxClaim) → IsJudgeable s frame.now c wanted.now → IsSetting s c control rows → AreCases s control cases
        → IfOk result (λ o. IfNone o (IsBad s c)) }
{
    if cases.len() > MOST {
        return Err(Memory::Memory);
    }
    match entries(alloc, frame, &rows, wanted, cases)? {
        Some(entries) => Ok(Some(location(alloc, control, rows, entries)?)),
        None => Ok(None),
    }
}

/// The certificate whose first location is given, or none where a case of the others is open and the observer is false there.
fn with_others(
    alloc: Global,
    frame: &Frame,
    initial: Location,
    others: Others,
) -> Result<Option<Certificate>, Memory>
    requires { (s : System) × (c : ClaimModel) × (first : FrozenModel) × (from_first : List CaseModel)
        × IsCertifiable s frame.now c first from_first others × IsPart s (claim_of c) first [] others.given initial }
    ensures some { (s : System) (c : ClaimModel) (first : FrozenModel) (from_first : List CaseModel)
        → IsCertifiable s frame.now c first from_first others → IsPart s (claim_of c) first [] others.given initial
        → IfOk result (λ o. IfSome o (λ x. IsProof s x)) }
    ensures good { (s : System) (c : ClaimModel) (first : FrozenModel) (from_first : List CaseModel)
        → IsCertifiable s frame.now c first from_first others → IsPart s (claim_of c) first [] others.given initial
        → IfOk result (λ o. IfSome o (λ x. IsGood s (claim_of c))) }
    ensures none { (s : System) (c : ClaimModel) (first : FrozenModel) (from_first : List CaseModel)
        → IsCertifiable s frame.now c first from_first others → IsPart s (claim_of c) first [] others.given initial
        → IfOk result (λ o. IfNone o (IsBad s (claim_of c))) }
{
    let Others {
        control,
        given,
        cases,
    } = others;
    let rows = copy_rows(alloc, &given)?;
    match part(alloc, frame, control, rows, &given, cases)? {
        Some(rest) => Ok(Some(certificate(alloc, initial, rest)?)),
        None => Ok(None),
    }
}

/// The certificate of two locations.
fn certificate(alloc: Global, initial: Location, rest: Location) -> Result<Certificate, Memory>
    ensures { IfOk result (λ c. c.locations ≡ initial ∷ rest ∷ []) }
{
    let mut locations = Many::new(alloc);
    locations.push(initial)?;
    locations.push(rest)?;
    Ok(Certificate { locations })
}

/// The certificate of a closed claim, or none where the observer is false at a valuation that the claim takes.
pub fn certify(
    alloc: Global,
    frame: &Frame,
    first: Frozen,
    from_first: Many<Case>,
    others: Others,
) -> Result<Option<Certificate>, Memory>
    requires { (s : System) × (c : ClaimModel) × IsCertifiable s frame.now c first from_first others }
    ensures some { (s : System) (c : ClaimModel) → IsCertifiable s frame.now c first from_first others
        → IfOk result (λ o. IfSome o (λ x. IsProof s x)) }
    ensures good { (s : System) (c : ClaimModel) → IsCertifiable s frame.now c first from_first others
        → IfOk result (λ o. IfSome o (λ x. IsGood s (claim_of c))) }
    ensures none { (s : System) (c : ClaimModel) → IsCertifiable s frame.now c first from_first others
        → IfOk result (λ o. IfNone o (IsBad s (claim_of c))) }
{
    let nothing = Many::new(alloc);
    match part(alloc, frame, first, nothing, &others.given, from_first)? {
        Some(initial) => with_others(alloc, frame, initial, others),
        None => Ok(None),
    }
}
