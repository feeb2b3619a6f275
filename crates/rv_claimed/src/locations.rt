//! Locations of a certificate, and the certificate of two of them.

ghost use Rattle.std.specs.Prelude.{◌≡◌, ◌<◌, ◌^◌, ℕ, [], ◌∷◌, length, IfOk, MatchOption, Some, slice_get};
ghost use Rattle.rv_proofs.specs.Systems.{System};
ghost use Rattle.rv_proofs.specs.Samples.{by_one};
ghost use Rattle.rv_proofs.specs.Cases.{AreCases};
ghost use Rattle.rv_claimed.specs.declared.locations.Part.{Part as PartModel};
ghost use Rattle.rv_claims.specs.Claiming.{claim_of};
ghost use Rattle.rv_claimed.specs.Certifying.{IsBad, IsJudgeable, IsSetting, IsLocationOf};
ghost use Rattle.rv_claimed.specs.Building.{ArePartsOf, IsPlaceOf, IsProof};

use crate::entries::entries;
use crate::lists::copy_rows;
use rv_base::{Many, Memory};
use rv_claims::Claim;
use rv_diagram::Frozen;
use rv_proofs::{Case, Certificate, Entry, Location};
use rv_rows::{Multipliers, Row, Weight};
use std::alloc::Global;

/// The greatest number that a document can write.
pub const MOST: usize = 4_294_967_295;

/// A set of control states, and its cases.
#[derive(Debug, Drop)]
pub struct Part {
    /// The control states.
    pub control: Frozen,
    /// The cases.
    pub cases: Many<Case>,
}

/// The weight 1 on one premise.
fn one_of(alloc: Global, premise: u32) -> Result<Multipliers, Memory>
    ensures { IfOk result (λ m. m ≡ by_one premise) }
{
    let mut weights = Many::new(alloc);
    weights.push(Weight { premise, by: 1 })?;
    Ok(Multipliers {
        divisor: 1,
        weights,
    })
}

/// For each row the weight 1 on the row with the same number.
fn ones_of(alloc: Global, many: usize) -> Result<Many<Multipliers>, Memory>
    requires { many < 2 ^ 32 }
    ensures size { IfOk result (λ ms. length ms ≡ many) }
    ensures each { IfOk result (λ ms. (n : ℕ) → n < many → slice_get ms n ≡ Some (by_one n)) }
{
    let mut list = Many::new(alloc);
    for place in 0..many {
        let one = one_of(alloc, place as u32)?;
        list.push(one)?;
    }
    Ok(list)
}

/// The location with these control states, rows and entries.
fn location(
    alloc: Global,
    control: Frozen,
    rows: Many<Row>,
    entries: Many<Entry>,
) -> Result<Location, Memory>
    requires { length rows < 2 ^ 32 }
    ensures { IfOk result (IsLocationOf control rows entries) }
{
    let state = copy_rows(alloc, &rows)?;
    let by_entry = ones_of(alloc, rows.len())?;
    Ok(Location {
        control,
        entry: rows,
        first: Many::new(alloc),
        around: Many::new(alloc),
        state,
        by_entry,
        by_first: Many::new(alloc),
        entries,
    })
}

/// The location of control states with their cases, or none where a case shows that the claim is bad. More cases than a document can count are
/// want of memory.
fn placed(
    alloc: Global,
    claim: &Claim,
    many: usize,
    rows: Many<Row>,
    part: Part,
) -> Result<Option<Location>, Memory>
    requires { (s : System) × IsJudgeable s many claim.now × IsSetting s (claim_of claim.now) part.control rows
        × AreCases s part.control part.cases }
    ensures { (s : System) → IsJudgeable s many claim.now → IsSetting s (claim_of claim.now) part.control rows
        → AreCases s part.control part.cases
        → IfOk result (λ o. MatchOption o (IsBad s (claim_of claim.now)) (IsPlaceOf s (claim_of claim.now) part.control rows)) }
{
    let Part { control, cases } = part;
    if cases.len() > MOST {
        return Err(Memory::Memory);
    }
    let Some(entries) = entries(alloc, claim, &rows, many, cases)? else {
        return Ok(None);
    };
    let location = location(alloc, control, rows, entries)?;
    Ok(Some(location))
}

/// The certificate of two locations.
fn certificate(alloc: Global, start: Location, later: Location) -> Result<Certificate, Memory>
    ensures { IfOk result (λ c. c.locations ≡ start ∷ later ∷ []) }
{
    let mut locations = Many::new(alloc);
    locations.push(start)?;
    locations.push(later)?;
    Ok(Certificate { locations })
}

/// The location of the initial control states, which has no rows.
fn first_place(
    alloc: Global,
    claim: &Claim,
    many: usize,
    start: Part,
) -> Result<Option<Location>, Memory>
    requires { (s : System) × (others : PartModel) × ArePartsOf s many claim.now start others }
    ensures { (s : System) (others : PartModel) → ArePartsOf s many claim.now start others
        → IfOk result (λ o. MatchOption o (IsBad s (claim_of claim.now)) (IsPlaceOf s (claim_of claim.now) start.control [])) }
{
    let nothing = Many::new(alloc);
    placed(alloc, claim, many, nothing, start)
}

/// The location of the other control states, which has the rows of the claim.
fn later_place(
    alloc: Global,
    claim: &Claim,
    many: usize,
    others: Part,
) -> Result<Option<Location>, Memory>
    requires { (s : System) × (start : PartModel) × ArePartsOf s many claim.now start others }
    ensures { (s : System) (start : PartModel) → ArePartsOf s many claim.now start others
        → IfOk result (λ o. MatchOption o (IsBad s (claim_of claim.now)) (IsPlaceOf s (claim_of claim.now) others.control claim.now.rows)) }
{
    let rows = copy_rows(alloc, &claim.rows)?;
    placed(alloc, claim, many, rows, others)
}

/// The certificate of a closed claim over its cases, or none where one of them shows that it is bad.
pub fn assembled(
    alloc: Global,
    claim: &Claim,
    many: usize,
    start: Part,
    others: Part,
) -> Result<Option<Certificate>, Memory>
    requires { (s : System) × ArePartsOf s many claim.now start others }
    ensures { (s : System) → ArePartsOf s many claim.now start others
        → IfOk result (λ o. MatchOption o (IsBad s (claim_of claim.now)) (IsProof s (claim_of claim.now))) }
{
    let Some(first) = first_place(alloc, claim, many, start)? else {
        return Ok(None);
    };
    let Some(later) = later_place(alloc, claim, many, others)? else {
        return Ok(None);
    };
    let certificate = certificate(alloc, first, later)?;
    Ok(Some(certificate))
}
