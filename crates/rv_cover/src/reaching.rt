//! What the box of the premises of a valuation refutes, and proves after its updates.

ghost use Rattle.std.specs.Prelude.{◌≡◌, ◌<◌, ◌≤◌, ◌+◌, ◌^◌, pos, All, IfOk, IfSome, length};
ghost use Rattle.std.specs.Int.RustNames.{unsigned_abs};
ghost use Rattle.rv_rows.specs.Forms.{CanSubstitute};
ghost use Rattle.rv_proofs.specs.Ranges.{IsRecord};
ghost use Rattle.rv_cover.specs.Premises.{AreOpenEnds};

use crate::rows::{are_premises, are_small};
use rv_base::{Many, Memory};
use rv_boxes::{End, Peak, Premises, greatest, narrow, shut_of};
use rv_rows::{Form, Multipliers, Row};
use std::alloc::Global;

/// The ends of the box of the premises, or none where they cannot be premises or shut it.
#[tactic(auto, using(crate::proofs::Rowing::open_from))]
fn open_ends(
    alloc: Global,
    premises: &Premises,
    columns: usize,
) -> Result<Option<Many<End>>, Memory>
    requires few { length premises.now < 2 ^ 32 }
    requires columns { columns < 256 }
    ensures { IfOk result (λ o. IfSome o (AreOpenEnds premises.now)) }
{
    if !are_premises(premises, columns) {
        return Ok(None);
    }
    let ends = narrow(alloc, premises, columns)?;
    let shut = shut_of(alloc, premises, &ends)?;
    match shut {
        Some(_) => Ok(None),
        None => Ok(Some(ends)),
    }
}

/// The multipliers of a greatest value, or none where it is above the bound.
fn proved_by(peak: Peak, bound: i128) -> Option<Multipliers>
    ensures { IfSome result (λ m. m ≡ record { divisor = pos 1; weights = peak.weights }) }
{
    let Peak {
        bound: highest,
        weights,
    } = peak;
    if highest > bound {
        return None;
    }
    Some(Multipliers {
        divisor: 1,
        weights,
    })
}

/// The multipliers that prove a row by the greatest value of its left side, or none where that does not.
#[tactic(auto, using(crate::proofs::Rowing::record_greatest))]
fn proof_of(
    alloc: Global,
    premises: &Premises,
    ends: &Many<End>,
    row: &Row,
) -> Result<Option<Multipliers>, Memory>
    requires ends { AreOpenEnds premises.now ends.now }
    requires width { length row.now.coefficients ≤ length ends.now }
    requires sizes { All (λ c. unsigned_abs c ≤ 2 ^ 41) row.now.coefficients }
    ensures { IfOk result (λ o. IfSome o (IsRecord (length premises.now))) }
{
    match greatest(alloc, premises, ends, &row.coefficients)? {
        Some(peak) => Ok(proved_by(peak, row.bound)),
        None => Ok(None),
    }
}

/// The multipliers that prove a row after the updates, by the first premises alone where these do. None where no greatest value proves it.
#[tactic(auto, using(crate::proofs::Rowing::record_wider))]
fn reach_row(
    alloc: Global,
    own: &Premises,
    own_ends: &Many<End>,
    premises: &Premises,
    ends: &Many<End>,
    updates: &Many<Form>,
    wanted: &Row,
) -> Result<Option<Multipliers>, Memory>
    requires own { AreOpenEnds own.now own_ends.now }
    requires ends { AreOpenEnds premises.now ends.now }
    requires first { length own.now ≤ length premises.now }
    requires same { length own_ends.now ≡ length ends.now }
    requires wanted { CanSubstitute wanted.now updates.now }
    ensures { IfOk result (λ o. IfSome o (IsRecord (length premises.now))) }
{
    let row = wanted.substitute(alloc, updates)?;
    if row.coefficients.len() > ends.len() {
        return Ok(None);
    }
    if !are_small(&row.coefficients) {
        return Ok(None);
    }
    match proof_of(alloc, own, own_ends, &row)? {
        Some(by) => Ok(Some(by)),
        None => proof_of(alloc, premises, ends, &row),
    }
}

/// The multipliers that prove each row after the updates, or none where those of one do not.
#[tactic(auto, using(crate::proofs::Rowing::got_all))]
fn reach_rows(
    alloc: Global,
    own: &Premises,
    own_ends: &Many<End>,
    premises: &Premises,
    ends: &Many<End>,
    updates: &Many<Form>,
    wanted: &Many<Row>,
) -> Result<Option<Many<Multipliers>>, Memory>
    requires own { AreOpenEnds own.now own_ends.now }
    requires ends { AreOpenEnds premises.now ends.now }
    requires first { length own.now ≤ length premises.now }
    requires wanted { All (λ r. CanSubstitute r updates.now) wanted.now }
    ensures { IfOk result (λ o. IfSome o (All (IsRecord (length premises.now)))) }
{
    let mut reach = Many::new(alloc);
    if own_ends.len() != ends.len() {
        return Ok(None);
    }
    for place in 0..wanted.len() {
        let row = wanted.at(place);
        match reach_row(alloc, own, own_ends, premises, ends, updates, row)? {
            Some(by) => reach.push(by)?,
            None => return Ok(None),
        }
    }
    Ok(Some(reach))
}

/// What refutes the given rows and those of the tests over their box, or none where that is open.
pub fn refuted_by_box(
    alloc: Global,
    columns: usize,
    given: &Many<Row>,
    told: &Many<Row>,
) -> Result<Option<Multipliers>, Memory>
    requires few { length given.now + length told.now < 2 ^ 32 }
    requires columns { columns < 256 }
    ensures record { IfOk result (λ o. IfSome o (IsRecord (length given.now + length told.now))) }
    ensures one { IfOk result (λ o. IfSome o (λ m. m.divisor ≡ pos 1)) }
{
    let premises = Premises::new(given, told);
    if !are_premises(&premises, columns) {
        return Ok(None);
    }
    let ends = narrow(alloc, &premises, columns)?;
    shut_of(alloc, &premises, &ends)
}

/// What proves the wanted rows after the updates by their greatest values, or none: each row over the box of the given rows alone where that
/// does, and else over that of the rows of the tests too.
pub fn reach_by_box(
    alloc: Global,
    columns: usize,
    given: &Many<Row>,
    told: &Many<Row>,
    updates: &Many<Form>,
    wanted: &Many<Row>,
) -> Result<Option<Many<Multipliers>>, Memory>
    requires few { length given.now + length told.now < 2 ^ 32 }
    requires columns { columns < 256 }
    requires wanted { All (λ r. CanSubstitute r updates.now) wanted.now }
    ensures { IfOk result (λ o. IfSome o (All (IsRecord (length given.now + length told.now)))) }
{
    let nothing = Many::new(alloc);
    let own = Premises::new(given, &nothing);
    let Some(own_ends) = open_ends(alloc, &own, columns)? else {
        return Ok(None);
    };
    let all = Premises::new(given, told);
    match open_ends(alloc, &all, columns)? {
        Some(ends) => reach_rows(alloc, &own, &own_ends, &all, &ends, updates, wanted),
        None => Ok(None),
    }
}
