//! Entries of a certificate: a case whose premises are shut at once is dead, and another is a step, in which a pair of premises shows
//! each row of the claim after the updates. The premises of a case are made ready for all these questions once. A step at which the observer
//! is false shows that the claim is bad: then there are no entries.

ghost use Rattle.std.specs.Prelude.{◌≡◌, ◌<◌, ◌+◌, ◌^◌, ℕ, false, Some, IfOk, IfSome, IfNone, MatchOption, length, slice_get};
ghost use Rattle.rv_diagram.specs.declared.frozen.Frozen.{Frozen as FrozenModel};
ghost use Rattle.rv_rows.specs.declared.linear.Row.{Row as RowModel};
ghost use Rattle.rv_rows.specs.Multipliers.{AreShutAtOnce};
ghost use Rattle.rv_proofs.specs.Systems.{System};
ghost use Rattle.rv_claims.specs.Claiming.{claim_of};
ghost use Rattle.rv_claimed.specs.Certifying.{CanShow, premises_in, IsReached, IsShut, AreReached, IsMadeKind};
ghost use Rattle.rv_claimed.specs.Certifying.{IsBad, IsJudgeable, IsSetting, IsCaseIn, AreCasesIn, IsEntryOf, AreEntriesOf};

use crate::lists::premises_of;
use crate::pairs::multipliers_of;
use rv_base::{Many, Memory};
use rv_claims::Claim;
use rv_proofs::{Case, Entry, EntryKind};
use rv_rows::{Multipliers, Row};
use rv_seek::Premises;
use std::alloc::Global;

/// The multipliers that show a row after the updates.
fn reach_row(
    alloc: Global,
    premises: &Premises,
    given: &Many<Row>,
    many: usize,
    case: &Case,
    wanted: &Row,
) -> Result<Multipliers, Memory>
    requires are { premises.now ≡ premises_in given.now case.now }
    requires numbers { length given.now + many < 2 ^ 32 }
    requires wanted { CanShow premises.now case.now.updates wanted.now }
    ensures { IfOk result (IsReached many given.now case.now wanted.now) }
{
    let row = wanted.substitute(alloc, &case.updates)?;
    match premises.shown(alloc, &row)? {
        Some(pair) => multipliers_of(alloc, given.len(), &case.tests, many, pair),
        None => unreachable!(),
    }
}

/// The multipliers that show each of the rows after the updates.
fn reach_rows(
    alloc: Global,
    premises: &Premises,
    given: &Many<Row>,
    many: usize,
    case: &Case,
    wanted: &Many<Row>,
) -> Result<Many<Multipliers>, Memory>
    requires are { premises.now ≡ premises_in given.now case.now }
    requires numbers { length given.now + many < 2 ^ 32 }
    requires wanted { (n : ℕ) (r : RowModel) → slice_get wanted.now n ≡ Some r → CanShow premises.now case.now.updates r }
    ensures { IfOk result (AreReached many given.now case.now wanted.now (length wanted.now)) }
{
    let mut reach = Many::new(alloc);
    for place in 0..wanted.len() {
        let by = reach_row(alloc, premises, given, many, case, wanted.at(place))?;
        reach.push(by)?;
    }
    Ok(reach)
}

/// The multipliers that show at once that no point meets the premises of a case, or none where they do not.
fn shut_by(
    alloc: Global,
    premises: &Premises,
    given: &Many<Row>,
    many: usize,
    case: &Case,
) -> Result<Option<Multipliers>, Memory>
    requires are { premises.now ≡ premises_in given.now case.now }
    requires numbers { length given.now + many < 2 ^ 32 }
    ensures shut { IfOk result (λ o. IfSome o (IsShut many given.now case.now)) }
    ensures opened { IfOk result (λ o. IfNone o (¬ (AreShutAtOnce premises.now))) }
{
    match premises.shut(alloc)? {
        Some(pair) => {
            let refutation = multipliers_of(alloc, given.len(), &case.tests, many, pair)?;
            Ok(Some(refutation))
        }
        None => Ok(None),
    }
}

/// A step into location 1, or none where the observer is false at it.
fn step_of(
    alloc: Global,
    premises: &Premises,
    given: &Many<Row>,
    many: usize,
    case: &Case,
    wanted: &Many<Row>,
) -> Result<Option<EntryKind>, Memory>
    requires are { premises.now ≡ premises_in given.now case.now }
    requires numbers { length given.now + many < 2 ^ 32 }
    requires opened { ¬ (AreShutAtOnce premises.now) }
    requires wanted { (n : ℕ) (r : RowModel) → slice_get wanted.now n ≡ Some r → CanShow premises.now case.now.updates r }
    ensures { IfOk result (λ o. MatchOption o (case.now.observer ≡ false) (IsMadeKind many given.now wanted.now case.now)) }
{
    if !case.observer {
        return Ok(None);
    }
    let reach = reach_rows(alloc, premises, given, many, case, wanted)?;
    Ok(Some(EntryKind::Go { target: 1, reach }))
}

/// What happens in a case: it is dead where its premises are shut at once, and else a step into location 1, or nothing where the observer
/// is false at that.
fn kind_of(
    alloc: Global,
    premises: &Premises,
    given: &Many<Row>,
    many: usize,
    case: &Case,
    wanted: &Many<Row>,
) -> Result<Option<EntryKind>, Memory>
    requires are { premises.now ≡ premises_in given.now case.now }
    requires numbers { length given.now + many < 2 ^ 32 }
    requires wanted { ¬ (AreShutAtOnce premises.now) → (n : ℕ) (r : RowModel) → slice_get wanted.now n ≡ Some r
        → CanShow premises.now case.now.updates r }
    ensures { IfOk result (λ o. MatchOption o ((case.now.observer ≡ false) × (¬ AreShutAtOnce (premises_in given.now case.now)))
        (IsMadeKind many given.now wanted.now case.now)) }
{
    match shut_by(alloc, premises, given, many, case)? {
        Some(refutation) => Ok(Some(EntryKind::Dead(refutation))),
        None => step_of(alloc, premises, given, many, case, wanted),
    }
}

/// The entry of a case, or none where the case shows that the claim is bad.
fn entry_of(
    alloc: Global,
    claim: &Claim,
    given: &Many<Row>,
    many: usize,
    case: Case,
) -> Result<Option<Entry>, Memory>
    requires { (s : System) × (from : FrozenModel) × IsJudgeable s many claim.now × IsSetting s (claim_of claim.now) from given.now
        × IsCaseIn s from case }
    ensures { (s : System) (from : FrozenModel) → IsJudgeable s many claim.now → IsSetting s (claim_of claim.now) from given.now
        → IsCaseIn s from case
        → IfOk result (λ o. MatchOption o (IsBad s (claim_of claim.now)) (IsEntryOf s (claim_of claim.now) given.now case)) }
{
    let rows = premises_of(alloc, given, &case.rows)?;
    let premises = Premises::new(alloc, &rows)?;
    match kind_of(alloc, &premises, given, many, &case, &claim.rows)? {
        Some(kind) => Ok(Some(Entry {
            condition: case.condition,
            kind,
        })),
        None => Ok(None),
    }
}

/// The entries of cases, or none where a case shows that the claim is bad.
pub fn entries(
    alloc: Global,
    claim: &Claim,
    given: &Many<Row>,
    many: usize,
    cases: Many<Case>,
) -> Result<Option<Many<Entry>>, Memory>
    requires { (s : System) × (from : FrozenModel) × IsJudgeable s many claim.now × IsSetting s (claim_of claim.now) from given.now
        × AreCasesIn s from cases }
    ensures { (s : System) (from : FrozenModel) → IsJudgeable s many claim.now → IsSetting s (claim_of claim.now) from given.now
        → AreCasesIn s from cases
        → IfOk result (λ o. MatchOption o (IsBad s (claim_of claim.now)) (AreEntriesOf s (claim_of claim.now) given.now cases)) }
{
    let mut entries = Many::new(alloc);
    for case in cases.into_vec() {
        match entry_of(alloc, claim, given, many, case)? {
            Some(entry) => entries.push(entry)?,
            None => return Ok(None),
        }
    }
    Ok(Some(entries))
}
