//! Entries of a certificate: a case that its box shuts is dead, and another is a step, each bound of which is proved by the greatest
//! value of its form over the box.

ghost use Rattle.std.specs.Prelude.{◌≡◌, ◌<◌, ℕ, true, false, length, IfOk, IfSome, IfNone, Some, slice_get};
ghost use Rattle.rv_diagram.specs.declared.frozen.Frozen.{Frozen as FrozenModel};
ghost use Rattle.rv_rows.specs.declared.linear.Row.{Row as RowModel};
ghost use Rattle.rv_proofs.specs.Systems.{System};
ghost use Rattle.rv_proofs.specs.Boxes.{BoxClaim};
ghost use Rattle.rv_boxes.specs.Ends.{AreEnds};
ghost use Rattle.rv_boxes.specs.Boxed.{ArePremises, IsUncrossed, IsOpenBox};
ghost use Rattle.rv_boxes.specs.Built.{IsReached, IsBuiltKind};
ghost use Rattle.rv_boxes.specs.Rounds.{IsSetting, IsCaseIn};
ghost use Rattle.rv_boxes.specs.Certifying.{CanReach, IsJudgeable, IsBad, IsEntryOf, AreEntriesOf, AreReached, AreCasesIn};

use crate::ends::{End, narrow};
use crate::frame::Frame;
use crate::peaks::{Peak, greatest};
use crate::premises::{Premises, told_rows};
use crate::shut::shut_of;
use rv_base::{Many, Memory};
use rv_proofs::{Case, Entry, EntryKind};
use rv_rows::{Form, Multipliers, Row};
use std::alloc::Global;

/// The multipliers that prove a row after the updates: those of the greatest value of its left side before them.
fn reach_row(
    alloc: Global,
    premises: &Premises,
    ends: &Many<End>,
    updates: &Many<Form>,
    wanted: &Row,
) -> Result<Multipliers, Memory>
    requires premises { ArePremises (length ends.now) premises.now }
    requires ends { AreEnds premises.now (length ends.now) ends.now }
    requires some { IsUncrossed premises.now ends.now (length ends.now) }
    requires few { length ends.now < 256 }
    requires wanted { CanReach (length ends.now) premises.now updates.now wanted.now }
    ensures { IfOk result (IsReached (length ends.now) premises.now updates.now wanted.now) }
{
    let row = wanted.substitute(alloc, updates)?;
    match greatest(alloc, premises, ends, &row.coefficients)? {
        Some(peak) => {
            let Peak { bound: _, weights } = peak;
            Ok(Multipliers {
                divisor: 1,
                weights,
            })
        }
        None => unreachable!(),
    }
}

/// The multipliers that prove each of the rows after the updates.
fn reach_rows(
    alloc: Global,
    premises: &Premises,
    ends: &Many<End>,
    updates: &Many<Form>,
    wanted: &Many<Row>,
) -> Result<Many<Multipliers>, Memory>
    requires premises { ArePremises (length ends.now) premises.now }
    requires ends { AreEnds premises.now (length ends.now) ends.now }
    requires some { IsUncrossed premises.now ends.now (length ends.now) }
    requires few { length ends.now < 256 }
    requires wanted { (n : ℕ) (r : RowModel) → slice_get wanted.now n ≡ Some r → CanReach (length ends.now) premises.now updates.now r }
    ensures { IfOk result (AreReached (length ends.now) premises.now updates.now wanted.now (length wanted.now)) }
{
    let mut reach = Many::new(alloc);
    for place in 0..wanted.len() {
        let by = reach_row(alloc, premises, ends, updates, wanted.at(place))?;
        reach.push(by)?;
    }
    Ok(reach)
}

/// What happens in a case: it is dead where its box is shut, and else a step into location 1, or none where the observer is false there.
fn kind_of(
    alloc: Global,
    premises: &Premises,
    columns: usize,
    updates: &Many<Form>,
    wanted: &Many<Row>,
    observer: bool,
) -> Result<Option<EntryKind>, Memory>
    requires premises { ArePremises columns premises.now }
    requires few { columns < 256 }
    requires wanted { IsOpenBox columns premises.now → (n : ℕ) (r : RowModel) → slice_get wanted.now n ≡ Some r
        → CanReach columns premises.now updates.now r }
    ensures built { IfOk result (λ o. IfSome o (IsBuiltKind columns premises.now updates.now wanted.now)) }
    ensures good { IfOk result (λ o. IfSome o (λ k. IsOpenBox columns premises.now → observer ≡ true)) }
    ensures opened { IfOk result (λ o. IfNone o (IsOpenBox columns premises.now)) }
    ensures bad { IfOk result (λ o. IfNone o (observer ≡ false)) }
{
    let ends = narrow(alloc, premises, columns)?;
    match shut_of(alloc, premises, &ends)? {
        Some(refutation) => Ok(Some(EntryKind::Dead(refutation))),
        None => step_of(alloc, premises, &ends, updates, wanted, observer),
    }
}

/// A step into location 1, or none where the observer is false.
fn step_of(
    alloc: Global,
    premises: &Premises,
    ends: &Many<End>,
    updates: &Many<Form>,
    wanted: &Many<Row>,
    observer: bool,
) -> Result<Option<EntryKind>, Memory>
    requires premises { ArePremises (length ends.now) premises.now }
    requires ends { AreEnds premises.now (length ends.now) ends.now }
    requires few { length ends.now < 256 }
    requires opened { IsOpenBox (length ends.now) premises.now }
    requires wanted { (n : ℕ) (r : RowModel) → slice_get wanted.now n ≡ Some r → CanReach (length ends.now) premises.now updates.now r }
    ensures built { IfOk result (λ o. IfSome o (IsBuiltKind (length ends.now) premises.now updates.now wanted.now)) }
    ensures good { IfOk result (λ o. IfSome o (λ k. observer ≡ true)) }
    ensures bad { IfOk result (λ o. IfNone o (observer ≡ false)) }
{
    if !observer {
        return Ok(None);
    }
    let reach = reach_rows(alloc, premises, ends, updates, wanted)?;
    Ok(Some(EntryKind::Go { target: 1, reach }))
}

/// The entry of a case, or none where its box is open and the observer is false.
fn entry_of(
    alloc: Global,
    frame: &Frame,
    given: &Many<Row>,
    wanted: &Many<Row>,
    case: Case,
) -> Result<Option<Entry>, Memory>
    requires { (s : System) × (c : BoxClaim) × (from : FrozenModel) × IsJudgeable s frame.now c wanted.now
        × IsSetting s c from given.now × IsCaseIn s from case }
    ensures some { (s : System) (c : BoxClaim) (from : FrozenModel) → IsJudgeable s frame.now c wanted.now → IsSetting s c from given.now
        → IsCaseIn s from case → IfOk result (λ o. IfSome o (IsEntryOf s c from given.now wanted.now case)) }
    ensures none { (s : System) (c : BoxClaim) (from : FrozenModel) → IsJudgeable s frame.now c wanted.now → IsSetting s c from given.now
        → IsCaseIn s from case → IfOk result (λ o. IfNone o (IsBad s c)) }
{
    let told = told_rows(alloc, &case.tests, &case.rows, frame.tests)?;
    let premises = Premises::new(given, &told);
    let columns = frame.columns;
    let kind = kind_of(
        alloc,
        &premises,
        columns,
        &case.updates,
        wanted,
        case.observer,
    )?;
    match kind {
        Some(kind) => Ok(Some(Entry {
            condition: case.condition,
            kind,
        })),
        None => Ok(None),
    }
}

/// The entries of cases, or none where the box of one is open and the observer is false there.
pub fn entries(
    alloc: Global,
    frame: &Frame,
    given: &Many<Row>,
    wanted: &Many<Row>,
    cases: Many<Case>,
) -> Result<Option<Many<Entry>>, Memory>
    requires { (s : System) × (c : BoxClaim) × (from : FrozenModel) × IsJudgeable s frame.now c wanted.now
        × IsSetting s c from given.now × AreCasesIn s from cases }
    ensures some { (s : System) (c : BoxClaim) (from : FrozenModel) → IsJudgeable s frame.now c wanted.now → IsSetting s c from given.now
        → AreCasesIn s from cases
        → IfOk result (λ o. IfSome o (AreEntriesOf s c from given.now wanted.now cases (length cases))) }
    ensures none { (s : System) (c : BoxClaim) (from : FrozenModel) → IsJudgeable s frame.now c wanted.now → IsSetting s c from given.now
        → AreCasesIn s from cases → IfOk result (λ o. IfNone o (IsBad s c)) }
{
    let mut list = Many::new(alloc);
    for case in cases.into_vec() {
        match entry_of(alloc, frame, given, wanted, case)? {
            Some(entry) => list.push(entry)?,
            None => return Ok(None),
        }
    }
    Ok(Some(list))
}
