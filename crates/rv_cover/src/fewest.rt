//! Proofs that name no test which they can do without.
//!
//! The condition of an entry has the answers of the tests that its proof names, so each test fewer makes it wider; and a condition that relates
//! tests which have nothing to do with each other makes what is left of a location's scope grow with each entry.

ghost use Rattle.std.specs.Prelude.{◌≡◌, ◌+◌, ◌<◌, ◌^◌, pos, All, length, IfOk, IfSome};
ghost use Rattle.rv_rows.specs.Forms.{CanSubstitute};
ghost use Rattle.rv_proofs.specs.Ranges.{IsRecord};
ghost use Rattle.rv_cover.specs.Premises.{IsNarrow};

use crate::copies::copy_row;
use crate::frame::By;
use crate::proving::{reach, refutation};
use rv_base::{Many, Memory};
use rv_rows::{Form, Multipliers, Row};
use std::alloc::Global;

/// The row `0 <= 0`.
fn nothing(alloc: Global) -> Row {
    Row {
        coefficients: Many::new(alloc),
        bound: 0,
    }
}

/// Whether the multipliers name the premise.
fn names(by: &Multipliers, premise: usize) -> bool {
    for place in 0..by.weights.len() {
        if by.weights.at(place).premise as usize == premise {
            return true;
        }
    }
    false
}

/// Whether some of the multipliers name the premise.
fn some_name(reach: &Many<Multipliers>, premise: usize) -> bool {
    for place in 0..reach.len() {
        if names(reach.at(place), premise) {
            return true;
        }
    }
    false
}

/// The refutation without the row of a test, which goes out where there is one.
fn refutation_without(
    alloc: Global,
    by: By,
    given: &Many<Row>,
    told: &mut Many<Row>,
    test: usize,
) -> Result<Option<Multipliers>, Memory>
    requires few { length given.now + length told.old < 2 ^ 32 }
    requires narrow { IsNarrow by }
    requires test { test < length told.old }
    ensures size { length told.new ≡ length told.old }
    ensures record { IfOk result (λ o. IfSome o (IsRecord (length given.now + length told.old))) }
    ensures one { IfOk result (λ o. IfSome o (λ m. m.divisor ≡ pos 1)) }
{
    let row = copy_row(alloc, told.at(test))?;
    told.set(test, nothing(alloc));
    let found = refutation(alloc, by, given, told)?;
    if found.is_none() {
        told.set(test, row);
    }
    Ok(found)
}

/// The row of a test goes out where no multiplier names it; else a refutation without it, where there is one.
fn refutation_unless(
    alloc: Global,
    by: By,
    given: &Many<Row>,
    told: &mut Many<Row>,
    test: usize,
    named: bool,
) -> Result<Option<Multipliers>, Memory>
    requires few { length given.now + length told.old < 2 ^ 32 }
    requires narrow { IsNarrow by }
    requires test { test < length told.old }
    ensures size { length told.new ≡ length told.old }
    ensures record { IfOk result (λ o. IfSome o (IsRecord (length given.now + length told.old))) }
    ensures one { IfOk result (λ o. IfSome o (λ m. m.divisor ≡ pos 1)) }
{
    if named {
        return refutation_without(alloc, by, given, told, test);
    }
    told.set(test, nothing(alloc));
    Ok(None)
}

/// A refutation that names no test which it can do without, found from another one: test by test is left out where the rest is still refuted.
fn fewer_tests(
    alloc: Global,
    by: By,
    given: &Many<Row>,
    told: &mut Many<Row>,
    found: Multipliers,
) -> Result<Multipliers, Memory>
    requires few { length given.now + length told.old < 2 ^ 32 }
    requires narrow { IsNarrow by }
    requires record { IsRecord (length given.now + length told.old) found }
    requires one { found.divisor ≡ pos 1 }
    ensures record { IfOk result (IsRecord (length given.now + length told.old)) }
    ensures one { IfOk result (λ m. m.divisor ≡ pos 1) }
{
    let mut least = found;
    for test in 0..told.len() {
        let named = names(&least, given.len() + test);
        match refutation_unless(alloc, by, given, told, test, named)? {
            Some(fewer) => least = fewer,
            None => {}
        }
    }
    Ok(least)
}

/// The multipliers that refute the given rows and those of the tests, or none. No test is named without which the rows are refuted. Other rows of
/// tests go out.
pub fn least_refutation(
    alloc: Global,
    by: By,
    given: &Many<Row>,
    told: &mut Many<Row>,
) -> Result<Option<Multipliers>, Memory>
    requires few { length given.now + length told.old < 2 ^ 32 }
    requires narrow { IsNarrow by }
    ensures record { IfOk result (λ o. IfSome o (IsRecord (length given.now + length told.old))) }
    ensures one { IfOk result (λ o. IfSome o (λ m. m.divisor ≡ pos 1)) }
{
    match refutation(alloc, by, given, told)? {
        Some(found) => {
            let least = fewer_tests(alloc, by, given, told, found)?;
            Ok(Some(least))
        }
        None => Ok(None),
    }
}

/// What proves the wanted rows without the row of a test, which goes out where they are proved.
fn reach_without(
    alloc: Global,
    by: By,
    given: &Many<Row>,
    told: &mut Many<Row>,
    updates: &Many<Form>,
    wanted: &Many<Row>,
    test: usize,
) -> Result<Option<Many<Multipliers>>, Memory>
    requires few { length given.now + length told.old < 2 ^ 32 }
    requires narrow { IsNarrow by }
    requires wanted { All (λ r. CanSubstitute r updates.now) wanted.now }
    requires test { test < length told.old }
    ensures size { length told.new ≡ length told.old }
    ensures records { IfOk result (λ o. IfSome o (All (IsRecord (length given.now + length told.old)))) }
{
    let row = copy_row(alloc, told.at(test))?;
    told.set(test, nothing(alloc));
    let found = reach(alloc, by, given, told, updates, wanted)?;
    if found.is_none() {
        told.set(test, row);
    }
    Ok(found)
}

/// The row of a test goes out where no multiplier names it; else what proves the wanted rows without it, where they are proved.
fn reach_unless(
    alloc: Global,
    by: By,
    given: &Many<Row>,
    told: &mut Many<Row>,
    updates: &Many<Form>,
    wanted: &Many<Row>,
    test: usize,
    named: bool,
) -> Result<Option<Many<Multipliers>>, Memory>
    requires few { length given.now + length told.old < 2 ^ 32 }
    requires narrow { IsNarrow by }
    requires wanted { All (λ r. CanSubstitute r updates.now) wanted.now }
    requires test { test < length told.old }
    ensures size { length told.new ≡ length told.old }
    ensures records { IfOk result (λ o. IfSome o (All (IsRecord (length given.now + length told.old)))) }
{
    if named {
        return reach_without(alloc, by, given, told, updates, wanted, test);
    }
    told.set(test, nothing(alloc));
    Ok(None)
}

/// What proves the wanted rows and names no test which it can do without, found in the same way.
fn fewer_reached(
    alloc: Global,
    by: By,
    given: &Many<Row>,
    told: &mut Many<Row>,
    updates: &Many<Form>,
    wanted: &Many<Row>,
    found: Many<Multipliers>,
) -> Result<Many<Multipliers>, Memory>
    requires few { length given.now + length told.old < 2 ^ 32 }
    requires narrow { IsNarrow by }
    requires wanted { All (λ r. CanSubstitute r updates.now) wanted.now }
    requires records { All (IsRecord (length given.now + length told.old)) found }
    ensures { IfOk result (All (IsRecord (length given.now + length told.old))) }
{
    let mut least = found;
    for test in 0..told.len() {
        let named = some_name(&least, given.len() + test);
        match reach_unless(alloc, by, given, told, updates, wanted, test, named)? {
            Some(fewer) => least = fewer,
            None => {}
        }
    }
    Ok(least)
}

/// The multipliers that prove each of the wanted rows after the updates, or none where one is not proved. No test is named without which they
/// are proved. Other rows of tests go out.
pub fn least_reach(
    alloc: Global,
    by: By,
    given: &Many<Row>,
    told: &mut Many<Row>,
    updates: &Many<Form>,
    wanted: &Many<Row>,
) -> Result<Option<Many<Multipliers>>, Memory>
    requires few { length given.now + length told.old < 2 ^ 32 }
    requires narrow { IsNarrow by }
    requires wanted { All (λ r. CanSubstitute r updates.now) wanted.now }
    ensures { IfOk result (λ o. IfSome o (All (IsRecord (length given.now + length told.old)))) }
{
    match reach(alloc, by, given, told, updates, wanted)? {
        Some(found) => {
            let least = fewer_reached(alloc, by, given, told, updates, wanted, found)?;
            Ok(Some(least))
        }
        None => Ok(None),
    }
}
