//! What pairs of the premises of a valuation refute, and prove after its updates. Where no pair does, the simplex is asked, for all wanted rows
//! from one corner.

ghost use Rattle.std.specs.Prelude.{◌≡◌, ◌<◌, ◌≤◌, ◌+◌, ◌^◌, pos, IsTrue, All, IfOk, OnOk, IfSome, length};
ghost use Rattle.rv_rows.specs.Rows.{RowWithin};
ghost use Rattle.rv_rows.specs.Forms.{CanSubstitute, FormWithin};
ghost use Rattle.rv_proofs.specs.Ranges.{IsRecord};

use crate::copies::{copy_row, copy_rows};
use rv_base::{Many, Memory};
use rv_rows::{Form, Multipliers, Row, number_at};
use rv_seek::{Best, Bounded, Premises, Search, pair_multipliers, seek_refutation};
use std::alloc::Global;

/// The greatest magnitude of a premise's number, 2^60.
const LARGEST: u128 = 1_152_921_504_606_846_976;

/// The bound of a row that shows nothing, 2^60.
const WEAKEST: i128 = 1_152_921_504_606_846_976;

/// The greatest magnitude of a wanted row's number, 2^78.
const MOST_WANTED: u128 = 302_231_454_903_657_293_676_544;

/// Whether no number of the row has a greater magnitude.
fn is_within(row: &Row, most: u128) -> bool
    ensures { IsTrue result → RowWithin most row.now }
{
    if row.bound.unsigned_abs() > most {
        return false;
    }
    for place in 0..row.coefficients.len() {
        if row.coefficients.at(place).unsigned_abs() > most {
            return false;
        }
    }
    true
}

/// Whether the numbers of each of the rows are those of a premise.
pub fn are_within(rows: &Many<Row>) -> bool
    ensures { IsTrue result → All (RowWithin (2 ^ 60)) rows.now }
{
    for place in 0..rows.len() {
        if !is_within(rows.at(place), LARGEST) {
            return false;
        }
    }
    true
}

/// Whether all coefficients of the row are 0 and its bound is not negative, so that it holds everywhere.
fn is_void(row: &Row) -> bool {
    if row.bound < 0 {
        return false;
    }
    for column in 0..row.coefficients.len() {
        if number_at(&row.coefficients, column) != 0 {
            return false;
        }
    }
    true
}

/// The row `0 <= 2^60`: what it shows together with a premise, the premise alone shows with a lesser bound, so it is never named.
fn weak_row(alloc: Global) -> Row {
    Row {
        coefficients: Many::new(alloc),
        bound: WEAKEST,
    }
}

/// The same row, or the weak one where it holds everywhere, as that of a test that is absent.
fn useful_row(alloc: Global, row: &Row) -> Result<Row, Memory> {
    if is_void(row) {
        return Ok(weak_row(alloc));
    }
    copy_row(alloc, row)
}

/// Adds rows.
fn add_rows(alloc: Global, rows: &mut Many<Row>, more: &Many<Row>) -> Result<(), Memory>
    ensures { OnOk result (length rows.new ≡ length rows.old + length more.now) }
{
    for place in 0..more.len() {
        let row = useful_row(alloc, more.at(place))?;
        rows.push(row)?;
    }
    Ok(())
}

/// Weak rows, so many of them.
fn weak_rows(alloc: Global, many: usize) -> Result<Many<Row>, Memory>
    ensures { IfOk result (λ rows. length rows ≡ many) }
{
    let mut rows = Many::new(alloc);
    for _place in 0..many {
        let row = weak_row(alloc);
        rows.push(row)?;
    }
    Ok(rows)
}

/// The premises of a valuation: the given rows, and then those that the tests say there, of which one that holds everywhere is replaced by
/// `0 <= 2^60`, which no proof names. The only error is want of memory.
pub fn premises_of(alloc: Global, given: &Many<Row>, told: &Many<Row>) -> Result<Many<Row>, Memory>
    ensures { IfOk result (λ rows. length rows ≡ length given.now + length told.now) }
{
    let mut rows = copy_rows(alloc, given)?;
    add_rows(alloc, &mut rows, told)?;
    Ok(rows)
}

/// The rows of the tests, behind as many weak ones as there are given rows.
fn tests_of(alloc: Global, first: usize, told: &Many<Row>) -> Result<Many<Row>, Memory>
    ensures { IfOk result (λ rows. length rows ≡ first + length told.now) }
{
    let mut rows = weak_rows(alloc, first)?;
    add_rows(alloc, &mut rows, told)?;
    Ok(rows)
}

/// The pair of rows that refutes them, or none.
fn shut_by_pair(alloc: Global, rows: &Many<Row>) -> Result<Option<Multipliers>, Memory>
    requires few { length rows.now < 2 ^ 32 }
    ensures record { IfOk result (λ o. IfSome o (IsRecord (length rows.now))) }
    ensures one { IfOk result (λ o. IfSome o (λ m. m.divisor ≡ pos 1)) }
{
    if !are_within(rows) {
        return Ok(None);
    }
    let premises = Premises::new(alloc, rows)?;
    match premises.shut(alloc)? {
        Some(pair) => {
            let by = pair_multipliers(alloc, rows, pair.first, pair.second)?;
            Ok(Some(by))
        }
        None => Ok(None),
    }
}

/// What refutes the rows, or none where nothing is found.
fn shut_by_any(alloc: Global, rows: &Many<Row>) -> Result<Option<Multipliers>, Memory>
    requires few { length rows.now < 2 ^ 32 }
    ensures record { IfOk result (λ o. IfSome o (IsRecord (length rows.now))) }
    ensures one { IfOk result (λ o. IfSome o (λ m. m.divisor ≡ pos 1)) }
{
    if !are_within(rows) {
        return Ok(None);
    }
    seek_refutation(alloc, rows)
}

/// What refutes the given rows and those of the tests, or none where nothing is found. A pair of tests comes first, so that no given row is
/// needed where these refute.
pub fn refuted_by_rows(
    alloc: Global,
    given: &Many<Row>,
    told: &Many<Row>,
) -> Result<Option<Multipliers>, Memory>
    requires few { length given.now + length told.now < 2 ^ 32 }
    ensures record { IfOk result (λ o. IfSome o (IsRecord (length given.now + length told.now))) }
    ensures one { IfOk result (λ o. IfSome o (λ m. m.divisor ≡ pos 1)) }
{
    let tests = tests_of(alloc, given.len(), told)?;
    match shut_by_pair(alloc, &tests)? {
        Some(by) => Ok(Some(by)),
        None => {
            let rows = premises_of(alloc, given, told)?;
            shut_by_any(alloc, &rows)
        }
    }
}

/// The multipliers of a pair whose bounds sum to at most the bound, or none.
fn pair_within(
    alloc: Global,
    rows: &Many<Row>,
    pair: Option<Best>,
    bound: i128,
) -> Result<Option<Multipliers>, Memory>
    requires few { length rows.now < 2 ^ 32 }
    requires pair { IfSome pair (λ b. b.first < b.second) }
    ensures { IfOk result (λ o. IfSome o (IsRecord (length rows.now))) }
{
    match pair {
        Some(best) => {
            if best.bound > bound {
                return Ok(None);
            }
            let by = pair_multipliers(alloc, rows, best.first, best.second)?;
            Ok(Some(by))
        }
        None => Ok(None),
    }
}

/// The multipliers that show the row at once by rows of which one is alone or a given one, or none.
fn pair_of(
    alloc: Global,
    rows: &Many<Row>,
    premises: &Premises,
    first: usize,
    wanted: &Row,
) -> Result<Option<Multipliers>, Memory>
    requires few { length rows.now < 2 ^ 32 }
    requires wanted { RowWithin (2 ^ 78) wanted.now }
    ensures { IfOk result (λ o. IfSome o (IsRecord (length rows.now))) }
{
    let single = premises.alone(alloc, &wanted.coefficients)?;
    match pair_within(alloc, rows, single, wanted.bound)? {
        Some(by) => Ok(Some(by)),
        None => {
            let pair = premises.least_among(alloc, &wanted.coefficients, first)?;
            pair_within(alloc, rows, pair, wanted.bound)
        }
    }
}

/// The multipliers of a pair that prove a row, or none. Of the pairs the one is taken that names the fewest tests: first a pair of the given
/// rows is tried, then a test alone, or with a given row, then two tests.
fn pair_for(
    alloc: Global,
    given: &Many<Row>,
    own: &Premises,
    rows: &Many<Row>,
    premises: &Premises,
    row: &Row,
) -> Result<Option<Multipliers>, Memory>
    requires first { length given.now ≤ length rows.now }
    requires few { length rows.now < 2 ^ 32 }
    requires row { RowWithin (2 ^ 78) row.now }
    ensures { IfOk result (λ o. IfSome o (IsRecord (length rows.now))) }
{
    let least = own.least(alloc, &row.coefficients)?;
    if let Some(by) = pair_within(alloc, given, least, row.bound)? {
        return Ok(Some(by));
    }
    pair_of(alloc, rows, premises, given.len(), row)
}

/// The multipliers of a pair that prove a row after the updates, or none.
fn reach_row(
    alloc: Global,
    given: &Many<Row>,
    own: &Premises,
    rows: &Many<Row>,
    premises: &Premises,
    updates: &Many<Form>,
    wanted: &Row,
) -> Result<Option<Multipliers>, Memory>
    requires first { length given.now ≤ length rows.now }
    requires few { length rows.now < 2 ^ 32 }
    requires wanted { CanSubstitute wanted.now updates.now }
    ensures { IfOk result (λ o. IfSome o (IsRecord (length rows.now))) }
{
    let row = wanted.substitute(alloc, updates)?;
    if !is_within(&row, MOST_WANTED) {
        return Ok(None);
    }
    pair_for(alloc, given, own, rows, premises, &row)
}

/// The form that is the row's left side.
fn left_side(row: Row) -> Form
    requires { RowWithin (2 ^ 78) row }
    ensures { FormWithin (2 ^ 78) result }
{
    let Row { coefficients, .. } = row;
    Form {
        coefficients,
        constant: 0,
    }
}

/// The multipliers that the simplex finds for a row, or none.
fn found_by(alloc: Global, search: &Search, row: Row) -> Result<Option<Multipliers>, Memory>
    requires { RowWithin (2 ^ 78) row }
    ensures { IfOk result (λ o. IfSome o (IsRecord (length search.now))) }
{
    let most = row.bound;
    let side = left_side(row);
    match search.bound(alloc, &side)? {
        Some(found) => {
            let Bounded { bound, by } = found;
            if bound > most {
                return Ok(None);
            }
            Ok(Some(by))
        }
        None => Ok(None),
    }
}

/// The multipliers that prove a row after the updates, of a pair or as the simplex finds them, or none.
fn reach_searched(
    alloc: Global,
    given: &Many<Row>,
    own: &Premises,
    rows: &Many<Row>,
    premises: &Premises,
    search: &Search,
    updates: &Many<Form>,
    wanted: &Row,
) -> Result<Option<Multipliers>, Memory>
    requires same { search.now ≡ rows.now }
    requires first { length given.now ≤ length rows.now }
    requires few { length rows.now < 2 ^ 32 }
    requires wanted { CanSubstitute wanted.now updates.now }
    ensures { IfOk result (λ o. IfSome o (IsRecord (length rows.now))) }
{
    let row = wanted.substitute(alloc, updates)?;
    if !is_within(&row, MOST_WANTED) {
        return Ok(None);
    }
    match pair_for(alloc, given, own, rows, premises, &row)? {
        Some(by) => Ok(Some(by)),
        None => found_by(alloc, search, row),
    }
}

/// The multipliers that prove each row after the updates, of pairs or as the simplex finds them, or none where one is not proved.
fn reach_all(
    alloc: Global,
    given: &Many<Row>,
    own: &Premises,
    rows: &Many<Row>,
    premises: &Premises,
    updates: &Many<Form>,
    wanted: &Many<Row>,
) -> Result<Option<Many<Multipliers>>, Memory>
    requires within { All (RowWithin (2 ^ 60)) rows.now }
    requires first { length given.now ≤ length rows.now }
    requires few { length rows.now < 2 ^ 32 }
    requires wanted { All (λ r. CanSubstitute r updates.now) wanted.now }
    ensures { IfOk result (λ o. IfSome o (All (IsRecord (length rows.now)))) }
{
    let search = Search::new(alloc, rows)?;
    let mut reach = Many::new(alloc);
    for place in 0..wanted.len() {
        let row = wanted.at(place);
        match reach_searched(alloc, given, own, rows, premises, &search, updates, row)? {
            Some(by) => reach.push(by)?,
            None => return Ok(None),
        }
    }
    Ok(Some(reach))
}

/// The multipliers that prove each row after the updates, or none where one is not proved. The simplex is asked only where pairs do not do.
fn reach_rows(
    alloc: Global,
    given: &Many<Row>,
    own: &Premises,
    rows: &Many<Row>,
    premises: &Premises,
    updates: &Many<Form>,
    wanted: &Many<Row>,
) -> Result<Option<Many<Multipliers>>, Memory>
    requires within { All (RowWithin (2 ^ 60)) rows.now }
    requires first { length given.now ≤ length rows.now }
    requires few { length rows.now < 2 ^ 32 }
    requires wanted { All (λ r. CanSubstitute r updates.now) wanted.now }
    ensures { IfOk result (λ o. IfSome o (All (IsRecord (length rows.now)))) }
{
    let mut reach = Many::new(alloc);
    for place in 0..wanted.len() {
        let row = wanted.at(place);
        match reach_row(alloc, given, own, rows, premises, updates, row)? {
            Some(by) => reach.push(by)?,
            None => {
                return reach_all(alloc, given, own, rows, premises, updates, wanted);
            }
        }
    }
    Ok(Some(reach))
}

/// The multipliers that prove each of the wanted rows after the updates, by given rows alone where these do, and else by the rows of the tests
/// too. None where one is not proved.
pub fn reach_by_rows(
    alloc: Global,
    given: &Many<Row>,
    told: &Many<Row>,
    updates: &Many<Form>,
    wanted: &Many<Row>,
) -> Result<Option<Many<Multipliers>>, Memory>
    requires few { length given.now + length told.now < 2 ^ 32 }
    requires wanted { All (λ r. CanSubstitute r updates.now) wanted.now }
    ensures { IfOk result (λ o. IfSome o (All (IsRecord (length given.now + length told.now)))) }
{
    if !are_within(given) {
        return Ok(None);
    }
    let rows = premises_of(alloc, given, told)?;
    if !are_within(&rows) {
        return Ok(None);
    }
    let own = Premises::new(alloc, given)?;
    let premises = Premises::new(alloc, &rows)?;
    reach_rows(alloc, given, &own, &rows, &premises, updates, wanted)
}
