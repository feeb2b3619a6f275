//! How far a left side comes in any number of turns of a loop.
//!
//! Where each turn adds a number to a left side, its value after k turns is linear in the memories before the first turn and in k. The given rows hold
//! before the first turn, and the rows of the tests before the first and before the last one. What the search finds promises nothing, as limits are
//! only raised by it.

ghost use Rattle.std.specs.Prelude.{◌≡◌, ◌<◌, ◌≤◌, ◌^◌, true, ℕ, All, length, IfOk, IfSome, OnOk};
ghost use Rattle.std.specs.Int.RustNames.{unsigned_abs};
ghost use Rattle.rv_rows.specs.Rows.{RowWithin};
ghost use Rattle.rv_proofs.specs.Systems.{System, IsSystem};
ghost use Rattle.rv_cases.specs.Questions.{AreQuestions};

use crate::directions::is_small;
use crate::gains::{Gain, gain_of, growth_of, takes_input};
use rv_base::{Many, Memory};
use rv_cases::Questions;
use rv_cover::{told_forms, told_rows};
use rv_diagram::Store;
use rv_rows::{Form, Row, number_at};
use rv_seek::Search;
use std::alloc::Global;

/// The greatest magnitude of a number of a row, 2^41.
const GREATEST: i128 = 2_199_023_255_552;

/// No list of rows is as long.
const MANY: usize = 4_294_967_296;

/// How far a left side comes.
#[derive(Clone, Copy, Debug)]
pub enum Reach {
    /// That is not known.
    Unknown,
    /// At most to this number.
    Bound(i128),
    /// Past all numbers.
    Endless,
}

/// Whether the magnitude of a number is at most 2^41.
fn is_within(number: i128) -> bool
    ensures { result ≡ true → unsigned_abs number ≤ 2 ^ 60 }
{
    number <= GREATEST && number >= -GREATEST
}

/// What a turn adds to each memory.
fn turn_of(alloc: Global, updates: &Many<Form>) -> Result<Many<Gain>, Memory> {
    let nothing = Many::new(alloc);
    let mut gains = Many::new(alloc);
    for memory in 0..updates.len() {
        gains.push(gain_of(updates.at(memory), memory, updates.len(), &nothing))?;
    }
    Ok(gains)
}

/// The row with one column more, the number of turns, at which it has this number, or none where a number is great.
fn extended(
    alloc: Global,
    row: &Row,
    width: usize,
    growth: i128,
    bound: i128,
) -> Result<Option<Row>, Memory>
    requires growth { unsigned_abs growth ≤ 2 ^ 20 }
    ensures { IfOk result (λ o. IfSome o (RowWithin (2 ^ 60))) }
{
    if !is_within(bound) {
        return Ok(None);
    }
    let mut coefficients = Many::new(alloc);
    for column in 0..width {
        let number = number_at(&row.coefficients, column);
        if !is_within(number) {
            return Ok(None);
        }
        coefficients.push(number)?;
    }
    coefficients.push(growth)?;
    Ok(Some(Row {
        coefficients,
        bound,
    }))
}

/// Adds a row where there is one.
fn add_some(rows: &mut Many<Row>, row: Option<Row>) -> Result<(), Memory>
    requires rows { All (RowWithin (2 ^ 60)) rows.old }
    requires row { IfSome row (RowWithin (2 ^ 60)) }
    ensures { OnOk result (All (RowWithin (2 ^ 60)) rows.new) }
{
    match row {
        Some(row) => {
            rows.push(row)?;
            Ok(())
        }
        None => Ok(()),
    }
}

/// Adds rows that hold before the first turn.
fn add_first(
    alloc: Global,
    rows: &mut Many<Row>,
    more: &Many<Row>,
    width: usize,
) -> Result<(), Memory>
    requires { All (RowWithin (2 ^ 60)) rows.old }
    ensures { OnOk result (All (RowWithin (2 ^ 60)) rows.new) }
{
    for place in 0..more.len() {
        let row = more.at(place);
        let first = extended(alloc, row, width, 0, row.bound)?;
        add_some(rows, first)?;
    }
    Ok(())
}

/// The row before the last turn, over the memories before the first one and the number of turns, or none where a turn does not raise its left side by
/// a number, or a number is great.
fn before_last(
    alloc: Global,
    row: &Row,
    memories: usize,
    width: usize,
    gains: &Many<Gain>,
) -> Result<Option<Row>, Memory>
    ensures { IfOk result (λ o. IfSome o (RowWithin (2 ^ 60))) }
{
    if takes_input(&row.coefficients, memories) || !is_within(row.bound) {
        return Ok(None);
    }
    match growth_of(row, gains) {
        Some(growth) => {
            if growth > 0 {
                return extended(alloc, row, width, growth, row.bound + growth);
            }
            Ok(None)
        }
        None => Ok(None),
    }
}

/// Adds rows that hold before the last turn.
fn add_before_last(
    alloc: Global,
    rows: &mut Many<Row>,
    told: &Many<Row>,
    memories: usize,
    width: usize,
    gains: &Many<Gain>,
) -> Result<(), Memory>
    requires { All (RowWithin (2 ^ 60)) rows.old }
    ensures { OnOk result (All (RowWithin (2 ^ 60)) rows.new) }
{
    for place in 0..told.len() {
        let last = before_last(alloc, told.at(place), memories, width, gains)?;
        add_some(rows, last)?;
    }
    Ok(())
}

/// Adds that there is at least one turn.
fn add_turn(alloc: Global, rows: &mut Many<Row>, width: usize) -> Result<(), Memory>
    requires { All (RowWithin (2 ^ 60)) rows.old }
    ensures { OnOk result (All (RowWithin (2 ^ 60)) rows.new) }
{
    let nothing = Row {
        coefficients: Many::new(alloc),
        bound: 0,
    };
    let some = extended(alloc, &nothing, width, -1, -1)?;
    add_some(rows, some)
}

/// The greatest value that the rows show of a left side with a column more, which grows in each turn; `ended` tells whether some row bounds the
/// number of turns.
fn furthest(
    alloc: Global,
    rows: &Many<Row>,
    after: Option<Row>,
    ended: bool,
) -> Result<Reach, Memory>
    requires rows { All (RowWithin (2 ^ 60)) rows.now }
    requires after { IfSome after (RowWithin (2 ^ 60)) }
{
    let Some(after) = after else {
        return Ok(Reach::Unknown);
    };
    if !ended {
        return Ok(Reach::Endless);
    }
    if rows.len() >= MANY {
        return Ok(Reach::Unknown);
    }
    let Row { coefficients, .. } = after;
    let form = Form {
        coefficients,
        constant: 0,
    };
    let search = Search::new(alloc, rows)?;
    match search.bound(alloc, &form)? {
        Some(found) => Ok(Reach::Bound(found.bound)),
        None => Ok(Reach::Unknown),
    }
}

/// How far a left side comes in any number of turns with these updates, which begin and end with these rows.
fn reach_by(
    alloc: Global,
    given: &Many<Row>,
    told: &Many<Row>,
    updates: &Many<Form>,
    side: &Row,
    width: usize,
) -> Result<Reach, Memory> {
    let memories = updates.len();
    let gains = turn_of(alloc, updates)?;
    let Some(growth) = growth_of(side, &gains) else {
        return Ok(Reach::Unknown);
    };
    if growth <= 0 {
        return Ok(Reach::Unknown);
    }
    let mut rows = Many::new(alloc);
    add_first(alloc, &mut rows, given, width)?;
    add_first(alloc, &mut rows, told, width)?;
    add_turn(alloc, &mut rows, width)?;
    let begun = rows.len();
    add_before_last(alloc, &mut rows, told, memories, width, &gains)?;
    let ended = rows.len() > begun;
    let after = extended(alloc, side, width, growth, 0)?;
    furthest(alloc, &rows, after, ended)
}

/// How far a left side comes in any number of turns like the step of a valuation, which has a truth value for each variable, where the given rows hold
/// before the first one; forms have so many columns. The only error is want of memory.
pub fn reach_at(
    alloc: Global,
    store: &Store,
    sample: &Many<bool>,
    questions: &Questions,
    given: &Many<Row>,
    side: &Row,
    columns: usize,
) -> Result<Reach, Memory>
    requires asked { (s : System) × IsSystem s × AreQuestions s store.now questions.now }
    requires sized { length sample.now ≡ store.now.variables }
{
    let told = told_rows(alloc, store, sample, questions)?;
    let updates = told_forms(alloc, store, sample, questions)?;
    reach_by(alloc, given, &told, &updates, side, columns)
}
