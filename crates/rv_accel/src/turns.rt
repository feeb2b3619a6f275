//! What the updates of a case do in one turn of a loop.

ghost use Rattle.std.specs.Prelude.{◌≡◌, ◌⊎◌, ◌≤◌, ◌^◌, ℕ, ℤ, pos, All, length, IfOk, MatchOption, MatchBool};
ghost use Rattle.rv_rows.specs.Forms.{number};
ghost use Rattle.rv_poly.specs.Images.{IsNarrow};
ghost use Rattle.rv_accel.specs.Turns.{IsOwn, IsReset, AreTurns, IsTurning, IsDirection};
ghost use Rattle.rv_accel.specs.Shown.{MentionsReset};

use rv_base::{Many, Memory};
use rv_proofs::Case;
use rv_rows::{Form, Row, number_at};
use std::alloc::Global;

/// The updates of a loop, and the direction in which they move a point.
#[derive(Clone, Copy)]
pub struct Course<'a> {
    /// What each memory becomes.
    pub updates: &'a Many<Form>,
    /// What a turn adds to each memory that is not reset, and 0 for the others.
    pub steps: &'a Many<i128>,
}

/// A row among the premises.
#[derive(Clone, Copy)]
pub struct Placed<'a> {
    /// The row.
    pub row: &'a Row,
    /// Its number.
    pub place: u32,
}

/// Whether all numbers but that of one column are 0.
fn is_alone(numbers: &Many<i128>, column: usize) -> bool
    ensures { MatchBool result ((j : ℕ) → (j ≡ column → ⊥) → number j numbers.now ≡ pos 0) (¬ ((j : ℕ) → (j ≡ column → ⊥) → number j numbers.now ≡ pos 0)) }
{
    for place in 0..numbers.len() {
        if place != column && *numbers.at(place) != 0 {
            return false;
        }
    }
    true
}

/// Whether the row has no coefficient from a column on.
fn is_narrow(row: &Row, width: usize) -> bool
    ensures { MatchBool result (IsNarrow width row.now) (¬ IsNarrow width row.now) }
{
    for column in 0..row.coefficients.len() {
        if column >= width && *row.coefficients.at(column) != 0 {
            return false;
        }
    }
    true
}

/// What the update adds to the memory with this number, 0 where it is a constant; `None` where it is neither.
fn step_of(form: &Form, column: usize) -> Option<i128>
    ensures { MatchOption result (¬ (IsOwn column form.now ⊎ IsReset form.now))
        (λ z. (IsOwn column form.now ⊎ IsReset form.now) × (IsOwn column form.now → z ≡ form.now.constant) × (IsReset form.now → z ≡ pos 0)) }
{
    if !is_alone(&form.coefficients, column) {
        return None;
    }
    match number_at(&form.coefficients, column) {
        0 => Some(0),
        1 => Some(form.constant),
        _ => None,
    }
}

/// The direction of the updates, `None` where one is neither its own memory plus a constant nor a constant.
fn steps_of(alloc: Global, updates: &Many<Form>) -> Result<Option<Many<i128>>, Memory>
    ensures { IfOk result (λ o. MatchOption o (¬ AreTurns updates.now) (λ t. AreTurns updates.now × IsDirection updates.now t)) }
{
    let mut steps = Many::new(alloc);
    for column in 0..updates.len() {
        let form = updates.at(column);
        match step_of(form, column) {
            Some(step) => steps.push(step)?,
            None => return Ok(None),
        }
    }
    Ok(Some(steps))
}

/// Whether no row has a coefficient from a column on.
fn are_narrow(rows: &Many<Row>, width: usize) -> bool
    ensures { MatchBool result (All (IsNarrow width) rows.now) (¬ All (IsNarrow width) rows.now) }
{
    for row in rows.as_slice() {
        if !is_narrow(row, width) {
            return false;
        }
    }
    true
}

/// The direction of the case's updates, `None` exactly where a row or an update has an integer input, or an update is neither its own memory
/// plus a constant nor a constant.
pub fn direction_of(alloc: Global, case: &Case) -> Result<Option<Many<i128>>, Memory>
    ensures { IfOk result (λ o. MatchOption o (¬ IsTurning case.now) (λ t. IsTurning case.now × IsDirection case.now.updates t)) }
{
    if !are_narrow(&case.rows, case.updates.len()) {
        return Ok(None);
    }
    steps_of(alloc, &case.updates)
}

/// Whether the row has a coefficient for a memory that is reset.
pub fn mentions_reset(updates: &Many<Form>, row: &Row) -> bool
    requires { AreTurns updates.now }
    ensures { MatchBool result (MentionsReset updates.now row.now) (¬ MentionsReset updates.now row.now) }
{
    for column in 0..updates.len() {
        let form = updates.at(column);
        if number_at(&form.coefficients, column) == 0 && number_at(&row.coefficients, column) != 0 {
            return true;
        }
    }
    false
}
