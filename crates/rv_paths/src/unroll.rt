//! The rows of all instants of a path, over the start values and the inputs of each instant: the columns are the integer memories as they
//! start, then the integer inputs of the first instant, of the second, and so on.

ghost use Rattle.std.specs.Prelude.{◌≡◌, ◌<◌, ◌^◌, All, length, IfOk, IfSome, OnOk};
ghost use Rattle.rv_paths.specs.Joining.{IsJoinedRow, AreJoined};

use crate::spans::{Span, count_free, is_end};
use crate::tree::{Node, Plan, Turn};
use rv_base::{Many, Memory};
use rv_proofs::Case;
use rv_rows::{Form, Row, number_at};
use std::alloc::Global;

/// How many rows may be joined.
const MOST_ROWS: usize = 4096;

/// Whether all numbers are 0.
fn are_zero(numbers: &Many<i128>) -> bool {
    for number in numbers.as_slice() {
        if *number != 0 {
            return false;
        }
    }
    true
}

/// So many zeros.
fn zeros(alloc: Global, count: usize) -> Result<Vec<i128>, Memory>
    ensures { IfOk result (λ numbers. length numbers.items ≡ count) }
{
    let mut numbers = Vec::new(alloc);
    for _column in 0..count {
        numbers.push(0)?;
    }
    Ok(numbers)
}

/// Adds `by` times the numbers to the sums, where all stay within their type. Whether they do.
fn add_multiple(sums: &mut [i128], by: i128, numbers: &Many<i128>) -> bool {
    for column in 0..sums.len() {
        let number = number_at(numbers, column);
        let Some(product) = by.checked_mul(number) else {
            return false;
        };
        let Some(sum) = sums[column].checked_add(product) else {
            return false;
        };
        sums[column] = sum;
    }
    true
}

/// Adds `by` at one column. Whether it is there and the sum within its type.
fn add_at(sums: &mut [i128], by: i128, column: usize) -> bool {
    if column >= sums.len() {
        return false;
    }
    match sums[column].checked_add(by) {
        Some(sum) => {
            sums[column] = sum;
            true
        }
        None => false,
    }
}

/// Adds `by` times a column of an instant to the sums: a memory by its form before the instant, an input at its own column, where those of
/// the instant begin at `start`. The constant with that of the form is answered, where all numbers stay within their type.
fn add_column(
    sums: &mut [i128],
    constant: i128,
    by: i128,
    before: &Many<Form>,
    column: usize,
    start: usize,
) -> Option<i128> {
    match before.get(column) {
        Some(form) => {
            if !add_multiple(sums, by, &form.coefficients) {
                return None;
            }
            constant.checked_add(by.checked_mul(form.constant)?)
        }
        None => {
            let input = column.saturating_sub(before.len());
            if !add_at(sums, by, start.saturating_add(input)) {
                return None;
            }
            Some(constant)
        }
    }
}

/// Does so where `by` is not 0.
fn add_some(
    sums: &mut [i128],
    constant: i128,
    by: i128,
    before: &Many<Form>,
    column: usize,
    start: usize,
) -> Option<i128> {
    if by == 0 {
        return Some(constant);
    }
    add_column(sums, constant, by, before, column, start)
}

/// A form of an instant over all columns, where its numbers stay within their type.
fn unrolled(
    alloc: Global,
    coefficients: &Many<i128>,
    constant: i128,
    before: &Many<Form>,
    start: usize,
    width: usize,
) -> Result<Option<Form>, Memory>
    ensures { IfOk result (λ o. IfSome o (λ f. length f.coefficients ≡ width)) }
{
    let mut sums = zeros(alloc, width)?;
    let mut total = constant;
    for column in 0..coefficients.len() {
        let by = *coefficients.at(column);
        let added = add_some(&mut sums, total, by, before, column, start);
        let Some(sum) = added else {
            return Ok(None);
        };
        total = sum;
    }
    Ok(Some(Form {
        coefficients: Many::from_vec(sums),
        constant: total,
    }))
}

/// The forms of the integer memories after an instant, where their numbers stay within their type.
fn forms_after(
    alloc: Global,
    updates: &Many<Form>,
    before: &Many<Form>,
    start: usize,
    width: usize,
) -> Result<Option<Many<Form>>, Memory> {
    let mut after = Many::new(alloc);
    for update in updates.as_slice() {
        let coefficients = &update.coefficients;
        let form = unrolled(alloc, coefficients, update.constant, before, start, width)?;
        let Some(form) = form else {
            return Ok(None);
        };
        after.push(form)?;
    }
    Ok(Some(after))
}

/// The form of a column.
fn column_form(alloc: Global, column: usize, width: usize) -> Result<Form, Memory> {
    let mut numbers = zeros(alloc, width)?;
    let _added = add_at(&mut numbers, 1, column);
    Ok(Form {
        coefficients: Many::from_vec(numbers),
        constant: 0,
    })
}

/// The forms of the integer memories as they start.
fn first_forms(alloc: Global, memories: usize, width: usize) -> Result<Many<Form>, Memory> {
    let mut forms = Many::new(alloc);
    for memory in 0..memories {
        let form = column_form(alloc, memory, width)?;
        forms.push(form)?;
    }
    Ok(forms)
}

/// The place of a row with these coefficients.
fn place_of(rows: &Many<Row>, coefficients: &Many<i128>) -> Option<usize>
    ensures { IfSome result (λ place. place < length rows.now) }
{
    for place in 0..rows.len() {
        if rows.at(place).coefficients == *coefficients {
            return Some(place);
        }
    }
    None
}

/// Puts a row in the place of one that it implies, where its bound is lower.
fn lower(rows: &mut Many<Row>, place: usize, row: Row, width: usize)
    requires place { place < length rows.old }
    requires row { IsJoinedRow width row }
    requires rows { All (IsJoinedRow width) rows.old }
    ensures { All (IsJoinedRow width) rows.new }
{
    if row.bound >= rows.at(place).bound {
        return;
    }
    rows.set(place, row);
}

/// Adds a row, or lowers the bound of the one with its coefficients.
fn add_row(rows: &mut Many<Row>, row: Row, width: usize) -> Result<(), Memory>
    requires row { IsJoinedRow width row }
    requires rows { All (IsJoinedRow width) rows.old }
    ensures { OnOk result (All (IsJoinedRow width) rows.new) }
{
    match place_of(rows, &row.coefficients) {
        Some(place) => {
            lower(rows, place, row, width);
            Ok(())
        }
        None => {
            rows.push(row)?;
            Ok(())
        }
    }
}

/// Adds a row, tightened, unless it holds everywhere. Whether it is within the limits of kept rows and may hold.
fn keep(rows: &mut Many<Row>, row: Row, width: usize) -> Result<bool, Memory>
    requires row { length row.coefficients ≡ width }
    requires rows { All (IsJoinedRow width) rows.old }
    ensures { OnOk result (All (IsJoinedRow width) rows.new) }
{
    let mut tight = row;
    tight.tighten();
    if !tight.fits() {
        return Ok(false);
    }
    if are_zero(&tight.coefficients) {
        return Ok(tight.bound >= 0);
    }
    add_row(rows, tight, width)?;
    Ok(true)
}

/// Adds a row of an instant over all columns. Whether its numbers are within the limits and it may hold.
fn join_row(
    alloc: Global,
    rows: &mut Many<Row>,
    row: &Row,
    before: &Many<Form>,
    start: usize,
    width: usize,
) -> Result<bool, Memory>
    requires { All (IsJoinedRow width) rows.old }
    ensures { OnOk result (All (IsJoinedRow width) rows.new) }
{
    let form = unrolled(alloc, &row.coefficients, 0, before, start, width)?;
    let Some(form) = form else {
        return Ok(false);
    };
    let Some(bound) = row.bound.checked_sub(form.constant) else {
        return Ok(false);
    };
    keep(
        rows,
        Row {
            coefficients: form.coefficients,
            bound,
        },
        width,
    )
}

/// Adds all rows of an instant.
fn join_rows(
    alloc: Global,
    rows: &mut Many<Row>,
    from: &Many<Row>,
    before: &Many<Form>,
    start: usize,
    width: usize,
) -> Result<bool, Memory>
    requires { All (IsJoinedRow width) rows.old }
    ensures { OnOk result (All (IsJoinedRow width) rows.new) }
{
    for row in from.as_slice() {
        if !join_row(alloc, rows, row, before, start, width)? {
            return Ok(false);
        }
    }
    Ok(true)
}

/// Adds the rows of an instant at a case. What is answered are the forms of the memories after it, where all numbers are within the limits
/// and each row may hold.
fn join_case(
    alloc: Global,
    rows: &mut Many<Row>,
    case: &Case,
    before: &Many<Form>,
    start: usize,
    width: usize,
) -> Result<Option<Many<Form>>, Memory>
    requires { All (IsJoinedRow width) rows.old }
    ensures { OnOk result (All (IsJoinedRow width) rows.new) }
{
    if !join_rows(alloc, rows, &case.rows, before, start, width)? {
        return Ok(None);
    }
    forms_after(alloc, &case.updates, before, start, width)
}

/// How many columns there are before the inputs of an instant, where there are so many before those of the first one.
fn columns_before(columns: usize, inputs: usize, instant: usize) -> usize {
    columns.saturating_add(inputs.saturating_mul(instant))
}

/// How many columns a path has.
pub fn columns_of(plan: &Plan, turns: &Many<Turn>) -> usize {
    columns_before(plan.memories, plan.inputs, turns.len())
}

/// The rows of the last instants of a path, and the forms of the integer memories behind them.
#[derive(Debug, Drop)]
pub struct Joined {
    /// The rows.
    pub rows: Many<Row>,
    /// The forms, of as many columns as the rows.
    pub forms: Many<Form>,
}

/// Rows, and those of the instants of a path from one on, where their numbers are within the limits and each may hold. The memories have
/// the given forms before, and there are so many columns before the inputs of that instant.
fn joined_from(
    alloc: Global,
    plan: &Plan,
    turns: &Many<Turn>,
    from: usize,
    columns: usize,
    width: usize,
    before: Many<Form>,
    given: Many<Row>,
) -> Result<Option<Joined>, Memory>
    requires { All (IsJoinedRow width) given }
    ensures rows { IfOk result (λ o. IfSome o (λ j. AreJoined j.rows)) }
    ensures few { IfOk result (λ o. IfSome o (λ j. length j.rows < 2 ^ 32)) }
{
    let mut rows = given;
    let mut forms = before;
    for instant in from..turns.len() {
        let turn = *turns.at(instant);
        let Some(case) = plan.cases_from(turn.node).get(turn.case) else {
            return Ok(None);
        };
        let start = columns_before(columns, plan.inputs, instant.saturating_sub(from));
        let after = join_case(alloc, &mut rows, case, &forms, start, width)?;
        let Some(after) = after else {
            return Ok(None);
        };
        forms = after;
    }
    if rows.len() > MOST_ROWS {
        return Ok(None);
    }
    Ok(Some(Joined { rows, forms }))
}

/// The rows of all instants of a path, over the columns of all its instants.
pub fn all_joined(alloc: Global, plan: &Plan, turns: &Many<Turn>) -> Result<Option<Joined>, Memory>
    ensures rows { IfOk result (λ o. IfSome o (λ j. AreJoined j.rows)) }
    ensures few { IfOk result (λ o. IfSome o (λ j. length j.rows < 2 ^ 32)) }
{
    let width = columns_of(plan, turns);
    let forms = first_forms(alloc, plan.memories, width)?;
    let nothing = Many::new(alloc);
    joined_from(alloc, plan, turns, 0, plan.memories, width, forms, nothing)
}

/// Whether at most one integer memory may have more than one number at the node.
fn is_known(nodes: &Many<Node>, place: usize) -> bool {
    match nodes.get(place) {
        Some(node) => count_free(&node.spans) <= 1,
        None => false,
    }
}

/// How many steps of a path there are up to the last node at which at most one integer memory may have more than one number.
fn steps_known(nodes: &Many<Node>, turns: &Many<Turn>) -> usize {
    let mut known = 0;
    for step in 0..turns.len() {
        if is_known(nodes, turns.at(step).node) {
            known = step;
        }
    }
    known
}

/// The form of an integer memory with this span: its number, or the first column.
fn form_within(alloc: Global, span: Span, width: usize) -> Result<Form, Memory> {
    if span.low != span.high {
        return column_form(alloc, 0, width);
    }
    let numbers = zeros(alloc, width)?;
    Ok(Form {
        coefficients: Many::from_vec(numbers),
        constant: span.low,
    })
}

/// The forms of integer memories with these spans.
fn forms_within(alloc: Global, spans: &Many<Span>, width: usize) -> Result<Many<Form>, Memory> {
    let mut forms = Many::new(alloc);
    for span in spans.as_slice() {
        let form = form_within(alloc, *span, width)?;
        forms.push(form)?;
    }
    Ok(forms)
}

/// Adds the row that `by` times the first column is at most the bound, unless that stands for none.
fn add_bound(
    alloc: Global,
    rows: &mut Many<Row>,
    by: i128,
    bound: i128,
    width: usize,
) -> Result<(), Memory>
    requires { All (IsJoinedRow width) rows.old }
    ensures { OnOk result (All (IsJoinedRow width) rows.new) }
{
    if !is_end(bound) {
        return Ok(());
    }
    let mut numbers = zeros(alloc, width)?;
    let _added = add_at(&mut numbers, by, 0);
    let row = Row {
        coefficients: Many::from_vec(numbers),
        bound,
    };
    let _kept = keep(rows, row, width)?;
    Ok(())
}

/// Adds the rows of both ends of a span, where it has more than one number.
fn add_bounds(alloc: Global, rows: &mut Many<Row>, span: Span, width: usize) -> Result<(), Memory>
    requires { All (IsJoinedRow width) rows.old }
    ensures { OnOk result (All (IsJoinedRow width) rows.new) }
{
    if span.low == span.high {
        return Ok(());
    }
    let zero: i128 = 0;
    add_bound(alloc, rows, 1, span.high, width)?;
    add_bound(alloc, rows, -1, zero.saturating_sub(span.low), width)
}

/// The rows of the first column where it is the one memory whose span has more than one number.
fn rows_within(alloc: Global, spans: &Many<Span>, width: usize) -> Result<Many<Row>, Memory>
    ensures { IfOk result (All (IsJoinedRow width)) }
{
    let mut rows = Many::new(alloc);
    for span in spans.as_slice() {
        add_bounds(alloc, &mut rows, *span, width)?;
    }
    Ok(rows)
}

/// The rows of the instants of a path from the last node on at which at most one integer memory may have more than one number: what was
/// before is no more than its span.
pub fn last_joined(
    alloc: Global,
    plan: &Plan,
    nodes: &Many<Node>,
    turns: &Many<Turn>,
) -> Result<Option<Joined>, Memory>
    ensures rows { IfOk result (λ o. IfSome o (λ j. AreJoined j.rows)) }
    ensures few { IfOk result (λ o. IfSome o (λ j. length j.rows < 2 ^ 32)) }
{
    let step = steps_known(nodes, turns);
    if step == 0 {
        return all_joined(alloc, plan, turns);
    }
    let Some(turn) = turns.get(step) else {
        return Ok(None);
    };
    let Some(node) = nodes.get(turn.node) else {
        return Ok(None);
    };
    let width = columns_before(1, plan.inputs, turns.len().saturating_sub(step));
    let forms = forms_within(alloc, &node.spans, width)?;
    let rows = rows_within(alloc, &node.spans, width)?;
    joined_from(alloc, plan, turns, step, 1, width, forms, rows)
}
