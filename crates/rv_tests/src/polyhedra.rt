//! What is answered on polyhedra and on abstract values. A row that cannot be read, or whose rows and forms are not such as the call takes, has
//! no answer.

ghost use Rattle.std.specs.Prelude.{◌≡◌, ℕ, ◌++◌, All, IfOk, IfSome, IsTrue, length};
ghost use Rattle.rv_rows.specs.Forms.{forms_width};
ghost use Rattle.rv_diagram.specs.Nodes.{IsOrderedOver};
ghost use Rattle.rv_poly.specs.Polys.{HaveOneWidth, IsPoly, rows_width};

use crate::limits::{MOST_WANTED, are_forms_within, are_kept, have_width};
use crate::linear::width_of;
use crate::numbers::{forms_in, numbers_in, rows_in};
use rv_base::{Many, Memory};
use rv_diagram::{Frozen, Store, StoreFault};
use rv_poly::{Poly, included};
use rv_proofs::Case;
use rv_rows::{Form, Row};
use rv_state::Abstract;
use std::alloc::Global;

/// The most rows of a polyhedron.
pub const MOST_ROWS: usize = 1024;

/// How many variables the control sets are over.
const VARIABLES: u32 = 2;

/// How many nodes their diagrams may have.
const NODES: u32 = 64;

/// The answer on a row of one of these kinds, where of each point is told whether all rows of what is found hold there:
/// `meet`: rows and others, and points of their meet;
/// `join`: rows and others, and points of their join;
/// `after`: rows, rows of a case, a form for each column, and points of what the forms make of the rows;
/// `before`: rows, rows of a case, a form for each column, and points that the forms make points of the rows;
/// `eliminate`: rows and a column, how many rows are dropped without it, and points of those that are left;
/// `included`: rows and others, and whether a proof of each of the others is found;
/// `whole_point`: rows, and whether the point that is found meets them;
/// `post` and `pre`: as `after` and `before`, by an abstract value that has all control states;
/// `includes`: a control set and rows, another and its rows, and whether the first are found to include the second;
/// `both`: the same, and points of the join of the two values.
pub fn polyhedral(alloc: Global, kind: &str, fields: &str) -> Result<Option<String>, Memory> {
    match kind {
        "meet" => met(alloc, fields),
        "join" => joined(alloc, fields),
        "after" => updated(alloc, fields),
        "before" => led_back(alloc, fields),
        "eliminate" => projected(alloc, fields),
        "included" => told_included(alloc, fields),
        "whole_point" => pointed(alloc, fields),
        "post" => posted(alloc, fields),
        "pre" => preceded(alloc, fields),
        "includes" => told_includes(alloc, fields),
        "both" => joined_values(alloc, fields),
        _ => Ok(None),
    }
}

/// Three fields with `~` between them.
pub fn three(fields: &str) -> Option<(&str, &str, &str)> {
    let (one, rest) = fields.split_once('~')?;
    let (two, three) = rest.split_once('~')?;
    Some((one, two, three))
}

/// Whether the row holds at the point, which is 0 at each column that it does not name.
fn holds_at(row: &Row, point: &[i128]) -> bool {
    let mut sum: i128 = 0;
    for (coefficient, number) in row.coefficients.as_slice().iter().zip(point) {
        sum = sum.saturating_add(coefficient.saturating_mul(*number));
    }
    sum <= row.bound
}

/// Whether all rows hold at the point.
fn hold_at(rows: &[Row], point: &[i128]) -> bool {
    for row in rows {
        if !holds_at(row, point) {
            return false;
        }
    }
    true
}

/// Whether all rows hold, for each point in turn. Points have semicolons between them.
pub fn told_at(alloc: Global, rows: &Many<Row>, points: &str) -> Result<Option<String>, Memory> {
    let mut text = String::new(alloc);
    for part in points.split(';') {
        let Some(point) = numbers_in(alloc, part)? else {
            return Ok(None);
        };
        let holds = hold_at(rows.as_slice(), point.as_slice());
        text.push_str(if holds { "true " } else { "false " })?;
    }
    Ok(Some(text))
}

/// The width of the first row, 0 where there is none.
fn width_of_rows(rows: &Many<Row>) -> usize
    ensures { result ≡ rows_width rows.now }
{
    match rows.get(0) {
        Some(row) => row.coefficients.len(),
        None => 0,
    }
}

/// Whether these are the rows of a polyhedron.
fn is_poly(rows: &Many<Row>) -> bool
    ensures { IsTrue result → IsPoly rows.now }
{
    rows.len() <= MOST_ROWS
        && are_kept(rows.as_slice())
        && have_width(rows.as_slice(), width_of_rows(rows))
}

/// Whether the rows of both lists have one width.
fn have_one_width(first: &Many<Row>, second: &Many<Row>) -> bool
    ensures { IsTrue result → HaveOneWidth (first.now ++ second.now) }
{
    let width = if first.is_empty() {
        width_of_rows(second)
    } else {
        width_of_rows(first)
    };
    have_width(first.as_slice(), width) && have_width(second.as_slice(), width)
}

/// Whether the forms have one width.
fn are_forms(forms: &Many<Form>) -> bool
    ensures { IsTrue result → All (λ f. length f.coefficients ≡ forms_width forms.now) forms.now }
{
    are_forms_within(forms.as_slice(), width_of(forms), MOST_WANTED)
}

/// Whether the rows are those of a polyhedron with a column for each of the forms, which have one width.
fn can_update(rows: &Many<Row>, forms: &Many<Form>) -> bool
    ensures poly { IsTrue result → IsPoly rows.now }
    ensures width { IsTrue result → All (λ r. length r.coefficients ≡ length forms.now) rows.now }
    ensures forms { IsTrue result → All (λ f. length f.coefficients ≡ forms_width forms.now) forms.now }
{
    is_poly(rows) && have_width(rows.as_slice(), forms.len()) && are_forms(forms)
}

fn met(alloc: Global, fields: &str) -> Result<Option<String>, Memory> {
    let Some((one, another, points)) = three(fields) else {
        return Ok(None);
    };
    let (Some(first), Some(second)) = (rows_in(alloc, one)?, rows_in(alloc, another)?) else {
        return Ok(None);
    };
    if !is_poly(&first) || !have_one_width(&first, &second) {
        return Ok(None);
    }
    let poly = Poly { rows: first };
    let found = poly.meet(alloc, &second)?;
    told_at(alloc, &found.rows, points)
}

fn joined(alloc: Global, fields: &str) -> Result<Option<String>, Memory> {
    let Some((one, another, points)) = three(fields) else {
        return Ok(None);
    };
    let (Some(first), Some(second)) = (rows_in(alloc, one)?, rows_in(alloc, another)?) else {
        return Ok(None);
    };
    if !is_poly(&first) || !is_poly(&second) || !have_one_width(&first, &second) {
        return Ok(None);
    }
    let poly = Poly { rows: first };
    let found = poly.join(alloc, &Poly { rows: second })?;
    told_at(alloc, &found.rows, points)
}

/// Rows, and what they are updated by.
#[derive(Drop)]
pub struct Update {
    /// The rows.
    pub rows: Many<Row>,
    /// The rows of the case.
    pub tests: Many<Row>,
    /// The form of each column.
    pub forms: Many<Form>,
}

/// Rows, rows of a case and forms, where the rows can be updated by these.
pub fn update_in(
    alloc: Global,
    rows: &str,
    tests: &str,
    forms: &str,
) -> Result<Option<Update>, Memory>
    ensures poly { IfOk result (λ o. IfSome o (λ u. IsPoly u.rows)) }
    ensures width { IfOk result (λ o. IfSome o (λ u. All (λ r. length r.coefficients ≡ length u.forms) u.rows)) }
    ensures forms { IfOk result (λ o. IfSome o (λ u. All (λ f. length f.coefficients ≡ forms_width u.forms) u.forms)) }
{
    let (rows, tests) = (rows_in(alloc, rows)?, rows_in(alloc, tests)?);
    let forms = forms_in(alloc, forms)?;
    let (Some(rows), Some(tests), Some(forms)) = (rows, tests, forms) else {
        return Ok(None);
    };
    if !can_update(&rows, &forms) {
        return Ok(None);
    }
    Ok(Some(Update { rows, tests, forms }))
}

fn updated(alloc: Global, fields: &str) -> Result<Option<String>, Memory> {
    let Some((rows, tests, rest)) = three(fields) else {
        return Ok(None);
    };
    let Some((forms, points)) = rest.split_once('~') else {
        return Ok(None);
    };
    let Some(update) = update_in(alloc, rows, tests, forms)? else {
        return Ok(None);
    };
    let Update { rows, tests, forms } = update;
    let poly = Poly { rows };
    let found = poly.after(alloc, &tests, &forms)?;
    told_at(alloc, &found.rows, points)
}

fn led_back(alloc: Global, fields: &str) -> Result<Option<String>, Memory> {
    let Some((rows, tests, rest)) = three(fields) else {
        return Ok(None);
    };
    let Some((forms, points)) = rest.split_once('~') else {
        return Ok(None);
    };
    let Some(update) = update_in(alloc, rows, tests, forms)? else {
        return Ok(None);
    };
    let Update { rows, tests, forms } = update;
    let poly = Poly { rows };
    let found = poly.before(alloc, &tests, &forms)?;
    told_at(alloc, &found.rows, points)
}

fn projected(alloc: Global, fields: &str) -> Result<Option<String>, Memory> {
    let Some((rows, column, points)) = three(fields) else {
        return Ok(None);
    };
    let (Some(rows), Ok(column)) = (rows_in(alloc, rows)?, column.parse::<u32>()) else {
        return Ok(None);
    };
    if !is_poly(&rows) {
        return Ok(None);
    }
    let poly = Poly { rows };
    let found = poly.eliminate(alloc, column)?;
    let dropped = found.dropped;
    match told_at(alloc, &found.rows, points)? {
        Some(text) => Ok(Some(format!(in alloc; "dropped {dropped}: {text}")?)),
        None => Ok(None),
    }
}

fn told_included(alloc: Global, fields: &str) -> Result<Option<String>, Memory> {
    let Some((one, another)) = fields.split_once('~') else {
        return Ok(None);
    };
    let (Some(first), Some(second)) = (rows_in(alloc, one)?, rows_in(alloc, another)?) else {
        return Ok(None);
    };
    if !is_poly(&first) || !is_poly(&second) {
        return Ok(None);
    }
    let proofs = included(alloc, &Poly { rows: first }, &Poly { rows: second })?;
    Ok(Some(format!(in alloc; "{}", proofs.is_some())?))
}

fn pointed(alloc: Global, fields: &str) -> Result<Option<String>, Memory> {
    let Some(rows) = rows_in(alloc, fields)? else {
        return Ok(None);
    };
    if !is_poly(&rows) {
        return Ok(None);
    }
    let poly = Poly { rows };
    let found = poly.whole_point(alloc)?;
    let text = match &found {
        Some(point) => met_text(&poly.rows, point),
        None => "none",
    };
    Ok(Some(String::from_str(alloc, text)?))
}

/// Whether a point meets the rows.
fn met_text(rows: &Many<Row>, point: &Many<i128>) -> &'static str {
    if hold_at(rows.as_slice(), point.as_slice()) {
        "met"
    } else {
        "unmet"
    }
}

/// All control states, or none of them.
pub fn all_or_none(alloc: Global, truth: bool) -> Frozen
    ensures { (variables : ℕ) → IsOrderedOver variables result }
{
    Frozen {
        nodes: Many::new(alloc),
        root: u32::from(truth),
    }
}

/// The control set `all` or `none`.
fn control_in(alloc: Global, text: &str) -> Option<Frozen>
    ensures { IfSome result (λ set. (variables : ℕ) → IsOrderedOver variables set) }
{
    match text {
        "all" => Some(all_or_none(alloc, true)),
        "none" => Some(all_or_none(alloc, false)),
        _ => None,
    }
}

fn posted(alloc: Global, fields: &str) -> Result<Option<String>, Memory> {
    let Some((rows, tests, rest)) = three(fields) else {
        return Ok(None);
    };
    let Some((forms, points)) = rest.split_once('~') else {
        return Ok(None);
    };
    let Some(update) = update_in(alloc, rows, tests, forms)? else {
        return Ok(None);
    };
    let Update { rows, tests, forms } = update;
    let value = Abstract {
        control: all_or_none(alloc, true),
        poly: Poly { rows },
    };
    let case = Case {
        condition: all_or_none(alloc, true),
        tests: Many::new(alloc),
        rows: tests,
        updates: forms,
        observer: true,
    };
    let found = value.post(alloc, &case, all_or_none(alloc, true))?;
    told_at(alloc, &found.poly.rows, points)
}

fn preceded(alloc: Global, fields: &str) -> Result<Option<String>, Memory> {
    let Some((rows, tests, rest)) = three(fields) else {
        return Ok(None);
    };
    let Some((forms, points)) = rest.split_once('~') else {
        return Ok(None);
    };
    let Some(update) = update_in(alloc, rows, tests, forms)? else {
        return Ok(None);
    };
    let Update { rows, tests, forms } = update;
    let value = Abstract {
        control: all_or_none(alloc, true),
        poly: Poly { rows },
    };
    let case = Case {
        condition: all_or_none(alloc, true),
        tests: Many::new(alloc),
        rows: tests,
        updates: forms,
        observer: true,
    };
    let found = value.pre(alloc, &case, all_or_none(alloc, true))?;
    told_at(alloc, &found.poly.rows, points)
}

/// An abstract value by its control set and its rows.
fn value_in(alloc: Global, control: &str, rows: &str) -> Result<Option<Abstract>, Memory>
    ensures control { IfOk result (λ o. IfSome o (λ a. (variables : ℕ) → IsOrderedOver variables a.control)) }
    ensures poly { IfOk result (λ o. IfSome o (λ a. IsPoly a.poly.rows)) }
{
    let (control, rows) = (control_in(alloc, control), rows_in(alloc, rows)?);
    let (Some(control), Some(rows)) = (control, rows) else {
        return Ok(None);
    };
    if !is_poly(&rows) {
        return Ok(None);
    }
    let poly = Poly { rows };
    Ok(Some(Abstract { control, poly }))
}

fn told_includes(alloc: Global, fields: &str) -> Result<Option<String>, Memory> {
    let Some((control, rows, rest)) = three(fields) else {
        return Ok(None);
    };
    let Some((other_control, other_rows)) = rest.split_once('~') else {
        return Ok(None);
    };
    let value = value_in(alloc, control, rows)?;
    let other = value_in(alloc, other_control, other_rows)?;
    let (Some(value), Some(other)) = (value, other) else {
        return Ok(None);
    };
    let mut store = Store::new(alloc, VARIABLES, NODES)?;
    match value.includes(alloc, &mut store, &other) {
        Ok(yes) => Ok(Some(format!(in alloc; "{yes}")?)),
        Err(StoreFault::Nodes) => Ok(Some(String::from_str(alloc, "nodes")?)),
        Err(StoreFault::Memory) => Err(Memory::Memory),
    }
}

fn joined_values(alloc: Global, fields: &str) -> Result<Option<String>, Memory> {
    let Some((control, rows, rest)) = three(fields) else {
        return Ok(None);
    };
    let Some((other_control, other_rows, points)) = three(rest) else {
        return Ok(None);
    };
    let value = value_in(alloc, control, rows)?;
    let other = value_in(alloc, other_control, other_rows)?;
    let (Some(value), Some(other)) = (value, other) else {
        return Ok(None);
    };
    if !have_one_width(&value.poly.rows, &other.poly.rows) {
        return Ok(None);
    }
    let mut store = Store::new(alloc, VARIABLES, NODES)?;
    match value.join(alloc, &mut store, &other) {
        Ok(both) => told_at(alloc, &both.poly.rows, points),
        Err(StoreFault::Nodes) => Ok(Some(String::from_str(alloc, "nodes")?)),
        Err(StoreFault::Memory) => Err(Memory::Memory),
    }
}
