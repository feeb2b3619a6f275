//! What is answered on rows, forms and multipliers. A row that cannot be read, or that is beyond the limits of the
//! call, has no answer.

ghost use Rattle.std.specs.Prelude.{◌≡◌, ◌<◌, ◌^◌, All, IsTrue, length};
ghost use Rattle.rv_rows.specs.Rows.{RowWithin};
ghost use Rattle.rv_rows.specs.Forms.{forms_width};

use crate::limits::{
    MOST_DIVISOR, MOST_PREMISE, MOST_WANTED, are_forms_within, are_rows_within, are_weights_within,
    is_form_within, is_row_within,
};
use crate::numbers::{
    form_in, form_text, forms_in, multipliers_in, multipliers_text, row_in, row_text, rows_in,
};
use rv_base::{Many, Memory};
use rv_rows::{Form, Multipliers, Row, proves, refutes};
use rv_seek::{seek_bound, seek_refutation, seek_row};
use std::alloc::Global;

/// The greatest magnitude of a number that a form is multiplied with, and of a row's number where forms are put in.
const MOST_FACTOR: u128 = 1 << 41;

/// The most premises of a search.
const MOST_PREMISES: usize = 2000;

/// The answer on a row of one of these kinds:
/// `proves`: premises, a row, and whether these multipliers prove it;
/// `refutes`: premises, and whether these multipliers refute them;
/// `tighten`: a row, and what it is divided to;
/// `fits`: a row, and whether it is within the limits of a kept row;
/// `add`: two forms, and their sum;
/// `scale`: a number and a form, and their product;
/// `substitute`: a row and a form for each of its columns, and the row that they make;
/// `seek_row`: premises, a row, and the multipliers that are found for it;
/// `seek_refutation`: premises, and the multipliers that are found against them;
/// `seek_bound`: premises, a form, and the bound that is found, with its multipliers.
pub fn linear(alloc: Global, kind: &str, fields: &str) -> Result<Option<String>, Memory> {
    match kind {
        "proves" => proved(alloc, fields),
        "refutes" => refuted(alloc, fields),
        "tighten" => tightened(alloc, fields),
        "fits" => fitting(alloc, fields),
        "add" => added(alloc, fields),
        "scale" => scaled(alloc, fields),
        "substitute" => substituted(alloc, fields),
        "seek_row" => sought_row(alloc, fields),
        "seek_refutation" => sought_refutation(alloc, fields),
        "seek_bound" => sought_bound(alloc, fields),
        _ => Ok(None),
    }
}

/// `true` or `false`.
fn told(alloc: Global, holds: Option<bool>) -> Result<Option<String>, Memory> {
    match holds {
        Some(holds) => Ok(Some(format!(in alloc; "{holds}")?)),
        None => Ok(None),
    }
}

fn proved(alloc: Global, fields: &str) -> Result<Option<String>, Memory> {
    let Some((premises, rest)) = fields.split_once('~') else {
        return Ok(None);
    };
    let Some((wanted, by)) = rest.split_once('~') else {
        return Ok(None);
    };
    let premises = rows_in(alloc, premises)?;
    let wanted = row_in(alloc, wanted)?;
    let by = multipliers_in(alloc, by)?;
    match (premises, wanted, by) {
        (Some(premises), Some(wanted), Some(by)) => told(alloc, is_proved(&premises, &wanted, &by)),
        _ => Ok(None),
    }
}

fn is_proved(premises: &Many<Row>, wanted: &Row, by: &Multipliers) -> Option<bool> {
    if !are_rows_within(premises.as_slice(), MOST_PREMISE) {
        return None;
    }
    if !is_row_within(wanted, MOST_WANTED) || by.divisor.unsigned_abs() > MOST_DIVISOR {
        return None;
    }
    if !are_weights_within(by.weights.as_slice(), premises.len()) {
        return None;
    }
    Some(proves(premises, wanted, by))
}

fn refuted(alloc: Global, fields: &str) -> Result<Option<String>, Memory> {
    let Some((premises, by)) = fields.split_once('~') else {
        return Ok(None);
    };
    let premises = rows_in(alloc, premises)?;
    let by = multipliers_in(alloc, by)?;
    match (premises, by) {
        (Some(premises), Some(by)) => told(alloc, is_refuted(&premises, &by)),
        _ => Ok(None),
    }
}

fn is_refuted(premises: &Many<Row>, by: &Multipliers) -> Option<bool> {
    if !are_rows_within(premises.as_slice(), MOST_PREMISE) || by.divisor != 1 {
        return None;
    }
    if !are_weights_within(by.weights.as_slice(), premises.len()) {
        return None;
    }
    Some(refutes(premises, by))
}

fn tightened(alloc: Global, fields: &str) -> Result<Option<String>, Memory> {
    match row_in(alloc, fields)? {
        Some(mut row) => {
            row.tighten();
            Ok(Some(row_text(alloc, &row)?))
        }
        None => Ok(None),
    }
}

fn fitting(alloc: Global, fields: &str) -> Result<Option<String>, Memory> {
    let row = row_in(alloc, fields)?;
    told(alloc, row.map(|row| row.fits()))
}

fn added(alloc: Global, fields: &str) -> Result<Option<String>, Memory> {
    let Some((one, another)) = fields.split_once('~') else {
        return Ok(None);
    };
    match (form_in(alloc, one)?, form_in(alloc, another)?) {
        (Some(one), Some(another)) => sum_text(alloc, &one, &another),
        _ => Ok(None),
    }
}

fn sum_text(alloc: Global, one: &Form, another: &Form) -> Result<Option<String>, Memory> {
    if !is_form_within(one, MOST_PREMISE) || !is_form_within(another, MOST_PREMISE) {
        return Ok(None);
    }
    if one.coefficients.len() != another.coefficients.len() {
        return Ok(None);
    }
    let sum = one.add(alloc, another)?;
    Ok(Some(form_text(alloc, &sum)?))
}

fn scaled(alloc: Global, fields: &str) -> Result<Option<String>, Memory> {
    let Some((by, form)) = fields.split_once('~') else {
        return Ok(None);
    };
    match (by.parse::<i128>(), form_in(alloc, form)?) {
        (Ok(by), Some(form)) => multiple_text(alloc, by, &form),
        _ => Ok(None),
    }
}

fn multiple_text(alloc: Global, by: i128, form: &Form) -> Result<Option<String>, Memory> {
    if by.unsigned_abs() > MOST_FACTOR || !is_form_within(form, MOST_PREMISE) {
        return Ok(None);
    }
    let multiple = form.scale(alloc, by)?;
    Ok(Some(form_text(alloc, &multiple)?))
}

fn substituted(alloc: Global, fields: &str) -> Result<Option<String>, Memory> {
    let Some((row, forms)) = fields.split_once('~') else {
        return Ok(None);
    };
    match (row_in(alloc, row)?, forms_in(alloc, forms)?) {
        (Some(row), Some(forms)) => replaced_text(alloc, &row, &forms),
        _ => Ok(None),
    }
}

/// The width of the first form, 0 where there is none.
pub fn width_of(forms: &Many<Form>) -> usize
    ensures { result ≡ forms_width forms.now }
{
    match forms.get(0) {
        Some(form) => form.coefficients.len(),
        None => 0,
    }
}

fn replaced_text(alloc: Global, row: &Row, forms: &Many<Form>) -> Result<Option<String>, Memory> {
    if !is_row_within(row, MOST_FACTOR) || row.coefficients.len() > 256 {
        return Ok(None);
    }
    if row.coefficients.len() != forms.len() {
        return Ok(None);
    }
    if !are_forms_within(forms.as_slice(), width_of(forms), MOST_PREMISE) {
        return Ok(None);
    }
    let replaced = row.substitute(alloc, forms)?;
    Ok(Some(row_text(alloc, &replaced)?))
}

/// The multipliers, or `none`.
fn found_text(alloc: Global, found: Option<Multipliers>) -> Result<Option<String>, Memory> {
    match found {
        Some(multipliers) => Ok(Some(multipliers_text(alloc, &multipliers)?)),
        None => Ok(Some(String::from_str(alloc, "none")?)),
    }
}

/// Whether a search may go over these premises.
fn are_premises(premises: &Many<Row>) -> bool
    ensures small { IsTrue result → All (RowWithin (2 ^ 60)) premises.now }
    ensures few { IsTrue result → length premises.now < 2 ^ 32 }
{
    premises.len() <= MOST_PREMISES && are_rows_within(premises.as_slice(), MOST_PREMISE)
}

fn sought_row(alloc: Global, fields: &str) -> Result<Option<String>, Memory> {
    let Some((premises, wanted)) = fields.split_once('~') else {
        return Ok(None);
    };
    let (Some(premises), Some(wanted)) = (rows_in(alloc, premises)?, row_in(alloc, wanted)?) else {
        return Ok(None);
    };
    if !are_premises(&premises) || !is_row_within(&wanted, MOST_WANTED) {
        return Ok(None);
    }
    found_text(alloc, seek_row(alloc, &premises, &wanted)?)
}

fn sought_refutation(alloc: Global, fields: &str) -> Result<Option<String>, Memory> {
    let Some(premises) = rows_in(alloc, fields)? else {
        return Ok(None);
    };
    if !are_premises(&premises) {
        return Ok(None);
    }
    found_text(alloc, seek_refutation(alloc, &premises)?)
}

fn sought_bound(alloc: Global, fields: &str) -> Result<Option<String>, Memory> {
    let Some((premises, form)) = fields.split_once('~') else {
        return Ok(None);
    };
    let (Some(premises), Some(form)) = (rows_in(alloc, premises)?, form_in(alloc, form)?) else {
        return Ok(None);
    };
    if !are_premises(&premises) || !is_form_within(&form, MOST_WANTED) {
        return Ok(None);
    }
    match seek_bound(alloc, &premises, &form)? {
        Some(bounded) => {
            let (bound, by) = (bounded.bound, multipliers_text(alloc, &bounded.by)?);
            Ok(Some(format!(in alloc; "{bound} by {by}")?))
        }
        None => Ok(Some(String::from_str(alloc, "none")?)),
    }
}
