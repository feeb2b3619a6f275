//! The numbers that integer memories may have at the points of rows, by bounds of their forms. No proof rests on them.

ghost use Rattle.std.specs.Prelude.{◌<◌, ◌≤◌, ◌^◌, All, IsTrue, length};
ghost use Rattle.std.specs.Int.RustNames.{unsigned_abs};
ghost use Rattle.rv_rows.specs.Forms.{FormWithin};
ghost use Rattle.rv_paths.specs.Joining.{AreJoined};

use crate::spans::{Span, span_between};
use rv_base::{Many, Memory};
use rv_proofs::rows_have_room;
use rv_rows::{Form, Row};
use rv_seek::{seek_bound, seek_refutation};
use std::alloc::Global;

/// The greatest magnitude of a number of a form that is bounded.
const MOST_NUMBER: u128 = 1 << 78;

/// Whether it is found that no point meets the rows.
pub fn is_refuted(alloc: Global, rows: &Many<Row>) -> Result<bool, Memory>
    requires rows { AreJoined rows.now }
    requires few { length rows.now < 2 ^ 32 }
{
    rows_have_room();
    if rows.is_empty() {
        return Ok(false);
    }
    let found = seek_refutation(alloc, rows)?;
    Ok(found.is_some())
}

/// Whether no number has a magnitude above 2^78.
fn are_small(numbers: &Many<i128>) -> bool
    ensures { IsTrue result → All (λ c. unsigned_abs c ≤ 2 ^ 78) numbers.now }
{
    for number in numbers.as_slice() {
        if number.unsigned_abs() > MOST_NUMBER {
            return false;
        }
    }
    true
}

/// Whether no number of the form, its constant included, has a magnitude above 2^78.
fn is_small(form: &Form) -> bool
    ensures { IsTrue result → FormWithin (2 ^ 78) form.now }
{
    if !are_small(&form.coefficients) {
        return false;
    }
    form.constant.unsigned_abs() <= MOST_NUMBER
}

/// A bound of the form at the points of the rows, where one is found.
fn most_of(alloc: Global, rows: &Many<Row>, form: &Form) -> Result<Option<i128>, Memory>
    requires rows { AreJoined rows.now }
    requires few { length rows.now < 2 ^ 32 }
{
    rows_have_room();
    if !is_small(form) {
        return Ok(None);
    }
    match seek_bound(alloc, rows, form)? {
        Some(found) => Ok(Some(found.bound)),
        None => Ok(None),
    }
}

/// The form times -1.
fn opposite(alloc: Global, form: &Form) -> Result<Form, Memory> {
    let zero: i128 = 0;
    let mut coefficients = Many::new(alloc);
    for number in form.coefficients.as_slice() {
        coefficients.push(zero.saturating_sub(*number))?;
    }
    Ok(Form {
        coefficients,
        constant: zero.saturating_sub(form.constant),
    })
}

/// The values of a form at the points of the rows, as far as bounds are found.
fn hull_of(alloc: Global, rows: &Many<Row>, form: &Form) -> Result<Span, Memory>
    requires rows { AreJoined rows.now }
    requires few { length rows.now < 2 ^ 32 }
{
    let above = most_of(alloc, rows, form)?;
    let below = most_of(alloc, rows, &opposite(alloc, form)?)?;
    Ok(span_between(below, above))
}

/// The values of each form at the points of the rows, as far as bounds are found.
pub fn hulls_of(alloc: Global, rows: &Many<Row>, forms: &Many<Form>) -> Result<Many<Span>, Memory>
    requires rows { AreJoined rows.now }
    requires few { length rows.now < 2 ^ 32 }
{
    let mut hulls = Many::new(alloc);
    for form in forms.as_slice() {
        let hull = hull_of(alloc, rows, form)?;
        hulls.push(hull)?;
    }
    Ok(hulls)
}
