//! Whether rows, forms and weights are within the limits of the calls on them.

ghost use Rattle.std.specs.Prelude.{◌≡◌, ◌<◌, ◌≤◌, ◌^◌, All, IsTrue, length};
ghost use Rattle.std.specs.Int.RustNames.{unsigned_abs};
ghost use Rattle.rv_rows.specs.Rows.{RowWithin};
ghost use Rattle.rv_rows.specs.Tight.{Fits};
ghost use Rattle.rv_rows.specs.Multipliers.{WeightsWithin};
ghost use Rattle.rv_rows.specs.Forms.{FormWithin};

use rv_rows::{Form, Row, Weight};

/// The greatest magnitude of a number of a premise.
pub const MOST_PREMISE: u128 = 1 << 60;

/// The greatest magnitude of a number of a wanted row.
pub const MOST_WANTED: u128 = 1 << 78;

/// The greatest magnitude of a weight.
const MOST_WEIGHT: u128 = 1 << 41;

/// The greatest magnitude of a divisor.
pub const MOST_DIVISOR: u128 = 1 << 30;

/// The most weights.
const MOST_WEIGHTS: usize = 256;

/// Whether no number has a magnitude above `most`.
fn are_small(numbers: &[i128], most: u128) -> bool
    ensures { IsTrue result → All (λ c. unsigned_abs c ≤ most) numbers.now }
{
    for number in numbers {
        if number.unsigned_abs() > most {
            return false;
        }
    }
    true
}

/// Whether no number of the row has a magnitude above `most`.
pub fn is_row_within(row: &Row, most: u128) -> bool
    ensures { IsTrue result → RowWithin most row.now }
{
    are_small(row.coefficients.as_slice(), most) && row.bound.unsigned_abs() <= most
}

/// Whether no number of the rows has a magnitude above `most`.
pub fn are_rows_within(rows: &[Row], most: u128) -> bool
    ensures { IsTrue result → All (RowWithin most) rows.now }
{
    for row in rows {
        if !is_row_within(row, most) {
            return false;
        }
    }
    true
}

/// Whether each row is within the limits of a kept row.
pub fn are_kept(rows: &[Row]) -> bool
    ensures { IsTrue result → All Fits rows.now }
{
    for row in rows {
        if !row.fits() {
            return false;
        }
    }
    true
}

/// Whether each row has this width.
pub fn have_width(rows: &[Row], width: usize) -> bool
    ensures { IsTrue result → All (λ r. length r.coefficients ≡ width) rows.now }
{
    for row in rows {
        if row.coefficients.len() != width {
            return false;
        }
    }
    true
}

/// Whether no number of the form has a magnitude above `most`.
pub fn is_form_within(form: &Form, most: u128) -> bool
    ensures { IsTrue result → FormWithin most form.now }
{
    are_small(form.coefficients.as_slice(), most) && form.constant.unsigned_abs() <= most
}

/// Whether each form has this width, and no number of a magnitude above `most`.
pub fn are_forms_within(forms: &[Form], width: usize, most: u128) -> bool
    ensures small { IsTrue result → All (FormWithin most) forms.now }
    ensures widths { IsTrue result → All (λ f. length f.coefficients ≡ width) forms.now }
{
    for form in forms {
        if !is_form_within(form, most) || form.coefficients.len() != width {
            return false;
        }
    }
    true
}

/// Whether there are at most 256 weights, each of which names one of `count` premises and is at most 2^41.
pub fn are_weights_within(weights: &[Weight], count: usize) -> bool
    ensures range { IsTrue result → All (λ w. w.premise < count) weights.now }
    ensures small { IsTrue result → WeightsWithin (2 ^ 41) 256 weights.now }
{
    if weights.len() > MOST_WEIGHTS {
        return false;
    }
    for weight in weights {
        if weight.premise as usize >= count || weight.by.unsigned_abs() > MOST_WEIGHT {
            return false;
        }
    }
    true
}
