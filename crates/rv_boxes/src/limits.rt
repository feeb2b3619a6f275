//! Limits: whether they have changed, and the opposite of what they hold.

ghost use Rattle.std.specs.Prelude.{◌≡◌, ◌≢◌, ◌||◌, ◌^◌, ℤ, negsuc, ◌*ℤ◌, List, length, IfOk, MatchBool};
ghost use Rattle.rv_rows.specs.Forms.{value, FormWithin};

use rv_base::Memory;
use rv_rows::Form;
use std::alloc::Global;

/// Whether two numbers are different.
fn differ(a: i128, b: i128) -> bool
    ensures { MatchBool result (a ≢ b) (a ≡ b) }
{
    a != b
}

/// Whether two limits are different.
pub fn is_changed(old: Option<i128>, new: Option<i128>) -> bool
    ensures { MatchBool result (old ≢ new) (new ≡ old) }
{
    match old {
        Some(before) => match new {
            Some(after) => differ(before, after),
            None => true,
        },
        None => match new {
            Some(_) => true,
            None => false,
        },
    }
}

/// Whether one is true.
pub fn either(a: bool, b: bool) -> bool
    ensures { result ≡ (a || b) }
{
    a || b
}

/// The form times -1.
pub fn opposite_form(alloc: Global, form: &Form) -> Result<Form, Memory>
    requires { FormWithin (2 ^ 41) form.now }
    ensures width { IfOk result (λ f. length f.coefficients ≡ length form.now.coefficients) }
    ensures values { IfOk result (λ f. (point : List ℤ) → value f point ≡ negsuc 0 *ℤ value form.now point) }
    ensures within { IfOk result (FormWithin (2 ^ 41)) }
{
    form.scale(alloc, -1)
}
