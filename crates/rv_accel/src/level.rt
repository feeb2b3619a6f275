//! The sum of two rows that neither gains nor loses along a direction.

ghost use Rattle.std.specs.Prelude.{◌≡◌, ◌<◌, ◌≤◌, ◌+◌, ◌*◌, ◌^◌, ℕ, ℤ, pos, ◌+ℤ◌, ◌-ℤ◌, ◌*ℤ◌, List, All, length, IfOk};
ghost use Rattle.std.specs.Int.RustNames.{unsigned_abs};
ghost use Rattle.rv_rows.specs.Rows.{dot};
ghost use Rattle.rv_rows.specs.Forms.{number};
ghost use Rattle.rv_rows.specs.Tight.{Fits};
ghost use Rattle.rv_poly.specs.Images.{IsNarrow};
ghost use Rattle.rv_accel.specs.Turns.{magnitude};
ghost use Rattle.rv_accel.specs.Pairs.{gain, IsLevelled};

use rv_base::{Many, Memory};
use rv_rows::{Row, number_at};
use std::alloc::Global;

/// `sum + by * number`.
fn plus_product(sum: i128, by: i128, number: i128) -> i128
    requires { unsigned_abs sum + unsigned_abs by * unsigned_abs number < 2 ^ 127 }
    ensures { result ≡ sum +ℤ (by *ℤ number) }
{
    sum + by * number
}

/// What one step along the direction adds to the row's left side.
pub fn gain_of(row: &Row, steps: &Many<i128>) -> i128
    requires row { Fits row.now }
    requires narrow { IsNarrow (length steps.now) row.now }
    requires total { magnitude steps.now ≤ 2 ^ 48 }
    ensures value { result ≡ gain steps.now row.now }
    ensures small { unsigned_abs result ≤ 2 ^ 78 }
{
    let mut sum: i128 = 0;
    for column in 0..steps.len() {
        sum = plus_product(sum, *steps.at(column), number_at(&row.coefficients, column));
    }
    sum
}

/// `by * first + with * second`, column by column.
fn two_multiples(
    alloc: Global,
    by: i128,
    first: &Many<i128>,
    with: i128,
    second: &Many<i128>,
    width: usize,
) -> Result<Many<i128>, Memory>
    requires by { unsigned_abs by ≤ 2 ^ 41 }
    requires first { All (λ c. unsigned_abs c ≤ 2 ^ 30) first.now }
    requires with { unsigned_abs with ≤ 2 ^ 41 }
    requires second { All (λ c. unsigned_abs c ≤ 2 ^ 30) second.now }
    ensures width { IfOk result (λ c. length c ≡ width) }
    ensures sums { IfOk result (λ c. (j : ℕ) → j < width → number j c ≡ (by *ℤ number j first.now) +ℤ (with *ℤ number j second.now)) }
{
    let mut sums = Many::new(alloc);
    for column in 0..width {
        let product = plus_product(0, by, number_at(first, column));
        let sum = plus_product(product, with, number_at(second, column));
        sums.push(sum)?;
    }
    Ok(sums)
}

/// The sum of `by` times a row that gains and `with` times one that loses, where `by` is what the second loses and `with` what the first gains.
pub fn levelled(
    alloc: Global,
    up: &Row,
    down: &Row,
    by: i128,
    with: i128,
    steps: &Many<i128>,
) -> Result<Row, Memory>
    requires up { Fits up.now }
    requires down { Fits down.now }
    requires up_narrow { IsNarrow (length steps.now) up.now }
    requires down_narrow { IsNarrow (length steps.now) down.now }
    requires by { by ≡ pos 0 -ℤ gain steps.now down.now }
    requires with { with ≡ gain steps.now up.now }
    requires by_small { unsigned_abs by ≤ 2 ^ 41 }
    requires with_small { unsigned_abs with ≤ 2 ^ 41 }
    ensures width { IfOk result (λ r. length r.coefficients ≡ length steps.now) }
    ensures level { IfOk result (IsLevelled steps.now up.now down.now) }
{
    let coefficients = two_multiples(
        alloc,
        by,
        &up.coefficients,
        with,
        &down.coefficients,
        steps.len(),
    )?;
    let bound = plus_product(plus_product(0, by, up.bound), with, down.bound);
    Ok(Row {
        coefficients,
        bound,
    })
}
