//! Rows over so many columns.

ghost use Rattle.std.specs.Prelude.{◌≡◌, ◌<◌, ℕ, pos, length, IfOk};
ghost use Rattle.rv_rows.specs.Rows.{coefficient};

use rv_base::{Many, Memory};
use rv_rows::{Row, number_at};
use std::alloc::Global;

/// The row over so many columns, with another bound.
pub fn cut(alloc: Global, row: &Row, width: usize, bound: i128) -> Result<Row, Memory>
    ensures width { IfOk result (λ r. length r.coefficients ≡ width) }
    ensures same { IfOk result (λ r. (k : ℕ) → k < width → coefficient k r ≡ coefficient k row.now) }
    ensures bound { IfOk result (λ r. r.bound ≡ bound) }
{
    let mut coefficients = Many::new(alloc);
    for column in 0..width {
        let number = number_at(&row.coefficients, column);
        coefficients.push(number)?;
    }
    Ok(Row {
        coefficients,
        bound,
    })
}

/// The row that has one coefficient other than 0, of so many columns.
pub fn unit_row(
    alloc: Global,
    width: usize,
    at: usize,
    by: i128,
    bound: i128,
) -> Result<Row, Memory>
    requires { at < width }
    ensures width { IfOk result (λ r. length r.coefficients ≡ width) }
    ensures one { IfOk result (λ r. coefficient at r ≡ by) }
    ensures others { IfOk result (λ r. (k : ℕ) → (k ≡ at → ⊥) → coefficient k r ≡ pos 0) }
    ensures bound { IfOk result (λ r. r.bound ≡ bound) }
{
    let mut coefficients = Many::new(alloc);
    for column in 0..width {
        let number = if column == at { by } else { 0 };
        coefficients.push(number)?;
    }
    Ok(Row {
        coefficients,
        bound,
    })
}
