// Places in a list of premises. A place past the end stands for no premise, which is the row `0 <= 0`.
ghost use Rattle.std.specs.Prelude.{◌≡◌, ◌≤◌, All, length};
ghost use Rattle.rv_rows.specs.Rows.{coefficient, row_at};

use rv_base::Many;
use rv_rows::{Row, number_at};

/// The coefficient of a column in the row at a place.
pub fn coefficient_of(premises: &Many<Row>, place: usize, column: usize) -> i128
    ensures { result ≡ coefficient column (row_at premises.now place) }
{
    match premises.get(place) {
        Some(row) => number_at(&row.coefficients, column),
        None => 0,
    }
}

/// The bound of the row at a place.
pub fn bound_of(premises: &Many<Row>, place: usize) -> i128
    ensures { result ≡ (row_at premises.now place).bound }
{
    match premises.get(place) {
        Some(row) => row.bound,
        None => 0,
    }
}

/// A width that no premise exceeds, and at least the given one.
pub fn widest(premises: &Many<Row>, least: usize) -> usize
    ensures least { least ≤ result }
    ensures rows { All (λ r. length r.coefficients ≤ result) premises.now }
{
    let mut width = least;
    for premise in premises.as_slice() {
        let here = premise.coefficients.len();
        if width < here {
            width = here;
        }
    }
    width
}
