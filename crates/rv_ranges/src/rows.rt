//! Whether rows are kept rows.

ghost use Rattle.std.specs.Prelude.{◌↔◌, All, IsTrue};
ghost use Rattle.rv_ranges.specs.Documents.{IsKeptRow, AreKeptRows};

use rv_base::Many;
use rv_rows::Row;

/// How many rows a list may have.
const MOST_ROWS: usize = 1024;

/// Whether the row has one coefficient for each memory, and is within the limits of a kept row.
fn is_kept_row(row: &Row, memories: usize) -> bool
    ensures { IsTrue result ↔ IsKeptRow memories row.now }
{
    row.coefficients.len() == memories && row.fits()
}

/// Whether each of the rows is.
fn each_is_kept(rows: &Many<Row>, memories: usize) -> bool
    ensures { IsTrue result ↔ All (IsKeptRow memories) rows.now }
{
    for row in rows.as_slice() {
        if !is_kept_row(row, memories) {
            return false;
        }
    }
    true
}

/// Whether there are at most 1,024 rows, and each of them is a kept row over the memories.
pub fn are_kept(rows: &Many<Row>, memories: usize) -> bool
    ensures { IsTrue result ↔ AreKeptRows memories rows.now }
{
    rows.len() <= MOST_ROWS && each_is_kept(rows, memories)
}
