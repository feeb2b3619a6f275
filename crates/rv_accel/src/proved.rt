//! Rows with their proofs, as many as are kept.

ghost use Rattle.std.specs.Prelude.{OnOk};
ghost use Rattle.rv_accel.specs.Taken.{IsHanded, IsLeft};

use rv_base::{Many, Memory};
use rv_rows::{Multipliers, Row};

/// How many rows a list may have.
const MOST_ROWS: usize = 1024;

/// Rows with their proofs, as many as are kept, and how many are not.
#[derive(Debug, Drop)]
pub struct Proved {
    /// The rows.
    pub rows: Many<Row>,
    /// The proof of each.
    pub by: Many<Multipliers>,
    /// How many rows were dropped, since there was no room or they were not within the limits.
    pub dropped: u64,
}

/// Keeps the row where it is within the limits and there is room, and else counts it.
pub fn keep(list: &mut Proved, row: Row, by: Multipliers) -> Result<(), Memory>
    ensures { OnOk result (IsHanded row by list.old list.new) }
{
    if list.rows.len() >= MOST_ROWS {
        list.dropped = list.dropped.saturating_add(1);
        return Ok(());
    }
    if !row.fits() {
        list.dropped = list.dropped.saturating_add(1);
        return Ok(());
    }
    list.rows.push(row)?;
    list.by.push(by)?;
    Ok(())
}

/// Counts a row that is not made.
pub fn leave(list: &mut Proved) -> Result<(), Memory>
    ensures { OnOk result (IsLeft list.old list.new) }
{
    list.dropped = list.dropped.saturating_add(1);
    Ok(())
}
