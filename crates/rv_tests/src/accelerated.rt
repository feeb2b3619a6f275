//! What is answered on loops that are taken any number of times at once. A row that cannot be read, or whose rows and forms are not such as the
//! call takes, has no answer.

use crate::polyhedra::{MOST_ROWS, Update, all_or_none, three, told_at, update_in};
use rv_accel::{LoopSets, accelerate};
use rv_base::{Many, Memory};
use rv_poly::Poly;
use rv_proofs::Case;
use std::alloc::Global;

/// How many rows are dropped, and for points of the rows of the first turn and for others of those around whether all rows hold there.
fn told_sets(
    alloc: Global,
    sets: &LoopSets,
    first: &str,
    around: &str,
) -> Result<Option<String>, Memory> {
    let first = told_at(alloc, &sets.first, first)?;
    let around = told_at(alloc, &sets.around, around)?;
    let (Some(first), Some(around)) = (first, around) else {
        return Ok(None);
    };
    let dropped = sets.dropped;
    Ok(Some(format!(in alloc; "dropped {dropped}: {first}/ {around}")?))
}

/// The answer on a row of the kind `accelerate`: rows of the entry, rows of the tests, a form for each memory, points of the first turn, and
/// points around.
pub fn accelerated(alloc: Global, fields: &str) -> Result<Option<String>, Memory> {
    let Some((rows, tests, rest)) = three(fields) else {
        return Ok(None);
    };
    let Some((forms, first, around)) = three(rest) else {
        return Ok(None);
    };
    let Some(update) = update_in(alloc, rows, tests, forms)? else {
        return Ok(None);
    };
    let Update { rows, tests, forms } = update;
    if rows.len() > MOST_ROWS || tests.len() > MOST_ROWS {
        return Ok(None);
    }
    let case = Case {
        condition: all_or_none(alloc, true),
        tests: Many::new(alloc),
        rows: tests,
        updates: forms,
        observer: true,
    };
    match accelerate(alloc, &Poly { rows }, &case)? {
        Some(sets) => told_sets(alloc, &sets, first, around),
        None => Ok(Some(String::from_str(alloc, "none")?)),
    }
}
