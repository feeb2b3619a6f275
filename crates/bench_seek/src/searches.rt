//! One kind of search over many lists of premises.

ghost use Rattle.std.specs.Prelude.{◌≤◌};

use crate::rows::{drawn, form, premises, sum_row};
use rv_base::Memory;
use rv_seek::{seek_bound, seek_refutation, seek_row};
use std::alloc::Global;

/// What is searched for.
#[derive(Clone, Copy, Debug)]
pub enum Subject {
    /// A proof that a sum of two columns is at most 150.
    Row,
    /// A refutation, in each second call of premises of which many are lower.
    Refutation,
    /// A bound of a sum of two columns.
    Bound,
    /// Nothing: the premises alone are made.
    Nothing,
}

/// Whether one search finds something.
fn finds(
    alloc: Global,
    subject: Subject,
    seed: u64,
    count: usize,
    width: usize,
) -> Result<bool, Memory>
    requires { count ≤ 4000 }
{
    let low = matches!(subject, Subject::Refutation) && seed % 2 == 1;
    let rows = premises(alloc, seed, count, width, if low { 20 } else { 0 })?;
    let own = drawn(drawn(seed));
    match subject {
        Subject::Row => {
            let wanted = sum_row(alloc, own, width, 150)?;
            Ok(seek_row(alloc, &rows, &wanted)?.is_some())
        }
        Subject::Refutation => Ok(seek_refutation(alloc, &rows)?.is_some()),
        Subject::Bound => {
            let form = form(alloc, own, width)?;
            Ok(seek_bound(alloc, &rows, &form)?.is_some())
        }
        Subject::Nothing => Ok(false),
    }
}

/// In how many of so many calls, each with premises of its own, something is found.
pub fn found(
    alloc: Global,
    subject: Subject,
    count: usize,
    width: usize,
    calls: usize,
) -> Result<u64, Memory>
    requires { count ≤ 4000 }
{
    let mut found: u64 = 0;
    for call in 0..calls {
        if finds(alloc, subject, call as u64, count, width)? {
            found = found.saturating_add(1);
        }
    }
    Ok(found)
}
