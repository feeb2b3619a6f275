//! Reading rows.

ghost use Rattle.std.specs.Prelude.{◌≡◌, ◌+◌, ◌<◌, ◌≤◌, length, IfOk};
ghost use Rattle.rv_invfile.specs.Ahead.{here, ReadsFields};
ghost use Rattle.rv_invfile.specs.Parts.{times};
ghost use Rattle.rv_invfile.specs.Readers.{Reads, run};
ghost use Rattle.rv_invariant.specs.Pieces as pieces;

use crate::numbers::whole_within;
use rv_base::Many;
use rv_invfile::{FileFault, Records, read_count};
use rv_rows::Row;
use std::alloc::Global;

/// The row of the record that stands here, or the first field that is wrong.
fn read_numbers(alloc: Global, records: &Records<'_>, memories: u32) -> Result<Row, FileFault>
    requires many { length (here records.now) ≡ memories + 2 }
    requires few { memories ≤ 4096 }
    ensures { ReadsFields records.now (pieces.row_form memories) (pieces.row_of memories (here records.now)) result }
{
    let Some(bound) = whole_within(records.field(1), 1 << 60) else {
        return Err(FileFault::BadNumber(records.number(), 1));
    };
    let mut coefficients = Many::from_vec(Vec::with_capacity(alloc, memories as usize)?);
    for index in 0..memories {
        let Some(number) = whole_within(records.field(index as usize + 2), 1 << 30) else {
            return Err(FileFault::BadNumber(records.number(), index + 2));
        };
        coefficients.push(number)?;
    }
    Ok(Row {
        coefficients,
        bound,
    })
}

/// A row.
fn read_row(alloc: Global, records: &mut Records<'_>, memories: u32) -> Result<Row, FileFault>
    requires { memories ≤ 4096 }
    ensures { Reads (λ r. r) (run (pieces.a_row memories) records.old) result records.new }
{
    records.expect(b"row", memories as usize + 2)?;
    let row = read_numbers(alloc, records, memories)?;
    records.advance()?;
    Ok(row)
}

/// So many rows, in a list with as much room as they take.
fn read_rows(
    alloc: Global,
    records: &mut Records<'_>,
    memories: u32,
    count: u64,
) -> Result<Many<Row>, FileFault>
    requires { memories ≤ 4096 }
    ensures read { Reads (λ rows. rows) (run (times count (pieces.a_row memories)) records.old) result records.new }
    ensures counted { IfOk result (λ rows. length rows ≡ count) }
{
    let room = if count < 1024 { count as usize } else { 1024 };
    let mut rows = Many::from_vec(Vec::with_capacity(alloc, room)?);
    for done in 0..count {
        rows.push(read_row(alloc, records, memories)?)?;
    }
    Ok(rows)
}

/// A count of this range and as many rows.
pub fn read_list(
    alloc: Global,
    records: &mut Records<'_>,
    memories: u32,
    word: &[u8],
    low: u64,
    high: u64,
) -> Result<Many<Row>, FileFault>
    requires { memories ≤ 4096 }
    ensures read { Reads (λ rows. rows) (run (pieces.a_list memories word.now low high) records.old) result records.new }
    ensures counted { IfOk result (λ rows. length rows ≤ high) }
{
    let count = read_count(records, word, low, high)?;
    read_rows(alloc, records, memories, count)
}
