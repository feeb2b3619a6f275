// Rows with 1 or -1 at one or two columns that all points of a set meet.
ghost use Rattle.std.specs.Prelude.{◌≡◌, ℕ, ◌<◌, ℤ, pos, List, length, IfOk, OnOk, if◌then◌else◌};
ghost use Rattle.std.specs.Int.RustNames.{unsigned_abs};
ghost use Rattle.rv_rows.specs.Forms.{number};
ghost use Rattle.rv_poly.specs.Closing.{unit_number, IsUnitAdded, IsPairAdded, ArePairsAdded, AreAxesAdded, AreDiagonalsAdded, AreUnitsAdded};

use crate::bounds::Bounding;
use crate::close::add_side;
use rv_base::{Many, Memory};
use rv_rows::Row;
use std::alloc::Global;

/// The number of a unit side at a column.
fn pick(at_first: bool, by: i128, at_second: bool, other: i128) -> i128
    ensures { result ≡ (if at_first then by else (if at_second then other else pos 0)) }
{
    if at_first {
        return by;
    }
    if at_second {
        return other;
    }
    0
}

/// The left side with `by` at one column, `other` at another, and 0 elsewhere.
fn unit_side(
    alloc: Global,
    width: usize,
    first: usize,
    by: i128,
    second: usize,
    other: i128,
) -> Result<Many<i128>, Memory>
    ensures width { IfOk result (λ s. length s ≡ width) }
    ensures numbers { IfOk result (λ s. (k : ℕ) → k < width → number k s ≡ unit_number first by second other k) }
{
    let mut side = Many::new(alloc);
    for column in 0..width {
        let number = pick(column == first, by, column == second, other);
        side.push(number)?;
    }
    Ok(side)
}

/// Adds a row with such a left side.
fn add_unit<B: Bounding>(
    alloc: Global,
    set: &B,
    width: usize,
    first: usize,
    by: i128,
    second: usize,
    other: i128,
    rows: &mut Many<Row>,
) -> Result<(), Memory>
    requires ready { B.ready set.now }
    requires takes { (side : List ℤ) → length side ≡ width → B.takes set.now side }
    requires by { unsigned_abs by ≡ 1 }
    requires other { unsigned_abs other ≡ 1 }
    ensures { OnOk result (IsUnitAdded (B.has set.now) (B.shows set.now) width first by second other rows.old rows.new) }
{
    let side = unit_side(alloc, width, first, by, second, other)?;
    add_side(alloc, set, &side, rows)?;
    Ok(())
}

/// Adds a row for each two signs at the two columns.
fn add_pair<B: Bounding>(
    alloc: Global,
    set: &B,
    width: usize,
    first: usize,
    second: usize,
    rows: &mut Many<Row>,
) -> Result<(), Memory>
    requires ready { B.ready set.now }
    requires takes { (side : List ℤ) → length side ≡ width → B.takes set.now side }
    ensures { OnOk result (IsPairAdded (B.has set.now) (B.shows set.now) width first second rows.old rows.new) }
{
    add_unit(alloc, set, width, first, 1, second, 1, rows)?;
    add_unit(alloc, set, width, first, 1, second, -1, rows)?;
    add_unit(alloc, set, width, first, -1, second, 1, rows)?;
    add_unit(alloc, set, width, first, -1, second, -1, rows)?;
    Ok(())
}

/// Adds a row for each sign at the column.
fn add_axis<B: Bounding>(
    alloc: Global,
    set: &B,
    width: usize,
    first: usize,
    rows: &mut Many<Row>,
) -> Result<(), Memory>
    requires ready { B.ready set.now }
    requires takes { (side : List ℤ) → length side ≡ width → B.takes set.now side }
    ensures { OnOk result (IsPairAdded (B.has set.now) (B.shows set.now) width first first rows.old rows.new) }
{
    add_unit(alloc, set, width, first, 1, first, 1, rows)?;
    add_unit(alloc, set, width, first, -1, first, -1, rows)?;
    Ok(())
}

/// Adds a row for each sign at each column.
fn add_axes<B: Bounding>(
    alloc: Global,
    set: &B,
    width: usize,
    rows: &mut Many<Row>,
) -> Result<(), Memory>
    requires ready { B.ready set.now }
    requires takes { (side : List ℤ) → length side ≡ width → B.takes set.now side }
    ensures { OnOk result (AreAxesAdded (B.has set.now) (B.shows set.now) width width rows.old rows.new) }
{
    for first in 0..width {
        add_axis(alloc, set, width, first, rows)?;
    }
    Ok(())
}

/// Adds a row for each two signs at the column and a later one.
fn add_pairs<B: Bounding>(
    alloc: Global,
    set: &B,
    width: usize,
    first: usize,
    rows: &mut Many<Row>,
) -> Result<(), Memory>
    requires ready { B.ready set.now }
    requires takes { (side : List ℤ) → length side ≡ width → B.takes set.now side }
    requires first { first < width }
    ensures { OnOk result (ArePairsAdded (B.has set.now) (B.shows set.now) width first width rows.old rows.new) }
{
    for second in first + 1..width {
        add_pair(alloc, set, width, first, second, rows)?;
    }
    Ok(())
}

/// Adds a row for each two signs at each two columns.
fn add_diagonals<B: Bounding>(
    alloc: Global,
    set: &B,
    width: usize,
    rows: &mut Many<Row>,
) -> Result<(), Memory>
    requires ready { B.ready set.now }
    requires takes { (side : List ℤ) → length side ≡ width → B.takes set.now side }
    ensures { OnOk result (AreDiagonalsAdded (B.has set.now) (B.shows set.now) width width rows.old rows.new) }
{
    for first in 0..width {
        add_pairs(alloc, set, width, first, rows)?;
    }
    Ok(())
}

/// Adds a row for each left side with 1 or -1 at one or two columns, those with one first.
pub fn add_units<B: Bounding>(
    alloc: Global,
    set: &B,
    width: usize,
    rows: &mut Many<Row>,
) -> Result<(), Memory>
    requires ready { B.ready set.now }
    requires takes { (side : List ℤ) → length side ≡ width → B.takes set.now side }
    ensures { OnOk result (AreUnitsAdded (B.has set.now) (B.shows set.now) width rows.old rows.new) }
{
    add_axes(alloc, set, width, rows)?;
    add_diagonals(alloc, set, width, rows)?;
    Ok(())
}
