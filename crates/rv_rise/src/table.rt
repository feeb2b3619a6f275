//! The table of all left sides of candidates: 1 or -1 at one integer memory, or at two where there are at most 22 of them.

ghost use Rattle.std.specs.Prelude.{◌≡◌, ◌≢◌, ◌+◌, ◌*◌, ◌<◌, ◌≤◌, pos, length, IfOk, OnOk};
ghost use Rattle.rv_proofs.specs.Systems.{System};
ghost use Rattle.rv_rise.specs.Sides.{AreSides};
ghost use Rattle.rv_rise.specs.Table.{IsPattern, IsAdded, AreBothAdded, IsTableOf, column_places, pair_places};

use rv_base::{Many, Memory};
use rv_rows::Row;
use std::alloc::Global;

/// The most integer memories of which pairs are in the table.
const MOST_IN_PAIRS: usize = 22;

/// The number at a column of a left side that has one number at a first column and another at a second.
fn number_of(column: usize, first: usize, one: i128, second: usize, other: i128) -> i128
    ensures second { column ≡ second → result ≡ other }
    ensures first { column ≢ second → column ≡ first → result ≡ one }
    ensures none { column ≢ second → column ≢ first → result ≡ pos 0 }
{
    if column == second {
        other
    } else if column == first {
        one
    } else {
        0
    }
}

/// The left side that has one number at a first column and another at a second. Where both columns are one it has the second number.
fn side_with(
    alloc: Global,
    memories: usize,
    first: usize,
    one: i128,
    second: usize,
    other: i128,
) -> Result<Row, Memory>
    requires order { first ≤ second }
    requires known { second < memories }
    ensures { IfOk result (IsPattern memories first one second other) }
{
    let mut coefficients = Many::new(alloc);
    for column in 0..memories {
        coefficients.push(number_of(column, first, one, second, other))?;
    }
    Ok(Row {
        coefficients,
        bound: 0,
    })
}

/// Adds a left side.
fn add_side(
    alloc: Global,
    sides: &mut Many<Row>,
    memories: usize,
    first: usize,
    one: i128,
    second: usize,
    other: i128,
) -> Result<(), Memory>
    requires order { first ≤ second }
    requires known { second < memories }
    ensures { OnOk result (IsAdded memories first one second other sides.old sides.new) }
{
    let side = side_with(alloc, memories, first, one, second, other)?;
    sides.push(side)?;
    Ok(())
}

/// Adds the left sides with a number at a first column, and with 1 and with -1 at a second.
fn add_signs(
    alloc: Global,
    sides: &mut Many<Row>,
    memories: usize,
    first: usize,
    one: i128,
    second: usize,
) -> Result<(), Memory>
    requires order { first ≤ second }
    requires known { second < memories }
    ensures { OnOk result (AreBothAdded memories first one second sides.old sides.new) }
{
    add_side(alloc, sides, memories, first, one, second, 1)?;
    add_side(alloc, sides, memories, first, one, second, -1)?;
    Ok(())
}

/// Adds the four left sides of a pair of columns.
fn add_pair(
    alloc: Global,
    sides: &mut Many<Row>,
    memories: usize,
    first: usize,
    second: usize,
) -> Result<(), Memory>
    requires order { first < second }
    requires known { second < memories }
    requires few { memories ≤ 22 }
    requires before { IsTableOf memories (pair_places memories second first) sides.old }
    ensures after { OnOk result (IsTableOf memories (pair_places memories second (first + 1)) sides.new) }
    ensures count { OnOk result (length sides.new ≡ length sides.old + 4) }
{
    add_signs(alloc, sides, memories, first, 1, second)?;
    add_signs(alloc, sides, memories, first, -1, second)?;
    Ok(())
}

/// Adds the left sides of all pairs with a second column.
fn add_pairs(
    alloc: Global,
    sides: &mut Many<Row>,
    memories: usize,
    second: usize,
) -> Result<(), Memory>
    requires known { second < memories }
    requires few { memories ≤ 22 }
    requires before { IsTableOf memories (pair_places memories second 0) sides.old }
    ensures after { OnOk result (IsTableOf memories (pair_places memories second second) sides.new) }
    ensures count { OnOk result (length sides.new ≡ length sides.old + 4 * second) }
{
    for first in 0..second {
        add_pair(alloc, sides, memories, first, second)?;
    }
    Ok(())
}

/// Adds the left sides of one column, and of all pairs with it as the second.
fn add_column(
    alloc: Global,
    sides: &mut Many<Row>,
    memories: usize,
    column: usize,
) -> Result<(), Memory>
    requires known { column < memories }
    requires before { IsTableOf memories (column_places memories column) sides.old }
    ensures after { OnOk result (IsTableOf memories (column_places memories (column + 1)) sides.new) }
    ensures pairs { OnOk result (memories ≤ 22 → length sides.new ≡ length sides.old + 2 + 4 * column) }
    ensures alone { OnOk result (22 < memories → length sides.new ≡ length sides.old + 2) }
{
    add_signs(alloc, sides, memories, column, 1, column)?;
    if memories > MOST_IN_PAIRS {
        return Ok(());
    }
    add_pairs(alloc, sides, memories, column)?;
    Ok(())
}

/// All left sides of candidates over so many integer memories, each once.
pub fn sides_of(alloc: Global, memories: usize) -> Result<Many<Row>, Memory>
    requires { memories ≤ 64 }
    ensures { (s : System) → s.memories ≡ memories → IfOk result (AreSides s) }
{
    let mut sides = Many::new(alloc);
    for column in 0..memories {
        add_column(alloc, &mut sides, memories, column)?;
    }
    Ok(sides)
}
