//! The rows around all turns of a loop: the cone of the rows of its first turn and of its tests, along its direction.

ghost use Rattle.std.specs.Prelude.{◌≡◌, ◌<◌, ◌≤◌, ◌+◌, ◌*◌, ◌^◌, ℕ, ℤ, pos, ◌≤ℤ◌, ◌<ℤ◌, List, ◌++◌, All, length, IfOk, OnOk};
ghost use Rattle.rv_rows.specs.declared.linear.Row.{Row as RowModel};
ghost use Rattle.rv_rows.specs.Rows.{row_at};
ghost use Rattle.rv_poly.specs.Images.{IsNarrow};
ghost use Rattle.rv_accel.specs.Turns.{IsCourse};
ghost use Rattle.rv_accel.specs.Pairs.{gain};
ghost use Rattle.rv_accel.specs.Taken.{AreTaken, IsProved};
ghost use Rattle.rv_accel.specs.Around.{IsAround, IsUsable, IsDown, IsSmallPair, AreSmallSums, AreSmallSumsOf, AreAllSmall, HasAround, StandAt};
ghost use Rattle.rv_accel.specs.Around.{HasCopy, HasSum, HasSums, HasSumsOf, HasAllSums, HasLevel, losing, gaining, staying, loses, gains, stays};

use crate::level::{gain_of, levelled};
use crate::proved::{Proved, keep, leave};
use crate::rows::cut;
use crate::turns::{Course, Placed, mentions_reset};
use crate::weights::{one_weight, two_weights};
use rv_base::{Many, Memory};
use rv_rows::{Row, Weight};
use std::alloc::Global;

/// The greatest weight of a proof.
const MOST_WEIGHT: i128 = 1 << 41;

/// Hands in the levelled sum of two rows of the premises, or counts it where its weights are too large.
fn add_sum(
    alloc: Global,
    course: Course,
    up: Placed,
    down: Placed,
    list: &mut Proved,
) -> Result<(), Memory>
    requires course { IsCourse course.updates.now course.steps.now }
    requires up { IsUsable course.updates.now up.row.now }
    requires down { IsUsable course.updates.now down.row.now }
    requires rises { pos 0 <ℤ gain course.steps.now up.row.now }
    requires falls { gain course.steps.now down.row.now <ℤ pos 0 }
    ensures { OnOk result ((given : List RowModel) → up.entry.place < length given → down.entry.place < length given
        → row_at given up.entry.place ≡ up.entry.row.now → row_at given down.entry.place ≡ down.entry.row.now
        → AreTaken (IsAround given course.entry.updates.now course.entry.steps.now) (HasSum course.entry.steps.now up.entry.row.now down.entry.row.now)
        (IsSmallPair course.entry.steps.now up.entry.row.now down.entry.row.now) 1 list.old list.new) }
{
    let with = gain_of(up.row, course.steps);
    let by = 0 - gain_of(down.row, course.steps);
    if with > MOST_WEIGHT {
        return leave(list);
    }
    if by > MOST_WEIGHT {
        return leave(list);
    }
    let row = levelled(alloc, up.row, down.row, by, with, course.steps)?;
    let proof = two_weights(
        alloc,
        Weight {
            premise: up.place,
            by,
        },
        Weight {
            premise: down.place,
            by: with,
        },
    )?;
    keep(list, row, proof)?;
    Ok(())
}

/// Hands in the sum with a row that loses, and nothing with another.
fn add_sum_below(
    alloc: Global,
    course: Course,
    up: Placed,
    down: Placed,
    list: &mut Proved,
) -> Result<(), Memory>
    requires course { IsCourse course.updates.now course.steps.now }
    requires up { IsUsable course.updates.now up.row.now }
    requires down { IsDown course.updates.now course.steps.now down.row.now }
    requires rises { pos 0 <ℤ gain course.steps.now up.row.now }
    ensures { OnOk result ((given : List RowModel) → up.entry.place < length given → down.entry.place < length given
        → row_at given up.entry.place ≡ up.entry.row.now → row_at given down.entry.place ≡ down.entry.row.now
        → AreTaken (IsAround given course.entry.updates.now course.entry.steps.now)
        (λ rows. gain course.entry.steps.now down.entry.row.now <ℤ pos 0 → HasSum course.entry.steps.now up.entry.row.now down.entry.row.now rows)
        (IsSmallPair course.entry.steps.now up.entry.row.now down.entry.row.now) (loses course.entry.steps.now down.entry.row.now) list.old list.new) }
{
    if gain_of(down.row, course.steps) >= 0 {
        return Ok(());
    }
    add_sum(alloc, course, up, down, list)?;
    Ok(())
}

/// Hands in the sums of a row that gains with each that loses.
fn add_sums(
    alloc: Global,
    course: Course,
    up: Placed,
    downs: &Many<Row>,
    list: &mut Proved,
) -> Result<(), Memory>
    requires course { IsCourse course.updates.now course.steps.now }
    requires up { IsUsable course.updates.now up.row.now }
    requires downs { All (IsDown course.updates.now course.steps.now) downs.now }
    requires few { length downs.now ≤ 1024 }
    requires rises { pos 0 <ℤ gain course.steps.now up.row.now }
    ensures { OnOk result ((given : List RowModel) → up.entry.place < length given → row_at given up.entry.place ≡ up.entry.row.now → StandAt 0 downs.now given
        → AreTaken (IsAround given course.entry.updates.now course.entry.steps.now)
        (HasSums course.entry.steps.now up.entry.row.now downs.now (length downs.now))
        (AreSmallSums course.entry.steps.now up.entry.row.now downs.now) (losing course.entry.steps.now downs.now) list.old list.new) }
{
    for place in 0..downs.len() {
        let down = Placed {
            row: downs.at(place),
            place: place as u32,
        };
        add_sum_below(alloc, course, up, down, list)?;
    }
    Ok(())
}

/// Does so where the row gains. A row that cannot be used is counted.
fn add_sums_of(
    alloc: Global,
    course: Course,
    up: Placed,
    downs: &Many<Row>,
    list: &mut Proved,
) -> Result<(), Memory>
    requires course { IsCourse course.updates.now course.steps.now }
    requires narrow { IsNarrow (length course.updates.now) up.row.now }
    requires downs { All (IsDown course.updates.now course.steps.now) downs.now }
    requires few { length downs.now ≤ 1024 }
    ensures { OnOk result ((given : List RowModel) → up.entry.place < length given → row_at given up.entry.place ≡ up.entry.row.now → StandAt 0 downs.now given
        → AreTaken (IsAround given course.entry.updates.now course.entry.steps.now)
        (HasSumsOf course.entry.steps.now up.entry.row.now downs.now)
        (AreSmallSumsOf course.entry.updates.now course.entry.steps.now up.entry.row.now downs.now)
        (gains course.entry.steps.now up.entry.row.now * losing course.entry.steps.now downs.now)
        list.old list.new) }
{
    if !up.row.fits() {
        return leave(list);
    }
    if gain_of(up.row, course.steps) <= 0 {
        return Ok(());
    }
    if mentions_reset(course.updates, up.row) {
        return leave(list);
    }
    add_sums(alloc, course, up, downs, list)?;
    Ok(())
}

/// Does so for each row of a list, whose first is the premise with a number.
fn add_all_sums(
    alloc: Global,
    course: Course,
    ups: &Many<Row>,
    from: usize,
    downs: &Many<Row>,
    list: &mut Proved,
) -> Result<(), Memory>
    requires course { IsCourse course.updates.now course.steps.now }
    requires narrow { All (IsNarrow (length course.updates.now)) ups.now }
    requires downs { All (IsDown course.updates.now course.steps.now) downs.now }
    requires few { length downs.now ≤ 1024 }
    requires room { from + length ups.now < 2 ^ 32 }
    ensures { OnOk result ((given : List RowModel) → StandAt from ups.now given → StandAt 0 downs.now given
        → AreTaken (IsAround given course.entry.updates.now course.entry.steps.now)
        (HasAllSums course.entry.steps.now ups.now downs.now (length ups.now))
        (AreAllSmall course.entry.updates.now course.entry.steps.now ups.now downs.now)
        (gaining course.entry.steps.now ups.now * losing course.entry.steps.now downs.now) list.old list.new) }
{
    for place in 0..ups.len() {
        let up = Placed {
            row: ups.at(place),
            place: (from + place) as u32,
        };
        add_sums_of(alloc, course, up, downs, list)?;
    }
    Ok(())
}

/// Hands in a premise that does not gain.
fn add_level(alloc: Global, course: Course, down: Placed, list: &mut Proved) -> Result<(), Memory>
    requires course { IsCourse course.updates.now course.steps.now }
    requires down { IsDown course.updates.now course.steps.now down.row.now }
    ensures { OnOk result ((given : List RowModel) → down.entry.place < length given → row_at given down.entry.place ≡ down.entry.row.now
        → AreTaken (IsAround given course.entry.updates.now course.entry.steps.now)
        (λ rows. gain course.entry.steps.now down.entry.row.now ≤ℤ pos 0 → HasCopy down.entry.row.now rows) (Unit {0})
        (stays course.entry.steps.now down.entry.row.now) list.old list.new) }
{
    if gain_of(down.row, course.steps) > 0 {
        return Ok(());
    }
    let row = cut(alloc, down.row, course.steps.len(), down.row.bound)?;
    let proof = one_weight(alloc, down.place)?;
    keep(list, row, proof)?;
    Ok(())
}

/// Hands in the rows of the first turn that do not gain.
fn add_levels(
    alloc: Global,
    course: Course,
    downs: &Many<Row>,
    list: &mut Proved,
) -> Result<(), Memory>
    requires course { IsCourse course.updates.now course.steps.now }
    requires downs { All (IsDown course.updates.now course.steps.now) downs.now }
    requires few { length downs.now ≤ 1024 }
    ensures { OnOk result ((given : List RowModel) → StandAt 0 downs.now given
        → AreTaken (IsAround given course.entry.updates.now course.entry.steps.now) (HasLevel course.entry.steps.now downs.now (length downs.now)) (Unit {0})
        (staying course.entry.steps.now downs.now) list.old list.new) }
{
    for place in 0..downs.len() {
        let down = Placed {
            row: downs.at(place),
            place: place as u32,
        };
        add_level(alloc, course, down, list)?;
    }
    Ok(())
}

/// The rows around all turns, each with its proof from the rows of the first turn and the rows of the tests.
pub fn rows_around(
    alloc: Global,
    course: Course,
    first: &Many<Row>,
    rows: &Many<Row>,
) -> Result<Proved, Memory>
    requires course { IsCourse course.updates.now course.steps.now }
    requires narrow { All (IsNarrow (length course.updates.now)) rows.now }
    requires first { All (IsDown course.updates.now course.steps.now) first.now }
    requires few { length first.now ≤ 1024 }
    requires room { length first.now + length rows.now < 2 ^ 32 }
    ensures proved { IfOk result (IsProved (IsAround (first.now ++ rows.now) course.entry.updates.now course.entry.steps.now)) }
    ensures has { IfOk result (λ l. l.dropped ≡ 0 → HasAround course.entry.steps.now first.now rows.now l.rows) }
    ensures room { IfOk result (λ l. AreAllSmall course.entry.updates.now course.entry.steps.now rows.now first.now
        → AreAllSmall course.entry.updates.now course.entry.steps.now first.now first.now
        → staying course.entry.steps.now first.now
        + (gaining course.entry.steps.now first.now + gaining course.entry.steps.now rows.now) * losing course.entry.steps.now first.now ≤ 1024
        → l.dropped ≡ 0) }
{
    let mut list = Proved {
        rows: Many::new(alloc),
        by: Many::new(alloc),
        dropped: 0,
    };
    add_levels(alloc, course, first, &mut list)?;
    add_all_sums(alloc, course, rows, first.len(), first, &mut list)?;
    add_all_sums(alloc, course, first, 0, first, &mut list)?;
    Ok(list)
}
