//! The rows of the first turn of a loop: the premises moved along its direction, and the constants of the memories that are reset.

ghost use Rattle.std.specs.Prelude.{◌≡◌, ◌<◌, ◌≤◌, ◌+◌, ◌^◌, List, ◌++◌, All, length, Some, slice_get, IfOk, OnOk};
ghost use Rattle.std.specs.Int.RustNames.{unsigned_abs};
ghost use Rattle.rv_rows.specs.declared.linear.Row.{Row as RowModel};
ghost use Rattle.rv_rows.specs.declared.linear.Form.{Form as FormModel};
ghost use Rattle.rv_rows.specs.Rows.{row_at};
ghost use Rattle.rv_poly.specs.Images.{IsNarrow};
ghost use Rattle.rv_accel.specs.Turns.{IsCourse, HasNoReset, IsReset};
ghost use Rattle.rv_accel.specs.Taken.{AreTaken, AreCounted, IsProved};
ghost use Rattle.rv_accel.specs.Around.{IsFirst, IsMovable, AreMovable, HasMoved, HaveMoved, StandAt, gaining, staying, gains, stays};

use crate::level::gain_of;
use crate::proved::{Proved, keep, leave};
use crate::rows::{cut, unit_row};
use crate::turns::{Course, Placed, mentions_reset};
use crate::weights::{no_weights, one_weight};
use rv_base::{Many, Memory};
use rv_rows::{Row, number_at};
use std::alloc::Global;

/// Hands in the premise, moved along the direction. One that is not within the limits, or has a memory that is reset, is counted.
fn add_moved(
    alloc: Global,
    course: Course,
    premise: Placed,
    list: &mut Proved,
) -> Result<(), Memory>
    requires course { IsCourse course.updates.now course.steps.now }
    requires narrow { IsNarrow (length course.updates.now) premise.row.now }
    ensures counts { OnOk result (AreCounted course.entry.steps.now (gains course.entry.steps.now premise.entry.row.now)
        (stays course.entry.steps.now premise.entry.row.now)
        list.old list.new) }
    ensures taken { OnOk result ((given : List RowModel) → premise.entry.place < length given → row_at given premise.entry.place ≡ premise.entry.row.now
        → AreTaken (IsFirst given course.entry.updates.now course.entry.steps.now) (HasMoved course.entry.steps.now premise.entry.row.now)
        (IsMovable course.entry.updates.now course.entry.steps.now premise.entry.row.now) 1 list.old list.new) }
{
    if !premise.row.fits() {
        return leave(list);
    }
    if mentions_reset(course.updates, premise.row) {
        return leave(list);
    }
    let bound = premise.row.bound + gain_of(premise.row, course.steps);
    let row = cut(alloc, premise.row, course.steps.len(), bound)?;
    let proof = one_weight(alloc, premise.place)?;
    keep(list, row, proof)?;
    Ok(())
}

/// Hands in the rows of a list, whose first is the premise with a number, moved along the direction.
fn add_all_moved(
    alloc: Global,
    course: Course,
    rows: &Many<Row>,
    from: usize,
    list: &mut Proved,
) -> Result<(), Memory>
    requires course { IsCourse course.updates.now course.steps.now }
    requires narrow { All (IsNarrow (length course.updates.now)) rows.now }
    requires room { from + length rows.now < 2 ^ 32 }
    ensures counts { OnOk result (AreCounted course.entry.steps.now (gaining course.entry.steps.now rows.now)
        (staying course.entry.steps.now rows.now) list.old list.new) }
    ensures taken { OnOk result ((given : List RowModel) → StandAt from rows.now given
        → AreTaken (IsFirst given course.entry.updates.now course.entry.steps.now) (HaveMoved course.entry.steps.now rows.now (length rows.now))
        (AreMovable course.entry.updates.now course.entry.steps.now rows.now) (length rows.now)
        list.old list.new) }
{
    for place in 0..rows.len() {
        let premise = Placed {
            row: rows.at(place),
            place: (from + place) as u32,
        };
        add_moved(alloc, course, premise, list)?;
    }
    Ok(())
}

/// Hands in a bound of a memory that is reset, by its constant.
fn add_bound(
    alloc: Global,
    course: Course,
    column: usize,
    by: i128,
    constant: i128,
    list: &mut Proved,
) -> Result<(), Memory>
    requires course { IsCourse course.updates.now course.steps.now }
    requires small { unsigned_abs by ≤ 1 }
    requires constant { unsigned_abs constant ≤ 2 ^ 41 }
    requires there { column < length course.updates.now }
    requires reset { (f : FormModel) → slice_get course.updates.now column ≡ Some f → IsReset f × (f.constant ≡ constant) }
    ensures { OnOk result ((given : List RowModel) → AreTaken (IsFirst given course.entry.updates.now course.entry.steps.now)
        (λ rows. Unit {0}) ⊥ 1 list.old list.new) }
{
    let row = unit_row(alloc, course.steps.len(), column, by, by * constant)?;
    let proof = no_weights(alloc)?;
    keep(list, row, proof)?;
    Ok(())
}

/// Hands in both bounds of a memory where it is reset.
fn add_constant(
    alloc: Global,
    course: Course,
    column: usize,
    list: &mut Proved,
) -> Result<(), Memory>
    requires course { IsCourse course.updates.now course.steps.now }
    requires there { column < length course.updates.now }
    ensures counts { HasNoReset course.entry.updates.now → OnOk result (AreCounted course.entry.steps.now 0 0 list.old list.new) }
    ensures taken { OnOk result ((given : List RowModel) → AreTaken (IsFirst given course.entry.updates.now course.entry.steps.now) (λ rows. Unit {0})
        (HasNoReset course.entry.updates.now) 0 list.old list.new) }
{
    let form = course.updates.at(column);
    if number_at(&form.coefficients, column) != 0 {
        return Ok(());
    }
    add_bound(alloc, course, column, 1, form.constant, list)?;
    add_bound(alloc, course, column, -1, form.constant, list)?;
    Ok(())
}

/// Hands in the bounds of all memories that are reset.
fn add_constants(alloc: Global, course: Course, list: &mut Proved) -> Result<(), Memory>
    requires course { IsCourse course.updates.now course.steps.now }
    ensures counts { HasNoReset course.entry.updates.now → OnOk result (AreCounted course.entry.steps.now 0 0 list.old list.new) }
    ensures taken { OnOk result ((given : List RowModel) → AreTaken (IsFirst given course.entry.updates.now course.entry.steps.now) (λ rows. Unit {0})
        (HasNoReset course.entry.updates.now) 0 list.old list.new) }
{
    for column in 0..course.updates.len() {
        add_constant(alloc, course, column, list)?;
    }
    Ok(())
}

/// The rows of the first turn from the rows of the entry and of the tests, each with its proof.
pub fn first_rows(
    alloc: Global,
    course: Course,
    entry: &Many<Row>,
    tests: &Many<Row>,
) -> Result<Proved, Memory>
    requires course { IsCourse course.updates.now course.steps.now }
    requires entry { All (IsNarrow (length course.updates.now)) entry.now }
    requires tests { All (IsNarrow (length course.updates.now)) tests.now }
    requires room { length entry.now + length tests.now < 2 ^ 32 }
    ensures proved { IfOk result (IsProved (IsFirst (entry.now ++ tests.now) course.entry.updates.now course.entry.steps.now)) }
    ensures entry { IfOk result (λ l. l.dropped ≡ 0 → HaveMoved course.entry.steps.now entry.now (length entry.now) l.rows) }
    ensures tests { IfOk result (λ l. l.dropped ≡ 0 → HaveMoved course.entry.steps.now tests.now (length tests.now) l.rows) }
    ensures gaining { IfOk result (λ l. HasNoReset course.entry.updates.now
        → gaining course.entry.steps.now l.rows ≤ gaining course.entry.steps.now entry.now + gaining course.entry.steps.now tests.now) }
    ensures staying { IfOk result (λ l. HasNoReset course.entry.updates.now
        → staying course.entry.steps.now l.rows ≤ staying course.entry.steps.now entry.now + staying course.entry.steps.now tests.now) }
    ensures room { IfOk result (λ l. HasNoReset course.entry.updates.now → length entry.now + length tests.now ≤ 1024
        → AreMovable course.entry.updates.now course.entry.steps.now entry.now → AreMovable course.entry.updates.now course.entry.steps.now tests.now
        → l.dropped ≡ 0) }
{
    let mut list = Proved {
        rows: Many::new(alloc),
        by: Many::new(alloc),
        dropped: 0,
    };
    add_constants(alloc, course, &mut list)?;
    add_all_moved(alloc, course, entry, 0, &mut list)?;
    add_all_moved(alloc, course, tests, entry.len(), &mut list)?;
    Ok(list)
}
