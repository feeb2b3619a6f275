//! Proofs that the rows around a loop hold after each turn.

ghost use Rattle.std.specs.Prelude.{◌≡◌, ◌<◌, ◌≤◌, List, ◌++◌, All, length, IfOk};
ghost use Rattle.rv_rows.specs.declared.linear.Row.{Row as RowModel};
ghost use Rattle.rv_rows.specs.Rows.{row_at};
ghost use Rattle.rv_accel.specs.Turns.{IsCourse};
ghost use Rattle.rv_accel.specs.Shown.{StaysTrue, IsShownAfter, AreShown};

use crate::turns::{Course, Placed, mentions_reset};
use crate::weights::{no_weights, one_weight};
use rv_base::{Many, Memory};
use rv_rows::{Multipliers, Row};
use std::alloc::Global;

/// The proof that a premise holds after a turn: itself, or nothing where it bounds a memory that is reset.
fn kept_proof(alloc: Global, course: Course, premise: Placed) -> Result<Multipliers, Memory>
    requires course { IsCourse course.updates.now course.steps.now }
    requires width { length premise.row.now.coefficients ≡ length course.updates.now }
    requires stays { StaysTrue course.updates.now course.steps.now premise.row.now }
    ensures { (given : List RowModel) → premise.entry.place < length given → row_at given premise.entry.place ≡ premise.entry.row.now
        → IfOk result (IsShownAfter given course.entry.updates.now premise.entry.row.now) }
{
    if mentions_reset(course.updates, premise.row) {
        let none = no_weights(alloc)?;
        return Ok(none);
    }
    let proof = one_weight(alloc, premise.place)?;
    Ok(proof)
}

/// So for each row of a list, which the premises begin with.
pub fn kept_proofs(
    alloc: Global,
    course: Course,
    rows: &Many<Row>,
) -> Result<Many<Multipliers>, Memory>
    requires course { IsCourse course.updates.now course.steps.now }
    requires widths { All (λ r. length r.coefficients ≡ length course.updates.now) rows.now }
    requires stays { All (StaysTrue course.updates.now course.steps.now) rows.now }
    requires few { length rows.now ≤ 1024 }
    ensures { (tests : List RowModel) → IfOk result (AreShown (IsShownAfter (rows.now ++ tests) course.entry.updates.now) rows.now) }
{
    let mut proofs = Many::new(alloc);
    for place in 0..rows.len() {
        let premise = Placed {
            row: rows.at(place),
            place: place as u32,
        };
        let proof = kept_proof(alloc, course, premise)?;
        proofs.push(proof)?;
    }
    Ok(proofs)
}
