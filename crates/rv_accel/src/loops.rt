//! Loops that are taken any number of times at once.

ghost use Rattle.std.specs.Prelude.{◌≡◌, ◌<◌, ◌≤◌, ◌+◌, ◌^◌, ℕ, List, ℤ, All, length, IfOk, IfSome, MatchOption, MatchBool};
ghost use Rattle.std.specs.Int.RustNames.{unsigned_abs};
ghost use Rattle.rv_rows.specs.Forms.{values, forms_width};
ghost use Rattle.rv_poly.specs.Points.{HasPoint};
ghost use Rattle.rv_poly.specs.Polys.{IsPoly};
ghost use Rattle.rv_poly.specs.Images.{IsNarrow};
ghost use Rattle.rv_accel.specs.Turns.{IsTurning, IsDirection, IsCourse, HasNoReset, magnitude};
ghost use Rattle.rv_accel.specs.Loops.{AreKept, AreTurnsShown, IsFirstExact, IsCone, AreSmall, IsNothing, IsAlong, IsPromised};

use crate::around::rows_around;
use crate::first::first_rows;
use crate::kept::kept_proofs;
use crate::turns::{Course, direction_of};
use rv_base::{Many, Memory};
use rv_poly::Poly;
use rv_proofs::Case;
use rv_rows::{Form, Multipliers, Row};
use std::alloc::Global;

/// What is proved of a loop that is taken any number of times: rows that hold after the first turn, and rows that hold after each.
#[derive(Debug, Drop)]
pub struct LoopSets {
    /// Rows of the points after the first turn.
    pub first: Many<Row>,
    /// Rows of these points and of those after all later turns.
    pub around: Many<Row>,
    /// How many rows were left out of either, since there was no room or they were not within the limits of kept rows.
    pub dropped: u64,
    /// The proofs of `first` after the updates, from the rows of the entry and those of the tests.
    pub into_first: Many<Multipliers>,
    /// The proofs of `around`, from `first` and the rows of the tests.
    pub into_around: Many<Multipliers>,
    /// The proofs of `around` after the updates, from `around` and the rows of the tests.
    pub kept_around: Many<Multipliers>,
}

/// The greatest magnitude of a constant of an update.
const MOST_CONSTANT: u128 = 1 << 41;

/// The greatest sum of the magnitudes of the steps: that of 128 constants.
const MOST_TOTAL: u128 = 1 << 48;

/// Whether no constant of an update is above the limit of a source.
fn are_small(updates: &Many<Form>) -> bool
    ensures { MatchBool result (All (λ f. unsigned_abs f.constant ≤ 2 ^ 41) updates.now) (¬ All (λ f. unsigned_abs f.constant ≤ 2 ^ 41) updates.now) }
{
    for form in updates.as_slice() {
        if form.constant.unsigned_abs() > MOST_CONSTANT {
            return false;
        }
    }
    true
}

/// Whether the magnitudes of the steps sum up to no more than there may be.
fn is_short(steps: &Many<i128>) -> bool
    ensures { MatchBool result (magnitude steps.now ≤ 2 ^ 48) (¬ (magnitude steps.now ≤ 2 ^ 48)) }
{
    let mut total: u128 = 0;
    for column in 0..steps.len() {
        let size = steps.at(column).unsigned_abs();
        if size > MOST_TOTAL {
            return false;
        }
        total += size;
        if total > MOST_TOTAL {
            return false;
        }
    }
    true
}

/// No rows, of which one is said to be left out.
fn nothing(alloc: Global) -> LoopSets
    ensures { IsNothing result }
{
    LoopSets {
        first: Many::new(alloc),
        around: Many::new(alloc),
        dropped: 1,
        into_first: Many::new(alloc),
        into_around: Many::new(alloc),
        kept_around: Many::new(alloc),
    }
}

/// The rows of a loop whose updates are turns along a direction.
fn along(alloc: Global, course: Course, entry: &Poly, tests: &Many<Row>) -> Result<LoopSets, Memory>
    requires course { IsCourse course.updates.now course.steps.now }
    requires entry { All (IsNarrow (length course.updates.now)) entry.now.rows }
    requires tests { All (IsNarrow (length course.updates.now)) tests.now }
    requires room { length entry.now.rows + length tests.now < 2 ^ 32 }
    requires few { length tests.now + 1024 < 2 ^ 32 }
    ensures { IfOk result (IsAlong entry.now.rows course.entry.updates.now course.entry.steps.now tests.now) }
{
    let first = first_rows(alloc, course, &entry.rows, tests)?;
    let around = rows_around(alloc, course, &first.rows, tests)?;
    let kept_around = kept_proofs(alloc, course, &around.rows)?;
    Ok(LoopSets {
        first: first.rows,
        around: around.rows,
        dropped: first.dropped.saturating_add(around.dropped),
        into_first: first.by,
        into_around: around.by,
        kept_around,
    })
}

/// The rows of a loop along its direction, or none where its updates are not within the limits of a source.
fn sets_along(
    alloc: Global,
    entry: &Poly,
    case: &Case,
    steps: &Many<i128>,
) -> Result<LoopSets, Memory>
    requires width { All (λ r. length r.coefficients ≡ length case.now.updates) entry.now.rows }
    requires updates { All (λ f. length f.coefficients ≡ forms_width case.now.updates) case.now.updates }
    requires few { length entry.now.rows + length case.now.rows + 1024 < 2 ^ 32 }
    requires turning { IsTurning case.now }
    requires direction { IsDirection case.now.updates steps.now }
    ensures { IfOk result (IsPromised entry.now.rows case.now) }
{
    if !are_small(&case.updates) {
        return Ok(nothing(alloc));
    }
    if !is_short(steps) {
        return Ok(nothing(alloc));
    }
    let course = Course {
        updates: &case.updates,
        steps,
    };
    let sets = along(alloc, course, entry, &case.rows)?;
    Ok(sets)
}

/// A loop that is taken any number of times at once (Schrammel and Jeannet 2011): the rows `first` of the points after its first turn, from the
/// entry, and the rows `around` of these points and of all that later turns lead to. The entry has a column for each update. The case's rows
/// and updates may have further columns, which are inputs. None comes exactly where a row of the case or an update has an integer input, or an
/// update is neither its own memory plus a constant nor a constant. The only error is Memory.
///
/// `first` contains the updated point of each point of the entry that meets the case's rows and, where nothing was dropped and no memory is
/// reset, no other. Where nothing was dropped, `around` is exactly the cone of `first` and of the case's rows along the constants of the
/// updates, with 0 at resets. Both have one proof for each row: of `first` after the updates from the entry and the case's rows, of `around`
/// as it is from `first` and the case's rows, and of `around` after the updates from `around` and the case's rows. Nothing is dropped where no
/// memory is reset, there are at most 32 rows, and two products of their numbers and of the direction are within the limits of kept rows.
pub fn accelerate(alloc: Global, entry: &Poly, case: &Case) -> Result<Option<LoopSets>, Memory>
    requires poly { IsPoly entry.now.rows }
    requires width { All (λ r. length r.coefficients ≡ length case.now.updates) entry.now.rows }
    requires updates { All (λ f. length f.coefficients ≡ forms_width case.now.updates) case.now.updates }
    requires few { length entry.now.rows + length case.now.rows + 1024 < 2 ^ 32 }
    ensures none { IfOk result (λ o. MatchOption o (¬ IsTurning case.now) (λ s. IsTurning case.now)) }
    ensures first_kept { IfOk result (λ o. IfSome o (λ s. AreKept (length case.now.updates) s.first)) }
    ensures around_kept { IfOk result (λ o. IfSome o (λ s. AreKept (length case.now.updates) s.around)) }
    ensures proofs { IfOk result (λ o. IfSome o (λ s. AreTurnsShown entry.now.rows case.now s)) }
    ensures contains { IfOk result (λ o. IfSome o (λ s. (point : List ℤ) → HasPoint entry.now.rows point → HasPoint case.now.rows point
        → HasPoint s.first (values case.now.updates point))) }
    ensures exact { IfOk result (λ o. IfSome o (λ s. s.dropped ≡ 0 → HasNoReset case.now.updates → IsFirstExact entry.now.rows case.now s)) }
    ensures cone { IfOk result (λ o. IfSome o (λ s. s.dropped ≡ 0 → IsCone case.now s)) }
    ensures sizes { IfOk result (λ o. IfSome o (λ s. (m b t : ℕ) → AreSmall entry.now.rows case.now m b t → s.dropped ≡ 0)) }
{
    let Some(steps) = direction_of(alloc, case)? else {
        return Ok(None);
    };
    let sets = sets_along(alloc, entry, case, &steps)?;
    Ok(Some(sets))
}
