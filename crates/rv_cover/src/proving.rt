//! What refutes the premises of a valuation, and proves rows after its updates: by the box of the premises, or by pairs of them.

ghost use Rattle.std.specs.Prelude.{◌≡◌, ◌<◌, ◌+◌, ◌^◌, pos, All, IfOk, IfSome, length};
ghost use Rattle.rv_rows.specs.Forms.{CanSubstitute};
ghost use Rattle.rv_proofs.specs.Ranges.{IsRecord};
ghost use Rattle.rv_cover.specs.Premises.{IsNarrow};

use crate::frame::By;
use crate::pairing::{reach_by_rows, refuted_by_rows};
use crate::reaching::{reach_by_box, refuted_by_box};
use rv_base::{Many, Memory};
use rv_rows::{Form, Multipliers, Row};
use std::alloc::Global;

/// The multipliers that refute the given rows and those of the tests, or none.
pub fn refutation(
    alloc: Global,
    by: By,
    given: &Many<Row>,
    told: &Many<Row>,
) -> Result<Option<Multipliers>, Memory>
    requires few { length given.now + length told.now < 2 ^ 32 }
    requires narrow { IsNarrow by }
    ensures record { IfOk result (λ o. IfSome o (IsRecord (length given.now + length told.now))) }
    ensures one { IfOk result (λ o. IfSome o (λ m. m.divisor ≡ pos 1)) }
{
    match by {
        By::Boxes(columns) => refuted_by_box(alloc, columns, given, told),
        By::Rows => refuted_by_rows(alloc, given, told),
    }
}

/// The multipliers that prove each of the wanted rows after the updates, or none where one is not proved: by the given rows alone where these
/// do, and else by the rows of the tests too.
pub fn reach(
    alloc: Global,
    by: By,
    given: &Many<Row>,
    told: &Many<Row>,
    updates: &Many<Form>,
    wanted: &Many<Row>,
) -> Result<Option<Many<Multipliers>>, Memory>
    requires few { length given.now + length told.now < 2 ^ 32 }
    requires narrow { IsNarrow by }
    requires wanted { All (λ r. CanSubstitute r updates.now) wanted.now }
    ensures { IfOk result (λ o. IfSome o (All (IsRecord (length given.now + length told.now)))) }
{
    match by {
        By::Boxes(columns) => reach_by_box(alloc, columns, given, told, updates, wanted),
        By::Rows => reach_by_rows(alloc, given, told, updates, wanted),
    }
}
