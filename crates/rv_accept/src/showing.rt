//! The innermost loops of the checker: the rows of one list of implications, after the updates and before them.

ghost use Rattle.std.specs.Prelude.{◌≡◌, ◌^◌, List, All, IfOk, MatchBool, length};
ghost use Rattle.rv_rows.specs.Rows.{RowWithin};
ghost use Rattle.rv_rows.specs.Multipliers.{Proves};
ghost use Rattle.rv_rows.specs.declared.linear.Form.{Form};
ghost use Rattle.rv_proofs.specs.Ranges.{IsRecord};
ghost use Rattle.rv_proofs.specs.Scopes.{before, after};
ghost use Rattle.rv_proofs.specs.Implied.{IsShownWith};
ghost use Rattle.rv_accept.specs.Passing.{HasRoom, AreTried};

use rv_base::{Many, Memory};
use rv_proofs::shows_after;
use rv_rows::{Form, Multipliers, Row, proves};
use std::alloc::Global;

/// Whether multipliers within the limits prove a row after the updates.
fn is_shown(
    alloc: Global,
    premises: &Many<Row>,
    updates: &Many<Form>,
    wanted: &Row,
    by: &Multipliers,
) -> Result<bool, Memory>
    requires premises { All (RowWithin (2 ^ 60)) premises.now }
    requires by { IsRecord (length premises.now) by.now }
    requires room { HasRoom updates.now wanted.now }
    ensures exact { IfOk result (λ b. MatchBool b (IsShownWith premises.now updates.now (after wanted.now) by.now)
        (¬ IsShownWith premises.now updates.now (after wanted.now) by.now)) }
{
    shows_after(alloc, premises, updates, wanted, by)
}

/// The first row that its multipliers do not prove after the updates, or none.
pub fn first_unshown(
    alloc: Global,
    premises: &Many<Row>,
    updates: &Many<Form>,
    wanted: &Many<Row>,
    by: &Many<Multipliers>,
) -> Result<Option<usize>, Memory>
    requires premises { All (RowWithin (2 ^ 60)) premises.now }
    requires by { All (IsRecord (length premises.now)) by.now }
    requires counts { length by.now ≡ length wanted.now }
    requires room { All (HasRoom updates.now) wanted.now }
    ensures { IfOk result (λ o. AreTried after premises.now updates.now wanted.now by.now o) }
{
    for row in 0..wanted.len() {
        if !is_shown(alloc, premises, updates, wanted.at(row), by.at(row))? {
            return Ok(Some(row));
        }
    }
    Ok(None)
}

/// Whether multipliers within the limits prove a row.
fn is_proved(premises: &Many<Row>, wanted: &Row, by: &Multipliers) -> bool
    requires premises { All (RowWithin (2 ^ 60)) premises.now }
    requires by { IsRecord (length premises.now) by.now }
    requires wanted { RowWithin (2 ^ 60) wanted.now }
    ensures { MatchBool result (Proves premises.now wanted.now by.now) (¬ Proves premises.now wanted.now by.now) }
{
    proves(premises, wanted, by)
}

/// The first row that its multipliers do not prove before the updates, or none.
pub fn first_untrue(
    premises: &Many<Row>,
    wanted: &Many<Row>,
    by: &Many<Multipliers>,
) -> Option<usize>
    requires premises { All (RowWithin (2 ^ 60)) premises.now }
    requires by { All (IsRecord (length premises.now)) by.now }
    requires counts { length by.now ≡ length wanted.now }
    requires wanted { All (RowWithin (2 ^ 60)) wanted.now }
    ensures { (updates : List Form) → AreTried before premises.now updates wanted.now by.now result }
{
    for row in 0..wanted.len() {
        if !is_proved(premises, wanted.at(row), by.at(row)) {
            return Some(row);
        }
    }
    None
}
