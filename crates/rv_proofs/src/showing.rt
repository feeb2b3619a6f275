//! Whether multipliers prove what an implication wants, from premises and updates that are written out.

ghost use Rattle.std.specs.Prelude.{◌≤◌, ◌^◌, All, IfOk, MatchBool, List, ◌++◌, ◌↔◌};
ghost use Rattle.std.specs.Int.RustNames.{unsigned_abs};
ghost use Rattle.rv_rows.specs.Rows.{RowWithin};
ghost use Rattle.rv_rows.specs.Forms.{CanSubstitute, IsSubstituted};
ghost use Rattle.rv_rows.specs.Multipliers.{IsInRange, WeightsWithin};
ghost use Rattle.rv_rows.specs.declared.linear.Row.{Row};
ghost use Rattle.rv_rows.specs.declared.linear.Form.{Form};
ghost use Rattle.rv_proofs.specs.Systems.{System};
ghost use Rattle.rv_proofs.specs.Scopes.{after, Implication};
ghost use Rattle.rv_proofs.specs.Implied.{IsShownWith, IsImplied, HasBefore, AreTestRows, AreForms};
ghost use Rattle.rv_proofs.specs.declared.certificate.Location.{Location};
ghost use Rattle.rv_proofs.specs.declared.certificate.Entry.{Entry};

use rv_base::{Many, Memory};
use rv_rows::{Form, Multipliers, Row, proves};
use std::alloc::Global;

/// An implication holds exactly where its multipliers prove what is wanted from any one list of rows of its settled
/// tests, with any one list of forms of its settled updates.
pub fn implied_is_shown()
    ensures { (s : System) (l : Location) (e : Entry) (i : Implication) (rows : List Row) (forms : List Form)
        → AreTestRows s l e i rows → AreForms s l e i.wanted forms → HasBefore i.wanted forms
        → IsImplied s l e i ↔ IsShownWith (i.given ++ rows) forms i.wanted i.by }
{}

/// Whether the multipliers prove a row after the updates. The only error is want of memory.
pub fn shows_after(
    alloc: Global,
    premises: &Many<Row>,
    updates: &Many<Form>,
    wanted: &Row,
    by: &Multipliers,
) -> Result<bool, Memory>
    requires range { IsInRange premises.now by.now.weights }
    requires premises { All (RowWithin (2 ^ 60)) premises.now }
    requires weights { WeightsWithin (2 ^ 41) 256 by.now.weights }
    requires divisor { unsigned_abs by.now.divisor ≤ 2 ^ 30 }
    requires room { CanSubstitute wanted.now updates.now }
    requires small { (new : Row) → IsSubstituted wanted.now updates.now new → RowWithin (2 ^ 78) new }
    ensures exact { IfOk result (λ b. MatchBool b (IsShownWith premises.now updates.now (after wanted.now) by.now)
        (¬ IsShownWith premises.now updates.now (after wanted.now) by.now)) }
{
    let new = wanted.substitute(alloc, updates)?;
    Ok(proves(premises, &new, by))
}
