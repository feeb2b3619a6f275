//! Limits, risen by what the premises of a claim show after the updates where the claim takes a valuation.

ghost use Rattle.std.specs.Prelude.{◌≡◌, ◌≢◌, ◌||◌, ◌<◌, ◌≤◌, ◌^◌, true, length, All, IfOk, IfSome, IsErrOf, MatchBool};
ghost use Rattle.std.specs.Int.RustNames.{unsigned_abs};
ghost use Rattle.rv_diagram.specs.Nodes.{Valuation, IsRef, value_of};
ghost use Rattle.rv_proofs.specs.Systems.{System, IsSystem};
ghost use Rattle.rv_cases.specs.Questions.{AreQuestions};
ghost use Rattle.rv_pairs.specs.Labels.{AreLabels};
ghost use Rattle.rv_pairs.specs.Moves.{HoldsWhere};
ghost use Rattle.rv_ends.specs.Risen.{IsRisen};
ghost use Rattle.rv_rise.specs.Limits.{AreRisen, AreSmall, HasChanged};
ghost use Rattle.rv_rise.specs.Sides.{AreSides};

use crate::columns::columns_of;
use crate::frame::Frame;
use rv_base::Many;
use rv_cases::Questions;
use rv_diagram::{Ref, Store, StoreFault};
use rv_pairs::{LabelledRows, risen_row};
use rv_rows::Row;
use std::alloc::Global;

/// Limits, and whether some of them have changed.
#[derive(Debug, Drop)]
pub struct Loosened {
    /// One limit for each left side, or none.
    pub limits: Many<Option<i128>>,
    /// Whether one is other than before.
    pub changed: bool,
}

/// Whether two numbers are different.
fn differ(a: i128, b: i128) -> bool
    ensures { MatchBool result (a ≢ b) (a ≡ b) }
{
    a != b
}

/// Whether two limits are different.
fn is_changed(old: Option<i128>, new: Option<i128>) -> bool
    ensures { MatchBool result (old ≢ new) (new ≡ old) }
{
    match old {
        Some(before) => match new {
            Some(after) => differ(before, after),
            None => true,
        },
        None => match new {
            Some(_) => true,
            None => false,
        },
    }
}

/// Whether one is true.
pub fn either(a: bool, b: bool) -> bool
    ensures { result ≡ (a || b) }
{
    a || b
}

/// The limit of a left side, risen where it has one. The store is left as it was.
fn risen_limit(
    alloc: Global,
    store: &mut Store,
    sure: Ref,
    taken: Ref,
    questions: &Questions,
    labels: &LabelledRows,
    side: &Row,
    columns: usize,
    thresholds: &Many<i128>,
    limit: Option<i128>,
) -> Result<Option<i128>, StoreFault>
    requires asked { (s : System) × IsSystem s × AreQuestions s store.old questions.now × (length side.now.coefficients ≡ s.memories) × (columns ≡ s.columns) }
    requires sure { IsRef store.old.nodes sure }
    requires taken { IsRef store.old.nodes taken }
    requires within { (v : Valuation) → value_of store.old.nodes taken v ≡ true → value_of store.old.nodes sure v ≡ true }
    requires labels { AreLabels store.old.nodes labels.now }
    requires side { All (λ c. unsigned_abs c ≤ 1) side.now.coefficients }
    requires thresholds { All (λ t. unsigned_abs t ≤ 2 ^ 41) thresholds.now }
    requires limit { IfSome limit (λ b. unsigned_abs b ≤ 2 ^ 41) }
    ensures risen { IfOk result (λ o. (s : System) → IsSystem s → AreQuestions s store.old questions.now → length side.now.coefficients ≡ s.memories
        → columns ≡ s.columns → 0 < s.memories
        → IsRisen thresholds.now (HoldsWhere s store.old.nodes labels.now taken side.now.coefficients) limit o) }
    ensures same { store.new ≡ store.old }
    ensures roomy { IsErrOf result StoreFault.Nodes → store.old.limit < 2 ^ (2 ^ store.old.variables) }
{
    match limit {
        Some(bound) => risen_row(
            alloc,
            store,
            sure,
            taken,
            questions,
            labels,
            &side.coefficients,
            columns,
            thresholds,
            bound,
        ),
        None => Ok(None),
    }
}

/// The limits of the left sides, each risen by what the labelled rows show of it after the updates where `taken` is true. `sure` is true there. The
/// store is left as it was.
pub fn risen_limits(
    alloc: Global,
    store: &mut Store,
    sure: Ref,
    taken: Ref,
    questions: &Questions,
    labels: &LabelledRows,
    frame: &Frame,
    limits: &Many<Option<i128>>,
) -> Result<Loosened, StoreFault>
    requires asked { (s : System) × IsSystem s × AreQuestions s store.old questions.now × AreSides s frame.now.sides }
    requires sure { IsRef store.old.nodes sure }
    requires taken { IsRef store.old.nodes taken }
    requires within { (v : Valuation) → value_of store.old.nodes taken v ≡ true → value_of store.old.nodes sure v ≡ true }
    requires labels { AreLabels store.old.nodes labels.now }
    requires sizes { length frame.now.sides ≡ length limits.now }
    requires thresholds { All (λ t. unsigned_abs t ≤ 2 ^ 41) frame.now.thresholds }
    requires small { AreSmall limits.now }
    ensures risen { (s : System) → IsSystem s → AreQuestions s store.old questions.now → AreSides s frame.now.sides
        → IfOk result (λ r. AreRisen frame.now.thresholds (HoldsWhere s store.old.nodes labels.now taken) frame.now.sides (length limits.now) limits.now
        r.limits) }
    ensures changed { IfOk result (λ r. HasChanged r.changed limits.now r.limits) }
    ensures same { store.new ≡ store.old }
    ensures roomy { IsErrOf result StoreFault.Nodes → store.old.limit < 2 ^ (2 ^ store.old.variables) }
{
    let columns = columns_of(store, questions);
    let thresholds = &frame.thresholds;
    let mut list = Many::new(alloc);
    let mut changed = false;
    for place in 0..limits.len() {
        let limit = *limits.at(place);
        let side = frame.sides.at(place);
        let next = risen_limit(
            alloc, store, sure, taken, questions, labels, side, columns, thresholds, limit,
        )?;
        changed = either(changed, is_changed(limit, next));
        list.push(next)?;
    }
    Ok(Loosened {
        limits: list,
        changed,
    })
}
