//! How far a limit rises by what is shown of a form where references are true.

ghost use Rattle.std.specs.Prelude.{◌≡◌, ◌⊎◌, ℤ, ◌<◌, ◌≤◌, ◌^◌, ◌-ℤ◌, ◌<ℤ◌, ◌≤ℤ◌, List, [], ◌∷◌, ◌++◌, true, false, Some, All, IfOk, IsErrOf, MatchBool, pos};
ghost use Rattle.std.specs.Int.RustNames.{unsigned_abs};
ghost use Rattle.rv_diagram.specs.Nodes.{Valuation, IsRef, value_of};
ghost use Rattle.rv_diagram.specs.Growing.{Extends};
ghost use Rattle.rv_diagram.specs.declared.Triple.{Triple};
ghost use Rattle.rv_rows.specs.Rows.{RowWithin};
ghost use Rattle.rv_rows.specs.Forms.{FormWithin};
ghost use Rattle.rv_rows.specs.Multipliers.{ShowsAtOnce};
ghost use Rattle.rv_seek.specs.Least.{bounded};
ghost use Rattle.rv_ends.specs.Risen.{IsRisen};
ghost use Rattle.rv_pairs.specs.Labels.{active, AreLabels};
ghost use Rattle.rv_pairs.specs.Shown.{SumShows};
ghost use Rattle.rv_pairs.specs.Hints.{AreHints, HintsHold};
ghost use Rattle.rv_pairs.specs.Risen.{ShowForm};

use crate::hints::{Hint, hints_of, is_sure, left_by};
use crate::indexed::LabelledRows;
use crate::sure::{is_sure_alone, is_sure_together};
use rv_base::Many;
use rv_diagram::{Ref, Store, StoreFault};
use rv_ends::is_below;
use rv_rows::Form;
use std::alloc::Global;

/// No threshold is above it.
const HIGHEST: i128 = 2_199_023_255_552;

/// The limit less a constant.
fn room_left(limit: i128, constant: i128) -> i128
    requires limit { unsigned_abs limit ≤ 2 ^ 41 }
    requires constant { unsigned_abs constant ≤ 2 ^ 50 }
    ensures { result ≡ limit -ℤ constant }
{
    limit - constant
}

/// Whether the hints show, wherever the reference is true, that the left side and the constant are at most the limit.
fn holds(
    store: &mut Store,
    inside: Ref,
    hints: &Many<Hint>,
    constant: i128,
    limit: i128,
) -> Result<bool, StoreFault>
    requires inside { IsRef store.old.nodes inside }
    requires hints { AreHints store.old.nodes hints.now }
    requires constant { unsigned_abs constant ≤ 2 ^ 50 }
    requires limit { unsigned_abs limit ≤ 2 ^ 41 }
    ensures extends { Extends store.old store.new }
    ensures roomy { IsErrOf result StoreFault.Nodes → store.old.limit < 2 ^ (2 ^ store.old.variables) }
    ensures exact { IfOk result (λ holds. MatchBool holds (HintsHold store.old.nodes inside hints.now constant limit)
        (¬ HintsHold store.old.nodes inside hints.now constant limit)) }
{
    let room = room_left(limit, constant);
    let rest = left_by(store, inside, hints, room)?;
    let _count = store.mark();
    Ok(store.is_false(rest))
}

/// Whether the threshold is not below the limit, and below the best one so far.
fn is_better(threshold: i128, limit: i128, best: Option<i128>) -> bool
    ensures { MatchBool result ((limit ≤ℤ threshold) × ((b : ℤ) → best ≡ Some b → threshold <ℤ b))
        ((threshold <ℤ limit) ⊎ ((b : ℤ) × (best ≡ Some b) × (b ≤ℤ threshold))) }
{
    if is_below(threshold, limit) {
        return false;
    }
    match best {
        Some(bound) => is_below(threshold, bound),
        None => true,
    }
}

/// The threshold where it is shown, and the best one so far elsewhere.
fn if_shown(shown: bool, threshold: i128, best: Option<i128>) -> Option<i128>
    ensures shown { shown ≡ true → result ≡ Some threshold }
    ensures not_shown { shown ≡ false → result ≡ best }
{
    if shown { Some(threshold) } else { best }
}

/// The best threshold so far, or the next one, where that is better and shown.
fn with_threshold(
    store: &mut Store,
    inside: Ref,
    hints: &Many<Hint>,
    constant: i128,
    limit: i128,
    best: Option<i128>,
    threshold: i128,
) -> Result<Option<i128>, StoreFault>
    requires inside { IsRef store.old.nodes inside }
    requires hints { AreHints store.old.nodes hints.now }
    requires constant { unsigned_abs constant ≤ 2 ^ 50 }
    requires threshold { unsigned_abs threshold ≤ 2 ^ 41 }
    ensures extends { Extends store.old store.new }
    ensures roomy { IsErrOf result StoreFault.Nodes → store.old.limit < 2 ^ (2 ^ store.old.variables) }
    ensures risen { IfOk result (λ o. (before : List ℤ) → IsRisen before (HintsHold store.old.nodes inside hints.now constant) (Some limit) best
        → IsRisen (before ++ threshold ∷ []) (HintsHold store.old.nodes inside hints.now constant) (Some limit) o) }
{
    if is_better(threshold, limit, best) {
        let shown = holds(store, inside, hints, constant, threshold)?;
        return Ok(if_shown(shown, threshold, best));
    }
    Ok(best)
}

/// The least threshold that is not below the limit and shown; none where there is none.
fn least_shown(
    store: &mut Store,
    inside: Ref,
    hints: &Many<Hint>,
    constant: i128,
    thresholds: &Many<i128>,
    limit: i128,
) -> Result<Option<i128>, StoreFault>
    requires inside { IsRef store.old.nodes inside }
    requires hints { AreHints store.old.nodes hints.now }
    requires constant { unsigned_abs constant ≤ 2 ^ 50 }
    requires thresholds { All (λ t. unsigned_abs t ≤ 2 ^ 41) thresholds.now }
    requires limit { ¬ HintsHold store.old.nodes inside hints.now constant limit }
    ensures extends { Extends store.old store.new }
    ensures roomy { IsErrOf result StoreFault.Nodes → store.old.limit < 2 ^ (2 ^ store.old.variables) }
    ensures risen { IfOk result (IsRisen thresholds.now (HintsHold store.old.nodes inside hints.now constant) (Some limit)) }
{
    let mut best: Option<i128> = None;
    for place in 0..thresholds.len() {
        let threshold = *thresholds.at(place);
        best = with_threshold(store, inside, hints, constant, limit, best, threshold)?;
    }
    Ok(best)
}

/// The limit, risen by what the hints show where the reference is true. Where they show nothing of a threshold's size somewhere there is no need
/// to ask for one threshold after another.
fn risen_over(
    store: &mut Store,
    inside: Ref,
    hints: &Many<Hint>,
    constant: i128,
    thresholds: &Many<i128>,
    limit: i128,
) -> Result<Option<i128>, StoreFault>
    requires inside { IsRef store.old.nodes inside }
    requires hints { AreHints store.old.nodes hints.now }
    requires constant { unsigned_abs constant ≤ 2 ^ 50 }
    requires thresholds { All (λ t. unsigned_abs t ≤ 2 ^ 41) thresholds.now }
    requires limit { unsigned_abs limit ≤ 2 ^ 41 }
    ensures extends { Extends store.old store.new }
    ensures roomy { IsErrOf result StoreFault.Nodes → store.old.limit < 2 ^ (2 ^ store.old.variables) }
    ensures risen { IfOk result (IsRisen thresholds.now (HintsHold store.old.nodes inside hints.now constant) (Some limit)) }
{
    let kept = holds(store, inside, hints, constant, limit)?;
    if kept {
        return Ok(Some(limit));
    }
    let some = holds(store, inside, hints, constant, HIGHEST)?;
    if some {
        return least_shown(store, inside, hints, constant, thresholds, limit);
    }
    Ok(None)
}

/// The limit, risen by what the rows that count show at once of the form where both references are true: it stays where it is shown there, rises
/// to the least threshold that is, and goes where there is none. Where `taken` is true `sure` is, so nothing is built for what rows show that count
/// wherever it is.
pub fn risen_by(
    alloc: Global,
    store: &mut Store,
    labels: &LabelledRows,
    sure: Ref,
    taken: Ref,
    path: Ref,
    form: &Form,
    thresholds: &Many<i128>,
    limit: i128,
) -> Result<Option<i128>, StoreFault>
    requires labels { AreLabels store.old.nodes labels.now }
    requires sure { IsRef store.old.nodes sure }
    requires within { (v : Valuation) → value_of store.old.nodes taken v ≡ true → value_of store.old.nodes sure v ≡ true }
    requires taken { IsRef store.old.nodes taken }
    requires path { IsRef store.old.nodes path }
    requires form { FormWithin (2 ^ 50) form.now }
    requires thresholds { All (λ t. unsigned_abs t ≤ 2 ^ 41) thresholds.now }
    requires limit { unsigned_abs limit ≤ 2 ^ 41 }
    ensures extends { Extends store.old store.new }
    ensures roomy { IsErrOf result StoreFault.Nodes → store.old.limit < 2 ^ (2 ^ store.old.variables) }
    ensures risen { IfOk result (IsRisen thresholds.now (ShowForm store.old.nodes labels.now taken path form.now) (Some limit)) }
{
    let room = room_left(limit, form.constant);
    if is_sure_alone(alloc, store, labels, sure, &form.coefficients, room) {
        return Ok(Some(limit));
    }
    let always = store.constant(true);
    if is_sure_together(labels, sure, always, &form.coefficients, room) {
        return Ok(Some(limit));
    }
    let hints = hints_of(alloc, store, labels, &form.coefficients)?;
    if is_sure(&hints, sure, always, room) {
        return Ok(Some(limit));
    }
    let inside = store.and(taken, path)?;
    risen_over(store, inside, &hints, form.constant, thresholds, limit)
}
