//! How far a limit rises by what the forms of a memory are worth where a claim takes a valuation.

ghost use Rattle.std.specs.Prelude.{◌≡◌, ◌<◌, ◌≤◌, ◌^◌, true, length, All, IfOk, IsErrOf};
ghost use Rattle.rv_diagram.specs.Nodes.{Valuation, IsRef, value_of};
ghost use Rattle.rv_diagram.specs.Growing.{Extends};
ghost use Rattle.rv_rows.specs.Forms.{FormWithin};
ghost use Rattle.rv_cases.specs.Conditions.{AreAnswers};
ghost use Rattle.rv_ends.specs.Intervals.{HasPoint};
ghost use Rattle.rv_ends.specs.Sides.{box_at, AreEnds};
ghost use Rattle.rv_ends.specs.Risen.{IsRisen};
ghost use Rattle.rv_taken.specs.Rising.{HoldsAfter, FormHolds};

use rv_base::Many;
use rv_diagram::{Ref, Store, StoreFault};
use rv_ends::{Ends, greatest, risen_to};
use rv_rows::Form;
use std::alloc::Global;

/// The limit, risen by one form where its answer is given.
fn risen_by(
    alloc: Global,
    store: &mut Store,
    taken: Ref,
    ends: &Many<Ends>,
    answer: Ref,
    form: &Form,
    thresholds: &Many<i128>,
    limit: Option<i128>,
) -> Result<Option<i128>, StoreFault>
    requires taken { IsRef store.old.nodes taken }
    requires ends { AreEnds store.old.nodes (length ends.now) ends.now }
    requires few { length ends.now ≤ 128 }
    requires answer { IsRef store.old.nodes answer }
    requires width { length form.now.coefficients ≤ length ends.now }
    requires size { FormWithin (2 ^ 41) form.now }
    requires opened { (v : Valuation) → value_of store.old.nodes taken v ≡ true → HasPoint (box_at store.old.nodes ends.now v) }
    ensures extends { Extends store.old store.new }
    ensures roomy { IsErrOf result StoreFault.Nodes → store.old.limit < 2 ^ (2 ^ store.old.variables) }
    ensures risen { IfOk result (IsRisen thresholds.now (FormHolds store.old.nodes taken ends.now answer form.now) limit) }
{
    if limit.is_none() {
        return Ok(None);
    }
    let here = store.and(taken, answer)?;
    if store.is_false(here) {
        return Ok(limit);
    }
    let top = greatest(alloc, store, ends, &form.coefficients)?;
    if store.implies(here, top.there)? {
        return risen_to(store, here, &top, form.constant, thresholds, limit);
    }
    Ok(None)
}

/// The limit, risen by all forms, with what was built of it.
fn risen_in(
    alloc: Global,
    store: &mut Store,
    taken: Ref,
    ends: &Many<Ends>,
    answers: &[Ref],
    forms: &Many<Form>,
    thresholds: &Many<i128>,
    limit: Option<i128>,
) -> Result<Option<i128>, StoreFault>
    requires taken { IsRef store.old.nodes taken }
    requires ends { AreEnds store.old.nodes (length ends.now) ends.now }
    requires few { length ends.now ≤ 128 }
    requires answers { AreAnswers store.old.nodes answers.now }
    requires many { length answers.now ≡ length forms.now }
    requires widths { All (λ f. length f.coefficients ≤ length ends.now) forms.now }
    requires sizes { All (FormWithin (2 ^ 41)) forms.now }
    requires opened { (v : Valuation) → value_of store.old.nodes taken v ≡ true → HasPoint (box_at store.old.nodes ends.now v) }
    ensures extends { Extends store.old store.new }
    ensures roomy { IsErrOf result StoreFault.Nodes → store.old.limit < 2 ^ (2 ^ store.old.variables) }
    ensures risen { IfOk result (IsRisen thresholds.now (HoldsAfter store.old.nodes taken ends.now answers.now forms.now) limit) }
{
    let mut held = limit;
    for place in 0..forms.len() {
        let form = forms.at(place);
        held = risen_by(
            alloc,
            store,
            taken,
            ends,
            answers[place],
            form,
            thresholds,
            held,
        )?;
    }
    Ok(held)
}

/// A limit, risen by what the forms of a memory are worth over the box of each taken valuation with their answer: it stays where none is past it,
/// rises to the least threshold that is not below what is past it, and goes where there is none. The store is left as it was, after a fault too.
/// Nodes comes where it has no room for what is built on the way, never where its limit holds every function of its variables, and Memory where
/// there is none.
pub fn risen(
    alloc: Global,
    store: &mut Store,
    taken: Ref,
    ends: &Many<Ends>,
    answers: &[Ref],
    forms: &Many<Form>,
    thresholds: &Many<i128>,
    limit: Option<i128>,
) -> Result<Option<i128>, StoreFault>
    requires taken { IsRef store.old.nodes taken }
    requires ends { AreEnds store.old.nodes (length ends.now) ends.now }
    requires few { length ends.now ≤ 128 }
    requires answers { AreAnswers store.old.nodes answers.now }
    requires many { length answers.now ≡ length forms.now }
    requires widths { All (λ f. length f.coefficients ≤ length ends.now) forms.now }
    requires sizes { All (FormWithin (2 ^ 41)) forms.now }
    requires opened { (v : Valuation) → value_of store.old.nodes taken v ≡ true → HasPoint (box_at store.old.nodes ends.now v) }
    ensures risen { IfOk result (IsRisen thresholds.now (HoldsAfter store.old.nodes taken ends.now answers.now forms.now) limit) }
    ensures same { store.new ≡ store.old }
    ensures roomy { IsErrOf result StoreFault.Nodes → store.old.limit < 2 ^ (2 ^ store.old.variables) }
{
    let mark = store.mark();
    let answer = risen_in(alloc, store, taken, ends, answers, forms, thresholds, limit);
    store.release(mark);
    answer
}
