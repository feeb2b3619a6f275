//! How far the limit of a left side over the memories rises by the updates where a claim takes a valuation: one sum of forms for each choice of
//! answers to the questions of its memories.

ghost use Rattle.std.specs.Prelude.{◌≡◌, ℕ, ℤ, pos, ◌<◌, ◌≤◌, ◌^◌, ◌+◌, ◌*◌, ◌+ℤ◌, ◌*ℤ◌, true, Some, length, All, IfOk, IfSome, IsErrOf};
ghost use Rattle.std.specs.Int.RustNames.{unsigned_abs};
ghost use Rattle.rv_base.specs.Limits.{heaviest};
ghost use Rattle.rv_diagram.specs.Nodes.{Valuation, IsRef, value_of};
ghost use Rattle.rv_diagram.specs.Growing.{Extends};
ghost use Rattle.rv_rows.specs.Forms.{number, FormWithin};
ghost use Rattle.rv_rows.specs.Arithmetic.{zeros};
ghost use Rattle.rv_proofs.specs.Systems.{System, IsSystem};
ghost use Rattle.rv_cases.specs.Questions.{AreQuestions, memory_answers, forms_at};
ghost use Rattle.rv_ends.specs.Risen.{IsRisen};
ghost use Rattle.rv_pairs.specs.Labels.{AreLabels};
ghost use Rattle.rv_pairs.specs.Moves.{IsMovedIn, HoldsAfter, HoldsWhere};

use crate::indexed::LabelledRows;
use crate::rising::risen_by;
use rv_base::{Many, Memory};
use rv_cases::Questions;
use rv_diagram::{Ref, Store, StoreFault};
use rv_rows::{Form, number_at};
use std::alloc::Global;

/// The form of so many columns that is 0.
fn zero_form(alloc: Global, columns: usize) -> Result<Form, Memory>
    ensures { IfOk result (λ f. f ≡ record { coefficients = zeros columns; constant = pos 0 }) }
{
    let mut coefficients = Many::new(alloc);
    for _ in 0..columns {
        coefficients.push(0)?;
    }
    Ok(Form {
        coefficients,
        constant: 0,
    })
}

/// The first column from a number on that has a number other than 0; past the end where there is none.
fn next_column(numbers: &Many<i128>, first: usize) -> usize
    requires { first ≤ length numbers.now }
    ensures from { first ≤ result }
    ensures within { result ≤ length numbers.now }
    ensures zeros { (k : ℕ) → first ≤ k → k < result → number k numbers.now ≡ pos 0 }
{
    for column in first..numbers.len() {
        if number_at(numbers, column) != 0 {
            return column;
        }
    }
    numbers.len()
}

/// The form with a multiple of another one added. It matters where the reference is true alone, and stays as it is where that is nowhere.
fn moved_by(
    alloc: Global,
    store: &Store,
    inside: Ref,
    form: &Form,
    by: i128,
    other: &Form,
) -> Result<Form, Memory>
    requires inside { IsRef store.now.nodes inside }
    requires form { FormWithin (2 ^ 49) form.now }
    requires by { unsigned_abs by ≤ 1 }
    requires other { (v : Valuation) → value_of store.now.nodes inside v ≡ true
        → FormWithin heaviest other.now × (length other.now.coefficients ≡ length form.now.coefficients) }
    ensures width { IfOk result (λ f. length f.coefficients ≡ length form.now.coefficients) }
    ensures small { IfOk result (λ f. (n : ℕ) → FormWithin n form.now → FormWithin (n + heaviest) f) }
    ensures coefficients { IfOk result (λ f. (v : Valuation) → value_of store.now.nodes inside v ≡ true
        → (k : ℕ) → number k f.coefficients ≡ number k form.now.coefficients +ℤ (by *ℤ number k other.now.coefficients)) }
    ensures constant { IfOk result (λ f. (v : Valuation) → value_of store.now.nodes inside v ≡ true
        → f.constant ≡ form.now.constant +ℤ (by *ℤ other.now.constant)) }
{
    let _count = store.mark();
    if store.is_false(inside) {
        return form.scale(alloc, 1);
    }
    let part = other.scale(alloc, by)?;
    form.add(alloc, &part)
}

/// The answers to the question of a memory.
fn answers_of(questions: &Questions, column: usize) -> &Many<Ref>
    requires { length questions.now.rows + column < length questions.now.questions }
    ensures { result.now ≡ memory_answers questions.now column }
{
    let _count = questions.questions.len();
    questions.questions.at(questions.rows.len() + column)
}

/// The forms of a memory.
fn forms_of(questions: &Questions, column: usize) -> &Many<Form>
    requires { column < length questions.now.forms }
    ensures { result.now ≡ forms_at questions.now.forms column }
{
    questions.forms.at(column)
}

/// The limit, risen by all forms that the left side's memories have from a column on, where both references are true. `form` is the sum so far, of
/// the memories before that column. It calls itself once for each memory of the left side.
fn risen_from(
    alloc: Global,
    store: &mut Store,
    questions: &Questions,
    labels: &LabelledRows,
    side: &Many<i128>,
    first: usize,
    sure: Ref,
    taken: Ref,
    path: Ref,
    form: &Form,
    thresholds: &Many<i128>,
    limit: i128,
) -> Result<Option<i128>, StoreFault>
    requires asked { (s : System) × IsSystem s × AreQuestions s store.old questions.now × (length side.now ≡ s.memories)
        × (length form.now.coefficients ≡ s.columns) }
    requires labels { AreLabels store.old.nodes labels.now }
    requires side { All (λ c. unsigned_abs c ≤ 1) side.now }
    requires first { first ≤ length side.now }
    requires sure { IsRef store.old.nodes sure }
    requires taken { IsRef store.old.nodes taken }
    requires within { (v : Valuation) → value_of store.old.nodes taken v ≡ true → value_of store.old.nodes sure v ≡ true }
    requires path { IsRef store.old.nodes path }
    requires form { FormWithin (first * heaviest) form.now }
    requires thresholds { All (λ t. unsigned_abs t ≤ 2 ^ 41) thresholds.now }
    requires limit { unsigned_abs limit ≤ 2 ^ 41 }
    ensures extends { Extends store.old store.new }
    ensures roomy { IsErrOf result StoreFault.Nodes → store.old.limit < 2 ^ (2 ^ store.old.variables) }
    ensures small { IfOk result (λ o. IfSome o (λ b. unsigned_abs b ≤ 2 ^ 41)) }
    ensures risen { IfOk result (λ o. (s : System) → IsSystem s → AreQuestions s store.old questions.now → length side.now ≡ s.memories → 0 < s.memories
        → IsMovedIn s store.old.nodes path side.now first form.now
        → IsRisen thresholds.now (HoldsAfter s store.old.nodes labels.now taken path side.now) (Some limit) o) }
{
    let _count = store.mark();
    if store.is_false(path) {
        return Ok(Some(limit));
    }
    let column = next_column(side, first);
    let width = side.len();
    if column == width {
        return risen_by(
            alloc, store, labels, sure, taken, path, form, thresholds, limit,
        );
    }
    let by = *side.at(column);
    let answers = answers_of(questions, column);
    let forms = forms_of(questions, column);
    let mut held = limit;
    for place in 0..forms.len() {
        let answer = *answers.at(place);
        let other = forms.at(place);
        let here = store.and(path, answer)?;
        let moved = moved_by(alloc, store, here, form, by, other)?;
        let next = risen_from(
            alloc,
            store,
            questions,
            labels,
            side,
            column + 1,
            sure,
            taken,
            here,
            &moved,
            thresholds,
            held,
        )?;
        match next {
            Some(bound) => held = bound,
            None => return Ok(None),
        }
    }
    Ok(Some(held))
}

/// The limit of a left side over the memories, risen by what the rows that count at each taken valuation show at once of it after the updates there:
/// it stays where it is shown at all of them, rises to the least threshold that is, and goes where there is none. The numbers of the left side
/// are -1, 0 and 1. Where `taken` is true `sure` is; what rows show that count wherever it is costs no nodes. The store is left as it was, after a
/// fault too. Nodes comes where it has no room for what is built on the way, never where its limit holds every function of its variables, and Memory
/// where there is none.
pub fn risen_row(
    alloc: Global,
    store: &mut Store,
    sure: Ref,
    taken: Ref,
    questions: &Questions,
    labels: &LabelledRows,
    side: &Many<i128>,
    columns: usize,
    thresholds: &Many<i128>,
    limit: i128,
) -> Result<Option<i128>, StoreFault>
    requires asked { (s : System) × IsSystem s × AreQuestions s store.old questions.now × (length side.now ≡ s.memories) × (columns ≡ s.columns) }
    requires sure { IsRef store.old.nodes sure }
    requires taken { IsRef store.old.nodes taken }
    requires within { (v : Valuation) → value_of store.old.nodes taken v ≡ true → value_of store.old.nodes sure v ≡ true }
    requires labels { AreLabels store.old.nodes labels.now }
    requires side { All (λ c. unsigned_abs c ≤ 1) side.now }
    requires thresholds { All (λ t. unsigned_abs t ≤ 2 ^ 41) thresholds.now }
    requires limit { unsigned_abs limit ≤ 2 ^ 41 }
    ensures risen { IfOk result (λ o. (s : System) → IsSystem s → AreQuestions s store.old questions.now → length side.now ≡ s.memories
        → columns ≡ s.columns → 0 < s.memories
        → IsRisen thresholds.now (HoldsWhere s store.old.nodes labels.now taken side.now) (Some limit) o) }
    ensures same { store.new ≡ store.old }
    ensures roomy { IsErrOf result StoreFault.Nodes → store.old.limit < 2 ^ (2 ^ store.old.variables) }
{
    let form = zero_form(alloc, columns)?;
    let all = store.constant(true);
    let mark = store.mark();
    let answer = risen_from(
        alloc, store, questions, labels, side, 0, sure, taken, all, &form, thresholds, limit,
    );
    store.release(mark);
    answer
}
