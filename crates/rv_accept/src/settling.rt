//! The row of each test that is named and the form of each memory that is needed, where they are one throughout a scope.

ghost use Rattle.std.specs.Prelude.{◌≡◌, ℕ, ◌+◌, ◌<◌, ◌^◌, true, Some, IfOk, IfSome, IsErrOf, MatchOption, length};
ghost use Rattle.rv_diagram.specs.Nodes.{value_of, valuation_of, IsRef};
ghost use Rattle.rv_rows.specs.declared.linear.Row.{Row};
ghost use Rattle.rv_rows.specs.declared.linear.Form.{Form};
ghost use Rattle.rv_rows.specs.Rows.{row_at, RowWithin};
ghost use Rattle.rv_proofs.specs.Implied.{form_at};
ghost use Rattle.rv_proofs.specs.Systems.{System, IsSystem, IsUpdate};
ghost use Rattle.rv_cases.specs.Conditions.{AreAnswers};
ghost use Rattle.rv_cases.specs.Questions.{HaveAnswers, AreQuestions, AreTestAnswers, AreUpdateAnswers};
ghost use Rattle.rv_accept.specs.Needs.{IsPointOf, StaysRow, StaysForm, AreStillRows, AreStillForms, HasMovingRow, HasMovingForm};

use crate::settled::{answer_at, settled_form, settled_row};
use rv_base::{Many, Memory};
use rv_cases::Questions;
use rv_diagram::{Ref, Store, StoreFault};
use rv_rows::{Form, Row};
use std::alloc::Global;

/// The same row.
pub fn copy_row(alloc: Global, row: &Row) -> Result<Row, Memory>
    ensures { IfOk result (λ r. r ≡ row.now) }
{
    let numbers = Vec::from_slice(alloc, row.coefficients.as_slice())?;
    Ok(Row {
        coefficients: Many::from_vec(numbers),
        bound: row.bound,
    })
}

/// The same form.
fn copy_form(alloc: Global, form: &Form) -> Result<Form, Memory>
    ensures { IfOk result (λ f. f ≡ form.now) }
{
    let numbers = Vec::from_slice(alloc, form.coefficients.as_slice())?;
    Ok(Form {
        coefficients: Many::from_vec(numbers),
        constant: form.constant,
    })
}

/// The number of the row that a test has throughout a scope, or none. The store is left as it was.
fn row_place(
    store: &mut Store,
    scope: Ref,
    point: &Many<bool>,
    answers: &Many<Ref>,
    rows: &Many<Row>,
) -> Result<Option<usize>, StoreFault>
    requires scope { IsRef store.old.nodes scope }
    requires size { length point.now ≡ store.old.variables }
    requires point { value_of store.old.nodes scope (valuation_of point.now) ≡ true }
    requires answers { AreAnswers store.old.nodes answers.now }
    requires counts { length answers.now ≡ length rows.now + 1 }
    ensures same { store.new ≡ store.old }
    ensures roomy { IsErrOf result StoreFault.Nodes → store.old.limit < 2 ^ (2 ^ store.old.variables) }
    ensures known { IfOk result (λ o. IfSome o (λ i. i < length rows.now)) }
    ensures exact { IfOk result (λ o. (s : System) (t : ℕ) → AreTestAnswers s store.old.nodes t answers.now rows.now
        → MatchOption o ((r : Row) → ¬ StaysRow s store.old.nodes scope t r) (λ i. StaysRow s store.old.nodes scope t (row_at rows.now i))) }
{
    let mark = store.mark();
    let place = settled_row(store, scope, point, answers, rows);
    store.release(mark);
    place
}

/// The number of the form that a memory becomes throughout a scope, or none. The store is left as it was.
fn form_place(
    store: &mut Store,
    scope: Ref,
    point: &Many<bool>,
    answers: &Many<Ref>,
    forms: &Many<Form>,
) -> Result<Option<usize>, StoreFault>
    requires scope { IsRef store.old.nodes scope }
    requires size { length point.now ≡ store.old.variables }
    requires point { value_of store.old.nodes scope (valuation_of point.now) ≡ true }
    requires answers { AreAnswers store.old.nodes answers.now }
    requires counts { length answers.now ≡ length forms.now }
    ensures same { store.new ≡ store.old }
    ensures roomy { IsErrOf result StoreFault.Nodes → store.old.limit < 2 ^ (2 ^ store.old.variables) }
    ensures known { IfOk result (λ o. IfSome o (λ i. i < length forms.now)) }
    ensures exact { IfOk result (λ o. (s : System) (k : ℕ) → AreUpdateAnswers s store.old.nodes k answers.now forms.now
        → MatchOption o ((f : Form) → ¬ StaysForm s store.old.nodes scope k f) (λ i. StaysForm s store.old.nodes scope k (form_at forms.now i))) }
{
    let mark = store.mark();
    let place = settled_form(store, scope, point, answers, forms);
    store.release(mark);
    place
}

/// The row that a test has throughout a scope which is not empty, or none. `point` is a valuation of the scope, if there is one.
fn still_row(
    alloc: Global,
    store: &mut Store,
    scope: Ref,
    point: &Option<Many<bool>>,
    answers: &Many<Ref>,
    rows: &Many<Row>,
) -> Result<Option<Row>, StoreFault>
    requires scope { IsRef store.old.nodes scope }
    requires point { IsPointOf store.old.nodes store.old.variables scope point.now }
    requires answers { AreAnswers store.old.nodes answers.now }
    requires counts { length answers.now ≡ length rows.now + 1 }
    ensures same { store.new ≡ store.old }
    ensures roomy { IsErrOf result StoreFault.Nodes → store.old.limit < 2 ^ (2 ^ store.old.variables) }
    ensures exact { IfOk result (λ o. (s : System) (t : ℕ) → AreTestAnswers s store.old.nodes t answers.now rows.now
        → MatchOption o ((r : Row) → ¬ StaysRow s store.old.nodes scope t r) (λ r. StaysRow s store.old.nodes scope t r)) }
{
    let Some(point) = point else {
        return Ok(None);
    };
    let Some(place) = row_place(store, scope, point, answers, rows)? else {
        return Ok(None);
    };
    let row = copy_row(alloc, rows.at(place))?;
    Ok(Some(row))
}

/// The form that a memory becomes throughout a scope which is not empty, or none. `point` is a valuation of the scope, if there is one.
fn still_form(
    alloc: Global,
    store: &mut Store,
    scope: Ref,
    point: &Option<Many<bool>>,
    answers: &Many<Ref>,
    forms: &Many<Form>,
) -> Result<Option<Form>, StoreFault>
    requires scope { IsRef store.old.nodes scope }
    requires point { IsPointOf store.old.nodes store.old.variables scope point.now }
    requires answers { AreAnswers store.old.nodes answers.now }
    requires counts { length answers.now ≡ length forms.now }
    ensures same { store.new ≡ store.old }
    ensures roomy { IsErrOf result StoreFault.Nodes → store.old.limit < 2 ^ (2 ^ store.old.variables) }
    ensures exact { IfOk result (λ o. (s : System) (k : ℕ) → AreUpdateAnswers s store.old.nodes k answers.now forms.now
        → MatchOption o ((f : Form) → ¬ StaysForm s store.old.nodes scope k f) (λ f. StaysForm s store.old.nodes scope k f)) }
{
    let Some(point) = point else {
        return Ok(None);
    };
    let Some(place) = form_place(store, scope, point, answers, forms)? else {
        return Ok(None);
    };
    let form = copy_form(alloc, forms.at(place))?;
    Ok(Some(form))
}

/// The form that a memory becomes at one valuation.
fn form_of(
    alloc: Global,
    store: &Store,
    base: &Many<bool>,
    answers: &Many<Ref>,
    forms: &Many<Form>,
) -> Result<Form, Memory>
    requires base { length base.now ≡ store.now.variables }
    requires answers { AreAnswers store.now.nodes answers.now }
    requires counts { length answers.now ≡ length forms.now }
    ensures { IfOk result (λ f. (s : System) (k : ℕ) → AreUpdateAnswers s store.now.nodes k answers.now forms.now
        → s.update (valuation_of base.now) k ≡ f) }
{
    let place = answer_at(store, answers, base);
    copy_form(alloc, forms.at(place))
}

/// A row for a test: where it is named, the one that it has throughout the scope, else `0 <= 0`. None where it is named and has no one row.
fn row_for(
    alloc: Global,
    store: &mut Store,
    scope: Ref,
    point: &Option<Many<bool>>,
    answers: &Many<Ref>,
    rows: &Many<Row>,
    named: bool,
) -> Result<Option<Row>, StoreFault>
    requires scope { IsRef store.old.nodes scope }
    requires point { IsPointOf store.old.nodes store.old.variables scope point.now }
    requires answers { AreAnswers store.old.nodes answers.now }
    requires counts { length answers.now ≡ length rows.now + 1 }
    ensures same { store.new ≡ store.old }
    ensures roomy { IsErrOf result StoreFault.Nodes → store.old.limit < 2 ^ (2 ^ store.old.variables) }
    ensures exact { IfOk result (λ o. (s : System) (t : ℕ) → IsSystem s → t < s.tests → AreTestAnswers s store.old.nodes t answers.now rows.now
        → MatchOption o ((named ≡ true) × ((r : Row) → ¬ StaysRow s store.old.nodes scope t r))
        (λ r. RowWithin (2 ^ 60) r × (named ≡ true → StaysRow s store.old.nodes scope t r))) }
{
    if named {
        still_row(alloc, store, scope, point, answers, rows)
    } else {
        Ok(Some(Row {
            coefficients: Many::new(alloc),
            bound: 0,
        }))
    }
}

/// A form for a memory: where it is needed, the one that it becomes throughout the scope, else that at a valuation `base`. None where it
/// is needed and becomes two.
fn form_for(
    alloc: Global,
    store: &mut Store,
    scope: Ref,
    point: &Option<Many<bool>>,
    base: &Many<bool>,
    answers: &Many<Ref>,
    forms: &Many<Form>,
    needed: bool,
) -> Result<Option<Form>, StoreFault>
    requires scope { IsRef store.old.nodes scope }
    requires point { IsPointOf store.old.nodes store.old.variables scope point.now }
    requires base { length base.now ≡ store.old.variables }
    requires answers { AreAnswers store.old.nodes answers.now }
    requires counts { length answers.now ≡ length forms.now }
    ensures same { store.new ≡ store.old }
    ensures roomy { IsErrOf result StoreFault.Nodes → store.old.limit < 2 ^ (2 ^ store.old.variables) }
    ensures exact { IfOk result (λ o. (s : System) (k : ℕ) → IsSystem s → k < s.memories → AreUpdateAnswers s store.old.nodes k answers.now forms.now
        → MatchOption o ((needed ≡ true) × ((f : Form) → ¬ StaysForm s store.old.nodes scope k f))
        (λ f. IsUpdate s f × (needed ≡ true → StaysForm s store.old.nodes scope k f))) }
{
    if needed {
        still_form(alloc, store, scope, point, answers, forms)
    } else {
        let form = form_of(alloc, store, base, answers, forms)?;
        Ok(Some(form))
    }
}

/// A row for each test, where each that is named has one row throughout the scope. None where some has not.
pub fn still_rows(
    alloc: Global,
    store: &mut Store,
    questions: &Questions,
    scope: Ref,
    point: &Option<Many<bool>>,
    named: &[bool],
) -> Result<Option<Many<Row>>, StoreFault>
    requires scope { IsRef store.old.nodes scope }
    requires point { IsPointOf store.old.nodes store.old.variables scope point.now }
    requires answers { HaveAnswers store.old.nodes questions.now }
    requires named { length named.now ≡ length questions.now.rows }
    ensures same { store.new ≡ store.old }
    ensures roomy { IsErrOf result StoreFault.Nodes → store.old.limit < 2 ^ (2 ^ store.old.variables) }
    ensures exact { IfOk result (λ o. (s : System) → IsSystem s → AreQuestions s store.old questions.now
        → MatchOption o (HasMovingRow s store.old.nodes scope named.now) (λ rows. AreStillRows s store.old.nodes scope named.now rows)) }
{
    let mut rows = Many::new(alloc);
    for t in 0..questions.rows.len() {
        let answers = questions.questions.at(t);
        let known = questions.rows.at(t);
        let found = row_for(alloc, store, scope, point, answers, known, named[t])?;
        let Some(row) = found else {
            return Ok(None);
        };
        rows.push(row)?;
    }
    Ok(Some(rows))
}

/// A form for each memory, where each that is needed becomes one form throughout the scope. None where some does not.
pub fn still_forms(
    alloc: Global,
    store: &mut Store,
    questions: &Questions,
    scope: Ref,
    point: &Option<Many<bool>>,
    base: &Many<bool>,
    needed: &[bool],
) -> Result<Option<Many<Form>>, StoreFault>
    requires scope { IsRef store.old.nodes scope }
    requires point { IsPointOf store.old.nodes store.old.variables scope point.now }
    requires base { length base.now ≡ store.old.variables }
    requires answers { HaveAnswers store.old.nodes questions.now }
    requires few { length questions.now.questions < 2 ^ 32 }
    requires needed { length needed.now ≡ length questions.now.forms }
    ensures same { store.new ≡ store.old }
    ensures roomy { IsErrOf result StoreFault.Nodes → store.old.limit < 2 ^ (2 ^ store.old.variables) }
    ensures exact { IfOk result (λ o. (s : System) → IsSystem s → AreQuestions s store.old questions.now
        → MatchOption o (HasMovingForm s store.old.nodes scope needed.now) (λ forms. AreStillForms s store.old.nodes scope needed.now forms)) }
{
    let mut forms = Many::new(alloc);
    let first = questions.rows.len();
    for k in 0..questions.forms.len() {
        let answers = questions.questions.at(first + k);
        let known = questions.forms.at(k);
        let found = form_for(alloc, store, scope, point, base, answers, known, needed[k])?;
        let Some(form) = found else {
            return Ok(None);
        };
        forms.push(form)?;
    }
    Ok(Some(forms))
}
