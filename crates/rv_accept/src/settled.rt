//! Whether a test has one row throughout a scope, and a memory one form.

ghost use Rattle.std.specs.Prelude.{◌≡◌, ℕ, ◌+◌, ◌<◌, ◌^◌, ◌↔◌, true, false, Some, Option, IfOk, IfSome, IsErrOf, IsTrue, MatchOption, length};
ghost use Rattle.rv_diagram.specs.Nodes.{value_of, valuation_of, IsRef};
ghost use Rattle.rv_diagram.specs.Growing.{Extends};
ghost use Rattle.rv_rows.specs.declared.linear.Row.{Row};
ghost use Rattle.rv_rows.specs.declared.linear.Form.{Form};
ghost use Rattle.rv_rows.specs.Rows.{row_at};
ghost use Rattle.rv_proofs.specs.Implied.{form_at};
ghost use Rattle.rv_proofs.specs.Systems.{System};
ghost use Rattle.rv_cases.specs.Conditions.{is_in, AreRefs, AreAnswers};
ghost use Rattle.rv_cases.specs.Questions.{AreTestAnswers, AreUpdateAnswers};
ghost use Rattle.rv_accept.specs.Steps.{IsTrueOf};
ghost use Rattle.rv_accept.specs.Needs.{StaysRow, StaysForm};

use crate::sets;
use rv_base::Many;
use rv_diagram::{Ref, Store, StoreFault};
use rv_rows::{Form, Row};

/// Whether two lists of numbers are one.
fn are_same(a: &Many<i128>, b: &Many<i128>) -> bool
    ensures { IsTrue result ↔ (a.now ≡ b.now) }
{
    a.as_slice() == b.as_slice()
}

/// Whether two rows are one.
fn is_row(a: &Row, b: &Row) -> bool
    ensures { IsTrue result ↔ (a.now ≡ b.now) }
{
    are_same(&a.coefficients, &b.coefficients) && a.bound == b.bound
}

/// Whether two forms are one.
fn is_form(a: &Form, b: &Form) -> bool
    ensures { IsTrue result ↔ (a.now ≡ b.now) }
{
    are_same(&a.coefficients, &b.coefficients) && a.constant == b.constant
}

/// The number of the answer that is true at a valuation.
pub fn answer_at(store: &Store, answers: &Many<Ref>, point: &Many<bool>) -> usize
    requires answers { AreAnswers store.now.nodes answers.now }
    requires point { length point.now ≡ store.now.variables }
    ensures known { result < length answers.now }
    ensures met { is_in store.now.nodes answers.now result (valuation_of point.now) ≡ true }
{
    for b in 0..answers.len() {
        if store.value_at(*answers.at(b), point) {
            return b;
        }
    }
    0
}

/// The first reference without the second, where that is asked.
fn without_if(store: &mut Store, asked: bool, a: Ref, b: Ref) -> Result<Ref, StoreFault>
    requires a { IsRef store.old.nodes a }
    requires b { IsRef store.old.nodes b }
    ensures extends { Extends store.old store.new }
    ensures roomy { IsErrOf result StoreFault.Nodes → store.old.limit < 2 ^ (2 ^ store.old.variables) }
    ensures ok { IfOk result (λ r. IsTrueOf store.new (λ v. (value_of store.old.nodes a v ≡ true) × (IsTrue asked → value_of store.old.nodes b v ≡ false)) r) }
{
    if asked {
        sets::without(store, a, b)
    } else {
        Ok(a)
    }
}

/// The valuations of a scope that have no answer with this row.
fn without_row(
    store: &mut Store,
    scope: Ref,
    answers: &Many<Ref>,
    rows: &Many<Row>,
    row: &Row,
) -> Result<Ref, StoreFault>
    requires scope { IsRef store.old.nodes scope }
    requires answers { AreRefs store.old.nodes answers.now }
    requires counts { length answers.now ≡ length rows.now + 1 }
    ensures extends { Extends store.old store.new }
    ensures roomy { IsErrOf result StoreFault.Nodes → store.old.limit < 2 ^ (2 ^ store.old.variables) }
    ensures ok { IfOk result (λ r. IsTrueOf store.new (λ v. (value_of store.old.nodes scope v ≡ true)
        × ((i : ℕ) → i < length rows.now → row_at rows.now i ≡ row.now → is_in store.old.nodes answers.now (i + 1) v ≡ false)) r) }
{
    let mut rest = scope;
    for i in 0..rows.len() {
        let same = is_row(rows.at(i), row);
        let answer = *answers.at(i + 1);
        rest = without_if(store, same, rest, answer)?;
    }
    Ok(rest)
}

/// The valuations of a scope that have no answer with this form.
fn without_form(
    store: &mut Store,
    scope: Ref,
    answers: &Many<Ref>,
    forms: &Many<Form>,
    form: &Form,
) -> Result<Ref, StoreFault>
    requires scope { IsRef store.old.nodes scope }
    requires answers { AreRefs store.old.nodes answers.now }
    requires counts { length answers.now ≡ length forms.now }
    ensures extends { Extends store.old store.new }
    ensures roomy { IsErrOf result StoreFault.Nodes → store.old.limit < 2 ^ (2 ^ store.old.variables) }
    ensures ok { IfOk result (λ r. IsTrueOf store.new (λ v. (value_of store.old.nodes scope v ≡ true)
        × ((i : ℕ) → i < length forms.now → form_at forms.now i ≡ form.now → is_in store.old.nodes answers.now i v ≡ false)) r) }
{
    let mut rest = scope;
    for i in 0..forms.len() {
        let same = is_form(forms.at(i), form);
        let answer = *answers.at(i);
        rest = without_if(store, same, rest, answer)?;
    }
    Ok(rest)
}

/// The number of the row that a test has throughout a scope, or none where it is absent somewhere or has two rows. The answers are those
/// of the test: absence, and then one for each row. `point` is a valuation of the scope.
pub fn settled_row(
    store: &mut Store,
    scope: Ref,
    point: &Many<bool>,
    answers: &Many<Ref>,
    rows: &Many<Row>,
) -> Result<Option<usize>, StoreFault>
    requires scope { IsRef store.old.nodes scope }
    requires size { length point.now ≡ store.old.variables }
    requires point { value_of store.old.nodes scope (valuation_of point.now) ≡ true }
    requires answers { AreAnswers store.old.nodes answers.now }
    requires counts { length answers.now ≡ length rows.now + 1 }
    ensures extends { Extends store.old store.new }
    ensures roomy { IsErrOf result StoreFault.Nodes → store.old.limit < 2 ^ (2 ^ store.old.variables) }
    ensures known { IfOk result (λ o. IfSome o (λ i. i < length rows.now)) }
    ensures exact { IfOk result (λ o. (s : System) (t : ℕ) → AreTestAnswers s store.old.nodes t answers.now rows.now
        → MatchOption o ((r : Row) → ¬ StaysRow s store.old.nodes scope t r) (λ i. StaysRow s store.old.nodes scope t (row_at rows.now i))) }
{
    let place = answer_at(store, answers, point);
    if place == 0 {
        return Ok(None);
    }
    let rest = without_row(store, scope, answers, rows, rows.at(place - 1))?;
    if store.is_false(rest) {
        Ok(Some(place - 1))
    } else {
        Ok(None)
    }
}

/// The number of the form that a memory becomes throughout a scope, or none where it becomes two. The answers are those of the memory,
/// one for each form. `point` is a valuation of the scope.
pub fn settled_form(
    store: &mut Store,
    scope: Ref,
    point: &Many<bool>,
    answers: &Many<Ref>,
    forms: &Many<Form>,
) -> Result<Option<usize>, StoreFault>
    requires scope { IsRef store.old.nodes scope }
    requires size { length point.now ≡ store.old.variables }
    requires point { value_of store.old.nodes scope (valuation_of point.now) ≡ true }
    requires answers { AreAnswers store.old.nodes answers.now }
    requires counts { length answers.now ≡ length forms.now }
    ensures extends { Extends store.old store.new }
    ensures roomy { IsErrOf result StoreFault.Nodes → store.old.limit < 2 ^ (2 ^ store.old.variables) }
    ensures known { IfOk result (λ o. IfSome o (λ i. i < length forms.now)) }
    ensures exact { IfOk result (λ o. (s : System) (k : ℕ) → AreUpdateAnswers s store.old.nodes k answers.now forms.now
        → MatchOption o ((f : Form) → ¬ StaysForm s store.old.nodes scope k f) (λ i. StaysForm s store.old.nodes scope k (form_at forms.now i))) }
{
    let place = answer_at(store, answers, point);
    let rest = without_form(store, scope, answers, forms, forms.at(place))?;
    if store.is_false(rest) {
        Ok(Some(place))
    } else {
        Ok(None)
    }
}
