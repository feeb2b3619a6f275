//! What is so at one valuation: a row for each order test, a form for each memory, and the references of answers.

ghost use Rattle.std.specs.Prelude.{◌≡◌, ℕ, ◌+◌, ◌<◌, ◌^◌, true, All, Some, IfOk, OnOk, length, slice_get};
ghost use Rattle.rv_diagram.specs.Nodes.{IsRef, valuation_of};
ghost use Rattle.rv_proofs.specs.Systems.{System, IsSystem, IsUpdate};
ghost use Rattle.rv_cases.specs.Conditions.{is_in, AreRefs, AreAnswers};
ghost use Rattle.rv_cases.specs.Questions.{HaveAnswers, AreQuestions};

use crate::copies::{copy_form, copy_row};
use crate::marks::is_set;
use rv_base::{Many, Memory};
use rv_cases::{Questions, place_in};
use rv_diagram::{Ref, Store};
use rv_rows::{Form, Row, number_at};
use std::alloc::Global;

/// The reference of the answer that a valuation has.
fn answer_at(store: &Store, sample: &Many<bool>, answers: &Many<Ref>) -> Ref
    requires sized { length sample.now ≡ store.now.variables }
    requires answers { AreAnswers store.now.nodes answers.now }
    ensures { IsRef store.now.nodes result }
{
    let place = place_in(store, sample, answers.as_slice());
    *answers.at(place)
}

/// The row of a test at a valuation, `0 <= 0` where it is absent.
fn told_row(
    alloc: Global,
    store: &Store,
    sample: &Many<bool>,
    answers: &Many<Ref>,
    rows: &Many<Row>,
) -> Result<Row, Memory>
    requires sized { length sample.now ≡ store.now.variables }
    requires answers { AreAnswers store.now.nodes answers.now }
    requires many { length answers.now ≡ length rows.now + 1 }
{
    let place = place_in(store, sample, answers.as_slice());
    if place == 0 {
        return Ok(Row {
            coefficients: Many::new(alloc),
            bound: 0,
        });
    }
    copy_row(alloc, rows.at(place - 1))
}

/// The row that each test says at a valuation, which has a truth value for each variable: `0 <= 0` where the test is absent. The only error is
/// want of memory.
pub fn told_rows(
    alloc: Global,
    store: &Store,
    sample: &Many<bool>,
    questions: &Questions,
) -> Result<Many<Row>, Memory>
    requires sized { length sample.now ≡ store.now.variables }
    requires answers { HaveAnswers store.now.nodes questions.now }
    ensures { IfOk result (λ told. length told ≡ length questions.now.rows) }
{
    let mut told = Many::new(alloc);
    for test in 0..questions.rows.len() {
        let answers = questions.questions.at(test);
        let rows = questions.rows.at(test);
        let row = told_row(alloc, store, sample, answers, rows)?;
        told.push(row)?;
    }
    Ok(told)
}

/// The form that a memory becomes at a valuation.
fn form_at(
    alloc: Global,
    store: &Store,
    sample: &Many<bool>,
    answers: &Many<Ref>,
    forms: &Many<Form>,
) -> Result<Form, Memory>
    requires sized { length sample.now ≡ store.now.variables }
    requires answers { AreAnswers store.now.nodes answers.now }
    requires many { length answers.now ≡ length forms.now }
    ensures { IfOk result (λ f. (i : ℕ) × (slice_get forms.now i ≡ Some f)
        × (is_in store.now.nodes answers.now i (valuation_of sample.now) ≡ true)) }
{
    let place = place_in(store, sample, answers.as_slice());
    copy_form(alloc, forms.at(place))
}

/// The form that each memory becomes at a valuation, which has a truth value for each variable. The only error is want of memory.
pub fn told_forms(
    alloc: Global,
    store: &Store,
    sample: &Many<bool>,
    questions: &Questions,
) -> Result<Many<Form>, Memory>
    requires sized { length sample.now ≡ store.now.variables }
    requires answers { HaveAnswers store.now.nodes questions.now }
    requires few { length questions.now.questions < 2 ^ 32 }
    ensures many { IfOk result (λ forms. length forms ≡ length questions.now.forms) }
    ensures updates { IfOk result (λ forms. (s : System) → IsSystem s → AreQuestions s store.now questions.now → All (IsUpdate s) forms) }
{
    let mut list = Many::new(alloc);
    let first = questions.rows.len();
    for memory in 0..questions.forms.len() {
        let answers = questions.questions.at(first + memory);
        let forms = questions.forms.at(memory);
        let form = form_at(alloc, store, sample, answers, forms)?;
        list.push(form)?;
    }
    Ok(list)
}

/// Adds the answer that a valuation has, where that is asked.
fn add_if(
    store: &Store,
    sample: &Many<bool>,
    answers: &Many<Ref>,
    list: &mut Vec<Ref>,
    asked: bool,
) -> Result<(), Memory>
    requires sized { length sample.now ≡ store.now.variables }
    requires answers { AreAnswers store.now.nodes answers.now }
    requires list { AreRefs store.now.nodes list.old.items }
    ensures { OnOk result (AreRefs store.now.nodes list.new.items) }
{
    if !asked {
        return Ok(());
    }
    let answer = answer_at(store, sample, answers);
    list.push(answer)?;
    Ok(())
}

/// The answers that a valuation, which has a truth value for each variable, has to the questions of the tests whose flags are set in `named`. The
/// only error is want of memory.
pub fn test_answers(
    alloc: Global,
    store: &Store,
    sample: &Many<bool>,
    questions: &Questions,
    named: &Many<bool>,
) -> Result<Vec<Ref>, Memory>
    requires sized { length sample.now ≡ store.now.variables }
    requires answers { HaveAnswers store.now.nodes questions.now }
    ensures { IfOk result (λ list. AreRefs store.now.nodes list.items) }
{
    let mut list = Vec::new(alloc);
    for test in 0..questions.rows.len() {
        let answers = questions.questions.at(test);
        let asked = is_set(named, test);
        add_if(store, sample, answers, &mut list, asked)?;
    }
    Ok(list)
}

/// Whether some row has the memory.
fn is_moved(rows: &Many<Row>, memory: usize) -> bool {
    for place in 0..rows.len() {
        if number_at(&rows.at(place).coefficients, memory) != 0 {
            return true;
        }
    }
    false
}

/// The answers that a valuation, which has a truth value for each variable, has to the questions of the memories that some wanted row has, after
/// those of `before`. The only error is want of memory.
pub fn with_updates(
    store: &Store,
    sample: &Many<bool>,
    questions: &Questions,
    wanted: &Many<Row>,
    before: Vec<Ref>,
) -> Result<Vec<Ref>, Memory>
    requires sized { length sample.now ≡ store.now.variables }
    requires answers { HaveAnswers store.now.nodes questions.now }
    requires few { length questions.now.questions < 2 ^ 32 }
    requires before { AreRefs store.now.nodes before.items }
    ensures { IfOk result (λ list. AreRefs store.now.nodes list.items) }
{
    let mut list = before;
    let first = questions.rows.len();
    for memory in 0..questions.forms.len() {
        let answers = questions.questions.at(first + memory);
        let asked = is_moved(wanted, memory);
        add_if(store, sample, answers, &mut list, asked)?;
    }
    Ok(list)
}
