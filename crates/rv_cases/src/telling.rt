//! What is so throughout a condition: which order tests are present, and their rows, the forms of the integer memories, the observer.

ghost use Rattle.std.specs.Prelude.{◌≡◌, ℕ, ◌+◌, ◌<◌, ◌≤◌, ◌^◌, true, length, IfOk, OnOk};
ghost use Rattle.rv_diagram.specs.Nodes.{value_of};
ghost use Rattle.rv_proofs.specs.Systems.{System};
ghost use Rattle.rv_cases.specs.Conditions.{IsSampleOf};
ghost use Rattle.rv_cases.specs.Questions.{HaveAnswers, AreQuestions, IsSettledFor};
ghost use Rattle.rv_cases.specs.Telling.{AreTold, AreUpdated, IsObserved, IsNoted};

use crate::asking::{Present, Questions};
use crate::splitting::place_in;
use rv_base::{Many, Memory};
use rv_diagram::Store;
use rv_rows::{Form, Row};
use std::alloc::Global;

/// The same row.
fn copy_row(alloc: Global, row: &Row) -> Result<Row, Memory>
    ensures { IfOk result (λ r. r ≡ row.now) }
{
    let numbers = Vec::from_slice(alloc, row.coefficients.as_slice())?;
    Ok(Row {
        coefficients: Many::from_vec(numbers),
        bound: row.bound,
    })
}

/// Notes the answer to the question of a test: nothing where it is absence, else the test and its row.
fn note(
    alloc: Global,
    tests: &mut Many<u32>,
    rows: &mut Many<Row>,
    test: u32,
    place: usize,
    known: &Many<Row>,
) -> Result<(), Memory>
    requires { place ≤ length known.now }
    ensures { OnOk result (IsNoted test place known.now tests.old rows.old tests.new rows.new) }
{
    if place == 0 {
        return Ok(());
    }
    let row = copy_row(alloc, known.at(place - 1))?;
    tests.push(test)?;
    rows.push(row)?;
    Ok(())
}

/// The tests that are present at a valuation, with their rows: where each question has one answer throughout a condition of which it is a
/// sample, they are present throughout it, and each other test is absent throughout it. The only error is want of memory.
pub fn tests_in(
    alloc: Global,
    store: &Store,
    sample: &Many<bool>,
    questions: &Questions,
) -> Result<Present, Memory>
    requires sized { length sample.now ≡ store.now.variables }
    requires answers { HaveAnswers store.now.nodes questions.now }
    requires few { length questions.now.rows < 2 ^ 32 }
    ensures told { (condition : ℕ) → IsSettledFor store.now.nodes questions.now condition → IsSampleOf store.now.nodes condition sample.now
        → IfOk result (λ p. (s : System) → AreQuestions s store.now questions.now
        → AreTold s (value_of store.now.nodes condition) s.tests p.tests p.rows) }
{
    let mut tests = Many::new(alloc);
    let mut rows = Many::new(alloc);
    let many = questions.rows.len();
    for t in 0..many {
        let answers = questions.questions.at(t);
        let known = questions.rows.at(t);
        let place = place_in(store, sample, answers.as_slice());
        note(alloc, &mut tests, &mut rows, t as u32, place, known)?;
    }
    Ok(Present { tests, rows })
}

/// The same form.
fn copy_form(alloc: Global, form: &Form) -> Result<Form, Memory>
    ensures { IfOk result (λ f. f ≡ form.now) }
{
    let numbers = Vec::from_slice(alloc, form.coefficients.as_slice())?;
    Ok(Form {
        coefficients: Many::from_vec(numbers),
        constant: form.constant,
    })
}

/// The form that each integer memory becomes at a valuation: where each question has one answer throughout a condition of which it is a
/// sample, throughout that. The only error is want of memory.
pub fn updates_in(
    alloc: Global,
    store: &Store,
    sample: &Many<bool>,
    questions: &Questions,
) -> Result<Many<Form>, Memory>
    requires sized { length sample.now ≡ store.now.variables }
    requires answers { HaveAnswers store.now.nodes questions.now }
    requires few { length questions.now.questions < 2 ^ 32 }
    ensures updated { (condition : ℕ) → IsSettledFor store.now.nodes questions.now condition → IsSampleOf store.now.nodes condition sample.now
        → IfOk result (λ updates. (s : System) → AreQuestions s store.now questions.now
        → AreUpdated s (value_of store.now.nodes condition) s.memories updates) }
{
    let mut updates = Many::new(alloc);
    let first = questions.rows.len();
    let many = questions.forms.len();
    for k in 0..many {
        let answers = questions.questions.at(first + k);
        let known = questions.forms.at(k);
        let place = place_in(store, sample, answers.as_slice());
        let form = copy_form(alloc, known.at(place))?;
        updates.push(form)?;
    }
    Ok(updates)
}

/// Whether the observer is true at a valuation: where each question has one answer throughout a condition of which it is a sample, throughout
/// that.
pub fn observer_in(store: &Store, sample: &Many<bool>, questions: &Questions) -> bool
    requires sized { length sample.now ≡ store.now.variables }
    requires answers { HaveAnswers store.now.nodes questions.now }
    requires few { length questions.now.questions < 2 ^ 32 }
    ensures observed { (condition : ℕ) → IsSettledFor store.now.nodes questions.now condition → IsSampleOf store.now.nodes condition sample.now
        → (s : System) → AreQuestions s store.now questions.now → IsObserved s (value_of store.now.nodes condition) result }
{
    let last = questions.rows.len() + questions.forms.len();
    let answers = questions.questions.at(last);
    let place = place_in(store, sample, answers.as_slice());
    place == 0
}
