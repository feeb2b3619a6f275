//! What the integer memories become, times a sign, as forms for the answers to their questions.

ghost use Rattle.std.specs.Prelude.{◌≡◌, ℕ, ◌^◌, ℤ, pos, ◌*ℤ◌, List, [], length, IfOk};
ghost use Rattle.rv_diagram.specs.Nodes.{IsRef};
ghost use Rattle.rv_rows.specs.Forms.{value, FormWithin};
ghost use Rattle.rv_proofs.specs.Systems.{System, IsSystem};
ghost use Rattle.rv_cases.specs.Conditions.{AreRefs};
ghost use Rattle.rv_cases.specs.Questions.{AreQuestions};
ghost use Rattle.rv_least.specs.Turned.{sign_of, IsGivenFor, AreGivenFor, IsTurned, AreTurned, AreAllTurned};

use rv_base::{Many, Memory};
use rv_boxes::opposite_form;
use rv_cases::Questions;
use rv_diagram::{Ref, Store};
use rv_rows::Form;
use std::alloc::Global;

/// Which of two numbers: one that a memory becomes, or its opposite.
#[derive(Debug, Clone, Copy)]
pub enum Sign {
    /// The number.
    Plus,
    /// Its opposite.
    Minus,
}

/// The same form.
fn same_form(alloc: Global, form: &Form) -> Result<Form, Memory>
    requires { FormWithin (2 ^ 41) form.now }
    ensures width { IfOk result (λ f. length f.coefficients ≡ length form.now.coefficients) }
    ensures values { IfOk result (λ f. (point : List ℤ) → value f point ≡ pos 1 *ℤ value form.now point) }
    ensures within { IfOk result (FormWithin (2 ^ 41)) }
{
    form.scale(alloc, 1)
}

/// The form times the sign.
fn times(alloc: Global, form: &Form, sign: Sign) -> Result<Form, Memory>
    requires { FormWithin (2 ^ 41) form.now }
    ensures width { IfOk result (λ f. length f.coefficients ≡ length form.now.coefficients) }
    ensures values { IfOk result (λ f. (point : List ℤ) → value f point ≡ sign_of sign *ℤ value form.now point) }
    ensures within { IfOk result (FormWithin (2 ^ 41)) }
{
    match sign {
        Sign::Plus => same_form(alloc, form),
        Sign::Minus => opposite_form(alloc, form),
    }
}

/// The form 0.
fn no_form(alloc: Global) -> Form
    ensures { result ≡ record { coefficients = []; constant = pos 0 } }
{
    Form {
        coefficients: Many::new(alloc),
        constant: 0,
    }
}

/// The form times the sign, or the form 0 where the answer is given nowhere.
fn turned_form(
    alloc: Global,
    store: &Store,
    answer: Ref,
    form: &Form,
    sign: Sign,
) -> Result<Form, Memory>
    requires found { IsRef store.now.nodes answer }
    requires update { (s : System) × (k : ℕ) × IsGivenFor s store.now.nodes k answer form.now }
    ensures { (s : System) (k : ℕ) → IsGivenFor s store.now.nodes k answer form.now → IfOk result (IsTurned s store.now.nodes k (sign_of sign) answer) }
{
    if store.is_false(answer) {
        return Ok(no_form(alloc));
    }
    times(alloc, form, sign)
}

/// For each answer to the question of a memory what the memory becomes there, times the sign.
fn turned_forms(
    alloc: Global,
    store: &Store,
    answers: &[Ref],
    forms: &Many<Form>,
    sign: Sign,
) -> Result<Many<Form>, Memory>
    requires found { AreRefs store.now.nodes answers.now }
    requires many { length answers.now ≡ length forms.now }
    requires update { (s : System) × (k : ℕ) × AreGivenFor s store.now.nodes k answers.now forms.now }
    ensures { (s : System) (k : ℕ) → AreGivenFor s store.now.nodes k answers.now forms.now
        → IfOk result (AreTurned s store.now.nodes k (sign_of sign) answers.now (length answers.now)) }
{
    let mut list = Many::new(alloc);
    for place in 0..forms.len() {
        let form = turned_form(alloc, store, answers[place], forms.at(place), sign)?;
        list.push(form)?;
    }
    Ok(list)
}

/// For each memory and each answer to its question what the memory becomes there, times the sign.
pub fn all_turned(
    alloc: Global,
    store: &Store,
    questions: &Questions,
    sign: Sign,
) -> Result<Many<Many<Form>>, Memory>
    requires { (s : System) × IsSystem s × AreQuestions s store.now questions.now }
    ensures { (s : System) → IsSystem s → AreQuestions s store.now questions.now
        → IfOk result (AreAllTurned s store.now.nodes questions.now (sign_of sign) s.memories) }
{
    let mut lists = Many::new(alloc);
    let tests = questions.rows.len();
    for memory in 0..questions.forms.len() {
        let question = tests + memory;
        let answers = questions.questions.at(question);
        let given = answers.as_slice();
        let forms = questions.forms.at(memory);
        let list = turned_forms(alloc, store, given, forms, sign)?;
        lists.push(list)?;
    }
    Ok(lists)
}
