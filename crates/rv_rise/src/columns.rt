//! How many columns the forms of a system have.

ghost use Rattle.std.specs.Prelude.{◌≡◌, ℕ, ◌<◌, true, false, length, slice_get, Some, MatchBool};
ghost use Rattle.rv_diagram.specs.Nodes.{Valuation, IsRef, value_of};
ghost use Rattle.rv_proofs.specs.Systems.{System, IsSystem};
ghost use Rattle.rv_cases.specs.Conditions.{is_in, AreAnswers};
ghost use Rattle.rv_cases.specs.Questions.{AreQuestions};
ghost use Rattle.rv_rows.specs.declared.linear.Form.{Form as FormModel};

use rv_base::Many;
use rv_cases::Questions;
use rv_diagram::{Ref, Store};
use rv_rows::Form;

/// Whether the reference is true somewhere.
fn is_given(store: &Store, answer: Ref) -> bool
    requires { IsRef store.now.nodes answer }
    ensures { MatchBool result (¬ ((v : Valuation) → value_of store.now.nodes answer v ≡ false)) ((v : Valuation) → value_of store.now.nodes answer v ≡ false) }
{
    let _count = store.mark();
    !store.is_false(answer)
}

/// How many columns a form has whose answer is given somewhere; each valuation has one of the answers.
fn columns_in(store: &Store, answers: &Many<Ref>, forms: &Many<Form>) -> usize
    requires answers { AreAnswers store.now.nodes answers.now }
    requires many { length answers.now ≡ length forms.now }
    ensures { (n : ℕ) → ((i : ℕ) (f : FormModel) (v : Valuation) → slice_get forms.now i ≡ Some f → is_in store.now.nodes answers.now i v ≡ true
        → length f.coefficients ≡ n) → result ≡ n }
{
    for place in 0..forms.len() {
        let form = forms.at(place);
        let answer = *answers.at(place);
        if is_given(store, answer) {
            return form.coefficients.len();
        }
    }
    0
}

/// How many columns the forms have that the integer memories become; 0 where there are no memories.
pub fn columns_of(store: &Store, questions: &Questions) -> usize
    requires { (s : System) × IsSystem s × AreQuestions s store.now questions.now }
    ensures { (s : System) → IsSystem s → AreQuestions s store.now questions.now → 0 < s.memories → result ≡ s.columns }
{
    let memories = questions.forms.len();
    if memories == 0 {
        return 0;
    }
    let tests = questions.rows.len();
    let answers = questions.questions.at(tests);
    let forms = questions.forms.at(0);
    columns_in(store, answers, forms)
}
