//! The questions of a flat system.

ghost use Rattle.std.specs.Prelude.{◌≡◌, ◌++◌, ◌<◌, ◌^◌, length, map, IfOk, OnOk, IsErrOf};
ghost use Rattle.rv_diagram.specs.Nodes.{IsMeant, IsRef};
ghost use Rattle.rv_diagram.specs.Growing.{Extends};
ghost use Rattle.rv_control.specs.Control.{control_of};
ghost use Rattle.rv_proofs.specs.Systems.{IsSystem};
ghost use Rattle.rv_bits.specs.Shown.{AreAfter, IsAround};
ghost use Rattle.rv_cases.specs.Questions.{AreQuestions, AreDistinct};
ghost use Rattle.rv_forms.specs.Choices.{refs_in, forms_in};
ghost use Rattle.rv_forms.specs.Terms.{IsReady};
ghost use Rattle.rv_tested.specs.Testing.{AreTestsRead, IsObserverAsked};

use crate::compared::comparisons_of;
use crate::testing::{Tests, read_all, read_tests};
use rv_base::{Many, Memory};
use rv_bits::Around;
use rv_cases::Questions;
use rv_diagram::{Ref, Store, StoreFault};
use rv_forms::{Wholes, forms_of, none_known, read_updates, read_wholes, refs_of};
use rv_rows::Form;
use rv_terms::Term;
use std::alloc::Global;

/// The questions of the order tests: each comparison of the flat system is read once.
fn ask_tests(
    alloc: Global,
    store: &mut Store,
    around: &Around,
    wholes: &Wholes,
    shown: &mut Many<Option<Many<Ref>>>,
    known: &mut Many<Option<Term>>,
) -> Result<Tests, StoreFault>
    requires ready { IsReady store.old around.now wholes.now shown.old known.old }
    requires all { length wholes.now.flows ≡ length around.now.flat.now.flows }
    ensures ok { IfOk result (λ t. AreTestsRead around.now.flat.now store.new.nodes (control_of around.now.flat.now).tests t.questions t.rows) }
    ensures extends { OnOk result (Extends store.old store.new) }
    ensures roomy { IsErrOf result StoreFault.Nodes → store.old.limit < 2 ^ (2 ^ store.old.variables) }
{
    let compared = comparisons_of(alloc, around.flat)?;
    let sides = read_all(alloc, store, around, wholes, shown, known, &compared)?;
    read_tests(alloc, store, around.flat, &compared, &sides)
}

/// Adds for each term a question with the references of its parts, and gives the forms of the parts.
fn ask_memories(
    alloc: Global,
    terms: &Many<Term>,
    questions: &mut Many<Many<Ref>>,
) -> Result<Many<Many<Form>>, Memory>
    ensures asked { OnOk result (questions.new ≡ questions.old ++ map (λ t. refs_in t.parts) terms.now) }
    ensures forms { IfOk result (λ forms. forms ≡ map (λ t. forms_in t.parts) terms.now) }
{
    let mut forms = Many::new(alloc);
    for term in terms.as_slice() {
        questions.push(refs_of(alloc, term)?)?;
        forms.push(forms_of(alloc, term)?)?;
    }
    Ok(forms)
}

/// Adds the question of the observer: true, false.
fn ask_observer(
    alloc: Global,
    store: &mut Store,
    observer: Ref,
    questions: &mut Many<Many<Ref>>,
) -> Result<(), StoreFault>
    requires { IsRef store.old.nodes observer }
    ensures asked { OnOk result (IsObserverAsked store.old store.new observer questions.old questions.new) }
    ensures roomy { IsErrOf result StoreFault.Nodes → store.old.limit < 2 ^ (2 ^ store.old.variables) }
{
    let negation = store.not(observer)?;
    let mut sides = Many::new(alloc);
    sides.push(observer)?;
    sides.push(negation)?;
    questions.push(sides)?;
    Ok(())
}

/// The questions of a flat system, of which all that stands alone has been read: for each order test absence, and its rows; for each integer
/// memory the forms that it becomes; for the observer, true and false. Each answer is true exactly where it is right. No test has one
/// row in two answers and no memory one form, and no answer reads a next copy. `observer` is the reference of the observer. Nodes comes
/// where the store has no room, never where its limit holds every function of its variables, and Memory where there is none; nodes may
/// be left then that nothing names.
pub fn read_questions(
    alloc: Global,
    store: &mut Store,
    around: &Around,
    wholes: &Wholes,
    shown: &mut Many<Option<Many<Ref>>>,
    known: &mut Many<Option<Term>>,
    observer: Ref,
) -> Result<Questions, StoreFault>
    requires ready { IsReady store.old around.now wholes.now shown.old known.old }
    requires all { length wholes.now.flows ≡ length around.now.flat.now.flows }
    requires system { IsSystem (control_of around.now.flat.now) }
    requires variables { store.old.variables ≡ length around.now.flat.now.variables }
    requires observer { IsMeant store.old.nodes (control_of around.now.flat.now).observer observer }
    ensures ok { IfOk result (λ q. AreQuestions (control_of around.now.flat.now) store.new q × AreDistinct q) }
    ensures extends { OnOk result (Extends store.old store.new) }
    ensures roomy { IsErrOf result StoreFault.Nodes → store.old.limit < 2 ^ (2 ^ store.old.variables) }
{
    let terms = read_updates(alloc, store, around, wholes, shown, known)?;
    let Tests {
        mut questions,
        rows,
    } = ask_tests(alloc, store, around, wholes, shown, known)?;
    let forms = ask_memories(alloc, &terms, &mut questions)?;
    ask_observer(alloc, store, observer, &mut questions)?;
    Ok(Questions {
        questions,
        rows,
        forms,
    })
}

/// The same of a flat system of which the control alone has been read: its integers are read first.
pub fn ask_system(
    alloc: Global,
    store: &mut Store,
    around: &Around,
    shown: &mut Many<Option<Many<Ref>>>,
    observer: Ref,
) -> Result<Questions, StoreFault>
    requires around { IsAround store.old around.now }
    requires complete { length around.now.read.now.on ≡ length around.now.flat.now.flows }
    requires shown { AreAfter around.now.flat.now store.old.nodes shown.old }
    requires system { IsSystem (control_of around.now.flat.now) }
    requires variables { store.old.variables ≡ length around.now.flat.now.variables }
    requires observer { IsMeant store.old.nodes (control_of around.now.flat.now).observer observer }
    ensures ok { IfOk result (λ q. AreQuestions (control_of around.now.flat.now) store.new q × AreDistinct q) }
    ensures extends { OnOk result (Extends store.old store.new) }
    ensures roomy { IsErrOf result StoreFault.Nodes → store.old.limit < 2 ^ (2 ^ store.old.variables) }
{
    let mut known = none_known(alloc, around.flat)?;
    let wholes = read_wholes(alloc, store, around, shown, &mut known)?;
    read_questions(alloc, store, around, &wholes, shown, &mut known, observer)
}
