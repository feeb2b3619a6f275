//! The relation of the valuations that count: those that are allowed, and at which the row of each test holds.

ghost use Rattle.std.specs.Prelude.{◌≡◌, ◌↔◌, ◌+◌, ◌<◌, ◌^◌, ◌≤ℤ◌, [], pos, true, length, IfOk, IsErrOf, IsTrue};
ghost use Rattle.rv_diagram.specs.Nodes.{IsRef, value_of};
ghost use Rattle.rv_diagram.specs.Growing.{Extends};
ghost use Rattle.rv_rows.specs.Rows.{Holds};
ghost use Rattle.rv_proofs.specs.Systems.{System};
ghost use Rattle.rv_symbolic.specs.Growing.{Finds};
ghost use Rattle.rv_symbolic.specs.Represented.{IsRelationOf};
ghost use Rattle.rv_cases.specs.Conditions.{AreRefs};
ghost use Rattle.rv_cases.specs.Questions.{AreQuestions};
ghost use Rattle.rv_boxes.specs.Narrowed.{narrowed};
ghost use Rattle.rv_boxes.specs.Layering.{ArePartsWith};
ghost use Rattle.rv_open.specs.Columns.{is_counted};
ghost use Rattle.rv_open.specs.Given.{IsConstant, HoldAmong, HoldOfTests};

use rv_base::{Many, Memory};
use rv_cases::Questions;
use rv_diagram::{Ref, Store, StoreFault};
use rv_rows::Row;
use rv_symbolic::{Parts, Relation, relation_stays};
use std::alloc::Global;

/// Whether a row holds without columns.
fn is_met(row: &Row) -> bool
    ensures { IsTrue result ↔ (pos 0 ≤ℤ row.now.bound) }
{
    row.bound >= 0
}

/// What is true as the reference is, but not where the answer says a row that does not hold, with what was built of it.
fn without_row(store: &mut Store, row: &Row, answer: Ref, rest: Ref) -> Result<Ref, StoreFault>
    requires answer { IsRef store.old.nodes answer }
    requires rest { IsRef store.old.nodes rest }
    ensures extends { Extends store.old store.new }
    ensures roomy { IsErrOf result StoreFault.Nodes → store.old.limit < 2 ^ (2 ^ store.old.variables) }
    ensures left { IfOk result (Finds store.old store.new
        (λ v. (value_of store.old.nodes rest v ≡ true) × (value_of store.old.nodes answer v ≡ true → Holds row.now []))) }
{
    if is_met(row) {
        return Ok(rest);
    }
    let nothing = store.constant(false);
    store.ite(answer, nothing, rest)
}

/// What is true as the reference is, but not where a test has a row that does not hold, with what was built of it. The first answer says that the
/// test is absent, and the one after each row's place that it has the row.
fn without_rows(
    store: &mut Store,
    answers: &Many<Ref>,
    rows: &Many<Row>,
    from: Ref,
) -> Result<Ref, StoreFault>
    requires from { IsRef store.old.nodes from }
    requires answers { AreRefs store.old.nodes answers.now }
    requires many { length answers.now ≡ length rows.now + 1 }
    ensures extends { Extends store.old store.new }
    ensures roomy { IsErrOf result StoreFault.Nodes → store.old.limit < 2 ^ (2 ^ store.old.variables) }
    ensures left { IfOk result (Finds store.old store.new
        (λ v. (value_of store.old.nodes from v ≡ true) × HoldAmong store.old.nodes answers.now rows.now (length rows.now) v)) }
{
    let mut rest = from;
    for place in 0..rows.len() {
        let row = rows.at(place);
        let answer = answers.at(place + 1);
        rest = without_row(store, row, *answer, rest)?;
    }
    Ok(rest)
}

/// What is true as the reference is, at the valuations at which the row of each test holds, with what was built of it.
fn open_in(store: &mut Store, questions: &Questions, from: Ref) -> Result<Ref, StoreFault>
    requires from { IsRef store.old.nodes from }
    requires questions { (s : System) × AreQuestions s store.old questions.now }
    ensures extends { Extends store.old store.new }
    ensures roomy { IsErrOf result StoreFault.Nodes → store.old.limit < 2 ^ (2 ^ store.old.variables) }
    ensures left { IfOk result (Finds store.old store.new
        (λ v. (value_of store.old.nodes from v ≡ true) × HoldOfTests store.old.nodes questions.now (length questions.now.rows) v)) }
{
    let mut rest = from;
    for test in 0..questions.rows.len() {
        let answers = questions.questions.at(test);
        let rows = questions.rows.at(test);
        rest = without_rows(store, answers, rows, rest)?;
    }
    Ok(rest)
}

/// The same parts, with another reference for which valuations are allowed.
fn parts_with(alloc: Global, parts: &Parts, allowed: Ref) -> Result<Parts, Memory>
    ensures { IfOk result (ArePartsWith parts.now allowed) }
{
    let next = Vec::from_slice(alloc, parts.next.as_slice())?;
    Ok(Parts {
        allowed,
        observer: parts.observer,
        initial: parts.initial,
        next: Many::from_vec(next),
    })
}

/// The relation of the valuations that count, with what was built of it.
pub fn counted(
    alloc: Global,
    store: &mut Store,
    relation: &Relation,
    questions: &Questions,
) -> Result<Relation, StoreFault>
    requires { (s : System) × IsConstant s store.old relation.now questions.now }
    ensures extends { Extends store.old store.new }
    ensures roomy { IsErrOf result StoreFault.Nodes → store.old.limit < 2 ^ (2 ^ store.old.variables) }
    ensures counted { (s : System) → IsConstant s store.old relation.now questions.now → IfOk result (IsRelationOf (narrowed s (is_counted s)) store.new) }
{
    relation_stays();
    let given = relation.parts();
    let kept = open_in(store, questions, given.allowed)?;
    let parts = parts_with(alloc, given, kept)?;
    Relation::new(alloc, store, parts)
}
