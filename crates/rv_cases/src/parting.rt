//! The cases of a set of control states.

ghost use Rattle.std.specs.Prelude.{◌≡◌, ℕ, ◌<◌, ◌^◌, length, Some, slice_get, IfOk, IsErrOf};
ghost use Rattle.rv_diagram.specs.Nodes.{IsRef, IsMeant, IsOrderedOver};
ghost use Rattle.rv_diagram.specs.Several.{ref_at};
ghost use Rattle.rv_diagram.specs.Growing.{Extends};
ghost use Rattle.rv_proofs.specs.Systems.{System, IsSystem};
ghost use Rattle.rv_proofs.specs.Ranges.{IsControlSet};
ghost use Rattle.rv_proofs.specs.Cases.{AreCases};
ghost use Rattle.rv_proofs.specs.declared.report.Case.{Case};
ghost use Rattle.rv_cases.specs.Conditions.{AreRefs};
ghost use Rattle.rv_cases.specs.Questions.{HaveAnswers, AreQuestions, AreDistinct, IsSettledFor};
ghost use Rattle.rv_cases.specs.Made.{is_allowed_in, IsMadeFor, AreMadeOf, AreDifferent};

use crate::asking::{Present, Questions};
use crate::splitting::{sample_of, split_whole};
use crate::telling::{observer_in, tests_in, updates_in};
use rv_base::{Many, Memory};
use rv_diagram::{Frozen, Ref, Store, StoreFault};
use rv_proofs::Case;
use std::alloc::Global;

/// The case of a condition throughout which each question has one answer: what the questions say of one of its valuations they say of all.
/// The only error is want of memory.
pub fn make_case(
    alloc: Global,
    store: &Store,
    condition: Ref,
    questions: &Questions,
) -> Result<Case, Memory>
    requires condition { IsRef store.now.nodes condition }
    requires answers { HaveAnswers store.now.nodes questions.now }
    requires few { length questions.now.questions < 2 ^ 32 }
    requires settled { IsSettledFor store.now.nodes questions.now condition }
    ensures made { IfOk result (IsMadeFor store.now questions.now condition) }
{
    let sample = sample_of(alloc, store, condition)?;
    let present = tests_in(alloc, store, &sample, questions)?;
    let updates = updates_in(alloc, store, &sample, questions)?;
    let observer = observer_in(store, &sample, questions);
    let frozen = store.freeze(condition)?;
    let Present { tests, rows } = present;
    Ok(Case {
        condition: frozen,
        tests,
        rows,
        updates,
        observer,
    })
}

/// The case of each condition.
fn make_cases(
    alloc: Global,
    store: &Store,
    conditions: &[Ref],
    questions: &Questions,
) -> Result<Many<Case>, Memory>
    requires conditions { AreRefs store.now.nodes conditions.now }
    requires answers { HaveAnswers store.now.nodes questions.now }
    requires few { length questions.now.questions < 2 ^ 32 }
    requires settled { (j : ℕ) → j < length conditions.now → IsSettledFor store.now.nodes questions.now (ref_at conditions.now j) }
    ensures many { IfOk result (λ cases. length cases ≡ length conditions.now) }
    ensures made { IfOk result (λ cases. (j : ℕ) (c : Case) → slice_get cases j ≡ Some c
        → IsMadeFor store.now questions.now (ref_at conditions.now j) c) }
{
    let mut cases = Many::new(alloc);
    for j in 0..conditions.len() {
        let case = make_case(alloc, store, conditions[j], questions)?;
        cases.push(case)?;
    }
    Ok(cases)
}

/// The allowed valuations of a set.
fn allowed_within(store: &mut Store, allowed: Ref, from: &Frozen) -> Result<Ref, StoreFault>
    requires allowed { IsRef store.old.nodes allowed }
    requires from { IsOrderedOver store.old.variables from.now }
    ensures extends { Extends store.old store.new }
    ensures roomy { IsErrOf result StoreFault.Nodes → store.old.limit < 2 ^ (2 ^ store.old.variables) }
    ensures means { IfOk result (IsMeant store.new.nodes (is_allowed_in store.old.nodes allowed from.now)) }
{
    let set = store.thaw(from)?;
    store.and(allowed, set)
}

/// The cases of a set, and what was built of them.
fn take_cases(
    alloc: Global,
    store: &mut Store,
    allowed: Ref,
    questions: &Questions,
    from: &Frozen,
) -> Result<Many<Case>, StoreFault>
    requires allowed { IsRef store.old.nodes allowed }
    requires answers { HaveAnswers store.old.nodes questions.now }
    requires few { length questions.now.questions < 2 ^ 32 }
    requires from { IsOrderedOver store.old.variables from.now }
    ensures extends { Extends store.old store.new }
    ensures roomy { IsErrOf result StoreFault.Nodes → store.old.limit < 2 ^ (2 ^ store.old.variables) }
    ensures made { IfOk result (AreMadeOf store.old questions.now (is_allowed_in store.old.nodes allowed from.now)) }
{
    let whole = allowed_within(store, allowed, from)?;
    let conditions = split_whole(alloc, store, whole, questions.questions.as_slice())?;
    let cases = make_cases(alloc, store, conditions.as_slice(), questions)?;
    Ok(cases)
}

/// The cases of a set of control states of the system that the references mean: each allowed valuation whose control state is in the set is
/// in exactly one condition, and no other valuation is in any. No condition is empty, and throughout each the tests that are present with
/// their rows, the updates and the observer are those of its case. They are split by the tests first, in rising order, then by the
/// updates, then by the observer; where no question has one row or form in two answers, no two cases are alike. The store is left as it
/// was, after a fault too. Nodes comes where it has no room for what is built on the way, never where its limit holds every function of
/// its variables, and Memory where there is none.
pub fn cases(
    alloc: Global,
    store: &mut Store,
    allowed: Ref,
    questions: &Questions,
    from: &Frozen,
) -> Result<Many<Case>, StoreFault>
    requires { (s : System) × IsSystem s × AreQuestions s store.old questions.now × IsMeant store.old.nodes s.allowed allowed
        × IsControlSet s from.now }
    ensures parted { (s : System) → IsSystem s → AreQuestions s store.old questions.now → IsMeant store.old.nodes s.allowed allowed
        → IsControlSet s from.now → IfOk result (AreCases s from.now) }
    ensures different { (s : System) → AreQuestions s store.old questions.now → AreDistinct questions.now → IfOk result AreDifferent }
    ensures same { store.new ≡ store.old }
    ensures roomy { IsErrOf result StoreFault.Nodes → store.old.limit < 2 ^ (2 ^ store.old.variables) }
{
    let mark = store.mark();
    let answer = take_cases(alloc, store, allowed, questions, from);
    store.release(mark);
    answer
}
