//! What happens at one valuation, and the answers on which that rests.

ghost use Rattle.std.specs.Prelude.{◌≡◌, ◌+◌, ◌<◌, ◌^◌, All, IfOk, IfSome, length};
ghost use Rattle.rv_rows.specs.Forms.{CanSubstitute};
ghost use Rattle.rv_proofs.specs.Systems.{System};
ghost use Rattle.rv_proofs.specs.Ranges.{AreKept, IsRecord};
ghost use Rattle.rv_proofs.specs.declared.certificate.EntryKind.TheVariants.{Dead, Go};
ghost use Rattle.rv_cases.specs.Conditions.{AreRefs};
ghost use Rattle.rv_cases.specs.Questions.{HaveAnswers};
ghost use Rattle.rv_cover.specs.Entries.{IsFound};
ghost use Rattle.rv_cover.specs.Seeking.{IsSearched};

use crate::answers::{test_answers, told_forms, told_rows, with_updates};
use crate::fewest::{least_reach, least_refutation};
use crate::frame::Frame;
use crate::marks::{mark_each, mark_named, unset};
use rv_base::{Many, Memory};
use rv_cases::Questions;
use rv_diagram::{Ref, Store};
use rv_proofs::EntryKind;
use rv_rows::{Multipliers, Row};
use std::alloc::Global;

/// What happens at a valuation, and wherever the same answers are given.
#[derive(Drop)]
pub struct Found {
    /// What happens.
    pub kind: EntryKind,
    /// The answers.
    pub answers: Vec<Ref>,
}

/// A dead entry by what refutes the premises, of which the first ones are rows.
fn dead_by(
    alloc: Global,
    store: &Store,
    sample: &Many<bool>,
    questions: &Questions,
    first: usize,
    by: Multipliers,
) -> Result<Found, Memory>
    requires sized { length sample.now ≡ store.now.variables }
    requires answers { HaveAnswers store.now.nodes questions.now }
    ensures kind { IfOk result (λ f. f.kind ≡ Dead by) }
    ensures answers { IfOk result (λ f. AreRefs store.now.nodes f.answers.items) }
{
    let mut named = unset(alloc, questions.rows.len())?;
    mark_named(&mut named, first, &by);
    let answers = test_answers(alloc, store, sample, questions, &named)?;
    Ok(Found {
        kind: EntryKind::Dead(by),
        answers,
    })
}

/// A dead entry at a valuation by these rows, or none where its premises are not refuted.
pub fn dead_from(
    alloc: Global,
    store: &Store,
    frame: &Frame,
    sample: &Many<bool>,
    questions: &Questions,
    given: &Many<Row>,
) -> Result<Option<Found>, Memory>
    requires sized { length sample.now ≡ store.now.variables }
    requires searched { (s : System) × IsSearched s store.now questions.now frame.now given.now }
    ensures { IfOk result (λ o. IfSome o (IsFound store.now.nodes (length given.now + length questions.now.rows))) }
{
    let mut told = told_rows(alloc, store, sample, questions)?;
    match least_refutation(alloc, frame.by, given, &mut told)? {
        Some(by) => {
            let found = dead_by(alloc, store, sample, questions, given.len(), by)?;
            Ok(Some(found))
        }
        None => Ok(None),
    }
}

/// A step into a location by what proves the wanted rows, from premises of which the first ones are rows.
fn step_by(
    alloc: Global,
    store: &Store,
    sample: &Many<bool>,
    questions: &Questions,
    first: usize,
    wanted: &Many<Row>,
    target: u32,
    reach: Many<Multipliers>,
) -> Result<Found, Memory>
    requires sized { length sample.now ≡ store.now.variables }
    requires answers { HaveAnswers store.now.nodes questions.now }
    requires few { length questions.now.questions < 2 ^ 32 }
    ensures kind { IfOk result (λ f. f.kind ≡ Go target reach) }
    ensures answers { IfOk result (λ f. AreRefs store.now.nodes f.answers.items) }
{
    let mut named = unset(alloc, questions.rows.len())?;
    mark_each(&mut named, first, &reach);
    let tests = test_answers(alloc, store, sample, questions, &named)?;
    let answers = with_updates(store, sample, questions, wanted, tests)?;
    Ok(Found {
        kind: EntryKind::Go { target, reach },
        answers,
    })
}

/// A step into a location at a valuation by these rows, or none where the wanted rows are not proved there.
pub fn step_into(
    alloc: Global,
    store: &Store,
    frame: &Frame,
    sample: &Many<bool>,
    questions: &Questions,
    given: &Many<Row>,
    wanted: &Many<Row>,
    target: u32,
) -> Result<Option<Found>, Memory>
    requires sized { length sample.now ≡ store.now.variables }
    requires searched { (s : System) × IsSearched s store.now questions.now frame.now given.now × AreKept s wanted.now }
    ensures { IfOk result (λ o. IfSome o (IsFound store.now.nodes (length given.now + length questions.now.rows))) }
{
    let mut told = told_rows(alloc, store, sample, questions)?;
    let updates = told_forms(alloc, store, sample, questions)?;
    match least_reach(alloc, frame.by, given, &mut told, &updates, wanted)? {
        Some(reach) => {
            let found = step_by(
                alloc,
                store,
                sample,
                questions,
                given.len(),
                wanted,
                target,
                reach,
            )?;
            Ok(Some(found))
        }
        None => Ok(None),
    }
}

/// A dead entry at a valuation, by the rows `lean` where these do and else by the given ones, which are as many. None where its premises are
/// not refuted.
pub fn dead_at(
    alloc: Global,
    store: &Store,
    frame: &Frame,
    sample: &Many<bool>,
    questions: &Questions,
    lean: &Many<Row>,
    given: &Many<Row>,
) -> Result<Option<Found>, Memory>
    requires sized { length sample.now ≡ store.now.variables }
    requires searched { (s : System) × IsSearched s store.now questions.now frame.now given.now }
    requires same_many { length lean.now ≡ length given.now }
    ensures { IfOk result (λ o. IfSome o (IsFound store.now.nodes (length given.now + length questions.now.rows))) }
{
    match dead_from(alloc, store, frame, sample, questions, lean)? {
        Some(found) => Ok(Some(found)),
        None => dead_from(alloc, store, frame, sample, questions, given),
    }
}

/// A step into location 1 at a valuation, by the rows `lean` where these do and else by the given ones, which are as many. None where the
/// wanted rows are not proved there.
pub fn step_at(
    alloc: Global,
    store: &Store,
    frame: &Frame,
    sample: &Many<bool>,
    questions: &Questions,
    lean: &Many<Row>,
    given: &Many<Row>,
    wanted: &Many<Row>,
) -> Result<Option<Found>, Memory>
    requires sized { length sample.now ≡ store.now.variables }
    requires searched { (s : System) × IsSearched s store.now questions.now frame.now given.now × AreKept s wanted.now }
    requires same_many { length lean.now ≡ length given.now }
    ensures { IfOk result (λ o. IfSome o (IsFound store.now.nodes (length given.now + length questions.now.rows))) }
{
    match step_into(alloc, store, frame, sample, questions, lean, wanted, 1)? {
        Some(found) => Ok(Some(found)),
        None => step_into(alloc, store, frame, sample, questions, given, wanted, 1),
    }
}
