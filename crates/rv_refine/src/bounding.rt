//! Limits of left sides, risen by what any multipliers of the premises show, where these name few tests.

ghost use Rattle.std.specs.Prelude.{◌≡◌, ◌<◌, ◌≤◌, ◌^◌, IsTrue, All, length, IfOk, IfSome, IsErrOf};
ghost use Rattle.std.specs.Int.RustNames.{unsigned_abs};
ghost use Rattle.rv_diagram.specs.Nodes.{IsRef};
ghost use Rattle.rv_diagram.specs.Growing.{Extends};
ghost use Rattle.rv_rows.specs.Rows.{RowWithin};
ghost use Rattle.rv_rows.specs.Forms.{FormWithin};
ghost use Rattle.rv_proofs.specs.Systems.{System, IsSystem, IsUpdate};
ghost use Rattle.rv_cases.specs.Conditions.{AreRefs};
ghost use Rattle.rv_cases.specs.Questions.{AreQuestions};
ghost use Rattle.rv_refine.specs.Sides.{IsLeftSide, IsSmallLimit};
ghost use Rattle.rv_refine.specs.Frames.{IsFrame, IsPath};
ghost use Rattle.rv_refine.specs.Bounds.{IsTold, IsShown, IsTurn};

use crate::frames::Frame;
use crate::rising::Path;
use crate::turning::{Reach, reach_at};
use rv_base::{Many, Memory};
use rv_cases::{Questions, sample_of};
use rv_cover::{
    all_of, are_within, mark_named, premises_of, test_answers, told_forms, told_rows, unset,
    with_updates, without,
};
use rv_diagram::{Ref, Store, StoreFault};
use rv_ends::{is_below, least_above};
use rv_rows::{Form, Multipliers, Row};
use rv_seek::{Bounded, Search, seek_refutation};
use std::alloc::Global;

/// As many turns as are taken for one left side.
const TURNS: usize = 512;

/// No list of premises is as long.
const MANY: usize = 4_294_967_296;

/// The premises of a valuation, and what a left side is after its updates.
#[derive(Debug, Drop)]
pub struct Told {
    /// The given rows, and then those of the tests.
    pub rows: Many<Row>,
    /// The left side after the updates.
    pub form: Form,
}

/// What is shown at a valuation, and the answers on which that rests.
#[derive(Debug, Drop)]
pub struct Shown {
    /// The greatest value, or none where the premises are refuted.
    pub bound: Option<i128>,
    /// The answers.
    pub answers: Vec<Ref>,
}

/// A limit under way, and where it is not shown yet.
#[derive(Debug, Drop)]
pub struct Turn {
    /// The limit.
    pub held: i128,
    /// Where it is not shown yet.
    pub left: Ref,
}

/// The row that a left side is after the updates.
fn moved(alloc: Global, side: &Row, updates: &Many<Form>) -> Result<Row, Memory>
    requires { (s : System) × IsSystem s × IsLeftSide s.memories side.now × (length updates.now ≡ s.memories) × All (IsUpdate s) updates.now }
    ensures { IfOk result (RowWithin (2 ^ 78)) }
{
    side.substitute(alloc, updates)
}

/// What a left side is after the updates.
fn form_of(alloc: Global, side: &Row, updates: &Many<Form>) -> Result<Form, Memory>
    requires { (s : System) × IsSystem s × IsLeftSide s.memories side.now × (length updates.now ≡ s.memories) × All (IsUpdate s) updates.now }
    ensures { IfOk result (FormWithin (2 ^ 78)) }
{
    let Row {
        coefficients,
        bound,
    } = moved(alloc, side, updates)?;
    Ok(Form {
        coefficients,
        constant: -bound,
    })
}

/// The premises of a valuation, and what a left side is after its updates, or none where numbers are too great.
fn told_at(
    alloc: Global,
    store: &Store,
    sample: &Many<bool>,
    questions: &Questions,
    given: &Many<Row>,
    side: &Row,
) -> Result<Option<Told>, Memory>
    requires asked { (s : System) × IsSystem s × AreQuestions s store.now questions.now × IsLeftSide s.memories side.now }
    requires sized { length sample.now ≡ store.now.variables }
    ensures { IfOk result (λ o. IfSome o IsTold) }
{
    let told = told_rows(alloc, store, sample, questions)?;
    let updates = told_forms(alloc, store, sample, questions)?;
    let rows = premises_of(alloc, given, &told)?;
    let form = form_of(alloc, side, &updates)?;
    if rows.len() >= MANY {
        return Ok(None);
    }
    if are_within(&rows) {
        return Ok(Some(Told { rows, form }));
    }
    Ok(None)
}

/// The answers of the tests that multipliers name, and of the memories that the rows have.
fn answers_of(
    alloc: Global,
    store: &Store,
    sample: &Many<bool>,
    questions: &Questions,
    first: usize,
    by: &Multipliers,
    wanted: &Many<Row>,
) -> Result<Vec<Ref>, Memory>
    requires asked { (s : System) × IsSystem s × AreQuestions s store.now questions.now }
    requires sized { length sample.now ≡ store.now.variables }
    ensures { IfOk result (λ list. AreRefs store.now.nodes list.items) }
{
    let mut named = unset(alloc, questions.rows.len())?;
    mark_named(&mut named, first, by);
    let tests = test_answers(alloc, store, sample, questions, &named)?;
    with_updates(store, sample, questions, wanted, tests)
}

/// What is shown with the bound that was found, or none.
fn shown_by(
    alloc: Global,
    store: &Store,
    sample: &Many<bool>,
    questions: &Questions,
    first: usize,
    wanted: &Many<Row>,
    found: Option<Bounded>,
) -> Result<Option<Shown>, Memory>
    requires asked { (s : System) × IsSystem s × AreQuestions s store.now questions.now }
    requires sized { length sample.now ≡ store.now.variables }
    ensures { IfOk result (λ o. IfSome o (IsShown store.now.nodes)) }
{
    match found {
        Some(found) => {
            let Bounded { bound, by } = found;
            let answers = answers_of(alloc, store, sample, questions, first, &by, wanted)?;
            Ok(Some(Shown {
                bound: Some(bound),
                answers,
            }))
        }
        None => Ok(None),
    }
}

/// Whether a bound was found that is at most the limit.
fn is_enough(found: &Option<Bounded>, limit: i128) -> bool {
    match found {
        Some(best) => !is_below(limit, best.bound),
        None => false,
    }
}

/// What the premises show that are refuted, or else the bound that was found.
fn refuted_or(
    alloc: Global,
    store: &Store,
    sample: &Many<bool>,
    questions: &Questions,
    first: usize,
    wanted: &Many<Row>,
    rows: &Many<Row>,
    found: Option<Bounded>,
) -> Result<Option<Shown>, Memory>
    requires asked { (s : System) × IsSystem s × AreQuestions s store.now questions.now }
    requires sized { length sample.now ≡ store.now.variables }
    requires rows { All (RowWithin (2 ^ 60)) rows.now }
    requires few { length rows.now < 2 ^ 32 }
    ensures { IfOk result (λ o. IfSome o (IsShown store.now.nodes)) }
{
    match seek_refutation(alloc, rows)? {
        Some(by) => {
            let nothing = Many::new(alloc);
            let answers = answers_of(alloc, store, sample, questions, first, &by, &nothing)?;
            Ok(Some(Shown {
                bound: None,
                answers,
            }))
        }
        None => shown_by(alloc, store, sample, questions, first, wanted, found),
    }
}

/// The greatest value of a left side after the updates at a valuation, or none where nothing is shown. The rows that are wanted are the left side alone.
fn shown_at(
    alloc: Global,
    store: &Store,
    sample: &Many<bool>,
    questions: &Questions,
    given: &Many<Row>,
    side: &Row,
    wanted: &Many<Row>,
    limit: i128,
) -> Result<Option<Shown>, Memory>
    requires asked { (s : System) × IsSystem s × AreQuestions s store.now questions.now × IsLeftSide s.memories side.now }
    requires sized { length sample.now ≡ store.now.variables }
    ensures { IfOk result (λ o. IfSome o (IsShown store.now.nodes)) }
{
    let Some(told) = told_at(alloc, store, sample, questions, given, side)? else {
        return Ok(None);
    };
    let Told { rows, form } = told;
    let search = Search::new(alloc, &rows)?;
    let found = search.bound(alloc, &form)?;
    let first = given.len();
    if is_enough(&found, limit) {
        return shown_by(alloc, store, sample, questions, first, wanted, found);
    }
    refuted_or(alloc, store, sample, questions, first, wanted, &rows, found)
}

/// The limit, where the bound is at most that, and else the least threshold that is not below the bound.
#[tactic(auto, using(crate::proofs::Framing::least_small))]
fn risen_over(thresholds: &Many<i128>, limit: i128, bound: Option<i128>) -> Option<i128>
    requires thresholds { All (λ t. unsigned_abs t ≤ 2 ^ 41) thresholds.now }
    requires limit { unsigned_abs limit ≤ 2 ^ 41 }
    ensures { IsSmallLimit result }
{
    match bound {
        Some(bound) => {
            if is_below(limit, bound) {
                return least_above(thresholds, bound);
            }
            Some(limit)
        }
        None => Some(limit),
    }
}

/// Whether the bound is above the limit.
fn is_above(bound: Option<i128>, limit: i128) -> bool {
    match bound {
        Some(bound) => is_below(limit, bound),
        None => false,
    }
}

/// How far the left side comes in any number of turns, where that is asked and its bound is above the limit.
fn reach_of(
    alloc: Global,
    store: &Store,
    sample: &Many<bool>,
    questions: &Questions,
    frame: &Frame,
    given: &Many<Row>,
    side: &Row,
    asked: bool,
) -> Result<Reach, Memory>
    requires frame { (s : System) × IsFrame s store.now questions.now frame.now }
    requires sized { length sample.now ≡ store.now.variables }
{
    if asked {
        let columns = frame.columns;
        return reach_at(alloc, store, sample, questions, given, side, columns);
    }
    Ok(Reach::Unknown)
}

/// The limit, raised over the bound and over what is reached in any number of turns, or none where no threshold is.
fn risen_to(thresholds: &Many<i128>, limit: i128, bound: Option<i128>, reach: Reach) -> Option<i128>
    requires thresholds { All (λ t. unsigned_abs t ≤ 2 ^ 41) thresholds.now }
    requires limit { unsigned_abs limit ≤ 2 ^ 41 }
    ensures { IsSmallLimit result }
{
    let Some(risen) = risen_over(thresholds, limit, bound) else {
        return None;
    };
    match reach {
        Reach::Unknown => Some(risen),
        Reach::Bound(most) => risen_over(thresholds, risen, Some(most)),
        Reach::Endless => None,
    }
}

/// What is left of a reference without the valuations with all these answers, with what was built of it.
pub fn left_of(store: &mut Store, left: Ref, answers: &[Ref]) -> Result<Ref, StoreFault>
    requires left { IsRef store.old.nodes left }
    requires answers { AreRefs store.old.nodes answers.now }
    ensures extends { Extends store.old store.new }
    ensures roomy { IsErrOf result StoreFault.Nodes → store.old.limit < 2 ^ (2 ^ store.old.variables) }
    ensures found { IfOk result (IsRef store.new.nodes) }
{
    let region = all_of(store, answers)?;
    without(store, left, region)
}

/// The limit after what is shown at one more valuation, or none, with what was built of it.
fn next_turn(
    alloc: Global,
    store: &mut Store,
    questions: &Questions,
    frame: &Frame,
    given: &Many<Row>,
    side: &Row,
    wanted: &Many<Row>,
    turn: &Turn,
    turns: bool,
) -> Result<Option<Turn>, StoreFault>
    requires frame { (s : System) × IsFrame s store.old questions.now frame.now × IsLeftSide s.memories side.now }
    requires turn { IsTurn store.old.nodes turn.now }
    ensures extends { Extends store.old store.new }
    ensures roomy { IsErrOf result StoreFault.Nodes → store.old.limit < 2 ^ (2 ^ store.old.variables) }
    ensures turn { IfOk result (λ o. IfSome o (IsTurn store.new.nodes)) }
{
    let sample = sample_of(alloc, store, turn.left)?;
    let shown = shown_at(
        alloc, store, &sample, questions, given, side, wanted, turn.held,
    )?;
    let Some(found) = shown else {
        return Ok(None);
    };
    let Shown { bound, answers } = found;
    let asked = turns && is_above(bound, turn.held);
    let reach = reach_of(alloc, store, &sample, questions, frame, given, side, asked)?;
    let Some(held) = risen_to(&frame.thresholds, turn.held, bound, reach) else {
        return Ok(None);
    };
    let left = left_of(store, turn.left, answers.as_slice())?;
    Ok(Some(Turn { held, left }))
}

/// The limit of a left side, risen by what is shown where the reference is true, with what was built of it.
fn risen_in(
    alloc: Global,
    store: &mut Store,
    questions: &Questions,
    frame: &Frame,
    given: &Many<Row>,
    side: &Row,
    wanted: &Many<Row>,
    begun: Turn,
    turns: bool,
) -> Result<Option<i128>, StoreFault>
    requires frame { (s : System) × IsFrame s store.old questions.now frame.now × IsLeftSide s.memories side.now }
    requires begun { IsTurn store.old.nodes begun }
    ensures small { IfOk result IsSmallLimit }
    ensures extends { Extends store.old store.new }
    ensures roomy { IsErrOf result StoreFault.Nodes → store.old.limit < 2 ^ (2 ^ store.old.variables) }
{
    let mut turn = begun;
    for _turn in 0..TURNS {
        if store.is_false(turn.left) {
            return Ok(Some(turn.held));
        }
        let next = next_turn(
            alloc, store, questions, frame, given, side, wanted, &turn, turns,
        )?;
        match next {
            Some(next) => turn = next,
            None => return Ok(None),
        }
    }
    Ok(None)
}

/// A list of one left side.
fn alone(alloc: Global, side: &Row) -> Result<Many<Row>, Memory> {
    let numbers = Vec::from_slice(alloc, side.coefficients.as_slice())?;
    let mut wanted = Many::new(alloc);
    wanted.push(Row {
        coefficients: Many::from_vec(numbers),
        bound: 0,
    })?;
    Ok(wanted)
}

/// The limit of a left side, risen by what is shown where the steps are. The store is left as it was, after a fault too. Nodes comes where it has
/// no room for what is built on the way, never where its limit holds every function of its variables, and Memory where there is none.
pub fn risen_limit(
    alloc: Global,
    store: &mut Store,
    questions: &Questions,
    frame: &Frame,
    given: &Many<Row>,
    side: &Row,
    path: &Path,
    limit: i128,
) -> Result<Option<i128>, StoreFault>
    requires frame { (s : System) × IsFrame s store.old questions.now frame.now × IsLeftSide s.memories side.now }
    requires path { IsPath store.old.nodes path.now }
    requires limit { unsigned_abs limit ≤ 2 ^ 41 }
    ensures small { IfOk result IsSmallLimit }
    ensures same { store.new ≡ store.old }
    ensures roomy { IsErrOf result StoreFault.Nodes → store.old.limit < 2 ^ (2 ^ store.old.variables) }
{
    let wanted = alone(alloc, side)?;
    let begun = Turn {
        held: limit,
        left: path.here,
    };
    let mark = store.mark();
    let answer = risen_in(
        alloc, store, questions, frame, given, side, &wanted, begun, path.turn,
    );
    store.release(mark);
    answer
}
