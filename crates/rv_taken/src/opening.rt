//! The valuations that a box claim takes: allowed ones whose control state is in its set, and whose narrowed box is open.

ghost use Rattle.std.specs.Prelude.{◌≡◌, ℕ, ◌+◌, ◌<◌, ◌≤◌, ◌^◌, ◌&&◌, not, true, [], length, All, IfOk, IsErrOf, MatchBool};
ghost use Rattle.std.specs.Int.RustNames.{unsigned_abs};
ghost use Rattle.rv_diagram.specs.Nodes.{Valuation, IsRef, IsMeant, value_of};
ghost use Rattle.rv_diagram.specs.Growing.{Extends};
ghost use Rattle.rv_proofs.specs.Systems.{System};
ghost use Rattle.rv_cases.specs.Conditions.{AreRefs, list_at};
ghost use Rattle.rv_cases.specs.Questions.{HaveAnswers, rows_at};
ghost use Rattle.rv_walk.specs.Ends.{has};
ghost use Rattle.rv_ends.specs.Claiming.{claim_with};
ghost use Rattle.rv_ends.specs.Intervals.{HasPoint, interval_at};
ghost use Rattle.rv_ends.specs.Sides.{IsSide, AreEnds, AreEndsOf, interval_of, box_at};
ghost use Rattle.rv_taken.specs.Taken.{IsTakenAt, IsAsked, IsLimited};
ghost use Rattle.rv_taken.specs.Meeting.{IsExactly, opposite, IsCrossed, IsMetIn, IsFitting, IsRowOf, AreRowsOf, AreMet, AreTestsMet, HasOpenBox};

use rv_base::{Many, Memory};
use rv_cases::Questions;
use rv_diagram::{Frozen, Ref, Store, StoreFault};
use rv_ends::{Ends, Side, below, greatest, limited, only_column};
use rv_rows::Row;
use rv_terms::sum;
use std::alloc::Global;

/// What a claim takes, and the narrowed boxes there.
#[derive(Debug, Drop)]
pub struct Opening {
    /// True exactly at the valuations that the claim takes.
    pub taken: Ref,
    /// The narrowed box at each valuation.
    pub ends: Many<Ends>,
}

/// The numbers, each with the other sign.
fn negated(alloc: Global, numbers: &Many<i128>) -> Result<Many<i128>, Memory>
    requires { All (λ c. unsigned_abs c ≤ 2 ^ 41) numbers.now }
    ensures { IfOk result (λ list. list ≡ opposite numbers.now) }
{
    let mut list = Many::new(alloc);
    for column in 0..numbers.len() {
        list.push(-*numbers.at(column))?;
    }
    Ok(list)
}

/// What is true as the reference is, but where both references are.
fn without(store: &mut Store, whole: Ref, one: Ref, other: Ref) -> Result<Ref, StoreFault>
    requires whole { IsRef store.old.nodes whole }
    requires one { IsRef store.old.nodes one }
    requires other { IsRef store.old.nodes other }
    ensures extends { Extends store.old store.new }
    ensures roomy { IsErrOf result StoreFault.Nodes → store.old.limit < 2 ^ (2 ^ store.old.variables) }
    ensures exact { IfOk result (IsMeant store.new.nodes (λ v. value_of store.old.nodes whole v
        && not (value_of store.old.nodes one v && value_of store.old.nodes other v))) }
{
    let both = store.and(one, other)?;
    let rest = store.not(both)?;
    store.and(whole, rest)
}

/// Where the bounds of a column exclude each other: they sum to less than 0.
fn crossing(alloc: Global, store: &mut Store, ends: &Ends) -> Result<Ref, StoreFault>
    requires high { IsSide store.old.nodes (2 ^ 60) ends.now.high }
    requires low { IsSide store.old.nodes (2 ^ 60) ends.now.low }
    ensures extends { Extends store.old store.new }
    ensures roomy { IsErrOf result StoreFault.Nodes → store.old.limit < 2 ^ (2 ^ store.old.variables) }
    ensures exact { IfOk result (IsExactly store.new.nodes (λ v. IsCrossed (interval_of store.old.nodes v ends.now))) }
{
    let end = sum(alloc, store, &ends.high.end, &ends.low.end)?;
    let there = store.and(ends.high.there, ends.low.there)?;
    let width = Side { there, end };
    below(store, &width, 0)
}

/// What is true as the reference is, but where the bounds of the column exclude each other.
fn without_column(
    alloc: Global,
    store: &mut Store,
    whole: Ref,
    ends: &Many<Ends>,
    column: usize,
) -> Result<Ref, StoreFault>
    requires whole { IsRef store.old.nodes whole }
    requires ends { AreEnds store.old.nodes (length ends.now) ends.now }
    requires column { column < length ends.now }
    ensures extends { Extends store.old store.new }
    ensures roomy { IsErrOf result StoreFault.Nodes → store.old.limit < 2 ^ (2 ^ store.old.variables) }
    ensures exact { IfOk result (IsExactly store.new.nodes (λ v. (value_of store.old.nodes whole v ≡ true)
        × (IsCrossed (interval_at (box_at store.old.nodes ends.now v) column) → ⊥))) }
{
    let crossed = crossing(alloc, store, ends.at(column))?;
    without(store, whole, crossed, crossed)
}

/// What is true as the reference is, but where the box is empty.
fn without_empty(
    alloc: Global,
    store: &mut Store,
    whole: Ref,
    ends: &Many<Ends>,
) -> Result<Ref, StoreFault>
    requires whole { IsRef store.old.nodes whole }
    requires ends { AreEnds store.old.nodes (length ends.now) ends.now }
    ensures extends { Extends store.old store.new }
    ensures roomy { IsErrOf result StoreFault.Nodes → store.old.limit < 2 ^ (2 ^ store.old.variables) }
    ensures exact { IfOk result (IsExactly store.new.nodes (λ v. (value_of store.old.nodes whole v ≡ true)
        × HasPoint (box_at store.old.nodes ends.now v))) }
{
    let mut rest = whole;
    for column in 0..ends.len() {
        rest = without_column(alloc, store, rest, ends, column)?;
    }
    Ok(rest)
}

/// Where the row's least value over a box that is not empty is above its bound: no point of the box meets it.
fn unmet(alloc: Global, store: &mut Store, ends: &Many<Ends>, row: &Row) -> Result<Ref, StoreFault>
    requires ends { AreEnds store.old.nodes (length ends.now) ends.now }
    requires few { length ends.now ≤ 128 }
    requires fits { IsFitting (length ends.now) row.now }
    ensures extends { Extends store.old store.new }
    ensures roomy { IsErrOf result StoreFault.Nodes → store.old.limit < 2 ^ (2 ^ store.old.variables) }
    ensures found { IfOk result (IsRef store.new.nodes) }
    ensures exact { IfOk result (λ r. (v : Valuation) → HasPoint (box_at store.old.nodes ends.now v)
        → MatchBool (value_of store.new.nodes r v) (IsMetIn (box_at store.old.nodes ends.now v) row.now → ⊥)
        (IsMetIn (box_at store.old.nodes ends.now v) row.now)) }
{
    let numbers = negated(alloc, &row.coefficients)?;
    let top = greatest(alloc, store, ends, &numbers)?;
    below(store, &top, -row.bound)
}

/// What is true as the reference is, but where the row counts and no point of the box meets it. A row with one column holds in all of the
/// box.
fn without_row(
    alloc: Global,
    store: &mut Store,
    whole: Ref,
    ends: &Many<Ends>,
    under: Ref,
    row: &Row,
) -> Result<Ref, StoreFault>
    requires whole { IsRef store.old.nodes whole }
    requires under { IsRef store.old.nodes under }
    requires ends { AreEnds store.old.nodes (length ends.now) ends.now }
    requires few { length ends.now ≤ 128 }
    requires opened { (v : Valuation) → value_of store.old.nodes whole v ≡ true → HasPoint (box_at store.old.nodes ends.now v) }
    requires row { IsRowOf store.old.nodes ends.now whole under row.now }
    ensures extends { Extends store.old store.new }
    ensures roomy { IsErrOf result StoreFault.Nodes → store.old.limit < 2 ^ (2 ^ store.old.variables) }
    ensures exact { IfOk result (IsExactly store.new.nodes (λ v. (value_of store.old.nodes whole v ≡ true)
        × (value_of store.old.nodes under v ≡ true → IsMetIn (box_at store.old.nodes ends.now v) row.now))) }
{
    let _count = store.mark();
    if store.is_false(under) {
        return Ok(whole);
    }
    if only_column(row).is_some() {
        return Ok(whole);
    }
    let shut = unmet(alloc, store, ends, row)?;
    without(store, whole, under, shut)
}

/// The same for all rows of a test, each under its answer.
fn without_test(
    alloc: Global,
    store: &mut Store,
    whole: Ref,
    ends: &Many<Ends>,
    answers: &[Ref],
    rows: &Many<Row>,
) -> Result<Ref, StoreFault>
    requires whole { IsRef store.old.nodes whole }
    requires answers { AreRefs store.old.nodes answers.now }
    requires many { length answers.now ≡ length rows.now + 1 }
    requires ends { AreEnds store.old.nodes (length ends.now) ends.now }
    requires few { length ends.now ≤ 128 }
    requires opened { (v : Valuation) → value_of store.old.nodes whole v ≡ true → HasPoint (box_at store.old.nodes ends.now v) }
    requires rows { AreRowsOf store.old.nodes ends.now whole answers.now rows.now }
    ensures extends { Extends store.old store.new }
    ensures roomy { IsErrOf result StoreFault.Nodes → store.old.limit < 2 ^ (2 ^ store.old.variables) }
    ensures exact { IfOk result (IsExactly store.new.nodes (λ v. (value_of store.old.nodes whole v ≡ true)
        × AreMet store.old.nodes ends.now answers.now rows.now (length rows.now) v)) }
{
    let mut rest = whole;
    for place in 0..rows.len() {
        rest = without_row(alloc, store, rest, ends, answers[place + 1], rows.at(place))?;
    }
    Ok(rest)
}

/// The same for all tests.
fn without_tests(
    alloc: Global,
    store: &mut Store,
    whole: Ref,
    questions: &Questions,
    ends: &Many<Ends>,
) -> Result<Ref, StoreFault>
    requires whole { IsRef store.old.nodes whole }
    requires answers { HaveAnswers store.old.nodes questions.now }
    requires ends { AreEnds store.old.nodes (length ends.now) ends.now }
    requires few { length ends.now ≤ 128 }
    requires opened { (v : Valuation) → value_of store.old.nodes whole v ≡ true → HasPoint (box_at store.old.nodes ends.now v) }
    requires rows { (t : ℕ) → t < length questions.now.rows
        → AreRowsOf store.old.nodes ends.now whole (list_at questions.now.questions t) (rows_at questions.now.rows t) }
    ensures extends { Extends store.old store.new }
    ensures roomy { IsErrOf result StoreFault.Nodes → store.old.limit < 2 ^ (2 ^ store.old.variables) }
    ensures exact { IfOk result (IsExactly store.new.nodes (λ v. (value_of store.old.nodes whole v ≡ true)
        × AreTestsMet store.old.nodes ends.now questions.now (length questions.now.rows) v)) }
{
    let mut rest = whole;
    for test in 0..questions.rows.len() {
        let answers = questions.questions.at(test);
        let rows = questions.rows.at(test);
        rest = without_test(alloc, store, rest, ends, answers.as_slice(), rows)?;
    }
    Ok(rest)
}

/// What is true as the reference is, but where the box is shut.
fn opened(
    alloc: Global,
    store: &mut Store,
    whole: Ref,
    questions: &Questions,
    ends: &Many<Ends>,
) -> Result<Ref, StoreFault>
    requires whole { IsRef store.old.nodes whole }
    requires answers { HaveAnswers store.old.nodes questions.now }
    requires ends { AreEnds store.old.nodes (length ends.now) ends.now }
    requires few { length ends.now ≤ 128 }
    requires rows { (t : ℕ) → t < length questions.now.rows
        → AreRowsOf store.old.nodes ends.now whole (list_at questions.now.questions t) (rows_at questions.now.rows t) }
    ensures extends { Extends store.old store.new }
    ensures roomy { IsErrOf result StoreFault.Nodes → store.old.limit < 2 ^ (2 ^ store.old.variables) }
    ensures exact { IfOk result (IsExactly store.new.nodes (λ v. (value_of store.old.nodes whole v ≡ true)
        × HasOpenBox store.old.nodes ends.now questions.now v)) }
{
    let some = without_empty(alloc, store, whole, ends)?;
    without_tests(alloc, store, some, questions, ends)
}

/// What a claim takes: the allowed valuations whose control state is in its set and whose narrowed box is open, and the box at each valuation.
/// `tests` are the ends that the order tests alone give (`test_ends`), `upper` and `lower` the limits of the memories and of their opposites. Nodes
/// comes where the store has no room for what is built, never where its limit holds every function of its variables, and Memory where there is
/// none; what was built is left, after a fault too.
pub fn open_claim(
    alloc: Global,
    store: &mut Store,
    allowed: Ref,
    questions: &Questions,
    tests: &Many<Ends>,
    reached: &Frozen,
    upper: &Many<Option<i128>>,
    lower: &Many<Option<i128>>,
) -> Result<Opening, StoreFault>
    requires { (s : System) × IsAsked s store.old questions.now allowed × AreEndsOf s store.old.nodes [] [] tests.now
        × IsLimited s reached.now upper.now lower.now }
    ensures extends { Extends store.old store.new }
    ensures roomy { IsErrOf result StoreFault.Nodes → store.old.limit < 2 ^ (2 ^ store.old.variables) }
    ensures taken { (s : System) → IsAsked s store.old questions.now allowed → AreEndsOf s store.old.nodes [] [] tests.now
        → IsLimited s reached.now upper.now lower.now
        → IfOk result (λ o. IsTakenAt s store.new (claim_with (has reached.now) upper.now lower.now) o.taken) }
    ensures ends { (s : System) → IsAsked s store.old questions.now allowed → AreEndsOf s store.old.nodes [] [] tests.now
        → IsLimited s reached.now upper.now lower.now → IfOk result (λ o. AreEndsOf s store.new.nodes upper.now lower.now o.ends) }
{
    let ends = limited(alloc, store, tests, upper, lower)?;
    let set = store.thaw(reached)?;
    let whole = store.and(allowed, set)?;
    let taken = opened(alloc, store, whole, questions, &ends)?;
    Ok(Opening { taken, ends })
}
