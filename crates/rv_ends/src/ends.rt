//! The ends of the columns at each valuation: what order tests with one column say under their answers, and a claim's limits where the main
//! tick is true.

ghost use Rattle.std.specs.Prelude.{◌≡◌, ◌≢◌, ◌↔◌, ℕ, ℤ, ◌+◌, ◌<◌, ◌≤◌, ◌^◌, ◌≤ℤ◌, pos, [], length, Some, IfOk, IfSome, IfNone, OnOk, IsErrOf, MatchBool};
ghost use Rattle.std.specs.Prelude.{slice_get, true};
ghost use Rattle.std.specs.Int.RustNames.{unsigned_abs};
ghost use Rattle.rv_diagram.specs.Nodes.{Valuation, IsRef, value_of};
ghost use Rattle.rv_diagram.specs.Growing.{Extends};
ghost use Rattle.rv_rows.specs.declared.linear.Row.{Row};
ghost use Rattle.rv_rows.specs.Rows.{coefficient};
ghost use Rattle.rv_rows.specs.Forms.{number};
ghost use Rattle.rv_proofs.specs.Systems.{System, IsSystem};
ghost use Rattle.rv_proofs.specs.Boxes.{HasOneColumn};
ghost use Rattle.rv_cases.specs.Conditions.{is_in, AreRefs};
ghost use Rattle.rv_cases.specs.Questions.{AreQuestions};
ghost use Rattle.rv_ends.specs.declared.ends.Ends.{Ends};
ghost use Rattle.rv_ends.specs.Claiming.{AreSmall, limit_at};
ghost use Rattle.rv_ends.specs.Columns.{IsOnlyColumn, HoldsAlone, IsFit, sided};
ghost use Rattle.rv_ends.specs.Cuts.{IsCut, AreCut, IsLimited, MeetsFirst, IsFree};
ghost use Rattle.rv_ends.specs.Intervals.{IsAtMost};
ghost use Rattle.rv_ends.specs.Sides.{side_at, interval_of, IsSide, AreEnds, AreEndsOf};

use crate::sides::{Side, copied, no_side, tighten};
use crate::thresholds::is_below;
use rv_base::{Many, Memory};
use rv_cases::Questions;
use rv_diagram::{Ref, Store, StoreFault};
use rv_rows::{Row, number_at};
use std::alloc::Global;

/// What bounds a column at each valuation.
#[derive(Debug, Drop)]
pub struct Ends {
    /// A bound of the column.
    pub high: Side,
    /// A bound of its opposite.
    pub low: Side,
}

/// Whether all coefficients of the row from this column on are 0.
fn is_zero_from(row: &Row, first: usize) -> bool
    ensures { MatchBool result ((n : ℕ) → first ≤ n → coefficient n row.now ≡ pos 0)
        ((n : ℕ) × (first ≤ n) × (coefficient n row.now ≢ pos 0)) }
{
    for column in first..row.coefficients.len() {
        if number_at(&row.coefficients, column) != 0 {
            return false;
        }
    }
    true
}

/// The column of the coefficient that is other than 0, where there is exactly one.
pub fn only_column(row: &Row) -> Option<usize>
    ensures some { IfSome result (IsOnlyColumn row.now) }
    ensures none { IfNone result (¬ HasOneColumn row.now) }
{
    for column in 0..row.coefficients.len() {
        if number_at(&row.coefficients, column) != 0 {
            if is_zero_from(row, column + 1) {
                return Some(column);
            }
            return None;
        }
    }
    None
}

/// A column without bounds.
fn free_ends(alloc: Global, store: &Store) -> Result<Ends, Memory>
    ensures { IfOk result (IsFree store.now.nodes) }
{
    let high = no_side(alloc, store)?;
    let low = no_side(alloc, store)?;
    Ok(Ends { high, low })
}

/// As many columns without bounds.
fn no_ends(alloc: Global, store: &Store, columns: usize) -> Result<Many<Ends>, Memory>
    ensures size { IfOk result (λ ends. length ends ≡ columns) }
    ensures free { IfOk result (λ ends. (k : ℕ) (e : Ends) → slice_get ends k ≡ Some e → IsFree store.now.nodes e) }
{
    let mut ends = Many::new(alloc);
    for column in 0..columns {
        let next = free_ends(alloc, store)?;
        ends.push(next)?;
    }
    Ok(ends)
}

/// One bound more of a column, or of its opposite, where the reference is true, with what was built of it.
fn bound_ends(
    alloc: Global,
    store: &mut Store,
    ends: &Ends,
    is_high: bool,
    under: Ref,
    bound: i128,
) -> Result<Ends, StoreFault>
    requires high { IsSide store.old.nodes (2 ^ 60) ends.now.high }
    requires low { IsSide store.old.nodes (2 ^ 60) ends.now.low }
    requires under { IsRef store.old.nodes under }
    requires bound { unsigned_abs bound ≤ 2 ^ 60 }
    ensures extends { Extends store.old store.new }
    ensures roomy { IsErrOf result StoreFault.Nodes → store.old.limit < 2 ^ (2 ^ store.old.variables) }
    ensures high { IfOk result (λ e. IsSide store.new.nodes (2 ^ 60) e.high) }
    ensures low { IfOk result (λ e. IsSide store.new.nodes (2 ^ 60) e.low) }
    ensures exact { IfOk result (λ e. (v : Valuation) → IsCut (interval_of store.old.nodes v ends.now) (interval_of store.new.nodes v e)
        (λ x. value_of store.old.nodes under v ≡ true → sided is_high x ≤ℤ bound)) }
{
    if is_high {
        let high = tighten(alloc, store, &ends.high, under, bound)?;
        let low = copied(alloc, &ends.low)?;
        return Ok(Ends { high, low });
    }
    let low = tighten(alloc, store, &ends.low, under, bound)?;
    let high = copied(alloc, &ends.high)?;
    Ok(Ends { high, low })
}

/// One bound more of a column, or of its opposite, where the reference is true, with what was built of it.
fn bound_column(
    alloc: Global,
    store: &mut Store,
    ends: &mut Many<Ends>,
    column: usize,
    is_high: bool,
    under: Ref,
    bound: i128,
) -> Result<(), StoreFault>
    requires ends { AreEnds store.old.nodes (length ends.old) ends.old }
    requires column { column < length ends.old }
    requires under { IsRef store.old.nodes under }
    requires bound { unsigned_abs bound ≤ 2 ^ 60 }
    ensures extends { Extends store.old store.new }
    ensures roomy { IsErrOf result StoreFault.Nodes → store.old.limit < 2 ^ (2 ^ store.old.variables) }
    ensures ends { OnOk result (AreEnds store.new.nodes (length ends.old) ends.new) }
    ensures exact { OnOk result (AreCut store.old.nodes store.new.nodes ends.old ends.new
        (λ v point. value_of store.old.nodes under v ≡ true → sided is_high (number column point) ≤ℤ bound)) }
{
    let next = bound_ends(alloc, store, ends.at(column), is_high, under, bound)?;
    ends.set(column, next);
    Ok(())
}

/// One row more where the reference is true, which counts where it has one column, with what was built of it.
fn take_fit(
    alloc: Global,
    store: &mut Store,
    ends: &mut Many<Ends>,
    under: Ref,
    row: &Row,
) -> Result<(), StoreFault>
    requires ends { AreEnds store.old.nodes (length ends.old) ends.old }
    requires under { IsRef store.old.nodes under }
    requires fit { IsFit (length ends.old) row.now }
    ensures extends { Extends store.old store.new }
    ensures roomy { IsErrOf result StoreFault.Nodes → store.old.limit < 2 ^ (2 ^ store.old.variables) }
    ensures ends { OnOk result (AreEnds store.new.nodes (length ends.old) ends.new) }
    ensures exact { OnOk result (AreCut store.old.nodes store.new.nodes ends.old ends.new
        (λ v point. value_of store.old.nodes under v ≡ true → HoldsAlone row.now point)) }
{
    let Some(column) = only_column(row) else {
        return Ok(());
    };
    let is_high = is_below(0, number_at(&row.coefficients, column));
    bound_column(alloc, store, ends, column, is_high, under, row.bound)
}

/// One row more where the reference is true. Of a row under an answer that no valuation has nothing is known.
fn take_row(
    alloc: Global,
    store: &mut Store,
    ends: &mut Many<Ends>,
    under: Ref,
    row: &Row,
) -> Result<(), StoreFault>
    requires ends { AreEnds store.old.nodes (length ends.old) ends.old }
    requires under { IsRef store.old.nodes under }
    requires fit { (v : Valuation) → value_of store.old.nodes under v ≡ true → IsFit (length ends.old) row.now }
    ensures extends { Extends store.old store.new }
    ensures roomy { IsErrOf result StoreFault.Nodes → store.old.limit < 2 ^ (2 ^ store.old.variables) }
    ensures ends { OnOk result (AreEnds store.new.nodes (length ends.old) ends.new) }
    ensures exact { OnOk result (AreCut store.old.nodes store.new.nodes ends.old ends.new
        (λ v point. value_of store.old.nodes under v ≡ true → HoldsAlone row.now point)) }
{
    let _count = store.mark();
    if store.is_false(under) {
        return Ok(());
    }
    take_fit(alloc, store, ends, under, row)
}

/// The rows of one test, each under its answer, with what was built of them.
fn take_test(
    alloc: Global,
    store: &mut Store,
    ends: &mut Many<Ends>,
    answers: &[Ref],
    rows: &Many<Row>,
) -> Result<(), StoreFault>
    requires ends { AreEnds store.old.nodes (length ends.old) ends.old }
    requires answers { AreRefs store.old.nodes answers.now }
    requires many { length answers.now ≡ length rows.now + 1 }
    requires fit { (i : ℕ) (r : Row) (v : Valuation) → slice_get rows.now i ≡ Some r → is_in store.old.nodes answers.now (i + 1) v ≡ true
        → IsFit (length ends.old) r }
    ensures extends { Extends store.old store.new }
    ensures roomy { IsErrOf result StoreFault.Nodes → store.old.limit < 2 ^ (2 ^ store.old.variables) }
    ensures ends { OnOk result (AreEnds store.new.nodes (length ends.old) ends.new) }
    ensures exact { OnOk result (AreCut store.old.nodes store.new.nodes ends.old ends.new
        (MeetsFirst store.old.nodes answers.now rows.now (length rows.now))) }
{
    for place in 0..rows.len() {
        take_row(alloc, store, ends, answers[place + 1], rows.at(place))?;
    }
    Ok(())
}

/// The ends that the order tests alone give the columns. Nodes comes where the store has no room for what is built, never where its limit holds
/// every function of its variables, and Memory where there is none; what was built is left, after a fault too.
pub fn test_ends(
    alloc: Global,
    store: &mut Store,
    questions: &Questions,
    columns: usize,
) -> Result<Many<Ends>, StoreFault>
    requires { (s : System) × IsSystem s × AreQuestions s store.old questions.now × (s.columns ≡ columns) }
    ensures extends { Extends store.old store.new }
    ensures roomy { IsErrOf result StoreFault.Nodes → store.old.limit < 2 ^ (2 ^ store.old.variables) }
    ensures ends { (s : System) → IsSystem s → AreQuestions s store.old questions.now → s.columns ≡ columns
        → IfOk result (AreEndsOf s store.new.nodes [] []) }
{
    let mut ends = no_ends(alloc, store, columns)?;
    for test in 0..questions.rows.len() {
        let answers = questions.questions.at(test);
        let rows = questions.rows.at(test);
        take_test(alloc, store, &mut ends, answers.as_slice(), rows)?;
    }
    Ok(ends)
}

/// True where the main tick is, which is variable 0; nowhere in a store without variables. Nodes comes where the store has no room for what is
/// built, never where its limit holds every function of its variables, and Memory where there is none; what was built is left, after a fault
/// too.
pub fn main_tick(store: &mut Store) -> Result<Ref, StoreFault>
    ensures extends { Extends store.old store.new }
    ensures roomy { IsErrOf result StoreFault.Nodes → store.old.limit < 2 ^ (2 ^ store.old.variables) }
    ensures found { IfOk result (IsRef store.new.nodes) }
    ensures means { 0 < store.old.variables → IfOk result (λ r. (v : Valuation) → value_of store.new.nodes r v ≡ v 0) }
{
    if store.variables() == 0 {
        return Ok(store.constant(false));
    }
    store.variable(0)
}

/// The side, and a limit more where the reference is true, if there is one. With what was built of it.
fn limit_side(
    alloc: Global,
    store: &mut Store,
    side: &Side,
    ticked: Ref,
    limit: Option<i128>,
) -> Result<Side, StoreFault>
    requires side { IsSide store.old.nodes (2 ^ 60) side.now }
    requires ticked { IsRef store.old.nodes ticked }
    requires limit { (b : ℤ) → limit ≡ Some b → unsigned_abs b ≤ 2 ^ 41 }
    ensures extends { Extends store.old store.new }
    ensures roomy { IsErrOf result StoreFault.Nodes → store.old.limit < 2 ^ (2 ^ store.old.variables) }
    ensures side { IfOk result (IsSide store.new.nodes (2 ^ 60)) }
    ensures exact { IfOk result (λ s. (v : Valuation) (x : ℤ) → IsAtMost (side_at store.new.nodes s v) x
        ↔ (IsAtMost (side_at store.old.nodes side.now v) x × (value_of store.old.nodes ticked v ≡ true → IsAtMost limit x))) }
{
    match limit {
        Some(bound) => tighten(alloc, store, side, ticked, bound),
        None => {
            let same = copied(alloc, side)?;
            Ok(same)
        }
    }
}

/// The ends of a column with a claim's limits where the reference is true, with what was built of them.
fn limit_column(
    alloc: Global,
    store: &mut Store,
    ends: &Ends,
    ticked: Ref,
    upper: Option<i128>,
    lower: Option<i128>,
) -> Result<Ends, StoreFault>
    requires high { IsSide store.old.nodes (2 ^ 60) ends.now.high }
    requires low { IsSide store.old.nodes (2 ^ 60) ends.now.low }
    requires ticked { IsRef store.old.nodes ticked }
    requires upper { (b : ℤ) → upper ≡ Some b → unsigned_abs b ≤ 2 ^ 41 }
    requires lower { (b : ℤ) → lower ≡ Some b → unsigned_abs b ≤ 2 ^ 41 }
    ensures extends { Extends store.old store.new }
    ensures roomy { IsErrOf result StoreFault.Nodes → store.old.limit < 2 ^ (2 ^ store.old.variables) }
    ensures high { IfOk result (λ e. IsSide store.new.nodes (2 ^ 60) e.high) }
    ensures low { IfOk result (λ e. IsSide store.new.nodes (2 ^ 60) e.low) }
    ensures exact { IfOk result (λ e. (v : Valuation) → IsCut (interval_of store.old.nodes v ends.now) (interval_of store.new.nodes v e)
        (λ x. value_of store.old.nodes ticked v ≡ true → IsLimited upper lower x)) }
{
    let high = limit_side(alloc, store, &ends.high, ticked, upper)?;
    let low = limit_side(alloc, store, &ends.low, ticked, lower)?;
    Ok(Ends { high, low })
}

/// The limit with a number, none past the end.
fn limit_of(limits: &Many<Option<i128>>, column: usize) -> Option<i128>
    ensures { result ≡ limit_at limits.now column }
{
    if column < limits.len() {
        *limits.at(column)
    } else {
        None
    }
}

/// The ends that the order tests give the columns, and beside them a claim's limits of the integer memories, the first columns: `upper` of the
/// memories, `lower` of their opposites. Nodes comes where the store has no room for what is built, never where its limit holds every function of
/// its variables, and Memory where there is none; what was built is left, after a fault too.
pub fn limited(
    alloc: Global,
    store: &mut Store,
    tests: &Many<Ends>,
    upper: &Many<Option<i128>>,
    lower: &Many<Option<i128>>,
) -> Result<Many<Ends>, StoreFault>
    requires ends { AreEnds store.old.nodes (length tests.now) tests.now }
    requires upper { AreSmall upper.now }
    requires lower { AreSmall lower.now }
    ensures extends { Extends store.old store.new }
    ensures roomy { IsErrOf result StoreFault.Nodes → store.old.limit < 2 ^ (2 ^ store.old.variables) }
    ensures ends { (s : System) → IsSystem s → s.variables ≡ store.old.variables → AreEndsOf s store.old.nodes [] [] tests.now
        → length upper.now ≡ s.memories → length lower.now ≡ s.memories
        → IfOk result (AreEndsOf s store.new.nodes upper.now lower.now) }
{
    let ticked = main_tick(store)?;
    let mut ends = Many::new(alloc);
    for column in 0..tests.len() {
        let above = limit_of(upper, column);
        let below = limit_of(lower, column);
        let next = limit_column(alloc, store, tests.at(column), ticked, above, below)?;
        ends.push(next)?;
    }
    Ok(ends)
}
