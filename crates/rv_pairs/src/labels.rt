//! Rows that count where a reference is true: those of the order tests under their answers, and a claim's own where the main tick is true.

ghost use Rattle.std.specs.Prelude.{◌≡◌, ◌⊎◌, ◌∷◌, ℕ, List, ◌+◌, ◌<◌, ◌≤◌, ◌^◌, ◌++◌, true, length, All, IfOk, OnOk, IsErrOf, if◌then◌else◌, []};
ghost use Rattle.std.specs.Int.RustNames.{unsigned_abs};
ghost use Rattle.rv_diagram.specs.Nodes.{Valuation, IsRef, value_of};
ghost use Rattle.rv_diagram.specs.Growing.{Extends};
ghost use Rattle.rv_rows.specs.Rows.{row_at, RowWithin};
ghost use Rattle.rv_proofs.specs.RowClaims.{RowClaim};
ghost use Rattle.rv_proofs.specs.Systems.{System, IsSystem, rows_of, held_row};
ghost use Rattle.rv_cases.specs.Conditions.{is_in, AreAnswers};
ghost use Rattle.rv_cases.specs.Questions.{AreQuestions, AreTestAnswers};
ghost use Rattle.rv_pairs.specs.Labels.{active, row_where, IsLabel, AreLabels};
ghost use Rattle.rv_pairs.specs.Taking.{ArePremises};
ghost use Rattle.rv_pairs.specs.Telling.{IsZero, Tells};
ghost use Rattle.rv_diagram.specs.declared.Triple.{Triple};

use crate::indexed::LabelledRows;
use rv_base::{Many, Memory};
use rv_cases::Questions;
use rv_diagram::{Ref, Store, StoreFault};
use rv_ends::main_tick;
use rv_rows::{Row, number_at};
use std::alloc::Global;

/// A row, and where it counts.
#[derive(Debug, Drop)]
pub struct Labelled {
    /// The row.
    pub row: Row,
    /// True at the valuations at which it counts.
    pub under: Ref,
}

/// The same row.
fn copy_row(alloc: Global, row: &Row) -> Result<Row, Memory>
    ensures { IfOk result (λ r. r ≡ row.now) }
{
    let numbers = Vec::from_slice(alloc, row.coefficients.as_slice())?;
    Ok(Row {
        coefficients: Many::from_vec(numbers),
        bound: row.bound,
    })
}

/// Adds a row that counts where the reference is true. Where that is nowhere the row is left out.
fn label_row(
    alloc: Global,
    store: &Store,
    labels: &mut Many<Labelled>,
    under: Ref,
    row: &Row,
) -> Result<(), Memory>
    requires labels { AreLabels store.now.nodes labels.old }
    requires under { IsRef store.now.nodes under }
    requires row { (v : Valuation) → value_of store.now.nodes under v ≡ true → RowWithin (2 ^ 60) row.now }
    ensures labels { OnOk result (AreLabels store.now.nodes labels.new) }
    ensures rows { OnOk result ((v : Valuation) → active store.now.nodes labels.new v
        ≡ active store.now.nodes labels.old v ++ row_where (value_of store.now.nodes under v) row.now) }
{
    let _count = store.mark();
    if store.is_false(under) {
        return Ok(());
    }
    let copy = copy_row(alloc, row)?;
    labels.push(Labelled { row: copy, under })?;
    Ok(())
}

/// Adds the rows of a test, each under its answer.
fn label_test(
    alloc: Global,
    store: &Store,
    labels: &mut Many<Labelled>,
    answers: &[Ref],
    rows: &Many<Row>,
) -> Result<(), Memory>
    requires labels { AreLabels store.now.nodes labels.old }
    requires answers { AreAnswers store.now.nodes answers.now }
    requires many { length answers.now ≡ length rows.now + 1 }
    requires rows { (i : ℕ) (v : Valuation) → i < length rows.now → is_in store.now.nodes answers.now (i + 1) v ≡ true
        → RowWithin (2 ^ 60) (row_at rows.now i) }
    ensures labels { OnOk result (AreLabels store.now.nodes labels.new) }
    ensures rows { OnOk result ((s : System) (t : ℕ) → AreTestAnswers s store.now.nodes t answers.now rows.now → (v : Valuation)
        → active store.now.nodes labels.new v ≡ active store.now.nodes labels.old v ++ held_row (s.row v t)) }
{
    for place in 0..rows.len() {
        label_row(alloc, store, labels, answers[place + 1], rows.at(place))?;
    }
    Ok(())
}

/// The rows of all order tests, in order, each under its answer. The only error is want of memory.
pub fn label_tests(
    alloc: Global,
    store: &Store,
    questions: &Questions,
) -> Result<Many<Labelled>, Memory>
    requires { (s : System) × IsSystem s × AreQuestions s store.now questions.now }
    ensures labels { IfOk result (AreLabels store.now.nodes) }
    ensures rows { IfOk result (λ labels. (s : System) → AreQuestions s store.now questions.now → (v : Valuation)
        → active store.now.nodes labels v ≡ rows_of s v) }
{
    let mut labels = Many::new(alloc);
    for test in 0..questions.rows.len() {
        let answers = questions.questions.at(test);
        let rows = questions.rows.at(test);
        label_test(alloc, store, &mut labels, answers.as_slice(), rows)?;
    }
    Ok(labels)
}

/// Adds the given rows, all under one reference.
fn label_given(
    alloc: Global,
    store: &Store,
    labels: &mut Many<Labelled>,
    under: Ref,
    given: &Many<Row>,
) -> Result<(), Memory>
    requires labels { AreLabels store.now.nodes labels.old }
    requires under { IsRef store.now.nodes under }
    requires given { All (RowWithin (2 ^ 60)) given.now }
    ensures labels { OnOk result (AreLabels store.now.nodes labels.new) }
    ensures rows { OnOk result ((v : Valuation) → active store.now.nodes labels.new v
        ≡ active store.now.nodes labels.old v ++ (if value_of store.now.nodes under v then given.now else [])) }
{
    for place in 0..given.len() {
        label_row(alloc, store, labels, under, given.at(place))?;
    }
    Ok(())
}

/// The premises of a row claim at all valuations at once: the rows of the order tests, in order, each where its answer is given, and then the
/// claim's own rows, where the main tick is true. Nodes comes where the store has no room for what is built, never where its limit holds every
/// function of its variables, and Memory where there is none; what was built is left, after a fault too.
pub fn premises(
    alloc: Global,
    store: &mut Store,
    questions: &Questions,
    given: &Many<Row>,
) -> Result<LabelledRows, StoreFault>
    requires questions { (s : System) × IsSystem s × AreQuestions s store.old questions.now }
    requires given { All (RowWithin (2 ^ 60)) given.now }
    ensures extends { Extends store.old store.new }
    ensures roomy { IsErrOf result StoreFault.Nodes → store.old.limit < 2 ^ (2 ^ store.old.variables) }
    ensures labels { IfOk result (AreLabels store.new.nodes) }
    ensures premises { IfOk result (λ labels. (s : System) → IsSystem s → AreQuestions s store.old questions.now → 0 < s.states
        → (c : RowClaim) → c.rows ≡ given.now → ArePremises s store.new.nodes c labels) }
{
    let ticked = main_tick(store)?;
    let mut labels = label_tests(alloc, store, questions)?;
    label_given(alloc, store, &mut labels, ticked, given)?;
    Ok(LabelledRows::new(alloc, labels)?)
}

/// Whether all numbers of the left side are 0.
fn is_zero(row: &Row) -> bool
    ensures { result ≡ true → IsZero row.now }
{
    for column in 0..row.coefficients.len() {
        if number_at(&row.coefficients, column) != 0 {
            return false;
        }
    }
    true
}

/// The same row under the same reference.
fn copy_label(alloc: Global, label: &Labelled) -> Result<Labelled, Memory>
    ensures { IfOk result (λ l. l ≡ label.now) }
{
    let row = copy_row(alloc, &label.row)?;
    Ok(Labelled {
        row,
        under: label.under,
    })
}

/// Adds the same row under the same reference, where its left side has a number other than 0.
fn tell_row(alloc: Global, told: &mut Many<Labelled>, label: &Labelled) -> Result<(), Memory>
    ensures { OnOk result ((told.new ≡ told.old ++ label.now ∷ []) ⊎ ((told.new ≡ told.old) × IsZero label.now.row)) }
{
    if is_zero(&label.row) {
        return Ok(());
    }
    let copy = copy_label(alloc, label)?;
    told.push(copy)?;
    Ok(())
}

/// The rows whose left sides have a number other than 0. Where no row is shut at once the others show nothing. The only error is want of memory.
pub fn telling(alloc: Global, labels: &Many<Labelled>) -> Result<Many<Labelled>, Memory>
    ensures labels { (nodes : List Triple) → AreLabels nodes labels.now → IfOk result (AreLabels nodes) }
    ensures told { IfOk result (λ told. (nodes : List Triple) (v : Valuation) → Tells (active nodes labels.now v) (active nodes told v)) }
{
    let mut told = Many::new(alloc);
    for place in 0..labels.len() {
        tell_row(alloc, &mut told, labels.at(place))?;
    }
    Ok(told)
}

/// The same labelled rows.
fn copied(alloc: Global, labels: &Many<Labelled>) -> Result<Many<Labelled>, Memory>
    ensures { IfOk result (λ all. all ≡ labels.now) }
{
    let mut all = Many::new(alloc);
    for place in 0..labels.len() {
        let copy = copy_label(alloc, labels.at(place))?;
        all.push(copy)?;
    }
    Ok(all)
}

/// The given labelled rows, and then a claim's own where the main tick is true. Nodes comes where the store has no room for what is built, never where
/// its limit holds every function of its variables, and Memory where there is none; what was built is left, after a fault too.
pub fn with_claim(
    alloc: Global,
    store: &mut Store,
    labels: &Many<Labelled>,
    given: &Many<Row>,
) -> Result<LabelledRows, StoreFault>
    requires labels { AreLabels store.old.nodes labels.now }
    requires given { All (RowWithin (2 ^ 60)) given.now }
    ensures extends { Extends store.old store.new }
    ensures roomy { IsErrOf result StoreFault.Nodes → store.old.limit < 2 ^ (2 ^ store.old.variables) }
    ensures labels { IfOk result (AreLabels store.new.nodes) }
    ensures rows { 0 < store.old.variables → IfOk result (λ all. (v : Valuation) → active store.new.nodes all v
        ≡ active store.old.nodes labels.now v ++ (if v 0 then given.now else [])) }
{
    let ticked = main_tick(store)?;
    let mut all = copied(alloc, labels)?;
    label_given(alloc, store, &mut all, ticked, given)?;
    Ok(LabelledRows::new(alloc, all)?)
}
