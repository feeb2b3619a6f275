//! The rows of an order test, each under a reference that is true exactly where the test has it.

ghost use Rattle.std.specs.Prelude.{◌≡◌, ◌≢◌, negsuc, ◌↔◌, ℕ, ◌+◌, ◌<◌, ◌^◌, ◌&&◌, true, false, cond, Some, None, Option, length, IfOk, OnOk, IsErrOf, IsTrue};
ghost use Rattle.std.specs.Prelude.{MatchOption};
ghost use Rattle.rv_rows.specs.Arithmetic.{test_row, times};
ghost use Rattle.rv_rows.specs.Forms.{FormWithin};
ghost use Rattle.rv_rows.specs.Rows.{row_at};
ghost use Rattle.rv_rows.specs.declared.linear.Row.{Row as RowModel};
ghost use Rattle.rv_diagram.specs.Nodes.{Valuation, IsRef, value_of};
ghost use Rattle.rv_diagram.specs.Growing.{Extends};
ghost use Rattle.rv_control.specs.Tightening.{tightened};
ghost use Rattle.rv_terms.specs.Parts.{AreDisjoint, AreRefs as ArePartRefs, Covers, form_at, part_at};
ghost use Rattle.rv_tested.specs.Rows.{IsLaid, IsPut, IsAnswered, first_of};

use rv_base::{Many, Memory};
use rv_control::rows_are_tightened;
use rv_diagram::{Ref, Store, StoreFault};
use rv_rows::{Form, Row, tightened_rows};
use rv_terms::Part;
use std::alloc::Global;

/// The answers to the question of an order test: where it is absent, and then where it has each of its rows.
#[derive(Debug, Drop)]
pub struct Answered {
    /// The first reference is true where the test is absent, and each further one where it has the next row.
    pub refs: Many<Ref>,
    /// The rows, all different.
    pub rows: Many<Row>,
}

/// Whether two lists of numbers are one.
fn same_numbers(a: &[i128], b: &[i128]) -> bool
    ensures { IsTrue result ↔ (a.now ≡ b.now) }
{
    a == b
}

/// Whether two rows are one.
fn same_row(a: &Row, b: &Row) -> bool
    ensures { IsTrue result ↔ (a.now ≡ b.now) }
{
    if a.bound != b.bound {
        return false;
    }
    same_numbers(a.coefficients.as_slice(), b.coefficients.as_slice())
}

/// The number of a row in a list.
fn place_of(rows: &[Row], row: &Row) -> Option<usize>
    ensures { MatchOption result ((i : ℕ) → i < length rows.now → row_at rows.now i ≢ row.now)
        (λ i. (i < length rows.now) × (row_at rows.now i ≡ row.now)) }
{
    for (i, other) in rows.iter().enumerate() {
        if same_row(other, row) {
            return Some(i);
        }
    }
    None
}

/// The row of a form that is at most 0.
fn at_most(alloc: Global, form: &Form) -> Result<Row, Memory>
    requires { FormWithin (2 ^ 100) form.now }
    ensures { IfOk result (λ r. r ≡ test_row true form.now) }
{
    let numbers = Vec::from_slice(alloc, form.coefficients.as_slice())?;
    Ok(Row {
        coefficients: Many::from_vec(numbers),
        bound: 0 - form.constant,
    })
}

/// The coefficients of a form, each negated.
fn negated(alloc: Global, form: &Form) -> Result<Many<i128>, Memory>
    requires { FormWithin (2 ^ 100) form.now }
    ensures { IfOk result (λ c. c ≡ times (negsuc 0) form.now.coefficients) }
{
    let Form {
        coefficients,
        constant: _constant,
    } = form.scale(alloc, -1)?;
    Ok(coefficients)
}

/// The row of a form that is above 0.
fn above(alloc: Global, form: &Form) -> Result<Row, Memory>
    requires { FormWithin (2 ^ 100) form.now }
    ensures { IfOk result (λ r. r ≡ test_row false form.now) }
{
    let coefficients = negated(alloc, form)?;
    Ok(Row {
        coefficients,
        bound: form.constant - 1,
    })
}

/// The tightened row of a test `form <= 0` that has this truth.
fn row_of(alloc: Global, truth: bool, form: &Form) -> Result<Row, Memory>
    requires { FormWithin (2 ^ 100) form.now }
    ensures { IfOk result (λ r. r ≡ tightened (test_row truth form.now)) }
{
    rows_are_tightened();
    tightened_rows();
    let mut row = if truth {
        at_most(alloc, form)?
    } else {
        above(alloc, form)?
    };
    row.tighten();
    Ok(row)
}

/// Adds a row where a reference is true.
fn add_row(
    store: &mut Store,
    answers: &mut Answered,
    under: Ref,
    row: Row,
) -> Result<(), StoreFault>
    requires under { IsRef store.old.nodes under }
    requires laid { IsLaid store.old.nodes answers.old }
    ensures extends { Extends store.old store.new }
    ensures roomy { IsErrOf result StoreFault.Nodes → store.old.limit < 2 ^ (2 ^ store.old.variables) }
    ensures put { OnOk result (IsPut store.old.nodes store.new.nodes (value_of store.old.nodes under) (λ v. row) answers.old answers.new) }
{
    match place_of(answers.rows.as_slice(), &row) {
        Some(i) => {
            let joined = store.or(*answers.refs.at(i + 1), under)?;
            answers.refs.set(i + 1, joined);
            Ok(())
        }
        None => {
            answers.refs.push(under)?;
            answers.rows.push(row)?;
            Ok(())
        }
    }
}

/// Adds the row of a test that has a truth where a reference is true, unless that is so nowhere.
fn add_row_of(
    alloc: Global,
    store: &mut Store,
    answers: &mut Answered,
    under: Ref,
    truth: bool,
    form: &Form,
) -> Result<(), StoreFault>
    requires under { IsRef store.old.nodes under }
    requires laid { IsLaid store.old.nodes answers.old }
    requires within { FormWithin (2 ^ 100) form.now }
    ensures extends { Extends store.old store.new }
    ensures roomy { IsErrOf result StoreFault.Nodes → store.old.limit < 2 ^ (2 ^ store.old.variables) }
    ensures put { OnOk result (IsPut store.old.nodes store.new.nodes (value_of store.old.nodes under)
        (λ v. tightened (test_row truth form.now)) answers.old answers.new) }
{
    if store.is_false(under) {
        return Ok(());
    }
    let row = row_of(alloc, truth, form)?;
    add_row(store, answers, under, row)
}

/// Adds the two rows of a part's form, by the truth of the test, where the part holds and a reference is true.
fn add_sides(
    alloc: Global,
    store: &mut Store,
    answers: &mut Answered,
    here: Ref,
    truth: Ref,
    part: &Part,
) -> Result<(), StoreFault>
    requires here { IsRef store.old.nodes here }
    requires truth { IsRef store.old.nodes truth }
    requires part { IsRef store.old.nodes part.now.under }
    requires laid { IsLaid store.old.nodes answers.old }
    requires within { FormWithin (2 ^ 100) part.now.form }
    ensures extends { Extends store.old store.new }
    ensures roomy { IsErrOf result StoreFault.Nodes → store.old.limit < 2 ^ (2 ^ store.old.variables) }
    ensures put { OnOk result (IsPut store.old.nodes store.new.nodes
        (λ v. value_of store.old.nodes here v && value_of store.old.nodes part.now.under v)
        (λ v. tightened (test_row (value_of store.old.nodes truth v) part.now.form)) answers.old answers.new) }
{
    let there = store.and(here, part.under)?;
    let on = store.and(there, truth)?;
    let off = store.ite(truth, 0, there)?;
    add_row_of(alloc, store, answers, on, true, &part.form)?;
    add_row_of(alloc, store, answers, off, false, &part.form)
}

/// Adds the rows of a term's forms, by the truth of the test, where a reference is true.
fn add_rows(
    alloc: Global,
    store: &mut Store,
    answers: &mut Answered,
    here: Ref,
    truth: Ref,
    parts: &[Part],
) -> Result<(), StoreFault>
    requires here { IsRef store.old.nodes here }
    requires truth { IsRef store.old.nodes truth }
    requires refs { ArePartRefs store.old.nodes parts.now }
    requires disjoint { AreDisjoint store.old.nodes parts.now }
    requires covers { Covers store.old.nodes parts.now }
    requires laid { IsLaid store.old.nodes answers.old }
    requires within { (i : ℕ) → i < length parts.now → FormWithin (2 ^ 100) (part_at parts.now i).form }
    ensures extends { Extends store.old store.new }
    ensures roomy { IsErrOf result StoreFault.Nodes → store.old.limit < 2 ^ (2 ^ store.old.variables) }
    ensures put { OnOk result (IsPut store.old.nodes store.new.nodes (value_of store.old.nodes here)
        (λ v. tightened (test_row (value_of store.old.nodes truth v) (form_at store.old.nodes parts.now v))) answers.old answers.new) }
{
    for part in parts {
        add_sides(alloc, store, answers, here, truth, part)?;
    }
    Ok(())
}

/// Adds what one more comparison gives a test: where it is there, and no earlier one gave a row, the row of its form by the truth of
/// the test.
pub fn add_comparison(
    alloc: Global,
    store: &mut Store,
    answers: &mut Answered,
    there: Ref,
    truth: Ref,
    parts: &[Part],
) -> Result<(), StoreFault>
    requires there { IsRef store.old.nodes there }
    requires truth { IsRef store.old.nodes truth }
    requires refs { ArePartRefs store.old.nodes parts.now }
    requires disjoint { AreDisjoint store.old.nodes parts.now }
    requires covers { Covers store.old.nodes parts.now }
    requires laid { IsLaid store.old.nodes answers.old }
    requires within { (i : ℕ) → i < length parts.now → FormWithin (2 ^ 100) (part_at parts.now i).form }
    ensures extends { Extends store.old store.new }
    ensures roomy { IsErrOf result StoreFault.Nodes → store.old.limit < 2 ^ (2 ^ store.old.variables) }
    ensures answered { OnOk result ((f : Valuation → Option RowModel) → IsAnswered store.old.nodes f answers.old
        → IsAnswered store.new.nodes (λ v. first_of (f v) (cond (value_of store.old.nodes there v)
        (Some (tightened (test_row (value_of store.old.nodes truth v) (form_at store.old.nodes parts.now v)))) None)) answers.new) }
{
    let absent = *answers.refs.at(0);
    let here = store.and(absent, there)?;
    add_rows(alloc, store, answers, here, truth, parts)?;
    let left = store.ite(there, 0, absent)?;
    answers.refs.set(0, left);
    Ok(())
}
