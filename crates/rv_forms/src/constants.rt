//! Terms that have one form at every valuation, and copies.

ghost use Rattle.std.specs.Prelude.{◌≡◌, ◌<◌, ◌≤◌, pos, cond, nat_eq, List, length, IfOk, IsErrOf};
ghost use Rattle.rv_meaning.specs.Meaning.{number as whole_number};
ghost use Rattle.rv_rows.specs.Arithmetic.{zeros, unit, constant_form, column_form};
ghost use Rattle.rv_diagram.specs.declared.Triple.{Triple};
ghost use Rattle.rv_terms.specs.Parts.{IsTermOf};
ghost use Rattle.rv_forms.specs.Columns.{kind_form};
ghost use Rattle.rv_forms.specs.Terms.{parts_at};

use rv_base::{Many, Memory, Value};
use rv_diagram::StoreFault;
use rv_rows::Form;
use rv_terms::{Part, Term, leaf};
use rv_types::Kind;
use std::alloc::Global;

/// So many zeros.
fn zeros_of(alloc: Global, columns: usize) -> Result<Many<i128>, Memory>
    ensures { IfOk result (λ numbers. numbers ≡ zeros columns) }
{
    let mut numbers = Many::new(alloc);
    for _ in 0..columns {
        numbers.push(0)?;
    }
    Ok(numbers)
}

/// 1 where two numbers are equal, else 0.
fn one_at(number: usize, column: usize) -> i128
    ensures { result ≡ pos (cond (nat_eq number column) 1 0) }
{
    if number == column { 1 } else { 0 }
}

/// 1 at a column, 0 at the others.
fn unit_of(alloc: Global, columns: usize, column: usize) -> Result<Many<i128>, Memory>
    ensures { IfOk result (λ numbers. numbers ≡ unit column columns) }
{
    let mut numbers = Many::new(alloc);
    for number in 0..columns {
        numbers.push(one_at(number, column))?;
    }
    Ok(numbers)
}

/// The number of an integer value.
fn number_of(value: &Value) -> i128
    ensures { result ≡ whole_number value.now }
{
    match value {
        Value::Whole(number) => *number,
        Value::Flag(_) => 0,
        Value::Label(_) => 0,
    }
}

/// The constant 0.
#[inline(never)]
pub fn zero_term(alloc: Global, columns: usize) -> Result<Term, StoreFault>
    ensures exact { IfOk result (λ t. (nodes : List Triple) → IsTermOf nodes columns (λ v. constant_form columns (pos 0)) t.parts) }
    ensures never { IsErrOf result StoreFault.Nodes → ⊥ }
{
    let coefficients = zeros_of(alloc, columns)?;
    let form = Form {
        coefficients,
        constant: 0,
    };
    Ok(leaf(alloc, &form)?)
}

/// A constant, 0 where it is no integer.
#[inline(never)]
pub fn constant_term(alloc: Global, columns: usize, constant: &Value) -> Result<Term, StoreFault>
    ensures exact { IfOk result (λ t. (nodes : List Triple) → IsTermOf nodes columns (λ v. constant_form columns (whole_number constant.now)) t.parts) }
    ensures never { IsErrOf result StoreFault.Nodes → ⊥ }
{
    let coefficients = zeros_of(alloc, columns)?;
    let form = Form {
        coefficients,
        constant: number_of(constant),
    };
    Ok(leaf(alloc, &form)?)
}

/// A column.
fn column_term(alloc: Global, columns: usize, column: usize) -> Result<Term, StoreFault>
    ensures exact { IfOk result (λ t. (nodes : List Triple) → IsTermOf nodes columns (λ v. column_form columns column) t.parts) }
    ensures never { IsErrOf result StoreFault.Nodes → ⊥ }
{
    let coefficients = unit_of(alloc, columns, column)?;
    let form = Form {
        coefficients,
        constant: 0,
    };
    Ok(leaf(alloc, &form)?)
}

/// What is of a type: a column where that is integer, else the constant 0.
pub fn kind_term(
    alloc: Global,
    columns: usize,
    kind: Kind,
    column: usize,
) -> Result<Term, StoreFault>
    ensures exact { IfOk result (λ t. (nodes : List Triple) → IsTermOf nodes columns (λ v. kind_form columns kind column) t.parts) }
    ensures never { IsErrOf result StoreFault.Nodes → ⊥ }
{
    match kind {
        Kind::Int => column_term(alloc, columns, column),
        Kind::Bool => zero_term(alloc, columns),
        Kind::Labels(_) => zero_term(alloc, columns),
    }
}

/// The same form.
pub fn copied_form(alloc: Global, form: &Form) -> Result<Form, Memory>
    ensures { IfOk result (λ f. f ≡ form.now) }
{
    let numbers = Vec::from_slice(alloc, form.coefficients.as_slice())?;
    Ok(Form {
        coefficients: Many::from_vec(numbers),
        constant: form.constant,
    })
}

/// The same part.
fn copied_part(alloc: Global, part: &Part) -> Result<Part, Memory>
    ensures { IfOk result (λ p. p ≡ part.now) }
{
    let form = copied_form(alloc, &part.form)?;
    Ok(Part {
        under: part.under,
        form,
    })
}

/// The same term.
#[inline(never)]
pub fn copied(alloc: Global, term: &Term) -> Result<Term, Memory>
    ensures { IfOk result (λ t. t.parts ≡ term.now.parts) }
{
    let mut parts = Many::new(alloc);
    for part in term.parts.as_slice() {
        parts.push(copied_part(alloc, part)?)?;
    }
    Ok(Term { parts })
}

/// A copy of the term with a number, and the constant 0 past the last one.
#[inline(never)]
pub fn term_at(
    alloc: Global,
    columns: usize,
    terms: &Many<Term>,
    number: usize,
) -> Result<Term, StoreFault>
    ensures found { IfOk result (λ t. number < length terms.now → t.parts ≡ parts_at terms.now number) }
    ensures past { IfOk result (λ t. length terms.now ≤ number
        → (nodes : List Triple) → IsTermOf nodes columns (λ v. constant_form columns (pos 0)) t.parts) }
    ensures never { IsErrOf result StoreFault.Nodes → ⊥ }
{
    match terms.get(number) {
        Some(term) => Ok(copied(alloc, term)?),
        None => zero_term(alloc, columns),
    }
}
