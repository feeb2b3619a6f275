//! Copies of rows, forms and sets.

ghost use Rattle.std.specs.Prelude.{◌≡◌, IfOk};

use rv_base::{Many, Memory};
use rv_diagram::Frozen;
use rv_rows::{Form, Row};
use std::alloc::Global;

/// The same row.
pub fn copy_row(alloc: Global, row: &Row) -> Result<Row, Memory>
    ensures { IfOk result (λ r. r ≡ row.now) }
{
    let numbers = Vec::from_slice(alloc, row.coefficients.as_slice())?;
    Ok(Row {
        coefficients: Many::from_vec(numbers),
        bound: row.bound,
    })
}

/// The same rows.
pub fn copy_rows(alloc: Global, rows: &Many<Row>) -> Result<Many<Row>, Memory>
    ensures { IfOk result (λ copies. copies ≡ rows.now) }
{
    let mut copies = Many::new(alloc);
    for place in 0..rows.len() {
        let copy = copy_row(alloc, rows.at(place))?;
        copies.push(copy)?;
    }
    Ok(copies)
}

/// The same form.
pub fn copy_form(alloc: Global, form: &Form) -> Result<Form, Memory>
    ensures { IfOk result (λ f. f ≡ form.now) }
{
    let numbers = Vec::from_slice(alloc, form.coefficients.as_slice())?;
    Ok(Form {
        coefficients: Many::from_vec(numbers),
        constant: form.constant,
    })
}

/// The same set. The only error is want of memory.
pub fn copy_set(alloc: Global, set: &Frozen) -> Result<Frozen, Memory>
    ensures { IfOk result (λ f. f ≡ set.now) }
{
    let nodes = Vec::from_slice(alloc, set.nodes.as_slice())?;
    Ok(Frozen {
        nodes: Many::from_vec(nodes),
        root: set.root,
    })
}
