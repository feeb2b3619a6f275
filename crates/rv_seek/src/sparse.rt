// Premises by the coefficients that are not 0.
use rv_base::{Many, Memory};
use rv_rows::{Row, number_at};
use std::alloc::Global;

/// A coefficient that is not 0.
#[derive(Clone, Copy)]
pub struct Term {
    pub column: usize,
    pub number: i128,
}

/// A premise by its coefficients that are not 0.
#[derive(Drop)]
pub struct Sparse {
    pub terms: Many<Term>,
    pub bound: i128,
}

fn sparse_row(alloc: Global, row: &Row) -> Result<Sparse, Memory> {
    let mut terms = Many::new(alloc);
    for column in 0..row.coefficients.len() {
        let number = number_at(&row.coefficients, column);
        if number != 0 {
            terms.push(Term { column, number })?;
        }
    }
    Ok(Sparse {
        terms,
        bound: row.bound,
    })
}

/// The premises by their coefficients that are not 0.
pub fn sparse_rows(alloc: Global, premises: &Many<Row>) -> Result<Many<Sparse>, Memory> {
    let mut rows = Many::new(alloc);
    for premise in premises.as_slice() {
        rows.push(sparse_row(alloc, premise)?)?;
    }
    Ok(rows)
}

/// The sum of the premise's coefficients, each times the line's number of its column, and of its bound times the
/// cost, where it fits.
pub fn product_with(premise: &Sparse, line: &[i128], cost: i128) -> Option<i128> {
    let mut sum = cost.checked_mul(premise.bound)?;
    for term in premise.terms.as_slice() {
        let number = *line.get(term.column)?;
        sum = sum.checked_add(number.checked_mul(term.number)?)?;
    }
    Some(sum)
}
