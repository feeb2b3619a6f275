//! The premises of a case: rows that are given, and then a row for each order test. Neither list is copied.

ghost use Rattle.std.specs.Prelude.{◌≡◌, ◌<◌, ◌^◌, ◌++◌, ℕ, length, Some, IfOk, slice_get};
ghost use Rattle.rv_rows.specs.Rows.{row_at};
ghost use Rattle.rv_boxes.specs.Built.{nothing};
ghost use Rattle.rv_boxes.specs.Opening.{HasTests, IsTold};

use crate::bounding::copy_row;
use rv_base::{Many, Memory};
use rv_rows::Row;
use std::alloc::Global;
use std::marker::Model;

/// Rows that are given, and then a row for each order test. To a contract they are the list of them all.
#[derive(Drop)]
pub struct Premises<'a> {
    given: &'a Many<Row>,
    told: &'a Many<Row>,
}

impl<'a> Model for Premises<'a> {
    ghost use Rattle.std.specs.Prelude.{List, ◌++◌};
    ghost use Rattle.rv_rows.specs.declared.linear.Row.{Row};

    ghost Value = { List Row };

    ghost view = { λ p. p.given.now ++ p.told.now };
}

impl<'a> Premises<'a> {
    /// The given rows, and then the others.
    pub fn new(given: &'a Many<Row>, told: &'a Many<Row>) -> Premises<'a>
        ensures { result ≡ given.now ++ told.now }
    {
        Premises { given, told }
    }

    /// How many premises there are.
    pub fn len(&self) -> usize
        requires { length self.now < 2 ^ 32 }
        ensures { result ≡ length self.now }
    {
        self.given.len() + self.told.len()
    }

    /// The premise with this number, counted from 0, which must be there.
    pub fn at(&self, premise: usize) -> &Row
        requires { premise < length self.now }
        ensures value { slice_get self.now premise ≡ Some result.now }
    {
        let first = self.given.len();
        if premise < first {
            self.given.at(premise)
        } else {
            self.told.at(premise - first)
        }
    }
}

/// As many rows `0 <= 0`.
fn zero_rows(alloc: Global, many: usize) -> Result<Many<Row>, Memory>
    ensures size { IfOk result (λ rows. length rows ≡ many) }
    ensures zero { IfOk result (λ rows. (k : ℕ) → row_at rows k ≡ nothing) }
{
    let mut rows = Vec::with_capacity(alloc, many)?;
    for place in 0..many {
        rows.push(Row {
            coefficients: Many::new(alloc),
            bound: 0,
        })?;
    }
    Ok(Many::from_vec(rows))
}

/// One row for each order test: its row where it is named, else `0 <= 0`.
pub fn told_rows(
    alloc: Global,
    tests: &Many<u32>,
    rows: &Many<Row>,
    many: usize,
) -> Result<Many<Row>, Memory>
    requires { HasTests many tests.now rows.now }
    ensures { IfOk result (IsTold many (length tests.now) tests.now rows.now) }
{
    let mut told = zero_rows(alloc, many)?;
    for place in 0..tests.len() {
        let test = *tests.at(place) as usize;
        let row = copy_row(alloc, rows.at(place))?;
        told.set(test, row);
    }
    Ok(told)
}
