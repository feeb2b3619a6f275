// The choice of the numbers of a point, one column after the other, with steps back.
ghost use Rattle.std.specs.Prelude.{◌<◌, ◌≤◌, ◌^◌, ℤ, pos, ◌-ℤ◌, ◌≤ℤ◌, ◌<ℤ◌, length, IfSome, OnOk};
ghost use Rattle.rv_poly.specs.Whole.{IsInReplay};
ghost use Rattle.rv_poly.specs.Guides.{IsGuide, IsTrail};

use crate::spans::{Span, nearest, span_of};
use rv_base::{Many, Memory};
use rv_rows::Row;

/// How many steps are made for one point.
const MOST_STEPS: usize = 4096;

/// The least number of a trace.
const LEAST: i128 = -(1 << 63);

/// The greater of two numbers.
fn at_least(number: i128, least: i128) -> i128 {
    if number < least { least } else { number }
}

/// The next number, where there is one.
fn after(number: i128) -> i128 {
    match number.checked_add(1) {
        Some(next) => next,
        None => number,
    }
}

/// A number of the span that is not below the least: the nearest to the wanted one.
fn next_number(span: Span, wanted: i128, least: i128) -> Option<i128>
    requires low { (pos 0 -ℤ pos (2 ^ 63)) ≤ℤ span.low }
    requires high { span.high <ℤ pos (2 ^ 63) }
    requires wanted { IsInReplay wanted }
    ensures { IfSome result (λ x. IsInReplay x) }
{
    let next = at_least(nearest(span, wanted), least);
    if next < span.low {
        return None;
    }
    if span.high < next {
        return None;
    }
    Some(next)
}

/// Takes the last number away. What is answered is the least that may be tried in its place, where there was one.
fn step_back(point: &mut Many<i128>, width: usize) -> Option<i128>
    requires { IsTrail width point.old }
    ensures { IsTrail width point.new }
{
    match point.pop() {
        Some(last) => Some(after(last)),
        None => None,
    }
}

/// Chooses a number at the next column, or takes the last one away where none is left there. What is answered is the least number that may
/// be tried next, where there is more to try.
fn advance(
    rows: &Many<Row>,
    width: usize,
    wanted: i128,
    least: i128,
    point: &mut Many<i128>,
) -> Result<Option<i128>, Memory>
    requires guide { IsGuide width rows.now }
    requires wanted { IsInReplay wanted }
    requires room { length point.old < width }
    requires trail { IsTrail width point.old }
    ensures { OnOk result (IsTrail width point.new) }
{
    let column = point.len();
    let span = span_of(rows, column, point);
    match next_number(span, wanted, least) {
        Some(number) => {
            point.push(number)?;
            Ok(Some(LEAST))
        }
        None => Ok(step_back(point, width)),
    }
}

/// Chooses numbers that the rows allow, near the wanted one, for all columns, or for as many as are found in the steps that are made.
pub fn fill(
    rows: &Many<Row>,
    width: usize,
    wanted: i128,
    point: &mut Many<i128>,
) -> Result<(), Memory>
    requires guide { IsGuide width rows.now }
    requires wanted { IsInReplay wanted }
    requires trail { IsTrail width point.old }
    ensures { OnOk result (IsTrail width point.new) }
{
    let mut least = LEAST;
    for step in 0..MOST_STEPS {
        if point.len() >= width {
            return Ok(());
        }
        match advance(rows, width, wanted, least, point)? {
            Some(next) => least = next,
            None => return Ok(()),
        }
    }
    Ok(())
}
