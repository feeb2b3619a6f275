//! The numbers that columns may have, narrowed by rows (interval constraint propagation, Davis 1987). No proof rests on them: they say
//! which cases a search leaves out.

use rv_base::{Many, Memory};
use rv_rows::{Form, Row, number_at};
use std::alloc::Global;

/// An end of this magnitude or more stands for none.
const FAR: i128 = 1 << 62;

/// Stands for no bound.
const NO_BOUND: i128 = i128::MAX;

/// How often the rows of a case narrow the spans.
const ROUNDS: u32 = 3;

/// The whole numbers from one to another.
#[derive(Clone, Copy, Debug, PartialEq, Eq)]
pub struct Span {
    /// The least of them, at most -2^62 where there is none.
    pub low: i128,
    /// The greatest, at least 2^62 where there is none.
    pub high: i128,
}

/// All numbers.
const ALL: Span = Span {
    low: -FAR,
    high: FAR,
};

/// The least value of a sum: the sum of the least parts that are known, and how many are not.
#[derive(Clone, Copy)]
struct Least {
    known: i128,
    open: u32,
}

/// The end of the span at which `by` times a number is least.
fn least_end(by: i128, span: Span) -> i128 {
    if by > 0 { span.low } else { span.high }
}

/// The least value of `by` times a number of the span, where there is one.
fn least_part(by: i128, span: Span) -> Option<i128> {
    if by == 0 {
        return Some(0);
    }
    let end = least_end(by, span);
    if end >= FAR || end <= -FAR {
        return None;
    }
    Some(by.saturating_mul(end))
}

/// The least value of the row's left side.
fn least_of(row: &Row, spans: &[Span]) -> Least {
    let mut least = Least { known: 0, open: 0 };
    for column in 0..spans.len() {
        let by = number_at(&row.coefficients, column);
        match least_part(by, spans[column]) {
            Some(part) => least.known = least.known.saturating_add(part),
            None => least.open = least.open.saturating_add(1),
        }
    }
    least
}

/// The least value of the sum without one of its parts, where it is known.
fn rest_of(least: Least, part: Option<i128>) -> Option<i128> {
    match part {
        Some(part) => {
            if least.open > 0 {
                return None;
            }
            Some(least.known.saturating_sub(part))
        }
        None => {
            if least.open > 1 {
                return None;
            }
            Some(least.known)
        }
    }
}

/// The numbers of the span that are, times `by`, at most `most`.
fn cut(span: Span, by: i128, most: i128) -> Span {
    match most.checked_div_euclid(by) {
        Some(end) => {
            if by > 0 {
                Span {
                    low: span.low,
                    high: span.high.min(end),
                }
            } else {
                Span {
                    low: span.low.max(end),
                    high: span.high,
                }
            }
        }
        None => span,
    }
}

/// The numbers of the span that the row allows, where its coefficient there is `by` and the least value of its left side is this.
fn cut_by(row: &Row, least: Least, by: i128, span: Span) -> Span {
    if by == 0 {
        return span;
    }
    match rest_of(least, least_part(by, span)) {
        Some(rest) => cut(span, by, row.bound.saturating_sub(rest)),
        None => span,
    }
}

/// Narrows the spans to what the row allows. Whether they may have a point that meets it.
fn narrow_by(row: &Row, spans: &mut [Span]) -> bool {
    let least = least_of(row, spans);
    for column in 0..spans.len() {
        let by = number_at(&row.coefficients, column);
        let span = spans[column];
        spans[column] = cut_by(row, least, by, span);
    }
    least.open > 0 || least.known <= row.bound
}

/// Narrows the spans to what each row allows. Whether they may have a point for each.
fn narrow_by_all(rows: &Many<Row>, spans: &mut [Span]) -> bool {
    for row in rows.as_slice() {
        if !narrow_by(row, spans) {
            return false;
        }
    }
    true
}

/// Whether each span has a number.
fn are_filled(spans: &[Span]) -> bool {
    for span in spans {
        if span.high < span.low {
            return false;
        }
    }
    true
}

/// Narrows the spans to what the rows allow. Whether they may have a point that meets them.
fn narrow(rows: &Many<Row>, spans: &mut [Span]) -> bool {
    for _round in 0..ROUNDS {
        if !narrow_by_all(rows, spans) {
            return false;
        }
    }
    are_filled(spans)
}

/// Spans of all numbers, one for each of so many columns.
pub fn all_numbers(alloc: Global, columns: usize) -> Result<Many<Span>, Memory> {
    let mut spans = Many::new(alloc);
    for _column in 0..columns {
        spans.push(ALL)?;
    }
    Ok(spans)
}

/// The spans of the integer memories and inputs at which the rows may hold, where there are such.
pub fn spans_at(
    alloc: Global,
    memories: &Many<Span>,
    inputs: usize,
    rows: &Many<Row>,
) -> Result<Option<Vec<Span>>, Memory> {
    let mut spans = memories.as_slice().to_vec(alloc)?;
    for _input in 0..inputs {
        spans.push(ALL)?;
    }
    if !narrow(rows, &mut spans) {
        return Ok(None);
    }
    Ok(Some(spans))
}

/// The greatest value of `sign` times the form, without its constant, less another left side.
fn greatest_less(sign: i128, form: &Form, less: &Many<i128>, spans: &[Span]) -> Option<i128> {
    let mut sum: i128 = 0;
    for column in 0..spans.len() {
        let by = sign.saturating_mul(number_at(&form.coefficients, column));
        let down = number_at(less, column).saturating_sub(by);
        let part = least_part(down, spans[column])?;
        sum = sum.saturating_sub(part);
    }
    Some(sum)
}

/// A bound of the form by a row: the row's bound and the greatest value of what the form has more.
fn bound_by(sign: i128, form: &Form, less: &Many<i128>, bound: i128, spans: &[Span]) -> i128 {
    match greatest_less(sign, form, less, spans) {
        Some(sum) => bound.saturating_add(sum),
        None => NO_BOUND,
    }
}

/// The least bound of `sign` times the form, by its spans or by one row and the spans.
fn highest(alloc: Global, sign: i128, form: &Form, rows: &Many<Row>, spans: &[Span]) -> i128 {
    let nothing = Many::new(alloc);
    let mut most = bound_by(sign, form, &nothing, 0, spans);
    for row in rows.as_slice() {
        let bound = bound_by(sign, form, &row.coefficients, row.bound, spans);
        most = most.min(bound);
    }
    most.saturating_add(sign.saturating_mul(form.constant))
}

/// An end, FAR away at the most.
fn end_of(number: i128) -> i128 {
    number.min(FAR).max(-FAR)
}

/// The values of the form.
fn span_after(alloc: Global, form: &Form, rows: &Many<Row>, spans: &[Span]) -> Span {
    let below = highest(alloc, -1, form, rows, spans);
    let above = highest(alloc, 1, form, rows, spans);
    let zero: i128 = 0;
    Span {
        low: end_of(zero.saturating_sub(below)),
        high: end_of(above),
    }
}

/// The values of each form.
pub fn spans_after(
    alloc: Global,
    forms: &Many<Form>,
    rows: &Many<Row>,
    spans: &[Span],
) -> Result<Many<Span>, Memory> {
    let mut after = Many::new(alloc);
    for form in forms.as_slice() {
        let span = span_after(alloc, form, rows, spans);
        after.push(span)?;
    }
    Ok(after)
}

/// How many spans have more than one number.
pub fn count_free(spans: &Many<Span>) -> usize {
    let mut count: usize = 0;
    for span in spans.as_slice() {
        if span.low != span.high {
            count = count.saturating_add(1);
        }
    }
    count
}

/// Whether the number is an end of a span, and does not stand for none.
pub fn is_end(number: i128) -> bool {
    number > -FAR && number < FAR
}

/// The span of numbers whose opposites are at most `below`, and which are at most `above`, where these are known.
pub fn span_between(below: Option<i128>, above: Option<i128>) -> Span {
    let zero: i128 = 0;
    Span {
        low: end_of(zero.saturating_sub(below.unwrap_or(FAR))),
        high: end_of(above.unwrap_or(FAR)),
    }
}

/// The numbers of both spans.
fn common(one: Span, other: Span) -> Span {
    Span {
        low: one.low.max(other.low),
        high: one.high.min(other.high),
    }
}

/// The numbers of both spans of each column.
pub fn meet(alloc: Global, spans: &Many<Span>, others: &Many<Span>) -> Result<Many<Span>, Memory> {
    let mut met = Many::new(alloc);
    for column in 0..spans.len() {
        let span = *spans.at(column);
        match others.get(column) {
            Some(other) => met.push(common(span, *other))?,
            None => met.push(span)?,
        }
    }
    Ok(met)
}

/// Whether the numbers of the second span are numbers of the first.
fn holds(outer: Span, inner: Span) -> bool {
    outer.low <= inner.low && inner.high <= outer.high
}

/// Whether each of the second spans is within the first one of the same column.
pub fn cover(outer: &Many<Span>, inner: &Many<Span>) -> bool {
    for column in 0..inner.len() {
        match outer.get(column) {
            Some(span) => {
                if !holds(*span, *inner.at(column)) {
                    return false;
                }
            }
            None => return false,
        }
    }
    true
}

/// Whether each span has exactly one number.
pub fn are_points(spans: &Many<Span>) -> bool {
    for span in spans.as_slice() {
        if span.low != span.high {
            return false;
        }
    }
    true
}
