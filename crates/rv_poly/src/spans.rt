// The numbers that rows allow at one column, where those at the earlier columns are given.
ghost use Rattle.std.specs.Prelude.{◌≡◌, ◌<◌, ◌≤◌, ◌^◌, ℤ, pos, ◌+ℤ◌, ◌-ℤ◌, ◌*ℤ◌, ◌≤ℤ◌, ◌<ℤ◌, length, All};
ghost use Rattle.std.specs.Int.RustNames.{unsigned_abs};
ghost use Rattle.rv_rows.specs.Tight.{Fits};
ghost use Rattle.rv_poly.specs.Whole.{IsInReplay, IsSpanCut, IsNarrowed, IsSpanOf};

use crate::sides::{is_last, left_side};
use rv_base::Many;
use rv_rows::{Row, number_at};

/// The least number of a trace.
const LEAST: i128 = -(1 << 63);

/// The greatest number of a trace.
const GREATEST: i128 = (1 << 63) - 1;

/// A magnitude above that of each left side that one column decides.
const FAR: u128 = 1 << 100;

/// The whole numbers from one to another, none where the first is the greater.
#[derive(Clone, Copy)]
pub struct Span {
    /// The least of them.
    pub low: i128,
    /// The greatest.
    pub high: i128,
}

/// `number / by`, rounded down.
fn quotient_down(number: i128, by: u128) -> i128
    requires { 0 < by }
    ensures lower { (pos by *ℤ result) ≤ℤ number }
    ensures upper { number <ℤ (pos by *ℤ (result +ℤ pos 1)) }
{
    if number >= 0 {
        (number.unsigned_abs() / by) as i128
    } else {
        let below = (number + 1).unsigned_abs() / by;
        -1 - below as i128
    }
}

/// The span without the numbers that are too great: `by` times each of the others is at most `rest`.
fn cut_high(span: Span, by: i128, rest: i128) -> Span
    requires { pos 0 <ℤ by }
    ensures { IsSpanCut by rest span result }
{
    let most = quotient_down(rest, by.unsigned_abs());
    if most < span.high {
        return Span {
            low: span.low,
            high: most,
        };
    }
    span
}

/// The span without the numbers that are too small: `by` times each of the others is at most `rest`.
fn cut_low(span: Span, by: i128, rest: i128) -> Span
    requires by { by <ℤ pos 0 }
    requires rest { unsigned_abs rest ≤ 2 ^ 101 }
    ensures { IsSpanCut by rest span result }
{
    let least = 0 - quotient_down(rest, by.unsigned_abs());
    if span.low < least {
        return Span {
            low: least,
            high: span.high,
        };
    }
    span
}

/// The numbers of the span that are, times `by`, at most `rest`.
fn cut_span(span: Span, by: i128, rest: i128) -> Span
    requires by { by ≡ pos 0 → ⊥ }
    requires rest { unsigned_abs rest ≤ 2 ^ 101 }
    ensures { IsSpanCut by rest span result }
{
    if by > 0 {
        return cut_high(span, by, rest);
    }
    cut_low(span, by, rest)
}

/// The span cut by what a sum leaves of the bound; where the sum is far off, the span as it is.
fn cut_after(span: Span, by: i128, bound: i128, sum: i128) -> Span
    requires by { by ≡ pos 0 → ⊥ }
    requires bound { unsigned_abs bound ≤ 2 ^ 60 }
    ensures low { span.low ≤ℤ result.low }
    ensures high { result.high ≤ℤ span.high }
    ensures cut { sum ≡ pos 0 → IsSpanCut by bound span result }
{
    if sum.unsigned_abs() > FAR {
        return span;
    }
    cut_span(span, by, bound - sum)
}

/// The numbers of the span that the row allows at a column, where it has no coefficient at a later one, and the numbers of the point at the
/// earlier ones.
fn narrow(span: Span, row: &Row, column: usize, point: &Many<i128>) -> Span
    requires fits { Fits row.now }
    requires size { length point.now ≡ column }
    requires column { column < length row.now.coefficients }
    requires point { All IsInReplay point.now }
    ensures { IsNarrowed column row.now span result }
{
    let by = number_at(&row.coefficients, column);
    if by == 0 {
        return span;
    }
    if !is_last(&row.coefficients, column) {
        return span;
    }
    match left_side(&row.coefficients, point) {
        Some(sum) => cut_after(span, by, row.bound, sum),
        None => span,
    }
}

/// The numbers that all rows allow at a column, so far as they have no coefficient at a later one.
pub fn span_of(rows: &Many<Row>, column: usize, point: &Many<i128>) -> Span
    requires fits { All Fits rows.now }
    requires widths { All (λ r. column < length r.coefficients) rows.now }
    requires size { length point.now ≡ column }
    requires point { All IsInReplay point.now }
    ensures { IsSpanOf column rows.now (length rows.now) result }
{
    let mut span = Span {
        low: LEAST,
        high: GREATEST,
    };
    for row in rows.as_slice() {
        span = narrow(span, row, column, point);
    }
    span
}

/// The number of the span that is nearest to the wanted one, where there is one.
pub fn nearest(span: Span, wanted: i128) -> i128
    requires low { (pos 0 -ℤ pos (2 ^ 63)) ≤ℤ span.low }
    requires high { span.high <ℤ pos (2 ^ 63) }
    requires wanted { IsInReplay wanted }
    ensures replay { IsInReplay result }
    ensures within { span.low ≤ℤ span.high → (span.low ≤ℤ result) × (result ≤ℤ span.high) }
{
    if span.high < span.low {
        return wanted;
    }
    if wanted < span.low {
        return span.low;
    }
    if span.high < wanted {
        return span.high;
    }
    wanted
}
