ghost use Rattle.std.specs.Prelude.{◌≡◌, ◌<◌, ◌≤◌, ◌↔◌, List, ℤ, pos, ◌+ℤ◌, ◌*ℤ◌, ◌≤ℤ◌, ◌<ℤ◌, MatchBool, All};
ghost use Rattle.std.specs.Int.{IsGcd};
ghost use Rattle.std.specs.Int.RustNames.{unsigned_abs};
ghost use Rattle.rv_rows.specs.Rows.{Holds};
ghost use Rattle.rv_rows.specs.Tight.{IsCommonDivisor, IsDivided, IsTightened, Fits};
ghost use Prim.Native.Nat.{◌∣◌};

use crate::linear::Row;
use rv_base::Many;

/// The greatest magnitude of a coefficient of a kept row.
const MOST_COEFFICIENT: u128 = 1 << 30;

/// The greatest magnitude of the bound of a kept row.
const MOST_BOUND: u128 = 1 << 60;

/// The greatest common divisor, by Euclid's algorithm.
fn gcd(a: u128, b: u128) -> u128
    ensures { IsGcd a b result }
{
    let mut x = a;
    let mut y = b;
    while y != 0 {
        let rest = x % y;
        x = y;
        y = rest;
    }
    x
}

/// The greatest common divisor of the coefficients, 0 where all of them are 0.
fn common_divisor(coefficients: &Many<i128>) -> u128
    ensures { IsCommonDivisor result coefficients.now }
{
    let mut divisor: u128 = 0;
    for coefficient in coefficients.as_slice() {
        divisor = gcd(divisor, coefficient.unsigned_abs());
    }
    divisor
}

/// `number / by`, rounded down.
fn quotient_down(number: i128, by: u128) -> i128
    requires { 0 < by }
    ensures lower { (pos by *ℤ result) ≤ℤ number }
    ensures upper { number <ℤ (pos by *ℤ (result +ℤ pos 1)) }
{
    if number >= 0 {
        (number.unsigned_abs() / by) as i128
    } else {
        let below = (number + 1).unsigned_abs() / by;
        -1 - below as i128
    }
}

/// Divides the coefficients by a number that divides each of them, and the bound, rounded down.
fn divide(row: &mut Row, by: u128)
    requires some { 0 < by }
    requires divides { All (λ c. by ∣ unsigned_abs c) row.old.coefficients }
    ensures { IsDivided by row.old row.new }
{
    row.bound = quotient_down(row.bound, by);
    for column in 0..row.coefficients.len() {
        let divided = quotient_down(*row.coefficients.at(column), by);
        row.coefficients.set(column, divided);
    }
}

/// Divides the row by the greatest common divisor of its coefficients, if any of them is not 0.
fn make_tight(row: &mut Row)
    ensures { IsTightened row.old row.new }
{
    let divisor = common_divisor(&row.coefficients);
    if divisor != 0 {
        divide(row, divisor);
    }
}

/// Whether no number has a magnitude above the given one.
fn none_above(numbers: &Many<i128>, most: u128) -> bool
    ensures { MatchBool result (All (λ c. unsigned_abs c ≤ most) numbers.now) (¬ (All (λ c. unsigned_abs c ≤ most) numbers.now)) }
{
    for number in numbers.as_slice() {
        if number.unsigned_abs() > most {
            return false;
        }
    }
    true
}

impl Row {
    /// Divides the coefficients by their greatest common divisor, and the bound too, rounded down. A row whose
    /// coefficients are all 0 stays as it is. The row holds at the same whole points as before.
    pub fn tighten(&mut self)
        ensures exact { IsTightened self.old self.new }
        ensures stays { All (λ c. c ≡ pos 0) self.old.coefficients → self.new ≡ self.old }
        ensures same_points { (point : List ℤ) → Holds self.new point ↔ Holds self.old point }
    {
        make_tight(self);
    }

    /// Whether the row is within the limits of a kept row: coefficients of magnitude 2^30 at most, a bound of
    /// magnitude 2^60 at most.
    pub fn fits(&self) -> bool
        ensures { MatchBool result (Fits self.now) (¬ (Fits self.now)) }
    {
        if !none_above(&self.coefficients, MOST_COEFFICIENT) {
            return false;
        }
        self.bound.unsigned_abs() <= MOST_BOUND
    }
}
