//! What a step adds to memories and to left sides.

ghost use Rattle.std.specs.Prelude.{◌≡◌, ◌<◌, ◌≤◌, ◌^◌, length, IfSome};
ghost use Rattle.std.specs.Int.RustNames.{unsigned_abs};

use crate::directions::{end_of, is_own, is_small, product};
use rv_base::Many;
use rv_rows::{Form, Row, number_at};

/// What a step adds to a memory.
#[derive(Clone, Copy, Debug)]
pub enum Gain {
    /// This number.
    Number(i128),
    /// It is set to a constant, and nothing is known of the number before.
    Reset,
    /// What is not looked at.
    Free,
}

/// Whether numbers have one past the memories, at an input.
pub fn takes_input(numbers: &Many<i128>, memories: usize) -> bool {
    for column in memories..numbers.len() {
        if number_at(numbers, column) != 0 {
            return true;
        }
    }
    false
}

/// Whether a form has no memory and no input.
fn is_constant(form: &Form) -> bool {
    for column in 0..form.coefficients.len() {
        if number_at(&form.coefficients, column) != 0 {
            return false;
        }
    }
    true
}

/// The greater number, or the lesser one.
fn further(found: Option<i128>, end: i128, least: bool) -> Option<i128>
    requires found { IfSome found (λ b. unsigned_abs b ≤ 2 ^ 20) }
    requires end { unsigned_abs end ≤ 2 ^ 20 }
    ensures { IfSome result (λ b. unsigned_abs b ≤ 2 ^ 20) }
{
    match found {
        Some(other) => {
            if (other < end) == least {
                return found;
            }
            Some(end)
        }
        None => Some(end),
    }
}

/// The least of the upper ends that rows give a memory, or the greatest of the lower ones.
fn nearest_end(told: &Many<Row>, memory: usize, upper: bool) -> Option<i128>
    ensures { IfSome result (λ b. unsigned_abs b ≤ 2 ^ 20) }
{
    let mut found = None;
    for place in 0..told.len() {
        let row = told.at(place);
        let is_upper = number_at(&row.coefficients, memory) > 0;
        match end_of(row, memory) {
            Some(end) => {
                if is_upper == upper {
                    found = further(found, end, upper);
                }
            }
            None => {}
        }
    }
    found
}

/// The number that a memory has before it is set to a constant, as far as rows tell: their greatest lower end where it is above the constant, and
/// else their least upper one.
fn number_before(told: &Many<Row>, memory: usize, constant: i128) -> Option<i128>
    ensures { IfSome result (λ b. unsigned_abs b ≤ 2 ^ 20) }
{
    match nearest_end(told, memory, false) {
        Some(end) => {
            if end > constant {
                return Some(end);
            }
            nearest_end(told, memory, true)
        }
        None => nearest_end(told, memory, true),
    }
}

/// What a form adds to its memory at a valuation with these rows.
pub fn gain_of(form: &Form, memory: usize, memories: usize, told: &Many<Row>) -> Gain {
    let constant = form.constant;
    if !is_small(constant) || takes_input(&form.coefficients, memories) {
        return Gain::Free;
    }
    if is_own(form, memory, memories) {
        return Gain::Number(constant);
    }
    if !is_constant(form) {
        return Gain::Free;
    }
    match number_before(told, memory, constant) {
        Some(before) => Gain::Number(constant - before),
        None => Gain::Reset,
    }
}

/// What a step adds to a left side by one memory, or none where that is not known or great.
fn part_of(side: &Row, memory: usize, gain: Gain) -> Option<i128>
    ensures { IfSome result (λ g. unsigned_abs g ≤ 2 ^ 40) }
{
    let number = number_at(&side.coefficients, memory);
    match gain {
        Gain::Number(more) => {
            if is_small(number) && is_small(more) {
                return Some(product(number, more));
            }
            None
        }
        Gain::Reset => {
            if number == 0 {
                return Some(0);
            }
            None
        }
        Gain::Free => {
            if number == 0 {
                return Some(0);
            }
            None
        }
    }
}

/// What a step adds to a left side, or none where that is not known or great.
pub fn growth_of(side: &Row, gains: &Many<Gain>) -> Option<i128>
    ensures { IfSome result (λ g. unsigned_abs g ≤ 2 ^ 20) }
{
    let mut sum: i128 = 0;
    for memory in 0..gains.len() {
        match part_of(side, memory, *gains.at(memory)) {
            Some(more) => sum = sum + more,
            None => return None,
        }
        if !is_small(sum) {
            return None;
        }
    }
    Some(sum)
}
