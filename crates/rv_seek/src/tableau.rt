// The lines of a simplex in whole numbers, checked and of 128 bits.
ghost use Rattle.std.specs.Prelude.{◌≡◌, Ok, true};

use crate::divisors::{common_divisor, gcd};
use crate::sparse::{Sparse, product_with};
use rv_base::{Many, Memory};
use std::alloc::Global;

/// The basis of an equation that no premise has entered yet.
pub const NO_PREMISE: usize = usize::MAX;

/// One line for each equation, then the costs of the second phase, and those of the first phase while it lasts. A
/// line has one number for each column of the rows, then the right side, then the factor of the bounds, which is 0
/// but in the costs of the second phase. The number of a premise in a line is the product of its coefficients with
/// the line's numbers, so no line has to hold it (the revised simplex). A line means the same after it is divided
/// by a number above 0, and is kept without a common divisor, so that the numbers stay small.
#[derive(Drop)]
pub struct Tableau {
    pub lines: Vec<Vec<i128>>,
    pub basis: Vec<usize>,
}

/// The line's number at a place, 0 where there is none.
pub fn entry(tableau: &Tableau, line: usize, place: usize) -> i128 {
    match tableau.lines.get(line) {
        Some(numbers) => at_or_zero(numbers, place),
        None => 0,
    }
}

/// The number at a place, 0 past the end.
pub fn at_or_zero(numbers: &[i128], place: usize) -> i128 {
    match numbers.get(place) {
        Some(number) => *number,
        None => 0,
    }
}

/// The premise that an equation's basis is.
pub fn basis_of(tableau: &Tableau, line: usize) -> usize {
    match tableau.basis.get(line) {
        Some(place) => *place,
        None => NO_PREMISE,
    }
}

/// The factor of the bounds in a line.
pub fn cost_in(tableau: &Tableau, line: usize) -> i128 {
    entry(tableau, line, tableau.basis.len().saturating_add(1))
}

/// A premise's number in a line, where it fits.
pub fn number_in(tableau: &Tableau, line: usize, premise: &Sparse) -> Option<i128> {
    let numbers = tableau.lines.get(line)?;
    product_with(premise, numbers, cost_in(tableau, line))
}

/// A line with one number for each column, 0 but at one, then the right side and no factor of the bounds.
fn unit_line(
    alloc: Global,
    width: usize,
    place: usize,
    number: i128,
    right: i128,
) -> Result<Vec<i128>, Memory> {
    let mut line = Vec::new(alloc);
    for column in 0..width {
        line.push(if column == place { number } else { 0 })?;
    }
    line.push(right)?;
    line.push(0)?;
    Ok(line)
}

/// The costs of the second phase: the bounds alone.
fn second_costs(alloc: Global, width: usize) -> Result<Vec<i128>, Memory> {
    let mut line = Vec::new(alloc);
    for _ in 0..width {
        line.push(0)?;
    }
    line.push(0)?;
    line.push(1)?;
    Ok(line)
}

/// The costs of the first phase, whose least is the sum of what the equations lack.
fn first_costs(
    alloc: Global,
    wanted: &Many<i128>,
    width: usize,
) -> Result<Option<Vec<i128>>, Memory> {
    let mut line = Vec::new(alloc);
    let mut sum: i128 = 0;
    for column in 0..width {
        let right = wanted_at(wanted, column);
        line.push(if right < 0 { 1 } else { -1 })?;
        let size = if right < 0 {
            Some(right)
        } else {
            right.checked_neg()
        };
        match size {
            Some(size) => {
                match sum.checked_add(size) {
                    Some(next) => sum = next,
                    None => return Ok(None),
                }
            }
            None => return Ok(None),
        }
    }
    line.push(sum)?;
    line.push(0)?;
    Ok(Some(line))
}

fn wanted_at(wanted: &Many<i128>, column: usize) -> i128 {
    at_or_zero(wanted.as_slice(), column)
}

/// One equation for each column, with a right side that is not negative, and no basis.
pub fn start(alloc: Global, wanted: &Many<i128>, width: usize) -> Result<Option<Tableau>, Memory> {
    let mut lines = Vec::new(alloc);
    let mut basis = Vec::new(alloc);
    for column in 0..width {
        let right = wanted_at(wanted, column);
        let sign = if right < 0 { -1 } else { 1 };
        match right.checked_mul(sign) {
            Some(right) => lines.push(unit_line(alloc, width, column, sign, right)?)?,
            None => return Ok(None),
        }
        basis.push(NO_PREMISE)?;
    }
    lines.push(second_costs(alloc, width)?)?;
    match first_costs(alloc, wanted, width)? {
        Some(line) => lines.push(line)?,
        None => return Ok(None),
    }
    Ok(Some(Tableau { lines, basis }))
}

/// A premise's numbers in all lines, where they fit.
pub fn numbers_of(
    alloc: Global,
    tableau: &Tableau,
    premise: &Sparse,
) -> Result<Option<Vec<i128>>, Memory> {
    let mut numbers = Vec::new(alloc);
    for line in 0..tableau.lines.len() {
        match number_in(tableau, line, premise) {
            Some(number) => numbers.push(number)?,
            None => return Ok(None),
        }
    }
    Ok(Some(numbers))
}

/// `a * b - c * d`, where it fits.
fn cross(a: i128, b: i128, c: i128, d: i128) -> Option<i128> {
    let left = a.checked_mul(b)?;
    let right = c.checked_mul(d)?;
    left.checked_sub(right)
}

/// `up` times the line without `down` times the pivot line; None where a number left its type.
fn combined(
    alloc: Global,
    line: &[i128],
    pivot: &[i128],
    up: i128,
    down: i128,
) -> Result<Option<Vec<i128>>, Memory> {
    let mut numbers = Vec::new(alloc);
    for place in 0..line.len() {
        match cross(line[place], up, at_or_zero(pivot, place), down) {
            Some(number) => numbers.push(number)?,
            None => return Ok(None),
        }
    }
    Ok(Some(numbers))
}

/// Divides each number, rounded to 0.
fn divide(line: &mut [i128], by: i128) {
    for place in 0..line.len() {
        if let Some(divided) = line[place].checked_div(by) {
            line[place] = divided;
        }
    }
}

/// Divides the line by its greatest common divisor.
fn reduce(line: &mut [i128]) {
    if let Ok(by) = i128::try_from(common_divisor(line)) {
        if by > 1 {
            divide(line, by);
        }
    }
}

/// The line, where a premise has the number `own`, cleared of it by the line where it has the number `lead`. None
/// where a number left its type.
fn cleared(
    alloc: Global,
    line: &[i128],
    pivot: &[i128],
    lead: i128,
    own: i128,
) -> Result<Option<Vec<i128>>, Memory> {
    let Ok(common) = i128::try_from(gcd(lead.unsigned_abs(), own.unsigned_abs())) else {
        return Ok(None);
    };
    let (Some(up), Some(down)) = (lead.checked_div(common), own.checked_div(common)) else {
        return Ok(None);
    };
    let Some(mut numbers) = combined(alloc, line, pivot, up, down)? else {
        return Ok(None);
    };
    reduce(&mut numbers);
    Ok(Some(numbers))
}

/// The line with each number negated. None where one left its type.
fn negated(alloc: Global, line: &[i128]) -> Result<Option<Vec<i128>>, Memory> {
    let mut numbers = Vec::new(alloc);
    for number in line {
        match number.checked_neg() {
            Some(negated) => numbers.push(negated)?,
            None => return Ok(None),
        }
    }
    Ok(Some(numbers))
}

/// The line of a pivot, where the premise that enters has the number `own`, so that its number is above 0.
fn pivot_line(alloc: Global, line: &[i128], own: i128) -> Result<Option<Vec<i128>>, Memory> {
    if own < 0 {
        return negated(alloc, line);
    }
    Ok(Some(line.to_vec(alloc)?))
}

/// A line as a pivot leaves it.
#[derive(Drop)]
struct Changed {
    line: usize,
    numbers: Vec<i128>,
}

/// The lines that change where a premise with these numbers enters the basis in one equation. None where a number
/// left its type.
fn changed_lines(
    alloc: Global,
    lines: &[Vec<i128>],
    numbers: &[i128],
    at: usize,
) -> Result<Option<Vec<Changed>>, Memory> {
    let Some(line) = lines.get(at) else {
        return Ok(None);
    };
    let Some(lead) = at_or_zero(numbers, at).checked_abs() else {
        return Ok(None);
    };
    let Some(pivot) = pivot_line(alloc, line, at_or_zero(numbers, at))? else {
        return Ok(None);
    };
    let Some(mut changed) = cleared_lines(alloc, lines, numbers, &pivot, at, lead)? else {
        return Ok(None);
    };
    changed.push(Changed {
        line: at,
        numbers: pivot,
    })?;
    Ok(Some(changed))
}

/// The lines but one, where a premise with these numbers has one, cleared of it. None where a number left its type.
fn cleared_lines(
    alloc: Global,
    lines: &[Vec<i128>],
    numbers: &[i128],
    pivot: &[i128],
    at: usize,
    lead: i128,
) -> Result<Option<Vec<Changed>>, Memory> {
    let mut changed = Vec::new(alloc);
    for line in 0..lines.len() {
        let own = at_or_zero(numbers, line);
        if line != at && own != 0 {
            match cleared(alloc, &lines[line], pivot, lead, own)? {
                Some(numbers) => changed.push(Changed { line, numbers })?,
                None => return Ok(None),
            }
        }
    }
    Ok(Some(changed))
}

/// Puts the changed lines in their places.
fn put(lines: &mut [Vec<i128>], changed: Vec<Changed>) {
    for one in changed {
        if one.line < lines.len() {
            lines[one.line] = one.numbers;
        }
    }
}

/// Lets a premise with these numbers enter the basis in one equation. False where a number left its type; the tableau
/// is then as it was, so that its multipliers can still be read out.
pub fn pivot_at(
    alloc: Global,
    tableau: &mut Tableau,
    numbers: &[i128],
    at: usize,
    place: usize,
) -> Result<bool, Memory>
    ensures kept { ¬ (result ≡ Ok true) → tableau.new ≡ tableau.old }
{
    if at >= tableau.basis.len() {
        return Ok(false);
    }
    let Some(changed) = changed_lines(alloc, &tableau.lines, numbers, at)? else {
        return Ok(false);
    };
    put(&mut tableau.lines, changed);
    tableau.basis[at] = place;
    Ok(true)
}
