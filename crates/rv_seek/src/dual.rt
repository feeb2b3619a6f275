// The dual simplex from a corner: the wanted side changes the right sides alone, and the costs stay as they are. What it finds is checked by its
// callers.
use crate::simplex::{Found, PIVOTS, STEEPEST_PIVOTS, at_corner};
use crate::sparse::{Sparse, product_with};
use crate::tableau::{
    NO_PREMISE, Tableau, at_or_zero, basis_of, cost_in, entry, numbers_of, pivot_at,
};
use rv_base::{Many, Memory};
use rv_rows::number_at;
use std::alloc::Global;

/// What a search from a corner comes to.
#[derive(Drop)]
pub enum Reached {
    /// Weights with the least sum of bounds.
    Least(Found),
    /// There are no weights.
    Nothing,
    /// A number left its type, or there were too many pivots.
    GaveUp,
}

/// The premise that enters an equation whose right side is below 0.
#[derive(Clone, Copy)]
enum Entering {
    /// This one.
    At(usize),
    /// There is none, so the right side stays below 0.
    Nothing,
    /// A number left its type.
    GaveUp,
}

/// A line's right side for a wanted left side: the sum of the wanted numbers, each times the line's number of its column.
fn right_for(line: &[i128], wanted: &Many<i128>, width: usize) -> Option<i128> {
    let mut sum: i128 = 0;
    for column in 0..width {
        let number = number_at(wanted, column);
        if number != 0 {
            sum = sum.checked_add(number.checked_mul(at_or_zero(line, column))?)?;
        }
    }
    Some(sum)
}

/// A line with its right side for a wanted left side.
fn line_for(
    alloc: Global,
    line: &[i128],
    wanted: &Many<i128>,
    width: usize,
) -> Result<Option<Vec<i128>>, Memory> {
    let Some(right) = right_for(line, wanted, width) else {
        return Ok(None);
    };
    let mut numbers = line.to_vec(alloc)?;
    if width < numbers.len() {
        numbers[width] = right;
    }
    Ok(Some(numbers))
}

/// The corner with the right sides for a wanted left side.
fn tableau_for(
    alloc: Global,
    corner: &Tableau,
    wanted: &Many<i128>,
) -> Result<Option<Tableau>, Memory> {
    let width = corner.basis.len();
    let mut lines = Vec::new(alloc);
    for line in 0..corner.lines.len() {
        match line_for(alloc, &corner.lines[line], wanted, width)? {
            Some(numbers) => lines.push(numbers)?,
            None => return Ok(None),
        }
    }
    let basis = corner.basis.to_vec(alloc)?;
    Ok(Some(Tableau { lines, basis }))
}

/// An equation whose right side is below 0: the first one, or the one with the least.
fn lacking(tableau: &Tableau, first: bool) -> Option<usize> {
    let right = tableau.basis.len();
    let mut best: Option<usize> = None;
    let mut least: i128 = 0;
    for line in 0..tableau.basis.len() {
        let number = entry(tableau, line, right);
        if number < least {
            if first {
                return Some(line);
            }
            least = number;
            best = Some(line);
        }
    }
    best
}

/// Whether the first ratio of a cost to a number below 0 is closer to 0 than the second one.
fn is_closer(cost: i128, number: i128, best_cost: i128, best_number: i128) -> Option<bool> {
    let own = cost.checked_mul(best_number)?;
    let other = best_cost.checked_mul(number)?;
    Some(own > other)
}

/// The premise that enters an equation: of those whose number there is below 0 the one whose cost comes to 0 first.
fn entering_at(tableau: &Tableau, premises: &Many<Sparse>, line: usize) -> Entering {
    let (Some(equation), Some(costs)) = (
        tableau.lines.get(line),
        tableau.lines.get(tableau.basis.len()),
    ) else {
        return Entering::GaveUp;
    };
    let factor = cost_in(tableau, tableau.basis.len());
    let mut best = Entering::Nothing;
    let mut best_cost: i128 = 0;
    let mut best_number: i128 = -1;
    for place in 0..premises.len() {
        let premise = premises.at(place);
        let Some(number) = product_with(premise, equation, 0) else {
            return Entering::GaveUp;
        };
        if number < 0 {
            let Some(cost) = product_with(premise, costs, factor) else {
                return Entering::GaveUp;
            };
            let is_better = match best {
                Entering::At(_) => is_closer(cost, number, best_cost, best_number),
                _ => Some(true),
            };
            match is_better {
                Some(true) => {
                    best = Entering::At(place);
                    best_cost = cost;
                    best_number = number;
                }
                Some(false) => {}
                None => return Entering::GaveUp,
            }
        }
    }
    best
}

/// Whether an equation that no premise can enter has a right side other than 0.
fn is_missed(tableau: &Tableau) -> bool {
    let right = tableau.basis.len();
    for line in 0..tableau.basis.len() {
        if basis_of(tableau, line) == NO_PREMISE && entry(tableau, line, right) != 0 {
            return true;
        }
    }
    false
}

/// Lets premises enter until no right side is below 0, and reads the weights out.
fn settle(
    alloc: Global,
    tableau: &mut Tableau,
    premises: &Many<Sparse>,
) -> Result<Reached, Memory> {
    for round in 0..PIVOTS {
        let Some(line) = lacking(tableau, round >= STEEPEST_PIVOTS) else {
            return match at_corner(alloc, tableau, premises)? {
                Some(found) => Ok(Reached::Least(found)),
                None => Ok(Reached::GaveUp),
            };
        };
        let place = match entering_at(tableau, premises, line) {
            Entering::At(place) => place,
            Entering::Nothing => return Ok(Reached::Nothing),
            Entering::GaveUp => return Ok(Reached::GaveUp),
        };
        let Some(premise) = premises.get(place) else {
            return Ok(Reached::GaveUp);
        };
        let Some(numbers) = numbers_of(alloc, tableau, premise)? else {
            return Ok(Reached::GaveUp);
        };
        if !pivot_at(alloc, tableau, &numbers, line, place)? {
            return Ok(Reached::GaveUp);
        }
    }
    Ok(Reached::GaveUp)
}

/// Whether the wanted side has a number other than 0 past the width.
fn is_wide(wanted: &Many<i128>, width: usize) -> bool {
    for column in width..wanted.len() {
        if number_at(wanted, column) != 0 {
            return true;
        }
    }
    false
}

/// Weights that are not negative, of premises whose left sides sum to the divisor times the wanted one, with the least sum of bounds, from a
/// corner of the premises.
pub fn least_from(
    alloc: Global,
    corner: &Tableau,
    premises: &Many<Sparse>,
    wanted: &Many<i128>,
) -> Result<Reached, Memory> {
    if is_wide(wanted, corner.basis.len()) {
        return Ok(Reached::Nothing);
    }
    let Some(mut tableau) = tableau_for(alloc, corner, wanted)? else {
        return Ok(Reached::GaveUp);
    };
    if is_missed(&tableau) {
        return Ok(Reached::Nothing);
    }
    settle(alloc, &mut tableau, premises)
}
