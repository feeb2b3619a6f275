// A simplex of two phases. What it finds is checked by its callers.
ghost use Rattle.std.specs.Prelude.{◌≡◌, Ok, Some, None, true};

use crate::divisors::common_multiple;
use crate::places::widest;
use crate::sparse::{Sparse, product_with, sparse_rows};
use crate::tableau::{
    NO_PREMISE, Tableau, at_or_zero, basis_of, cost_in, entry, number_in, numbers_of, pivot_at,
    start,
};
use rv_base::{Many, Memory};
use rv_rows::Row;
use std::alloc::Global;

/// The most pivots of one phase.
pub const PIVOTS: usize = 1000;

/// The pivots of one phase that take the most negative cost. Later ones take the first, so that no cycle lasts.
pub const STEEPEST_PIVOTS: usize = 600;

/// What the weights are sought for.
#[derive(Clone, Copy)]
pub enum Goal {
    /// The least sum of bounds, and one below 0 where there is no least.
    Least,
    /// A sum of bounds below this number.
    Below(i128),
}

/// A phase of the search.
#[derive(Clone, Copy)]
enum Phase {
    /// The equations are met.
    First,
    /// The sum of bounds falls.
    Second(Goal),
}

/// How a phase ended.
#[derive(Clone, Copy)]
enum End {
    /// It reached its goal, or no cost is negative.
    Done,
    /// The costs fall without end as this premise enters.
    Ray(usize),
    /// A number left its type, or there were too many pivots.
    GaveUp,
}

/// The premises' weights, and the divisor.
#[derive(Drop)]
pub struct Found {
    pub weights: Many<i128>,
    pub divisor: i128,
}

/// The line of the phase's costs.
fn costs_of(tableau: &Tableau, phase: Phase) -> usize {
    match phase {
        Phase::First => tableau.basis.len().saturating_add(1),
        Phase::Second(_) => tableau.basis.len(),
    }
}

/// Whether the phase can end before its costs are least.
fn is_done(tableau: &Tableau, phase: Phase) -> bool {
    let line = costs_of(tableau, phase);
    let sum = entry(tableau, line, tableau.basis.len());
    match phase {
        Phase::First => sum == 0,
        Phase::Second(Goal::Least) => false,
        Phase::Second(Goal::Below(goal)) => {
            match (cost_in(tableau, line).checked_mul(goal), sum.checked_neg()) {
                (Some(most), Some(sum)) => sum < most,
                _ => false,
            }
        }
    }
}

/// A premise whose cost is negative: the first one (Bland's rule), or the one with the most negative cost.
fn entering(premises: &Many<Sparse>, costs: &[i128], cost: i128, first: bool) -> Option<usize> {
    let mut best: Option<usize> = None;
    let mut least: i128 = 0;
    for place in 0..premises.len() {
        if let Some(number) = product_with(premises.at(place), costs, cost) {
            if number < least {
                if first {
                    return Some(place);
                }
                least = number;
                best = Some(place);
            }
        }
    }
    best
}

/// Whether the first line leaves before the other: its ratio is less, or it is as great and its premise is earlier.
fn leaves_before(tableau: &Tableau, numbers: &[i128], line: usize, other: usize) -> bool {
    let right = tableau.basis.len();
    let own = entry(tableau, line, right).checked_mul(at_or_zero(numbers, other));
    let others = entry(tableau, other, right).checked_mul(at_or_zero(numbers, line));
    match (own, others) {
        (Some(a), Some(b)) => {
            a < b || (a == b && basis_of(tableau, line) < basis_of(tableau, other))
        }
        _ => false,
    }
}

/// The equation that a premise with these numbers takes over: the one with the least ratio.
fn leaving(tableau: &Tableau, numbers: &[i128]) -> Option<usize> {
    let mut best: Option<usize> = None;
    for line in 0..tableau.basis.len() {
        if at_or_zero(numbers, line) > 0 {
            let better = match best {
                Some(other) => leaves_before(tableau, numbers, line, other),
                None => true,
            };
            if better {
                best = Some(line);
            }
        }
    }
    best
}

/// One step of a phase, which ends it or lets a premise enter. A step that ends it leaves the tableau as it was.
fn step(
    alloc: Global,
    tableau: &mut Tableau,
    premises: &Many<Sparse>,
    phase: Phase,
    first: bool,
) -> Result<Option<End>, Memory>
    ensures kept { ¬ (result ≡ Ok None) → tableau.new ≡ tableau.old }
{
    if is_done(tableau, phase) {
        return Ok(Some(End::Done));
    }
    let line = costs_of(tableau, phase);
    let entering = match tableau.lines.get(line) {
        Some(costs) => entering(premises, costs, cost_in(tableau, line), first),
        None => return Ok(Some(End::GaveUp)),
    };
    let Some(place) = entering else {
        return Ok(Some(End::Done));
    };
    let Some(premise) = premises.get(place) else {
        return Ok(Some(End::GaveUp));
    };
    let Some(numbers) = numbers_of(alloc, tableau, premise)? else {
        return Ok(Some(End::GaveUp));
    };
    let Some(at) = leaving(tableau, &numbers) else {
        return Ok(Some(End::Ray(place)));
    };
    if pivot_at(alloc, tableau, &numbers, at, place)? {
        Ok(None)
    } else {
        Ok(Some(End::GaveUp))
    }
}

/// Pivots until the phase ends.
fn solve(
    alloc: Global,
    tableau: &mut Tableau,
    premises: &Many<Sparse>,
    phase: Phase,
) -> Result<End, Memory> {
    for round in 0..PIVOTS {
        if let Some(end) = step(alloc, tableau, premises, phase, round >= STEEPEST_PIVOTS)? {
            return Ok(end);
        }
    }
    Ok(End::GaveUp)
}

/// A premise with a number other than 0 in the line.
fn some_premise(premises: &Many<Sparse>, line: &[i128]) -> Option<usize> {
    for place in 0..premises.len() {
        if let Some(number) = product_with(premises.at(place), line, 0) {
            if number != 0 {
                return Some(place);
            }
        }
    }
    None
}

/// Lets a premise enter an equation whose right side is 0, where one can. Where a number leaves its type the tableau
/// is as it was.
fn fill(
    alloc: Global,
    tableau: &mut Tableau,
    premises: &Many<Sparse>,
    line: usize,
) -> Result<bool, Memory>
    ensures kept { ¬ (result ≡ Ok true) → tableau.new ≡ tableau.old }
{
    let place = match tableau.lines.get(line) {
        Some(numbers) => some_premise(premises, numbers),
        None => None,
    };
    let Some(place) = place else {
        return Ok(true);
    };
    let Some(premise) = premises.get(place) else {
        return Ok(true);
    };
    let Some(numbers) = numbers_of(alloc, tableau, premise)? else {
        return Ok(false);
    };
    Ok(pivot_at(alloc, tableau, &numbers, line, place)?)
}

/// Lets a premise enter each equation that has none, where one can. The right sides there are 0. False where a number
/// left its type; the weights of the tableau are then the same as before.
fn fill_basis(
    alloc: Global,
    tableau: &mut Tableau,
    premises: &Many<Sparse>,
) -> Result<bool, Memory> {
    for line in 0..tableau.basis.len() {
        if basis_of(tableau, line) == NO_PREMISE {
            if !fill(alloc, tableau, premises, line)? {
                return Ok(false);
            }
        }
    }
    Ok(true)
}

/// The weights of no premise.
fn no_weights(alloc: Global, premises: usize) -> Result<Many<i128>, Memory> {
    let mut weights = Many::new(alloc);
    for _ in 0..premises {
        weights.push(0)?;
    }
    Ok(weights)
}

/// The right side of an equation after so many steps along a ray with these numbers.
fn right_after(tableau: &Tableau, numbers: &[i128], line: usize, steps: i128) -> Option<i128> {
    let along = steps.checked_mul(at_or_zero(numbers, line))?;
    entry(tableau, line, tableau.basis.len()).checked_sub(along)
}

/// The number of the premise of an equation's basis in that equation.
fn lead_of(tableau: &Tableau, premises: &Many<Sparse>, line: usize) -> Option<i128> {
    let premise = premises.get(basis_of(tableau, line))?;
    number_in(tableau, line, premise)
}

/// A number above 0 that makes all weights whole after so many steps along a ray with these numbers.
fn divisor_after(
    tableau: &Tableau,
    premises: &Many<Sparse>,
    numbers: &[i128],
    steps: i128,
) -> Option<i128> {
    let mut divisor: i128 = 1;
    for line in 0..tableau.basis.len() {
        if right_after(tableau, numbers, line, steps)? != 0 {
            divisor = common_multiple(divisor, lead_of(tableau, premises, line)?)?;
        }
    }
    Some(divisor)
}

/// The weight, times the divisor, of an equation's basis with this right side.
fn weight_of(
    tableau: &Tableau,
    premises: &Many<Sparse>,
    line: usize,
    right: i128,
    divisor: i128,
) -> Option<i128> {
    if right == 0 {
        return Some(0);
    }
    divisor
        .checked_div(lead_of(tableau, premises, line)?)?
        .checked_mul(right)
}

/// The weights, times the divisor, after so many steps along a ray with these numbers.
fn read_out(
    alloc: Global,
    tableau: &Tableau,
    premises: &Many<Sparse>,
    numbers: &[i128],
    steps: i128,
) -> Result<Option<Found>, Memory> {
    let Some(divisor) = divisor_after(tableau, premises, numbers, steps) else {
        return Ok(None);
    };
    let mut weights = no_weights(alloc, premises.len())?;
    for line in 0..tableau.basis.len() {
        let place = basis_of(tableau, line);
        let weight = match right_after(tableau, numbers, line, steps) {
            Some(right) => weight_of(tableau, premises, line, right, divisor),
            None => None,
        };
        match weight {
            Some(weight) => if place < weights.len() {
                weights.set(place, weight)
            },
            None => return Ok(None),
        }
    }
    Ok(Some(Found { weights, divisor }))
}

/// How many steps along a ray, of which each adds `fall`, take the sum of the bounds below `divisor * goal`.
fn steps_to(sum: i128, fall: i128, divisor: i128, goal: i128) -> Option<i128> {
    let missing = sum.checked_sub(divisor.checked_mul(goal)?)?;
    if missing < 0 {
        return Some(0);
    }
    missing.checked_div(fall.checked_neg()?)?.checked_add(1)
}

/// The steps along a ray with these numbers that reach the goal.
fn steps_along(tableau: &Tableau, numbers: &[i128], goal: Goal) -> Option<i128> {
    let costs = tableau.basis.len();
    let sum = entry(tableau, costs, costs).checked_neg()?;
    let goal = match goal {
        Goal::Least => 0,
        Goal::Below(goal) => goal,
    };
    steps_to(
        sum,
        at_or_zero(numbers, costs),
        cost_in(tableau, costs),
        goal,
    )
}

/// The weights along the ray of a premise that reach the goal.
fn along_ray(
    alloc: Global,
    tableau: &Tableau,
    premises: &Many<Sparse>,
    place: usize,
    goal: Goal,
) -> Result<Option<Found>, Memory> {
    let Some(premise) = premises.get(place) else {
        return Ok(None);
    };
    let Some(numbers) = numbers_of(alloc, tableau, premise)? else {
        return Ok(None);
    };
    let Some(steps) = steps_along(tableau, &numbers, goal) else {
        return Ok(None);
    };
    let Some(mut found) = read_out(alloc, tableau, premises, &numbers, steps)? else {
        return Ok(None);
    };
    let Some(weight) = steps.checked_mul(found.divisor) else {
        return Ok(None);
    };
    if place < found.weights.len() && weight != 0 {
        found.weights.set(place, weight);
    }
    Ok(Some(found))
}

/// The weights of the tableau as it stands.
pub fn at_corner(
    alloc: Global,
    tableau: &Tableau,
    premises: &Many<Sparse>,
) -> Result<Option<Found>, Memory> {
    read_out(alloc, tableau, premises, &Vec::new(alloc), 0)
}

/// Lets the sum of bounds fall from weights that meet the equations. Where a number leaves its type, the weights that
/// it last had are read out.
fn second_phase(
    alloc: Global,
    tableau: &mut Tableau,
    premises: &Many<Sparse>,
    goal: Goal,
) -> Result<Option<Found>, Memory> {
    match solve(alloc, tableau, premises, Phase::Second(goal))? {
        End::Done | End::GaveUp => at_corner(alloc, tableau, premises),
        End::Ray(place) => match along_ray(alloc, tableau, premises, place, goal)? {
            Some(found) => Ok(Some(found)),
            None => at_corner(alloc, tableau, premises),
        },
    }
}

/// The tableau with no wanted left side, in which each equation has a premise where one can enter it, and no cost is negative: a corner of the
/// premises, from which each wanted side can be asked. None where a number left its type, there were too many pivots or the bounds fall without end.
pub fn corner_of(
    alloc: Global,
    premises: &Many<Sparse>,
    width: usize,
) -> Result<Option<Tableau>, Memory> {
    let Some(mut tableau) = start(alloc, &Many::new(alloc), width)? else {
        return Ok(None);
    };
    tableau.lines.truncate(width.saturating_add(1));
    if !fill_basis(alloc, &mut tableau, premises)? {
        return Ok(None);
    }
    match solve(alloc, &mut tableau, premises, Phase::Second(Goal::Least))? {
        End::Done => Ok(Some(tableau)),
        End::Ray(_) | End::GaveUp => Ok(None),
    }
}

/// Weights that are not negative, of premises whose left sides sum to the divisor times the wanted one, and whose
/// bounds reach the goal or sum to the least that was found.
pub fn simplex(
    alloc: Global,
    premises: &Many<Row>,
    wanted: &Many<i128>,
    goal: Goal,
) -> Result<Option<Found>, Memory> {
    let width = widest(premises, wanted.len());
    let premises = sparse_rows(alloc, premises)?;
    let Some(mut tableau) = start(alloc, wanted, width)? else {
        return Ok(None);
    };
    let _end = solve(alloc, &mut tableau, &premises, Phase::First)?;
    if !is_done(&tableau, Phase::First) {
        return Ok(None);
    }
    tableau.lines.truncate(width.saturating_add(1));
    if !fill_basis(alloc, &mut tableau, &premises)? {
        return at_corner(alloc, &tableau, &premises);
    }
    second_phase(alloc, &mut tableau, &premises, goal)
}
