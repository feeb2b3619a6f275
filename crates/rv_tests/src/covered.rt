//! What is answered on covers of random decision diagrams.

use rv_base::{Many, Memory};
use rv_diagram::{Frozen, Triple};
use rv_explain::{Region, Values, Variable, cover_of};
use std::alloc::Global;

/// How many nodes a diagram has for each variable, and among how many references below it a node has its children.
const NODES: u32 = 3;

const NEAR: u32 = 6;

/// Random numbers, each from the one before.
#[derive(Drop)]
struct Dice {
    state: u64,
}

impl Dice {
    /// A number below one that is not 0, and else 0.
    fn below(&mut self, count: u32) -> u32 {
        self.state = self
            .state
            .wrapping_mul(6_364_136_223_846_793_005)
            .wrapping_add(1_442_695_040_888_963_407);
        if count == 0 {
            return 0;
        }
        u32::try_from((self.state >> 33) % u64::from(count)).unwrap_or(0)
    }
}

/// The answer on a row of the kind `cover`, which names a number of variables, a seed and a number of diagrams: on how many of so many random
/// diagrams the regions of the cover have the diagram's truth at every valuation, and how many have no cover of the size that is looked for.
pub fn covered(alloc: Global, fields: &str) -> Result<Option<String>, Memory> {
    let mut numbers: Vec<u32> = Vec::new(alloc);
    for field in fields.split(',') {
        numbers.push(field.parse::<u32>().unwrap_or(0))?;
    }
    let [variables, seed, count] = numbers.as_slice() else {
        return Ok(None);
    };
    let mut dice = Dice {
        state: u64::from(*seed),
    };
    let (mut agreed, mut missing): (u32, u32) = (0, 0);
    for _ in 0..*count {
        match agrees(alloc, &mut dice, (*variables).min(12))? {
            Some(true) => agreed = agreed.saturating_add(1),
            Some(false) => {}
            None => missing = missing.saturating_add(1),
        }
    }
    Ok(Some(format!(in alloc; "{agreed} agree, {missing} have no cover")?))
}

/// Whether the cover of a random diagram has its truth at every valuation; none where there is no cover.
fn agrees(alloc: Global, dice: &mut Dice, variables: u32) -> Result<Option<bool>, Memory> {
    let diagram = random_diagram(alloc, dice, variables)?;
    let (known, whole) = random_quantities(alloc, dice, variables)?;
    let Some(regions) = cover_of(alloc, known.as_slice(), &whole, &diagram)? else {
        return Ok(None);
    };
    for valuation in 0..1_u32 << variables.min(12) {
        if let Some(values) = values_at(alloc, known.as_slice(), &whole, valuation)? {
            let is_in = regions
                .as_slice()
                .iter()
                .any(|region| has(region, values.as_slice()));
            if is_in != truth_at(&diagram, valuation) {
                return Ok(Some(false));
            }
        }
    }
    Ok(Some(true))
}

/// A random reference among the last ones below a number.
fn random_child(dice: &mut Dice, below: u32) -> u32 {
    let passed = dice.below(below.min(NEAR)).saturating_add(1);
    below.saturating_sub(passed)
}

/// A random diagram: for each variable, the last first, nodes whose children stand below it.
fn random_diagram(alloc: Global, dice: &mut Dice, variables: u32) -> Result<Frozen, Memory> {
    let mut nodes = Many::new(alloc);
    let mut references: u32 = 2;
    for step in 0..variables {
        let var = variables.saturating_sub(step).saturating_sub(1);
        let below = references;
        for _ in 0..NODES {
            nodes.push(Triple {
                var,
                lo: random_child(dice, below),
                hi: random_child(dice, below),
            })?;
            references = references.saturating_add(1);
        }
    }
    Ok(Frozen {
        nodes,
        root: references.saturating_sub(1),
    })
}

/// Quantities of one bit, or of two bits and three or four values, with what each variable says of one, and the region of all values.
fn random_quantities(
    alloc: Global,
    dice: &mut Dice,
    variables: u32,
) -> Result<(Vec<Option<Variable>>, Region), Memory> {
    let mut known = Vec::new(alloc);
    let mut values = Vec::new(alloc);
    let mut quantity: u32 = 0;
    for _ in 0..variables {
        let left = (variables as usize).saturating_sub(known.len());
        let count = if left < 2 {
            2
        } else {
            dice.below(3).saturating_add(2)
        };
        let bits: u32 = if count > 2 { 2 } else { 1 };
        if left > 0 {
            for bit in 0..bits {
                let yes = Values::with_bit(count, bit);
                let no = Values::below(count).without(yes);
                known.push(Some(Variable { quantity, no, yes }))?;
            }
            values.push(Values::below(count))?;
            quantity = quantity.saturating_add(1);
        }
    }
    Ok((known, Region { values }))
}

/// Of each quantity the values that a valuation leaves, a bit of the number for each variable; none where it leaves one no value.
fn values_at(
    alloc: Global,
    known: &[Option<Variable>],
    whole: &Region,
    valuation: u32,
) -> Result<Option<Vec<Values>>, Memory> {
    let mut values = Vec::from_slice(alloc, whole.values.as_slice())?;
    let mut rest = valuation;
    for variable in known {
        if let Some(variable) = variable {
            let own = if rest % 2 == 1 {
                variable.yes
            } else {
                variable.no
            };
            if let Some(place) = values.get_mut(variable.quantity as usize) {
                *place = place.and(own);
            }
        }
        rest /= 2;
    }
    if values.as_slice().iter().any(|one| one.is_empty()) {
        return Ok(None);
    }
    Ok(Some(values))
}

/// Whether a region has a point, of which each quantity has one value.
fn has(region: &Region, point: &[Values]) -> bool {
    region
        .values
        .as_slice()
        .iter()
        .zip(point)
        .all(|(own, value)| value.without(*own).is_empty())
}

/// The truth of a diagram at a valuation, a bit of the number for each variable.
fn truth_at(diagram: &Frozen, valuation: u32) -> bool {
    let mut reference = diagram.root;
    for _ in 0..13 {
        let Some(number) = reference.checked_sub(2) else {
            return reference == 1;
        };
        let Some(node) = diagram.nodes.get(number as usize) else {
            return false;
        };
        let is_true = node.var < 12 && (valuation >> node.var) % 2 == 1;
        reference = if is_true { node.hi } else { node.lo };
    }
    false
}
