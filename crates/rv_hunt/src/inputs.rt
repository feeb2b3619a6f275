//! Inputs by chance: each keeps what it had at the instant before, or has another value of its type.

use crate::chance::Chance;
use crate::typed::label_count;
use rv_base::{Many, Memory, Value};
use rv_flat::Flat;
use rv_types::Kind;
use std::alloc::Global;

/// A label of a declaration, by its number; 0 where it has none.
fn label(flat: &Flat, declaration: u32, chance: &mut Chance) -> u32 {
    let count = label_count(flat, declaration);
    chance.below(u32::try_from(count).unwrap_or(u32::MAX))
}

/// A threshold; 0 where there is none.
fn threshold(flat: &Flat, chance: &mut Chance) -> i128 {
    let number = chance.below_length(flat.thresholds.len());
    match flat.thresholds.get(number) {
        Some(threshold) => *threshold,
        None => 0,
    }
}

/// A number far from the thresholds, often small and at most some million, on either side of 0.
fn far(chance: &mut Chance) -> i128 {
    let size = chance.below(1024);
    let times = chance.below(1024);
    let number = i128::from(size.wrapping_mul(times));
    if chance.comes(2) {
        number
    } else {
        0_i128.saturating_sub(number)
    }
}

/// A number near another one, a threshold, 0 or one that is far.
fn moved(flat: &Flat, number: i128, chance: &mut Chance) -> i128 {
    match chance.below(16) {
        0..=3 => number.saturating_add(1),
        4..=7 => number.saturating_sub(1),
        8 => 0,
        9 => far(chance),
        _ => threshold(flat, chance),
    }
}

/// Any value of a type, where it has one; a number is chosen by the one before it.
fn chosen(flat: &Flat, kind: Kind, before: Value, chance: &mut Chance) -> Value {
    match kind {
        Kind::Bool => Value::Flag(chance.comes(2)),
        Kind::Labels(declaration) => Value::Label(label(flat, declaration, chance)),
        Kind::Int => match before {
            Value::Whole(number) => Value::Whole(moved(flat, number, chance)),
            _ => Value::Whole(0),
        },
    }
}

/// The value that stands first in a type: false, 0 or the first label.
fn first_value(kind: Kind) -> Value {
    match kind {
        Kind::Bool => Value::Flag(false),
        Kind::Int => Value::Whole(0),
        Kind::Labels(_) => Value::Label(0),
    }
}

/// For each type the value that stands first in it.
pub fn first_values(alloc: Global, kinds: &[Kind]) -> Result<Many<Value>, Memory> {
    let mut values = Many::new(alloc);
    for kind in kinds {
        values.push(first_value(*kind))?;
    }
    Ok(values)
}

/// The values at the instant after one that had these: each is another one with one of so many equal chances, and else the same.
pub fn varied(
    alloc: Global,
    flat: &Flat,
    kinds: &[Kind],
    before: &Many<Value>,
    chances: u32,
    chance: &mut Chance,
) -> Result<Many<Value>, Memory> {
    let mut values = Many::new(alloc);
    for (number, kind) in kinds.iter().enumerate() {
        let old = match before.get(number) {
            Some(value) => *value,
            None => first_value(*kind),
        };
        let value = if chance.comes(chances) {
            chosen(flat, *kind, old, chance)
        } else {
            old
        };
        values.push(value)?;
    }
    Ok(values)
}
