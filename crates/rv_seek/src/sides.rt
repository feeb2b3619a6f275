// The premises by their left sides.
ghost use Rattle.std.specs.Prelude.{◌≡◌, ◌⊎◌, ℕ, ◌^◌, ◌+◌, ◌≤◌, ◌-ℤ◌, ◌≤ℤ◌, ℤ, pos, All, List, length, Some, IfSome, IfOk, OnOk};
ghost use Rattle.std.specs.Int.RustNames.{unsigned_abs};
ghost use Rattle.std.specs.Global.{Vec as VecModel};
ghost use Rattle.rv_rows.specs.declared.linear.Row.{Row};
ghost use Rattle.rv_rows.specs.Rows.{coefficient, row_at, RowWithin};
ghost use Rattle.rv_rows.specs.Forms.{number};
ghost use Rattle.rv_seek.specs.Sides.{IsSide, IsClosest, IsOther, IsPut, IsTable};
ghost use Rattle.rv_seek.specs.declared.sides.Closest.{Closest as ClosestModel};

use crate::places::{bound_of, coefficient_of};
use rv_base::{Many, Memory};
use rv_rows::{Row, number_at};
use std::alloc::Global;
use std::collections::BTreeMap;

/// Two places in the list of premises with one left side, so that a premise need not be taken twice.
#[derive(Clone, Copy, Debug)]
pub struct Closest {
    /// The place with the least bound.
    pub first: usize,
    /// The place with the least bound of the others, where there are others.
    pub second: Option<usize>,
}

/// The closest places of each left side.
pub type Sides = BTreeMap<Vec<i128>, Closest>;

/// The left side at a place, over so many columns.
fn side_of(
    alloc: Global,
    premises: &Many<Row>,
    place: usize,
    width: usize,
) -> Result<Vec<i128>, Memory>
    requires widths { All (λ r. length r.coefficients ≤ width) premises.now }
    ensures length { IfOk result (λ side. length side.items ≡ width) }
    ensures side { IfOk result (λ side. IsSide (row_at premises.now place) side.items) }
{
    let mut side = Vec::with_capacity(alloc, width)?;
    for column in 0..width {
        side.push(coefficient_of(premises, place, column))?;
    }
    Ok(side)
}

fn difference(a: i128, b: i128) -> i128
    requires a { unsigned_abs a ≤ 2 ^ 78 }
    requires b { unsigned_abs b ≤ 2 ^ 60 }
    ensures { result ≡ a -ℤ b }
{
    a - b
}

/// Writes what the left side at a place lacks of the wanted one, over so many columns.
pub fn write_rest(
    rest: &mut Vec<i128>,
    premises: &Many<Row>,
    wanted: &Many<i128>,
    place: usize,
    width: usize,
) -> Result<(), Memory>
    requires premises { All (RowWithin (2 ^ 60)) premises.now }
    requires wanted { All (λ c. unsigned_abs c ≤ 2 ^ 78) wanted.now }
    requires widths { All (λ r. length r.coefficients ≤ width) premises.now }
    requires past { (k : ℕ) → width ≤ k → number k wanted.now ≡ pos 0 }
    ensures length { OnOk result (length rest.new.items ≡ width) }
    ensures rest { OnOk result ((k : ℕ) → number k rest.new.items ≡ number k wanted.now -ℤ coefficient k (row_at premises.now place)) }
{
    rest.clear();
    for column in 0..width {
        let number = difference(
            number_at(wanted, column),
            coefficient_of(premises, place, column),
        );
        rest.push(number)?;
    }
    Ok(())
}

/// The place, or the other one where that has no greater bound.
fn lower_of(premises: &Many<Row>, old: Option<usize>, place: usize) -> usize
    ensures one { (result ≡ place) ⊎ (old ≡ Some result) }
    ensures here { (row_at premises.now result).bound ≤ℤ (row_at premises.now place).bound }
    ensures there { IfSome old (λ p. (row_at premises.now result).bound ≤ℤ (row_at premises.now p).bound) }
{
    match old {
        Some(old) => {
            if bound_of(premises, old) <= bound_of(premises, place) {
                old
            } else {
                place
            }
        }
        None => place,
    }
}

/// The closest of the places so far and the next one, which has the same left side.
fn closer(premises: &Many<Row>, old: Closest, place: usize) -> Closest
    ensures { (cs : List ℤ) → IsSide (row_at premises.now place) cs → IsClosest premises.now place cs old → IsClosest premises.now (place + 1) cs result }
{
    let least = bound_of(premises, old.first);
    let here = bound_of(premises, place);
    if here < least {
        Closest {
            first: place,
            second: Some(old.first),
        }
    } else {
        Closest {
            first: old.first,
            second: Some(lower_of(premises, old.second, place)),
        }
    }
}

/// Adds the next place, whose left side the map has already, at the closest of the places before.
fn add_again(
    alloc: Global,
    premises: &Many<Row>,
    sides: &mut Sides,
    old: Closest,
    place: usize,
    width: usize,
) -> Result<(), Memory>
    requires widths { All (λ r. length r.coefficients ≤ width) premises.now }
    ensures { OnOk result ((key : VecModel ℤ) × (c : ClosestModel) × IsPut premises.now width place key c sides.old sides.new
        × (IsClosest premises.now place key.items old → IsClosest premises.now (place + 1) key.items c)) }
{
    let side = side_of(alloc, premises, place, width)?;
    let closest = closer(premises, old, place);
    sides.insert(side, closest)?;
    Ok(())
}

/// Adds the next place. It costs one look-up where its left side is new, and a second one where it is not.
pub fn add_place(
    alloc: Global,
    premises: &Many<Row>,
    sides: &mut Sides,
    place: usize,
    width: usize,
) -> Result<(), Memory>
    requires widths { All (λ r. length r.coefficients ≤ width) premises.now }
    requires before { IsTable premises.now width place sides.old }
    ensures { OnOk result (IsTable premises.now width (place + 1) sides.new) }
{
    let side = side_of(alloc, premises, place, width)?;
    let alone = Closest {
        first: place,
        second: None,
    };
    match sides.insert(side, alone)? {
        Some(old) => {
            add_again(alloc, premises, sides, old, place, width)?;
            Ok(())
        }
        None => Ok(()),
    }
}

/// The closest place with this left side other than the given one.
pub fn other_of(sides: &Sides, side: &Vec<i128>, place: usize) -> Option<usize>
    ensures { (rows : List Row) (n : ℕ) → IsTable rows (length side.now.items) n sides.now → IsOther rows n side.now.items place result }
{
    match sides.get(side) {
        Some(closest) => other_than(closest, place),
        None => None,
    }
}

fn other_than(closest: &Closest, place: usize) -> Option<usize>
    ensures { (rows : List Row) (n : ℕ) (cs : List ℤ) → IsClosest rows n cs closest.now → IsOther rows n cs place result }
{
    if closest.first == place {
        closest.second
    } else {
        Some(closest.first)
    }
}
