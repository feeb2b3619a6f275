//! A short irredundant cover of a diagram: regions in which it is true, which together are all at which it is true.
//!
//! The regions of the ways to true are gone through in turn. One that the regions so far do not cover is made as large as the diagram lets it
//! be (a prime), quantity by quantity. Then each that the others cover is left out.

use crate::regions::{Effort, Region, Variable, copy_of, is_covered, is_within, ways};
use crate::sets::{MOST_VALUES, Values};
use rv_base::Memory;
use rv_diagram::Frozen;
use std::alloc::Global;

/// How many ways to true a diagram may have.
const MOST_WAYS: usize = 2_000;

/// How many regions a cover may have.
const MOST_REGIONS: usize = 200;

/// How many steps all searches for a cover take at most.
const EFFORT: u64 = 4_000_000;

/// What a cover is looked for over.
#[derive(Clone, Copy)]
struct Sought<'b> {
    alloc: Global,
    variables: &'b [Option<Variable>],
    whole: &'b Region,
    known: &'b [Region],
    diagram: &'b Frozen,
}

/// Whether the diagram is true in the whole region as far as that is known to be; no, where that takes too many steps to see.
fn holds(sought: &Sought, effort: &mut Effort, region: &Region) -> Result<bool, Memory> {
    for known in sought.known {
        let part = region.and(sought.alloc, known)?;
        let is_left = !part.is_empty() && effort.spend(part.values.len());
        if is_left
            && !is_within(
                sought.alloc,
                effort,
                sought.variables,
                &part,
                sought.diagram,
            )?
        {
            return Ok(false);
        }
    }
    Ok(true)
}

/// Whether each point of a region that is known to be is in one of others; no, where that takes too many steps to see.
fn is_said(
    sought: &Sought,
    effort: &mut Effort,
    region: &Region,
    others: &[&Region],
) -> Result<bool, Memory> {
    for known in sought.known {
        let part = region.and(sought.alloc, known)?;
        if !part.is_empty() && !is_covered(sought.alloc, effort, &part, others)? {
            return Ok(false);
        }
    }
    Ok(true)
}

/// The region with other values of a quantity, where the diagram lets it have them, and else as it is.
fn widened(
    sought: &Sought,
    effort: &mut Effort,
    region: Region,
    quantity: u32,
    values: Values,
) -> Result<Region, Memory> {
    let wider = region.changed(sought.alloc, quantity, values)?;
    if holds(sought, effort, &wider)? {
        Ok(wider)
    } else {
        Ok(region)
    }
}

/// The region as large as the diagram lets it be: of each quantity all values if that may be, and else value by value.
fn raised(sought: &Sought, effort: &mut Effort, region: &Region) -> Result<Region, Memory> {
    let mut best = copy_of(sought.alloc, region)?;
    let mut quantity: u32 = 0;
    for all in sought.whole.values.as_slice() {
        if best.at(quantity) != *all {
            best = widened(sought, effort, best, quantity, *all)?;
        }
        quantity = quantity.saturating_add(1);
    }
    raised_by_values(sought, effort, best)
}

/// The region with each further value that the diagram lets a quantity of more than two have.
fn raised_by_values(
    sought: &Sought,
    effort: &mut Effort,
    region: Region,
) -> Result<Region, Memory> {
    let mut best = region;
    let mut quantity: u32 = 0;
    for all in sought.whole.values.as_slice() {
        if best.at(quantity) != *all && all.count(3) == 3 {
            best = raised_at(sought, effort, best, quantity, *all)?;
        }
        quantity = quantity.saturating_add(1);
    }
    Ok(best)
}

/// The region with each further value of a quantity that the diagram lets it have.
fn raised_at(
    sought: &Sought,
    effort: &mut Effort,
    region: Region,
    quantity: u32,
    all: Values,
) -> Result<Region, Memory> {
    let mut best = region;
    for value in 0..MOST_VALUES {
        let own = best.at(quantity);
        if all.has(value) && !own.has(value) {
            best = widened(sought, effort, best, quantity, own.with(value))?;
        }
    }
    Ok(best)
}

/// The regions with the numbers that are not left out, but for one number.
fn others<'a>(
    alloc: Global,
    regions: &'a [Region],
    left_out: &[bool],
    but: usize,
) -> Result<Vec<&'a Region>, Memory> {
    let mut found = Vec::new(alloc);
    let mut number: usize = 0;
    for (region, is_left_out) in regions.iter().zip(left_out) {
        if !*is_left_out && number != but {
            found.push(region)?;
        }
        number = number.saturating_add(1);
    }
    Ok(found)
}

/// Of each region whether it is left out: the others that are not cover it.
fn redundant(
    sought: &Sought,
    effort: &mut Effort,
    regions: &[Region],
) -> Result<Vec<bool>, Memory> {
    let alloc = sought.alloc;
    let mut left_out = Vec::new(alloc);
    for _ in regions {
        left_out.push(false)?;
    }
    let mut number: usize = 0;
    for region in regions {
        let rest = others(alloc, regions, left_out.as_slice(), number)?;
        if is_said(sought, effort, region, rest.as_slice())? {
            if let Some(place) = left_out.get_mut(number) {
                *place = true;
            }
        }
        number = number.saturating_add(1);
    }
    Ok(left_out)
}

/// Whether regions cover one.
fn is_among(
    sought: &Sought,
    effort: &mut Effort,
    region: &Region,
    regions: &[Region],
) -> Result<bool, Memory> {
    let mut found = Vec::new(sought.alloc);
    for other in regions {
        found.push(other)?;
    }
    is_said(sought, effort, region, found.as_slice())
}

/// The regions of the ways of the diagram to true that those before them do not cover, each as large as the diagram lets it be. None where there
/// would be too many, or where it takes too long to find them.
fn primes_of(sought: &Sought, effort: &mut Effort) -> Result<Option<Vec<Region>>, Memory> {
    let alloc = sought.alloc;
    let (variables, whole) = (sought.variables, sought.whole);
    let Some(ways) = ways(alloc, effort, variables, whole, sought.diagram, MOST_WAYS)? else {
        return Ok(None);
    };
    let mut primes: Vec<Region> = Vec::new(alloc);
    for way in ways.as_slice() {
        if !is_among(sought, effort, way, primes.as_slice())? {
            if primes.len() >= MOST_REGIONS || !effort.spend(1) {
                return Ok(None);
            }
            primes.push(raised(sought, effort, way)?)?;
        }
    }
    Ok(Some(primes))
}

/// A cover of a diagram, within a region of all values: regions in which it is true, which together are all at which it is true. None where
/// it would have more than 200 regions, or takes too long to find. The variables say of each number of a variable what it means; those of one
/// quantity follow one another.
pub fn cover_of(
    alloc: Global,
    variables: &[Option<Variable>],
    whole: &Region,
    diagram: &Frozen,
) -> Result<Option<Vec<Region>>, Memory> {
    cover_within(
        alloc,
        variables,
        whole,
        std::slice::from_ref(whole),
        diagram,
    )
}

/// A cover of a diagram as [`cover_of`] gives it, but right at the points of the known regions alone.
pub fn cover_within(
    alloc: Global,
    variables: &[Option<Variable>],
    whole: &Region,
    known: &[Region],
    diagram: &Frozen,
) -> Result<Option<Vec<Region>>, Memory> {
    let sought = Sought {
        alloc,
        variables,
        whole,
        known,
        diagram,
    };
    let mut effort = Effort::new(EFFORT);
    let Some(primes) = primes_of(&sought, &mut effort)? else {
        return Ok(None);
    };
    let left_out = redundant(&sought, &mut effort, primes.as_slice())?;
    Ok(Some(kept_of(alloc, primes, left_out.as_slice())?))
}

/// The regions that are not left out.
fn kept_of(alloc: Global, regions: Vec<Region>, left_out: &[bool]) -> Result<Vec<Region>, Memory> {
    let mut kept = Vec::new(alloc);
    let mut number: usize = 0;
    for region in regions {
        if !left_out.get(number).copied().unwrap_or(false) {
            kept.push(region)?;
        }
        number = number.saturating_add(1);
    }
    Ok(kept)
}
