//! Diagrams as formulas over names.

use crate::cover::cover_within;
use crate::known::Known;
use crate::regions::{Region, copy_of, shared_of};
use crate::sets::Values;
use crate::table::{joined, put_wrapped};
use crate::vocabulary::{Quantity, Vocabulary, put_value_name};
use rv_base::Memory;
use rv_diagram::Frozen;
use rv_flat::Flat;
use rv_types::Kind;
use std::alloc::Global;

/// How many parts a formula that is shown has at most.
pub const MOST_PARTS: usize = 40;

/// What texts on locations are made over.
#[derive(Clone, Copy)]
pub struct Scene<'b> {
    /// The allocator.
    pub alloc: Global,
    /// The flat system.
    pub flat: &'b Flat,
    /// The quantities that diagrams speak of.
    pub vocabulary: &'b Vocabulary,
}

/// Adds the formula of a diagram behind a lead, at an indent. Of several parts each stands on a line of its own, and first what they share.
/// What is known is left out.
pub fn put_formula(
    scene: &Scene,
    text: &mut String,
    indent: usize,
    lead: &str,
    diagram: &Frozen,
    known: &Known,
) -> Result<(), Memory> {
    let alloc = scene.alloc;
    let whole = scene.vocabulary.whole(alloc)?;
    let variables = scene.vocabulary.variables.as_slice();
    let cover = cover_within(alloc, variables, &whole, known.within.as_slice(), diagram)?;
    put_cover(
        scene,
        text,
        indent,
        lead,
        &cover,
        diagram.nodes.len(),
        known,
    )
}

/// Adds the formula of a cover of a diagram with so many nodes, as [`put_formula`] does.
pub fn put_cover(
    scene: &Scene,
    text: &mut String,
    indent: usize,
    lead: &str,
    cover: &Option<Vec<Region>>,
    count: usize,
    known: &Known,
) -> Result<(), Memory> {
    let mut line = String::from_str(scene.alloc, lead)?;
    match cover {
        Some(regions) => {
            if regions.len() <= MOST_PARTS {
                return put_regions(scene, text, indent, lead, regions.as_slice(), known);
            }
            write!(line, "(a formula of {} parts)", regions.len())?;
        }
        None => {
            write!(
                line,
                "(a diagram of {count} nodes, whose formula is too long)"
            )?;
        }
    }
    put_wrapped(text, indent, line.as_str())
}

/// The regions that are told: all, or where some have integers that meet them, those without the others.
fn told_of(scene: &Scene, regions: &[Region], known: &Known) -> Result<Vec<Region>, Memory> {
    let alloc = scene.alloc;
    let mut told = Vec::new(alloc);
    for region in regions {
        if !known.excludes(alloc, scene.vocabulary, region)? {
            told.push(copy_of(alloc, region)?)?;
        }
    }
    if told.is_empty() {
        for region in regions {
            told.push(copy_of(alloc, region)?)?;
        }
    }
    Ok(told)
}

/// Adds the formula of regions.
fn put_regions(
    scene: &Scene,
    text: &mut String,
    indent: usize,
    lead: &str,
    regions: &[Region],
    known: &Known,
) -> Result<(), Memory> {
    let mut line = String::from_str(scene.alloc, lead)?;
    if regions.is_empty() {
        line.push_str("never")?;
        return put_wrapped(text, indent, line.as_str());
    }
    let told = told_of(scene, regions, known)?;
    let shared = shared_in(scene, told.as_slice())?;
    let parts = part_texts(scene, told.as_slice(), &shared, known)?;
    let is_begun = put_region(scene, &mut line, &shared, known)?;
    if parts.is_empty() {
        if !is_begun {
            line.push_str("always")?;
        }
        return put_wrapped(text, indent, line.as_str());
    }
    line.push_str(if is_begun { ", and one of:" } else { "one of:" })?;
    put_wrapped(text, indent, line.as_str())?;
    for part in parts.as_slice() {
        put_wrapped(text, indent.saturating_add(2), part.as_str())?;
    }
    Ok(())
}

/// What regions share.
fn shared_in(scene: &Scene, regions: &[Region]) -> Result<Region, Memory> {
    let whole = scene.vocabulary.whole(scene.alloc)?;
    shared_of(scene.alloc, &whole, regions)
}

/// The texts of regions without what they share and what is known; none where of one nothing is left.
fn part_texts(
    scene: &Scene,
    regions: &[Region],
    shared: &Region,
    known: &Known,
) -> Result<Vec<String>, Memory> {
    let inner = known.and(scene.alloc, scene.vocabulary, shared)?;
    let mut parts = Vec::new(scene.alloc);
    for region in regions {
        let mut part = String::from_str(scene.alloc, "- ")?;
        if !put_region(scene, &mut part, region, &inner)? {
            return Ok(Vec::new(scene.alloc));
        }
        parts.push(part)?;
    }
    Ok(parts)
}

/// Adds what a region says that is not known, and answers whether there is something.
pub fn put_region(
    scene: &Scene,
    text: &mut String,
    region: &Region,
    known: &Known,
) -> Result<bool, Memory> {
    let told = known.told(scene.alloc, scene.vocabulary, region)?;
    let mut is_begun = false;
    let mut is_passed = false;
    let mut number: usize = 0;
    for (quantity, values) in scene
        .vocabulary
        .quantities
        .as_slice()
        .iter()
        .zip(region.values.as_slice())
    {
        let is_told = told.get(number).copied().unwrap_or(false) && !is_passed;
        is_passed = false;
        number = number.saturating_add(1);
        if is_told {
            if is_begun {
                text.push_str(" and ")?;
            }
            is_begun = true;
            let next = told.get(number).copied().unwrap_or(false);
            is_passed = next && is_equal(quantity, *values, region.values.get(number).copied());
            put_one(scene, text, quantity, *values, is_passed)?;
        }
    }
    Ok(is_begun)
}

/// Adds which values a quantity has, or the equality whose first test it is, without a place to break a line at.
fn put_one(
    scene: &Scene,
    text: &mut String,
    quantity: &Quantity,
    values: Values,
    is_equality: bool,
) -> Result<(), Memory> {
    let mut literal = String::new(scene.alloc);
    if is_equality {
        literal.push_str(quantity.equal.as_str())?;
    } else {
        put_literal(&mut literal, scene.flat, quantity, values)?;
    }
    text.push_str(joined(scene.alloc, literal.as_str())?.as_str())?;
    Ok(())
}

/// Whether a quantity is the first test of an equality, and both its tests are true.
fn is_equal(quantity: &Quantity, values: Values, next: Option<Values>) -> bool {
    match next {
        Some(next) => {
            !quantity.equal.is_empty()
                && !values.has(0)
                && values.has(1)
                && !next.has(0)
                && next.has(1)
        }
        None => false,
    }
}

/// Adds which values a quantity has.
fn put_literal(
    text: &mut String,
    flat: &Flat,
    quantity: &Quantity,
    values: Values,
) -> Result<(), Memory> {
    if quantity.kind == Kind::Bool {
        let name = if values.has(1) {
            quantity.name.as_str()
        } else {
            quantity.opposite.as_str()
        };
        text.push_str(name)?;
        return Ok(());
    }
    text.push_str(quantity.name.as_str())?;
    let outside = Values::below(quantity.count).without(values);
    if values.count(quantity.count) == 1 {
        text.push_str(" = ")?;
        return put_names(text, flat, quantity, values);
    }
    if outside.count(quantity.count) == 1 {
        text.push_str(" <> ")?;
        return put_names(text, flat, quantity, outside);
    }
    text.push_str(" in {")?;
    put_names(text, flat, quantity, values)?;
    text.push('}')?;
    Ok(())
}

/// Adds the names of values, with commas between them.
fn put_names(
    text: &mut String,
    flat: &Flat,
    quantity: &Quantity,
    values: Values,
) -> Result<(), Memory> {
    let mut between = "";
    for value in 0..quantity.count {
        if values.has(value) {
            text.push_str(between)?;
            put_value_name(text, flat, quantity, value)?;
            between = ", ";
        }
    }
    Ok(())
}
