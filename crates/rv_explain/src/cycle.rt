//! Flows that need each other at one instant.

use crate::conjuncts::equation_of;
use crate::names::Names;
use crate::refused::Refused;
use crate::sites::{NodeSites, Role, flow_at, parts};
use crate::table::put_wrapped;
use rv_base::{Memory, Place};
use rv_tree::{Decl, Expr, ExprForm};
use std::alloc::Global;

/// The most flows of a cycle of which it is told whether they need the next one by a clock.
const MOST_CLOCKS: usize = 200;

/// How a flow of a cycle needs the next one.
#[derive(Clone, Copy, Debug, PartialEq, Eq)]
enum Need {
    /// By its right side, or it is not seen how.
    Value,
    /// As its own clock, or as that of its instance.
    Clock,
    /// As the clock of what it reads.
    Read,
}

/// Adds where the first flow of a cycle is declared, and each flow on it by its path with its line.
pub fn put_cycle(
    refused: &Refused,
    text: &mut String,
    names: &Names,
    places: &[Place],
) -> Result<(), Memory> {
    let Some(main) = names.number_of(refused.asked.node) else {
        return Ok(());
    };
    let Some(first) = places.first() else {
        return Ok(());
    };
    let needs = needs_of(refused.alloc, names, main, places)?;
    match names.offset(main, &first.sites) {
        Some(at) => {
            refused.put_where(text, at)?;
            put_sentence(text, needs.as_slice())?;
            refused.put_end(text, at)?;
        }
        None => {
            refused.put_file(text)?;
            put_sentence(text, needs.as_slice())?;
            refused.put_stop(text)?;
        }
    }
    for (place, need) in places.iter().zip(needs.as_slice()) {
        put_flow(refused, text, names, main, place, *need)?;
    }
    let mut again = String::new(refused.alloc);
    names.put_place(&mut again, main, &first.sites)?;
    again.push_str(" again.")?;
    put_wrapped(text, 2, again.as_str())
}

/// For each flow of a cycle how it needs the next one; the last needs the first.
fn needs_of(
    alloc: Global,
    names: &Names,
    main: u32,
    places: &[Place],
) -> Result<Vec<Need>, Memory> {
    let is_short = places.len() <= MOST_CLOCKS;
    let mut needs = Vec::new(alloc);
    for (place, next) in places
        .iter()
        .zip(places.iter().skip(1).chain(places.iter()))
    {
        needs.push(if is_short {
            need_of(alloc, names, main, place, next)?
        } else {
            Need::Value
        })?;
    }
    Ok(needs)
}

/// The sites of the node in which a flow stands, its declaration, and which of the flows of the node it is.
fn flow_of<'n, 'a>(
    names: &'n Names<'a>,
    main: u32,
    place: &Place,
) -> Option<(&'n NodeSites<'a>, &'n Decl, Role)> {
    let sites = names.node(names.node_of(main, place.sites.front())?)?;
    let (decl, role) = flow_at(sites.node, place.sites.last()? as usize)?;
    Some((sites, decl, role))
}

/// How a flow needs another one.
fn need_of(
    alloc: Global,
    names: &Names,
    main: u32,
    place: &Place,
    next: &Place,
) -> Result<Need, Memory> {
    let (calls, around) = (place.sites.front(), next.sites.front());
    let (Some((sites, decl, role)), Some((_, needed, _))) = (
        flow_of(names, main, place),
        flow_of(names, main, next),
    ) else {
        return Ok(Need::Value);
    };
    if around.len() < calls.len() && role != Role::Input {
        return Ok(Need::Clock);
    }
    if around != calls {
        return Ok(Need::Value);
    }
    let name = needed.name.text.as_str();
    if let Some(clock) = &decl.clock {
        if clock.text.as_str() == name {
            return Ok(Need::Clock);
        }
    }
    match equation_of(sites, decl.name.text.as_str()) {
        Some(equation) => Ok(if has_name(alloc, &equation.right, name)? {
            Need::Value
        } else {
            Need::Read
        }),
        None => Ok(Need::Value),
    }
}

/// Whether an expression names a flow as a value.
fn has_name(alloc: Global, e: &Expr, name: &str) -> Result<bool, Memory> {
    for part in parts(alloc, e)? {
        if let ExprForm::Named(own) = &part.form {
            if own.as_str() == name {
                return Ok(true);
            }
        }
    }
    Ok(false)
}

/// Adds a flow of a cycle by its path, with its line, and how it needs the next one.
fn put_flow(
    refused: &Refused,
    text: &mut String,
    names: &Names,
    main: u32,
    place: &Place,
    need: Need,
) -> Result<(), Memory> {
    let mut line = String::new(refused.alloc);
    names.put_place(&mut line, main, &place.sites)?;
    if let Some(at) = names.offset(main, &place.sites) {
        line.push_str(" (")?;
        refused.put_line_number(&mut line, at)?;
        line.push(')')?;
    }
    line.push_str(match need {
        Need::Value => " needs",
        Need::Clock => " is on the clock",
        Need::Read => " reads what is on the clock",
    })?;
    put_wrapped(text, 2, line.as_str())
}

/// Adds what is wrong with flows that need each other so.
fn put_sentence(text: &mut String, needs: &[Need]) -> Result<(), Memory> {
    let is_clocked = needs.iter().any(|need| *need != Need::Value);
    if needs.len() == 1 {
        text.push_str("this flow needs its own value at the same instant")?;
        text.push_str(if is_clocked {
            ", as a clock; another clock is wanted"
        } else {
            "; a `pre` is missing"
        })?;
        return Ok(());
    }
    write!(
        text,
        "{} flows need each other at the same instant",
        needs.len()
    )?;
    text.push_str(if is_clocked {
        ", by a clock too; a `pre` is missing, or another clock is wanted"
    } else {
        "; a `pre` is missing"
    })?;
    Ok(())
}
