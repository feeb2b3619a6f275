//! What is answered on a whole source: an order of evaluation, or why there is none.

use crate::rows::{fault_text, name_fault_text};
use rv_base::{Memory, Place};
use rv_causality::{CauseFault, Quantity, order};
use rv_instances::{Instance, Order};
use rv_syntax::{SOURCE_LIMIT, parse};
use rv_types::settle;
use std::alloc::Global;

/// The most instances whose paths are told.
const MOST_TOLD: usize = 12;

/// How many instances, expressions and flows a program has, with the paths of its instances where they are few; or the
/// first fault, with its places.
pub fn ordered(alloc: Global, text: &str) -> Result<String, Memory> {
    if text.len() > SOURCE_LIMIT {
        return Err(Memory::Memory);
    }
    match parse(alloc, text.as_bytes()) {
        Ok(program) => match settle(alloc, &program, "m") {
            Ok(typed) => match order(alloc, &program, &typed) {
                Ok(found) => order_text(alloc, &found),
                Err(fault) => cause_text(alloc, fault),
            },
            Err(fault) => name_fault_text(alloc, fault),
        },
        Err(fault) => fault_text(alloc, fault),
    }
}

fn order_text(alloc: Global, found: &Order) -> Result<String, Memory> {
    let count = found.instances.len();
    let flows = found.sequence.len();
    let nodes = found.expanded;
    let mut text = format!(in alloc;
        "ordered {count} instances {nodes} expressions {flows} flows"
    )?;
    if count <= MOST_TOLD {
        text.push_str(":")?;
        for instance in found.instances.as_slice() {
            add_path(alloc, instance, &mut text)?;
        }
    }
    Ok(text)
}

/// Adds the path of an instance, `-` for the main node.
fn add_path(alloc: Global, instance: &Instance, text: &mut String) -> Result<(), Memory> {
    if instance.path.len() == 0 {
        text.push_str(" -")?;
    } else {
        add_sites(alloc, " ", instance.path.as_slice(), text)?;
    }
    Ok(())
}

/// Adds sites, with a mark before them and a full stop between them.
fn add_sites(alloc: Global, front: &str, sites: &[u32], text: &mut String) -> Result<(), Memory> {
    let mut mark = front;
    for site in sites {
        let more = format!(in alloc; "{mark}{site}")?;
        text.push_str(more.as_str())?;
        mark = ".";
    }
    Ok(())
}

/// Adds the sites of a place, with a mark before them and a full stop between them.
pub fn add_place(
    alloc: Global,
    front: &str,
    place: &Place,
    text: &mut String,
) -> Result<(), Memory> {
    add_sites(alloc, front, place.sites.front(), text)?;
    if let Some(last) = place.sites.last() {
        let mark = if place.sites.len() == 1 { front } else { "." };
        let more = format!(in alloc; "{mark}{last}")?;
        text.push_str(more.as_str())?;
    }
    Ok(())
}

pub fn cause_text(alloc: Global, fault: CauseFault) -> Result<String, Memory> {
    match fault {
        CauseFault::Recursive(at) => Ok(format!(in alloc; "recursive {at}")?),
        CauseFault::Cycle(places) => cycle_text(alloc, places.as_slice()),
        CauseFault::TooLarge(quantity, number) => {
            let name = quantity_name(quantity);
            Ok(format!(in alloc; "toolarge {name} {number}")?)
        }
        CauseFault::TooWide(at) => Ok(format!(in alloc; "toowide {at}")?),
        CauseFault::Memory => Err(Memory::Memory),
    }
}

fn cycle_text(alloc: Global, places: &[Place]) -> Result<String, Memory> {
    let mut text = String::from_str(alloc, "cycle")?;
    for place in places {
        add_place(alloc, " ", place, &mut text)?;
    }
    Ok(text)
}

fn quantity_name(quantity: Quantity) -> &'static str {
    match quantity {
        Quantity::Instances => "instances",
        Quantity::Expanded => "expanded",
        Quantity::Memories => "memories",
        Quantity::Inputs => "inputs",
        Quantity::Labels => "labels",
        Quantity::Variables => "variables",
    }
}
