//! Why a source is refused, for who wrote it.

use crate::clashes::{put_clock_clash, put_not_linear, put_type_clash};
use crate::cycle::put_cycle;
use crate::faults::{put_defined_twice, put_no_node, put_not_observer, put_text_fault};
use crate::lines::Lines;
use crate::names::Names;
use crate::refused::Refused;
use crate::request::Asked;
use crate::tokens::put_word;
use rv_base::Memory;
use rv_causality::{CauseFault, Quantity};
use rv_source::SourceFault;
use rv_syntax::{TextFault, parse};
use rv_tree::{Program, SOURCE_LIMIT};
use rv_types::NameFault;
use std::alloc::Global;

/// The text on a refused source: where, in one sentence why, and the line.
pub fn refusal_text(
    alloc: Global,
    asked: &Asked,
    bytes: &[u8],
    fault: &SourceFault,
) -> Result<String, Memory> {
    let lines = Lines::new(alloc, bytes)?;
    let refused = Refused {
        alloc,
        asked,
        lines: &lines,
    };
    let mut text = String::new(alloc);
    match fault {
        SourceFault::Text(fault) => put_text(&refused, &mut text, *fault)?,
        SourceFault::Names(fault) => {
            let program = parsed(alloc, bytes)?;
            put_names(&refused, &mut text, &Names::new(alloc, &program)?, *fault)?;
        }
        SourceFault::Cause(fault) => {
            let program = parsed(alloc, bytes)?;
            put_cause(&refused, &mut text, &Names::new(alloc, &program)?, fault)?;
        }
        SourceFault::Memory => return Err(Memory::Memory),
    }
    Ok(text)
}

/// The tree of a source that has one.
fn parsed(alloc: Global, bytes: &[u8]) -> Result<Program, Memory> {
    if bytes.len() > SOURCE_LIMIT {
        return Err(Memory::Memory);
    }
    match parse(alloc, bytes) {
        Ok(program) => Ok(program),
        Err(_) => Err(Memory::Memory),
    }
}

/// A text that is no program.
fn put_text(refused: &Refused, text: &mut String, fault: TextFault) -> Result<(), Memory> {
    match fault {
        TextFault::BadText(at) | TextFault::TooDeep(at) | TextFault::LeftOut(at) => {
            refused.put_where(text, at)?;
            put_text_fault(refused, text, fault, at)?;
            refused.put_end(text, at)
        }
        TextFault::Memory => Err(Memory::Memory),
    }
}

/// A rule of names, types or clocks.
fn put_names(
    refused: &Refused,
    text: &mut String,
    names: &Names,
    fault: NameFault,
) -> Result<(), Memory> {
    let at = match fault {
        NameFault::NoNode => return put_no_node(refused, text, names),
        NameFault::UnknownName(at)
        | NameFault::DefinedTwice(at)
        | NameFault::Undefined(at)
        | NameFault::TypeClash(at)
        | NameFault::Nonlinear(at)
        | NameFault::ClockClash(at)
        | NameFault::NotObserver(at) => at,
        NameFault::Memory => return Err(Memory::Memory),
    };
    refused.put_where(text, at)?;
    match fault {
        NameFault::UnknownName(_) => {
            put_word(text, refused.lines.rest(at))?;
            text.push_str(" is not declared, or not where it may be used here")?;
        }
        NameFault::DefinedTwice(_) => put_defined_twice(refused, text, names, at)?,
        NameFault::Undefined(_) => {
            put_word(text, refused.lines.rest(at))?;
            text.push_str(" is declared, and no equation gives it")?;
        }
        NameFault::TypeClash(_) => put_type_clash(refused, text, names, at)?,
        NameFault::Nonlinear(_) => put_not_linear(refused, text, names, at)?,
        NameFault::ClockClash(_) => put_clock_clash(refused, text, names, at)?,
        _ => put_not_observer(refused, text, names)?,
    }
    refused.put_end(text, at)
}

/// A rule of recursion, sizes, cycles or weights.
fn put_cause(
    refused: &Refused,
    text: &mut String,
    names: &Names,
    fault: &CauseFault,
) -> Result<(), Memory> {
    match fault {
        CauseFault::Recursive(at) => {
            refused.put_where(text, *at)?;
            text.push_str("this call of ")?;
            put_word(text, refused.lines.rest(*at))?;
            text.push_str(" stands in a node that it reaches by calls, so it would never end")?;
            refused.put_end(text, *at)
        }
        CauseFault::Cycle(places) => put_cycle(refused, text, names, places.as_slice()),
        CauseFault::TooLarge(quantity, number) => {
            let (what, most) = quantity_text(*quantity);
            refused.put_file(text)?;
            write!(text, "{number} ")?;
            text.push_str(what)?;
            write!(text, " are more than {most}")?;
            refused.put_stop(text)
        }
        CauseFault::TooWide(at) => {
            refused.put_where(text, *at)?;
            text.push_str("the numbers of this expression come to more than 2^40")?;
            refused.put_end(text, *at)
        }
        CauseFault::Memory => Err(Memory::Memory),
    }
}

/// What a quantity counts, and how many there may be.
fn quantity_text(quantity: Quantity) -> (&'static str, u32) {
    match quantity {
        Quantity::Instances => ("instances (the main node, and a copy for each call)", 4_000),
        Quantity::Expanded => ("expressions, over all instances,", 200_000),
        Quantity::Memories => ("integer memories (what `pre` and `current` keep)", 64),
        Quantity::Inputs => ("integer inputs of the main node", 64),
        Quantity::Labels => ("labels of an enumeration", 256),
        Quantity::Variables => ("Boolean variables of states, inputs and comparisons", 4_096),
    }
}
