//! Which comparisons of a flat system are present at an instant: told from the system alone, by the clock that each stands on.

use crate::causes::add_place;
use rv_base::{Many, Memory, Place, Value};
use rv_flat::{Bit, Flat, FlatExpr, FlatForm};
use std::alloc::Global;

/// A comparison, by its place and the number of the flow of its clock, none for the main node's base clock.
#[derive(Drop)]
struct Compared<'a> {
    at: &'a Place,
    clock: Option<u32>,
}

/// Adds the place of each comparison that has order tests, in their order, with `+` where it is present and `-` where not.
pub fn add_presence(
    alloc: Global,
    flat: &Flat,
    row: &[Option<Value>],
    text: &mut String,
) -> Result<(), Memory> {
    let found = comparisons(alloc, flat)?;
    let mut last = None;
    let mut mark = "";
    for variable in flat.variables.as_slice() {
        if let Bit::Test(place, _) = variable {
            if !is_place(last, place) {
                add_place(alloc, mark, place, text)?;
                text.push_str(if is_present(found.as_slice(), place, row) {
                    "+"
                } else {
                    "-"
                })?;
                mark = " ";
                last = Some(place);
            }
        }
    }
    Ok(())
}

/// Whether the last place is this one.
fn is_place(last: Option<&Place>, place: &Place) -> bool {
    match last {
        Some(last) => last.sites == place.sites,
        None => false,
    }
}

/// Whether a comparison at a place is present.
fn is_present(found: &[Compared], place: &Place, row: &[Option<Value>]) -> bool {
    for compared in found {
        if compared.at.sites == place.sites && is_there(row, compared.clock) {
            return true;
        }
    }
    false
}

/// Whether a clock is there.
fn is_there(row: &[Option<Value>], clock: Option<u32>) -> bool {
    match clock {
        None => true,
        Some(number) => matches!(row.get(number as usize), Some(Some(Value::Flag(true)))),
    }
}

/// All comparisons of a flat system.
fn comparisons<'a>(alloc: Global, flat: &'a Flat) -> Result<Many<Compared<'a>>, Memory> {
    let mut found = Many::new(alloc);
    for flow in flat.flows.as_slice() {
        add_compared(flat, flow.clock, &flow.body, &mut found)?;
    }
    for memory in flat.memories.as_slice() {
        add_compared(flat, memory.clock, &memory.body, &mut found)?;
    }
    for assertion in flat.assertions.as_slice() {
        add_asserted(flat, assertion, &mut found)?;
    }
    Ok(found)
}

/// Adds those of an assertion, which is a choice of its body where its clock is there.
fn add_asserted<'a>(
    flat: &'a Flat,
    assertion: &'a FlatExpr,
    found: &mut Many<Compared<'a>>,
) -> Result<(), Memory> {
    match &assertion.form {
        FlatForm::If(there, body, _) => match there.form {
            FlatForm::Flow(clock) => add_compared(flat, Some(clock), body, found),
            _ => add_compared(flat, None, body, found),
        },
        _ => add_compared(flat, None, assertion, found),
    }
}

/// Adds those of an expression on a clock. What a `current` shows stands in its memory.
#[cycle(compared)]
fn add_compared<'a>(
    flat: &'a Flat,
    clock: Option<u32>,
    e: &'a FlatExpr,
    found: &mut Many<Compared<'a>>,
) -> Result<(), Memory> {
    match &e.form {
        FlatForm::Constant(_)
        | FlatForm::Flow(_)
        | FlatForm::Memory(_)
        | FlatForm::Ticked(_)
        | FlatForm::Input(_)
        | FlatForm::Current(_) => Ok(()),
        FlatForm::Not(operand) | FlatForm::Scale(_, operand) => {
            add_compared(flat, clock, operand, found)
        }
        FlatForm::Binary(_, left, right) => {
            if !e.at.sites.is_empty() {
                found.push(Compared { at: &e.at, clock })?;
            }
            add_compared(flat, clock, left, found)?;
            add_compared(flat, clock, right, found)
        }
        FlatForm::If(condition, first, second) => {
            add_compared(flat, clock, condition, found)?;
            add_compared(flat, clock, first, found)?;
            add_compared(flat, clock, second, found)
        }
        FlatForm::AtMostOne(operands) => add_each(flat, clock, operands.as_slice(), found),
        FlatForm::When(number, operand) => {
            add_compared(flat, clock_of(flat, *number), operand, found)
        }
    }
}

/// Adds those of some expressions on a clock.
#[cycle(compared)]
fn add_each<'a>(
    flat: &'a Flat,
    clock: Option<u32>,
    expressions: &'a [FlatExpr],
    found: &mut Many<Compared<'a>>,
) -> Result<(), Memory> {
    'each: for e in expressions {
        add_compared(flat, clock, e, found)?;
    }
    Ok(())
}

/// The clock of the flow with a number.
fn clock_of(flat: &Flat, number: u32) -> Option<u32> {
    match flat.flows.get(number as usize) {
        Some(flow) => flow.clock,
        None => None,
    }
}
