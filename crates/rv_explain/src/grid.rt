//! The values of flows as a table: a row a flow, a column an instant.

use crate::flows::put_value;
use crate::played::Played;
use crate::table::{WIDTH, put_table};
use rv_base::{Memory, Value};
use rv_flat::Flat;
use std::alloc::Global;

/// The most columns of a name.
const NAME: usize = 40;

/// The widths of a block: of its names, and of the others.
const MOST: [usize; 1] = [NAME];

/// Adds the values of the chosen flows at the instants that are shown, in blocks of as many instants as go into a line.
pub fn put_grid(
    alloc: Global,
    text: &mut String,
    flat: &Flat,
    chosen: &[u32],
    names: &[String],
    played: &Played,
) -> Result<(), Memory> {
    let first = first_shown(played);
    if first > 0 {
        write!(text, "The instants before {first} are left out.\n\n")?;
    }
    let mut block: Vec<Vec<String>> = Vec::new(alloc);
    let start = widest(names).min(NAME);
    let mut width = start;
    let mut number = first;
    for row in played.shown.iter() {
        let column = column_of(alloc, flat, chosen, number, row.as_slice())?;
        let wide = widest(column.as_slice()).saturating_add(2);
        if width.saturating_add(wide) > WIDTH && !block.is_empty() {
            put_block(alloc, text, names, block.as_slice())?;
            text.push('\n')?;
            block.clear();
            width = start;
        }
        block.push(column)?;
        width = width.saturating_add(wide);
        number = number.saturating_add(1);
    }
    if !block.is_empty() {
        put_block(alloc, text, names, block.as_slice())?;
        text.push('\n')?;
    }
    Ok(())
}

/// The number of the first instant that is shown.
fn first_shown(played: &Played) -> usize {
    let count = match &played.last {
        Some(_) => played.at.saturating_add(1),
        None => played.at,
    };
    count.saturating_sub(played.shown.len())
}

/// How many columns the longest text takes.
fn widest(texts: &[String]) -> usize {
    let mut most = 0;
    for text in texts {
        most = text.len().max(most);
    }
    most
}

/// The texts of an instant: its number, and what each chosen flow has.
fn column_of(
    alloc: Global,
    flat: &Flat,
    chosen: &[u32],
    number: usize,
    row: &[Option<Value>],
) -> Result<Vec<String>, Memory> {
    let mut column = Vec::new(alloc);
    column.push(format!(in alloc; "{number}")?)?;
    for (flow, value) in chosen.iter().zip(row) {
        let mut text = String::new(alloc);
        if let (Some(value), Some(flow)) = (value, flat.flows.get(*flow as usize)) {
            put_value(&mut text, flat, flow.kind, *value)?;
        }
        column.push(text)?;
    }
    Ok(column)
}

/// Adds the lines of some instants.
fn put_block(
    alloc: Global,
    text: &mut String,
    names: &[String],
    block: &[Vec<String>],
) -> Result<(), Memory> {
    let mut rows = Vec::new(alloc);
    rows.push(line_of(alloc, "", block, 0)?)?;
    let mut number: usize = 1;
    for name in names {
        rows.push(line_of(alloc, name.as_str(), block, number)?)?;
        number = number.saturating_add(1);
    }
    put_table(alloc, text, rows.as_slice(), MOST.as_slice())
}

/// The texts of a line: its name, and what stands in it at each instant.
fn line_of(
    alloc: Global,
    name: &str,
    block: &[Vec<String>],
    number: usize,
) -> Result<Vec<String>, Memory> {
    let mut line = Vec::new(alloc);
    line.push(String::from_str(alloc, name)?)?;
    for column in block {
        let cell = match column.get(number) {
            Some(cell) => cell.as_str(),
            None => "",
        };
        line.push(String::from_str(alloc, cell)?)?;
    }
    Ok(line)
}
