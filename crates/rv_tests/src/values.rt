//! Values as texts, and from texts. What cannot be read is none.

use rv_base::{Many, Memory, Value};
use std::alloc::Global;

/// The instants in a text, which are separated by semicolons; none where a value cannot be read.
pub fn instants_in(alloc: Global, text: &str) -> Result<Option<Many<Many<Value>>>, Memory> {
    let mut instants = Many::new(alloc);
    for part in text.split(';') {
        match values_in(alloc, part)? {
            Some(values) => instants.push(values)?,
            None => return Ok(None),
        }
    }
    Ok(Some(instants))
}

/// The values in a text, which are separated by spaces; none where one cannot be read.
pub fn values_in(alloc: Global, text: &str) -> Result<Option<Many<Value>>, Memory> {
    let mut values = Many::new(alloc);
    for word in text.split(' ') {
        if word.len() > 0 {
            match value_of(word) {
                Some(value) => values.push(value)?,
                None => return Ok(None),
            }
        }
    }
    Ok(Some(values))
}

/// A value by its text: `t`, `f`, `L` and the number of a label, or an integer.
fn value_of(word: &str) -> Option<Value> {
    match word {
        "t" => Some(Value::Flag(true)),
        "f" => Some(Value::Flag(false)),
        _ => number_of(word),
    }
}

fn number_of(word: &str) -> Option<Value> {
    match word.strip_prefix('L') {
        Some(number) => Some(Value::Label(number.parse::<u32>().ok()?)),
        None => Some(Value::Whole(word.parse::<i128>().ok()?)),
    }
}

/// Adds a value.
pub fn add_value(alloc: Global, value: Value, text: &mut String) -> Result<(), Memory> {
    let more = match value {
        Value::Flag(flag) => String::from_str(alloc, if flag { "t" } else { "f" })?,
        Value::Label(number) => format!(in alloc; "L{number}")?,
        Value::Whole(number) => format!(in alloc; "{number}")?,
    };
    text.push_str(more.as_str())?;
    Ok(())
}
