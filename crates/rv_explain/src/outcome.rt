//! How a trace ends, and which parts of the observer or of an assertion are false there.

use crate::conjuncts::{Part, Read, Search, reads_of};
use crate::evaluate::{Moment, shown};
use crate::expression::put_expression;
use crate::flows::{put_flow_name, put_value};
use crate::played::{Ending, Played};
use crate::sites::Item;
use crate::table::{joined, put_wrapped};
use crate::trace::Told;
use rv_base::{Memory, Place, Value};
use rv_flat::{Flat, FlatExpr, FlatForm};
use rv_tree::{Expr, ExprForm};
use rv_types::Kind;

/// The last instant of a trace, and the search for what is false there.
#[derive(Clone, Copy)]
pub struct Ended<'a, 'b> {
    /// The instant.
    pub moment: &'b Moment<'a>,
    /// The search.
    pub search: Search<'a, 'b>,
}

/// Adds how a trace ends, with the parts that are false at its last instant.
pub fn put_outcome(
    told: &Told,
    text: &mut String,
    ended: Option<&Ended>,
    played: &Played,
) -> Result<(), Memory> {
    let at = played.at;
    match &played.ending {
        Ending::Falsified => {
            write!(text, "At instant {at} the observer is false:\n")?;
            match ended {
                Some(ended) => put_parts(told, text, ended, &ended.search.false_in_observer()?),
                None => Ok(()),
            }
        }
        Ending::AssertionFails(place) => {
            write!(text, "At instant {at} an assertion is false")?;
            text.push_str(", so the trace is none of a run:\n")?;
            match ended {
                Some(ended) => put_assertion(told, text, ended, place),
                None => Ok(()),
            }
        }
        Ending::Outgrown(place) => {
            write!(text, "At instant {at} the integer of ")?;
            told.names.put_place(text, told.main, &place.sites)?;
            text.push_str(" leaves the range from -2^63 to 2^63 - 1.\n")?;
            Ok(())
        }
        Ending::NeverFalse => put_never(text, at),
    }
}

/// Adds that the observer is true at each of so many instants.
fn put_never(text: &mut String, count: usize) -> Result<(), Memory> {
    match count {
        0 => text.push_str("There is no instant.\n")?,
        1 => text.push_str("The observer is true at the one instant.\n")?,
        _ => write!(
            text,
            "The observer is true at each of the {count} instants.\n"
        )?,
    }
    Ok(())
}

/// What an assertion assumes where its clock is there: a flat one is a choice between that and true.
fn assumed(flat: &FlatExpr) -> &FlatExpr {
    match &flat.form {
        FlatForm::If(_, body, _) => body.get(),
        _ => flat,
    }
}

/// The assertion at a place, with its flat expression.
fn assertion_at<'a>(search: &Search<'a, '_>, place: &Place) -> Option<(Part<'a>, &'a FlatExpr)> {
    let node = search.names.node_of(search.main, place.sites.front())?;
    let Item::Assertion(assertion) = search.names.node(node)?.item(place.sites.last()?)? else {
        return None;
    };
    for flat in search.flat.assertions.as_slice() {
        if flat.at == *place {
            let part = Part {
                e: &assertion.body,
                node,
                near: &flat.at,
                flow: None,
            };
            return Some((part, assumed(flat)));
        }
    }
    None
}

/// Adds the parts of an assertion that are false.
fn put_assertion(
    told: &Told,
    text: &mut String,
    ended: &Ended,
    place: &Place,
) -> Result<(), Memory> {
    match assertion_at(&ended.search, place) {
        Some((part, body)) => put_parts(told, text, ended, &ended.search.false_parts(part, body)?),
        None => Ok(()),
    }
}

/// Adds parts that are false, each with where it stands and what the flows have that it reads.
fn put_parts<'a>(
    told: &Told,
    text: &mut String,
    ended: &Ended<'a, '_>,
    parts: &Vec<Part<'a>>,
) -> Result<(), Memory> {
    for part in parts.as_slice() {
        put_part(told, text, ended.moment.flat, 2, part)?;
        put_values(told, text, ended.moment, part)?;
    }
    Ok(())
}

/// Adds a part at an indent, and where it stands.
pub fn put_part(
    told: &Told,
    text: &mut String,
    flat: &Flat,
    indent: usize,
    part: &Part,
) -> Result<(), Memory> {
    let mut line = String::new(told.alloc);
    if let Some(number) = part.flow {
        put_flow_name(&mut line, told.names, told.main, flat, number)?;
        line.push_str(" = ")?;
    }
    put_expression(&mut line, part.e)?;
    put_wrapped(text, indent, line.as_str())?;
    let mut place = String::new(told.alloc);
    write!(place, "line {}", told.lines.spot(part.e.at).line)?;
    let calls = part.near.sites.front();
    if !calls.is_empty() {
        place.push_str(", in ")?;
        let _ = told.names.put_path(&mut place, told.main, calls)?;
    }
    put_wrapped(text, indent.saturating_add(2), place.as_str())
}

/// Adds what the flows have that a part reads at the instant, and what its `pre` and `current` have.
fn put_values(told: &Told, text: &mut String, moment: &Moment, part: &Part) -> Result<(), Memory> {
    let mut line = String::new(told.alloc);
    for read in reads_of(told.alloc, told.names, moment.flat, part)? {
        let mut value = String::new(told.alloc);
        if put_read(told, &mut value, moment, &read)? {
            if !line.is_empty() {
                line.push_str(", ")?;
            }
            line.push_str(joined(told.alloc, value.as_str())?.as_str())?;
        }
    }
    if !line.is_empty() {
        put_wrapped(text, 4, line.as_str())?;
    }
    Ok(())
}

/// Adds what is read with its value, and answers whether it has one.
fn put_read(told: &Told, text: &mut String, moment: &Moment, read: &Read) -> Result<bool, Memory> {
    let flat = moment.flat;
    let (kind, value) = match read {
        Read::Flow(number) => {
            put_flow_name(text, told.names, told.main, flat, *number)?;
            (flow_kind(flat, *number), moment.flow(*number))
        }
        Read::Kept(e, number) => {
            put_expression(text, e)?;
            (memory_kind(flat, *number), kept_value(moment, e, *number))
        }
    };
    match value {
        Some(value) => {
            text.push_str(" = ")?;
            put_value(text, flat, kind, value)?;
            Ok(true)
        }
        None => Ok(false),
    }
}

/// The type of a flow.
fn flow_kind(flat: &Flat, number: u32) -> Kind {
    match flat.flows.get(number as usize) {
        Some(flow) => flow.kind,
        None => Kind::Bool,
    }
}

/// The type of a memory.
fn memory_kind(flat: &Flat, number: u32) -> Kind {
    match flat.memories.get(number as usize) {
        Some(memory) => memory.kind,
        None => Kind::Bool,
    }
}

/// What a `pre` or `current` of a memory has.
fn kept_value(moment: &Moment, e: &Expr, number: u32) -> Option<Value> {
    match &e.form {
        ExprForm::Current(_) => shown(moment, number),
        _ => moment.before.kept.get(number as usize).copied(),
    }
}
