//! What is answered on lists, texts, boxes, sites and traces: each call on them once and more. What cannot be read has
//! no answer.

use crate::values::{instants_in, values_in};
use rv_base::{Box, Many, Memory, Path, Place, Sites, Text, Trace};
use std::alloc::{AllocError, Global};

/// The answer on a row of one of these kinds:
/// `many`: numbers, and what these calls on the list of them answer, with the list at the end;
/// `text`: a text and another, and how they compare;
/// `box`: a number, and what is read from a box of it;
/// `sites`: sites and others, and what is read from them;
/// `path`: call sites and a site, and what is read from them;
/// `place`: the sites of two places, and whether these are equal;
/// `trace`: the start values and the instants of a trace and of another, and whether they are equal.
pub fn small(alloc: Global, kind: &str, fields: &str) -> Result<Option<String>, Memory> {
    match kind {
        "many" => listed(alloc, fields),
        "text" => read_text(alloc, fields),
        "box" => boxed(alloc, fields),
        "sites" => read_sites(alloc, fields),
        "path" => read_path(alloc, fields),
        "place" => compared_places(alloc, fields),
        "trace" => compared_traces(alloc, fields),
        _ => Ok(None),
    }
}

/// Small numbers with spaces between them.
fn sites_in(alloc: Global, text: &str) -> Result<Option<Vec<u32>>, AllocError> {
    let mut numbers = Vec::new(alloc);
    for word in text.split_whitespace() {
        match word.parse::<u32>() {
            Ok(number) => numbers.push(number)?,
            Err(_) => return Ok(None),
        }
    }
    Ok(Some(numbers))
}

/// Numbers with a space before each.
fn sites_text(alloc: Global, numbers: &[u32]) -> Result<String, AllocError> {
    let mut text = String::new(alloc);
    for number in numbers {
        text.push_str(format!(in alloc; " {number}")?.as_str())?;
    }
    Ok(text)
}

/// A number, or `none`.
fn number_text(alloc: Global, number: Option<u32>) -> Result<String, AllocError> {
    match number {
        Some(number) => format!(in alloc; "{number}"),
        None => String::from_str(alloc, "none"),
    }
}

fn listed(alloc: Global, fields: &str) -> Result<Option<String>, Memory> {
    let Some((numbers, calls)) = fields.split_once('~') else {
        return Ok(None);
    };
    let Some(numbers) = sites_in(alloc, numbers)? else {
        return Ok(None);
    };
    let mut many = Many::new(alloc);
    for number in &numbers {
        many.push(*number)?;
    }
    let mut text = String::new(alloc);
    for call in calls.split(';') {
        let answer = called(alloc, &mut many, call.trim())?;
        text.push_str(answer.as_str())?;
        text.push_str(", ")?;
    }
    let left = Many::from_vec(many.into_vec());
    text.push_str("left:")?;
    text.push_str(sites_text(alloc, left.as_slice())?.as_str())?;
    Ok(Some(text))
}

/// What a call on a list answers.
fn called(alloc: Global, many: &mut Many<u32>, call: &str) -> Result<String, Memory> {
    match call {
        "len" => Ok(format!(in alloc; "{}", many.len())?),
        "is_empty" => Ok(format!(in alloc; "{}", many.is_empty())?),
        "pop" => Ok(number_text(alloc, many.pop())?),
        "clone" => {
            let clone = many.clone()?;
            Ok(format!(in alloc; "{}", clone == *many)?)
        }
        _ => called_with(alloc, many, call),
    }
}

/// What a call with numbers on a list answers: `done` where it answers nothing.
fn called_with(alloc: Global, many: &mut Many<u32>, call: &str) -> Result<String, Memory> {
    let (name, rest) = call.split_once(' ').unwrap_or(("", ""));
    let (first, second) = rest.split_once(' ').unwrap_or((rest, "0"));
    let place = first.parse::<u16>().unwrap_or(0);
    let number = second.parse::<u32>().unwrap_or(0);
    match name {
        "get" => {
            let found = many.get(place as usize);
            return Ok(number_text(alloc, found.copied())?);
        }
        "at" if (place as usize) < many.len() => {
            return Ok(format!(in alloc; "{}", *many.at(place as usize))?);
        }
        "set" if (place as usize) < many.len() => many.set(place as usize, number),
        "push" => many.push(u32::from(place))?,
        "truncate" => many.truncate(place as usize),
        _ => return Ok(String::from_str(alloc, "no call")?),
    }
    Ok(String::from_str(alloc, "done")?)
}

fn read_text(alloc: Global, fields: &str) -> Result<Option<String>, Memory> {
    let Some((one, another)) = fields.split_once('~') else {
        return Ok(None);
    };
    let text = Text::from_str(alloc, one)?;
    let other = Text::from_str(alloc, another)?;
    let clone = text.clone()?;
    let (same, equal) = (clone.is(&text), clone == text);
    let (other_same, other_equal) = (other.is(&text), other == text);
    let (len, read) = (text.len(), text.as_str());
    Ok(Some(format!(in alloc;
        "{read} {len}, clone {same} {equal}, other {other_same} {other_equal}"
    )?))
}

fn boxed(alloc: Global, fields: &str) -> Result<Option<String>, Memory> {
    let Ok(number) = fields.parse::<u32>() else {
        return Ok(None);
    };
    let boxed = Box::new(alloc, number)?;
    let clone = boxed.clone()?;
    let (got, reached, equal) = (*boxed.get(), *boxed, clone == boxed);
    let inner = boxed.into_inner();
    Ok(Some(format!(in alloc; "get {got}, at {reached}, clone {equal}, inner {inner}")?))
}

fn read_sites(alloc: Global, fields: &str) -> Result<Option<String>, Memory> {
    let Some((one, another)) = fields.split_once('~') else {
        return Ok(None);
    };
    let (Some(one), Some(another)) = (sites_in(alloc, one)?, sites_in(alloc, another)?) else {
        return Ok(None);
    };
    let sites = Sites::from_slice(alloc, &one)?;
    let other = Sites::from_slice(alloc, &another)?;
    let mut text = parts_text(alloc, &sites)?;
    let clone = sites.clone()?;
    let (same, equal) = (clone.is(&sites), clone == sites);
    let (other_same, other_equal) = (other.is(&sites), other == sites);
    let order = sites.compare(&other);
    let more = format!(in alloc;
        "clone {same} {equal}, other {other_same} {other_equal} {order:?}"
    )?;
    text.push_str(more.as_str())?;
    Ok(Some(text))
}

/// What is read from a list of sites: its length, its front, its last site and the sites by their places.
fn parts_text(alloc: Global, sites: &Sites) -> Result<String, Memory> {
    let (len, empty) = (sites.len(), sites.is_empty());
    let front = sites_text(alloc, sites.front())?;
    let last = number_text(alloc, sites.last())?;
    let mut text = format!(in alloc; "len {len}, empty {empty}, front{front}, last {last}, get")?;
    for place in 0..sites.len().saturating_add(1) {
        text.push_str(" ")?;
        text.push_str(number_text(alloc, sites.get(place))?.as_str())?;
    }
    text.push_str(", ")?;
    Ok(text)
}

fn read_path(alloc: Global, fields: &str) -> Result<Option<String>, Memory> {
    let Some((calls, site)) = fields.split_once('~') else {
        return Ok(None);
    };
    let (Some(calls), Ok(site)) = (sites_in(alloc, calls)?, site.parse::<u32>()) else {
        return Ok(None);
    };
    let path = Path::from_slice(alloc, &calls)?;
    let clone = path.clone()?;
    let (len, empty) = (path.len(), path.is_empty());
    let copied = sites_text(alloc, clone.as_slice())?;
    let within = Sites::within(&path, site)?;
    let front = sites_text(alloc, within.front())?;
    let last = number_text(alloc, within.last())?;
    Ok(Some(format!(in alloc; "len {len}, empty {empty}, clone{copied}, within{front} {last}")?))
}

fn compared_places(alloc: Global, fields: &str) -> Result<Option<String>, Memory> {
    let Some((one, another)) = fields.split_once('~') else {
        return Ok(None);
    };
    let (Some(one), Some(another)) = (sites_in(alloc, one)?, sites_in(alloc, another)?) else {
        return Ok(None);
    };
    let place = Place {
        sites: Sites::from_slice(alloc, &one)?,
    };
    let other = Place {
        sites: Sites::from_slice(alloc, &another)?,
    };
    let clone = place.clone()?;
    let (equal, other_equal) = (clone == place, other == place);
    Ok(Some(format!(in alloc; "clone {equal}, other {other_equal}")?))
}

/// A trace by its start values and its instants.
fn trace_in(alloc: Global, starts: &str, instants: &str) -> Result<Option<Trace>, Memory> {
    match (values_in(alloc, starts)?, instants_in(alloc, instants)?) {
        (Some(starts), Some(instants)) => Ok(Some(Trace { starts, instants })),
        _ => Ok(None),
    }
}

fn compared_traces(alloc: Global, fields: &str) -> Result<Option<String>, Memory> {
    let mut parts = fields.split('~');
    let (starts, instants) = (parts.next().unwrap_or(""), parts.next().unwrap_or(""));
    let one = trace_in(alloc, starts, instants)?;
    let (starts, instants) = (parts.next().unwrap_or(""), parts.next().unwrap_or(""));
    let another = trace_in(alloc, starts, instants)?;
    match (one, another) {
        (Some(one), Some(another)) => Ok(Some(format!(in alloc; "{}", one == another)?)),
        _ => Ok(None),
    }
}
