//! The text on a line that rejects an invariant file, which stands behind it.

ghost use Rattle.std.specs.Prelude.{◌≤◌, length};

use crate::badfile::file_fault;
use crate::duties::duty_of;
use crate::explaining::DOCUMENT_LIMIT;
use crate::formula::{Scene, put_region};
use crate::invariant::{known_in, put_entry, put_rows, vocabulary_of};
use crate::known::Known;
use crate::record::{Record, first_of};
use crate::regions::Region;
use crate::request::Answer;
use crate::rows::row_texts;
use crate::table::put_wrapped;
use crate::trace::Told;
use rv_base::{Many, Memory};
use rv_flat::{Bit, Flat};
use rv_flatten::flatten;
use rv_instances::Source;
use rv_invariant::read_certificate;
use rv_proofs::{Certificate, Entry, EntryKind, Location};
use rv_rows::Row;
use std::alloc::Global;

/// The text on a line that rejects the invariant file behind it.
pub fn rejected_text(told: &Told, source: &Source, document: &[u8]) -> Result<Answer, Memory>
    requires short { length document.now ≤ 67108864 }
{
    let Some((line, file)) = first_of(document) else {
        return wanting(told.alloc);
    };
    if first_of(file).is_none() || file.len() > DOCUMENT_LIMIT {
        return wanting(told.alloc);
    }
    let flat = flatten(told.alloc, source)?;
    match read_certificate(told.alloc, &flat, file) {
        Ok(certificate) => reason_text(told, &flat, &certificate, line),
        Err(fault) => file_fault(told.alloc, fault),
    }
}

/// The text on why the certificate of a flat system is rejected.
fn reason_text(
    told: &Told,
    flat: &Flat,
    certificate: &Certificate,
    line: &[u8],
) -> Result<Answer, Memory> {
    let vocabulary = vocabulary_of(told, flat)?;
    let scene = Scene {
        alloc: told.alloc,
        flat,
        vocabulary: &vocabulary,
    };
    let line = Record::new(told.alloc, line)?;
    let mut text = String::new(told.alloc);
    put_reason(&scene, &mut text, certificate, &line)?;
    Ok(Answer::Explained(text))
}

/// The file is wanting.
fn wanting(alloc: Global) -> Result<Answer, Memory> {
    let why = "the invariant file is wanted behind the line that rejects it";
    Ok(Answer::Refused(String::from_str(alloc, why)?))
}

/// What fails, in words.
fn sentence(name: &str) -> &'static str {
    match name {
        "noinitial" =>
            "an initial control state is in no location without rows where a run comes in:",
        "uncovered" => "here the assertions hold and no entry tells what happens:",
        "unsettled" =>
            "a test that its proofs name is not present throughout, or a memory has no one form:",
        "observer" => "the observer is false here:",
        "target" => "from here the step does not lead into the location that it names:",
        "multipliers" => "its multipliers do not prove this:",
        "inclusion" => "this row is not proved from the rows where a run comes in:",
        _ => "it is not known what fails:",
    }
}

/// Adds why the certificate is rejected.
fn put_reason(
    scene: &Scene,
    text: &mut String,
    certificate: &Certificate,
    line: &Record,
) -> Result<(), Memory> {
    let name = line.field(3);
    if name == "noinitial" {
        text.push_str(sentence(name))?;
        text.push('\n')?;
        return put_point(scene, text, line.field(4), true);
    }
    let number = line.number(4);
    let location = number.and_then(|number| certificate.locations.get(number as usize));
    let (Some(number), Some(location)) = (number, location) else {
        text.push_str("the line is not of this file\n")?;
        return Ok(());
    };
    write!(text, "Location {number}")?;
    if name == "uncovered" || name == "inclusion" {
        text.push_str(": ")?;
        text.push_str(sentence(name))?;
        text.push('\n')?;
        return put_of_location(scene, text, location, line, name);
    }
    put_of_entry(scene, text, certificate, location, line, number)
}

/// Whether a variable is of control states.
fn is_of_state(bit: &Bit) -> bool {
    matches!(bit, Bit::MainTick | Bit::Tick(_) | Bit::Kept(_, _))
}

/// The region of a control state, or of a valuation, a digit for each variable.
fn region_of(scene: &Scene, digits: &str, is_state: bool) -> Result<Region, Memory> {
    let mut region = scene.vocabulary.whole(scene.alloc)?;
    let bits = scene.flat.variables.as_slice().iter();
    for ((variable, bit), digit) in scene
        .vocabulary
        .variables
        .as_slice()
        .iter()
        .zip(bits)
        .zip(digits.as_bytes())
    {
        if let (Some(variable), true) = (variable, !is_state || is_of_state(bit)) {
            region.narrow(*variable, *digit == b'1');
        }
    }
    Ok(region)
}

/// Adds a control state, or a valuation, a digit for each variable.
fn put_point(scene: &Scene, text: &mut String, digits: &str, is_state: bool) -> Result<(), Memory> {
    let region = region_of(scene, digits, is_state)?;
    let nothing = Known::nothing(scene.alloc, scene.vocabulary)?;
    let mut formula = String::new(scene.alloc);
    if !put_region(scene, &mut formula, &region, &nothing)? {
        formula.push_str("always")?;
    }
    put_wrapped(text, 2, formula.as_str())
}

/// Adds what fails of a location.
fn put_of_location(
    scene: &Scene,
    text: &mut String,
    location: &Location,
    line: &Record,
    name: &str,
) -> Result<(), Memory> {
    if name == "uncovered" {
        return put_point(scene, text, line.field(5), false);
    }
    let number = row_number(line, 5);
    let count = location.state.len();
    let own = if number < count {
        number
    } else {
        number.saturating_sub(count)
    };
    put_one_row(scene, text, &location.state, own)?;
    let given = if number < count {
        &location.entry
    } else {
        &location.first
    };
    put_rows(scene, text, 0, "The premises:", given)
}

/// The number of a row in a field, and more than there are where none stands there.
fn row_number(line: &Record, field: usize) -> usize {
    match line.number(field) {
        Some(number) => number as usize,
        None => usize::MAX,
    }
}

/// Adds one row.
fn put_one_row(
    scene: &Scene,
    text: &mut String,
    rows: &Many<Row>,
    number: usize,
) -> Result<(), Memory> {
    if let Some(row) = rows.get(number) {
        let names = scene.vocabulary.columns.as_slice();
        for one in row_texts(scene.alloc, names, std::slice::from_ref(row), &[])? {
            put_wrapped(text, 2, one.as_str())?;
        }
    }
    Ok(())
}

/// Adds what fails of an entry, and the entry.
fn put_of_entry(
    scene: &Scene,
    text: &mut String,
    certificate: &Certificate,
    location: &Location,
    line: &Record,
    own: u32,
) -> Result<(), Memory> {
    let name = line.field(3);
    let number = line.number(5);
    let Some(entry) = number.and_then(|number| location.entries.get(number as usize)) else {
        text.push_str(": the line is not of this file\n")?;
        return Ok(());
    };
    write!(text, ", entry {}: ", number.unwrap_or(0))?;
    text.push_str(sentence(name))?;
    text.push('\n')?;
    let row = row_number(line, 6);
    if name == "multipliers" {
        put_goal(scene, text, certificate, location, entry, row)?;
    } else if name != "unsettled" {
        put_point(scene, text, line.field(6), false)?;
    }
    text.push_str("The entry:\n")?;
    let known = known_in(scene, location)?.telling_all();
    put_entry(scene, text, 2, entry, own, &known)?;
    put_premises(scene, text, location, entry, row)
}

/// Adds the rows from which the row with this number is to be proved, of those that an entry is to prove.
fn put_premises(
    scene: &Scene,
    text: &mut String,
    location: &Location,
    entry: &Entry,
    number: usize,
) -> Result<(), Memory> {
    let premises = "The premises beside those of its condition:";
    let turn = match &entry.kind {
        EntryKind::Loop { .. } => duty_of(location, number),
        _ => None,
    };
    match turn {
        Some((duty, _)) => {
            put_rows(scene, text, 0, premises, duty.given)?;
            match duty.more {
                Some(more) => put_rows(scene, text, 0, "And these:", more),
                None => Ok(()),
            }
        }
        None => put_rows(scene, text, 0, premises, &location.state),
    }
}

/// Adds what the multipliers of an entry are to prove.
fn put_goal(
    scene: &Scene,
    text: &mut String,
    certificate: &Certificate,
    location: &Location,
    entry: &Entry,
    number: usize,
) -> Result<(), Memory> {
    match &entry.kind {
        EntryKind::Go { target, .. } => match certificate.locations.get(*target as usize) {
            Some(into) => {
                put_one_row(scene, text, &into.entry, number)?;
                write!(text, "  at the instant after, in location {target}\n")?;
            }
            None => {}
        },
        EntryKind::Loop { .. } => match duty_of(location, number) {
            Some((duty, own)) => {
                put_one_row(scene, text, duty.rows, own)?;
                put_wrapped(text, 2, duty.when)?;
            }
            None => {}
        },
        EntryKind::Dead(_) => {
            text.push_str("  that no integers meet the premises and the rows of the tests\n")?
        }
    }
    Ok(())
}
