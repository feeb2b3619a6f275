//! The text on an invariant file.

ghost use Rattle.std.specs.Prelude.{◌≤◌, length};

use crate::badfile::file_fault;
use crate::cover::cover_of;
use crate::formula::{MOST_PARTS, Scene, put_formula};
use crate::known::Known;
use crate::naming::Words;
use crate::regions::Region;
use crate::request::Answer;
use crate::rows::row_texts;
use crate::table::put_wrapped;
use crate::trace::Told;
use crate::vocabulary::Vocabulary;
use rv_base::{Many, Memory};
use rv_flat::Flat;
use rv_flatten::flatten;
use rv_instances::Source;
use rv_invariant::read_certificate;
use rv_proofs::{Certificate, Entry, EntryKind, Location};
use rv_rows::Row;
use rv_types::Kind;

/// How many locations are told.
pub const MOST_LOCATIONS: usize = 200;

/// How many steps are told of all locations.
pub const MOST_STEPS: usize = 500;

/// What is told of all locations.
const WHAT: &str =
    "Before each instant a run is in one of these locations, and its inequalities hold.";

/// What is told of the names of memories.
const PRE: &str = "`pre x` stands for what is kept of x: its last value before the instant.";

/// The text on the bytes of an invariant file.
pub fn invariant_text(told: &Told, source: &Source, document: &[u8]) -> Result<Answer, Memory>
    requires short { length document.now ≤ 67108864 }
{
    let flat = flatten(told.alloc, source)?;
    match read_certificate(told.alloc, &flat, document) {
        Ok(certificate) => described(told, &flat, &certificate),
        Err(fault) => file_fault(told.alloc, fault),
    }
}

/// The text on a certificate of a flat system.
fn described(told: &Told, flat: &Flat, certificate: &Certificate) -> Result<Answer, Memory> {
    let vocabulary = vocabulary_of(told, flat)?;
    let scene = Scene {
        alloc: told.alloc,
        flat,
        vocabulary: &vocabulary,
    };
    let text = certificate_text(&scene, certificate, told.asked.entries)?;
    Ok(Answer::Explained(text))
}

/// The quantities of a flat system.
pub fn vocabulary_of(told: &Told, flat: &Flat) -> Result<Vocabulary, Memory> {
    Vocabulary::new(&Words {
        alloc: told.alloc,
        names: told.names,
        main: told.main,
        flat,
    })
}

/// The text on a certificate: each location with its control states and rows, and with its steps where they are asked for.
fn certificate_text(
    scene: &Scene,
    certificate: &Certificate,
    with_entries: bool,
) -> Result<String, Memory> {
    let mut text = String::new(scene.alloc);
    put_head(scene, &mut text)?;
    let nothing = Known::nothing(scene.alloc, scene.vocabulary)?;
    let mut number: u32 = 0;
    let mut left = MOST_STEPS;
    for location in certificate.locations.as_slice().iter().take(MOST_LOCATIONS) {
        let lead = format!(in scene.alloc; "Location {number}: ")?;
        put_location(scene, &mut text, location, lead.as_str(), &nothing)?;
        if with_entries {
            left = put_steps(scene, &mut text, location, number, left)?;
        }
        number = number.saturating_add(1);
    }
    let count = certificate.locations.len();
    if count > MOST_LOCATIONS {
        write!(
            text,
            "\nThere are {count} locations; of these the first are told.\n"
        )?;
    }
    Ok(text)
}

/// Adds what is told of all locations, and of the names of memories where there are some.
pub fn put_head(scene: &Scene, text: &mut String) -> Result<(), Memory> {
    put_wrapped(text, 0, WHAT)?;
    if !scene.flat.memories.is_empty() {
        put_wrapped(text, 0, PRE)?;
    }
    Ok(())
}

/// Adds the control states of a location behind a lead, and its rows.
pub fn put_location(
    scene: &Scene,
    text: &mut String,
    location: &Location,
    lead: &str,
    nothing: &Known,
) -> Result<(), Memory> {
    text.push('\n')?;
    put_formula(scene, text, 0, lead, &location.control, nothing)?;
    put_bounds(scene, text, location)
}

/// Adds the rows of a location.
fn put_bounds(scene: &Scene, text: &mut String, location: &Location) -> Result<(), Memory> {
    if location.entry.is_empty() && location.state.is_empty() {
        return put_none(scene, text);
    }
    let state = &location.state;
    put_rows_beside(scene, text, "where a run comes in", &location.entry, state)?;
    let first = "after the first turn of its loop";
    put_rows_beside(scene, text, first, &location.first, state)?;
    put_rows_beside(
        scene,
        text,
        "from the first turn on",
        &location.around,
        state,
    )?;
    put_rows(scene, text, 2, "always", state)
}

/// Adds rows of a location that are not among those of all its states, below a heading.
fn put_rows_beside(
    scene: &Scene,
    text: &mut String,
    heading: &str,
    rows: &Many<Row>,
    state: &Many<Row>,
) -> Result<(), Memory> {
    if rows.as_slice() == state.as_slice() {
        return Ok(());
    }
    let names = scene.vocabulary.columns.as_slice();
    let texts = row_texts(scene.alloc, names, rows.as_slice(), state.as_slice())?;
    put_texts(text, 2, heading, texts.as_slice())
}

/// Adds that a location has no rows, where there are integers of which it could have some.
fn put_none(scene: &Scene, text: &mut String) -> Result<(), Memory> {
    let has_integers = scene
        .flat
        .memories
        .as_slice()
        .iter()
        .any(|memory| memory.kind == Kind::Int);
    if has_integers {
        text.push_str("  no inequality\n")?;
    }
    Ok(())
}

/// Adds rows, each on a line of its own below a heading.
pub fn put_rows(
    scene: &Scene,
    text: &mut String,
    indent: usize,
    heading: &str,
    rows: &Many<Row>,
) -> Result<(), Memory> {
    let names = scene.vocabulary.columns.as_slice();
    let texts = row_texts(scene.alloc, names, rows.as_slice(), &[])?;
    put_texts(text, indent, heading, texts.as_slice())
}

/// Adds texts, each on a line of its own below a heading; nothing where there are none.
fn put_texts(
    text: &mut String,
    indent: usize,
    heading: &str,
    texts: &[String],
) -> Result<(), Memory> {
    if texts.is_empty() {
        return Ok(());
    }
    put_wrapped(text, indent, heading)?;
    for row in texts {
        put_wrapped(text, indent.saturating_add(2), row.as_str())?;
    }
    Ok(())
}

/// The regions of the control states of a location, and all where these have no short formula.
fn control_regions(scene: &Scene, location: &Location) -> Result<Vec<Region>, Memory> {
    let alloc = scene.alloc;
    let whole = scene.vocabulary.whole(alloc)?;
    let variables = scene.vocabulary.variables.as_slice();
    let cover = cover_of(alloc, variables, &whole, &location.control)?;
    match cover {
        Some(regions) => if regions.len() <= MOST_PARTS {
            Ok(regions)
        } else {
            Ok(vec![in alloc; whole]?)
        },
        None => Ok(vec![in alloc; whole]?),
    }
}

/// What is known in a location: its control states and rows.
pub fn known_in(scene: &Scene, location: &Location) -> Result<Known, Memory> {
    let within = control_regions(scene, location)?;
    let rows = location.state.as_slice();
    Known::new(scene.alloc, scene.vocabulary, within, rows)
}

/// Adds the steps of the location with this number, no more than are left to be told, and how many cases its rows rule out. It answers how
/// many are left then.
pub fn put_steps(
    scene: &Scene,
    text: &mut String,
    location: &Location,
    own: u32,
    left: usize,
) -> Result<usize, Memory> {
    let entries = location.entries.as_slice();
    if entries.is_empty() {
        put_wrapped(text, 2, "no steps: the assertions hold nowhere here")?;
        return Ok(left);
    }
    let known = known_in(scene, location)?;
    put_wrapped(text, 2, "steps")?;
    let mut count: usize = 0;
    for entry in entries {
        if is_step(entry) {
            if count < left {
                put_entry(scene, text, 4, entry, own, &known)?;
            }
            count = count.saturating_add(1);
        }
    }
    let more = count.saturating_sub(left);
    if more > 0 {
        write!(text, "    and {more} more\n")?;
    }
    let refuted = entries.iter().filter(|entry| is_refuted(*entry)).count();
    if refuted > 0 {
        write!(text, "    cases that no integers meet: {refuted}\n")?;
    }
    Ok(left.saturating_sub(count))
}

/// Whether an entry is a step or a turn of a loop.
pub fn is_step(entry: &Entry) -> bool {
    !matches!(&entry.kind, EntryKind::Dead(_))
}

/// Whether an entry says that its case never comes, with a proof: without one it has no multipliers.
pub fn is_refuted(entry: &Entry) -> bool {
    match &entry.kind {
        EntryKind::Dead(by) => !by.weights.is_empty(),
        _ => false,
    }
}

/// Adds an entry of the location with this number: where it leads, and when.
pub fn put_entry(
    scene: &Scene,
    text: &mut String,
    indent: usize,
    entry: &Entry,
    own: u32,
    known: &Known,
) -> Result<(), Memory> {
    let mut lead = String::new(scene.alloc);
    match &entry.kind {
        EntryKind::Dead(_) => lead.push_str("never: ")?,
        EntryKind::Go { target, .. } => if *target == own {
            lead.push_str("to itself: ")?;
        } else {
            write!(lead, "to {target}: ")?;
        },
        EntryKind::Loop { .. } => lead.push_str("a turn of its loop: ")?,
    }
    put_formula(scene, text, indent, lead.as_str(), &entry.condition, known)
}
