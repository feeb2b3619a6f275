//! The text on what an analysis has where it neither proves nor refutes: its partition, and what is not shown of it.

ghost use Rattle.std.specs.Prelude.{◌≤◌, length};
ghost use Rattle.rv_agreement.specs.Agreement.{IsWell};
ghost use Rattle.rv_flat.specs.FlatInstants.{system_of};

use crate::badfile::file_fault;
use crate::explaining::DOCUMENT_LIMIT;
use crate::formula::Scene;
use crate::invariant::{
    MOST_LOCATIONS, MOST_STEPS, known_in, put_head, put_location, put_steps, vocabulary_of,
};
use crate::known::Known;
use crate::observed::unobserved;
use crate::possible::Atoms;
use crate::record::{Record, first_of};
use crate::request::Answer;
use crate::table::put_wrapped;
use crate::trace::Told;
use crate::unshown::Unshown;
use rv_base::{Many, Memory};
use rv_flat::Flat;
use rv_flatten::flatten;
use rv_instances::Source;
use rv_invariant::read_certificate;
use rv_invfile::FileFault;
use rv_proofs::{LeftReport, Location, Why};
use std::alloc::Global;

/// The first record of an invariant file, behind which the records from `main` on are read.
const FIRST: &[u8] = b"reaver,invariant,1\n";

/// How many records an unknown document has more than the invariant file that is made of it.
const MORE: u32 = 2;

/// The most locations of a partition.
const MOST: u32 = 4_096;

/// What stands before the names of the program: why nothing more was split, and the numbers of the locations that are left; and the bytes
/// behind that.
#[derive(Drop)]
struct Head<'d> {
    why: Why,
    left: Many<u32>,
    rest: &'d [u8],
}

/// Why nothing more was split, by the second record.
fn why_in(record: &Record) -> Result<Why, FileFault> {
    if record.field(0) != "why" {
        return Err(FileFault::WrongKind(1));
    }
    match (record.field(1), record.count()) {
        ("stuck", 2) => Ok(Why::Stuck),
        ("locations", 3) => match record.number(2) {
            Some(count) => if count <= MOST {
                Ok(Why::Locations(count))
            } else {
                Err(FileFault::BadNumber(1, 2))
            },
            None => Err(FileFault::BadNumber(1, 2)),
        },
        _ => Err(FileFault::WrongKind(1)),
    }
}

/// The numbers of the locations that are left, by the third record: there is one, they rise, and each is below the most.
fn left_in(alloc: Global, record: &Record) -> Result<Many<u32>, FileFault> {
    if record.field(0) != "left" || record.count() < 2 {
        return Err(FileFault::WrongKind(2));
    }
    let mut left = Many::new(alloc);
    let mut least: u32 = 0;
    let mut field: u32 = 1;
    for place in 1..record.count() {
        match record.number(place) {
            Some(number) => if least <= number && number < MOST {
                left.push(number)?;
                least = number.saturating_add(1);
            } else {
                return Err(FileFault::BadNumber(2, field));
            },
            None => return Err(FileFault::BadNumber(2, field)),
        }
        field = field.saturating_add(1);
    }
    Ok(left)
}

/// What stands before the names of the program.
fn head_of(alloc: Global, document: &[u8]) -> Result<Head<'_>, FileFault> {
    let Some((line, rest)) = first_of(document) else {
        return Err(FileFault::Ends(0));
    };
    let first = Record::new(alloc, line)?;
    if first.kind() != "unknown" || first.field(2) != "1" || first.count() != 3 {
        return Err(FileFault::WrongKind(0));
    }
    let Some((line, rest)) = first_of(rest) else {
        return Err(FileFault::Ends(1));
    };
    let why = why_in(&Record::new(alloc, line)?)?;
    let Some((line, rest)) = first_of(rest) else {
        return Err(FileFault::Ends(2));
    };
    let left = left_in(alloc, &Record::new(alloc, line)?)?;
    Ok(Head { why, left, rest })
}

/// A fault of the invariant file that is made of a document, as one of the document.
fn moved(fault: FileFault) -> FileFault {
    match fault {
        FileFault::NotRecords(record) => FileFault::NotRecords(record.saturating_add(MORE)),
        FileFault::WrongKind(record) => FileFault::WrongKind(record.saturating_add(MORE)),
        FileFault::WrongProgram(record) => FileFault::WrongProgram(record.saturating_add(MORE)),
        FileFault::BadNumber(record, field) => {
            FileFault::BadNumber(record.saturating_add(MORE), field)
        }
        FileFault::Ends(count) => FileFault::Ends(count.saturating_add(MORE)),
        FileFault::Memory => FileFault::Memory,
    }
}

/// The field of the third record that names the first location that is not among so many.
fn beyond(left: &[u32], count: usize) -> Option<u32> {
    let mut field: u32 = 1;
    for number in left {
        if *number as usize >= count {
            return Some(field);
        }
        field = field.saturating_add(1);
    }
    None
}

/// What the document of a flat system says.
fn report_in(alloc: Global, flat: &Flat, document: &[u8]) -> Result<LeftReport, FileFault> {
    let Head { why, left, rest } = head_of(alloc, document)?;
    let mut bytes = Vec::from_slice(alloc, FIRST)?;
    bytes.extend_from_slice(rest)?;
    if bytes.len() > DOCUMENT_LIMIT {
        return Err(FileFault::Ends(MORE));
    }
    match read_certificate(alloc, flat, bytes.as_slice()) {
        Ok(partition) => match beyond(left.as_slice(), partition.locations.len()) {
            Some(field) => Err(FileFault::BadNumber(2, field)),
            None => Ok(LeftReport {
                partition,
                left,
                why,
            }),
        },
        Err(fault) => Err(moved(fault)),
    }
}

/// The text on the bytes of an unknown document.
pub fn unknown_text(told: &Told, source: &Source, document: &[u8]) -> Result<Answer, Memory>
    requires short { length document.now ≤ 67108864 }
{
    let flat = flatten(told.alloc, source)?;
    match report_in(told.alloc, &flat, document) {
        Ok(report) => left_text(told, &flat, &report),
        Err(fault) => file_fault(told.alloc, fault),
    }
}

/// The text on the report on a flat system.
fn left_text(told: &Told, flat: &Flat, report: &LeftReport) -> Result<Answer, Memory>
    requires { IsWell (system_of flat.now) }
{
    let vocabulary = vocabulary_of(told, flat)?;
    let scene = Scene {
        alloc: told.alloc,
        flat,
        vocabulary: &vocabulary,
    };
    let atoms = Atoms::new(told.alloc, flat, &vocabulary)?;
    let failing = unobserved(told.alloc, flat)?;
    let unshown = Unshown {
        scene: &scene,
        atoms: &atoms,
        failing: &failing,
    };
    let mut text = String::new(told.alloc);
    put_why(told.alloc, &mut text, report)?;
    text.push('\n')?;
    put_head(&scene, &mut text)?;
    put_locations(told, &unshown, &mut text, report)?;
    Ok(Answer::Explained(text))
}

/// What holds of the comparisons in a partition.
const FREE: &str =
    "Where no inequality speaks of it, a comparison of integers may come out either way there.";

/// Adds why nothing more was split, and which locations are left.
fn put_why(alloc: Global, text: &mut String, report: &LeftReport) -> Result<(), Memory> {
    let mut line = String::from_str(alloc, "Neither proved nor refuted. ")?;
    match report.why {
        Why::Stuck => line.push_str("Each location that is left has one control state.")?,
        Why::Locations(count) => {
            write!(line, "The limit of {count} {} was reached", noun(count))?;
            line.push_str("; ask for more, up to 4,096, by `--locations`.")?;
        }
    }
    put_wrapped(text, 0, line.as_str())?;
    line.clear();
    line.push_str("Left, since it is not shown that the observer is true there: ")?;
    line.push_str(noun(u32::try_from(report.left.len()).unwrap_or(0)))?;
    put_numbers(&mut line, report.left.as_slice())?;
    line.push('.')?;
    put_wrapped(text, 0, line.as_str())?;
    put_wrapped(text, 0, FREE)
}

/// Adds rising numbers, those that follow one another by the first and the last of them.
fn put_numbers(text: &mut String, numbers: &[u32]) -> Result<(), Memory> {
    let mut between = " ";
    let mut run: Option<(u32, u32)> = None;
    for number in numbers {
        match run {
            Some((first, last)) => if last.checked_add(1) == Some(*number) {
                run = Some((first, *number));
            } else {
                put_run(text, between, first, last)?;
                between = ", ";
                run = Some((*number, *number));
            },
            None => run = Some((*number, *number)),
        }
    }
    match run {
        Some((first, last)) => put_run(text, between, first, last),
        None => Ok(()),
    }
}

/// Adds the numbers from the first to the last.
fn put_run(text: &mut String, between: &str, first: u32, last: u32) -> Result<(), Memory> {
    write!(text, "{between}{first}")?;
    if first < last {
        let to = if first.checked_add(1) == Some(last) {
            ", "
        } else {
            " to "
        };
        write!(text, "{to}{last}")?;
    }
    Ok(())
}

/// The word for so many locations.
fn noun(count: u32) -> &'static str {
    if count == 1 { "location" } else { "locations" }
}

/// The numbers of all locations, first those that are left.
fn in_order(alloc: Global, report: &LeftReport) -> Result<Vec<u32>, Memory> {
    let mut order = Vec::from_slice(alloc, report.left.as_slice())?;
    let mut number: u32 = 0;
    for _ in report.partition.locations.as_slice() {
        if !report.left.as_slice().contains(&number) {
            order.push(number)?;
        }
        number = number.saturating_add(1);
    }
    Ok(order)
}

/// Adds the locations, first those that are left.
fn put_locations(
    told: &Told,
    unshown: &Unshown,
    text: &mut String,
    report: &LeftReport,
) -> Result<(), Memory> {
    let alloc = unshown.scene.alloc;
    let nothing = Known::nothing(alloc, unshown.scene.vocabulary)?;
    let order = in_order(alloc, report)?;
    let mut steps = MOST_STEPS;
    for number in order.as_slice().iter().take(MOST_LOCATIONS) {
        if let Some(location) = report.partition.locations.get(*number as usize) {
            let is_left = report.left.as_slice().contains(number);
            put_one(told, unshown, text, location, *number, is_left, &nothing)?;
            if told.asked.entries {
                steps = put_steps(unshown.scene, text, location, *number, steps)?;
            }
        }
    }
    let more = order.len().saturating_sub(MOST_LOCATIONS);
    if more > 0 {
        write!(text, "\nThere are {more} more locations.\n")?;
    }
    Ok(())
}

/// Adds a location, and where it is left what is not shown of it.
fn put_one(
    told: &Told,
    unshown: &Unshown,
    text: &mut String,
    location: &Location,
    number: u32,
    is_left: bool,
    nothing: &Known,
) -> Result<(), Memory> {
    let behind = if is_left { ", left" } else { "" };
    let lead = format!(in unshown.scene.alloc; "Location {number}{behind}: ")?;
    put_location(unshown.scene, text, location, lead.as_str(), nothing)?;
    if is_left {
        let known = known_in(unshown.scene, location)?;
        unshown.put(told, text, location, &known)?;
    }
    Ok(())
}
