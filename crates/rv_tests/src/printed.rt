//! Reports by their words, and the texts of them.

use crate::outside::add_bytes;
use rv_base::{Many, Memory, Place, Sites};
use rv_causality::{CauseFault, Quantity};
use rv_invfile::FileFault;
use rv_proofs::{Certificate, LeftReport, Reason, Why};
use rv_run::{Report, text};
use rv_source::SourceFault;
use rv_syntax::TextFault;
use rv_types::NameFault;
use std::alloc::{AllocError, Global};

/// The text of a report that is told by its words, as `safe`, `toolong 7`, `typeclash 47`, `toolarge labels 4001`,
/// `cycle 2.3 4.0.17`, `outgrown 64 2` or `badnumber 5 1`.
pub fn printed(alloc: Global, words: &str) -> Result<Option<String>, Memory> {
    let (name, rest) = words.split_once(' ').unwrap_or((words, ""));
    let Some(report) = report_in(alloc, name, rest)? else {
        return Ok(None);
    };
    let shown = text(alloc, &report)?;
    let mut told = String::new(alloc);
    add_bytes(shown.as_bytes(), &mut told)?;
    Ok(Some(told))
}

/// A report by its name, and what it tells.
fn report_in(alloc: Global, name: &str, rest: &str) -> Result<Option<Report>, AllocError> {
    if let Some(report) = plain_report(alloc, name, rest) {
        return Ok(Some(report));
    }
    if let Some(report) = replay_report(alloc, name, rest)? {
        return Ok(Some(report));
    }
    if let Some(reason) = reason_in(alloc, name, rest)? {
        return Ok(Some(Report::Rejected(reason)));
    }
    match fault_in(alloc, name, rest)? {
        Some(fault) => Ok(Some(Report::Refused(fault))),
        None => Ok(None),
    }
}

/// A report on a trace.
fn replay_report(alloc: Global, name: &str, rest: &str) -> Result<Option<Report>, AllocError> {
    let (first, second) = rest.split_once(' ').unwrap_or((rest, ""));
    let Ok(number) = first.parse::<u32>() else {
        return Ok(None);
    };
    let report = match name {
        "falsified" => Some(Report::Falsified(number)),
        "assertion" => place_in(alloc, second)?.map(|place| Report::AssertionFails(number, place)),
        "outgrown" => place_in(alloc, second)?.map(|place| Report::Outgrown(number, place)),
        _ => file_fault(name, number, second).map(|fault| Report::BadFile(fault)),
    };
    Ok(report)
}

/// A reason by its name, its numbers and its valuation, as `noinitial 01`, `uncovered 1 10010` or `multipliers 1 2 0`.
fn reason_in(alloc: Global, name: &str, rest: &str) -> Result<Option<Reason>, AllocError> {
    if name == "noinitial" {
        return Ok(Some(Reason::NoInitial(word_in(alloc, rest)?)));
    }
    let (first, rest) = rest.split_once(' ').unwrap_or((rest, ""));
    let Ok(location) = first.parse::<u32>() else {
        return Ok(None);
    };
    if name == "uncovered" {
        return Ok(Some(Reason::Uncovered(location, word_in(alloc, rest)?)));
    }
    let (second, rest) = rest.split_once(' ').unwrap_or((rest, ""));
    let Ok(entry) = second.parse::<u32>() else {
        return Ok(None);
    };
    Ok(match name {
        "unsettled" => Some(Reason::Unsettled(location, entry)),
        "inclusion" => Some(Reason::Inclusion(location, entry)),
        "observer" => Some(Reason::Observer(location, entry, word_in(alloc, rest)?)),
        "target" => Some(Reason::Target(location, entry, word_in(alloc, rest)?)),
        "multipliers" => match rest.parse::<u32>() {
            Ok(number) => Some(Reason::Multipliers(location, entry, number)),
            Err(_) => None,
        },
        _ => None,
    })
}

/// A valuation by its digits.
fn word_in(alloc: Global, digits: &str) -> Result<Many<bool>, AllocError> {
    let mut word = Many::new(alloc);
    for digit in digits.bytes() {
        word.push(digit == b'1')?;
    }
    Ok(word)
}

/// A fault of a file.
fn file_fault(name: &str, record: u32, rest: &str) -> Option<FileFault> {
    match name {
        "notrecords" => Some(FileFault::NotRecords(record)),
        "wrongkind" => Some(FileFault::WrongKind(record)),
        "wrongprogram" => Some(FileFault::WrongProgram(record)),
        "badnumber" => Some(FileFault::BadNumber(record, rest.parse::<u32>().ok()?)),
        "ends" => Some(FileFault::Ends(record)),
        _ => None,
    }
}

/// A report that is no refusal, and none on a trace but that its replay never ends.
fn plain_report(alloc: Global, name: &str, rest: &str) -> Option<Report> {
    match name {
        "safe" => Some(Report::Safe(Certificate {
            locations: Many::new(alloc),
        })),
        "unknown" => Some(Report::Unknown(LeftReport {
            partition: Certificate {
                locations: Many::new(alloc),
            },
            left: Many::new(alloc),
            why: Why::Stuck,
        })),
        "nodes" => Some(Report::Nodes(rest.parse::<u32>().ok()?)),
        "toolong" => Some(Report::TooLong(rest.parse::<u64>().ok()?)),
        "neverfalse" => Some(Report::NeverFalse),
        "accepted" => Some(Report::Accepted),
        "toured" => toured_report(alloc, rest),
        "readfault" => Some(Report::ReadFault),
        "usage" => Some(Report::Usage),
        "memory" => Some(Report::Memory),
        _ => None,
    }
}

/// The report on a tour, by its number of calls and the length of its source.
fn toured_report(alloc: Global, numbers: &str) -> Option<Report> {
    let (count, length) = numbers.split_once(' ')?;
    Some(Report::Toured {
        count: count.parse::<u32>().ok()?,
        length: length.parse::<u64>().ok()?,
        certificate: Certificate {
            locations: Many::new(alloc),
        },
    })
}

/// A fault by its name, and what it tells.
fn fault_in(alloc: Global, name: &str, rest: &str) -> Result<Option<SourceFault>, AllocError> {
    match name {
        "nonode" => return Ok(Some(SourceFault::Names(NameFault::NoNode))),
        "cycle" => return cycle_in(alloc, rest),
        "toolarge" => return Ok(quantity_fault(rest)),
        _ => {}
    }
    match rest.parse::<u32>() {
        Ok(at) => Ok(fault_at(name, at)),
        Err(_) => Ok(None),
    }
}

/// A fault at an offset.
fn fault_at(name: &str, at: u32) -> Option<SourceFault> {
    match text_fault_at(name, at) {
        Some(fault) => Some(SourceFault::Text(fault)),
        None => match name {
            "recursive" => Some(SourceFault::Cause(CauseFault::Recursive(at))),
            "toowide" => Some(SourceFault::Cause(CauseFault::TooWide(at))),
            _ => name_fault_at(name, at).map(|fault| SourceFault::Names(fault)),
        },
    }
}

fn text_fault_at(name: &str, at: u32) -> Option<TextFault> {
    match name {
        "badtext" => Some(TextFault::BadText(at)),
        "toodeep" => Some(TextFault::TooDeep(at)),
        "leftout" => Some(TextFault::LeftOut(at)),
        _ => None,
    }
}

fn name_fault_at(name: &str, at: u32) -> Option<NameFault> {
    match name {
        "unknownname" => Some(NameFault::UnknownName(at)),
        "definedtwice" => Some(NameFault::DefinedTwice(at)),
        "undefined" => Some(NameFault::Undefined(at)),
        "typeclash" => Some(NameFault::TypeClash(at)),
        "nonlinear" => Some(NameFault::Nonlinear(at)),
        "clockclash" => Some(NameFault::ClockClash(at)),
        "notobserver" => Some(NameFault::NotObserver(at)),
        _ => None,
    }
}

/// A quantity that is too large, and its number.
fn quantity_fault(rest: &str) -> Option<SourceFault> {
    let (name, number) = rest.split_once(' ')?;
    let quantity = match name {
        "instances" => Quantity::Instances,
        "expanded" => Quantity::Expanded,
        "memories" => Quantity::Memories,
        "inputs" => Quantity::Inputs,
        "labels" => Quantity::Labels,
        "variables" => Quantity::Variables,
        _ => return None,
    };
    let number = number.parse::<u64>().ok()?;
    Some(SourceFault::Cause(CauseFault::TooLarge(quantity, number)))
}

/// A cycle by its places, whose sites stand between full stops.
fn cycle_in(alloc: Global, rest: &str) -> Result<Option<SourceFault>, AllocError> {
    let mut places = Many::new(alloc);
    for word in rest.split_whitespace() {
        match place_in(alloc, word)? {
            Some(place) => places.push(place)?,
            None => return Ok(None),
        }
    }
    Ok(Some(SourceFault::Cause(CauseFault::Cycle(places))))
}

fn place_in(alloc: Global, word: &str) -> Result<Option<Place>, AllocError> {
    let mut numbers = Vec::new(alloc);
    for part in word.split('.') {
        match part.parse::<u32>() {
            Ok(number) => numbers.push(number)?,
            Err(_) => return Ok(None),
        }
    }
    let sites = Sites::from_slice(alloc, &numbers)?;
    Ok(Some(Place { sites }))
}
