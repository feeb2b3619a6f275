//! Sentences on documents that are refused, and on diagrams that outgrow their limit.

use crate::lines::put_shown;
use crate::record::{Record, first_of};
use crate::request::Answer;
use crate::table::put_wrapped;
use crate::trace::Told;
use rv_base::Memory;
use rv_invfile::FileFault;
use std::alloc::Global;

/// An answer that a document is refused, and why.
pub fn file_fault(alloc: Global, fault: FileFault) -> Result<Answer, Memory> {
    let mut text = String::from_str(alloc, "the document is refused")?;
    put_fault(&mut text, fault, "")?;
    Ok(Answer::Refused(text))
}

/// Adds where a document is refused, with how records are counted, and why.
fn put_fault(text: &mut String, fault: FileFault, counted: &str) -> Result<(), Memory> {
    if let Some(record) = record_of(&fault) {
        write!(text, " at record {record}{counted}")?;
    }
    match fault {
        FileFault::Memory => return Err(Memory::Memory),
        FileFault::NotRecords(_) => text.push_str(": it has bytes that no record has")?,
        FileFault::WrongKind(_) => text.push_str(": another kind of record is awaited there")?,
        FileFault::WrongProgram(_) => text.push_str(": it is of another program")?,
        FileFault::BadNumber(_, field) => write!(
            text,
            ": its field {field} has no value that may stand there"
        )?,
        FileFault::Ends(count) => write!(text, ": it ends after {count} records, too early")?,
    }
    Ok(())
}

/// The fault that a line on a refused document names.
fn fault_in(line: &Record) -> Option<FileFault> {
    let record = line.number(4)?;
    match line.field(3) {
        "notrecords" => Some(FileFault::NotRecords(record)),
        "wrongkind" => Some(FileFault::WrongKind(record)),
        "wrongprogram" => Some(FileFault::WrongProgram(record)),
        "badnumber" => Some(FileFault::BadNumber(record, line.number(5)?)),
        "ends" => Some(FileFault::Ends(record)),
        _ => None,
    }
}

/// The number of the record at fault, where there is one.
fn record_of(fault: &FileFault) -> Option<u32> {
    match fault {
        FileFault::NotRecords(record)
        | FileFault::WrongKind(record)
        | FileFault::WrongProgram(record)
        | FileFault::BadNumber(record, _) => Some(*record),
        FileFault::Ends(_) | FileFault::Memory => None,
    }
}

/// The bytes of the record with this number, from 0.
fn record_at(document: &[u8], number: u32) -> Option<&[u8]> {
    let mut ahead = document;
    for _ in 0..number {
        let (_, rest) = first_of(ahead)?;
        ahead = rest;
    }
    let (line, _) = first_of(ahead)?;
    Some(line)
}

/// The text on a line that says why a document is refused, and on the record at fault where the document stands behind it.
pub fn bad_file_text(told: &Told, document: &[u8]) -> Result<Answer, Memory> {
    let alloc = told.alloc;
    let Some((line, file)) = first_of(document) else {
        return unknown_line(alloc);
    };
    let Some(fault) = fault_in(&Record::new(alloc, line)?) else {
        return unknown_line(alloc);
    };
    let record = record_of(&fault);
    let mut sentence = String::from_str(alloc, "The document is refused")?;
    put_fault(&mut sentence, fault, ", counted from 0")?;
    sentence.push('.')?;
    let mut text = String::new(alloc);
    put_wrapped(&mut text, 0, sentence.as_str())?;
    if let Some(record) = record.and_then(|number| record_at(file, number)) {
        put_shown(&mut text, record)?;
    }
    Ok(Answer::Explained(text))
}

/// The text on a line that the diagrams outgrow their limit.
pub fn nodes_text(told: &Told, document: &[u8]) -> Result<Answer, Memory> {
    let alloc = told.alloc;
    let Some((line, _)) = first_of(document) else {
        return unknown_line(alloc);
    };
    let Some(most) = Record::new(alloc, line)?.number(2) else {
        return unknown_line(alloc);
    };
    let mut sentence = String::new(alloc);
    sentence.push_str(
        "Nothing is known: the decision diagrams of the program outgrow their limit of ",
    )?;
    let noun = if most == 1 { "node" } else { "nodes" };
    write!(sentence, "{most} {noun}. ")?;
    sentence.push_str("Allow more by `--nodes`, or observe less at once.")?;
    let mut text = String::new(alloc);
    put_wrapped(&mut text, 0, sentence.as_str())?;
    Ok(Answer::Explained(text))
}

/// The line is none that is known.
fn unknown_line(alloc: Global) -> Result<Answer, Memory> {
    let why = "the line is none that `reaver` prints";
    Ok(Answer::Refused(String::from_str(alloc, why)?))
}
