//! The records of a document before those that its reader takes: what kind it is, and what was printed on it.

ghost use Rattle.std.specs.Prelude.{◌≤◌, length};

use rv_base::Memory;
use rv_invfile::Records;
use std::alloc::Global;

/// How many bytes of a record are looked at: none of those that are read so has more.
const MOST_BYTES: usize = 1_048_576;

/// A record in its fields, as the readers of documents take them: a byte order mark before it, and quotes around a field, do not count.
#[derive(Drop)]
pub struct Record<'d> {
    records: Records<'d>,
}

/// The first bytes of a line, as many as are looked at.
fn start_of(line: &[u8]) -> &[u8]
    ensures { length result.now ≤ 67108864 }
{
    if line.len() > MOST_BYTES {
        return &line[..MOST_BYTES];
    }
    line
}

impl<'d> Record<'d> {
    /// The record of a line.
    pub fn new(alloc: Global, line: &'d [u8]) -> Result<Record<'d>, Memory> {
        match Records::new(alloc, start_of(line)) {
            Ok(records) => Ok(Record { records }),
            Err(_) => Err(Memory::Memory),
        }
    }

    /// The field with this number, nothing where there is none, or where it is no text.
    pub fn field(&self, number: usize) -> &str {
        std::str::from_utf8(self.records.field(number)).unwrap_or("")
    }

    /// How many fields it has.
    pub fn count(&self) -> usize {
        self.records.len()
    }

    /// The number in a field, where one stands there as documents write it.
    pub fn number(&self, number: usize) -> Option<u32> {
        number_in(self.field(number))
    }

    /// The word behind `reaver`, nothing where it does not begin with that.
    pub fn kind(&self) -> &str {
        if self.field(0) == "reaver" {
            self.field(1)
        } else {
            ""
        }
    }
}

/// The number that a field is, without a sign or a zero before it.
fn number_in(field: &str) -> Option<u32> {
    let digits = field.as_bytes();
    let is_plain = match digits {
        [first, ..] => *first != b'+' && (*first != b'0' || digits.len() == 1),
        [] => false,
    };
    if is_plain {
        field.parse::<u32>().ok()
    } else {
        None
    }
}

/// A document without the line feeds and carriage returns before its first record.
fn begun(document: &[u8]) -> &[u8] {
    let blank = document
        .iter()
        .take_while(|byte| ends_record(**byte))
        .count();
    if blank <= document.len() {
        &document[blank..]
    } else {
        &[]
    }
}

/// Whether a byte ends a record where it does not stand in quotes.
fn ends_record(byte: u8) -> bool {
    byte == b'\n' || byte == b'\r'
}

/// Where a byte of a record stands.
#[derive(Clone, Copy)]
enum Within {
    /// At the begin of a field.
    Begin,
    /// In a field without quotes, or behind those of one.
    Plain,
    /// In quotes.
    Quoted,
    /// Behind a quote in quotes, which ends them or stands for one.
    Behind,
}

impl Within {
    /// Where the next byte stands; none where this one ends the record.
    fn next(self, byte: u8) -> Option<Within> {
        if matches!(self, Within::Quoted) {
            return Some(if byte == b'"' {
                Within::Behind
            } else {
                Within::Quoted
            });
        }
        match byte {
            b'"' => Some(if matches!(self, Within::Plain) {
                Within::Plain
            } else {
                Within::Quoted
            }),
            b',' => Some(Within::Begin),
            _ => if ends_record(byte) {
                None
            } else {
                Some(Within::Plain)
            },
        }
    }
}

/// How many bytes the record has that a document begins with.
fn length_of(document: &[u8]) -> usize {
    let mut within = Within::Begin;
    let mut count: usize = 0;
    for byte in document {
        match within.next(*byte) {
            Some(next) => within = next,
            None => return count,
        }
        count = count.saturating_add(1);
    }
    count
}

/// A document without a byte order mark before it.
fn unmarked(document: &[u8]) -> &[u8] {
    match document {
        [0xef, 0xbb, 0xbf, rest @ ..] => rest,
        _ => document,
    }
}

/// The bytes of the first record of a document, without a byte order mark before it, and what stands behind it; none where there is no
/// record.
pub fn first_of(document: &[u8]) -> Option<(&[u8], &[u8])> {
    let document = begun(unmarked(document));
    let count = length_of(document);
    if document.is_empty() || count > document.len() {
        return None;
    }
    let (line, rest) = document.split_at(count);
    Some((line, begun(rest)))
}

/// What a document is, by its first record.
#[derive(Clone, Copy, Debug, PartialEq, Eq)]
pub enum Kind {
    /// A trace.
    Trace,
    /// An invariant file.
    Invariant,
    /// What an analysis has that neither proves nor refutes.
    Unknown,
    /// A line that rejects an invariant file.
    Rejected,
    /// A line on a document that is refused.
    BadFile,
    /// A line that the diagrams outgrow their limit.
    Nodes,
    /// A line that was printed on a document.
    Verdict,
    /// Another one.
    Other,
}

/// What a document is.
pub fn kind_of(alloc: Global, document: &[u8]) -> Result<Kind, Memory> {
    match first_of(document) {
        Some((line, _)) => Ok(kind_named(Record::new(alloc, line)?.kind())),
        None => Ok(Kind::Other),
    }
}

/// What a document is whose first record has this word behind `reaver`.
fn kind_named(word: &str) -> Kind {
    match word {
        "trace" => Kind::Trace,
        "invariant" => Kind::Invariant,
        "unknown" => Kind::Unknown,
        "rejected" => Kind::Rejected,
        "badfile" => Kind::BadFile,
        "nodes" => Kind::Nodes,
        "falsified" | "neverfalse" | "assertion" | "outgrown" | "accepted" => Kind::Verdict,
        _ => Kind::Other,
    }
}

/// A document without a line before it that was printed on it.
pub fn behind_verdict(alloc: Global, document: &[u8]) -> Result<&[u8], Memory> {
    match (kind_of(alloc, document)?, first_of(document)) {
        (Kind::Verdict, Some((_, rest))) => Ok(rest),
        _ => Ok(document),
    }
}
