//! Which text is made of a source and a document.

ghost use Rattle.std.specs.Prelude.{◌≤◌, length};
ghost use Rattle.rv_tree.specs.Tree.{program_tree};
ghost use Rattle.rv_tree.specs.Words.{HasPlainNames};

use crate::badfile::{bad_file_text, nodes_text};
use crate::invariant::invariant_text;
use crate::lines::Lines;
use crate::names::Names;
use crate::places::places_text;
use crate::record::{Kind, behind_verdict, kind_of};
use crate::refusal::refusal_text;
use crate::rejected::rejected_text;
use crate::request::{Answer, Asked};
use crate::trace::{Told, trace_text};
use crate::unknown::unknown_text;
use rv_base::Memory;
use rv_instances::Source;
use rv_source::{SourceFault, read_source};
use rv_syntax::{one_tree, plain_names};
use rv_tree::SOURCE_LIMIT;
use std::alloc::Global;

/// The most bytes of a document.
pub const DOCUMENT_LIMIT: usize = 67_108_864;

/// The most bytes of a trace: what is made of a longer one takes more than a gigabyte.
const TRACE_LIMIT: usize = 50_000_000;

/// Why nothing is told of another document.
const OTHER_KIND: &str =
    "the document is no trace, invariant file or unknown document, nor a line on one with it behind";

/// Tells of a source, and of a document about it where there is one, what an engineer wants to know: of a refused source why; of an accepted
/// one its places, or what the document says. A document of a kind that is not explained is refused, and so is a source of more than
/// 1,048,576 bytes.
pub fn explain(
    alloc: Global,
    asked: &Asked,
    source: &[u8],
    document: Option<&[u8]>,
) -> Result<Answer, Memory> {
    one_tree();
    plain_names();
    if source.len() > SOURCE_LIMIT {
        return refused(alloc, "the source has more than 1,048,576 bytes");
    }
    match read_source(alloc, source, asked.node) {
        Ok(read) => explain_accepted(alloc, asked, source, &read, document),
        Err(SourceFault::Memory) => Err(Memory::Memory),
        Err(fault) => Ok(Answer::Explained(refusal_text(alloc, asked, source, &fault)?)),
    }
}

/// An answer that there is no text.
fn refused(alloc: Global, why: &str) -> Result<Answer, Memory> {
    Ok(Answer::Refused(String::from_str(alloc, why)?))
}

/// What is told of an accepted source.
fn explain_accepted(
    alloc: Global,
    asked: &Asked,
    bytes: &[u8],
    source: &Source,
    document: Option<&[u8]>,
) -> Result<Answer, Memory>
    requires plain { HasPlainNames (program_tree source.now.program) }
{
    let names = Names::new(alloc, &source.program)?;
    let lines = Lines::new(alloc, bytes)?;
    let told = Told {
        alloc,
        asked,
        main: source.typed.main,
        names: &names,
        lines: &lines,
    };
    match document {
        None => Ok(Answer::Explained(places_text(alloc, source, &names, &lines)?)),
        Some(document) => explain_document(&told, source, document),
    }
}

/// What is told of a document, by its first record, read in fields as the readers of documents read it.
fn explain_document(told: &Told, source: &Source, document: &[u8]) -> Result<Answer, Memory>
    requires plain { HasPlainNames (program_tree source.now.program) }
{
    let document = behind_verdict(told.alloc, document)?;
    if document.len() > DOCUMENT_LIMIT {
        return refused(told.alloc, "the document has more than 67,108,864 bytes");
    }
    match kind_of(told.alloc, document)? {
        Kind::Trace => if document.len() > TRACE_LIMIT {
            refused(told.alloc, "the trace has more than 50,000,000 bytes")
        } else {
            trace_text(told, source, document)
        },
        Kind::Invariant => invariant_text(told, source, document),
        Kind::Rejected => rejected_text(told, source, document),
        Kind::Unknown => unknown_text(told, source, document),
        Kind::BadFile => bad_file_text(told, document),
        Kind::Nodes => nodes_text(told, document),
        Kind::Verdict | Kind::Other => refused(told.alloc, OTHER_KIND),
    }
}
