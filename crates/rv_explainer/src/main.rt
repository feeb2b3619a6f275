//! `reaver-explain FILE NODE [DOCUMENT]` tells people why a Lustre source is refused, where things stand in it, or what a document about
//! it says.
#![tactic(auto)]

mod bytes;
mod words;

use crate::bytes::{Bytes, load};
use crate::words::{Asking, Wanted, read_words};
use rv_explain::{Answer, Asked, explain};
use std::alloc::Global;
use std::io;
use std::process::ExitCode;
use std::rt::{Env, Files};

/// The status where there is no text, and its reason stands on standard error.
const NOTHING_TOLD: u8 = 2;

fn main(rt: HostRuntime) -> ExitCode {
    match told(&rt) {
        Ok(()) => ExitCode::from(0),
        Err(_) => ExitCode::from(NOTHING_TOLD),
    }
}

/// Nothing was told, and why not stands on standard error.
#[derive(Drop)]
struct NothingTold;

/// Does what the words ask for. Nothing is told where they are none that are known, where a file cannot be read, and where there is no text.
fn told<R: AllocGlobal + Env + Files + Input + Print + Eprint>(rt: &R) -> Result<(), NothingTold> {
    let words = match words_of(rt) {
        Ok(words) => words,
        Err(_) => return fails(rt, "the words are no texts, or there is no memory"),
    };
    match read_words(rt.alloc(), words.as_slice()) {
        Ok(Wanted::Text(asking)) => explained(rt, &asking),
        Ok(Wanted::Help(text)) => shown(rt, text.as_str()),
        Ok(Wanted::Refused(text)) => fails(rt, text.as_str()),
        Err(_) => fails(rt, "out of memory"),
    }
}

/// The words of the command line.
fn words_of<R: AllocGlobal + Env>(rt: &R) -> io::Result<Vec<String>> {
    Ok(std::env::args(rt)?.collect::<Vec<String>>(rt.alloc())?)
}

/// Shows the text on a source and a document.
fn explained<R: AllocGlobal + Files + Input + Print + Eprint>(
    rt: &R,
    asking: &Asking,
) -> Result<(), NothingTold> {
    let source = match load(rt, asking.file, SOURCE_LIMIT) {
        Bytes::Whole(bytes) => bytes,
        Bytes::TooLong => return fails(rt, "the source has more than 1,048,576 bytes"),
        Bytes::Failed => return fails(rt, "the source cannot be read"),
    };
    let document = match asking.document {
        None => None,
        Some(name) => match load(rt, name, DOCUMENT_LIMIT) {
            Bytes::Whole(bytes) => Some(bytes),
            Bytes::TooLong => return fails(rt, "the document has more than 67,108,864 bytes"),
            Bytes::Failed => return fails(rt, "the document cannot be read"),
        },
    };
    answered(rt, rt.alloc(), asking, &source, &document)
}

/// The most bytes of a source.
const SOURCE_LIMIT: u64 = 1_048_576;

/// The most bytes of a document.
const DOCUMENT_LIMIT: u64 = 67_108_864;

/// Shows the text on these bytes.
fn answered<R: Print + Eprint>(
    rt: &R,
    alloc: Global,
    asking: &Asking,
    source: &Vec<u8>,
    document: &Option<Vec<u8>>,
) -> Result<(), NothingTold> {
    let asked = Asked {
        file: asking.file,
        node: asking.node,
        all: asking.all,
        entries: asking.entries,
    };
    let document = match document {
        Some(bytes) => Some(bytes.as_slice()),
        None => None,
    };
    match explain(alloc, &asked, source.as_slice(), document) {
        Ok(Answer::Explained(text)) => shown(rt, text.as_str()),
        Ok(Answer::Refused(why)) => fails(rt, why.as_str()),
        Err(_) => fails(rt, "out of memory"),
    }
}

/// Shows a text on standard output.
fn shown<R: Print + Eprint>(rt: &R, text: &str) -> Result<(), NothingTold> {
    match rt.print(text) {
        Ok(()) => Ok(()),
        Err(_) => fails(rt, "standard output cannot be written"),
    }
}

/// Tells on standard error why there is no text.
fn fails<R: Eprint>(rt: &R, why: &str) -> Result<(), NothingTold> {
    let _ = eprintln!(rt; "reaver-explain: {why}");
    Err(NothingTold)
}
