//! The words of the command line.

use clap::error::ErrorKind;
use clap::{Arg, ArgAction, ArgMatches, Command};
use rv_base::Memory;
use std::alloc::Global;

/// What the words ask for a text on.
#[derive(Clone, Copy, Debug)]
pub struct Asking<'a> {
    /// The name of the file with the source.
    pub file: &'a str,
    /// The name of the node.
    pub node: &'a str,
    /// The name of the file with the document.
    pub document: Option<&'a str>,
    /// Whether the table of a trace has all flows.
    pub all: bool,
    /// Whether the text of an invariant has its steps.
    pub entries: bool,
}

/// What the words come to.
#[derive(Drop)]
pub enum Wanted<'a> {
    /// A text is asked for.
    Text(Asking<'a>),
    /// Help is asked for.
    Help(String),
    /// They are not known.
    Refused(String),
}

/// The command that the words are read by.
fn command<'a>(alloc: Global) -> Result<Command<'a>, Memory> {
    let command = Command::new(alloc, "reaver-explain")
        .about(
            "Tells why a Lustre source is refused, where things stand in it, or what a document about it says",
        )
        .arg(word(alloc, "file", "The source, - for standard input").required(true))?
        .arg(word(alloc, "node", "The main node").required(true))?
        .arg(word(
            alloc,
            "document",
            "A trace or an invariant file, - for standard input",
        ))?
        .arg(flag(alloc, "all", "Show all flows of a trace"))?
        .arg(flag(alloc, "entries", "Show the steps of an invariant"))?;
    Ok(command)
}

/// A word by its place.
fn word<'a>(alloc: Global, id: &'a str, help: &'a str) -> Arg<'a> {
    Arg::new(alloc, id).action(ArgAction::Set).help(help)
}

/// A flag by its name.
fn flag<'a>(alloc: Global, id: &'a str, help: &'a str) -> Arg<'a> {
    Arg::new(alloc, id)
        .long(id)
        .action(ArgAction::SetTrue)
        .help(help)
}

/// What the words ask for, the name of the program first. Want of memory alone is an error.
pub fn read_words<'a>(alloc: Global, words: &'a [String]) -> Result<Wanted<'a>, Memory> {
    match command(alloc)?.try_get_matches_from(words) {
        Ok(matches) => asked(alloc, &matches),
        Err(error) => match error.kind() {
            ErrorKind::OutOfMemory => Err(Memory::Memory),
            ErrorKind::DisplayHelp => Ok(Wanted::Help(format!(in alloc; "{error}")?)),
            _ => Ok(Wanted::Refused(format!(in alloc; "{error}")?)),
        },
    }
}

/// What matches ask for.
fn asked<'a>(alloc: Global, matches: &ArgMatches<'a>) -> Result<Wanted<'a>, Memory> {
    match (matches.get_str("file"), matches.get_str("node")) {
        (Some(file), Some(node)) => Ok(Wanted::Text(Asking {
            file,
            node,
            document: matches.get_str("document"),
            all: matches.get_flag("all"),
            entries: matches.get_flag("entries"),
        })),
        _ => Ok(Wanted::Refused(String::from_str(alloc, "a file and a node are wanted")?)),
    }
}
