//! The words of the command line, read.

ghost use Rattle.std.specs.Prelude.{◌≡◌, ◌≢◌, ◌↔◌, ◌<◌, IfOk, IsErrAnd, IsErrOf, option_and_then, option_map};
ghost use Rattle.clap.specs.Words.{found_of, kind_of, rows_of, subcommand_rows_of};
ghost use Rattle.rv_words.specs.Words.{texts, command, said, asked_by, proving, checking, replaying};

use crate::building::build_reaver;
use crate::command::{Checking, Command, Proving, Replaying};
use crate::values::{count_in, flag_or, limit_or, names_in, value_of};
use clap::error::ErrorKind;
use clap::{ArgMatches, Error};
use rv_base::Memory;
use std::alloc::Global;

/// The most nodes where the words do not say.
const USUAL_NODES: u32 = 4_194_304;

/// The most nodes that the words may ask for.
const MOST_NODES: u32 = 33_554_432;

/// The most locations where the words do not say.
const USUAL_LOCATIONS: u32 = 256;

/// The most locations that the words may ask for.
const MOST_LOCATIONS: u32 = 4_096;

/// The command that the words are, the program's name passed over; none exactly where they are no command. Want of memory alone
/// is an error.
pub fn read_words<'a>(alloc: Global, words: &'a [String]) -> Result<Option<Command<'a>>, Memory>
    ensures read { IfOk result (λ found. option_map said found ≡ command (texts words.now)) }
{
    let reaver = build_reaver(alloc)?;
    read_answer(reaver.try_get_matches_from(words))
}

/// The command that the answer of `clap` on the words is. `Memory` comes exactly where that is an error for want of memory: any other
/// error of the words says that they are no command.
pub fn read_answer<'a>(answer: Result<ArgMatches<'a>, Error>) -> Result<Option<Command<'a>>, Memory>
    ensures memory { IsErrOf result Memory.Memory ↔ IsErrAnd answer.entry (λ error. kind_of error ≡ ErrorKind.OutOfMemory) }
    ensures refused { IsErrAnd answer.entry (λ error. kind_of error ≢ ErrorKind.OutOfMemory) → result ≡ Ok None }
    ensures found { IfOk answer.entry (λ matches. IfOk result (λ found. option_map said found
        ≡ option_and_then (λ named. asked_by named.0 named.1) (subcommand_rows_of matches))) }
{
    match answer {
        Ok(matches) => match matches.subcommand() {
            Some((name, found)) => Ok(asked(name, found)),
            None => Ok(None),
        },
        Err(error) => match error.kind() {
            ErrorKind::OutOfMemory => Err(Memory::Memory),
            _ => Ok(None),
        },
    }
}

/// What the subcommand of this name asks for, with these matches.
fn asked<'a>(name: &str, matches: &ArgMatches<'a>) -> Option<Command<'a>>
    ensures { option_map said result ≡ asked_by name.now (rows_of (found_of matches.now)) }
{
    if name == "prove" {
        read_proving(matches)
    } else if name == "check" {
        read_checking(matches)
    } else if name == "replay" {
        read_replaying(matches)
    } else if name == "make" {
        Some(Command::Make(count_in(matches)?))
    } else if name == "tour" {
        Some(Command::Tour(count_in(matches)?))
    } else {
        None
    }
}

/// What `prove` asks for.
fn read_proving<'a>(matches: &ArgMatches<'a>) -> Option<Command<'a>>
    ensures { option_map said result ≡ proving (rows_of (found_of matches.now)) }
{
    let (file, node) = names_in(matches)?;
    Some(Command::Prove(Proving {
        file,
        node,
        nodes: limit_or(matches, "nodes", USUAL_NODES, MOST_NODES)?,
        locations: limit_or(matches, "locations", USUAL_LOCATIONS, MOST_LOCATIONS)?,
        accelerate: flag_or(matches, "accelerate", true)?,
    }))
}

/// What `check` asks for.
fn read_checking<'a>(matches: &ArgMatches<'a>) -> Option<Command<'a>>
    ensures { option_map said result ≡ checking (rows_of (found_of matches.now)) }
{
    let (file, node) = names_in(matches)?;
    Some(Command::Check(Checking {
        file,
        node,
        invariant: value_of(matches, "invariant")?,
        nodes: limit_or(matches, "nodes", USUAL_NODES, MOST_NODES)?,
    }))
}

/// What `replay` asks for.
fn read_replaying<'a>(matches: &ArgMatches<'a>) -> Option<Command<'a>>
    ensures { option_map said result ≡ replaying (rows_of (found_of matches.now)) }
{
    let (file, node) = names_in(matches)?;
    Some(Command::Replay(Replaying {
        file,
        node,
        trace: value_of(matches, "trace")?,
    }))
}
