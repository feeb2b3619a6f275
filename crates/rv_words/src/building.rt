//! The command that `clap` reads the words by.

ghost use Rattle.std.specs.Prelude.{◌≡◌, IfOk, false};
ghost use Rattle.clap.specs.Words.{app_of, rule_of};
ghost use Rattle.rv_words.specs.Reaver.{option_rule, word_rule, HasShape, prove, check, replay, counted, reaver};

use clap::{Arg, ArgAction, Command};
use std::alloc::{AllocError, Global};

/// The command: one of five subcommands is required.
pub fn build_reaver<'a>(alloc: Global) -> Result<Command<'a>, AllocError>
    ensures { IfOk result (λ c. app_of c ≡ reaver) }
{
    Command::new(alloc, "reaver")
        .subcommand_required(true)
        .subcommand(build_prove(alloc)?)?
        .subcommand(build_check(alloc)?)?
        .subcommand(build_replay(alloc)?)?
        .subcommand(build_counted(alloc, "make")?)?
        .subcommand(build_counted(alloc, "tour")?)
}

/// `prove FILE NODE`, with its three options.
fn build_prove<'a>(alloc: Global) -> Result<Command<'a>, AllocError>
    ensures { IfOk result (λ c. HasShape c prove) }
{
    Command::new(alloc, "prove")
        .arg(word(alloc, "file"))?
        .arg(word(alloc, "node"))?
        .arg(option(alloc, "nodes"))?
        .arg(option(alloc, "locations"))?
        .arg(option(alloc, "accelerate"))
}

/// `check FILE NODE INVARIANT`, with its option.
fn build_check<'a>(alloc: Global) -> Result<Command<'a>, AllocError>
    ensures { IfOk result (λ c. HasShape c check) }
{
    Command::new(alloc, "check")
        .arg(word(alloc, "file"))?
        .arg(word(alloc, "node"))?
        .arg(word(alloc, "invariant"))?
        .arg(option(alloc, "nodes"))
}

/// `replay FILE NODE TRACE`.
fn build_replay<'a>(alloc: Global) -> Result<Command<'a>, AllocError>
    ensures { IfOk result (λ c. HasShape c replay) }
{
    Command::new(alloc, "replay")
        .arg(word(alloc, "file"))?
        .arg(word(alloc, "node"))?
        .arg(word(alloc, "trace"))
}

/// `make N` and `tour N`.
fn build_counted<'a>(alloc: Global, name: &'a str) -> Result<Command<'a>, AllocError>
    ensures { IfOk result (λ c. HasShape c (counted name.entry.now)) }
{
    Command::new(alloc, name).arg(word(alloc, "count"))
}

/// A positional word, which is required.
fn word<'a>(alloc: Global, id: &'a str) -> Arg<'a>
    ensures rule { rule_of result ≡ word_rule id.entry.now }
    ensures local { result.global ≡ false }
{
    Arg::new(alloc, id).required(true).action(ArgAction::Set)
}

/// An option with one value, under its long name.
fn option<'a>(alloc: Global, id: &'a str) -> Arg<'a>
    ensures rule { rule_of result ≡ option_rule id.entry.now }
    ensures local { result.global ≡ false }
{
    Arg::new(alloc, id).long(id).action(ArgAction::Set)
}
