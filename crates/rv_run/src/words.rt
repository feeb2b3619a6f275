//! What the words of the command line ask the program to do.

ghost use Rattle.std.specs.Prelude.{◌≡◌, IfOk, None, Some};
ghost use Rattle.rv_words.specs.Ranges.{HasRanges as AskedRanges};
ghost use Rattle.rv_words.specs.Words.{command, said, texts};
ghost use Rattle.rv_run.specs.Words.{wanted, wanted_by, wanted_of, HasRanges};

use rv_base::Memory;
use rv_words::{Command, numbers_have_ranges, read_words};
use std::alloc::Global;

/// What is done with a document beside the source.
#[derive(Clone, Copy, Debug, PartialEq, Eq)]
pub enum Task {
    /// It is a trace, which is replayed.
    Replay,
    /// It is an invariant file, which is checked.
    Check,
}

/// The document beside the source.
#[derive(Clone, Copy)]
pub struct Beside<'a> {
    /// What is done with it.
    pub task: Task,
    /// The name of its file.
    pub file: &'a str,
}

/// A command on the source in a file: to prove its node, or to do something with a document beside it.
#[derive(Clone, Copy)]
pub struct FileCommand<'a> {
    /// The name of the file with the source.
    pub file: &'a str,
    /// The name of the node.
    pub node: &'a str,
    /// How many nodes the diagrams may have.
    pub nodes: u32,
    /// How many locations a left partition may have, where the node is to be proved.
    pub locations: u32,
    /// Whether loops are accelerated, where the node is to be proved.
    pub accelerate: bool,
    /// The document, none where the node is to be proved.
    pub beside: Option<Beside<'a>>,
}

/// What is to be done.
#[derive(Clone, Copy)]
pub enum Request<'a> {
    /// Something on the source in a file.
    File(FileCommand<'a>),
    /// To show a source of this many calls.
    Make(u32),
    /// To prove that source.
    Tour(u32),
}

/// How many nodes the diagrams may have where the words do not say so.
pub const USUAL_NODES: u32 = 4_194_304;

/// How many locations a left partition may have where the words do not say so.
pub const USUAL_LOCATIONS: u32 = 256;

/// What the words ask for, None exactly where they are no command. `Memory` comes where memory runs out.
pub fn read_request<'a>(alloc: Global, words: &'a [String]) -> Result<Option<Request<'a>>, Memory>
    ensures wanted { IfOk result (λ found. wanted_by found ≡ wanted (texts words.now)) }
    ensures none { IfOk result (λ found. found ≡ None → command (texts words.now) ≡ None) }
    ensures only_none { IfOk result (λ found. command (texts words.now) ≡ None → found ≡ None) }
    ensures ranges { IfOk result HasRanges }
{
    numbers_have_ranges();
    match read_words(alloc, words)? {
        Some(command) => Ok(Some(request_of(command))),
        None => Ok(None),
    }
}

/// What a command asks for.
fn request_of<'a>(command: Command<'a>) -> Request<'a>
    requires ranges { AskedRanges (said command) }
    ensures wanted { wanted_by (Some result) ≡ wanted_of (Some (said command.entry)) }
    ensures ranges { HasRanges (Some result) }
{
    match command {
        Command::Prove(p) => Request::File(FileCommand {
            file: p.file,
            node: p.node,
            nodes: p.nodes,
            locations: p.locations,
            accelerate: p.accelerate,
            beside: None,
        }),
        Command::Check(c) => Request::File(FileCommand {
            file: c.file,
            node: c.node,
            nodes: c.nodes,
            locations: USUAL_LOCATIONS,
            accelerate: true,
            beside: Some(Beside {
                task: Task::Check,
                file: c.invariant,
            }),
        }),
        Command::Replay(r) => Request::File(FileCommand {
            file: r.file,
            node: r.node,
            nodes: USUAL_NODES,
            locations: USUAL_LOCATIONS,
            accelerate: true,
            beside: Some(Beside {
                task: Task::Replay,
                file: r.trace,
            }),
        }),
        Command::Make(n) => Request::Make(n),
        Command::Tour(n) => Request::Tour(n),
    }
}
