//! What the words ask for.

/// What the words ask for.
#[derive(Clone, Copy, Debug)]
pub enum Command<'a> {
    /// To prove a node.
    Prove(Proving<'a>),
    /// To check an invariant file for a node.
    Check(Checking<'a>),
    /// To replay a trace of a node.
    Replay(Replaying<'a>),
    /// To make a source of this many calls in a chain.
    Make(u32),
    /// To make such a source and to prove its main node.
    Tour(u32),
}

/// A node to prove.
#[derive(Clone, Copy, Debug)]
pub struct Proving<'a> {
    /// The name of the file with the source.
    pub file: &'a str,
    /// The name of the node.
    pub node: &'a str,
    /// The most nodes of decision diagrams, from 1 to 33,554,432.
    pub nodes: u32,
    /// The most locations, from 1 to 4,096.
    pub locations: u32,
    /// Whether loops are accelerated.
    pub accelerate: bool,
}

/// An invariant file to check.
#[derive(Clone, Copy, Debug)]
pub struct Checking<'a> {
    /// The name of the file with the source.
    pub file: &'a str,
    /// The name of the node.
    pub node: &'a str,
    /// The name of the invariant file.
    pub invariant: &'a str,
    /// The most nodes of decision diagrams, from 1 to 33,554,432.
    pub nodes: u32,
}

/// A trace to replay.
#[derive(Clone, Copy, Debug)]
pub struct Replaying<'a> {
    /// The name of the file with the source.
    pub file: &'a str,
    /// The name of the node.
    pub node: &'a str,
    /// The name of the file with the trace.
    pub trace: &'a str,
}
