//! What is asked for, and what is answered.

/// What is asked for.
#[derive(Clone, Copy, Debug)]
pub struct Asked<'a> {
    /// The name of the source, as it stands before places in it.
    pub file: &'a str,
    /// The name of the main node.
    pub node: &'a str,
    /// Whether the table of a trace has all flows.
    pub all: bool,
    /// Whether the text of an invariant has the steps between its locations.
    pub entries: bool,
}

/// What is answered.
#[derive(Debug, Drop)]
pub enum Answer {
    /// A text for people.
    Explained(String),
    /// Why there is none.
    Refused(String),
}
