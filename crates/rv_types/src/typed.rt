//! What is known of a program that meets the rules.

use rv_base::{Many, Value};

/// The type of a flow, constant or expression.
#[derive(Clone, Copy, Debug, PartialEq, Eq)]
pub enum Kind {
    /// A Boolean.
    Bool,
    /// An integer of any size.
    Int,
    /// An enumeration, by the number of its declaration among the program's types, from 0.
    Labels(u32),
}

/// When a flow of a node is present.
#[derive(Clone, Copy, Debug, PartialEq, Eq)]
pub enum Clock {
    /// Wherever the node runs.
    Base,
    /// Where the flow of this site, which is Boolean, is present and true.
    On(u32),
}

/// The types and clocks of all flows of a program, and the values of its constants.
#[derive(Debug, Drop)]
pub struct Typed {
    /// The number of the main node, from 0.
    pub main: u32,
    /// For each node the types of its flows, in the order of their sites.
    pub kinds: Many<Many<Kind>>,
    /// For each node the clocks of its flows, in the order of their sites.
    pub clocks: Many<Many<Clock>>,
    /// The values of the constants, in order. An integer of a weight above 2^40 counts as 2^40 + 1.
    pub constants: Many<Value>,
}
