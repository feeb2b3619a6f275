//! Where a flow or a memory of a program lies, what it holds, and how a run is told.

use crate::many::Many;
use crate::sites::Sites;

/// Where a flow or a memory lies: the numbers of the call sites from the main node to an instance, and then the
/// number of one site in its node, all counted from 0.
#[derive(Clone, Debug, PartialEq, Eq, Drop)]
pub struct Place {
    /// The call sites, and last the site in the node. Places of one instance share the call sites.
    pub sites: Sites,
}

/// What a flow has at an instant.
#[derive(Clone, Copy, Debug, PartialEq, Eq)]
pub enum Value {
    /// A Boolean.
    Flag(bool),
    /// A label of an enumeration, by its number in the declaration, from 0.
    Label(u32),
    /// A whole number.
    Whole(i128),
}

/// What fixes a run: what the memories start with and what the main node is given.
#[derive(Debug, PartialEq, Eq, Drop)]
pub struct Trace {
    /// One start value for each memory, in the order of their places.
    pub starts: Many<Value>,
    /// For each instant one value for each input of the main node, in order.
    pub instants: Many<Many<Value>>,
}
