//! What an instance is read with while its expressions are made flat.

use crate::numbering::Numbering;
use rv_instances::{Expanded, Reader};
use rv_types::{NamedValues, NodeTables, ProgramTables};

/// An instance, the tables of the program and of the flows of its node, what its names stand for, and the numbers of flows,
/// ticks and memories.
#[derive(Drop)]
pub struct Frame<'a, 'b> {
    pub expanded: &'b Expanded<'a, 'b>,
    pub reader: Reader<'a, 'b>,
    pub tables: &'b ProgramTables,
    pub own: &'b NodeTables,
    pub values: &'b NamedValues<'b>,
    pub numbering: &'b Numbering,
}
