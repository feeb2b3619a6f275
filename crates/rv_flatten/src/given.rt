//! What is known of a program while its flat system is made.

use rv_base::{Many, Place};
use rv_instances::{Expanded, Flow, Giver, Layout};
use rv_types::{Kind, NamedValues, NodeTables, ProgramTables};

/// A program with all its instances, how their flows are numbered, what gives each flow its value, each flow's instance and
/// site, the tables of the program and of the flows of each node, what names stand for, the types of the flows of each node,
/// and an order of evaluation.
#[derive(Drop)]
pub struct Given<'a, 'b> {
    pub expanded: &'b Expanded<'a, 'b>,
    pub layout: &'b Layout,
    pub givers: &'b Many<Giver<'a>>,
    pub flows: &'b Many<Flow>,
    pub tables: &'b ProgramTables,
    pub owns: &'b Many<NodeTables>,
    pub values: &'b NamedValues<'b>,
    pub kinds: &'b Many<Many<Kind>>,
    pub sequence: &'b [Place],
}
