//! Nodes whose expressions are read by the tables of their flows.

ghost use Rattle.std.specs.Prelude.{◌≡◌, ◌<◌, [], length, IfOk};
ghost use Rattle.rv_tree.specs.Places.{memory_site as site_of_memory};
ghost use Rattle.rv_tree.specs.Tree.{ProgramTree, node_tree, tree_of};
ghost use Rattle.rv_types.specs.Known.{flow_names};
ghost use Rattle.rv_types.specs.Names.{repeated};
ghost use Rattle.rv_types.specs.Readings.{AreTables};
ghost use Rattle.rv_types.specs.Scopes.{node_scope};
ghost use Rattle.rv_instances.specs.Expanded.{IsKnown, program_of};
ghost use Rattle.rv_instances.specs.Layouts.{node_at};
ghost use Rattle.rv_flatten.specs.NodeReaders.{AreOwnTables, node_read, scope_by, scope_read};

use rv_base::{Many, Memory};
use rv_instances::Expanded;
use rv_tree::{Expr, ExprForm};
use rv_types::{NodeClocks, NodeTables, ProgramTables, node_tables};
use std::alloc::Global;

/// A node with the names and the types of its flows.
#[derive(Drop)]
pub struct NodeReader<'a, 'b> {
    pub clocks: &'b NodeClocks<'a>,
    pub tables: &'b ProgramTables,
    pub own: NodeTables,
}

/// The tables of the flows of each node of a program.
pub fn own_tables(
    alloc: Global,
    expanded: &Expanded,
    tables: &ProgramTables,
) -> Result<Many<NodeTables>, Memory>
    requires known { IsKnown expanded.now }
    requires tables { AreTables (program_of expanded.now) tables.now }
    ensures { IfOk result (AreOwnTables (program_of expanded.now) tables.now) }
{
    let mut owns = Many::new(alloc);
    for clocks in expanded.clocks.as_slice() {
        let own = node_tables(alloc, tables, clocks.node)?;
        owns.push(own)?;
    }
    Ok(owns)
}

/// The tables of the flows of the node of an instance.
pub fn own_at<'c>(
    expanded: &Expanded,
    tables: &ProgramTables,
    owns: &'c Many<NodeTables>,
    instance: u32,
) -> &'c NodeTables
    requires known { IsKnown expanded.now }
    requires owns { AreOwnTables (program_of expanded.now) tables.now owns.now }
    requires within { instance < length expanded.now.instances.now }
    ensures { scope_by tables.now result.now ≡ node_scope (program_of expanded.now) (node_at (program_of expanded.now) expanded.now.instances.now instance) }
{
    let _ = tables;
    owns.at(expanded.instances.at(instance as usize).node as usize)
}

impl<'a, 'b> NodeReader<'a, 'b> {
    /// A node, whose flows have different names.
    pub fn new(
        alloc: Global,
        tables: &'b ProgramTables,
        clocks: &'b NodeClocks<'a>,
    ) -> Result<NodeReader<'a, 'b>, Memory>
        ensures node { IfOk result (λ r. node_read r ≡ node_tree clocks.now.node.now) }
        ensures scope { (p : ProgramTree) → AreTables p tables.now → repeated [] (flow_names (node_tree clocks.now.node.now)) ≡ []
            → IfOk result (λ r. scope_read r ≡ node_scope p (node_tree clocks.now.node.now)) }
    {
        let own = node_tables(alloc, tables, clocks.node)?;
        Ok(NodeReader {
            clocks,
            tables,
            own,
        })
    }

    /// The site of the memory of a `pre` or `current`: that of the flow where its operand is one, and otherwise its own.
    pub fn memory_site(&self, site: Option<u32>, operand: &Expr) -> u32
        ensures { result ≡ site_of_memory (node_read self.now) site (tree_of operand.now) }
    {
        match &operand.form {
            ExprForm::Named(name) => match self.clocks.site(name) {
                Some(flow) => flow,
                None => site.unwrap_or(0),
            },
            _ => site.unwrap_or(0),
        }
    }
}
