//! The clocks of the flows and expressions of a node whose names are right.

ghost use Rattle.std.specs.Prelude.{◌≡◌, ◌<◌, ◌^◌, [], length, is_some, map, IfOk, IfSome};
ghost use Rattle.rv_tree.specs.Places.{flows, is_flow, site_of};
ghost use Rattle.rv_tree.specs.Bounded.{IsBounded};
ghost use Rattle.rv_tree.specs.Tree.{node_tree, program_tree, tree_of, trees};
ghost use Rattle.rv_types.specs.Clocks.{clock_at, pace, pace_of_all};
ghost use Rattle.rv_types.specs.Known.{flow_names};
ghost use Rattle.rv_types.specs.Names.{name_faults, repeated};
ghost use Rattle.rv_types.specs.Timings.{HaveFlows, IsTiming};
ghost use Rattle.rv_types.specs.ToldPaces as told;
ghost use Rattle.rv_types.specs.ToldPaces.{IsTimed};

use crate::chains::clock_of_site;
use crate::clocks::clocks_of;
use crate::fault::Pace;
use crate::names::flows_of;
use crate::pacing::pace_of;
use crate::space::Space;
use crate::timing::Timing;
use crate::told_paces::{told_by, told_by_all};
use crate::typed::Clock;
use rv_base::{Many, Memory, Text};
use rv_tree::{Expr, Node, Program};
use std::alloc::Global;

/// A node with the names and the clocks of its flows, in the order of their sites.
#[derive(Drop)]
pub struct NodeClocks<'a> {
    pub node: &'a Node,
    flows: Space,
    clocks: Vec<Clock>,
    ghost reads: { IsTiming (node_tree node.now) flows clocks.items },
}

/// The clocks of a node, whose flows have different names.
pub fn node_clocks<'a>(alloc: Global, node: &'a Node) -> Result<NodeClocks<'a>, Memory>
    requires different { repeated [] (flow_names (node_tree node.now)) ≡ [] }
    requires few { length (flows (node_tree node.now)) < 2 ^ 32 }
    ensures { IfOk result (λ c. c.node.now ≡ node.now) }
{
    let flows = flows_of(alloc, node)?.space;
    let clocks = clocks_of(alloc, &flows, node)?;
    Ok(NodeClocks {
        node,
        flows,
        clocks,
    })
}

impl<'a> NodeClocks<'a> {
    /// The site of the flow of a name, none for another name.
    pub fn site(&self, name: &Text) -> Option<u32>
        ensures found { is_some result ≡ is_flow (node_tree self.now.node.now) name.now }
        ensures site { IfSome result (λ k. k ≡ site_of (node_tree self.now.node.now) name.now) }
        ensures within { IfSome result (λ k. k < length (flows (node_tree self.now.node.now))) }
    {
        match self.flows.number(name) {
            None => None,
            Some(number) => Some(number as u32),
        }
    }

    /// The clock of the flow at a site.
    pub fn clock_at(&self, site: u32) -> Clock
        ensures { result ≡ clock_at (node_tree self.now.node.now) site }
    {
        clock_of_site(self.clocks.as_slice(), site as usize)
    }

    /// The clock of the flow of a name, the base clock for another name.
    pub fn clock_of(&self, name: &Text) -> Clock
        ensures { result ≡ clock_at (node_tree self.now.node.now) (site_of (node_tree self.now.node.now) name.now) }
    {
        clock_of_site(self.clocks.as_slice(), self.flows.index(name))
    }

    /// The pace of an expression of the node.
    pub fn pace(&self, e: &Expr) -> Pace
        ensures { result ≡ pace (node_tree self.now.node.now) (tree_of e.now) }
    {
        pace_of(&self.timing(), e).pace
    }

    /// The pace of an expression of the node whose clocks are right. Its first operand that has a clock tells it.
    pub fn told_pace(&self, e: &Expr) -> Pace
        // What is answered is the pace of the whole expression.
        ensures whole { IsTimed (pace (node_tree self.now.node.now) (tree_of e.now)) → result ≡ pace (node_tree self.now.node.now) (tree_of e.now) }
        ensures told { result ≡ told.told_pace (node_tree self.now.node.now) (tree_of e.now) }
    {
        told_by(&self.timing(), e)
    }

    /// The same of the arguments of a call together.
    pub fn told_pace_of_arguments(&self, arguments: &[Expr]) -> Pace
        ensures whole { IsTimed (pace_of_all (node_tree self.now.node.now) (trees (map tree_of arguments.now)))
            → result ≡ pace_of_all (node_tree self.now.node.now) (trees (map tree_of arguments.now)) }
        ensures told { result ≡ told.told_pace_of_all (node_tree self.now.node.now) (trees (map tree_of arguments.now)) }
    {
        told_by_all(&self.timing(), arguments)
    }

    /// The node with the tables of its flows.
    pub(crate) fn timing<'b>(&'b self) -> Timing<'b>
        ensures { result.node.now ≡ self.now.node.now }
    {
        Timing {
            node: self.node,
            flows: &self.flows,
            clocks: self.clocks.as_slice(),
        }
    }
}

/// The clocks of all nodes of a program whose names are right, in order.
pub fn program_clocks<'a>(alloc: Global, p: &'a Program) -> Result<Many<NodeClocks<'a>>, Memory>
    requires bounded { IsBounded (program_tree p.now) }
    requires names { name_faults (program_tree p.now) ≡ [] }
    ensures { IfOk result (λ all. map (λ c. c.node.now) all ≡ p.now.nodes) }
{
    clocks_of_nodes(alloc, p.nodes.as_slice())
}

fn clocks_of_nodes<'a>(alloc: Global, nodes: &'a [Node]) -> Result<Many<NodeClocks<'a>>, Memory>
    requires { HaveFlows (map node_tree nodes.now) }
    ensures { IfOk result (λ all. map (λ c. c.node.now) all ≡ nodes.now) }
{
    let mut all = Many::new(alloc);
    for node in nodes {
        all.push(node_clocks(alloc, node)?)?;
    }
    Ok(all)
}
