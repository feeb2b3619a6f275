//! The clocks of the flows of a node.

ghost use Rattle.std.specs.Prelude.{◌≡◌};
ghost use Rattle.rv_tree.specs.Tree.{node_tree};
ghost use Rattle.rv_tree.specs.Places.{is_flow, site_of};
ghost use Rattle.rv_types.specs.Clocks.{clock_at};
ghost use Rattle.rv_types.specs.Timings.{IsTiming};

use crate::chains::clock_of_site;
use crate::space::Space;
use crate::typed::Clock;
use rv_base::Text;
use rv_tree::Node;

/// A node with the space of its flows and their clocks, in the order of their sites.
#[derive(Drop)]
pub struct Timing<'a> {
    pub node: &'a Node,
    pub flows: &'a Space,
    pub clocks: &'a [Clock],
    ghost reads: { IsTiming (node_tree node.now) flows.now clocks.now },
}

impl<'a> Timing<'a> {
    /// Whether a name is that of a flow.
    pub fn is_flow(&self, name: &Text) -> bool
        ensures { result ≡ is_flow (node_tree self.now.node.now) name.now }
    {
        self.flows.has(name)
    }

    /// The site of a flow.
    pub fn site(&self, name: &Text) -> u32
        ensures { result ≡ site_of (node_tree self.now.node.now) name.now }
    {
        self.flows.index(name) as u32
    }

    /// The clock of the flow at a site.
    pub fn clock_at(&self, site: u32) -> Clock
        ensures { result ≡ clock_at (node_tree self.now.node.now) site }
    {
        clock_of_site(self.clocks, site as usize)
    }
}
