//! The names of instances, flows and places, as the source has them.

use crate::expression::put_expression;
use crate::sites::{Item, NodeSites, flow_at};
use indexmap::IndexMap;
use rv_base::{Memory, Sites, Text};
use rv_tree::Program;
use std::alloc::Global;

/// The nodes of a program with their sites, found by their names.
#[derive(Drop)]
pub struct Names<'a> {
    /// The program.
    pub program: &'a Program,
    /// The sites of each node.
    pub nodes: Vec<NodeSites<'a>>,
    numbers: IndexMap<Text, u32>,
}

impl<'a> Names<'a> {
    /// The nodes of a program.
    pub fn new(alloc: Global, program: &'a Program) -> Result<Names<'a>, Memory> {
        let mut nodes = Vec::new(alloc);
        let mut numbers = IndexMap::new(alloc);
        let mut number: u32 = 0;
        for node in program.nodes.as_slice() {
            nodes.push(NodeSites::new(alloc, node)?)?;
            if numbers.get(&node.name.text).is_none() {
                let _ = numbers.insert(node.name.text.clone()?, number)?;
            }
            number = number.saturating_add(1);
        }
        Ok(Names {
            program,
            nodes,
            numbers,
        })
    }

    /// The number of the node of this name.
    pub fn number(&self, name: &Text) -> Option<u32> {
        self.numbers.get(name).copied()
    }

    /// The number of the node with this name, as a word gives it.
    pub fn number_of(&self, name: &str) -> Option<u32> {
        let mut number: u32 = 0;
        for sites in self.nodes.as_slice() {
            if sites.node.name.text.as_str() == name {
                return Some(number);
            }
            number = number.saturating_add(1);
        }
        None
    }

    /// The node with this number.
    pub fn node(&self, number: u32) -> Option<&NodeSites<'a>> {
        self.nodes.get(number as usize)
    }

    /// The number of the node that the call at a site of a node gives, and its number among the calls of that node.
    fn called(&self, node: u32, site: u32) -> Option<(u32, u32)> {
        let (callee, ordinal) = self.node(node)?.call(site)?;
        Some((self.number(callee)?, ordinal))
    }

    /// Adds the name of a node.
    fn put_name(&self, text: &mut String, node: u32) -> Result<(), Memory> {
        if let Some(sites) = self.node(node) {
            text.push_str(sites.node.name.text.as_str())?;
        }
        Ok(())
    }

    /// Adds the path of the instance with these call sites from the main node on, as `main/lift/door`, and answers the number of its
    /// node. Where a node calls another more than once the calls are told apart, as `door#2`.
    pub fn put_path(
        &self,
        text: &mut String,
        main: u32,
        calls: &[u32],
    ) -> Result<Option<u32>, Memory> {
        self.put_name(text, main)?;
        let mut node = main;
        for site in calls {
            let Some((callee, ordinal)) = self.called(node, *site) else {
                return Ok(None);
            };
            text.push('/')?;
            self.put_name(text, callee)?;
            if ordinal > 0 {
                write!(text, "#{ordinal}")?;
            }
            node = callee;
        }
        Ok(Some(node))
    }

    /// The number of the node of the instance with these call sites.
    pub fn node_of(&self, main: u32, calls: &[u32]) -> Option<u32> {
        let mut node = main;
        for site in calls {
            let (callee, _) = self.called(node, *site)?;
            node = callee;
        }
        Some(node)
    }

    /// Adds the path of a place: of a flow as `main/lift/door.open`, of what else stands at a site by its text.
    pub fn put_place(&self, text: &mut String, main: u32, place: &Sites) -> Result<(), Memory> {
        let node = self.put_path(text, main, place.front())?;
        let (Some(node), Some(site)) = (node, place.last()) else {
            return Ok(());
        };
        let Some(sites) = self.node(node) else {
            return Ok(());
        };
        put_site(text, sites, site)
    }

    /// The offset of what stands at a place: of a flow that of its declaration.
    pub fn offset(&self, main: u32, place: &Sites) -> Option<u32> {
        let sites = self.node(self.node_of(main, place.front())?)?;
        let site = place.last()?;
        if let Some((decl, _)) = flow_at(sites.node, site as usize) {
            return Some(decl.name.at);
        }
        match sites.item(site)? {
            Item::Expression(e) => Some(e.at),
            Item::Assertion(assertion) => Some(assertion.at),
        }
    }
}

/// Adds what stands at a site of a node, behind the path of its instance.
fn put_site(text: &mut String, sites: &NodeSites, site: u32) -> Result<(), Memory> {
    if let Some((decl, _)) = flow_at(sites.node, site as usize) {
        text.push('.')?;
        text.push_str(decl.name.text.as_str())?;
        return Ok(());
    }
    text.push_str(": ")?;
    match sites.item(site) {
        Some(Item::Expression(e)) => put_expression(text, e),
        Some(Item::Assertion(assertion)) => {
            text.push_str("assert ")?;
            put_expression(text, &assertion.body)
        }
        None => Ok(()),
    }
}
