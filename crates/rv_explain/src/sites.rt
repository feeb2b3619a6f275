//! What stands at each site of a node.

use indexmap::IndexMap;
use rv_base::{Memory, Text};
use rv_tree::{Assertion, Decl, Expr, ExprForm, Node};
use std::alloc::Global;

/// What stands at a site behind those of the flows.
#[derive(Clone, Copy)]
pub enum Item<'a> {
    /// A `pre`, `current`, call or comparison.
    Expression(&'a Expr),
    /// An assertion.
    Assertion(&'a Assertion),
}

/// Which of the flows of a node one is.
#[derive(Clone, Copy, Debug, PartialEq, Eq)]
pub enum Role {
    /// An input.
    Input,
    /// An output.
    Output,
    /// A local flow.
    Local,
}

/// The sites of a node: its flows, and then what stands at each other site. `ordinals` has for a call the number that it has, from 1,
/// among those of the same node, and 0 where it is the only one. `kept` tells of each flow whether a `pre` or `current` reads it.
#[derive(Drop)]
pub struct NodeSites<'a> {
    /// The node.
    pub node: &'a Node,
    /// What stands at the sites behind those of the flows.
    pub items: Vec<Option<Item<'a>>>,
    ordinals: Vec<u32>,
    kept: Vec<bool>,
}

/// The flow of a node with this site.
pub fn flow_at(node: &Node, site: usize) -> Option<(&Decl, Role)> {
    let inputs = node.inputs.as_slice();
    if let Some(decl) = inputs.get(site) {
        return Some((decl, Role::Input));
    }
    let behind = site.checked_sub(inputs.len())?;
    let outputs = node.outputs.as_slice();
    if let Some(decl) = outputs.get(behind) {
        return Some((decl, Role::Output));
    }
    let decl = node
        .locals
        .as_slice()
        .get(behind.checked_sub(outputs.len())?)?;
    Some((decl, Role::Local))
}

/// How many flows a node has.
pub fn count_flows(node: &Node) -> usize {
    let shown = node.inputs.len().saturating_add(node.outputs.len());
    shown.saturating_add(node.locals.len())
}

/// The site of the flow of this name.
pub fn site_of(node: &Node, name: &str) -> Option<usize> {
    let mut site: usize = 0;
    for decls in [&node.inputs, &node.outputs, &node.locals] {
        for decl in decls.as_slice() {
            if decl.name.text.as_str() == name {
                return Some(site);
            }
            site = site.saturating_add(1);
        }
    }
    None
}

/// Adds the operands of an expression, the last first.
pub fn push_operands<'a>(stack: &mut Vec<&'a Expr>, e: &'a Expr) -> Result<(), Memory> {
    match &e.form {
        ExprForm::True | ExprForm::False | ExprForm::Number(_) | ExprForm::Named(_) => {}
        ExprForm::Not(operand)
        | ExprForm::Minus(operand)
        | ExprForm::Pre(operand)
        | ExprForm::Current(operand)
        | ExprForm::When(operand, _) => stack.push(operand.get())?,
        ExprForm::Binary(_, left, right) => {
            stack.push(right.get())?;
            stack.push(left.get())?;
        }
        ExprForm::If(condition, first, second) => {
            stack.push(second.get())?;
            stack.push(first.get())?;
            stack.push(condition.get())?;
        }
        ExprForm::AtMostOne(operands) | ExprForm::Call(_, operands) => {
            for operand in operands.as_slice().iter().rev() {
                stack.push(operand)?;
            }
        }
    }
    Ok(())
}

/// An expression with all that stands in it, each before its operands.
pub fn parts<'a>(alloc: Global, whole: &'a Expr) -> Result<Vec<&'a Expr>, Memory> {
    let mut found = Vec::new(alloc);
    let mut stack = Vec::new(alloc);
    stack.push(whole)?;
    for _ in 0..u64::MAX {
        let Some(e) = stack.pop() else {
            break;
        };
        push_operands(&mut stack, e)?;
        found.push(e)?;
    }
    Ok(found)
}

/// All expressions of a node, those of its equations and then those of its assertions.
pub fn expressions<'a>(alloc: Global, node: &'a Node) -> Result<Vec<&'a Expr>, Memory> {
    let mut found = Vec::new(alloc);
    for equation in node.equations.as_slice() {
        found.append(&mut parts(alloc, &equation.right)?)?;
    }
    for assertion in node.assertions.as_slice() {
        found.append(&mut parts(alloc, &assertion.body)?)?;
    }
    Ok(found)
}

/// Writes down what stands at a site.
fn put_item<'a>(items: &mut Vec<Option<Item<'a>>>, flows: usize, site: u32, item: Item<'a>) {
    if let Some(number) = (site as usize).checked_sub(flows) {
        if let Some(place) = items.get_mut(number) {
            *place = Some(item);
        }
    }
}

/// The flow that a `pre` or `current` reads, where it is one.
pub fn delayed<'a>(e: &'a Expr) -> Option<&'a Expr> {
    match &e.form {
        ExprForm::Pre(operand) | ExprForm::Current(operand) => Some(operand.get()),
        _ => None,
    }
}

/// Of each flow whether a `pre` or `current` reads it.
fn kept_flows(alloc: Global, node: &Node, expressions: &[&Expr]) -> Result<Vec<bool>, Memory> {
    let mut sites = IndexMap::new(alloc);
    let mut kept = Vec::new(alloc);
    let mut site: u32 = 0;
    for decls in [&node.inputs, &node.outputs, &node.locals] {
        for decl in decls.as_slice() {
            let _ = sites.insert(decl.name.text.clone()?, site)?;
            kept.push(false)?;
            site = site.saturating_add(1);
        }
    }
    for e in expressions {
        if let Some(number) = read_by(&sites, e) {
            if let Some(place) = kept.get_mut(number as usize) {
                *place = true;
            }
        }
    }
    Ok(kept)
}

/// The site of the flow that a `pre` or `current` reads.
fn read_by(sites: &IndexMap<Text, u32>, e: &Expr) -> Option<u32> {
    match &delayed(e)?.form {
        ExprForm::Named(name) => sites.get(name).copied(),
        _ => None,
    }
}

/// The node that a call calls.
fn callee_of<'a>(item: &Option<Item<'a>>) -> Option<&'a Text> {
    match item {
        Some(Item::Expression(e)) => match &e.form {
            ExprForm::Call(callee, _) => Some(callee),
            _ => None,
        },
        _ => None,
    }
}

/// How often each node is called.
fn counted(alloc: Global, items: &[Option<Item>]) -> Result<IndexMap<Text, u32>, Memory> {
    let mut counts = IndexMap::new(alloc);
    for item in items {
        if let Some(callee) = callee_of(item) {
            let count: u32 = counts.get(callee).copied().unwrap_or(0);
            let _ = counts.insert(callee.clone()?, count.saturating_add(1))?;
        }
    }
    Ok(counts)
}

/// For each call its number among those of the same node, and 0 where it is the only one.
fn numbered(alloc: Global, items: &[Option<Item>]) -> Result<Vec<u32>, Memory> {
    let whole = counted(alloc, items)?;
    let mut before: IndexMap<Text, u32> = IndexMap::new(alloc);
    let mut numbers = Vec::new(alloc);
    for item in items {
        let mut number = 0;
        if let Some(callee) = callee_of(item) {
            let count = before.get(callee).copied().unwrap_or(0).saturating_add(1);
            let _ = before.insert(callee.clone()?, count)?;
            if whole.get(callee).copied().unwrap_or(0) > 1 {
                number = count;
            }
        }
        numbers.push(number)?;
    }
    Ok(numbers)
}

/// What stands at each site of a node behind those of the flows.
fn items_of<'a>(
    alloc: Global,
    node: &'a Node,
    expressions: &[&'a Expr],
) -> Result<Vec<Option<Item<'a>>>, Memory> {
    let flows = count_flows(node);
    let mut items = Vec::new(alloc);
    for e in expressions {
        if e.site.is_some() {
            items.push(None)?;
        }
    }
    for _ in node.assertions.as_slice() {
        items.push(None)?;
    }
    for e in expressions {
        if let Some(site) = e.site {
            put_item(&mut items, flows, site, Item::Expression(*e));
        }
    }
    for assertion in node.assertions.as_slice() {
        put_item(
            &mut items,
            flows,
            assertion.site,
            Item::Assertion(assertion),
        );
    }
    Ok(items)
}

impl<'a> NodeSites<'a> {
    /// The sites of a node.
    pub fn new(alloc: Global, node: &'a Node) -> Result<NodeSites<'a>, Memory> {
        let expressions = expressions(alloc, node)?;
        let items = items_of(alloc, node, expressions.as_slice())?;
        let kept = kept_flows(alloc, node, expressions.as_slice())?;
        let ordinals = numbered(alloc, items.as_slice())?;
        Ok(NodeSites {
            node,
            items,
            ordinals,
            kept,
        })
    }

    /// What stands at a site behind those of the flows.
    pub fn item(&self, site: u32) -> Option<Item<'a>> {
        let number = (site as usize).checked_sub(count_flows(self.node))?;
        *self.items.get(number)?
    }

    /// The node that the call at a site calls, and its number among the calls of that node, 0 where it is the only one.
    pub fn call(&self, site: u32) -> Option<(&'a Text, u32)> {
        let number = (site as usize).checked_sub(count_flows(self.node))?;
        let callee = callee_of(self.items.get(number)?)?;
        Some((callee, *self.ordinals.get(number)?))
    }

    /// Whether a `pre` or `current` reads the flow of this site.
    pub fn is_kept(&self, site: usize) -> bool {
        self.kept.get(site).copied().unwrap_or(false)
    }
}
