//! Which parts of a conjunction are false at an instant, or may be in some cases.

use crate::evaluate::{Moment, value_of};
use crate::flows::flow_number;
use crate::names::Names;
use crate::possible::Case;
use crate::sites::{NodeSites, delayed, flow_at, parts, push_operands, site_of};
use rv_base::{Memory, Place, Value};
use rv_flat::{Flat, FlatExpr, FlatForm};
use rv_tree::{Equation, Expr, ExprForm, Op};
use std::alloc::Global;

/// How many parts are looked at: what a flow stands for is looked at in its place.
const STEPS: u32 = 100_000;

/// How many flows of a part are told.
const MOST_FLOWS: usize = 200;

/// A part that is false: its expression, the node in which it stands, and the place of a flow of its instance.
#[derive(Clone, Copy)]
pub struct Part<'a> {
    /// The expression.
    pub e: &'a Expr,
    /// The number of its node.
    pub node: u32,
    /// The place of some flow of its instance.
    pub near: &'a Place,
    /// The number of the flow whose right side it is.
    pub flow: Option<u32>,
}

/// A part that is looked at: beside that its flat expression.
#[derive(Clone, Copy)]
struct Looked<'a> {
    part: Part<'a>,
    flat: &'a FlatExpr,
}

/// By what a part is false.
#[derive(Clone, Copy)]
pub enum Judge<'a, 'b> {
    /// It is false at an instant.
    At(&'b Moment<'a>),
    /// It may be false in one of some cases.
    In(&'b [Case<'b>]),
}

impl Judge<'_, '_> {
    /// Whether an expression is false, or may be.
    fn fails(self, e: &FlatExpr) -> Result<bool, Memory> {
        match self {
            Judge::At(moment) => Ok(value_of(moment, e) == Some(Value::Flag(false))),
            Judge::In(cases) => may_fail_in(cases, e),
        }
    }
}

/// Whether an expression may be false in one of some cases.
fn may_fail_in(cases: &[Case], e: &FlatExpr) -> Result<bool, Memory> {
    for case in cases {
        if case.may_fail(e)? {
            return Ok(true);
        }
    }
    Ok(false)
}

/// What parts are looked for over.
#[derive(Clone, Copy)]
pub struct Search<'a, 'b> {
    /// The allocator.
    pub alloc: Global,
    /// The nodes.
    pub names: &'b Names<'a>,
    /// The number of the main node.
    pub main: u32,
    /// The flat system.
    pub flat: &'a Flat,
    /// By what a part is false.
    pub judge: Judge<'a, 'b>,
}

/// The equation of a node that gives the flow of this name alone.
pub fn equation_of<'a>(sites: &NodeSites<'a>, name: &str) -> Option<&'a Equation> {
    for equation in sites.node.equations.as_slice() {
        if let [left] = equation.lefts.as_slice() {
            if left.text.as_str() == name {
                return Some(equation);
            }
        }
    }
    None
}

/// The right side of the flow with this number, with its node, where an equation gives it alone.
pub fn given<'a>(
    names: &Names<'a>,
    main: u32,
    flat: &'a Flat,
    number: u32,
) -> Option<(Part<'a>, &'a FlatExpr)> {
    let flow = flat.flows.get(number as usize)?;
    let node = names.node_of(main, flow.place.sites.front())?;
    let sites = names.node(node)?;
    let (decl, _) = flow_at(sites.node, flow.place.sites.last()? as usize)?;
    let equation = equation_of(sites, decl.name.text.as_str())?;
    let part = Part {
        e: &equation.right,
        node,
        near: &flow.place,
        flow: Some(number),
    };
    Some((part, &flow.body))
}

/// The numbers of the flows that a part reads, each once, in the order of its text.
pub fn read_flows(
    alloc: Global,
    names: &Names,
    flat: &Flat,
    part: &Part,
) -> Result<Vec<u32>, Memory> {
    let mut found: Vec<u32> = Vec::new(alloc);
    let Some(sites) = names.node(part.node) else {
        return Ok(found);
    };
    for e in parts(alloc, part.e)? {
        if let Some(number) = flow_named(sites, flat, part.near, e) {
            if !found.as_slice().contains(&number) {
                found.push(number)?;
            }
            if found.len() >= MOST_FLOWS {
                return Ok(found);
            }
        }
    }
    Ok(found)
}

/// The number of the flow that an expression names, in the instance of a place.
fn flow_named(sites: &NodeSites, flat: &Flat, near: &Place, e: &Expr) -> Option<u32> {
    match &e.form {
        ExprForm::Named(name) => {
            let site = site_of(sites.node, name.as_str())?;
            flow_number(flat, near.sites.front(), site)
        }
        _ => None,
    }
}

/// What a part reads at an instant: a flow, or what a `pre` or `current` has, with the number of its memory.
#[derive(Clone, Copy)]
pub enum Read<'a> {
    /// The flow with this number.
    Flow(u32),
    /// A `pre` or `current`.
    Kept(&'a Expr, u32),
}

impl Read<'_> {
    /// Whether it is what another is.
    fn is(&self, other: &Read) -> bool {
        match (self, other) {
            (Read::Flow(one), Read::Flow(another)) => one == another,
            (Read::Kept(_, one), Read::Kept(_, another)) => one == another,
            _ => false,
        }
    }
}

/// What a part reads at an instant, each once, in the order of its text: of a `pre` or `current` that, and not what its operand reads.
pub fn reads_of<'a>(
    alloc: Global,
    names: &Names<'a>,
    flat: &Flat,
    part: &Part<'a>,
) -> Result<Vec<Read<'a>>, Memory> {
    let mut found: Vec<Read> = Vec::new(alloc);
    let Some(sites) = names.node(part.node) else {
        return Ok(found);
    };
    let mut stack = Vec::new(alloc);
    stack.push(part.e)?;
    for _ in 0..STEPS {
        let Some(e) = stack.pop() else {
            break;
        };
        match read_at(sites, flat, part.near, e) {
            Some(read) => if found.len() < MOST_FLOWS && !has_read(found.as_slice(), &read) {
                found.push(read)?;
            },
            None => push_operands(&mut stack, e)?,
        }
    }
    Ok(found)
}

/// Whether what is read is among what was found.
fn has_read(found: &[Read], read: &Read) -> bool {
    found.iter().any(|other| other.is(read))
}

/// What an expression is that is read as a whole, in the instance of a place.
fn read_at<'a>(sites: &NodeSites, flat: &Flat, near: &Place, e: &'a Expr) -> Option<Read<'a>> {
    match delayed(e) {
        Some(operand) => {
            let site = match &operand.form {
                ExprForm::Named(name) => u32::try_from(site_of(sites.node, name.as_str())?).ok()?,
                _ => e.site?,
            };
            Some(Read::Kept(e, memory_number(flat, near.sites.front(), site)?))
        }
        None => Some(Read::Flow(flow_named(sites, flat, near, e)?)),
    }
}

/// The number of the memory with this site in the instance with these call sites.
fn memory_number(flat: &Flat, calls: &[u32], site: u32) -> Option<u32> {
    let mut number: u32 = 0;
    for memory in flat.memories.as_slice() {
        let sites = &memory.place.sites;
        if sites.last() == Some(site) && sites.front() == calls {
            return Some(number);
        }
        number = number.saturating_add(1);
    }
    None
}

impl<'a> Search<'a, '_> {
    /// What a part that is a flow stands for: the right side of its equation.
    fn followed(&self, looked: &Looked<'a>) -> Option<Looked<'a>> {
        let FlatForm::Flow(number) = &looked.flat.form else {
            return None;
        };
        let (part, flat) = given(self.names, self.main, self.flat, *number)?;
        Some(Looked { part, flat })
    }

    /// Adds what is to be looked at in the place of a part, the last first, and answers whether there is something.
    fn push(&self, stack: &mut Vec<Looked<'a>>, looked: &Looked<'a>) -> Result<bool, Memory> {
        if let (ExprForm::Binary(Op::And, left, right), FlatForm::Binary(Op::And, one, other)) = (
            &looked.part.e.form,
            &looked.flat.form,
        ) {
            for (e, flat) in [(right.get(), other.get()), (left.get(), one.get())] {
                let part = Part {
                    e,
                    flow: None,
                    ..looked.part
                };
                stack.push(Looked { part, flat })?;
            }
            return Ok(true);
        }
        match self.followed(looked) {
            Some(next) => {
                stack.push(next)?;
                Ok(true)
            }
            None => Ok(false),
        }
    }

    /// The parts of the observer that are false; none where its flow is not given alone.
    pub fn false_in_observer(&self) -> Result<Vec<Part<'a>>, Memory> {
        match given(self.names, self.main, self.flat, self.flat.observer) {
            Some((part, body)) => self.false_parts(part, body),
            None => Ok(Vec::new(self.alloc)),
        }
    }

    /// The parts of a false expression that are false; the whole where none is found.
    pub fn false_parts(&self, part: Part<'a>, flat: &'a FlatExpr) -> Result<Vec<Part<'a>>, Memory> {
        let mut found = Vec::new(self.alloc);
        let mut stack = Vec::new(self.alloc);
        stack.push(Looked { part, flat })?;
        for _ in 0..STEPS {
            let Some(looked) = stack.pop() else {
                break;
            };
            if self.judge.fails(looked.flat)? && !self.push(&mut stack, &looked)? {
                found.push(looked.part)?;
            }
        }
        if found.is_empty() {
            found.push(part)?;
        }
        Ok(found)
    }
}
