//! Regions of control states and valuations: for each quantity the values that it may have.

use crate::sets::Values;
use rv_base::Memory;
use rv_diagram::Frozen;
use std::alloc::Global;

/// How many steps one search takes at most. One that takes more answers on the safe side.
const STEPS: u32 = 400_000;

/// How many steps are left to the searches for a cover.
#[derive(Debug, Drop)]
pub struct Effort {
    left: u64,
}

impl Effort {
    /// So many steps.
    pub fn new(left: u64) -> Effort {
        Effort { left }
    }

    /// Takes so many steps, and answers whether there were some left.
    pub fn spend(&mut self, steps: usize) -> bool {
        let was = self.left;
        self.left = was.saturating_sub(steps as u64);
        was > 0
    }
}

/// What a variable of diagrams says of a quantity: its number, and the values at which the variable is false and true.
#[derive(Clone, Copy, Debug)]
pub struct Variable {
    /// The number of the quantity.
    pub quantity: u32,
    /// The values at which the variable is false.
    pub no: Values,
    /// The values at which it is true.
    pub yes: Values,
}

/// For each quantity the values that it may have.
#[derive(Debug, Drop)]
pub struct Region {
    /// The values.
    pub values: Vec<Values>,
}

impl Region {
    /// The values that a quantity may have.
    pub fn at(&self, quantity: u32) -> Values {
        match self.values.get(quantity as usize) {
            Some(values) => *values,
            None => Values::none(),
        }
    }

    /// The same region with other values of one quantity.
    pub fn changed(&self, alloc: Global, quantity: u32, values: Values) -> Result<Region, Memory> {
        let mut copy = copy_of(alloc, self)?;
        copy.set(quantity, values);
        Ok(copy)
    }

    /// Gives a quantity other values.
    fn set(&mut self, quantity: u32, values: Values) {
        if let Some(place) = self.values.get_mut(quantity as usize) {
            *place = values;
        }
    }

    /// Leaves the values at which a variable has this truth.
    pub fn narrow(&mut self, variable: Variable, is_true: bool) {
        let own = if is_true { variable.yes } else { variable.no };
        let values = self.at(variable.quantity).and(own);
        self.set(variable.quantity, values);
    }

    /// The points that are in both.
    pub fn and(&self, alloc: Global, other: &Region) -> Result<Region, Memory> {
        let mut values = Vec::new(alloc);
        for (one, another) in self.values.as_slice().iter().zip(other.values.as_slice()) {
            values.push(one.and(*another))?;
        }
        Ok(Region { values })
    }

    /// Whether it has no point.
    pub fn is_empty(&self) -> bool {
        self.values.as_slice().iter().any(|own| own.is_empty())
    }

    /// Whether both have a point in common.
    fn meets(&self, other: &Region) -> bool {
        for (one, another) in self.values.as_slice().iter().zip(other.values.as_slice()) {
            if one.and(*another).is_empty() {
                return false;
            }
        }
        true
    }
}

/// Of each quantity the values that all regions have it at, where these are the same, and else all.
pub fn shared_of(alloc: Global, whole: &Region, regions: &[Region]) -> Result<Region, Memory> {
    let mut values = Vec::new(alloc);
    let mut quantity: u32 = 0;
    for all in whole.values.as_slice() {
        values.push(same_at(regions, quantity).unwrap_or(*all))?;
        quantity = quantity.saturating_add(1);
    }
    Ok(Region { values })
}

/// The values that all regions have a quantity at; none where these are not the same.
fn same_at(regions: &[Region], quantity: u32) -> Option<Values> {
    let first = regions.first()?.at(quantity);
    if regions.iter().all(|region| region.at(quantity) == first) {
        Some(first)
    } else {
        None
    }
}

/// Of each quantity the values that it has in some region.
pub fn hull_of(alloc: Global, whole: &Region, regions: &[Region]) -> Result<Region, Memory> {
    let mut values = Vec::new(alloc);
    let mut quantity: u32 = 0;
    for all in whole.values.as_slice() {
        let mut outside = *all;
        for region in regions {
            outside = outside.without(region.at(quantity));
        }
        values.push(all.without(outside))?;
        quantity = quantity.saturating_add(1);
    }
    Ok(Region { values })
}

/// What is left to look at: a reference of the diagram, and the values that the quantity of the last variable may still have.
#[derive(Clone, Copy)]
struct Open {
    reference: u32,
    quantity: Option<u32>,
    values: Values,
}

/// A node of a diagram: its number, its variable, and its children.
#[derive(Clone, Copy)]
struct Node {
    number: usize,
    var: u32,
    low: u32,
    high: u32,
}

/// What a reference of a diagram is.
enum Seen {
    False,
    True,
    Node(Node),
}

/// What a reference of a diagram is.
fn look(diagram: &Frozen, reference: u32) -> Seen {
    match reference {
        0 => Seen::False,
        1 => Seen::True,
        _ => {
            let number = (reference - 2) as usize;
            match diagram.nodes.get(number) {
                Some(node) => Seen::Node(Node {
                    number,
                    var: node.var,
                    low: node.lo,
                    high: node.hi,
                }),
                None => Seen::False,
            }
        }
    }
}

/// The variable with this number.
fn variable_at(variables: &[Option<Variable>], number: u32) -> Option<Variable> {
    *variables.get(number as usize)?
}

/// Marks a node, and answers whether it had been marked.
fn mark(marks: &mut Vec<bool>, number: usize) -> bool {
    match marks.get_mut(number) {
        Some(place) => {
            let was = *place;
            *place = true;
            was
        }
        None => false,
    }
}

/// Adds both children of a node, each where its values are left.
fn push_children(
    stack: &mut Vec<Open>,
    variable: Variable,
    values: Values,
    node: &Node,
) -> Result<(), Memory> {
    for (reference, own) in [(node.low, variable.no), (node.high, variable.yes)] {
        let left = values.and(own);
        if !left.is_empty() {
            stack.push(Open {
                reference,
                quantity: Some(variable.quantity),
                values: left,
            })?;
        }
    }
    Ok(())
}

/// What is left to look at in a diagram, and which nodes were seen before.
#[derive(Drop)]
struct Looking {
    stack: Vec<Open>,
    marks: Vec<bool>,
}

impl Looking {
    /// The root of a diagram.
    fn new(alloc: Global, diagram: &Frozen) -> Result<Looking, Memory> {
        let mut marks = Vec::new(alloc);
        for _ in diagram.nodes.as_slice() {
            marks.push(false)?;
        }
        let mut stack = Vec::new(alloc);
        stack.push(Open {
            reference: diagram.root,
            quantity: None,
            values: Values::none(),
        })?;
        Ok(Looking { stack, marks })
    }

    /// Adds the children of a node that has this variable: within a region, where its quantity is another than that of the node above it.
    fn go_on(
        &mut self,
        region: &Region,
        open: Open,
        variable: Variable,
        node: &Node,
    ) -> Result<(), Memory> {
        if open.quantity == Some(variable.quantity) {
            return push_children(&mut self.stack, variable, open.values, node);
        }
        if mark(&mut self.marks, node.number) {
            return Ok(());
        }
        let values = region.at(variable.quantity);
        push_children(&mut self.stack, variable, values, node)
    }
}

/// Whether the diagram is true in the whole region; no, where that takes too many steps to see.
pub fn is_within(
    alloc: Global,
    effort: &mut Effort,
    variables: &[Option<Variable>],
    region: &Region,
    diagram: &Frozen,
) -> Result<bool, Memory> {
    let mut looking = Looking::new(alloc, diagram)?;
    let _ = effort.spend(diagram.nodes.len());
    for _ in 0..STEPS {
        let Some(open) = looking.stack.pop() else {
            return Ok(true);
        };
        if !effort.spend(1) {
            return Ok(false);
        }
        match look(diagram, open.reference) {
            Seen::False => return Ok(false),
            Seen::True => {}
            Seen::Node(node) => match variable_at(variables, node.var) {
                None => return Ok(false),
                Some(variable) => looking.go_on(region, open, variable, &node)?,
            },
        }
    }
    Ok(false)
}

/// A reference of a diagram, and the region in which it is reached.
#[derive(Drop)]
struct Way {
    reference: u32,
    region: Region,
}

/// Adds both children of a node, each in what is left of a region.
fn push_ways(
    alloc: Global,
    stack: &mut Vec<Way>,
    region: &Region,
    variable: Variable,
    node: &Node,
) -> Result<(), Memory> {
    for (reference, own) in [(node.high, variable.yes), (node.low, variable.no)] {
        let values = region.at(variable.quantity).and(own);
        if !values.is_empty() {
            let region = region.changed(alloc, variable.quantity, values)?;
            stack.push(Way { reference, region })?;
        }
    }
    Ok(())
}

/// The regions of the ways of a diagram to true, which have no point in common and together are all at which it is true. None where there
/// are more than `most`, or where it takes too many steps to find them.
pub fn ways(
    alloc: Global,
    effort: &mut Effort,
    variables: &[Option<Variable>],
    whole: &Region,
    diagram: &Frozen,
    most: usize,
) -> Result<Option<Vec<Region>>, Memory> {
    let mut found = Vec::new(alloc);
    let mut stack = Vec::new(alloc);
    stack.push(Way {
        reference: diagram.root,
        region: copy_of(alloc, whole)?,
    })?;
    for _ in 0..STEPS {
        if found.len() > most {
            return Ok(None);
        }
        let Some(Way { reference, region }) = stack.pop() else {
            return Ok(Some(found));
        };
        if !effort.spend(region.values.len()) {
            return Ok(None);
        }
        match look(diagram, reference) {
            Seen::False => {}
            Seen::True => found.push(region)?,
            Seen::Node(node) => match variable_at(variables, node.var) {
                Some(variable) => push_ways(alloc, &mut stack, &region, variable, &node)?,
                None => return Ok(None),
            },
        }
    }
    Ok(None)
}

/// The same region.
pub fn copy_of(alloc: Global, region: &Region) -> Result<Region, Memory> {
    Ok(Region {
        values: Vec::from_slice(alloc, region.values.as_slice())?,
    })
}

/// A region, without those of the first so many of a list.
#[derive(Drop)]
struct Rest {
    region: Region,
    passed: usize,
}

/// Adds what of a region is not in another, as regions that have no point in common.
fn push_rest(
    alloc: Global,
    stack: &mut Vec<Rest>,
    region: &Region,
    other: &Region,
    passed: usize,
) -> Result<(), Memory> {
    let mut front = copy_of(alloc, region)?;
    let mut quantity: u32 = 0;
    for own in other.values.as_slice() {
        let values = front.at(quantity);
        let outside = values.without(*own);
        if !outside.is_empty() {
            stack.push(Rest {
                region: front.changed(alloc, quantity, outside)?,
                passed,
            })?;
        }
        front.set(quantity, values.and(*own));
        quantity = quantity.saturating_add(1);
    }
    Ok(())
}

/// The number of the first region from this number on that has a point in common with the given one.
fn meeting(regions: &[&Region], region: &Region, passed: usize) -> Option<usize> {
    let mut number = passed;
    for other in regions.iter().skip(passed) {
        if other.meets(region) {
            return Some(number);
        }
        number = number.saturating_add(1);
    }
    None
}

/// Whether each point of a region is in one of others; no, where that takes too many steps to see.
pub fn is_covered(
    alloc: Global,
    effort: &mut Effort,
    region: &Region,
    others: &[&Region],
) -> Result<bool, Memory> {
    let mut stack = Vec::new(alloc);
    stack.push(Rest {
        region: copy_of(alloc, region)?,
        passed: 0,
    })?;
    for _ in 0..STEPS / 40 {
        let Some(rest) = stack.pop() else {
            return Ok(true);
        };
        if !effort.spend(others.len().saturating_add(region.values.len())) {
            return Ok(false);
        }
        let Some(number) = meeting(others, &rest.region, rest.passed) else {
            return Ok(false);
        };
        if let Some(other) = others.get(number) {
            let passed = number.saturating_add(1);
            push_rest(alloc, &mut stack, &rest.region, other, passed)?;
        }
    }
    Ok(false)
}
