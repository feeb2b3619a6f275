//! The names of memories, inputs and tests, and tests as sums.

use crate::expression::put_expression;
use crate::names::Names;
use crate::sites::{Item, flow_at};
use crate::sums::{Piece, Sum, Sums, Weighed, add_count, spread};
use rv_base::{Memory, Place};
use rv_flat::{Column, Flat};
use rv_tree::{Expr, ExprForm, Node, Op};
use rv_types::Kind;
use std::alloc::Global;

/// How many parts of a comparison are looked at.
const STEPS: u32 = 10_000;

/// What the names of quantities are made over.
#[derive(Clone, Copy)]
pub struct Words<'a, 'b> {
    /// The allocator.
    pub alloc: Global,
    /// The nodes.
    pub names: &'b Names<'a>,
    /// The number of the main node.
    pub main: u32,
    /// The flat system.
    pub flat: &'b Flat,
}

/// A comparison of the source: its node, and both sides.
#[derive(Clone, Copy)]
struct Compared<'a> {
    node: &'a Node,
    op: Op,
    left: &'a Expr,
    right: &'a Expr,
}

impl<'a> Words<'a, '_> {
    /// Adds the path of an instance below the main node.
    fn put_instance(&self, text: &mut String, calls: &[u32]) -> Result<(), Memory> {
        let mut path = String::new(self.alloc);
        let _ = self.names.put_path(&mut path, self.main, calls)?;
        match path.as_str().split_once('/') {
            Some((_, inner)) => text.push_str(inner)?,
            None => {}
        }
        Ok(())
    }

    /// Adds what stands at a place: of a flow of the main node its name, of another its path, of another expression its text.
    fn put_named(&self, text: &mut String, place: &Place) -> Result<(), Memory> {
        let calls = place.sites.front();
        let node = match self.names.node_of(self.main, calls) {
            Some(node) => self.names.node(node),
            None => None,
        };
        let (Some(node), Some(site)) = (node, place.sites.last()) else {
            return Ok(());
        };
        self.put_instance(text, calls)?;
        if let Some((decl, _)) = flow_at(node.node, site as usize) {
            text.push_str(if calls.is_empty() { "" } else { "." })?;
            text.push_str(decl.name.text.as_str())?;
        } else if let Some(Item::Expression(e)) = node.item(site) {
            text.push_str(if calls.is_empty() { "" } else { ": " })?;
            put_expression(text, e)?;
        }
        Ok(())
    }

    /// Whether a flow stands at a place.
    fn is_flow(&self, place: &Place) -> bool {
        let node = match self.names.node_of(self.main, place.sites.front()) {
            Some(node) => self.names.node(node),
            None => None,
        };
        match (node, place.sites.last()) {
            (Some(node), Some(site)) => flow_at(node.node, site as usize).is_some(),
            _ => false,
        }
    }

    /// What stands at a place, between two texts.
    pub fn named(&self, before: &str, place: &Place, behind: &str) -> Result<String, Memory> {
        let mut text = String::from_str(self.alloc, before)?;
        self.put_named(&mut text, place)?;
        text.push_str(behind)?;
        Ok(text)
    }

    /// The name of the memory at a place: of a flow `pre` of it, of another expression its text.
    pub fn memory_name(&self, place: &Place) -> Result<String, Memory> {
        let before = if self.is_flow(place) { "pre " } else { "" };
        self.named(before, place, "")
    }

    /// The type of the memory at a place.
    pub fn memory_kind(&self, place: &Place) -> Kind {
        for memory in self.flat.memories.as_slice() {
            if memory.place == *place {
                return memory.kind;
            }
        }
        Kind::Bool
    }

    /// The name of a column.
    pub fn column_name(&self, column: &Column) -> Result<String, Memory> {
        match column {
            Column::Kept(place) => self.memory_name(place),
            Column::Input(number) => {
                let name = match self.flat.inputs.get(*number as usize) {
                    Some(input) => input.name.as_str(),
                    None => "",
                };
                Ok(String::from_str(self.alloc, name)?)
            }
        }
    }

    /// The comparison at a place.
    fn compared(&self, place: &Place) -> Option<Compared<'a>> {
        let node = self.names.node_of(self.main, place.sites.front())?;
        let sites = self.names.node(node)?;
        let Item::Expression(e) = sites.item(place.sites.last()?)? else {
            return None;
        };
        match &e.form {
            ExprForm::Binary(op, left, right) => Some(Compared {
                node: sites.node,
                op: *op,
                left: left.get(),
                right: right.get(),
            }),
            _ => None,
        }
    }

    /// Whether the comparison at a place is of equality.
    pub fn is_equality(&self, place: &Place) -> bool {
        match self.compared(place) {
            Some(compared) => matches!(compared.op, Op::Equal | Op::Differs),
            None => false,
        }
    }

    /// The text of a comparison with another sign in the place of its own, behind the path of its instance.
    pub fn test_name(&self, place: &Place, sign: &str) -> Result<String, Memory> {
        let mut text = String::new(self.alloc);
        let calls = place.sites.front();
        if !calls.is_empty() {
            self.put_instance(&mut text, calls)?;
            text.push_str(": ")?;
        }
        if let Some(compared) = self.compared(place) {
            put_operand(&mut text, compared.left)?;
            text.push(' ')?;
            text.push_str(sign)?;
            text.push(' ')?;
            put_operand(&mut text, compared.right)?;
        }
        Ok(text)
    }

    /// The name of a term of an instance, as memories and inputs are named.
    fn term_name(&self, calls: &[u32], e: &Expr) -> Result<String, Memory> {
        let mut text = String::new(self.alloc);
        if calls.is_empty() {
            put_expression(&mut text, e)?;
            return Ok(text);
        }
        let (before, between, own) = match &e.form {
            ExprForm::Named(_) => ("", ".", e),
            ExprForm::Pre(operand) => match &operand.form {
                ExprForm::Named(_) => ("pre ", ".", operand.get()),
                _ => ("", ": ", e),
            },
            _ => ("", ": ", e),
        };
        text.push_str(before)?;
        self.put_instance(&mut text, calls)?;
        text.push_str(between)?;
        put_expression(&mut text, own)?;
        Ok(text)
    }

    /// The left side of the comparison at a place less the right one, as a sum; none where it is too long or a number is out of range.
    pub fn sum_of(&self, sums: &mut Sums, place: &Place) -> Result<Option<Sum>, Memory> {
        let Some(compared) = self.compared(place) else {
            return Ok(None);
        };
        let node = Some(compared.node);
        let (left, right) = (compared.left, compared.right);
        let mut stack: Vec<Weighed> = Vec::new(self.alloc);
        stack.push(Weighed {
            e: left,
            times: 1,
            node,
        })?;
        stack.push(Weighed {
            e: right,
            times: -1,
            node,
        })?;
        let mut sum = Sum {
            counts: Vec::new(self.alloc),
            constant: 0,
        };
        for _ in 0..STEPS {
            let Some(part) = stack.pop() else {
                return Ok(Some(sum));
            };
            if !self.take(sums, place, &mut stack, &mut sum, part)? {
                return Ok(None);
            }
        }
        Ok(None)
    }

    /// Adds a part to a sum, or to what is still to be looked at; no, where a number is out of range.
    fn take(
        &self,
        sums: &mut Sums,
        place: &Place,
        stack: &mut Vec<Weighed<'a>>,
        sum: &mut Sum,
        part: Weighed<'a>,
    ) -> Result<bool, Memory> {
        match spread(self.names.program, part) {
            None => return Ok(false),
            Some(Piece::Number(number)) => match sum.constant.checked_add(number) {
                Some(constant) => sum.constant = constant,
                None => return Ok(false),
            },
            Some(Piece::One(other)) => stack.push(other)?,
            Some(Piece::Two(first, second)) => {
                stack.push(second)?;
                stack.push(first)?;
            }
            Some(Piece::Term) => {
                let name = self.term_name(place.sites.front(), part.e)?;
                let term = sums.term(self.alloc, name.as_str())?;
                return add_count(&mut sum.counts, term, part.times);
            }
        }
        Ok(true)
    }
}

/// Adds an operand of a comparison.
fn put_operand(text: &mut String, e: &Expr) -> Result<(), Memory> {
    let brackets = match &e.form {
        ExprForm::If(_, _, _) => true,
        ExprForm::Binary(op, _, _) => !matches!(*op, Op::Plus | Op::Minus | Op::Times),
        _ => false,
    };
    if brackets {
        text.push('(')?;
    }
    put_expression(text, e)?;
    if brackets {
        text.push(')')?;
    }
    Ok(())
}
