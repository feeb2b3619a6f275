//! Comparisons of integers as bounds of sums, by which what follows from another is left out.

use crate::kinds::constant_of;
use crate::sites::site_of;
use indexmap::IndexMap;
use rv_base::{Memory, Text};
use rv_tree::{Expr, ExprForm, Node, Op, Program};
use std::alloc::Global;

/// A bound of a sum: the sum is at most a number, or at least that.
#[derive(Clone, Copy, Debug)]
pub struct Bound {
    /// The number of the sum.
    pub sum: u32,
    /// Whether the sum is at most the number.
    pub is_upper: bool,
    /// The number.
    pub number: i128,
}

impl Bound {
    /// Whether it holds wherever the other does.
    pub fn follows(self, other: Bound) -> bool {
        if self.sum != other.sum || self.is_upper != other.is_upper {
            return false;
        }
        if self.is_upper {
            other.number <= self.number
        } else {
            other.number >= self.number
        }
    }

    /// Whether no integer meets both this bound and the other.
    pub fn excludes(self, other: Bound) -> bool {
        if self.sum != other.sum || self.is_upper == other.is_upper {
            return false;
        }
        if self.is_upper {
            self.number < other.number
        } else {
            other.number < self.number
        }
    }
}

/// A sum of terms by their numbers, and a constant.
#[derive(Drop)]
pub struct Sum {
    /// How often each term is in it.
    pub counts: Vec<i128>,
    /// The constant.
    pub constant: i128,
}

/// The terms and the sums of them that were seen, each with its number.
#[derive(Drop)]
pub struct Sums {
    terms: IndexMap<Text, u32>,
    numbers: IndexMap<Text, u32>,
}

/// The number of a text, the next one where it is new.
fn number_in(alloc: Global, numbers: &mut IndexMap<Text, u32>, text: &str) -> Result<u32, Memory> {
    let key = Text::from_str(alloc, text)?;
    if let Some(number) = numbers.get(&key).copied() {
        return Ok(number);
    }
    let number = u32::try_from(numbers.len()).unwrap_or(u32::MAX);
    let _ = numbers.insert(key, number)?;
    Ok(number)
}

/// The text of a sum without its constant, with the other sign where it is turned; none where that is out of range.
fn key_of(alloc: Global, counts: &[i128], is_turned: bool) -> Result<Option<String>, Memory> {
    let mut key = String::new(alloc);
    let mut term: u32 = 0;
    for count in counts {
        let own = if is_turned {
            count.checked_neg()
        } else {
            Some(*count)
        };
        let Some(own) = own else {
            return Ok(None);
        };
        if own != 0 {
            write!(key, "{own}")?;
            write!(key, "*{term} ")?;
        }
        term = term.saturating_add(1);
    }
    Ok(Some(key))
}

/// Adds to how often a term is in a sum; no, where that is out of range.
pub fn add_count(counts: &mut Vec<i128>, term: u32, count: i128) -> Result<bool, Memory> {
    let wanted = term as usize;
    for _ in counts.len()..wanted.saturating_add(1) {
        counts.push(0)?;
    }
    match counts.get_mut(wanted) {
        Some(place) => match place.checked_add(count) {
            Some(whole) => {
                *place = whole;
                Ok(true)
            }
            None => Ok(false),
        },
        None => Ok(false),
    }
}

impl Sums {
    /// None yet.
    pub fn new(alloc: Global) -> Sums {
        Sums {
            terms: IndexMap::new(alloc),
            numbers: IndexMap::new(alloc),
        }
    }

    /// The number of a term.
    pub fn term(&mut self, alloc: Global, name: &str) -> Result<u32, Memory> {
        number_in(alloc, &mut self.terms, name)
    }

    /// The number of a sum that was seen, or of what it is with the other sign, which the flag tells.
    fn seen(&self, alloc: Global, sum: &Sum) -> Result<Option<(u32, bool)>, Memory> {
        for is_turned in [false, true] {
            if let Some(key) = key_of(alloc, sum.counts.as_slice(), is_turned)? {
                let key = Text::from_str(alloc, key.as_str())?;
                if let Some(number) = self.numbers.get(&key) {
                    return Ok(Some((*number, is_turned)));
                }
            }
        }
        Ok(None)
    }

    /// The bounds that a sum is at most 0 and that it is at least 0; none where they are out of range.
    pub fn bounds(&mut self, alloc: Global, sum: &Sum) -> Result<Option<(Bound, Bound)>, Memory> {
        if let Some((number, is_turned)) = self.seen(alloc, sum)? {
            return Ok(both(number, sum.constant, is_turned));
        }
        match key_of(alloc, sum.counts.as_slice(), false)? {
            Some(key) => {
                let number = number_in(alloc, &mut self.numbers, key.as_str())?;
                Ok(both(number, sum.constant, false))
            }
            None => Ok(None),
        }
    }

    /// The bound that a sum is at most 0, where it was seen.
    pub fn found(&self, alloc: Global, sum: &Sum) -> Result<Option<Bound>, Memory> {
        match self.seen(alloc, sum)? {
            Some((number, is_turned)) => match both(number, sum.constant, is_turned) {
                Some((upper, _)) => Ok(Some(upper)),
                None => Ok(None),
            },
            None => Ok(None),
        }
    }
}

/// The bounds that a sum, or what it is with the other sign, with a constant is at most 0 and at least 0; none where they are out of range.
fn both(sum: u32, constant: i128, is_turned: bool) -> Option<(Bound, Bound)> {
    let number = if is_turned {
        constant
    } else {
        constant.checked_neg()?
    };
    let upper = Bound {
        sum,
        is_upper: !is_turned,
        number,
    };
    let lower = Bound {
        sum,
        is_upper: is_turned,
        number,
    };
    Some((upper, lower))
}

/// The bound that holds where one does not; none where it is out of range.
pub fn denied(bound: Bound) -> Option<Bound> {
    let number = if bound.is_upper {
        bound.number.checked_add(1)?
    } else {
        bound.number.checked_sub(1)?
    };
    Some(Bound {
        sum: bound.sum,
        is_upper: !bound.is_upper,
        number,
    })
}

/// A part of a sum that is still to be looked at: an expression of a node, or of a constant where there is none, and how often it is in the sum.
#[derive(Clone, Copy)]
pub struct Weighed<'a> {
    /// The expression.
    pub e: &'a Expr,
    /// How often it is in the sum.
    pub times: i128,
    /// The node.
    pub node: Option<&'a Node>,
}

/// What a part of a sum is.
pub enum Piece<'a> {
    /// A number.
    Number(i128),
    /// Another part.
    One(Weighed<'a>),
    /// Two other parts.
    Two(Weighed<'a>, Weighed<'a>),
    /// A term.
    Term,
}

/// Another expression in the place of a part, so many times; none where that is out of range.
fn scaled<'a>(part: Weighed<'a>, e: &'a Expr, by: i128) -> Option<Weighed<'a>> {
    let times = part.times.checked_mul(by)?;
    Some(Weighed {
        e,
        times,
        node: part.node,
    })
}

/// What the name of a constant stands for.
fn body_of<'a>(program: &'a Program, node: Option<&'a Node>, name: &str) -> Option<&'a Expr> {
    let is_flow = match node {
        Some(node) => site_of(node, name).is_some(),
        None => false,
    };
    if is_flow {
        None
    } else {
        constant_of(program, name)
    }
}

/// The number that an expression is, written as it stands or as a constant.
fn number_of<'a>(program: &'a Program, node: Option<&'a Node>, e: &'a Expr) -> Option<i128> {
    match &e.form {
        ExprForm::Number(number) => Some(i128::from(*number)),
        ExprForm::Named(name) => match &body_of(program, node, name.as_str())?.form {
            ExprForm::Number(number) => Some(i128::from(*number)),
            _ => None,
        },
        _ => None,
    }
}

/// What a product is as a part of a sum; none where a number is out of range.
fn spread_product<'a>(
    program: &'a Program,
    part: Weighed<'a>,
    left: &'a Expr,
    right: &'a Expr,
) -> Option<Piece<'a>> {
    if let Some(number) = number_of(program, part.node, left) {
        return Some(Piece::One(scaled(part, right, number)?));
    }
    match number_of(program, part.node, right) {
        Some(number) => Some(Piece::One(scaled(part, left, number)?)),
        None => Some(Piece::Term),
    }
}

/// What a part of a sum is; none where a number is out of range.
pub fn spread<'a>(program: &'a Program, part: Weighed<'a>) -> Option<Piece<'a>> {
    match &part.e.form {
        ExprForm::Number(number) => {
            let number = part.times.checked_mul(i128::from(*number))?;
            Some(Piece::Number(number))
        }
        ExprForm::Named(name) => match body_of(program, part.node, name.as_str()) {
            Some(e) => Some(Piece::One(Weighed {
                e,
                times: part.times,
                node: None,
            })),
            None => Some(Piece::Term),
        },
        ExprForm::Minus(e) => Some(Piece::One(scaled(part, e.get(), -1)?)),
        ExprForm::Binary(Op::Plus, left, right) => {
            let first = scaled(part, left.get(), 1)?;
            Some(Piece::Two(first, scaled(part, right.get(), 1)?))
        }
        ExprForm::Binary(Op::Minus, left, right) => {
            let first = scaled(part, left.get(), 1)?;
            Some(Piece::Two(first, scaled(part, right.get(), -1)?))
        }
        ExprForm::Binary(Op::Times, left, right) => {
            spread_product(program, part, left.get(), right.get())
        }
        _ => Some(Piece::Term),
    }
}
