//! The parts of a flat system.

use rv_base::{Box, Many, Place, Text, Value};
use rv_tree::Op;
use rv_types::Kind;

/// An order test of a comparison of `a` and `b`.
#[derive(Clone, Copy, Debug, PartialEq, Eq)]
pub enum Side {
    /// Whether `a - b <= 0`.
    AtMost,
    /// Whether `b - a <= 0`.
    AtLeast,
}

/// A diagram variable.
#[derive(Debug, Drop)]
pub enum Bit {
    /// Whether the main node's base clock has been there before.
    MainTick,
    /// Whether the clock of the flow at this place has been there before.
    Tick(Place),
    /// A bit of the memory at this place, by the bit's number; bit 0 is the least significant.
    Kept(Place, u32),
    /// The next copy of the variable before it.
    Next,
    /// A bit of an input of the main node, by the numbers of both.
    Input(u32, u32),
    /// An order test of the comparison at this place.
    Test(Place, Side),
}

/// A column of rows over integers: the memory at a place, or an input of the main node by its number.
#[derive(Debug, Drop)]
pub enum Column {
    Kept(Place),
    Input(u32),
}

/// A memory: its place, the type of what it holds, the number of the flow of its clock (none for the main node's base
/// clock), and what it takes where that clock is there.
#[derive(Debug, Drop)]
pub struct FlatMemory {
    pub place: Place,
    pub kind: Kind,
    pub clock: Option<u32>,
    pub body: FlatExpr,
}

/// An input of the main node.
#[derive(Debug, Drop)]
pub struct FlatInput {
    pub name: Text,
    pub kind: Kind,
}

/// A flow: its place, its type, the number of the flow of its clock (none for the main node's base clock), and what gives it
/// where that clock is there.
#[derive(Debug, Drop)]
pub struct FlatFlow {
    pub place: Place,
    pub kind: Kind,
    pub clock: Option<u32>,
    pub body: FlatExpr,
}

/// An expression over the flows before it. It tells where each part of it is present: an operator hands its clock on to its
/// operands, the operand of `When` is on the clock of the flow that it names, and what `Current` shows is on the clock of its
/// memory. A comparison of integers has the place by which its order tests name it, and the
/// whole of an assertion that by which a false one is told; every other expression has the empty place.
#[cycle(flat_expr)]
#[derive(Debug, Drop)]
pub struct FlatExpr {
    pub at: Place,
    pub form: FlatForm,
}

/// What a flat expression is made of. A flow, a memory, a tick and an input stand by their numbers, counted from 0; the
/// first tick is the main one, and the others are in the order of the diagram variables.
#[cycle(flat_expr)]
#[derive(Debug, Drop)]
pub enum FlatForm {
    Constant(Value),
    Flow(u32),
    Memory(u32),
    Ticked(u32),
    Input(u32),
    Not(Box<FlatExpr>),
    Binary(Op, Box<FlatExpr>, Box<FlatExpr>),
    /// The number times the operand.
    Scale(i128, Box<FlatExpr>),
    If(Box<FlatExpr>, Box<FlatExpr>, Box<FlatExpr>),
    AtMostOne(Many<FlatExpr>),
    /// The operand, which is on the clock of the flow with this number, where that flow is true.
    When(u32, Box<FlatExpr>),
    /// What the memory with this number takes where its clock is there, and what it holds elsewhere.
    Current(u32),
}
