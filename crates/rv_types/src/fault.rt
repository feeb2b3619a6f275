//! Why a program is refused, and what the rules say of one expression.

ghost use Rattle.rv_types.specs.declared.fault.NameFault.TheVariants.{Memory as NoMemory};
ghost use Rattle.std.specs.Prelude.{◌≡◌};

use crate::typed::{Clock, Kind};
use rv_base::Memory;
use std::alloc::AllocError;
use thiserror::Error;

/// The first rule of names, types and clocks that a program breaks, with the offset in its text.
#[derive(Clone, Copy, Debug, PartialEq, Eq, Error)]
pub enum NameFault {
    /// No node has the name of the main node.
    #[error("no such node")]
    NoNode,
    /// The use of a name that is not declared where it may be used.
    #[error("unknown name at {0}")]
    UnknownName(u32),
    /// The second declaration in one space, the second left side of a flow, or a left side that is an input.
    #[error("defined twice at {0}")]
    DefinedTwice(u32),
    /// The declaration of an output or local without an equation.
    #[error("not defined at {0}")]
    Undefined(u32),
    /// An expression whose parts have types that do not go together, or a clock that is not Boolean.
    #[error("types clash at {0}")]
    TypeClash(u32),
    /// A product of two operands neither of which is constant, or a division.
    #[error("not linear at {0}")]
    Nonlinear(u32),
    /// An expression whose parts have clocks that do not go together, or a declared clock without a base.
    #[error("clocks clash at {0}")]
    ClockClash(u32),
    /// The name of the main node, which has not one output, or one that is not Boolean.
    #[error("no observer at {0}")]
    NotObserver(u32),
    /// There was no memory.
    #[error("out of memory")]
    Memory,
}

impl From<AllocError> for NameFault {
    ghost from_gives = { λ _ e. e ≡ NoMemory };

    fn from(_: AllocError) -> Self {
        NameFault::Memory
    }
}

impl From<Memory> for NameFault {
    ghost from_gives = { λ _ e. e ≡ NoMemory };

    fn from(_: Memory) -> Self {
        NameFault::Memory
    }
}

/// What the rules of types say of one expression.
#[derive(Clone, Copy, Debug)]
pub enum Verdict {
    /// It has a type.
    Has(Kind),
    /// It has none, since a part has none.
    Silent,
    /// Its own rule fails.
    Clashes,
    /// It is a product or quotient that is not linear.
    Multiplies,
}

/// What the rules of clocks say of one expression.
#[derive(Clone, Copy, Debug)]
pub enum Pace {
    /// It may stand on any clock.
    Free,
    /// It is on a clock.
    At(Clock),
    /// It has none, since a part has none.
    Mute,
    /// Its own rule fails.
    Differ,
}
