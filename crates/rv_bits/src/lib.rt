//! Boolean and enumeration expressions of a flat system, read into the references of a diagram store.
//!
//! `read_system` promises references for all that a control system of valuations is (`ArePartsRead`: allowed valuations, observer,
//! initial states, next state bits), and keeps what is read of ticks, memories, inputs and flows (`IsSystemRead`), over which
//! `read_expr` reads an expression more. What references show of an instant is `Shows` and `ReadsTo` (specs/Shown.antt); of an
//! integer they show nothing. Each flow, each body of a memory and each assertion is read once. It stands on `rv_control` for the
//! system of a flat system. Begin with whole.rt, then read.rt.
#![tactic(auto)]

mod around;
mod assertions;
mod bits;
mod coded;
mod flows;
mod following;
mod leaves;
mod names;
mod operators;
mod read;
mod tables;
mod whole;

pub use around::{Around, FlowRefs, Tables};
pub use assertions::{Asserted, parts_of};
pub use bits::ref_of;
pub use names::{Named, bits_of_kind, is_place, truth};
pub use read::read_expr;
pub use whole::{ReadSystem, read_system};
