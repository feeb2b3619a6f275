//! Texts for people: why a source is refused, where things stand in it, and what documents about it say.
//!
//! It proves nothing about programs. It promises that each call returns, safely, with a text or for want of memory. It stands on the front
//! end for sources, on the readers of documents, and on `rv_bits` for where an observer is false. Begin with explaining.rt.
#![tactic(auto)]

mod badfile;
mod clashes;
mod conjuncts;
mod cover;
mod cycle;
mod duties;
mod evaluate;
mod explaining;
mod expression;
mod faults;
mod flows;
mod formula;
mod grid;
mod invariant;
mod kinds;
mod known;
mod lines;
mod names;
mod naming;
mod observed;
mod outcome;
mod places;
mod played;
mod possible;
mod record;
mod refusal;
mod refused;
mod regions;
mod rejected;
mod request;
mod rows;
mod sets;
mod sites;
mod sums;
mod table;
mod tokens;
mod trace;
mod unknown;
mod unshown;
mod vocabulary;

pub use cover::cover_of;
pub use explaining::explain;
pub use regions::{Region, Variable};
pub use request::{Answer, Asked};
pub use sets::Values;
