//! The control states outside of a set to which valuations lead.
//!
//! It promises that `leaving` answers next control states of these valuations alone, among them each one that is outside of the set. A round
//! upward asks for no more, since the others are in its claim already: what is quantified is only where a valuation leads outside, which is
//! nowhere in most rounds. It knows systems alone, and no claims. It stands on `rv_symbolic` for systems in a store. Begin with exits.rt and
//! specs/Exits.antt.
#![tactic(auto)]

mod exits;
mod inside;

pub use exits::leaving;
