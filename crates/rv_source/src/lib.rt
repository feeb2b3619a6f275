//! From the bytes of a file to an accepted source: text, names, types and clocks, then recursion, sizes, cycles and weights.
//!
//! It promises that `read_source` answers the source that the bytes are, or the first fault. It joins `rv_syntax`, `rv_types`
//! and `rv_causality`, which know nothing of each other's insides. Begin with reading.rt, then specs/Sources.antt.
#![tactic(auto)]

mod fault;
mod numbers;
mod reading;

pub use fault::SourceFault;
pub use numbers::numbers_are_small;
pub use reading::read_source;
